//! Lists of registers.
ghost use Rattle.std.specs.Prelude.{◌≡◌, ◌==◌, map, option_map, IfOk};
ghost use Rattle.std.specs.List.{slice_split};
ghost use Rattle.sl_model.specs.Answers.{Gives};
ghost use Rattle.command_words.specs.Answer.{usage_of};
ghost use Rattle.command_words.specs.Command as spec;

use crate::WordsErr;
use sl_isa::sets::set_of;
use sl_isa::{ArchName, Bank, Reg, RegSet, register_in, register_named};
use std::alloc::{AllocError, Global};

// Whether lists name registers of a bank by their numbers.
fn is_listed_bank(bank: Bank) -> bool
    ensures { result ≡ spec.is_listed_bank bank }
{
    match bank {
        Bank::General | Bank::Vector => true,
        Bank::Flags | Bank::Stack => false,
    }
}

// The register that a name of a list names: `flags`, or one of `x0` to `x30` and `v0` to `v31`, or
// of `r0` to `r12`, `lr` and `s0` to `s31`.
#[tactic(auto, unfolding(crate::specs::Command::listed_register))]
fn listed_register(arch: ArchName, name: &[u8]) -> Result<Reg, WordsErr>
    ensures { Gives usage_of (λ register. register) result (spec.listed_register arch name.now) }
{
    if name == b"flags".as_slice() {
        return Ok(register_in(Bank::Flags, 0));
    }
    let Some(register) = register_named(arch, name) else {
        return Err(WordsErr::Usage);
    };
    if !is_listed_bank(register.bank) {
        return Err(WordsErr::Usage);
    }
    Ok(register)
}

// What stands between the commas of a text.
fn names_in<'a>(alloc: Global, text: &'a [u8]) -> Result<Vec<&'a [u8]>, AllocError>
    ensures { IfOk result
        (λ names. map (λ name. name.now) names.items ≡ slice_split (λ c. c == 44) text.now) }
{
    text.split(|byte| *byte == b',').collect(alloc)
}

// The registers that names name.
fn listed_registers(alloc: Global, arch: ArchName, names: &[&[u8]]) -> Result<Vec<Reg>, WordsErr>
    ensures { Gives usage_of (λ registers. registers.items) result
        (spec.listed_registers arch (map (λ name. name.now) names.now)) }
{
    let mut registers = Vec::new(alloc);
    for name in names {
        let register = match listed_register(arch, name) {
            Ok(register) => register,
            Err(error) => return Err(error),
        };
        if registers.push(register).is_err() {
            return Err(WordsErr::NoMemory);
        }
    }
    Ok(registers)
}

// The set of registers that names name, between commas.
fn set_listed(alloc: Global, arch: ArchName, text: &[u8]) -> Result<RegSet, WordsErr>
    ensures { Gives usage_of (λ set. set) result (spec.set_listed arch text.now) }
{
    let names = names_in(alloc, text)?;
    let registers = listed_registers(alloc, arch, &names)?;
    Ok(set_of(&registers))
}

// The set of a list of registers, which may be `none`.
#[tactic(auto, unfolding(crate::specs::Command::register_set))]
fn register_set(alloc: Global, arch: ArchName, word: &str) -> Result<RegSet, WordsErr>
    ensures { Gives usage_of (λ set. set) result (spec.register_set arch word.now) }
{
    if word == "none" {
        return Ok(set_of(&[]));
    }
    set_listed(alloc, arch, word.as_bytes())
}

/// The registers that live on, where they are said.
#[tactic(auto, unfolding(crate::specs::Command::live_of))]
pub(crate) fn live_of(
    alloc: Global,
    arch: ArchName,
    word: Option<&str>,
) -> Result<Option<RegSet>, WordsErr>
    ensures { Gives usage_of (λ set. set) result
        (spec.live_of arch (option_map (λ text. text.now) word.entry)) }
{
    let Some(word) = word else {
        return Ok(None);
    };
    let set = register_set(alloc, arch, word)?;
    Ok(Some(set))
}

/// The registers that are free: none where nothing is said of them.
#[tactic(auto, unfolding(crate::specs::Command::free_of))]
pub(crate) fn free_of(alloc: Global, arch: ArchName, word: Option<&str>) -> Result<RegSet, WordsErr>
    ensures { Gives usage_of (λ set. set) result
        (spec.free_of arch (option_map (λ text. text.now) word.entry)) }
{
    let Some(word) = word else {
        return Ok(set_of(&[]));
    };
    register_set(alloc, arch, word)
}
