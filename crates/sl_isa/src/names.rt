//! The names of registers.
ghost use Rattle.std.specs.Prelude.{◌≡◌, ◌+◌, ◌<◌, ◌++◌, ◌∷◌, OnOk};
ghost use Rattle.std.specs.Str.{bytes_eq};
ghost use Rattle.std.specs.Fmt.{decimal};
ghost use Rattle.sl_model.specs.declared.register.Bank.TheVariants.{General};
ghost use Rattle.sl_model.specs.RegisterNames as spec;

use itoa::Buffer;
use sl_base::{NoMemory, append, append_labelled};
use sl_model::instruction::ArchName;
use sl_model::register::{Bank, Reg};

/// The register of the machine with a number in its bank.
pub fn register_in(bank: Bank, number: u16) -> Reg
    ensures { result ≡ spec.register_in bank number }
{
    Reg {
        bank,
        symbolic: false,
        number,
    }
}

// Whether a word is a letter and a number.
fn is_numbered(letter: u8, number: u16, word: &[u8]) -> bool
    ensures { result ≡ bytes_eq (letter ∷ decimal number) word.now }
{
    let Some((first, digits)) = word.split_first() else {
        return false;
    };
    letter == *first && Buffer::new().format(number).as_bytes() == digits
}

// Whether a word is the name of a register.
#[tactic(auto, unfolding(sl_model::specs::RegisterNames::name_in))]
fn is_name(arch: ArchName, bank: Bank, number: u16, word: &[u8]) -> bool
    ensures { result ≡ bytes_eq (spec.name_in arch bank number) word.now }
{
    match bank {
        Bank::General => is_general_name(arch, number, word),
        Bank::Vector => match arch {
            ArchName::Arm64 => is_numbered(b'v', number, word),
            ArchName::M4 => is_numbered(b's', number, word),
        },
        Bank::Flags => b"nzcv".as_slice() == word,
        Bank::Stack => b"sp".as_slice() == word,
    }
}

// Whether a word is the name of a general register.
#[tactic(auto, unfolding(sl_model::specs::RegisterNames::name_in))]
fn is_general_name(arch: ArchName, number: u16, word: &[u8]) -> bool
    ensures { result ≡ bytes_eq (spec.name_in arch General number) word.now }
{
    match arch {
        ArchName::Arm64 => is_numbered(b'x', number, word),
        ArchName::M4 => {
            if number == 14 {
                return b"lr".as_slice() == word;
            }
            is_numbered(b'r', number, word)
        }
    }
}

// The register that a word names, among so many of a bank from a number on.
#[tactic(auto, using(crate::proofs::Naming::named_none, crate::proofs::Naming::named_here, crate::proofs::Naming::named_later))]
fn find_from(arch: ArchName, bank: Bank, first: u16, count: u16, word: &[u8]) -> Option<Reg>
    requires { first + count < 65536 }
    ensures { result ≡ spec.named_among arch word.now (spec.registers_from bank first count) }
{
    if count == 0 {
        return None;
    }
    if is_name(arch, bank, first, word) {
        return Some(register_in(bank, first));
    }
    find_from(arch, bank, first + 1, count - 1, word)
}

// The general register that a word names.
#[tactic(auto, using(crate::proofs::Naming::named_in_two), unfolding(sl_model::specs::RegisterNames::general_registers))]
fn general_named(arch: ArchName, word: &[u8]) -> Option<Reg>
    ensures { result ≡ spec.named_among arch word.now (spec.general_registers arch) }
{
    match arch {
        ArchName::Arm64 => find_from(arch, Bank::General, 0, 31, word),
        ArchName::M4 => find_from(arch, Bank::General, 0, 13, word).or(find_from(
            arch,
            Bank::General,
            14,
            1,
            word,
        )),
    }
}

// The stack pointer, the vector register or the flags that a word names.
#[tactic(auto, using(crate::proofs::Naming::named_in_two), unfolding(sl_model::specs::RegisterNames::other_registers))]
fn other_named(arch: ArchName, word: &[u8]) -> Option<Reg>
    ensures { result ≡ spec.named_among arch word.now spec.other_registers }
{
    let stack = find_from(arch, Bank::Stack, 0, 1, word);
    let vector = find_from(arch, Bank::Vector, 0, 32, word);
    let flags = find_from(arch, Bank::Flags, 0, 1, word);
    stack.or(vector.or(flags))
}

/// The register of the machine that a word names.
#[tactic(auto, using(crate::proofs::Naming::named_in_two))]
pub fn register_named(arch: ArchName, word: &[u8]) -> Option<Reg>
    ensures { result ≡ spec.register_named arch word.now }
{
    general_named(arch, word).or(other_named(arch, word))
}

// Adds the name of a general register.
#[tactic(auto, unfolding(sl_model::specs::RegisterNames::name_in))]
fn push_general_name(out: &mut Vec<u8>, arch: ArchName, number: u16) -> Result<(), NoMemory>
    ensures { OnOk result (out.new.items ≡ out.old.items ++ spec.name_in arch General number) }
{
    match arch {
        ArchName::Arm64 => append_labelled(out, &[b'x'], u64::from(number)),
        ArchName::M4 => {
            if number == 14 {
                return append(out, b"lr");
            }
            append_labelled(out, &[b'r'], u64::from(number))
        }
    }
}

/// Adds the name of a register. Where memory runs out, a part of it may be there.
#[tactic(auto, unfolding(sl_model::specs::RegisterNames::name_in))]
pub fn push_name(out: &mut Vec<u8>, arch: ArchName, bank: Bank, number: u16) -> Result<(), NoMemory>
    ensures { OnOk result (out.new.items ≡ out.old.items ++ spec.name_in arch bank number) }
{
    match bank {
        Bank::General => push_general_name(out, arch, number),
        Bank::Vector => match arch {
            ArchName::Arm64 => append_labelled(out, &[b'v'], u64::from(number)),
            ArchName::M4 => append_labelled(out, &[b's'], u64::from(number)),
        },
        Bank::Flags => append(out, b"nzcv"),
        Bank::Stack => append(out, b"sp"),
    }
}
