//! Reading a state.
ghost use Rattle.std.specs.Prelude.{◌≡◌, ◌+◌, ◌<◌, ◌≤◌, ◌^◌, length, None, Some, MatchOption, IfSome, OnOk, IfOk, ◌==◌};
ghost use Rattle.std.specs.List.{position_or_len};
ghost use Rattle.sl_model.specs.Text.{skip_blanks};
ghost use Rattle.sl_model.specs.Machine.{space_of, limit_of};
ghost use Rattle.sl_model.specs.Isa.{Isa};
ghost use Rattle.sl_model.specs.Lawful.{IsLawful};
ghost use Rattle.state_text.specs.StateText as spec;
ghost use Rattle.machine_sem.specs.Fits.{Fits};
ghost use Rattle.state_text.specs.Steps.{with_pair};
ghost use Rattle.state_text.specs.Views.{Enters, EntersLine, line_of};
ghost use Rattle.sl_model.specs.Answers.{Gives};

use crate::digits::{behind, read_number};
use machine_sem::State;
use sl_isa::{ArchName, Bank, Reg, register_named};
use sl_text::{Line, digit_of, lines};
use std::alloc::Global;

/// Why no state was read.
#[derive(Clone, Copy, Debug, PartialEq, Eq)]
pub enum StateErr {
    /// The line with this number, counted from 1, is no line of a state file: it has another
    /// shape, a value or an address that is too large, or a register or a byte that an
    /// earlier line has, or the same one.
    StateBad { line: u32 },
    /// No memory was found.
    NoMemory,
}

/// Why an entry isn't put in a state.
#[derive(Clone, Copy)]
pub enum EntryErr {
    /// It is bad.
    Bad,
    /// No memory was found.
    NoMemory,
}

// What stands before the first space of a text, and what stands behind it.
#[tactic(auto, unfolding(crate::specs::StateText::first_word))]
fn first_word(text: &[u8]) -> Option<(&[u8], &[u8])>
    ensures { MatchOption result (spec.first_word text.now ≡ None)
        (λ words. spec.first_word text.now ≡ Some (words.0.now, words.1.now)) }
{
    let end = word_length(text);
    if text.len() <= end {
        return None;
    }
    Some((&text[..end], &text[end + 1..]))
}

// The number of bytes before the first space of a text.
fn word_length(text: &[u8]) -> usize
    ensures { result ≡ position_or_len spec.is_space text.now }
{
    text.iter().take_while(|byte| **byte != b' ').count()
}

// ---- registers

// The greatest value of a register of a bank.
fn largest_value(arch: ArchName, bank: Bank) -> u128
    ensures { result + 1 ≡ limit_of arch bank }
{
    match bank {
        Bank::Flags => 15,
        Bank::Vector => match arch {
            ArchName::Arm64 => u128::MAX,
            ArchName::M4 => (1 << 32) - 1,
        },
        Bank::General | Bank::Stack => match arch {
            ArchName::Arm64 => (1 << 64) - 1,
            ArchName::M4 => (1 << 32) - 1,
        },
    }
}

// The value of a digit 0 or 1.
fn bit_value(digit: u8) -> Option<u128>
    ensures value { result ≡ spec.bit_value digit }
    ensures small { IfSome result (λ bit. bit < 2) }
{
    match digit {
        b'0' => Some(0),
        b'1' => Some(1),
        _ => None,
    }
}

// The flags by four digits.
#[tactic(auto, unfolding(crate::specs::StateText::flags_value))]
fn read_flags(digits: &[u8]) -> Option<u128>
    ensures { result ≡ spec.flags_value digits.now }
{
    if digits.len() != 4 {
        return None;
    }
    let negative = bit_value(digits[0])?;
    let zero = bit_value(digits[1])?;
    let carry = bit_value(digits[2])?;
    let overflow = bit_value(digits[3])?;
    Some(8 * negative + 4 * zero + 2 * carry + overflow)
}

// The value of a register of a bank.
#[tactic(auto, unfolding(crate::specs::StateText::value_below))]
fn read_value(arch: ArchName, bank: Bank, text: &[u8]) -> Option<u128>
    ensures { result ≡ spec.value_below (limit_of arch bank) bank text.now }
{
    let largest = largest_value(arch, bank);
    match bank {
        Bank::Flags => read_flags(text),
        Bank::General => read_number(largest, text),
        Bank::Vector => read_number(largest, text),
        Bank::Stack => read_number(largest, text),
    }
}

// Gives a register a value that has none yet.
#[tactic(auto, unfolding(crate::specs::StateText::with_register))]
fn enter_register(state: &mut State, register: Reg, value: u128) -> Result<(), EntryErr>
    ensures { Enters result (spec.with_register register value state.old) state.new }
{
    if state.kept(register).is_some() {
        return Err(EntryErr::Bad);
    }
    let Ok(()) = state.set_reg(register, value) else {
        return Err(EntryErr::NoMemory);
    };
    Ok(())
}

// Puts an entry of a register in a state.
#[tactic(auto, unfolding(crate::specs::StateText::with_value))]
fn enter_value(state: &mut State, arch: ArchName, name: &[u8], text: &[u8]) -> Result<(), EntryErr>
    ensures { Enters result (spec.with_value arch name.now text.now state.old) state.new }
{
    let Some(register) = register_named(arch, name) else {
        return Err(EntryErr::Bad);
    };
    let Some(digits) = behind(b"= ", text) else {
        return Err(EntryErr::Bad);
    };
    let Some(value) = read_value(arch, register.bank, digits) else {
        return Err(EntryErr::Bad);
    };
    enter_register(state, register, value)
}

// ---- memory

// The greatest address.
fn largest_address(arch: ArchName) -> u128
    ensures value { result + 1 ≡ space_of arch }
    ensures few { result < 2 ^ 64 }
{
    match arch {
        ArchName::Arm64 => (1 << 64) - 1,
        ArchName::M4 => (1 << 32) - 1,
    }
}

// Puts a byte at an address of the machine that has none yet.
#[tactic(auto, unfolding(crate::specs::StateText::with_byte))]
fn enter_byte(state: &mut State, arch: ArchName, address: u128, value: u8) -> Result<(), EntryErr>
    ensures enters { Enters result (spec.with_byte arch address value state.old) state.new }
    ensures within { OnOk result (address < 2 ^ 64) }
{
    if largest_address(arch) < address {
        return Err(EntryErr::Bad);
    }
    let address = address as u64;
    if state.kept_byte(address).is_some() {
        return Err(EntryErr::Bad);
    }
    let Ok(()) = state.set_byte(address, value) else {
        return Err(EntryErr::NoMemory);
    };
    Ok(())
}

// Puts the byte that two digits spell at an address.
#[tactic(auto, unfolding(crate::specs::Steps::with_pair))]
fn enter_pair(
    state: &mut State,
    arch: ArchName,
    address: u128,
    digits: (u8, u8),
) -> Result<(), EntryErr>
    ensures enters { Enters result (with_pair arch address digits.0 digits.1 state.old) state.new }
    ensures within { OnOk result (address < 2 ^ 64) }
{
    let Some(high) = digit_of(16, digits.0) else {
        return Err(EntryErr::Bad);
    };
    let Some(low) = digit_of(16, digits.1) else {
        return Err(EntryErr::Bad);
    };
    enter_byte(state, arch, address, 16 * high + low)
}

// Puts bytes, of two digits each, in memory from an address on.
fn enter_bytes(
    state: &mut State,
    arch: ArchName,
    first: u128,
    digits: &[u8],
) -> Result<(), EntryErr>
    requires { first ≤ 2 ^ 64 }
    ensures { Enters result (spec.with_bytes arch first digits.now state.old) state.new }
{
    let mut rest = digits;
    let mut address = first;
    while let [high, low, behind @ ..] = rest {
        enter_pair(state, arch, address, (*high, *low))?;
        address += 1;
        rest = behind;
    }
    if rest.is_empty() {
        return Ok(());
    }
    Err(EntryErr::Bad)
}

// Puts an entry of memory in a state.
#[tactic(auto, unfolding(crate::specs::StateText::with_memory))]
fn enter_memory(state: &mut State, arch: ArchName, text: &[u8]) -> Result<(), EntryErr>
    ensures { Enters result (spec.with_memory arch text.now state.old) state.new }
{
    let Some((address, text)) = first_word(text) else {
        return Err(EntryErr::Bad);
    };
    let Some(address) = read_number(largest_address(arch), address) else {
        return Err(EntryErr::Bad);
    };
    let Some(digits) = behind(b"= ", text) else {
        return Err(EntryErr::Bad);
    };
    if digits.is_empty() {
        return Err(EntryErr::Bad);
    }
    enter_bytes(state, arch, address, digits)
}

// ---- lines

// Puts an entry in a state.
#[tactic(auto, unfolding(crate::specs::StateText::with_entry))]
fn enter(state: &mut State, arch: ArchName, line: &[u8]) -> Result<(), EntryErr>
    ensures { Enters result (spec.with_entry arch line.now state.old) state.new }
{
    let Some((word, text)) = first_word(line) else {
        return Err(EntryErr::Bad);
    };
    if word == b"mem".as_slice() {
        return enter_memory(state, arch, text);
    }
    enter_value(state, arch, word, text)
}

// Whether a line is passed over: nothing but blanks, or a comment.
#[tactic(auto, unfolding(crate::specs::StateText::is_passed))]
fn is_passed(line: &[u8]) -> bool
    ensures { result ≡ spec.is_passed line.now }
{
    is_blank(line) || line.starts_with(b"//")
}

// Whether a line is nothing but blanks.
#[tactic(auto, unfolding(sl_model::specs::Text::skip_blanks))]
fn is_blank(line: &[u8]) -> bool
    ensures { result ≡ (length (skip_blanks line.now) == 0) }
{
    let mut rest = line;
    while let [b' ' | b'\t', behind @ ..] = rest {
        rest = behind;
    }
    rest.is_empty()
}

// Puts what a line says in a state.
#[tactic(auto, unfolding(crate::specs::StateText::with_line))]
fn enter_line(state: &mut State, arch: ArchName, line: Line<'_>) -> Result<(), StateErr>
    ensures { EntersLine line.entry.number result
        (spec.with_line arch line.entry.text.now state.old) state.new }
{
    let text = line.text.as_bytes();
    if is_passed(text) {
        return Ok(());
    }
    match enter(state, arch, text) {
        Ok(()) => Ok(()),
        Err(EntryErr::Bad) => Err(StateErr::StateBad { line: line.number }),
        Err(EntryErr::NoMemory) => Err(StateErr::NoMemory),
    }
}

/// Reads a state file for an architecture. The state that is read fits the architecture.
pub fn read_state(alloc: Global, arch: ArchName, text: &str) -> Result<State, StateErr>
    requires { length text.now < 2 ^ 31 }
    ensures read { Gives line_of (λ s. s) result (spec.read_state arch text.now) }
    ensures fits { IfOk result (λ s. (isa : Isa) → IsLawful isa → isa.name ≡ arch → Fits isa s) }
{
    let mut state = State::new(alloc);
    for line in lines(text, 1) {
        enter_line(&mut state, arch, line)?;
    }
    Ok(state)
}
