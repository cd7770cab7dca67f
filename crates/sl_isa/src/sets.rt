//! Sets of registers.
ghost use Rattle.std.specs.Prelude.{◌≡◌, ℕ, ◌<◌, ◌++◌, filter, IfOk, OnOk};
ghost use Rattle.sl_model.specs.RegSets.{bit_of, bank_size, with_reg, set_of, set_has, set_union, bank_regs, regs_in};
ghost use Rattle.sl_model.specs.Lawful.{bank_bits, suits_set};

use crate::names::register_in;
use sl_base::NoMemory;
use sl_model::register::{Bank, Reg, RegSet};
use std::alloc::{AllocError, Global};

/// The set of those registers that are of the machine: not symbolic, and
/// with a number that their bank has.
#[tactic(auto, unfolding(sl_model::specs::RegSets::set_of))]
pub fn set_of(regs: &[Reg]) -> RegSet
    ensures { result ≡ set_of regs.now }
{
    let mut set = RegSet { bits: 0 };
    for reg in regs.iter().rev() {
        set = with_reg(*reg, set);
    }
    set
}

/// A register beside those of a set, where it is of the machine.
fn with_reg(reg: Reg, set: RegSet) -> RegSet
    ensures { result ≡ with_reg reg set }
{
    if reg.symbolic {
        return set;
    }
    if reg.number >= bank_size(reg.bank) {
        return set;
    }
    RegSet {
        bits: (1 << bit_of(reg.bank, reg.number)) | set.bits,
    }
}

/// How many registers a bank has room for.
pub fn bank_size(bank: Bank) -> u16
    ensures { result ≡ bank_size bank }
{
    match bank {
        Bank::General | Bank::Vector => 32,
        Bank::Flags | Bank::Stack => 1,
    }
}

/// The bit in a set of a register of a bank.
pub fn bit_of(bank: Bank, number: u16) -> u32
    requires { number < bank_size bank }
    ensures bit { result ≡ bit_of bank number }
    ensures small { result < 128 }
{
    match bank {
        Bank::General => u32::from(number),
        Bank::Vector => 32 + u32::from(number),
        Bank::Flags => 64,
        Bank::Stack => 65,
    }
}

/// Is a register in a set? One that isn't of the machine is in none.
#[tactic(auto, unfolding(sl_model::specs::RegSets::set_has))]
pub fn set_has(set: RegSet, reg: Reg) -> bool
    ensures { result ≡ set_has set reg }
{
    if reg.symbolic {
        return false;
    }
    if reg.number >= bank_size(reg.bank) {
        return false;
    }
    (set.bits >> bit_of(reg.bank, reg.number)) % 2 == 1
}

/// The registers of either of two sets.
pub fn set_union(a: RegSet, b: RegSet) -> RegSet
    ensures { result ≡ set_union a b }
{
    RegSet {
        bits: a.bits | b.bits,
    }
}

/// The registers of a set, by their bits: general ones, vector ones, the flags and the stack
/// pointer. The only error is want of memory.
pub fn regs_in(alloc: Global, set: RegSet) -> Result<Vec<Reg>, NoMemory>
    ensures { IfOk result (λ regs. regs.items ≡ regs_in set) }
{
    let mut regs = Vec::new(alloc);
    push_bank(&mut regs, set, Bank::General)?;
    push_bank(&mut regs, set, Bank::Vector)?;
    push_bank(&mut regs, set, Bank::Flags)?;
    push_bank(&mut regs, set, Bank::Stack)?;
    Ok(regs)
}

/// Puts the registers of a bank that a set has behind others, ascending.
fn push_bank(regs: &mut Vec<Reg>, set: RegSet, bank: Bank) -> Result<(), NoMemory>
    ensures { OnOk result
        (regs.new.items ≡ regs.old.items ++ filter (set_has set) (bank_regs bank)) }
{
    for number in 0..bank_size(bank) {
        let reg = register_in(bank, number);
        if !set_has(set, reg) {
            continue;
        }
        regs.push(reg).map_err(AllocError::from)?;
    }
    Ok(())
}

// The bits of a set that are those of a bank.
fn bank_bits(bank: Bank, set: RegSet) -> u128
    ensures { result ≡ bank_bits bank set }
{
    match bank {
        Bank::General => set.bits % (1 << 32),
        Bank::Vector => (set.bits >> 32) % (1 << 32),
        Bank::Flags => (set.bits >> 64) % 2,
        Bank::Stack => (set.bits >> 65) % 2,
    }
}

/// May a register stand where a form takes those of a set? A symbolic register may where
/// one of its bank may.
pub fn suits_set(reg: Reg, set: RegSet) -> bool
    ensures { result ≡ suits_set (reg, set) }
{
    if reg.symbolic {
        return bank_bits(reg.bank, set) > 0;
    }
    set_has(set, reg)
}
