//! The registers of the machine by their bits in a set.
ghost use Rattle.std.specs.Prelude.{◌≡◌, false};
ghost use Rattle.sl_model.specs.RegSets.{bit_of};
ghost use Rattle.search_space.specs.Trials.{reg_of_bit};

use sl_model::register::{Bank, Reg};

/// How many registers the machine has.
pub const REGS: u16 = 66;

/// The register with a bit in a set.
pub fn reg_of_bit(bit: u16) -> Reg
    ensures { result ≡ reg_of_bit bit }
{
    if bit < 32 {
        return machine_reg(Bank::General, bit);
    }
    if bit < 64 {
        return machine_reg(Bank::Vector, bit - 32);
    }
    if bit == 64 {
        return machine_reg(Bank::Flags, 0);
    }
    machine_reg(Bank::Stack, 0)
}

// A register of the machine.
fn machine_reg(bank: Bank, number: u16) -> Reg
    ensures { result ≡ record { bank = bank; symbolic = false; number = number } }
{
    Reg {
        bank,
        symbolic: false,
        number,
    }
}

/// The bit of a register in a set, by which registers are ordered. A register that isn't of the
/// machine has one too, and is in no set.
pub fn bit_of(reg: Reg) -> u32
    ensures { result ≡ bit_of reg.bank reg.number }
{
    match reg.bank {
        Bank::General => u32::from(reg.number),
        Bank::Vector => 32 + u32::from(reg.number),
        Bank::Flags => 64,
        Bank::Stack => 65,
    }
}
