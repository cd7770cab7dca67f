//! Registers and sets of registers.

/// The bank of a register.
#[derive(Clone, Copy, Debug, PartialEq, Eq)]
pub enum Bank {
    /// `x0` to `x30` and the zero register (number 31), or `r0` to `r12` and `lr` (number 14).
    General,
    /// `v0` to `v31`, or `s0` to `s31`.
    Vector,
    /// The one register of the flags N, Z, C, V.
    Flags,
    /// The stack pointer.
    Stack,
}

/// A register: one of the machine, or a symbolic one, whose number is that of its name.
#[derive(Clone, Copy, Debug, PartialEq, Eq)]
pub struct Reg {
    pub bank: Bank,
    pub symbolic: bool,
    pub number: u16,
}

/// A set of registers of the machine, one bit each: a general register n is bit n, a vector
/// register n bit 32 + n, the flags bit 64 and the stack pointer bit 65.
#[derive(Clone, Copy, Debug, PartialEq, Eq)]
pub struct RegSet {
    pub bits: u128,
}
