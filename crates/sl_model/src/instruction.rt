//! Instructions as plain data.

use crate::register::{Reg, RegSet};

/// An instruction: its form, the numbers and registers that it was
/// given, and what its line says of it.
#[derive(Clone, Copy, Debug, PartialEq, Eq)]
pub struct Instr {
    /// The number of its form in the table of its architecture.
    pub form: u16,
    /// Was it spelled with `.w`?
    pub wide: bool,
    /// Its numbers in the order in which they stand, and 0 where it has fewer.
    pub imms: [i64; 3],
    /// The registers that it reads.
    pub ins: [Option<Reg>; 4],
    /// The registers that it writes.
    pub outs: [Option<Reg>; 3],
    /// The number of its memory tag.
    pub tag: Option<u16>,
    /// May it run one turn early?
    pub early: bool,
    /// May it run one turn late?
    pub late: bool,
    /// The line that it stands on, counted from 1.
    pub line: u32,
}

/// What the table of an architecture says of a form.
#[derive(Clone, Copy, Debug, PartialEq, Eq)]
pub struct FormInfo {
    /// The cost class, numbered in the order of the core tables.
    pub class: u8,
    /// The registers that each operand takes; empty where there is no such operand.
    pub in_sets: [RegSet; 4],
    /// The registers that each output takes; empty where there is no such output.
    pub out_sets: [RegSet; 3],
    /// The operand that each output is tied to.
    pub tied: [Option<u8>; 3],
    /// The output that is a written-back base.
    pub back: Option<u8>,
    /// The operand that is the base of an access.
    pub base: Option<u8>,
    /// Is its access a store?
    pub store: bool,
    /// The bytes of its access, and 0 where it has none.
    pub size: u8,
}

/// An access to memory.
#[derive(Clone, Copy, Debug, PartialEq, Eq)]
pub struct Access {
    pub store: bool,
    pub address: u64,
    /// How many bytes, from 1 to 32.
    pub size: u8,
}

/// What an instruction gives: a value for each output, and the bytes that it stores.
#[derive(Clone, Copy, Debug, PartialEq, Eq)]
pub struct Outs {
    pub regs: [u128; 3],
    pub bytes: [u8; 32],
}

/// The architectures.
#[derive(Clone, Copy, Debug, PartialEq, Eq)]
pub enum ArchName {
    /// AArch64 with Neon.
    Arm64,
    /// Armv7E-M.
    M4,
}
