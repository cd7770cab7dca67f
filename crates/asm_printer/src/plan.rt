//! What a printed region says of itself.

use asm_reader::Notes;
use sl_model::instruction::Instr;

/// A program that is to be printed: a straight list of instructions.
#[derive(Drop)]
pub struct Program {
    /// The instructions.
    pub items: Vec<Instr>,
}

/// What the first line of a region says. That of a straight list says nothing of turns.
#[derive(Clone, Copy, Debug, PartialEq, Eq)]
pub struct Head {
    /// How many instructions there are.
    pub items: u16,
    /// How many cycles they take.
    pub cycles: u32,
    /// How many stalls are among these.
    pub stalls: u32,
    /// From how many turns on a loop may run.
    pub least: u8,
    /// The set of the instructions that a loop runs one turn early.
    pub early: u64,
}

/// What a region says: its first line, and the note of each instruction.
#[derive(Drop)]
pub struct Plan {
    /// The first line.
    pub head: Head,
    /// A note for each instruction, in their order; the line of a note is the old one.
    pub notes: Notes,
}
