//! Where values come from, what is chosen for each item, and what items cost.

use crate::register::Reg;

/// Where an operand's value comes from.
#[derive(Clone, Copy, Debug, PartialEq, Eq)]
pub enum Source {
    /// What the register held before the first item.
    Entry(Reg),
    /// An output of an item.
    Item { index: u16, place: u8 },
}

/// One step of a schedule: an item, the unit that takes it, and a register for each of its outputs.
#[derive(Clone, Copy, Debug, PartialEq, Eq)]
pub struct Choice {
    pub item: u16,
    pub unit: u8,
    pub outs: [Option<Reg>; 3],
}

/// What a core table says of an item.
#[derive(Clone, Copy, Debug, PartialEq, Eq)]
pub struct CostRow {
    /// The item's cost class.
    pub class: u8,
    /// The units of the class: bit u for unit u.
    pub units: u16,
    /// How many cycles the item keeps its unit, at least 1.
    pub busy: u8,
    /// After how many cycles a result is ready, at least 1.
    pub latency: u8,
    /// The same for a written-back base, at least 1.
    pub writeback: u8,
    /// The output that is a written-back base.
    pub back: Option<u8>,
}

/// A latency of its own between two classes, at one operand of the second.
#[derive(Clone, Copy, Debug, PartialEq, Eq)]
pub struct Forward {
    pub from: u8,
    pub to: u8,
    pub operand: u8,
    pub latency: u8,
}
