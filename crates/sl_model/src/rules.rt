//! The rules of scheduling by name.

/// The rules that a choice has to keep, in the order in which they are tested.
#[derive(Clone, Copy, Debug, PartialEq, Eq)]
pub enum Rule {
    /// The item wasn't placed before.
    L1,
    /// Each source is still held, in a register that the operand takes.
    L2,
    /// A tied output is in the register of its input.
    L3,
    /// Each output is in a register that is allowed, that it and its
    /// readers take; finals are in place.
    L4,
    /// Each item above it that conflicts with it is placed.
    L5,
    /// The unit is one of the class's units.
    L6,
    /// No output overwrites a value that is final there or still to be read.
    L7,
}
