//! Why words are no instruction.

/// Why words spell no instruction: the first of these that holds.
#[derive(Clone, Copy, Debug, PartialEq, Eq)]
pub enum FormReason {
    /// No form has the mnemonic.
    UnknownMnemonic,
    /// No form of the mnemonic has operands of these shapes.
    BadOperand,
    /// No form of these shapes takes these numbers.
    ImmediateRange,
    /// A register is outside its operand's class.
    RegisterClass,
    /// Two outputs are equal, or a base that is written back is also stored.
    SameRegister,
}

/// Why no instruction was read.
#[derive(Clone, Copy, Debug, PartialEq, Eq)]
pub enum FormErr {
    /// The words spell none.
    Refused(FormReason),
    /// No memory was found.
    NoMemory,
}
