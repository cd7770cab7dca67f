//! What instructions compute, as plain data: the rows of instruction tables name it.

use crate::Bank;

/// How many bits of its registers a scalar instruction works on.
#[derive(Clone, Copy, Debug, PartialEq, Eq)]
pub enum Size {
    /// The low half of an AArch64 register, or a register of Armv7E-M.
    Bits32,
    /// An AArch64 register.
    Bits64,
}

/// How a number of bits is shifted.
#[derive(Clone, Copy, Debug, PartialEq, Eq)]
pub enum Shift {
    /// Left.
    Lsl,
    /// Right, with zeros.
    Lsr,
    /// Right, with copies of the sign.
    Asr,
    /// Right, with the bits that fall out.
    Ror,
}

/// The second operand of a scalar instruction.
#[derive(Clone, Copy, Debug, PartialEq, Eq)]
pub enum Second {
    /// A register.
    Register,
    /// A register, shifted by the first number.
    Shifted(Shift),
    /// The first number, shifted left by the second one.
    Number,
}

/// A bitwise operation.
#[derive(Clone, Copy, Debug, PartialEq, Eq)]
pub enum Logic {
    And,
    Orr,
    Eor,
    /// The first operand without the bits of the second.
    Bic,
}

/// What becomes of a product.
#[derive(Clone, Copy, Debug, PartialEq, Eq)]
pub enum Product {
    /// It is the result.
    Alone,
    /// It is added to another operand.
    Added,
    /// It is subtracted from another operand.
    Subtracted,
}

/// What a scalar instruction computes.
#[derive(Clone, Copy, Debug, PartialEq, Eq)]
pub enum Scalar {
    /// A sum, or a difference where `minus` is set; with the carry flag where `carries` is set, and
    /// giving the flags where `flags` is set.
    Sum {
        minus: bool,
        second: Second,
        carries: bool,
        flags: bool,
    },
    /// A bitwise operation.
    Logic {
        op: Logic,
        second: Second,
    },
    /// The operand itself.
    Copy,
    /// The first number, shifted left by the second one.
    Wide,
    /// The operand, with the first number in the place of 16 bits from the second number on.
    Part,
    /// The low bits of a product.
    Multiply(Product),
    /// The high 64 bits of a product of 64-bit numbers.
    MultiplyHigh {
        signed: bool,
    },
    /// The product of the low 32 bits of the operands.
    MultiplyLong {
        signed: bool,
    },
    /// The second operand behind the first one, shifted right by the
    /// first number: the low bits of that.
    Extract,
    /// The operand, shifted by the first number.
    Shift(Shift),
    /// As many bits as the second number says, from the first number on.
    Field,
    /// The first operand where the condition with the first number holds, else the second one.
    Select,
}

/// What is added to a product of 64 bits.
#[derive(Clone, Copy, Debug, PartialEq, Eq)]
pub enum LongAddend {
    /// Nothing.
    Nothing,
    /// The third operand with the fourth one above it, a number of 64 bits.
    Pair,
    /// The third operand and the fourth one.
    Both,
}

/// What an instruction computes on general registers of 32 bits.
#[derive(Clone, Copy, Debug, PartialEq, Eq)]
pub enum WordOp {
    /// As many bits as the second number says, from the first number on, with copies of
    /// the highest of them above.
    SignedField,
    /// The low half of the operand, with copies of its sign above it where `signed` is set, else with
    /// zeros.
    LowHalf {
        signed: bool,
    },
    /// The operand with the first number in the place of its high half.
    ReplaceHigh,
    /// The product of the operands with what is added to it, in two
    /// registers: the low word, then the high one.
    MultiplyPair {
        signed: bool,
        adds: LongAddend,
    },
    /// The high word of the signed product, rounded to the nearest.
    MultiplyHighRounded,
    /// The signed product of a half of each of the first two operands: of the high one where this is
    /// set. The third operand is added where `adds` is set.
    MultiplyHalves {
        first_high: bool,
        second_high: bool,
        adds: bool,
    },
    /// The signed product of the first operand and a half of the second one, without its low 16
    /// bits. The third operand is added where `adds` is set.
    MultiplyByHalf {
        high: bool,
        adds: bool,
    },
    /// The sum of the signed products of the low halves and of the high halves; where `crossed` is
    /// set, of each half and the other half of the second operand. The third operand is added where
    /// `adds` is set.
    MultiplyBothHalves {
        crossed: bool,
        adds: bool,
    },
    /// The low half of the first operand with the high half of the second one; where `keeps_high` is
    /// set, the high half of the first one with the low half of the second one.
    Pack {
        keeps_high: bool,
        second: Second,
    },
    /// The sums of both halves, or their differences where `minus` is set.
    AddHalves {
        minus: bool,
    },
}

/// How a vector register is cut in lanes: their number and their bits.
#[derive(Clone, Copy, Debug, PartialEq, Eq)]
pub enum Arrangement {
    /// `8b`
    Bytes8,
    /// `16b`
    Bytes16,
    /// `4h`
    Halves4,
    /// `8h`
    Halves8,
    /// `2s`
    Words2,
    /// `4s`
    Words4,
    /// `2d`
    Doubles2,
}

/// A lane of a whole vector register by its bits.
#[derive(Clone, Copy, Debug, PartialEq, Eq)]
pub enum Lane {
    /// `b`
    Byte,
    /// `h`
    Half,
    /// `s`
    Word,
    /// `d`
    Double,
}

/// What is done lane by lane.
#[derive(Clone, Copy, Debug, PartialEq, Eq)]
pub enum LaneOp {
    Add,
    Sub,
    And,
    Orr,
    Eor,
    Bic,
    /// The low bits of the product.
    Mul,
    /// The same, added to the destination.
    Mla,
    /// The same, subtracted from the destination.
    Mls,
    /// The high half of twice the signed product, saturated.
    Sqdmulh,
    /// The same, rounded.
    Sqrdmulh,
}

/// How lanes are shifted by a number.
#[derive(Clone, Copy, Debug, PartialEq, Eq)]
pub enum LaneShift {
    /// Left.
    Shl,
    /// Left, with the low bits of the destination.
    Sli,
    /// Right, signed.
    Sshr,
    /// Right, unsigned.
    Ushr,
    /// Right, signed and rounded.
    Srshr,
    /// Right, with the high bits of the destination.
    Sri,
}

/// In what order the lanes of two registers are taken.
#[derive(Clone, Copy, Debug, PartialEq, Eq)]
pub enum Permutation {
    Trn1,
    Trn2,
    Zip1,
    Zip2,
    Uzp1,
    Uzp2,
}

/// What a vector instruction computes.
#[derive(Clone, Copy, Debug, PartialEq, Eq)]
pub enum Vector {
    /// An operation lane by lane.
    Lanewise {
        op: LaneOp,
        lanes: Arrangement,
    },
    /// The same, with the second operand's one lane that the first number names.
    ByElement {
        op: LaneOp,
        lanes: Arrangement,
    },
    /// The lanes themselves.
    Copy {
        lanes: Arrangement,
    },
    /// Full products of lanes of half as many bits, from the low or the high half of the operands;
    /// added to the destination where `adds` is set. The lanes are those of the result.
    Long {
        signed: bool,
        adds: bool,
        high: bool,
        lanes: Arrangement,
    },
    /// A shift of each lane by the first number.
    Shift {
        op: LaneShift,
        lanes: Arrangement,
    },
    /// The low half of each lane. The lanes are those of the result.
    Narrow {
        lanes: Arrangement,
    },
    /// Lanes of both operands in another order.
    Permute {
        op: Permutation,
        lanes: Arrangement,
    },
    /// The lanes of the second operand behind those of the first, from the first number on.
    Extract {
        lanes: Arrangement,
    },
    /// The lane that the first number names, in each lane.
    DupLane {
        lanes: Arrangement,
    },
    /// The low bits of a general register, in each lane.
    DupGeneral {
        lanes: Arrangement,
    },
    /// The destination with the low bits of a general register in the
    /// lane that the first number names.
    InsertGeneral {
        lane: Lane,
    },
    /// The destination with the operand's lane that the second number names in the
    /// lane that the first one names.
    InsertLane {
        lane: Lane,
    },
    /// The lane that the first number names, in a general register.
    MoveOut {
        lane: Lane,
    },
}

/// How many bytes of a register go to memory or come from it: its low ones.
#[derive(Clone, Copy, Debug, PartialEq, Eq)]
pub enum Width {
    /// 1
    Byte,
    /// 2
    Half,
    /// 4
    Word,
    /// 8
    Double,
    /// 16
    Quad,
}

/// Where an access is made, and what becomes of its base.
#[derive(Clone, Copy, Debug, PartialEq, Eq)]
pub enum Addressing {
    /// At the base plus the first number. The base stays.
    Kept,
    /// At the base plus the first number, which becomes the base.
    Before,
    /// At the base. The base plus the first number becomes the base.
    After,
}

/// An access to memory. The bytes of a register stand in it from the lowest on, those
/// of the first register at the lower addresses.
#[derive(Clone, Copy, Debug, PartialEq, Eq)]
pub struct Transfer {
    /// Are registers stored? Else they are loaded.
    pub store: bool,
    /// Are there two of them? Else there is one.
    pub pair: bool,
    /// The bank that they are of.
    pub bank: Bank,
    /// The bytes of each of them.
    pub width: Width,
    /// Are there copies of the sign above what is loaded, up to 32 bits? Else there are zeros.
    pub signed: bool,
    pub addressing: Addressing,
}

/// What an instruction computes.
#[derive(Clone, Copy, Debug, PartialEq, Eq)]
pub enum Meaning {
    /// On general registers, of this many bits.
    Scalar { op: Scalar, size: Size },
    /// On vector registers.
    Vector(Vector),
    /// On general registers of 32 bits.
    Word(WordOp),
    /// The low 32 bits of the operand, in a register of this bank.
    Copy(Bank),
    /// An access to memory.
    Memory(Transfer),
}
