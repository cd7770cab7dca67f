//! The rows of instruction tables, as plain data.
ghost use Rattle.std.specs.Prelude.{◌≡◌, ◌≤◌, length, take};
ghost use Rattle.std.specs.List.{prefix_len};
ghost use Rattle.form_table.specs.Rows.{name_text, row_operands, is_letter, mnemonic_text, slots_of};

use sl_isa::RegSet;
use sl_isa::meaning::Meaning;

/// How a register is spelled: by a letter and a number, as `x1`.
#[derive(Clone, Copy)]
pub enum Letter {
    /// `x0` to `x30`, `xzr` and `sp`: 64 bits.
    X,
    /// `w0` to `w30` and `wzr`: 32 bits.
    W,
    /// `v0` to `v31`: lanes.
    V,
    /// `q0` to `q31`: 128 bits.
    Q,
    /// `d0` to `d31`: 64 bits.
    D,
    /// `s0` to `s31`: 32 bits.
    S,
    /// `r0` to `r12`, `r14` or `lr`, and `sp`.
    R,
}

/// A word that stands in a spelling beside mnemonic and registers.
#[derive(Clone, Copy)]
pub enum Name {
    Lsl,
    Lsr,
    Asr,
    Ror,
    Lanes8b,
    Lanes16b,
    Lanes4h,
    Lanes8h,
    Lanes2s,
    Lanes4s,
    Lanes2d,
    LaneB,
    LaneH,
    LaneS,
    LaneD,
}

impl Name {
    /// The word itself.
    pub fn text(self) -> &'static str
        ensures { result.now ≡ name_text self }
    {
        match self {
            Name::Lsl => "lsl",
            Name::Lsr => "lsr",
            Name::Asr => "asr",
            Name::Ror => "ror",
            Name::Lanes8b => "8b",
            Name::Lanes16b => "16b",
            Name::Lanes4h => "4h",
            Name::Lanes8h => "8h",
            Name::Lanes2s => "2s",
            Name::Lanes4s => "4s",
            Name::Lanes2d => "2d",
            Name::LaneB => "b",
            Name::LaneH => "h",
            Name::LaneS => "s",
            Name::LaneD => "d",
        }
    }
}

/// A place of a spelling, which takes exactly one item.
#[derive(Clone, Copy)]
pub enum Slot {
    /// A blank.
    Gap,
    /// A mark, by its code.
    Mark(u8),
    /// This word.
    Name(Name),
    /// A register that is spelled so.
    Register(Letter),
    /// A number, printed with `#`.
    Number,
    /// A number, printed without `#`.
    Index,
    /// The name of a condition on the flags, which is kept by its number.
    Condition,
}

/// How an operand is spelled: with at most one register and at most one number.
#[derive(Clone, Copy)]
pub enum Shape {
    /// There is no such operand.
    Nothing,
    /// `x1`
    Register(Letter),
    /// `#8`
    Number,
    /// `eq`
    Condition,
    /// `lsl #2`
    Shift(Name),
    /// `v1.8h`
    Lanes(Name),
    /// `v1.h[3]`
    Lane(Name),
    /// `[x1]`
    Base(Letter),
    /// `[x1, #8]`
    Offset(Letter),
    /// `[x1, #8]!`
    Before(Letter),
}

/// What an operand's register is to the instruction.
#[derive(Clone, Copy)]
pub enum Role {
    /// It is read.
    In,
    /// It is written.
    Out,
    /// It is written, and read as the last input.
    Tied,
    /// It is read as the base of an access.
    Base,
    /// It is read as the base of an access, and written back as the last output.
    Back,
}

/// The numbers that an operand takes: the multiples of `step` from `least` to
/// `most`. A step of 0 takes none.
#[derive(Clone, Copy)]
pub struct Range {
    pub least: i64,
    pub most: i64,
    pub step: u32,
}

/// An operand: its spelling, the role of its register and which registers it
/// takes, and which numbers it takes.
#[derive(Clone, Copy)]
pub struct Operand {
    pub shape: Shape,
    pub role: Role,
    pub class: RegSet,
    pub range: Range,
}

/// What the sum of the first two numbers may be.
#[derive(Clone, Copy)]
pub enum Sum {
    /// Any number.
    Free,
    /// At most this.
    AtMost(u32),
}

/// Under which form a row's spelling is kept and printed.
#[derive(Clone, Copy)]
pub enum Alias {
    /// Its own.
    Own,
    /// That of another row with the same registers and numbers.
    As(u16),
    /// That of another row, in which the first register stands twice.
    Repeat(u16),
    /// That of another row without the number of the operand at a place, counted from 0, where it
    /// is 0; else its own. The operand is a base with an offset, or has no register.
    ZeroAs { form: u16, place: u8 },
}

/// A row of a table of instructions.
#[derive(Clone, Copy)]
pub struct Row {
    /// In lower case, filled up with zeros.
    pub mnemonic: [u8; 8],
    pub first: Operand,
    pub second: Operand,
    pub third: Operand,
    pub fourth: Operand,
    pub fifth: Operand,
    /// Does it read the flags, as the last input of all?
    pub reads_flags: bool,
    /// Does it write the flags, as the last output of all?
    pub sets_flags: bool,
    pub sum: Sum,
    /// The cost class, numbered in the order of the core tables.
    pub class: u8,
    pub meaning: Meaning,
    pub alias: Alias,
}

// The number of letters before the first zero.
fn letter_count(word: &[u8]) -> usize
    ensures count { result ≡ prefix_len is_letter word.now }
    ensures within { result ≤ length word.now }
{
    word.iter().take_while(|letter| **letter != 0).count()
}

impl Row {
    /// The operands in their order.
    pub fn operands(&self) -> [Operand; 5]
        ensures { result ≡ row_operands self.now }
    {
        [self.first, self.second, self.third, self.fourth, self.fifth]
    }

    /// The mnemonic's letters.
    #[tactic(auto, unfolding(crate::specs::Rows::mnemonic_text))]
    pub fn mnemonic(&self) -> &[u8]
        ensures { result.now ≡ mnemonic_text self.now }
    {
        let length = letter_count(&self.mnemonic);
        &self.mnemonic[..length]
    }
}

/// The slots of an operand's spelling: the first `count` of these.
#[derive(Clone, Copy)]
pub struct Slots {
    pub places: [Slot; 8],
    pub count: usize,
}

/// The slots of the spelling of an operand of a shape behind what leads to it.
pub fn slots_of(lead: Slot, shape: Shape) -> Slots
    ensures slots { take result.count result.places ≡ slots_of lead shape }
    ensures within { result.count ≤ 8 }
{
    let no = Slot::Gap;
    let dot = Slot::Mark(b'.');
    let comma = Slot::Mark(b',');
    let open = Slot::Mark(b'[');
    let close = Slot::Mark(b']');
    let number = Slot::Number;
    let lanes = Slot::Register(Letter::V);
    match shape {
        Shape::Nothing => Slots {
            places: [no; 8],
            count: 0,
        },
        Shape::Register(letter) => Slots {
            places: [lead, Slot::Register(letter), no, no, no, no, no, no],
            count: 2,
        },
        Shape::Number => Slots {
            places: [lead, number, no, no, no, no, no, no],
            count: 2,
        },
        Shape::Condition => Slots {
            places: [lead, Slot::Condition, no, no, no, no, no, no],
            count: 2,
        },
        Shape::Shift(name) => Slots {
            places: [lead, Slot::Name(name), Slot::Gap, number, no, no, no, no],
            count: 4,
        },
        Shape::Lanes(name) => Slots {
            places: [lead, lanes, dot, Slot::Name(name), no, no, no, no],
            count: 4,
        },
        Shape::Lane(name) => Slots {
            places: [
                lead,
                lanes,
                dot,
                Slot::Name(name),
                open,
                Slot::Index,
                close,
                no,
            ],
            count: 7,
        },
        Shape::Base(letter) => Slots {
            places: [lead, open, Slot::Register(letter), close, no, no, no, no],
            count: 4,
        },
        Shape::Offset(letter) => Slots {
            places: [
                lead,
                open,
                Slot::Register(letter),
                comma,
                number,
                close,
                no,
                no,
            ],
            count: 6,
        },
        Shape::Before(letter) => Slots {
            places: [
                lead,
                open,
                Slot::Register(letter),
                comma,
                number,
                close,
                Slot::Mark(b'!'),
                no,
            ],
            count: 7,
        },
    }
}
