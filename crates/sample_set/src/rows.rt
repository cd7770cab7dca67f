//! A few rows: what the tests of tables ask for can be met, and rows that break it are refused.
ghost use Rattle.std.specs.Prelude.{◌≡◌, true, false};
ghost use Rattle.sl_model.specs.declared.instruction.ArchName.TheVariants.{Arm64, M4};
ghost use Rattle.form_isa.specs.LawfulTable.{is_lawful_row, is_lawful_table};
ghost use Rattle.form_table.specs.Tables.{is_table};

use form_table::rows::{Alias, Letter, Name, Operand, Range, Role, Row, Shape, Sum};
use sl_isa::meaning::{
    Addressing, Arrangement, LaneOp, Meaning, Scalar, Second, Shift, Size, Transfer, Vector, Width,
};
use sl_isa::{Bank, RegSet};

/// x0 to x30.
pub const ANY_X: RegSet = RegSet {
    bits: (1 << 31) - 1,
};

/// These and the zero register.
pub const X_OR_ZERO: RegSet = RegSet {
    bits: (1 << 32) - 1,
};

/// v0 to v31.
pub const VECTOR: RegSet = RegSet {
    bits: ((1 << 32) - 1) << 32,
};

/// No register.
pub const NO_REGISTER: RegSet = RegSet { bits: 0 };

const NO_NUMBER: Range = Range {
    least: 0,
    most: 0,
    step: 1,
};

const NOTHING: Operand = Operand {
    shape: Shape::Nothing,
    role: Role::In,
    class: NO_REGISTER,
    range: NO_NUMBER,
};

const TO: Operand = Operand {
    shape: Shape::Register(Letter::X),
    role: Role::Out,
    class: ANY_X,
    range: NO_NUMBER,
};

const FROM: Operand = Operand {
    shape: Shape::Register(Letter::X),
    role: Role::In,
    class: ANY_X,
    range: NO_NUMBER,
};

const FROM_OR_ZERO: Operand = Operand {
    shape: Shape::Register(Letter::X),
    role: Role::In,
    class: X_OR_ZERO,
    range: NO_NUMBER,
};

const SMALL: Operand = Operand {
    shape: Shape::Number,
    role: Role::In,
    class: NO_REGISTER,
    range: Range {
        least: 0,
        most: 4095,
        step: 1,
    },
};

const HALF: Operand = Operand {
    shape: Shape::Number,
    role: Role::In,
    class: NO_REGISTER,
    range: Range {
        least: 0,
        most: 65535,
        step: 1,
    },
};

const LEFT: Operand = Operand {
    shape: Shape::Shift(Name::Lsl),
    role: Role::In,
    class: NO_REGISTER,
    range: Range {
        least: 0,
        most: 63,
        step: 1,
    },
};

const LEFT_12: Operand = Operand {
    shape: Shape::Shift(Name::Lsl),
    role: Role::In,
    class: NO_REGISTER,
    range: Range {
        least: 12,
        most: 12,
        step: 1,
    },
};

const LEFT_BY_16: Operand = Operand {
    shape: Shape::Shift(Name::Lsl),
    role: Role::In,
    class: NO_REGISTER,
    range: Range {
        least: 0,
        most: 48,
        step: 16,
    },
};

const BY: Operand = Operand {
    shape: Shape::Number,
    role: Role::In,
    class: NO_REGISTER,
    range: Range {
        least: 0,
        most: 63,
        step: 1,
    },
};

const WIDTH: Operand = Operand {
    shape: Shape::Number,
    role: Role::In,
    class: NO_REGISTER,
    range: Range {
        least: 1,
        most: 64,
        step: 1,
    },
};

const WHERE: Operand = Operand {
    shape: Shape::Condition,
    role: Role::In,
    class: NO_REGISTER,
    range: Range {
        least: 0,
        most: 13,
        step: 1,
    },
};

const MOVED: Operand = Operand {
    shape: Shape::Base(Letter::X),
    role: Role::Back,
    class: ANY_X,
    range: NO_NUMBER,
};

const ANY_OFFSET: Operand = Operand {
    shape: Shape::Number,
    role: Role::In,
    class: NO_REGISTER,
    range: Range {
        least: -256,
        most: 255,
        step: 1,
    },
};

// No test asks what a row means.
const COPY: Meaning = Meaning::Scalar {
    op: Scalar::Copy,
    size: Size::Bits64,
};

const PLAIN: Row = Row {
    mnemonic: *b"add\0\0\0\0\0",
    first: TO,
    second: FROM_OR_ZERO,
    third: FROM_OR_ZERO,
    fourth: NOTHING,
    fifth: NOTHING,
    reads_flags: false,
    sets_flags: false,
    sum: Sum::Free,
    class: 0,
    meaning: COPY,
    alias: Alias::Own,
};

const ADD_SHIFTED: Row = Row {
    fourth: LEFT,
    class: 1,
    alias: Alias::ZeroAs { form: 0, place: 3 },
    ..PLAIN
};

const ADD_NUMBER: Row = Row {
    second: FROM,
    third: SMALL,
    ..PLAIN
};

const ADD_NUMBER_12: Row = Row {
    fourth: LEFT_12,
    ..ADD_NUMBER
};

const SUBS: Row = Row {
    mnemonic: *b"subs\0\0\0\0",
    sets_flags: true,
    ..PLAIN
};

const EOR: Row = Row {
    mnemonic: *b"eor\0\0\0\0\0",
    ..PLAIN
};

const MOVZ: Row = Row {
    mnemonic: *b"movz\0\0\0\0",
    second: HALF,
    third: NOTHING,
    ..PLAIN
};

const MOVZ_SHIFTED: Row = Row {
    third: LEFT_BY_16,
    alias: Alias::ZeroAs { form: 6, place: 2 },
    ..MOVZ
};

const MOV: Row = Row {
    mnemonic: *b"mov\0\0\0\0\0",
    alias: Alias::As(6),
    ..MOVZ
};

const LSL: Row = Row {
    mnemonic: *b"lsl\0\0\0\0\0",
    third: BY,
    ..PLAIN
};

const STORE: Row = Row {
    mnemonic: *b"str\0\0\0\0\0",
    first: FROM_OR_ZERO,
    second: MOVED,
    third: ANY_OFFSET,
    ..PLAIN
};

const SELECT: Row = Row {
    mnemonic: *b"csel\0\0\0\0",
    fourth: WHERE,
    reads_flags: true,
    ..PLAIN
};

const FIELD: Row = Row {
    mnemonic: *b"ubfx\0\0\0\0",
    second: FROM,
    third: BY,
    fourth: WIDTH,
    sum: Sum::AtMost(64),
    ..PLAIN
};

/// Rows to read and print, one of each kind of spelling.
pub const READABLE: [Row; 13] = [
    PLAIN,
    ADD_SHIFTED,
    ADD_NUMBER,
    ADD_NUMBER_12,
    SUBS,
    EOR,
    MOVZ,
    MOVZ_SHIFTED,
    MOV,
    LSL,
    STORE,
    SELECT,
    FIELD,
];

/// No two of these rows fit the same words, and what is printed is read again.
#[tactic(auto, unfolding(form_table::specs::Rows::mnemonic_text))]
pub fn rows_are_table()
    ensures { is_table READABLE ≡ true }
{}

const BOTH: Operand = Operand {
    role: Role::Tied,
    ..TO
};

const TO_LANES: Operand = Operand {
    shape: Shape::Lanes(Name::Lanes8h),
    role: Role::Out,
    class: VECTOR,
    range: NO_NUMBER,
};

const FROM_LANES: Operand = Operand {
    role: Role::In,
    ..TO_LANES
};

/// `add x0, x1, x2`
pub const ADD: Row = Row {
    class: 3,
    meaning: Meaning::Scalar {
        op: Scalar::Sum {
            minus: false,
            second: Second::Register,
            carries: false,
            flags: false,
        },
        size: Size::Bits64,
    },
    ..PLAIN
};

/// `adcs x0, x1`, where `x0` is read too.
pub const ADCS: Row = Row {
    mnemonic: *b"adcs\0\0\0\0",
    first: BOTH,
    third: NOTHING,
    reads_flags: true,
    sets_flags: true,
    class: 1,
    meaning: Meaning::Scalar {
        op: Scalar::Sum {
            minus: false,
            second: Second::Register,
            carries: true,
            flags: true,
        },
        size: Size::Bits64,
    },
    ..PLAIN
};

/// `add v0.8h, v1.8h, v2.8h`
pub const ADD_LANES: Row = Row {
    first: TO_LANES,
    second: FROM_LANES,
    third: FROM_LANES,
    meaning: Meaning::Vector(Vector::Lanewise {
        op: LaneOp::Add,
        lanes: Arrangement::Halves8,
    }),
    ..ADD
};

/// `add x0, x1, x2, lsl #3`, which is `add x0, x1, x2` where the number is 0.
const ADD_LEFT: Row = Row {
    fourth: LEFT,
    meaning: Meaning::Scalar {
        op: Scalar::Sum {
            minus: false,
            second: Second::Shifted(Shift::Lsl),
            carries: false,
            flags: false,
        },
        size: Size::Bits64,
    },
    alias: Alias::ZeroAs { form: 0, place: 3 },
    ..ADD
};

const PAIR_STORED: Transfer = Transfer {
    store: true,
    pair: true,
    bank: Bank::General,
    width: Width::Double,
    signed: false,
    addressing: Addressing::After,
};

/// `stp x0, x1, [x2], #16`
pub const STORE_PAIR: Row = Row {
    mnemonic: *b"stp\0\0\0\0\0",
    first: FROM_OR_ZERO,
    second: FROM_OR_ZERO,
    third: MOVED,
    fourth: ANY_OFFSET,
    meaning: Meaning::Memory(PAIR_STORED),
    ..PLAIN
};

const PAIR_LOADED: Transfer = Transfer {
    store: false,
    pair: true,
    bank: Bank::General,
    width: Width::Double,
    signed: false,
    addressing: Addressing::Before,
};

const MOVED_BEFORE: Operand = Operand {
    shape: Shape::Before(Letter::X),
    range: Range {
        least: -512,
        most: 504,
        step: 8,
    },
    ..MOVED
};

/// `ldp x0, x1, [x2, #16]!`
pub const LOAD_PAIR: Row = Row {
    mnemonic: *b"ldp\0\0\0\0\0",
    first: TO,
    second: TO,
    third: MOVED_BEFORE,
    meaning: Meaning::Memory(PAIR_LOADED),
    ..PLAIN
};

const WORD_LOADED: Transfer = Transfer {
    store: false,
    pair: false,
    bank: Bank::Vector,
    width: Width::Word,
    signed: false,
    addressing: Addressing::Kept,
};

const HELD: Operand = Operand {
    shape: Shape::Offset(Letter::X),
    role: Role::Base,
    class: ANY_X,
    range: Range {
        least: 0,
        most: 1 << 20,
        step: 4,
    },
};

/// `ldr s0, [x1, #4]`
pub const LOAD_WORD: Row = Row {
    mnemonic: *b"ldr\0\0\0\0\0",
    first: Operand {
        shape: Shape::Register(Letter::S),
        ..TO_LANES
    },
    second: HELD,
    third: NOTHING,
    meaning: Meaning::Memory(WORD_LOADED),
    ..PLAIN
};

const LAWFUL: [Row; 7] = [
    ADD, ADCS, ADD_LANES, ADD_LEFT, STORE_PAIR, LOAD_PAIR, LOAD_WORD,
];

/// These rows are lawful.
#[tactic(auto, unfolding(form_isa::specs::LawfulTable::is_lawful_table, form_isa::specs::LawfulTable::are_only_of, form_isa::specs::LawfulTable::is_last_number, form_isa::specs::Info::classes, form_isa::specs::Info::places_of, form_isa::specs::Info::padded_classes, form_isa::specs::Info::input_classes, form_isa::specs::Info::output_classes, form_isa::specs::TableIsa::ranges, sl_model::specs::RegSets::set_count))]
pub fn rows_are_lawful()
    ensures { is_lawful_table Arm64 LAWFUL ≡ true }
{}

const TO_ZERO: Row = Row {
    first: Operand {
        class: X_OR_ZERO,
        ..TO
    },
    ..ADD
};

const TO_NONE: Row = Row {
    first: Operand {
        class: NO_REGISTER,
        ..TO
    },
    ..ADD
};

const TO_VECTOR: Row = Row {
    first: TO_LANES,
    ..ADD
};

const WITHOUT_FLAGS: Row = Row {
    sets_flags: false,
    ..ADCS
};

const TWO_RESULTS: Row = Row { second: TO, ..ADD };

const FIVE_INPUTS: Row = Row {
    fourth: FROM,
    fifth: FROM,
    reads_flags: true,
    ..ADD
};

const FIRST_NUMBER: Row = Row {
    third: BY,
    alias: Alias::ZeroAs { form: 0, place: 2 },
    ..ADD_LEFT
};

/// And these aren't: results in the zero register, in no register, in one of another bank, flags that are left out, two
/// results of one, five inputs, and a number that another one follows.
#[tactic(auto, unfolding(form_isa::specs::LawfulTable::are_only_of, form_isa::specs::LawfulTable::is_last_number, form_isa::specs::Info::classes, form_isa::specs::Info::input_classes, form_isa::specs::Info::output_classes, form_isa::specs::TableIsa::ranges))]
pub fn others_are_not()
    ensures zero { is_lawful_row Arm64 TO_ZERO ≡ false }
    ensures none { is_lawful_row Arm64 TO_NONE ≡ false }
    ensures bank { is_lawful_row Arm64 TO_VECTOR ≡ false }
    ensures flags { is_lawful_row Arm64 WITHOUT_FLAGS ≡ false }
    ensures results { is_lawful_row Arm64 TWO_RESULTS ≡ false }
    ensures inputs { is_lawful_row Arm64 FIVE_INPUTS ≡ false }
    ensures number { is_lawful_row Arm64 FIRST_NUMBER ≡ false }
{}

const BASED_SUM: Row = Row { third: HELD, ..ADD };

const WITHOUT_BASE: Row = Row {
    second: FROM,
    ..LOAD_WORD
};

const BASE_FIRST: Row = Row {
    first: MOVED,
    third: FROM_OR_ZERO,
    ..STORE_PAIR
};

const ONE_STORED: Row = Row {
    second: NOTHING,
    ..STORE_PAIR
};

const NOT_WRITTEN_BACK: Row = Row {
    third: HELD,
    ..STORE_PAIR
};

const TOO_WIDE: Row = Row {
    meaning: Meaning::Memory(Transfer {
        width: Width::Quad,
        ..PAIR_LOADED
    }),
    ..LOAD_PAIR
};

const TOO_FAR: Row = Row {
    second: Operand {
        range: Range {
            least: -(1 << 20) - 4,
            most: 0,
            step: 4,
        },
        ..HELD
    },
    ..LOAD_WORD
};

/// Nor are these, of accesses: a sum with a base, an access without one, a base before the data, one register for two, a base that
/// isn't written back, more bytes than a register has, and an offset past 2^20.
#[tactic(auto, unfolding(form_isa::specs::LawfulTable::are_only_of, form_isa::specs::Info::classes, form_isa::specs::Info::places_of, form_isa::specs::Info::padded_classes, form_isa::specs::Info::input_classes, form_isa::specs::Info::output_classes, form_isa::specs::TableIsa::ranges, sl_model::specs::RegSets::set_count))]
pub fn other_accesses_are_not()
    ensures sum { is_lawful_row Arm64 BASED_SUM ≡ false }
    ensures base { is_lawful_row Arm64 WITHOUT_BASE ≡ false }
    ensures order { is_lawful_row Arm64 BASE_FIRST ≡ false }
    ensures data { is_lawful_row Arm64 ONE_STORED ≡ false }
    ensures back { is_lawful_row Arm64 NOT_WRITTEN_BACK ≡ false }
    ensures room { is_lawful_row Arm64 TOO_WIDE ≡ false }
    ensures near { is_lawful_row Arm64 TOO_FAR ≡ false }
{}

/// Where registers have 32 bits, rows of 64 and of 128 aren't, but a load of a word is.
#[tactic(auto, unfolding(form_isa::specs::LawfulTable::are_only_of, form_isa::specs::Info::classes, form_isa::specs::Info::places_of, form_isa::specs::Info::padded_classes, form_isa::specs::Info::input_classes, form_isa::specs::Info::output_classes, form_isa::specs::TableIsa::ranges, sl_model::specs::RegSets::set_count))]
pub fn wide_rows_are_not()
    ensures sum { is_lawful_row M4 ADD ≡ false }
    ensures lanes { is_lawful_row M4 ADD_LANES ≡ false }
    ensures load { is_lawful_row M4 LOAD_PAIR ≡ false }
    ensures word { is_lawful_row M4 LOAD_WORD ≡ true }
{}
