//! The forms of Armv7E-M, each a row. A new form is one more row at the end, and one
//! more in the document of `specs/`.
ghost use Rattle.std.specs.Prelude.{◌≡◌, length};
ghost use Rattle.form_table.specs.TableRows.{rows_of};
ghost use Rattle.m4_table.specs.Document.{sum_rows, other_rows, single_rows, pair_rows, document};

use form_table::rows::{Alias, Letter, Name, Operand, Range, Role, Row, Shape, Sum};
use form_table::table::Table;
use sl_isa::meaning::{
    Addressing, Logic, LongAddend, Meaning, Product, Scalar, Second, Shift, Size, Transfer, Width,
    WordOp,
};
use sl_isa::{Bank, RegSet};

// The cost classes, in the order of the core tables.
const ALU: u8 = 0;

const ALUS: u8 = 1;

const MUL: u8 = 2;

const SIMD: u8 = 3;

const LOAD: u8 = 4;

const STORE: u8 = 5;

const FMOVE: u8 = 6;

// No register, r0 to r12 and lr, these and sp, and s0 to s31.
const NO_REGISTER: RegSet = RegSet { bits: 0 };

const GENERAL: RegSet = RegSet {
    bits: ((1 << 13) - 1) | (1 << 14),
};

const GENERAL_OR_STACK: RegSet = RegSet {
    bits: ((1 << 13) - 1) | (1 << 14) | (1 << 65),
};

const SINGLES: RegSet = RegSet {
    bits: ((1 << 32) - 1) << 32,
};

// An operand by its shape, its role, its registers and its numbers.
macro_rules! operand {
    ($shape:ident $(($part:expr))? => $role:ident, $class:ident, $least:literal to $most:literal by $step:literal) => {
        Operand {
            shape: Shape::$shape $(($part))?,
            role: Role::$role,
            class: $class,
            range: Range { least: $least, most: $most, step: $step },
        }
    };
}

const NONE: Operand = operand!(Nothing => In, NO_REGISTER, 0 to 0 by 1);

const TO: Operand = operand!(Register(Letter::R) => Out, GENERAL, 0 to 0 by 1);

const TIED: Operand = operand!(Register(Letter::R) => Tied, GENERAL, 0 to 0 by 1);

const FROM: Operand = operand!(Register(Letter::R) => In, GENERAL, 0 to 0 by 1);

const TO_S: Operand = operand!(Register(Letter::S) => Out, SINGLES, 0 to 0 by 1);

const S: Operand = operand!(Register(Letter::S) => In, SINGLES, 0 to 0 by 1);

const BELOW_32: Operand = operand!(Number => In, NO_REGISTER, 0 to 31 by 1);

const FROM_1_TO_31: Operand = operand!(Number => In, NO_REGISTER, 1 to 31 by 1);

const FROM_1_TO_32: Operand = operand!(Number => In, NO_REGISTER, 1 to 32 by 1);

const UP_TO_255: Operand = operand!(Number => In, NO_REGISTER, 0 to 255 by 1);

const UP_TO_4095: Operand = operand!(Number => In, NO_REGISTER, 0 to 4095 by 1);

const UP_TO_65535: Operand = operand!(Number => In, NO_REGISTER, 0 to 65535 by 1);

const BY_LSL: Operand = operand!(Shift(Name::Lsl) => In, NO_REGISTER, 0 to 31 by 1);

const BY_LSL_FROM_1: Operand = operand!(Shift(Name::Lsl) => In, NO_REGISTER, 1 to 31 by 1);

const BY_LSR: Operand = operand!(Shift(Name::Lsr) => In, NO_REGISTER, 1 to 32 by 1);

const BY_ASR: Operand = operand!(Shift(Name::Asr) => In, NO_REGISTER, 1 to 32 by 1);

const BY_ROR: Operand = operand!(Shift(Name::Ror) => In, NO_REGISTER, 1 to 31 by 1);

const BASE: Operand = operand!(Base(Letter::R) => Base, GENERAL_OR_STACK, 0 to 0 by 1);

const OFFSET: Operand = operand!(Offset(Letter::R) => Base, GENERAL_OR_STACK, -255 to 4095 by 1);

const OFFSET_4: Operand = operand!(Offset(Letter::R) => Base, GENERAL_OR_STACK, -1020 to 1020 by 4);

const BACK: Operand = operand!(Base(Letter::R) => Back, GENERAL, 0 to 0 by 1);

const BEFORE: Operand = operand!(Before(Letter::R) => Back, GENERAL, -255 to 255 by 1);

const BEFORE_4: Operand = operand!(Before(Letter::R) => Back, GENERAL, -1020 to 1020 by 4);

const BY: Operand = operand!(Number => In, NO_REGISTER, -255 to 255 by 1);

const BY_4: Operand = operand!(Number => In, NO_REGISTER, -1020 to 1020 by 4);

const REGISTER: Second = Second::Register;

const LSL: Second = Second::Shifted(Shift::Lsl);

const LSR: Second = Second::Shifted(Shift::Lsr);

const ASR: Second = Second::Shifted(Shift::Asr);

const ROR: Second = Second::Shifted(Shift::Ror);

const NUMBER: Second = Second::Number;

// Meanings that AArch64 has the like of.
macro_rules! on_32 {
    ($op:expr) => { Meaning::Scalar { op: $op, size: Size::Bits32 } };
}

macro_rules! scalar {
    ($op:ident) => { on_32!(Scalar::$op) };
}

macro_rules! sum {
    (ADD, $second:ident) => { sum_of!(false, $second, false, false) };
    (SUB, $second:ident) => { sum_of!(true, $second, false, false) };
    (ADDS, $second:ident) => { sum_of!(false, $second, false, true) };
    (SUBS, $second:ident) => { sum_of!(true, $second, false, true) };
    (ADC, $second:ident) => { sum_of!(false, $second, true, false) };
    (SBC, $second:ident) => { sum_of!(true, $second, true, false) };
    (ADCS, $second:ident) => { sum_of!(false, $second, true, true) };
    (SBCS, $second:ident) => { sum_of!(true, $second, true, true) };
}

macro_rules! sum_of {
    ($minus:expr, $second:ident, $carries:expr, $flags:expr) => {
        on_32!(Scalar::Sum { minus: $minus, second: $second, carries: $carries, flags: $flags })
    };
}

macro_rules! logic {
    ($op:ident, $second:ident) => { on_32!(Scalar::Logic { op: Logic::$op, second: $second }) };
}

macro_rules! product {
    ($product:ident) => { on_32!(Scalar::Multiply(Product::$product)) };
}

macro_rules! shifted {
    ($shift:ident) => { on_32!(Scalar::Shift(Shift::$shift)) };
}

// Meanings on words.
macro_rules! word {
    ($op:ident) => { Meaning::Word(WordOp::$op) };
}

macro_rules! low_half {
    ($signed:expr) => { Meaning::Word(WordOp::LowHalf { signed: $signed }) };
}

macro_rules! pair {
    ($signed:expr, $adds:ident) => {
        Meaning::Word(WordOp::MultiplyPair { signed: $signed, adds: LongAddend::$adds })
    };
}

macro_rules! halves {
    ($first:expr, $second:expr, $adds:expr) => {
        Meaning::Word(WordOp::MultiplyHalves { first_high: $first, second_high: $second, adds: $adds })
    };
}

macro_rules! by_half {
    ($high:expr, $adds:expr) => {
        Meaning::Word(WordOp::MultiplyByHalf { high: $high, adds: $adds })
    };
}

macro_rules! both_halves {
    ($crossed:expr, $adds:expr) => {
        Meaning::Word(WordOp::MultiplyBothHalves { crossed: $crossed, adds: $adds })
    };
}

macro_rules! pack {
    ($keeps_high:expr, $second:ident) => {
        Meaning::Word(WordOp::Pack { keeps_high: $keeps_high, second: $second })
    };
}

macro_rules! add_halves {
    ($minus:expr) => { Meaning::Word(WordOp::AddHalves { minus: $minus }) };
}

// Meanings of accesses.
macro_rules! load {
    ($width:ident, $addressing:ident) => { transfer!(false, false, $width, false, $addressing) };
}

macro_rules! load_signed {
    ($width:ident, $addressing:ident) => { transfer!(false, false, $width, true, $addressing) };
}

macro_rules! store {
    ($width:ident, $addressing:ident) => { transfer!(true, false, $width, false, $addressing) };
}

macro_rules! load_pair {
    ($width:ident, $addressing:ident) => { transfer!(false, true, $width, false, $addressing) };
}

macro_rules! store_pair {
    ($width:ident, $addressing:ident) => { transfer!(true, true, $width, false, $addressing) };
}

macro_rules! transfer {
    ($store:expr, $pair:expr, $width:ident, $signed:expr, $addressing:ident) => {
        Meaning::Memory(Transfer { store: $store, pair: $pair, bank: Bank::General, width: Width::$width, signed: $signed, addressing: Addressing::$addressing })
    };
}

// A row: whether it reads and sets the flags, its mnemonic filled up with zeros, its two to four
// operands, its class and its meaning. It is printed as itself, and takes any sum of its numbers,
// unless it says otherwise behind these.
macro_rules! form {
    ($reads:expr, $sets:expr, $word:literal => [$a:ident, $b:ident], $($rest:tt)*) => {
        kept_form!($reads, $sets, $word, [$a, $b, NONE, NONE], $($rest)*)
    };
    ($reads:expr, $sets:expr, $word:literal => [$a:ident, $b:ident, $c:ident], $($rest:tt)*) => {
        kept_form!($reads, $sets, $word, [$a, $b, $c, NONE], $($rest)*)
    };
    ($reads:expr, $sets:expr, $word:literal => [$a:ident, $b:ident, $c:ident, $d:ident], $($rest:tt)*) => {
        kept_form!($reads, $sets, $word, [$a, $b, $c, $d], $($rest)*)
    };
}

macro_rules! kept_form {
    ($reads:expr, $sets:expr, $word:expr, $operands:tt, $class:ident, $meaning:expr) => {
        whole_form!($reads, $sets, $word, $operands, $class, $meaning, Alias::Own, Sum::Free)
    };
    ($reads:expr, $sets:expr, $word:expr, $operands:tt, $class:ident, $meaning:expr; zero $form:literal at $place:literal) => {
        whole_form!($reads, $sets, $word, $operands, $class, $meaning, Alias::ZeroAs { form: $form, place: $place }, Sum::Free)
    };
    ($reads:expr, $sets:expr, $word:expr, $operands:tt, $class:ident, $meaning:expr; as $form:literal) => {
        whole_form!($reads, $sets, $word, $operands, $class, $meaning, Alias::As($form), Sum::Free)
    };
    ($reads:expr, $sets:expr, $word:expr, $operands:tt, $class:ident, $meaning:expr; twice $form:literal) => {
        whole_form!($reads, $sets, $word, $operands, $class, $meaning, Alias::Repeat($form), Sum::Free)
    };
    ($reads:expr, $sets:expr, $word:expr, $operands:tt, $class:ident, $meaning:expr; sum $most:literal) => {
        whole_form!($reads, $sets, $word, $operands, $class, $meaning, Alias::Own, Sum::AtMost($most))
    };
}

macro_rules! whole_form {
    ($reads:expr, $sets:expr, $word:expr, [$a:ident, $b:ident, $c:ident, $d:ident], $class:ident, $meaning:expr, $alias:expr, $sum:expr) => {
        Row {
            mnemonic: *$word,
            first: $a,
            second: $b,
            third: $c,
            fourth: $d,
            fifth: NONE,
            reads_flags: $reads,
            sets_flags: $sets,
            sum: $sum,
            class: $class,
            meaning: $meaning,
            alias: $alias,
        }
    };
}

// A form that has nothing to do with the flags, one that sets them, one that
// reads them, and one that does both.
macro_rules! row {
    ($($part:tt)*) => { form!(false, false, $($part)*) };
}

macro_rules! sets {
    ($($part:tt)*) => { form!(false, true, $($part)*) };
}

macro_rules! reads {
    ($($part:tt)*) => { form!(true, false, $($part)*) };
}

macro_rules! carries {
    ($($part:tt)*) => { form!(true, true, $($part)*) };
}

static SUM_ROWS: [Row; 88] = [
    // Sums and differences.
    row!(b"add\0\0\0\0\0" => [TO, FROM, FROM], ALU, sum!(ADD, REGISTER)),
    row!(b"add\0\0\0\0\0" => [TO, FROM, FROM, BY_LSL], ALUS, sum!(ADD, LSL); zero 0 at 3),
    row!(b"add\0\0\0\0\0" => [TO, FROM, FROM, BY_LSR], ALUS, sum!(ADD, LSR)),
    row!(b"add\0\0\0\0\0" => [TO, FROM, FROM, BY_ASR], ALUS, sum!(ADD, ASR)),
    row!(b"add\0\0\0\0\0" => [TO, FROM, FROM, BY_ROR], ALUS, sum!(ADD, ROR)),
    row!(b"add\0\0\0\0\0" => [TO, FROM], ALU, sum!(ADD, REGISTER); twice 0),
    row!(b"add\0\0\0\0\0" => [TO, FROM, UP_TO_4095], ALU, sum!(ADD, NUMBER)),
    row!(b"add\0\0\0\0\0" => [TO, UP_TO_4095], ALU, sum!(ADD, NUMBER); twice 6),
    row!(b"sub\0\0\0\0\0" => [TO, FROM, FROM], ALU, sum!(SUB, REGISTER)),
    row!(b"sub\0\0\0\0\0" => [TO, FROM, FROM, BY_LSL], ALUS, sum!(SUB, LSL); zero 8 at 3),
    row!(b"sub\0\0\0\0\0" => [TO, FROM, FROM, BY_LSR], ALUS, sum!(SUB, LSR)),
    row!(b"sub\0\0\0\0\0" => [TO, FROM, FROM, BY_ASR], ALUS, sum!(SUB, ASR)),
    row!(b"sub\0\0\0\0\0" => [TO, FROM, FROM, BY_ROR], ALUS, sum!(SUB, ROR)),
    row!(b"sub\0\0\0\0\0" => [TO, FROM], ALU, sum!(SUB, REGISTER); twice 8),
    row!(b"sub\0\0\0\0\0" => [TO, FROM, UP_TO_4095], ALU, sum!(SUB, NUMBER)),
    row!(b"sub\0\0\0\0\0" => [TO, UP_TO_4095], ALU, sum!(SUB, NUMBER); twice 14),
    sets!(b"adds\0\0\0\0" => [TO, FROM, FROM], ALU, sum!(ADDS, REGISTER)),
    sets!(b"adds\0\0\0\0" => [TO, FROM, FROM, BY_LSL], ALUS, sum!(ADDS, LSL); zero 16 at 3),
    sets!(b"adds\0\0\0\0" => [TO, FROM, FROM, BY_LSR], ALUS, sum!(ADDS, LSR)),
    sets!(b"adds\0\0\0\0" => [TO, FROM, FROM, BY_ASR], ALUS, sum!(ADDS, ASR)),
    sets!(b"adds\0\0\0\0" => [TO, FROM, FROM, BY_ROR], ALUS, sum!(ADDS, ROR)),
    sets!(b"adds\0\0\0\0" => [TO, FROM], ALU, sum!(ADDS, REGISTER); twice 16),
    sets!(b"adds\0\0\0\0" => [TO, FROM, UP_TO_255], ALU, sum!(ADDS, NUMBER)),
    sets!(b"adds\0\0\0\0" => [TO, UP_TO_255], ALU, sum!(ADDS, NUMBER); twice 22),
    sets!(b"subs\0\0\0\0" => [TO, FROM, FROM], ALU, sum!(SUBS, REGISTER)),
    sets!(b"subs\0\0\0\0" => [TO, FROM, FROM, BY_LSL], ALUS, sum!(SUBS, LSL); zero 24 at 3),
    sets!(b"subs\0\0\0\0" => [TO, FROM, FROM, BY_LSR], ALUS, sum!(SUBS, LSR)),
    sets!(b"subs\0\0\0\0" => [TO, FROM, FROM, BY_ASR], ALUS, sum!(SUBS, ASR)),
    sets!(b"subs\0\0\0\0" => [TO, FROM, FROM, BY_ROR], ALUS, sum!(SUBS, ROR)),
    sets!(b"subs\0\0\0\0" => [TO, FROM], ALU, sum!(SUBS, REGISTER); twice 24),
    sets!(b"subs\0\0\0\0" => [TO, FROM, UP_TO_255], ALU, sum!(SUBS, NUMBER)),
    sets!(b"subs\0\0\0\0" => [TO, UP_TO_255], ALU, sum!(SUBS, NUMBER); twice 30),
    // The same with the carry.
    reads!(b"adc\0\0\0\0\0" => [TO, FROM, FROM], ALU, sum!(ADC, REGISTER)),
    reads!(b"adc\0\0\0\0\0" => [TO, FROM, FROM, BY_LSL], ALUS, sum!(ADC, LSL); zero 32 at 3),
    reads!(b"adc\0\0\0\0\0" => [TO, FROM, FROM, BY_LSR], ALUS, sum!(ADC, LSR)),
    reads!(b"adc\0\0\0\0\0" => [TO, FROM, FROM, BY_ASR], ALUS, sum!(ADC, ASR)),
    reads!(b"adc\0\0\0\0\0" => [TO, FROM, FROM, BY_ROR], ALUS, sum!(ADC, ROR)),
    reads!(b"adc\0\0\0\0\0" => [TO, FROM], ALU, sum!(ADC, REGISTER); twice 32),
    reads!(b"sbc\0\0\0\0\0" => [TO, FROM, FROM], ALU, sum!(SBC, REGISTER)),
    reads!(b"sbc\0\0\0\0\0" => [TO, FROM, FROM, BY_LSL], ALUS, sum!(SBC, LSL); zero 38 at 3),
    reads!(b"sbc\0\0\0\0\0" => [TO, FROM, FROM, BY_LSR], ALUS, sum!(SBC, LSR)),
    reads!(b"sbc\0\0\0\0\0" => [TO, FROM, FROM, BY_ASR], ALUS, sum!(SBC, ASR)),
    reads!(b"sbc\0\0\0\0\0" => [TO, FROM, FROM, BY_ROR], ALUS, sum!(SBC, ROR)),
    reads!(b"sbc\0\0\0\0\0" => [TO, FROM], ALU, sum!(SBC, REGISTER); twice 38),
    carries!(b"adcs\0\0\0\0" => [TO, FROM, FROM], ALU, sum!(ADCS, REGISTER)),
    carries!(b"adcs\0\0\0\0" => [TO, FROM, FROM, BY_LSL], ALUS, sum!(ADCS, LSL); zero 44 at 3),
    carries!(b"adcs\0\0\0\0" => [TO, FROM, FROM, BY_LSR], ALUS, sum!(ADCS, LSR)),
    carries!(b"adcs\0\0\0\0" => [TO, FROM, FROM, BY_ASR], ALUS, sum!(ADCS, ASR)),
    carries!(b"adcs\0\0\0\0" => [TO, FROM, FROM, BY_ROR], ALUS, sum!(ADCS, ROR)),
    carries!(b"adcs\0\0\0\0" => [TO, FROM], ALU, sum!(ADCS, REGISTER); twice 44),
    carries!(b"sbcs\0\0\0\0" => [TO, FROM, FROM], ALU, sum!(SBCS, REGISTER)),
    carries!(b"sbcs\0\0\0\0" => [TO, FROM, FROM, BY_LSL], ALUS, sum!(SBCS, LSL); zero 50 at 3),
    carries!(b"sbcs\0\0\0\0" => [TO, FROM, FROM, BY_LSR], ALUS, sum!(SBCS, LSR)),
    carries!(b"sbcs\0\0\0\0" => [TO, FROM, FROM, BY_ASR], ALUS, sum!(SBCS, ASR)),
    carries!(b"sbcs\0\0\0\0" => [TO, FROM, FROM, BY_ROR], ALUS, sum!(SBCS, ROR)),
    carries!(b"sbcs\0\0\0\0" => [TO, FROM], ALU, sum!(SBCS, REGISTER); twice 50),
    // Bitwise operations.
    row!(b"and\0\0\0\0\0" => [TO, FROM, FROM], ALU, logic!(And, REGISTER)),
    row!(b"and\0\0\0\0\0" => [TO, FROM, FROM, BY_LSL], ALUS, logic!(And, LSL); zero 56 at 3),
    row!(b"and\0\0\0\0\0" => [TO, FROM, FROM, BY_LSR], ALUS, logic!(And, LSR)),
    row!(b"and\0\0\0\0\0" => [TO, FROM, FROM, BY_ASR], ALUS, logic!(And, ASR)),
    row!(b"and\0\0\0\0\0" => [TO, FROM, FROM, BY_ROR], ALUS, logic!(And, ROR)),
    row!(b"and\0\0\0\0\0" => [TO, FROM], ALU, logic!(And, REGISTER); twice 56),
    row!(b"and\0\0\0\0\0" => [TO, FROM, UP_TO_255], ALU, logic!(And, NUMBER)),
    row!(b"and\0\0\0\0\0" => [TO, UP_TO_255], ALU, logic!(And, NUMBER); twice 62),
    row!(b"orr\0\0\0\0\0" => [TO, FROM, FROM], ALU, logic!(Orr, REGISTER)),
    row!(b"orr\0\0\0\0\0" => [TO, FROM, FROM, BY_LSL], ALUS, logic!(Orr, LSL); zero 64 at 3),
    row!(b"orr\0\0\0\0\0" => [TO, FROM, FROM, BY_LSR], ALUS, logic!(Orr, LSR)),
    row!(b"orr\0\0\0\0\0" => [TO, FROM, FROM, BY_ASR], ALUS, logic!(Orr, ASR)),
    row!(b"orr\0\0\0\0\0" => [TO, FROM, FROM, BY_ROR], ALUS, logic!(Orr, ROR)),
    row!(b"orr\0\0\0\0\0" => [TO, FROM], ALU, logic!(Orr, REGISTER); twice 64),
    row!(b"orr\0\0\0\0\0" => [TO, FROM, UP_TO_255], ALU, logic!(Orr, NUMBER)),
    row!(b"orr\0\0\0\0\0" => [TO, UP_TO_255], ALU, logic!(Orr, NUMBER); twice 70),
    row!(b"eor\0\0\0\0\0" => [TO, FROM, FROM], ALU, logic!(Eor, REGISTER)),
    row!(b"eor\0\0\0\0\0" => [TO, FROM, FROM, BY_LSL], ALUS, logic!(Eor, LSL); zero 72 at 3),
    row!(b"eor\0\0\0\0\0" => [TO, FROM, FROM, BY_LSR], ALUS, logic!(Eor, LSR)),
    row!(b"eor\0\0\0\0\0" => [TO, FROM, FROM, BY_ASR], ALUS, logic!(Eor, ASR)),
    row!(b"eor\0\0\0\0\0" => [TO, FROM, FROM, BY_ROR], ALUS, logic!(Eor, ROR)),
    row!(b"eor\0\0\0\0\0" => [TO, FROM], ALU, logic!(Eor, REGISTER); twice 72),
    row!(b"eor\0\0\0\0\0" => [TO, FROM, UP_TO_255], ALU, logic!(Eor, NUMBER)),
    row!(b"eor\0\0\0\0\0" => [TO, UP_TO_255], ALU, logic!(Eor, NUMBER); twice 78),
    row!(b"bic\0\0\0\0\0" => [TO, FROM, FROM], ALU, logic!(Bic, REGISTER)),
    row!(b"bic\0\0\0\0\0" => [TO, FROM, FROM, BY_LSL], ALUS, logic!(Bic, LSL); zero 80 at 3),
    row!(b"bic\0\0\0\0\0" => [TO, FROM, FROM, BY_LSR], ALUS, logic!(Bic, LSR)),
    row!(b"bic\0\0\0\0\0" => [TO, FROM, FROM, BY_ASR], ALUS, logic!(Bic, ASR)),
    row!(b"bic\0\0\0\0\0" => [TO, FROM, FROM, BY_ROR], ALUS, logic!(Bic, ROR)),
    row!(b"bic\0\0\0\0\0" => [TO, FROM], ALU, logic!(Bic, REGISTER); twice 80),
    row!(b"bic\0\0\0\0\0" => [TO, FROM, UP_TO_255], ALU, logic!(Bic, NUMBER)),
    row!(b"bic\0\0\0\0\0" => [TO, UP_TO_255], ALU, logic!(Bic, NUMBER); twice 86),
];

static OTHER_ROWS: [Row; 50] = [
    // Moves.
    row!(b"mov\0\0\0\0\0" => [TO, FROM], ALU, scalar!(Copy)),
    row!(b"movw\0\0\0\0" => [TO, UP_TO_65535], ALU, scalar!(Wide)),
    row!(b"mov\0\0\0\0\0" => [TO, UP_TO_65535], ALU, scalar!(Wide); as 89),
    row!(b"movt\0\0\0\0" => [TIED, UP_TO_65535], ALU, word!(ReplaceHigh)),
    // Shifts.
    row!(b"lsl\0\0\0\0\0" => [TO, FROM, FROM_1_TO_31], ALUS, shifted!(Lsl)),
    row!(b"lsl\0\0\0\0\0" => [TO, FROM_1_TO_31], ALUS, shifted!(Lsl); twice 92),
    row!(b"lsr\0\0\0\0\0" => [TO, FROM, FROM_1_TO_32], ALUS, shifted!(Lsr)),
    row!(b"lsr\0\0\0\0\0" => [TO, FROM_1_TO_32], ALUS, shifted!(Lsr); twice 94),
    row!(b"asr\0\0\0\0\0" => [TO, FROM, FROM_1_TO_32], ALUS, shifted!(Asr)),
    row!(b"asr\0\0\0\0\0" => [TO, FROM_1_TO_32], ALUS, shifted!(Asr); twice 96),
    row!(b"ror\0\0\0\0\0" => [TO, FROM, FROM_1_TO_31], ALUS, shifted!(Ror)),
    row!(b"ror\0\0\0\0\0" => [TO, FROM_1_TO_31], ALUS, shifted!(Ror); twice 98),
    // Parts of registers.
    row!(b"ubfx\0\0\0\0" => [TO, FROM, BELOW_32, FROM_1_TO_32], ALUS, scalar!(Field); sum 32),
    row!(b"sbfx\0\0\0\0" => [TO, FROM, BELOW_32, FROM_1_TO_32], ALUS, word!(SignedField); sum 32),
    row!(b"uxth\0\0\0\0" => [TO, FROM], ALU, low_half!(false)),
    row!(b"sxth\0\0\0\0" => [TO, FROM], ALU, low_half!(true)),
    // Products.
    row!(b"mul\0\0\0\0\0" => [TO, FROM, FROM], MUL, product!(Alone)),
    row!(b"mla\0\0\0\0\0" => [TO, FROM, FROM, FROM], MUL, product!(Added)),
    row!(b"mls\0\0\0\0\0" => [TO, FROM, FROM, FROM], MUL, product!(Subtracted)),
    // Products of 64 bits.
    row!(b"smull\0\0\0" => [TO, TO, FROM, FROM], MUL, pair!(true, Nothing)),
    row!(b"umull\0\0\0" => [TO, TO, FROM, FROM], MUL, pair!(false, Nothing)),
    row!(b"smlal\0\0\0" => [TIED, TIED, FROM, FROM], MUL, pair!(true, Pair)),
    row!(b"umlal\0\0\0" => [TIED, TIED, FROM, FROM], MUL, pair!(false, Pair)),
    row!(b"umaal\0\0\0" => [TIED, TIED, FROM, FROM], MUL, pair!(false, Both)),
    // Products of halves.
    row!(b"smulbb\0\0" => [TO, FROM, FROM], MUL, halves!(false, false, false)),
    row!(b"smulbt\0\0" => [TO, FROM, FROM], MUL, halves!(false, true, false)),
    row!(b"smultb\0\0" => [TO, FROM, FROM], MUL, halves!(true, false, false)),
    row!(b"smultt\0\0" => [TO, FROM, FROM], MUL, halves!(true, true, false)),
    row!(b"smlabb\0\0" => [TO, FROM, FROM, FROM], MUL, halves!(false, false, true)),
    row!(b"smlabt\0\0" => [TO, FROM, FROM, FROM], MUL, halves!(false, true, true)),
    row!(b"smlatb\0\0" => [TO, FROM, FROM, FROM], MUL, halves!(true, false, true)),
    row!(b"smlatt\0\0" => [TO, FROM, FROM, FROM], MUL, halves!(true, true, true)),
    row!(b"smulwb\0\0" => [TO, FROM, FROM], MUL, by_half!(false, false)),
    row!(b"smulwt\0\0" => [TO, FROM, FROM], MUL, by_half!(true, false)),
    row!(b"smlawb\0\0" => [TO, FROM, FROM, FROM], MUL, by_half!(false, true)),
    row!(b"smlawt\0\0" => [TO, FROM, FROM, FROM], MUL, by_half!(true, true)),
    row!(b"smuad\0\0\0" => [TO, FROM, FROM], MUL, both_halves!(false, false)),
    row!(b"smuadx\0\0" => [TO, FROM, FROM], MUL, both_halves!(true, false)),
    row!(b"smlad\0\0\0" => [TO, FROM, FROM, FROM], MUL, both_halves!(false, true)),
    row!(b"smladx\0\0" => [TO, FROM, FROM, FROM], MUL, both_halves!(true, true)),
    row!(b"smmulr\0\0" => [TO, FROM, FROM], MUL, word!(MultiplyHighRounded)),
    // Halves, put together and added.
    row!(b"pkhbt\0\0\0" => [TO, FROM, FROM], SIMD, pack!(false, REGISTER)),
    row!(b"pkhbt\0\0\0" => [TO, FROM, FROM, BY_LSL_FROM_1], SIMD, pack!(false, LSL)),
    row!(b"pkhtb\0\0\0" => [TO, FROM, FROM, BY_ASR], SIMD, pack!(true, ASR)),
    row!(b"uadd16\0\0" => [TO, FROM, FROM], SIMD, add_halves!(false)),
    row!(b"sadd16\0\0" => [TO, FROM, FROM], SIMD, add_halves!(false)),
    row!(b"usub16\0\0" => [TO, FROM, FROM], SIMD, add_halves!(true)),
    row!(b"ssub16\0\0" => [TO, FROM, FROM], SIMD, add_halves!(true)),
    // Copies between general registers and those of floating point.
    row!(b"vmov\0\0\0\0" => [TO_S, FROM], FMOVE, Meaning::Copy(Bank::Vector)),
    row!(b"vmov\0\0\0\0" => [TO, S], FMOVE, Meaning::Copy(Bank::General)),
];

static SINGLE_ROWS: [Row; 28] = [
    // Loads.
    row!(b"ldr\0\0\0\0\0" => [TO, BASE], LOAD, load!(Word, Kept)),
    row!(b"ldr\0\0\0\0\0" => [TO, OFFSET], LOAD, load!(Word, Kept); zero 138 at 1),
    row!(b"ldr\0\0\0\0\0" => [TO, BACK, BY], LOAD, load!(Word, After)),
    row!(b"ldr\0\0\0\0\0" => [TO, BEFORE], LOAD, load!(Word, Before)),
    row!(b"ldrh\0\0\0\0" => [TO, BASE], LOAD, load!(Half, Kept)),
    row!(b"ldrh\0\0\0\0" => [TO, OFFSET], LOAD, load!(Half, Kept); zero 142 at 1),
    row!(b"ldrh\0\0\0\0" => [TO, BACK, BY], LOAD, load!(Half, After)),
    row!(b"ldrh\0\0\0\0" => [TO, BEFORE], LOAD, load!(Half, Before)),
    row!(b"ldrsh\0\0\0" => [TO, BASE], LOAD, load_signed!(Half, Kept)),
    row!(b"ldrsh\0\0\0" => [TO, OFFSET], LOAD, load_signed!(Half, Kept); zero 146 at 1),
    row!(b"ldrsh\0\0\0" => [TO, BACK, BY], LOAD, load_signed!(Half, After)),
    row!(b"ldrsh\0\0\0" => [TO, BEFORE], LOAD, load_signed!(Half, Before)),
    row!(b"ldrb\0\0\0\0" => [TO, BASE], LOAD, load!(Byte, Kept)),
    row!(b"ldrb\0\0\0\0" => [TO, OFFSET], LOAD, load!(Byte, Kept); zero 150 at 1),
    row!(b"ldrb\0\0\0\0" => [TO, BACK, BY], LOAD, load!(Byte, After)),
    row!(b"ldrb\0\0\0\0" => [TO, BEFORE], LOAD, load!(Byte, Before)),
    // Stores.
    row!(b"str\0\0\0\0\0" => [FROM, BASE], STORE, store!(Word, Kept)),
    row!(b"str\0\0\0\0\0" => [FROM, OFFSET], STORE, store!(Word, Kept); zero 154 at 1),
    row!(b"str\0\0\0\0\0" => [FROM, BACK, BY], STORE, store!(Word, After)),
    row!(b"str\0\0\0\0\0" => [FROM, BEFORE], STORE, store!(Word, Before)),
    row!(b"strh\0\0\0\0" => [FROM, BASE], STORE, store!(Half, Kept)),
    row!(b"strh\0\0\0\0" => [FROM, OFFSET], STORE, store!(Half, Kept); zero 158 at 1),
    row!(b"strh\0\0\0\0" => [FROM, BACK, BY], STORE, store!(Half, After)),
    row!(b"strh\0\0\0\0" => [FROM, BEFORE], STORE, store!(Half, Before)),
    row!(b"strb\0\0\0\0" => [FROM, BASE], STORE, store!(Byte, Kept)),
    row!(b"strb\0\0\0\0" => [FROM, OFFSET], STORE, store!(Byte, Kept); zero 162 at 1),
    row!(b"strb\0\0\0\0" => [FROM, BACK, BY], STORE, store!(Byte, After)),
    row!(b"strb\0\0\0\0" => [FROM, BEFORE], STORE, store!(Byte, Before)),
];

static PAIR_ROWS: [Row; 8] = [
    // Loads of two registers.
    row!(b"ldrd\0\0\0\0" => [TO, TO, BASE], LOAD, load_pair!(Word, Kept)),
    row!(b"ldrd\0\0\0\0" => [TO, TO, OFFSET_4], LOAD, load_pair!(Word, Kept); zero 166 at 2),
    row!(b"ldrd\0\0\0\0" => [TO, TO, BACK, BY_4], LOAD, load_pair!(Word, After)),
    row!(b"ldrd\0\0\0\0" => [TO, TO, BEFORE_4], LOAD, load_pair!(Word, Before)),
    // Stores of two registers.
    row!(b"strd\0\0\0\0" => [FROM, FROM, BASE], STORE, store_pair!(Word, Kept)),
    row!(b"strd\0\0\0\0" => [FROM, FROM, OFFSET_4], STORE, store_pair!(Word, Kept); zero 170 at 2),
    row!(b"strd\0\0\0\0" => [FROM, FROM, BACK, BY_4], STORE, store_pair!(Word, After)),
    row!(b"strd\0\0\0\0" => [FROM, FROM, BEFORE_4], STORE, store_pair!(Word, Before)),
];

// The rows of sums and bitwise operations.
fn sums() -> &'static [Row]
    ensures { result.now ≡ sum_rows }
{
    &SUM_ROWS
}

// The rows of what else works on registers.
fn others() -> &'static [Row]
    ensures { result.now ≡ other_rows }
{
    &OTHER_ROWS
}

// The rows of accesses of one register.
fn singles() -> &'static [Row]
    ensures { result.now ≡ single_rows 138 }
{
    &SINGLE_ROWS
}

// The rows of accesses of two.
fn pairs() -> &'static [Row]
    ensures { result.now ≡ pair_rows 166 }
{
    &PAIR_ROWS
}

/// The table of the forms.
#[tactic(auto, unfolding(crate::specs::Document::document))]
pub(crate) fn table() -> Table<'static>
    ensures rows { rows_of result ≡ document }
    ensures count { length (rows_of result) ≡ 174 }
{
    Table {
        first: sums(),
        second: others(),
        third: singles(),
        fourth: pairs(),
    }
}
