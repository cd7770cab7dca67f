//! The forms of AArch64, each a row. A new form is one more row at the end, and one
//! more in the document of `specs/`.
ghost use Rattle.std.specs.Prelude.{◌≡◌, true, length};
ghost use Rattle.form_table.specs.Tables.{is_readable};
ghost use Rattle.form_table.specs.TableRows.{rows_of};
ghost use Rattle.arm64_table.specs.Document.{scalar_rows, lane_sum_rows, lane_order_rows, memory_rows, document};

use form_table::rows::{Alias, Letter, Name, Operand, Range, Role, Row, Shape, Sum};
use form_table::table::Table;
use sl_isa::meaning::{
    Addressing, Arrangement, Lane, LaneOp, LaneShift, Logic, Meaning, Permutation, Product, Scalar,
    Second, Shift, Size, Transfer, Vector, Width,
};
use sl_isa::{Bank, RegSet};

// The cost classes, in the order of the core tables.
const ALU: u8 = 0;

const ALUS: u8 = 1;

const MUL: u8 = 2;

const LOAD: u8 = 3;

const STORE: u8 = 4;

const VALU: u8 = 5;

const VSHIFT: u8 = 6;

const VMUL: u8 = 7;

const VPERM: u8 = 8;

const VXFER: u8 = 9;

// No register, x0 to x30, these and the zero register, these and sp, v0 to v31, and v0 to v15.
const NO_REGISTER: RegSet = RegSet { bits: 0 };

const GENERAL: RegSet = RegSet {
    bits: (1 << 31) - 1,
};

const GENERAL_OR_ZERO: RegSet = RegSet {
    bits: (1 << 32) - 1,
};

const GENERAL_OR_STACK: RegSet = RegSet {
    bits: ((1 << 31) - 1) | (1 << 65),
};

const VECTOR: RegSet = RegSet {
    bits: ((1 << 32) - 1) << 32,
};

const LOW_VECTOR: RegSet = RegSet {
    bits: ((1 << 16) - 1) << 32,
};

// An operand by its shape, its role, its registers and its numbers.
macro_rules! operand {
    ($shape:ident $(($part:expr))? => $role:ident, $class:ident, $least:literal to $most:literal by $step:literal) => {
        Operand {
            shape: Shape::$shape $(($part))?,
            role: Role::$role,
            class: $class,
            range: Range { least: $least, most: $most, step: $step },
        }
    };
}

const NONE: Operand = operand!(Nothing => In, NO_REGISTER, 0 to 0 by 1);

const TO_X: Operand = operand!(Register(Letter::X) => Out, GENERAL, 0 to 0 by 1);

const TIED_X: Operand = operand!(Register(Letter::X) => Tied, GENERAL, 0 to 0 by 1);

const X: Operand = operand!(Register(Letter::X) => In, GENERAL, 0 to 0 by 1);

const ANY_X: Operand = operand!(Register(Letter::X) => In, GENERAL_OR_ZERO, 0 to 0 by 1);

const TO_W: Operand = operand!(Register(Letter::W) => Out, GENERAL, 0 to 0 by 1);

const TIED_W: Operand = operand!(Register(Letter::W) => Tied, GENERAL, 0 to 0 by 1);

const W: Operand = operand!(Register(Letter::W) => In, GENERAL, 0 to 0 by 1);

const ANY_W: Operand = operand!(Register(Letter::W) => In, GENERAL_OR_ZERO, 0 to 0 by 1);

const BELOW_8: Operand = operand!(Number => In, NO_REGISTER, 0 to 7 by 1);

const BELOW_16: Operand = operand!(Number => In, NO_REGISTER, 0 to 15 by 1);

const BELOW_32: Operand = operand!(Number => In, NO_REGISTER, 0 to 31 by 1);

const BELOW_64: Operand = operand!(Number => In, NO_REGISTER, 0 to 63 by 1);

const FROM_1_TO_8: Operand = operand!(Number => In, NO_REGISTER, 1 to 8 by 1);

const FROM_1_TO_16: Operand = operand!(Number => In, NO_REGISTER, 1 to 16 by 1);

const FROM_1_TO_32: Operand = operand!(Number => In, NO_REGISTER, 1 to 32 by 1);

const FROM_1_TO_64: Operand = operand!(Number => In, NO_REGISTER, 1 to 64 by 1);

const UP_TO_4095: Operand = operand!(Number => In, NO_REGISTER, 0 to 4095 by 1);

const UP_TO_65535: Operand = operand!(Number => In, NO_REGISTER, 0 to 65535 by 1);

const LSL_X: Operand = operand!(Shift(Name::Lsl) => In, NO_REGISTER, 0 to 63 by 1);

const LSL_W: Operand = operand!(Shift(Name::Lsl) => In, NO_REGISTER, 0 to 31 by 1);

const LSR_X: Operand = operand!(Shift(Name::Lsr) => In, NO_REGISTER, 0 to 63 by 1);

const LSR_W: Operand = operand!(Shift(Name::Lsr) => In, NO_REGISTER, 0 to 31 by 1);

const ASR_X: Operand = operand!(Shift(Name::Asr) => In, NO_REGISTER, 0 to 63 by 1);

const ASR_W: Operand = operand!(Shift(Name::Asr) => In, NO_REGISTER, 0 to 31 by 1);

const ROR_X: Operand = operand!(Shift(Name::Ror) => In, NO_REGISTER, 0 to 63 by 1);

const ROR_W: Operand = operand!(Shift(Name::Ror) => In, NO_REGISTER, 0 to 31 by 1);

const LSL_12: Operand = operand!(Shift(Name::Lsl) => In, NO_REGISTER, 12 to 12 by 1);

const LSL_BY_16_X: Operand = operand!(Shift(Name::Lsl) => In, NO_REGISTER, 0 to 48 by 16);

const LSL_BY_16_W: Operand = operand!(Shift(Name::Lsl) => In, NO_REGISTER, 0 to 16 by 16);

const CONDITION: Operand = operand!(Condition => In, NO_REGISTER, 0 to 13 by 1);

const TO_8B: Operand = operand!(Lanes(Name::Lanes8b) => Out, VECTOR, 0 to 0 by 1);

const TIED_8B: Operand = operand!(Lanes(Name::Lanes8b) => Tied, VECTOR, 0 to 0 by 1);

const V_8B: Operand = operand!(Lanes(Name::Lanes8b) => In, VECTOR, 0 to 0 by 1);

const TO_16B: Operand = operand!(Lanes(Name::Lanes16b) => Out, VECTOR, 0 to 0 by 1);

const TIED_16B: Operand = operand!(Lanes(Name::Lanes16b) => Tied, VECTOR, 0 to 0 by 1);

const V_16B: Operand = operand!(Lanes(Name::Lanes16b) => In, VECTOR, 0 to 0 by 1);

const TO_4H: Operand = operand!(Lanes(Name::Lanes4h) => Out, VECTOR, 0 to 0 by 1);

const TIED_4H: Operand = operand!(Lanes(Name::Lanes4h) => Tied, VECTOR, 0 to 0 by 1);

const V_4H: Operand = operand!(Lanes(Name::Lanes4h) => In, VECTOR, 0 to 0 by 1);

const TO_8H: Operand = operand!(Lanes(Name::Lanes8h) => Out, VECTOR, 0 to 0 by 1);

const TIED_8H: Operand = operand!(Lanes(Name::Lanes8h) => Tied, VECTOR, 0 to 0 by 1);

const V_8H: Operand = operand!(Lanes(Name::Lanes8h) => In, VECTOR, 0 to 0 by 1);

const TO_2S: Operand = operand!(Lanes(Name::Lanes2s) => Out, VECTOR, 0 to 0 by 1);

const TIED_2S: Operand = operand!(Lanes(Name::Lanes2s) => Tied, VECTOR, 0 to 0 by 1);

const V_2S: Operand = operand!(Lanes(Name::Lanes2s) => In, VECTOR, 0 to 0 by 1);

const TO_4S: Operand = operand!(Lanes(Name::Lanes4s) => Out, VECTOR, 0 to 0 by 1);

const TIED_4S: Operand = operand!(Lanes(Name::Lanes4s) => Tied, VECTOR, 0 to 0 by 1);

const V_4S: Operand = operand!(Lanes(Name::Lanes4s) => In, VECTOR, 0 to 0 by 1);

const TO_2D: Operand = operand!(Lanes(Name::Lanes2d) => Out, VECTOR, 0 to 0 by 1);

const TIED_2D: Operand = operand!(Lanes(Name::Lanes2d) => Tied, VECTOR, 0 to 0 by 1);

const V_2D: Operand = operand!(Lanes(Name::Lanes2d) => In, VECTOR, 0 to 0 by 1);

const B_LANE: Operand = operand!(Lane(Name::LaneB) => In, VECTOR, 0 to 15 by 1);

const TIED_B_LANE: Operand = operand!(Lane(Name::LaneB) => Tied, VECTOR, 0 to 15 by 1);

const H_LANE: Operand = operand!(Lane(Name::LaneH) => In, VECTOR, 0 to 7 by 1);

const TIED_H_LANE: Operand = operand!(Lane(Name::LaneH) => Tied, VECTOR, 0 to 7 by 1);

const S_LANE: Operand = operand!(Lane(Name::LaneS) => In, VECTOR, 0 to 3 by 1);

const TIED_S_LANE: Operand = operand!(Lane(Name::LaneS) => Tied, VECTOR, 0 to 3 by 1);

const D_LANE: Operand = operand!(Lane(Name::LaneD) => In, VECTOR, 0 to 1 by 1);

const TIED_D_LANE: Operand = operand!(Lane(Name::LaneD) => Tied, VECTOR, 0 to 1 by 1);

const H_ELEMENT: Operand = operand!(Lane(Name::LaneH) => In, LOW_VECTOR, 0 to 7 by 1);

const S_ELEMENT: Operand = operand!(Lane(Name::LaneS) => In, VECTOR, 0 to 3 by 1);

const TO_Q: Operand = operand!(Register(Letter::Q) => Out, VECTOR, 0 to 0 by 1);

const Q: Operand = operand!(Register(Letter::Q) => In, VECTOR, 0 to 0 by 1);

const TO_D: Operand = operand!(Register(Letter::D) => Out, VECTOR, 0 to 0 by 1);

const D: Operand = operand!(Register(Letter::D) => In, VECTOR, 0 to 0 by 1);

const TO_S: Operand = operand!(Register(Letter::S) => Out, VECTOR, 0 to 0 by 1);

const S: Operand = operand!(Register(Letter::S) => In, VECTOR, 0 to 0 by 1);

const BASE: Operand = operand!(Base(Letter::X) => Base, GENERAL_OR_STACK, 0 to 0 by 1);

const BACK: Operand = operand!(Base(Letter::X) => Back, GENERAL, 0 to 0 by 1);

const FORWARD_4: Operand = operand!(Offset(Letter::X) => Base, GENERAL_OR_STACK, 0 to 16380 by 4);

const FORWARD_8: Operand = operand!(Offset(Letter::X) => Base, GENERAL_OR_STACK, 0 to 32760 by 8);

const FORWARD_16: Operand = operand!(Offset(Letter::X) => Base, GENERAL_OR_STACK, 0 to 65520 by 16);

const AROUND: Operand = operand!(Offset(Letter::X) => Base, GENERAL_OR_STACK, -256 to 255 by 1);

const AROUND_8: Operand = operand!(Offset(Letter::X) => Base, GENERAL_OR_STACK, -512 to 504 by 8);

const AROUND_16: Operand =
    operand!(Offset(Letter::X) => Base, GENERAL_OR_STACK, -1024 to 1008 by 16);

const BEFORE: Operand = operand!(Before(Letter::X) => Back, GENERAL, -256 to 255 by 1);

const BEFORE_8: Operand = operand!(Before(Letter::X) => Back, GENERAL, -512 to 504 by 8);

const BEFORE_16: Operand = operand!(Before(Letter::X) => Back, GENERAL, -1024 to 1008 by 16);

const BY: Operand = operand!(Number => In, NO_REGISTER, -256 to 255 by 1);

const BY_8: Operand = operand!(Number => In, NO_REGISTER, -512 to 504 by 8);

const BY_16: Operand = operand!(Number => In, NO_REGISTER, -1024 to 1008 by 16);

const REGISTER: Second = Second::Register;

const LSL: Second = Second::Shifted(Shift::Lsl);

const LSR: Second = Second::Shifted(Shift::Lsr);

const ASR: Second = Second::Shifted(Shift::Asr);

const ROR: Second = Second::Shifted(Shift::Ror);

const NUMBER: Second = Second::Number;

// Meanings of scalar forms: of X and of W registers.
macro_rules! on_size {
    ($op:expr, X) => { Meaning::Scalar { op: $op, size: Size::Bits64 } };
    ($op:expr, W) => { Meaning::Scalar { op: $op, size: Size::Bits32 } };
}

macro_rules! scalar {
    ($op:ident, $size:tt) => { on_size!(Scalar::$op, $size) };
}

macro_rules! sum {
    (ADD, $second:ident, $size:tt) => { sum_of!(false, $second, false, false, $size) };
    (SUB, $second:ident, $size:tt) => { sum_of!(true, $second, false, false, $size) };
    (ADDS, $second:ident, $size:tt) => { sum_of!(false, $second, false, true, $size) };
    (SUBS, $second:ident, $size:tt) => { sum_of!(true, $second, false, true, $size) };
    (ADC, $second:ident, $size:tt) => { sum_of!(false, $second, true, false, $size) };
    (SBC, $second:ident, $size:tt) => { sum_of!(true, $second, true, false, $size) };
    (ADCS, $second:ident, $size:tt) => { sum_of!(false, $second, true, true, $size) };
    (SBCS, $second:ident, $size:tt) => { sum_of!(true, $second, true, true, $size) };
}

macro_rules! sum_of {
    ($minus:expr, $second:ident, $carries:expr, $flags:expr, $size:tt) => {
        on_size!(Scalar::Sum { minus: $minus, second: $second, carries: $carries, flags: $flags }, $size)
    };
}

macro_rules! logic {
    ($op:ident, $second:ident, $size:tt) => {
        on_size!(Scalar::Logic { op: Logic::$op, second: $second }, $size)
    };
}

macro_rules! product {
    ($product:ident, $size:tt) => { on_size!(Scalar::Multiply(Product::$product), $size) };
}

macro_rules! high {
    ($signed:expr) => { on_size!(Scalar::MultiplyHigh { signed: $signed }, X) };
}

macro_rules! wide {
    ($signed:expr) => { on_size!(Scalar::MultiplyLong { signed: $signed }, X) };
}

macro_rules! shifted {
    ($shift:ident, $size:tt) => { on_size!(Scalar::Shift(Shift::$shift), $size) };
}

// Meanings of vector forms.
macro_rules! lanewise {
    ($op:ident, $lanes:ident) => {
        Meaning::Vector(Vector::Lanewise { op: LaneOp::$op, lanes: Arrangement::$lanes })
    };
}

macro_rules! by_element {
    ($op:ident, $lanes:ident) => {
        Meaning::Vector(Vector::ByElement { op: LaneOp::$op, lanes: Arrangement::$lanes })
    };
}

macro_rules! long {
    ($signed:expr, $adds:expr, $high:expr, $lanes:ident) => {
        Meaning::Vector(Vector::Long { signed: $signed, adds: $adds, high: $high, lanes: Arrangement::$lanes })
    };
}

macro_rules! shift {
    ($op:ident, $lanes:ident) => {
        Meaning::Vector(Vector::Shift { op: LaneShift::$op, lanes: Arrangement::$lanes })
    };
}

macro_rules! permute {
    ($op:ident, $lanes:ident) => {
        Meaning::Vector(Vector::Permute { op: Permutation::$op, lanes: Arrangement::$lanes })
    };
}

macro_rules! vector {
    ($op:ident, $lanes:ident) => { Meaning::Vector(Vector::$op { lanes: Arrangement::$lanes }) };
}

macro_rules! lane {
    ($op:ident, $lane:ident) => { Meaning::Vector(Vector::$op { lane: Lane::$lane }) };
}

// Meanings of accesses, by the letter of what is loaded or stored.
macro_rules! load {
    ($t:tt, $addressing:ident) => { access!(false, false, $t, $addressing) };
}

macro_rules! store {
    ($t:tt, $addressing:ident) => { access!(true, false, $t, $addressing) };
}

macro_rules! load_pair {
    ($t:tt, $addressing:ident) => { access!(false, true, $t, $addressing) };
}

macro_rules! store_pair {
    ($t:tt, $addressing:ident) => { access!(true, true, $t, $addressing) };
}

macro_rules! access {
    ($store:expr, $pair:expr, X, $addressing:ident) => { transfer!($store, $pair, General, Double, $addressing) };
    ($store:expr, $pair:expr, W, $addressing:ident) => { transfer!($store, $pair, General, Word, $addressing) };
    ($store:expr, $pair:expr, Q, $addressing:ident) => { transfer!($store, $pair, Vector, Quad, $addressing) };
    ($store:expr, $pair:expr, D, $addressing:ident) => { transfer!($store, $pair, Vector, Double, $addressing) };
    ($store:expr, $pair:expr, S, $addressing:ident) => { transfer!($store, $pair, Vector, Word, $addressing) };
}

macro_rules! transfer {
    ($store:expr, $pair:expr, $bank:ident, $width:ident, $addressing:ident) => {
        Meaning::Memory(Transfer { store: $store, pair: $pair, bank: Bank::$bank, width: Width::$width, signed: false, addressing: Addressing::$addressing })
    };
}

// A row: whether it reads and sets the flags, its mnemonic filled up with zeros, its two to four
// operands, its class and its meaning. It is printed as itself, and takes any sum of its numbers,
// unless it says otherwise behind these.
macro_rules! form {
    ($reads:expr, $sets:expr, $word:literal => [$a:ident, $b:ident], $($rest:tt)*) => {
        kept_form!($reads, $sets, $word, [$a, $b, NONE, NONE], $($rest)*)
    };
    ($reads:expr, $sets:expr, $word:literal => [$a:ident, $b:ident, $c:ident], $($rest:tt)*) => {
        kept_form!($reads, $sets, $word, [$a, $b, $c, NONE], $($rest)*)
    };
    ($reads:expr, $sets:expr, $word:literal => [$a:ident, $b:ident, $c:ident, $d:ident], $($rest:tt)*) => {
        kept_form!($reads, $sets, $word, [$a, $b, $c, $d], $($rest)*)
    };
}

macro_rules! kept_form {
    ($reads:expr, $sets:expr, $word:expr, $operands:tt, $class:ident, $meaning:expr) => {
        whole_form!($reads, $sets, $word, $operands, $class, $meaning, Alias::Own, Sum::Free)
    };
    ($reads:expr, $sets:expr, $word:expr, $operands:tt, $class:ident, $meaning:expr; zero $form:literal at $place:literal) => {
        whole_form!($reads, $sets, $word, $operands, $class, $meaning, Alias::ZeroAs { form: $form, place: $place }, Sum::Free)
    };
    ($reads:expr, $sets:expr, $word:expr, $operands:tt, $class:ident, $meaning:expr; as $form:literal) => {
        whole_form!($reads, $sets, $word, $operands, $class, $meaning, Alias::As($form), Sum::Free)
    };
    ($reads:expr, $sets:expr, $word:expr, $operands:tt, $class:ident, $meaning:expr; sum $most:literal) => {
        whole_form!($reads, $sets, $word, $operands, $class, $meaning, Alias::Own, Sum::AtMost($most))
    };
}

macro_rules! whole_form {
    ($reads:expr, $sets:expr, $word:expr, [$a:ident, $b:ident, $c:ident, $d:ident], $class:ident, $meaning:expr, $alias:expr, $sum:expr) => {
        Row {
            mnemonic: *$word,
            first: $a,
            second: $b,
            third: $c,
            fourth: $d,
            fifth: NONE,
            reads_flags: $reads,
            sets_flags: $sets,
            sum: $sum,
            class: $class,
            meaning: $meaning,
            alias: $alias,
        }
    };
}

// A form that has nothing to do with the flags, one that sets them, one that
// reads them, and one that does both.
macro_rules! row {
    ($($part:tt)*) => { form!(false, false, $($part)*) };
}

macro_rules! sets {
    ($($part:tt)*) => { form!(false, true, $($part)*) };
}

macro_rules! reads {
    ($($part:tt)*) => { form!(true, false, $($part)*) };
}

macro_rules! carries {
    ($($part:tt)*) => { form!(true, true, $($part)*) };
}

static SCALAR_ROWS: [Row; 132] = [
    // Sums of registers.
    row!(b"add\0\0\0\0\0" => [TO_X, ANY_X, ANY_X], ALU, sum!(ADD, REGISTER, X)),
    row!(b"add\0\0\0\0\0" => [TO_X, ANY_X, ANY_X, LSL_X], ALUS, sum!(ADD, LSL, X); zero 0 at 3),
    row!(b"add\0\0\0\0\0" => [TO_X, ANY_X, ANY_X, LSR_X], ALUS, sum!(ADD, LSR, X)),
    row!(b"add\0\0\0\0\0" => [TO_X, ANY_X, ANY_X, ASR_X], ALUS, sum!(ADD, ASR, X)),
    row!(b"add\0\0\0\0\0" => [TO_W, ANY_W, ANY_W], ALU, sum!(ADD, REGISTER, W)),
    row!(b"add\0\0\0\0\0" => [TO_W, ANY_W, ANY_W, LSL_W], ALUS, sum!(ADD, LSL, W); zero 4 at 3),
    row!(b"add\0\0\0\0\0" => [TO_W, ANY_W, ANY_W, LSR_W], ALUS, sum!(ADD, LSR, W)),
    row!(b"add\0\0\0\0\0" => [TO_W, ANY_W, ANY_W, ASR_W], ALUS, sum!(ADD, ASR, W)),
    row!(b"sub\0\0\0\0\0" => [TO_X, ANY_X, ANY_X], ALU, sum!(SUB, REGISTER, X)),
    row!(b"sub\0\0\0\0\0" => [TO_X, ANY_X, ANY_X, LSL_X], ALUS, sum!(SUB, LSL, X); zero 8 at 3),
    row!(b"sub\0\0\0\0\0" => [TO_X, ANY_X, ANY_X, LSR_X], ALUS, sum!(SUB, LSR, X)),
    row!(b"sub\0\0\0\0\0" => [TO_X, ANY_X, ANY_X, ASR_X], ALUS, sum!(SUB, ASR, X)),
    row!(b"sub\0\0\0\0\0" => [TO_W, ANY_W, ANY_W], ALU, sum!(SUB, REGISTER, W)),
    row!(b"sub\0\0\0\0\0" => [TO_W, ANY_W, ANY_W, LSL_W], ALUS, sum!(SUB, LSL, W); zero 12 at 3),
    row!(b"sub\0\0\0\0\0" => [TO_W, ANY_W, ANY_W, LSR_W], ALUS, sum!(SUB, LSR, W)),
    row!(b"sub\0\0\0\0\0" => [TO_W, ANY_W, ANY_W, ASR_W], ALUS, sum!(SUB, ASR, W)),
    // Sums of a register and a number.
    row!(b"add\0\0\0\0\0" => [TO_X, X, UP_TO_4095], ALU, sum!(ADD, NUMBER, X)),
    row!(b"add\0\0\0\0\0" => [TO_X, X, UP_TO_4095, LSL_12], ALU, sum!(ADD, NUMBER, X)),
    row!(b"add\0\0\0\0\0" => [TO_W, W, UP_TO_4095], ALU, sum!(ADD, NUMBER, W)),
    row!(b"add\0\0\0\0\0" => [TO_W, W, UP_TO_4095, LSL_12], ALU, sum!(ADD, NUMBER, W)),
    row!(b"sub\0\0\0\0\0" => [TO_X, X, UP_TO_4095], ALU, sum!(SUB, NUMBER, X)),
    row!(b"sub\0\0\0\0\0" => [TO_X, X, UP_TO_4095, LSL_12], ALU, sum!(SUB, NUMBER, X)),
    row!(b"sub\0\0\0\0\0" => [TO_W, W, UP_TO_4095], ALU, sum!(SUB, NUMBER, W)),
    row!(b"sub\0\0\0\0\0" => [TO_W, W, UP_TO_4095, LSL_12], ALU, sum!(SUB, NUMBER, W)),
    // The same with the flags.
    sets!(b"adds\0\0\0\0" => [TO_X, ANY_X, ANY_X], ALU, sum!(ADDS, REGISTER, X)),
    sets!(b"adds\0\0\0\0" => [TO_X, ANY_X, ANY_X, LSL_X], ALUS, sum!(ADDS, LSL, X); zero 24 at 3),
    sets!(b"adds\0\0\0\0" => [TO_X, ANY_X, ANY_X, LSR_X], ALUS, sum!(ADDS, LSR, X)),
    sets!(b"adds\0\0\0\0" => [TO_X, ANY_X, ANY_X, ASR_X], ALUS, sum!(ADDS, ASR, X)),
    sets!(b"adds\0\0\0\0" => [TO_W, ANY_W, ANY_W], ALU, sum!(ADDS, REGISTER, W)),
    sets!(b"adds\0\0\0\0" => [TO_W, ANY_W, ANY_W, LSL_W], ALUS, sum!(ADDS, LSL, W); zero 28 at 3),
    sets!(b"adds\0\0\0\0" => [TO_W, ANY_W, ANY_W, LSR_W], ALUS, sum!(ADDS, LSR, W)),
    sets!(b"adds\0\0\0\0" => [TO_W, ANY_W, ANY_W, ASR_W], ALUS, sum!(ADDS, ASR, W)),
    sets!(b"subs\0\0\0\0" => [TO_X, ANY_X, ANY_X], ALU, sum!(SUBS, REGISTER, X)),
    sets!(b"subs\0\0\0\0" => [TO_X, ANY_X, ANY_X, LSL_X], ALUS, sum!(SUBS, LSL, X); zero 32 at 3),
    sets!(b"subs\0\0\0\0" => [TO_X, ANY_X, ANY_X, LSR_X], ALUS, sum!(SUBS, LSR, X)),
    sets!(b"subs\0\0\0\0" => [TO_X, ANY_X, ANY_X, ASR_X], ALUS, sum!(SUBS, ASR, X)),
    sets!(b"subs\0\0\0\0" => [TO_W, ANY_W, ANY_W], ALU, sum!(SUBS, REGISTER, W)),
    sets!(b"subs\0\0\0\0" => [TO_W, ANY_W, ANY_W, LSL_W], ALUS, sum!(SUBS, LSL, W); zero 36 at 3),
    sets!(b"subs\0\0\0\0" => [TO_W, ANY_W, ANY_W, LSR_W], ALUS, sum!(SUBS, LSR, W)),
    sets!(b"subs\0\0\0\0" => [TO_W, ANY_W, ANY_W, ASR_W], ALUS, sum!(SUBS, ASR, W)),
    sets!(b"adds\0\0\0\0" => [TO_X, X, UP_TO_4095], ALU, sum!(ADDS, NUMBER, X)),
    sets!(b"adds\0\0\0\0" => [TO_X, X, UP_TO_4095, LSL_12], ALU, sum!(ADDS, NUMBER, X)),
    sets!(b"adds\0\0\0\0" => [TO_W, W, UP_TO_4095], ALU, sum!(ADDS, NUMBER, W)),
    sets!(b"adds\0\0\0\0" => [TO_W, W, UP_TO_4095, LSL_12], ALU, sum!(ADDS, NUMBER, W)),
    sets!(b"subs\0\0\0\0" => [TO_X, X, UP_TO_4095], ALU, sum!(SUBS, NUMBER, X)),
    sets!(b"subs\0\0\0\0" => [TO_X, X, UP_TO_4095, LSL_12], ALU, sum!(SUBS, NUMBER, X)),
    sets!(b"subs\0\0\0\0" => [TO_W, W, UP_TO_4095], ALU, sum!(SUBS, NUMBER, W)),
    sets!(b"subs\0\0\0\0" => [TO_W, W, UP_TO_4095, LSL_12], ALU, sum!(SUBS, NUMBER, W)),
    // Sums with the carry.
    reads!(b"adc\0\0\0\0\0" => [TO_X, ANY_X, ANY_X], ALU, sum!(ADC, REGISTER, X)),
    reads!(b"adc\0\0\0\0\0" => [TO_W, ANY_W, ANY_W], ALU, sum!(ADC, REGISTER, W)),
    reads!(b"sbc\0\0\0\0\0" => [TO_X, ANY_X, ANY_X], ALU, sum!(SBC, REGISTER, X)),
    reads!(b"sbc\0\0\0\0\0" => [TO_W, ANY_W, ANY_W], ALU, sum!(SBC, REGISTER, W)),
    carries!(b"adcs\0\0\0\0" => [TO_X, ANY_X, ANY_X], ALU, sum!(ADCS, REGISTER, X)),
    carries!(b"adcs\0\0\0\0" => [TO_W, ANY_W, ANY_W], ALU, sum!(ADCS, REGISTER, W)),
    carries!(b"sbcs\0\0\0\0" => [TO_X, ANY_X, ANY_X], ALU, sum!(SBCS, REGISTER, X)),
    carries!(b"sbcs\0\0\0\0" => [TO_W, ANY_W, ANY_W], ALU, sum!(SBCS, REGISTER, W)),
    // Bitwise operations.
    row!(b"and\0\0\0\0\0" => [TO_X, ANY_X, ANY_X], ALU, logic!(And, REGISTER, X)),
    row!(b"and\0\0\0\0\0" => [TO_X, ANY_X, ANY_X, LSL_X], ALUS, logic!(And, LSL, X); zero 56 at 3),
    row!(b"and\0\0\0\0\0" => [TO_X, ANY_X, ANY_X, LSR_X], ALUS, logic!(And, LSR, X)),
    row!(b"and\0\0\0\0\0" => [TO_X, ANY_X, ANY_X, ASR_X], ALUS, logic!(And, ASR, X)),
    row!(b"and\0\0\0\0\0" => [TO_X, ANY_X, ANY_X, ROR_X], ALUS, logic!(And, ROR, X)),
    row!(b"and\0\0\0\0\0" => [TO_W, ANY_W, ANY_W], ALU, logic!(And, REGISTER, W)),
    row!(b"and\0\0\0\0\0" => [TO_W, ANY_W, ANY_W, LSL_W], ALUS, logic!(And, LSL, W); zero 61 at 3),
    row!(b"and\0\0\0\0\0" => [TO_W, ANY_W, ANY_W, LSR_W], ALUS, logic!(And, LSR, W)),
    row!(b"and\0\0\0\0\0" => [TO_W, ANY_W, ANY_W, ASR_W], ALUS, logic!(And, ASR, W)),
    row!(b"and\0\0\0\0\0" => [TO_W, ANY_W, ANY_W, ROR_W], ALUS, logic!(And, ROR, W)),
    row!(b"orr\0\0\0\0\0" => [TO_X, ANY_X, ANY_X], ALU, logic!(Orr, REGISTER, X)),
    row!(b"orr\0\0\0\0\0" => [TO_X, ANY_X, ANY_X, LSL_X], ALUS, logic!(Orr, LSL, X); zero 66 at 3),
    row!(b"orr\0\0\0\0\0" => [TO_X, ANY_X, ANY_X, LSR_X], ALUS, logic!(Orr, LSR, X)),
    row!(b"orr\0\0\0\0\0" => [TO_X, ANY_X, ANY_X, ASR_X], ALUS, logic!(Orr, ASR, X)),
    row!(b"orr\0\0\0\0\0" => [TO_X, ANY_X, ANY_X, ROR_X], ALUS, logic!(Orr, ROR, X)),
    row!(b"orr\0\0\0\0\0" => [TO_W, ANY_W, ANY_W], ALU, logic!(Orr, REGISTER, W)),
    row!(b"orr\0\0\0\0\0" => [TO_W, ANY_W, ANY_W, LSL_W], ALUS, logic!(Orr, LSL, W); zero 71 at 3),
    row!(b"orr\0\0\0\0\0" => [TO_W, ANY_W, ANY_W, LSR_W], ALUS, logic!(Orr, LSR, W)),
    row!(b"orr\0\0\0\0\0" => [TO_W, ANY_W, ANY_W, ASR_W], ALUS, logic!(Orr, ASR, W)),
    row!(b"orr\0\0\0\0\0" => [TO_W, ANY_W, ANY_W, ROR_W], ALUS, logic!(Orr, ROR, W)),
    row!(b"eor\0\0\0\0\0" => [TO_X, ANY_X, ANY_X], ALU, logic!(Eor, REGISTER, X)),
    row!(b"eor\0\0\0\0\0" => [TO_X, ANY_X, ANY_X, LSL_X], ALUS, logic!(Eor, LSL, X); zero 76 at 3),
    row!(b"eor\0\0\0\0\0" => [TO_X, ANY_X, ANY_X, LSR_X], ALUS, logic!(Eor, LSR, X)),
    row!(b"eor\0\0\0\0\0" => [TO_X, ANY_X, ANY_X, ASR_X], ALUS, logic!(Eor, ASR, X)),
    row!(b"eor\0\0\0\0\0" => [TO_X, ANY_X, ANY_X, ROR_X], ALUS, logic!(Eor, ROR, X)),
    row!(b"eor\0\0\0\0\0" => [TO_W, ANY_W, ANY_W], ALU, logic!(Eor, REGISTER, W)),
    row!(b"eor\0\0\0\0\0" => [TO_W, ANY_W, ANY_W, LSL_W], ALUS, logic!(Eor, LSL, W); zero 81 at 3),
    row!(b"eor\0\0\0\0\0" => [TO_W, ANY_W, ANY_W, LSR_W], ALUS, logic!(Eor, LSR, W)),
    row!(b"eor\0\0\0\0\0" => [TO_W, ANY_W, ANY_W, ASR_W], ALUS, logic!(Eor, ASR, W)),
    row!(b"eor\0\0\0\0\0" => [TO_W, ANY_W, ANY_W, ROR_W], ALUS, logic!(Eor, ROR, W)),
    row!(b"bic\0\0\0\0\0" => [TO_X, ANY_X, ANY_X], ALU, logic!(Bic, REGISTER, X)),
    row!(b"bic\0\0\0\0\0" => [TO_X, ANY_X, ANY_X, LSL_X], ALUS, logic!(Bic, LSL, X); zero 86 at 3),
    row!(b"bic\0\0\0\0\0" => [TO_X, ANY_X, ANY_X, LSR_X], ALUS, logic!(Bic, LSR, X)),
    row!(b"bic\0\0\0\0\0" => [TO_X, ANY_X, ANY_X, ASR_X], ALUS, logic!(Bic, ASR, X)),
    row!(b"bic\0\0\0\0\0" => [TO_X, ANY_X, ANY_X, ROR_X], ALUS, logic!(Bic, ROR, X)),
    row!(b"bic\0\0\0\0\0" => [TO_W, ANY_W, ANY_W], ALU, logic!(Bic, REGISTER, W)),
    row!(b"bic\0\0\0\0\0" => [TO_W, ANY_W, ANY_W, LSL_W], ALUS, logic!(Bic, LSL, W); zero 91 at 3),
    row!(b"bic\0\0\0\0\0" => [TO_W, ANY_W, ANY_W, LSR_W], ALUS, logic!(Bic, LSR, W)),
    row!(b"bic\0\0\0\0\0" => [TO_W, ANY_W, ANY_W, ASR_W], ALUS, logic!(Bic, ASR, W)),
    row!(b"bic\0\0\0\0\0" => [TO_W, ANY_W, ANY_W, ROR_W], ALUS, logic!(Bic, ROR, W)),
    // Moves.
    row!(b"mov\0\0\0\0\0" => [TO_X, ANY_X], ALU, scalar!(Copy, X)),
    row!(b"mov\0\0\0\0\0" => [TO_W, ANY_W], ALU, scalar!(Copy, W)),
    row!(b"movz\0\0\0\0" => [TO_X, UP_TO_65535], ALU, scalar!(Wide, X)),
    row!(b"movz\0\0\0\0" => [TO_X, UP_TO_65535, LSL_BY_16_X], ALU, scalar!(Wide, X); zero 98 at 2),
    row!(b"movz\0\0\0\0" => [TO_W, UP_TO_65535], ALU, scalar!(Wide, W)),
    row!(b"movz\0\0\0\0" => [TO_W, UP_TO_65535, LSL_BY_16_W], ALU, scalar!(Wide, W); zero 100 at 2),
    row!(b"mov\0\0\0\0\0" => [TO_X, UP_TO_65535], ALU, scalar!(Wide, X); as 98),
    row!(b"mov\0\0\0\0\0" => [TO_W, UP_TO_65535], ALU, scalar!(Wide, W); as 100),
    row!(b"movk\0\0\0\0" => [TIED_X, UP_TO_65535], ALU, scalar!(Part, X)),
    row!(b"movk\0\0\0\0" => [TIED_X, UP_TO_65535, LSL_BY_16_X], ALU, scalar!(Part, X); zero 104 at 2),
    row!(b"movk\0\0\0\0" => [TIED_W, UP_TO_65535], ALU, scalar!(Part, W)),
    row!(b"movk\0\0\0\0" => [TIED_W, UP_TO_65535, LSL_BY_16_W], ALU, scalar!(Part, W); zero 106 at 2),
    // Products.
    row!(b"mul\0\0\0\0\0" => [TO_X, ANY_X, ANY_X], MUL, product!(Alone, X)),
    row!(b"mul\0\0\0\0\0" => [TO_W, ANY_W, ANY_W], MUL, product!(Alone, W)),
    row!(b"madd\0\0\0\0" => [TO_X, ANY_X, ANY_X, ANY_X], MUL, product!(Added, X)),
    row!(b"madd\0\0\0\0" => [TO_W, ANY_W, ANY_W, ANY_W], MUL, product!(Added, W)),
    row!(b"msub\0\0\0\0" => [TO_X, ANY_X, ANY_X, ANY_X], MUL, product!(Subtracted, X)),
    row!(b"msub\0\0\0\0" => [TO_W, ANY_W, ANY_W, ANY_W], MUL, product!(Subtracted, W)),
    row!(b"umulh\0\0\0" => [TO_X, ANY_X, ANY_X], MUL, high!(false)),
    row!(b"smulh\0\0\0" => [TO_X, ANY_X, ANY_X], MUL, high!(true)),
    row!(b"umull\0\0\0" => [TO_X, ANY_W, ANY_W], MUL, wide!(false)),
    row!(b"smull\0\0\0" => [TO_X, ANY_W, ANY_W], MUL, wide!(true)),
    // Shifts, bit fields and the choice of an operand.
    row!(b"extr\0\0\0\0" => [TO_X, ANY_X, ANY_X, BELOW_64], ALUS, scalar!(Extract, X)),
    row!(b"extr\0\0\0\0" => [TO_W, ANY_W, ANY_W, BELOW_32], ALUS, scalar!(Extract, W)),
    row!(b"lsl\0\0\0\0\0" => [TO_X, ANY_X, BELOW_64], ALUS, shifted!(Lsl, X)),
    row!(b"lsl\0\0\0\0\0" => [TO_W, ANY_W, BELOW_32], ALUS, shifted!(Lsl, W)),
    row!(b"lsr\0\0\0\0\0" => [TO_X, ANY_X, BELOW_64], ALUS, shifted!(Lsr, X)),
    row!(b"lsr\0\0\0\0\0" => [TO_W, ANY_W, BELOW_32], ALUS, shifted!(Lsr, W)),
    row!(b"asr\0\0\0\0\0" => [TO_X, ANY_X, BELOW_64], ALUS, shifted!(Asr, X)),
    row!(b"asr\0\0\0\0\0" => [TO_W, ANY_W, BELOW_32], ALUS, shifted!(Asr, W)),
    row!(b"ror\0\0\0\0\0" => [TO_X, ANY_X, BELOW_64], ALUS, shifted!(Ror, X)),
    row!(b"ror\0\0\0\0\0" => [TO_W, ANY_W, BELOW_32], ALUS, shifted!(Ror, W)),
    row!(b"ubfx\0\0\0\0" => [TO_X, X, BELOW_64, FROM_1_TO_64], ALUS, scalar!(Field, X); sum 64),
    row!(b"ubfx\0\0\0\0" => [TO_W, W, BELOW_32, FROM_1_TO_32], ALUS, scalar!(Field, W); sum 32),
    reads!(b"csel\0\0\0\0" => [TO_X, ANY_X, ANY_X, CONDITION], ALU, scalar!(Select, X)),
    reads!(b"csel\0\0\0\0" => [TO_W, ANY_W, ANY_W, CONDITION], ALU, scalar!(Select, W)),
];

static SUM_ROWS: [Row; 94] = [
    // Vectors, lane by lane.
    row!(b"add\0\0\0\0\0" => [TO_8B, V_8B, V_8B], VALU, lanewise!(Add, Bytes8)),
    row!(b"add\0\0\0\0\0" => [TO_16B, V_16B, V_16B], VALU, lanewise!(Add, Bytes16)),
    row!(b"add\0\0\0\0\0" => [TO_4H, V_4H, V_4H], VALU, lanewise!(Add, Halves4)),
    row!(b"add\0\0\0\0\0" => [TO_8H, V_8H, V_8H], VALU, lanewise!(Add, Halves8)),
    row!(b"add\0\0\0\0\0" => [TO_2S, V_2S, V_2S], VALU, lanewise!(Add, Words2)),
    row!(b"add\0\0\0\0\0" => [TO_4S, V_4S, V_4S], VALU, lanewise!(Add, Words4)),
    row!(b"add\0\0\0\0\0" => [TO_2D, V_2D, V_2D], VALU, lanewise!(Add, Doubles2)),
    row!(b"sub\0\0\0\0\0" => [TO_8B, V_8B, V_8B], VALU, lanewise!(Sub, Bytes8)),
    row!(b"sub\0\0\0\0\0" => [TO_16B, V_16B, V_16B], VALU, lanewise!(Sub, Bytes16)),
    row!(b"sub\0\0\0\0\0" => [TO_4H, V_4H, V_4H], VALU, lanewise!(Sub, Halves4)),
    row!(b"sub\0\0\0\0\0" => [TO_8H, V_8H, V_8H], VALU, lanewise!(Sub, Halves8)),
    row!(b"sub\0\0\0\0\0" => [TO_2S, V_2S, V_2S], VALU, lanewise!(Sub, Words2)),
    row!(b"sub\0\0\0\0\0" => [TO_4S, V_4S, V_4S], VALU, lanewise!(Sub, Words4)),
    row!(b"sub\0\0\0\0\0" => [TO_2D, V_2D, V_2D], VALU, lanewise!(Sub, Doubles2)),
    row!(b"and\0\0\0\0\0" => [TO_8B, V_8B, V_8B], VALU, lanewise!(And, Bytes8)),
    row!(b"and\0\0\0\0\0" => [TO_16B, V_16B, V_16B], VALU, lanewise!(And, Bytes16)),
    row!(b"orr\0\0\0\0\0" => [TO_8B, V_8B, V_8B], VALU, lanewise!(Orr, Bytes8)),
    row!(b"orr\0\0\0\0\0" => [TO_16B, V_16B, V_16B], VALU, lanewise!(Orr, Bytes16)),
    row!(b"eor\0\0\0\0\0" => [TO_8B, V_8B, V_8B], VALU, lanewise!(Eor, Bytes8)),
    row!(b"eor\0\0\0\0\0" => [TO_16B, V_16B, V_16B], VALU, lanewise!(Eor, Bytes16)),
    row!(b"bic\0\0\0\0\0" => [TO_8B, V_8B, V_8B], VALU, lanewise!(Bic, Bytes8)),
    row!(b"bic\0\0\0\0\0" => [TO_16B, V_16B, V_16B], VALU, lanewise!(Bic, Bytes16)),
    row!(b"mov\0\0\0\0\0" => [TO_8B, V_8B], VALU, vector!(Copy, Bytes8)),
    row!(b"mov\0\0\0\0\0" => [TO_16B, V_16B], VALU, vector!(Copy, Bytes16)),
    row!(b"mul\0\0\0\0\0" => [TO_8B, V_8B, V_8B], VMUL, lanewise!(Mul, Bytes8)),
    row!(b"mul\0\0\0\0\0" => [TO_16B, V_16B, V_16B], VMUL, lanewise!(Mul, Bytes16)),
    row!(b"mul\0\0\0\0\0" => [TO_4H, V_4H, V_4H], VMUL, lanewise!(Mul, Halves4)),
    row!(b"mul\0\0\0\0\0" => [TO_8H, V_8H, V_8H], VMUL, lanewise!(Mul, Halves8)),
    row!(b"mul\0\0\0\0\0" => [TO_2S, V_2S, V_2S], VMUL, lanewise!(Mul, Words2)),
    row!(b"mul\0\0\0\0\0" => [TO_4S, V_4S, V_4S], VMUL, lanewise!(Mul, Words4)),
    row!(b"mla\0\0\0\0\0" => [TIED_8B, V_8B, V_8B], VMUL, lanewise!(Mla, Bytes8)),
    row!(b"mla\0\0\0\0\0" => [TIED_16B, V_16B, V_16B], VMUL, lanewise!(Mla, Bytes16)),
    row!(b"mla\0\0\0\0\0" => [TIED_4H, V_4H, V_4H], VMUL, lanewise!(Mla, Halves4)),
    row!(b"mla\0\0\0\0\0" => [TIED_8H, V_8H, V_8H], VMUL, lanewise!(Mla, Halves8)),
    row!(b"mla\0\0\0\0\0" => [TIED_2S, V_2S, V_2S], VMUL, lanewise!(Mla, Words2)),
    row!(b"mla\0\0\0\0\0" => [TIED_4S, V_4S, V_4S], VMUL, lanewise!(Mla, Words4)),
    row!(b"mls\0\0\0\0\0" => [TIED_8B, V_8B, V_8B], VMUL, lanewise!(Mls, Bytes8)),
    row!(b"mls\0\0\0\0\0" => [TIED_16B, V_16B, V_16B], VMUL, lanewise!(Mls, Bytes16)),
    row!(b"mls\0\0\0\0\0" => [TIED_4H, V_4H, V_4H], VMUL, lanewise!(Mls, Halves4)),
    row!(b"mls\0\0\0\0\0" => [TIED_8H, V_8H, V_8H], VMUL, lanewise!(Mls, Halves8)),
    row!(b"mls\0\0\0\0\0" => [TIED_2S, V_2S, V_2S], VMUL, lanewise!(Mls, Words2)),
    row!(b"mls\0\0\0\0\0" => [TIED_4S, V_4S, V_4S], VMUL, lanewise!(Mls, Words4)),
    row!(b"sqdmulh\0" => [TO_4H, V_4H, V_4H], VMUL, lanewise!(Sqdmulh, Halves4)),
    row!(b"sqdmulh\0" => [TO_8H, V_8H, V_8H], VMUL, lanewise!(Sqdmulh, Halves8)),
    row!(b"sqdmulh\0" => [TO_2S, V_2S, V_2S], VMUL, lanewise!(Sqdmulh, Words2)),
    row!(b"sqdmulh\0" => [TO_4S, V_4S, V_4S], VMUL, lanewise!(Sqdmulh, Words4)),
    row!(b"sqrdmulh" => [TO_4H, V_4H, V_4H], VMUL, lanewise!(Sqrdmulh, Halves4)),
    row!(b"sqrdmulh" => [TO_8H, V_8H, V_8H], VMUL, lanewise!(Sqrdmulh, Halves8)),
    row!(b"sqrdmulh" => [TO_2S, V_2S, V_2S], VMUL, lanewise!(Sqrdmulh, Words2)),
    row!(b"sqrdmulh" => [TO_4S, V_4S, V_4S], VMUL, lanewise!(Sqrdmulh, Words4)),
    // Products with one element.
    row!(b"mul\0\0\0\0\0" => [TO_4H, V_4H, H_ELEMENT], VMUL, by_element!(Mul, Halves4)),
    row!(b"mul\0\0\0\0\0" => [TO_8H, V_8H, H_ELEMENT], VMUL, by_element!(Mul, Halves8)),
    row!(b"mul\0\0\0\0\0" => [TO_2S, V_2S, S_ELEMENT], VMUL, by_element!(Mul, Words2)),
    row!(b"mul\0\0\0\0\0" => [TO_4S, V_4S, S_ELEMENT], VMUL, by_element!(Mul, Words4)),
    row!(b"sqdmulh\0" => [TO_4H, V_4H, H_ELEMENT], VMUL, by_element!(Sqdmulh, Halves4)),
    row!(b"sqdmulh\0" => [TO_8H, V_8H, H_ELEMENT], VMUL, by_element!(Sqdmulh, Halves8)),
    row!(b"sqdmulh\0" => [TO_2S, V_2S, S_ELEMENT], VMUL, by_element!(Sqdmulh, Words2)),
    row!(b"sqdmulh\0" => [TO_4S, V_4S, S_ELEMENT], VMUL, by_element!(Sqdmulh, Words4)),
    row!(b"sqrdmulh" => [TO_4H, V_4H, H_ELEMENT], VMUL, by_element!(Sqrdmulh, Halves4)),
    row!(b"sqrdmulh" => [TO_8H, V_8H, H_ELEMENT], VMUL, by_element!(Sqrdmulh, Halves8)),
    row!(b"sqrdmulh" => [TO_2S, V_2S, S_ELEMENT], VMUL, by_element!(Sqrdmulh, Words2)),
    row!(b"sqrdmulh" => [TO_4S, V_4S, S_ELEMENT], VMUL, by_element!(Sqrdmulh, Words4)),
    row!(b"mla\0\0\0\0\0" => [TIED_4H, V_4H, H_ELEMENT], VMUL, by_element!(Mla, Halves4)),
    row!(b"mla\0\0\0\0\0" => [TIED_8H, V_8H, H_ELEMENT], VMUL, by_element!(Mla, Halves8)),
    row!(b"mla\0\0\0\0\0" => [TIED_2S, V_2S, S_ELEMENT], VMUL, by_element!(Mla, Words2)),
    row!(b"mla\0\0\0\0\0" => [TIED_4S, V_4S, S_ELEMENT], VMUL, by_element!(Mla, Words4)),
    row!(b"mls\0\0\0\0\0" => [TIED_4H, V_4H, H_ELEMENT], VMUL, by_element!(Mls, Halves4)),
    row!(b"mls\0\0\0\0\0" => [TIED_8H, V_8H, H_ELEMENT], VMUL, by_element!(Mls, Halves8)),
    row!(b"mls\0\0\0\0\0" => [TIED_2S, V_2S, S_ELEMENT], VMUL, by_element!(Mls, Words2)),
    row!(b"mls\0\0\0\0\0" => [TIED_4S, V_4S, S_ELEMENT], VMUL, by_element!(Mls, Words4)),
    // Products of twice as many bits.
    row!(b"smull\0\0\0" => [TO_8H, V_8B, V_8B], VMUL, long!(true, false, false, Halves8)),
    row!(b"smull\0\0\0" => [TO_4S, V_4H, V_4H], VMUL, long!(true, false, false, Words4)),
    row!(b"smull\0\0\0" => [TO_2D, V_2S, V_2S], VMUL, long!(true, false, false, Doubles2)),
    row!(b"umull\0\0\0" => [TO_8H, V_8B, V_8B], VMUL, long!(false, false, false, Halves8)),
    row!(b"umull\0\0\0" => [TO_4S, V_4H, V_4H], VMUL, long!(false, false, false, Words4)),
    row!(b"umull\0\0\0" => [TO_2D, V_2S, V_2S], VMUL, long!(false, false, false, Doubles2)),
    row!(b"smlal\0\0\0" => [TIED_8H, V_8B, V_8B], VMUL, long!(true, true, false, Halves8)),
    row!(b"smlal\0\0\0" => [TIED_4S, V_4H, V_4H], VMUL, long!(true, true, false, Words4)),
    row!(b"smlal\0\0\0" => [TIED_2D, V_2S, V_2S], VMUL, long!(true, true, false, Doubles2)),
    row!(b"umlal\0\0\0" => [TIED_8H, V_8B, V_8B], VMUL, long!(false, true, false, Halves8)),
    row!(b"umlal\0\0\0" => [TIED_4S, V_4H, V_4H], VMUL, long!(false, true, false, Words4)),
    row!(b"umlal\0\0\0" => [TIED_2D, V_2S, V_2S], VMUL, long!(false, true, false, Doubles2)),
    row!(b"smull2\0\0" => [TO_8H, V_16B, V_16B], VMUL, long!(true, false, true, Halves8)),
    row!(b"smull2\0\0" => [TO_4S, V_8H, V_8H], VMUL, long!(true, false, true, Words4)),
    row!(b"smull2\0\0" => [TO_2D, V_4S, V_4S], VMUL, long!(true, false, true, Doubles2)),
    row!(b"umull2\0\0" => [TO_8H, V_16B, V_16B], VMUL, long!(false, false, true, Halves8)),
    row!(b"umull2\0\0" => [TO_4S, V_8H, V_8H], VMUL, long!(false, false, true, Words4)),
    row!(b"umull2\0\0" => [TO_2D, V_4S, V_4S], VMUL, long!(false, false, true, Doubles2)),
    row!(b"smlal2\0\0" => [TIED_8H, V_16B, V_16B], VMUL, long!(true, true, true, Halves8)),
    row!(b"smlal2\0\0" => [TIED_4S, V_8H, V_8H], VMUL, long!(true, true, true, Words4)),
    row!(b"smlal2\0\0" => [TIED_2D, V_4S, V_4S], VMUL, long!(true, true, true, Doubles2)),
    row!(b"umlal2\0\0" => [TIED_8H, V_16B, V_16B], VMUL, long!(false, true, true, Halves8)),
    row!(b"umlal2\0\0" => [TIED_4S, V_8H, V_8H], VMUL, long!(false, true, true, Words4)),
    row!(b"umlal2\0\0" => [TIED_2D, V_4S, V_4S], VMUL, long!(false, true, true, Doubles2)),
];

static LANE_ROWS: [Row; 115] = [
    // Shifts of lanes.
    row!(b"shl\0\0\0\0\0" => [TO_8B, V_8B, BELOW_8], VSHIFT, shift!(Shl, Bytes8)),
    row!(b"shl\0\0\0\0\0" => [TO_16B, V_16B, BELOW_8], VSHIFT, shift!(Shl, Bytes16)),
    row!(b"shl\0\0\0\0\0" => [TO_4H, V_4H, BELOW_16], VSHIFT, shift!(Shl, Halves4)),
    row!(b"shl\0\0\0\0\0" => [TO_8H, V_8H, BELOW_16], VSHIFT, shift!(Shl, Halves8)),
    row!(b"shl\0\0\0\0\0" => [TO_2S, V_2S, BELOW_32], VSHIFT, shift!(Shl, Words2)),
    row!(b"shl\0\0\0\0\0" => [TO_4S, V_4S, BELOW_32], VSHIFT, shift!(Shl, Words4)),
    row!(b"shl\0\0\0\0\0" => [TO_2D, V_2D, BELOW_64], VSHIFT, shift!(Shl, Doubles2)),
    row!(b"sli\0\0\0\0\0" => [TIED_8B, V_8B, BELOW_8], VSHIFT, shift!(Sli, Bytes8)),
    row!(b"sli\0\0\0\0\0" => [TIED_16B, V_16B, BELOW_8], VSHIFT, shift!(Sli, Bytes16)),
    row!(b"sli\0\0\0\0\0" => [TIED_4H, V_4H, BELOW_16], VSHIFT, shift!(Sli, Halves4)),
    row!(b"sli\0\0\0\0\0" => [TIED_8H, V_8H, BELOW_16], VSHIFT, shift!(Sli, Halves8)),
    row!(b"sli\0\0\0\0\0" => [TIED_2S, V_2S, BELOW_32], VSHIFT, shift!(Sli, Words2)),
    row!(b"sli\0\0\0\0\0" => [TIED_4S, V_4S, BELOW_32], VSHIFT, shift!(Sli, Words4)),
    row!(b"sli\0\0\0\0\0" => [TIED_2D, V_2D, BELOW_64], VSHIFT, shift!(Sli, Doubles2)),
    row!(b"sshr\0\0\0\0" => [TO_8B, V_8B, FROM_1_TO_8], VSHIFT, shift!(Sshr, Bytes8)),
    row!(b"sshr\0\0\0\0" => [TO_16B, V_16B, FROM_1_TO_8], VSHIFT, shift!(Sshr, Bytes16)),
    row!(b"sshr\0\0\0\0" => [TO_4H, V_4H, FROM_1_TO_16], VSHIFT, shift!(Sshr, Halves4)),
    row!(b"sshr\0\0\0\0" => [TO_8H, V_8H, FROM_1_TO_16], VSHIFT, shift!(Sshr, Halves8)),
    row!(b"sshr\0\0\0\0" => [TO_2S, V_2S, FROM_1_TO_32], VSHIFT, shift!(Sshr, Words2)),
    row!(b"sshr\0\0\0\0" => [TO_4S, V_4S, FROM_1_TO_32], VSHIFT, shift!(Sshr, Words4)),
    row!(b"sshr\0\0\0\0" => [TO_2D, V_2D, FROM_1_TO_64], VSHIFT, shift!(Sshr, Doubles2)),
    row!(b"ushr\0\0\0\0" => [TO_8B, V_8B, FROM_1_TO_8], VSHIFT, shift!(Ushr, Bytes8)),
    row!(b"ushr\0\0\0\0" => [TO_16B, V_16B, FROM_1_TO_8], VSHIFT, shift!(Ushr, Bytes16)),
    row!(b"ushr\0\0\0\0" => [TO_4H, V_4H, FROM_1_TO_16], VSHIFT, shift!(Ushr, Halves4)),
    row!(b"ushr\0\0\0\0" => [TO_8H, V_8H, FROM_1_TO_16], VSHIFT, shift!(Ushr, Halves8)),
    row!(b"ushr\0\0\0\0" => [TO_2S, V_2S, FROM_1_TO_32], VSHIFT, shift!(Ushr, Words2)),
    row!(b"ushr\0\0\0\0" => [TO_4S, V_4S, FROM_1_TO_32], VSHIFT, shift!(Ushr, Words4)),
    row!(b"ushr\0\0\0\0" => [TO_2D, V_2D, FROM_1_TO_64], VSHIFT, shift!(Ushr, Doubles2)),
    row!(b"srshr\0\0\0" => [TO_8B, V_8B, FROM_1_TO_8], VSHIFT, shift!(Srshr, Bytes8)),
    row!(b"srshr\0\0\0" => [TO_16B, V_16B, FROM_1_TO_8], VSHIFT, shift!(Srshr, Bytes16)),
    row!(b"srshr\0\0\0" => [TO_4H, V_4H, FROM_1_TO_16], VSHIFT, shift!(Srshr, Halves4)),
    row!(b"srshr\0\0\0" => [TO_8H, V_8H, FROM_1_TO_16], VSHIFT, shift!(Srshr, Halves8)),
    row!(b"srshr\0\0\0" => [TO_2S, V_2S, FROM_1_TO_32], VSHIFT, shift!(Srshr, Words2)),
    row!(b"srshr\0\0\0" => [TO_4S, V_4S, FROM_1_TO_32], VSHIFT, shift!(Srshr, Words4)),
    row!(b"srshr\0\0\0" => [TO_2D, V_2D, FROM_1_TO_64], VSHIFT, shift!(Srshr, Doubles2)),
    row!(b"sri\0\0\0\0\0" => [TIED_8B, V_8B, FROM_1_TO_8], VSHIFT, shift!(Sri, Bytes8)),
    row!(b"sri\0\0\0\0\0" => [TIED_16B, V_16B, FROM_1_TO_8], VSHIFT, shift!(Sri, Bytes16)),
    row!(b"sri\0\0\0\0\0" => [TIED_4H, V_4H, FROM_1_TO_16], VSHIFT, shift!(Sri, Halves4)),
    row!(b"sri\0\0\0\0\0" => [TIED_8H, V_8H, FROM_1_TO_16], VSHIFT, shift!(Sri, Halves8)),
    row!(b"sri\0\0\0\0\0" => [TIED_2S, V_2S, FROM_1_TO_32], VSHIFT, shift!(Sri, Words2)),
    row!(b"sri\0\0\0\0\0" => [TIED_4S, V_4S, FROM_1_TO_32], VSHIFT, shift!(Sri, Words4)),
    row!(b"sri\0\0\0\0\0" => [TIED_2D, V_2D, FROM_1_TO_64], VSHIFT, shift!(Sri, Doubles2)),
    row!(b"xtn\0\0\0\0\0" => [TO_8B, V_8H], VSHIFT, vector!(Narrow, Bytes8)),
    row!(b"xtn\0\0\0\0\0" => [TO_4H, V_4S], VSHIFT, vector!(Narrow, Halves4)),
    row!(b"xtn\0\0\0\0\0" => [TO_2S, V_2D], VSHIFT, vector!(Narrow, Words2)),
    // Lanes in another order.
    row!(b"trn1\0\0\0\0" => [TO_8B, V_8B, V_8B], VPERM, permute!(Trn1, Bytes8)),
    row!(b"trn1\0\0\0\0" => [TO_16B, V_16B, V_16B], VPERM, permute!(Trn1, Bytes16)),
    row!(b"trn1\0\0\0\0" => [TO_4H, V_4H, V_4H], VPERM, permute!(Trn1, Halves4)),
    row!(b"trn1\0\0\0\0" => [TO_8H, V_8H, V_8H], VPERM, permute!(Trn1, Halves8)),
    row!(b"trn1\0\0\0\0" => [TO_2S, V_2S, V_2S], VPERM, permute!(Trn1, Words2)),
    row!(b"trn1\0\0\0\0" => [TO_4S, V_4S, V_4S], VPERM, permute!(Trn1, Words4)),
    row!(b"trn1\0\0\0\0" => [TO_2D, V_2D, V_2D], VPERM, permute!(Trn1, Doubles2)),
    row!(b"trn2\0\0\0\0" => [TO_8B, V_8B, V_8B], VPERM, permute!(Trn2, Bytes8)),
    row!(b"trn2\0\0\0\0" => [TO_16B, V_16B, V_16B], VPERM, permute!(Trn2, Bytes16)),
    row!(b"trn2\0\0\0\0" => [TO_4H, V_4H, V_4H], VPERM, permute!(Trn2, Halves4)),
    row!(b"trn2\0\0\0\0" => [TO_8H, V_8H, V_8H], VPERM, permute!(Trn2, Halves8)),
    row!(b"trn2\0\0\0\0" => [TO_2S, V_2S, V_2S], VPERM, permute!(Trn2, Words2)),
    row!(b"trn2\0\0\0\0" => [TO_4S, V_4S, V_4S], VPERM, permute!(Trn2, Words4)),
    row!(b"trn2\0\0\0\0" => [TO_2D, V_2D, V_2D], VPERM, permute!(Trn2, Doubles2)),
    row!(b"zip1\0\0\0\0" => [TO_8B, V_8B, V_8B], VPERM, permute!(Zip1, Bytes8)),
    row!(b"zip1\0\0\0\0" => [TO_16B, V_16B, V_16B], VPERM, permute!(Zip1, Bytes16)),
    row!(b"zip1\0\0\0\0" => [TO_4H, V_4H, V_4H], VPERM, permute!(Zip1, Halves4)),
    row!(b"zip1\0\0\0\0" => [TO_8H, V_8H, V_8H], VPERM, permute!(Zip1, Halves8)),
    row!(b"zip1\0\0\0\0" => [TO_2S, V_2S, V_2S], VPERM, permute!(Zip1, Words2)),
    row!(b"zip1\0\0\0\0" => [TO_4S, V_4S, V_4S], VPERM, permute!(Zip1, Words4)),
    row!(b"zip1\0\0\0\0" => [TO_2D, V_2D, V_2D], VPERM, permute!(Zip1, Doubles2)),
    row!(b"zip2\0\0\0\0" => [TO_8B, V_8B, V_8B], VPERM, permute!(Zip2, Bytes8)),
    row!(b"zip2\0\0\0\0" => [TO_16B, V_16B, V_16B], VPERM, permute!(Zip2, Bytes16)),
    row!(b"zip2\0\0\0\0" => [TO_4H, V_4H, V_4H], VPERM, permute!(Zip2, Halves4)),
    row!(b"zip2\0\0\0\0" => [TO_8H, V_8H, V_8H], VPERM, permute!(Zip2, Halves8)),
    row!(b"zip2\0\0\0\0" => [TO_2S, V_2S, V_2S], VPERM, permute!(Zip2, Words2)),
    row!(b"zip2\0\0\0\0" => [TO_4S, V_4S, V_4S], VPERM, permute!(Zip2, Words4)),
    row!(b"zip2\0\0\0\0" => [TO_2D, V_2D, V_2D], VPERM, permute!(Zip2, Doubles2)),
    row!(b"uzp1\0\0\0\0" => [TO_8B, V_8B, V_8B], VPERM, permute!(Uzp1, Bytes8)),
    row!(b"uzp1\0\0\0\0" => [TO_16B, V_16B, V_16B], VPERM, permute!(Uzp1, Bytes16)),
    row!(b"uzp1\0\0\0\0" => [TO_4H, V_4H, V_4H], VPERM, permute!(Uzp1, Halves4)),
    row!(b"uzp1\0\0\0\0" => [TO_8H, V_8H, V_8H], VPERM, permute!(Uzp1, Halves8)),
    row!(b"uzp1\0\0\0\0" => [TO_2S, V_2S, V_2S], VPERM, permute!(Uzp1, Words2)),
    row!(b"uzp1\0\0\0\0" => [TO_4S, V_4S, V_4S], VPERM, permute!(Uzp1, Words4)),
    row!(b"uzp1\0\0\0\0" => [TO_2D, V_2D, V_2D], VPERM, permute!(Uzp1, Doubles2)),
    row!(b"uzp2\0\0\0\0" => [TO_8B, V_8B, V_8B], VPERM, permute!(Uzp2, Bytes8)),
    row!(b"uzp2\0\0\0\0" => [TO_16B, V_16B, V_16B], VPERM, permute!(Uzp2, Bytes16)),
    row!(b"uzp2\0\0\0\0" => [TO_4H, V_4H, V_4H], VPERM, permute!(Uzp2, Halves4)),
    row!(b"uzp2\0\0\0\0" => [TO_8H, V_8H, V_8H], VPERM, permute!(Uzp2, Halves8)),
    row!(b"uzp2\0\0\0\0" => [TO_2S, V_2S, V_2S], VPERM, permute!(Uzp2, Words2)),
    row!(b"uzp2\0\0\0\0" => [TO_4S, V_4S, V_4S], VPERM, permute!(Uzp2, Words4)),
    row!(b"uzp2\0\0\0\0" => [TO_2D, V_2D, V_2D], VPERM, permute!(Uzp2, Doubles2)),
    row!(b"ext\0\0\0\0\0" => [TO_8B, V_8B, V_8B, BELOW_8], VPERM, vector!(Extract, Bytes8)),
    row!(b"ext\0\0\0\0\0" => [TO_16B, V_16B, V_16B, BELOW_16], VPERM, vector!(Extract, Bytes16)),
    // Lanes to and from registers.
    row!(b"dup\0\0\0\0\0" => [TO_8B, B_LANE], VPERM, vector!(DupLane, Bytes8)),
    row!(b"dup\0\0\0\0\0" => [TO_16B, B_LANE], VPERM, vector!(DupLane, Bytes16)),
    row!(b"dup\0\0\0\0\0" => [TO_4H, H_LANE], VPERM, vector!(DupLane, Halves4)),
    row!(b"dup\0\0\0\0\0" => [TO_8H, H_LANE], VPERM, vector!(DupLane, Halves8)),
    row!(b"dup\0\0\0\0\0" => [TO_2S, S_LANE], VPERM, vector!(DupLane, Words2)),
    row!(b"dup\0\0\0\0\0" => [TO_4S, S_LANE], VPERM, vector!(DupLane, Words4)),
    row!(b"dup\0\0\0\0\0" => [TO_2D, D_LANE], VPERM, vector!(DupLane, Doubles2)),
    row!(b"dup\0\0\0\0\0" => [TO_8B, W], VXFER, vector!(DupGeneral, Bytes8)),
    row!(b"dup\0\0\0\0\0" => [TO_16B, W], VXFER, vector!(DupGeneral, Bytes16)),
    row!(b"dup\0\0\0\0\0" => [TO_4H, W], VXFER, vector!(DupGeneral, Halves4)),
    row!(b"dup\0\0\0\0\0" => [TO_8H, W], VXFER, vector!(DupGeneral, Halves8)),
    row!(b"dup\0\0\0\0\0" => [TO_2S, W], VXFER, vector!(DupGeneral, Words2)),
    row!(b"dup\0\0\0\0\0" => [TO_4S, W], VXFER, vector!(DupGeneral, Words4)),
    row!(b"dup\0\0\0\0\0" => [TO_2D, X], VXFER, vector!(DupGeneral, Doubles2)),
    row!(b"ins\0\0\0\0\0" => [TIED_B_LANE, W], VXFER, lane!(InsertGeneral, Byte)),
    row!(b"ins\0\0\0\0\0" => [TIED_H_LANE, W], VXFER, lane!(InsertGeneral, Half)),
    row!(b"ins\0\0\0\0\0" => [TIED_S_LANE, W], VXFER, lane!(InsertGeneral, Word)),
    row!(b"ins\0\0\0\0\0" => [TIED_D_LANE, X], VXFER, lane!(InsertGeneral, Double)),
    row!(b"ins\0\0\0\0\0" => [TIED_B_LANE, B_LANE], VPERM, lane!(InsertLane, Byte)),
    row!(b"ins\0\0\0\0\0" => [TIED_H_LANE, H_LANE], VPERM, lane!(InsertLane, Half)),
    row!(b"ins\0\0\0\0\0" => [TIED_S_LANE, S_LANE], VPERM, lane!(InsertLane, Word)),
    row!(b"ins\0\0\0\0\0" => [TIED_D_LANE, D_LANE], VPERM, lane!(InsertLane, Double)),
    row!(b"umov\0\0\0\0" => [TO_W, B_LANE], VXFER, lane!(MoveOut, Byte)),
    row!(b"umov\0\0\0\0" => [TO_W, H_LANE], VXFER, lane!(MoveOut, Half)),
    row!(b"umov\0\0\0\0" => [TO_W, S_LANE], VXFER, lane!(MoveOut, Word)),
    row!(b"umov\0\0\0\0" => [TO_X, D_LANE], VXFER, lane!(MoveOut, Double)),
];

static MEMORY_ROWS: [Row; 84] = [
    // Registers loaded.
    row!(b"ldr\0\0\0\0\0" => [TO_X, BASE], LOAD, load!(X, Kept)),
    row!(b"ldr\0\0\0\0\0" => [TO_X, FORWARD_8], LOAD, load!(X, Kept); zero 341 at 1),
    row!(b"ldr\0\0\0\0\0" => [TO_X, BACK, BY], LOAD, load!(X, After)),
    row!(b"ldr\0\0\0\0\0" => [TO_X, BEFORE], LOAD, load!(X, Before)),
    row!(b"ldr\0\0\0\0\0" => [TO_W, BASE], LOAD, load!(W, Kept)),
    row!(b"ldr\0\0\0\0\0" => [TO_W, FORWARD_4], LOAD, load!(W, Kept); zero 345 at 1),
    row!(b"ldr\0\0\0\0\0" => [TO_W, BACK, BY], LOAD, load!(W, After)),
    row!(b"ldr\0\0\0\0\0" => [TO_W, BEFORE], LOAD, load!(W, Before)),
    row!(b"ldr\0\0\0\0\0" => [TO_Q, BASE], LOAD, load!(Q, Kept)),
    row!(b"ldr\0\0\0\0\0" => [TO_Q, FORWARD_16], LOAD, load!(Q, Kept); zero 349 at 1),
    row!(b"ldr\0\0\0\0\0" => [TO_Q, BACK, BY], LOAD, load!(Q, After)),
    row!(b"ldr\0\0\0\0\0" => [TO_Q, BEFORE], LOAD, load!(Q, Before)),
    row!(b"ldr\0\0\0\0\0" => [TO_D, BASE], LOAD, load!(D, Kept)),
    row!(b"ldr\0\0\0\0\0" => [TO_D, FORWARD_8], LOAD, load!(D, Kept); zero 353 at 1),
    row!(b"ldr\0\0\0\0\0" => [TO_D, BACK, BY], LOAD, load!(D, After)),
    row!(b"ldr\0\0\0\0\0" => [TO_D, BEFORE], LOAD, load!(D, Before)),
    row!(b"ldr\0\0\0\0\0" => [TO_S, BASE], LOAD, load!(S, Kept)),
    row!(b"ldr\0\0\0\0\0" => [TO_S, FORWARD_4], LOAD, load!(S, Kept); zero 357 at 1),
    row!(b"ldr\0\0\0\0\0" => [TO_S, BACK, BY], LOAD, load!(S, After)),
    row!(b"ldr\0\0\0\0\0" => [TO_S, BEFORE], LOAD, load!(S, Before)),
    // Registers stored.
    row!(b"str\0\0\0\0\0" => [ANY_X, BASE], STORE, store!(X, Kept)),
    row!(b"str\0\0\0\0\0" => [ANY_X, FORWARD_8], STORE, store!(X, Kept); zero 361 at 1),
    row!(b"str\0\0\0\0\0" => [ANY_X, BACK, BY], STORE, store!(X, After)),
    row!(b"str\0\0\0\0\0" => [ANY_X, BEFORE], STORE, store!(X, Before)),
    row!(b"str\0\0\0\0\0" => [ANY_W, BASE], STORE, store!(W, Kept)),
    row!(b"str\0\0\0\0\0" => [ANY_W, FORWARD_4], STORE, store!(W, Kept); zero 365 at 1),
    row!(b"str\0\0\0\0\0" => [ANY_W, BACK, BY], STORE, store!(W, After)),
    row!(b"str\0\0\0\0\0" => [ANY_W, BEFORE], STORE, store!(W, Before)),
    row!(b"str\0\0\0\0\0" => [Q, BASE], STORE, store!(Q, Kept)),
    row!(b"str\0\0\0\0\0" => [Q, FORWARD_16], STORE, store!(Q, Kept); zero 369 at 1),
    row!(b"str\0\0\0\0\0" => [Q, BACK, BY], STORE, store!(Q, After)),
    row!(b"str\0\0\0\0\0" => [Q, BEFORE], STORE, store!(Q, Before)),
    row!(b"str\0\0\0\0\0" => [D, BASE], STORE, store!(D, Kept)),
    row!(b"str\0\0\0\0\0" => [D, FORWARD_8], STORE, store!(D, Kept); zero 373 at 1),
    row!(b"str\0\0\0\0\0" => [D, BACK, BY], STORE, store!(D, After)),
    row!(b"str\0\0\0\0\0" => [D, BEFORE], STORE, store!(D, Before)),
    row!(b"str\0\0\0\0\0" => [S, BASE], STORE, store!(S, Kept)),
    row!(b"str\0\0\0\0\0" => [S, FORWARD_4], STORE, store!(S, Kept); zero 377 at 1),
    row!(b"str\0\0\0\0\0" => [S, BACK, BY], STORE, store!(S, After)),
    row!(b"str\0\0\0\0\0" => [S, BEFORE], STORE, store!(S, Before)),
    // The same at all offsets near the base.
    row!(b"ldur\0\0\0\0" => [TO_X, BASE], LOAD, load!(X, Kept)),
    row!(b"ldur\0\0\0\0" => [TO_X, AROUND], LOAD, load!(X, Kept); zero 381 at 1),
    row!(b"ldur\0\0\0\0" => [TO_W, BASE], LOAD, load!(W, Kept)),
    row!(b"ldur\0\0\0\0" => [TO_W, AROUND], LOAD, load!(W, Kept); zero 383 at 1),
    row!(b"ldur\0\0\0\0" => [TO_Q, BASE], LOAD, load!(Q, Kept)),
    row!(b"ldur\0\0\0\0" => [TO_Q, AROUND], LOAD, load!(Q, Kept); zero 385 at 1),
    row!(b"ldur\0\0\0\0" => [TO_D, BASE], LOAD, load!(D, Kept)),
    row!(b"ldur\0\0\0\0" => [TO_D, AROUND], LOAD, load!(D, Kept); zero 387 at 1),
    row!(b"ldur\0\0\0\0" => [TO_S, BASE], LOAD, load!(S, Kept)),
    row!(b"ldur\0\0\0\0" => [TO_S, AROUND], LOAD, load!(S, Kept); zero 389 at 1),
    row!(b"stur\0\0\0\0" => [ANY_X, BASE], STORE, store!(X, Kept)),
    row!(b"stur\0\0\0\0" => [ANY_X, AROUND], STORE, store!(X, Kept); zero 391 at 1),
    row!(b"stur\0\0\0\0" => [ANY_W, BASE], STORE, store!(W, Kept)),
    row!(b"stur\0\0\0\0" => [ANY_W, AROUND], STORE, store!(W, Kept); zero 393 at 1),
    row!(b"stur\0\0\0\0" => [Q, BASE], STORE, store!(Q, Kept)),
    row!(b"stur\0\0\0\0" => [Q, AROUND], STORE, store!(Q, Kept); zero 395 at 1),
    row!(b"stur\0\0\0\0" => [D, BASE], STORE, store!(D, Kept)),
    row!(b"stur\0\0\0\0" => [D, AROUND], STORE, store!(D, Kept); zero 397 at 1),
    row!(b"stur\0\0\0\0" => [S, BASE], STORE, store!(S, Kept)),
    row!(b"stur\0\0\0\0" => [S, AROUND], STORE, store!(S, Kept); zero 399 at 1),
    // Pairs loaded.
    row!(b"ldp\0\0\0\0\0" => [TO_X, TO_X, BASE], LOAD, load_pair!(X, Kept)),
    row!(b"ldp\0\0\0\0\0" => [TO_X, TO_X, AROUND_8], LOAD, load_pair!(X, Kept); zero 401 at 2),
    row!(b"ldp\0\0\0\0\0" => [TO_X, TO_X, BACK, BY_8], LOAD, load_pair!(X, After)),
    row!(b"ldp\0\0\0\0\0" => [TO_X, TO_X, BEFORE_8], LOAD, load_pair!(X, Before)),
    row!(b"ldp\0\0\0\0\0" => [TO_D, TO_D, BASE], LOAD, load_pair!(D, Kept)),
    row!(b"ldp\0\0\0\0\0" => [TO_D, TO_D, AROUND_8], LOAD, load_pair!(D, Kept); zero 405 at 2),
    row!(b"ldp\0\0\0\0\0" => [TO_D, TO_D, BACK, BY_8], LOAD, load_pair!(D, After)),
    row!(b"ldp\0\0\0\0\0" => [TO_D, TO_D, BEFORE_8], LOAD, load_pair!(D, Before)),
    row!(b"ldp\0\0\0\0\0" => [TO_Q, TO_Q, BASE], LOAD, load_pair!(Q, Kept)),
    row!(b"ldp\0\0\0\0\0" => [TO_Q, TO_Q, AROUND_16], LOAD, load_pair!(Q, Kept); zero 409 at 2),
    row!(b"ldp\0\0\0\0\0" => [TO_Q, TO_Q, BACK, BY_16], LOAD, load_pair!(Q, After)),
    row!(b"ldp\0\0\0\0\0" => [TO_Q, TO_Q, BEFORE_16], LOAD, load_pair!(Q, Before)),
    // Pairs stored.
    row!(b"stp\0\0\0\0\0" => [ANY_X, ANY_X, BASE], STORE, store_pair!(X, Kept)),
    row!(b"stp\0\0\0\0\0" => [ANY_X, ANY_X, AROUND_8], STORE, store_pair!(X, Kept); zero 413 at 2),
    row!(b"stp\0\0\0\0\0" => [ANY_X, ANY_X, BACK, BY_8], STORE, store_pair!(X, After)),
    row!(b"stp\0\0\0\0\0" => [ANY_X, ANY_X, BEFORE_8], STORE, store_pair!(X, Before)),
    row!(b"stp\0\0\0\0\0" => [D, D, BASE], STORE, store_pair!(D, Kept)),
    row!(b"stp\0\0\0\0\0" => [D, D, AROUND_8], STORE, store_pair!(D, Kept); zero 417 at 2),
    row!(b"stp\0\0\0\0\0" => [D, D, BACK, BY_8], STORE, store_pair!(D, After)),
    row!(b"stp\0\0\0\0\0" => [D, D, BEFORE_8], STORE, store_pair!(D, Before)),
    row!(b"stp\0\0\0\0\0" => [Q, Q, BASE], STORE, store_pair!(Q, Kept)),
    row!(b"stp\0\0\0\0\0" => [Q, Q, AROUND_16], STORE, store_pair!(Q, Kept); zero 421 at 2),
    row!(b"stp\0\0\0\0\0" => [Q, Q, BACK, BY_16], STORE, store_pair!(Q, After)),
    row!(b"stp\0\0\0\0\0" => [Q, Q, BEFORE_16], STORE, store_pair!(Q, Before)),
];

// The rows of scalar forms.
fn scalar() -> &'static [Row]
    ensures { result.now ≡ scalar_rows }
{
    &SCALAR_ROWS
}

// The rows of sums and products of lanes.
fn sums() -> &'static [Row]
    ensures { result.now ≡ lane_sum_rows }
{
    &SUM_ROWS
}

// The rows of shifts of lanes and of lanes in another order.
fn orders() -> &'static [Row]
    ensures { result.now ≡ lane_order_rows }
{
    &LANE_ROWS
}

// The rows of accesses to memory.
fn accesses() -> &'static [Row]
    ensures { result.now ≡ memory_rows }
{
    &MEMORY_ROWS
}

/// The table of the forms.
#[tactic(auto, unfolding(crate::specs::Document::document))]
pub(crate) fn table() -> Table<'static>
    ensures rows { rows_of result ≡ document }
    ensures count { length (rows_of result) ≡ 425 }
{
    Table {
        first: scalar(),
        second: sums(),
        third: orders(),
        fourth: accesses(),
    }
}

/// The table can be read and printed: no two rows fit the same words, and what is
/// printed is read by its own row.
pub(crate) fn is_readable()
    ensures { is_readable document ≡ true }
{}
