//! What scalar instructions compute, worked out by hand from the Arm Architecture Reference Manual.
use crate::rows::numbers_of;
use crate::walk::{Tested, walk};
use sample_set::Failing;
use scalar_ops::scalar_values;
use sl_isa::meaning::{Logic, Product, Scalar, Second, Shift, Size};
use sl_text::lines;
use std::alloc::Global;

/// The operations of the cases below, in their order.
const OPERATIONS: [Scalar; 39] = [
    Scalar::Sum {
        minus: false,
        second: Second::Register,
        carries: false,
        flags: false,
    },
    Scalar::Sum {
        minus: true,
        second: Second::Register,
        carries: false,
        flags: false,
    },
    Scalar::Sum {
        minus: false,
        second: Second::Register,
        carries: false,
        flags: true,
    },
    Scalar::Sum {
        minus: true,
        second: Second::Register,
        carries: false,
        flags: true,
    },
    Scalar::Sum {
        minus: false,
        second: Second::Register,
        carries: true,
        flags: false,
    },
    Scalar::Sum {
        minus: false,
        second: Second::Register,
        carries: true,
        flags: true,
    },
    Scalar::Sum {
        minus: true,
        second: Second::Register,
        carries: true,
        flags: false,
    },
    Scalar::Sum {
        minus: true,
        second: Second::Register,
        carries: true,
        flags: true,
    },
    Scalar::Sum {
        minus: false,
        second: Second::Shifted(Shift::Lsl),
        carries: false,
        flags: true,
    },
    Scalar::Sum {
        minus: true,
        second: Second::Shifted(Shift::Lsr),
        carries: false,
        flags: true,
    },
    Scalar::Sum {
        minus: true,
        second: Second::Shifted(Shift::Asr),
        carries: false,
        flags: true,
    },
    Scalar::Sum {
        minus: false,
        second: Second::Number,
        carries: false,
        flags: true,
    },
    Scalar::Sum {
        minus: true,
        second: Second::Number,
        carries: false,
        flags: true,
    },
    Scalar::Logic {
        op: Logic::And,
        second: Second::Register,
    },
    Scalar::Logic {
        op: Logic::Orr,
        second: Second::Register,
    },
    Scalar::Logic {
        op: Logic::Eor,
        second: Second::Register,
    },
    Scalar::Logic {
        op: Logic::Bic,
        second: Second::Register,
    },
    Scalar::Logic {
        op: Logic::Eor,
        second: Second::Shifted(Shift::Ror),
    },
    Scalar::Logic {
        op: Logic::Bic,
        second: Second::Shifted(Shift::Lsl),
    },
    Scalar::Logic {
        op: Logic::And,
        second: Second::Number,
    },
    Scalar::Copy,
    Scalar::Wide,
    Scalar::Part,
    Scalar::Multiply(Product::Alone),
    Scalar::Multiply(Product::Added),
    Scalar::Multiply(Product::Subtracted),
    Scalar::MultiplyHigh { signed: false },
    Scalar::MultiplyHigh { signed: true },
    Scalar::MultiplyLong { signed: false },
    Scalar::MultiplyLong { signed: true },
    Scalar::Shift(Shift::Lsl),
    Scalar::Shift(Shift::Lsr),
    Scalar::Shift(Shift::Asr),
    Scalar::Shift(Shift::Ror),
    Scalar::Extract,
    Scalar::Field,
    Scalar::Select,
    Scalar::Shift(Shift::Lsl),
    Scalar::Field,
];

/// For each operation its name and its cases, with a `~` behind them. A case has the size, `x` or `w`, and the numbers, in decimal; then the
/// values of the operands and, behind an arrow, the result and the flags, in hexadecimal. What is missing is 0. N, Z, C and V are 8, 4, 2
/// and 1.
const CASES: &str = "\
    add\n\
    x: 0 -> 0\n\
    x: ffffffffffffffff 1 -> 0\n\
    x: 8000000000000000 8000000000000000 -> 0\n\
    x: 7fffffffffffffff 1 -> 8000000000000000\n\
    x: 10000000000000005 7 -> c\n\
    w: ffffffffffffffff 1 -> 0\n\
    w: 80000000 7fffffff -> ffffffff\n\
    w: ffffffff00000005 100000002 -> 7\n\
    ~\n\
    sub\n\
    x: 0 1 -> ffffffffffffffff\n\
    x: 5 5 -> 0\n\
    x: 8000000000000000 1 -> 7fffffffffffffff\n\
    x: 0 ffffffffffffffff -> 1\n\
    w: 0 1 -> ffffffff\n\
    w: 80000000 1 -> 7fffffff\n\
    w: 500000009 700000002 -> 7\n\
    ~\n\
    adds\n\
    x: 1 2 -> 3\n\
    x: 0 -> 0 4\n\
    x: 7fffffffffffffff 1 -> 8000000000000000 9\n\
    x: ffffffffffffffff 1 -> 0 6\n\
    x: 8000000000000000 8000000000000000 -> 0 7\n\
    x: ffffffffffffffff ffffffffffffffff -> fffffffffffffffe a\n\
    w: 7fffffff 1 -> 80000000 9\n\
    w: ffffffff 1 -> 0 6\n\
    w: 80000000 80000000 -> 0 7\n\
    w: ffffffff00000001 1 -> 2\n\
    ~\n\
    subs\n\
    x: 0 1 -> ffffffffffffffff 8\n\
    x: 5 5 -> 0 6\n\
    x: 0 -> 0 6\n\
    x: 7 5 -> 2 2\n\
    x: 8000000000000000 1 -> 7fffffffffffffff 3\n\
    x: 7fffffffffffffff ffffffffffffffff -> 8000000000000000 9\n\
    x: 0 8000000000000000 -> 8000000000000000 9\n\
    w: 0 1 -> ffffffff 8\n\
    w: 5 100000005 -> 0 6\n\
    w: 80000000 1 -> 7fffffff 3\n\
    w: 7fffffff ffffffff -> 80000000 9\n\
    ~\n\
    adc\n\
    x: 1 2 2 -> 4\n\
    x: 1 2 d -> 3\n\
    x: ffffffffffffffff 0 2 -> 0\n\
    w: ffffffff 0 2 -> 0\n\
    w: ffffffff -> ffffffff\n\
    w: ffffffffffffffff ffffffffffffffff f -> ffffffff\n\
    ~\n\
    adcs\n\
    x: 7fffffffffffffff 0 2 -> 8000000000000000 9\n\
    x: ffffffffffffffff 0 2 -> 0 6\n\
    x: ffffffffffffffff ffffffffffffffff 2 -> ffffffffffffffff a\n\
    x: ffffffffffffffff ffffffffffffffff -> fffffffffffffffe a\n\
    w: 7fffffff 0 2 -> 80000000 9\n\
    w: ffffffff 0 2 -> 0 6\n\
    w: 80000000 80000000 -> 0 7\n\
    ~\n\
    sbc\n\
    x: 5 3 2 -> 2\n\
    x: 5 3 d -> 1\n\
    x: 0 -> ffffffffffffffff\n\
    w: 5 3 2 -> 2\n\
    w: 5 3 -> 1\n\
    w: 0 -> ffffffff\n\
    ~\n\
    sbcs\n\
    x: 0 -> ffffffffffffffff 8\n\
    x: 0 0 2 -> 0 6\n\
    x: 8000000000000000 -> 7fffffffffffffff 3\n\
    x: 3 5 2 -> fffffffffffffffe 8\n\
    w: 0 -> ffffffff 8\n\
    w: 0 0 2 -> 0 6\n\
    w: 80000000 -> 7fffffff 3\n\
    ~\n\
    adds, lsl\n\
    x 4: 1 3 -> 31\n\
    x 63: 7fffffffffffffff 3 -> ffffffffffffffff 8\n\
    x: ffffffffffffffff 1 -> 0 6\n\
    w 31: 0 3 -> 80000000 8\n\
    w 4: 1 10000003 -> 31\n\
    w: ffffffff 1 -> 0 6\n\
    ~\n\
    subs, lsr\n\
    x 63: 1 8000000000000000 -> 0 6\n\
    x 1: 0 ffffffffffffffff -> 8000000000000001 8\n\
    x: 5 3 -> 2 2\n\
    w 31: 1 80000000 -> 0 6\n\
    w 1: 0 ffffffffffffffff -> 80000001 8\n\
    w: 5 900000003 -> 2 2\n\
    ~\n\
    subs, asr\n\
    x 63: 5 8000000000000000 -> 6\n\
    x 1: 0 7fffffffffffffff -> c000000000000001 8\n\
    x: 8000000000000000 8000000000000000 -> 0 6\n\
    w 31: 5 80000000 -> 6\n\
    w 1: 0 7fffffff -> c0000001 8\n\
    w: 80000000 80000000 -> 0 6\n\
    ~\n\
    adds of a number\n\
    x 4095 12: 1 9 -> fff001\n\
    x 1: 7fffffffffffffff 9 -> 8000000000000000 9\n\
    x: 0 9 -> 0 4\n\
    w 4095 12: 1 9 -> fff001\n\
    w 1: ffffffff 9 -> 0 6\n\
    w: 8000000000000000 9 -> 0 4\n\
    ~\n\
    subs of a number\n\
    x 1: 0 9 -> ffffffffffffffff 8\n\
    x 1 12: 1000 9 -> 0 6\n\
    x 2: 8000000000000000 9 -> 7ffffffffffffffe 3\n\
    w 1: 0 9 -> ffffffff 8\n\
    w 1 12: 1000 9 -> 0 6\n\
    w 2: 80000000 9 -> 7ffffffe 3\n\
    ~\n\
    and\n\
    x: ffffffffffffffff ff0 -> ff0\n\
    x: 8000000000000000 ffffffffffffffff -> 8000000000000000\n\
    x: f0f0 ff00 -> f000\n\
    w: ffffffffffffffff fffffffff0f0f0f0 -> f0f0f0f0\n\
    w: 80000000 ffffffffffffffff -> 80000000\n\
    w: 0 ffffffffffffffff -> 0\n\
    ~\n\
    orr\n\
    x: f0 f -> ff\n\
    x: 8000000000000000 1 -> 8000000000000001\n\
    x: 0 -> 0\n\
    w: 100000005 2 -> 7\n\
    w: 80000000 7fffffff -> ffffffff\n\
    w: 8000000000000000 -> 0\n\
    ~\n\
    eor\n\
    x: ffffffffffffffff ffffffffffffffff -> 0\n\
    x: ffffffffffffffff 1 -> fffffffffffffffe\n\
    x: 8000000000000000 -> 8000000000000000\n\
    w: ffffffff00000000 ff -> ff\n\
    w: ffffffff 80000000 -> 7fffffff\n\
    w: ffffffffffffffff ffffffff -> 0\n\
    ~\n\
    bic\n\
    x: ff f -> f0\n\
    x: ffffffffffffffff -> ffffffffffffffff\n\
    x: ffffffffffffffff 8000000000000000 -> 7fffffffffffffff\n\
    x: f ffffffffffffffff -> 0\n\
    w: ffffffffffffffff -> ffffffff\n\
    w: ffffffff 80000000 -> 7fffffff\n\
    w: ff ffffffff0000000f -> f0\n\
    ~\n\
    eor, ror\n\
    x 8: 0 1ff -> ff00000000000001\n\
    x: ffffffffffffffff ff -> ffffffffffffff00\n\
    x 63: 1 8000000000000000 -> 0\n\
    w 8: 0 1ff -> ff000001\n\
    w: ffffffffffffffff ff -> ffffff00\n\
    w 31: 1 80000000 -> 0\n\
    ~\n\
    bic, lsl\n\
    x 4: ffffffffffffffff f -> ffffffffffffff0f\n\
    x 63: ffffffffffffffff 1 -> 7fffffffffffffff\n\
    x: ffffffffffffffff ffffffffffffffff -> 0\n\
    w 4: ffffffffffffffff f -> ffffff0f\n\
    w 31: ffffffffffffffff 1 -> 7fffffff\n\
    w: ffffffffffffffff ffffffff -> 0\n\
    ~\n\
    and of a number\n\
    x 255: 123456789abcdef0 -> f0\n\
    x 9223372036854775807: ffffffffffffffff -> 7fffffffffffffff\n\
    x 1: 8000000000000000 -> 0\n\
    w 65535: 123456789abcdef0 -> def0\n\
    w 4294901760: 123456789abcdef0 -> 9abc0000\n\
    w 1: 8000000000000000 -> 0\n\
    ~\n\
    mov\n\
    x: 0 -> 0\n\
    x: ffffffffffffffff -> ffffffffffffffff\n\
    x: 8000000000000000 -> 8000000000000000\n\
    x: 10000000000000003 -> 3\n\
    w: ffffffffffffffff -> ffffffff\n\
    w: 80000000 -> 80000000\n\
    w: ffffffff00000000 -> 0\n\
    ~\n\
    movz\n\
    x 65535 48: 7 -> ffff000000000000\n\
    x 32768 48: 7 -> 8000000000000000\n\
    x 4660 16: 7 -> 12340000\n\
    x 1: 7 -> 1\n\
    w 65535 16: 7 -> ffff0000\n\
    w 5: 7 -> 5\n\
    w 0 16: 7 -> 0\n\
    ~\n\
    movk\n\
    x 0 16: ffffffffffffffff -> ffffffff0000ffff\n\
    x 65535 48: 0 -> ffff000000000000\n\
    x 0 48: ffffffffffffffff -> ffffffffffff\n\
    x 17185 48: 123456789abcdef0 -> 432156789abcdef0\n\
    x 17185 32: 123456789abcdef0 -> 123443219abcdef0\n\
    x 17185 16: 123456789abcdef0 -> 123456784321def0\n\
    x 17185: 123456789abcdef0 -> 123456789abc4321\n\
    w 0 16: ffffffffffffffff -> ffff\n\
    w 17185 16: 123456789abcdef0 -> 4321def0\n\
    w 17185: 123456789abcdef0 -> 9abc4321\n\
    ~\n\
    mul\n\
    x: 3 5 -> f\n\
    x: ffffffffffffffff ffffffffffffffff -> 1\n\
    x: 8000000000000000 2 -> 0\n\
    x: ffffffff ffffffff -> fffffffe00000001\n\
    w: ffffffff ffffffff -> 1\n\
    w: 100000003 5 -> f\n\
    w: 10000 10000 -> 0\n\
    ~\n\
    madd\n\
    x: 3 5 7 -> 16\n\
    x: ffffffffffffffff ffffffffffffffff ffffffffffffffff -> 0\n\
    x: 0 ffffffffffffffff 8000000000000000 -> 8000000000000000\n\
    w: ffffffff ffffffff ffffffff -> 0\n\
    w: 2 3 ffffffff00000001 -> 7\n\
    w: 10000 10000 9 -> 9\n\
    ~\n\
    msub\n\
    x: 3 5 7 -> fffffffffffffff8\n\
    x: ffffffffffffffff ffffffffffffffff -> ffffffffffffffff\n\
    x: 2 3 6 -> 0\n\
    x: 1 8000000000000000 8000000000000000 -> 0\n\
    w: 3 5 7 -> fffffff8\n\
    w: ffffffff ffffffff -> ffffffff\n\
    w: 2 3 800000006 -> 0\n\
    ~\n\
    umulh\n\
    x: ffffffffffffffff ffffffffffffffff -> fffffffffffffffe\n\
    x: 8000000000000000 8000000000000000 -> 4000000000000000\n\
    x: 8000000000000000 2 -> 1\n\
    x: 3 5 -> 0\n\
    w: ffffffffffffffff ffffffffffffffff -> fffffffffffffffe\n\
    w: 8000000000000000 2 -> 1\n\
    w: ffffffff ffffffff -> 0\n\
    ~\n\
    smulh\n\
    x: ffffffffffffffff ffffffffffffffff -> 0\n\
    x: 8000000000000000 8000000000000000 -> 4000000000000000\n\
    x: 8000000000000000 ffffffffffffffff -> 0\n\
    x: 8000000000000000 1 -> ffffffffffffffff\n\
    x: ffffffffffffffff 2 -> ffffffffffffffff\n\
    x: 7fffffffffffffff 7fffffffffffffff -> 3fffffffffffffff\n\
    x: 7fffffffffffffff 8000000000000000 -> c000000000000000\n\
    w: ffffffffffffffff ffffffffffffffff -> 0\n\
    w: 8000000000000000 1 -> ffffffffffffffff\n\
    w: ffffffff ffffffff -> 0\n\
    ~\n\
    umull\n\
    x: ffffffff ffffffff -> fffffffe00000001\n\
    x: 100000002 ffffffff00000003 -> 6\n\
    x: 80000000 2 -> 100000000\n\
    w: ffffffff ffffffff -> fffffffe00000001\n\
    w: 100000002 3 -> 6\n\
    w: 0 ffffffffffffffff -> 0\n\
    ~\n\
    smull\n\
    x: ffffffff ffffffff -> 1\n\
    x: ffffffff 1 -> ffffffffffffffff\n\
    x: 80000000 80000000 -> 4000000000000000\n\
    x: 80000000 1 -> ffffffff80000000\n\
    x: 57fffffff ffffffff -> ffffffff80000001\n\
    w: ffffffff ffffffff -> 1\n\
    w: ffffffff 1 -> ffffffffffffffff\n\
    w: 80000000 80000000 -> 4000000000000000\n\
    ~\n\
    lsl\n\
    x: 123456789abcdef0 -> 123456789abcdef0\n\
    x 63: 3 -> 8000000000000000\n\
    x 4: ffffffffffffffff -> fffffffffffffff0\n\
    w: ffffffffffffffff -> ffffffff\n\
    w 31: 3 -> 80000000\n\
    w 1: 80000001 -> 2\n\
    ~\n\
    lsr\n\
    x: ffffffffffffffff -> ffffffffffffffff\n\
    x 63: 8000000000000000 -> 1\n\
    x 4: f0 -> f\n\
    w: ffffffffffffffff -> ffffffff\n\
    w 31: 80000000 -> 1\n\
    w 4: ffffffff00000010 -> 1\n\
    ~\n\
    asr\n\
    x: 8000000000000000 -> 8000000000000000\n\
    x 63: 8000000000000000 -> ffffffffffffffff\n\
    x 4: 8000000000000000 -> f800000000000000\n\
    x 62: 7fffffffffffffff -> 1\n\
    w: 80000000 -> 80000000\n\
    w 31: 80000000 -> ffffffff\n\
    w 4: 80000000 -> f8000000\n\
    w 30: 17fffffff -> 1\n\
    ~\n\
    ror\n\
    x: 123456789abcdef0 -> 123456789abcdef0\n\
    x 1: 1 -> 8000000000000000\n\
    x 63: 8000000000000000 -> 1\n\
    x 4: ff -> f00000000000000f\n\
    w: ffffffffffffffff -> ffffffff\n\
    w 1: 1 -> 80000000\n\
    w 31: 80000000 -> 1\n\
    w 4: ff -> f000000f\n\
    ~\n\
    extr\n\
    x: ffffffffffffffff 123456789abcdef0 -> 123456789abcdef0\n\
    x 4: f 10 -> f000000000000001\n\
    x 63: 1 8000000000000000 -> 3\n\
    x 32: ffffffffffffffff -> ffffffff00000000\n\
    w: ffffffffffffffff 123456789abcdef0 -> 9abcdef0\n\
    w 16: 12345678 9abcdef0 -> 56789abc\n\
    w 31: 1 80000000 -> 3\n\
    ~\n\
    ubfx\n\
    x 0 64: 123456789abcdef0 -> 123456789abcdef0\n\
    x 4 8: 123456789abcdef0 -> ef\n\
    x 32 16: 123456789abcdef0 -> 5678\n\
    x 63 1: 8000000000000000 -> 1\n\
    w 0 32: 123456789abcdef0 -> 9abcdef0\n\
    w 28 4: 123456789abcdef0 -> 9\n\
    w 31 1: 80000000 -> 1\n\
    w 16 16: 123456789abcdef0 -> 9abc\n\
    ~\n\
    csel\n\
    x: ffffffffffffffff 8000000000000000 4 -> ffffffffffffffff\n\
    x: ffffffffffffffff 8000000000000000 -> 8000000000000000\n\
    w: ffffffffffffffff 8000000000000000 4 -> ffffffff\n\
    w: ffffffffffffffff 8000000000000000 -> 0\n\
    ~\n\
    lsl past its size\n\
    x 64: ffffffffffffffff -> 0\n\
    x 9223372036854775807: ffffffffffffffff -> 0\n\
    x -1: 1 -> 2\n\
    w 32: ffffffffffffffff -> 0\n\
    ~\n\
    ubfx past its size\n\
    x 0 -9223372036854775808: ffffffffffffffff -> ffffffffffffffff\n\
    x -9223372036854775808 1: ffffffffffffffff -> 0\n\
    w: ffffffffffffffff -> 0";

/// The size and the numbers that stand before the colon of a line.
fn head_of(text: &str) -> (Size, [i64; 2]) {
    let mut imms = [0; 2];
    let mut count = 0;
    for word in text.split(' ').skip(1) {
        if count < 2 {
            imms[count] = word.parse::<i64>().unwrap_or(0);
            count += 1;
        }
    }
    if text.starts_with('x') {
        return (Size::Bits64, imms);
    }
    (Size::Bits32, imms)
}

/// Does a line say what an operation gives?
fn is_right(op: Scalar, line: &str) -> bool {
    let Some((head, rest)) = line.split_once(": ") else {
        return false;
    };
    let Some((operands, results)) = rest.split_once(" -> ") else {
        return false;
    };
    let mut ins = [0; 3];
    numbers_of(operands, &mut ins);
    let mut outs = [0; 3];
    numbers_of(results, &mut outs);
    let (size, imms) = head_of(head);
    scalar_values(op, size, &imms, &ins) == outs
}

/// The cases of an operation.
#[derive(Drop)]
struct Scalars(Scalar);

impl Tested for Scalars {
    fn try_line(&self, _alloc: Global, line: &str, failing: &mut Failing) {
        failing.check(line, is_right(self.0, line));
    }
}

/// Notes the name of an operation and those of its cases that fail, if there are any; says how many cases there are.
fn check(alloc: Global, op: Scalar, block: &str, failing: &mut Failing) -> usize {
    let (name, cases) = block.split_once("\n").unwrap_or((block, ""));
    let before = failing.len();
    let count = walk(&Scalars(op), alloc, cases, failing);
    failing.check(name, failing.len() == before);
    count
}

#[test]
fn scalar_instructions_compute_what_the_manual_says(rt: HostRuntime) -> Failing {
    let mut failing = Failing::new(rt.alloc());
    let mut count: usize = 0;
    let mut blocks = CASES.split("~\n");
    for op in &OPERATIONS {
        let block = blocks.next().unwrap_or("");
        count = count.saturating_add(check(rt.alloc(), *op, block, &mut failing));
    }
    failing.check("the number of lines", count == 264);
    failing
}

/// The conditions in the order of their numbers, and whether each holds, for the values of the flags from 0 to 15.
const CONDITIONS: &str = "\
    eq 0000111100001111\n\
    ne 1111000011110000\n\
    cs 0011001100110011\n\
    cc 1100110011001100\n\
    mi 0000000011111111\n\
    pl 1111111100000000\n\
    vs 0101010101010101\n\
    vc 1010101010101010\n\
    hi 0011000000110000\n\
    ls 1100111111001111\n\
    ge 1010101001010101\n\
    lt 0101010110101010\n\
    gt 1010000001010000\n\
    le 0101111110101111";

/// Does `csel` with a condition take its first operand where a line says so?
fn selects(number: i64, holds: &str) -> bool {
    let mut flags: u128 = 0;
    for wanted in holds.bytes() {
        let wanted = u128::from(wanted == b'1');
        let imms = [number, 0];
        let long = scalar_values(Scalar::Select, Size::Bits64, &imms, &[1, 0, flags]);
        let short = scalar_values(
            Scalar::Select,
            Size::Bits32,
            &imms,
            &[1 << 63 | 1, 1 << 63, flags],
        );
        if long != [wanted, 0, 0] || short != [wanted, 0, 0] {
            return false;
        }
        flags = flags.saturating_add(1);
    }
    flags == 16
}

#[test]
fn conditions_hold_for_their_flags(rt: HostRuntime) -> Failing {
    let mut failing = Failing::new(rt.alloc());
    for line in lines(CONDITIONS, 0) {
        let holds = line.text.split(' ').nth(1).unwrap_or("");
        failing.check(line.text, selects(i64::from(line.number), holds));
    }
    failing
}

// Where there are no numbers and operands, they are 0.
#[test]
fn nothing_is_zero(rt: HostRuntime) -> Failing {
    let mut failing = Failing::new(rt.alloc());
    let op = Scalar::Sum {
        minus: false,
        second: Second::Register,
        carries: true,
        flags: true,
    };
    let found = scalar_values(op, Size::Bits64, &[], &[]);
    failing.check("nothing", found == [0, 4, 0]);
    failing
}
