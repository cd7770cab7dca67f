//! State files with answers written by hand, and long ones.
use crate::running::repeated;
use sample_set::{Failing, FewForms, example};
use sl_isa::{Bank, Reg};
use sl_text::text_of;
use state_text::{ArchName, State, StateErr, print_state, read_state, run_on_state};
use std::alloc::{AllocError, Global};

/// What is printed of the state that a text says, or the number of its first bad line.
fn reprinted(alloc: Global, arch: ArchName, text: &str) -> Result<String, AllocError> {
    let mut out = Vec::new(alloc);
    if 1 << 31 <= text.len() {
        return Err(AllocError);
    }
    let state = match read_state(alloc, arch, text) {
        Ok(state) => state,
        Err(StateErr::StateBad { line }) => return format!(in alloc; "bad line {line}"),
        Err(StateErr::NoMemory) => return Err(AllocError),
    };
    if print_state(arch, &state, &mut out).is_err() {
        return Err(AllocError);
    }
    text_from(alloc, &out)
}

/// Bytes as a text.
fn text_from(alloc: Global, bytes: &[u8]) -> Result<String, AllocError> {
    if 1 << 31 <= bytes.len() {
        return Err(AllocError);
    }
    match text_of(bytes) {
        Ok(text) => String::from_str(alloc, text),
        Err(_) => String::from_str(alloc, "no text"),
    }
}

const START: &str = "x1 = 0x1000
x3 = 0x2000
x4 = 0x2
v2 = 0x00000001000000010000000100000001
mem 0x1000 = 0100000002000000030000000400000005000000060000000700000008000000
";

const START_PRINTED: &str = "x1 = 0x0000000000001000
x3 = 0x0000000000002000
x4 = 0x0000000000000002
v2 = 0x00000001000000010000000100000001
mem 0x0000000000001000 = 01000000020000000300000004000000
mem 0x0000000000001010 = 05000000060000000700000008000000
";

const END: &str = "x1 = 0x0000000000001020
x3 = 0x0000000000002020
x4 = 0x0000000000000000
v0 = 0x00000008000000070000000600000005
v1 = 0x00000009000000080000000700000006
v2 = 0x00000001000000010000000100000001
nzcv = 0110
mem 0x0000000000001000 = 01000000020000000300000004000000
mem 0x0000000000001010 = 05000000060000000700000008000000
mem 0x0000000000002000 = 02000000030000000400000005000000
mem 0x0000000000002010 = 06000000070000000800000009000000
";

/// Texts of AArch64, and what is printed of what they say.
const STATES: [(&str, &str); 7] = [
    ("", ""),
    (START, START_PRINTED),
    (END, END),
    // lines in any order, blank ones, comments, carriage returns, digits of either case and zeros before them
    (
        "\r\n \t\n// x1 = 0x1\n//\nnzcv = 1000\r\nv31 = 0xaBcDeF\nx30 = 0x000000000000000000000000000000000000F\nsp = 0x10\nx0 = 0x0",
        "x0 = 0x0000000000000000
x30 = 0x000000000000000f
sp = 0x0000000000000010
v31 = 0x00000000000000000000000000abcdef
nzcv = 1000
",
    ),
    // the greatest values
    (
        "x7 = 0xffffffffffffffff\nv9 = 0xffffffffffffffffffffffffffffffff\nnzcv = 1111\nsp = 0xFFFFFFFFFFFFFFFF\nmem 0xffffffffffffffff = FF\n",
        "x7 = 0xffffffffffffffff
sp = 0xffffffffffffffff
v9 = 0xffffffffffffffffffffffffffffffff
nzcv = 1111
mem 0xffffffffffffffff = ff
",
    ),
    // 17 bytes, a gap, and a byte that stands before them
    (
        "mem 0x20 = 000102030405060708090a0b0c0d0e0f10\nmem 0x1f = aa\nmem 0x32 = bb\nmem 0x34 = cc\n",
        "mem 0x000000000000001f = aa000102030405060708090a0b0c0d0e
mem 0x000000000000002f = 0f10
mem 0x0000000000000032 = bb
mem 0x0000000000000034 = cc
",
    ),
    // 16 bytes and the next one
    (
        "mem 0xff8 = 00112233445566778899aabbccddeeff\nmem 0x1008 = 01\n",
        "mem 0x0000000000000ff8 = 00112233445566778899aabbccddeeff
mem 0x0000000000001008 = 01
",
    ),
];

/// The same of a microcontroller.
const SMALL_STATES: [(&str, &str); 1] = [(
    "lr = 0x1\ns31 = 0xffffffff\nr12 = 0x80000000\ns0 = 0x0\nsp = 0x20001000\nr0 = 0x0\nnzcv = 0001\nmem 0xffffffff = 12\nmem 0x0 = 0aFf\n",
    "r0 = 0x00000000
r12 = 0x80000000
lr = 0x00000001
sp = 0x20001000
s0 = 0x00000000
s31 = 0xffffffff
nzcv = 0001
mem 0x00000000 = 0aff
mem 0xffffffff = 12
",
)];

/// Notes the texts that are printed otherwise.
fn compare(alloc: Global, failing: &mut Failing, arch: ArchName, cases: &[(&str, &str)]) {
    for (text, wanted) in cases {
        failing.compare(text, reprinted(alloc, arch, text), wanted);
    }
}

#[test]
fn what_is_printed_is_what_was_read(rt: HostRuntime) -> Failing {
    let mut failing = Failing::new(rt.alloc());
    compare(rt.alloc(), &mut failing, ArchName::Arm64, &STATES);
    compare(rt.alloc(), &mut failing, ArchName::M4, &SMALL_STATES);
    failing
}

/// Texts of AArch64 that are bad, each with the number of its first bad line.
const BAD: [(u32, &str); 67] = [
    // other shapes
    (1, "x1"),
    (1, "x1 =0x1"),
    (1, "x1= 0x1"),
    (1, "x1  = 0x1"),
    (1, "x1 =  0x1"),
    (1, "x1\t= 0x1"),
    (1, " x1 = 0x1"),
    (1, "x1 = 0x1 "),
    (1, "x1 = 0x1 // one"),
    (1, " // x1 = 0x1"),
    (1, "/ x1 = 0x1"),
    (1, "x1 = 0x1\r"),
    (1, "x1 = 1"),
    (1, "x1 = 0X1"),
    (1, "x1 = 0x"),
    (1, "x1 = 0x1g"),
    (1, "x1 = 0x_1"),
    (1, "x1 = 0x-1"),
    (1, "x1 = "),
    (1, "x1 ="),
    (1, "= 0x1"),
    (1, " = 0x1"),
    (1, "\u{e9} = 0x1"),
    // names that there are none of
    (1, "x31 = 0x1"),
    (1, "x01 = 0x1"),
    (1, "x = 0x1"),
    (1, "X1 = 0x1"),
    (1, "w1 = 0x1"),
    (1, "xzr = 0x0"),
    (1, "v32 = 0x1"),
    (1, "v100 = 0x1"),
    (1, "q1 = 0x1"),
    (1, "SP = 0x1"),
    (1, "lr = 0x1"),
    (1, "r1 = 0x1"),
    (1, "s1 = 0x1"),
    (1, "NZCV = 0000"),
    // values that are too large
    (1, "x1 = 0x10000000000000000"),
    (1, "sp = 0x10000000000000000"),
    (1, "v1 = 0x100000000000000000000000000000000"),
    (
        1,
        "v1 = 0x1000000000000000000000000000000000000000000000000000",
    ),
    // flags
    (1, "nzcv = 0x1"),
    (1, "nzcv = 011"),
    (1, "nzcv = 01100"),
    (1, "nzcv = 0120"),
    (1, "nzcv = 011 "),
    // memory
    (1, "mem 0x0 = "),
    (1, "mem 0x0 ="),
    (1, "mem 0x0"),
    (1, "mem = 00"),
    (1, "mem  0x0 = 00"),
    (1, "mem 0 = 00"),
    (1, "mem 0x = 00"),
    (1, "mem 0x0  = 00"),
    (1, "mem 0x0 = 0"),
    (1, "mem 0x0 = 000"),
    (1, "mem 0x0 = 00 00"),
    (1, "mem 0x0 = 0g"),
    (1, "mem 0x0 = 00 "),
    (1, "mem 0x0 = 0x00"),
    (1, "mem 0x10000000000000000 = 00"),
    (1, "mem 0xffffffffffffffff = 0000"),
    // what has a value already
    (2, "x1 = 0x1\nx1 = 0x1"),
    (3, "nzcv = 0000\n\nnzcv = 0000"),
    (2, "mem 0x10 = 00112233\nmem 0x13 = 33"),
    (3, "mem 0x10 = 00\r\nmem 0x12 = 00\r\nmem 0x0f = 000000"),
    // the first one counts
    (4, "// none\nx1 = 0x1\n   \nx2 = 0\nx3 = 0\n"),
];

/// The same of a microcontroller.
const SMALL_BAD: [(u32, &str); 15] = [
    (1, "r13 = 0x1"),
    (1, "r14 = 0x1"),
    (1, "r15 = 0x1"),
    (1, "r00 = 0x1"),
    (1, "pc = 0x1"),
    (1, "x1 = 0x1"),
    (1, "v1 = 0x1"),
    (1, "s32 = 0x1"),
    (1, "r1 = 0x100000000"),
    (1, "lr = 0x100000000"),
    (1, "sp = 0x100000000"),
    (1, "s1 = 0x100000000"),
    (1, "mem 0x100000000 = 00"),
    (1, "mem 0xffffffff = 0000"),
    (2, "lr = 0x1\nlr = 0x1"),
];

/// The number of the first bad line of a text, and 0 where it has none.
fn bad_line_of(alloc: Global, arch: ArchName, text: &str) -> u32 {
    if 1 << 31 <= text.len() {
        return 0;
    }
    match read_state(alloc, arch, text) {
        Err(StateErr::StateBad { line }) => line,
        _ => 0,
    }
}

/// Notes the texts that are bad at another line.
fn compare_bad(alloc: Global, failing: &mut Failing, arch: ArchName, cases: &[(u32, &str)]) {
    for (line, text) in cases {
        failing.check(text, bad_line_of(alloc, arch, text) == *line);
    }
}

#[test]
fn bad_lines_have_their_numbers(rt: HostRuntime) -> Failing {
    let mut failing = Failing::new(rt.alloc());
    compare_bad(rt.alloc(), &mut failing, ArchName::Arm64, &BAD);
    compare_bad(rt.alloc(), &mut failing, ArchName::M4, &SMALL_BAD);
    failing
}

/// What is printed twice of a state in which three registers have the value 5.
fn printed_twice(alloc: Global) -> Result<String, AllocError> {
    let mut state = State::new(alloc);
    for (symbolic, number) in [(true, 0), (false, 1), (false, 31)] {
        let register = Reg {
            bank: Bank::General,
            symbolic,
            number,
        };
        state.set_reg(register, 5).map_err(|_| AllocError)?;
    }
    let mut out = Vec::new(alloc);
    print_state(ArchName::Arm64, &state, &mut out).map_err(|_| AllocError)?;
    print_state(ArchName::Arm64, &state, &mut out).map_err(|_| AllocError)?;
    text_from(alloc, &out)
}

// Symbolic registers and the zero register have no line, and what stood in the text stays.
#[test]
fn only_registers_of_the_machine_have_lines(rt: HostRuntime) -> Failing {
    let mut failing = Failing::new(rt.alloc());
    failing.compare(
        "twice",
        printed_twice(rt.alloc()),
        "x1 = 0x0000000000000005\nx1 = 0x0000000000000005\n",
    );
    failing
}

/// A state file as it is printed, of all registers and so many whole lines of memory, and one byte more.
fn long_state(alloc: Global, lines: u32) -> Result<String, AllocError> {
    let mut text = String::new(alloc);
    for number in 0..31u32 {
        write!(text, "x{number} = 0x{number:016x}\n")?;
    }
    text.push_str("sp = 0x0000000000000010\n")?;
    for number in 0..32u32 {
        write!(text, "v{number} = 0x{number:032x}\n")?;
    }
    text.push_str("nzcv = 0101\n")?;
    for number in 0..lines {
        write!(
            text,
            "mem 0x{number:015x}0 = 000102030405060708090a0b{number:08x}\n"
        )?;
    }
    write!(text, "mem 0x{lines:015x}0 = ff\n")?;
    Ok(text)
}

/// Is a state of so many whole lines of memory printed as it was read?
fn is_reprinted(alloc: Global, lines: u32) -> Result<bool, AllocError> {
    let text = long_state(alloc, lines)?;
    let found = reprinted(alloc, ArchName::Arm64, text.as_str())?;
    Ok(found.as_str() == text.as_str())
}

// With memory at hand a state file of any length is read and printed: here with up to 65537 bytes of memory.
#[test]
fn long_states_are_read_and_printed(rt: HostRuntime) -> Failing {
    let mut failing = Failing::new(rt.alloc());
    for lines in &[0, 2, 3, 4, 64, 256, 1024, 4096] {
        failing.check_number(
            *lines as usize,
            is_reprinted(rt.alloc(), *lines) == Ok(true),
        );
    }
    failing
}

/// The length of what is printed of a line that has so many bytes of memory.
fn printed_length(alloc: Global, count: usize) -> Result<usize, AllocError> {
    let mut text = String::from_str(alloc, "mem 0x0 = ")?;
    for _ in 0..count {
        text.push_str("a5")?;
    }
    Ok(reprinted(alloc, ArchName::M4, text.as_str())?.len())
}

/// Numbers of bytes of a line, each with the length of what is printed.
const LONG: [(usize, usize); 7] = [
    (33, 120),
    (64, 200),
    (65, 220),
    (4096, 12800),
    (4097, 12820),
    (65536, 204800),
    (65537, 204820),
];

// One line has as many bytes as it has.
#[test]
fn a_long_line_is_read(rt: HostRuntime) -> Failing {
    let mut failing = Failing::new(rt.alloc());
    for (count, wanted) in &LONG {
        failing.check_number(*count, printed_length(rt.alloc(), *count) == Ok(*wanted));
    }
    failing
}

/// What stores leave that each move x2 on by 2, so many of them; or the number of the bad line.
fn left_by(alloc: Global, count: usize, text: &str) -> Result<String, AllocError> {
    let items = repeated(alloc, example(7, 2), count)?;
    if 1024 < text.len() {
        return Err(AllocError);
    }
    match run_on_state(&FewForms, alloc, &items, text) {
        Ok(out) => text_from(alloc, &out),
        Err(StateErr::StateBad { line }) => format!(in alloc; "bad line {line}"),
        Err(StateErr::NoMemory) => Err(AllocError),
    }
}

/// States with what five stores leave.
const RUNS: [(&str, &str); 2] = [
    (
        "x1 = 0x3412\nx2 = 0xfffffffffffffffe\n",
        "x1 = 0x0000000000003412\nx2 = 0x0000000000000008\nmem 0x0000000000000000 = 1234123412341234\nmem 0xfffffffffffffffe = 1234\n",
    ),
    ("x1 = 0x1\nx2 = 1\n", "bad line 2"),
];

/// Numbers of stores, each with the length of what they leave.
const LENGTHS: [(usize, usize); 7] = [
    (32, 280),
    (48, 396),
    (64, 512),
    (72, 570),
    (256, 1904),
    (4096, 29744),
    (40000, 290048),
];

// Lists of any length are run: of 5 stores the text, and of more the length that it has.
#[test]
fn a_list_is_run_on_the_state_of_a_text(rt: HostRuntime) -> Failing {
    let mut failing = Failing::new(rt.alloc());
    for (text, wanted) in &RUNS {
        failing.compare(text, left_by(rt.alloc(), 5, text), wanted);
    }
    for (count, wanted) in &LENGTHS {
        let found = left_by(rt.alloc(), *count, "x1 = 0x3412\n");
        failing.check_number(*count, found.map(|text| text.len()) == Ok(*wanted));
    }
    failing
}
