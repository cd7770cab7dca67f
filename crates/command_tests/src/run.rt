//! Runs from state files.
use crate::calls::{Faults, NONE, Usual, answer_to, compare, compare_usage, is_well, repeated};
use sample_set::Failing;
use std::alloc::{AllocError, Global};
use std::thread::Threads;

/// A run of a sum.
const RUN: Usual = Usual {
    words: "run k.s --state s.txt",
    input: "slothy_start:\n        add w1, w2, w3\nslothy_end:\n",
    state: "x1 = 0xffffffffffffffff\nx2 = 0xffffffff\nx3 = 0x2\n",
};

/// Runs with the states that they leave.
const RUNS: &str = "\
a sum|=|=|=|0|x1 = 0x0000000000000001
x2 = 0x00000000ffffffff
x3 = 0x0000000000000002
|~
no items|=|slothy_start:
slothy_end:
|x3 = 0x2
|0|x3 = 0x0000000000000002
|~
the greatest product|=|slothy_start:
        sqrdmulh v2.8h, v0.8h, v1.8h
slothy_end:
|v0 = 0x80008000800080008000800080008000
v1 = 0x80008000800080008000800080008000
|0|v0 = 0x80008000800080008000800080008000
v1 = 0x80008000800080008000800080008000
v2 = 0x7fff7fff7fff7fff7fff7fff7fff7fff
|~
a load behind the last address|=|slothy_start:
        ldr x1, [x0, #8]
slothy_end:
|x0 = 0xfffffffffffffff8
mem 0x0 = 0100000000000000
|0|x0 = 0xfffffffffffffff8
x1 = 0x0000000000000001
mem 0x0000000000000000 = 0100000000000000
|~
pairs|=|slothy_start:
        stp x1, x2, [x0], #-16
        ldp q3, q4, [x0, #16]!
slothy_end:
|x0 = 0x1000
x1 = 0x807060504030201
x2 = 0x9
|0|x0 = 0x0000000000001000
x1 = 0x0807060504030201
x2 = 0x0000000000000009
v3 = 0x00000000000000090807060504030201
v4 = 0x00000000000000000000000000000000
mem 0x0000000000001000 = 01020304050607080900000000000000
|~
flags and lines of all kinds|=|slothy_start: // the region
\tSUBS X4, X4, #0x1 ; adcs x5, x5, xzr

/* two
lines */ csel x6, x4, x5, HS
slothy_end:
|// a comment

x4 = 0x0
mem 0xffffffffffffffff = 2A
nzcv = 0000
|0|x4 = 0xffffffffffffffff
x5 = 0x0000000000000000
x6 = 0x0000000000000000
nzcv = 0100
mem 0xffffffffffffffff = 2a
|~
a butterfly|=|slothy_start:
        mul      v2.8h, v1.8h, v7.h[0]
        sqrdmulh v3.8h, v1.8h, v7.h[1]
        mls      v2.8h, v3.8h, v7.h[2]
        sub      v1.8h, v0.8h, v2.8h
        add      v0.8h, v0.8h, v2.8h
slothy_end:
|v0 = 0x0d00fc1803e8f9800680ffff00010000
v1 = 0x7fff007bf3000d00f980068000020001
v7 = 0x000000000000000000000d0100a70011
|0|v0 = 0x1148f74203f9f96f0008067700230011
v1 = 0x08b800ee03d7f9910cf8f987ffdfffef
v2 = 0x0448fb2a0011ffeff988067800220011
v3 = 0x00a70001ffef0011fff8000800000000
v7 = 0x000000000000000000000d0100a70011
|~
";

/// Words of a run.
const RIGHT_WORDS: &str = "\
a state|run k.s --state s.txt|=|=|0|x1 = 0x0000000000000001
x2 = 0x00000000ffffffff
x3 = 0x0000000000000002
|~
no turns|run k.s --state s.txt --turns 0|=|=|0|x1 = 0x0000000000000001
x2 = 0x00000000ffffffff
x3 = 0x0000000000000002
|~
turns before the state|run k.s --turns 10000000 --state s.txt|=|=|0|x1 = 0x0000000000000001
x2 = 0x00000000ffffffff
x3 = 0x0000000000000002
|~
";

/// Runs that are refused for the first fault of their files.
const REFUSALS: &str = "\
a bad region and a bad state|=|slothy_start:
        fadd v0.4s, v1.4s, v2.4s
slothy_end:
|x1 = 1
|3||slothy: k.s:2: refused: UnknownMnemonic
~
a bad region and no state|run k.s --state none.txt|slothy_start:
        mul v0.8h, v1.8h, v16.h[0]
slothy_end:
|=|3||slothy: k.s:2: refused: RegisterClass
~
no state|run k.s --state none.txt|=|=|5||slothy: read fault: none.txt
~
a bad line|=|=|x1 = 0x1
x2 = 1
|3||slothy: s.txt:2: refused: StateBad
~
a value twice|=|=|x1 = 0x1
x1 = 0x1
|3||slothy: s.txt:2: refused: StateBad
~
a register of a microcontroller|=|=|r0 = 0x1|3||slothy: s.txt:1: refused: StateBad
~
";

/// Words that are wrong.
const WRONG_WORDS: &str = "\
    run\n\
    run k.s\n\
    run k.s --state\n\
    run k.s --turns 5\n\
    run k.s --state s.txt --turns\n\
    run k.s --state s.txt --turns 10000001\n\
    run k.s --state s.txt --turns 05\n\
    run k.s --state s.txt --turns +5\n\
    run k.s --state s.txt --turns 99999999999999999999\n\
    run k.s --state s.txt --state s.txt\n\
    run k.s --turns 5 --turns 5\n\
    run k.s --state -\n\
    run k.s --state -s.txt\n\
    run k.s --state\x20\n\
    run k.s --core one:2\n\
    run k.s --state s.txt --core one:2\n\
    run --state s.txt k.s x\n\
    run k.s --state s.txt --live x1\n\
    cost k.s --state s.txt";

/// What the run of a sum answers from a state.
fn answer_on<R: Threads + Sync>(
    rt: &R,
    alloc: Global,
    state: &[u8],
    faults: Faults,
) -> Result<String, AllocError> {
    answer_to(rt, alloc, RUN.words, RUN.input.as_bytes(), state, faults)
}

#[test]
fn each_run_has_its_answer(rt: HostRuntime) -> Failing {
    let mut failing = Failing::new(rt.alloc());
    compare(&rt, rt.alloc(), &mut failing, RUN, RUNS);
    compare(&rt, rt.alloc(), &mut failing, RUN, RIGHT_WORDS);
    compare(&rt, rt.alloc(), &mut failing, RUN, REFUSALS);
    compare_usage(&rt, rt.alloc(), &mut failing, WRONG_WORDS);
    failing.compare(
        "no text",
        answer_on(&rt, rt.alloc(), b"x1\n\n\xff\n", NONE),
        "3||slothy: s.txt:3: refused: NotText\n",
    );
    failing
}

/// Calls on the files of which one fails, and whose fault it is: 0 to 2 are on the region's file, and 3 to 5 on the state's.
const READ_FAULTS: [(u64, &str); 6] = [
    (0, "5||slothy: read fault: k.s\n"),
    (1, "5||slothy: read fault: k.s\n"),
    (2, "5||slothy: read fault: k.s\n"),
    (3, "5||slothy: read fault: s.txt\n"),
    (4, "5||slothy: read fault: s.txt\n"),
    (5, "5||slothy: read fault: s.txt\n"),
];

#[test]
fn each_failing_call_is_a_read_fault_of_its_file(rt: HostRuntime) -> Failing {
    let mut failing = Failing::new(rt.alloc());
    for (call, wanted) in &READ_FAULTS {
        let faults = Faults {
            files: Some(*call),
            ..NONE
        };
        let found = answer_on(&rt, rt.alloc(), RUN.state.as_bytes(), faults);
        failing.compare(wanted, found, wanted);
    }
    let faults = Faults {
        files: Some(6),
        ..NONE
    };
    let found = answer_on(&rt, rt.alloc(), RUN.state.as_bytes(), faults);
    failing.check("no call fails", is_well(found));
    failing
}

/// What a region of nothing leaves of a state.
fn left_of<R: Threads + Sync>(rt: &R, alloc: Global, state: &str) -> Result<String, AllocError> {
    let nothing = b"slothy_start:\nslothy_end:\n";
    answer_to(rt, alloc, RUN.words, nothing, state.as_bytes(), NONE)
}

/// What a region of nothing leaves of so many blanks.
fn left_of_blanks<R: Threads + Sync>(
    rt: &R,
    alloc: Global,
    count: usize,
) -> Result<String, AllocError> {
    left_of(rt, alloc, repeated(alloc, "", " ", count, "")?.as_str())
}

#[test]
fn a_state_file_has_at_most_a_mebibyte(rt: HostRuntime) -> Failing {
    let mut failing = Failing::new(rt.alloc());
    failing.compare(
        "a mebibyte",
        left_of_blanks(&rt, rt.alloc(), 1048576),
        "0||",
    );
    failing.compare(
        "a byte more",
        left_of_blanks(&rt, rt.alloc(), 1048577),
        "9||slothy: s.txt:0: too large: file limit=1048576\n",
    );
    failing
}

/// A state as it is printed, of so many whole lines of memory.
fn long_state(alloc: Global, lines: u32) -> Result<String, AllocError> {
    let mut text = String::from_str(alloc, "x1 = 0x0000000000000000\nx2 = 0x0000000000000001\n")?;
    for number in 0..lines {
        write!(
            text,
            "mem 0x{number:015x}0 = 000102030405060708090a0b{number:08x}\n"
        )?;
    }
    Ok(text)
}

/// Is a state of so many lines printed as it was read?
fn is_kept<R: Threads + Sync>(rt: &R, alloc: Global, lines: u32) -> Result<bool, AllocError> {
    let state = long_state(alloc, lines)?;
    let found = left_of(rt, alloc, state.as_str())?;
    Ok(found.as_str() == format!(in alloc; "0|{state}|")?.as_str())
}

// With memory at hand a state of any length is read and printed.
#[test]
fn long_states_are_printed(rt: HostRuntime) -> Failing {
    let mut failing = Failing::new(rt.alloc());
    for lines in &[1, 4, 64, 256, 1200, 4096, 18000] {
        failing.check_number(
            *lines as usize,
            is_kept(&rt, rt.alloc(), *lines) == Ok(true),
        );
    }
    failing
}

/// Do so many items, each of which adds 1, leave their number?
fn is_counted<R: Threads + Sync>(rt: &R, alloc: Global, count: usize) -> Result<bool, AllocError> {
    let text = repeated(
        alloc,
        "slothy_start:\n",
        "        add x1, x1, x2\n",
        count,
        "slothy_end:\n",
    )?;
    let state = b"x1 = 0x0\nx2 = 0x1\n";
    let found = answer_to(rt, alloc, RUN.words, text.as_bytes(), state, NONE)?;
    let wanted = format!(in alloc; "0|x1 = 0x{count:016x}\nx2 = 0x0000000000000001\n|")?;
    Ok(found.as_str() == wanted.as_str())
}

// And so is what regions of any length leave.
#[test]
fn long_regions_are_run(rt: HostRuntime) -> Failing {
    let mut failing = Failing::new(rt.alloc());
    for count in &[0, 1, 8, 9, 31, 32, 33, 48, 49, 63, 64] {
        failing.check_number(*count, is_counted(&rt, rt.alloc(), *count) == Ok(true));
    }
    failing
}
