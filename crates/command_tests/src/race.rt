//! The command with several workers.
use crate::calls::{NONE, answer_past, answer_to};
use crate::cores::{ON_SOLO, TWO_LOADS};
use sample_set::cores::{DUO, SOLO};
use sample_set::{Failing, Meeting};
use std::alloc::{AllocError, Global};
use std::thread::Threads;

/// A region whose registers are chosen.
const NAMED: &str =
    "slothy_start:\n        ldr x<a>, [x0]\n        add x<b>, x<a>, x1\n        mul x2, x<b>, x3\n        add x4, x2, x2\nslothy_end:\n";

/// Words, the texts of `k.s` and `s.txt`.
type Call = (&'static str, &'static str, &'static str);

/// Calls that are answered with one worker elsewhere: with schedules, none, and budgets that are spent.
const CALLS: [Call; 7] = [
    ("opt k.s --core s.txt", TWO_LOADS, SOLO),
    ("opt k.s --core s.txt", TWO_LOADS, DUO),
    ("opt k.s --core s.txt --budget 3", TWO_LOADS, SOLO),
    ("opt k.s --core s.txt --max-stalls 0", TWO_LOADS, SOLO),
    ("opt k.s --core s.txt --free x6,x7", NAMED, SOLO),
    ("demo --core s.txt --key 833911 --count 20", "", SOLO),
    (
        "demo --core s.txt --key 616799 --count 8 --budget 7",
        "",
        DUO,
    ),
];

/// How many workers are tried.
const WORKERS: [u32; 4] = [1, 2, 7, 64];

/// Words, with a number of workers.
fn with_workers(alloc: Global, words: &str, workers: u32) -> Result<String, AllocError> {
    format!(in alloc; "{words} --workers {workers}")
}

/// Notes the words of a call whose answer isn't the same with some number of workers as where none is
/// said.
fn compare_workers<R: Threads + Sync>(
    rt: &R,
    alloc: Global,
    failing: &mut Failing,
    call: Call,
) -> Result<(), AllocError> {
    let (words, input, state) = call;
    let (input, state) = (input.as_bytes(), state.as_bytes());
    let wanted = answer_to(rt, alloc, words, input, state, NONE)?;
    for workers in WORKERS {
        let words = with_workers(alloc, words, workers)?;
        let found = answer_to(rt, alloc, &words, input, state, NONE);
        failing.compare(&words, found, &wanted);
    }
    Ok(())
}

#[test]
fn the_answer_is_the_same_with_any_number_of_workers(
    rt: HostRuntime,
) -> Result<Failing, AllocError> {
    let mut failing = Failing::new(rt.alloc());
    for call in CALLS {
        compare_workers(&rt, rt.alloc(), &mut failing, call)?;
    }
    Ok(failing)
}

#[test]
fn two_workers_of_the_command_meet(rt: HostRuntime) -> Result<Failing, AllocError> {
    let mut failing = Failing::new(rt.alloc());
    let gate = Meeting::new();
    let (input, state) = (ON_SOLO.input.as_bytes(), ON_SOLO.state.as_bytes());
    let wanted = answer_to(&rt, rt.alloc(), ON_SOLO.words, input, state, NONE)?;
    let words = with_workers(rt.alloc(), ON_SOLO.words, 2)?;
    let found = answer_past(&rt, rt.alloc(), &words, input, state, NONE, &gate);
    failing.compare(&words, found, &wanted);
    failing.check("they meet", gate.have_met());
    Ok(failing)
}
