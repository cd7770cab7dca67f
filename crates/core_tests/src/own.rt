//! Instructions as they stand, each on the unit of its class that issues it first.
ghost use Rattle.std.specs.Prelude.{◌≡◌, nat_lt};
ghost use Rattle.std.specs.List.{list_all};

use crate::instructions::items_of;
use arm64_table::Arm64;
use core_models::costs;
use core_text::{ArchName, Core, plain_core, read_core};
use legal_space::{Choice, Problem, frame_of, times_of};
use own_schedule::own_schedule;
use sample_set::Failing;
use sl_isa::Instr;
use sl_model::register::RegSet;
use std::alloc::{AllocError, Global};

/// Two units, of which sums try the second first.
const TURNED: &str = "\
name = 'turned'
arch = 'arm64'
width = 2
units = ['a', 'b']
[class]
alu = { units = ['b', 'a'], busy = 1, latency = 1 }
mul = { units = ['a'], busy = 3, latency = 4 }
";

/// The same units, which sums try in their order, with one instruction a cycle.
const SINGLE: &str = "\
name = 'single'
arch = 'arm64'
width = 1
units = ['a', 'b']
[class]
alu = { units = ['a', 'b'], busy = 1, latency = 1 }
mul = { units = ['a'], busy = 3, latency = 4 }
";

/// Three units in an order of their own, with three instructions a cycle.
const THREE: &str = "\
name = 'three'
arch = 'arm64'
width = 3
units = ['a', 'b', 'c']
[class]
alu = { units = ['c', 'a', 'b'], busy = 2, latency = 1 }
mul = { units = ['c'], busy = 5, latency = 4 }
alus = { units = ['a'], busy = 3, latency = 1 }
";

/// Products that keep their unit, and take what is added late.
const VECTOR: &str = "\
name = 'vector'
arch = 'arm64'
width = 1
units = ['va', 'vb', 'm']
[class]
vmul = { units = ['vb', 'va'], busy = 3, latency = 4 }
valu = { units = ['va', 'vb'], busy = 1, latency = 2 }
load = { units = ['m'], busy = 1, latency = 5, writeback = 2 }
[[forward]]
from = 'vmul'
to = 'vmul'
operand = 2
latency = 1
";

/// No instruction.
const NONE: &[&str] = &[];

/// Sums that read nothing of one another.
const SUMS: &[&str] = &["add x1, x0, x0", "add x2, x0, x0", "add x3, x0, x0"];

/// A product, and sums beside it.
const BESIDE: &[&str] = &[
    "mul x1, x0, x0",
    "add x2, x0, x0",
    "add x3, x0, x0",
    "add x4, x0, x0",
];

/// A product, and a sum that reads it.
const BEHIND: &[&str] = &["mul x1, x0, x0", "add x2, x1, x1"];

/// A product, a shift and sums.
const MIXED: &[&str] = &[
    "mul x1, x0, x0",
    "lsl x2, x0, #1",
    "add x3, x0, x0",
    "add x4, x0, x0",
    "add x5, x0, x0",
];

/// A product that is added to one above it.
const ADDED: &[&str] = &["mul v0.8h, v1.8h, v2.8h", "mla v0.8h, v3.8h, v4.8h"];

/// A product, and one of it.
const AGAIN: &[&str] = &["mul v0.8h, v1.8h, v2.8h", "mul v5.8h, v0.8h, v4.8h"];

/// Loads of one base, which the first moves on, and a sum of both.
const LOADS: &[&str] = &[
    "ldr q0, [x0], #16",
    "ldr q1, [x0]",
    "add v2.8h, v0.8h, v1.8h",
];

/// A name, a core table, the instructions of a region, and the unit of each with its cycle.
const REGIONS: [(&str, &str, &[&str], &str); 12] = [
    ("nothing", TURNED, NONE, ""),
    (
        "the first of the list among equals, the other where it is taken",
        TURNED,
        SUMS,
        "b@0 a@0 b@1",
    ),
    (
        "the list in the order of units",
        SINGLE,
        SUMS,
        "a@0 a@1 a@2",
    ),
    (
        "one of two units is busy",
        TURNED,
        BESIDE,
        "a@0 b@0 b@1 b@2",
    ),
    (
        "the first of the list again once both are free",
        SINGLE,
        BESIDE,
        "a@0 b@1 b@2 a@3",
    ),
    (
        "a unit that is free at the last counts as one that was free before",
        SINGLE,
        BEHIND,
        "a@0 a@4",
    ),
    (
        "the first of a turned list likewise",
        TURNED,
        BEHIND,
        "a@0 b@4",
    ),
    ("the last of a list", THREE, MIXED, "c@0 a@0 b@0 b@2 a@3"),
    ("units that stay busy", THREE, SUMS, "c@0 a@0 b@0"),
    (
        "what comes early goes to another unit",
        VECTOR,
        ADDED,
        "vb@0 va@1",
    ),
    (
        "what comes late goes to the first of the list",
        VECTOR,
        AGAIN,
        "vb@0 vb@4",
    ),
    (
        "a base is ready before what is loaded",
        VECTOR,
        LOADS,
        "m@0 m@2 va@7",
    ),
];

/// The core of a table.
fn core_of(alloc: Global, table: &str) -> Result<Core, AllocError> {
    match read_core(alloc, table.as_bytes(), ArchName::Arm64) {
        Ok(core) => Ok(core),
        Err(_) => Err(AllocError),
    }
}

/// The straight problem of at most 64 instructions on a core that has their classes.
fn problem_of(alloc: Global, core: &Core, texts: &[&str]) -> Result<Problem, AllocError> {
    let items = items_of(alloc, texts)?;
    if 64 < items.len() {
        return Err(AllocError);
    }
    let Ok(costs) = costs(alloc, core, &Arm64, &items) else {
        return Err(AllocError);
    };
    let Ok(frame) = frame_of(alloc, &items, None, RegSet { bits: 0 }) else {
        return Err(AllocError);
    };
    Problem::straight(&Arm64, alloc, &items, frame, &costs).map_err(|_| AllocError)
}

/// Is each choice of a unit that there may be?
fn have_units(schedule: &[Choice]) -> bool
    ensures { result ≡ list_all (λ c. nat_lt c.unit 16) schedule.now }
{
    schedule.iter().all(|choice| choice.unit < 16)
}

/// Is a choice of the item at a place, in its own registers?
fn is_own(choice: &Choice, place: usize, item: &Instr) -> bool {
    usize::from(choice.item) == place && choice.outs == item.outs
}

/// Does a schedule have the items as they stand, each in its own registers?
fn are_own(schedule: &[Choice], items: &[Instr]) -> bool {
    if schedule.len() != items.len() {
        return false;
    }
    for (place, (choice, item)) in schedule.iter().zip(items).enumerate() {
        if !is_own(choice, place, item) {
            return false;
        }
    }
    true
}

/// The unit and the cycle of each choice of a schedule.
fn text_of(
    alloc: Global,
    core: &Core,
    schedule: &[Choice],
    cycles: &[u32],
) -> Result<String, AllocError> {
    let mut text = String::new(alloc);
    for (choice, cycle) in schedule.iter().zip(cycles) {
        if core.unit_count() <= choice.unit {
            return String::from_str(alloc, "no unit");
        }
        if !text.is_empty() {
            text.push_str(" ")?;
        }
        write!(text, "{}@{cycle}", core.unit_name(choice.unit))?;
    }
    Ok(text)
}

/// What the instructions of a problem have as they stand, on the units of a core.
fn answer_to(alloc: Global, core: &Core, problem: &Problem) -> Result<String, AllocError> {
    let Ok(schedule) = own_schedule(alloc, core, problem) else {
        return Err(AllocError);
    };
    if 64 < schedule.len() || !have_units(&schedule) || !are_own(&schedule, problem.items()) {
        return String::from_str(alloc, "no schedule");
    }
    let times = times_of(alloc, problem, &schedule).map_err(|_| AllocError)?;
    text_of(alloc, core, &schedule, &times.cycles)
}

/// The same of instructions on the core of a table.
fn answer_on(alloc: Global, table: &str, texts: &[&str]) -> Result<String, AllocError> {
    let core = core_of(alloc, table)?;
    let problem = problem_of(alloc, &core, texts)?;
    answer_to(alloc, &core, &problem)
}

#[test]
fn items_go_to_the_unit_that_issues_them_first(rt: HostRuntime) -> Failing {
    let alloc = rt.alloc();
    let mut failing = Failing::new(alloc);
    for (name, table, texts, wanted) in &REGIONS {
        failing.compare(name, answer_on(alloc, table, texts), wanted);
    }
    failing
}

#[test]
fn what_has_no_entry_goes_to_the_first_unit(rt: HostRuntime) -> Result<Failing, AllocError> {
    let alloc = rt.alloc();
    let mut failing = Failing::new(alloc);
    let Ok(plain) = plain_core(alloc, ArchName::Arm64, 2) else {
        return Err(AllocError);
    };
    let problem = problem_of(alloc, &plain, ADDED)?;
    let core = core_of(alloc, TURNED)?;
    failing.compare("no entry", answer_to(alloc, &core, &problem), "a@0 a@2");
    failing.compare("one unit", answer_to(alloc, &plain, &problem), "u@0 u@2");
    Ok(failing)
}
