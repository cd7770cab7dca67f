//! The second pass of a loop's body of two items, worked out by hand.
ghost use Rattle.std.specs.Prelude.{◌≡◌, ◌≤◌, length, IfOk};

use crate::lines::{Line, general, items_of};
use crate::problems::{NONE, are_known, have_units};
use issue_cost::{CostRow, Costs, NoMemory};
use legal_space::{Choice, Problem, Times, frame_of, loop_times_of};
use sample_set::{Failing, FewForms};
use std::alloc::Global;

/// The first item adds to a register that it reads, and is ready after 4 cycles.
const ADDS: CostRow = CostRow {
    class: 0,
    units: 1,
    busy: 1,
    latency: 4,
    writeback: 1,
    back: None,
};

/// The second item keeps a unit of its own for 3 cycles.
const KEEPS: CostRow = CostRow {
    class: 1,
    units: 2,
    busy: 3,
    latency: 4,
    writeback: 1,
    back: None,
};

/// The body: one item adds to register 1, and the other writes register 3.
fn body(alloc: Global, width: u8) -> Result<Problem, NoMemory>
    requires least { 1 ≤ width }
    requires most { width ≤ 8 }
    ensures { IfOk result (λ problem. length problem.graph.items ≡ 2) }
{
    let items = items_of(alloc, &[Line::Sum(1, 1, 2), Line::Sum(3, 2, 2)])?;
    let costs = Costs::new(alloc, width, &[ADDS, KEEPS], &[])?;
    let frame = frame_of(alloc, &items, Some(NONE), NONE)?;
    Problem::straight(&FewForms, alloc, &items, frame, &costs)
}

/// A name, the width, two choices by item, unit and register, how many of them there are, their
/// cycles in the second pass, and how many cycles and stalls that has.
type Case = (
    &'static str,
    u8,
    [(u16, u8, u16); 2],
    usize,
    [u32; 2],
    (u32, u32),
);

const CASES: [Case; 6] = [
    ("nothing", 1, [(0, 0, 1), (1, 1, 3)], 0, [0, 0], (0, 0)),
    (
        "a sum alone waits for itself",
        1,
        [(0, 0, 1), (1, 1, 3)],
        1,
        [3, 0],
        (4, 3),
    ),
    (
        "one item in a cycle",
        1,
        [(0, 0, 1), (1, 1, 3)],
        2,
        [2, 3],
        (4, 2),
    ),
    (
        "two items in a cycle",
        2,
        [(0, 0, 1), (1, 1, 3)],
        2,
        [3, 3],
        (4, 3),
    ),
    (
        "a unit that the first pass keeps",
        2,
        [(1, 1, 3), (0, 0, 1)],
        2,
        [2, 3],
        (4, 3),
    ),
    (
        "a sum that goes elsewhere",
        2,
        [(0, 0, 5), (1, 1, 3)],
        2,
        [0, 2],
        (3, 2),
    ),
];

/// The times of the second pass of a case.
fn times_in(alloc: Global, case: &Case) -> Result<Times, NoMemory> {
    let (_, width, choices, count, _, _) = *case;
    if width < 1 || 8 < width || 2 < count {
        return Err(NoMemory);
    }
    let problem = body(alloc, width)?;
    let schedule = choices.map(|(item, unit, out)| Choice {
        item,
        unit,
        outs: [Some(general(out)), None, None],
    });
    let schedule = &schedule[..count];
    if !are_known(schedule, 2) || !have_units(schedule) {
        return Err(NoMemory);
    }
    loop_times_of(alloc, &problem, schedule)
}

/// Does a case have its times?
fn is_right(alloc: Global, case: &Case) -> bool {
    let (_, _, _, count, cycles, counts) = *case;
    if 2 < count {
        return false;
    }
    let Ok(times) = times_in(alloc, case) else {
        return false;
    };
    times.cycles.as_slice() == &cycles[..count] && (times.count, times.stalls) == counts
}

#[test]
fn an_item_waits_for_what_the_first_pass_left(rt: HostRuntime) -> Failing {
    let mut failing = Failing::new(rt.alloc());
    for case in &CASES {
        failing.check(case.0, is_right(rt.alloc(), case));
    }
    failing
}
