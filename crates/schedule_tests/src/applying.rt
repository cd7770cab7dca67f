//! A schedule as a list of instructions, worked out by hand.

use crate::lines::{Line, general, items_of};
use crate::problems::{NONE, ROW, are_known};
use issue_cost::{Costs, NoMemory};
use legal_space::{Choice, Problem, frame_of};
use renamer::apply;
use sample_set::{Failing, FewForms};
use std::alloc::Global;

/// An item with the register of its output.
type Chosen = (u16, u16);

fn choice((item, out): Chosen) -> Choice {
    Choice {
        item,
        unit: 0,
        outs: [Some(general(out)), None, None],
    }
}

/// Three items, a schedule of them, and the list that it is.
#[derive(Clone, Copy)]
struct Case {
    items: [Line; 3],
    schedule: [Chosen; 3],
    want: [Line; 3],
}

/// Two sums and the sum of both.
const SUM: Case = Case {
    items: [Line::Sum(1, 0, 0), Line::Sum(2, 0, 9), Line::Sum(1, 1, 2)],
    schedule: [(1, 5), (0, 6), (2, 7)],
    want: [Line::Sum(5, 0, 9), Line::Sum(6, 0, 0), Line::Sum(7, 6, 5)],
};

/// An item that moves a base on.
const WALK: Case = Case {
    items: [
        Line::Sum(3, 0, 0),
        Line::Store(8, 3, 4, Some(1)),
        Line::Sum(4, 3, 8),
    ],
    schedule: [(0, 5), (1, 5), (2, 7)],
    want: [
        Line::Sum(5, 0, 0),
        Line::Store(8, 5, 4, Some(1)),
        Line::Sum(7, 5, 8),
    ],
};

/// Where an item is chosen twice.
const TWICE: Case = Case {
    schedule: [(0, 5), (0, 6), (1, 6)],
    want: [
        Line::Sum(5, 0, 0),
        Line::Sum(6, 0, 0),
        Line::Store(8, 6, 4, Some(1)),
    ],
    ..WALK
};

/// Is the schedule of a case the list that it should be?
fn is_right(alloc: Global, case: &Case) -> Result<bool, NoMemory> {
    let items = items_of(alloc, &case.items)?;
    let costs = Costs::new(alloc, 1, &[ROW; 3], &[])?;
    let frame = frame_of(alloc, &items, None, NONE)?;
    let problem = Problem::straight(&FewForms, alloc, &items, frame, &costs)?;
    let schedule = case.schedule.map(choice);
    if !are_known(&schedule, 3) {
        return Ok(false);
    }
    let list = apply(alloc, &problem, &items, &schedule)?;
    let want = items_of(alloc, &case.want)?;
    Ok(list.as_slice() == want.as_slice())
}

#[test]
fn operands_follow_the_outputs_that_they_read(rt: HostRuntime) -> Failing {
    let alloc = rt.alloc();
    let mut failing = Failing::new(alloc);
    failing.check("another order", is_right(alloc, &SUM) == Ok(true));
    failing.check(
        "an output tied to an operand",
        is_right(alloc, &WALK) == Ok(true),
    );
    failing.check(
        "the last choice of an item",
        is_right(alloc, &TWICE) == Ok(true),
    );
    failing
}
