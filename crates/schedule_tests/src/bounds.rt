//! Bounds of lists of choices, worked out by hand.
ghost use Rattle.std.specs.Prelude.{◌≡◌, ◌≤◌, length};
ghost use Rattle.stall_bound.specs.Prepared.{heights_of};

use crate::lines::{Line, items_of};
use crate::problems::{are_known, have_units};
use dataflow::Graph;
use issue_cost::{CostRow, Costs, Forward, NoMemory};
use legal_space::{Choice, Problem};
use sample_set::{Failing, FewForms};
use sl_model::register::RegSet;
use stall_bound::{Bounds, stalls_of};
use std::alloc::Global;

/// A name, items with their units, how many of these are chosen, and the bound.
type Case = (&'static str, [(u16, u8); 4], usize, u32);

/// An item of a load, on unit 0, whose result is ready after 3 cycles.
const LOAD: CostRow = CostRow {
    class: 1,
    units: 1,
    busy: 1,
    latency: 3,
    writeback: 1,
    back: None,
};

/// An item of a sum, on unit 1, whose result is ready in the next cycle.
const SUM: CostRow = CostRow {
    class: 0,
    units: 2,
    busy: 1,
    latency: 1,
    writeback: 1,
    back: None,
};

/// A load that comes sooner at the second operand of a sum.
const FORWARD: Forward = Forward {
    from: 1,
    to: 0,
    operand: 1,
    latency: 2,
};

/// A problem of instructions, with their costs.
fn problem_of(alloc: Global, lines: &[Line], costs: &Costs) -> Result<Problem, NoMemory>
    requires few { length lines.now ≤ 64 }
    requires rows { length costs.now.rows ≡ length lines.now }
{
    let items = items_of(alloc, lines)?;
    let graph = Graph::build(&FewForms, alloc, &items)?;
    let allowed = vec![in alloc; RegSet { bits: 0 }; items.len()]?;
    Problem::new(alloc, &graph, &[], &allowed, costs, false)
}

/// The bound of choices of which the last is told as one more.
fn bound_with_last(bounds: &Bounds, problem: &Problem, choices: &[Choice]) -> Option<u32>
    requires started { bounds.now.heights ≡ heights_of problem.now }
    requires few { length choices.now ≤ 4 }
{
    let (last, before) = choices.split_last()?;
    let count = problem.len();
    if !are_known(before, count) || !have_units(before) {
        return None;
    }
    if count <= usize::from(last.item) || 16 <= last.unit {
        return None;
    }
    Some(bounds.bound_with(problem, before, last))
}

/// Have choices a bound, told at once and with the last as one more? Where no item is left, the
/// bound is the stalls.
fn have_bound(bounds: &Bounds, problem: &Problem, choices: &[Choice], wanted: u32) -> bool
    requires started { bounds.now.heights ≡ heights_of problem.now }
    requires few { length choices.now ≤ 4 }
{
    let count = problem.len();
    if !are_known(choices, count) || !have_units(choices) {
        return false;
    }
    let stalls = stalls_of(problem, choices);
    let more = bound_with_last(bounds, problem, choices);
    bounds.bound(problem, choices) == wanted
        && more.unwrap_or(wanted) == wanted
        && more.is_none() == choices.is_empty()
        && (choices.len() < count || stalls == wanted)
}

/// Notes the cases of a problem that have other bounds.
fn check_bounds(
    alloc: Global,
    problem: &Problem,
    cases: &[Case],
    failing: &mut Failing,
) -> Result<(), NoMemory> {
    let mut bounds = Bounds::with_room(alloc, problem.len())?;
    bounds.start(problem);
    for (name, chosen, count, wanted) in cases {
        let choices = chosen.map(|(item, unit)| Choice {
            item,
            unit,
            outs: [None; 3],
        });
        if 4 < *count {
            continue;
        }
        let told = have_bound(&bounds, problem, &choices[..*count], *wanted);
        failing.check(name, told);
    }
    Ok(())
}

/// Two loads, each with a sum that reads it, one item in a cycle.
const LOADS: [Line; 4] = [
    Line::Load(1, 0, 0, None),
    Line::Sum(2, 1, 3),
    Line::Load(4, 0, 8, None),
    Line::Sum(5, 4, 3),
];

/// The other sum comes no sooner than in the fifth cycle behind a load at first.
const LOADS_BOUNDS: [Case; 9] = [
    ("loads: none", [(0, 0); 4], 0, 0),
    ("loads: the first load", [(0, 0); 4], 1, 1),
    ("loads: the second load", [(2, 0); 4], 1, 1),
    (
        "loads: a load and its sum",
        [(0, 0), (1, 1), (0, 0), (0, 0)],
        2,
        4,
    ),
    ("loads: both", [(0, 0), (2, 0), (0, 0), (0, 0)], 2, 1),
    (
        "loads: both and a sum",
        [(0, 0), (2, 0), (1, 1), (0, 0)],
        3,
        1,
    ),
    (
        "loads: both and the other sum",
        [(0, 0), (2, 0), (3, 1), (0, 0)],
        3,
        2,
    ),
    ("loads: all", [(0, 0), (2, 0), (1, 1), (3, 1)], 4, 1),
    (
        "loads: a sum before its load",
        [(1, 1), (0, 0), (0, 0), (0, 0)],
        2,
        5,
    ),
];

#[test]
fn loads_have_their_bounds(rt: HostRuntime) -> Result<Failing, NoMemory> {
    let alloc = rt.alloc();
    let mut failing = Failing::new(alloc);
    let costs = Costs::new(alloc, 1, &[LOAD, SUM, LOAD, SUM], &[])?;
    let problem = problem_of(alloc, &LOADS, &costs)?;
    check_bounds(alloc, &problem, &LOADS_BOUNDS, &mut failing)?;
    Ok(failing)
}

/// The first sum waits three cycles for the load at its first operand, or two at its second.
const OPERANDS: [Line; 3] = [
    Line::Load(1, 0, 0, None),
    Line::Sum(2, 1, 3),
    Line::Sum(3, 2, 1),
];

const OPERANDS_BOUNDS: [Case; 3] = [
    ("operands: none", [(0, 0); 4], 0, 2),
    ("operands: the load", [(0, 0); 4], 1, 2),
    ("operands: all", [(0, 0), (1, 1), (2, 1), (0, 0)], 3, 2),
];

/// With the load at the second operand of both sums.
const FORWARDED: [Line; 3] = [
    Line::Load(1, 0, 0, None),
    Line::Sum(2, 3, 1),
    Line::Sum(3, 2, 1),
];

const FORWARDED_BOUNDS: [Case; 3] = [
    ("forwarded: none", [(0, 0); 4], 0, 1),
    ("forwarded: the load", [(0, 0); 4], 1, 1),
    ("forwarded: all", [(0, 0), (1, 1), (2, 1), (0, 0)], 3, 1),
];

#[test]
fn heights_go_by_the_latency_to_each_operand(rt: HostRuntime) -> Result<Failing, NoMemory> {
    let alloc = rt.alloc();
    let mut failing = Failing::new(alloc);
    let costs = Costs::new(alloc, 1, &[LOAD, SUM, SUM], &[FORWARD])?;
    let problem = problem_of(alloc, &OPERANDS, &costs)?;
    check_bounds(alloc, &problem, &OPERANDS_BOUNDS, &mut failing)?;
    let problem = problem_of(alloc, &FORWARDED, &costs)?;
    check_bounds(alloc, &problem, &FORWARDED_BOUNDS, &mut failing)?;
    Ok(failing)
}

/// Sums that read none of each other, two in a cycle.
const APART: [Line; 3] = [Line::Sum(1, 0, 0), Line::Sum(2, 0, 0), Line::Sum(3, 0, 0)];

/// On one unit each takes a cycle of its own; the room beside it is then filled by what is left.
const APART_BOUNDS: [Case; 5] = [
    ("apart: none", [(0, 0); 4], 0, 0),
    ("apart: one", [(0, 1); 4], 1, 0),
    ("apart: two", [(0, 1), (1, 1), (0, 0), (0, 0)], 2, 0),
    (
        "apart: three on a unit",
        [(0, 1), (1, 1), (2, 1), (0, 0)],
        3,
        1,
    ),
    (
        "apart: three on two units",
        [(0, 1), (1, 0), (2, 1), (0, 0)],
        3,
        0,
    ),
];

#[test]
fn slots_that_are_left_are_filled(rt: HostRuntime) -> Result<Failing, NoMemory> {
    let alloc = rt.alloc();
    let mut failing = Failing::new(alloc);
    let costs = Costs::new(alloc, 2, &[SUM, SUM, SUM], &[])?;
    let problem = problem_of(alloc, &APART, &costs)?;
    check_bounds(alloc, &problem, &APART_BOUNDS, &mut failing)?;
    Ok(failing)
}

#[test]
fn no_items_have_no_stalls(rt: HostRuntime) -> Result<Failing, NoMemory> {
    let alloc = rt.alloc();
    let mut failing = Failing::new(alloc);
    let costs = Costs::new(alloc, 1, &[], &[])?;
    let problem = problem_of(alloc, &[], &costs)?;
    check_bounds(
        alloc,
        &problem,
        &[("no items", [(0, 0); 4], 0, 0)],
        &mut failing,
    )?;
    Ok(failing)
}
