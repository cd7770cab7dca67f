//! The cycles at which items are issued, on tables of two rows.
ghost use Rattle.std.specs.Prelude.{◌≡◌, ℕ, ◌+◌, ◌≤◌, ◌<◌, length, IfSome};

use issue_cost::{CostRow, Costs, Forward, Issue, NoMemory};
use sample_set::Failing;
use std::alloc::Global;

/// An item that is ready after 2 cycles.
const SHORT: CostRow = CostRow {
    class: 0,
    units: 3,
    busy: 1,
    latency: 2,
    writeback: 1,
    back: None,
};

/// An item that keeps its unit for 3 cycles and writes its base back at place 1.
const LONG: CostRow = CostRow {
    class: 1,
    units: 1,
    busy: 3,
    latency: 5,
    writeback: 4,
    back: Some(1),
};

const ROWS: [CostRow; 2] = [SHORT, LONG];

const FORWARDS: [Forward; 2] = [
    Forward {
        from: 1,
        to: 0,
        operand: 2,
        latency: 1,
    },
    Forward {
        from: 1,
        to: 0,
        operand: 1,
        latency: 3,
    },
];

/// Questions to costs: a name, the row and the place of a result, the row and the operand that it goes to, and after how many cycles it is ready.
const READY: [(&str, u16, u8, u16, u8, u32); 7] = [
    ("the latency", 0, 0, 1, 0, 2),
    ("no forward at this operand", 1, 0, 0, 0, 5),
    ("a later forward", 1, 0, 0, 1, 3),
    ("a forward", 1, 0, 0, 2, 1),
    ("no forward to this class", 1, 0, 1, 2, 5),
    ("a written-back base", 1, 1, 0, 2, 4),
    ("no base is written back", 0, 1, 0, 2, 2),
];

/// Notes the questions that costs of two rows answer otherwise.
fn check_ready(costs: &Costs, failing: &mut Failing)
    requires { length costs.now.rows ≡ 2 }
{
    for (name, from, place, to, operand, wanted) in &READY {
        if *from < 2 && *to < 2 {
            let cycles = costs.ready_after(*from, *place, *to, *operand);
            failing.check(name, cycles == *wanted);
        }
    }
}

#[test]
fn a_copy_answers_as_its_costs(rt: HostRuntime) -> Result<Failing, NoMemory> {
    let alloc = rt.alloc();
    let mut failing = Failing::new(alloc);
    let costs = Costs::new(alloc, 2, &ROWS, &FORWARDS)?.copy(alloc)?;
    failing.check("the width", costs.width() == 2);
    failing.check(
        "units of the first row",
        costs.units(0) == 3 && costs.busy(0) == 1,
    );
    failing.check(
        "units of the second row",
        costs.units(1) == 1 && costs.busy(1) == 3,
    );
    check_ready(&costs, &mut failing);
    Ok(failing)
}

/// Pushes an item, given by its number, its unit and when it is ready; gives its cycle, where that was foreseen.
fn pushed(issue: &mut Issue, costs: &Costs, item: (u16, u8, u32)) -> Option<u32>
    requires room { length issue.old.pushes < issue.old.room }
    requires rows { length costs.now.rows ≡ 2 }
    ensures len { IfSome result (λ _. length issue.new.pushes ≡ length issue.old.pushes + 1) }
    ensures room { issue.new.room ≡ issue.old.room }
    ensures pass { issue.new.pass ≡ issue.old.pass }
{
    let (item, unit, ready) = item;
    if 2 <= item || 16 <= unit || 100 <= ready {
        return None;
    }
    let foreseen = issue.cycle_for(costs, unit, ready);
    let cycle = issue.push(costs, item, unit, ready);
    if cycle != foreseen {
        return None;
    }
    Some(cycle)
}

/// The cycles of three items that are pushed one after the other, the last of them twice, where all is as foreseen.
fn cycles_of(alloc: Global, width: u8, items: [(u16, u8, u32); 3]) -> Option<[u32; 3]>
    requires least { 1 ≤ width }
    requires most { width ≤ 8 }
{
    let costs = Costs::new(alloc, width, &ROWS, &FORWARDS).ok()?;
    let mut issue = Issue::with_room(alloc, 3).ok()?;
    let first = pushed(&mut issue, &costs, items[0])?;
    let second = pushed(&mut issue, &costs, items[1])?;
    let undone = pushed(&mut issue, &costs, items[2])?;
    issue.pop();
    if issue.len() != 2 {
        return None;
    }
    let third = pushed(&mut issue, &costs, items[2])?;
    if third != undone || u64::from(issue.cycles()) != u64::from(third) + 1 {
        return None;
    }
    Some([first, second, third])
}

/// A name, the width, three items with their units and when they are ready, and their cycles.
type Case = (&'static str, u8, [(u16, u8, u32); 3], [u32; 3]);

const CASES: [Case; 5] = [
    (
        "a chain in a narrow core",
        1,
        [(0, 0, 0), (0, 0, 2), (0, 1, 0)],
        [0, 2, 3],
    ),
    (
        "two slots in a cycle",
        2,
        [(0, 0, 0), (0, 1, 0), (0, 0, 0)],
        [0, 0, 1],
    ),
    (
        "a unit that is kept",
        2,
        [(1, 0, 0), (0, 0, 0), (0, 1, 0)],
        [0, 3, 3],
    ),
    (
        "another unit",
        2,
        [(1, 0, 0), (0, 1, 0), (1, 0, 0)],
        [0, 0, 3],
    ),
    (
        "a later operand",
        3,
        [(0, 0, 7), (0, 1, 0), (0, 2, 9)],
        [7, 7, 9],
    ),
];

/// Does a case have its cycles?
fn is_right(alloc: Global, case: &Case) -> bool {
    let (_, width, items, wanted) = *case;
    1 <= width && width <= 8 && cycles_of(alloc, width, items) == Some(wanted)
}

#[test]
fn items_wait_for_slots_operands_and_units(rt: HostRuntime) -> Failing {
    let mut failing = Failing::new(rt.alloc());
    for case in &CASES {
        failing.check(case.0, is_right(rt.alloc(), case));
    }
    failing
}

/// The cycles of two items that are pushed in a second pass, behind two of the first one, and how many cycles all take.
fn second_cycles_of(
    alloc: Global,
    width: u8,
    first: [(u16, u8, u32); 2],
    second: [(u16, u8, u32); 2],
) -> Option<([u32; 2], u32)>
    requires least { 1 ≤ width }
    requires most { width ≤ 8 }
{
    let costs = Costs::new(alloc, width, &ROWS, &FORWARDS).ok()?;
    let mut issue = Issue::with_room(alloc, 4).ok()?;
    pushed(&mut issue, &costs, first[0])?;
    pushed(&mut issue, &costs, first[1])?;
    issue.pass_break();
    let early = pushed(&mut issue, &costs, second[0])?;
    let late = pushed(&mut issue, &costs, second[1])?;
    Some(([early, late], issue.cycles()))
}

/// A name, the width, two items of each pass with their units and when they are ready, the cycles of those of the second one, and how many cycles all take.
type PassCase = (
    &'static str,
    u8,
    [(u16, u8, u32); 2],
    [(u16, u8, u32); 2],
    ([u32; 2], u32),
);

const PASSES: [PassCase; 4] = [
    (
        "a unit that the first pass keeps",
        2,
        [(1, 0, 0), (0, 1, 0)],
        [(1, 0, 0), (0, 1, 0)],
        ([3, 3], 4),
    ),
    (
        "a slot beside the last item",
        2,
        [(0, 0, 0), (0, 1, 5)],
        [(0, 0, 0), (0, 1, 0)],
        ([6, 6], 7),
    ),
    (
        "a later operand",
        1,
        [(0, 0, 0), (0, 1, 0)],
        [(0, 0, 4), (0, 1, 0)],
        ([4, 5], 6),
    ),
    (
        "a full cycle",
        2,
        [(0, 0, 3), (0, 1, 3)],
        [(1, 1, 0), (0, 1, 2)],
        ([4, 7], 8),
    ),
];

/// Has a case the cycles of its second pass?
fn is_passed(alloc: Global, case: &PassCase) -> bool {
    let (_, width, first, second, wanted) = *case;
    1 <= width && width <= 8 && second_cycles_of(alloc, width, first, second) == Some(wanted)
}

#[test]
fn a_second_pass_begins_behind_the_first(rt: HostRuntime) -> Failing {
    let mut failing = Failing::new(rt.alloc());
    for case in &PASSES {
        failing.check(case.0, is_passed(rt.alloc(), case));
    }
    failing
}

/// The cycle of one more item on another unit: with a break behind nothing, and with that break undone.
fn cycles_from_nothing(alloc: Global) -> Option<[u32; 2]> {
    let costs = Costs::new(alloc, 2, &ROWS, &FORWARDS).ok()?;
    let mut issue = Issue::with_room(alloc, 2).ok()?;
    issue.pass_break();
    let behind = issue.cycle_for(&costs, 1, 0);
    issue.pop();
    pushed(&mut issue, &costs, (0, 0, 5))?;
    Some([behind, issue.cycle_for(&costs, 1, 0)])
}

#[test]
fn a_pass_of_nothing_takes_no_cycle(rt: HostRuntime) -> Failing {
    let mut failing = Failing::new(rt.alloc());
    failing.check(
        "from cycle 0 on, then beside an item",
        cycles_from_nothing(rt.alloc()) == Some([0, 5]),
    );
    failing
}

/// How many items there are, and the cycle of one more on another unit.
fn outlook(issue: &Issue, costs: &Costs) -> (usize, u32) {
    (issue.len(), issue.cycle_for(costs, 1, 0))
}

/// Undoes a push or a break, where there are so many pushes.
fn undo(issue: &mut Issue, pushes: usize) -> Option<()>
    requires { 0 < pushes }
{
    if issue.len() != pushes {
        return None;
    }
    issue.pop();
    Some(())
}

/// What is seen of an item, a break and an item, and as they are undone one after the other.
fn outlooks(alloc: Global) -> Option<[(usize, u32); 4]> {
    let costs = Costs::new(alloc, 2, &ROWS, &FORWARDS).ok()?;
    let mut issue = Issue::with_room(alloc, 2).ok()?;
    pushed(&mut issue, &costs, (0, 0, 5))?;
    issue.pass_break();
    pushed(&mut issue, &costs, (0, 0, 8))?;
    let whole = outlook(&issue, &costs);
    undo(&mut issue, 2)?;
    let broken = outlook(&issue, &costs);
    undo(&mut issue, 1)?;
    let unbroken = outlook(&issue, &costs);
    undo(&mut issue, 1)?;
    Some([whole, broken, unbroken, outlook(&issue, &costs)])
}

#[test]
fn a_push_a_break_and_a_push_are_undone_in_turn(rt: HostRuntime) -> Failing {
    let mut failing = Failing::new(rt.alloc());
    failing.check(
        "the last first",
        outlooks(rt.alloc()) == Some([(2, 8), (1, 6), (1, 5), (0, 0)]),
    );
    failing
}
