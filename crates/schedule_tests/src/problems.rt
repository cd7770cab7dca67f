//! A straight problem of three items, and the cycles of its orders.
ghost use Rattle.std.specs.Prelude.{◌≡◌, length, nat_lt, IfOk};
ghost use Rattle.std.specs.List.{list_all};

use crate::lines::{Line, general, items_of};
use issue_cost::{CostRow, Costs, NoMemory};
use legal_space::{Choice, Problem, Source, Times, frame_of, times_of, written};
use sample_set::{Failing, FewForms};
use sl_isa::register_in;
use sl_isa::sets::{regs_in, set_of};
use sl_model::register::{Bank, RegSet};
use std::alloc::Global;

/// A chain of three instructions.
const CHAIN: [Line; 3] = [Line::Sum(2, 1, 0), Line::Sum(3, 2, 1), Line::Sum(2, 3, 2)];

#[test]
fn a_chain_reads_what_stands_above(rt: HostRuntime) -> Result<Failing, NoMemory> {
    let alloc = rt.alloc();
    let mut failing = Failing::new(alloc);
    let items = items_of(alloc, &CHAIN)?;
    let outs = set_of(&written(alloc, &items)?);
    failing.check("what is written", outs.bits == 0b1100);
    let costs = Costs::new(alloc, 1, &[ROW; 3], &[])?;
    let live = [general(2), general(9)];
    let frame = frame_of(alloc, &items, Some(set_of(&live)), set_of(&[general(5)]))?;
    let problem = Problem::straight(&FewForms, alloc, &items, frame, &costs)?;
    failing.check("the items", problem.len() == 3);
    failing.check("the order", problem.order() == &[0, 1, 2][..]);
    let first = Source::Item { index: 0, place: 0 };
    let second = Source::Item { index: 1, place: 0 };
    let last = Source::Item { index: 2, place: 0 };
    let entry = Source::Entry(general(1));
    let finals = [(live[0], last), (live[1], Source::Entry(live[1]))];
    failing.check(
        "an item and an entry",
        problem.sources_of(1) == &[first, entry][..],
    );
    failing.check("two items", problem.sources_of(2) == &[second, first][..]);
    failing.check("the finals", problem.finals() == &finals[..]);
    failing.check("what is allowed", problem.allowed_for(1).bits == 0b10_1100);
    Ok(failing)
}

/// No register.
pub const NONE: RegSet = RegSet { bits: 0 };

/// A name, the live registers that are given, the free ones, and the live and the allowed ones.
type Framed = (&'static str, Option<u128>, u128, (u128, u128));

const FRAMED: [Framed; 4] = [
    ("nothing said", None, 0, (0b1100, 0b1100)),
    ("live registers", Some(0b100100), 0, (0b100100, 0b1100)),
    ("none live", Some(0), 0, (0, 0b1100)),
    ("free registers", None, 0b100100, (0b1100, 0b101100)),
];

/// Has the chain the frame that it should have?
fn is_framed(alloc: Global, case: &Framed) -> Result<bool, NoMemory> {
    let (_, live, free, want) = *case;
    let items = items_of(alloc, &CHAIN)?;
    let live = live.map(|bits| RegSet { bits });
    let frame = frame_of(alloc, &items, live, RegSet { bits: free })?;
    Ok((frame.live.bits, frame.allowed.bits) == want)
}

#[test]
fn what_is_written_is_live_unless_told_otherwise(rt: HostRuntime) -> Failing {
    let mut failing = Failing::new(rt.alloc());
    for case in &FRAMED {
        failing.check(case.0, is_framed(rt.alloc(), case) == Ok(true));
    }
    failing
}

/// The first and the last register of each bank.
const ENDS: [(Bank, u16); 6] = [
    (Bank::General, 0),
    (Bank::General, 31),
    (Bank::Vector, 0),
    (Bank::Vector, 31),
    (Bank::Flags, 0),
    (Bank::Stack, 0),
];

#[test]
fn the_registers_of_a_set_stand_in_their_order(rt: HostRuntime) -> Result<Failing, NoMemory> {
    let alloc = rt.alloc();
    let mut failing = Failing::new(alloc);
    let all = regs_in(alloc, RegSet { bits: u128::MAX })?;
    failing.check("all", all.len() == 66);
    let ends = regs_in(
        alloc,
        RegSet {
            bits: 0b11 << 64 | 1 << 63 | 0b11 << 31 | 1,
        },
    )?;
    let want = ENDS.map(|(bank, number)| register_in(bank, number));
    failing.check("the ends of the banks", ends.as_slice() == &want[..]);
    failing.check("none", regs_in(alloc, NONE)?.is_empty());
    Ok(failing)
}

/// An item whose result is ready after 2 cycles.
pub const ROW: CostRow = CostRow {
    class: 0,
    units: 1,
    busy: 1,
    latency: 2,
    writeback: 2,
    back: None,
};

/// Three items of a problem, of which the second reads the first.
fn three_items(alloc: Global) -> Result<Problem, NoMemory>
    ensures { IfOk result (λ problem. length problem.graph.items ≡ 3) }
{
    let items = items_of(
        alloc,
        &[Line::Sum(1, 0, 0), Line::Sum(2, 1, 1), Line::Sum(3, 0, 0)],
    )?;
    let costs = Costs::new(alloc, 1, &[ROW; 3], &[])?;
    let frame = frame_of(alloc, &items, Some(NONE), NONE)?;
    Problem::straight(&FewForms, alloc, &items, frame, &costs)
}

/// Is each choice of one of so many items?
pub fn are_known(schedule: &[Choice], count: usize) -> bool
    ensures { result ≡ list_all (λ c. nat_lt c.item count) schedule.now }
{
    schedule
        .iter()
        .all(|choice| usize::from(choice.item) < count)
}

/// Is each choice of a unit that there may be?
pub fn have_units(schedule: &[Choice]) -> bool
    ensures { result ≡ list_all (λ c. nat_lt c.unit 16) schedule.now }
{
    schedule.iter().all(|choice| choice.unit < 16)
}

/// The times of three items in an order.
fn times_in(alloc: Global, order: [u16; 3]) -> Result<Times, NoMemory> {
    let problem = three_items(alloc)?;
    let schedule = order.map(|item| Choice {
        item,
        unit: 0,
        outs: [None; 3],
    });
    if !are_known(&schedule, 3) || !have_units(&schedule) {
        return Err(NoMemory);
    }
    times_of(alloc, &problem, &schedule)
}

/// A name, an order, the cycles of its items, and how many cycles and stalls it has.
type Case = (&'static str, [u16; 3], [u32; 3], (u32, u32));

const CASES: [Case; 3] = [
    ("as they stand", [0, 1, 2], [0, 2, 3], (4, 1)),
    ("one between", [0, 2, 1], [0, 1, 2], (3, 0)),
    ("before its source", [1, 0, 2], [2, 3, 4], (5, 2)),
];

/// Does a case have its times?
fn is_right(alloc: Global, case: &Case) -> bool {
    let (_, order, cycles, counts) = *case;
    let Ok(times) = times_in(alloc, order) else {
        return false;
    };
    times.cycles.as_slice() == &cycles[..] && (times.count, times.stalls) == counts
}

#[test]
fn an_item_waits_for_what_was_issued_before(rt: HostRuntime) -> Failing {
    let mut failing = Failing::new(rt.alloc());
    for case in &CASES {
        failing.check(case.0, is_right(rt.alloc(), case));
    }
    failing
}
