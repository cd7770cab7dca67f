//! The best schedules of small regions: as they were worked out by hand, and beside all legal
//! schedules of a region, with any registers.

use crate::chains::are_sound;
use crate::lines::{Line, general, items_of};
use crate::problems::{ROW, are_known, have_units};
use bnb_solver::{Solution, StraightForest, solve};
use issue_cost::{CostRow, Costs, NoMemory};
use legal_space::{Choice, Problem, Times, first_broken, frame_of, times_of};
use sample_set::{Failing, FewForms};
use sl_base::NoGate;
use sl_model::register::{Bank, Reg, RegSet};
use std::alloc::{AllocError, Global};
use std::thread::Threads;

/// A region of at most 4 items: its lines, the registers that live on, where they aren't all that it
/// writes, and those that are free, by their bits; and a core, with a row that is every item's.
#[derive(Clone, Copy)]
struct Region {
    lines: &'static [Line],
    live: Option<u128>,
    free: u128,
    width: u8,
    row: CostRow,
}

/// Two items in a chain.
const CHAIN: Region = Region {
    lines: &[Line::Sum(1, 0, 0), Line::Sum(2, 1, 1)],
    live: None,
    free: 0,
    width: 1,
    row: ROW,
};

/// No item.
const EMPTY: Region = Region {
    lines: &[],
    ..CHAIN
};

/// A chain, and an item beside it.
const BESIDE: Region = Region {
    lines: &[Line::Sum(1, 0, 0), Line::Sum(2, 1, 1), Line::Sum(3, 0, 0)],
    ..CHAIN
};

/// Two chains through one register.
const AGAIN: Region = Region {
    lines: &[
        Line::Sum(1, 0, 0),
        Line::Sum(2, 1, 1),
        Line::Sum(1, 3, 3),
        Line::Sum(4, 1, 1),
    ],
    live: Some(0b1_0100),
    free: 0b10_0000,
    ..CHAIN
};

/// Two items that write the flags.
const FLAGS: Region = Region {
    lines: &[Line::Subs(1, 0, 1), Line::Sum(2, 1, 1), Line::Subs(3, 4, 1)],
    ..CHAIN
};

/// A store between two loads, which may touch what it stores.
const STORE: Region = Region {
    lines: &[
        Line::Load(1, 0, 0, None),
        Line::Store(1, 2, 4, None),
        Line::Load(3, 0, 2, None),
        Line::Sum(4, 3, 3),
    ],
    live: Some(0b1_0100),
    ..CHAIN
};

/// The same, where it can't.
const APART: Region = Region {
    lines: &[
        Line::Load(1, 0, 0, Some(1)),
        Line::Store(1, 2, 4, Some(2)),
        Line::Load(3, 0, 2, Some(1)),
        Line::Sum(4, 3, 3),
    ],
    ..STORE
};

/// A sum of two sums, on two units and with two items in a cycle.
const PAIR: Region = Region {
    lines: &[Line::Sum(1, 0, 0), Line::Sum(2, 0, 0), Line::Sum(3, 1, 2)],
    width: 2,
    row: CostRow { units: 3, ..ROW },
    ..CHAIN
};

/// The problem of a region; where its core is none, an error.
fn problem_of(alloc: Global, region: &Region) -> Result<Problem, NoMemory> {
    let items = items_of(alloc, region.lines)?;
    let rows = vec![in alloc; region.row; items.len()]?;
    if 64 < items.len() || !are_sound(&rows) || region.width < 1 || 8 < region.width {
        return Err(NoMemory);
    }
    let costs = Costs::new(alloc, region.width, &rows, &[])?;
    let live = region.live.map(|bits| RegSet { bits });
    let frame = frame_of(alloc, &items, live, RegSet { bits: region.free })?;
    Problem::straight(&FewForms, alloc, &items, frame, &costs)
}

/// When the choices of a schedule are issued; where one is none, an error.
fn times_of_all(alloc: Global, problem: &Problem, schedule: &[Choice]) -> Result<Times, NoMemory> {
    if 64 < schedule.len() || !are_known(schedule, problem.len()) || !have_units(schedule) {
        return Err(NoMemory);
    }
    times_of(alloc, problem, schedule)
}

// ---- worked out by hand

/// Adds the registers of outputs, the flags by their name.
fn push_regs(text: &mut String, outs: &[Option<Reg>]) -> Result<(), AllocError> {
    for out in outs {
        let Some(reg) = out else {
            continue;
        };
        match reg.bank {
            Bank::General => write!(text, " x{}", reg.number)?,
            _ => text.push_str(" flags")?,
        }
    }
    Ok(())
}

/// Adds a choice and its cycle: the item, the unit, the registers of the outputs.
fn push_choice(text: &mut String, choice: &Choice, cycle: u32) -> Result<(), AllocError> {
    write!(text, "{}/{}", choice.item, choice.unit)?;
    push_regs(text, &choice.outs)?;
    write!(text, " at {cycle}, ")
}

/// The trees of a region, of each of which as many lists are looked at as the budget.
fn forest_of(alloc: Global, region: &Region, budget: u64) -> Result<StraightForest, NoMemory> {
    let problem = problem_of(alloc, region)?;
    StraightForest::new(alloc, problem, budget).map_err(|_| NoMemory)
}

/// A schedule as a text.
fn schedule_text(
    alloc: Global,
    problem: &Problem,
    schedule: &[Choice],
) -> Result<String, NoMemory> {
    let times = times_of_all(alloc, problem, schedule)?;
    let mut text = String::new(alloc);
    for (choice, cycle) in schedule.iter().zip(&times.cycles) {
        push_choice(&mut text, choice, *cycle)?;
    }
    write!(text, "cycles {}, stalls {}", times.count, times.stalls)?;
    Ok(text)
}

/// The verdict of a region whose schedules may have at most so many stalls, by so many workers, as a
/// text.
fn shown<R: Threads + Sync>(
    rt: &R,
    alloc: Global,
    region: &Region,
    most: u32,
    budget: u64,
    workers: u32,
) -> Result<String, NoMemory> {
    let forest = forest_of(alloc, region, budget)?;
    match solve(rt, alloc, &forest, most, workers, &NoGate)? {
        Solution::Found { schedule, .. } => schedule_text(alloc, forest.problem(), &schedule),
        Solution::Spent { level, tree } => {
            let mut text = String::new(alloc);
            write!(text, "spent at level {level} in tree {tree}")?;
            Ok(text)
        }
        Solution::Infeasible => Ok(String::from_str(alloc, "none").map_err(AllocError::from)?),
    }
}

/// A budget that is never spent here.
const AMPLE: u64 = 1000000;

/// How many workers find the same.
const WORKERS: [u32; 5] = [0, 1, 2, 7, 64];

/// Notes a region whose verdict by some number of workers isn't the one that is wanted.
fn compare_all<R: Threads + Sync>(
    rt: &R,
    alloc: Global,
    failing: &mut Failing,
    case: Case,
    budget: u64,
) {
    let (name, region, most, wanted) = case;
    for workers in WORKERS {
        let found = shown(rt, alloc, &region, most, budget, workers).map_err(|_| AllocError);
        failing.compare(name, found, wanted);
    }
}

/// A name, a region, how many stalls its schedules may have, and the best of them.
type Case = (&'static str, Region, u32, &'static str);

const CASES: [Case; 10] = [
    ("no item", EMPTY, 0, "cycles 0, stalls 0"),
    ("a chain with no stall", CHAIN, 0, "none"),
    (
        "a chain with a stall",
        CHAIN,
        1,
        "0/0 x1 at 0, 1/0 x2 at 2, cycles 3, stalls 1",
    ),
    (
        "a chain with many",
        CHAIN,
        255,
        "0/0 x1 at 0, 1/0 x2 at 2, cycles 3, stalls 1",
    ),
    (
        "an item between",
        BESIDE,
        64,
        "0/0 x1 at 0, 2/0 x3 at 1, 1/0 x2 at 2, cycles 3, stalls 0",
    ),
    (
        "another register",
        AGAIN,
        64,
        "0/0 x1 at 0, 2/0 x4 at 1, 1/0 x2 at 2, 3/0 x4 at 3, cycles 4, stalls 0",
    ),
    (
        "the last flags",
        FLAGS,
        64,
        "0/0 x1 flags at 0, 2/0 x3 flags at 1, 1/0 x2 at 2, cycles 3, stalls 0",
    ),
    (
        "a store between loads",
        STORE,
        64,
        "0/0 x1 at 0, 1/0 x2 at 2, 2/0 x1 at 3, 3/0 x4 at 5, cycles 6, stalls 2",
    ),
    (
        "a store apart from loads",
        APART,
        64,
        "0/0 x1 at 0, 2/0 x3 at 1, 1/0 x2 at 2, 3/0 x4 at 3, cycles 4, stalls 0",
    ),
    (
        "two in a cycle",
        PAIR,
        64,
        "0/0 x1 at 0, 1/1 x2 at 0, 2/0 x3 at 2, cycles 3, stalls 1",
    ),
];

#[test]
fn the_best_schedule_is_found(rt: HostRuntime) -> Failing {
    let mut failing = Failing::new(rt.alloc());
    for case in CASES {
        compare_all(&rt, rt.alloc(), &mut failing, case, AMPLE);
    }
    failing
}

/// A name, a region, a budget, and the verdict.
type BudgetCase = (&'static str, Region, u64, &'static str);

const BUDGETS: [BudgetCase; 6] = [
    ("no item, one list", EMPTY, 1, "cycles 0, stalls 0"),
    ("no item, no list", EMPTY, 0, "spent at level 0 in tree 0"),
    (
        "a chain, as many lists as it has",
        CHAIN,
        2,
        "0/0 x1 at 0, 1/0 x2 at 2, cycles 3, stalls 1",
    ),
    (
        "a chain, one list too few",
        CHAIN,
        1,
        "spent at level 1 in tree 0",
    ),
    (
        "an item between, as many lists as it has",
        BESIDE,
        3,
        "0/0 x1 at 0, 2/0 x3 at 1, 1/0 x2 at 2, cycles 3, stalls 0",
    ),
    (
        "an item between, one list too few",
        BESIDE,
        2,
        "spent at level 0 in tree 0",
    ),
];

#[test]
fn a_budget_is_spent_where_it_ends(rt: HostRuntime) -> Failing {
    let mut failing = Failing::new(rt.alloc());
    for (name, region, budget, wanted) in BUDGETS {
        let case = (name, region, 64, wanted);
        compare_all(&rt, rt.alloc(), &mut failing, case, budget);
    }
    failing
}

// ---- beside all legal schedules

/// The registers that the regions name, and the flags.
fn regs() -> [Reg; 7] {
    let flags = Reg {
        bank: Bank::Flags,
        symbolic: false,
        number: 0,
    };
    [
        general(0),
        general(1),
        general(2),
        general(3),
        general(4),
        general(5),
        flags,
    ]
}

/// Puts an item on a unit behind others, with each list of registers of so many outputs, of which it
/// has one or two.
fn push_choices(
    every: &mut Vec<Choice>,
    item: u16,
    unit: u8,
    outputs: usize,
) -> Result<(), AllocError> {
    let regs = regs();
    for first in &regs {
        if outputs < 2 {
            every.push(Choice {
                item,
                unit,
                outs: [Some(*first), None, None],
            })?;
            continue;
        }
        for second in &regs {
            every.push(Choice {
                item,
                unit,
                outs: [Some(*first), Some(*second), None],
            })?;
        }
    }
    Ok(())
}

/// How many outputs there are.
fn count_of(outs: &[Option<Reg>]) -> usize {
    outs.iter().filter(|out| out.is_some()).count()
}

/// Each item on each of three units, with any registers.
fn every_choice(alloc: Global, problem: &Problem) -> Result<Vec<Choice>, AllocError> {
    let mut every = Vec::new(alloc);
    for item in 0..problem.len() as u16 {
        let outputs = count_of(&problem.item(item).outs);
        for unit in 0..3 {
            push_choices(&mut every, item, unit, outputs)?;
        }
    }
    Ok(every)
}

/// Each legal list with one choice more than these.
fn longer(
    alloc: Global,
    problem: &Problem,
    every: &[Choice],
    lists: &[Vec<Choice>],
) -> Result<Vec<Vec<Choice>>, NoMemory> {
    let mut all = Vec::new(alloc);
    for done in lists {
        for choice in every {
            if usize::from(choice.item) >= problem.len() {
                continue;
            }
            if first_broken(problem, done, choice).is_some() {
                continue;
            }
            let mut list = Vec::from_slice(alloc, done).map_err(AllocError::from)?;
            list.push(*choice).map_err(AllocError::from)?;
            all.push(list).map_err(AllocError::from)?;
        }
    }
    Ok(all)
}

/// All full legal schedules, with any registers.
fn all_schedules(alloc: Global, problem: &Problem) -> Result<Vec<Vec<Choice>>, NoMemory> {
    let every = every_choice(alloc, problem)?;
    let mut lists = Vec::new(alloc);
    lists.push(Vec::new(alloc)).map_err(AllocError::from)?;
    for _ in 0..problem.len() {
        lists = longer(alloc, problem, &every, &lists)?;
    }
    Ok(lists)
}

/// Has no schedule fewer stalls than this, and has one as few?
fn are_fewest(
    alloc: Global,
    problem: &Problem,
    schedules: &[Vec<Choice>],
    stalls: u32,
) -> Result<bool, NoMemory> {
    let mut has_one = false;
    for schedule in schedules {
        let other = times_of_all(alloc, problem, schedule)?.stalls;
        if other < stalls {
            return Ok(false);
        }
        if other == stalls {
            has_one = true;
        }
    }
    Ok(has_one)
}

/// Has the best schedule of a region as few stalls as any legal one, with any registers?
fn is_fewest<R: Threads + Sync>(rt: &R, alloc: Global, region: &Region) -> Result<bool, NoMemory> {
    let forest = forest_of(alloc, region, AMPLE)?;
    let problem = forest.problem();
    let schedules = all_schedules(alloc, problem)?;
    let Solution::Found { schedule, .. } = solve(rt, alloc, &forest, 255, 1, &NoGate)? else {
        return Ok(false);
    };
    let stalls = times_of_all(alloc, problem, &schedule)?.stalls;
    are_fewest(alloc, problem, &schedules, stalls)
}

/// Regions with names.
const REGIONS: [(&str, Region); 7] = [
    ("a chain", CHAIN),
    ("an item between", BESIDE),
    ("another register", AGAIN),
    ("the last flags", FLAGS),
    ("a store between loads", STORE),
    ("a store apart from loads", APART),
    ("two in a cycle", PAIR),
];

#[test]
fn no_legal_schedule_has_fewer_stalls(rt: HostRuntime) -> Result<Failing, NoMemory> {
    let mut failing = Failing::new(rt.alloc());
    for (name, region) in &REGIONS {
        failing.check(name, is_fewest(&rt, rt.alloc(), region)?);
    }
    Ok(failing)
}
