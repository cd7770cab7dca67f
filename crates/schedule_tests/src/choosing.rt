//! The choices that may come next: some that were worked out by hand, and all that there are, listed
//! by plain loops.
ghost use Rattle.std.specs.Prelude.{◌<◌, length};

use crate::lines::{Line, items_of};
use issue_cost::{CostRow, Costs, NoMemory};
use legal_space::{Choice, Problem, first_broken, frame_of};
use reduced_choice::{choice_before, is_reduced, next_choice};
use sample_set::{Failing, FewForms};
use sl_isa::sets::regs_in;
use sl_model::register::{Bank, Reg, RegSet};
use std::alloc::{AllocError, Global};

/// An item that the first and the third unit take.
const ON_TWO: CostRow = CostRow {
    class: 0,
    units: 0b101,
    busy: 1,
    latency: 2,
    writeback: 2,
    back: None,
};

/// Two lines, the registers that live on, if they aren't those that are written, and the free ones.
struct Case {
    name: &'static str,
    lines: [Line; 2],
    live: Option<u128>,
    free: u128,
    /// Is the last of the choices made at each step, rather than the first?
    last: bool,
    /// The choices that may come at each step, with item, unit and registers, and how many were made.
    steps: &'static str,
}

const CASES: [Case; 9] = [
    Case {
        name: "both are final",
        lines: [Line::Sum(3, 1, 2), Line::Sum(4, 1, 2)],
        live: None,
        free: 0b10_0000,
        last: false,
        steps: " 0/0:3 0/2:3 1/0:4 1/2:4; 1/0:4 1/2:4;; made 2",
    },
    Case {
        name: "the least register of a kind",
        lines: [Line::Sum(4, 1, 2), Line::Sum(5, 4, 4)],
        live: Some(0),
        free: 0b1000,
        last: false,
        steps: " 0/0:3 0/2:3; 1/0:3 1/2:3;; made 2",
    },
    Case {
        name: "an entry that is read no more",
        lines: [Line::Sum(4, 1, 1), Line::Sum(5, 4, 2)],
        live: Some(0),
        free: 0b110,
        last: true,
        steps: " 0/0:1 0/2:1; 1/0:1 1/2:1;; made 2",
    },
    Case {
        name: "an entry that is still read",
        lines: [Line::Sum(4, 2, 2), Line::Sum(5, 4, 1)],
        live: Some(0),
        free: 0b110,
        last: false,
        steps: " 0/0:2 0/2:2; 1/0:1 1/2:1;; made 2",
    },
    Case {
        name: "a final register is a kind of its own",
        lines: [Line::Sum(3, 1, 1), Line::Sum(2, 3, 3)],
        live: Some(0b100),
        free: 0b10_0000,
        last: true,
        steps: " 0/0:2 0/0:3 0/2:2 0/2:3; 1/0:2 1/2:2;; made 2",
    },
    Case {
        name: "a tied output",
        lines: [Line::Store(3, 4, 2, None), Line::Sum(5, 4, 4)],
        live: Some(0),
        free: 0b110,
        last: false,
        steps: " 0/0:4 0/2:4; 1/0:1 1/2:1;; made 2",
    },
    Case {
        name: "flags beside a result",
        lines: [Line::Subs(5, 1, 7), Line::Sum(4, 5, 1)],
        live: Some(0),
        free: 0b110,
        last: false,
        steps: " 0/0:2,f 0/2:2,f; 1/0:1 1/2:1;; made 2",
    },
    Case {
        name: "a final value that comes last",
        lines: [Line::Sum(3, 1, 1), Line::Sum(3, 2, 2)],
        live: Some(0b1000),
        free: 0,
        last: false,
        steps: " 0/0:3 0/2:3 1/0:3 1/2:3; 1/0:3 1/2:3;; made 2",
    },
    Case {
        name: "a final value that comes first",
        lines: [Line::Sum(3, 1, 1), Line::Sum(3, 2, 2)],
        live: Some(0b1000),
        free: 0,
        last: true,
        steps: " 0/0:3 0/2:3 1/0:3 1/2:3;; made 1",
    },
];

/// The straight problem of a case.
fn problem_of(alloc: Global, case: &Case) -> Result<Problem, NoMemory> {
    let items = items_of(alloc, &case.lines)?;
    let live = case.live.map(|bits| RegSet { bits });
    let frame = frame_of(alloc, &items, live, RegSet { bits: case.free })?;
    let costs = Costs::new(alloc, 1, &[ON_TWO; 2], &[])?;
    Problem::straight(&FewForms, alloc, &items, frame, &costs)
}

/// The choices that may come next, one behind the other.
fn found(alloc: Global, problem: &Problem, done: &[Choice]) -> Result<Vec<Choice>, AllocError> {
    let mut all = Vec::new(alloc);
    let mut after = None;
    for _ in 0..1000 {
        let Some(choice) = next_choice(problem, done, after) else {
            return Ok(all);
        };
        all.push(choice)?;
        after = Some(choice);
    }
    Ok(all)
}

/// May a choice come next: does it break no rule, and is it reduced?
fn may_come(problem: &Problem, done: &[Choice], choice: &Choice) -> bool {
    usize::from(choice.item) < problem.len()
        && first_broken(problem, done, choice).is_none()
        && is_reduced(problem, done, choice)
}

/// Lists of registers, each with one more at a place.
fn with_one_more(
    alloc: Global,
    fronts: &[[Option<Reg>; 3]],
    regs: &[Reg],
    place: usize,
) -> Result<Vec<[Option<Reg>; 3]>, AllocError> {
    let mut all = Vec::new(alloc);
    for front in fronts {
        for reg in regs {
            let mut outs = *front;
            if place < 3 {
                outs[place] = Some(*reg);
            }
            all.push(outs)?;
        }
    }
    Ok(all)
}

/// Each list of as many registers as an item has outputs, of those that it may write.
fn outs_of(alloc: Global, problem: &Problem, item: u16) -> Result<Vec<[Option<Reg>; 3]>, NoMemory>
    requires { item < length problem.now.graph.items }
{
    let regs = regs_in(alloc, problem.allowed_for(item))?;
    let mut all = vec![in alloc; [None; 3]; 1]?;
    for (place, out) in problem.item(item).outs.iter().enumerate() {
        if out.is_some() {
            all = with_one_more(alloc, &all, &regs, place)?;
        }
    }
    Ok(all)
}

/// Adds those of an item on a unit, in some registers, that may come next.
fn push_on(
    all: &mut Vec<Choice>,
    problem: &Problem,
    done: &[Choice],
    outs: &[[Option<Reg>; 3]],
    front: Choice,
) -> Result<(), AllocError> {
    for outs in outs {
        let choice = Choice {
            outs: *outs,
            ..front
        };
        if may_come(problem, done, &choice) {
            all.push(choice)?;
        }
    }
    Ok(())
}

/// All that may come next, of all choices there are: each item on each unit in any registers.
fn listed(alloc: Global, problem: &Problem, done: &[Choice]) -> Result<Vec<Choice>, NoMemory> {
    let mut all = Vec::new(alloc);
    for item in 0..problem.len() as u16 {
        let outs = outs_of(alloc, problem, item)?;
        for unit in 0..16 {
            let front = Choice {
                item,
                unit,
                outs: [None; 3],
            };
            push_on(&mut all, problem, done, &outs, front)?;
        }
    }
    Ok(all)
}

/// Does each choice come before the next one, and not the other way round?
fn ascend(choices: &[Choice]) -> bool {
    let Some((first, rest)) = choices.split_first() else {
        return true;
    };
    let mut last = first;
    for choice in rest {
        if !choice_before(last, choice) || choice_before(choice, last) {
            return false;
        }
        last = choice;
    }
    true
}

/// Adds a register at a place, the first behind a colon and each other behind a comma.
fn push_reg(text: &mut String, place: usize, reg: Reg) -> Result<(), AllocError> {
    text.push(if place == 0 { ':' } else { ',' })?;
    match reg.bank {
        Bank::Flags => text.push('f'),
        _ => write!(text, "{}", reg.number),
    }
}

/// Adds choices, each with its item, its unit and the numbers of its registers, the flags as `f`.
fn push_choices(text: &mut String, choices: &[Choice]) -> Result<(), AllocError> {
    for choice in choices {
        let (item, unit) = (choice.item, choice.unit);
        write!(text, " {item}/{unit}")?;
        for (place, reg) in choice.outs.iter().filter_map(|out| *out).enumerate() {
            push_reg(text, place, reg)?;
        }
    }
    text.push_str(";")
}

/// The choices that may come at each step of a case. It is noted where they aren't all that may, in
/// their order.
fn steps(alloc: Global, case: &Case, failing: &mut Failing) -> Result<String, NoMemory> {
    let problem = problem_of(alloc, case)?;
    let mut text = String::new(alloc);
    let mut done = Vec::new(alloc);
    for _ in 0..3 {
        let choices = found(alloc, &problem, &done)?;
        failing.check(case.name, choices == listed(alloc, &problem, &done)?);
        failing.check(case.name, ascend(&choices));
        push_choices(&mut text, &choices)?;
        let next = if case.last {
            choices.last()
        } else {
            choices.first()
        };
        let Some(choice) = next else {
            break;
        };
        done.push(*choice).map_err(AllocError::from)?;
    }
    let made = done.len();
    write!(text, " made {made}")?;
    Ok(text)
}

#[test]
fn choices_that_may_come_are_all_that_may(rt: HostRuntime) -> Failing {
    let mut failing = Failing::new(rt.alloc());
    for case in &CASES {
        let found = steps(rt.alloc(), case, &mut failing).map_err(|_| AllocError);
        failing.compare(case.name, found, case.steps);
    }
    failing
}
