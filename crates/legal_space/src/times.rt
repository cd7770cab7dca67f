//! When the items of a schedule are issued.

ghost use Rattle.std.specs.Prelude.{◌≡◌, ◌-◌, ◌≤◌, List, length, nat_lt, IfOk, OnOk, IsTrue, replicate, [], None};
ghost use Rattle.std.specs.List.{list_all};
ghost use Rattle.sl_model.specs.Cycles.{Issued, issued, timed, cycles_of, cycle_count, ceil_div, stalls};
ghost use Rattle.sl_model.specs.Legal.{sources_in};
ghost use Rattle.sl_model.specs.Space.{stalls_of};
ghost use Rattle.legal_space.specs.Timed.{IsPassed};

use crate::problem::Problem;
use crate::ready::ready_among;
use issue_cost::Issue;
use sl_base::NoMemory;
use sl_model::schedule::Choice;
use std::alloc::{AllocError, Global};

/// When the items of a schedule are issued.
#[derive(Drop)]
pub struct Times {
    /// The cycle of each item, in the order of the schedule.
    pub cycles: Vec<u32>,
    /// How many cycles they take.
    pub count: u32,
    /// The cycles that they take beyond those that they fill.
    pub stalls: u32,
}

/// When the items of a schedule are issued, one choice after the other. The schedule has at most
/// 65536 choices, each of an item of the problem and a unit below 16, and each item has a row in
/// the costs. An operand waits for no item that isn't issued yet. The only error is want of memory.
pub fn times_of(alloc: Global, problem: &Problem, schedule: &[Choice]) -> Result<Times, NoMemory>
    requires few { length schedule.now ≤ 65536 }
    requires known { IsTrue
        (list_all (λ c. nat_lt c.item (length problem.now.graph.items)) schedule.now) }
    requires units { IsTrue (list_all (λ c. nat_lt c.unit 16) schedule.now) }
    ensures cycles { IfOk result
        (λ times. times.cycles.items
        ≡ cycles_of (timed problem.now.costs (sources_in problem.now) schedule.now)) }
    ensures count { IfOk result
        (λ times. times.count
        ≡ cycle_count (timed problem.now.costs (sources_in problem.now) schedule.now)) }
    ensures stalls { IfOk result (λ times. times.stalls ≡ stalls_of problem.now schedule.now) }
{
    let mut issue = Issue::with_room(alloc, schedule.len())?;
    let mut latest = vec![in alloc; 0; problem.len()]?;
    let cycles = issue_all(alloc, problem, schedule, &mut issue, &mut latest)?;
    let count = issue.cycles();
    let stalls = stalls(schedule.len(), problem.costs().width(), count);
    Ok(Times {
        cycles,
        count,
        stalls,
    })
}

/// Issues the choices of a schedule, one after the other, and gives their cycles. `latest` has the
/// cycle of each item that was issued, and 0 for the others. The only error is want of memory.
pub fn issue_all(
    alloc: Global,
    problem: &Problem,
    schedule: &[Choice],
    issue: &mut Issue,
    latest: &mut [u32],
) -> Result<Vec<u32>, NoMemory>
    requires few { length schedule.now ≤ 65536 }
    requires known { IsTrue
        (list_all (λ c. nat_lt c.item (length problem.now.graph.items)) schedule.now) }
    requires units { IsTrue (list_all (λ c. nat_lt c.unit 16) schedule.now) }
    requires empty { issue.old.pushes ≡ [] }
    requires unbroken { issue.old.pass ≡ None }
    requires room { length schedule.now ≤ issue.old.room }
    requires none { latest.old ≡ replicate (length problem.now.graph.items) 0 }
    ensures cycles { IfOk result
        (λ cycles. cycles.items
        ≡ cycles_of (timed problem.now.costs (sources_in problem.now) schedule.now)) }
    ensures issued { OnOk result
        (issued issue.new.pushes ≡ timed problem.now.costs (sources_in problem.now) schedule.now) }
    ensures count { OnOk result (length (issued issue.new.pushes) ≡ length schedule.now) }
    ensures passed { OnOk result
        (IsPassed problem.now schedule.now issue.new.pushes latest.new) }
    ensures unbroken { OnOk result (issue.new.pass ≡ None) }
    ensures room { OnOk result (issue.new.room ≡ issue.old.room) }
{
    let costs = problem.costs();
    let mut cycles = Vec::new(alloc);
    for choice in schedule {
        let sources = problem.sources_of(choice.item);
        let ready = ready_among(costs, latest, choice.item, sources);
        let cycle = issue.push(costs, choice.item, choice.unit, ready);
        latest[usize::from(choice.item)] = cycle;
        cycles.push(cycle).map_err(AllocError::from)?;
    }
    Ok(cycles)
}

/// The cycles that so many items, at most 65536, take beyond those that they fill.
pub fn stalls(items: usize, width: u8, cycles: u32) -> u32
    requires few { items ≤ 65536 }
    requires width { 1 ≤ width }
    ensures stalls { result ≡ cycles - ceil_div items width }
    ensures of_issued { (done : List Issued) → length done ≡ items → cycle_count done ≡ cycles
        → result ≡ stalls width done }
{
    let width = u32::from(width);
    let filled = (items as u32 + width - 1) / width;
    cycles.saturating_sub(filled)
}
