//! The items of a problem as they stand, each on the unit of its class that issues it first.
ghost use Rattle.std.specs.Prelude.{◌≡◌, ◌<◌, ◌≤◌, [], ◌∷◌, ◌++◌, length, nat_lt, replicate, None, IfOk, IsTrue};
ghost use Rattle.std.specs.List.{list_all};
ghost use Rattle.own_schedule.specs.OwnSchedule as spec;
ghost use Rattle.own_schedule.specs.Issuing.{IsIssued};

use crate::units::unit_for;
use core_text::Core;
use issue_cost::Issue;
use legal_space::{Problem, ready_among};
use sl_base::NoMemory;
use sl_model::schedule::Choice;
use std::alloc::{AllocError, Global};

/// The items of a problem as they stand, each in its own registers: in their order each goes to the
/// unit of its class that issues it at the least cycle, the first in the class's own list among
/// equals; an item whose class has no entry in the core goes to unit 0. The only error is want of
/// memory.
pub fn own_schedule(alloc: Global, core: &Core, problem: &Problem) -> Result<Vec<Choice>, NoMemory>
    ensures schedule { IfOk result
        (λ schedule. schedule.items ≡ spec.own_schedule core.now problem.now) }
    ensures count { IfOk result
        (λ schedule. length schedule.items ≡ length problem.now.graph.items) }
    ensures known { IfOk result (λ schedule. IsTrue
        (list_all (λ c. nat_lt c.item (length problem.now.graph.items)) schedule.items)) }
    ensures units { IfOk result (λ schedule. IsTrue
        (list_all (λ c. nat_lt c.unit (length core.now.units)) schedule.items)) }
    ensures few_units { length core.now.units ≤ 16 }
{
    // No core has more: a look inside is all that the proof needs.
    let _ = core.unit_count();
    let mut issue = Issue::with_room(alloc, problem.len())?;
    let mut latest = vec![in alloc; 0; problem.len()]?;
    choose_all(alloc, core, problem, &mut issue, &mut latest)
}

// Issues all items in their order. `latest` has the cycle of each item that was issued, and 0 for
// the others.
fn choose_all(
    alloc: Global,
    core: &Core,
    problem: &Problem,
    issue: &mut Issue,
    latest: &mut [u32],
) -> Result<Vec<Choice>, NoMemory>
    requires empty { issue.old
        ≡ record { pushes = []; room = length problem.now.graph.items; pass = None } }
    requires none { latest.old ≡ replicate (length problem.now.graph.items) 0 }
    ensures schedule { IfOk result
        (λ schedule. schedule.items ≡ spec.own_schedule core.now problem.now) }
    ensures count { IfOk result
        (λ schedule. length schedule.items ≡ length problem.now.graph.items) }
    ensures known { IfOk result (λ schedule. IsTrue
        (list_all (λ c. nat_lt c.item (length problem.now.graph.items)) schedule.items)) }
    ensures units { IfOk result (λ schedule. IsTrue
        (list_all (λ c. nat_lt c.unit (length core.now.units)) schedule.items)) }
{
    let mut schedule = Vec::new(alloc);
    for item in 0..problem.len() as u16 {
        let choice = choose_next(core, problem, &schedule, item, issue, latest);
        schedule.push(choice).map_err(AllocError::from)?;
    }
    Ok(schedule)
}

// Issues the next item behind a schedule, on the unit of its class that issues it first.
fn choose_next(
    core: &Core,
    problem: &Problem,
    schedule: &[Choice],
    item: u16,
    issue: &mut Issue,
    latest: &mut [u32],
) -> Choice
    requires item { item < length problem.now.graph.items }
    requires place { length schedule.now ≡ item }
    requires issued { IsIssued problem.now schedule.now issue.old latest.old }
    ensures next { schedule.now ++ result ∷ []
        ≡ spec.with_item core.now problem.now schedule.now item }
    ensures issued { IsIssued problem.now (schedule.now ++ result ∷ []) issue.new latest.new }
    ensures item { result.item ≡ item }
    ensures unit { result.unit < length core.now.units }
{
    let costs = problem.costs();
    let ready = ready_among(costs, latest, item, problem.sources_of(item));
    let unit = unit_for(core, problem, issue, item, ready);
    let cycle = issue.push(costs, item, unit, ready);
    latest[usize::from(item)] = cycle;
    Choice {
        item,
        unit,
        outs: problem.item(item).outs,
    }
}
