//! Chains of any length, in which each item waits two cycles for the one above it: with memory at hand each call has its answer.
ghost use Rattle.std.specs.Prelude.{◌≡◌, ◌≤◌, ◌&&◌, length, nat_lt, IfOk};
ghost use Rattle.std.specs.List.{list_all};
ghost use Rattle.issue_cost.specs.Sound.{is_sound_row};
ghost use Rattle.sl_model.specs.declared.limits.TheConstants.{ITEMS};

use crate::lines::{Line, general, items_of};
use crate::problems::{NONE, ROW, are_known, have_units};
use issue_cost::{CostRow, Costs, Forward, Issue, NoMemory};
use legal_space::{Choice, Problem, frame_of, times_of};
use renamer::apply;
use sample_set::{Failing, FewForms};
use std::alloc::{AllocError, Global};

/// The lengths of the chains: past each count at which one might have ended.
const LENGTHS: [u16; 11] = [0, 1, 8, 9, 31, 32, 33, 48, 49, 63, 64];

fn is_sound(row: &CostRow) -> bool
    ensures { result ≡ is_sound_row row.now }
{
    0 < row.units && (0 < row.busy && (0 < row.latency && 0 < row.writeback))
}

/// Is each row one that a core may have?
pub fn are_sound(rows: &[CostRow]) -> bool
    ensures { result ≡ list_all is_sound_row rows.now }
{
    rows.iter().all(|row| is_sound(row))
}

/// Costs of so many items that are ready after two cycles, on a core that issues one in a cycle.
fn costs_of(alloc: Global, count: usize) -> Result<Costs, NoMemory>
    ensures { IfOk result (λ costs. length costs.rows ≡ count) }
{
    let rows = vec![in alloc; ROW; count]?;
    if !are_sound(&rows) {
        return Err(NoMemory);
    }
    Costs::new(alloc, 1, &rows, &[])
}

/// A chain of items that each read what the one above wrote.
fn chain_of(alloc: Global, count: usize) -> Result<Problem, NoMemory>
    requires { count ≤ ITEMS }
    ensures { IfOk result (λ problem. length problem.graph.items ≡ count) }
{
    let lines = vec![in alloc; Line::Sum(1, 1, 0); count]?;
    let items = items_of(alloc, &lines)?;
    let costs = costs_of(alloc, items.len())?;
    let frame = frame_of(alloc, &items, None, NONE)?;
    Problem::straight(&FewForms, alloc, &items, frame, &costs)
}

/// The items in their own order, each on unit 0 and in its own register.
fn own_order(alloc: Global, count: u16) -> Result<Vec<Choice>, AllocError> {
    let mut schedule = Vec::new(alloc);
    for item in 0..count {
        schedule.push(Choice {
            item,
            unit: 0,
            outs: [Some(general(1)), None, None],
        })?;
    }
    Ok(schedule)
}

/// Do the times and the list of a chain in its own order say what they should?
fn is_answered(alloc: Global, count: u16) -> Result<bool, NoMemory> {
    let length = usize::from(count);
    if 64 < length {
        return Ok(false);
    }
    let problem = chain_of(alloc, length)?;
    let schedule = own_order(alloc, count)?;
    if schedule.len() != length || !are_known(&schedule, length) || !have_units(&schedule) {
        return Ok(false);
    }
    let times = times_of(alloc, &problem, &schedule)?;
    let list = apply(alloc, &problem, problem.items(), &schedule)?;
    let last = u32::from(count).saturating_sub(1);
    Ok(
        times.cycles.len() == length
            && times.cycles.last().copied().unwrap_or(0) == last.saturating_mul(2)
            && times.stalls == last
            && list.as_slice() == problem.items(),
    )
}

#[test]
fn chains_of_any_length_have_their_answers(rt: HostRuntime) -> Failing {
    let mut failing = Failing::new(rt.alloc());
    for count in &LENGTHS {
        failing.check_number(
            usize::from(*count),
            is_answered(rt.alloc(), *count) == Ok(true),
        );
    }
    failing
}

/// How many items the longest problem has, how long its order is, and what is allowed for its last item.
fn longest(alloc: Global) -> Result<(usize, usize, u128), NoMemory> {
    let problem = chain_of(alloc, 64)?;
    Ok((
        problem.len(),
        problem.order().len(),
        problem.allowed_for(63).bits,
    ))
}

// The most items that a problem has.
#[test]
fn the_longest_problem_is_made(rt: HostRuntime) -> Failing {
    let mut failing = Failing::new(rt.alloc());
    let found = longest(rt.alloc());
    failing.check("64 items", found == Ok((64, 64, 0b10)));
    failing
}

/// Forwards of any number, of which the first counts.
const FORWARD: Forward = Forward {
    from: 0,
    to: 0,
    operand: 1,
    latency: 1,
};

/// Is an issue with room for so many items made, and are costs of as many copied?
fn is_made(alloc: Global, items: usize) -> Result<bool, NoMemory> {
    if 65536 < items {
        return Ok(false);
    }
    let issue = Issue::with_room(alloc, items)?;
    let costs = costs_of(alloc, items)?.copy(alloc)?;
    Ok(issue.len() == 0 && issue.cycles() == 0 && (items == 0 || costs.busy(0) == 1))
}

/// When a result is ready at two operands, by the first of 65 forwards of which one is for the second operand.
fn ready_by_many(alloc: Global) -> Result<(u32, u32), NoMemory> {
    let costs = Costs::new(alloc, 8, &[ROW; 2], &[FORWARD; 65])?.copy(alloc)?;
    Ok((costs.ready_after(0, 0, 1, 1), costs.ready_after(0, 0, 1, 0)))
}

#[test]
fn room_and_costs_are_made_at_any_size(rt: HostRuntime) -> Failing {
    let mut failing = Failing::new(rt.alloc());
    for items in &[0, 1, 32, 33, 64, 65, 257, 4096, 65535, 65536] {
        failing.check_number(*items, is_made(rt.alloc(), *items) == Ok(true));
    }
    failing.check("many forwards", ready_by_many(rt.alloc()) == Ok((1, 2)));
    failing
}
