//! When the items of a loop's body are issued in its second pass.

ghost use Rattle.std.specs.Prelude.{◌≡◌, ℕ, ◌+◌, ◌*◌, ◌-◌, ◌^◌, ◌≤◌, ◌<◌, ◌++◌, List, [], map, max, reverse, length, nat_lt, slice_index, EachIndex, Some, None, IfOk, OnOk, IsTrue, replicate};
ghost use Rattle.std.specs.List.{list_all};
ghost use Rattle.sl_model.specs.declared.schedule.Choice.{Choice};
ghost use Rattle.sl_model.specs.Cycles.{Issued, issued, timed, cycles_of, cycle_count};
ghost use Rattle.sl_model.specs.SecondPass.{ready_again_at, ready_again, timed_again, loop_cycles, loop_stalls};
ghost use Rattle.sl_model.specs.Legal.{sources_in};
ghost use Rattle.legal_space.specs.Timed.{is_known_source, HasCycles, IsPassed};

use crate::placed::held;
use crate::problem::Problem;
use crate::ready::ready_at;
use crate::times::{Times, issue_all, stalls};
use issue_cost::{Costs, Issue};
use sl_base::NoMemory;
use sl_model::schedule::{Choice, Source};
use std::alloc::{AllocError, Global};

/// When the items of a loop's body are issued in the second pass of a schedule, behind the first
/// one: the cycles are counted from the start of the second pass, which is the cycle after the
/// first one's last. The schedule has at most 65536 choices, each of an item of the problem and a
/// unit below 16. An operand waits for no item that isn't issued yet; what a register held at first
/// is in the second pass what the first one left there. The only error is want of memory.
pub fn loop_times_of(
    alloc: Global,
    problem: &Problem,
    schedule: &[Choice],
) -> Result<Times, NoMemory>
    requires few { length schedule.now ≤ 65536 }
    requires known { IsTrue
        (list_all (λ c. nat_lt c.item (length problem.now.graph.items)) schedule.now) }
    requires units { IsTrue (list_all (λ c. nat_lt c.unit 16) schedule.now) }
    ensures cycles { IfOk result
        (λ times. times.cycles.items
        ≡ map (λ cycle. cycle
        - cycle_count (timed problem.now.costs (sources_in problem.now) schedule.now))
        (cycles_of (timed_again problem.now.costs (sources_in problem.now) schedule.now))) }
    ensures count { IfOk result
        (λ times. times.count
        ≡ loop_cycles problem.now.costs (sources_in problem.now) schedule.now) }
    ensures stalls { IfOk result
        (λ times. times.stalls
        ≡ loop_stalls problem.now.costs (sources_in problem.now) schedule.now) }
{
    let mut issue = Issue::with_room(alloc, 2 * schedule.len())?;
    let mut first = vec![in alloc; 0; problem.len()]?;
    issue_all(alloc, problem, schedule, &mut issue, &mut first)?;
    let start = issue.cycles();
    issue.pass_break();
    let mut latest = vec![in alloc; 0; problem.len()]?;
    let cycles = issue_again(alloc, problem, schedule, &first, &mut issue, &mut latest)?;
    let count = issue.cycles() - start;
    let stalls = stalls(schedule.len(), problem.costs().width(), count);
    Ok(Times {
        cycles,
        count,
        stalls,
    })
}

// Issues the choices of a schedule once more, behind the break after its first pass, and gives
// their cycles from the start of the second pass on. `first` has the cycles of the first pass, and
// `latest` the cycle of each item that was issued since, and 0 for the others.
fn issue_again(
    alloc: Global,
    problem: &Problem,
    schedule: &[Choice],
    first: &[u32],
    issue: &mut Issue,
    latest: &mut [u32],
) -> Result<Vec<u32>, NoMemory>
    requires few { length schedule.now ≤ 65536 }
    requires known { IsTrue
        (list_all (λ c. nat_lt c.item (length problem.now.graph.items)) schedule.now) }
    requires units { IsTrue (list_all (λ c. nat_lt c.unit 16) schedule.now) }
    requires passed { IsPassed problem.now schedule.now issue.old.pushes first.now }
    requires broken { issue.old.pass ≡ Some (length issue.old.pushes) }
    requires room { 2 * length schedule.now ≤ issue.old.room }
    requires none { latest.old ≡ replicate (length problem.now.graph.items) 0 }
    ensures cycles { IfOk result
        (λ cycles. cycles.items
        ≡ map (λ cycle. cycle
        - cycle_count (timed problem.now.costs (sources_in problem.now) schedule.now))
        (cycles_of (timed_again problem.now.costs (sources_in problem.now) schedule.now))) }
    ensures issued { OnOk result
        (issued issue.new.pushes
        ≡ timed_again problem.now.costs (sources_in problem.now) schedule.now
        ++ timed problem.now.costs (sources_in problem.now) schedule.now) }
    ensures late { OnOk result
        (cycle_count (issued issue.old.pushes) ≤ cycle_count (issued issue.new.pushes)) }
{
    let start = issue.cycles();
    let costs = problem.costs();
    let mut cycles = Vec::new(alloc);
    for choice in schedule {
        let sources = problem.sources_of(choice.item);
        let ready = ready_again(costs, schedule, first, latest, choice.item, sources);
        let cycle = issue.push(costs, choice.item, choice.unit, ready);
        latest[usize::from(choice.item)] = cycle;
        cycles.push(cycle - start).map_err(AllocError::from)?;
    }
    Ok(cycles)
}

/// When all sources of an item's operands are ready in the second pass, where the items were issued
/// at these cycles in the first pass of a schedule and in the second one.
fn ready_again(
    costs: &Costs,
    schedule: &[Choice],
    first: &[u32],
    cycles: &[u32],
    item: u16,
    sources: &[Source],
) -> u32
    requires item { item < length cycles.now }
    requires rows { length costs.now.rows ≡ length cycles.now }
    requires items { length first.now ≡ length cycles.now }
    requires placed { IsTrue (list_all (λ c. nat_lt c.item (length first.now)) schedule.now) }
    requires few { length sources.now ≤ 256 }
    requires known { IsTrue (list_all (is_known_source (length cycles.now)) sources.now) }
    requires early_first { EachIndex first.now (λ q. slice_index first.now q ≤ 2 ^ 29) }
    requires early { EachIndex cycles.now (λ q. slice_index cycles.now q ≤ 2 ^ 29) }
    ensures ready { (before since : List Issued) (choices : List Choice) →
        HasCycles first.now (reverse schedule.now) before → HasCycles cycles.now choices since
        → result
        ≡ ready_again costs.now (reverse schedule.now) before choices since item 0 sources.now }
    ensures early { (limit : ℕ) → EachIndex first.now (λ q. slice_index first.now q ≤ limit)
        → EachIndex cycles.now (λ q. slice_index cycles.now q ≤ limit) → result ≤ limit + 255 }
{
    let mut ready = 0;
    for (operand, source) in sources.iter().enumerate() {
        ready = ready_again_at(costs, schedule, first, cycles, item, operand as u8, *source).max(
            ready,
        );
    }
    ready
}

/// When a source is ready for an operand of an item in the second pass: what a register held at
/// first is there what the first pass left in it.
#[tactic(auto, unfolding(sl_model::specs::SecondPass::ready_again_at))]
fn ready_again_at(
    costs: &Costs,
    schedule: &[Choice],
    first: &[u32],
    cycles: &[u32],
    item: u16,
    operand: u8,
    source: Source,
) -> u32
    requires item { item < length cycles.now }
    requires rows { length costs.now.rows ≡ length cycles.now }
    requires items { length first.now ≡ length cycles.now }
    requires placed { IsTrue (list_all (λ c. nat_lt c.item (length first.now)) schedule.now) }
    requires known { IsTrue (is_known_source (length cycles.now) source) }
    requires early_first { EachIndex first.now (λ q. slice_index first.now q ≤ 2 ^ 29) }
    requires early { EachIndex cycles.now (λ q. slice_index cycles.now q ≤ 2 ^ 29) }
    ensures ready { (before since : List Issued) (choices : List Choice) →
        HasCycles first.now (reverse schedule.now) before → HasCycles cycles.now choices since
        → result
        ≡ ready_again_at costs.now (reverse schedule.now) before choices since item operand
        source }
    ensures early { (limit : ℕ) → EachIndex first.now (λ q. slice_index first.now q ≤ limit)
        → EachIndex cycles.now (λ q. slice_index cycles.now q ≤ limit) → result ≤ limit + 255 }
{
    match source {
        Source::Entry(reg) => ready_at(costs, first, item, operand, held(schedule, reg)),
        Source::Item { .. } => ready_at(costs, cycles, item, operand, source),
    }
}
