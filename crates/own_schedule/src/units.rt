//! The unit of an item's class that issues it first.
ghost use Rattle.std.specs.Prelude.{◌≡◌, ◌^◌, ◌<◌, ◌≤◌, max, length, slice_index, EachIndex};
ghost use Rattle.sl_model.specs.Cycles.{issued, next_cycle};
ghost use Rattle.issue_cost.specs.Timeline.{start_of};
ghost use Rattle.own_schedule.specs.OwnSchedule.{first_least, units_for};

use core_text::Core;
use issue_cost::{Costs, Issue};
use legal_space::Problem;

// The first of some units, all below 16, that issues an item at the least cycle, where its operands
// are ready from a cycle on; 0 where there is none.
fn first_least_unit(issue: &Issue, costs: &Costs, units: &[u8], ready: u32) -> u8
    requires units { EachIndex units.now (λ k. slice_index units.now k < 16) }
    requires ready { ready ≤ 2 ^ 30 }
    ensures { result
        ≡ first_least (λ unit. next_cycle costs.now.width unit (max (start_of issue.now) ready)
        (issued issue.now.pushes))
        units.now }
{
    let Some((first, rest)) = units.split_first() else {
        return 0;
    };
    let mut best = *first;
    let mut least = issue.cycle_for(costs, best, ready);
    for unit in rest {
        let cycle = issue.cycle_for(costs, *unit, ready);
        if cycle < least {
            best = *unit;
            least = cycle;
        }
    }
    best
}

/// The unit of an item's class that issues it first, where its operands are ready from a cycle on:
/// the first in the class's own list among equals, and 0 where the class has no entry in the core.
pub(crate) fn unit_for(core: &Core, problem: &Problem, issue: &Issue, item: u16, ready: u32) -> u8
    requires item { item < length problem.now.graph.items }
    requires ready { ready ≤ 2 ^ 30 }
    ensures unit { result
        ≡ first_least
        (λ unit. next_cycle problem.now.costs.width unit (max (start_of issue.now) ready)
        (issued issue.now.pushes))
        (units_for core.now problem.now item) }
    ensures known { result < length core.now.units }
    ensures few { length core.now.units ≤ 16 }
{
    // Every core has a unit: a look inside is all that the proof needs.
    let _ = core.unit_count();
    let Some(entry) = core.entry(problem.info(item).class) else {
        return 0;
    };
    first_least_unit(issue, problem.costs(), entry.units(), ready)
}
