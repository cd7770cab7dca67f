//! How many cycles items take by the slots that are left.
ghost use Rattle.std.specs.Prelude.{◌≡◌, ◌≤◌, ◌+◌, ◌*◌, List, length, nat_lt, IsTrue};
ghost use Rattle.std.specs.List.{list_all};
ghost use Rattle.sl_model.specs.declared.schedule.Choice.{Choice as ChoiceValue};
ghost use Rattle.sl_model.specs.Cycles.{ceil_div, cycle_count};
ghost use Rattle.sl_model.specs.Space.{stalls_of};
ghost use Rattle.search_space.specs.Bound.{issued_for, filled};
ghost use Rattle.stall_bound.specs.Recounts.{Recounts, IsRecount};

use crate::recount::Recount;
use legal_space::Problem;
use sl_model::schedule::Choice;

/// The stalls of a schedule of a straight problem. It has at most 65536 choices, each of an item of
/// the problem and a unit below 16. It takes no memory.
pub fn stalls_of(problem: &Problem, schedule: &[Choice]) -> u32
    requires few { length schedule.now ≤ 65536 }
    requires known { IsTrue
        (list_all (λ c. nat_lt c.item (length problem.now.graph.items)) schedule.now) }
    requires units { IsTrue (list_all (λ c. nat_lt c.unit 16) schedule.now) }
    ensures { result ≡ stalls_of problem.now schedule.now }
{
    let recount = Recount::of(problem, schedule);
    let filled = ceil_div(schedule.len() as u32, problem.costs().width());
    cycle_count(problem, &recount).saturating_sub(filled)
}

// How many cycles the choices of a recount take.
fn cycle_count(problem: &Problem, recount: &Recount) -> u32
    requires is_one { IsRecount problem.now recount.now }
    requires few { recount.now.placed ≤ 65537 }
    ensures { (done : List ChoiceValue) → Recounts problem.now done recount.now
        → result ≡ cycle_count (issued_for problem.now done) }
{
    if recount.placed == 0 {
        return 0;
    }
    recount.tally.cycle + 1
}

/// How many cycles the items of a problem take at least, where each item that is left gets the next
/// slot behind those of a recount.
pub fn filled(problem: &Problem, recount: &Recount) -> u32
    requires is_one { IsRecount problem.now recount.now }
    requires few { recount.now.placed ≤ 65537 }
    ensures { (done : List ChoiceValue) → Recounts problem.now done recount.now
        → result ≡ filled problem.now.costs.width (length problem.now.graph.items)
        (issued_for problem.now done) }
{
    let items = problem.len() as u32;
    let width = problem.costs().width();
    if recount.placed == 0 {
        return ceil_div(items, width);
    }
    let room = u32::from(width).saturating_sub(recount.tally.count);
    let left = items.saturating_sub(recount.placed).saturating_sub(room);
    recount.tally.cycle + 1 + ceil_div(left, width)
}

/// How many cycles so many items fill, at most 65536.
pub fn ceil_div(items: u32, width: u8) -> u32
    requires few { items ≤ 65536 }
    requires width { 1 ≤ width }
    ensures exact { result ≡ ceil_div items width }
    ensures few { result ≤ 131072 }
{
    let width = u32::from(width);
    (items + width - 1) / width
}
