//! The search of a tree at a level, depth first.
ghost use Rattle.std.specs.Prelude.{◌≡◌, ◌+◌, ◌-◌, ◌^◌, ◌<◌, ◌≤◌, false, min, length, reverse, None, Some};
ghost use Rattle.search_space.specs.Bound.{bound};
ghost use Rattle.search_space.specs.Levels.{IsTree, entries, outcome, visited};
ghost use Rattle.race_pool.specs.declared.forest.Outcome.TheVariants.{Nothing};
ghost use Rattle.bnb_solver.specs.Prefix.{IsPrefixOf};
ghost use Rattle.bnb_solver.specs.Straight.{tree_of};
ghost use Rattle.bnb_solver.specs.Telling.{Tells, Searched, AreBounded, is_cancelled, is_nothing};

use crate::prefix::Prefix;
use crate::work::Work;
use legal_space::Problem;
use race_pool::{Outcome, Stop};
use sl_base::Steps;
use sl_model::schedule::Choice;
use std::sync::ledger::Ledger;

/// Searches a tree of a problem at a level: the lists that begin with a choice, where there is one,
/// and whose bound is within the level, as many of them as the budget. Where one has all items and few
/// enough stalls, the first one is left in `work`. The search stops where `stop` calls it off, which
/// is asked before each step.
pub fn search<S: Stop, L: Ledger>(
    problem: &Problem,
    first: Option<Choice>,
    level: u32,
    budget: u64,
    work: &mut Work,
    stop: &mut S,
    steps: &mut Steps<L>,
) -> Outcome
    requires tree { IsTree (tree_of problem.now first) }
    requires room { length problem.now.graph.items ≤ work.old.room }
    requires fresh { S.told stop.old ≡ false }
    ensures outcome { Tells result work.new.found
        (outcome budget level (tree_of problem.now first)) }
    ensures pushes { AreBounded result (steps.new - steps.old)
        (visited problem.now level budget (entries (tree_of problem.now first) level)) }
    ensures told { S.told stop.new ≡ is_cancelled result }
    ensures room { work.new.room ≡ work.old.room }
    ensures grows { steps.old ≤ steps.new }
    ensures polled { min (S.polls stop.old + (steps.new - steps.old)) (2 ^ 64 - 1)
        ≤ S.polls stop.new }
    ensures kept { S.mark stop.new ≡ S.mark stop.old }
{
    match first {
        Some(choice) => search_behind(
            problem,
            choice,
            level,
            budget,
            &mut work.prefix,
            stop,
            steps,
        ),
        None => search_whole(problem, level, budget, &mut work.prefix, stop, steps),
    }
}

// The same of a tree whose lists begin with a choice.
fn search_behind<S: Stop, L: Ledger>(
    problem: &Problem,
    choice: Choice,
    level: u32,
    budget: u64,
    prefix: &mut Prefix,
    stop: &mut S,
    steps: &mut Steps<L>,
) -> Outcome
    requires tree { IsTree (tree_of problem.now (Some choice)) }
    requires room { length problem.now.graph.items ≤ prefix.old.room }
    requires fresh { S.told stop.old ≡ false }
    ensures outcome { Tells result prefix.new.choices
        (outcome budget level (tree_of problem.now (Some choice))) }
    ensures pushes { AreBounded result (steps.new - steps.old)
        (visited problem.now level budget (entries (tree_of problem.now (Some choice)) level)) }
    ensures told { S.told stop.new ≡ is_cancelled result }
    ensures room { prefix.new.room ≡ prefix.old.room }
    ensures grows { steps.old ≤ steps.new }
    ensures polled { min (S.polls stop.old + (steps.new - steps.old)) (2 ^ 64 - 1)
        ≤ S.polls stop.new }
    ensures kept { S.mark stop.new ≡ S.mark stop.old }
{
    prefix.start(problem);
    if prefix.bound_with(problem, &choice) > level {
        return Outcome::Nothing;
    }
    if budget == 0 {
        return Outcome::Spent;
    }
    if stop.poll() {
        return Outcome::Cancelled;
    }
    prefix.push(problem, choice, steps);
    let mut rest = budget;
    extend(problem, level, prefix, &mut rest, stop, steps)
}

// The same of a tree of all lists.
fn search_whole<S: Stop, L: Ledger>(
    problem: &Problem,
    level: u32,
    budget: u64,
    prefix: &mut Prefix,
    stop: &mut S,
    steps: &mut Steps<L>,
) -> Outcome
    requires room { length problem.now.graph.items ≤ prefix.old.room }
    requires fresh { S.told stop.old ≡ false }
    ensures outcome { Tells result prefix.new.choices
        (outcome budget level (tree_of problem.now None)) }
    ensures pushes { AreBounded result (steps.new - steps.old)
        (visited problem.now level budget (entries (tree_of problem.now None) level)) }
    ensures told { S.told stop.new ≡ is_cancelled result }
    ensures room { prefix.new.room ≡ prefix.old.room }
    ensures grows { steps.old ≤ steps.new }
    ensures polled { min (S.polls stop.old + (steps.new - steps.old)) (2 ^ 64 - 1)
        ≤ S.polls stop.new }
    ensures kept { S.mark stop.new ≡ S.mark stop.old }
{
    problem.is_searchable();
    prefix.start(problem);
    if prefix.bound(problem) > level {
        return Outcome::Nothing;
    }
    if budget == 0 {
        return Outcome::Spent;
    }
    let mut rest = budget;
    extend(problem, level, prefix, &mut rest, stop, steps)
}

// Searches what goes on from the choices made so far, whose bound is within the level, and which
// count. The prefix then has the choices of the first solution, and where there is nothing those that
// it had. The budget falls by what was looked at.
fn extend<S: Stop, L: Ledger>(
    problem: &Problem,
    level: u32,
    prefix: &mut Prefix,
    budget: &mut u64,
    stop: &mut S,
    steps: &mut Steps<L>,
) -> Outcome
    requires prefix { IsPrefixOf problem.now prefix.old }
    requires within { bound problem.now (reverse prefix.old.choices) ≤ level }
    requires some { 0 < budget.old }
    requires fresh { S.told stop.old ≡ false }
    ensures searched { Searched problem.now level
        (length problem.now.graph.items - length prefix.old.choices) (reverse prefix.old.choices)
        budget.old budget.new result prefix.new.choices }
    ensures pushes { steps.new + budget.new + 1 ≡ steps.old + budget.old }
    ensures less { budget.new < budget.old }
    ensures told { S.told stop.new ≡ is_cancelled result }
    ensures back { result ≡ Nothing → prefix.new ≡ prefix.old }
    ensures room { prefix.new.room ≡ prefix.old.room }
    ensures polled { min (S.polls stop.old + (steps.new - steps.old)) (2 ^ 64 - 1)
        ≤ S.polls stop.new }
    ensures kept { S.mark stop.new ≡ S.mark stop.old }
{
    problem.is_searchable();
    *budget -= 1;
    if prefix.is_full(problem) {
        return Outcome::Found;
    }
    let mut after = None;
    loop {
        let Some(choice) = prefix.next_choice(problem, after) else {
            return Outcome::Nothing;
        };
        after = Some(choice);
        if prefix.bound_with(problem, &choice) > level {
            continue;
        }
        if *budget == 0 {
            return Outcome::Spent;
        }
        if stop.poll() {
            return Outcome::Cancelled;
        }
        prefix.push(problem, choice, steps);
        let outcome = extend(problem, level, prefix, budget, stop, steps);
        if !is_nothing(outcome) {
            return outcome;
        }
        prefix.pop(problem);
    }
}

// Has a tree nothing?
fn is_nothing(outcome: Outcome) -> bool
    ensures { result ≡ is_nothing outcome }
{
    match outcome {
        Outcome::Nothing => true,
        _ => false,
    }
}
