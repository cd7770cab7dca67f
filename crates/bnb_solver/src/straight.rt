//! The trees of a straight problem.
ghost use Rattle.std.specs.Prelude.{◌≡◌, ◌+◌, ◌-◌, ◌^◌, ◌<◌, ◌≤◌, ◌↔◌, true, false, min, [], map, length, Some, IfOk, IfErr, OnOk};
ghost use Rattle.search_space.specs.Levels.{straight_trees, outcome, entries, visited};
ghost use Rattle.search_space.specs.Levels.Outcome.{Found};
ghost use Rattle.search_space.specs.Next.{next_choices};
ghost use Rattle.race_pool.specs.declared.forest.Outcome.{Outcome};
ghost use Rattle.bnb_solver.specs.declared.refusal.TheConstants.{TREES};
ghost use Rattle.bnb_solver.specs.Straight.{beginnings, tree_at, IsRefused};
ghost use Rattle.bnb_solver.specs.Telling.{plain, AreBounded};

use crate::refusal::{ForestErr, TREES};
use crate::searching::search;
use crate::work::Work;
use legal_space::Problem;
use race_pool::{Forest, Outcome, Stop};
use reduced_choice::next_choice;
use sl_base::Steps;
use sl_model::schedule::Choice;
use std::alloc::Global;
use std::marker::Model;
use std::sync::ledger::Ledger;

/// The trees of a straight problem: one for each choice that may come first, in their order, and one
/// without a choice where there are no items.
#[derive(Drop)]
pub struct StraightForest {
    problem: Problem,
    firsts: Vec<Option<Choice>>,
    budget: u64,
}

impl Model for StraightForest {
    ghost use Rattle.std.specs.Prelude.{◌≡◌, ◌≤◌, length};
    ghost use Rattle.bnb_solver.specs.declared.refusal.TheConstants.{TREES};
    ghost use Rattle.bnb_solver.specs.Straight.{Straight, beginnings};

    ghost Value = { Straight };

    ghost view = { λ f. record { problem = f.problem; budget = f.budget } };

    ghost invariant = { λ f. (f.firsts.items ≡ beginnings f.problem) × (length f.firsts.items ≤ TREES) };
}

impl StraightForest {
    /// The trees of a straight problem, of each of which as many lists are looked at as the budget.
    pub fn new(alloc: Global, problem: Problem, budget: u64) -> Result<StraightForest, ForestErr>
        ensures forest { IfOk result
            (λ forest. forest ≡ record { problem = problem; budget = budget }) }
        ensures few { OnOk result (length (straight_trees problem) ≤ TREES) }
        ensures refused { IfErr result (IsRefused problem) }
    {
        let firsts = firsts_of(alloc, &problem)?;
        Ok(StraightForest {
            problem,
            firsts,
            budget,
        })
    }

    /// The problem.
    pub fn problem(&self) -> &Problem
        ensures { result.now ≡ self.now.problem }
    {
        &self.problem
    }
}

// What the trees of a problem begin with.
fn firsts_of(alloc: Global, problem: &Problem) -> Result<Vec<Option<Choice>>, ForestErr>
    ensures firsts { IfOk result (λ list. list.items ≡ beginnings problem.now) }
    ensures few { IfOk result (λ list. length list.items ≤ TREES) }
    ensures refused { IfErr result (IsRefused problem.now) }
{
    let mut list = Vec::new(alloc);
    if problem.len() == 0 {
        list.push(None)?;
        return Ok(list);
    }
    push_firsts(problem, &mut list)?;
    Ok(list)
}

// Adds the choices that may come first.
fn push_firsts(problem: &Problem, list: &mut Vec<Option<Choice>>) -> Result<(), ForestErr>
    requires some { 0 < length problem.now.graph.items }
    requires empty { list.old.items ≡ [] }
    ensures firsts { OnOk result (list.new.items ≡ map Some (next_choices problem.now [])) }
    ensures few { OnOk result (length list.new.items ≤ TREES) }
    ensures refused { IfErr result (IsRefused problem.now) }
{
    problem.is_searchable();
    let mut after = None;
    loop {
        let Some(choice) = next_choice(problem, &[], after) else {
            return Ok(());
        };
        if list.len() == TREES {
            return Err(ForestErr::TooManyTrees {
                limit: TREES as u32,
            });
        }
        list.push(Some(choice))?;
        after = Some(choice);
    }
}

impl Forest for StraightForest {
    type Worker = Work;

    ghost tree_count = { λ f. length (beginnings f.problem) };

    ghost outcome = { λ f tree level. plain (outcome f.budget level (tree_at f.problem tree)) };

    ghost holds = { λ f work tree level.
        outcome f.budget level (tree_at f.problem tree) ≡ Found work.found };

    ghost fits = { λ f work. length f.problem.graph.items ≤ work.room };

    fn trees(&self) -> u32 {
        self.firsts.len() as u32
    }

    /// Searches a tree at a level; what is found is left in `worker`. As many choices are pushed as
    /// entries have to be looked at, or one less or more, and no more where the search is called off.
    fn search<S: Stop, L: Ledger>(
        &self,
        tree: u32,
        level: u32,
        worker: &mut Work,
        stop: &mut S,
        steps: &mut Steps<L>,
    ) -> Outcome
        requires tree { tree < length (beginnings self.now.problem) }
        requires fits { length self.now.problem.graph.items ≤ worker.old.room }
        requires fresh { S.told stop.old ≡ false }
        ensures fits { length self.now.problem.graph.items ≤ worker.new.room }
        ensures cancelled { (result ≡ Outcome.Cancelled) ↔ (S.told stop.new ≡ true) }
        ensures outcome { S.told stop.new ≡ false
            → result ≡ plain (outcome self.now.budget level (tree_at self.now.problem tree)) }
        ensures found { result ≡ Outcome.Found
            → outcome self.now.budget level (tree_at self.now.problem tree)
            ≡ Found worker.new.found }
        ensures grows { steps.old ≤ steps.new }
        ensures polled { min (S.polls stop.old + (steps.new - steps.old)) (2 ^ 64 - 1)
            ≤ S.polls stop.new }
        ensures kept { S.mark stop.new ≡ S.mark stop.old }
        ensures pushes { AreBounded result (steps.new - steps.old)
            (visited self.now.problem level self.now.budget
            (entries (tree_at self.now.problem tree) level)) }
    {
        self.problem.is_searchable();
        let first = self.firsts[tree as usize];
        search(
            &self.problem,
            first,
            level,
            self.budget,
            worker,
            stop,
            steps,
        )
    }
}
