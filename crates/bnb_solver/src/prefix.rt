//! The choices made so far, with room made before.
ghost use Rattle.std.specs.Prelude.{◌≡◌, ◌+◌, ◌<◌, ◌≤◌, true, List, [], ◌∷◌, ◌++◌, length, nat_lt, reverse, IfOk, IsTrue};
ghost use Rattle.std.specs.List.{list_all};
ghost use Rattle.sl_model.specs.declared.schedule.Choice.{Choice as ChoiceValue};
ghost use Rattle.sl_model.specs.Body.{is_full};
ghost use Rattle.sl_model.specs.Legal.{first_broken, IsLegalNext};
ghost use Rattle.sl_model.specs.Space.{stalls_of};
ghost use Rattle.search_space.specs.Bound.{bound};
ghost use Rattle.search_space.specs.Next.{next_behind};
ghost use Rattle.bnb_solver.specs.Prefix.{IsPrefixOf};

use legal_space::{Problem, Rule, first_broken};
use reduced_choice::next_choice;
use sl_base::{NoMemory, Steps, tick};
use sl_model::schedule::Choice;
use stall_bound::{Bounds, stalls_of};
use std::alloc::Global;
use std::marker::Model;
use std::sync::ledger::Ledger;

/// The choices made so far in a problem, in room made before: no other call takes memory. Each
/// call but `start` is given the problem that the prefix was started with.
#[derive(Drop)]
pub struct Prefix {
    bounds: Bounds,
    choices: Vec<Choice>,
}

impl Model for Prefix {
    ghost use Rattle.std.specs.Prelude.{◌≤◌, vec_capacity};
    ghost use Rattle.bnb_solver.specs.Prefix.{Prefix};

    ghost Value = { Prefix };

    ghost view = { λ a. record {
      heights = a.bounds.heights;
      choices = a.choices.items;
      room = a.bounds.room;
    } };

    ghost invariant = { λ a. a.bounds.room ≤ vec_capacity a.choices };
}

impl Prefix {
    /// Room for the choices of a problem of at most so many items, which may be as many as a
    /// problem has. It has to be started before anything is asked of it.
    pub fn with_room(alloc: Global, items: usize) -> Result<Prefix, NoMemory>
        ensures { IfOk result (λ prefix. prefix.room ≡ items) }
    {
        let bounds = Bounds::with_room(alloc, items)?;
        let choices = Vec::with_capacity(alloc, items)?;
        Ok(Prefix { bounds, choices })
    }

    /// No choices of a problem, whatever stood here. There has to be room for its items.
    pub fn start(&mut self, problem: &Problem)
        requires { length problem.now.graph.items ≤ self.old.room }
        ensures prefix { IsPrefixOf problem.now self.new }
        ensures empty { self.new.choices ≡ [] }
        ensures room { self.new.room ≡ self.old.room }
    {
        self.bounds.start(problem);
        self.choices.clear();
    }

    /// The first rule that a choice breaks after those made so far, if it breaks one. The choice
    /// is of an item of the problem.
    pub fn test(&self, problem: &Problem, choice: &Choice) -> Option<Rule>
        requires { choice.now.item < length problem.now.graph.items }
        ensures { result ≡ first_broken problem.now (reverse self.now.choices) choice.now }
    {
        first_broken(problem, &self.choices, choice)
    }

    /// The least legal reduced choice above another, or the least of all.
    pub fn next_choice(&self, problem: &Problem, after: Option<Choice>) -> Option<Choice>
        ensures { result ≡ next_behind problem.now (reverse self.now.choices) after }
    {
        next_choice(problem, &self.choices, after)
    }

    /// How many stalls each schedule has at least that begins with these choices.
    pub fn bound(&self, problem: &Problem) -> u32
        requires { IsPrefixOf problem.now self.now }
        ensures { result ≡ bound problem.now (reverse self.now.choices) }
    {
        self.are_few(problem);
        self.bounds.bound(problem, &self.choices)
    }

    /// The same with one more choice, which has to be legal.
    pub fn bound_with(&self, problem: &Problem, choice: &Choice) -> u32
        requires prefix { IsPrefixOf problem.now self.now }
        requires legal { IsLegalNext problem.now (reverse self.now.choices) choice.now }
        ensures { result ≡ bound problem.now (choice.now ∷ reverse self.now.choices) }
    {
        self.are_few(problem);
        problem.is_searchable();
        self.bounds.bound_with(problem, &self.choices, choice)
    }

    /// Makes one more choice, which has to be legal. It is one step.
    pub fn push<L: Ledger>(&mut self, problem: &Problem, choice: Choice, steps: &mut Steps<L>)
        requires prefix { IsPrefixOf problem.now self.old }
        requires legal { IsLegalNext problem.now (reverse self.old.choices) choice }
        ensures prefix { IsPrefixOf problem.now self.new }
        ensures choices { self.new ≡ record self.old { choices = self.old.choices ++ choice ∷ [] } }
        ensures step { steps.new ≡ steps.old + 1 }
    {
        problem.is_searchable();
        self.choices.push_reserved(choice);
        tick(steps);
    }

    /// Undoes the last choice, of which there has to be one.
    pub fn pop(&mut self, problem: &Problem)
        requires prefix { IsPrefixOf problem.now self.old }
        requires some { 0 < length self.old.choices }
        ensures prefix { IsPrefixOf problem.now self.new }
        ensures undone { (choices : List ChoiceValue) (last : ChoiceValue) →
            self.old.choices ≡ choices ++ last ∷ [] → self.new ≡ record self.old { choices = choices } }
    {
        let _ = problem;
        let _ = self.choices.pop();
    }

    /// Are all items placed?
    pub fn is_full(&self, problem: &Problem) -> bool
        requires { IsPrefixOf problem.now self.now }
        ensures { result ≡ is_full problem.now.graph.order self.now.choices }
    {
        problem.is_searchable();
        self.choices.len() == problem.len()
    }

    /// The stalls of the choices, which have to place all items.
    pub fn stalls(&mut self, problem: &Problem) -> u32
        requires prefix { IsPrefixOf problem.now self.old }
        requires full { is_full problem.now.graph.order self.old.choices ≡ true }
        ensures stalls { result ≡ stalls_of problem.now self.old.choices }
        ensures same { self.new ≡ self.old }
    {
        self.are_few(problem);
        stalls_of(problem, &self.choices)
    }

    // What a count of cycles asks of the choices: they are few, each of an item of the problem and
    // a unit below 16.
    fn are_few(&self, problem: &Problem)
        requires { IsPrefixOf problem.now self.now }
        ensures few { length self.now.choices ≤ 65536 }
        ensures known { IsTrue
            (list_all (λ c. nat_lt c.item (length problem.now.graph.items)) self.now.choices) }
        ensures units { IsTrue (list_all (λ c. nat_lt c.unit 16) self.now.choices) }
    {
        // That there are few items, and each can be searched, is all that the proof needs.
        problem.is_searchable();
        let _ = problem.len();
    }

    /// The choices, in their order.
    pub fn choices(&self) -> &[Choice]
        ensures { result.now ≡ self.now.choices }
    {
        &self.choices
    }
}
