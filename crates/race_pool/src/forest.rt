//! Trees that workers search.
ghost use Rattle.std.specs.Prelude.{◌≡◌, ℕ, ◌+◌, ◌-◌, ◌^◌, ◌≤◌, ◌<◌, true, false, min, ◌↔◌};
ghost use Rattle.race_pool.specs.declared.forest.Outcome.{Outcome};

use crate::stop::Stop;
use sl_base::Steps;
use std::sync::ledger::Ledger;

/// How the search of a tree at a level ended.
#[derive(Clone, Copy)]
pub enum Outcome {
    /// A solution was found.
    Found,
    /// The tree has none.
    Nothing,
    /// The budget was spent before one was found.
    Spent,
    /// The search was called off.
    Cancelled,
}

/// Trees, each of which is searched at a level by a worker.
pub trait Forest {
    /// What a search works in, and where it leaves its solution.
    type Worker: Send;

    // How many trees there are.
    ghost tree_count: { Self → ℕ };

    // What a tree has at a level.
    ghost outcome: { Self → ℕ → ℕ → Outcome };

    // Does a worker hold the solution of a tree at a level?
    ghost holds: { Self → Self.Worker → ℕ → ℕ → Type 0 };

    // Has a worker room for each tree?
    ghost fits: { Self → Self.Worker → Type 0 };

    /// How many trees there are.
    fn trees(&self) -> u32
        ensures { result ≡ tree_count self.now };

    /// Searches a tree at a level, unless the stop calls it off.
    fn search<S: Stop, L: Ledger>(
        &self,
        tree: u32,
        level: u32,
        worker: &mut Self::Worker,
        stop: &mut S,
        steps: &mut Steps<L>,
    ) -> Outcome
        requires tree { tree < tree_count self.now }
        requires fits { fits self.now worker.old }
        requires fresh { S.told stop.old ≡ false }
        ensures fits { fits self.now worker.new }
        ensures cancelled { (result ≡ Outcome.Cancelled) ↔ (S.told stop.new ≡ true) }
        ensures outcome { S.told stop.new ≡ false → result ≡ outcome self.now tree level }
        ensures found { result ≡ Outcome.Found → holds self.now worker.new tree level }
        ensures grows { steps.old ≤ steps.new }
        ensures polled { min (S.polls stop.old + (steps.new - steps.old)) (2 ^ 64 - 1)
            ≤ S.polls stop.new }
        ensures kept { S.mark stop.new ≡ S.mark stop.old };
}
