//! Two workers run at the same time, and one of them is told to stop.
ghost use Rattle.race_pool.specs.declared.forest.Outcome.TheVariants.{Nothing};
ghost use Rattle.schedule_tests.specs.Fakes.{first_spent};

use race_pool::{Forest, LevelAnswer, Outcome, Stop, run_level};
use sample_set::{Failing, Meeting, TURNS};
use sl_base::{NoGate, Steps, tick};
use std::sync::atomic::{AtomicU64, Ordering};
use std::sync::ledger::Ledger;

/// Two trees that have nothing.
struct Bare;

impl Forest for Bare {
    type Worker = u64;

    ghost tree_count = { λ _. 2 };

    ghost outcome = { λ _ _ _. Nothing };

    ghost holds = { λ _ _ _ _. Unit {0} };

    ghost fits = { λ _ _. Unit {0} };

    fn trees(&self) -> u32 {
        2
    }

    fn search<S: Stop, L: Ledger>(
        &self,
        _tree: u32,
        _level: u32,
        _worker: &mut u64,
        stop: &mut S,
        steps: &mut Steps<L>,
    ) -> Outcome {
        if stop.poll() {
            return Outcome::Cancelled;
        }
        tick(steps);
        Outcome::Nothing
    }
}

/// Two trees: the budget of the first is spent at once, and the search of the second goes on until it
/// is told to stop, or so many turns have passed.
#[derive(Drop)]
struct Chase {
    gave_up: AtomicU64,
}

impl Forest for Chase {
    type Worker = u64;

    ghost tree_count = { λ _. 2 };

    ghost outcome = { λ _ tree _. first_spent tree };

    ghost holds = { λ _ _ _ _. Unit {0} };

    ghost fits = { λ _ _. Unit {0} };

    fn trees(&self) -> u32 {
        2
    }

    fn search<S: Stop, L: Ledger>(
        &self,
        tree: u32,
        _level: u32,
        _worker: &mut u64,
        stop: &mut S,
        _steps: &mut Steps<L>,
    ) -> Outcome {
        if tree == 0 {
            return Outcome::Spent;
        }
        for _ in 0..TURNS {
            if stop.poll() {
                return Outcome::Cancelled;
            }
        }
        self.gave_up.store(1, Ordering::SeqCst);
        Outcome::Nothing
    }
}

#[test]
fn two_workers_meet(rt: HostRuntime) -> Failing {
    let mut failing = Failing::new(rt.alloc());
    let gate = Meeting::new();
    let mut workers = [0u64, 0];
    let answer = run_level(&rt, rt.alloc(), &Bare, 0, &mut workers, &gate);
    failing.check(
        "there is nothing",
        matches!(answer, Ok(LevelAnswer::AllNothing)),
    );
    failing.check("they meet", gate.have_met());
    failing
}

#[test]
fn a_worker_is_told_to_stop(rt: HostRuntime) -> Failing {
    let mut failing = Failing::new(rt.alloc());
    let forest = Chase {
        gave_up: AtomicU64::new(0),
    };
    let mut workers = [0u64, 0];
    let answer = run_level(&rt, rt.alloc(), &forest, 0, &mut workers, &NoGate);
    let is_first = matches!(
        answer,
        Ok(LevelAnswer::First {
            tree: 0,
            worker: 0,
            spent: true
        })
    );
    failing.check("the first tree's budget is spent", is_first);
    failing.check(
        "the other search is told to stop",
        forest.gave_up.load(Ordering::SeqCst) == 0,
    );
    failing
}
