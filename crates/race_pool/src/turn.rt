//! One tree of a worker.
ghost use Rattle.std.specs.Prelude.{◌≡◌, ◌<◌, ◌≤◌, true};
ghost use Rattle.race_pool.specs.Decisive.{level_of};
ghost use Rattle.race_pool.specs.Seats.{IsSeated};
ghost use Rattle.race_pool.specs.Turn.{Searched, decided};

use crate::forest::{Forest, Outcome};
use crate::race_stop::RaceStop;
use crate::round::Round;
use crate::rule::Chair;
use crate::seats::publish;
use sl_base::{Gate, Steps};
use std::sync::ledger::Ledger;

// Did the search find a solution, or spend its budget?
fn is_decided(outcome: Outcome) -> bool
    ensures { result ≡ decided outcome }
{
    match outcome {
        Outcome::Found | Outcome::Spent => true,
        Outcome::Nothing | Outcome::Cancelled => false,
    }
}

// Searches a tree, behind the gate and with a new stop.
fn search_tree<F: Forest, G: Gate, L: Ledger>(
    round: &Round<'_, F, G>,
    tree: u32,
    worker: &mut F::Worker,
    seat: Chair,
    steps: &mut Steps<L>,
) -> (Chair, Outcome)
    requires level { round.now.word.now.key
        ≡ level_of (λ t. F.outcome round.now.forest.now t round.now.level)
        (F.tree_count round.now.forest.now) }
    requires seated { IsSeated round.now.word.now.table_id round.now.word.now.key seat }
    requires tree { tree < F.tree_count round.now.forest.now }
    requires fits { F.fits round.now.forest.now worker.old }
    ensures fits { F.fits round.now.forest.now worker.new }
    ensures seated { IsSeated round.now.word.now.table_id round.now.word.now.key result.0 }
    ensures searched { Searched (λ t. F.outcome round.now.forest.now t round.now.level)
        (λ t. F.holds round.now.forest.now worker.new t round.now.level)
        (F.tree_count round.now.forest.now) tree result.1 }
{
    round.gate.enter(tree);
    let mut stop = RaceStop::new(round.word, seat, tree);
    let outcome = round
        .forest
        .search(tree, round.level, worker, &mut stop, steps);
    (stop.into_seat(), outcome)
}

/// Searches a tree, and publishes it where it has something.
pub(crate) fn take_turn<F: Forest, G: Gate, L: Ledger>(
    round: &Round<'_, F, G>,
    tree: u32,
    worker: &mut F::Worker,
    seat: Chair,
    steps: &mut Steps<L>,
) -> (Chair, Outcome)
    requires level { round.now.word.now.key
        ≡ level_of (λ t. F.outcome round.now.forest.now t round.now.level)
        (F.tree_count round.now.forest.now) }
    requires seated { IsSeated round.now.word.now.table_id round.now.word.now.key seat }
    requires tree { tree < F.tree_count round.now.forest.now }
    requires fits { F.fits round.now.forest.now worker.old }
    ensures fits { F.fits round.now.forest.now worker.new }
    ensures seated { IsSeated round.now.word.now.table_id round.now.word.now.key result.0 }
    ensures searched { Searched (λ t. F.outcome round.now.forest.now t round.now.level)
        (λ t. F.holds round.now.forest.now worker.new t round.now.level)
        (F.tree_count round.now.forest.now) tree result.1 }
    ensures best { decided result.1 ≡ true → (result.0).me.0.best ≤ tree }
{
    let (mut seat, outcome) = search_tree(round, tree, worker, seat, steps);
    if is_decided(outcome) {
        publish(round.word, &mut seat, tree);
    }
    (seat, outcome)
}
