//! The trees of one worker of a race.
ghost use Rattle.std.specs.Prelude.{◌≡◌, ◌<◌, ◌≤◌};
ghost use Rattle.race_pool.specs.Decisive.{level_of};
ghost use Rattle.race_pool.specs.Seats.{IsSeated};
ghost use Rattle.race_pool.specs.Ended.{least, IsFound, Ended};

use crate::best::Best;
use crate::forest::{Forest, Outcome};
use crate::round::Round;
use crate::rule::Chair;
use crate::turn::take_turn;
use sl_base::{Gate, Steps};
use std::sync::ledger::{Blank, Ledger};

/// A worker takes its trees, from the first on, until one has something or it is told to stop.
pub(crate) fn scan<F: Forest, G: Gate, L: Ledger>(
    blank: Blank,
    round: &Round<'_, F, G>,
    first: u32,
    worker: &mut F::Worker,
    seat: Chair,
) -> (Chair, Option<Best>)
    requires name { blank.name ≡ L.name }
    requires parts { blank.parts ≡ L.parts }
    requires some { 0 < blank.parts }
    requires level { round.now.word.now.key
        ≡ level_of (λ t. F.outcome round.now.forest.now t round.now.level)
        (F.tree_count round.now.forest.now) }
    requires seated { IsSeated round.now.word.now.table_id round.now.word.now.key seat }
    requires first { (first < round.now.stride) × (first < F.tree_count round.now.forest.now) }
    requires fits { F.fits round.now.forest.now worker.old }
    ensures fits { F.fits round.now.forest.now worker.new }
    ensures seated { IsSeated round.now.word.now.table_id round.now.word.now.key result.0 }
    ensures best { (result.0).me.0.best ≤ least (F.tree_count round.now.forest.now) result.1 }
    ensures found { IsFound (λ t. F.outcome round.now.forest.now t round.now.level)
        (F.tree_count round.now.forest.now) result.1 }
    ensures ended { Ended (λ t. F.outcome round.now.forest.now t round.now.level)
        (F.tree_count round.now.forest.now) round.now.stride
        (least (F.tree_count round.now.forest.now) result.1)
        (λ t. F.holds round.now.forest.now worker.new t round.now.level) first }
{
    let mut steps = Steps::<L>::new(blank);
    let count = round.forest.trees();
    let mut seat = seat;
    let mut tree = first;
    loop {
        let (kept, outcome) = take_turn(round, tree, worker, seat, &mut steps);
        seat = kept;
        match outcome {
            Outcome::Found => return (seat, Some(Best { tree, spent: false })),
            Outcome::Spent => return (seat, Some(Best { tree, spent: true })),
            Outcome::Cancelled => return (seat, None),
            Outcome::Nothing => {}
        }
        if round.stride >= (count - tree) as usize {
            return (seat, None);
        }
        tree += round.stride as u32;
    }
}
