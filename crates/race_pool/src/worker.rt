//! One worker of a race, at a seat that is lent.
ghost use Rattle.std.specs.Prelude.{◌≡◌, ◌<◌, ◌≤◌};
ghost use Rattle.race_pool.specs.Decisive.{level_of};
ghost use Rattle.race_pool.specs.Seats.{IsSeated};
ghost use Rattle.race_pool.specs.Ended.{least, IsFound, Ended};

use crate::best::Best;
use crate::forest::Forest;
use crate::round::Round;
use crate::rule::Chair;
use crate::scan::scan;
use crate::seats::{merge, part};
use sl_base::Gate;
use std::marker::Brand;
use std::sync::ledger::Blank;

/// A worker takes its trees at a seat of its own, and hands back the tree that it published.
pub(crate) fn run_worker<F: Forest, G: Gate>(
    round: &Round<'_, F, G>,
    first: usize,
    worker: &mut F::Worker,
    seat: &mut Chair,
) -> Option<Best>
    requires level { round.now.word.now.key
        ≡ level_of (λ t. F.outcome round.now.forest.now t round.now.level)
        (F.tree_count round.now.forest.now) }
    requires seated { IsSeated round.now.word.now.table_id round.now.word.now.key seat.old }
    requires first { first < round.now.stride }
    requires fits { F.fits round.now.forest.now worker.old }
    ensures fits { F.fits round.now.forest.now worker.new }
    ensures seated { IsSeated round.now.word.now.table_id round.now.word.now.key seat.new }
    ensures best { seat.new.me.0.best ≤ least (F.tree_count round.now.forest.now) result }
    ensures found { IsFound (λ t. F.outcome round.now.forest.now t round.now.level)
        (F.tree_count round.now.forest.now) result }
    ensures ended { Ended (λ t. F.outcome round.now.forest.now t round.now.level)
        (F.tree_count round.now.forest.now) round.now.stride
        (least (F.tree_count round.now.forest.now) result)
        (λ t. F.holds round.now.forest.now worker.new t round.now.level) first }
{
    if first >= round.forest.trees() as usize {
        return None;
    }
    let own = part(round.word, seat);
    let (own, best) = scan::<F, G, Brand>(Blank::new(1), round, first as u32, worker, own);
    merge(round.word, seat, own);
    best
}
