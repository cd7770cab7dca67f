//! The workers of a race, in halves.
ghost use Rattle.std.specs.Prelude.{◌≡◌, ◌⊎◌, ℕ, ◌+◌, ◌<◌, ◌≤◌, length, min};
ghost use Rattle.std.specs.Thread.{IsSync};
ghost use Rattle.race_pool.specs.Half.{CanRun, HasRun};
ghost use Rattle.race_pool.specs.Ended.{least};

use crate::best::Best;
use crate::forest::Forest;
use crate::round::Round;
use crate::rule::Chair;
use crate::seats::{merge, part};
use crate::worker::run_worker;
use sl_base::Gate;
use std::thread::{Threads, join_mut};

// The lower of two trees.
fn lower(a: Option<Best>, b: Option<Best>) -> Option<Best>
    ensures one { (result ≡ a) ⊎ (result ≡ b) }
    ensures least { (count : ℕ) → least count a ≤ count → least count b ≤ count
        → least count result ≡ min (least count a) (least count b) }
{
    match (a, b) {
        (Some(x), Some(y)) => { if x.tree <= y.tree { Some(x) } else { Some(y) } }
        (Some(x), None) => Some(x),
        (None, y) => y,
    }
}

/// Workers take their trees, each half of them beside the other. The number of the first is given;
/// what comes back is the least tree that they published.
pub(crate) fn run_half<R: Threads + Sync, F: Forest + Sync, G: Gate + Sync>(
    round: &Round<'_, F, G>,
    rt: &R,
    first: usize,
    seat: &mut Chair,
    workers: &mut [F::Worker],
) -> Option<Best>
    requires { CanRun (λ t. F.outcome round.now.forest.now t round.now.level)
        (F.tree_count round.now.forest.now) (F.fits round.now.forest.now)
        round.now.word.now.table_id round.now.word.now.key round.now.stride first workers.old seat.old }
    ensures { HasRun (λ t. F.outcome round.now.forest.now t round.now.level)
        (F.tree_count round.now.forest.now) (F.fits round.now.forest.now)
        (λ w t. F.holds round.now.forest.now w t round.now.level) round.now.word.now.table_id
        round.now.word.now.key round.now.stride first (length workers.old) workers.new seat.new result }
{
    if workers.is_empty() {
        return None;
    }
    if workers.len() == 1 {
        return run_worker(round, first, &mut workers[0], seat);
    }
    let mid = workers.len() / 2;
    let middle = first + mid;
    let mut other = part(round.word, seat);
    let (front, back) = workers.split_at_mut(mid);
    let (a, b) = join_mut(
        rt,
        &mut || -> Option<Best>
            requires { IsSync R.row × IsSync F.row × IsSync G.row
                × CanRun (λ t. F.outcome round.now.forest.now t round.now.level)
                (F.tree_count round.now.forest.now) (F.fits round.now.forest.now)
                round.now.word.now.table_id round.now.word.now.key round.now.stride first front.now seat.now }
            ensures { HasRun (λ t. F.outcome round.entry.now.forest.now t round.entry.now.level)
                (F.tree_count round.entry.now.forest.now) (F.fits round.entry.now.forest.now)
                (λ w t. F.holds round.entry.now.forest.now w t round.entry.now.level)
                round.entry.now.word.now.table_id round.entry.now.word.now.key round.entry.now.stride
                first (length front.entry.now) front.exit.now seat.exit.now result }
        { run_half(round, rt, first, seat, front) },
        &mut || -> Option<Best>
            requires { IsSync R.row × IsSync F.row × IsSync G.row
                × CanRun (λ t. F.outcome round.now.forest.now t round.now.level)
                (F.tree_count round.now.forest.now) (F.fits round.now.forest.now)
                round.now.word.now.table_id round.now.word.now.key round.now.stride middle back.now other }
            ensures { HasRun (λ t. F.outcome round.entry.now.forest.now t round.entry.now.level)
                (F.tree_count round.entry.now.forest.now) (F.fits round.entry.now.forest.now)
                (λ w t. F.holds round.entry.now.forest.now w t round.entry.now.level)
                round.entry.now.word.now.table_id round.entry.now.word.now.key round.entry.now.stride
                middle (length back.entry.now) back.exit.now other.exit result }
        { run_half(round, rt, middle, &mut other, back) },
    );
    merge(round.word, seat, other);
    lower(a, b)
}
