//! The race of workers over the trees of one level.
ghost use Rattle.std.specs.Prelude.{◌≡◌, ◌<◌, length, All, IfOk, IfErr};
ghost use Rattle.race_pool.specs.Ended.{least};
ghost use Rattle.race_pool.specs.Half.{CanRun};
ghost use Rattle.race_pool.specs.Level.{IsLevelAnswer, HoldsFirst};
ghost use Rattle.race_pool.specs.Settled.{Answered};

use crate::best::Best;
use crate::forest::Forest;
use crate::halves::run_half;
use crate::key::Key;
use crate::round::Round;
use crate::rule::{Chair, Race, View};
use crate::seats::read_word;
use atomic_table::Table;
use sl_base::{Gate, NoMemory};
use std::alloc::Global;
use std::thread::Threads;

/// What the trees of a level have.
#[derive(Clone, Copy)]
pub enum LevelAnswer {
    /// None has anything.
    AllNothing,
    /// The first that has something: whether its budget was spent; and where it wasn't, which worker
    /// holds its solution.
    First { tree: u32, worker: u32, spent: bool },
}

// The least tree that was published, and the word that all workers leave: it is this tree, or the
// number of trees.
fn race<R: Threads + Sync, F: Forest + Sync, G: Gate + Sync>(
    round: &Round<'_, F, G>,
    rt: &R,
    workers: &mut [F::Worker],
    seat: Chair,
) -> (Option<Best>, u64)
    requires some { 0 < length workers.old }
    requires all { round.now.stride ≡ length workers.old }
    requires start { CanRun (λ t. F.outcome round.now.forest.now t round.now.level)
        (F.tree_count round.now.forest.now) (F.fits round.now.forest.now)
        round.now.word.now.table_id round.now.word.now.key round.now.stride 0 workers.old seat }
    ensures fits { All (F.fits round.now.forest.now) workers.new }
    ensures kept { length workers.new ≡ length workers.old }
    ensures answered { Answered (λ t. F.outcome round.now.forest.now t round.now.level)
        (F.tree_count round.now.forest.now) round.now.stride
        (λ w t. F.holds round.now.forest.now w t round.now.level) workers.new result.0 }
    ensures word { result.1 ≡ least (F.tree_count round.now.forest.now) result.0 }
{
    let mut seat = seat;
    let best = run_half(round, rt, 0, &mut seat, workers);
    (best, read_word(round.word, &mut seat))
}

/// The first tree of a level that has something. Worker k of w takes the trees k, k + w and so on; it
/// stops where it has something, where it has no tree left, and where a tree below its own has
/// something. The only memory is the table of the word that they share, made before any worker starts.
pub fn run_level<R: Threads + Sync, F: Forest + Sync, G: Gate + Sync>(
    rt: &R,
    alloc: Global,
    forest: &F,
    level: u32,
    workers: &mut [F::Worker],
    gate: &G,
) -> Result<LevelAnswer, NoMemory>
    requires some { 0 < length workers.old }
    requires fits { All (F.fits forest.now) workers.old }
    ensures fits { All (F.fits forest.now) workers.new }
    ensures kept { length workers.new ≡ length workers.old }
    ensures answer { IfOk result (IsLevelAnswer (λ t. F.outcome forest.now t level)
        (F.tree_count forest.now)) }
    ensures held { IfOk result (HoldsFirst (λ w t. F.holds forest.now w t level) workers.new) }
    ensures refused { IfErr result (λ _. workers.new ≡ workers.old) }
{
    let key = Key::new(forest, level);
    let count = u64::from(forest.trees());
    let Ok((table, seat)) = Table::<(), View, Key<F>, Race, Global>::of_words(alloc, &[count], &key)
    else {
        return Err(NoMemory);
    };
    let stride = workers.len();
    let round = Round {
        forest,
        level,
        stride,
        gate,
        word: &table.shared,
    };
    let (best, _word) = race(&round, rt, workers, seat);
    match best {
        Some(best) => Ok(LevelAnswer::First {
            tree: best.tree,
            worker: (best.tree as usize % stride) as u32,
            spent: best.spent,
        }),
        None => Ok(LevelAnswer::AllNothing),
    }
}
