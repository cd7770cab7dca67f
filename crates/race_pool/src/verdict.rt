//! The levels, one after the other.
ghost use Rattle.std.specs.Prelude.{◌≡◌, ℕ, ◌<◌, length, All, IfOk};
ghost use Rattle.race_pool.specs.Verdict.{IsVerdict, HoldsVerdict};

use crate::forest::Forest;
use crate::level::{LevelAnswer, run_level};
use sl_base::{Gate, NoMemory};
use std::alloc::Global;
use std::thread::Threads;

/// What a search of the levels from 0 on comes to.
#[derive(Clone, Copy)]
pub enum Verdict {
    /// No tree has anything at any level.
    Infeasible,
    /// The first tree of the first level that has something: whether its budget was spent; and where
    /// it wasn't, which worker holds its solution.
    First {
        level: u32,
        tree: u32,
        worker: u32,
        spent: bool,
    },
}

/// The verdict of a forest over the levels from 0 up to one.
pub fn find_verdict<R: Threads + Sync, F: Forest + Sync, G: Gate + Sync>(
    rt: &R,
    alloc: Global,
    forest: &F,
    most: u32,
    workers: &mut [F::Worker],
    gate: &G,
) -> Result<Verdict, NoMemory>
    requires some { 0 < length workers.old }
    requires fits { All (F.fits forest.now) workers.old }
    ensures fits { All (F.fits forest.now) workers.new }
    ensures kept { length workers.new ≡ length workers.old }
    ensures verdict { IfOk result
        (IsVerdict (F.outcome forest.now) (F.tree_count forest.now) most) }
    ensures held { IfOk result (HoldsVerdict (F.holds forest.now) workers.new) }
{
    let mut level = 0;
    loop {
        let answer = run_level(rt, alloc, forest, level, workers, gate)?;
        if let LevelAnswer::First {
            tree,
            worker,
            spent,
        } = answer
        {
            return Ok(Verdict::First {
                level,
                tree,
                worker,
                spent,
            });
        }
        if level == most {
            return Ok(Verdict::Infeasible);
        }
        level += 1;
    }
}
