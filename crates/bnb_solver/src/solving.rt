//! The verdict of a straight problem.
ghost use Rattle.std.specs.Prelude.{◌≡◌, length, max, All, IfOk};
ghost use Rattle.search_space.specs.Levels.{straight_trees, outcome, verdict};
ghost use Rattle.search_space.specs.Levels.Outcome.{Found};
ghost use Rattle.race_pool.specs.Verdict.{IsVerdict, HoldsVerdict};
ghost use Rattle.bnb_solver.specs.Solved.{verdict_of};
ghost use Rattle.bnb_solver.specs.Straight.{beginnings, tree_at};
ghost use Rattle.bnb_solver.specs.Telling.{plain};

use crate::straight::StraightForest;
use crate::work::Work;
use race_pool::{Verdict, find_verdict};
use sl_base::{Gate, NoMemory};
use sl_model::schedule::Choice;
use std::alloc::{AllocError, Global};
use std::thread::Threads;

/// What the search of a straight problem comes to.
#[derive(Drop)]
pub enum Solution {
    /// The best schedule of the space, and where it was found.
    Found {
        level: u32,
        tree: u32,
        schedule: Vec<Choice>,
    },
    /// The budget was spent in a tree at a level.
    Spent {
        level: u32,
        tree: u32,
    },
    /// The space is empty.
    Infeasible,
}

// Rooms for problems of at most so many items: one for each worker, where 0 counts as one.
fn rooms_for(alloc: Global, workers: u32, items: usize) -> Result<Vec<Work>, NoMemory>
    ensures count { IfOk result (λ rooms. length rooms.items ≡ max workers 1) }
    ensures room { IfOk result (λ rooms. All (λ work. work.room ≡ items) rooms.items) }
{
    let count = workers.max(1);
    let mut rooms = Vec::new(alloc);
    for _ in 0..count {
        let room = Work::with_room(alloc, items)?;
        rooms.push(room).map_err(AllocError::from)?;
    }
    Ok(rooms)
}

/// The verdict of the trees of a straight problem, over the levels from 0 up to one, by so many
/// workers, where 0 counts as one. Their rooms are made before the first search.
pub fn solve<R: Threads + Sync, G: Gate + Sync>(
    rt: &R,
    alloc: Global,
    forest: &StraightForest,
    most: u32,
    workers: u32,
    gate: &G,
) -> Result<Solution, NoMemory>
    ensures { IfOk result (λ solution.
        verdict (straight_trees forest.now.problem) most forest.now.budget ≡ verdict_of solution) }
{
    let mut rooms = rooms_for(alloc, workers, forest.problem().len())?;
    let answer = find_verdict(rt, alloc, forest, most, &mut rooms, gate)?;
    solution_of(alloc, forest, most, answer, &rooms)
}

// The solution of a verdict, whose worker holds what was found.
fn solution_of(
    alloc: Global,
    forest: &StraightForest,
    most: u32,
    answer: Verdict,
    workers: &[Work],
) -> Result<Solution, NoMemory>
    requires verdict { IsVerdict
        (λ tree level. plain (outcome forest.now.budget level (tree_at forest.now.problem tree)))
        (length (beginnings forest.now.problem)) most answer }
    requires held { HoldsVerdict
        (λ work tree level. outcome forest.now.budget level (tree_at forest.now.problem tree)
        ≡ Found work.found) workers.now answer }
    ensures { IfOk result (λ solution.
        verdict (straight_trees forest.now.problem) most forest.now.budget ≡ verdict_of solution) }
{
    let Verdict::First {
        level,
        tree,
        worker,
        spent,
    } = answer
    else {
        return Ok(Solution::Infeasible);
    };
    if spent {
        return Ok(Solution::Spent { level, tree });
    }
    let Some(work) = workers.get(worker as usize) else {
        unreachable!();
    };
    let schedule = Vec::from_slice(alloc, work.found())?;
    Ok(Solution::Found {
        level,
        tree,
        schedule,
    })
}
