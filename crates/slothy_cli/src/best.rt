//! The search of the problem of a region.
ghost use Rattle.std.specs.Prelude.{◌≡◌, false, length, nat_lt, Some, IfOk, IfErr};
ghost use Rattle.sl_model.specs.Answers.{Gives, Settles};
ghost use Rattle.search_space.specs.Levels.{straight_trees};
ghost use Rattle.search_space.specs.Searchable.{IsSearchable};
ghost use Rattle.bnb_solver.specs.Solved.{verdict_of};
ghost use Rattle.bnb_solver.specs.declared.refusal.TheConstants.{TREES};
ghost use Rattle.slothy_cli.specs.declared.stop.Stop.TheVariants as stops;
ghost use Rattle.slothy_cli.specs.Outcome.{ForestAnswers, trees_stop};
ghost use Rattle.slothy_cli.specs.Plan.{region_problem};
ghost use Rattle.slothy_cli.specs.Searched as spec;
ghost use Rattle.slothy_cli.specs.Searched.{searched, region_searched, IsOutOfReach, IsBestOf};
ghost use Rattle.slothy_cli.specs.Setting.{IsSetting};
ghost use Rattle.slothy_cli.specs.Shown.{shown_aim, setting_of, stop_told};

use crate::command::Aim;
use crate::problem::region_problem;
use crate::setting::Setting;
use crate::stop::{Failure, File, Quantity, Stop};
use bnb_solver::{ForestErr, Solution, StraightForest, solve};
use legal_space::{Choice, Problem};
use sl_base::Gate;
use sl_isa::Arch;
use std::alloc::Global;
use std::thread::Threads;

/// The best schedule of a region's problem, and the trees of this problem.
#[derive(Drop)]
pub(crate) struct Best {
    /// The trees.
    pub forest: StraightForest,
    /// The schedule.
    pub schedule: Vec<Choice>,
}

// The trees of a problem; there may be too many.
fn forest_of(alloc: Global, problem: Problem, budget: u64) -> Result<StraightForest, Failure>
    ensures { Settles stop_told (λ forest. forest) result (ForestAnswers problem budget) }
{
    match StraightForest::new(alloc, problem, budget) {
        Ok(forest) => Ok(forest),
        Err(error) => Err(refused(error)),
    }
}

// Why there is no text where there are no trees.
fn refused(error: ForestErr) -> Failure
    ensures { stop_told result ≡ trees_stop error }
{
    match error {
        ForestErr::TooManyTrees { limit } => Failure::Stopped(Stop::TooLarge {
            file: File::Input,
            line: 0,
            quantity: Quantity::Trees,
            limit: u64::from(limit),
        }),
        ForestErr::NoMemory => Failure::NoMemory,
    }
}

// The trees of the problem of a region.
fn forest_for<A: Arch>(
    arch: &A,
    alloc: Global,
    setting: Setting<'_, '_>,
    aim: Aim,
) -> Result<StraightForest, Failure>
    requires { IsSetting A.language (setting_of setting) }
    ensures { Settles stop_told (λ forest. forest) result (ForestAnswers
        (region_problem A.language.isa (shown_aim aim) (setting_of setting.entry)) aim.budget) }
{
    let problem = region_problem(arch, alloc, setting, aim)?;
    forest_of(alloc, problem, aim.budget)
}

// The schedule of a solution, or the reason why it has none.
fn schedule_in(most: u32, solution: Solution) -> Result<Vec<Choice>, Failure>
    ensures { Gives stop_told (λ schedule. schedule.items) result
        (spec.schedule_in most (verdict_of solution)) }
{
    match solution {
        Solution::Found { schedule, .. } => Ok(schedule),
        Solution::Spent { level, tree } => Err(Failure::Stopped(Stop::Budget { level, tree })),
        Solution::Infeasible => Err(Failure::Stopped(Stop::Infeasible { most })),
    }
}

// The schedule that the search of a problem's trees gives, of which there aren't too many.
#[tactic(auto, unfolding(crate::specs::Searched::searched))]
fn search_trees<R: Threads + Sync, G: Gate + Sync>(
    rt: &R,
    alloc: Global,
    forest: &StraightForest,
    aim: Aim,
    gate: &G,
) -> Result<Vec<Choice>, Failure>
    requires few { nat_lt TREES (length (straight_trees forest.now.problem)) ≡ false }
    ensures { Gives stop_told (λ schedule. schedule.items) result
        (searched forest.now.problem aim.most forest.now.budget) }
{
    let solution = solve(rt, alloc, forest, aim.most, aim.workers, gate)?;
    schedule_in(aim.most, solution)
}

// The best schedule of the problem of trees, of which there aren't too many.
fn best_in<R: Threads + Sync, G: Gate + Sync>(
    rt: &R,
    alloc: Global,
    forest: StraightForest,
    aim: Aim,
    gate: &G,
) -> Result<Best, Failure>
    requires few { nat_lt TREES (length (straight_trees forest.problem)) ≡ false }
    ensures answer { Gives stop_told (λ best. best.schedule.items) result
        (searched forest.problem aim.most forest.budget) }
    ensures same { IfOk result (λ best. best.forest ≡ forest) }
    ensures searchable { IsSearchable forest.problem }
{
    let problem = forest.problem();
    problem.is_searchable();
    match search_trees(rt, alloc, &forest, aim, gate) {
        Ok(schedule) => Ok(Best { forest, schedule }),
        Err(failure) => Err(failure),
    }
}

/// The best schedule of the problem of a region; or that no schedule, whatever its registers, has few
/// enough stalls; or where the budget was spent; or that there are too many trees.
pub(crate) fn best_of<A: Arch, R: Threads + Sync, G: Gate + Sync>(
    arch: &A,
    rt: &R,
    alloc: Global,
    setting: Setting<'_, '_>,
    aim: Aim,
    gate: &G,
) -> Result<Best, Failure>
    requires setting { IsSetting A.language (setting_of setting) }
    ensures answer { Gives stop_told (λ best. best.schedule.items) result
        (region_searched A.language.isa (shown_aim aim) (setting_of setting.entry)) }
    ensures best { IfOk result (λ best. IsBestOf A.language.isa (shown_aim aim)
        (setting_of setting.entry) best.forest.problem best.schedule.items) }
    ensures out_of_reach { IfErr result (λ failure. stop_told failure ≡ Some (stops.Infeasible aim.most)
        → IsOutOfReach (region_problem A.language.isa (shown_aim aim) (setting_of setting.entry))
        aim.most) }
{
    match forest_for(arch, alloc, setting, aim) {
        Ok(forest) => best_in(rt, alloc, forest, aim, gate),
        Err(failure) => Err(failure),
    }
}
