//! The text of `opt`: the written file of the best schedule of a region.
ghost use Rattle.std.specs.Prelude.{◌≡◌, ◌≤◌, List, length, nat_lt, Ok, IsTrue};
ghost use Rattle.std.specs.List.{list_all};
ghost use Rattle.sl_model.specs.Body.{applied};
ghost use Rattle.sl_model.specs.Graph.{body_of};
ghost use Rattle.sl_model.specs.Legal.{IsFullLegal};
ghost use Rattle.renamer.specs.WellPosed.{IsGraphOf};
ghost use Rattle.sl_model.specs.declared.limits.TheConstants.{ITEMS};
ghost use Rattle.sl_isa.specs.SymbolViews.{pairs};
ghost use Rattle.asm_reader.specs.Regions.{AreNamed, is_right_unit};
ghost use Rattle.asm_reader.specs.RegionViews.{region_of};
ghost use Rattle.asm_printer.specs.Printed.{is_whole_plan};
ghost use Rattle.slothy_cli.specs.Plan as plans;
ghost use Rattle.slothy_cli.specs.Plan.{schedule_file};
ghost use Rattle.slothy_cli.specs.Outcome.{OptAnswers};
ghost use Rattle.slothy_cli.specs.Setting.{IsSetting};
ghost use Rattle.sl_model.specs.Answers.{Settles};
ghost use Rattle.slothy_cli.specs.Shown.{shown_aim, setting_of, stop_told};

use crate::best::best_of;
use crate::command::Aim;
use crate::plan::plan_of;
use crate::setting::Setting;
use crate::stop::Failure;
use asm_printer::{Program, print_region};
use legal_space::{Choice, Problem, times_of};
use renamer::apply;
use sl_base::Gate;
use sl_isa::Arch;
use std::alloc::Global;
use std::thread::Threads;

// The written file of a full legal schedule of the items of a region, each on a unit of the core.
#[tactic(auto, unfolding(crate::specs::Plan::plan_of))]
fn written_file<A: Arch>(
    arch: &A,
    alloc: Global,
    problem: &Problem,
    setting: Setting<'_, '_>,
    schedule: &[Choice],
) -> Result<Vec<u8>, Failure>
    requires few { length schedule.now ≤ ITEMS }
    requires known { IsTrue
        (list_all (λ c. nat_lt c.item (length problem.now.graph.items)) schedule.now) }
    requires units { IsTrue (list_all (λ c. nat_lt c.unit 16) schedule.now) }
    requires on_core { IsTrue
        (list_all (λ c. nat_lt c.unit (length setting.core.now.units)) schedule.now) }
    requires graph { IsGraphOf A.language.isa problem.now.graph }
    requires legal { IsFullLegal problem.now schedule.now }
    requires named { AreNamed (pairs setting.region.now.symbols)
        (applied (body_of problem.now.graph) schedule.now) }
    ensures { Settles stop_told (λ text. text.items) result
        (λ answer. (answer
        ≡ Ok (schedule_file A.language setting.entry.core.now (region_of setting.entry.region.now) problem.now
        schedule.now))
        × IsTrue (is_whole_plan (plans.plan_of setting.entry.core.now problem.now schedule.now))
        × IsTrue (list_all (λ note. is_right_unit note.unit)
        (plans.plan_of setting.entry.core.now problem.now schedule.now).notes)) }
{
    let items = apply(alloc, problem, problem.items(), schedule)?;
    let times = times_of(alloc, problem, schedule)?;
    let plan = plan_of(alloc, setting.core, &items, schedule, &times)?;
    let program = Program { items };
    let mut text = Vec::new(alloc);
    print_region(arch, alloc, setting.region, &program, &plan, &mut text)?;
    Ok(text)
}

/// The written file of the best schedule of a region on a core; or that no schedule has few enough
/// stalls; or where the budget was spent.
pub fn opt_text<A: Arch, R: Threads + Sync, G: Gate + Sync>(
    arch: &A,
    rt: &R,
    alloc: Global,
    setting: Setting<'_, '_>,
    aim: Aim,
    gate: &G,
) -> Result<Vec<u8>, Failure>
    requires setting { IsSetting A.language (setting_of setting) }
    ensures { Settles stop_told (λ text. text.items) result
        (OptAnswers A.language (shown_aim aim) (setting_of setting.entry)) }
{
    match best_of(arch, rt, alloc, setting, aim, gate) {
        Ok(best) => {
            let problem = best.forest.problem();
            written_file(arch, alloc, problem, setting, &best.schedule)
        }
        Err(failure) => Err(failure),
    }
}
