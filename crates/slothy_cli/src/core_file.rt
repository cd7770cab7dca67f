//! The core of a command, and what a region costs on it.
ghost use Rattle.std.specs.Prelude.{◌≡◌, IfOk};
ghost use Rattle.asm_reader.specs.RegionViews.{region_of};
ghost use Rattle.asm_reader.specs.Regions.{IsRegion};
ghost use Rattle.sl_model.specs.Answers.{Gives};
ghost use Rattle.slothy_cli.specs.Command.{region_wants};
ghost use Rattle.slothy_cli.specs.Inputs.{file_core, region_costs};
ghost use Rattle.slothy_cli.specs.Setting.{IsSetting};
ghost use Rattle.slothy_cli.specs.Shown.{shown_job, stop_told};

use crate::command::Job;
use crate::stop::{Failure, File, Reason, Stop};
use asm_reader::Region;
use core_models::{CostErr, costs};
use core_text::{Core, CoreErr, read_core};
use issue_cost::Costs;
use sl_isa::Arch;
use std::alloc::Global;

/// The core that the bytes of its file tell.
#[tactic(auto, unfolding(crate::specs::Inputs::file_core))]
pub fn file_core<A: Arch>(arch: &A, alloc: Global, bytes: &[u8]) -> Result<Core, Failure>
    ensures { Gives stop_told (λ core. core) result (file_core A.language bytes.now) }
{
    match read_core(alloc, bytes, arch.name()) {
        Ok(core) => Ok(core),
        Err(CoreErr::Refused { reason, key }) => {
            Err(Failure::Stopped(Stop::CoreRefused { reason, key }))
        }
        Err(CoreErr::NoMemory) => Err(Failure::NoMemory),
    }
}

/// What the items of a job's region cost on a core; or, at its line, the first whose class the core
/// says nothing of.
#[tactic(auto, unfolding(crate::specs::Inputs::region_costs))]
pub fn region_costs<A: Arch>(
    arch: &A,
    alloc: Global,
    job: Job,
    core: &Core,
    region: &Region<'_>,
) -> Result<Costs, Failure>
    requires right { IsRegion A.language region_wants (region_of region.now) }
    ensures costs { Gives stop_told (λ costs. costs) result
        (region_costs A.language (shown_job job) core.now (region_of region.now)) }
    ensures setting { IfOk result (λ costs. IsSetting A.language
        (record { core = core.now; region = region_of region.now; costs = costs })) }
{
    match costs(alloc, core, arch, &region.items) {
        Ok(costs) => Ok(costs),
        Err(CostErr::ClassMissing { item, .. }) => Err(Failure::Stopped(Stop::Refused {
            file: File::Input,
            line: job.line(region.items[usize::from(item)].line),
            reason: Reason::ClassMissing,
        })),
        Err(CostErr::NoMemory) => Err(Failure::NoMemory),
    }
}
