//! The problem of a region on a core.
ghost use Rattle.std.specs.Prelude.{◌≡◌, ◌≤◌, length, IfOk};
ghost use Rattle.sl_model.specs.Lawful.{AreValid};
ghost use Rattle.sl_model.specs.declared.limits.TheConstants.{ITEMS};
ghost use Rattle.slothy_cli.specs.CostText.{own_problem};
ghost use Rattle.slothy_cli.specs.Plan.{region_problem};
ghost use Rattle.slothy_cli.specs.Shown.{shown_aim, setting_of};

use crate::command::Aim;
use crate::setting::Setting;
use issue_cost::NoMemory;
use legal_space::{Problem, frame_of};
use sl_isa::Arch;
use sl_model::register::RegSet;
use std::alloc::Global;

/// The problem of a region on a core, of at most 64 items, with the registers that are live behind
/// it and those that are free.
pub fn region_problem<A: Arch>(
    arch: &A,
    alloc: Global,
    setting: Setting<'_, '_>,
    aim: Aim,
) -> Result<Problem, NoMemory>
    requires few { length setting.region.now.items.items ≤ ITEMS }
    requires valid { AreValid A.language.isa setting.region.now.items.items }
    requires rows { length setting.costs.now.rows ≡ length setting.region.now.items.items }
    ensures { IfOk result (λ problem. problem
        ≡ region_problem A.language.isa (shown_aim aim) (setting_of setting.entry)) }
{
    let items = &setting.region.items;
    let frame = frame_of(alloc, items, aim.live, aim.free)?;
    Problem::straight(arch, alloc, items, frame, setting.costs)
}

/// The problem of the same as it stands: no register is free, and what lives on behind it doesn't
/// matter.
pub fn own_problem<A: Arch>(
    arch: &A,
    alloc: Global,
    setting: Setting<'_, '_>,
) -> Result<Problem, NoMemory>
    requires few { length setting.region.now.items.items ≤ ITEMS }
    requires valid { AreValid A.language.isa setting.region.now.items.items }
    requires rows { length setting.costs.now.rows ≡ length setting.region.now.items.items }
    ensures { IfOk result
        (λ problem. problem ≡ own_problem A.language.isa (setting_of setting.entry)) }
{
    let aim = Aim {
        live: None,
        free: RegSet { bits: 0 },
        most: 0,
        budget: 0,
        workers: 1,
    };
    region_problem(arch, alloc, setting, aim)
}
