//! The text of `cost`: when a core issues each item of a region.

ghost use Rattle.std.specs.Prelude.{◌≡◌, ◌<◌, ◌≤◌, ◌++◌, nat_lt, length, IfOk, OnOk, IsTrue};
ghost use Rattle.std.specs.List.{list_all};
ghost use Rattle.asm_reader.specs.Regions.{AreNamed};
ghost use Rattle.sl_isa.specs.Language.{IsNamed};
ghost use Rattle.sl_isa.specs.SymbolViews.{pairs};
ghost use Rattle.sl_model.specs.Lawful.{IsValid, AreValid};
ghost use Rattle.sl_model.specs.declared.limits.TheConstants.{ITEMS};
ghost use Rattle.slothy_cli.specs.CostText.{cost_numbers, cost_line, cost_lines, cost_head, cost_text, own_stalls};
ghost use Rattle.slothy_cli.specs.Setting.{IsSetting};
ghost use Rattle.slothy_cli.specs.Shown.{setting_of};

use crate::problem::own_problem;
use crate::setting::Setting;
use core_text::Core;
use issue_cost::NoMemory;
use legal_space::{Choice, times_of};
use own_schedule::own_schedule;
use sl_base::{append, append_labelled};
use sl_isa::{Arch, Symbols};
use sl_model::instruction::Instr;
use std::alloc::Global;

/// Adds the first line: how many items there are, their cycles and their stalls.
fn push_head(out: &mut Vec<u8>, items: u64, cycles: u64, stalls: u64) -> Result<(), NoMemory>
    ensures { OnOk result (out.new.items ≡ out.old.items ++ cost_head items cycles stalls) }
{
    append_labelled(out, b"kind=straight n=", items)?;
    append_labelled(out, b" cycles=", cycles)?;
    append_labelled(out, b" stalls=", stalls)?;
    append(out, b"\n")
}

/// Adds the numbers of an item: its cycle, its unit, its place and its line in the file.
fn push_numbers(
    out: &mut Vec<u8>,
    cycle: u64,
    unit: &str,
    item: u64,
    line: u64,
) -> Result<(), NoMemory>
    ensures { OnOk result (out.new.items ≡ out.old.items ++ cost_numbers cycle unit.now item line) }
{
    append_labelled(out, b"c=", cycle)?;
    append(out, b" u=")?;
    append(out, unit.as_bytes())?;
    append_labelled(out, b" i=", item)?;
    append_labelled(out, b" line=", line)?;
    append(out, b" ")
}

/// Adds the line of an item that was chosen for a unit of a core.
fn push_line<A: Arch>(
    arch: &A,
    out: &mut Vec<u8>,
    symbols: &Symbols,
    core: &Core,
    item: &Instr,
    choice: &Choice,
    cycle: u32,
) -> Result<(), NoMemory>
    requires valid { IsValid A.language.isa item.now }
    requires named { IsNamed (pairs symbols.now) item.now }
    requires unit { choice.now.unit < length core.now.units }
    ensures { OnOk result (out.new.items ≡ out.old.items
        ++ cost_line (A.language.printed (pairs symbols.now)) core.now item.now choice.now cycle) }
{
    let unit = core.unit_name(choice.unit);
    let number = u64::from(choice.item);
    push_numbers(out, u64::from(cycle), unit, number, u64::from(item.line))?;
    arch.print_form(item, symbols, out)?;
    append(out, b"\n")
}

/// Adds a line for each item.
#[tactic(auto, unfolding(crate::specs::CostText::cost_lines))]
fn push_lines<A: Arch>(
    arch: &A,
    out: &mut Vec<u8>,
    symbols: &Symbols,
    core: &Core,
    items: &[Instr],
    choices: &[Choice],
    cycles: &[u32],
) -> Result<(), NoMemory>
    requires valid { AreValid A.language.isa items.now }
    requires named { AreNamed (pairs symbols.now) items.now }
    requires units { IsTrue (list_all (λ c. nat_lt c.unit (length core.now.units)) choices.now) }
    ensures { OnOk result (out.new.items ≡ out.old.items
        ++ cost_lines (A.language.printed (pairs symbols.now)) core.now items.now choices.now
        cycles.now) }
{
    let Some((item, items)) = items.split_first() else {
        return Ok(());
    };
    let Some((choice, choices)) = choices.split_first() else {
        return Ok(());
    };
    let Some((cycle, cycles)) = cycles.split_first() else {
        return Ok(());
    };
    push_line(arch, out, symbols, core, item, choice, *cycle)?;
    push_lines(arch, out, symbols, core, items, choices, cycles)
}

/// The stalls of a region on a core as it stands, of at most 64 items.
pub fn own_stalls<A: Arch>(
    arch: &A,
    alloc: Global,
    setting: Setting<'_, '_>,
) -> Result<u32, NoMemory>
    requires few { length setting.region.now.items.items ≤ ITEMS }
    requires valid { AreValid A.language.isa setting.region.now.items.items }
    requires rows { length setting.costs.now.rows ≡ length setting.region.now.items.items }
    ensures { IfOk result
        (λ stalls. stalls ≡ own_stalls A.language.isa (setting_of setting.entry)) }
{
    let problem = own_problem(arch, alloc, setting)?;
    let schedule = own_schedule(alloc, setting.core, &problem)?;
    let times = times_of(alloc, &problem, &schedule)?;
    Ok(times.stalls)
}

/// The text of `cost` for a region on a core, of at most 64 items: a line with how many items there
/// are, the cycles that they take and the stalls among these, and a line for each item, with the
/// names of its unit and of its symbolic registers.
#[tactic(auto, unfolding(crate::specs::CostText::cost_text))]
pub fn cost_text<A: Arch>(
    arch: &A,
    alloc: Global,
    setting: Setting<'_, '_>,
) -> Result<Vec<u8>, NoMemory>
    requires { IsSetting A.language (setting_of setting) }
    ensures { IfOk result (λ text. text.items ≡ cost_text A.language (setting_of setting.entry)) }
{
    let region = setting.region;
    let problem = own_problem(arch, alloc, setting)?;
    let schedule = own_schedule(alloc, setting.core, &problem)?;
    let times = times_of(alloc, &problem, &schedule)?;
    let mut text = Vec::new(alloc);
    push_head(
        &mut text,
        region.items.len() as u64,
        u64::from(times.count),
        u64::from(times.stalls),
    )?;
    push_lines(
        arch,
        &mut text,
        &region.symbols,
        setting.core,
        &region.items,
        &schedule,
        &times.cycles,
    )?;
    Ok(text)
}
