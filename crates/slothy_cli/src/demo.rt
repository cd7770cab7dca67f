//! The line of `demo`: what rescheduling a kernel gains.
ghost use Rattle.std.specs.Prelude.{◌≡◌, ◌≤◌, length, nat_lt, Ok, IfOk, IsTrue};
ghost use Rattle.std.specs.List.{list_all};
ghost use Rattle.sl_model.specs.Answers.{Gives, Settles};
ghost use Rattle.sl_model.specs.Space.{stalls_of};
ghost use Rattle.sl_model.specs.declared.limits.TheConstants.{ITEMS};
ghost use Rattle.slothy_cli.specs.DemoLine as spec;
ghost use Rattle.slothy_cli.specs.Outcome.{DemoAnswers};
ghost use Rattle.slothy_cli.specs.Setting.{IsSetting};
ghost use Rattle.slothy_cli.specs.Shown.{shown_aim, setting_of, stop_told};

use crate::best::best_of;
use crate::command::Aim;
use crate::cost::own_stalls;
use crate::setting::Setting;
use crate::stop::Failure;
use legal_space::{Choice, Problem, times_of};
use sl_base::{Gate, NoMemory, append, append_labelled};
use sl_isa::Arch;
use std::alloc::Global;
use std::thread::Threads;

// The line of a kernel: its key and its number of items, the stalls before and after.
fn demo_line(
    alloc: Global,
    key: u64,
    count: u64,
    before: u32,
    after: u32,
) -> Result<Vec<u8>, NoMemory>
    ensures { IfOk result (λ text. text.items ≡ spec.demo_line key count before after) }
{
    let mut text = Vec::new(alloc);
    append_labelled(&mut text, b"demo key=", key)?;
    append_labelled(&mut text, b" n=", count)?;
    append_labelled(&mut text, b" before=", u64::from(before))?;
    append_labelled(&mut text, b" after=", u64::from(after))?;
    append(&mut text, b"\n")?;
    Ok(text)
}

// The same, where the stalls behind are those of a schedule.
fn line_of(
    alloc: Global,
    problem: &Problem,
    schedule: &[Choice],
    key: u64,
    count: u64,
    before: u32,
) -> Result<Vec<u8>, Failure>
    requires few { length schedule.now ≤ ITEMS }
    requires known { IsTrue
        (list_all (λ c. nat_lt c.item (length problem.now.graph.items)) schedule.now) }
    requires units { IsTrue (list_all (λ c. nat_lt c.unit 16) schedule.now) }
    ensures { Gives stop_told (λ text. text.items) result
        (Ok (spec.demo_line key count before (stalls_of problem.now schedule.now))) }
{
    let times = times_of(alloc, problem, schedule)?;
    let line = demo_line(alloc, key, count, before, times.stalls)?;
    Ok(line)
}

/// The line of a kernel on a core, which is drawn from a key: the stalls of its region as it stands,
/// and those of the best schedule; or why there is no schedule, as `opt` says it.
pub fn demo_text<A: Arch, R: Threads + Sync, G: Gate + Sync>(
    arch: &A,
    rt: &R,
    alloc: Global,
    setting: Setting<'_, '_>,
    aim: Aim,
    key: u64,
    count: u64,
    gate: &G,
) -> Result<Vec<u8>, Failure>
    requires setting { IsSetting A.language (setting_of setting) }
    ensures { Settles stop_told (λ text. text.items) result
        (DemoAnswers A.language (shown_aim aim) key count (setting_of setting.entry)) }
{
    let before = own_stalls(arch, alloc, setting)?;
    match best_of(arch, rt, alloc, setting, aim, gate) {
        Ok(best) => {
            let problem = best.forest.problem();
            line_of(alloc, problem, &best.schedule, key, count, before)
        }
        Err(failure) => Err(failure),
    }
}
