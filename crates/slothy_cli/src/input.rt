//! The region of a file: its items, or why it has none.
ghost use Rattle.std.specs.Prelude.{◌≡◌, ◌≤◌, ◌<◌, ◌^◌, length, IfOk, Result};
ghost use Rattle.asm_reader.specs.Reading.{Region as RegionValue};
ghost use Rattle.asm_reader.specs.Views.{refusal_of};
ghost use Rattle.asm_reader.specs.declared.reasons.Refusal.{Refusal as RefusalValue};
ghost use Rattle.asm_reader.specs.Regions.{IsRegion};
ghost use Rattle.asm_reader.specs.RegionViews.{region_of};
ghost use Rattle.sl_model.specs.Answers.{Answers, Gives, Refuses};
ghost use Rattle.slothy_cli.specs.Command.{region_wants};
ghost use Rattle.slothy_cli.specs.Inputs.{text_from, expand_stop, stop_at, region_or, region_from, file_region};
ghost use Rattle.slothy_cli.specs.declared.stop.File.TheVariants.{Input};
ghost use Rattle.slothy_cli.specs.declared.stop.Stop.TheVariants.{TooLarge};
ghost use Rattle.slothy_cli.specs.Shown.{shown, shown_task, stop_told};
ghost use Rattle.sl_model.specs.declared.limits.TheConstants.{FILE_BYTES};

use crate::command::Command;
use crate::stop::{Failure, File, Quantity, Reason, Stop};
use asm_reader::{ReadRefusal, Reason as RegionReason, Refusal, Region, Wants, read_region};
use macro_expand::ExpandReason;
use sl_isa::Arch;
use sl_model::limits::ITEMS;
use sl_text::{CutRefusal, text_of};
use std::alloc::Global;

/// The bytes of a file as a text.
pub fn text_from(file: File, bytes: &[u8]) -> Result<&str, Stop>
    requires { length bytes.now < 2 ^ 31 }
    ensures answer { Answers (λ text. text.now) result (text_from file bytes.now) }
    ensures same { IfOk result (λ text. text.now ≡ bytes.now) }
{
    match text_of(bytes) {
        Ok(text) => Ok(text),
        Err(fault) => Err(Stop::Refused {
            file,
            line: fault.line,
            reason: Reason::NotText,
        }),
    }
}

// Why there is no text, where a region isn't expanded.
fn expand_stop(line: u32, reason: ExpandReason) -> Stop
    ensures { result ≡ expand_stop line reason }
{
    let reason = match reason {
        ExpandReason::NoEndm => Reason::NoEndm,
        ExpandReason::MacroTwice => Reason::MacroTwice,
        ExpandReason::MacroShape => Reason::MacroShape,
        ExpandReason::ArgCount => Reason::ArgCount,
        ExpandReason::ParamUnknown => Reason::ParamUnknown,
        ExpandReason::AliasTwice => Reason::AliasTwice,
        ExpandReason::AliasUnknown => Reason::AliasUnknown,
        ExpandReason::Depth { limit } => return too_large(line, Quantity::Depth, limit),
        ExpandReason::ExpansionSize { limit } => {
            return too_large(line, Quantity::Expansion, limit);
        }
    };
    Stop::Refused {
        file: File::Input,
        line,
        reason,
    }
}

// A quantity of the region passes its limit.
fn too_large(line: u32, quantity: Quantity, limit: u32) -> Stop
    ensures { result ≡ TooLarge Input line quantity limit }
{
    Stop::TooLarge {
        file: File::Input,
        line,
        quantity,
        limit: u64::from(limit),
    }
}

// Why there is no text, where a region is refused.
fn stop_of(refusal: Refusal) -> Stop
    ensures { result ≡ stop_at refusal.line refusal.reason }
{
    let line = refusal.line;
    let reason = match refusal.reason {
        RegionReason::Cut(CutRefusal::NoStart) => Reason::NoStart,
        RegionReason::Cut(CutRefusal::NoEnd) => Reason::NoEnd,
        RegionReason::Cut(CutRefusal::Twice { .. }) => Reason::Twice,
        RegionReason::Form(form) => Reason::Form(form),
        RegionReason::TagBad => Reason::TagBad,
        RegionReason::SymbolUnset => Reason::SymbolUnset,
        RegionReason::NotYet => Reason::NotYet,
        RegionReason::Expand(reason) => return expand_stop(line, reason),
        RegionReason::TooMany(limit) => {
            return too_large(line, Quantity::Items, u32::from(limit));
        }
    };
    Stop::Refused {
        file: File::Input,
        line,
        reason,
    }
}

// The failure where a text gives no region.
fn failure_of(failure: ReadRefusal) -> Failure
    ensures { (answer : Result RegionValue RefusalValue) → Refuses (refusal_of failure) answer
        → Refuses (stop_told result) (region_or answer) }
{
    match failure {
        ReadRefusal::Refused(refusal) => Failure::Stopped(stop_of(refusal)),
        ReadRefusal::NoMemory => Failure::NoMemory,
    }
}

// The region of a text.
fn region_from<'a, A: Arch>(
    arch: &A,
    alloc: Global,
    command: &Command<'_>,
    text: &'a str,
) -> Result<Region<'a>, Failure>
    requires { length text.now < 2 ^ 31 }
    ensures answer { Gives stop_told region_of result
        (region_from A.language (shown command.now) text.now) }
    ensures right { IfOk result
        (λ region. IsRegion A.language region_wants (region_of region)) }
{
    let wants = Wants {
        limit: ITEMS as u16,
    };
    match read_region(arch, alloc, text, command.start, command.end, wants) {
        Ok(region) => Ok(region),
        Err(failure) => Err(failure_of(failure)),
    }
}

/// The region between a command's markers in a file with these bytes, of which there are at
/// most 1048576.
#[tactic(auto, unfolding(crate::specs::Inputs::file_region))]
pub fn file_region<'a, A: Arch>(
    arch: &A,
    alloc: Global,
    command: &Command<'_>,
    bytes: &'a [u8],
) -> Result<Region<'a>, Failure>
    requires { length bytes.now ≤ FILE_BYTES }
    ensures answer { Gives stop_told region_of result
        (file_region A.language (shown command.now) bytes.now) }
    ensures right { IfOk result
        (λ region. IsRegion A.language region_wants (region_of region)) }
{
    let text = text_from(File::Input, bytes)?;
    region_from(arch, alloc, command, text)
}
