//! The written file: how it is printed.
ghost use Rattle.std.specs.Prelude.{◌≡◌, ◌++◌, IfOk, OnOk, OnErr, map};
ghost use Rattle.sl_model.specs.Lawful.{IsValid, AreValid};
ghost use Rattle.sl_isa.specs.Language.{IsNamed};
ghost use Rattle.sl_isa.specs.SymbolViews.{pairs};
ghost use Rattle.asm_reader.specs.NoteViews.{note_value};
ghost use Rattle.asm_reader.specs.RegionViews.{region_of};
ghost use Rattle.asm_reader.specs.Regions.{AreNamed};
ghost use Rattle.asm_reader.specs.TagViews.{tag_names};
ghost use Rattle.asm_printer.specs.Printed as spec;
ghost use Rattle.asm_printer.specs.Lines.{head_line, item_line, item_lines};
ghost use Rattle.asm_printer.specs.PlanViews.{plan_value};

use crate::note::{push_head_note, push_note};
use crate::plan::{Head, Plan, Program};
use asm_reader::{Note, Region, Tags};
use sl_base::{NoMemory, append};
use sl_isa::{Arch, Symbols};
use sl_model::instruction::Instr;
use std::alloc::Global;

// The names of the symbolic registers and of the tags of a region.
#[derive(Clone, Copy)]
struct Names<'a> {
    symbols: &'a Symbols,
    tags: &'a Tags<'a>,
}

// The end of the lines that are printed: as that of the last line before the region.
fn line_end(before: &str) -> &'static [u8]
    ensures { result.now ≡ spec.line_end before.now }
{
    if before.ends_with("\r\n") {
        b"\r\n"
    } else {
        b"\n"
    }
}

// Adds the first line of the region.
fn push_head(out: &mut Vec<u8>, head: Head, end: &[u8]) -> Result<(), NoMemory>
    ensures { OnOk result (out.new.items
        ≡ out.old.items ++ head_line (spec.head_note head) end.now) }
{
    append(out, b"        // @slothy:region")?;
    push_head_note(out, head)?;
    append(out, end)
}

// Adds the line of an instruction with its note.
fn push_item<A: Arch>(
    arch: &A,
    out: &mut Vec<u8>,
    names: Names<'_>,
    item: &Instr,
    note: &Note,
    end: &[u8],
) -> Result<(), NoMemory>
    requires valid { IsValid A.language.isa item.now }
    requires named { IsNamed (pairs names.symbols.now) item.now }
    ensures { OnOk result (out.new.items ≡ out.old.items ++ item_line end.now
        (spec.entry (A.language.printed (pairs names.entry.symbols.now))
        (tag_names names.entry.tags.now) item.now (note_value note.now))) }
{
    append(out, b"        ")?;
    arch.print_form(item, names.symbols, out)?;
    append(out, b" // @slothy:")?;
    push_note(out, names.tags, note, item)?;
    append(out, end)
}

// Adds a line for each instruction.
#[tactic(auto, unfolding(crate::specs::Printed::entries, crate::specs::Lines::item_lines))]
fn push_items<A: Arch>(
    arch: &A,
    out: &mut Vec<u8>,
    names: Names<'_>,
    items: &[Instr],
    notes: &[Note],
    end: &[u8],
) -> Result<(), NoMemory>
    requires valid { AreValid A.language.isa items.now }
    requires named { AreNamed (pairs names.symbols.now) items.now }
    ensures { OnOk result (out.new.items ≡ out.old.items ++ item_lines end.now
        (spec.entries (A.language.printed (pairs names.entry.symbols.now))
        (tag_names names.entry.tags.now) items.now (map note_value notes.now))) }
{
    let Some((item, items)) = items.split_first() else {
        return Ok(());
    };
    let Some((note, notes)) = notes.split_first() else {
        return Ok(());
    };
    push_item(arch, out, names, item, note, end)?;
    push_items(arch, out, names, items, notes, end)
}

// The written file as a text of its own.
#[tactic(auto, unfolding(crate::specs::Printed::region_text))]
fn written_text<A: Arch>(
    arch: &A,
    alloc: Global,
    old: &Region<'_>,
    program: &Program,
    plan: &Plan,
) -> Result<Vec<u8>, NoMemory>
    requires valid { AreValid A.language.isa program.now.items.items }
    requires named { AreNamed (pairs old.now.symbols) program.now.items.items }
    ensures { IfOk result (λ text. text.items
        ≡ spec.written_text A.language.printed (region_of old.now) program.now.items.items
        (plan_value plan.now)) }
{
    let end = line_end(old.cut.before);
    let mut text = Vec::new(alloc);
    append(&mut text, old.cut.before.as_bytes())?;
    push_head(&mut text, plan.head, end)?;
    let names = Names {
        symbols: &old.symbols,
        tags: &old.tags,
    };
    push_items(
        arch,
        &mut text,
        names,
        &program.items,
        plan.notes.list(),
        end,
    )?;
    append(&mut text, old.cut.after.as_bytes())?;
    Ok(text)
}

/// Adds the written file: what stands before a region, a program in its place, with what a plan
/// says of its instructions, and what stands behind it. Their tags and symbolic registers have the
/// names that they have in the region. After `NoMemory` nothing has changed.
pub fn print_region<A: Arch>(
    arch: &A,
    alloc: Global,
    old: &Region<'_>,
    program: &Program,
    plan: &Plan,
    out: &mut Vec<u8>,
) -> Result<(), NoMemory>
    requires valid { AreValid A.language.isa program.now.items.items }
    requires named { AreNamed (pairs old.now.symbols) program.now.items.items }
    ensures ok { OnOk result (out.new.items ≡ out.old.items
        ++ spec.written_text A.language.printed (region_of old.now) program.now.items.items
        (plan_value plan.now)) }
    ensures untouched { OnOk result
        (spec.IsUntouched (region_of old.now).parts out.old.items out.new.items) }
    ensures err { OnErr result (out.new.items ≡ out.old.items) }
{
    let text = written_text(arch, alloc, old, program, plan)?;
    append(out, &text)
}
