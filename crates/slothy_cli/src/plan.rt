//! What the written region of a schedule says of itself.
ghost use Rattle.std.specs.Prelude.{◌≡◌, ◌++◌, ◌<◌, ◌≤◌, nat_lt, length, map, IfOk, OnOk, IsTrue};
ghost use Rattle.std.specs.List.{list_all};
ghost use Rattle.sl_model.specs.Token.{is_unit_name};
ghost use Rattle.sl_model.specs.declared.limits.TheConstants.{ITEMS};
ghost use Rattle.asm_reader.specs.NoteViews.{note_value};
ghost use Rattle.asm_reader.specs.Regions.{is_right_unit};
ghost use Rattle.asm_printer.specs.PlanViews.{plan_value};
ghost use Rattle.asm_printer.specs.Printed.{is_whole, is_whole_head, is_whole_plan};
ghost use Rattle.slothy_cli.specs.Plan as spec;

use asm_printer::{Head, Plan};
use asm_reader::{Note, Notes, Part, UnitName};
use core_text::Core;
use issue_cost::NoMemory;
use legal_space::{Choice, Times};
use sl_model::instruction::Instr;
use std::alloc::{AllocError, Global};

// What is told of an instruction: its old index, its unit, its cycle and its old line.
fn note_of(item: u16, unit: &str, cycle: u32, line: u32) -> Note
    requires shape { IsTrue (is_unit_name unit.now) }
    ensures told { note_value result ≡ spec.note_of item unit.now cycle line }
    ensures whole { IsTrue (is_whole (spec.note_of item unit.now cycle line)) }
{
    Note {
        item: Some(item),
        unit: Some(UnitName::new(unit)),
        cycle: Some(cycle),
        part: Part::Plain,
        line,
    }
}

// The first line of a plan.
fn head_of(items: u16, cycles: u32, stalls: u32) -> Head
    ensures told { result ≡ spec.head_of items cycles stalls }
    ensures whole { IsTrue (is_whole_head (spec.head_of items cycles stalls)) }
{
    Head {
        items,
        cycles,
        stalls,
        least: 1,
        early: 0,
    }
}

// Adds what is told of each instruction.
#[tactic(auto, unfolding(crate::specs::Plan::notes_of))]
fn push_notes(
    notes: &mut Vec<Note>,
    core: &Core,
    items: &[Instr],
    schedule: &[Choice],
    cycles: &[u32],
) -> Result<(), NoMemory>
    requires units { IsTrue (list_all (λ c. nat_lt c.unit (length core.now.units)) schedule.now) }
    ensures told { OnOk result (map note_value notes.new.items
        ≡ map note_value notes.old.items
        ++ spec.notes_of core.now items.now schedule.now cycles.now) }
    ensures whole { OnOk result (IsTrue
        (list_all is_whole (spec.notes_of core.now items.now schedule.now cycles.now))) }
    ensures named { OnOk result (IsTrue
        (list_all (λ note. is_right_unit note.unit)
        (spec.notes_of core.now items.now schedule.now cycles.now))) }
{
    let Some((item, items)) = items.split_first() else {
        return Ok(());
    };
    let Some((choice, schedule)) = schedule.split_first() else {
        return Ok(());
    };
    let Some((cycle, cycles)) = cycles.split_first() else {
        return Ok(());
    };
    let unit = core.unit_name(choice.unit);
    notes
        .push(note_of(choice.item, unit, *cycle, item.line))
        .map_err(AllocError::from)?;
    push_notes(notes, core, items, schedule, cycles)
}

/// The plan of the instructions of a schedule of at most 64 choices, each on a unit of the core.
pub(crate) fn plan_of(
    alloc: Global,
    core: &Core,
    items: &[Instr],
    schedule: &[Choice],
    times: &Times,
) -> Result<Plan, NoMemory>
    requires few { length schedule.now ≤ ITEMS }
    requires units { IsTrue (list_all (λ c. nat_lt c.unit (length core.now.units)) schedule.now) }
    ensures told { IfOk result (λ plan. plan_value plan
        ≡ spec.plan_from core.now items.now schedule.now times.now.cycles.items times.now.count
        times.now.stalls) }
    ensures whole { OnOk result (IsTrue (is_whole_plan
        (spec.plan_from core.now items.now schedule.now times.now.cycles.items times.now.count
        times.now.stalls))) }
    ensures named { OnOk result (IsTrue (list_all (λ note. is_right_unit note.unit)
        (spec.plan_from core.now items.now schedule.now times.now.cycles.items times.now.count
        times.now.stalls).notes)) }
{
    let mut notes = Vec::new(alloc);
    push_notes(&mut notes, core, items, schedule, &times.cycles)?;
    Ok(Plan {
        head: head_of(schedule.len() as u16, times.count, times.stalls),
        notes: Notes::new(notes),
    })
}
