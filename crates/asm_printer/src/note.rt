//! The notes of a printed region.
ghost use Rattle.std.specs.Prelude.{◌≡◌, ◌++◌, codes, OnOk, option_map};
ghost use Rattle.asm_printer.specs.Printed as spec;
ghost use Rattle.asm_reader.specs.NoteViews.{note_value};
ghost use Rattle.asm_reader.specs.TagViews.{tag_names};
ghost use Rattle.asm_reader.specs.UnitViews.{unit_text};
ghost use Rattle.asm_reader.specs.WordViews.{bytes_value};

use crate::plan::Head;
use asm_reader::{Note, Tags, UnitName};
use sl_base::{NoMemory, append, append_labelled};
use sl_isa::Instr;

/// Adds what the first line of a region says: how many instructions there are, the cycles and the
/// stalls.
pub(crate) fn push_head_note(out: &mut Vec<u8>, head: Head) -> Result<(), NoMemory>
    ensures { OnOk result (out.new.items ≡ out.old.items ++ spec.head_note head) }
{
    append_labelled(out, b" v=1 kind=straight n=", u64::from(head.items))?;
    append_labelled(out, b" cycles=", u64::from(head.cycles))?;
    append_labelled(out, b" stalls=", u64::from(head.stalls))
}

// Adds the old index of an instruction, where it is told.
fn push_index(out: &mut Vec<u8>, index: Option<u16>) -> Result<(), NoMemory>
    ensures { OnOk result (out.new.items ≡ out.old.items ++ spec.numbered (codes "i=") index) }
{
    let Some(index) = index else {
        return Ok(());
    };
    append_labelled(out, b"i=", u64::from(index))
}

// Adds a cycle, where it is told.
fn push_cycle(out: &mut Vec<u8>, cycle: Option<u32>) -> Result<(), NoMemory>
    ensures { OnOk result (out.new.items ≡ out.old.items ++ spec.numbered (codes " c=") cycle) }
{
    let Some(cycle) = cycle else {
        return Ok(());
    };
    append_labelled(out, b" c=", u64::from(cycle))
}

// Adds a label and a name.
fn push_name(out: &mut Vec<u8>, label: &[u8], name: &str) -> Result<(), NoMemory>
    ensures { OnOk result (out.new.items ≡ out.old.items ++ (label.now ++ name.now)) }
{
    append(out, label)?;
    append(out, name.as_bytes())
}

// Adds the unit of an instruction, where it is told.
fn push_unit(out: &mut Vec<u8>, unit: &Option<UnitName>) -> Result<(), NoMemory>
    ensures { OnOk result
        (out.new.items ≡ out.old.items ++ spec.named (codes " u=") (option_map unit_text unit.now)) }
{
    match unit {
        Some(unit) => push_name(out, b" u=", unit.text()),
        None => Ok(()),
    }
}

// Adds a tag, where there is one.
fn push_tag(out: &mut Vec<u8>, name: Option<&str>) -> Result<(), NoMemory>
    ensures { OnOk result
        (out.new.items ≡ out.old.items ++ spec.named (codes " mem=") (bytes_value name.entry)) }
{
    match name {
        Some(name) => push_name(out, b" mem=", name),
        None => Ok(()),
    }
}

// Adds a word, where it is to be said.
fn push_word(out: &mut Vec<u8>, says: bool, word: &[u8]) -> Result<(), NoMemory>
    ensures { OnOk result (out.new.items ≡ out.old.items ++ spec.word_if says word.now) }
{
    if !says {
        return Ok(());
    }
    append(out, word)
}

// The name of the tag of an instruction.
fn tag_name<'a>(tags: &Tags<'a>, tag: Option<u16>) -> Option<&'a str>
    ensures { bytes_value result ≡ spec.tag_name (tag_names tags.now) tag }
{
    tags.name(tag?)
}

// Adds the tag and the marks of an instruction.
fn push_marks(out: &mut Vec<u8>, tags: &Tags<'_>, item: &Instr) -> Result<(), NoMemory>
    ensures { OnOk result
        (out.new.items ≡ out.old.items ++ spec.marks_note (tag_names tags.now) item.now) }
{
    push_tag(out, tag_name(tags, item.tag))?;
    push_word(out, item.early, b" may_early")?;
    push_word(out, item.late, b" may_late")
}

/// Adds what a region says of an instruction.
pub(crate) fn push_note(
    out: &mut Vec<u8>,
    tags: &Tags<'_>,
    note: &Note,
    item: &Instr,
) -> Result<(), NoMemory>
    ensures { OnOk result (out.new.items
        ≡ out.old.items ++ spec.item_note (tag_names tags.now) (note_value note.now) item.now) }
{
    push_index(out, note.item)?;
    push_unit(out, &note.unit)?;
    push_cycle(out, note.cycle)?;
    append_labelled(out, b" line=", u64::from(note.line))?;
    push_marks(out, tags, item)
}
