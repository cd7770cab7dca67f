//! The last instruction of a list, and the last note.
ghost use Rattle.std.specs.Prelude.{◌≡◌, map};
ghost use Rattle.asm_reader.specs.Drafts.{with_last};

use crate::note::Note;
use sl_isa::Instr;

/// Gives the last of some instructions a tag and its marks.
pub(crate) fn mark_last(items: &mut [Instr], tag: Option<u16>, early: bool, late: bool)
    ensures { items.new ≡ with_last (λ i. record i { tag = tag; early = early; late = late }) items.old }
{
    if let Some(item) = items.last_mut() {
        *item = Instr {
            tag,
            early,
            late,
            ..*item
        };
    }
}

/// Puts a note in the place of the last one.
pub(crate) fn tell_last(notes: &mut [Note], told: Note)
    ensures { notes.new ≡ with_last (λ note. told) notes.old }
{
    if let Some(note) = notes.last_mut() {
        *note = told;
    }
}
