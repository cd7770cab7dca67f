//! A region as far as it was read.
ghost use Rattle.std.specs.Prelude.{◌+◌, ◌<◌, ◌≤◌, length, is_some, if◌then◌else◌};

use crate::last::{mark_last, tell_last};
use crate::note::{Note, Remark, Said};
use crate::tags::Tags;
use sl_isa::Instr;
use std::alloc::{AllocError, Global};

/// The last instruction, as long as no note was said of it.
#[derive(Clone, Copy)]
pub(crate) struct Awaiting {
    /// The line that it stands on.
    pub line: u32,
    /// Does it access memory?
    pub accesses: bool,
}

/// A region as far as it was read.
#[derive(Drop)]
pub(crate) struct Draft<'a> {
    /// The instructions.
    pub items: Vec<Instr>,
    /// A note for each of them.
    pub notes: Vec<Note>,
    /// The names of their tags.
    pub tags: Tags<'a>,
    /// The mask of early items of the first note on the region.
    pub mask: Option<u64>,
    /// The last instruction, as long as no note was said of it.
    pub awaiting: Option<Awaiting>,
    /// Was a macro invoked since the last instruction on its row?
    pub invoked: bool,
    ghost named: { length tags.names.items + (if is_some awaiting then 1 else 0) ≤ length items.items },
    ghost few: { length items.items ≤ 8192 },
}

impl<'a> Draft<'a> {
    ghost use Rattle.std.specs.Prelude.{◌≡◌, true, OnOk, Some};
    ghost use Rattle.asm_reader.specs.DraftViews.{draft_value};
    ghost use Rattle.asm_reader.specs.NoteViews.{remark_value, one_said};
    ghost use Rattle.asm_reader.specs.Drafts.{no_draft, anew, longer, with_remark, with_said, has_place};

    /// Nothing was read yet.
    pub fn new(alloc: Global) -> Draft<'a>
        ensures { draft_value result ≡ no_draft }
    {
        Draft {
            items: Vec::new(alloc),
            notes: Vec::new(alloc),
            tags: Tags::new(alloc),
            mask: None,
            awaiting: None,
            invoked: false,
        }
    }

    /// A row begins, or a macro was invoked: no instruction stands before a note.
    pub fn stand_anew(&mut self, invoked: bool)
        ensures { draft_value self.new ≡ anew invoked (draft_value self.old) }
    {
        self.awaiting = None;
        self.invoked = invoked;
    }

    /// Adds an instruction that was read on a line.
    pub fn push(&mut self, accesses: bool, line: u32, item: Instr) -> Result<(), AllocError>
        requires { length self.old.items.items < 8192 }
        ensures { OnOk result
            (draft_value self.new ≡ longer accesses line (draft_value self.old) item) }
    {
        self.items.push(Instr { line, ..item })?;
        self.notes.push(Note::untold(line))?;
        self.awaiting = Some(Awaiting { line, accesses });
        self.invoked = false;
        Ok(())
    }

    /// Adds what is said of the last instruction.
    fn remark(&mut self, remark: &Remark<'a>) -> Result<(), AllocError>
        requires { is_some self.old.awaiting ≡ true }
        ensures { OnOk result
            (draft_value self.new ≡ with_remark (draft_value self.old) (remark_value remark.now)) }
    {
        self.awaiting = None;
        let tag = self.tags.number_of(remark.tag)?;
        mark_last(&mut self.items, tag, remark.early, remark.late);
        tell_last(&mut self.notes, remark.told);
        Ok(())
    }

    /// Adds what a note says. One on an instruction is on the last one.
    pub fn say(&mut self, said: &Said<'a>) -> Result<(), AllocError>
        requires { has_place (Some (one_said said.now)) self.old.awaiting ≡ true }
        ensures { OnOk result
            (draft_value self.new ≡ with_said (draft_value self.old) (Some (one_said said.now))) }
    {
        match said {
            Said::Item(remark) => self.remark(remark),
            Said::Region(mask) => {
                if self.mask.is_none() {
                    self.mask = Some(*mask);
                }
                Ok(())
            }
        }
    }
}
