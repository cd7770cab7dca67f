//! The pieces of a region, one after the other.
ghost use Rattle.std.specs.Prelude.{◌≡◌, ◌+◌, map, OnOk, is_some, if◌then◌else◌};
ghost use Rattle.sl_model.specs.Answers.{Gives};
ghost use Rattle.macro_expand.specs.Source.{Statement as StatementValue};
ghost use Rattle.macro_expand.specs.Spelled.{spelled};
ghost use Rattle.macro_expand.specs.Views.{piece_of};
ghost use Rattle.asm_reader.specs.DraftViews.{HasFewNames, Leaves, progress_value};
ghost use Rattle.asm_reader.specs.Entries.{entry, entries, note_first, note_taken};
ghost use Rattle.asm_reader.specs.Reading as spec;
ghost use Rattle.asm_reader.specs.Views.{refusal_of};
ghost use Rattle.asm_reader.specs.WordViews.{bytes_value};

use crate::draft::Draft;
use crate::progress::Progress;
use crate::reading::{Manner, push_statement};
use crate::reasons::ReadRefusal;
use crate::statements::Statement;
use macro_expand::{Part, Piece, What, joined, words_of};
use sl_isa::{Arch, Symbols};

// Adds a statement, given by its parts, with its note.
#[tactic(auto, unfolding(crate::specs::Reading::with_entry))]
fn push_parts<'a, A: Arch>(
    arch: &A,
    manner: Manner,
    line: u32,
    parts: &[Part<'a>],
    note: Option<&'a [u8]>,
    read: &mut Progress<'a>,
) -> Result<(), ReadRefusal>
    requires { HasFewNames read.old }
    ensures answer { Leaves result (progress_value read.new)
        (spec.with_entry A.language manner.wants (progress_value read.old)
        (entry line (StatementValue (spelled parts.now)) (bytes_value note.entry))) }
    ensures few { OnOk result (HasFewNames read.new) }
{
    let text = joined(manner.alloc, parts)?;
    let words = words_of(manner.alloc, &text)?;
    let words = &words;
    push_statement(arch, manner, Statement { line, words, note }, read)
}

// Adds a note that stands behind no statement.
fn push_wordless<'a, A: Arch>(
    arch: &A,
    manner: Manner,
    line: u32,
    note: &'a str,
    read: &mut Progress<'a>,
) -> Result<(), ReadRefusal>
    requires { HasFewNames read.old }
    ensures answer { Leaves result (progress_value read.new)
        (spec.with_statement A.language manner.wants (progress_value read.old)
        (spec.wordless line note.now)) }
    ensures few { OnOk result (HasFewNames read.new) }
{
    let words = &[];
    let note = Some(note.as_bytes());
    push_statement(arch, manner, Statement { line, words, note }, read)
}

// Adds a piece, with the note that it takes.
#[tactic(auto, unfolding(crate::specs::Reading::with_entry))]
fn push_piece<'a, A: Arch>(
    arch: &A,
    manner: Manner,
    piece: &Piece<'a>,
    note: Option<&'a [u8]>,
    read: &mut Progress<'a>,
) -> Result<(), ReadRefusal>
    requires { HasFewNames read.old }
    ensures answer { Leaves result (progress_value read.new)
        (spec.with_entry A.language manner.wants (progress_value read.old)
        (entry piece.now.line (piece_of piece.now).what (bytes_value note.entry))) }
    ensures few { OnOk result (HasFewNames read.new) }
{
    match &piece.what {
        What::Row => read.draft.stand_anew(false),
        What::Invoked => read.draft.stand_anew(true),
        What::Statement(parts) => return push_parts(arch, manner, piece.line, parts, note, read),
        What::Note(note) => return push_wordless(arch, manner, piece.line, note, read),
    }
    Ok(())
}

// The note that comes first of some pieces.
fn first_note<'a>(pieces: &[Piece<'a>]) -> Option<&'a [u8]>
    ensures { bytes_value result ≡ note_first (map piece_of pieces.now) }
{
    match pieces.first()?.what {
        What::Note(note) => Some(note.as_bytes()),
        _ => None,
    }
}

// The note that a piece takes of those behind it.
fn note_taken<'a>(piece: &Piece<'a>, behind: &[Piece<'a>]) -> Option<&'a [u8]>
    ensures { bytes_value result ≡ note_taken (piece_of piece.now).what (map piece_of behind.now) }
{
    match piece.what {
        What::Statement(_) => first_note(behind),
        _ => None,
    }
}

// How many pieces are one with the note that it takes.
fn count_taken(note: Option<&[u8]>) -> usize
    ensures { result ≡ 1 + (if is_some note.entry then 1 else 0) }
{
    match note {
        Some(_) => 2,
        None => 1,
    }
}

/// What is read of the pieces of a region.
pub(crate) fn read_pieces<'a, A: Arch>(
    arch: &A,
    manner: Manner,
    pieces: &[Piece<'a>],
) -> Result<Progress<'a>, ReadRefusal>
    ensures { Gives refusal_of progress_value result
        (spec.with_entries A.language manner.wants spec.no_progress
        (entries (map piece_of pieces.now))) }
{
    let mut read = Progress {
        draft: Draft::new(manner.alloc),
        symbols: Symbols::new(manner.alloc),
    };
    let mut place = 0;
    while place < pieces.len() {
        let first = &pieces[place];
        let note = note_taken(first, &pieces[place + 1..]);
        push_piece(arch, manner, first, note, &mut read)?;
        place += count_taken(note);
    }
    Ok(read)
}
