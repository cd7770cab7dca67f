//! What an expansion gives, as a text.

use macro_expand::{ExpandErr, ExpandReason, Part, Piece, What, expand};
use sl_text::{Comments, Cut, cut_region};
use std::alloc::{AllocError, Global};

/// A reason's name, and its limit.
fn reason_name(reason: ExpandReason) -> (&'static str, u32) {
    match reason {
        ExpandReason::NoEndm => ("NoEndm", 0),
        ExpandReason::MacroTwice => ("MacroTwice", 0),
        ExpandReason::MacroShape => ("MacroShape", 0),
        ExpandReason::ArgCount => ("ArgCount", 0),
        ExpandReason::ParamUnknown => ("ParamUnknown", 0),
        ExpandReason::AliasTwice => ("AliasTwice", 0),
        ExpandReason::AliasUnknown => ("AliasUnknown", 0),
        ExpandReason::Depth { limit } => ("Depth", limit),
        ExpandReason::ExpansionSize { limit } => ("ExpansionSize", limit),
    }
}

/// Adds a part; a gap is a `~`.
fn push_part(text: &mut String, part: &Part<'_>) -> Result<(), AllocError> {
    match part {
        Part::Text(slice) => text.push_str(slice),
        Part::Gap => text.push('~'),
    }
}

/// Adds a statement in brackets.
fn push_statement(text: &mut String, parts: &[Part<'_>]) -> Result<(), AllocError> {
    text.push('[')?;
    for part in parts {
        push_part(text, part)?;
    }
    text.push(']')
}

/// Adds a piece: `|` and the line where a row begins, a statement in brackets, a note in braces, and
/// `!` behind an expansion.
fn push_piece(text: &mut String, piece: &Piece<'_>) -> Result<(), AllocError> {
    let line = piece.line;
    match &piece.what {
        What::Row => write!(text, "|{line} ")?,
        What::Statement(parts) => push_statement(text, parts)?,
        What::Invoked => text.push('!')?,
        What::Note(note) => {
            text.push('{')?;
            text.push_str(note)?;
            text.push('}')?;
        }
    }
    Ok(())
}

/// The pieces, one behind the other.
fn pieces_text(alloc: Global, pieces: &[Piece<'_>]) -> Result<String, AllocError> {
    let mut text = String::new(alloc);
    for piece in pieces {
        push_piece(&mut text, piece)?;
    }
    Ok(text)
}

/// A refusal as its line and its reason.
fn refusal_text(alloc: Global, line: u32, reason: ExpandReason) -> Result<String, AllocError> {
    let mut text = String::new(alloc);
    let (name, limit) = reason_name(reason);
    write!(text, "{line} {name}")?;
    if limit != 0 {
        write!(text, " {limit}")?;
    }
    Ok(text)
}

/// The most bytes and lines that a text of a test has.
const LONGEST: usize = 1 << 30;

/// What an expansion gives of a cut.
fn answer_of(alloc: Global, cut: &Cut<'_>, comments: Comments) -> Result<String, AllocError> {
    if cut.before.len() > LONGEST || cut.body.len() > LONGEST {
        return String::from_str(alloc, "too long");
    }
    if cut.first as usize > LONGEST {
        return String::from_str(alloc, "too many lines");
    }
    match expand(alloc, cut, comments) {
        Ok(pieces) => pieces_text(alloc, &pieces),
        Err(ExpandErr::Refused { line, reason }) => refusal_text(alloc, line, reason),
        Err(ExpandErr::NoMemory) => Err(AllocError),
    }
}

/// The number of the line behind a text whose lines end with it.
fn line_behind(text: &str) -> u32 {
    let mut number: u32 = 1;
    for byte in text.as_bytes() {
        if *byte == b'\n' {
            number = number.saturating_add(1);
        }
    }
    number
}

/// What an expansion gives of a region behind a text whose lines end with it, both short.
pub(crate) fn answer_behind(
    alloc: Global,
    before: &str,
    body: &str,
    comments: Comments,
) -> Result<String, AllocError> {
    let cut = Cut {
        before,
        body,
        after: "",
        first: line_behind(before),
    };
    answer_of(alloc, &cut, comments)
}

/// What an expansion gives of the region of a text.
pub(crate) fn answer_in(alloc: Global, text: &str) -> Result<String, AllocError> {
    if text.len() > LONGEST {
        return String::from_str(alloc, "too long");
    }
    match cut_region(text, "slothy_start", "slothy_end") {
        Ok(cut) => answer_of(alloc, &cut, Comments::Slash),
        Err(_) => String::from_str(alloc, "no cut"),
    }
}
