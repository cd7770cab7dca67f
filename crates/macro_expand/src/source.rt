//! A text as rows: where a line begins, its statements without their comments, and its note.
ghost use Rattle.std.specs.Prelude.{◌≡◌, ◌==◌, ◌&&◌, ◌++◌, ◌<◌, ◌^◌, length, map, slice_range, IfOk, OnOk, false};
ghost use Rattle.sl_model.specs.Text.{Parts, numbered_lines};
ghost use Rattle.sl_model.specs.Token.{tokens as line_tokens, open_behind};
ghost use Rattle.sl_text.specs.Tokens.{token_value};
ghost use Rattle.macro_expand.specs.Spelled.{lexemes, spelled, spelled_lists};
ghost use Rattle.macro_expand.specs.Views.{piece_of};
ghost use Rattle.macro_expand.specs.Region.{open_after};
ghost use Rattle.macro_expand.specs.Source as spec;
ghost use Rattle.macro_expand.specs.Slices.{AreSlices, AreLists, AreCutOf, HaveSlices, IsSliceIn};

use crate::expansion::{Piece, What, parted};
use crate::parts::{Part, push_slice};
use crate::words::{end_of, first_field};
use sl_text::{Comments, Line, Token, lines, tokens};
use std::alloc::{AllocError, Global};

/// How a note begins, in letters of either case.
const NOTE: &[u8; 11] = b"// @slothy:";

// Adds what is left of a token: of a comment the gap where it stood, and nothing where it touches a
// comment before it.
fn push_left<'a>(
    out: &mut Vec<Part<'a>>,
    touches: bool,
    token: &Token<'a>,
) -> Result<(), AllocError>
    ensures text { OnOk result (spelled out.new.items
        ≡ spelled out.old.items ++ spec.left_of touches (token_value token.now)) }
    ensures slices { (texts : Parts) → IsSliceIn texts token.now.text.now → AreSlices texts out.old.items → OnOk result (AreSlices texts out.new.items) }
{
    if !token.is_comment() {
        out.push(Part::Text(token.text))?;
        return Ok(());
    }
    if touches {
        return Ok(());
    }
    out.push(Part::Gap)?;
    Ok(())
}

// Whether a token touches a comment that ends at a place.
fn touches_comment(commented: bool, place: usize, token: &Token<'_>) -> bool
    ensures { result ≡ (commented && (token.now.start == place)) }
{
    commented && token.start as usize == place
}

// Adds what stands on a line from a place to the end of some tokens, without their comments.
fn push_bared<'a>(
    out: &mut Vec<Part<'a>>,
    line: &'a str,
    place: usize,
    tokens: &[Token<'a>],
) -> Result<(), AllocError>
    ensures text { OnOk result (spelled out.new.items
        ≡ spelled out.old.items ++ spec.bared line.now false place (lexemes tokens.now)) }
    ensures slices { (texts : Parts) → IsSliceIn texts line.now → AreCutOf line.now (lexemes tokens.now) → AreSlices texts out.old.items → OnOk result (AreSlices texts out.new.items) }
{
    let mut place = place;
    let mut commented = false;
    for token in tokens {
        push_slice(out, line, place, token.start as usize)?;
        push_left(out, touches_comment(commented, place, token), token)?;
        commented = token.is_comment();
        place = end_of(token);
    }
    Ok(())
}

// A statement of a line without its comments.
fn bare<'a>(
    alloc: Global,
    line: &'a str,
    statement: &[Token<'a>],
) -> Result<Vec<Part<'a>>, AllocError>
    ensures text { IfOk result (λ parts. spelled parts.items
        ≡ spec.bare line.now (lexemes statement.now)) }
    ensures slices { (texts : Parts) → IsSliceIn texts line.now → AreCutOf line.now (lexemes statement.now) → IfOk result (λ parts. AreSlices texts parts.items) }
{
    let mut out = Vec::new(alloc);
    let [first, ..] = statement else {
        return Ok(out);
    };
    push_bared(&mut out, line, first.start as usize, statement)?;
    Ok(out)
}

// Adds statements as pieces on a line.
fn push_lists<'a>(
    out: &mut Vec<Piece<'a>>,
    line: u32,
    lists: Vec<Vec<Part<'a>>>,
) -> Result<(), AllocError>
    ensures pieces { OnOk result (map piece_of out.new.items ≡ map piece_of out.old.items
        ++ map (spec.on_line line) (map spec.Statement (spelled_lists lists.entry.items))) }
    ensures slices { (texts : Parts) → AreLists texts lists.entry.items → HaveSlices texts out.old.items → OnOk result (HaveSlices texts out.new.items) }
{
    for list in lists {
        let what = What::Statement(list);
        out.push(Piece { line, what })?;
    }
    Ok(())
}

// Adds the statements of a line.
fn push_statements<'a>(
    alloc: Global,
    out: &mut Vec<Piece<'a>>,
    number: u32,
    line: &'a str,
    tokens: &[Token<'a>],
) -> Result<(), AllocError>
    ensures pieces { OnOk result (map piece_of out.new.items ≡ map piece_of out.old.items
        ++ map (spec.on_line number)
        (spec.each_parted line.now (spec.statements (lexemes tokens.now)))) }
    ensures slices { (texts : Parts) → IsSliceIn texts line.now → AreCutOf line.now (lexemes tokens.now) → HaveSlices texts out.old.items → OnOk result (HaveSlices texts out.new.items) }
{
    let mut rest = Some(tokens);
    while let Some(left) = rest {
        let (statement, behind) = first_field(left, b';');
        let parts = bare(alloc, line, statement)?;
        push_lists(out, number, parted(alloc, &parts)?)?;
        rest = behind;
    }
    Ok(())
}

// Whether a token is a note.
fn is_note(token: &Token<'_>) -> bool
    ensures { result ≡ spec.is_note (token_value token.now) }
{
    if !token.is_comment() {
        return false;
    }
    let text = token.text.as_bytes();
    text[..text.len().min(NOTE.len())].eq_ignore_ascii_case(NOTE)
}

// The words of a note. Where they began inside a character, which none does, that is answered as
// want of memory.
fn note_words<'a>(note: &Token<'a>) -> Result<&'a str, AllocError>
    ensures { IfOk result (λ words. words.now
        ≡ slice_range note.now.text.now 11 (length note.now.text.now)) }
{
    let Some(words) = note.text.get(NOTE.len()..) else {
        return Err(AllocError);
    };
    Ok(words)
}

// Adds the notes among some tokens.
fn push_notes<'a>(
    out: &mut Vec<Piece<'a>>,
    line: u32,
    tokens: &[Token<'a>],
) -> Result<(), AllocError>
    ensures pieces { OnOk result (map piece_of out.new.items ≡ map piece_of out.old.items
        ++ map (spec.on_line line) (map spec.Note (spec.notes_in (lexemes tokens.now)))) }
    ensures slices { (texts : Parts) → HaveSlices texts out.old.items → OnOk result (HaveSlices texts out.new.items) }
{
    for token in tokens {
        if !is_note(token) {
            continue;
        }
        let what = What::Note(note_words(token)?);
        out.push(Piece { line, what })?;
    }
    Ok(())
}

// The tokens of a line that were begun on it; `inside` says that the first one was begun above.
fn begun_here<'t, 'a>(inside: bool, tokens: &'t [Token<'a>]) -> &'t [Token<'a>]
    ensures { spec.notes inside (lexemes tokens.now) ≡ spec.notes_in (lexemes result.now) }
{
    if !inside {
        return tokens;
    }
    let [_, behind @ ..] = tokens else {
        return tokens;
    };
    behind
}

// The tokens of a line, and whether a block comment is open behind it; `inside` says that one is
// open before it.
fn tokens_of<'a>(
    alloc: Global,
    comments: Comments,
    line: Line<'a>,
    inside: bool,
) -> Result<(Vec<Token<'a>>, bool), AllocError>
    requires { length line.text.now < 2 ^ 31 }
    ensures tokens { IfOk result
        (λ r. lexemes r.0.items ≡ line_tokens comments inside line.entry.text.now) }
    ensures unclosed { IfOk result
        (λ r. r.1 ≡ open_behind inside (line_tokens comments inside line.entry.text.now)) }
{
    let mut list = Vec::new(alloc);
    let mut left = tokens(line, comments, inside);
    while let Some(token) = left.next() {
        list.push(token)?;
    }
    Ok((list, left.still_inside()))
}

// Adds what stands on a line.
fn push_row<'a>(
    alloc: Global,
    out: &mut Vec<Piece<'a>>,
    line: Line<'a>,
    inside: bool,
    tokens: &[Token<'a>],
) -> Result<(), AllocError>
    ensures pieces { OnOk result (map piece_of out.new.items ≡ map piece_of out.old.items
        ++ map (spec.on_line line.entry.number)
        (spec.row inside line.entry.text.now (lexemes tokens.now))) }
    ensures slices { (texts : Parts) → IsSliceIn texts line.entry.text.now → AreCutOf line.entry.text.now (lexemes tokens.now) → HaveSlices texts out.old.items → OnOk result (HaveSlices texts out.new.items) }
{
    let number = line.number;
    out.push(Piece {
        line: number,
        what: What::Row,
    })?;
    push_statements(alloc, out, number, line.text, tokens)?;
    push_notes(out, number, begun_here(inside, tokens))
}

/// Adds what stands on the lines of a text, whose first has this number; `inside` says that a block
/// comment is open before them. Says whether one is open behind them.
pub(crate) fn push_rows<'a>(
    alloc: Global,
    out: &mut Vec<Piece<'a>>,
    text: &'a str,
    first: u32,
    comments: Comments,
    inside: bool,
) -> Result<bool, AllocError>
    requires few { length text.now < 2 ^ 31 }
    requires low { first < 2 ^ 31 }
    ensures rows { OnOk result (map piece_of out.new.items ≡ map piece_of out.old.items
        ++ spec.rows comments inside (numbered_lines first text.now)) }
    ensures unclosed { IfOk result (λ unclosed. unclosed
        ≡ open_after comments inside (numbered_lines first text.now)) }
    ensures slices { (texts : Parts) → IsSliceIn texts text.now → HaveSlices texts out.old.items → OnOk result (HaveSlices texts out.new.items) }
{
    let mut unclosed = inside;
    for line in lines(text, first) {
        let (tokens, after) = tokens_of(alloc, comments, line, unclosed)?;
        push_row(alloc, out, line, unclosed, &tokens)?;
        unclosed = after;
    }
    Ok(unclosed)
}
