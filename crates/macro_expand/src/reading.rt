//! The expansion of a region: its statements once macros and aliases are gone.
ghost use Rattle.std.specs.Prelude.{◌≡◌, ◌<◌, ◌^◌, length, map, Some, IfOk, OnOk};
ghost use Rattle.sl_model.specs.Answers.{Gives};
ghost use Rattle.sl_text.specs.Cut.{parts_of};
ghost use Rattle.macro_expand.specs.Words.{words as all_words};
ghost use Rattle.macro_expand.specs.Spelled.{lexemes, spelled};
ghost use Rattle.macro_expand.specs.Views.{known_of, macro_names, macro_of, open_of, piece_of, reading_of, refusal_of, what_of};
ghost use Rattle.macro_expand.specs.Region as spec;
ghost use Rattle.sl_model.specs.Text.{Parts};
ghost use Rattle.macro_expand.specs.Slices.{AreBody, AreMacros, AreSlices, HasSlices, HaveSlices, IsOpen, KnowsSlices, ReadsSlices};

use crate::expansion::{
    Known, Macro, Macros, Piece, Place, What, count_if, give, invoked, refused, statement,
    with_alias, without_alias,
};
use crate::filled::push_kept;
use crate::parts::{Part, joined};
use crate::reasons::{ExpandErr, ExpandReason};
use crate::source::push_rows;
use crate::words::{is_alias, is_directive, parameters, words_of};
use indexmap::IndexMap;
use sl_model::limits::EXPANSION_DEPTH;
use sl_text::{Comments, Cut, Token};
use std::alloc::{AllocError, Global};

/// A definition whose end isn't read yet.
#[derive(Drop)]
pub(crate) struct Open<'a> {
    pub line: u32,
    pub head: Vec<Part<'a>>,
    /// Does it begin in the region, where both its ends count?
    pub counts: bool,
    /// Does nothing but empty statements stand in it so far?
    pub bare: bool,
    pub body: Vec<What<'a>>,
}

/// All that is known.
#[derive(Drop)]
pub(crate) struct Reading<'a> {
    pub macros: Macros<'a>,
    pub opened: Option<Open<'a>>,
    pub known: Known<'a>,
}

// Adds a macro of a name.
fn add_macro<'a>(
    alloc: Global,
    macros: &mut Macros<'a>,
    line: u32,
    name: &str,
    found: Macro<'a>,
) -> Result<(), ExpandErr>
    ensures macros { Gives refusal_of (λ _. macro_names macros.new) result
        (spec.named line name.now (macro_of found.entry) (macro_names macros.old)) }
    ensures slices { (texts : Parts) → AreBody texts found.entry.body.items → AreMacros texts macros.old → OnOk result (AreMacros texts macros.new) }
{
    if macros.contains_key(name) {
        return Err(refused(line, ExpandReason::MacroTwice));
    }
    let name = String::from_str(alloc, name)?;
    macros.insert(name, found)?;
    Ok(())
}

// Defines the macro that the words of a `.macro` name, if they do.
fn define<'a>(
    alloc: Global,
    macros: &mut Macros<'a>,
    line: u32,
    words: &[Token<'_>],
    body: Vec<What<'a>>,
) -> Result<(), ExpandErr>
    ensures macros { Gives refusal_of (λ _. macro_names macros.new) result
        (spec.define line (lexemes words.now) (map what_of body.entry.items) (macro_names
        macros.old)) }
    ensures slices { (texts : Parts) → AreBody texts body.entry.items → AreMacros texts macros.old → OnOk result (AreMacros texts macros.new) }
{
    let [_dot, _macro, name, more @ ..] = words else {
        return Ok(());
    };
    if !name.is_word() {
        return Ok(());
    }
    let parameters = parameters(alloc, more)?;
    add_macro(alloc, macros, line, name.text, Macro { parameters, body })
}

// Begins a row where a definition of the region ends, so that no note behind it has an instruction.
fn give_row(known: &mut Known<'_>, counts: bool, line: u32) -> Result<(), AllocError>
    ensures known { OnOk result (known_of known.new ≡ spec.row_if counts line (known_of known.old)) }
    ensures slices { (texts : Parts) → KnowsSlices texts known.old → OnOk result (KnowsSlices texts known.new) }
{
    if !counts {
        return Ok(());
    }
    give(known, line, What::Row)
}

// Counts both ends of a definition of the region.
fn closing(
    known: &mut Known<'_>,
    counts: bool,
    first: u32,
    head: &str,
    line: u32,
    text: &str,
) -> Result<(), ExpandErr>
    ensures known { Gives refusal_of (λ _. known_of known.new) result
        (spec.closing counts first head.now line text.now (known_of known.old)) }
    ensures slices { (texts : Parts) → KnowsSlices texts known.old → OnOk result (KnowsSlices texts known.new) }
{
    count_if(known, counts, first, head)?;
    count_if(known, counts, line, text)?;
    give_row(known, counts, line)?;
    Ok(())
}

// Ends a definition.
fn close<'a>(
    alloc: Global,
    reading: &mut Reading<'a>,
    opened: Open<'a>,
    line: u32,
    text: &str,
) -> Result<(), ExpandErr>
    ensures reading { Gives refusal_of (λ _. reading_of reading.new) result
        (spec.close (open_of opened.entry) line text.now (reading_of reading.old)) }
    ensures slices { (texts : Parts) → IsOpen texts opened.entry → ReadsSlices texts reading.old → OnOk result (ReadsSlices texts reading.new) }
{
    let first = opened.line;
    let counts = opened.counts;
    let head = joined(alloc, &opened.head)?;
    let words = words_of(alloc, &head)?;
    define(alloc, &mut reading.macros, first, &words, opened.body)?;
    closing(&mut reading.known, counts, first, &head, line, text)?;
    reading.opened = None;
    Ok(())
}

// Leaves a definition open.
fn reopen<'a>(reading: &mut Reading<'a>, opened: Open<'a>)
    ensures reading { reading_of reading.new ≡ spec.with_open (open_of opened.entry) (reading_of
        reading.old) }
    ensures slices { (texts : Parts) → IsOpen texts opened.entry → ReadsSlices texts reading.old → ReadsSlices texts reading.new }
{
    reading.opened = Some(opened);
}

// Leaves a definition open with something more in it; `quiet` says that it is an empty statement.
fn keep<'a>(
    reading: &mut Reading<'a>,
    opened: Open<'a>,
    quiet: bool,
    what: What<'a>,
) -> Result<(), AllocError>
    ensures reading { OnOk result (reading_of reading.new
        ≡ spec.with_open (spec.with_more quiet (what_of what.entry) (open_of opened.entry))
        (reading_of reading.old)) }
    ensures slices { (texts : Parts) → IsOpen texts opened.entry → HasSlices texts what.entry → ReadsSlices texts reading.old → OnOk result (ReadsSlices texts reading.new) }
{
    let mut opened = opened;
    opened.bare = opened.bare && quiet;
    opened.body.push(what)?;
    reopen(reading, opened);
    Ok(())
}

// Reads a statement of an open definition.
fn statement_in_open<'a>(
    alloc: Global,
    reading: &mut Reading<'a>,
    opened: Open<'a>,
    line: u32,
    parts: &[Part<'a>],
) -> Result<(), ExpandErr>
    ensures reading { Gives refusal_of (λ _. reading_of reading.new) result
        (spec.statement_in_open (open_of opened.entry) line (spelled parts.now) (reading_of
        reading.old)) }
    ensures slices { (texts : Parts) → IsOpen texts opened.entry → AreSlices texts parts.now → ReadsSlices texts reading.old → OnOk result (ReadsSlices texts reading.new) }
{
    let text = joined(alloc, parts)?;
    let words = words_of(alloc, &text)?;
    if is_directive("endm", &words) {
        return close(alloc, reading, opened, line, &text);
    }
    let mut kept = Vec::new(alloc);
    push_kept(&mut kept, parts, text.as_bytes())?;
    keep(
        reading,
        opened,
        text.as_str().is_empty(),
        What::Statement(kept),
    )?;
    Ok(())
}

// Gives a note where it stands outside a definition of the region.
fn give_note<'a>(
    known: &mut Known<'a>,
    counts: bool,
    line: u32,
    note: &'a str,
) -> Result<(), AllocError>
    ensures known { OnOk result (known_of known.new ≡ spec.note_if counts line note.now (known_of
        known.old)) }
    ensures slices { (texts : Parts) → KnowsSlices texts known.old → OnOk result (KnowsSlices texts known.new) }
{
    if !counts {
        return Ok(());
    }
    give(known, line, What::Note(note))
}

// Reads a note of an open definition.
fn note_in_open<'a>(
    reading: &mut Reading<'a>,
    opened: Open<'a>,
    line: u32,
    note: &'a str,
) -> Result<(), AllocError>
    ensures reading { OnOk result (reading_of reading.new
        ≡ spec.note_in_open (open_of opened.entry) line note.now (reading_of reading.old)) }
    ensures slices { (texts : Parts) → IsOpen texts opened.entry → ReadsSlices texts reading.old → OnOk result (ReadsSlices texts reading.new) }
{
    let bare = opened.bare;
    let counts = opened.counts;
    if !bare {
        return keep(reading, opened, false, What::Note(note));
    }
    give_note(&mut reading.known, counts, line, note)?;
    reopen(reading, opened);
    Ok(())
}

// Reads what stands in an open definition.
fn in_open<'a>(
    alloc: Global,
    reading: &mut Reading<'a>,
    opened: Open<'a>,
    line: u32,
    what: What<'a>,
) -> Result<(), ExpandErr>
    ensures reading { Gives refusal_of (λ _. reading_of reading.new) result
        (spec.in_open (open_of opened.entry) line (what_of what.entry) (reading_of reading.old)) }
    ensures slices { (texts : Parts) → IsOpen texts opened.entry → HasSlices texts what.entry → ReadsSlices texts reading.old → OnOk result (ReadsSlices texts reading.new) }
{
    match what {
        What::Statement(parts) => {
            return statement_in_open(alloc, reading, opened, line, &parts);
        }
        What::Note(note) => note_in_open(reading, opened, line, note)?,
        What::Row => keep(reading, opened, false, What::Row)?,
        What::Invoked => reopen(reading, opened),
    }
    Ok(())
}

// A definition that begins.
fn opening<'a>(alloc: Global, counts: bool, line: u32, head: Vec<Part<'a>>) -> Open<'a>
    ensures opened { open_of result ≡ spec.opening counts line (spelled head.entry.items) }
    ensures slices { (texts : Parts) → AreSlices texts head.entry.items → IsOpen texts result }
{
    Open {
        line,
        head,
        counts,
        bare: true,
        body: Vec::new(alloc),
    }
}

// Reads a statement before the region.
fn before_statement<'a>(
    alloc: Global,
    reading: &mut Reading<'a>,
    line: u32,
    parts: Vec<Part<'a>>,
) -> Result<(), ExpandErr>
    ensures reading { Gives refusal_of (λ _. reading_of reading.new) result
        (spec.before_statement line (spelled parts.entry.items) (all_words (spelled
        parts.entry.items))
        (reading_of reading.old)) }
    ensures slices { (texts : Parts) → AreSlices texts parts.entry.items → ReadsSlices texts reading.old → OnOk result (ReadsSlices texts reading.new) }
{
    let text = joined(alloc, &parts)?;
    let words = words_of(alloc, &text)?;
    if is_directive("macro", &words) {
        reopen(reading, opening(alloc, false, line, parts));
        return Ok(());
    }
    if invoked(&reading.macros, &words).is_some() {
        return Ok(());
    }
    if is_alias(&words) {
        return with_alias(alloc, &mut reading.known, line, &parts, &words);
    }
    if is_directive("unreq", &words) {
        return without_alias(&mut reading.known, false, line, &text, &words);
    }
    Ok(())
}

// Reads a statement of the region.
fn region_statement<'a>(
    alloc: Global,
    reading: &mut Reading<'a>,
    line: u32,
    parts: Vec<Part<'a>>,
) -> Result<(), ExpandErr>
    ensures reading { Gives refusal_of (λ _. reading_of reading.new) result
        (spec.region_statement line (spelled parts.entry.items) (all_words (spelled
        parts.entry.items))
        (reading_of reading.old)) }
    ensures slices { (texts : Parts) → AreSlices texts parts.entry.items → ReadsSlices texts reading.old → OnOk result (ReadsSlices texts reading.new) }
{
    let text = joined(alloc, &parts)?;
    let words = words_of(alloc, &text)?;
    if is_directive("macro", &words) {
        give(&mut reading.known, line, What::Row)?;
        reopen(reading, opening(alloc, true, line, parts));
        return Ok(());
    }
    let place = Place {
        alloc,
        macros: &reading.macros,
        deeper: EXPANSION_DEPTH,
        line,
    };
    statement(place, false, &parts, &mut reading.known)
}

// Reads what stands before the region.
fn before_one<'a>(
    alloc: Global,
    reading: &mut Reading<'a>,
    line: u32,
    what: What<'a>,
) -> Result<(), ExpandErr>
    ensures reading { Gives refusal_of (λ _. reading_of reading.new) result
        (spec.before_one line (what_of what.entry) (reading_of reading.old)) }
    ensures slices { (texts : Parts) → HasSlices texts what.entry → ReadsSlices texts reading.old → OnOk result (ReadsSlices texts reading.new) }
{
    match what {
        What::Statement(parts) => before_statement(alloc, reading, line, parts),
        What::Row => Ok(()),
        What::Invoked => Ok(()),
        What::Note(_) => Ok(()),
    }
}

// Reads what stands in the region.
fn region_one<'a>(
    alloc: Global,
    reading: &mut Reading<'a>,
    line: u32,
    what: What<'a>,
) -> Result<(), ExpandErr>
    ensures reading { Gives refusal_of (λ _. reading_of reading.new) result
        (spec.region_one line (what_of what.entry) (reading_of reading.old)) }
    ensures slices { (texts : Parts) → HasSlices texts what.entry → ReadsSlices texts reading.old → OnOk result (ReadsSlices texts reading.new) }
{
    match what {
        What::Statement(parts) => return region_statement(alloc, reading, line, parts),
        What::Row => give(&mut reading.known, line, What::Row)?,
        What::Invoked => {}
        What::Note(note) => give(&mut reading.known, line, What::Note(note))?,
    }
    Ok(())
}

// Reads a piece of the region, or of what stands before it.
fn read_piece<'a>(
    alloc: Global,
    reading: &mut Reading<'a>,
    region: bool,
    piece: Piece<'a>,
) -> Result<(), ExpandErr>
    ensures reading { Gives refusal_of (λ _. reading_of reading.new) result
        (spec.or_in_open region (reading_of reading.old).opened (piece_of piece.entry) (reading_of
        reading.old)) }
    ensures slices { (texts : Parts) → HasSlices texts piece.entry.what → ReadsSlices texts reading.old → OnOk result (ReadsSlices texts reading.new) }
{
    let Piece { line, what } = piece;
    if let Some(opened) = reading.opened.take() {
        return in_open(alloc, reading, opened, line, what);
    }
    if region {
        return region_one(alloc, reading, line, what);
    }
    before_one(alloc, reading, line, what)
}

// Reads all pieces of the region, or of what stands before it.
fn read_all<'a>(
    alloc: Global,
    reading: &mut Reading<'a>,
    region: bool,
    pieces: Vec<Piece<'a>>,
) -> Result<(), ExpandErr>
    ensures reading { Gives refusal_of (λ _. reading_of reading.new) result
        (spec.read_all region (map piece_of pieces.entry.items) (reading_of reading.old)) }
    ensures slices { (texts : Parts) → HaveSlices texts pieces.entry.items → ReadsSlices texts reading.old → OnOk result (ReadsSlices texts reading.new) }
{
    for piece in pieces {
        read_piece(alloc, reading, region, piece)?;
    }
    Ok(())
}

// Nothing yet.
fn nothing_known<'a>(alloc: Global) -> Reading<'a>
    ensures reading { reading_of result ≡ spec.nothing_known }
    ensures slices { (texts : Parts) → ReadsSlices texts result }
{
    Reading {
        macros: IndexMap::new(alloc),
        opened: None,
        known: Known {
            aliases: IndexMap::new(alloc),
            spent: 0,
            given: Vec::new(alloc),
        },
    }
}

// The pieces given.
fn given_of<'a>(known: Known<'a>) -> Vec<Piece<'a>>
    ensures pieces { map piece_of result.items ≡ (known_of known.entry).given }
    ensures slices { (texts : Parts) → KnowsSlices texts known.entry → HaveSlices texts result.items }
{
    let Known { given, .. } = known;
    given
}

// The pieces given, if each definition has an end.
fn all_closed<'a>(reading: Reading<'a>) -> Result<Vec<Piece<'a>>, ExpandErr>
    ensures pieces { Gives refusal_of (λ pieces. map piece_of pieces.items) result
        (spec.all_closed (reading_of reading.entry).opened (known_of reading.entry.known)) }
    ensures slices { (texts : Parts) → ReadsSlices texts reading.entry → IfOk result (λ pieces. HaveSlices texts pieces.items) }
{
    if let Some(opened) = &reading.opened {
        return Err(refused(opened.line, ExpandReason::NoEndm));
    }
    Ok(given_of(reading.known))
}

/// The statements of a region once its macros are expanded and its aliases replaced, and its notes.
/// Definitions are read from what stands before it on; each part of a statement is a slice of what
/// stands before the region or in it.
///
/// # Errors
///
/// The first refusal, at its line; want of memory, also for a statement of 2^30 bytes or more.
pub fn expand<'a>(
    alloc: Global,
    cut: &Cut<'a>,
    comments: Comments,
) -> Result<Vec<Piece<'a>>, ExpandErr>
    requires before { length cut.now.before.now < 2 ^ 31 }
    requires body { length cut.now.body.now < 2 ^ 31 }
    requires first { cut.now.first < 2 ^ 31 }
    ensures pieces { Gives refusal_of (λ pieces. map piece_of pieces.items) result
        (spec.expansion comments (parts_of cut.now)) }
    ensures slices { IfOk result (λ pieces. HaveSlices (parts_of cut.now) pieces.items) }
{
    let mut before = Vec::new(alloc);
    let inside = push_rows(alloc, &mut before, cut.before, 1, comments, false)?;
    let mut body = Vec::new(alloc);
    push_rows(alloc, &mut body, cut.body, cut.first, comments, inside)?;
    let mut reading = nothing_known(alloc);
    read_all(alloc, &mut reading, false, before)?;
    read_all(alloc, &mut reading, true, body)?;
    all_closed(reading)
}
