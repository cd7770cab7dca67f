//! Statements of a region, and of the expansions of its macros.
ghost use Rattle.std.specs.Prelude.{◌≡◌, ◌==◌, length, map, None, Some, bytes_eq, option_map, IfOk, IfSome, OnOk};
ghost use Rattle.sl_text.specs.Tokens.{token_value};
ghost use Rattle.macro_expand.specs.Source.{Statement, parted};
ghost use Rattle.macro_expand.specs.Spelled.{lexemes, spelled, spelled_lists, values_in, alias_names};
ghost use Rattle.sl_model.specs.Answers.{Gives};
ghost use Rattle.macro_expand.specs.Views.{known_of, what_of, macro_of, macro_names, step_at, run_at, refusal_of};
ghost use Rattle.macro_expand.specs.Expansion as spec;
ghost use Rattle.sl_model.specs.Text.{Parts};
ghost use Rattle.macro_expand.specs.Slices.{AreBody, AreLists, AreMacros, AreSlices, HasSlices, KnowsSlices};

use crate::filled::{Aliases, push_filled, push_replaced};
use crate::parts::{Part, beginning, joined, push_all, push_cut};
use crate::reasons::{ExpandErr, ExpandReason};
use crate::words::{
    Parameters, arguments, byte_count, is_alias, is_directive, is_label, push_divided, words_of,
};
use indexmap::IndexMap;
use sl_model::limits::{EXPANSION_DEPTH, EXPANSION_SUM};
use sl_text::Token;
use std::alloc::{AllocError, Global};

/// What stands in a row.
#[derive(Debug, Drop)]
pub enum What<'a> {
    /// Its beginning.
    Row,
    /// A statement.
    Statement(Vec<Part<'a>>),
    /// A macro was invoked, whose expansion stands above.
    Invoked,
    /// A note, by its words.
    Note(&'a str),
}

/// What stands on a line.
#[derive(Debug, Drop)]
pub struct Piece<'a> {
    /// The line's number; in an expansion, that of the invocation in the region.
    pub line: u32,
    pub what: What<'a>,
}

/// A macro: its parameters, if they are names, and its body.
#[derive(Drop)]
pub(crate) struct Macro<'a> {
    pub parameters: Option<Parameters>,
    pub body: Vec<What<'a>>,
}

/// The macros that are defined.
pub(crate) type Macros<'a> = IndexMap<String, Macro<'a>>;

/// What is known so far.
#[derive(Drop)]
pub(crate) struct Known<'a> {
    pub aliases: Aliases<'a>,
    pub spent: usize,
    pub given: Vec<Piece<'a>>,
}

/// The most that an expansion may add up to.
const SUM_LIMIT: usize = EXPANSION_SUM as usize;

// Adds a piece.
pub(crate) fn give<'a>(known: &mut Known<'a>, line: u32, what: What<'a>) -> Result<(), AllocError>
    ensures known { OnOk result (known_of known.new ≡ spec.give line (what_of what.entry) (known_of
        known.old)) }
    ensures slices { (texts : Parts) → HasSlices texts what.entry → KnowsSlices texts known.old → OnOk result (KnowsSlices texts known.new) }
{
    known.given.push(Piece { line, what })?;
    Ok(())
}

// Counts a statement.
pub(crate) fn count(known: &mut Known<'_>, line: u32, text: &str) -> Result<(), ExpandErr>
    ensures known { Gives refusal_of (λ _. known_of known.new) result (spec.count line text.now
        (known_of known.old)) }
    ensures slices { (texts : Parts) → KnowsSlices texts known.old → OnOk result (KnowsSlices texts known.new) }
{
    let size = byte_count(text);
    if known.spent > SUM_LIMIT || size >= SUM_LIMIT - known.spent {
        let limit = EXPANSION_SUM;
        let reason = ExpandReason::ExpansionSize { limit };
        return Err(ExpandErr::Refused { line, reason });
    }
    known.spent += size + 1;
    Ok(())
}

// A refusal at a line.
pub(crate) fn refused(line: u32, reason: ExpandReason) -> ExpandErr
    ensures { result ≡ ExpandErr.Refused line reason }
{
    ExpandErr::Refused { line, reason }
}

// Whether parts spell a text.
fn are_spelling(alloc: Global, parts: &[Part<'_>], text: &str) -> Result<bool, AllocError>
    ensures { IfOk result (λ same. same ≡ bytes_eq (spelled parts.now) text.now) }
{
    let other = joined(alloc, parts)?;
    Ok(other.as_str() == text)
}

// Whether a name is an alias for another text.
fn is_other_alias(
    alloc: Global,
    aliases: &Aliases<'_>,
    name: &str,
    value: &str,
) -> Result<bool, AllocError>
    ensures { IfOk result (λ other. other ≡ spec.is_other (alias_names aliases.now name.now)
        value.now) }
{
    match aliases.get(name) {
        Some(old) => Ok(!are_spelling(alloc, old, value)?),
        None => Ok(false),
    }
}

// Makes a name stand for parts.
fn set_alias<'a>(
    alloc: Global,
    known: &mut Known<'a>,
    name: &str,
    value: Vec<Part<'a>>,
) -> Result<(), AllocError>
    ensures known { OnOk result (known_of known.new ≡ spec.set_alias name.now (Some (spelled
        value.entry.items)) (known_of known.old)) }
    ensures slices { (texts : Parts) → AreSlices texts value.entry.items → KnowsSlices texts known.old → OnOk result (KnowsSlices texts known.new) }
{
    let name = String::from_str(alloc, name)?;
    known.aliases.insert(name, value)?;
    Ok(())
}

// Reads `NAME .req TEXT`.
pub(crate) fn with_alias<'a>(
    alloc: Global,
    known: &mut Known<'a>,
    line: u32,
    parts: &[Part<'a>],
    words: &[Token<'_>],
) -> Result<(), ExpandErr>
    ensures known { Gives refusal_of (λ _. known_of known.new) result (spec.with_alias line (spelled
        parts.now) (lexemes words.now) (known_of known.old)) }
    ensures slices { (texts : Parts) → AreSlices texts parts.now → KnowsSlices texts known.old → OnOk result (KnowsSlices texts known.new) }
{
    let [name, _, _, rest @ ..] = words else {
        return Ok(());
    };
    let [next, ..] = rest else {
        return Ok(());
    };
    let start = next.start as usize;
    let mut value = Vec::new(alloc);
    push_replaced(&mut value, parts, &known.aliases, false, start, rest)?;
    let text = joined(alloc, &value)?;
    if is_other_alias(alloc, &known.aliases, name.text, &text)? {
        return Err(refused(line, ExpandReason::AliasTwice));
    }
    let mut whole = Vec::new(alloc);
    push_cut(&mut whole, parts, beginning(parts), 0, start)?;
    push_all(&mut whole, &value)?;
    count(known, line, &joined(alloc, &whole)?)?;
    set_alias(alloc, known, name.text, value)?;
    Ok(())
}

// Makes a name stand for nothing.
fn end_alias(known: &mut Known<'_>, name: &str)
    ensures known { known_of known.new ≡ spec.set_alias name.now None (known_of known.old) }
    ensures slices { (texts : Parts) → KnowsSlices texts known.old → KnowsSlices texts known.new }
{
    known.aliases.swap_remove(name);
}

// Counts a statement where it is told to.
pub(crate) fn count_if(
    known: &mut Known<'_>,
    counts: bool,
    line: u32,
    text: &str,
) -> Result<(), ExpandErr>
    ensures known { Gives refusal_of (λ _. known_of known.new) result (spec.count_if counts line
        text.now (known_of known.old)) }
    ensures slices { (texts : Parts) → KnowsSlices texts known.old → OnOk result (KnowsSlices texts known.new) }
{
    if !counts {
        return Ok(());
    }
    count(known, line, text)
}

// Reads `.unreq NAME`; `counts` says whether it counts.
pub(crate) fn without_alias(
    known: &mut Known<'_>,
    counts: bool,
    line: u32,
    text: &str,
    words: &[Token<'_>],
) -> Result<(), ExpandErr>
    ensures known { Gives refusal_of (λ _. known_of known.new) result (spec.without_alias counts line
        text.now (lexemes words.now) (known_of known.old)) }
    ensures slices { (texts : Parts) → KnowsSlices texts known.old → OnOk result (KnowsSlices texts known.new) }
{
    let [_dot, unreq, name] = words else {
        return Err(refused(line, ExpandReason::AliasUnknown));
    };
    if name.touches(unreq) {
        return Err(refused(line, ExpandReason::AliasUnknown));
    }
    if !known.aliases.contains_key(name.text) {
        return Err(refused(line, ExpandReason::AliasUnknown));
    }
    count_if(known, counts, line, text)?;
    end_alias(known, name.text);
    Ok(())
}

// Reads a statement that is no definition, no invocation and no alias.
fn plain<'a>(
    alloc: Global,
    known: &mut Known<'a>,
    line: u32,
    parts: &[Part<'a>],
    words: &[Token<'_>],
) -> Result<(), ExpandErr>
    ensures known { Gives refusal_of (λ _. known_of known.new) result (spec.plain line (spelled
        parts.now) (lexemes words.now) (known_of known.old)) }
    ensures slices { (texts : Parts) → AreSlices texts parts.now → KnowsSlices texts known.old → OnOk result (KnowsSlices texts known.new) }
{
    let mut whole = Vec::new(alloc);
    push_replaced(&mut whole, parts, &known.aliases, true, 0, words)?;
    let text = joined(alloc, &whole)?;
    count(known, line, &text)?;
    if text.as_str().is_empty() {
        return Ok(());
    }
    if is_directive("endm", words) {
        return Ok(());
    }
    give(known, line, What::Statement(whole))?;
    Ok(())
}

// Reads a statement that invokes no macro.
fn uninvoked<'a>(
    alloc: Global,
    known: &mut Known<'a>,
    line: u32,
    parts: &[Part<'a>],
    text: &str,
    words: &[Token<'_>],
) -> Result<(), ExpandErr>
    requires { text.now ≡ spelled parts.now }
    ensures known { Gives refusal_of (λ _. known_of known.new) result (spec.uninvoked line (spelled
        parts.now) (lexemes words.now) (known_of known.old)) }
    ensures slices { (texts : Parts) → AreSlices texts parts.now → KnowsSlices texts known.old → OnOk result (KnowsSlices texts known.new) }
{
    if is_alias(words) {
        return with_alias(alloc, known, line, parts, words);
    }
    if is_directive("unreq", words) {
        return without_alias(known, true, line, text, words);
    }
    plain(alloc, known, line, parts, words)
}

// Whether a statement is a label alone.
fn is_label_alone(first: &Token<'_>, rest: &[Token<'_>]) -> bool
    ensures { result ≡ spec.is_label_alone (token_value first.now) (lexemes rest.now) }
{
    let [colon] = rest else {
        return false;
    };
    is_label(first, colon)
}

// The macro that words invoke.
pub(crate) fn invoked<'m, 'a>(macros: &'m Macros<'a>, words: &[Token<'_>]) -> Option<&'m Macro<'a>>
    ensures found { option_map (λ found. macro_of found.now) result ≡ spec.invoked (macro_names
        macros.now) (lexemes words.now) }
    ensures slices { (texts : Parts) → AreMacros texts macros.now → IfSome result (λ found. AreBody texts found.now.body.items) }
{
    let [first, rest @ ..] = words else {
        return None;
    };
    if !first.is_word() {
        return None;
    }
    if is_label_alone(first, rest) {
        return None;
    }
    macros.get(first.text)
}

// The words behind the first.
fn tail<'w, 't>(words: &'w [Token<'t>]) -> &'w [Token<'t>]
    ensures { lexemes result.now ≡ spec.tail (lexemes words.now) }
{
    let [_, behind @ ..] = words else {
        return words;
    };
    behind
}

// Whether there are as many arguments as parameters.
fn are_as_many(values: &[Vec<Part<'_>>], names: &Parameters) -> bool
    ensures { result ≡ (length values.now == length names.now.keys) }
{
    values.len() == names.len()
}

// The statements that a statement gives: its labels, and what stands behind them.
pub(crate) fn parted<'a>(
    alloc: Global,
    parts: &[Part<'a>],
) -> Result<Vec<Vec<Part<'a>>>, AllocError>
    ensures text { IfOk result (λ lists. spelled_lists lists.items ≡ parted (spelled parts.now)) }
    ensures slices { (texts : Parts) → AreSlices texts parts.now → IfOk result (λ lists. AreLists texts lists.items) }
{
    let text = joined(alloc, parts)?;
    let words = words_of(alloc, &text)?;
    let mut lists = Vec::new(alloc);
    push_divided(alloc, &mut lists, parts, &words)?;
    Ok(lists)
}

/// What an expansion stands in: the macros, how much deeper it may go, and the line of its
/// invocation.
#[derive(Clone, Copy)]
pub(crate) struct Place<'m, 'a> {
    pub alloc: Global,
    pub macros: &'m Macros<'a>,
    pub deeper: u32,
    pub line: u32,
}

/// Reads a statement of the region or of an expansion; `unknown` says that a `\` which names no
/// parameter stood in it.
#[cycle(expansion)]
pub(crate) fn statement<'a>(
    place: Place<'_, 'a>,
    unknown: bool,
    parts: &[Part<'a>],
    known: &mut Known<'a>,
) -> Result<(), ExpandErr>
    ensures known { Gives refusal_of (λ _. known_of known.new) result
        (step_at place.entry unknown (spelled parts.now) (known_of known.old)) }
    ensures slices { (texts : Parts) → AreMacros texts place.entry.macros.now → AreSlices texts parts.now → KnowsSlices texts known.old → OnOk result (KnowsSlices texts known.new) }
{
    let text = joined(place.alloc, parts)?;
    let words = words_of(place.alloc, &text)?;
    if is_directive("macro", &words) {
        return Err(refused(place.line, ExpandReason::NoEndm));
    }
    let Some(found) = invoked(place.macros, &words) else {
        if unknown {
            return Err(refused(place.line, ExpandReason::ParamUnknown));
        }
        return uninvoked(place.alloc, known, place.line, parts, &text, &words);
    };
    let Some(names) = &found.parameters else {
        return Err(refused(place.line, ExpandReason::MacroShape));
    };
    let values = arguments(place.alloc, parts, tail(&words))?;
    if !are_as_many(&values, names) {
        return Err(refused(place.line, ExpandReason::ArgCount));
    }
    if unknown {
        return Err(refused(place.line, ExpandReason::ParamUnknown));
    }
    run(place, &text, names, &values, &found.body, known)
}

// Expands a macro's body.
#[cycle(expansion)]
fn run<'a>(
    place: Place<'_, 'a>,
    text: &str,
    names: &Parameters,
    values: &[Vec<Part<'a>>],
    body: &[What<'a>],
    known: &mut Known<'a>,
) -> Result<(), ExpandErr>
    ensures known { Gives refusal_of (λ _. known_of known.new) result
        (run_at place.entry text.now (values_in names.now values.now) (map what_of body.now)
        (known_of known.old)) }
    ensures slices { (texts : Parts) → AreMacros texts place.entry.macros.now → AreLists texts values.now → AreBody texts body.now → KnowsSlices texts known.old → OnOk result (KnowsSlices texts known.new) }
{
    if place.deeper == 0 {
        let limit = EXPANSION_DEPTH;
        return Err(refused(place.line, ExpandReason::Depth { limit }));
    }
    count(known, place.line, text)?;
    give(known, place.line, What::Row)?;
    let inner = Place {
        deeper: place.deeper - 1,
        ..place
    };
    expand_all(inner, names, values, body, known)?;
    give(known, place.line, What::Invoked)?;
    Ok(())
}

// Expands what stands in a body.
#[cycle(expansion)]
fn expand_all<'a>(
    place: Place<'_, 'a>,
    names: &Parameters,
    values: &[Vec<Part<'a>>],
    body: &[What<'a>],
    known: &mut Known<'a>,
) -> Result<(), ExpandErr>
    ensures known { Gives refusal_of (λ _. known_of known.new) result
        (spec.expand_all (step_at place.entry) place.entry.line (values_in names.now values.now)
        (map what_of body.now) (known_of known.old)) }
    ensures slices { (texts : Parts) → AreMacros texts place.entry.macros.now → AreLists texts values.now → AreBody texts body.now → KnowsSlices texts known.old → OnOk result (KnowsSlices texts known.new) }
{
    for what in body {
        expand_one(place, names, values, what, known)?;
    }
    Ok(())
}

// Expands one piece of a body.
#[cycle(expansion)]
fn expand_one<'a>(
    place: Place<'_, 'a>,
    names: &Parameters,
    values: &[Vec<Part<'a>>],
    what: &What<'a>,
    known: &mut Known<'a>,
) -> Result<(), ExpandErr>
    ensures known { Gives refusal_of (λ _. known_of known.new) result
        (spec.expand_one (step_at place.entry) place.entry.line (values_in names.now values.now)
        (what_of what.now) (known_of known.old)) }
    ensures slices { (texts : Parts) → AreMacros texts place.entry.macros.now → AreLists texts values.now → HasSlices texts what.now → KnowsSlices texts known.old → OnOk result (KnowsSlices texts known.new) }
{
    match what {
        What::Statement(parts) => return expand_statement(place, names, values, parts, known),
        What::Row => give(known, place.line, What::Row)?,
        What::Invoked => {}
        What::Note(note) => give(known, place.line, What::Note(*note))?,
    }
    Ok(())
}

// Expands a statement of a body.
#[cycle(expansion)]
fn expand_statement<'a>(
    place: Place<'_, 'a>,
    names: &Parameters,
    values: &[Vec<Part<'a>>],
    parts: &[Part<'a>],
    known: &mut Known<'a>,
) -> Result<(), ExpandErr>
    ensures known { Gives refusal_of (λ _. known_of known.new) result
        (spec.expand_one (step_at place.entry) place.entry.line (values_in names.now values.now)
        (Statement (spelled parts.now)) (known_of known.old)) }
    ensures slices { (texts : Parts) → AreMacros texts place.entry.macros.now → AreLists texts values.now → AreSlices texts parts.now → KnowsSlices texts known.old → OnOk result (KnowsSlices texts known.new) }
{
    let text = joined(place.alloc, parts)?;
    let mut filled = Vec::new(place.alloc);
    let unknown = push_filled(&mut filled, parts, text.as_bytes(), names, values)?;
    let lists = parted(place.alloc, &filled)?;
    for list in &lists {
        statement(place, unknown, list, known)?;
    }
    Ok(())
}
