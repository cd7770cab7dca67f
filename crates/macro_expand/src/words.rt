//! The words of a statement whose comments were taken off.
ghost use Rattle.std.specs.Prelude.{◌≡◌, ◌==◌, if◌then◌else◌, ◌+◌, ◌<◌, ◌^◌, ◌++◌, ◌∷◌, [], ⊤, false, not, filter, length, map, IfOk, OnOk, MatchOption, option_map};
ghost use Rattle.std.specs.List.{list_all};
ghost use Rattle.sl_model.specs.declared.text.Comments.TheVariants.{Taken};
ghost use Rattle.sl_model.specs.Token.{tokens as line_tokens};
ghost use Rattle.sl_model.specs.TokenTests.{marks};
ghost use Rattle.std.specs.Str.{str_eq_ignore_ascii_case};
ghost use Rattle.sl_text.specs.Tokens.{token_value};
ghost use Rattle.macro_expand.specs.Spelled.{lexemes, spelled, spelled_lists, names_in, StandsIn};
ghost use Rattle.macro_expand.specs.Words as spec;
ghost use Rattle.sl_model.specs.Text.{Parts};
ghost use Rattle.macro_expand.specs.Slices.{AreLists, AreSlices};

use crate::parts::{Cursor, Part, beginning, push_cut};
use indexmap::IndexSet;
use sl_text::{Comments, Line, Token, tokens};
use std::alloc::{AllocError, Global};

/// The most bytes that a statement may have whose words are looked for. A longer one is answered
/// as want of memory.
const LONGEST: usize = 1 << 30;

// The tokens of a text whose comments were taken off, with the gaps.
fn all_tokens<'t>(alloc: Global, text: &'t str) -> Result<Vec<Token<'t>>, AllocError>
    requires { length text.now < 2 ^ 31 }
    ensures { IfOk result (λ list. lexemes list.items ≡ line_tokens Taken false text.now) }
{
    let line = Line { number: 0, text };
    tokens(line, Comments::Taken, false).collect(alloc)
}

// Some tokens without the gaps.
fn without_gaps<'t>(alloc: Global, tokens: &[Token<'t>]) -> Result<Vec<Token<'t>>, AllocError>
    ensures { IfOk result (λ words. words.items ≡ filter (λ token. not (marks 10 (token_value
        token))) tokens.now) }
{
    tokens
        .iter()
        .filter(|token| !token.is_mark(b'\n'))
        .copied()
        .collect(alloc)
}

/// The words, numbers and marks of a statement, given by its text. One of 2^30 bytes or more is
/// answered as want of memory.
pub fn words_of<'t>(alloc: Global, text: &'t str) -> Result<Vec<Token<'t>>, AllocError>
    ensures { IfOk result (λ words. lexemes words.items ≡ spec.words text.now) }
{
    if text.len() >= LONGEST {
        return Err(AllocError);
    }
    let tokens = all_tokens(alloc, text)?;
    let words = without_gaps(alloc, &tokens)?;
    Ok(words)
}

/// The number of a statement's bytes.
pub(crate) fn byte_count(text: &str) -> usize
    ensures { result ≡ spec.byte_count text.now }
{
    text.as_bytes()
        .iter()
        .filter(|byte| **byte != b'\n')
        .count()
}

/// The place behind a token.
pub(crate) fn end_of(token: &Token<'_>) -> usize
    ensures { result ≡ spec.end_of (token_value token.now) }
{
    token.start as usize + token.text.len()
}

// The place behind the last of some tokens.
fn last_end(first: &Token<'_>, more: &[Token<'_>]) -> usize
    ensures { result ≡ spec.last_end (token_value first.now) (lexemes more.now) }
{
    let mut last = *first;
    let mut rest = more;
    while let [next, behind @ ..] = rest {
        last = *next;
        rest = behind;
    }
    end_of(&last)
}

// Adds what stands in a statement from the first of some of its words to the last, and answers
// where
// the next cut may go on.
fn push_between<'a>(
    out: &mut Vec<Part<'a>>,
    parts: &[Part<'a>],
    cursor: Cursor,
    words: &[Token<'_>],
) -> Result<Cursor, AllocError>
    requires { StandsIn parts.now cursor }
    ensures span { OnOk result (spelled out.new.items
        ≡ spelled out.old.items ++ spec.span (spelled parts.now) (lexemes words.now)) }
    ensures stands { IfOk result (λ next. StandsIn parts.now next) }
    ensures slices { (texts : Parts) → AreSlices texts parts.now → AreSlices texts out.old.items → OnOk result (AreSlices texts out.new.items) }
{
    let [first, more @ ..] = words else {
        return Ok(cursor);
    };
    push_cut(
        out,
        parts,
        cursor,
        first.start as usize,
        last_end(first, more),
    )
}

/// Whether two tokens are a label: a word, and a colon directly behind it.
pub fn is_label(first: &Token<'_>, colon: &Token<'_>) -> bool
    ensures { result ≡ spec.is_label (token_value first.now) (token_value colon.now) }
{
    if !first.is_word() {
        return false;
    }
    if !colon.is_mark(b':') {
        return false;
    }
    colon.touches(first)
}

// The same as a statement of its own.
fn push_span<'a>(
    alloc: Global,
    out: &mut Vec<Vec<Part<'a>>>,
    parts: &[Part<'a>],
    cursor: Cursor,
    words: &[Token<'_>],
) -> Result<Cursor, AllocError>
    requires { StandsIn parts.now cursor }
    ensures span { OnOk result (spelled_lists out.new.items ≡ spelled_lists out.old.items
        ++ spec.span (spelled parts.now) (lexemes words.now) ∷ []) }
    ensures stands { IfOk result (λ next. StandsIn parts.now next) }
    ensures slices { (texts : Parts) → AreSlices texts parts.now → AreLists texts out.old.items → OnOk result (AreLists texts out.new.items) }
{
    let mut span = Vec::new(alloc);
    let next = push_between(&mut span, parts, cursor, words)?;
    out.push(span)?;
    Ok(next)
}

// Whether nothing stands behind a label.
fn is_done(labelled: bool, rest: &[Token<'_>]) -> bool
    ensures { result ≡ (if labelled then length rest.now == 0 else false) }
{
    if !labelled {
        return false;
    }
    rest.is_empty()
}

/// Adds the statements in which a statement is read: its labels, and what stands behind them.
pub(crate) fn push_divided<'a>(
    alloc: Global,
    out: &mut Vec<Vec<Part<'a>>>,
    parts: &[Part<'a>],
    words: &[Token<'_>],
) -> Result<(), AllocError>
    ensures text { OnOk result (spelled_lists out.new.items ≡ spelled_lists out.old.items ++
        spec.divided false (spelled parts.now) (lexemes words.now)) }
    ensures slices { (texts : Parts) → AreSlices texts parts.now → AreLists texts out.old.items → OnOk result (AreLists texts out.new.items) }
{
    let mut cursor = beginning(parts);
    let mut rest = words;
    let mut labelled = false;
    while let [first, colon, more @ ..] = rest {
        if !is_label(first, colon) {
            push_span(alloc, out, parts, cursor, rest)?;
            return Ok(());
        }
        cursor = push_span(alloc, out, parts, cursor, &rest[..2])?;
        labelled = true;
        rest = more;
    }
    if is_done(labelled, rest) {
        return Ok(());
    }
    push_span(alloc, out, parts, cursor, rest)?;
    Ok(())
}

/// Whether two tokens are `.` and a word directly behind it.
pub fn is_dotted(dot: &Token<'_>, word: &Token<'_>) -> bool
    ensures { result ≡ spec.is_dotted (token_value dot.now) (token_value word.now) }
{
    if !dot.is_mark(b'.') {
        return false;
    }
    if !word.is_word() {
        return false;
    }
    word.touches(dot)
}

// Whether a text is a name, in letters of either case.
fn is_name(name: &str, text: &str) -> bool
    ensures { result ≡ str_eq_ignore_ascii_case text.now name.now }
{
    text.eq_ignore_ascii_case(name)
}

/// Whether words begin with `.` and a name, in letters of either case.
pub(crate) fn is_directive(name: &str, words: &[Token<'_>]) -> bool
    ensures { result ≡ spec.is_directive name.now (lexemes words.now) }
{
    let [dot, word, ..] = words else {
        return false;
    };
    if !is_dotted(dot, word) {
        return false;
    }
    is_name(name, word.text)
}

// Whether a token is one of the marks beside which any number of blanks may stand.
fn is_free_mark(token: &Token<'_>) -> bool
    ensures { result ≡ spec.is_free_mark (token_value token.now) }
{
    if token.is_mark(b',') {
        return true;
    }
    if token.is_mark(b'[') {
        return true;
    }
    if token.is_mark(b']') {
        return true;
    }
    token.is_mark(b'!')
}

// Whether words go on as those of an alias do behind its name: `.req TEXT`.
fn is_alias_rest(words: &[Token<'_>]) -> bool
    ensures { result ≡ spec.is_alias_rest (lexemes words.now) }
{
    let [_dot, req, next, ..] = words else {
        return false;
    };
    if !is_directive("req", words) {
        return false;
    }
    if next.touches(req) {
        return is_free_mark(next);
    }
    true
}

/// Whether words are those of `NAME .req TEXT`.
pub(crate) fn is_alias(words: &[Token<'_>]) -> bool
    ensures { result ≡ spec.is_alias (lexemes words.now) }
{
    let [name, rest @ ..] = words else {
        return false;
    };
    let [dot, ..] = rest else {
        return false;
    };
    if !name.is_word() {
        return false;
    }
    if dot.touches(name) {
        return false;
    }
    is_alias_rest(rest)
}

/// The first of some tokens up to a mark of this code, and those behind it where there is one.
pub(crate) fn first_field<'w, 't>(
    tokens: &'w [Token<'t>],
    code: u8,
) -> (&'w [Token<'t>], Option<&'w [Token<'t>]>)
    ensures first { MatchOption result.1
        (spec.between code (lexemes tokens.now) ≡ lexemes result.0.now ∷ [])
        (λ behind. spec.between code (lexemes tokens.now)
        ≡ lexemes result.0.now ∷ spec.between code (lexemes behind.now)) }
    ensures behind { MatchOption result.1 ⊤ (λ behind. length behind.now < length tokens.now) }
{
    for (place, token) in tokens.iter().enumerate() {
        if token.is_mark(code) {
            return (&tokens[..place], Some(&tokens[place + 1..]));
        }
    }
    (tokens, None)
}

/// The arguments that words give: the texts between commas.
pub(crate) fn arguments<'a>(
    alloc: Global,
    parts: &[Part<'a>],
    words: &[Token<'_>],
) -> Result<Vec<Vec<Part<'a>>>, AllocError>
    ensures text { IfOk result (λ values. spelled_lists values.items ≡ spec.arguments (spelled
        parts.now) (lexemes words.now)) }
    ensures slices { (texts : Parts) → AreSlices texts parts.now → IfOk result (λ values. AreLists texts values.items) }
{
    let mut values = Vec::new(alloc);
    if words.is_empty() {
        return Ok(values);
    }
    let mut cursor = beginning(parts);
    let mut rest = Some(words);
    while let Some(left) = rest {
        let (field, behind) = first_field(left, b',');
        cursor = push_span(alloc, &mut values, parts, cursor, field)?;
        rest = behind;
    }
    Ok(values)
}

// Whether a token is a word or a comma.
fn is_word_or_comma(token: &Token<'_>) -> bool
    ensures { result ≡ spec.is_word_or_comma (token_value token.now) }
{
    if token.is_word() {
        return true;
    }
    token.is_mark(b',')
}

// Whether all of some words are names or commas.
fn are_words_or_commas(words: &[Token<'_>]) -> bool
    ensures { result ≡ list_all (λ word. spec.is_word_or_comma (token_value word)) words.now }
{
    words.iter().all(|word| is_word_or_comma(word))
}

// Whether something stands before, between and behind the commas of some words.
fn are_filled(words: &[Token<'_>]) -> bool
    ensures { result ≡ spec.are_filled (lexemes words.now) }
{
    let mut rest = Some(words);
    while let Some(left) = rest {
        let (field, behind) = first_field(left, b',');
        if field.is_empty() {
            return false;
        }
        rest = behind;
    }
    true
}

// Whether words are names, separated by commas or blanks.
fn are_names(words: &[Token<'_>]) -> bool
    ensures { result ≡ spec.are_names (lexemes words.now) }
{
    if words.is_empty() {
        return true;
    }
    if !are_words_or_commas(words) {
        return false;
    }
    are_filled(words)
}

/// The names of parameters, in their order.
pub(crate) type Parameters = IndexSet<Vec<u8>>;

// The names among some words, if each is another one.
fn names_of(alloc: Global, words: &[Token<'_>]) -> Result<Option<Parameters>, AllocError>
    ensures { IfOk result (λ found. option_map names_in found
        ≡ spec.if_different (spec.names_of (lexemes words.now))) }
{
    let mut names: Parameters = IndexSet::new(alloc);
    for word in words {
        if !word.is_word() {
            continue;
        }
        let name = Vec::from_slice(alloc, word.text.as_bytes())?;
        if !names.insert(name)? {
            return Ok(None);
        }
    }
    Ok(Some(names))
}

/// The parameters that words name, and None where they are no parameter list.
pub(crate) fn parameters(
    alloc: Global,
    words: &[Token<'_>],
) -> Result<Option<Parameters>, AllocError>
    ensures { IfOk result (λ found. option_map names_in found
        ≡ spec.parameters (lexemes words.now)) }
{
    if !are_names(words) {
        return Ok(None);
    }
    names_of(alloc, words)
}
