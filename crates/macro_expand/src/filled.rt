//! Arguments put into a macro's body, and aliases replaced in a statement.
ghost use Rattle.std.specs.Prelude.{◌≡◌, [], ◌+◌, ◌<◌, ◌≤◌, true, ◌++◌, ◌&&◌, ◌||◌, not, length, drop, take, IfOk, IfSome, OnOk, option_map, string_bytes, map};
ghost use Rattle.std.specs.List.{prefix_len};
ghost use Rattle.sl_model.specs.Token.{is_word_byte};
ghost use Rattle.sl_text.specs.Tokens.{token_value};
ghost use Rattle.sl_model.specs.TokenTests.{is_word};
ghost use Rattle.macro_expand.specs.Spelled.{lexemes, spelled, spelled_lists, values_in, alias_names, StandsIn};
ghost use Rattle.macro_expand.specs.Filled as spec;
ghost use Rattle.sl_model.specs.Text.{Parts};
ghost use Rattle.macro_expand.specs.Slices.{AreAliases, AreLists, AreSlices};

use crate::parts::{Cursor, Part, beginning, push_all, push_cut};
use crate::words::{Parameters, end_of};
use indexmap::IndexMap;
use sl_text::{Token, is_word_byte};
use std::alloc::{AllocError, Global};

/// What aliases stand for.
pub(crate) type Aliases<'a> = IndexMap<String, Vec<Part<'a>>>;

// The length of the name at the start of a text.
fn name_length(text: &[u8]) -> usize
    ensures value { result ≡ prefix_len is_word_byte text.now }
    ensures within { result ≤ length text.now }
{
    text.iter().take_while(|byte| is_word_byte(**byte)).count()
}

// The number of bytes at the start of a text that are no `\`.
fn plain_length(text: &[u8]) -> usize
    ensures value { result ≡ prefix_len spec.is_plain text.now }
    ensures within { result ≤ length text.now }
{
    text.iter().take_while(|byte| **byte != b'\\').count()
}

// The number of bytes that a `\` takes of the text behind it.
fn taken(behind: &[u8]) -> usize
    ensures value { result ≡ spec.taken_behind 92 behind.now }
    ensures within { result ≤ length behind.now }
{
    if behind.starts_with(b"()") {
        return 2;
    }
    name_length(behind)
}

// What the name of a parameter stands for.
fn value_of<'v, 'a>(
    names: &Parameters,
    values: &'v [Vec<Part<'a>>],
    name: &[u8],
) -> Option<&'v [Part<'a>]>
    ensures value { option_map (λ value. spelled value.now) result
        ≡ values_in names.now values.now name.now }
    ensures slices { (texts : Parts) → AreLists texts values.now → IfSome result (λ value. AreSlices texts value.now) }
{
    let Some(place) = names.get_index_of(name) else {
        return None;
    };
    if place >= values.len() {
        return None;
    }
    Some(&values[place])
}

// Adds what is put for a `\`.
fn push_value<'a>(
    out: &mut Vec<Part<'a>>,
    names: &Parameters,
    values: &[Vec<Part<'a>>],
    behind: &[u8],
) -> Result<(), AllocError>
    ensures text { OnOk result (spelled out.new.items ≡ spelled out.old.items
        ++ spec.put_for (values_in names.now values.now) 92 behind.now) }
    ensures slices { (texts : Parts) → AreLists texts values.now → AreSlices texts out.old.items → OnOk result (AreSlices texts out.new.items) }
{
    if behind.starts_with(b"()") {
        return Ok(());
    }
    match value_of(names, values, &behind[..name_length(behind)]) {
        Some(value) => push_all(out, value),
        None => Ok(()),
    }
}

// Whether a `\` names no parameter.
fn is_unknown(names: &Parameters, values: &[Vec<Part<'_>>], behind: &[u8]) -> bool
    ensures { result ≡ spec.is_unknown (values_in names.now values.now) 92 behind.now }
{
    if behind.starts_with(b"()") {
        return false;
    }
    value_of(names, values, &behind[..name_length(behind)]).is_none()
}

// Whether a `\` that names no parameter stands in a body's text.
fn has_unknown(text: &[u8], names: &Parameters, values: &[Vec<Part<'_>>]) -> bool
    ensures { result ≡ spec.has_unknown (values_in names.now values.now) 0 text.now }
{
    let mut place = 0;
    while place < text.len() {
        if text[place] != b'\\' {
            place += 1;
            continue;
        }
        let behind = &text[place + 1..];
        if is_unknown(names, values, behind) {
            return true;
        }
        place += 1 + taken(behind);
    }
    false
}

// Adds a body's statement with arguments put in for parameters; `text` is what the parts spell.
fn fill<'a>(
    out: &mut Vec<Part<'a>>,
    parts: &[Part<'a>],
    text: &[u8],
    names: &Parameters,
    values: &[Vec<Part<'a>>],
) -> Result<(), AllocError>
    requires { text.now ≡ spelled parts.now }
    ensures text { OnOk result (spelled out.new.items ≡ spelled out.old.items
        ++ spec.filled (values_in names.now values.now) 0 text.now) }
    ensures slices { (texts : Parts) → AreSlices texts parts.now → AreLists texts values.now → AreSlices texts out.old.items → OnOk result (AreSlices texts out.new.items) }
{
    let mut cursor = beginning(parts);
    let mut place = 0;
    while place < text.len() {
        if text[place] == b'\\' {
            let behind = &text[place + 1..];
            push_value(out, names, values, behind)?;
            place += 1 + taken(behind);
            continue;
        }
        let end = place + plain_length(&text[place..]);
        cursor = push_cut(out, parts, cursor, place, end)?;
        place = end;
    }
    Ok(())
}

/// Adds a body's statement with arguments put in for parameters, and says whether a `\` in it
/// names no parameter. `text`
/// is what the parts spell.
pub(crate) fn push_filled<'a>(
    out: &mut Vec<Part<'a>>,
    parts: &[Part<'a>],
    text: &[u8],
    names: &Parameters,
    values: &[Vec<Part<'a>>],
) -> Result<bool, AllocError>
    requires { text.now ≡ spelled parts.now }
    ensures filled { OnOk result (spelled out.new.items ≡ spelled out.old.items
        ++ spec.filled (values_in names.now values.now) 0 (spelled parts.now)) }
    ensures unknown { IfOk result (λ unknown. unknown ≡ spec.has_unknown (values_in names.now
        values.now) 0 (spelled parts.now)) }
    ensures slices { (texts : Parts) → AreSlices texts parts.now → AreLists texts values.now → AreSlices texts out.old.items → OnOk result (AreSlices texts out.new.items) }
{
    fill(out, parts, text, names, values)?;
    Ok(has_unknown(text, names, values))
}

// Whether two `\()`, one behind the other, begin a text.
fn begins_twice(text: &[u8]) -> bool
    ensures { result ≡ spec.begins_twice text.now }
{
    text.starts_with(b"\\()\\()")
}

// The number of bytes of a text before two `\()` that stand one behind the other.
fn kept_length(text: &[u8]) -> usize
    ensures front { spec.kept 0 text.now ≡ take result text.now ++ spec.kept 0 (drop result
        text.now) }
    ensures next { result < length text.now → spec.begins_twice (drop result text.now) ≡ true }
    ensures within { result ≤ length text.now }
{
    for place in 0..text.len() {
        if begins_twice(&text[place..]) {
            return place;
        }
    }
    text.len()
}

/// Adds what is kept of a body's statement; `text` is what the parts spell.
pub(crate) fn push_kept<'a>(
    out: &mut Vec<Part<'a>>,
    parts: &[Part<'a>],
    text: &[u8],
) -> Result<(), AllocError>
    requires { text.now ≡ spelled parts.now }
    ensures text { OnOk result (spelled out.new.items
        ≡ spelled out.old.items ++ spec.kept 0 (spelled parts.now)) }
    ensures slices { (texts : Parts) → AreSlices texts parts.now → AreSlices texts out.old.items → OnOk result (AreSlices texts out.new.items) }
{
    let mut cursor = beginning(parts);
    let mut place = 0;
    while place < text.len() {
        let end = place + kept_length(&text[place..]);
        cursor = push_cut(out, parts, cursor, place, end)?;
        if end == text.len() {
            return Ok(());
        }
        place = end + 3;
    }
    Ok(())
}

// Whether a word is kept that stands directly behind a text.
fn is_keeping(text: &str) -> bool
    ensures { result ≡ spec.is_keeping text.now }
{
    if text == "." {
        return true;
    }
    text == "<"
}

// The text directly before a token: that of the token that ends at a place, or nothing.
fn directly_before<'t>(place: usize, text: &'t str, token: &Token<'_>) -> &'t str
    ensures { result.now ≡ spec.directly_before place text.now (token_value token.now) }
{
    if token.start as usize == place {
        return text;
    }
    ""
}

// Whether a token is kept.
fn is_kept(first: bool, before: &str, token: &Token<'_>) -> bool
    ensures { result ≡ spec.is_kept first before.now (token_value token.now) }
{
    if !token.is_word() {
        return true;
    }
    if first {
        return true;
    }
    is_keeping(before)
}

// What a name is an alias for.
fn alias_value<'v, 'a>(aliases: &'v Aliases<'a>, name: &str) -> Option<&'v [Part<'a>]>
    ensures value { option_map (λ value. spelled value.now) result ≡ alias_names aliases.now name.now }
    ensures slices { (texts : Parts) → AreAliases texts aliases.now → IfSome result (λ value. AreSlices texts value.now) }
{
    match aliases.get(name) {
        Some(value) => Some(value),
        None => None,
    }
}

// Adds what stands at the place of a token.
fn push_place<'a>(
    out: &mut Vec<Part<'a>>,
    parts: &[Part<'a>],
    cursor: Cursor,
    token: &Token<'_>,
) -> Result<Cursor, AllocError>
    requires { StandsIn parts.now cursor }
    ensures place { OnOk result (spelled out.new.items
        ≡ spelled out.old.items ++ spec.at_place (spelled parts.now) (token_value token.now)) }
    ensures stands { IfOk result (λ next. StandsIn parts.now next) }
    ensures slices { (texts : Parts) → AreSlices texts parts.now → AreSlices texts out.old.items → OnOk result (AreSlices texts out.new.items) }
{
    push_cut(out, parts, cursor, token.start as usize, end_of(token))
}

// Adds what is put for a token.
fn push_word<'a>(
    out: &mut Vec<Part<'a>>,
    parts: &[Part<'a>],
    cursor: Cursor,
    aliases: &Aliases<'a>,
    first: bool,
    before: &str,
    token: &Token<'_>,
) -> Result<Cursor, AllocError>
    requires { StandsIn parts.now cursor }
    ensures word { OnOk result (spelled out.new.items ≡ spelled out.old.items
        ++ spec.put_for_word (alias_names aliases.now) (spelled parts.now) first before.now
        (token_value token.now)) }
    ensures stands { IfOk result (λ next. StandsIn parts.now next) }
    ensures slices { (texts : Parts) → AreSlices texts parts.now → AreAliases texts aliases.now → AreSlices texts out.old.items → OnOk result (AreSlices texts out.new.items) }
{
    if is_kept(first, before, token) {
        return push_place(out, parts, cursor, token);
    }
    let Some(value) = alias_value(aliases, token.text) else {
        return push_place(out, parts, cursor, token);
    };
    push_all(out, value)?;
    Ok(cursor)
}

// Whether no word stands before what stands behind a token.
fn is_first_behind(first: bool, token: &Token<'_>) -> bool
    ensures { result ≡ (first && not (is_word token.now.kind)) }
{
    if !first {
        return false;
    }
    !token.is_word()
}

/// Adds a statement from a place on, with its aliases replaced; `words` are its words from there
/// on. `first` says that no
/// word stands before them, and `last` is the text of the token that ends at the place.
pub(crate) fn push_replaced<'a>(
    out: &mut Vec<Part<'a>>,
    parts: &[Part<'a>],
    aliases: &Aliases<'a>,
    first: bool,
    place: usize,
    words: &[Token<'_>],
) -> Result<(), AllocError>
    ensures text { OnOk result (spelled out.new.items ≡ spelled out.old.items
        ++ spec.replaced (alias_names aliases.now) (spelled parts.now) first [] place (lexemes
        words.now)) }
    ensures slices { (texts : Parts) → AreSlices texts parts.now → AreAliases texts aliases.now → AreSlices texts out.old.items → OnOk result (AreSlices texts out.new.items) }
{
    let mut first = first;
    let mut last = "";
    let mut place = place;
    let mut cursor = beginning(parts);
    for token in words {
        cursor = push_cut(out, parts, cursor, place, token.start as usize)?;
        let before = directly_before(place, last, token);
        cursor = push_word(out, parts, cursor, aliases, first, before, token)?;
        first = is_first_behind(first, token);
        last = token.text;
        place = end_of(token);
    }
    Ok(())
}
