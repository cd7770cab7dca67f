//! The words of notes.
ghost use Rattle.std.specs.Prelude.{◌≡◌, map, IfOk};
ghost use Rattle.std.specs.List.{list_all, list_any, slice_split};
ghost use Rattle.sl_model.specs.Text.{is_blank};
ghost use Rattle.asm_reader.specs.WordViews.{bytes_value, word_value, word_values};
ghost use Rattle.asm_reader.specs.Notes as spec;

use sl_text::{Numeral, are_word_bytes, decimal_value, is_unit_name, is_word_byte};
use std::alloc::{AllocError, Global};

/// Where an instruction stands in a printed region.
#[derive(Clone, Copy, Debug, PartialEq, Eq)]
pub enum Part {
    /// In a straight list, or in the body of a loop.
    Plain,
    /// Before a loop.
    Pre,
    /// Before a loop, where the counter is stepped.
    Dec,
    /// Behind a loop.
    Post,
}

/// What may stand behind the `=` of a word.
#[derive(Clone, Copy)]
pub(crate) enum Shape {
    /// Nothing, and no `=` either.
    Flag,
    /// A number.
    Number,
    /// A tag.
    Tag,
    /// The name of a unit.
    Unit,
    /// The name of a part.
    Part,
    /// The name of a kind of region.
    Kind,
}

/// A word of a note.
#[derive(Clone, Copy)]
pub(crate) struct Word<'a> {
    /// What stands before its first `=`, or all of it.
    pub name: &'a [u8],
    /// What stands behind that `=`.
    pub value: Option<&'a [u8]>,
}

// Whether a byte is a space or a tab.
fn is_blank(byte: u8) -> bool
    ensures { result ≡ is_blank byte }
{
    byte == b' ' || byte == b'\t'
}

// How many bytes stand before the first `=`.
fn name_length(text: &[u8]) -> usize
    ensures { result ≡ spec.name_length text.now }
{
    text.iter().take_while(|byte| **byte != b'=').count()
}

// A text as a word.
fn word_of(text: &[u8]) -> Word<'_>
    ensures { word_value result ≡ spec.word_of text.now }
{
    let end = name_length(text);
    if end < text.len() {
        return Word {
            name: &text[..end],
            value: Some(&text[end + 1..]),
        };
    }
    Word {
        name: &text[..end],
        value: None,
    }
}

// What stands between the blanks of a text, empty pieces among it.
fn pieces_of<'a>(alloc: Global, text: &'a [u8]) -> Result<Vec<&'a [u8]>, AllocError>
    ensures { IfOk result
        (λ pieces. map (λ piece. piece.now) pieces.items ≡ slice_split is_blank text.now) }
{
    text.split(|byte| is_blank(*byte)).collect(alloc)
}

/// The words of a text, which blanks separate.
pub(crate) fn words_in<'a>(alloc: Global, text: &'a [u8]) -> Result<Vec<Word<'a>>, AllocError>
    ensures { IfOk result (λ words. word_values words.items ≡ spec.words_in text.now) }
{
    let pieces = pieces_of(alloc, text)?;
    let mut words = Vec::new(alloc);
    for piece in &pieces {
        if !piece.is_empty() {
            words.push(word_of(piece))?;
        }
    }
    Ok(words)
}

/// Whether a text is a tag.
pub(crate) fn is_tag(text: &[u8]) -> bool
    ensures { result ≡ spec.is_tag text.now }
{
    let Some((first, rest)) = text.split_first() else {
        return false;
    };
    if !is_word_byte(*first) {
        return false;
    }
    are_word_bytes(rest)
}

// Whether a text is a decimal number of at most 128 bits.
fn is_number_text(text: &[u8]) -> bool
    ensures { result ≡ spec.is_number_text text.now }
{
    matches!(decimal_value(u128::MAX, text), Numeral::Number(_))
}

// Whether a text names a part.
fn is_part_name(text: &[u8]) -> bool
    ensures { result ≡ spec.is_among spec.part_names text.now }
{
    if text.eq_ignore_ascii_case(b"pre") {
        return true;
    }
    if text.eq_ignore_ascii_case(b"dec") {
        return true;
    }
    text.eq_ignore_ascii_case(b"post")
}

// Whether a text names a kind of region.
fn is_kind_name(text: &[u8]) -> bool
    ensures { result ≡ spec.is_among spec.kind_names text.now }
{
    if text.eq_ignore_ascii_case(b"straight") {
        return true;
    }
    text.eq_ignore_ascii_case(b"loop")
}

// Whether a text is of a shape.
fn suits(shape: Shape, text: &[u8]) -> bool
    ensures { result ≡ spec.suits shape text.now }
{
    match shape {
        Shape::Flag => false,
        Shape::Number => is_number_text(text),
        Shape::Tag => is_tag(text),
        Shape::Unit => is_unit_name(text),
        Shape::Part => is_part_name(text),
        Shape::Kind => is_kind_name(text),
    }
}

// Whether words of a shape have no `=`.
fn is_flag(shape: Shape) -> bool
    ensures { result ≡ spec.is_flag shape }
{
    matches!(shape, Shape::Flag)
}

// Whether what stands behind the name of a word has the shape that goes with it.
fn has_shape(shape: Option<Shape>, word: &Word<'_>) -> bool
    ensures { result ≡ spec.has_shape shape (word_value word.now).value }
{
    let Some(shape) = shape else {
        return false;
    };
    match word.value {
        Some(text) => suits(shape, text),
        None => is_flag(shape),
    }
}

// Whether a word of an instruction has a number.
fn is_item_number(name: &[u8]) -> bool
    ensures { result ≡ spec.is_among spec.item_numbers name.now }
{
    if name.eq_ignore_ascii_case(b"i") {
        return true;
    }
    if name.eq_ignore_ascii_case(b"c") {
        return true;
    }
    name.eq_ignore_ascii_case(b"line")
}

// Whether a word of an instruction is a mark.
fn is_item_mark(name: &[u8]) -> bool
    ensures { result ≡ spec.is_among spec.item_marks name.now }
{
    if name.eq_ignore_ascii_case(b"may_early") {
        return true;
    }
    name.eq_ignore_ascii_case(b"may_late")
}

// The shape of a word that says something of an instruction, by its name.
fn item_shape(name: &[u8]) -> Option<Shape>
    ensures { result ≡ spec.item_shape name.now }
{
    if is_item_number(name) {
        return Some(Shape::Number);
    }
    if is_item_mark(name) {
        return Some(Shape::Flag);
    }
    if name.eq_ignore_ascii_case(b"mem") {
        return Some(Shape::Tag);
    }
    if name.eq_ignore_ascii_case(b"u") {
        return Some(Shape::Unit);
    }
    if name.eq_ignore_ascii_case(b"part") {
        return Some(Shape::Part);
    }
    None
}

// Whether a word of a region has a number.
fn is_region_number(name: &[u8]) -> bool
    ensures { result ≡ spec.is_among spec.region_numbers name.now }
{
    if name.eq_ignore_ascii_case(b"v") {
        return true;
    }
    if name.eq_ignore_ascii_case(b"n") {
        return true;
    }
    if name.eq_ignore_ascii_case(b"cycles") {
        return true;
    }
    if name.eq_ignore_ascii_case(b"stalls") {
        return true;
    }
    if name.eq_ignore_ascii_case(b"least") {
        return true;
    }
    name.eq_ignore_ascii_case(b"early")
}

// The shape of a word that says something of a region, by its name.
fn region_shape(name: &[u8]) -> Option<Shape>
    ensures { result ≡ spec.region_shape name.now }
{
    if is_region_number(name) {
        return Some(Shape::Number);
    }
    if name.eq_ignore_ascii_case(b"kind") {
        return Some(Shape::Kind);
    }
    None
}

// Whether a word says something of an instruction.
fn is_item_word(word: &Word<'_>) -> bool
    ensures { result ≡ spec.is_item_word (word_value word.now) }
{
    has_shape(item_shape(word.name), word)
}

// Whether a word says something of a region.
fn is_region_word(word: &Word<'_>) -> bool
    ensures { result ≡ spec.is_region_word (word_value word.now) }
{
    has_shape(region_shape(word.name), word)
}

/// Whether all of some words say something of an instruction.
pub(crate) fn are_item_words(words: &[Word<'_>]) -> bool
    ensures { result ≡ list_all (λ word. spec.is_item_word (word_value word)) words.now }
{
    words.iter().all(|word| is_item_word(word))
}

/// Whether all of some words say something of a region.
pub(crate) fn are_region_words(words: &[Word<'_>]) -> bool
    ensures { result ≡ list_all (λ word. spec.is_region_word (word_value word)) words.now }
{
    words.iter().all(|word| is_region_word(word))
}

// Whether one of some words has a name.
fn is_any_named(words: &[Word<'_>], name: &[u8]) -> bool
    ensures { result ≡ list_any (λ word. spec.is_named name.now (word_value word)) words.now }
{
    words
        .iter()
        .any(|word| word.name.eq_ignore_ascii_case(name))
}

/// Whether a word of a name stands among some.
pub(crate) fn says(words: &[Word<'_>], name: &[u8]) -> bool
    ensures { result ≡ spec.says name.now (word_values words.now) }
{
    is_any_named(words, name)
}

/// Whether words have names that differ.
#[tactic(auto, unfolding(crate::specs::Notes::all_named_once))]
pub(crate) fn are_named_once(words: &[Word<'_>]) -> bool
    ensures { result ≡ spec.all_named_once (word_values words.now) }
{
    let Some((word, words)) = words.split_first() else {
        return true;
    };
    if says(words, word.name) {
        return false;
    }
    are_named_once(words)
}

/// The value of the first word of a name.
#[tactic(auto, unfolding(crate::specs::Notes::value_of))]
pub(crate) fn value_of<'a>(words: &[Word<'a>], name: &[u8]) -> Option<&'a [u8]>
    ensures { bytes_value result ≡ spec.value_of name.now (word_values words.now) }
{
    let (word, words) = words.split_first()?;
    if word.name.eq_ignore_ascii_case(name) {
        return word.value;
    }
    value_of(words, name)
}

/// The number of the word of a name, and the most that is asked for where it is above that.
pub(crate) fn number_in(words: &[Word<'_>], name: &[u8], most: u128) -> Option<u128>
    ensures { result ≡ spec.number_in most name.now (word_values words.now) }
{
    match decimal_value(most, value_of(words, name)?) {
        Numeral::Nothing => None,
        Numeral::TooGreat => Some(most),
        Numeral::Number(number) => Some(number),
    }
}

/// The part that a text names, and the plain one where none is named.
pub(crate) fn part_of(text: Option<&[u8]>) -> Part
    ensures { result ≡ spec.part_of (bytes_value text.entry) }
{
    let Some(text) = text else {
        return Part::Plain;
    };
    if text.eq_ignore_ascii_case(b"pre") {
        return Part::Pre;
    }
    if text.eq_ignore_ascii_case(b"dec") {
        return Part::Dec;
    }
    Part::Post
}
