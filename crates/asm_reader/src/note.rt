//! What notes say of instructions and of the region.
ghost use Rattle.std.specs.Prelude.{◌≡◌, ◌≤◌, IfOk, IfSome, MatchOption, length, option_map, None, Some};
ghost use Rattle.asm_reader.specs.WordViews.{bytes_value, word_value, word_values};
ghost use Rattle.asm_reader.specs.UnitViews.{unit_text};
ghost use Rattle.asm_reader.specs.NoteViews.{note_value, remark_value, said_value};
ghost use Rattle.asm_reader.specs.Drafts.{untold};
ghost use Rattle.asm_reader.specs.Notes as spec;

use crate::unit_name::UnitName;
use crate::words::{
    Part, Word, are_item_words, are_named_once, are_region_words, is_tag, number_in, part_of, says,
    value_of, words_in,
};
use sl_text::is_unit_name;
use std::alloc::{AllocError, Global};

/// What a printed region tells of an instruction.
#[derive(Clone, Copy)]
pub struct Note {
    /// The number of the instruction in the old region.
    pub item: Option<u16>,
    /// The unit that takes it.
    pub unit: Option<UnitName>,
    /// The cycle at which it is issued.
    pub cycle: Option<u32>,
    /// Where it stands.
    pub part: Part,
    /// The line of the instruction; where a region is to be printed, its line in the old one.
    pub line: u32,
}

impl Note {
    /// Nothing but the line.
    pub(crate) fn untold(line: u32) -> Note
        ensures { note_value result ≡ untold line }
    {
        Note {
            item: None,
            unit: None,
            cycle: None,
            part: Part::Plain,
            line,
        }
    }
}

/// A note for each instruction of a region.
#[derive(Drop)]
pub struct Notes {
    pub(crate) list: Vec<Note>,
}

impl Notes {
    /// These notes.
    pub fn new(list: Vec<Note>) -> Notes
        ensures { result.list ≡ list }
    {
        Notes { list }
    }

    /// The notes.
    pub fn list(&self) -> &[Note]
        ensures { result.now ≡ self.now.list.items }
    {
        &self.list
    }
}

/// What is said of an instruction.
#[derive(Clone, Copy)]
pub(crate) struct Remark<'a> {
    /// Its tag.
    pub tag: Option<&'a str>,
    /// May it run one turn early?
    pub early: bool,
    /// May it run one turn late?
    pub late: bool,
    /// What a printed region tells of it.
    pub told: Note,
}

/// What a note says.
#[derive(Clone, Copy)]
pub(crate) enum Said<'a> {
    /// This of an instruction.
    Item(Remark<'a>),
    /// The mask of early items, of the region.
    Region(u64),
}

// A text as a tag, where it is one.
fn tag_from(text: &[u8]) -> Option<&str>
    ensures { bytes_value result ≡ spec.tag_from text.now }
{
    if !is_tag(text) {
        return None;
    }
    match str::from_utf8(text) {
        Ok(text) => Some(text),
        Err(_) => None,
    }
}

// A text as the name of a unit, where it is one.
fn unit_from(text: &[u8]) -> Option<UnitName>
    ensures { option_map unit_text result ≡ spec.unit_from text.now }
{
    if !is_unit_name(text) {
        return None;
    }
    match str::from_utf8(text) {
        Ok(text) => Some(UnitName::new(text)),
        Err(_) => None,
    }
}

// The tag that words say.
fn tag_in<'a>(words: &[Word<'a>]) -> Option<&'a str>
    ensures { bytes_value result ≡ spec.tag_in (word_values words.now) }
{
    tag_from(value_of(words, b"mem")?)
}

// The name of the unit that words say.
fn unit_in(words: &[Word<'_>]) -> Option<UnitName>
    ensures { option_map unit_text result ≡ spec.unit_in (word_values words.now) }
{
    unit_from(value_of(words, b"u")?)
}

// The old index that words say.
fn item_in(words: &[Word<'_>]) -> Option<u16>
    ensures { result ≡ spec.item_in (word_values words.now) }
{
    let number = number_in(words, b"i", u128::from(u16::MAX))?;
    Some(number as u16)
}

// The cycle that words say.
fn cycle_in(words: &[Word<'_>]) -> Option<u32>
    ensures { result ≡ spec.cycle_in (word_values words.now) }
{
    let number = number_in(words, b"c", u128::from(u32::MAX))?;
    Some(number as u32)
}

// The mask of early items that words say, and 0 where they say none.
fn mask_in(words: &[Word<'_>]) -> u64
    ensures { result ≡ spec.mask_in (word_values words.now) }
{
    match number_in(words, b"early", u128::from(u64::MAX)) {
        Some(number) => number as u64,
        None => 0,
    }
}

// What words say of an instruction on a line.
fn remark_of<'a>(line: u32, words: &[Word<'a>]) -> Remark<'a>
    ensures { remark_value result ≡ spec.remark_of line (word_values words.now) }
{
    let told = Note {
        item: item_in(words),
        unit: unit_in(words),
        cycle: cycle_in(words),
        part: part_of(value_of(words, b"part")),
        line,
    };
    Remark {
        tag: tag_in(words),
        early: says(words, b"may_early"),
        late: says(words, b"may_late"),
        told,
    }
}

// Whether a word is `region`.
fn begins_region(word: &Word<'_>) -> bool
    ensures { result ≡ spec.begins_region (word_value word.now) }
{
    word.name.eq_ignore_ascii_case(b"region") && word.value.is_none()
}

// What words behind `region` say.
#[tactic(auto, using(crate::proofs::Mapped::all_map))]
fn region_said<'a>(words: &[Word<'a>]) -> Option<Said<'a>>
    ensures { said_value result ≡ spec.region_said (word_values words.now) }
{
    if !are_region_words(words) {
        return None;
    }
    if !are_named_once(words) {
        return None;
    }
    Some(Said::Region(mask_in(words)))
}

// What words say of an instruction on a line.
#[tactic(auto, using(crate::proofs::Mapped::all_map))]
fn item_said<'a>(line: u32, words: &[Word<'a>]) -> Option<Said<'a>>
    ensures { said_value result ≡ spec.item_said line (word_values words.now) }
{
    if !are_item_words(words) {
        return None;
    }
    if !are_named_once(words) {
        return None;
    }
    let remark = remark_of(line, words);
    if remark.early && remark.late {
        return None;
    }
    Some(Said::Item(remark))
}

// What words say that stand on a line.
fn words_said<'a>(line: u32, words: &[Word<'a>]) -> Option<Said<'a>>
    ensures { said_value result ≡ spec.words_said line (word_values words.now) }
{
    let Some((first, behind)) = words.split_first() else {
        return Some(Said::Item(remark_of(line, words)));
    };
    if begins_region(first) {
        return region_said(behind);
    }
    item_said(line, words)
}

/// What a note on a line says, by the text behind `// @slothy:`; None where it isn't a right one.
#[tactic(auto, unfolding(crate::specs::Notes::note_said))]
pub(crate) fn note_said<'a>(
    alloc: Global,
    line: u32,
    text: &'a [u8],
) -> Result<Option<Said<'a>>, AllocError>
    ensures { IfOk result (λ said. said_value said ≡ spec.note_said line text.now) }
{
    let words = words_in(alloc, text)?;
    Ok(words_said(line, &words))
}
