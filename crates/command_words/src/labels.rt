//! Labels.
ghost use Rattle.std.specs.Prelude.{◌≡◌, option_map};
ghost use Rattle.std.specs.List.{list_all};
ghost use Rattle.sl_model.specs.Answers.{Gives};
ghost use Rattle.command_words.specs.Answer.{usage_of};
ghost use Rattle.command_words.specs.Command as spec;

use crate::{WordText, WordsErr};
use std::alloc::Global;

// Whether a byte is a letter, a digit or `_`.
fn is_label_byte(byte: u8) -> bool
    ensures { result ≡ spec.is_label_byte byte }
{
    byte.is_ascii_alphanumeric() || byte == b'_'
}

// Whether all bytes of a text are.
fn are_label_bytes(text: &[u8]) -> bool
    ensures { result ≡ list_all spec.is_label_byte text.now }
{
    text.iter().all(|byte| is_label_byte(*byte))
}

// Whether a text is a label.
#[tactic(auto, unfolding(crate::specs::Command::is_label))]
fn is_label(text: &[u8]) -> bool
    ensures { result ≡ spec.is_label text.now }
{
    let Some((first, rest)) = text.split_first() else {
        return false;
    };
    if !(first.is_ascii_alphabetic() || *first == b'_') {
        return false;
    }
    are_label_bytes(rest)
}

// The label that is said, or the one that stands for none.
fn label_or<'a>(unsaid: &'a str, word: Option<&'a str>) -> Result<&'a str, WordsErr>
    ensures { Gives usage_of (λ text. text.now) result
        (spec.label_or unsaid.now (option_map (λ text. text.now) word.entry)) }
{
    let Some(word) = word else {
        return Ok(unsaid);
    };
    if !is_label(word.as_bytes()) {
        return Err(WordsErr::Usage);
    }
    Ok(word)
}

// Two labels that differ.
fn two_labels(alloc: Global, start: &str, end: &str) -> Result<(WordText, WordText), WordsErr>
    ensures { Gives usage_of (λ labels. labels) result (spec.two_labels start.now end.now) }
{
    if start == end {
        return Err(WordsErr::Usage);
    }
    let start = WordText::new(alloc, start)?;
    let end = WordText::new(alloc, end)?;
    Ok((start, end))
}

/// The labels at the start and at the end of the region, by what is said of them.
#[tactic(auto, unfolding(crate::specs::Command::labels_of))]
pub(crate) fn labels_of(
    alloc: Global,
    first: Option<&str>,
    last: Option<&str>,
) -> Result<(WordText, WordText), WordsErr>
    ensures { Gives usage_of (λ labels. labels) result
        (spec.labels_of (option_map (λ text. text.now) first.entry)
        (option_map (λ text. text.now) last.entry)) }
{
    let start = label_or("slothy_start", first)?;
    let end = label_or("slothy_end", last)?;
    two_labels(alloc, start, end)
}
