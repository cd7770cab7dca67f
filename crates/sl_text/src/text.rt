//! Bytes as text, and a text line by line.
ghost use Rattle.std.specs.Prelude.{◌≡◌, ◌+◌, ◌<◌, ◌≤◌, ◌^◌, ◌++◌, ◌∷◌, [], length, MatchResult, MatchOption, All, IsUtf8, IsCharBoundary};
ghost use Rattle.sl_model.specs.Text as spec;
ghost use Rattle.sl_text.specs.Lines.{line_length, lines_left};

use crate::line::Lines;
use std::str;

/// Bytes are no text.
#[derive(Clone, Copy, Debug, PartialEq, Eq)]
pub struct NotText {
    /// The line of the first byte that belongs to no character, counted from 1.
    pub line: u32,
}

/// The bytes as a text.
///
/// # Errors
///
/// [`NotText`] where they are no UTF-8.
#[tactic(auto, unfolding(sl_model::specs::Text::bad_line))]
pub fn text_of(bytes: &[u8]) -> Result<&str, NotText>
    requires { length bytes.now < 2 ^ 31 }
    ensures { MatchResult result
        (λ text. (text.now ≡ bytes.now) × (spec.bad_line bytes.now ≡ None))
        (λ fault. spec.bad_line bytes.now ≡ Some fault.line) }
{
    match str::from_utf8(bytes) {
        Ok(text) => Ok(text),
        Err(fault) => Err(NotText {
            line: line_number(bytes, fault.valid_up_to()),
        }),
    }
}

// The number of the line, counted from 1, that a place stands on.
fn line_number(bytes: &[u8], place: usize) -> u32
    requires few { length bytes.now < 2 ^ 31 }
    requires within { place ≤ length bytes.now }
    ensures { result ≡ spec.line_number bytes.now place }
{
    let ends = bytes[..place].iter().filter(|byte| **byte == b'\n').count();
    ends as u32 + 1
}

/// The lines of a text without their ends, numbered from `first`.
#[tactic(auto, unfolding(crate::specs::Lines::lines_left))]
pub fn lines<'a>(text: &'a str, first: u32) -> Lines<'a>
    requires few { length text.now < 2 ^ 31 }
    requires low { first < 2 ^ 31 }
    ensures all { lines_left result ≡ spec.numbered_lines first text.now }
    ensures count { length (lines_left result) ≤ length text.now }
    ensures short { All (λ line. length line.1 ≤ length text.now) (lines_left result) }
{
    Lines {
        number: first,
        rest: text,
    }
}

/// The first line of a text with its end, and what stands behind it; None for an empty text.
pub fn split_line(text: &str) -> Option<(&str, &str)>
    ensures first { MatchOption result (text.now ≡ [])
        (λ split. spec.whole_lines text.now ≡ split.0.now ∷ spec.whole_lines split.1.now) }
    ensures all { MatchOption result (text.now ≡ [])
        (λ split. (text.now ≡ split.0.now ++ split.1.now) × (0 < length split.0.now)) }
{
    if text.is_empty() {
        return None;
    }
    let end = line_length(text.as_bytes());
    Some((&text[..end], &text[end..]))
}

// The length of the first line with its end, in bytes; 0 where there is no line.
#[tactic(auto, unfolding(crate::specs::Lines::line_length))]
fn line_length(text: &[u8]) -> usize
    ensures value { result ≡ line_length text.now }
    ensures within { result ≤ length text.now }
    ensures boundary { IsUtf8 text.now → IsCharBoundary text.now result }
{
    for (place, byte) in text.iter().enumerate() {
        if *byte == b'\n' {
            return place + 1;
        }
    }
    text.len()
}

/// A line without its end: a line feed, or a carriage return and a line feed.
pub fn without_end(line: &str) -> &str
    ensures { result.now ≡ spec.without_end line.now }
{
    let Some(ended) = line.strip_suffix('\n') else {
        return line;
    };
    ended.strip_suffix('\r').unwrap_or(ended)
}

/// Whether a word stands somewhere in a text.
pub fn holds(text: &str, word: &str) -> bool
    ensures { result ≡ spec.holds word.now text.now }
{
    text.contains(word)
}
