//! Marker lines: a label with a colon, alone on its line.
ghost use Rattle.std.specs.Prelude.{◌≡◌, ◌+◌, ◌<◌, ◌^◌, [], ◌∷◌, length, MatchOption, MatchResult, codes};
ghost use Rattle.sl_model.specs.Text as spec;
ghost use Rattle.sl_text.specs.Cut.{IsMarkerAt, numbers_in, only_number};

use crate::text::{split_line, without_end};
use sl_model::text::CutRefusal;

/// A marker line and what stands around it.
#[derive(Clone, Copy, Debug)]
pub struct Marker<'a> {
    /// The line's number, counted from 1.
    pub number: u32,
    /// The text from the start of the line.
    pub from: &'a str,
    /// The text below the line.
    pub below: &'a str,
}

// A text without the blanks at its start.
#[tactic(auto, unfolding(sl_model::specs::Text::skip_blanks))]
fn skip_blanks(text: &[u8]) -> &[u8]
    ensures { result.now ≡ spec.skip_blanks text.now }
{
    let mut rest = text;
    while let [b' ' | b'\t', behind @ ..] = rest {
        rest = behind;
    }
    rest
}

// Whether there is nothing, or a comment to the line's end.
fn is_quiet(text: &[u8]) -> bool
    ensures { result ≡ spec.is_quiet text.now }
{
    text.is_empty() || text.starts_with(b"//")
}

// Whether a line, without its end, is a marker of the label.
#[tactic(auto, unfolding(sl_model::specs::Text::is_marker))]
fn is_marker(label: &str, line: &str) -> bool
    ensures { result ≡ spec.is_marker label.now line.now }
{
    let spelled = skip_blanks(line.as_bytes());
    if !spelled.starts_with(label.as_bytes()) {
        return false;
    }
    let behind = &spelled[label.len()..];
    if !behind.starts_with(b":") {
        return false;
    }
    is_quiet(skip_blanks(&behind[1..]))
}

// The first marker line of a label in a text whose lines are numbered from `first`.
fn next_marker<'a>(text: &'a str, label: &str, first: u32) -> Option<Marker<'a>>
    requires { first + length text.now < 2 ^ 32 }
    ensures { MatchOption result
        (spec.marker_numbers label.now first (spec.whole_lines text.now) ≡ [])
        (λ marker. IsMarkerAt label.now first text.now
        marker.number marker.from.now marker.below.now) }
{
    let mut rest = text;
    let mut number = first;
    while let Some((line, below)) = split_line(rest) {
        if is_marker(label, without_end(line)) {
            return Some(Marker {
                number,
                from: rest,
                below,
            });
        }
        rest = below;
        number += 1;
    }
    None
}

/// The marker line of a label in a text.
///
/// # Errors
///
/// `absent` where there is none, and [`CutRefusal::Twice`] at the second one.
pub fn only_marker<'a>(
    text: &'a str,
    label: &str,
    absent: CutRefusal,
) -> Result<Marker<'a>, CutRefusal>
    requires { length text.now < 2 ^ 31 }
    ensures { MatchResult result
        (λ marker. (only_number absent (numbers_in label.now text.now) ≡ Ok marker.number)
        × IsMarkerAt label.now 1 text.now marker.number marker.from.now marker.below.now)
        (λ refusal. only_number absent (numbers_in label.now text.now) ≡ Err refusal) }
{
    let Some(marker) = next_marker(text, label, 1) else {
        return Err(absent);
    };
    match next_marker(marker.below, label, marker.number + 1) {
        Some(second) => Err(CutRefusal::Twice {
            line: second.number,
        }),
        None => Ok(marker),
    }
}
