//! The cut of a text at the marker lines of its region.
ghost use Rattle.std.specs.Prelude.{◌≡◌, ◌<◌, ◌^◌, ◌++◌, length, MatchResult, IfOk};
ghost use Rattle.sl_model.specs.Text as spec;
ghost use Rattle.sl_text.specs.Cut.{parts_of, EndsIn};

use crate::marker::only_marker;
use sl_model::text::CutRefusal;

/// A text, cut at its two marker lines.
#[derive(Clone, Copy, Debug, PartialEq, Eq)]
pub struct Cut<'a> {
    /// The text up to and with the line of the start marker.
    pub before: &'a str,
    /// The lines between the markers.
    pub body: &'a str,
    /// The text from the start of the end marker's line.
    pub after: &'a str,
    /// The number of the first line of `body`, counted from 1.
    pub first: u32,
}

// What stands in a text before the rest of it.
fn front<'a>(text: &'a str, rest: &str) -> &'a str
    requires { EndsIn text.now rest.now }
    ensures { text.now ≡ result.now ++ rest.now }
{
    &text[..text.len() - rest.len()]
}

/// Cuts a text at the marker lines of the labels `start` and `end`.
///
/// # Errors
///
/// In this order: [`CutRefusal::Twice`] for a second start marker, [`CutRefusal::NoStart`],
/// [`CutRefusal::Twice`] for a second end marker, and [`CutRefusal::NoEnd`] where no end marker
/// stands below the start marker.
pub fn cut_region<'a>(text: &'a str, start: &str, end: &str) -> Result<Cut<'a>, CutRefusal>
    requires { length text.now < 2 ^ 31 }
    ensures cut { MatchResult result
        (λ cut. spec.cut start.now end.now text.now ≡ Ok (parts_of cut))
        (λ refusal. spec.cut start.now end.now text.now ≡ Err refusal) }
    ensures joined { IfOk result
        (λ cut. cut.before.now ++ cut.body.now ++ cut.after.now ≡ text.now) }
    ensures first { IfOk result (λ cut. cut.first < 2 ^ 31) }
{
    let start = only_marker(text, start, CutRefusal::NoStart)?;
    let end = only_marker(text, end, CutRefusal::NoEnd)?;
    if end.number <= start.number {
        return Err(CutRefusal::NoEnd);
    }
    Ok(Cut {
        before: front(text, start.below),
        body: front(start.below, end.from),
        after: end.from,
        first: start.number + 1,
    })
}
