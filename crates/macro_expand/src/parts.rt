//! The text of a statement as slices of the input.
ghost use Rattle.std.specs.Prelude.{◌≡◌, ◌+◌, ◌≤◌, ◌++◌, length, slice_range, IfOk, OnOk};
ghost use Rattle.std.specs.String.{string_bytes};
ghost use Rattle.macro_expand.specs.Spelled as spec;
ghost use Rattle.sl_model.specs.Text.{Parts};
ghost use Rattle.macro_expand.specs.Slices.{AreSlices, IsSlice, IsSliceIn};

use std::alloc::{AllocError, Global};

/// A part of a statement.
#[derive(Clone, Copy, Debug)]
pub enum Part<'a> {
    /// A slice of the input.
    Text(&'a str),
    /// Where a comment was taken off.
    Gap,
}

// Adds a part to a text. Where memory runs out, nothing is added.
fn push_part(text: &mut String, part: &Part<'_>) -> Result<(), AllocError>
    ensures { OnOk result (string_bytes text.new ≡ string_bytes text.old ++ spec.spelled_part
        part.now) }
{
    match *part {
        Part::Text(slice) => text.push_str(slice),
        Part::Gap => text.push('\n'),
    }
}

/// The text of parts, in which a line feed stands for a gap.
pub fn joined(alloc: Global, parts: &[Part<'_>]) -> Result<String, AllocError>
    ensures { IfOk result (λ text. string_bytes text ≡ spec.spelled parts.now) }
{
    let mut text = String::new(alloc);
    for part in parts {
        push_part(&mut text, part)?;
    }
    Ok(text)
}

// The length of what a part spells.
fn part_length(part: &Part<'_>) -> usize
    ensures { result ≡ length (spec.spelled_part part.now) }
{
    match *part {
        Part::Text(slice) => slice.len(),
        Part::Gap => 1,
    }
}

// Adds what stands in a slice between two places. A place inside a character, which no caller
// gives, is answered as want
// of memory.
pub(crate) fn push_slice<'a>(
    out: &mut Vec<Part<'a>>,
    slice: &'a str,
    from: usize,
    to: usize,
) -> Result<(), AllocError>
    ensures text { OnOk result (spec.spelled out.new.items ≡ spec.spelled out.old.items ++
        slice_range slice.now from to) }
    ensures slices { (texts : Parts) → IsSliceIn texts slice.now → AreSlices texts out.old.items → OnOk result (AreSlices texts out.new.items) }
{
    let Some(piece) = slice.get(from..to) else {
        return Err(AllocError);
    };
    if piece.is_empty() {
        return Ok(());
    }
    out.push(Part::Text(piece))?;
    Ok(())
}

// Adds a gap, if it stands between two places.
fn push_gap(out: &mut Vec<Part<'_>>, from: usize, to: usize) -> Result<(), AllocError>
    ensures text { OnOk result (spec.spelled out.new.items ≡ spec.spelled out.old.items ++
        slice_range (spec.spelled_part Part.Gap) from to) }
    ensures slices { (texts : Parts) → AreSlices texts out.old.items → OnOk result (AreSlices texts out.new.items) }
{
    if from == 0 && to > 0 {
        out.push(Part::Gap)?;
    }
    Ok(())
}

// Adds what a part spells between two places.
fn push_piece<'a>(
    out: &mut Vec<Part<'a>>,
    part: &Part<'a>,
    from: usize,
    to: usize,
) -> Result<(), AllocError>
    ensures text { OnOk result (spec.spelled out.new.items ≡ spec.spelled out.old.items ++
        slice_range (spec.spelled_part part.now) from to) }
    ensures slices { (texts : Parts) → IsSlice texts part.now → AreSlices texts out.old.items → OnOk result (AreSlices texts out.new.items) }
{
    match *part {
        Part::Text(slice) => push_slice(out, slice, from, to),
        Part::Gap => push_gap(out, from, to),
    }
}

/// A place in a statement's parts: a part, and the place of its beginning. Cuts that ascend go on
/// from where the last one ended, so all of them together pass each part once.
#[derive(Clone, Copy)]
pub(crate) struct Cursor {
    pub index: usize,
    pub start: usize,
}

/// The beginning of a statement.
pub(crate) fn beginning(parts: &[Part<'_>]) -> Cursor
    ensures stands { spec.StandsIn parts.now result }
    ensures start { result.start ≡ 0 }
{
    Cursor { index: 0, start: 0 }
}

// The cursor, or the beginning where the cursor stands behind a place.
fn not_behind(parts: &[Part<'_>], cursor: Cursor, place: usize) -> Cursor
    requires { spec.StandsIn parts.now cursor }
    ensures stands { spec.StandsIn parts.now result }
    ensures before { result.start ≤ place }
{
    if cursor.start <= place {
        return cursor;
    }
    beginning(parts)
}

// The cursor behind a part of this length.
fn next_part(cursor: Cursor, length: usize) -> Result<Cursor, AllocError>
    ensures { IfOk result (λ next. (next.index ≡ cursor.index + 1) × (next.start ≡ cursor.start
        + length)) }
{
    let Some(start) = cursor.start.checked_add(length) else {
        return Err(AllocError);
    };
    let Some(index) = cursor.index.checked_add(1) else {
        return Err(AllocError);
    };
    Ok(Cursor { index, start })
}

/// Adds what parts spell between two places, and answers where the next cut may go on. A statement
/// whose places aren't numbers of the machine is answered as want of memory.
pub(crate) fn push_cut<'a>(
    out: &mut Vec<Part<'a>>,
    parts: &[Part<'a>],
    cursor: Cursor,
    from: usize,
    to: usize,
) -> Result<Cursor, AllocError>
    requires { spec.StandsIn parts.now cursor }
    ensures cut { OnOk result (spec.spelled out.new.items
        ≡ spec.spelled out.old.items ++ slice_range (spec.spelled parts.now) from to) }
    ensures stands { IfOk result (λ next. spec.StandsIn parts.now next) }
    ensures slices { (texts : Parts) → AreSlices texts parts.now → AreSlices texts out.old.items → OnOk result (AreSlices texts out.new.items) }
{
    let mut next = not_behind(parts, cursor, from);
    while next.index < parts.len() {
        let part = &parts[next.index];
        let length = part_length(part);
        let low = from.saturating_sub(next.start).min(length);
        let high = to.saturating_sub(next.start).min(length);
        push_piece(out, part, low, high)?;
        if to.saturating_sub(next.start) <= length {
            return Ok(next);
        }
        next = next_part(next, length)?;
    }
    Ok(next)
}

/// Adds all parts of a list.
pub(crate) fn push_all<'a>(out: &mut Vec<Part<'a>>, parts: &[Part<'a>]) -> Result<(), AllocError>
    ensures text { OnOk result (spec.spelled out.new.items ≡ spec.spelled out.old.items ++
        spec.spelled parts.now) }
    ensures slices { (texts : Parts) → AreSlices texts parts.now → AreSlices texts out.old.items → OnOk result (AreSlices texts out.new.items) }
{
    out.extend_from_slice(parts)?;
    Ok(())
}
