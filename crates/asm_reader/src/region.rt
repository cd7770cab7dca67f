//! The region of a text: its instructions, or why it has none.
ghost use Rattle.std.specs.Prelude.{◌≡◌, ◌≤◌, ◌<◌, ◌^◌, List, [], length, map, IfOk, Result};
ghost use Rattle.sl_model.specs.Answers.{Answers, Gives, Refuses};
ghost use Rattle.sl_model.specs.Text.{cut};
ghost use Rattle.sl_text.specs.Cut.{parts_of};
ghost use Rattle.macro_expand.specs.Expansion.{Refusal as RefusalValue};
ghost use Rattle.macro_expand.specs.Region.{expansion};
ghost use Rattle.macro_expand.specs.Source.{Piece as PieceValue};
ghost use Rattle.macro_expand.specs.Views as expanding;
ghost use Rattle.macro_expand.specs.Views.{piece_of};
ghost use Rattle.asm_reader.specs.DraftViews.{progress_value};
ghost use Rattle.asm_reader.specs.Reading as spec;
ghost use Rattle.asm_reader.specs.RegionViews.{region_of};
ghost use Rattle.asm_reader.specs.Regions.{IsRegion};
ghost use Rattle.asm_reader.specs.Views.{refusal_of};

use crate::note::Notes;
use crate::pieces::read_pieces;
use crate::progress::Progress;
use crate::reading::Manner;
use crate::reasons::{ReadRefusal, Reason, Refusal, Wants};
use crate::tags::Tags;
use crate::unset::first_unset;
use macro_expand::{ExpandErr, Piece, expand};
use sl_isa::{Arch, Instr, Symbols, comment_kind};
use sl_text::{Comments, Cut, CutRefusal, cut_region};
use std::alloc::Global;

/// A region: its text, cut at the markers, its instructions, and what notes say.
#[derive(Drop)]
pub struct Region<'a> {
    /// The text, cut at the markers.
    pub cut: Cut<'a>,
    /// The instructions.
    pub items: Vec<Instr>,
    /// The names of their tags.
    pub tags: Tags<'a>,
    /// The names of their symbolic registers.
    pub symbols: Symbols,
    /// A note for each instruction.
    pub notes: Notes,
    /// The mask of early items that the first note on the region says, and 0 without.
    pub early_mask: u64,
}

// The refusal of a cut.
fn cut_refusal(refusal: CutRefusal) -> Refusal
    ensures { result ≡ spec.cut_refusal refusal }
{
    let line = match refusal {
        CutRefusal::NoStart => 0,
        CutRefusal::NoEnd => 0,
        CutRefusal::Twice { line } => line,
    };
    let reason = Reason::Cut(refusal);
    Refusal { line, reason }
}

// The parts of a text.
fn cut_parts<'a>(text: &'a str, start: &str, end: &str) -> Result<Cut<'a>, Refusal>
    requires { length text.now < 2 ^ 31 }
    ensures answer { Answers parts_of result (spec.parts_or (cut start.now end.now text.now)) }
    ensures before { IfOk result (λ cut. length cut.before.now ≤ length text.now) }
    ensures body { IfOk result (λ cut. length cut.body.now ≤ length text.now) }
    ensures first { IfOk result (λ cut. cut.first < 2 ^ 31) }
{
    match cut_region(text, start, end) {
        Ok(cut) => Ok(cut),
        Err(refusal) => Err(cut_refusal(refusal)),
    }
}

// The refusal of a statement whose macros or aliases cannot be expanded.
fn expand_failure(failure: ExpandErr) -> ReadRefusal
    ensures { (answer : Result (List PieceValue) RefusalValue)
        → Refuses (expanding.refusal_of failure) answer
        → Refuses (refusal_of result) (spec.pieces_or answer) }
{
    match failure {
        ExpandErr::Refused { line, reason } => {
            let reason = Reason::Expand(reason);
            ReadRefusal::Refused(Refusal { line, reason })
        }
        ExpandErr::NoMemory => ReadRefusal::NoMemory,
    }
}

// The pieces of a region.
fn pieces_of<'a>(
    alloc: Global,
    cut: &Cut<'a>,
    comments: Comments,
) -> Result<Vec<Piece<'a>>, ReadRefusal>
    requires before { length cut.now.before.now < 2 ^ 31 }
    requires body { length cut.now.body.now < 2 ^ 31 }
    requires first { cut.now.first < 2 ^ 31 }
    ensures { Gives refusal_of (λ pieces. map piece_of pieces.items) result
        (spec.pieces_or (expansion comments (parts_of cut.now))) }
{
    match expand(alloc, cut, comments) {
        Ok(pieces) => Ok(pieces),
        Err(failure) => Err(expand_failure(failure)),
    }
}

// No symbolic register is read before it is written.
fn set_progress(read: Progress<'_>) -> Result<Progress<'_>, Refusal>
    ensures { Answers progress_value result (spec.set_read (progress_value read.entry)) }
{
    match first_unset(&read.draft.items) {
        Some(line) => Err(Refusal {
            line,
            reason: Reason::SymbolUnset,
        }),
        None => Ok(read),
    }
}

// What is read of the pieces of a region.
#[tactic(auto, unfolding(crate::specs::Reading::pieces_read))]
fn read_body<'a, A: Arch>(
    arch: &A,
    manner: Manner,
    pieces: &[Piece<'a>],
) -> Result<Progress<'a>, ReadRefusal>
    ensures { Gives refusal_of progress_value result
        (spec.pieces_read A.language manner.wants (map piece_of pieces.now)) }
{
    let read = read_pieces(arch, manner, pieces)?;
    Ok(set_progress(read)?)
}

// The region of what was read.
fn region_from<'a>(cut: Cut<'a>, read: Progress<'a>) -> Region<'a>
    ensures { region_of result ≡ spec.region_from (parts_of cut.entry) (progress_value read.entry) }
{
    let Progress { draft, symbols } = read;
    let early_mask = draft.mask.unwrap_or(0);
    Region {
        cut,
        items: draft.items,
        tags: draft.tags,
        symbols,
        notes: Notes::new(draft.notes),
        early_mask,
    }
}

/// The region of a text between the lines of two labels.
///
/// # Errors
///
/// The first line that is refused, and why: first the markers, then macros and aliases, then the
/// statements, and last the symbolic registers. Where memory runs out, [`ReadRefusal::NoMemory`].
#[tactic(auto, unfolding(crate::specs::Reading::text_region))]
pub fn read_region<'a, A: Arch>(
    arch: &A,
    alloc: Global,
    text: &'a str,
    start: &str,
    end: &str,
    wants: Wants,
) -> Result<Region<'a>, ReadRefusal>
    requires { length text.now < 2 ^ 31 }
    ensures answer { Gives refusal_of region_of result
        (spec.text_region A.language wants start.now end.now text.now) }
    ensures right { IfOk result (λ region. IsRegion A.language wants (region_of region)) }
{
    let cut = cut_parts(text, start, end)?;
    let pieces = pieces_of(alloc, &cut, comment_kind(arch.name()))?;
    let read = read_body(arch, Manner { alloc, wants }, &pieces)?;
    Ok(region_from(cut, read))
}
