//! Where the operands of an item of a straight list come from.

ghost use Rattle.std.specs.Prelude.{◌≡◌, ◌≤◌, length, reverse};
ghost use Rattle.sl_model.specs.declared.schedule.Source.TheVariants.{Entry, Item};
ghost use Rattle.sl_model.specs.Source.{source_of};
ghost use Rattle.sl_model.specs.Body.{same_source};

use sl_isa::{place_of, same_reg};
use sl_model::instruction::Instr;
use sl_model::register::Reg;
use sl_model::schedule::Source;

/// Where the value of a register below these items, at most 65536, comes from:
/// the last of them that writes it.
#[tactic(auto, unfolding(sl_model::specs::Source::source_of))]
pub fn source_of(above: &[Instr], reg: Reg) -> Source
    requires { length above.now ≤ 65536 }
    ensures { result ≡ source_of reg (reverse above.now) }
{
    let mut rest = above;
    while let Some((last, before)) = rest.split_last() {
        if let Some(place) = place_of(last, reg) {
            return Source::Item {
                index: before.len() as u16,
                place,
            };
        }
        rest = before;
    }
    Source::Entry(reg)
}

/// Are these the same source?
pub fn same_source(a: Source, b: Source) -> bool
    ensures { result ≡ same_source a b }
{
    match a {
        Source::Entry(reg) => is_entry(b, reg),
        Source::Item { index, place } => is_output(b, index, usize::from(place)),
    }
}

// Is a source what this register held before the first item?
fn is_entry(source: Source, reg: Reg) -> bool
    ensures { result ≡ same_source (Entry reg) source }
{
    match source {
        Source::Entry(entry) => same_reg(reg, entry),
        Source::Item { .. } => false,
    }
}

/// Is a source the output at a place of an item?
pub fn is_output(source: Source, item: u16, place: usize) -> bool
    ensures { result ≡ same_source source (Item item place) }
{
    match source {
        Source::Entry(_) => false,
        Source::Item { index, place: at } => index == item && usize::from(at) == place,
    }
}
