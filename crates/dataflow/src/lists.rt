//! The order and the sources of a straight list.

ghost use Rattle.std.specs.Prelude.{◌≡◌, ℕ, ◌<◌, ◌≤◌, [], map, length, slice_index_or, IfOk};
ghost use Rattle.sl_model.specs.Source.{list_sources, numbers_below};

use crate::sources::source_of;
use sl_base::NoMemory;
use sl_model::instruction::Instr;
use sl_model::schedule::Source;
use std::alloc::{AllocError, Global};

/// The numbers below a number.
pub fn numbers_below(alloc: Global, end: u16) -> Result<Vec<u16>, NoMemory>
    ensures { IfOk result (λ numbers. numbers.items ≡ numbers_below end) }
{
    let mut numbers = Vec::new(alloc);
    for number in 0..end {
        numbers.push(number).map_err(AllocError::from)?;
    }
    Ok(numbers)
}

/// The sources of the operands of the item at a place.
#[tactic(auto, unfolding(sl_model::specs::Source::list_sources))]
fn sources_at(alloc: Global, items: &[Instr], place: usize) -> Result<Vec<Source>, NoMemory>
    requires place { place < length items.now }
    requires few { length items.now ≤ 65535 }
    ensures { IfOk result (λ sources. sources.items ≡ list_sources items.now place) }
{
    let above = &items[..place];
    let sources = items[place]
        .ins
        .iter()
        .filter_map(|register| *register)
        .map(|register| source_of(above, register))
        .collect(alloc)?;
    Ok(sources)
}

/// The sources of the operands of each item.
pub fn all_sources(alloc: Global, items: &[Instr]) -> Result<Vec<Vec<Source>>, NoMemory>
    requires { length items.now ≤ 65535 }
    ensures { IfOk result
        (λ all. map (λ v. v.items) all.items
        ≡ map (list_sources items.now) (numbers_below (length items.now))) }
{
    let mut all = Vec::new(alloc);
    for place in 0..items.len() {
        let sources = sources_at(alloc, items, place)?;
        all.push(sources).map_err(AllocError::from)?;
    }
    Ok(all)
}
