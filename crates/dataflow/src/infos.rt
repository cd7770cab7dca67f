//! What the table of an architecture says of items.
ghost use Rattle.std.specs.Prelude.{◌≡◌, ◌<◌, map, length, IfOk};
ghost use Rattle.sl_model.specs.Source.{item_at};
ghost use Rattle.sl_model.specs.Lawful.{AreValid};

use sl_base::NoMemory;
use sl_isa::Arch;
use sl_model::instruction::{FormInfo, Instr};
use std::alloc::{AllocError, Global};

/// What the table says of the form of each item.
pub fn infos_of<A: Arch>(
    arch: &A,
    alloc: Global,
    items: &[Instr],
) -> Result<Vec<FormInfo>, NoMemory>
    requires { AreValid A.language.isa items.now }
    ensures { IfOk result
        (λ infos. infos.items ≡ map (λ i. A.language.isa.info i.form) items.now) }
{
    let mut infos = Vec::new(alloc);
    for place in 0..items.len() {
        infos
            .push(info_at(arch, items, place))
            .map_err(AllocError::from)?;
    }
    Ok(infos)
}

// What the table says of the form of the item at a place.
fn info_at<A: Arch>(arch: &A, items: &[Instr], place: usize) -> FormInfo
    requires valid { AreValid A.language.isa items.now }
    requires place { place < length items.now }
    ensures { result ≡ A.language.isa.info (item_at items.now place).form }
{
    arch.info(items[place].form)
}
