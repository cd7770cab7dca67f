//! Symbolic registers that are read before they are set.
ghost use Rattle.std.specs.Prelude.{◌≡◌, []};
ghost use Rattle.asm_reader.specs.Unset as spec;

use sl_isa::{Instr, Reg, place_of};

// Does one of some items write a register?
fn is_written(items: &[Instr], reg: Reg) -> bool
    ensures { result ≡ spec.is_written items.now reg }
{
    items.iter().any(|item| place_of(item, reg).is_some())
}

// Is a register symbolic, and does none of some items write it?
fn is_unset(items: &[Instr], reg: Reg) -> bool
    ensures { result ≡ spec.is_unset items.now reg }
{
    reg.symbolic && !is_written(items, reg)
}

// Does an item read a symbolic register that none of those above writes?
fn reads_unset(above: &[Instr], item: &Instr) -> bool
    ensures { result ≡ spec.reads_unset above.now item.now }
{
    item.ins
        .iter()
        .filter_map(|reg| *reg)
        .any(|reg| is_unset(above, reg))
}

/// The line of the first of some items that reads a symbolic register which none above it writes.
pub(crate) fn first_unset(items: &[Instr]) -> Option<u32>
    ensures { result ≡ spec.first_unset [] items.now }
{
    for place in 0..items.len() {
        let item = &items[place];
        if reads_unset(&items[..place], item) {
            return Some(item.line);
        }
    }
    None
}
