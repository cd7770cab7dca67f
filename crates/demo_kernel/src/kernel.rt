//! The text of the kernel.
ghost use Rattle.std.specs.Prelude.{◌≡◌, ◌<◌, ◌≤◌, ◌+◌, ◌-◌, ◌++◌, length, IfOk, OnOk};
ghost use Rattle.demo_kernel.specs.Kernel as spec;

use crate::generator::{drawn, next};
use sl_base::{NoMemory, append, append_labelled};
use std::alloc::Global;

// Adds a mnemonic and the destination of an item.
fn push_start(out: &mut Vec<u8>, mnemonic: &[u8], item: u64) -> Result<(), NoMemory>
    ensures { OnOk result (out.new.items ≡ out.old.items ++ spec.begun mnemonic.now item) }
{
    append(out, b"        ")?;
    append(out, mnemonic)?;
    append_labelled(out, b" x", 4 + item % 12)
}

// Adds the line of a load from eight bytes of its own.
fn push_load(out: &mut Vec<u8>, item: u64) -> Result<(), NoMemory>
    requires few { item < 64 }
    ensures { OnOk result (out.new.items ≡ out.old.items ++ spec.load item) }
{
    push_start(out, b"ldr", item)?;
    append_labelled(out, b", [x0, #", 8 * item)?;
    append(out, b"]\n")
}

// Adds the line of what an item computes of two registers.
fn push_computed(
    out: &mut Vec<u8>,
    mnemonic: &[u8],
    item: u64,
    a: u64,
    b: u64,
) -> Result<(), NoMemory>
    requires first { a < 15 }
    requires second { b < 15 }
    ensures { OnOk result (out.new.items
        ≡ out.old.items ++ spec.computed mnemonic.now item a b) }
{
    push_start(out, mnemonic, item)?;
    append_labelled(out, b", x", 1 + a)?;
    append_labelled(out, b", x", 1 + b)?;
    append(out, b"\n")
}

// Adds the line of an item, by three draws: what it does, and of which registers.
fn push_line(out: &mut Vec<u8>, item: u64, what: u64, a: u64, b: u64) -> Result<(), NoMemory>
    requires few { item < 64 }
    requires first { a < 15 }
    requires second { b < 15 }
    ensures { OnOk result (out.new.items ≡ out.old.items ++ spec.kernel_line item what a b) }
{
    match what {
        0 => push_load(out, item),
        1 => push_computed(out, b"add", item, a, b),
        2 => push_computed(out, b"eor", item, a, b),
        _ => push_computed(out, b"mul", item, a, b),
    }
}

// Adds the lines of so many items, from the item of a number on.
#[tactic(auto, unfolding(crate::specs::Kernel::kernel_lines))]
fn push_lines(out: &mut Vec<u8>, more: u64, item: u64, number: u64) -> Result<(), NoMemory>
    requires few { item + more ≤ 64 }
    ensures { OnOk result (out.new.items
        ≡ out.old.items ++ spec.kernel_lines more item number) }
{
    if more == 0 {
        return Ok(());
    }
    let what = next(number);
    let first = next(what);
    let second = next(first);
    push_line(
        out,
        item,
        drawn(what, 4),
        drawn(first, 15),
        drawn(second, 15),
    )?;
    push_lines(out, more - 1, item + 1, second)
}

// The text of a kernel.
#[tactic(auto, unfolding(crate::specs::Kernel::kernel_text))]
fn text_of(alloc: Global, key: u64, count: u64) -> Result<Vec<u8>, NoMemory>
    requires few { count ≤ 64 }
    ensures { IfOk result (λ text. text.items ≡ spec.kernel_text key count) }
{
    let mut text = Vec::new(alloc);
    append(&mut text, b"slothy_start:\n")?;
    push_lines(&mut text, count, 0, key)?;
    append(&mut text, b"slothy_end:\n")?;
    Ok(text)
}

/// The text of the kernel of a key and a number of items, at most 64: loads, sums, exclusive ors
/// and products of registers, between markers. It has at most 20000 bytes.
pub fn kernel_text(alloc: Global, key: u64, count: u64) -> Result<Vec<u8>, NoMemory>
    requires few { count ≤ 64 }
    ensures value { IfOk result (λ text. text.items ≡ spec.kernel_text key count) }
    ensures short { IfOk result (λ text. length text.items ≤ 20000) }
{
    let text = text_of(alloc, key, count)?;
    Ok(text)
}
