//! Lists of instructions of the small set, in registers of choice.
ghost use Rattle.std.specs.Prelude.{◌≡◌, length, IfOk, IfSome};
ghost use Rattle.sl_model.specs.Lawful.{IsValid, AreValid};
ghost use Rattle.sample_set.specs.FewForms.{few};

use issue_cost::NoMemory;
use sample_set::lines::{load_of, store_of, subs_of, sum_of};
use sl_model::instruction::Instr;
use sl_model::register::{Bank, Reg};
use std::alloc::{AllocError, Global};

/// A general register.
pub const fn general(number: u16) -> Reg {
    Reg {
        bank: Bank::General,
        symbolic: false,
        number,
    }
}

/// An instruction of the small set by its registers.
#[derive(Clone, Copy)]
pub enum Line {
    /// The sum of two registers, behind the one that it goes to.
    Sum(u16, u16, u16),
    /// A register less a number, with flags, behind the register that it goes to.
    Subs(u16, u16, u8),
    /// A load into a register, from another and an offset, with a tag.
    Load(u16, u16, u8, Option<u16>),
    /// A store of a register at another, which is moved on by a number, with a tag.
    Store(u16, u16, u8, Option<u16>),
}

fn sum(out: u16, left: u16, right: u16) -> Option<Instr>
    ensures { IfSome result (λ i. IsValid few.isa i) }
{
    if out < 31 && left < 31 && right < 31 {
        Some(sum_of(out, left, right))
    } else {
        None
    }
}

fn subs(out: u16, from: u16, number: u8) -> Option<Instr>
    ensures { IfSome result (λ i. IsValid few.isa i) }
{
    if out < 31 && from < 31 && number < 64 {
        Some(subs_of(out, from, number))
    } else {
        None
    }
}

fn load(out: u16, base: u16, offset: u8, tag: Option<u16>) -> Option<Instr>
    ensures { IfSome result (λ i. IsValid few.isa i) }
{
    if out < 31 && base < 31 && offset < 64 {
        Some(load_of(out, base, offset, tag))
    } else {
        None
    }
}

fn store(value: u16, base: u16, step: u8, tag: Option<u16>) -> Option<Instr>
    ensures { IfSome result (λ i. IsValid few.isa i) }
{
    if value < 31 && base < 31 && value != base && step < 64 {
        Some(store_of(value, base, step, tag))
    } else {
        None
    }
}

/// The instruction of a line, if there is one.
fn item(line: Line) -> Option<Instr>
    ensures { IfSome result (λ i. IsValid few.isa i) }
{
    match line {
        Line::Sum(out, left, right) => sum(out, left, right),
        Line::Subs(out, from, number) => subs(out, from, number),
        Line::Load(out, base, offset, tag) => load(out, base, offset, tag),
        Line::Store(value, base, step, tag) => store(value, base, step, tag),
    }
}

/// The instructions of lines; where one is none, an error.
pub fn items_of(alloc: Global, lines: &[Line]) -> Result<Vec<Instr>, NoMemory>
    ensures valid { IfOk result (λ items. AreValid few.isa items.items) }
    ensures count { IfOk result (λ items. length items.items ≡ length lines.now) }
{
    let mut items = Vec::new(alloc);
    for line in lines {
        let Some(item) = item(*line) else {
            return Err(NoMemory);
        };
        items.push(item).map_err(AllocError::from)?;
    }
    Ok(items)
}
