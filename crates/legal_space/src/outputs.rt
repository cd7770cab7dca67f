//! Rules on the registers that an item writes.
ghost use Rattle.std.specs.Prelude.{◌≡◌, ◌==◌, ℕ, ◌&&◌, ◌||◌, ◌<◌, not, length, reverse};
ghost use Rattle.std.specs.List.{list_all, list_any, zip, filter_map};
ghost use Rattle.sl_model.specs.Register.{same_reg};
ghost use Rattle.sl_model.specs.RegSets.{set_has};
ghost use Rattle.sl_model.specs.declared.schedule.Source.TheVariants.{Item};
ghost use Rattle.sl_model.specs.Body.{all_differ, is_placed, same_source};
ghost use Rattle.sl_model.specs.Legal.{sources_in, suits_readers, suits_finals, suits_output, output_classes, is_final_in, is_still_read, may_overwrite, keeps_l4, keeps_l7};

use crate::placed::{held, is_placed};
use crate::problem::Problem;
use crate::registers::are_alike;
use dataflow::sources::{is_output, same_source};
use sl_isa::same_reg;
use sl_isa::sets::set_has;
use sl_model::register::{Reg, RegSet};
use sl_model::schedule::{Choice, Source};

/// L4: each output's register is allowed for the item, of the output's class and of the
/// class of each operand that reads it; the outputs differ; a final value is in its final
/// register; the flags are in flags.
pub fn keeps_l4(problem: &Problem, choice: &Choice) -> bool
    requires known { choice.now.item < length problem.now.graph.items }
    ensures { result ≡ keeps_l4 problem.now choice.now }
{
    if !suit_outputs(problem, choice) {
        return false;
    }
    all_differ(&choice.outs)
}

// May all outputs go to their registers, as far as sets and finals say?
fn suit_outputs(problem: &Problem, choice: &Choice) -> bool
    requires known { choice.now.item < length problem.now.graph.items }
    ensures { result ≡ list_all (suits_output problem.now choice.now.item)
        (output_classes problem.now choice.now) }
{
    let info = problem.info(choice.item);
    let own = problem.item(choice.item);
    choice
        .outs
        .iter()
        .filter_map(|out| *out)
        .zip(&info.out_sets)
        .zip(own.outs.iter().filter_map(|out| *out))
        .enumerate()
        .all(|(place, ((reg, set), own))| {
            suits_output(problem, choice.item, place, reg, *set, own)
        })
}

/// May the output at a place of an item, of a class and with its original register, go to a
/// register, as far as L4 says of it alone?
pub fn suits_output(
    problem: &Problem,
    item: u16,
    place: usize,
    reg: Reg,
    set: RegSet,
    own: Reg,
) -> bool
    ensures { result ≡ suits_output problem.now item (place, ((reg, set), own)) }
{
    if !set_has(problem.allowed_for(item), reg) {
        return false;
    }
    if !set_has(set, reg) {
        return false;
    }
    if !suits_readers(problem, item, place, reg) {
        return false;
    }
    if !suits_finals(problem, item, place, reg) {
        return false;
    }
    are_alike(own, reg)
}

// Is a register of the class of each operand that reads an output?
fn suits_readers(problem: &Problem, item: u16, place: usize, reg: Reg) -> bool
    ensures { result ≡ suits_readers problem.now (Item item place) reg }
{
    let order = problem.order();
    for reader in order {
        let info = problem.info(*reader);
        if !suits_operands(problem.sources_of(*reader), &info.in_sets, item, place, reg) {
            return false;
        }
    }
    true
}

// Is a register of the class of each of an item's operands that reads an output?
fn suits_operands(sources: &[Source], sets: &[RegSet], item: u16, place: usize, reg: Reg) -> bool
    ensures { result ≡ list_all (λ x. not (same_source x.0 (Item item place)) || set_has x.1 reg)
        (zip sources.now sets.now) }
{
    sources.iter().zip(sets).all(|(source, set)| suits_operand(*source, *set, item, place, reg))
}

// Is a register of the class of an operand, if that reads an output?
fn suits_operand(source: Source, set: RegSet, item: u16, place: usize, reg: Reg) -> bool
    ensures { result ≡ (not (same_source source (Item item place)) || set_has set reg) }
{
    if !is_output(source, item, place) {
        return true;
    }
    set_has(set, reg)
}

// Is a register the one in which an output is final, wherever it is final?
fn suits_finals(problem: &Problem, item: u16, place: usize, reg: Reg) -> bool
    ensures { result ≡ suits_finals problem.now (Item item place) reg }
{
    problem.finals().iter().all(|(last, value)| suits_final(*last, *value, item, place, reg))
}

// Is a register the one in which a value is final, if it is the output?
fn suits_final(last: Reg, value: Source, item: u16, place: usize, reg: Reg) -> bool
    ensures { result ≡ (not (same_source value (Item item place)) || same_reg last reg) }
{
    if !is_output(value, item, place) {
        return true;
    }
    same_reg(last, reg)
}

// Do all registers differ?
fn all_differ(outs: &[Option<Reg>]) -> bool
    ensures { result ≡ all_differ (filter_map (λ r. r) outs.now) }
{
    for (place, out) in outs.iter().enumerate() {
        let Some(reg) = out else {
            continue;
        };
        if is_among(&outs[place + 1..], *reg) {
            return false;
        }
    }
    true
}

// Is a register among others?
fn is_among(outs: &[Option<Reg>], reg: Reg) -> bool
    ensures { result ≡ list_any (λ out. same_reg out reg) (filter_map (λ r. r) outs.now) }
{
    outs.iter()
        .filter_map(|out| *out)
        .any(|out| same_reg(out, reg))
}

/// L7: no output goes to a register that holds a value which is final there,
/// or which an unplaced item reads.
pub fn keeps_l7(problem: &Problem, done: &[Choice], choice: &Choice) -> bool
    ensures { result ≡ keeps_l7 problem.now (reverse done.now) choice.now }
{
    choice
        .outs
        .iter()
        .filter_map(|out| *out)
        .all(|reg| may_overwrite(problem, done, choice.item, reg))
}

/// May a register be overwritten by an item?
pub fn may_overwrite(problem: &Problem, done: &[Choice], item: u16, reg: Reg) -> bool
    ensures { result ≡ may_overwrite problem.now (reverse done.now) item reg }
{
    let value = held(done, reg);
    if is_final_in(problem, reg, value) {
        return false;
    }
    !is_still_read(problem, done, item, value)
}

// Is this value final in this register?
fn is_final_in(problem: &Problem, reg: Reg, value: Source) -> bool
    ensures { result ≡ is_final_in problem.now reg value }
{
    problem
        .finals()
        .iter()
        .any(|(last, source)| is_final(*last, *source, reg, value))
}

// Is a final register with its value this register with this value?
fn is_final(last: Reg, source: Source, reg: Reg, value: Source) -> bool
    ensures { result ≡ (same_reg last reg && same_source source value) }
{
    if !same_reg(last, reg) {
        return false;
    }
    same_source(source, value)
}

// Does an item that is still unplaced, this one aside, read a value?
fn is_still_read(problem: &Problem, done: &[Choice], item: u16, value: Source) -> bool
    ensures { result ≡ is_still_read problem.now (reverse done.now) item value }
{
    problem
        .order()
        .iter()
        .any(|reader| is_reader(problem, done, item, *reader, value))
}

// Is an item another one than this, still unplaced, and does it read a value?
fn is_reader(problem: &Problem, done: &[Choice], item: u16, reader: u16, value: Source) -> bool
    ensures { result ≡ (not (reader == item)
        && (not (is_placed (reverse done.now) reader)
        && list_any (same_source value) (sources_in problem.now reader))) }
{
    if reader == item {
        return false;
    }
    if is_placed(done, reader) {
        return false;
    }
    is_read(problem.sources_of(reader), value)
}

// Is a value among sources?
fn is_read(sources: &[Source], value: Source) -> bool
    ensures { result ≡ list_any (same_source value) sources.now }
{
    sources.iter().any(|source| same_source(value, *source))
}
