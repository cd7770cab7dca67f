//! Rules on what an item reads.
ghost use Rattle.std.specs.Prelude.{◌≡◌, ◌&&◌, ◌<◌, length, reverse, slice_get};
ghost use Rattle.std.specs.List.{list_all, zip};
ghost use Rattle.sl_model.specs.Source.{item_at};
ghost use Rattle.sl_model.specs.Body.{chosen, is_still_held, given};
ghost use Rattle.sl_model.specs.Legal.{sources_in, is_in_set, is_held_in, is_given, is_tied, keeps_l2, keeps_l3};

use crate::placed::{given, is_still_held};
use crate::problem::Problem;
use sl_isa::same_reg;
use sl_isa::sets::set_has;
use sl_model::instruction::{FormInfo, Instr};
use sl_model::register::{Reg, RegSet};
use sl_model::schedule::{Choice, Source};

/// L2: each operand's source is placed or an entry, its register still holds it
/// and is of the operand's class.
pub fn keeps_l2(problem: &Problem, done: &[Choice], choice: &Choice) -> bool
    requires known { choice.now.item < length problem.now.graph.items }
    ensures { result ≡ keeps_l2 problem.now (reverse done.now) choice.now }
{
    let info = problem.info(choice.item);
    are_held_in(done, problem.sources_of(choice.item), &info.in_sets)
}

// Is each source still held, in a register of its set?
fn are_held_in(done: &[Choice], sources: &[Source], sets: &[RegSet]) -> bool
    ensures { result ≡ list_all (is_held_in (reverse done.now)) (zip sources.now sets.now) }
{
    sources
        .iter()
        .zip(sets)
        .all(|(source, set)| is_held_in(done, *source, *set))
}

// Is a source still held, in a register of a set?
fn is_held_in(done: &[Choice], source: Source, set: RegSet) -> bool
    ensures { result ≡ is_held_in (reverse done.now) (source, set) }
{
    if !is_still_held(done, source) {
        return false;
    }
    match given(done, source) {
        Some(reg) => set_has(set, reg),
        None => false,
    }
}

/// L3: a tied output is in the register of its input.
pub fn keeps_l3(problem: &Problem, done: &[Choice], choice: &Choice) -> bool
    requires known { choice.now.item < length problem.now.graph.items }
    ensures { result ≡ keeps_l3 problem.now (reverse done.now) choice.now }
{
    let info = problem.info(choice.item);
    choice
        .outs
        .iter()
        .filter_map(|out| *out)
        .zip(&info.tied)
        .all(|(reg, tied)| is_tied(problem, done, choice.item, reg, *tied))
}

// Is an output that is tied to an operand in the register of that operand?
fn is_tied(problem: &Problem, done: &[Choice], item: u16, reg: Reg, tied: Option<u8>) -> bool
    ensures { result ≡ is_tied problem.now (reverse done.now) item (reg, tied) }
{
    let Some(operand) = tied else {
        return true;
    };
    let Some(source) = problem.graph().source(item, operand) else {
        return false;
    };
    match given(done, source) {
        Some(other) => same_reg(other, reg),
        None => false,
    }
}
