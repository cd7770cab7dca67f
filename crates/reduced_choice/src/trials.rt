//! Which registers needn't be tried for an output.
ghost use Rattle.std.specs.Prelude.{◌≡◌, ◌&&◌, ◌<◌, length, not, nat_lt, reverse, slice_index_or};
ghost use Rattle.std.specs.List.{list_any, filter_map};
ghost use Rattle.sl_model.specs.RegSets.{bit_of};
ghost use Rattle.sl_model.specs.Register.{same_reg};
ghost use Rattle.sl_model.specs.Body.{chosen, given};
ghost use Rattle.sl_model.specs.Legal.{is_register};
ghost use Rattle.sl_model.specs.Space.{same_kind};
ghost use Rattle.search_space.specs.Trials.{class_at, own_at, may_go, is_read_from, has_lower, is_hopeless};

use crate::kinds::{is_free_at, same_kind};
use crate::machine::{REGS, bit_of, reg_of_bit};
use crate::order::reg_at;
use legal_space::{Choice, Problem, Source, given, may_overwrite, suits_output};
use sl_isa::same_reg;
use sl_model::register::{Reg, RegSet};

/// Needn't a register be tried for the output behind those of a choice, at a place: may it not go
/// there, as far as L4 says of it alone, and L7; or is it free to choose, and would a lower one of
/// its kind do?
#[tactic(auto, unfolding(search_space::specs::Trials::is_hopeless))]
pub fn is_hopeless(
    problem: &Problem,
    done: &[Choice],
    front: &Choice,
    place: usize,
    reg: Reg,
) -> bool
    requires known { front.now.item < length problem.now.graph.items }
    requires place { place ≡ length (chosen front.now) }
    ensures { result
        ≡ is_hopeless problem.now (reverse done.now) front.now.item (chosen front.now) reg }
{
    if !may_go(problem, done, front.item, place, reg) {
        return true;
    }
    if !is_free_at(problem, front.item, place, reg) {
        return false;
    }
    has_lower(problem, done, front, place, reg)
}

// May an item's output at a place go to a register, as far as L4 says of it alone, and L7?
#[tactic(auto, unfolding(search_space::specs::Trials::may_go))]
fn may_go(problem: &Problem, done: &[Choice], item: u16, place: usize, reg: Reg) -> bool
    requires known { item < length problem.now.graph.items }
    ensures { result ≡ may_go problem.now (reverse done.now) item place reg }
{
    let class = class_at(problem, item, place);
    if !suits_output(
        problem,
        item,
        place,
        reg,
        class,
        own_at(problem, item, place),
    ) {
        return false;
    }
    may_overwrite(problem, done, item, reg)
}

// The class of an item's output at a place.
fn class_at(problem: &Problem, item: u16, place: usize) -> RegSet
    requires known { item < length problem.now.graph.items }
    ensures { result ≡ class_at problem.now item place }
{
    let info = problem.info(item);
    match info.out_sets.get(place) {
        Some(set) => *set,
        None => RegSet { bits: 0 },
    }
}

// The register of an item's output at a place, as it was before.
fn own_at(problem: &Problem, item: u16, place: usize) -> Reg
    requires known { item < length problem.now.graph.items }
    ensures { result ≡ own_at problem.now item place }
{
    let own = problem.item(item);
    match reg_at(&own.outs, place) {
        Some(reg) => reg,
        None => reg_of_bit(0),
    }
}

// Is there a lower register of its kind to which the output may go, none of those before it, and
// none that the item reads?
#[tactic(auto, unfolding(search_space::specs::Trials::has_lower))]
fn has_lower(problem: &Problem, done: &[Choice], front: &Choice, place: usize, reg: Reg) -> bool
    requires known { front.now.item < length problem.now.graph.items }
    requires place { place ≡ length (chosen front.now) }
    ensures { result
        ≡ has_lower problem.now (reverse done.now) front.now.item (chosen front.now) reg }
{
    for bit in 0..REGS {
        if is_better(problem, done, front, place, reg, reg_of_bit(bit)) {
            return true;
        }
    }
    false
}

// Is another register one of these?
fn is_better(
    problem: &Problem,
    done: &[Choice],
    front: &Choice,
    place: usize,
    reg: Reg,
    other: Reg,
) -> bool
    requires known { front.now.item < length problem.now.graph.items }
    requires place { place ≡ length (chosen front.now) }
    ensures { result ≡ (nat_lt (bit_of other.bank other.number) (bit_of reg.bank reg.number)
        && (same_kind problem.now reg other
        && (may_go problem.now (reverse done.now) front.now.item (length (chosen front.now)) other
        && (not (list_any (λ q. same_reg q other) (chosen front.now))
        && not (is_read_from problem.now (reverse done.now) front.now.item other))))) }
{
    if bit_of(reg) <= bit_of(other) {
        return false;
    }
    if !same_kind(problem, reg, other) {
        return false;
    }
    if !may_go(problem, done, front.item, place, other) {
        return false;
    }
    if is_among(&front.outs, other) {
        return false;
    }
    !is_read_from(problem, done, front.item, other)
}

// Is a register among outputs?
fn is_among(outs: &[Option<Reg>], reg: Reg) -> bool
    ensures { result ≡ list_any (λ q. same_reg q reg) (filter_map (λ r. r) outs.now) }
{
    outs.iter()
        .filter_map(|out| *out)
        .any(|out| same_reg(out, reg))
}

// Is a register given to a source of an item?
fn is_read_from(problem: &Problem, done: &[Choice], item: u16, reg: Reg) -> bool
    ensures { result ≡ is_read_from problem.now (reverse done.now) item reg }
{
    problem
        .sources_of(item)
        .iter()
        .any(|source| is_given(done, reg, *source))
}

// Is a register the one given to a source?
fn is_given(done: &[Choice], reg: Reg, source: Source) -> bool
    ensures { result ≡ is_register reg (given (reverse done.now) source) }
{
    match given(done, source) {
        Some(other) => same_reg(other, reg),
        None => false,
    }
}
