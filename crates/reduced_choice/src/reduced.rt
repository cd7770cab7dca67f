//! Reduced choices: each output that is free to choose is in the least register of its kind.
ghost use Rattle.std.specs.Prelude.{◌≡◌, ◌==◌, ◌&&◌, ◌||◌, ◌<◌, length, not, nat_lt, reverse};
ghost use Rattle.std.specs.List.{list_all, list_any};
ghost use Rattle.sl_model.specs.RegSets.{bit_of};
ghost use Rattle.sl_model.specs.Register.{same_reg};
ghost use Rattle.sl_model.specs.Legal.{output_classes, suits_output};
ghost use Rattle.sl_model.specs.Space.{same_kind, placed_outputs, is_free_output, is_taken, could_take};
ghost use Rattle.search_space.specs.Next.{could_go_lower, is_reduced};

use crate::kinds::{is_free_at, same_kind};
use crate::machine::{REGS, bit_of, reg_of_bit};
use legal_space::{Choice, Problem, may_overwrite, suits_output};
use sl_isa::same_reg;
use sl_model::register::Reg;

/// Is a choice reduced: is each output that is free to choose in the least register of its kind that
/// it could take, other than those that are taken? The choice is of an item of the problem.
#[tactic(auto, unfolding(search_space::specs::Next::is_reduced))]
pub fn is_reduced(problem: &Problem, done: &[Choice], choice: &Choice) -> bool
    requires known { choice.now.item < length problem.now.graph.items }
    ensures { result ≡ is_reduced problem.now (reverse done.now) choice.now }
{
    choice.outs.iter().filter_map(|out| *out).enumerate().all(|(place, reg)| is_reduced_at(
        problem, done, choice, place, reg,
    ))
}

// Is the output at a place not free to choose, or could it go to no lower register?
fn is_reduced_at(
    problem: &Problem,
    done: &[Choice],
    choice: &Choice,
    place: usize,
    reg: Reg,
) -> bool
    requires known { choice.now.item < length problem.now.graph.items }
    ensures { result ≡ (not (is_free_output problem.now choice.now (place, reg))
        || not (could_go_lower problem.now (reverse done.now) choice.now place reg)) }
{
    if !is_free_at(problem, choice.item, place, reg) {
        return true;
    }
    !could_go_lower(problem, done, choice, place, reg)
}

// Could the output at a place go to a lower register of its kind, other than those that are taken?
#[tactic(auto, unfolding(search_space::specs::Next::could_go_lower))]
fn could_go_lower(
    problem: &Problem,
    done: &[Choice],
    choice: &Choice,
    place: usize,
    reg: Reg,
) -> bool
    requires known { choice.now.item < length problem.now.graph.items }
    ensures { result ≡ could_go_lower problem.now (reverse done.now) choice.now place reg }
{
    for bit in 0..REGS {
        if could_go(problem, done, choice, place, reg, reg_of_bit(bit)) {
            return true;
        }
    }
    false
}

// Is another register one of these?
fn could_go(
    problem: &Problem,
    done: &[Choice],
    choice: &Choice,
    place: usize,
    reg: Reg,
    other: Reg,
) -> bool
    requires known { choice.now.item < length problem.now.graph.items }
    ensures { result ≡ (nat_lt (bit_of other.bank other.number) (bit_of reg.bank reg.number)
        && (same_kind problem.now reg other
        && (could_take problem.now (reverse done.now) choice.now place other
        && not (is_taken problem.now choice.now place other)))) }
{
    if bit_of(reg) <= bit_of(other) {
        return false;
    }
    if !same_kind(problem, reg, other) {
        return false;
    }
    if !could_take(problem, done, choice, place, other) {
        return false;
    }
    !is_taken(problem, choice, place, other)
}

// May the output at a place go to another register, as far as L4 says of it alone, and L7?
fn could_take(problem: &Problem, done: &[Choice], choice: &Choice, place: usize, other: Reg) -> bool
    requires known { choice.now.item < length problem.now.graph.items }
    ensures { result ≡ could_take problem.now (reverse done.now) choice.now place other }
{
    if !would_suit(problem, choice, place, other) {
        return false;
    }
    may_overwrite(problem, done, choice.item, other)
}

// Would another register suit the output at a place?
fn would_suit(problem: &Problem, choice: &Choice, place: usize, other: Reg) -> bool
    requires known { choice.now.item < length problem.now.graph.items }
    ensures { result
        ≡ list_all (λ x. not (x.0 == place)
        || suits_output problem.now choice.now.item (x.0, ((other, x.1.0.1), x.1.1)))
        (output_classes problem.now choice.now) }
{
    let info = problem.info(choice.item);
    let own = problem.item(choice.item);
    choice
        .outs
        .iter()
        .filter_map(|out| *out)
        .zip(&info.out_sets)
        .zip(own.outs.iter().filter_map(|out| *out))
        .enumerate()
        .all(|(at, ((_, set), own))| {
            at != place || suits_output(problem, choice.item, at, other, *set, own)
        })
}

// Is a register taken by another output: by one that isn't free to choose, or by an earlier one?
fn is_taken(problem: &Problem, choice: &Choice, place: usize, reg: Reg) -> bool
    requires known { choice.now.item < length problem.now.graph.items }
    ensures { result ≡ is_taken problem.now choice.now place reg }
{
    choice.outs.iter().filter_map(|out| *out).enumerate().any(|(at, out)| same_reg(out, reg)
        && is_bound(problem, choice, place, at, out))
}

// Does the output at a place keep its register from that at another: does it stand before it, or
// isn't it free to choose?
fn is_bound(problem: &Problem, choice: &Choice, place: usize, at: usize, reg: Reg) -> bool
    requires known { choice.now.item < length problem.now.graph.items }
    ensures { result ≡ (nat_lt at place
        || (not (at == place) && not (is_free_output problem.now choice.now (at, reg)))) }
{
    if at < place {
        return true;
    }
    if at == place {
        return false;
    }
    !is_free_at(problem, choice.item, at, reg)
}
