//! The least legal reduced choice behind another, item by item, unit by unit and output by output.
ghost use Rattle.std.specs.Prelude.{◌≡◌, ◌+◌, ◌&&◌, ◌<◌, ◌++◌, ◌∷◌, [], length, reverse, None, Some, if◌then◌else◌};
ghost use Rattle.std.specs.List.{find};
ghost use Rattle.sl_model.specs.Source.{padded};
ghost use Rattle.sl_model.specs.Body.{chosen, is_placed};
ghost use Rattle.search_space.specs.Searchable.{output_room, output_count};
ghost use Rattle.search_space.specs.Next.{choices_of, may_come, may_follow, next_behind};
ghost use Rattle.search_space.specs.Trials.{beginning};

use crate::machine::{REGS, reg_of_bit};
use crate::order::{is_behind, is_early};
use crate::reduced::is_reduced;
use crate::trials::is_hopeless;
use legal_space::{Choice, Problem, first_broken, has_unit, is_placed};
use sl_model::register::Reg;

/// How many units a core has at most.
const UNITS: u8 = 16;

/// The least choice that is legal after those made so far and reduced, and comes behind another,
/// where there is another. It takes no memory.
///
/// Items, units and registers are tried in ascending order, registers one output after the other. A
/// register isn't tried where a rule on that output alone refuses it, or where a lower one of its
/// kind would do.
pub fn next_choice(problem: &Problem, done: &[Choice], after: Option<Choice>) -> Option<Choice>
    ensures { result ≡ next_behind problem.now (reverse done.now) after }
{
    problem.is_searchable();
    for item in 0..problem.len() as u16 {
        if is_placed(done, item) {
            continue;
        }
        if let Some(choice) = next_of(problem, done, after, item) {
            return Some(choice);
        }
    }
    None
}

// The same among the choices of an item.
fn next_of(problem: &Problem, done: &[Choice], after: Option<Choice>, item: u16) -> Option<Choice>
    requires known { item < length problem.now.graph.items }
    ensures { result
        ≡ find (may_follow problem.now (reverse done.now) after) (choices_of problem.now item) }
{
    let units = problem.costs().units(item);
    let count = output_count(problem, item);
    for unit in 0..UNITS {
        if !has_unit(units, unit) {
            continue;
        }
        let front = Choice {
            item,
            unit,
            outs: [None; 3],
        };
        if let Some(choice) = next_from(problem, done, after, &front, count) {
            return Some(choice);
        }
    }
    None
}

// How many outputs an item has.
fn output_count(problem: &Problem, item: u16) -> usize
    requires known { item < length problem.now.graph.items }
    ensures { result ≡ output_count problem.now item }
{
    problem
        .item(item)
        .outs
        .iter()
        .filter_map(|out| *out)
        .count()
}

// The same among the choices of an item on a unit, where that can come at all.
fn next_from(
    problem: &Problem,
    done: &[Choice],
    after: Option<Choice>,
    front: &Choice,
    count: usize,
) -> Option<Choice>
    requires known { front.now.item < length problem.now.graph.items }
    requires shape { front.now.outs ≡ padded output_room (chosen front.now) }
    requires none { chosen front.now ≡ [] }
    requires count { count ≡ output_count problem.now front.now.item }
    ensures { result ≡ find (may_follow problem.now (reverse done.now) after)
        (beginning front.now.item front.now.unit (chosen front.now) count) }
{
    problem.is_searchable();
    if is_early(after, front) {
        return None;
    }
    if first_broken(problem, done, front).is_some() {
        return None;
    }
    next_on(problem, done, after, front, 0, count)
}

// The same among the choices that begin with an item, a unit and some registers, and have so many
// more.
fn next_on(
    problem: &Problem,
    done: &[Choice],
    after: Option<Choice>,
    front: &Choice,
    place: usize,
    left: usize,
) -> Option<Choice>
    requires known { front.now.item < length problem.now.graph.items }
    requires shape { front.now.outs ≡ padded output_room (chosen front.now) }
    requires place { place ≡ length (chosen front.now) }
    requires left { place + left ≡ output_count problem.now front.now.item }
    ensures { result ≡ find (may_follow problem.now (reverse done.now) after)
        (beginning front.now.item front.now.unit (chosen front.now) left) }
{
    problem.is_searchable();
    if left == 0 {
        return if_next(problem, done, after, front);
    }
    for bit in 0..REGS {
        let reg = reg_of_bit(bit);
        let more = with_reg(front, place, reg);
        if is_early(after, &more) {
            continue;
        }
        if is_hopeless(problem, done, front, place, reg) {
            continue;
        }
        if let Some(choice) = next_on(problem, done, after, &more, place + 1, left - 1) {
            return Some(choice);
        }
    }
    None
}

// A choice with one more register.
fn with_reg(front: &Choice, place: usize, reg: Reg) -> Choice
    requires shape { front.now.outs ≡ padded output_room (chosen front.now) }
    requires place { place ≡ length (chosen front.now) }
    requires room { place < output_room }
    ensures item { result.item ≡ front.now.item }
    ensures unit { result.unit ≡ front.now.unit }
    ensures regs { chosen result ≡ chosen front.now ++ reg ∷ [] }
    ensures shape { result.outs ≡ padded output_room (chosen result) }
{
    let mut more = *front;
    more.outs[place] = Some(reg);
    more
}

// A choice, if it comes behind another and may come next.
fn if_next(
    problem: &Problem,
    done: &[Choice],
    after: Option<Choice>,
    choice: &Choice,
) -> Option<Choice>
    requires known { choice.now.item < length problem.now.graph.items }
    ensures { result ≡ (if may_follow problem.now (reverse done.now) after choice.now
        then Some choice.now else None) }
{
    if !is_behind(after, choice) {
        return None;
    }
    if !may_come(problem, done, choice) {
        return None;
    }
    Some(*choice)
}

// May a choice of an item of the problem come next: does it break no rule, and is it reduced?
#[tactic(auto, unfolding(search_space::specs::Next::may_come))]
fn may_come(problem: &Problem, done: &[Choice], choice: &Choice) -> bool
    requires known { choice.now.item < length problem.now.graph.items }
    ensures { result ≡ may_come problem.now (reverse done.now) choice.now }
{
    problem.is_searchable();
    if first_broken(problem, done, choice).is_some() {
        return false;
    }
    is_reduced(problem, done, choice)
}
