//! The rules, and which of them a choice breaks first.
ghost use Rattle.std.specs.Prelude.{◌≡◌, ◌==◌, ◌<◌, not, length, reverse};
ghost use Rattle.sl_model.specs.Body.{is_placed};
ghost use Rattle.std.specs.Int.{bit_at};
ghost use Rattle.sl_model.specs.Cycles.{row_of};
ghost use Rattle.sl_model.specs.Legal.{keeps_l5, keeps_l6, first_broken};

use crate::operands::{keeps_l2, keeps_l3};
use crate::outputs::{keeps_l4, keeps_l7};
use crate::placed::{are_placed, is_placed};
use crate::problem::Problem;
use sl_model::rules::Rule;
use sl_model::schedule::Choice;

/// The first rule that a choice breaks after those made so far, if it breaks one. The
/// choice is of an item of the problem.
#[tactic(auto, unfolding(sl_model::specs::Legal::first_broken))]
pub fn first_broken(problem: &Problem, done: &[Choice], choice: &Choice) -> Option<Rule>
    requires known { choice.now.item < length problem.now.graph.items }
    ensures { result ≡ first_broken problem.now (reverse done.now) choice.now }
{
    if !keeps_l1(done, choice) {
        return Some(Rule::L1);
    }
    if !keeps_l2(problem, done, choice) {
        return Some(Rule::L2);
    }
    if !keeps_l3(problem, done, choice) {
        return Some(Rule::L3);
    }
    if !keeps_l4(problem, choice) {
        return Some(Rule::L4);
    }
    if !keeps_l5(problem, done, choice) {
        return Some(Rule::L5);
    }
    if !keeps_l6(problem, choice) {
        return Some(Rule::L6);
    }
    if !keeps_l7(problem, done, choice) {
        return Some(Rule::L7);
    }
    None
}

// L1: the item wasn't placed.
fn keeps_l1(done: &[Choice], choice: &Choice) -> bool
    ensures { result ≡ not (is_placed (reverse done.now) choice.now.item) }
{
    !is_placed(done, choice.item)
}

// L5: each item that stands above it and conflicts with it is placed.
fn keeps_l5(problem: &Problem, done: &[Choice], choice: &Choice) -> bool
    requires { choice.now.item < length problem.now.graph.items }
    ensures { result ≡ keeps_l5 problem.now (reverse done.now) choice.now }
{
    are_placed(done, problem.graph().must_precede(choice.item))
}

// L6: the unit is one of the class's.
fn keeps_l6(problem: &Problem, choice: &Choice) -> bool
    requires { choice.now.item < length problem.now.graph.items }
    ensures { result ≡ keeps_l6 problem.now choice.now }
{
    has_unit(problem.costs().units(choice.item), choice.unit)
}

/// Is a unit one of a class's units, of which unit u is bit u?
pub fn has_unit(units: u16, unit: u8) -> bool
    ensures { result ≡ (bit_at units unit == 1) }
{
    if unit >= 16 {
        return false;
    }
    (units >> unit) % 2 == 1
}
