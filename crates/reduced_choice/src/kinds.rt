//! Kinds of registers: of one kind are those that no rule tells apart.
ghost use Rattle.std.specs.Prelude.{◌≡◌, ◌==◌, ◌&&◌, ◌<◌, ◌++◌, length, not};
ghost use Rattle.std.specs.List.{list_all};
ghost use Rattle.sl_model.specs.Register.{same_bool, bank_number};
ghost use Rattle.sl_model.specs.RegSets.{set_has};
ghost use Rattle.sl_model.specs.Legal.{is_flags};
ghost use Rattle.sl_model.specs.Space.{is_final, classes, same_kind, is_final_output, tied_at, is_tied_output};
ghost use Rattle.search_space.specs.Trials.{is_free_at};
ghost use Rattle.sl_model.specs.declared.schedule.Source.TheVariants.{Item};

use dataflow::sources::is_output;
use legal_space::{Problem, is_flags};
use sl_isa::same_reg;
use sl_isa::sets::set_has;
use sl_model::register::{Bank, Reg, RegSet};

/// Are two registers of one kind: of one bank and of the same classes, and neither is final?
pub fn same_kind(problem: &Problem, a: Reg, b: Reg) -> bool
    ensures { result ≡ same_kind problem.now a b }
{
    if !same_bank(a.bank, b.bank) {
        return false;
    }
    if is_final(problem, a) {
        return false;
    }
    if is_final(problem, b) {
        return false;
    }
    are_alike_in_all(problem, a, b)
}

// Are these one bank?
fn same_bank(a: Bank, b: Bank) -> bool
    ensures { result ≡ (bank_number a == bank_number b) }
{
    a == b
}

// Is a register final?
fn is_final(problem: &Problem, reg: Reg) -> bool
    ensures { result ≡ is_final problem.now reg }
{
    problem
        .finals()
        .iter()
        .any(|(last, _)| same_reg(*last, reg))
}

// Are both registers in the same classes, of those of the operands and outputs of items?
fn are_alike_in_all(problem: &Problem, a: Reg, b: Reg) -> bool
    ensures { result
        ≡ list_all (λ set. same_bool (set_has set a) (set_has set b)) (classes problem.now) }
{
    problem.graph().is_sound();
    for item in 0..problem.len() as u16 {
        let info = problem.info(item);
        if !are_alike_in(&info.in_sets, a, b) {
            return false;
        }
        if !are_alike_in(&info.out_sets, a, b) {
            return false;
        }
    }
    true
}

// Are both registers in the same of some sets?
fn are_alike_in(sets: &[RegSet], a: Reg, b: Reg) -> bool
    ensures { result ≡ list_all (λ set. same_bool (set_has set a) (set_has set b)) sets.now }
{
    sets.iter().all(|set| are_alike(*set, a, b))
}

// Are both registers in a set, or neither?
fn are_alike(set: RegSet, a: Reg, b: Reg) -> bool
    ensures { result ≡ same_bool (set_has set a) (set_has set b) }
{
    set_has(set, a) == set_has(set, b)
}

/// Is an item's output at a place free to choose, where it goes to a register: is it neither final,
/// tied nor the flags?
pub fn is_free_at(problem: &Problem, item: u16, place: usize, reg: Reg) -> bool
    requires known { item < length problem.now.graph.items }
    ensures { result ≡ is_free_at problem.now item place reg }
{
    if is_final_output(problem, item, place) {
        return false;
    }
    if is_tied_output(problem, item, place) {
        return false;
    }
    !is_flags(reg)
}

// Is an output of an item final somewhere?
fn is_final_output(problem: &Problem, item: u16, place: usize) -> bool
    ensures { result ≡ is_final_output problem.now item place }
{
    problem
        .finals()
        .iter()
        .any(|(_, value)| is_output(*value, item, place))
}

// Is an output tied?
fn is_tied_output(problem: &Problem, item: u16, place: usize) -> bool
    requires known { item < length problem.now.graph.items }
    ensures { result ≡ is_tied_output problem.now item place }
{
    let info = problem.info(item);
    match info.tied.get(place) {
        Some(tied) => tied.is_some(),
        None => false,
    }
}
