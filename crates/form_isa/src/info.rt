//! What a row says of its form.
ghost use Rattle.std.specs.Prelude.{ℕ, ◌≡◌, ◌≤◌, ◌+◌, ◌∷◌, ◌++◌, List, Option, Some, length, map, slice_get};
ghost use Rattle.sl_model.specs.declared.register.RegSet.{RegSet};
ghost use Rattle.form_table.specs.Rows.{row_operands};
ghost use Rattle.form_table.specs.declared.reader.Pick.TheVariants as pick;
ghost use Rattle.form_isa.specs.Info as spec;

use crate::access::transfer_size;
use form_table::printer::has_register;
use form_table::reader::{Pick, is_picked};
use form_table::rows::{Operand, Row};
use sl_isa::meaning::Meaning;
use sl_isa::{FormInfo, RegSet};

const NO_REGISTER: RegSet = RegSet { bits: 0 };

const THE_FLAGS: RegSet = RegSet { bits: 1 << 64 };

// Whether an operand has a register in one of the roles that are picked.
fn is_taken(pick: Pick, operand: &Operand) -> bool
    ensures { result ≡ spec.is_taken pick operand.now }
{
    if has_register(operand.shape) {
        return is_picked(pick, operand.role);
    }
    false
}

// A class before others.
#[tactic(auto, using(crate::proofs::Padded::padded_cons))]
fn put_before(class: RegSet, others: [RegSet; 4]) -> [RegSet; 4]
    ensures { (sets : List RegSet) → others ≡ spec.padded_classes 4 sets
        → result ≡ spec.padded_classes 4 (class ∷ sets) }
{
    [class, others[0], others[1], others[2]]
}

// The first three of four.
#[tactic(auto, using(crate::proofs::Padded::padded_three))]
fn first_three(classes: [RegSet; 4]) -> [RegSet; 3]
    ensures { (sets : List RegSet) → classes ≡ spec.padded_classes 4 sets
        → result ≡ spec.padded_classes 3 sets }
{
    [classes[0], classes[1], classes[2]]
}

// The classes of the operands whose roles are picked, and then others. What doesn't
// stand in four places is left out.
#[tactic(auto, unfolding(crate::specs::Info::classes))]
fn with_classes(pick: Pick, operands: &[Operand], others: [RegSet; 4]) -> [RegSet; 4]
    ensures { (sets : List RegSet) → others ≡ spec.padded_classes 4 sets
        → result ≡ spec.padded_classes 4 (spec.classes pick operands.now ++ sets) }
{
    let Some((operand, operands)) = operands.split_first() else {
        return others;
    };
    let behind = with_classes(pick, operands, others);
    if is_taken(pick, operand) {
        return put_before(operand.class, behind);
    }
    behind
}

// The flags, where there are any.
#[tactic(auto, unfolding(crate::specs::Info::padded_classes))]
fn flags_if(wanted: bool) -> [RegSet; 4]
    ensures { result ≡ spec.padded_classes 4 (spec.flags_if wanted) }
{
    if wanted {
        return [THE_FLAGS, NO_REGISTER, NO_REGISTER, NO_REGISTER];
    }
    [NO_REGISTER; 4]
}

// The classes of the inputs.
#[tactic(auto, unfolding(crate::specs::Info::input_classes))]
fn input_classes(row: &Row) -> [RegSet; 4]
    ensures { result ≡ spec.padded_classes 4 (spec.input_classes row.now) }
{
    let operands = row.operands();
    let tied = with_classes(Pick::Tied, &operands, flags_if(row.reads_flags));
    with_classes(Pick::Read, &operands, tied)
}

// The classes of the outputs.
#[tactic(auto, unfolding(crate::specs::Info::output_classes))]
fn output_classes(row: &Row) -> [RegSet; 3]
    ensures { result ≡ spec.padded_classes 3 (spec.output_classes row.now) }
{
    let operands = row.operands();
    let back = with_classes(Pick::Back, &operands, flags_if(row.sets_flags));
    first_three(with_classes(Pick::Written, &operands, back))
}

// How many operands have a register in one of the roles that are picked.
#[tactic(auto, unfolding(crate::specs::Info::classes))]
fn class_count(pick: Pick, operands: &[Operand]) -> u8
    requires { length operands.now ≤ 5 }
    ensures count { result ≡ length (spec.classes pick operands.now) }
    ensures few { result ≤ length operands.now }
{
    let Some((operand, operands)) = operands.split_first() else {
        return 0;
    };
    let behind = class_count(pick, operands);
    if is_taken(pick, operand) {
        return behind + 1;
    }
    behind
}

// A tie before others.
#[tactic(auto, using(crate::proofs::Padded::tied_cons))]
fn tie_before(tie: Option<u8>, others: [Option<u8>; 3]) -> [Option<u8>; 3]
    ensures { (ties : List (Option ℕ)) → others ≡ spec.padded_ties 3 ties
        → result ≡ spec.padded_ties 3 (tie ∷ ties) }
{
    [tie, others[0], others[1]]
}

// The inputs that the outputs are tied to, where the next tied input has a number,
// and then others.
#[tactic(auto, unfolding(crate::specs::Info::ties))]
fn ties(next: u8, operands: &[Operand], others: [Option<u8>; 3]) -> [Option<u8>; 3]
    requires { next + length operands.now ≤ 10 }
    ensures { (places : List (Option ℕ)) → others ≡ spec.padded_ties 3 places
        → result ≡ spec.padded_ties 3 (spec.ties next operands.now ++ places) }
{
    let Some((operand, operands)) = operands.split_first() else {
        return others;
    };
    if is_taken(Pick::Tied, operand) {
        return tie_before(Some(next), ties(next + 1, operands, others));
    }
    let behind = ties(next, operands, others);
    if is_taken(Pick::Written, operand) {
        return tie_before(None, behind);
    }
    behind
}

// The inputs that bases which are written back are, where the next input has a number.
#[tactic(auto, unfolding(crate::specs::Info::places_of, crate::specs::Info::padded_ties))]
fn back_ties(next: u8, operands: &[Operand]) -> [Option<u8>; 3]
    requires { next + length operands.now ≤ 5 }
    ensures { result ≡ spec.padded_ties 3
        (map (λ place. Some place) (spec.places_of pick.Back next operands.now)) }
{
    let Some((operand, operands)) = operands.split_first() else {
        return [None; 3];
    };
    if is_taken(Pick::Back, operand) {
        let behind = back_ties(next + 1, operands);
        return [Some(next), behind[0], behind[1]];
    }
    if is_taken(Pick::Read, operand) {
        return back_ties(next + 1, operands);
    }
    back_ties(next, operands)
}

// The first base, where the next input has a number.
#[tactic(auto, unfolding(crate::specs::Info::places_of))]
fn base_from(next: u8, operands: &[Operand]) -> Option<u8>
    requires { next + length operands.now ≤ 5 }
    ensures { result ≡ slice_get (spec.places_of pick.Base next operands.now) 0 }
{
    let (operand, operands) = operands.split_first()?;
    if is_taken(Pick::Base, operand) {
        return Some(next);
    }
    if is_taken(Pick::Read, operand) {
        return base_from(next + 1, operands);
    }
    base_from(next, operands)
}

// The output that is a base which is written back.
fn back_place(operands: &[Operand]) -> Option<u8>
    requires { length operands.now ≤ 5 }
    ensures { result ≡ spec.back_place (spec.classes pick.Back operands.now)
        (length (spec.classes pick.Written operands.now)) }
{
    if class_count(Pick::Back, operands) == 0 {
        return None;
    }
    Some(class_count(Pick::Written, operands))
}

// The bytes of the access of a meaning, and 0 where it has none.
fn size_of(meaning: Meaning) -> u8
    ensures { result ≡ spec.size_of meaning }
{
    match meaning {
        Meaning::Scalar { .. } | Meaning::Vector(_) | Meaning::Word(_) | Meaning::Copy(_) => 0,
        Meaning::Memory(transfer) => transfer_size(transfer),
    }
}

// Whether a meaning stores.
fn stores(meaning: Meaning) -> bool
    ensures { result ≡ spec.stores meaning }
{
    match meaning {
        Meaning::Scalar { .. } | Meaning::Vector(_) | Meaning::Word(_) | Meaning::Copy(_) => false,
        Meaning::Memory(transfer) => transfer.store,
    }
}

/// What a row says of its form: the registers that its operands and outputs
/// take, which outputs are tied, and its access.
#[tactic(auto, unfolding(crate::specs::Info::info_of, crate::specs::Info::all_ties))]
pub fn info_of(row: &Row) -> FormInfo
    ensures { result ≡ spec.info_of row.now }
{
    let operands = row.operands();
    let others = back_ties(0, &operands);
    FormInfo {
        class: row.class,
        in_sets: input_classes(row),
        out_sets: output_classes(row),
        tied: ties(class_count(Pick::Read, &operands), &operands, others),
        back: back_place(&operands),
        base: base_from(0, &operands),
        store: stores(row.meaning),
        size: size_of(row.meaning),
    }
}
