//! What the choices made so far have done. They stand in the order in which they were made.
ghost use Rattle.std.specs.Prelude.{◌≡◌, ◌==◌, ℕ, ◌≤◌, reverse, length, slice_get, is_some};
ghost use Rattle.std.specs.List.{find, filter_map, list_all, list_any};
ghost use Rattle.std.specs.Option.{option_copied};
ghost use Rattle.sl_model.specs.declared.schedule.Source.TheVariants.{Entry, Item};
ghost use Rattle.sl_model.specs.Source.{place_from};
ghost use Rattle.sl_model.specs.Body.{chosen, is_placed, held, placed_in, given, same_source, holds_in, is_still_held};

use dataflow::ItemSet;
use dataflow::sources::same_source;
use sl_isa::place_among;
use sl_model::limits::SET_ITEMS;
use sl_model::register::Reg;
use sl_model::schedule::{Choice, Source};

/// Was an item placed?
pub fn is_placed(done: &[Choice], item: u16) -> bool
    ensures { result ≡ is_placed (reverse done.now) item }
{
    has_choice(done, item)
}

/// Were all items of a set placed?
pub fn are_placed(done: &[Choice], items: &ItemSet) -> bool
    ensures { result ≡ list_all (is_placed (reverse done.now)) items.now }
{
    items.is_ascending();
    for item in 0..SET_ITEMS as u16 {
        if !items.contains(item) {
            continue;
        }
        if !is_placed(done, item) {
            return false;
        }
    }
    true
}

// Is a choice of an item among these?
fn has_choice(choices: &[Choice], item: u16) -> bool
    ensures { result ≡ list_any (λ c. c.item == item) choices.now }
{
    choices.iter().any(|choice| choice.item == item)
}

/// What a register holds: the last output placed in it, or what it held before.
pub fn held(done: &[Choice], reg: Reg) -> Source
    ensures { result ≡ held (reverse done.now) reg }
{
    let Some(choice) = last_writer(done, reg) else {
        return Source::Entry(reg);
    };
    match place_of(choice, reg) {
        Some(place) => Source::Item {
            index: choice.item,
            place,
        },
        None => Source::Entry(reg),
    }
}

// The last choice with an output in a register.
fn last_writer(done: &[Choice], reg: Reg) -> Option<&Choice>
    ensures { option_copied result
        ≡ find (λ c. is_some (place_from 0 reg (chosen c))) (reverse done.now) }
{
    done.iter()
        .rev()
        .find(|choice| place_of(choice, reg).is_some())
}

// The place of the output that a choice puts in a register.
fn place_of(choice: &Choice, reg: Reg) -> Option<u8>
    ensures { result ≡ place_from 0 reg (chosen choice.now) }
{
    place_among(&choice.outs, reg)
}

/// The register in which an output of an item was placed.
pub fn placed_in(done: &[Choice], item: u16, place: u8) -> Option<Reg>
    ensures { result ≡ placed_in (reverse done.now) item place }
{
    let Some(choice) = last_choice(done, item) else {
        return None;
    };
    output(choice, place)
}

// The last choice of an item.
fn last_choice(done: &[Choice], item: u16) -> Option<&Choice>
    ensures { option_copied result ≡ find (λ c. c.item == item) (reverse done.now) }
{
    done.iter().rev().find(|choice| choice.item == item)
}

// The register chosen for the output at a place.
fn output(choice: &Choice, place: u8) -> Option<Reg>
    ensures { result ≡ slice_get (chosen choice.now) place }
{
    choice
        .outs
        .iter()
        .filter_map(|out| *out)
        .nth(usize::from(place))
}

/// The register given to a source, where it is an entry or was placed.
pub fn given(done: &[Choice], source: Source) -> Option<Reg>
    ensures { result ≡ given (reverse done.now) source }
{
    match source {
        Source::Entry(reg) => Some(reg),
        Source::Item { index, place } => placed_in(done, index, place),
    }
}

/// Does the register given to a source still hold it?
#[tactic(auto, unfolding(sl_model::specs::Body::is_still_held))]
pub fn is_still_held(done: &[Choice], source: Source) -> bool
    ensures { result ≡ is_still_held (reverse done.now) source }
{
    let Some(reg) = given(done, source) else {
        return false;
    };
    same_source(held(done, reg), source)
}
