//! The forwards of a core.
ghost use Rattle.std.specs.Prelude.{◌≡◌, ◌==◌, ◌&&◌, [], length, map};
ghost use Rattle.std.specs.List.{list_any};
ghost use Rattle.toml.specs.View.{view, table_view};
ghost use Rattle.sl_model.specs.Answers.{Gives};
ghost use Rattle.core_text.specs.InTurn.{in_turn};
ghost use Rattle.core_text.specs.Keys.{forward_field};
ghost use Rattle.core_text.specs.KeyViews.{stop_refusal};
ghost use Rattle.core_text.specs.Reading as spec;

use crate::classes::class_at;
use crate::core_table::MOST_OPERAND;
use crate::document::{cycles_at, list_of, member, number_at, only_keys, refused};
use crate::key::{Key, Place, Stop};
use crate::{ArchName, CoreReason, Forward};
use std::alloc::Global;
use toml::{Table, Value};

// Are two forwards for the same classes and operand?
fn is_same_forward(forward: &Forward, other: &Forward) -> bool
    ensures { result ≡ spec.is_same_forward forward.now other.now }
{
    forward.from == other.from && forward.to == other.to && forward.operand == other.operand
}

// Is a forward for the classes and operand of one of these?
fn is_repeated(forward: &Forward, before: &[Forward]) -> bool
    ensures { result ≡ list_any (spec.is_same_forward forward.now) before.now }
{
    before.iter().any(|other| is_same_forward(forward, other))
}

// The forward of a number in its table.
#[tactic(auto, unfolding(crate::specs::Reading::forward_in, crate::specs::Reading::only_keys))]
fn forward_in<'t>(arch: ArchName, number: usize, table: &'t Table) -> Result<Forward, Stop<'t>>
    ensures { Gives stop_refusal (λ forward. forward) result
        (spec.forward_in arch (forward_field number) (table_view table.now)) }
{
    let place = Place::Forward(number);
    only_keys(place, &["from", "to", "operand", "latency"], table)?;
    let from = class_at(arch, place, table, "from")?;
    let to = class_at(arch, place, table, "to")?;
    let operand = number_at(0, MOST_OPERAND, place, table, "operand")?;
    let latency = cycles_at(place, table, "latency")?;
    Ok(Forward {
        from,
        to,
        operand,
        latency,
    })
}

// The next forward.
#[tactic(auto, unfolding(crate::specs::Reading::forward_entry))]
fn forward_entry<'t>(
    arch: ArchName,
    before: &[Forward],
    value: &'t Value,
) -> Result<Forward, Stop<'t>>
    ensures { Gives stop_refusal (λ forward. forward) result
        (spec.forward_entry arch before.now (view value.now)) }
{
    let number = before.len();
    let Some(table) = value.as_table() else {
        return Err(refused(CoreReason::Missing, Key::Whole(Place::Forward(number))));
    };
    let forward = forward_in(arch, number, table)?;
    if is_repeated(&forward, before) {
        return Err(refused(CoreReason::Twice, Key::Whole(Place::Forward(number))));
    }
    Ok(forward)
}

// The forwards of a list, one after the other.
fn forwards_in<'t>(
    alloc: Global,
    arch: ArchName,
    list: &'t [Value],
) -> Result<Vec<Forward>, Stop<'t>>
    ensures { Gives stop_refusal (λ forwards. forwards.items) result
        (in_turn (spec.forward_entry arch) [] (map view list.now)) }
{
    let mut forwards = Vec::new(alloc);
    for value in list {
        let forward = match forward_entry(arch, forwards.as_slice(), value) {
            Ok(forward) => forward,
            Err(stop) => return Err(stop),
        };
        if forwards.push(forward).is_err() {
            return Err(Stop::NoMemory);
        }
    }
    Ok(forwards)
}

/// The forwards, where there are any.
#[tactic(auto, unfolding(crate::specs::Reading::forwards_at))]
pub(crate) fn forwards_at<'t>(
    alloc: Global,
    arch: ArchName,
    table: &'t Table,
) -> Result<Vec<Forward>, Stop<'t>>
    ensures { Gives stop_refusal (λ forwards. forwards.items) result
        (spec.forwards_at arch (table_view table.now)) }
{
    let Some(value) = member(table, "forward") else {
        return Ok(Vec::new(alloc));
    };
    let Some(list) = list_of(value) else {
        return Err(refused(CoreReason::Missing, Key::Field(Place::Document, "forward")));
    };
    forwards_in(alloc, arch, list)
}
