//! The values under the keys of a table.
ghost use Rattle.std.specs.Prelude.{◌≡◌, ◌≤◌, not, map, option_map, string_bytes, IfOk};
ghost use Rattle.std.specs.List.{find};
ghost use Rattle.std.specs.BTreeMap.{keys};
ghost use Rattle.toml.specs.Data.{get_member};
ghost use Rattle.toml.specs.View.{view, table_view};
ghost use Rattle.sl_model.specs.Answers.{Gives};
ghost use Rattle.core_text.specs.ClassNames as names;
ghost use Rattle.core_text.specs.KeyViews.{spelled, field_key, stop_refusal};
ghost use Rattle.core_text.specs.Reading as spec;

use crate::class_names::is_among;
use crate::core_table::MOST_CYCLES;
use crate::key::{Key, Place, Stop};
use crate::{CoreReason, NoMemory};
use std::alloc::Global;
use toml::{Table, Value};

/// A refusal at a key.
pub(crate) fn refused<'t>(reason: CoreReason, key: Key<'t>) -> Stop<'t>
    ensures { result ≡ Stop.Refused reason key.entry }
{
    Stop::Refused { reason, key }
}

/// The document that bytes are, if they are one.
pub(crate) fn document_of(alloc: Global, bytes: &[u8]) -> Result<Option<Table>, NoMemory>
    ensures { IfOk result (λ table. option_map table_view table ≡ spec.document_of bytes.now) }
{
    match toml::table_from_slice(alloc, bytes) {
        Ok(table) => Ok(Some(table)),
        Err(error) => {
            if error.is_memory() {
                Err(NoMemory)
            } else {
                Ok(None)
            }
        }
    }
}

/// The value under a key.
pub(crate) fn member<'t>(table: &'t Table, name: &str) -> Option<&'t Value>
    ensures { option_map (λ v. view v.now) result ≡ get_member name.now (table_view table.now) }
{
    table.get(name)
}

/// The text under a key.
#[tactic(auto, unfolding(crate::specs::Reading::text_at))]
pub(crate) fn text_at<'t>(
    place: Place<'t>,
    table: &'t Table,
    name: &'t str,
) -> Result<&'t str, Stop<'t>>
    ensures { Gives stop_refusal (λ text. text.now) result
        (spec.text_at (field_key place.entry) (table_view table.now) name.now) }
{
    let Some(value) = member(table, name) else {
        return Err(refused(CoreReason::Missing, Key::Field(place, name)));
    };
    let Some(text) = value.as_str() else {
        return Err(refused(CoreReason::Missing, Key::Field(place, name)));
    };
    Ok(text)
}

/// The table under a key.
#[tactic(auto, unfolding(crate::specs::Reading::table_at))]
pub(crate) fn table_at<'t>(
    place: Place<'t>,
    table: &'t Table,
    name: &'t str,
) -> Result<&'t Table, Stop<'t>>
    ensures { Gives stop_refusal (λ inner. table_view inner.now) result
        (spec.table_at (field_key place.entry) (table_view table.now) name.now) }
{
    let Some(value) = member(table, name) else {
        return Err(refused(CoreReason::Missing, Key::Field(place, name)));
    };
    let Some(inner) = value.as_table() else {
        return Err(refused(CoreReason::Missing, Key::Field(place, name)));
    };
    Ok(inner)
}

/// The values of a list, if a value is one.
pub(crate) fn list_of<'t>(value: &'t Value) -> Option<&'t [Value]>
    ensures { option_map (λ list. map view list.now) result ≡ spec.as_list (view value.now) }
{
    let Some(list) = value.as_array() else {
        return None;
    };
    Some(list.as_slice())
}

/// The list under a key.
#[tactic(auto, unfolding(crate::specs::Reading::list_at))]
pub(crate) fn list_at<'t>(
    place: Place<'t>,
    table: &'t Table,
    name: &'t str,
) -> Result<&'t [Value], Stop<'t>>
    ensures { Gives stop_refusal (λ list. map view list.now) result
        (spec.list_at (field_key place.entry) (table_view table.now) name.now) }
{
    let Some(value) = member(table, name) else {
        return Err(refused(CoreReason::Missing, Key::Field(place, name)));
    };
    let Some(list) = list_of(value) else {
        return Err(refused(CoreReason::Missing, Key::Field(place, name)));
    };
    Ok(list)
}

// A number from one to another.
fn within<'t>(number: i64, least: u8, most: u8, key: Key<'t>) -> Result<u8, Stop<'t>>
    ensures { Gives stop_refusal (λ n. n) result (spec.within least most (spelled key.entry) number) }
{
    if number < i64::from(least) {
        return Err(refused(CoreReason::NumberRange, key));
    }
    if i64::from(most) < number {
        return Err(refused(CoreReason::NumberRange, key));
    }
    Ok(number as u8)
}

/// The number under a key, from one to another.
#[tactic(auto, unfolding(crate::specs::Reading::number_at))]
pub(crate) fn number_at<'t>(
    least: u8,
    most: u8,
    place: Place<'t>,
    table: &'t Table,
    name: &'t str,
) -> Result<u8, Stop<'t>>
    ensures { Gives stop_refusal (λ n. n) result
        (spec.number_at least most (field_key place.entry) (table_view table.now) name.now) }
{
    let Some(value) = member(table, name) else {
        return Err(refused(CoreReason::Missing, Key::Field(place, name)));
    };
    let Some(number) = value.as_integer() else {
        return Err(refused(CoreReason::Missing, Key::Field(place, name)));
    };
    within(number, least, most, Key::Field(place, name))
}

/// The number of cycles under a key, from 1 to 255.
pub(crate) fn cycles_at<'t>(
    place: Place<'t>,
    table: &'t Table,
    name: &'t str,
) -> Result<u8, Stop<'t>>
    ensures { Gives stop_refusal (λ n. n) result
        (spec.cycles_at (field_key place.entry) (table_view table.now) name.now) }
{
    number_at(1, MOST_CYCLES, place, table, name)
}

/// The number of cycles under a key, and 1 where there is no such key.
pub(crate) fn cycles_or_one<'t>(
    place: Place<'t>,
    table: &'t Table,
    name: &'t str,
) -> Result<u8, Stop<'t>>
    ensures { Gives stop_refusal (λ n. n) result
        (spec.cycles_or_one (field_key place.entry) (table_view table.now) name.now
        (get_member name.now (table_view table.now))) }
{
    let Some(_value) = member(table, name) else {
        return Ok(1);
    };
    cycles_at(place, table, name)
}

// The first key that isn't known, as the map keeps it.
fn unknown_key<'t>(table: &'t Table, known: &[&str]) -> Option<&'t String>
    ensures { option_map (λ key. key.now) result
        ≡ find (λ key. not (names.is_among (string_bytes key) (map (λ name. name.now) known.now)))
        (keys table.now) }
{
    table.keys().find(|key| !is_among(key.as_str(), known))
}

/// The first key that isn't known.
pub(crate) fn first_unknown<'t>(table: &'t Table, known: &[&str]) -> Option<&'t str>
    ensures { option_map (λ key. key.now) result
        ≡ find (λ key. not (names.is_among key (map (λ name. name.now) known.now)))
        (map (λ entry. entry.0) (spec.members_of (table_view table.now))) }
{
    match unknown_key(table, known) {
        Some(key) => Some(key.as_str()),
        None => None,
    }
}

/// No keys but those that are known; else the first other one is refused.
#[tactic(auto, unfolding(crate::specs::Reading::only_keys))]
pub(crate) fn only_keys<'t>(
    place: Place<'t>,
    known: &[&str],
    table: &'t Table,
) -> Result<(), Stop<'t>>
    ensures { Gives stop_refusal (λ done. done) result
        (spec.only_keys CoreReason.KeyUnknown (field_key place.entry)
        (map (λ name. name.now) known.now) (table_view table.now)) }
{
    match first_unknown(table, known) {
        Some(key) => Err(refused(CoreReason::KeyUnknown, Key::Field(place, key))),
        None => Ok(()),
    }
}
