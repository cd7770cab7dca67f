//! The units of a core, and those of a class.
ghost use Rattle.std.specs.Prelude.{◌≡◌, ◌≤◌, ◌==◌, map, length, IfOk, [], string_bytes};
ghost use Rattle.std.specs.List.{list_any};
ghost use Rattle.toml.specs.View.{view, table_view};
ghost use Rattle.sl_model.specs.Answers.{Gives};
ghost use Rattle.core_text.specs.InTurn.{in_turn};
ghost use Rattle.core_text.specs.KeyViews.{spelled, field_key, stop_refusal};
ghost use Rattle.core_text.specs.Reading as spec;

use crate::class_names::{is_among, place_of};
use crate::core_table::MOST_UNITS;
use crate::document::{list_at, refused};
use crate::key::{Key, Place, Stop};
use crate::{CoreReason, NoMemory};
use sl_text::is_unit_name;
use std::alloc::Global;
use toml::{Table, Value};

// The next name of a unit.
#[tactic(auto, unfolding(crate::specs::Reading::unit_read))]
fn unit_read<'t>(key: Key<'t>, before: &[&'t str], value: &'t Value) -> Result<&'t str, Stop<'t>>
    ensures { Gives stop_refusal (λ name. name.now) result
        (spec.unit_read (spelled key.entry) (map (λ name. name.now) before.now) (view value.now)) }
{
    let Some(name) = value.as_str() else {
        return Err(refused(CoreReason::Missing, key));
    };
    if !is_unit_name(name.as_bytes()) {
        return Err(refused(CoreReason::NameBad, key));
    }
    if is_among(name, before) {
        return Err(refused(CoreReason::Twice, key));
    }
    Ok(name)
}

// The names of a list, one after the other.
fn units_in<'t>(alloc: Global, key: Key<'t>, list: &'t [Value]) -> Result<Vec<&'t str>, Stop<'t>>
    ensures { Gives stop_refusal (λ names. map (λ name. name.now) names.items) result
        (in_turn (spec.unit_read (spelled key.entry)) [] (map view list.now)) }
{
    let mut names = Vec::new(alloc);
    for value in list {
        let name = match unit_read(key, names.as_slice(), value) {
            Ok(name) => name,
            Err(stop) => return Err(stop),
        };
        if names.push(name).is_err() {
            return Err(Stop::NoMemory);
        }
    }
    Ok(names)
}

/// The names of the units of a core, from 1 to 16.
#[tactic(auto, unfolding(crate::specs::Reading::units_at))]
pub(crate) fn units_at<'t>(alloc: Global, table: &'t Table) -> Result<Vec<&'t str>, Stop<'t>>
    ensures { Gives stop_refusal (λ names. map (λ name. name.now) names.items) result
        (spec.units_at (table_view table.now)) }
{
    let key = Key::Field(Place::Document, "units");
    let list = list_at(Place::Document, table, "units")?;
    let units = list.len();
    if units < 1 {
        return Err(refused(CoreReason::NumberRange, key));
    }
    if MOST_UNITS < units {
        return Err(refused(CoreReason::NumberRange, key));
    }
    units_in(alloc, key, list)
}

// Is a number one of these?
fn has_unit(units: &[u8], unit: u8) -> bool
    ensures { result ≡ list_any (λ other. other == unit) units.now }
{
    units.iter().any(|other| *other == unit)
}

// The next unit of a class.
#[tactic(auto, unfolding(crate::specs::Reading::own_unit_read))]
fn own_unit_read<'t>(
    key: Key<'t>,
    names: &[&str],
    before: &[u8],
    value: &'t Value,
) -> Result<u8, Stop<'t>>
    requires { length names.now ≤ MOST_UNITS }
    ensures { Gives stop_refusal (λ unit. unit) result
        (spec.own_unit_read (spelled key.entry) (map (λ name. name.now) names.now) before.now
        (view value.now)) }
{
    let Some(name) = value.as_str() else {
        return Err(refused(CoreReason::Missing, key));
    };
    let Some(place) = place_of(name, names) else {
        return Err(refused(CoreReason::UnitUnknown, key));
    };
    let unit = place as u8;
    if has_unit(before, unit) {
        return Err(refused(CoreReason::Twice, key));
    }
    Ok(unit)
}

// The units of a list, one after the other.
fn own_units_in<'t>(
    alloc: Global,
    key: Key<'t>,
    names: &[&str],
    list: &'t [Value],
) -> Result<Vec<u8>, Stop<'t>>
    requires { length names.now ≤ MOST_UNITS }
    ensures { Gives stop_refusal (λ units. units.items) result
        (in_turn (spec.own_unit_read (spelled key.entry) (map (λ name. name.now) names.now)) []
        (map view list.now)) }
{
    let mut units = Vec::new(alloc);
    for value in list {
        let unit = match own_unit_read(key, names, units.as_slice(), value) {
            Ok(unit) => unit,
            Err(stop) => return Err(stop),
        };
        if units.push(unit).is_err() {
            return Err(Stop::NoMemory);
        }
    }
    Ok(units)
}

/// The units of a class, one or more, by their numbers.
#[tactic(auto, unfolding(crate::specs::Reading::own_units_at))]
pub(crate) fn own_units_at<'t>(
    alloc: Global,
    names: &[&str],
    place: Place<'t>,
    table: &'t Table,
) -> Result<Vec<u8>, Stop<'t>>
    requires { length names.now ≤ MOST_UNITS }
    ensures { Gives stop_refusal (λ units. units.items) result
        (spec.own_units_at (map (λ name. name.now) names.now) (field_key place.entry)
        (table_view table.now)) }
{
    let key = Key::Field(place, "units");
    let list = list_at(place, table, "units")?;
    if list.len() < 1 {
        return Err(refused(CoreReason::NumberRange, key));
    }
    own_units_in(alloc, key, names, list)
}

/// Copies of names.
pub(crate) fn owned_names(alloc: Global, names: &[&str]) -> Result<Vec<String>, NoMemory>
    ensures { IfOk result
        (λ owned. map string_bytes owned.items ≡ map (λ name. name.now) names.now) }
{
    let mut owned = Vec::new(alloc);
    for name in names {
        let name = String::from_str(alloc, name)?;
        if owned.push(name).is_err() {
            return Err(NoMemory);
        }
    }
    Ok(owned)
}
