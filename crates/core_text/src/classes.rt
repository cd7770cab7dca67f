//! What a core tells of classes.
ghost use Rattle.std.specs.Prelude.{◌≡◌, ◌≤◌, ◌<◌, [], map, length, option_map, IfSome};
ghost use Rattle.toml.specs.View.{view, table_view};
ghost use Rattle.sl_model.specs.Answers.{Gives};
ghost use Rattle.core_text.specs.ClassNames as names;
ghost use Rattle.core_text.specs.InTurn.{in_turn};
ghost use Rattle.core_text.specs.Keys as keys;
ghost use Rattle.core_text.specs.KeyViews.{field_key, stop_refusal};
ghost use Rattle.core_text.specs.Reading as spec;

use crate::class_names::{class_names, place_of};
use crate::core_table::{ClassEntry, MOST_UNITS};
use crate::document::{
    cycles_at, cycles_or_one, first_unknown, only_keys, refused, table_at, text_at,
};
use crate::key::{Key, Place, Stop};
use crate::units::own_units_at;
use crate::{ArchName, CoreReason};
use std::alloc::Global;
use toml::{Table, Value};

/// The number of the class of a name, for an architecture.
fn class_number(arch: ArchName, name: &str) -> Option<u8>
    ensures { result ≡ names.place_of name.now (names.class_names arch) }
{
    let Some(place) = place_of(name, class_names(arch)) else {
        return None;
    };
    Some(place as u8)
}

/// The number of the class under a key.
#[tactic(auto, unfolding(crate::specs::Reading::class_at))]
pub(crate) fn class_at<'t>(
    arch: ArchName,
    place: Place<'t>,
    table: &'t Table,
    name: &'t str,
) -> Result<u8, Stop<'t>>
    ensures { Gives stop_refusal (λ class. class) result
        (spec.class_at arch (field_key place.entry) (table_view table.now) name.now) }
{
    let class = match text_at(place, table, name) {
        Ok(class) => class,
        Err(stop) => return Err(stop),
    };
    let Some(number) = class_number(arch, class) else {
        return Err(refused(CoreReason::ClassUnknown, Key::Field(place, name)));
    };
    Ok(number)
}

// The entry of a class in its table.
#[tactic(auto, unfolding(crate::specs::Reading::class_cost))]
fn class_cost<'t>(
    alloc: Global,
    names: &[&str],
    name: &'t str,
    class: u8,
    table: &'t Table,
) -> Result<ClassEntry, Stop<'t>>
    requires { length names.now ≤ MOST_UNITS }
    ensures { Gives stop_refusal (λ entry. entry) result
        (spec.class_cost (map (λ name. name.now) names.now) name.now class (table_view table.now)) }
{
    let place = Place::Class(name);
    only_keys(place, &["units", "busy", "latency", "writeback"], table)?;
    let units = own_units_at(alloc, names, place, table)?;
    let busy = cycles_at(place, table, "busy")?;
    let latency = cycles_at(place, table, "latency")?;
    let writeback = cycles_or_one(place, table, "writeback")?;
    Ok(ClassEntry::new(class, units, busy, latency, writeback))
}

// The next class: its name and its table.
#[tactic(auto, unfolding(crate::specs::Reading::class_entry))]
fn class_entry<'t>(
    alloc: Global,
    arch: ArchName,
    names: &[&str],
    name: &'t str,
    value: &'t Value,
) -> Result<ClassEntry, Stop<'t>>
    requires { length names.now ≤ MOST_UNITS }
    ensures { Gives stop_refusal (λ entry. entry) result
        (spec.class_entry arch (map (λ name. name.now) names.now) [] (name.now, view value.now)) }
{
    let Some(class) = class_number(arch, name) else {
        return Err(refused(CoreReason::ClassUnknown, Key::Whole(Place::Class(name))));
    };
    let Some(table) = value.as_table() else {
        return Err(refused(CoreReason::Missing, Key::Whole(Place::Class(name))));
    };
    class_cost(alloc, names, name, class, table)
}

// The entries of a table of classes, one after the other.
fn classes_in<'t>(
    alloc: Global,
    arch: ArchName,
    names: &[&str],
    classes: &'t Table,
) -> Result<Vec<ClassEntry>, Stop<'t>>
    requires { length names.now ≤ MOST_UNITS }
    ensures { Gives stop_refusal (λ entries. entries.items) result
        (in_turn (spec.class_entry arch (map (λ name. name.now) names.now)) []
        (spec.members_of (table_view classes.now))) }
{
    let mut entries = Vec::new(alloc);
    for (name, value) in classes.iter() {
        let entry = match class_entry(alloc, arch, names, name.as_str(), value) {
            Ok(entry) => entry,
            Err(stop) => return Err(stop),
        };
        if entries.push(entry).is_err() {
            return Err(Stop::NoMemory);
        }
    }
    Ok(entries)
}

// No classes but those of the architecture; else the first other one is refused.
#[tactic(auto, unfolding(crate::specs::Reading::only_keys))]
fn only_classes<'t>(arch: ArchName, classes: &'t Table) -> Result<(), Stop<'t>>
    ensures { Gives stop_refusal (λ done. done) result
        (spec.only_keys CoreReason.ClassUnknown keys.class_key (names.class_names arch)
        (table_view classes.now)) }
{
    match first_unknown(classes, class_names(arch)) {
        Some(name) => Err(refused(CoreReason::ClassUnknown, Key::Whole(Place::Class(name)))),
        None => Ok(()),
    }
}

/// The classes that have an entry, in the order of their names as texts.
#[tactic(auto, unfolding(crate::specs::Reading::classes_at))]
pub(crate) fn classes_at<'t>(
    alloc: Global,
    arch: ArchName,
    names: &[&str],
    table: &'t Table,
) -> Result<Vec<ClassEntry>, Stop<'t>>
    requires { length names.now ≤ MOST_UNITS }
    ensures { Gives stop_refusal (λ entries. entries.items) result
        (spec.classes_at arch (map (λ name. name.now) names.now) (table_view table.now)) }
{
    let classes = table_at(Place::Document, table, "class")?;
    only_classes(arch, classes)?;
    classes_in(alloc, arch, names, classes)
}
