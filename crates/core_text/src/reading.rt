//! Reading a core table.
ghost use Rattle.std.specs.Prelude.{◌≡◌};
ghost use Rattle.toml.specs.View.{table_view};
ghost use Rattle.sl_model.specs.Answers.{Gives};
ghost use Rattle.core_text.specs.KeyViews.{stop_refusal};
ghost use Rattle.core_text.specs.Reading as spec;
ghost use Rattle.core_text.specs.Reading.{core_from};
ghost use Rattle.core_text.specs.Refusal.{refusal_of};

use crate::class_names::{arch_named, same_arch};
use crate::classes::classes_at;
use crate::core_table::{Core, MOST_WIDTH};
use crate::document::{document_of, number_at, only_keys, refused, text_at};
use crate::forwards::forwards_at;
use crate::key::{Key, Place, Stop, told};
use crate::units::{owned_names, units_at};
use crate::{ArchName, CoreErr, CoreReason};
use std::alloc::Global;
use toml::Table;

// The architecture is the one that is asked for.
#[tactic(auto, unfolding(crate::specs::Reading::arch_at))]
fn arch_at<'t>(arch: ArchName, table: &'t Table) -> Result<(), Stop<'t>>
    ensures { Gives stop_refusal (λ done. done) result (spec.arch_at arch (table_view table.now)) }
{
    let key = Key::Field(Place::Document, "arch");
    let name = match text_at(Place::Document, table, "arch") {
        Ok(name) => name,
        Err(stop) => return Err(stop),
    };
    let Some(named) = arch_named(name) else {
        return Err(refused(CoreReason::NameBad, key));
    };
    if !same_arch(named, arch) {
        return Err(refused(CoreReason::ArchOther, key));
    }
    Ok(())
}

// The core of a document.
#[tactic(auto, unfolding(crate::specs::Reading::core_in))]
fn core_in<'t>(alloc: Global, arch: ArchName, table: &'t Table) -> Result<Core, Stop<'t>>
    ensures { Gives stop_refusal (λ core. core) result (spec.core_in arch (table_view table.now)) }
{
    let place = Place::Document;
    only_keys(
        place,
        &["name", "arch", "width", "units", "class", "forward"],
        table,
    )?;
    let _name = text_at(place, table, "name")?;
    arch_at(arch, table)?;
    let width = number_at(1, MOST_WIDTH, place, table, "width")?;
    let units = units_at(alloc, table)?;
    let classes = classes_at(alloc, arch, &units, table)?;
    let forwards = forwards_at(alloc, arch, table)?;
    let Ok(units) = owned_names(alloc, &units) else {
        return Err(Stop::NoMemory);
    };
    Ok(Core::new(width, units, classes, forwards))
}

/// The core that bytes tell, for an architecture. They are refused exactly where they are no
/// core table of it, for the first reason that there is, and at its key.
#[tactic(auto, unfolding(crate::specs::Reading::core_from))]
pub fn read_core(alloc: Global, bytes: &[u8], arch: ArchName) -> Result<Core, CoreErr>
    ensures { Gives refusal_of (λ core. core) result (core_from arch bytes.now) }
{
    let Some(table) = document_of(alloc, bytes)? else {
        return Err(told(
            alloc,
            refused(CoreReason::NotToml, Key::Whole(Place::Document)),
        ));
    };
    match core_in(alloc, arch, &table) {
        Ok(core) => Ok(core),
        Err(stop) => Err(told(alloc, stop)),
    }
}
