//! The costs of items.
ghost use Rattle.std.specs.Prelude.{◌≡◌, ◌≤◌, ◌<◌, ℕ, [], map, length, IfOk, IfErr, IfSome, IsTrue};
ghost use Rattle.std.specs.Int.{bit_at};
ghost use Rattle.std.specs.List.{list_all};
ghost use Rattle.sl_model.specs.Answers.{Gives};
ghost use Rattle.sl_model.specs.Cycles.{row_of};
ghost use Rattle.sl_model.specs.Lawful.{AreValid};
ghost use Rattle.sl_model.specs.Source.{item_at};
ghost use Rattle.issue_cost.specs.Sound.{is_sound_row};
ghost use Rattle.core_text.specs.Core.{is_sound_entry};
ghost use Rattle.core_text.specs.InTurn.{in_turn};
ghost use Rattle.core_models.specs.Costs as spec;
ghost use Rattle.core_models.specs.Costs.{costs_of, has_known_units, lacking_of};
ghost use Rattle.core_models.specs.declared.rows.CostErr.TheVariants.{NoMemory as OutOfMemory};

use crate::NoMemory;
use crate::units::unit_set;
use core_text::{ClassEntry, Core};
use issue_cost::{CostRow, Costs};
use sl_isa::{Arch, FormInfo, Instr};
use std::alloc::Global;

/// Why a core gives no costs of items.
#[derive(Clone, Copy, Debug, PartialEq, Eq, Drop)]
pub enum CostErr {
    /// The class of an item has no entry in the core, and those of the items before it have one.
    ClassMissing { item: u16, class: u8 },
    /// Memory ran out.
    NoMemory,
}

impl From<NoMemory> for CostErr {
    ghost from_gives = { λ _ e. e ≡ OutOfMemory };

    fn from(_error: NoMemory) -> CostErr {
        CostErr::NoMemory
    }
}

// The row of an item of a form, by the entry of its class on a core of at most 16 units.
fn row_for(info: &FormInfo, entry: &ClassEntry) -> CostRow
    requires { IsTrue (is_sound_entry 16 entry.now) }
    ensures row { result ≡ spec.row_for info.now entry.now }
    ensures sound { IsTrue (is_sound_row result) }
{
    CostRow {
        class: info.class,
        units: unit_set(entry.units()),
        busy: entry.busy(),
        latency: entry.latency(),
        writeback: entry.writeback(),
        back: info.back,
    }
}

// The row of the item at a place, of a form.
fn row_at(core: &Core, info: &FormInfo, place: usize) -> Result<CostRow, CostErr>
    requires { place < 65536 }
    ensures row { Gives lacking_of (λ row. row) result (spec.row_at core.now info.now place) }
    ensures sound { IfOk result (λ row. IsTrue (is_sound_row row)) }
    ensures known { IfOk result (λ row. IsTrue (has_known_units (length core.now.units) row)) }
    ensures missing { IfErr result (λ e. IfSome (lacking_of e) (λ lacking. lacking.item ≡ place)) }
{
    let Some(entry) = core.entry(info.class) else {
        return Err(CostErr::ClassMissing {
            item: place as u16,
            class: info.class,
        });
    };
    Ok(row_for(info, entry))
}

// The row of the item at a place.
fn row_of<A: Arch>(core: &Core, arch: &A, items: &[Instr], place: usize) -> Result<CostRow, CostErr>
    requires few { length items.now ≤ 65536 }
    requires valid { AreValid A.language.isa items.now }
    requires place { place < length items.now }
    ensures row { Gives lacking_of (λ row. row) result
        (spec.row_at core.now (A.language.isa.info (item_at items.now place).form) place) }
    ensures sound { IfOk result (λ row. IsTrue (is_sound_row row)) }
    ensures known { IfOk result (λ row. IsTrue (has_known_units (length core.now.units) row)) }
    ensures missing { IfErr result
        (λ e. IfSome (lacking_of e) (λ lacking. lacking.item < length items.now)) }
{
    let info = arch.info(items[place].form);
    row_at(core, &info, place)
}

// The rows of items, one after the other.
fn rows_of<A: Arch>(
    alloc: Global,
    core: &Core,
    arch: &A,
    items: &[Instr],
) -> Result<Vec<CostRow>, CostErr>
    requires few { length items.now ≤ 65536 }
    requires valid { AreValid A.language.isa items.now }
    ensures rows { Gives lacking_of (λ rows. rows.items) result
        (in_turn (spec.row_next core.now A.language.isa) [] items.now) }
    ensures count { IfOk result (λ rows. length rows.items ≡ length items.now) }
    ensures sound { IfOk result (λ rows. IsTrue (list_all is_sound_row rows.items)) }
    ensures known { IfOk result (λ rows. IsTrue
        (list_all (has_known_units (length core.now.units)) rows.items)) }
    ensures missing { IfErr result
        (λ e. IfSome (lacking_of e) (λ lacking. lacking.item < length items.now)) }
{
    let mut rows = Vec::new(alloc);
    for place in 0..items.len() {
        let row = match row_of(core, arch, items, place) {
            Ok(row) => row,
            Err(error) => return Err(error),
        };
        if rows.push(row).is_err() {
            return Err(CostErr::NoMemory);
        }
    }
    Ok(rows)
}

/// What a core tells of items, at most 65536: its width, a row for each, by the class of its form,
/// and its forwards. Each unit of a row is one of the core's. `ClassMissing` names the first item
/// whose class has no entry, and the class.
#[tactic(auto, unfolding(crate::specs::Costs::costs_of))]
pub fn costs<A: Arch>(
    alloc: Global,
    core: &Core,
    arch: &A,
    items: &[Instr],
) -> Result<Costs, CostErr>
    requires few { length items.now ≤ 65536 }
    requires valid { AreValid A.language.isa items.now }
    ensures costs { Gives lacking_of (λ costs. costs) result
        (costs_of core.now A.language.isa items.now) }
    ensures rows { IfOk result (λ costs. length costs.rows ≡ length items.now) }
    ensures known { IfOk result (λ costs. (item unit : ℕ)
        → bit_at (row_of costs item).units unit ≡ 1 → unit < length core.now.units) }
    ensures missing { IfErr result
        (λ e. IfSome (lacking_of e) (λ lacking. lacking.item < length items.now)) }
{
    let rows = rows_of(alloc, core, arch, items)?;
    let costs = Costs::new(alloc, core.width(), &rows, core.forwards())?;
    Ok(costs)
}
