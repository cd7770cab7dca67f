//! What the instructions of a table do, by their forms. A form that isn't there has nothing.
ghost use Rattle.std.specs.Prelude.{◌≡◌, slice_get};
ghost use Rattle.sl_isa.specs.Arch.{padded_values};
ghost use Rattle.form_table.specs.TableRows.{rows_of};
ghost use Rattle.form_isa.specs.Info as info;
ghost use Rattle.form_isa.specs.TableIsa.{row_values, row_bytes, row_offset};

use crate::exec::{bytes_of, offset_of, values_of};
use crate::info::info_of;
use form_table::table::Table;
use sl_isa::{ArchName, FormInfo, Instr, RegSet};

/// What a table says of a form, and nothing of one that isn't there.
#[tactic(auto, unfolding(crate::specs::Info::padded_classes, crate::specs::Info::padded_ties))]
pub fn info_at(table: &Table<'_>, form: u16) -> FormInfo
    ensures { result ≡ info.info_at (slice_get (rows_of table.now) form) }
{
    let Some(row) = table.row(form) else {
        let nothing = RegSet { bits: 0 };
        return FormInfo {
            class: 0,
            in_sets: [nothing; 4],
            out_sets: [nothing; 3],
            tied: [None; 3],
            back: None,
            base: None,
            store: false,
            size: 0,
        };
    };
    info_of(row)
}

/// The values of the outputs of an instruction whose operands have these values and that
/// loads these bytes. Places that it doesn't fill are 0.
#[tactic(auto, unfolding(sl_isa::specs::Arch::padded_values))]
pub fn values_at(
    arch: ArchName,
    table: &Table<'_>,
    instr: &Instr,
    ins: &[u128],
    loaded: &[u8],
) -> [u128; 3]
    ensures { result
        ≡ padded_values 3
        (row_values arch (slice_get (rows_of table.now) instr.now.form) instr.now.imms ins.now
        loaded.now) }
{
    let Some(row) = table.row(instr.form) else {
        return [0; 3];
    };
    values_of(arch, row, &instr.imms, ins, loaded)
}

/// The bytes that an instruction stores whose operands have these values. Places that
/// it doesn't fill are 0.
#[tactic(auto, unfolding(sl_isa::specs::Arch::padded_values))]
pub fn bytes_at(table: &Table<'_>, instr: &Instr, ins: &[u128]) -> [u8; 32]
    ensures { result
        ≡ padded_values 32 (row_bytes (slice_get (rows_of table.now) instr.now.form) ins.now) }
{
    let Some(row) = table.row(instr.form) else {
        return [0; 32];
    };
    bytes_of(row, ins)
}

/// The offset of an instruction's access, and 0 where it has none.
pub fn offset_at(table: &Table<'_>, instr: &Instr) -> i64
    ensures { result
        ≡ row_offset (slice_get (rows_of table.now) instr.now.form) instr.now.imms }
{
    let Some(row) = table.row(instr.form) else {
        return 0;
    };
    offset_of(row, &instr.imms)
}
