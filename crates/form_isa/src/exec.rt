//! What an instruction of a row does.
ghost use Rattle.std.specs.Prelude.{◌≡◌};
ghost use Rattle.sl_model.specs.Exec as exec;
ghost use Rattle.sl_isa.specs.Arch.{padded_values};
ghost use Rattle.form_isa.specs.TableIsa.{meaning_values, meaning_bytes, meaning_offset, access_by};

use crate::access::{address_at, offset_by, transfer_bytes, transfer_values};
use bit_ops::{low_bits, operand};
use form_table::rows::Row;
use lane_ops::vector_value;
use scalar_ops::{scalar_values, word_values};
use sl_isa::meaning::Meaning;
use sl_isa::{Access, ArchName, FormInfo};

/// The values of the outputs of a row's instruction, from its numbers, the values of its operands
/// and the bytes that it loads. Places that it doesn't fill are 0.
#[tactic(auto, unfolding(sl_isa::specs::Arch::padded_values))]
pub fn values_of(arch: ArchName, row: &Row, imms: &[i64], ins: &[u128], loaded: &[u8]) -> [u128; 3]
    ensures { result ≡ padded_values 3
        (meaning_values arch row.now.meaning imms.now ins.now loaded.now) }
{
    match row.meaning {
        Meaning::Scalar { op, size } => scalar_values(op, size, imms, ins),
        Meaning::Vector(op) => [vector_value(op, imms, ins), 0, 0],
        Meaning::Word(op) => word_values(op, imms, ins),
        Meaning::Copy(_) => [low_bits(operand(ins, 0), 32), 0, 0],
        Meaning::Memory(transfer) => transfer_values(arch, transfer, imms, ins, loaded),
    }
}

/// The bytes that a row's instruction stores, from the values of its operands. Places
/// that it doesn't fill are 0.
#[tactic(auto, unfolding(sl_isa::specs::Arch::padded_values))]
pub fn bytes_of(row: &Row, ins: &[u128]) -> [u8; 32]
    ensures { result ≡ padded_values 32 (meaning_bytes row.now.meaning ins.now) }
{
    match row.meaning {
        Meaning::Scalar { .. } | Meaning::Vector(_) | Meaning::Word(_) | Meaning::Copy(_) =>
            [0; 32],
        Meaning::Memory(transfer) => transfer_bytes(transfer, ins),
    }
}

/// The offset of the access of a row's instruction with these numbers, and 0 where it has none.
pub fn offset_of(row: &Row, imms: &[i64]) -> i64
    ensures { result ≡ meaning_offset row.now.meaning imms.now }
{
    match row.meaning {
        Meaning::Scalar { .. } | Meaning::Vector(_) | Meaning::Word(_) | Meaning::Copy(_) => 0,
        Meaning::Memory(transfer) => offset_by(transfer.addressing, imms),
    }
}

// The value of the base among those of the operands.
fn base_value(base: Option<u8>, ins: &[u128]) -> u128
    ensures { result ≡ exec.base_value base ins.now }
{
    let Some(place) = base else {
        return 0;
    };
    operand(ins, usize::from(place))
}

/// The access of an instruction of a form with this offset, whose operands have these
/// values, if it has one.
pub fn access_of(arch: ArchName, info: &FormInfo, offset: i64, ins: &[u128]) -> Option<Access>
    ensures { result ≡ access_by arch info.now offset ins.now }
{
    if info.size == 0 {
        return None;
    }
    Some(Access {
        store: info.store,
        address: address_at(arch, base_value(info.base, ins), offset),
        size: info.size,
    })
}
