//! What accesses to memory do.
ghost use Rattle.std.specs.Prelude.{ℕ, ℤ, pos, ◌≡◌, ◌<◌, ◌≤◌, ◌+◌, ◌+ℤ◌, ◌%◌, ◌^◌, ◌*◌, ◌∷◌, List, length, take, drop, unsigned_abs};
ghost use Rattle.std.specs.Int.{int_rem_euclid};
ghost use Rattle.sl_model.specs.Isa as isa;
ghost use Rattle.sl_model.specs.Machine.{space_of};
ghost use Rattle.sl_isa.specs.Arch.{padded_values};
ghost use Rattle.lane_ops.specs.Lanes.{lanes_of, joined};
ghost use Rattle.form_isa.specs.Access as spec;

use bit_ops::{extended, low_bits, operand};
use sl_isa::ArchName;
use sl_isa::meaning::{Addressing, Transfer, Width};

// The bytes of a register.
fn width_bytes(width: Width) -> u8
    ensures value { result ≡ spec.width_bytes width }
    ensures some { 1 ≤ result }
    ensures few { result ≤ 16 }
{
    match width {
        Width::Byte => 1,
        Width::Half => 2,
        Width::Word => 4,
        Width::Double => 8,
        Width::Quad => 16,
    }
}

/// The bytes of an access: at most 32.
pub(crate) fn transfer_size(transfer: Transfer) -> u8
    ensures { result ≡ spec.transfer_size transfer }
{
    let bytes = width_bytes(transfer.width);
    if transfer.pair {
        return 2 * bytes;
    }
    bytes
}

// The first number of an instruction, and 0 where it has none.
fn first_number(imms: &[i64]) -> i64
    ensures { result ≡ spec.first_number imms.now }
{
    let Some((first, _)) = imms.split_first() else {
        return 0;
    };
    *first
}

/// Where an access is made, counted from its base.
pub(crate) fn offset_by(addressing: Addressing, imms: &[i64]) -> i64
    ensures { result ≡ spec.offset_by addressing imms.now }
{
    match addressing {
        Addressing::Kept | Addressing::Before => first_number(imms),
        Addressing::After => 0,
    }
}

// How many addresses there are.
fn space(arch: ArchName) -> i128
    ensures { result ≡ pos (space_of arch) }
{
    match arch {
        ArchName::Arm64 => 1 << 64,
        ArchName::M4 => 1 << 32,
    }
}

// The low bits of a base, as many as an address has.
fn low_part(arch: ArchName, base: u128) -> i128
    ensures value { result ≡ pos (base % space_of arch) }
    ensures small { unsigned_abs result < 2 ^ 64 }
{
    match arch {
        ArchName::Arm64 => (base % (1 << 64)) as i128,
        ArchName::M4 => (base % (1 << 32)) as i128,
    }
}

// A sum as an address.
fn wrapped(arch: ArchName, sum: i128) -> u64
    ensures { result ≡ unsigned_abs (int_rem_euclid sum (pos (space_of arch))) }
{
    sum.rem_euclid(space(arch)) as u64
}

// A base and an offset.
fn moved(base: i128, offset: i64) -> i128
    requires { unsigned_abs base < 2 ^ 64 }
    ensures { result ≡ base +ℤ offset }
{
    base + i128::from(offset)
}

/// A base and an offset as an address.
#[tactic(auto, using(crate::proofs::Addresses::address_is))]
pub(crate) fn address_at(arch: ArchName, base: u128, offset: i64) -> u64
    ensures { result ≡ isa.address_at (space_of arch) base offset }
{
    wrapped(arch, moved(low_part(arch, base), offset))
}

// A value before others.
#[tactic(auto, using(crate::proofs::Padded::value_cons))]
fn put_before(value: u128, others: [u128; 3]) -> [u128; 3]
    ensures { (values : List ℕ) → others ≡ padded_values 3 values
        → result ≡ padded_values 3 (value ∷ values) }
{
    [value, others[0], others[1]]
}

// The base that is written back, if it is.
#[tactic(auto, unfolding(sl_isa::specs::Arch::padded_values))]
fn new_base(arch: ArchName, addressing: Addressing, imms: &[i64], base: u128) -> [u128; 3]
    ensures { result
        ≡ padded_values 3 (spec.new_base (space_of arch) addressing imms.now base) }
{
    match addressing {
        Addressing::Kept => [0; 3],
        Addressing::Before | Addressing::After => {
            [u128::from(address_at(arch, base, first_number(imms))), 0, 0]
        }
    }
}

// A byte below a number of at most 15 bytes.
fn with_byte(byte: u8, above: u128) -> u128
    requires { above < 2 ^ 120 }
    ensures value { result ≡ byte % 2 ^ 8 + 2 ^ 8 * above }
    ensures small { result < 2 ^ 8 * (above + 1) }
{
    u128::from(byte) + 256 * above
}

// The number that the first bytes make, so many, of which the lowest stands first.
#[tactic(auto, unfolding(lane_ops::specs::Lanes::joined), using(crate::proofs::Addresses::room_above, crate::proofs::Addresses::byte_fits))]
fn number_of(count: u8, bytes: &[u8]) -> u128
    requires { count ≤ 16 }
    ensures value { result ≡ joined 8 (take count bytes.now) }
    ensures small { result < 2 ^ (8 * count) }
{
    if count == 0 {
        return 0;
    }
    let Some((first, rest)) = bytes.split_first() else {
        return 0;
    };
    with_byte(*first, number_of(count - 1, rest))
}

// What a register gets of the first bytes, so many: copies of the sign above them up to 32 bits,
// or zeros.
fn loaded_value(signed: bool, count: u8, loaded: &[u8]) -> u128
    requires some { 1 ≤ count }
    requires few { count ≤ 16 }
    ensures { result ≡ spec.loaded_value signed count loaded.now }
{
    let value = number_of(count, loaded);
    if !signed {
        return value;
    }
    if count < 4 {
        return low_bits(extended(8 * u32::from(count), value), 32);
    }
    value
}

// The bytes behind so many.
fn behind(count: u8, bytes: &[u8]) -> &[u8]
    ensures { result.now ≡ drop count bytes.now }
{
    let count = usize::from(count);
    if bytes.len() <= count {
        return &[];
    }
    &bytes[count..]
}

// The place of the base among the operands.
fn base_place(transfer: Transfer) -> usize
    ensures { result ≡ spec.base_place transfer }
{
    if !transfer.store {
        return 0;
    }
    if transfer.pair {
        return 2;
    }
    1
}

/// The values of the outputs of an access that loads these bytes. Places that it
/// doesn't fill are 0.
#[tactic(auto, unfolding(crate::specs::Access::transfer_values, crate::specs::Access::loaded_values))]
pub(crate) fn transfer_values(
    arch: ArchName,
    transfer: Transfer,
    imms: &[i64],
    ins: &[u128],
    loaded: &[u8],
) -> [u128; 3]
    ensures { result ≡ padded_values 3
        (spec.transfer_values (space_of arch) transfer imms.now ins.now loaded.now) }
{
    let base = operand(ins, base_place(transfer));
    let new_base = new_base(arch, transfer.addressing, imms, base);
    if transfer.store {
        return new_base;
    }
    let count = width_bytes(transfer.width);
    let first = loaded_value(transfer.signed, count, loaded);
    if transfer.pair {
        let second = loaded_value(transfer.signed, count, behind(count, loaded));
        return put_before(first, put_before(second, new_base));
    }
    put_before(first, new_base)
}

// Puts low bytes of a number in places, the lowest first.
#[tactic(auto, unfolding(lane_ops::specs::Lanes::lanes_of))]
fn put_bytes(places: &mut [u8], value: u128)
    ensures { places.new ≡ lanes_of 8 (length places.old) value }
{
    let Some((first, rest)) = places.split_first_mut() else {
        return;
    };
    *first = (value % 256) as u8;
    put_bytes(rest, value / 256);
}

/// The bytes that an access stores. Places that it doesn't fill are 0.
#[tactic(auto, unfolding(crate::specs::Access::transfer_bytes, crate::specs::Access::stored_bytes))]
pub(crate) fn transfer_bytes(transfer: Transfer, ins: &[u128]) -> [u8; 32]
    ensures { result ≡ padded_values 32 (spec.transfer_bytes transfer ins.now) }
{
    let mut bytes = [0; 32];
    if !transfer.store {
        return bytes;
    }
    let count = usize::from(width_bytes(transfer.width));
    put_bytes(&mut bytes[..count], operand(ins, 0));
    if transfer.pair {
        put_bytes(&mut bytes[count..2 * count], operand(ins, 1));
    }
    bytes
}
