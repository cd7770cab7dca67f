//! Operands and numbers of instructions, shifts of 128 bits, and numbers
//! of so many bits as signed ones.
#![tactic(auto)]

ghost use Rattle.std.specs.Prelude.{◌≡◌, ◌<◌, ◌≤◌, ◌*◌, ◌/◌, ◌%◌, ◌^◌, slice_index};
ghost use Rattle.bit_ops.specs.Bits as spec;

/// The operand at a place, and 0 where there are fewer.
pub fn operand(operands: &[u128], place: usize) -> u128
    ensures { result ≡ slice_index operands.now place }
{
    if operands.len() <= place {
        return 0;
    }
    operands[place]
}

/// The number of an instruction at a place, without sign, and 0 where it has fewer.
pub fn number(imms: &[i64], place: usize) -> u128
    ensures value { result ≡ spec.number imms.now place }
    ensures small { result < 2 ^ 64 }
{
    if imms.len() <= place {
        return 0;
    }
    u128::from(imms[place].unsigned_abs())
}

/// A number shifted left: its low 128 bits.
pub fn shift_left(x: u128, by: u128) -> u128
    ensures { result ≡ x * 2 ^ by % 2 ^ 128 }
{
    if 128 <= by {
        return 0;
    }
    x << (by as u32)
}

/// A number shifted right.
pub fn shift_right(x: u128, by: u128) -> u128
    ensures { result ≡ x / 2 ^ by }
{
    if 128 <= by {
        return 0;
    }
    x >> (by as u32)
}

/// So many low bits of a number.
pub fn low_bits(x: u128, count: u128) -> u128
    ensures value { result ≡ x % 2 ^ count }
    ensures small { result < 2 ^ count }
{
    if 128 <= count {
        return x;
    }
    x % (1 << (count as u32))
}

/// Is a number of so many bits negative in two's complement?
pub fn is_negative(bits: u32, x: u128) -> bool
    requires some { 1 ≤ bits }
    requires bits { bits ≤ 128 }
    ensures { result ≡ spec.is_negative bits x }
{
    (1 << (bits - 1)) <= x
}

/// A number of so many bits, in two's complement of 128 bits.
#[tactic(auto, unfolding(crate::specs::Bits::extended))]
pub fn extended(bits: u32, x: u128) -> u128
    requires some { 1 ≤ bits }
    requires bits { bits ≤ 64 }
    requires fits { x < 2 ^ bits }
    ensures value { result ≡ spec.extended bits x }
{
    if is_negative(bits, x) {
        return u128::MAX - (1 << bits) + 1 + x;
    }
    x
}
