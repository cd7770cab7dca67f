//! Operands, shifts, sums and products of numbers of so many bits.
ghost use Rattle.std.specs.Prelude.{◌≡◌, ◌+◌, ◌*◌, ◌%◌, ◌^◌, ◌<◌, ◌≤◌};
ghost use Rattle.sl_isa.specs.declared.meaning.Logic.{Logic as LogicValue};
ghost use Rattle.scalar_ops.specs.Flags.{complement as complement_spec, sum as sum_spec};
ghost use Rattle.scalar_ops.specs.Scalar as spec;

use crate::flags::{flag_c, one_if};
use bit_ops::{extended, low_bits, number, shift_left, shift_right};
use sl_isa::meaning::{Logic, Product, Second, Shift, Size};

/// How many bits a scalar instruction works on.
pub(crate) fn bits_of(size: Size) -> u32
    ensures value { result ≡ spec.bits_of size }
    ensures some { 1 ≤ result }
    ensures bits { result ≤ 64 }
{
    match size {
        Size::Bits32 => 32,
        Size::Bits64 => 64,
    }
}

/// So many low bits of a number.
pub(crate) fn low(x: u128, bits: u32) -> u128
    requires bits { bits ≤ 64 }
    ensures value { result ≡ x % 2 ^ bits }
    ensures fits { result < 2 ^ bits }
    ensures word { result < 2 ^ 64 }
{
    low_bits(x, u128::from(bits))
}

/// The operand at a place: the low bits of its register.
pub(crate) fn operand(bits: u32, ins: &[u128], place: usize) -> u128
    requires bits { bits ≤ 64 }
    ensures value { result ≡ spec.operand bits ins.now place }
    ensures fits { result < 2 ^ bits }
    ensures word { result < 2 ^ 64 }
{
    low(bit_ops::operand(ins, place), bits)
}

// How many numbers of so many bits there are.
fn power(bits: u32) -> u128
    requires bits { bits ≤ 64 }
    ensures value { result ≡ 2 ^ bits }
    ensures some { 1 ≤ result }
    ensures word { result ≤ 2 ^ 64 }
{
    1 << bits
}

/// The number of twice so many bits with one number above another one.
pub(crate) fn joined(bits: u32, high: u128, low: u128) -> u128
    requires bits { bits ≤ 64 }
    requires high { high < 2 ^ bits }
    requires low { low < 2 ^ bits }
    ensures { result ≡ low + 2 ^ bits * high }
{
    low + power(bits) * high
}

// The low bits of a number shifted left.
fn shifted_left(bits: u32, x: u128, count: u128) -> u128
    requires bits { bits ≤ 64 }
    ensures value { result ≡ x * 2 ^ count % 2 ^ bits }
    ensures fits { result < 2 ^ bits }
    ensures word { result < 2 ^ 64 }
{
    low(shift_left(x, count), bits)
}

/// A number of so many bits, shifted.
pub(crate) fn shifted(by: Shift, bits: u32, x: u128, count: u128) -> u128
    requires some { 1 ≤ bits }
    requires bits { bits ≤ 64 }
    requires fits { x < 2 ^ bits }
    ensures value { result ≡ spec.shifted by bits x count }
    ensures fits { result < 2 ^ bits }
{
    match by {
        Shift::Lsl => shifted_left(bits, x, count),
        Shift::Lsr => shift_right(x, count),
        Shift::Asr => low(shift_right(extended(bits, x), count), bits),
        Shift::Ror => low(shift_right(joined(bits, x, x), count), bits),
    }
}

/// The first number, shifted left by the second one.
pub(crate) fn wide_number(bits: u32, imms: &[i64]) -> u128
    requires bits { bits ≤ 64 }
    ensures value { result ≡ spec.wide_number bits imms.now }
    ensures fits { result < 2 ^ bits }
{
    shifted_left(bits, number(imms, 0), number(imms, 1))
}

/// The second operand.
#[tactic(auto, unfolding(crate::specs::Scalar::second_of))]
pub(crate) fn second_of(second: Second, bits: u32, imms: &[i64], ins: &[u128]) -> u128
    requires some { 1 ≤ bits }
    requires bits { bits ≤ 64 }
    ensures value { result ≡ spec.second_of second bits imms.now ins.now }
    ensures fits { result < 2 ^ bits }
{
    match second {
        Second::Register => operand(bits, ins, 1),
        Second::Shifted(by) => shifted(by, bits, operand(bits, ins, 1), number(imms, 0)),
        Second::Number => wide_number(bits, imms),
    }
}

// A number with each of its bits turned round.
fn complement(bits: u32, y: u128) -> u128
    requires bits { bits ≤ 64 }
    requires fits { y < 2 ^ bits }
    ensures value { result ≡ complement_spec bits y }
    ensures word { result < 2 ^ 64 }
{
    power(bits) - 1 - y
}

/// What is added to the first operand.
pub(crate) fn addend(minus: bool, bits: u32, y: u128) -> u128
    requires bits { bits ≤ 64 }
    requires fits { y < 2 ^ bits }
    ensures value { result ≡ spec.addend minus bits y }
    ensures word { result < 2 ^ 64 }
{
    if minus { complement(bits, y) } else { y }
}

/// The carry that is added.
pub(crate) fn carry_of(minus: bool, carries: bool, ins: &[u128]) -> u128
    ensures value { result ≡ spec.carry_of minus carries ins.now }
    ensures small { result ≤ 1 }
{
    if carries {
        return one_if(flag_c(bit_ops::operand(ins, 2)));
    }
    one_if(minus)
}

/// The sum of two numbers of so many bits and a carry.
pub(crate) fn sum(bits: u32, x: u128, y: u128, carry: u128) -> u128
    requires bits { bits ≤ 64 }
    requires left { x < 2 ^ 64 }
    requires right { y < 2 ^ 64 }
    requires carry { carry ≤ 1 }
    ensures { result ≡ sum_spec bits x y carry }
{
    low(x + y + carry, bits)
}

/// A bitwise operation on numbers of so many bits.
pub(crate) fn bitwise(op: Logic, bits: u32, x: u128, y: u128) -> u128
    requires bits { bits ≤ 64 }
    requires fits { y < 2 ^ bits }
    ensures { result ≡ spec.bitwise op bits x y }
{
    match op {
        Logic::And => x & y,
        Logic::Orr => x | y,
        Logic::Eor => x ^ y,
        Logic::Bic => x & complement(bits, y),
    }
}

// The product of numbers of 64 bits: another number of 64 bits can be added to it.
fn full_product(n: u128, m: u128) -> u128
    requires left { n < 2 ^ 64 }
    requires right { m < 2 ^ 64 }
    ensures value { result ≡ n * m }
    ensures room { result + 2 ^ 64 < 2 ^ 128 }
{
    n * m
}

/// What becomes of the product of two operands, with the third one.
pub(crate) fn product_of(product: Product, bits: u32, n: u128, m: u128, a: u128) -> u128
    requires bits { bits ≤ 64 }
    requires left { n < 2 ^ 64 }
    requires right { m < 2 ^ 64 }
    requires third { a < 2 ^ 64 }
    ensures { result ≡ spec.product_of product bits n m a }
{
    match product {
        Product::Alone => low(full_product(n, m), bits),
        Product::Added => low(a + full_product(n, m), bits),
        Product::Subtracted => low(a + power(bits) - low(full_product(n, m), bits), bits),
    }
}

/// The high half of a product of numbers of 64 bits.
pub(crate) fn high_product(signed: bool, n: u128, m: u128) -> u128
    requires left { n < 2 ^ 64 }
    requires right { m < 2 ^ 64 }
    ensures { result ≡ spec.high_product signed n m }
{
    if signed {
        return shift_right(extended(64, n).wrapping_mul(extended(64, m)), 64);
    }
    shift_right(full_product(n, m), 64)
}

/// The product of numbers of 32 bits, in 64 bits.
pub(crate) fn long_product(signed: bool, n: u128, m: u128) -> u128
    requires left { n < 2 ^ 32 }
    requires right { m < 2 ^ 32 }
    ensures { result ≡ spec.long_product signed n m }
{
    if signed {
        return low(extended(32, n).wrapping_mul(extended(32, m)), 64);
    }
    full_product(n, m)
}

/// A number with 16 of its bits replaced, from a place on.
pub(crate) fn with_part(bits: u32, d: u128, part: u128, place: u128) -> u128
    requires bits { bits ≤ 64 }
    requires fits { d < 2 ^ bits }
    ensures { result ≡ spec.with_part bits d part place }
{
    let old = shifted_left(bits, low(shift_right(d, place), 16), place);
    low(d - old + shifted_left(bits, part, place), bits)
}
