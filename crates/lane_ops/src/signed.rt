//! Lanes as signed numbers.
ghost use Rattle.std.specs.Prelude.{◌≡◌, ◌<◌, ◌≤◌, ◌+ℤ◌, ◌-ℤ◌, ◌*ℤ◌, ◌*◌, ◌-◌, ◌^◌, pos, unsigned_abs};
ghost use Rattle.std.specs.Int.{int_div_euclid};
ghost use Rattle.lane_ops.specs.Lanes as spec;
ghost use Rattle.lane_ops.specs.Vector as vector;

use bit_ops::is_negative;

// A number of so many bits as a signed one.
fn signed(bits: u32, x: u128) -> i128
    requires some { 1 ≤ bits }
    requires narrow { bits ≤ 64 }
    requires fits { x < 2 ^ bits }
    ensures value { result ≡ spec.signed bits x }
    ensures small { unsigned_abs result ≤ 2 ^ 63 }
{
    let whole = x as i128;
    if is_negative(bits, x) {
        return whole - (1 << bits);
    }
    whole
}

// The greatest signed number of so many bits.
fn greatest(bits: u32) -> i128
    requires some { 1 ≤ bits }
    requires narrow { bits ≤ 64 }
    ensures { result ≡ pos (2 ^ (bits - 1)) -ℤ pos 1 }
{
    (1 << (bits - 1)) - 1
}

// The least signed number of so many bits.
fn least(bits: u32) -> i128
    requires some { 1 ≤ bits }
    requires narrow { bits ≤ 64 }
    ensures { result ≡ pos 0 -ℤ pos (2 ^ (bits - 1)) }
{
    -(1 << (bits - 1))
}

// The nearest number in the range of signed ones of so many bits.
fn saturated(bits: u32, x: i128) -> i128
    requires some { 1 ≤ bits }
    requires narrow { bits ≤ 64 }
    ensures { result ≡ spec.saturated bits x }
{
    if greatest(bits) < x {
        return greatest(bits);
    }
    if x < least(bits) {
        return least(bits);
    }
    x
}

// The low bits of a signed number.
fn low_bits(bits: u32, x: i128) -> u128
    requires narrow { bits ≤ 64 }
    ensures { result ≡ spec.low_bits bits x }
{
    x.rem_euclid(1 << bits) as u128
}

// A product of signed numbers of 64 bits.
fn product(n: i128, m: i128) -> i128
    requires first { unsigned_abs n ≤ 2 ^ 63 }
    requires second { unsigned_abs m ≤ 2 ^ 63 }
    ensures value { result ≡ n *ℤ m }
    ensures small { unsigned_abs result ≤ 2 ^ 126 }
{
    n * m
}

// A product with something added, without its low half but the highest bit.
fn high_part(bits: u32, product: i128, added: u128) -> i128
    requires some { 1 ≤ bits }
    requires narrow { bits ≤ 64 }
    requires product { unsigned_abs product ≤ 2 ^ 126 }
    requires added { added ≤ 2 ^ 62 }
    ensures { result ≡ int_div_euclid (product +ℤ pos added) (pos (2 ^ (bits - 1))) }
{
    (product + added as i128).div_euclid(1 << (bits - 1))
}

/// The high half of twice a signed product of so many bits, with twice
/// something added before, saturated.
pub fn doubled_high(bits: u32, n: u128, m: u128, added: u128) -> u128
    requires some { 1 ≤ bits }
    requires narrow { bits ≤ 64 }
    requires first { n < 2 ^ bits }
    requires second { m < 2 ^ bits }
    requires added { added ≤ 2 ^ 62 }
    ensures { result ≡ vector.doubled_high bits n m (2 * added) }
{
    let high = high_part(bits, product(signed(bits, n), signed(bits, m)), added);
    low_bits(bits, saturated(bits, high))
}
