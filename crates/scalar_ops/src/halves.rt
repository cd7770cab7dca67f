//! Words of 32 bits and their halves: parts, products and sums of them.
ghost use Rattle.std.specs.Prelude.{◌≡◌, ◌+◌, ◌*◌, ◌/◌, ◌%◌, ◌^◌, ◌<◌};
ghost use Rattle.scalar_ops.specs.Halves as spec;
ghost use Rattle.scalar_ops.specs.Scalar.{long_product as long_product_spec};

use crate::arithmetic::{joined, long_product, low};
use bit_ops::{extended, low_bits, shift_right};

/// The low or the high half of a word.
pub(crate) fn half(high: bool, x: u128) -> u128
    ensures value { result ≡ spec.half high x }
    ensures fits { result < 2 ^ 16 }
{
    if high {
        return low(shift_right(x, 16), 16);
    }
    low(x, 16)
}

/// The word of two halves.
pub(crate) fn both_halves(low_half: u128, high_half: u128) -> u128
    requires low { low_half < 2 ^ 16 }
    requires high { high_half < 2 ^ 16 }
    ensures { result ≡ spec.both_halves low_half high_half }
{
    joined(16, high_half, low_half)
}

/// As many bits of a word as a count says, from a place on, with copies of the highest above.
#[tactic(auto, using(crate::proofs::Fields::field_none, crate::proofs::Fields::field_whole))]
pub(crate) fn signed_field(x: u128, place: u128, count: u128) -> u128
    requires fits { x < 2 ^ 32 }
    ensures { result ≡ spec.signed_field x place count }
{
    let field = low_bits(shift_right(x, place), count);
    if count == 0 {
        return 0;
    }
    if 32 < count {
        return field;
    }
    low(extended(count as u32, field), 32)
}

/// The low half of a word, with copies of its sign above it or with zeros.
pub(crate) fn low_half(signed: bool, x: u128) -> u128
    ensures { result ≡ spec.low_half signed x }
{
    if signed {
        return low(extended(16, half(false, x)), 32);
    }
    half(false, x)
}

/// A word with another high half: the low 16 bits of a number.
pub(crate) fn with_high(x: u128, high_half: u128) -> u128
    ensures { result ≡ spec.with_high x high_half }
{
    both_halves(half(false, x), half(false, high_half))
}

/// The low word of the product of two signed halves.
pub(crate) fn product_of_halves(n: u128, m: u128) -> u128
    requires left { n < 2 ^ 16 }
    requires right { m < 2 ^ 16 }
    ensures value { result ≡ spec.product_of_halves n m }
    ensures fits { result < 2 ^ 32 }
{
    low(extended(16, n).wrapping_mul(extended(16, m)), 32)
}

/// The product of a signed word and a signed half, without its low 16 bits.
pub(crate) fn product_by_half(n: u128, m: u128) -> u128
    requires left { n < 2 ^ 32 }
    requires right { m < 2 ^ 16 }
    ensures value { result ≡ spec.product_by_half n m }
    ensures fits { result < 2 ^ 32 }
{
    shift_right(low(extended(32, n).wrapping_mul(extended(16, m)), 48), 16)
}

/// The sum of the products of the low halves and of the high halves, or crosswise.
pub(crate) fn sum_of_products(crossed: bool, n: u128, m: u128) -> u128
    ensures value { result ≡ spec.sum_of_products crossed n m }
    ensures fits { result < 2 ^ 33 }
{
    product_of_halves(half(false, n), half(crossed, m))
        + product_of_halves(half(true, n), half(!crossed, m))
}

/// The high word of the signed product of two words, rounded.
pub(crate) fn rounded_product(n: u128, m: u128) -> u128
    requires left { n < 2 ^ 32 }
    requires right { m < 2 ^ 32 }
    ensures { result ≡ spec.rounded_product n m }
{
    shift_right(low(product_of_words(true, n, m) + (1 << 31), 64), 32)
}

/// The sum of two halves, or their difference: its low 16 bits.
pub(crate) fn half_sum(minus: bool, n: u128, m: u128) -> u128
    requires left { n < 2 ^ 16 }
    requires right { m < 2 ^ 16 }
    ensures value { result ≡ spec.half_sum minus n m }
    ensures fits { result < 2 ^ 16 }
{
    if minus {
        return low(n + 65536 - m, 16);
    }
    low(n + m, 16)
}

/// The product of two words, in 64 bits.
pub(crate) fn product_of_words(signed: bool, n: u128, m: u128) -> u128
    requires left { n < 2 ^ 32 }
    requires right { m < 2 ^ 32 }
    ensures value { result ≡ long_product_spec signed n m }
    ensures fits { result < 2 ^ 64 }
{
    long_product(signed, n, m)
}

/// The low half of one word with the high half of another one.
pub(crate) fn packed(keeps_high: bool, n: u128, m: u128) -> u128
    ensures { result ≡ spec.packed keeps_high n m }
{
    if keeps_high {
        return both_halves(half(false, m), half(true, n));
    }
    both_halves(half(false, n), half(true, m))
}

/// The sums of both halves of two words, or their differences.
pub(crate) fn sums_of_halves(minus: bool, n: u128, m: u128) -> u128
    ensures { result ≡ spec.sums_of_halves minus n m }
{
    both_halves(
        half_sum(minus, half(false, n), half(false, m)),
        half_sum(minus, half(true, n), half(true, m)),
    )
}
