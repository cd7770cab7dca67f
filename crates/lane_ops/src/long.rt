//! Products of lanes of half as many bits as those of the result.
ghost use Rattle.std.specs.Prelude.{◌≡◌, ◌<◌, ◌≤◌, ◌+◌, ◌*◌, ◌/◌, ◌%◌, ◌^◌};
ghost use Rattle.lane_ops.specs.Lanes.{lanes_of, joined};
ghost use Rattle.lane_ops.specs.Vector.{long_value, long_values};

use crate::cut::Cut;
use bit_ops::{extended, low_bits, shift_right};

/// Products of lanes of two operands, added to the lanes of the destination.
pub fn long_values(signed: bool, cut: Cut, d: u128, n: u128, m: u128) -> u128
    ensures { result ≡ joined cut.bits (long_values signed (cut.bits / 2)
        (lanes_of cut.bits cut.count d) (lanes_of (cut.bits / 2) cut.count n)
        (lanes_of (cut.bits / 2) cut.count m)) }
{
    let Some(above) = cut.above() else {
        return 0;
    };
    let half = u128::from(cut.bits / 2);
    let lane = long_value(
        signed,
        cut.bits / 2,
        cut.lowest(d),
        low_bits(n, half),
        low_bits(m, half),
    );
    let rest = long_values(
        signed,
        above,
        cut.without_lowest(d),
        shift_right(n, half),
        shift_right(m, half),
    );
    cut.joined(lane, rest)
}

// A product of lanes, added to a lane of the destination: its low 128 bits.
#[tactic(auto, unfolding(crate::specs::Vector::long_value))]
fn long_value(signed: bool, half: u32, d: u128, n: u128, m: u128) -> u128
    requires some { 1 ≤ half }
    requires narrow { half ≤ 32 }
    requires first { n < 2 ^ half }
    requires second { m < 2 ^ half }
    ensures { result ≡ long_value signed half d n m % 2 ^ 128 }
{
    if signed {
        return added_product(d, extended(half, n), extended(half, m));
    }
    added_product(d, n, m)
}

// A product added to a number: the low 128 bits.
fn added_product(d: u128, n: u128, m: u128) -> u128
    ensures { result ≡ (d + n * m) % 2 ^ 128 }
{
    d.wrapping_add(n.wrapping_mul(m))
}
