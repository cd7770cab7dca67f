//! Shifts of lanes by a number.
ghost use Rattle.std.specs.Prelude.{◌≡◌, ◌<◌, ◌+◌, ◌/◌, ◌%◌, ◌^◌};
ghost use Rattle.lane_ops.specs.Lanes.{lanes_of, joined};
ghost use Rattle.lane_ops.specs.Vector.{shift_value, shift_values};

use crate::cut::Cut;
use bit_ops::{extended, low_bits, shift_left, shift_right};
use sl_isa::meaning::LaneShift;

/// A shift of each lane of an operand, with the lanes of the destination.
pub fn shift_values(op: LaneShift, cut: Cut, by: u128, d: u128, n: u128) -> u128
    ensures { result ≡ joined cut.bits (shift_values op cut.bits by
        (lanes_of cut.bits cut.count d) (lanes_of cut.bits cut.count n)) }
{
    let Some(above) = cut.above() else {
        return 0;
    };
    let lane = shift_value(op, cut, by, cut.lowest(d), cut.lowest(n));
    let rest = shift_values(op, above, by, cut.without_lowest(d), cut.without_lowest(n));
    cut.joined(lane, rest)
}

// A shift of a lane: its low bits.
#[tactic(auto, unfolding(crate::specs::Vector::shift_value))]
fn shift_value(op: LaneShift, cut: Cut, by: u128, d: u128, n: u128) -> u128
    requires destination { d < 2 ^ cut.bits }
    requires operand { n < 2 ^ cut.bits }
    ensures { result ≡ shift_value op cut.bits by d n % 2 ^ cut.bits }
{
    match op {
        LaneShift::Shl => cut.lowest(shift_left(n, by)),
        LaneShift::Sli => cut.lowest(cut.lowest(shift_left(n, by)) + low_bits(d, by)),
        LaneShift::Sshr => cut.lowest(shift_right(extended(cut.bits, n), by)),
        LaneShift::Ushr => cut.lowest(shift_right(n, by)),
        LaneShift::Srshr => cut.lowest(rounded_right(extended(cut.bits, n), by)),
        LaneShift::Sri => {
            let kept = u128::from(cut.bits).saturating_sub(by);
            cut.lowest(shift_right(n, by) + (d - low_bits(d, kept)))
        }
    }
}

// A number shifted right, rounded to the nearest, and up where two are as near.
fn rounded_right(x: u128, by: u128) -> u128
    ensures { result ≡ (x + 2 ^ by / 2) / 2 ^ by }
{
    if by == 0 {
        return x;
    }
    let doubled = shift_right(x, by - 1);
    doubled / 2 + doubled % 2
}
