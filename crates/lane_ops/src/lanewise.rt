//! Operations lane by lane.
ghost use Rattle.std.specs.Prelude.{◌≡◌, ◌<◌, ◌%◌, ◌^◌};
ghost use Rattle.lane_ops.specs.Lanes.{lanes_of, joined};
ghost use Rattle.lane_ops.specs.Vector.{lane_value, lane_values};

use crate::cut::Cut;
use crate::signed::doubled_high;
use sl_isa::meaning::LaneOp;

/// An operation on each lane of the destination and of two operands.
pub fn lane_values(op: LaneOp, cut: Cut, d: u128, n: u128, m: u128) -> u128
    ensures { result ≡ joined cut.bits (lane_values op cut.bits
        (lanes_of cut.bits cut.count d) (lanes_of cut.bits cut.count n)
        (lanes_of cut.bits cut.count m)) }
{
    let Some(above) = cut.above() else {
        return 0;
    };
    let lane = lane_value(op, cut, cut.lowest(d), cut.lowest(n), cut.lowest(m));
    let rest = lane_values(
        op,
        above,
        cut.without_lowest(d),
        cut.without_lowest(n),
        cut.without_lowest(m),
    );
    cut.joined(lane, rest)
}

// An operation on a lane: its low bits.
#[tactic(auto, unfolding(crate::specs::Vector::lane_value))]
fn lane_value(op: LaneOp, cut: Cut, d: u128, n: u128, m: u128) -> u128
    requires destination { d < 2 ^ cut.bits }
    requires first { n < 2 ^ cut.bits }
    requires second { m < 2 ^ cut.bits }
    ensures { result ≡ lane_value op cut.bits d n m % 2 ^ cut.bits }
{
    let modulus = 1 << cut.bits;
    match op {
        LaneOp::Add => cut.lowest(n + m),
        LaneOp::Sub => cut.lowest(n + (modulus - m)),
        LaneOp::And => cut.lowest(n & m),
        LaneOp::Orr => cut.lowest(n | m),
        LaneOp::Eor => cut.lowest(n ^ m),
        LaneOp::Bic => cut.lowest(n & (modulus - 1 - m)),
        LaneOp::Mul => cut.lowest(n * m),
        LaneOp::Mla => cut.lowest(d + n * m),
        LaneOp::Mls => cut.lowest(d + n * (modulus - m)),
        LaneOp::Sqdmulh => doubled_high(cut.bits, n, m, 0),
        LaneOp::Sqrdmulh => doubled_high(cut.bits, n, m, 1 << (cut.bits - 2)),
    }
}
