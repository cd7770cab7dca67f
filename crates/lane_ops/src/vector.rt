//! What a vector instruction gives.
ghost use Rattle.std.specs.Prelude.{◌≡◌, ◌<◌, ◌/◌, ◌^◌, slice_index};
ghost use Rattle.bit_ops.specs.Bits.{number};
ghost use Rattle.lane_ops.specs.Lanes.{lanes_of, joined, repeated};
ghost use Rattle.lane_ops.specs.Vector as spec;

use crate::cut::Cut;
use crate::lanewise::lane_values;
use crate::long::long_values;
use crate::permute::{extracted, permuted};
use crate::shifts::shift_values;
use bit_ops::{number, operand, shift_right};
use sl_isa::meaning::{LaneOp, Vector};

/// What a vector instruction gives, from its numbers and the values of its operands.
#[tactic(auto, unfolding(crate::specs::Vector::vector_value))]
pub fn vector_value(op: Vector, imms: &[i64], ins: &[u128]) -> u128
    ensures { result ≡ spec.vector_value op imms.now ins.now }
{
    let first = operand(ins, 0);
    let second = operand(ins, 1);
    let third = operand(ins, 2);
    let place = number(imms, 0);
    match op {
        Vector::Lanewise { op, lanes } => {
            lane_values(op, Cut::arranged(lanes), third, first, second)
        }
        Vector::ByElement { op, lanes } => {
            let element = Cut::whole_of(lanes).lane(second, place);
            by_element(op, Cut::arranged(lanes), third, first, element)
        }
        Vector::Copy { lanes } => Cut::arranged(lanes).copied(first),
        Vector::Long {
            signed,
            adds,
            high,
            lanes,
        } => long_values(
            signed,
            Cut::arranged(lanes),
            added_to(adds, third),
            half_of(high, first),
            half_of(high, second),
        ),
        Vector::Shift { op, lanes } => {
            shift_values(op, Cut::arranged(lanes), place, second, first)
        }
        Vector::Narrow { lanes } => Cut::arranged(lanes).narrowed(first),
        Vector::Permute { op, lanes } => permuted(op, Cut::arranged(lanes), first, second),
        Vector::Extract { lanes } => extracted(Cut::arranged(lanes), first, second, place),
        Vector::DupLane { lanes } => {
            Cut::arranged(lanes).repeated(Cut::whole_of(lanes).lane(first, place))
        }
        Vector::DupGeneral { lanes } => Cut::arranged(lanes).repeated(first),
        Vector::InsertGeneral { lane } => Cut::whole(lane).inserted(second, place, first),
        Vector::InsertLane { lane } => {
            let cut = Cut::whole(lane);
            cut.inserted(second, place, cut.lane(first, number(imms, 1)))
        }
        Vector::MoveOut { lane } => Cut::whole(lane).lane(first, place),
    }
}

// An operation on each lane of the destination and of an operand, and on one lane.
fn by_element(op: LaneOp, cut: Cut, d: u128, n: u128, element: u128) -> u128
    requires { element < 2 ^ cut.bits }
    ensures { result ≡ joined cut.bits (spec.lane_values op cut.bits
        (lanes_of cut.bits cut.count d) (lanes_of cut.bits cut.count n)
        (repeated cut.count element)) }
{
    lane_values(op, cut, d, n, cut.repeated(element))
}

// The low or the high half of a register.
fn half_of(high: bool, register: u128) -> u128
    ensures { result ≡ spec.half_of high register }
{
    if high {
        return shift_right(register, 64);
    }
    register
}

// The destination where its lanes are added to, else 0.
fn added_to(adds: bool, destination: u128) -> u128
    ensures { result ≡ spec.added_to adds destination }
{
    if adds {
        return destination;
    }
    0
}
