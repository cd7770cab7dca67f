//! Lanes of two registers in other places.
ghost use Rattle.std.specs.Prelude.{◌≡◌, ◌==◌, ◌≤◌, ◌+◌, ◌%◌, ◌^◌, ◌++◌, slice_index, take, drop, if◌then◌else◌};
ghost use Rattle.lane_ops.specs.Lanes.{lanes_of, joined};
ghost use Rattle.lane_ops.specs.Vector.{taken_from, permuted};

use crate::cut::Cut;
use sl_isa::meaning::Permutation;

/// The lanes of two registers in the places of a permutation.
pub fn permuted(op: Permutation, cut: Cut, n: u128, m: u128) -> u128
    ensures { result ≡ joined cut.bits (permuted op cut.count
        (lanes_of cut.bits cut.count n ++ lanes_of cut.bits cut.count m) 0 cut.count) }
{
    permuted_from(op, cut, n, m, 0, cut.count)
}

// The same from a place on, of so many lanes.
fn permuted_from(op: Permutation, cut: Cut, n: u128, m: u128, place: u32, count: u32) -> u128
    requires { place + count ≤ cut.count }
    ensures { result ≡ joined cut.bits (permuted op cut.count
        (lanes_of cut.bits cut.count n ++ lanes_of cut.bits cut.count m) place count) }
{
    if count == 0 {
        return 0;
    }
    let source = taken_from(op, cut.count, place);
    let lane = lane_of_both(cut, n, m, u128::from(source));
    let rest = permuted_from(op, cut, n, m, place + 1, count - 1);
    cut.joined(lane, rest)
}

// Where the lane at a place comes from, among those of two registers with so many lanes each.
#[tactic(auto, unfolding(crate::specs::Vector::taken_from))]
fn taken_from(op: Permutation, count: u32, place: u32) -> u32
    requires count { count ≤ 16 }
    requires place { place ≤ 16 }
    ensures { result ≡ taken_from op count place }
{
    match op {
        Permutation::Trn1 => register_start(count, place) + (place - place % 2),
        Permutation::Trn2 => register_start(count, place) + (place - place % 2) + 1,
        Permutation::Zip1 => register_start(count, place) + place / 2,
        Permutation::Zip2 => register_start(count, place) + (count / 2 + place / 2),
        Permutation::Uzp1 => 2 * place,
        Permutation::Uzp2 => 2 * place + 1,
    }
}

// Where the lanes of the first register begin for an even place, and those of
// the second one for an odd place.
fn register_start(count: u32, place: u32) -> u32
    ensures { result ≡ (if place % 2 == 0 then 0 else count) }
{
    if place % 2 == 0 {
        return 0;
    }
    count
}

/// The lanes of two registers, one behind the other, from a place on.
pub fn extracted(cut: Cut, n: u128, m: u128, place: u128) -> u128
    requires { place ≤ 2 ^ 64 }
    ensures { result ≡ joined cut.bits (take cut.count (drop place
        (lanes_of cut.bits cut.count n ++ lanes_of cut.bits cut.count m))) }
{
    extracted_from(cut, n, m, place, cut.count)
}

// The same, of so many lanes.
fn extracted_from(cut: Cut, n: u128, m: u128, place: u128, count: u32) -> u128
    requires place { place + count ≤ 2 ^ 64 + 16 }
    requires count { count ≤ cut.count }
    ensures { result ≡ joined cut.bits (take count (drop place
        (lanes_of cut.bits cut.count n ++ lanes_of cut.bits cut.count m))) }
{
    if count == 0 {
        return 0;
    }
    let lane = lane_of_both(cut, n, m, place);
    let rest = extracted_from(cut, n, m, place + 1, count - 1);
    cut.joined(lane, rest)
}

// The lane at a place among those of two registers, one behind the
// other, and 0 where they have fewer.
fn lane_of_both(cut: Cut, n: u128, m: u128, place: u128) -> u128
    ensures { result
        ≡ slice_index (lanes_of cut.bits cut.count n ++ lanes_of cut.bits cut.count m) place }
{
    let count = u128::from(cut.count);
    if place < count {
        return cut.lane(n, place);
    }
    cut.lane(m, place - count)
}
