//! Registers cut in lanes, from the low end.
ghost use Rattle.std.specs.Prelude.{◌≤◌, ◌*◌};

use bit_ops::{low_bits, shift_left, shift_right};
use sl_isa::meaning::{Arrangement, Lane};

/// How a register is cut: the bits of each lane, and how many lanes there are.
#[derive(Clone, Copy)]
pub struct Cut {
    pub bits: u32,
    pub count: u32,
    ghost some: { 8 ≤ bits },
    ghost narrow: { bits ≤ 64 },
    ghost few: { count ≤ 16 },
    ghost fits: { bits * count ≤ 128 },
}

impl Cut {
    ghost use Rattle.std.specs.Prelude.{◌≡◌, ◌<◌, ◌+◌, ◌/◌, ◌%◌, ◌^◌, MatchOption, suc, slice_index, slice_set};
    ghost use Rattle.lane_ops.specs.Lanes.{lane_bits, lane_count, bits_of, count_of, lanes_of, joined, repeated};

    /// The lanes of an arrangement.
    pub fn arranged(lanes: Arrangement) -> Cut
        ensures bits { result.bits ≡ lane_bits lanes }
        ensures count { result.count ≡ lane_count lanes }
    {
        match lanes {
            Arrangement::Bytes8 => Cut { bits: 8, count: 8 },
            Arrangement::Bytes16 => Cut { bits: 8, count: 16 },
            Arrangement::Halves4 => Cut { bits: 16, count: 4 },
            Arrangement::Halves8 => Cut { bits: 16, count: 8 },
            Arrangement::Words2 => Cut { bits: 32, count: 2 },
            Arrangement::Words4 => Cut { bits: 32, count: 4 },
            Arrangement::Doubles2 => Cut { bits: 64, count: 2 },
        }
    }

    /// The lanes of a whole register.
    pub fn whole(lane: Lane) -> Cut
        ensures bits { result.bits ≡ bits_of lane }
        ensures count { result.count ≡ count_of lane }
    {
        match lane {
            Lane::Byte => Cut { bits: 8, count: 16 },
            Lane::Half => Cut { bits: 16, count: 8 },
            Lane::Word => Cut { bits: 32, count: 4 },
            Lane::Double => Cut { bits: 64, count: 2 },
        }
    }

    /// The lanes of a whole register, of as many bits as those of an arrangement.
    pub fn whole_of(lanes: Arrangement) -> Cut
        ensures bits { result.bits ≡ lane_bits lanes }
        ensures count { result.count ≡ 128 / lane_bits lanes }
    {
        match lanes {
            Arrangement::Bytes8 | Arrangement::Bytes16 => Cut::whole(Lane::Byte),
            Arrangement::Halves4 | Arrangement::Halves8 => Cut::whole(Lane::Half),
            Arrangement::Words2 | Arrangement::Words4 => Cut::whole(Lane::Word),
            Arrangement::Doubles2 => Cut::whole(Lane::Double),
        }
    }

    /// The lanes above the lowest one, where there is one.
    pub fn above(self) -> Option<Cut>
        ensures { MatchOption result (self.count ≡ 0)
            (λ rest. (rest.bits ≡ self.bits) × (self.count ≡ suc rest.count)) }
    {
        if self.count == 0 {
            return None;
        }
        Some(Cut {
            bits: self.bits,
            count: self.count - 1,
        })
    }

    /// The lowest lane of a register.
    pub fn lowest(self, register: u128) -> u128
        ensures value { result ≡ register % 2 ^ self.bits }
        ensures small { result < 2 ^ self.bits }
    {
        low_bits(register, u128::from(self.bits))
    }

    /// A register without its lowest lane.
    pub fn without_lowest(self, register: u128) -> u128
        ensures { result ≡ register / 2 ^ self.bits }
    {
        shift_right(register, u128::from(self.bits))
    }

    /// The low bits of a lane, below other lanes.
    pub fn joined(self, lane: u128, above: u128) -> u128
        requires { above * 2 ^ self.bits + 2 ^ self.bits ≤ 2 ^ 128 }
        ensures { result ≡ lane % 2 ^ self.bits + 2 ^ self.bits * above }
    {
        self.lowest(lane) + shift_left(above, u128::from(self.bits))
    }

    /// The lane of a register at a place, and 0 where it has fewer.
    pub fn lane(self, register: u128, place: u128) -> u128
        ensures value { result ≡ slice_index (lanes_of self.bits self.count register) place }
        ensures small { result < 2 ^ self.bits }
    {
        if u128::from(self.count) <= place {
            return 0;
        }
        self.lowest(shift_right(register, u128::from(self.bits) * place))
    }

    /// The lanes of a register, with zeros above them.
    pub fn copied(self, register: u128) -> u128
        ensures { result ≡ joined self.bits (lanes_of self.bits self.count register) }
    {
        low_bits(register, u128::from(self.bits * self.count))
    }

    /// One number in each lane.
    pub fn repeated(self, lane: u128) -> u128
        ensures { result ≡ joined self.bits (repeated self.count lane) }
    {
        let Some(above) = self.above() else {
            return 0;
        };
        self.joined(lane, above.repeated(lane))
    }

    /// A register with another lane at a place, where it has a lane there.
    pub fn inserted(self, register: u128, place: u128, lane: u128) -> u128
        ensures { result
            ≡ joined self.bits (slice_set (lanes_of self.bits self.count register) place lane) }
    {
        let Some(above) = self.above() else {
            return 0;
        };
        let rest = self.without_lowest(register);
        if place == 0 {
            return self.joined(lane, above.copied(rest));
        }
        self.joined(register, above.inserted(rest, place - 1, lane))
    }

    /// The low bits of lanes that have twice as many.
    pub fn narrowed(self, register: u128) -> u128
        ensures { result ≡ joined self.bits (lanes_of (2 * self.bits) self.count register) }
    {
        let Some(above) = self.above() else {
            return 0;
        };
        let rest = above.narrowed(shift_right(register, 2 * u128::from(self.bits)));
        self.joined(register, rest)
    }
}
