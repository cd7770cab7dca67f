//! Shifts and signs of edge values.
use bit_ops::{extended, is_negative, low_bits, number, operand, shift_left, shift_right};
use sample_set::Failing;

#[test]
fn operands_and_numbers_past_the_last_are_0(rt: HostRuntime) -> Failing {
    let mut failing = Failing::new(rt.alloc());
    failing.check("an operand", operand(&[3, 5], 1) == 5);
    failing.check("no operand", operand(&[3, 5], 2) == 0);
    failing.check("a number", number(&[7, -8, i64::MIN], 1) == 8);
    failing.check("the least number", number(&[7, -8, i64::MIN], 2) == 1 << 63);
    failing
}

#[test]
fn shifts_and_signs_of_edge_values(rt: HostRuntime) -> Failing {
    let mut failing = Failing::new(rt.alloc());
    failing.check("left by 127", shift_left(u128::MAX, 127) == 1 << 127);
    failing.check("left by 128", shift_left(1, 128) == 0);
    failing.check("right by 127", shift_right(u128::MAX, 127) == 1);
    failing.check("right by 128", shift_right(u128::MAX, 128) == 0);
    failing.check("8 low bits", low_bits(u128::MAX, 8) == 255);
    failing.check("128 low bits", low_bits(u128::MAX, 128) == u128::MAX);
    failing.check("the sign of 0x80", is_negative(8, 0x80));
    failing.check("the sign of 0x7f", !is_negative(8, 0x7f));
    failing.check("0x80", extended(8, 0x80) == u128::MAX - 127);
    failing.check("0x7f", extended(8, 0x7f) == 0x7f);
    failing.check("64 ones", extended(64, (1 << 64) - 1) == u128::MAX);
    failing
}
