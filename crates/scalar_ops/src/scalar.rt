//! What scalar instructions give.
ghost use Rattle.std.specs.Prelude.{◌≡◌, ◌^◌, ◌<◌, ◌≤◌, [], ◌∷◌};
ghost use Rattle.sl_isa.specs.Arch.{padded_values};
ghost use Rattle.scalar_ops.specs.Scalar as spec;

use crate::arithmetic::{
    addend, bits_of, bitwise, carry_of, high_product, joined, long_product, low, operand,
    product_of, second_of, shifted, sum, wide_number, with_part,
};
use crate::flags::{condition_holds, sum_flags};
use bit_ops::{low_bits, number, shift_right};
use sl_isa::meaning::{Scalar, Size};

// A result without flags.
#[tactic(auto, unfolding(sl_isa::specs::Arch::padded_values))]
fn only(value: u128) -> [u128; 3]
    ensures { result ≡ padded_values 3 (value ∷ []) }
{
    [value, 0, 0]
}

// The result of a sum and, behind it, its flags where it gives them.
#[tactic(auto, unfolding(sl_isa::specs::Arch::padded_values))]
fn with_flags(flags: bool, bits: u32, x: u128, y: u128, carry: u128) -> [u128; 3]
    requires some { 1 ≤ bits }
    requires bits { bits ≤ 64 }
    requires left { x < 2 ^ 64 }
    requires right { y < 2 ^ 64 }
    requires carry { carry ≤ 1 }
    ensures { result ≡ padded_values 3 (spec.with_flags flags bits x y carry) }
{
    if flags {
        return [sum(bits, x, y, carry), sum_flags(bits, x, y, carry), 0];
    }
    only(sum(bits, x, y, carry))
}

// The lower bits of two operands from the first number on, with the second one below the first.
fn extracted(bits: u32, imms: &[i64], ins: &[u128]) -> u128
    requires bits { bits ≤ 64 }
    ensures { result ≡ spec.extracted bits imms.now ins.now }
{
    low(
        shift_right(
            joined(bits, operand(bits, ins, 0), operand(bits, ins, 1)),
            number(imms, 0),
        ),
        bits,
    )
}

// As many bits of the operand as the second number says, from the first number on.
fn field(bits: u32, imms: &[i64], ins: &[u128]) -> u128
    requires bits { bits ≤ 64 }
    ensures { result ≡ spec.field bits imms.now ins.now }
{
    low_bits(
        shift_right(operand(bits, ins, 0), number(imms, 0)),
        number(imms, 1),
    )
}

// The first operand where the condition with the first number holds, else the second one.
fn selected(bits: u32, imms: &[i64], ins: &[u128]) -> u128
    requires bits { bits ≤ 64 }
    ensures { result ≡ spec.selected bits imms.now ins.now }
{
    if condition_holds(number(imms, 0), bit_ops::operand(ins, 2)) {
        return operand(bits, ins, 0);
    }
    operand(bits, ins, 1)
}

/// What a scalar instruction gives: its result and, behind it, the flags where it gives them.
/// Places that it doesn't fill are 0.
#[tactic(auto, unfolding(crate::specs::Scalar::scalar_values, sl_isa::specs::Arch::padded_values))]
pub fn scalar_values(op: Scalar, size: Size, imms: &[i64], ins: &[u128]) -> [u128; 3]
    ensures { result
        ≡ padded_values 3 (spec.scalar_values op (spec.bits_of size) imms.now ins.now) }
{
    let bits = bits_of(size);
    let x = operand(bits, ins, 0);
    match op {
        Scalar::Sum {
            minus,
            second,
            carries,
            flags,
        } => {
            let y = addend(minus, bits, second_of(second, bits, imms, ins));
            with_flags(flags, bits, x, y, carry_of(minus, carries, ins))
        }
        Scalar::Logic { op, second } => {
            only(bitwise(op, bits, x, second_of(second, bits, imms, ins)))
        }
        Scalar::Copy => only(x),
        Scalar::Wide => only(wide_number(bits, imms)),
        Scalar::Part => only(with_part(bits, x, number(imms, 0), number(imms, 1))),
        Scalar::Multiply(product) => {
            let (y, z) = (operand(bits, ins, 1), operand(bits, ins, 2));
            only(product_of(product, bits, x, y, z))
        }
        Scalar::MultiplyHigh { signed } => {
            only(high_product(signed, operand(64, ins, 0), operand(64, ins, 1)))
        }
        Scalar::MultiplyLong { signed } => {
            only(long_product(signed, operand(32, ins, 0), operand(32, ins, 1)))
        }
        Scalar::Extract => only(extracted(bits, imms, ins)),
        Scalar::Shift(by) => only(shifted(by, bits, x, number(imms, 0))),
        Scalar::Field => only(field(bits, imms, ins)),
        Scalar::Select => only(selected(bits, imms, ins)),
    }
}
