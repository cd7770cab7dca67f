//! What instructions on words of 32 bits give that only Armv7E-M has.
ghost use Rattle.std.specs.Prelude.{◌≡◌, ◌^◌, ◌<◌, [], ◌∷◌};
ghost use Rattle.sl_isa.specs.Arch.{padded_values};
ghost use Rattle.scalar_ops.specs.Halves.{both_words};
ghost use Rattle.scalar_ops.specs.Words as meaning;

use crate::arithmetic::{joined, low, operand, second_of};
use crate::halves::{
    half, low_half, packed, product_by_half, product_of_halves, product_of_words, rounded_product,
    signed_field, sum_of_products, sums_of_halves, with_high,
};
use bit_ops::{number, shift_right};
use sl_isa::meaning::{LongAddend, WordOp};

// What is added to a product of 64 bits.
fn long_addend(adds: LongAddend, ins: &[u128]) -> u128
    ensures value { result ≡ meaning.long_addend adds ins.now }
    ensures fits { result < 2 ^ 64 }
{
    let (third, fourth) = (operand(32, ins, 2), operand(32, ins, 3));
    match adds {
        LongAddend::Nothing => 0,
        LongAddend::Pair => joined(32, fourth, third),
        LongAddend::Both => third + fourth,
    }
}

// A result to which the third operand is added, or not: its low word.
fn accumulated(adds: bool, x: u128, ins: &[u128]) -> u128
    requires fits { x < 2 ^ 33 }
    ensures value { result ≡ meaning.accumulated adds x ins.now }
{
    if adds {
        return low(operand(32, ins, 2) + x, 32);
    }
    low(x, 32)
}

// A result in one register.
#[tactic(auto, unfolding(sl_isa::specs::Arch::padded_values))]
fn one_word(value: u128) -> [u128; 3]
    ensures { result ≡ padded_values 3 (value ∷ []) }
{
    [value, 0, 0]
}

// A result of 64 bits in two registers.
#[tactic(auto, unfolding(sl_isa::specs::Arch::padded_values))]
fn two_words(value: u128) -> [u128; 3]
    ensures { result ≡ padded_values 3 (both_words value) }
{
    [low(value, 32), low(shift_right(value, 32), 32), 0]
}

// The product of two words with what is added to it, in two registers.
fn product_pair(signed: bool, adds: LongAddend, ins: &[u128]) -> [u128; 3]
    ensures { result ≡ padded_values 3 (meaning.product_pair signed adds ins.now) }
{
    let product = product_of_words(signed, operand(32, ins, 0), operand(32, ins, 1));
    two_words(product + long_addend(adds, ins))
}

/// What an instruction on words of 32 bits gives, from its numbers and the values of its
/// operands. Places that it doesn't fill are 0.
#[tactic(auto, unfolding(crate::specs::Words::word_values))]
pub fn word_values(op: WordOp, imms: &[i64], ins: &[u128]) -> [u128; 3]
    ensures { result ≡ padded_values 3 (meaning.word_values op imms.now ins.now) }
{
    let (n, m) = (operand(32, ins, 0), operand(32, ins, 1));
    match op {
        WordOp::SignedField => one_word(signed_field(n, number(imms, 0), number(imms, 1))),
        WordOp::LowHalf { signed } => one_word(low_half(signed, n)),
        WordOp::ReplaceHigh => one_word(with_high(n, number(imms, 0))),
        WordOp::MultiplyPair { signed, adds } => product_pair(signed, adds, ins),
        WordOp::MultiplyHighRounded => one_word(rounded_product(n, m)),
        WordOp::MultiplyHalves {
            first_high,
            second_high,
            adds,
        } => {
            let product = product_of_halves(half(first_high, n), half(second_high, m));
            one_word(accumulated(adds, product, ins))
        }
        WordOp::MultiplyByHalf { high, adds } => {
            one_word(accumulated(adds, product_by_half(n, half(high, m)), ins))
        }
        WordOp::MultiplyBothHalves { crossed, adds } => {
            one_word(accumulated(adds, sum_of_products(crossed, n, m), ins))
        }
        WordOp::Pack { keeps_high, second } => {
            one_word(packed(keeps_high, n, second_of(second, 32, imms, ins)))
        }
        WordOp::AddHalves { minus } => one_word(sums_of_halves(minus, n, m)),
    }
}
