//! The flags of sums, and conditions on them.
ghost use Rattle.std.specs.Prelude.{◌≡◌, ◌^◌, ◌<◌, ◌≤◌, not, false, if◌then◌else◌};
ghost use Rattle.scalar_ops.specs.Flags as spec;

use bit_ops::{is_negative, low_bits, shift_right};

/// 1 where something holds, and 0 where it doesn't.
pub(crate) fn one_if(holds: bool) -> u128
    ensures value { result ≡ spec.one_if holds }
    ensures small { result ≤ 1 }
{
    if holds { 1 } else { 0 }
}

// Is the flag N set?
fn flag_n(flags: u128) -> bool
    ensures { result ≡ spec.flag_n flags }
{
    flags / 8 % 2 == 1
}

// Is the flag Z set?
fn flag_z(flags: u128) -> bool
    ensures { result ≡ spec.flag_z flags }
{
    flags / 4 % 2 == 1
}

// Is the flag C set?
pub(crate) fn flag_c(flags: u128) -> bool
    ensures { result ≡ spec.flag_c flags }
{
    flags / 2 % 2 == 1
}

// Is the flag V set?
fn flag_v(flags: u128) -> bool
    ensures { result ≡ spec.flag_v flags }
{
    flags % 2 == 1
}

// Whether two tests say the same.
fn same(a: bool, b: bool) -> bool
    ensures { result ≡ spec.same a b }
{
    if a { b } else { !b }
}

// Whether two numbers have one sign and their sum has the other.
fn overflows(bits: u32, x: u128, y: u128, total: u128) -> bool
    requires some { 1 ≤ bits }
    requires bits { bits ≤ 64 }
    ensures { result ≡ spec.overflows bits x y total }
{
    let negative = is_negative(bits, x);
    if !same(negative, is_negative(bits, y)) {
        return false;
    }
    !same(negative, is_negative(bits, total))
}

/// The flags of a sum of two numbers of so many bits and a carry: N, Z, C and V,
/// with N the highest of four bits.
#[tactic(auto, unfolding(crate::specs::Flags::sum_flags))]
pub(crate) fn sum_flags(bits: u32, x: u128, y: u128, carry: u128) -> u128
    requires some { 1 ≤ bits }
    requires bits { bits ≤ 64 }
    requires left { x < 2 ^ 64 }
    requires right { y < 2 ^ 64 }
    requires carry { carry ≤ 1 }
    ensures { result ≡ spec.sum_flags bits x y carry }
{
    let whole = x + y + carry;
    let total = low_bits(whole, u128::from(bits));
    let carry_out = shift_right(whole, u128::from(bits)) % 2;
    let negative = one_if(is_negative(bits, total));
    let zero = one_if(total == 0);
    let overflow = one_if(overflows(bits, x, y, total));
    8 * negative + 4 * zero + 2 * carry_out + overflow
}

// Whether C is set and Z is not: higher, unsigned.
fn is_higher(flags: u128) -> bool
    ensures { result ≡ if spec.flag_c flags then not (spec.flag_z flags) else false }
{
    if flag_c(flags) { !flag_z(flags) } else { false }
}

// Whether N and V are the same: greater or equal, signed.
fn is_at_least(flags: u128) -> bool
    ensures { result ≡ spec.same (spec.flag_n flags) (spec.flag_v flags) }
{
    same(flag_n(flags), flag_v(flags))
}

// Whether N and V are the same and Z is not set: greater, signed.
fn is_greater(flags: u128) -> bool
    ensures { result ≡ if spec.same (spec.flag_n flags) (spec.flag_v flags)
        then not (spec.flag_z flags)
        else false }
{
    if is_at_least(flags) {
        !flag_z(flags)
    } else {
        false
    }
}

// Whether a condition with an even number holds, by half its number.
fn even_condition(kind: u128, flags: u128) -> bool
    ensures { result ≡ spec.even_condition kind flags }
{
    match kind {
        0 => flag_z(flags),
        1 => flag_c(flags),
        2 => flag_n(flags),
        3 => flag_v(flags),
        4 => is_higher(flags),
        5 => is_at_least(flags),
        _ => is_greater(flags),
    }
}

/// Whether the condition with a number holds: eq, ne, cs, cc, mi, pl, vs, vc, hi,
/// ls, ge, lt, gt and le, from 0 on.
#[tactic(auto, unfolding(crate::specs::Flags::condition_holds))]
pub(crate) fn condition_holds(condition: u128, flags: u128) -> bool
    ensures { result ≡ spec.condition_holds condition flags }
{
    let holds = even_condition(condition / 2, flags);
    if condition % 2 == 1 { !holds } else { holds }
}
