//! Numbers by their digits.
ghost use Rattle.std.specs.Prelude.{◌≡◌, ℕ, ◌+◌, ◌*◌, ◌<◌, ◌≤◌, IfSome};
ghost use Rattle.sl_model.specs.Digits as spec;
ghost use Rattle.sl_text.specs.Numerals.{numeral_of, IsUpTo};

/// The number that a text spells, beside the most that is asked for.
#[derive(Clone, Copy, Debug, PartialEq, Eq)]
pub enum Numeral {
    /// It spells none.
    Nothing,
    /// It spells one above the most.
    TooGreat,
    /// It spells this number.
    Number(u128),
}

/// The value of a digit of a radix of at most 16; letters are of either case.
pub fn digit_of(radix: u8, c: u8) -> Option<u8>
    requires { radix ≤ 16 }
    ensures value { result ≡ spec.digit_of radix c }
    ensures small { IfSome result (λ digit. digit < radix) }
{
    let digit = match c {
        b'0'..=b'9' => c - b'0',
        b'A'..=b'F' => c - b'A' + 10,
        b'a'..=b'f' => c - b'a' + 10,
        _ => return None,
    };
    if digit < radix {
        return Some(digit);
    }
    None
}

// A number with one digit more: none where it is above the most.
fn with_digit(radix: u8, most: u128, number: Option<u128>, digit: u8) -> Option<u128>
    requires { 1 ≤ radix }
    ensures { (value : ℕ) → IsUpTo most number value → IsUpTo most result (radix * value + digit) }
{
    let front = u128::from(radix).checked_mul(number?)?;
    let number = front.checked_add(u128::from(digit))?;
    if most < number {
        return None;
    }
    Some(number)
}

/// The number that digits of a radix from 1 to 16 are; no digits are 0.
pub fn digits_value(radix: u8, most: u128, text: &[u8]) -> Numeral
    requires some { 1 ≤ radix }
    requires few { radix ≤ 16 }
    ensures { result ≡ numeral_of most (spec.digits_number radix text.now) }
{
    let mut number = Some(0);
    for c in text {
        let Some(digit) = digit_of(radix, *c) else {
            return Numeral::Nothing;
        };
        number = with_digit(radix, most, number, digit);
    }
    match number {
        Some(number) => Numeral::Number(number),
        None => Numeral::TooGreat,
    }
}

/// The number that digits are, of which there is at least one.
pub fn some_digits_value(radix: u8, most: u128, text: &[u8]) -> Numeral
    requires some { 1 ≤ radix }
    requires few { radix ≤ 16 }
    ensures { result ≡ numeral_of most (spec.some_digits radix text.now) }
{
    if text.is_empty() {
        return Numeral::Nothing;
    }
    digits_value(radix, most, text)
}

/// A decimal number without needless zeros.
#[tactic(auto, unfolding(sl_model::specs::Digits::decimal_number))]
pub fn decimal_value(most: u128, text: &[u8]) -> Numeral
    ensures { result ≡ numeral_of most (spec.decimal_number text.now) }
{
    let Some((c, rest)) = text.split_first() else {
        return Numeral::Nothing;
    };
    if *c != b'0' {
        return digits_value(10, most, text);
    }
    if rest.is_empty() {
        return Numeral::Number(0);
    }
    Numeral::Nothing
}

/// A decimal number without needless zeros, or a hexadecimal one behind `0x`.
#[tactic(auto, unfolding(sl_model::specs::Digits::spelled_number))]
pub fn number_value(most: u128, text: &[u8]) -> Numeral
    ensures { result ≡ numeral_of most (spec.spelled_number text.now) }
{
    let Some((first, rest)) = text.split_first() else {
        return Numeral::Nothing;
    };
    let Some((second, digits)) = rest.split_first() else {
        return decimal_value(most, text);
    };
    if *first == b'0' && (*second == b'x' || *second == b'X') {
        return some_digits_value(16, most, digits);
    }
    decimal_value(most, text)
}
