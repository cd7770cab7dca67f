//! Numbers as instructions spell them.
ghost use Rattle.std.specs.Prelude.{◌≡◌, ◌^◌, ◌≤◌, ℕ, IfSome, option_map};
ghost use Rattle.std.specs.declared.option.Option.{Option};
ghost use Rattle.sl_text.specs.Numerals.{numeral_of};
ghost use Rattle.form_table.specs.Numerals as spec;

use sl_text::Numeral;

// No instruction takes a number of 2^32 or more: they all count as 2^32.
const TOO_GREAT: u64 = 1 << 32;

// A number that was found, and 2^32 where it is greater.
fn capped(numeral: Numeral) -> Option<u64>
    ensures value { (n : Option ℕ) → numeral ≡ numeral_of (2 ^ 32) n
        → result ≡ option_map spec.capped n }
    ensures small { IfSome result (λ n. n ≤ 2 ^ 32) }
{
    match numeral {
        Numeral::Nothing => None,
        Numeral::TooGreat => Some(TOO_GREAT),
        Numeral::Number(n) => {
            if n < u128::from(TOO_GREAT) {
                return Some(n as u64);
            }
            Some(TOO_GREAT)
        }
    }
}

/// The value of a decimal number without needless zeros: none where the text is no such number, and
/// 2^32 where it is greater than this.
#[tactic(auto, unfolding(crate::specs::Numerals::decimal_value))]
pub fn decimal_value(text: &[u8]) -> Option<u64>
    ensures value { result ≡ spec.decimal_value text.now }
    ensures small { IfSome result (λ n. n ≤ 2 ^ 32) }
{
    capped(sl_text::decimal_value(u128::from(TOO_GREAT), text))
}

/// The value of a decimal number, or of a hexadecimal one behind `0x`: none where the text is
/// neither, and 2^32 where it is greater than this.
#[tactic(auto, unfolding(crate::specs::Numerals::number_value))]
pub fn number_value(text: &[u8]) -> Option<u64>
    ensures value { result ≡ spec.number_value text.now }
    ensures small { IfSome result (λ n. n ≤ 2 ^ 32) }
{
    capped(sl_text::number_value(u128::from(TOO_GREAT), text))
}
