//! Numbers in hexadecimal digits.
ghost use Rattle.std.specs.Prelude.{◌≡◌, ◌+◌, ◌≤◌, MatchOption, IfSome, None, Some, option_and_then};
ghost use Rattle.sl_model.specs.Digits.{some_digits};
ghost use Rattle.state_text.specs.StateText as spec;

use sl_text::Numeral;
use sl_text::digits::some_digits_value;

/// The text behind a word, if it begins with the word.
#[tactic(auto, unfolding(crate::specs::StateText::behind))]
pub fn behind<'a>(word: &[u8], text: &'a [u8]) -> Option<&'a [u8]>
    ensures { MatchOption result (spec.behind word.now text.now ≡ None)
        (λ rest. spec.behind word.now text.now ≡ Some rest.now) }
{
    text.strip_prefix(word)
}

// The number of digits, at most `largest`.
fn read_digits(largest: u128, digits: &[u8]) -> Option<u128>
    ensures value { result
        ≡ option_and_then (spec.below (largest + 1)) (some_digits 16 digits.now) }
    ensures within { IfSome result (λ number. number ≤ largest) }
{
    match some_digits_value(16, largest, digits) {
        Numeral::Number(number) => Some(number),
        Numeral::TooGreat => None,
        Numeral::Nothing => None,
    }
}

/// The number behind `0x`, at most `largest`.
#[tactic(auto, unfolding(crate::specs::StateText::number_below))]
pub fn read_number(largest: u128, text: &[u8]) -> Option<u128>
    ensures value { result ≡ spec.number_below (largest + 1) text.now }
    ensures within { IfSome result (λ number. number ≤ largest) }
{
    let digits = behind(b"0x", text)?;
    read_digits(largest, digits)
}
