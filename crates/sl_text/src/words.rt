//! Texts of letters, digits and `_`.
ghost use Rattle.std.specs.Prelude.{◌≡◌};
ghost use Rattle.std.specs.List.{list_all};
ghost use Rattle.sl_model.specs.Token as spec;

/// Whether a byte may stand in a word: a letter, a digit or `_`.
pub fn is_word_byte(byte: u8) -> bool
    ensures { result ≡ spec.is_word_byte byte }
{
    byte.is_ascii_alphanumeric() || byte == b'_'
}

/// Whether a text has letters, digits and `_` alone.
pub fn are_word_bytes(text: &[u8]) -> bool
    ensures { result ≡ list_all spec.is_word_byte text.now }
{
    text.iter().all(|byte| is_word_byte(*byte))
}

/// Whether a text is the name of a unit: a letter, then letters, digits or `_`, and at most 16
/// bytes in all.
pub fn is_unit_name(text: &[u8]) -> bool
    ensures { result ≡ spec.is_unit_name text.now }
{
    let Some((first, rest)) = text.split_first() else {
        return false;
    };
    if !first.is_ascii_alphabetic() {
        return false;
    }
    if !are_word_bytes(rest) {
        return false;
    }
    rest.len() < 16
}
