//! The keys that refusals name, as texts.
ghost use Rattle.std.specs.Prelude.{◌≡◌, ℕ, List, string_bytes};

use std::marker::Model;

/// The key that a refusal names, as a text: `class.load.busy`, `forward.0.operand`; empty where
/// the document itself is refused.
#[derive(Drop)]
pub struct KeyText {
    text: String,
}

impl Model for KeyText {
    ghost Value = { List ℕ };

    ghost view = { λ key. string_bytes key.text };
}

impl KeyText {
    /// A key of a text.
    pub(crate) fn new(text: String) -> KeyText
        ensures { result ≡ string_bytes text }
    {
        KeyText { text }
    }

    /// The text.
    pub fn text(&self) -> &str
        ensures { result.now ≡ self.now }
    {
        self.text.as_str()
    }
}
