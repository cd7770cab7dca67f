//! Words that are kept.
ghost use Rattle.std.specs.Prelude.{◌≡◌, ℕ, List, string_bytes, IfOk};

use sl_base::NoMemory;
use std::alloc::Global;
use std::marker::Model;

/// A text from the command line: the name of a file, or a label.
#[derive(Drop)]
pub struct WordText {
    text: String,
}

impl Model for WordText {
    ghost Value = { List ℕ };

    ghost view = { λ word. string_bytes word.text };
}

impl WordText {
    /// A copy of a text.
    pub fn new(alloc: Global, text: &str) -> Result<WordText, NoMemory>
        ensures { IfOk result (λ word. word ≡ text.now) }
    {
        let text = String::from_str(alloc, text)?;
        Ok(WordText { text })
    }

    /// The text.
    pub fn text(&self) -> &str
        ensures { result.now ≡ self.now }
    {
        self.text.as_str()
    }
}
