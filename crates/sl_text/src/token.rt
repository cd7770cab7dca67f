//! A token, and the tokens of a line.
ghost use Rattle.std.specs.Prelude.{◌+◌, ◌<◌, ◌^◌, length};

use crate::scan::{blanks_before, leaves_open, next_token};
use sl_model::text::{Comments, TokenKind};

/// A token of a line.
#[derive(Clone, Copy, Debug, PartialEq, Eq)]
pub struct Token<'a> {
    /// What the token is.
    pub kind: TokenKind,
    /// The token's text.
    pub text: &'a str,
    /// Its place: the number of bytes before it on its line.
    pub start: u32,
}

impl Token<'_> {
    ghost use Rattle.std.specs.Prelude.{◌≡◌};
    ghost use Rattle.sl_model.specs.TokenTests as tests;
    ghost use Rattle.sl_text.specs.Tokens.{token_value};

    /// Is it a word?
    pub fn is_word(&self) -> bool
        ensures { result ≡ tests.is_word self.now.kind }
    {
        self.kind == TokenKind::Word
    }

    /// Is it a comment?
    pub fn is_comment(&self) -> bool
        ensures { result ≡ tests.is_comment self.now.kind }
    {
        self.kind == TokenKind::Comment
    }

    /// Its first byte, which is the code of a mark of ASCII; 0 where it has no text.
    pub fn code(&self) -> u8
        ensures { result ≡ tests.code_of (token_value self.now) }
    {
        let bytes = self.text.as_bytes();
        if bytes.is_empty() {
            return 0;
        }
        bytes[0]
    }

    /// Is it the mark with a code?
    pub fn is_mark(&self, code: u8) -> bool
        ensures { result ≡ tests.marks code (token_value self.now) }
    {
        match self.kind {
            TokenKind::Mark => self.code() == code,
            _ => false,
        }
    }

    /// Does it stand directly behind another token of its line, with no blank between?
    pub fn touches(&self, before: &Token<'_>) -> bool
        ensures { result ≡ tests.touches (token_value before.now) (token_value self.now) }
    {
        self.start as usize <= before.start as usize + before.text.len()
    }
}

/// The tokens of a line, made by [`tokens`](crate::tokens).
#[derive(Clone, Copy, Debug)]
pub struct Tokens<'a> {
    pub(crate) rest: &'a str,
    pub(crate) start: u32,
    pub(crate) comments: Comments,
    pub(crate) inside: bool,
    ghost places_fit: { start + length rest.now < 2 ^ 32 },
}

impl<'a> Tokens<'a> {
    ghost use Rattle.std.specs.Prelude.{◌≡◌};
    ghost use Rattle.sl_text.specs.Tokens.{is_inside};

    /// Whether a block comment is open behind the last token given; before the first one, what
    /// [`tokens`](crate::tokens) was told.
    pub fn still_inside(&self) -> bool
        ensures { result ≡ is_inside self.now }
    {
        self.inside
    }
}

impl<'a> Iterator for Tokens<'a> {
    ghost use Rattle.std.specs.Iterator.{item_count};
    ghost use Rattle.sl_text.specs.Tokens.{GivesToken, tokens_left};

    type Item = Token<'a>;

    ghost next_gives = { GivesToken };

    ghost remaining = { item_count tokens_left };

    fn next(&mut self) -> Option<Token<'a>> {
        let blanks = blanks_before(self.rest, self.inside);
        let rest = &self.rest[blanks..];
        let (kind, length) = next_token(rest, self.comments, self.inside)?;
        let text = &rest[..length];
        let start = self.start + blanks as u32;
        self.rest = &rest[length..];
        self.start = start + length as u32;
        self.inside = leaves_open(text, self.inside);
        Some(Token { kind, text, start })
    }
}
