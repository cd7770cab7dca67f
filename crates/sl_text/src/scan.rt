//! The tokens of a line, one by one.
ghost use Rattle.std.specs.Prelude.{◌≡◌, ◌+◌, ◌<◌, ◌≤◌, ◌^◌, [], length, MatchOption, IfSome, IsUtf8, IsCharBoundary, All};
ghost use Rattle.std.specs.Char.{is_ascii_alphanumeric};
ghost use Rattle.std.specs.List.{prefix_len};
ghost use Rattle.sl_model.specs.Text.{is_blank};
ghost use Rattle.sl_model.specs.Token as spec;
ghost use Rattle.sl_text.specs.Tokens.{tokens_left, is_inside, blanks_before, IsFirst};

use crate::line::Line;
use crate::text::holds;
use crate::token::Tokens;
use crate::words::is_word_byte;
use sl_model::text::{Comments, TokenKind};

/// The tokens of a line; `inside` says that a block comment was begun above.
#[tactic(auto, unfolding(crate::specs::Tokens::tokens_left))]
pub fn tokens<'a>(line: Line<'a>, comments: Comments, inside: bool) -> Tokens<'a>
    requires { length line.text.now < 2 ^ 31 }
    ensures all { tokens_left result ≡ spec.tokens comments inside line.entry.text.now }
    ensures state { is_inside result ≡ inside }
    ensures count { length (tokens_left result) ≤ length line.entry.text.now }
    ensures within { All (λ token. token.start + length token.text ≤ length line.entry.text.now)
        (tokens_left result) }
{
    Tokens {
        rest: line.text,
        start: 0,
        comments,
        inside,
    }
}

// Whether a character begins a word.
fn begins_word(first: char) -> bool
    ensures { result ≡ spec.begins_word first }
{
    first.is_ascii_alphabetic() || first == '_'
}

// The number of word bytes at the start of a text.
fn word_length(text: &[u8]) -> usize
    ensures { result ≡ prefix_len spec.is_word_byte text.now }
{
    text.iter().take_while(|byte| is_word_byte(**byte)).count()
}

// The number of letters and digits at the start of a text.
fn number_length(text: &[u8]) -> usize
    ensures { result ≡ prefix_len is_ascii_alphanumeric text.now }
{
    text.iter()
        .take_while(|byte| byte.is_ascii_alphanumeric())
        .count()
}

// The number of blanks at the start of a text.
fn blank_length(text: &[u8]) -> usize
    ensures { result ≡ prefix_len is_blank text.now }
{
    text.iter()
        .take_while(|byte| matches!(**byte, b' ' | b'\t'))
        .count()
}

/// The number of blanks before the next token of a text, where `inside` says that a block comment
/// is open before it: a blank belongs to the comment.
pub fn blanks_before(text: &str, inside: bool) -> usize
    ensures value { result ≡ blanks_before inside text.now }
    ensures boundary { IsCharBoundary text.now result }
{
    if inside {
        return 0;
    }
    blank_length(text.as_bytes())
}

// The number of bytes of a block comment that is open at the start of a text.
fn comment_length(text: &[u8]) -> usize
    ensures value { result ≡ spec.comment_length text.now }
    ensures within { result ≤ length text.now }
{
    for place in 0..text.len() {
        if text[place..].starts_with(b"*/") {
            return place + 2;
        }
    }
    text.len()
}

// Whether a text begins with a comment to the line's end.
fn begins_line_comment(text: &[u8], comments: Comments) -> bool
    ensures { result ≡ spec.begins_line_comment comments text.now }
{
    match comments {
        Comments::Slash => text.starts_with(b"//"),
        Comments::SlashAt => text.starts_with(b"//") || text.starts_with(b"@"),
        Comments::Taken => false,
    }
}

// Whether a text begins with a block comment.
fn begins_block_comment(text: &[u8], comments: Comments) -> bool
    ensures { result ≡ spec.begins_block_comment comments text.now }
{
    match comments {
        Comments::Slash => text.starts_with(b"/*"),
        Comments::SlashAt => text.starts_with(b"/*"),
        Comments::Taken => false,
    }
}

// The first character of a text.
fn first_char(text: &str) -> Option<char>
    ensures { MatchOption result (text.now ≡ [])
        (λ first. (first ≡ spec.first_char text.now) × (0 < length text.now)) }
{
    text.chars().next()
}

// The kind and the length of the token that a text begins with, whose first character is no blank.
#[tactic(auto, unfolding(sl_model::specs::Token::first_token))]
fn first_token(text: &[u8], first: char, comments: Comments) -> (TokenKind, usize)
    requires { first ≡ spec.first_char text.now }
    ensures { result ≡ spec.first_token comments text.now }
{
    if begins_block_comment(text, comments) {
        return (TokenKind::Comment, comment_length(&text[2..]) + 2);
    }
    if begins_line_comment(text, comments) {
        return (TokenKind::Comment, text.len());
    }
    if begins_word(first) {
        return (TokenKind::Word, word_length(text));
    }
    if first.is_ascii_digit() {
        return (TokenKind::Number, number_length(text));
    }
    (TokenKind::Mark, first.len_utf8())
}

/// The kind and the length of the token that a text begins with, where `inside` says that a block
/// comment is open before it, and else it does not begin with a blank.
pub fn next_token(text: &str, comments: Comments, inside: bool) -> Option<(TokenKind, usize)>
    ensures found { MatchOption result (text.now ≡ [])
        (λ found. IsFirst comments inside text.now found) }
    ensures boundary { IfSome result (λ found. IsCharBoundary text.now found.1) }
{
    let first = first_char(text)?;
    if inside {
        return Some((TokenKind::Comment, comment_length(text.as_bytes())));
    }
    Some(first_token(text.as_bytes(), first, comments))
}

/// Whether a block comment is open behind a token, where `inside` says that one was open before it.
pub fn leaves_open(token: &str, inside: bool) -> bool
    ensures { result ≡ spec.leaves_open inside token.now }
{
    if inside {
        return !holds(token, "*/");
    }
    token.starts_with("/*") && !holds(&token[2..], "*/")
}
