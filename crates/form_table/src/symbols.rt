//! Symbolic registers as tokens spell them: a letter of registers, and directly behind it a word in
//! angle brackets, its name.
ghost use Rattle.std.specs.Prelude.{◌≡◌, ◌≤◌, ◌+◌, IfOk, OnOk, MatchOption, None, Some, length, take};
ghost use Rattle.sl_model.specs.Token as words;
ghost use Rattle.sl_text.specs.Tokens.{token_value};
ghost use Rattle.sl_isa.specs.Symbols.{with_pairs};
ghost use Rattle.sl_isa.specs.SymbolViews.{pairs};
ghost use Rattle.form_table.specs.ItemViews.{lexemes, FindsSymbol};
ghost use Rattle.form_table.specs.Symbols as spec;

use crate::rows::Letter;
use sl_base::NoMemory;
use sl_isa::{Bank, Symbols};
use sl_text::{Token, are_word_bytes};
use std::alloc::Global;

/// A symbolic register: its letter and its name.
#[derive(Clone, Copy)]
pub struct Symbol<'a> {
    pub letter: Letter,
    pub name: &'a str,
}

/// The letter itself, in lower case.
pub fn letter_code(letter: Letter) -> u8
    ensures { result ≡ spec.letter_code letter }
{
    match letter {
        Letter::X => b'x',
        Letter::W => b'w',
        Letter::V => b'v',
        Letter::Q => b'q',
        Letter::D => b'd',
        Letter::S => b's',
        Letter::R => b'r',
    }
}

/// The bank of the registers that are spelled with a letter.
pub fn letter_bank(letter: Letter) -> Bank
    ensures { result ≡ spec.letter_bank letter }
{
    match letter {
        Letter::X | Letter::W | Letter::R => Bank::General,
        Letter::V | Letter::Q | Letter::D | Letter::S => Bank::Vector,
    }
}

// The letter with a code.
#[tactic(auto, unfolding(crate::specs::Symbols::letter_with))]
fn letter_with(code: u8) -> Option<Letter>
    ensures { result ≡ spec.letter_with code }
{
    match code {
        b'x' => Some(Letter::X),
        b'w' => Some(Letter::W),
        b'v' => Some(Letter::V),
        b'q' => Some(Letter::Q),
        b'd' => Some(Letter::D),
        b's' => Some(Letter::S),
        b'r' => Some(Letter::R),
        _ => None,
    }
}

// The letter that a text is, in either case.
#[tactic(auto, unfolding(crate::specs::Symbols::letter_of))]
fn letter_of(text: &[u8]) -> Option<Letter>
    ensures { result ≡ spec.letter_of text.now }
{
    let (code, rest) = text.split_first()?;
    if rest.is_empty() {
        return letter_with(code.to_ascii_lowercase());
    }
    None
}

// Whether a byte begins a word.
fn begins_word(byte: u8) -> bool
    ensures { result ≡ words.begins_word byte }
{
    byte.is_ascii_alphabetic() || byte == b'_'
}

// Whether a text is a word.
fn is_word_text(text: &[u8]) -> bool
    ensures { result ≡ spec.is_word_text text.now }
{
    let Some((first, rest)) = text.split_first() else {
        return false;
    };
    if begins_word(*first) {
        return are_word_bytes(rest);
    }
    false
}

// A name, if a `>` stands directly behind it.
#[tactic(auto, unfolding(crate::specs::Symbols::closed_name))]
fn closed_name<'a>(name: &Token<'a>, tokens: &[Token<'a>]) -> Option<&'a str>
    ensures { MatchOption result (spec.closed_name (token_value name.now) (lexemes tokens.now) ≡ None)
        (λ text. spec.closed_name (token_value name.now) (lexemes tokens.now) ≡ Some text.now) }
{
    let (closing, _) = tokens.split_first()?;
    if !closing.is_mark(b'>') {
        return None;
    }
    if closing.touches(name) {
        return Some(name.text);
    }
    None
}

// The name directly behind a `<`.
#[tactic(auto, unfolding(crate::specs::Symbols::opened_name))]
fn opened_name<'a>(opening: &Token<'a>, tokens: &[Token<'a>]) -> Option<&'a str>
    ensures { MatchOption result (spec.opened_name (token_value opening.now) (lexemes tokens.now) ≡ None)
        (λ text. spec.opened_name (token_value opening.now) (lexemes tokens.now) ≡ Some text.now) }
{
    let (name, tokens) = tokens.split_first()?;
    if !is_word_text(name.text.as_bytes()) {
        return None;
    }
    if name.touches(opening) {
        return closed_name(name, tokens);
    }
    None
}

// The name in angle brackets that stands directly behind a token.
#[tactic(auto, unfolding(crate::specs::Symbols::bracketed))]
fn bracketed<'a>(before: &Token<'a>, tokens: &[Token<'a>]) -> Option<&'a str>
    ensures { MatchOption result (spec.bracketed (token_value before.now) (lexemes tokens.now) ≡ None)
        (λ text. spec.bracketed (token_value before.now) (lexemes tokens.now) ≡ Some text.now) }
{
    let (opening, tokens) = tokens.split_first()?;
    if !opening.is_mark(b'<') {
        return None;
    }
    if opening.touches(before) {
        return opened_name(opening, tokens);
    }
    None
}

/// The symbolic register that tokens begin with.
#[tactic(auto, unfolding(crate::specs::Symbols::symbol_at))]
pub fn symbol_at<'a>(tokens: &[Token<'a>]) -> Option<Symbol<'a>>
    ensures { FindsSymbol result (spec.symbol_at (lexemes tokens.now)) }
{
    let (token, tokens) = tokens.split_first()?;
    if !token.is_word() {
        return None;
    }
    let letter = letter_of(token.text.as_bytes())?;
    let name = bracketed(token, tokens)?;
    Some(Symbol { letter, name })
}

// How many symbolic registers tokens begin with: one or none.
fn first_count(tokens: &[Token<'_>]) -> usize
    ensures count { result ≡ length (spec.first_pairs (lexemes tokens.now)) }
    ensures few { result ≤ 1 }
{
    usize::from(symbol_at(tokens).is_some())
}

/// How many symbolic registers stand among tokens.
#[tactic(auto, unfolding(crate::specs::Symbols::pairs_from), using(crate::proofs::Numbering::pairs_at_count))]
pub fn symbol_count(tokens: &[Token<'_>]) -> usize
    ensures { result ≡ length (spec.pairs_from (lexemes tokens.now)) }
{
    let mut count = 0;
    for place in 0..tokens.len() {
        count += first_count(&tokens[place..]);
    }
    count
}

// Numbers the pair of the symbolic register that tokens begin with, if there is one.
// After `NoMemory` nothing has changed.
#[tactic(auto, unfolding(sl_isa::specs::Symbols::with_pairs))]
fn number_first(alloc: Global, tokens: &[Token<'_>], symbols: &mut Symbols) -> Result<(), NoMemory>
    requires { length (pairs symbols.old) + length (spec.first_pairs (lexemes tokens.now)) ≤ 65536 }
    ensures ok { OnOk result
        (pairs symbols.new
        ≡ with_pairs (pairs symbols.old) (spec.first_pairs (lexemes tokens.now))) }
    ensures front { take (length (pairs symbols.old)) (pairs symbols.new) ≡ pairs symbols.old }
    ensures count { length (pairs symbols.new)
        ≤ length (pairs symbols.old) + length (spec.first_pairs (lexemes tokens.now)) }
{
    let Some(symbol) = symbol_at(tokens) else {
        return Ok(());
    };
    symbols.number(alloc, letter_bank(symbol.letter), symbol.name)?;
    Ok(())
}

/// Numbers the pairs of all symbolic registers among tokens. Where memory runs out, a part of
/// them may be numbered.
#[tactic(auto, unfolding(crate::specs::Symbols::pairs_from), using(crate::proofs::Numbering::pairs_at, crate::proofs::Numbering::pairs_at_count, crate::proofs::Numbering::with_pairs_append, crate::proofs::Numbering::take_front))]
pub fn number_all(
    alloc: Global,
    tokens: &[Token<'_>],
    symbols: &mut Symbols,
) -> Result<(), NoMemory>
    requires { length (pairs symbols.old) + length (spec.pairs_from (lexemes tokens.now)) ≤ 65536 }
    ensures ok { OnOk result
        (pairs symbols.new
        ≡ with_pairs (pairs symbols.old) (spec.pairs_from (lexemes tokens.now))) }
    ensures front { take (length (pairs symbols.old)) (pairs symbols.new) ≡ pairs symbols.old }
    ensures count { length (pairs symbols.new)
        ≤ length (pairs symbols.old) + length (spec.pairs_from (lexemes tokens.now)) }
{
    for place in 0..tokens.len() {
        number_first(alloc, &tokens[place..], symbols)?;
    }
    Ok(())
}
