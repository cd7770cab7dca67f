//! The items of an instruction's spelling.
ghost use Rattle.std.specs.Prelude.{◌≡◌, ℕ, ◌^◌, ◌≤◌, ◌++◌, IfSome, IfOk, OnOk, MatchOption, None, Some, length, map};
ghost use Rattle.form_table.specs.Symbols as spelled;
ghost use Rattle.form_table.specs.Items as spec;
ghost use Rattle.form_table.specs.ItemViews.{lexemes, item_value, found_value, Finds};
ghost use Rattle.sl_text.specs.Tokens.{token_value};
ghost use Rattle.sl_isa.specs.SymbolViews.{pairs};

use crate::numerals::number_value;
use crate::rows::Letter;
use crate::symbols::{letter_bank, symbol_at};
use sl_base::NoMemory;
use sl_isa::Symbols;
use sl_text::{Token, TokenKind};
use std::alloc::Global;

/// An item of an instruction's spelling.
#[derive(Clone, Copy)]
pub enum Item<'a> {
    /// A blank that counts.
    Gap,
    /// A mark, by its code.
    Mark(u8),
    /// A word, or a number's text that is no number.
    Word(&'a str),
    /// A symbolic register, by its letter and its number.
    Symbol(Letter, u16),
    /// A number with its sign, and 2^32 where it is greater.
    Number(i64),
}

// A number with the tokens before it that belong to it.
#[derive(Clone, Copy)]
struct Found {
    // How many tokens they are.
    count: usize,
    negative: bool,
    value: u64,
}

// Whether blanks are free beside a token.
fn is_free(token: &Token<'_>) -> bool
    ensures { result ≡ spec.is_free (token_value token.now) }
{
    match token.kind {
        TokenKind::Mark => {
            let code = token.code();
            (code == b',' || code == b'[') || (code == b']' || code == b'!')
        }
        _ => false,
    }
}

// Whether a blank that counts stands between two tokens.
fn is_apart(before: &Token<'_>, token: &Token<'_>) -> bool
    ensures { result ≡ spec.is_apart (token_value before.now) (token_value token.now) }
{
    if token.touches(before) {
        return false;
    }
    if is_free(before) {
        return false;
    }
    !is_free(token)
}

// Whether the first of some tokens stands directly behind a token.
fn is_attached(before: &Token<'_>, tokens: &[Token<'_>]) -> Option<()>
    ensures { MatchOption result
        (spec.attached (token_value before.now) (lexemes tokens.now) ≡ None)
        (λ u. spec.attached (token_value before.now) (lexemes tokens.now)
        ≡ Some (lexemes tokens.now)) }
{
    let (token, _) = tokens.split_first()?;
    if token.touches(before) {
        return Some(());
    }
    None
}

// A number without sign that tokens begin with.
#[tactic(auto, unfolding(crate::specs::Items::plain_number))]
fn plain_number(tokens: &[Token<'_>]) -> Option<Found>
    ensures value { Finds result (spec.plain_number (lexemes tokens.now)) }
    ensures small { IfSome result (λ f. (f.value ≤ 2 ^ 32) × (1 ≤ f.count) × (f.count ≤ 1)) }
{
    let (token, _) = tokens.split_first()?;
    if token.kind != TokenKind::Number {
        return None;
    }
    let value = number_value(token.text.as_bytes())?;
    Some(Found {
        count: 1,
        negative: false,
        value,
    })
}

// A number with its sign.
#[tactic(auto, unfolding(crate::specs::Items::signed_number))]
fn signed_number(tokens: &[Token<'_>]) -> Option<Found>
    ensures value { Finds result (spec.signed_number (lexemes tokens.now)) }
    ensures small { IfSome result (λ f. (f.value ≤ 2 ^ 32) × (1 ≤ f.count) × (f.count ≤ 2)) }
{
    let (token, rest) = tokens.split_first()?;
    if !token.is_mark(b'-') {
        return plain_number(tokens);
    }
    is_attached(token, rest)?;
    let found = plain_number(rest)?;
    Some(Found {
        count: 2,
        negative: true,
        value: found.value,
    })
}

// A number that may have `#` before it.
#[tactic(auto, unfolding(crate::specs::Items::found_number))]
fn found_number(tokens: &[Token<'_>]) -> Option<Found>
    ensures value { Finds result (spec.found_number (lexemes tokens.now)) }
    ensures small { IfSome result (λ f. (f.value ≤ 2 ^ 32) × (1 ≤ f.count) × (f.count ≤ 3)) }
{
    let (token, rest) = tokens.split_first()?;
    if !token.is_mark(b'#') {
        return signed_number(tokens);
    }
    is_attached(token, rest)?;
    let found = signed_number(rest)?;
    Some(Found {
        count: found.count + 1,
        negative: found.negative,
        value: found.value,
    })
}

// The number that was found.
fn signed_value(found: Found) -> i64
    requires { found.value ≤ 2 ^ 32 }
    ensures { result ≡ spec.signed_value (found_value found) }
{
    let value = found.value as i64;
    if found.negative {
        return 0 - value;
    }
    value
}

// The item of a token that begins no number.
fn token_item<'a>(token: &Token<'a>) -> Item<'a>
    ensures { item_value result ≡ spec.token_item (token_value token.now) }
{
    match token.kind {
        TokenKind::Word => Item::Word(token.text),
        TokenKind::Number => Item::Word(token.text),
        _ => Item::Mark(token.code()),
    }
}

// The symbolic register that tokens begin with, as an item, if it has a number.
fn symbol_item<'a>(tokens: &[Token<'a>], symbols: &Symbols) -> Option<Item<'a>>
    requires { length (pairs symbols.now) ≤ 65536 }
    ensures { MatchOption result
        ((other : spec.Item × ℕ)
        → spec.symbol_or (pairs symbols.now) (spelled.symbol_at (lexemes tokens.now)) other ≡ other)
        (λ item. (other : spec.Item × ℕ)
        → spec.symbol_or (pairs symbols.now) (spelled.symbol_at (lexemes tokens.now)) other
        ≡ (item_value item, 4)) }
{
    let symbol = symbol_at(tokens)?;
    let number = symbols.known(letter_bank(symbol.letter), symbol.name)?;
    Some(Item::Symbol(symbol.letter, number))
}

// The item that tokens begin with which is no symbolic register, and how many tokens it is.
fn plain_item<'a>(token: &Token<'a>, tokens: &[Token<'a>]) -> (Item<'a>, usize)
    ensures item { item_value result.0
        ≡ (spec.item_or (spec.found_number (lexemes tokens.now)) (token_value token.now)).0 }
    ensures count { result.1
        ≡ (spec.item_or (spec.found_number (lexemes tokens.now)) (token_value token.now)).1 }
    ensures some { 1 ≤ result.1 }
{
    let Some(found) = found_number(tokens) else {
        return (token_item(token), 1);
    };
    (Item::Number(signed_value(found)), found.count)
}

// The item that tokens begin with, and how many tokens it is.
#[tactic(auto, unfolding(crate::specs::Items::first_item))]
fn first_item<'a>(tokens: &[Token<'a>], symbols: &Symbols) -> (Item<'a>, usize)
    requires { length (pairs symbols.now) ≤ 65536 }
    ensures item { item_value result.0
        ≡ (spec.first_item (pairs symbols.now) (lexemes tokens.now)).0 }
    ensures count { result.1 ≡ (spec.first_item (pairs symbols.now) (lexemes tokens.now)).1 }
    ensures some { 1 ≤ result.1 }
{
    let Some((token, _)) = tokens.split_first() else {
        return (Item::Gap, 1);
    };
    if let Some(item) = symbol_item(tokens, symbols) {
        return (item, 4);
    }
    plain_item(token, tokens)
}

// Adds an item, with a blank before it where one counts. After `NoMemory` some of it may be there.
fn push_item<'a>(items: &mut Vec<Item<'a>>, apart: bool, item: Item<'a>) -> Result<(), NoMemory>
    ensures { OnOk result
        (map item_value items.new.items
        ≡ map item_value items.old.items ++ spec.behind_blank apart (item_value item.entry)) }
{
    if apart && items.push(Item::Gap).is_err() {
        return Err(NoMemory);
    }
    if items.push(item).is_err() {
        return Err(NoMemory);
    }
    Ok(())
}

// Adds what the first of some tokens adds to the items, where `taken` tokens belong to the item
// before; says how many tokens behind it belong to the same item.
fn push_first<'a>(
    items: &mut Vec<Item<'a>>,
    before: &Token<'a>,
    taken: usize,
    tokens: &[Token<'a>],
    symbols: &Symbols,
) -> Result<usize, NoMemory>
    requires { length (pairs symbols.now) ≤ 65536 }
    ensures items { OnOk result
        (map item_value items.new.items
        ≡ map item_value items.old.items
        ++ spec.items_at (pairs symbols.now) (token_value before.now) taken
        (lexemes tokens.now)) }
    ensures behind { IfOk result
        (λ left. left ≡ spec.taken_behind (pairs symbols.now) taken (lexemes tokens.now)) }
{
    if taken > 0 {
        return Ok(taken - 1);
    }
    let (item, count) = first_item(tokens, symbols);
    let Some((token, _)) = tokens.split_first() else {
        return Ok(count - 1);
    };
    push_item(items, is_apart(before, token), item)?;
    Ok(count - 1)
}

/// The items of the tokens that stand behind a token of their line. The tokens hold no comments.
/// Symbolic registers have the numbers of their names.
#[tactic(auto, unfolding(crate::specs::Items::items_from))]
pub fn items<'a>(
    alloc: Global,
    first: &Token<'a>,
    tokens: &[Token<'a>],
    symbols: &Symbols,
) -> Result<Vec<Item<'a>>, NoMemory>
    requires { length (pairs symbols.now) ≤ 65536 }
    ensures { IfOk result
        (λ v. map item_value v.items
        ≡ spec.items_from (pairs symbols.now) (token_value first.now) 0 (lexemes tokens.now)) }
{
    let mut items = Vec::new(alloc);
    let mut before = *first;
    let mut taken = 0;
    for (place, token) in tokens.iter().enumerate() {
        taken = push_first(&mut items, &before, taken, &tokens[place..], symbols)?;
        before = *token;
    }
    Ok(items)
}
