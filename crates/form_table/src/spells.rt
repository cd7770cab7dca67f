//! What the operands of a row hold where its slots take the items of a line.
ghost use Rattle.std.specs.Prelude.{◌≡◌, ◌<◌, length, map, IfSome, MatchOption};
ghost use Rattle.form_table.specs.ItemViews.{item_value};
ghost use Rattle.form_table.specs.Rows.{slots_of};
ghost use Rattle.form_table.specs.Spells as spec;
ghost use Rattle.form_table.specs.SpellViews.{ReadsTaken};

use crate::items::Item;
use crate::numerals::decimal_value;
use crate::rows::{Letter, Row, Shape, Slot, slots_of};
use crate::symbols::{letter_bank, letter_code};
use sl_isa::{Bank, Reg};

/// What stands in an operand's place: its register and its number.
#[derive(Clone, Copy)]
pub struct Held {
    pub register: Option<Reg>,
    pub number: Option<i64>,
}

// A register of the machine.
fn machine_reg(bank: Bank, number: u16) -> Reg
    ensures { result ≡ spec.machine_reg bank number }
{
    Reg {
        bank,
        symbolic: false,
        number,
    }
}

// A register by its letter and its number.
#[tactic(auto, unfolding(crate::specs::Spells::numbered))]
fn numbered(bank: Bank, letter: u8, count: u16, text: &[u8]) -> Option<Reg>
    ensures { result ≡ spec.numbered bank letter count text.now }
{
    let (first, digits) = text.split_first()?;
    if first.to_ascii_lowercase() != letter {
        return None;
    }
    let number = decimal_value(digits)?;
    if number < u64::from(count) {
        return Some(machine_reg(bank, number as u16));
    }
    None
}

// A register r0 to r12 or r14.
fn unless_r13(register: Option<Reg>) -> Option<Reg>
    ensures { result ≡ spec.unless_r13 register }
{
    let register = register?;
    if register.number == 13 {
        return None;
    }
    Some(register)
}

/// The register that a word names where registers are spelled with a letter.
#[tactic(auto, unfolding(crate::specs::Spells::register_of))]
pub fn register_of(letter: Letter, text: &str) -> Option<Reg>
    ensures { result ≡ spec.register_of letter text.now }
{
    match letter {
        Letter::X => {
            if text.eq_ignore_ascii_case("xzr") {
                return Some(machine_reg(Bank::General, 31));
            }
            if text.eq_ignore_ascii_case("sp") {
                return Some(machine_reg(Bank::Stack, 0));
            }
            numbered(Bank::General, b'x', 31, text.as_bytes())
        }
        Letter::W => {
            if text.eq_ignore_ascii_case("wzr") {
                return Some(machine_reg(Bank::General, 31));
            }
            numbered(Bank::General, b'w', 31, text.as_bytes())
        }
        Letter::V => numbered(Bank::Vector, b'v', 32, text.as_bytes()),
        Letter::Q => numbered(Bank::Vector, b'q', 32, text.as_bytes()),
        Letter::D => numbered(Bank::Vector, b'd', 32, text.as_bytes()),
        Letter::S => numbered(Bank::Vector, b's', 32, text.as_bytes()),
        Letter::R => {
            if text.eq_ignore_ascii_case("lr") {
                return Some(machine_reg(Bank::General, 14));
            }
            if text.eq_ignore_ascii_case("sp") {
                return Some(machine_reg(Bank::Stack, 0));
            }
            unless_r13(numbered(Bank::General, b'r', 15, text.as_bytes()))
        }
    }
}

/// The conditions on flags, in the order of their numbers: each odd one is the
/// opposite of the one before it.
pub(crate) const CONDITIONS: [[u8; 2]; 14] = [
    *b"eq", *b"ne", *b"cs", *b"cc", *b"mi", *b"pl", *b"vs", *b"vc", *b"hi", *b"ls", *b"ge", *b"lt",
    *b"gt", *b"le",
];

// The place of a name among others, counted from 0, in letters of either case.
#[tactic(auto, unfolding(crate::specs::Spells::name_place))]
fn name_place(names: &[[u8; 2]], text: &[u8]) -> Option<u8>
    requires { length names.now < 256 }
    ensures place { result ≡ spec.name_place names.now text.now }
    ensures within { IfSome result (λ place. place < length names.now) }
{
    let (name, names) = names.split_first()?;
    if text.eq_ignore_ascii_case(name) {
        return Some(0);
    }
    let place = name_place(names, text)?;
    Some(place + 1)
}

// The number of a condition. Two of them have a second name.
#[tactic(auto, unfolding(crate::specs::Spells::condition_of))]
fn condition_of(text: &str) -> Option<u8>
    ensures { result ≡ spec.condition_of text.now }
{
    if text.eq_ignore_ascii_case("hs") {
        return Some(2);
    }
    if text.eq_ignore_ascii_case("lo") {
        return Some(3);
    }
    name_place(&CONDITIONS, text.as_bytes())
}

// The word that an item is.
fn word_in<'a>(item: &Item<'a>) -> Option<&'a str>
    ensures { MatchOption result (spec.word_in (item_value item.now) ≡ None)
        (λ text. spec.word_in (item_value item.now) ≡ Some text.now) }
{
    match item {
        Item::Word(text) => Some(text),
        _ => None,
    }
}

// The number that an item is.
fn number_in(item: &Item<'_>) -> Option<i64>
    ensures { result ≡ spec.number_in (item_value item.now) }
{
    match item {
        Item::Number(n) => Some(*n),
        _ => None,
    }
}

// Whether an item is a blank.
fn is_gap(item: &Item<'_>) -> bool
    ensures { result ≡ spec.is_gap (item_value item.now) }
{
    match item {
        Item::Gap => true,
        _ => false,
    }
}

// Whether an item is this mark.
fn is_mark_of(code: u8, item: &Item<'_>) -> bool
    ensures { result ≡ spec.is_mark_of code (item_value item.now) }
{
    match item {
        Item::Mark(c) => *c == code,
        _ => false,
    }
}

// The register that an item is, where registers are spelled with a letter.
#[tactic(auto, unfolding(crate::specs::Spells::item_register))]
fn item_register(letter: Letter, item: &Item<'_>) -> Option<Reg>
    ensures { result ≡ spec.item_register letter (item_value item.now) }
{
    match item {
        Item::Word(text) => register_of(letter, text),
        Item::Symbol(other, number) => {
            if letter_code(*other) != letter_code(letter) {
                return None;
            }
            Some(Reg {
                bank: letter_bank(letter),
                symbolic: true,
                number: *number,
            })
        }
        _ => None,
    }
}

// What an operand holds with an item in a slot, if the slot takes the item.
#[tactic(auto, unfolding(crate::specs::Spells::put))]
fn put(held: Held, slot: Slot, item: &Item<'_>) -> Option<Held>
    ensures { result ≡ spec.put held slot (item_value item.now) }
{
    match slot {
        Slot::Gap => {
            if is_gap(item) {
                return Some(held);
            }
            None
        }
        Slot::Mark(code) => {
            if is_mark_of(code, item) {
                return Some(held);
            }
            None
        }
        Slot::Name(name) => {
            let text = word_in(item)?;
            if text.eq_ignore_ascii_case(name.text()) {
                return Some(held);
            }
            None
        }
        Slot::Register(letter) => {
            let register = item_register(letter, item)?;
            Some(Held {
                register: Some(register),
                number: held.number,
            })
        }
        Slot::Number | Slot::Index => {
            let n = number_in(item)?;
            Some(Held {
                register: held.register,
                number: Some(n),
            })
        }
        Slot::Condition => {
            let text = word_in(item)?;
            let n = condition_of(text)?;
            Some(Held {
                register: held.register,
                number: Some(i64::from(n)),
            })
        }
    }
}

// What an operand holds, and the items behind it.
#[derive(Clone, Copy)]
struct Taken<'s, 'a> {
    held: Held,
    rest: &'s [Item<'a>],
}

// The slots of an operand take the first items, one each.
#[tactic(auto, unfolding(crate::specs::Spells::front))]
fn front<'s, 'a>(held: Held, slots: &[Slot], items: &'s [Item<'a>]) -> Option<Taken<'s, 'a>>
    ensures { ReadsTaken result (spec.front held slots.now (map item_value items.now)) }
{
    let Some((slot, slots)) = slots.split_first() else {
        return Some(Taken { held, rest: items });
    };
    let (item, items) = items.split_first()?;
    let next = put(held, *slot, item)?;
    front(next, slots, items)
}

// What an operand of a shape holds behind what leads to it.
fn operand<'s, 'a>(lead: Slot, shape: Shape, items: &'s [Item<'a>]) -> Option<Taken<'s, 'a>>
    ensures { ReadsTaken result
        (spec.front spec.empty (slots_of lead shape) (map item_value items.now)) }
{
    let empty = Held {
        register: None,
        number: None,
    };
    let slots = slots_of(lead, shape);
    front(empty, &slots.places[..slots.count], items)
}

// What operands hold, if nothing is left.
fn ended(items: &[Item<'_>], helds: [Held; 5]) -> Option<[Held; 5]>
    ensures { result ≡ spec.ended (map item_value items.now) helds }
{
    if items.is_empty() {
        return Some(helds);
    }
    None
}

/// What the operands of a row hold, if its slots take the items, one each.
#[tactic(auto, unfolding(crate::specs::Spells::fill))]
pub fn fill(row: &Row, items: &[Item<'_>]) -> Option<[Held; 5]>
    ensures { result ≡ spec.fill row.now (map item_value items.now) }
{
    let comma = Slot::Mark(b',');
    let first = operand(Slot::Gap, row.first.shape, items)?;
    let second = operand(comma, row.second.shape, first.rest)?;
    let third = operand(comma, row.third.shape, second.rest)?;
    let fourth = operand(comma, row.fourth.shape, third.rest)?;
    let fifth = operand(comma, row.fifth.shape, fourth.rest)?;
    ended(
        fifth.rest,
        [first.held, second.held, third.held, fourth.held, fifth.held],
    )
}
