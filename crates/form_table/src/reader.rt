//! Reading an instruction by a table of rows.
ghost use Rattle.std.specs.Prelude.{◌≡◌, ◌<◌, ◌≤◌, ◌+◌, ◌∷◌, length, map, take, true, slice_get, IfOk, OnOk, OnErr};
ghost use Rattle.std.specs.List.{list_any};
ghost use Rattle.form_table.specs.ItemViews.{item_value, lexemes};
ghost use Rattle.form_table.specs.Rows.{row_operands};
ghost use Rattle.form_table.specs.Reads as spec;
ghost use Rattle.form_table.specs.TableRows.{rows_of};
ghost use Rattle.sl_model.specs.Answers.{Gives};
ghost use Rattle.sl_text.specs.Tokens.{token_value};
ghost use Rattle.sl_isa.specs.Arch.{reason_of};
ghost use Rattle.sl_isa.specs.Symbols.{with_pairs};
ghost use Rattle.sl_isa.specs.SymbolViews.{pairs};
ghost use Rattle.form_table.specs.Symbols.{pairs_from, pairs_in};
ghost use Rattle.form_table.specs.Items.{items_from};

use crate::items::{Item, items};
use crate::rows::{Alias, Operand, Range, Role, Row, Sum};
use crate::spells::{Held, fill};
use crate::symbols::{number_all, symbol_count};
use crate::table::Table;
use sl_isa::reasons::{FormErr, FormReason};
use sl_isa::sets::suits_set;
use sl_isa::{Bank, Instr, Reg, Symbols};
use sl_text::{Token, TokenKind};
use std::alloc::Global;

// The most symbolic registers that a spelling has: one for each operand of a row.
const MOST_SYMBOLS: usize = 5;

/// A row of a table by its number, and what its operands hold.
#[derive(Clone, Copy)]
pub struct Fit {
    pub form: u16,
    pub helds: [Held; 5],
}

/// Which registers are picked from operands.
#[derive(Clone, Copy)]
pub enum Pick {
    /// Those that are read where they stand.
    Read,
    /// Of these those that are no base.
    Data,
    /// And those that are one.
    Base,
    /// Those that are read last.
    Tied,
    /// Those that are written first.
    Written,
    /// A base that is written back.
    Back,
}

// Whether a row has this mnemonic.
fn has_mnemonic(text: &str, row: &Row) -> bool
    ensures { result ≡ spec.has_mnemonic text.now row.now }
{
    text.as_bytes().eq_ignore_ascii_case(row.mnemonic())
}

// What the operands of a row hold, if it has the mnemonic and takes the items.
fn fit_row(text: &str, items: &[Item<'_>], row: &Row) -> Option<[Held; 5]>
    ensures { result ≡ spec.fit_row text.now (map item_value items.now) row.now }
{
    if !has_mnemonic(text, row) {
        return None;
    }
    fill(row, items)
}

// The row of this mnemonic that takes the items, among rows that are numbered from `form` on.
#[tactic(auto, unfolding(crate::specs::Reads::fit_from))]
fn fit_from(form: u16, rows: &[Row], text: &str, items: &[Item<'_>]) -> Option<Fit>
    requires { form + length rows.now < 65536 }
    ensures { result ≡ spec.fit_from form rows.now text.now (map item_value items.now) }
{
    let (row, rows) = rows.split_first()?;
    if let Some(helds) = fit_row(text, items, row) {
        return Some(Fit { form, helds });
    }
    fit_from(form + 1, rows, text, items)
}

// Whether a number is there, and 0.
fn is_zero(number: Option<i64>) -> bool
    ensures { result ≡ spec.is_zero number }
{
    let Some(n) = number else {
        return false;
    };
    n.unsigned_abs() == 0
}

// The form that is kept where the number of the operand at a place is 0.
fn without_zero(form: u16, place: u8, fit: Fit) -> Fit
    ensures { result ≡ spec.without_zero form place fit }
{
    let place = usize::from(place);
    if 5 <= place {
        return fit;
    }
    let held = fit.helds[place];
    if !is_zero(held.number) {
        return fit;
    }
    let mut helds = fit.helds;
    helds[place] = Held {
        register: held.register,
        number: None,
    };
    Fit { form, helds }
}

// The form under which a spelling is kept, with what that form's operands hold.
#[tactic(auto, unfolding(crate::specs::Reads::settled))]
fn settled(alias: Alias, fit: Fit) -> Fit
    ensures { result ≡ spec.settled alias fit }
{
    let helds = fit.helds;
    match alias {
        Alias::Own => fit,
        Alias::As(form) => Fit { form, helds },
        Alias::Repeat(form) => Fit {
            form,
            helds: [helds[0], helds[0], helds[1], helds[2], helds[3]],
        },
        Alias::ZeroAs { form, place } => without_zero(form, place, fit),
    }
}

// Whether a number is a multiple of a step.
fn is_multiple(step: u32, n: u64) -> bool
    ensures { result ≡ spec.is_multiple step n }
{
    if step == 0 {
        return false;
    }
    n % u64::from(step) == 0
}

/// Whether a number is one of a range.
#[tactic(auto, unfolding(crate::specs::Reads::in_range))]
pub fn in_range(range: Range, n: i64) -> bool
    ensures { result ≡ spec.in_range range n }
{
    if range.least <= n {
        if n <= range.most {
            return is_multiple(range.step, n.unsigned_abs());
        }
        return false;
    }
    false
}

// Whether an operand takes a number.
fn number_suits(operand: &Operand, number: Option<i64>) -> bool
    ensures { result ≡ spec.number_suits operand.now number }
{
    let Some(n) = number else {
        return true;
    };
    in_range(operand.range, n)
}

// Whether operands take the numbers that they hold.
#[tactic(auto, unfolding(crate::specs::Reads::numbers_suit))]
fn numbers_suit(operands: &[Operand], helds: &[Held]) -> bool
    ensures { result ≡ spec.numbers_suit operands.now helds.now }
{
    let Some((operand, operands)) = operands.split_first() else {
        return true;
    };
    let Some((held, helds)) = helds.split_first() else {
        return true;
    };
    if number_suits(operand, held.number) {
        return numbers_suit(operands, helds);
    }
    false
}

// Whether an operand takes a register.
fn register_suits(operand: &Operand, register: Option<Reg>) -> bool
    ensures { result ≡ spec.register_suits operand.now register }
{
    let Some(r) = register else {
        return true;
    };
    suits_set(r, operand.class)
}

// Whether operands take the registers that they hold.
#[tactic(auto, unfolding(crate::specs::Reads::registers_suit))]
fn registers_suit(operands: &[Operand], helds: &[Held]) -> bool
    ensures { result ≡ spec.registers_suit operands.now helds.now }
{
    let Some((operand, operands)) = operands.split_first() else {
        return true;
    };
    let Some((held, helds)) = helds.split_first() else {
        return true;
    };
    if register_suits(operand, held.register) {
        return registers_suit(operands, helds);
    }
    false
}

/// Whether a role is picked.
pub fn is_picked(pick: Pick, role: Role) -> bool
    ensures { result ≡ spec.is_picked pick role }
{
    match pick {
        Pick::Read => matches!(role, Role::In | Role::Base | Role::Back),
        Pick::Data => matches!(role, Role::In),
        Pick::Base => matches!(role, Role::Base | Role::Back),
        Pick::Tied => matches!(role, Role::Tied),
        Pick::Written => matches!(role, Role::Out | Role::Tied),
        Pick::Back => matches!(role, Role::Back),
    }
}

// Puts a register in the first place that is free.
#[tactic(auto, unfolding(crate::specs::Reads::placed))]
fn place(places: &mut [Option<Reg>], r: Reg)
    ensures { places.new ≡ spec.placed places.old r }
{
    let Some((first, places)) = places.split_first_mut() else {
        return;
    };
    if first.is_some() {
        place(places, r);
        return;
    }
    *first = Some(r);
}

// Puts the registers of the operands whose roles are picked in the first places that are free.
#[tactic(auto, unfolding(crate::specs::Reads::picked, crate::specs::Reads::all_placed))]
fn place_picked(places: &mut [Option<Reg>], pick: Pick, operands: &[Operand], helds: &[Held])
    ensures { places.new ≡ spec.all_placed places.old (spec.picked pick operands.now helds.now) }
{
    let Some((operand, operands)) = operands.split_first() else {
        return;
    };
    let Some((held, helds)) = helds.split_first() else {
        return;
    };
    if !is_picked(pick, operand.role) {
        place_picked(places, pick, operands, helds);
        return;
    }
    if let Some(r) = held.register {
        place(places, r);
    }
    place_picked(places, pick, operands, helds);
}

// Puts the flags in the first place that is free, where they are wanted.
fn place_flags(places: &mut [Option<Reg>], wanted: bool)
    ensures { places.new ≡ spec.flags_placed places.old wanted }
{
    if wanted {
        let flags = Reg {
            bank: Bank::Flags,
            symbolic: false,
            number: 0,
        };
        place(places, flags);
    }
}

// The inputs of a row's instruction.
#[tactic(auto, unfolding(crate::specs::Reads::inputs))]
fn inputs(row: &Row, helds: &[Held]) -> [Option<Reg>; 4]
    ensures { result ≡ spec.inputs row.now helds.now }
{
    let operands = row.operands();
    let mut places = [None; 4];
    place_picked(&mut places, Pick::Read, &operands, helds);
    place_picked(&mut places, Pick::Tied, &operands, helds);
    place_flags(&mut places, row.reads_flags);
    places
}

// The outputs of a row's instruction.
#[tactic(auto, unfolding(crate::specs::Reads::results))]
fn results(row: &Row, helds: &[Held]) -> [Option<Reg>; 3]
    ensures { result ≡ spec.results row.now helds.now }
{
    let operands = row.operands();
    let mut places = [None; 3];
    place_picked(&mut places, Pick::Written, &operands, helds);
    place_picked(&mut places, Pick::Back, &operands, helds);
    place_flags(&mut places, row.sets_flags);
    places
}

// The number at a place, counted from 0, of those that operands hold, and 0 where there are fewer.
#[tactic(auto, unfolding(crate::specs::Reads::number_at))]
fn number_at(place: u8, helds: &[Held]) -> i64
    ensures { result ≡ spec.number_at place helds.now }
{
    let Some((held, helds)) = helds.split_first() else {
        return 0;
    };
    let Some(n) = held.number else {
        return number_at(place, helds);
    };
    if place == 0 {
        return n;
    }
    number_at(place - 1, helds)
}

// The instruction of a row whose operands hold these.
#[tactic(auto, unfolding(crate::specs::Reads::instr_of))]
fn instr_of(form: u16, row: &Row, helds: &[Held]) -> Instr
    ensures value { result ≡ spec.instr_of form row.now helds.now }
    ensures form { result.form ≡ form }
{
    Instr {
        form,
        wide: false,
        imms: [
            number_at(0, helds),
            number_at(1, helds),
            number_at(2, helds),
        ],
        ins: inputs(row, helds),
        outs: results(row, helds),
        tag: None,
        early: false,
        late: false,
        line: 0,
    }
}

// Whether a register stands among places.
#[tactic(auto, unfolding(crate::specs::Reads::stands_in, sl_model::specs::Register::same_reg))]
fn stands_in(r: Reg, places: &[Option<Reg>]) -> bool
    ensures { result ≡ spec.stands_in r places.now }
{
    let Some((first, places)) = places.split_first() else {
        return false;
    };
    let Some(q) = first else {
        return stands_in(r, places);
    };
    if *q == r {
        return true;
    }
    stands_in(r, places)
}

// Whether a register, if there is one, stands among places.
fn optional_stands_in(r: Option<Reg>, places: &[Option<Reg>]) -> bool
    ensures { result ≡ spec.optional_stands_in r places.now }
{
    let Some(r) = r else {
        return false;
    };
    stands_in(r, places)
}

// Whether a register stands at two places.
#[tactic(auto, unfolding(crate::specs::Reads::repeats))]
fn repeats(places: &[Option<Reg>]) -> bool
    ensures { result ≡ spec.repeats places.now }
{
    let Some((first, places)) = places.split_first() else {
        return false;
    };
    if optional_stands_in(*first, places) {
        return true;
    }
    repeats(places)
}

// Whether a base that is written back is also stored.
#[tactic(auto, unfolding(crate::specs::Reads::shares_base))]
fn shares_base(row: &Row, helds: &[Held]) -> bool
    ensures { result ≡ spec.shares_base row.now helds.now }
{
    let operands = row.operands();
    let mut bases = [None; 1];
    place_picked(&mut bases, Pick::Back, &operands, helds);
    let mut data = [None; 4];
    place_picked(&mut data, Pick::Data, &operands, helds);
    optional_stands_in(bases[0], &data)
}

// Whether a row takes the sum of the first two numbers.
fn sum_suits(sum: Sum, first: i64, second: i64) -> bool
    ensures { result ≡ spec.sum_suits sum first second }
{
    match sum {
        Sum::Free => true,
        Sum::AtMost(most) => i128::from(first) + i128::from(second) <= i128::from(most),
    }
}

// The instruction of a row whose operands hold these, or the first reason why there is none.
#[tactic(auto, unfolding(crate::specs::Reads::judged))]
fn judged(form: u16, row: &Row, helds: &[Held]) -> Result<Instr, FormReason>
    ensures value { result ≡ spec.judged form row.now helds.now }
    ensures form { IfOk result (λ i. i.form ≡ form) }
{
    let operands = row.operands();
    if !numbers_suit(&operands, helds) {
        return Err(FormReason::ImmediateRange);
    }
    if !sum_suits(row.sum, number_at(0, helds), number_at(1, helds)) {
        return Err(FormReason::ImmediateRange);
    }
    if !registers_suit(&operands, helds) {
        return Err(FormReason::RegisterClass);
    }
    if repeats(&results(row, helds)) {
        return Err(FormReason::SameRegister);
    }
    if shares_base(row, helds) {
        return Err(FormReason::SameRegister);
    }
    Ok(instr_of(form, row, helds))
}

// What is read of a row that fits, under the form that keeps its spelling.
fn with_fit(table: &Table<'_>, fit: Option<Fit>) -> Result<Instr, FormReason>
    ensures { result ≡ spec.with_fit (rows_of table.now) fit }
{
    let Some(fit) = fit else {
        return Err(FormReason::BadOperand);
    };
    let kept = settled_at(table, fit);
    let Some(row) = table.row(kept.form) else {
        return Err(FormReason::BadOperand);
    };
    judged(kept.form, row, &kept.helds)
}

// The form under which a spelling of a row of the table is kept.
fn settled_at(table: &Table<'_>, fit: Fit) -> Fit
    ensures { result ≡ spec.settled_at (slice_get (rows_of table.now) fit.form) fit }
{
    let Some(row) = table.row(fit.form) else {
        return fit;
    };
    settled(row.alias, fit)
}

/// Whether a dot and a word stand directly behind a word: then they belong to the mnemonic.
#[tactic(auto, unfolding(crate::specs::Reads::is_suffixed))]
pub fn is_suffixed(first: &Token<'_>, tokens: &[Token<'_>]) -> bool
    ensures { result ≡ spec.is_suffixed (token_value first.now) (lexemes tokens.now) }
{
    let Some((dot, rest)) = tokens.split_first() else {
        return false;
    };
    let Some((word, _)) = rest.split_first() else {
        return false;
    };
    if !dot.is_mark(b'.') {
        return false;
    }
    if word.kind != TokenKind::Word {
        return false;
    }
    if dot.touches(first) {
        return word.touches(dot);
    }
    false
}

// Whether a word is a mnemonic of some rows.
fn has_form(rows: &[Row], text: &str) -> bool
    ensures { result ≡ list_any (spec.has_mnemonic text.now) rows.now }
{
    rows.iter().any(|row| has_mnemonic(text, row))
}

// Whether a word is a mnemonic of the table.
fn is_mnemonic(table: &Table<'_>, text: &str) -> bool
    ensures { result ≡ list_any (spec.has_mnemonic text.now) (rows_of table.now) }
{
    if has_form(table.first, text) {
        return true;
    }
    if has_form(table.second, text) {
        return true;
    }
    if has_form(table.third, text) {
        return true;
    }
    has_form(table.fourth, text)
}

// The row of the table of this mnemonic that takes the items.
fn find_fit(table: &Table<'_>, text: &str, items: &[Item<'_>]) -> Option<Fit>
    requires { length (rows_of table.now) < 65536 }
    ensures { result ≡ spec.fit_from 0 (rows_of table.now) text.now (map item_value items.now) }
{
    if let Some(fit) = fit_from(0, table.first, text, items) {
        return Some(fit);
    }
    let behind = table.first.len() as u16;
    if let Some(fit) = fit_from(behind, table.second, text, items) {
        return Some(fit);
    }
    let behind = behind + table.second.len() as u16;
    if let Some(fit) = fit_from(behind, table.third, text, items) {
        return Some(fit);
    }
    fit_from(behind + table.third.len() as u16, table.fourth, text, items)
}

// Whether this is a mnemonic of the table, with what stands behind it.
fn knows(table: &Table<'_>, first: &Token<'_>, tokens: &[Token<'_>]) -> bool
    ensures { result ≡ spec.knows (rows_of table.now) (token_value first.now) (lexemes tokens.now) }
{
    if first.kind != TokenKind::Word {
        return false;
    }
    if is_suffixed(first, tokens) {
        return false;
    }
    is_mnemonic(table, first.text)
}

// The instruction that the tokens behind a mnemonic spell, whose symbolic registers have numbers.
fn read_numbered(
    table: &Table<'_>,
    alloc: Global,
    first: &Token<'_>,
    tokens: &[Token<'_>],
    symbols: &Symbols,
) -> Result<Instr, FormErr>
    requires few { length (rows_of table.now) < 65536 }
    requires numbers { length (pairs symbols.now) ≤ 65536 }
    ensures { Gives reason_of (λ i. i) result
        (spec.with_fit (rows_of table.now)
        (spec.fit_from 0 (rows_of table.now) first.now.text.now
        (items_from (pairs symbols.now) (token_value first.now) 0 (lexemes tokens.now)))) }
{
    let Ok(items) = items(alloc, first, tokens, symbols) else {
        return Err(FormErr::NoMemory);
    };
    match with_fit(table, find_fit(table, first.text, &items)) {
        Ok(instr) => Ok(instr),
        Err(reason) => Err(FormErr::Refused(reason)),
    }
}

// The same where their names may be new. Where none is read, some of them may be numbered.
fn read_operands(
    table: &Table<'_>,
    alloc: Global,
    first: &Token<'_>,
    tokens: &[Token<'_>],
    symbols: &mut Symbols,
) -> Result<Instr, FormErr>
    requires few { length (rows_of table.now) < 65536 }
    requires numbers { length (pairs symbols.old) ≤ 65529 }
    ensures answer { Gives reason_of (λ i. i) result
        (spec.with_fit (rows_of table.now)
        (spec.fit_from 0 (rows_of table.now) first.now.text.now
        (items_from (with_pairs (pairs symbols.old) (pairs_from (lexemes tokens.now)))
        (token_value first.now) 0 (lexemes tokens.now)))) }
    ensures ok { OnOk result
        (pairs symbols.new ≡ with_pairs (pairs symbols.old) (pairs_from (lexemes tokens.now))) }
    ensures front { take (length (pairs symbols.old)) (pairs symbols.new) ≡ pairs symbols.old }
    ensures count { length (pairs symbols.new) ≤ length (pairs symbols.old) + 7 }
{
    if symbol_count(tokens) > MOST_SYMBOLS {
        return Err(FormErr::Refused(FormReason::BadOperand));
    }
    if number_all(alloc, tokens, symbols).is_err() {
        return Err(FormErr::NoMemory);
    }
    read_numbered(table, alloc, first, tokens, symbols)
}

/// Reads the instruction that a mnemonic and the tokens behind it spell, as `read_form` does.
#[tactic(auto, unfolding(crate::specs::Reads::reads, crate::specs::Symbols::pairs_in))]
pub fn read_behind(
    table: &Table<'_>,
    alloc: Global,
    first: &Token<'_>,
    rest: &[Token<'_>],
    symbols: &mut Symbols,
) -> Result<Instr, FormErr>
    requires few { length (rows_of table.now) < 65536 }
    requires numbers { length (pairs symbols.old) ≤ 65529 }
    ensures answer { Gives reason_of (λ i. i) result
        (spec.reads (rows_of table.now)
        (with_pairs (pairs symbols.old) (pairs_in (token_value first.now ∷ lexemes rest.now)))
        (token_value first.now ∷ lexemes rest.now)) }
    ensures ok { OnOk result
        (pairs symbols.new
        ≡ with_pairs (pairs symbols.old) (pairs_in (token_value first.now ∷ lexemes rest.now))) }
    ensures err { OnErr result (pairs symbols.new ≡ pairs symbols.old) }
    ensures count { length (pairs symbols.new) ≤ length (pairs symbols.old) + 7 }
{
    if !knows(table, first, rest) {
        return Err(FormErr::Refused(FormReason::UnknownMnemonic));
    }
    let before = symbols.count();
    let read = read_operands(table, alloc, first, rest, symbols);
    if read.is_err() {
        symbols.truncate(before);
    }
    read
}

/// Reads the instruction that the tokens of a line spell, without line and tag, and
/// neither early nor late. The tokens hold no comments. Symbolic registers have the numbers of
/// their names, and new names are added to `symbols`. Where the tokens spell no instruction, the
/// answer is the first reason for it, and `symbols` is as it was; so it is after `NoMemory`.
#[tactic(auto, unfolding(crate::specs::Reads::reads, crate::specs::Symbols::pairs_in))]
pub fn read_form(
    table: &Table<'_>,
    alloc: Global,
    tokens: &[Token<'_>],
    symbols: &mut Symbols,
) -> Result<Instr, FormErr>
    requires few { length (rows_of table.now) < 65536 }
    requires numbers { length (pairs symbols.old) ≤ 65529 }
    ensures answer { Gives reason_of (λ i. i) result
        (spec.reads (rows_of table.now)
        (with_pairs (pairs symbols.old) (pairs_in (lexemes tokens.now))) (lexemes tokens.now)) }
    ensures ok { OnOk result
        (pairs symbols.new ≡ with_pairs (pairs symbols.old) (pairs_in (lexemes tokens.now))) }
    ensures err { OnErr result (pairs symbols.new ≡ pairs symbols.old) }
    ensures count { length (pairs symbols.new) ≤ length (pairs symbols.old) + 7 }
{
    let Some((first, rest)) = tokens.split_first() else {
        return Err(FormErr::Refused(FormReason::UnknownMnemonic));
    };
    read_behind(table, alloc, first, rest, symbols)
}
