//! Spellings with `.w` behind the mnemonic, over any table.
#![tactic(auto)]

ghost use Rattle.std.specs.Prelude.{◌≡◌, ◌<◌, ◌≤◌, ◌+◌, ◌++◌, ◌∷◌, length, OnOk, OnErr, MatchOption, None, Some};
ghost use Rattle.sl_model.specs.Answers.{Gives};
ghost use Rattle.sl_text.specs.Tokens.{token_value};
ghost use Rattle.sl_isa.specs.Arch.{reason_of};
ghost use Rattle.sl_isa.specs.Symbols.{with_pairs};
ghost use Rattle.sl_isa.specs.SymbolViews.{pairs};
ghost use Rattle.form_table.specs.ItemViews.{lexemes};
ghost use Rattle.form_table.specs.Reads.{reads};
ghost use Rattle.form_table.specs.Symbols.{pairs_in};
ghost use Rattle.form_table.specs.TableRows.{rows_of};
ghost use Rattle.wide_forms.specs.Wide as spec;

use form_table::table::Table;
use form_table::{printer, reader};
use sl_base::{NoMemory, append};
use sl_isa::reasons::{FormErr, FormReason};
use sl_isa::{Instr, Symbols};
use sl_text::Token;
use std::alloc::Global;

// The `w` of a `.w` directly behind a word, and the tokens behind it.
#[tactic(auto, unfolding(crate::specs::Wide::behind_wide))]
fn behind_wide<'s, 't>(
    first: &Token<'_>,
    tokens: &'s [Token<'t>],
) -> Option<(&'s Token<'t>, &'s [Token<'t>])>
    ensures { MatchOption result
        (spec.behind_wide (token_value first.now) (lexemes tokens.now) ≡ None)
        (λ found. spec.behind_wide (token_value first.now) (lexemes tokens.now)
        ≡ Some (token_value found.0.now, lexemes found.1.now)) }
{
    let suffixed = reader::is_suffixed(first, tokens);
    let (_, behind) = tokens.split_first()?;
    let (letter, behind) = behind.split_first()?;
    if !suffixed {
        return None;
    }
    if !letter.text.as_bytes().eq_ignore_ascii_case(b"w") {
        return None;
    }
    Some((letter, behind))
}

// A word, moved so that it ends where a letter behind it ends.
fn moved_to<'a>(letter: &Token<'_>, word: &Token<'a>) -> Token<'a>
    ensures { token_value result ≡ spec.moved_to (token_value letter.now) (token_value word.now) }
{
    let before = word.text.len().saturating_sub(1);
    let start = (letter.start as usize).saturating_sub(before);
    Token {
        start: start as u32,
        ..*word
    }
}

// Reads the instruction that a mnemonic and the tokens behind it spell, and keeps whether it is wide.
fn read_kept(
    table: &Table<'_>,
    alloc: Global,
    wide: bool,
    first: &Token<'_>,
    rest: &[Token<'_>],
    symbols: &mut Symbols,
) -> Result<Instr, FormErr>
    requires few { length (rows_of table.now) < 65536 }
    requires numbers { length (pairs symbols.old) ≤ 65529 }
    ensures answer { Gives reason_of (λ i. i) result
        (spec.kept_wide wide
        (reads (rows_of table.now)
        (with_pairs (pairs symbols.old) (pairs_in (token_value first.now ∷ lexemes rest.now)))
        (token_value first.now ∷ lexemes rest.now))) }
    ensures ok { OnOk result
        (pairs symbols.new
        ≡ with_pairs (pairs symbols.old) (pairs_in (token_value first.now ∷ lexemes rest.now))) }
    ensures err { OnErr result (pairs symbols.new ≡ pairs symbols.old) }
    ensures count { length (pairs symbols.new) ≤ length (pairs symbols.old) + 7 }
{
    let mut instr = reader::read_behind(table, alloc, first, rest, symbols)?;
    instr.wide = wide;
    Ok(instr)
}

/// Reads the instruction that the tokens of a line spell by a table, as `reader::read_form` does;
/// but its mnemonic may end with `.w`, which is kept.
#[tactic(auto, unfolding(crate::specs::Wide::wide_reads, crate::specs::Wide::wide_pairs_in, crate::specs::Wide::narrow, crate::specs::Wide::is_wide, form_table::specs::Reads::reads))]
pub fn read_form(
    table: &Table<'_>,
    alloc: Global,
    tokens: &[Token<'_>],
    symbols: &mut Symbols,
) -> Result<Instr, FormErr>
    requires few { length (rows_of table.now) < 65536 }
    requires numbers { length (pairs symbols.old) ≤ 65529 }
    ensures answer { Gives reason_of (λ i. i) result
        (spec.wide_reads (rows_of table.now)
        (with_pairs (pairs symbols.old) (spec.wide_pairs_in (lexemes tokens.now)))
        (lexemes tokens.now)) }
    ensures ok { OnOk result
        (pairs symbols.new
        ≡ with_pairs (pairs symbols.old) (spec.wide_pairs_in (lexemes tokens.now))) }
    ensures err { OnErr result (pairs symbols.new ≡ pairs symbols.old) }
    ensures count { length (pairs symbols.new) ≤ length (pairs symbols.old) + 7 }
{
    let Some((first, rest)) = tokens.split_first() else {
        return Err(FormErr::Refused(FormReason::UnknownMnemonic));
    };
    let Some((letter, behind)) = behind_wide(first, rest) else {
        return read_kept(table, alloc, false, first, rest, symbols);
    };
    let first = moved_to(letter, first);
    read_kept(table, alloc, true, &first, behind, symbols)
}

/// Adds an instruction's one printed spelling by a table to `out`, with `.w` behind its mnemonic
/// where it has it. After `NoMemory` nothing has changed.
#[tactic(auto, unfolding(crate::specs::Wide::wide_printed))]
pub fn print_form(
    table: &Table<'_>,
    instr: &Instr,
    symbols: &Symbols,
    out: &mut Vec<u8>,
) -> Result<(), NoMemory>
    ensures ok { OnOk result
        (out.new.items
        ≡ out.old.items ++ spec.wide_printed (rows_of table.now) (pairs symbols.now) instr.now) }
    ensures err { OnErr result (out.new.items ≡ out.old.items) }
{
    let Some(row) = table.row(instr.form) else {
        return Ok(());
    };
    let mut text = Vec::new(*out.allocator());
    append(&mut text, row.mnemonic())?;
    if instr.wide {
        append(&mut text, b".w")?;
    }
    printer::push_behind(&mut text, row, instr, symbols)?;
    append(out, &text)
}
