//! Reading instructions of AArch64, and answers as texts.
ghost use Rattle.std.specs.Prelude.{◌≤◌, ◌+◌, [], length, IfOk};
ghost use Rattle.sl_model.specs.Lawful.{IsValid};
ghost use Rattle.sl_isa.specs.SymbolViews.{pairs};
ghost use Rattle.sl_isa.specs.Language.{IsNamed};
ghost use Rattle.arm64_table.specs.Arm64.{arm64};

use arm64_table::Arm64;
use sl_isa::{Arch, FormErr, FormReason, Instr, Symbols};
use sl_text::{Comments, Line, Token, text_of, tokens};
use std::alloc::{AllocError, Global};

/// The instruction of AArch64 that tokens spell.
fn read(alloc: Global, words: &[Token<'_>], symbols: &mut Symbols) -> Result<Instr, FormErr>
    requires { length (pairs symbols.old) ≤ 65529 }
    ensures valid { IfOk result (λ i. IsValid arm64.isa i) }
    ensures named { IfOk result (λ i. IsNamed (pairs symbols.new) i) }
    ensures count { length (pairs symbols.new) ≤ length (pairs symbols.old) + 7 }
{
    Arm64.read_form(alloc, words, symbols)
}

/// The instruction of AArch64 that a text of fewer than 1024 bytes spells.
pub fn instr_of(alloc: Global, text: &str) -> Result<Instr, FormErr>
    ensures { IfOk result (λ i. IsValid arm64.isa i) }
{
    let mut symbols = Symbols::new(alloc);
    named_instr(alloc, text, &mut symbols)
}

/// The same with the numbers of symbolic registers.
pub fn named_instr(alloc: Global, text: &str, symbols: &mut Symbols) -> Result<Instr, FormErr>
    requires { length (pairs symbols.old) ≤ 65529 }
    ensures valid { IfOk result (λ i. IsValid arm64.isa i) }
    ensures named { IfOk result (λ i. IsNamed (pairs symbols.new) i) }
    ensures count { length (pairs symbols.new) ≤ length (pairs symbols.old) + 7 }
{
    let mut words = Vec::new(alloc);
    if text.len() < 1024 {
        for token in tokens(Line { number: 1, text }, Comments::Slash, false) {
            if words.push(token).is_err() {
                return Err(FormErr::NoMemory);
            }
        }
    }
    read(alloc, &words, symbols)
}

pub fn reason_name(reason: FormReason) -> &'static str {
    match reason {
        FormReason::UnknownMnemonic => "UnknownMnemonic",
        FormReason::BadOperand => "BadOperand",
        FormReason::ImmediateRange => "ImmediateRange",
        FormReason::RegisterClass => "RegisterClass",
        FormReason::SameRegister => "SameRegister",
    }
}

/// Bytes as a text.
pub fn text_from(alloc: Global, bytes: &[u8]) -> Result<String, AllocError> {
    if 1 << 31 <= bytes.len() {
        return Err(AllocError);
    }
    match text_of(bytes) {
        Ok(text) => String::from_str(alloc, text),
        Err(_) => String::from_str(alloc, "no text"),
    }
}
