//! Instructions of AArch64 by their spelling.
ghost use Rattle.std.specs.Prelude.{◌≡◌, length, IfOk};
ghost use Rattle.sl_model.specs.Lawful.{IsValid, AreValid};
ghost use Rattle.arm64_table.specs.Arm64.{arm64};

use arm64_table::Arm64;
use sl_isa::{Arch, FormErr, Instr, Symbols};
use sl_text::{Comments, Line, Token, tokens};
use std::alloc::{AllocError, Global};

// The instruction that tokens spell.
fn read(alloc: Global, words: &[Token<'_>]) -> Result<Instr, FormErr>
    ensures { IfOk result (λ i. IsValid arm64.isa i) }
{
    let mut symbols = Symbols::new(alloc);
    Arm64.read_form(alloc, words, &mut symbols)
}

// The instruction that a text of fewer than 1024 bytes spells.
fn instr_of(alloc: Global, text: &str) -> Result<Instr, FormErr>
    ensures { IfOk result (λ i. IsValid arm64.isa i) }
{
    let mut words = Vec::new(alloc);
    if text.len() < 1024 {
        for token in tokens(Line { number: 1, text }, Comments::Slash, false) {
            if words.push(token).is_err() {
                return Err(FormErr::NoMemory);
            }
        }
    }
    read(alloc, &words)
}

/// The instructions that texts of fewer than 1024 bytes spell.
pub fn items_of(alloc: Global, texts: &[&str]) -> Result<Vec<Instr>, AllocError>
    ensures valid { IfOk result (λ items. AreValid arm64.isa items.items) }
    ensures count { IfOk result (λ items. length items.items ≡ length texts.now) }
{
    let mut items = Vec::new(alloc);
    for text in texts {
        let Ok(item) = instr_of(alloc, text) else {
            return Err(AllocError);
        };
        if items.push(item).is_err() {
            return Err(AllocError);
        }
    }
    Ok(items)
}
