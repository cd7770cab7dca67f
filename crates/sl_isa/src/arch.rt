//! Architectures: their tables of forms, and what their instructions do.
ghost use Rattle.std.specs.Prelude.{◌≡◌, ◌<◌, ◌≤◌, ◌+◌, ◌++◌, true, length, map, OnOk, OnErr};
ghost use Rattle.sl_text.specs.Tokens.{token_value};
ghost use Rattle.sl_model.specs.Answers.{Gives};
ghost use Rattle.sl_model.specs.Isa.{op_of};
ghost use Rattle.sl_model.specs.Machine.{can_count};
ghost use Rattle.sl_model.specs.Lawful.{IsValid, load_size};
ghost use Rattle.sl_isa.specs.Arch.{comments_of, padded_values, access_of, stored_by, AreOperands, reason_of};
ghost use Rattle.sl_isa.specs.Steps.{IsStep};
ghost use Rattle.sl_isa.specs.SymbolViews.{pairs};
ghost use Rattle.sl_isa.specs.Language.{Language, IsLanguage, IsNamed, pairs_behind, read_behind};

use crate::{Access, ArchName, FormErr, FormInfo, Instr, Outs, Reg, Symbols};
use sl_base::NoMemory;
use sl_text::{Comments, Token};
use std::alloc::Global;

/// Which characters start a comment in the text of an architecture.
pub fn comment_kind(name: ArchName) -> Comments
    ensures { result ≡ comments_of name }
{
    match name {
        ArchName::Arm64 => Comments::Slash,
        ArchName::M4 => Comments::SlashAt,
    }
}

/// A step of a loop's counter.
#[derive(Clone, Copy, Debug, PartialEq, Eq)]
pub enum CounterOp {
    /// `sub c, c, #number`, of 1 or 2.
    Sub { number: u8 },
    /// `subs c, c, #1`.
    Subs,
    /// `lsr c, c, #by`, of 1 to 3.
    Lsr { by: u8 },
}

/// An architecture: a table of forms and the meaning of its instructions.
pub trait Arch {
    // Its instructions, how they are read and printed, and a counter's steps.
    ghost language: { Language };

    /// Which architecture it is.
    fn name(&self) -> ArchName
        ensures { result ≡ language.isa.name };

    /// What the table says of a form.
    fn info(&self, form: u16) -> FormInfo
        requires { form < language.isa.forms }
        ensures { result ≡ language.isa.info form };

    /// The offset of an instruction's access, in bytes, and 0 for a post-index form.
    fn offset(&self, instr: &Instr) -> i64
        requires { IsValid language.isa instr.now }
        ensures { result ≡ language.isa.offset (op_of instr.now) };

    /// The instruction that the tokens of a line spell, without line and tag, and
    /// neither early nor late; the tokens hold no comments. Its symbolic registers have the numbers
    /// of their names, and names that `symbols` hasn't yet are added. Where the tokens spell no
    /// instruction, the answer is the first reason for it, and `symbols` is as it was; so it is
    /// after `NoMemory`.
    fn read_form(
        &self,
        alloc: Global,
        tokens: &[Token<'_>],
        symbols: &mut Symbols,
    ) -> Result<Instr, FormErr>
        requires { length (pairs symbols.old) ≤ 65529 }
        ensures answer { Gives reason_of (λ i. i) result
            (read_behind language (pairs symbols.old) (map token_value tokens.now)) }
        ensures ok { OnOk result
            (pairs symbols.new
            ≡ pairs_behind language (pairs symbols.old) (map token_value tokens.now)) }
        ensures err { OnErr result (pairs symbols.new ≡ pairs symbols.old) }
        ensures count { length (pairs symbols.new) ≤ length (pairs symbols.old) + 7 };

    /// Adds an instruction's one printed spelling to `out`, with the names of its symbolic
    /// registers. After `NoMemory` nothing has changed.
    fn print_form(
        &self,
        instr: &Instr,
        symbols: &Symbols,
        out: &mut Vec<u8>,
    ) -> Result<(), NoMemory>
        requires valid { IsValid language.isa instr.now }
        requires named { IsNamed (pairs symbols.now) instr.now }
        ensures ok { OnOk result
            (out.new.items ≡ out.old.items ++ language.printed (pairs symbols.now) instr.now) }
        ensures err { OnErr result (out.new.items ≡ out.old.items) };

    /// The access of an instruction whose operands have the values `ins`: None
    /// exactly where its form has none.
    fn access(&self, instr: &Instr, ins: &[u128]) -> Option<Access>
        requires valid { IsValid language.isa instr.now }
        requires operands { AreOperands language.isa instr.now ins.now }
        ensures { result ≡ access_of language.isa instr.now ins.now };

    /// What an instruction gives whose operands have the values `ins` and that loads the bytes
    /// `loaded`. Places that it doesn't fill are 0.
    fn exec(&self, instr: &Instr, ins: &[u128], loaded: &[u8]) -> Outs
        requires valid { IsValid language.isa instr.now }
        requires operands { AreOperands language.isa instr.now ins.now }
        requires bytes { length loaded.now ≡ load_size language.isa instr.now.form }
        ensures values { result.regs
            ≡ padded_values 3 (language.isa.values (op_of instr.now) ins.now loaded.now) }
        ensures stored { result.bytes
            ≡ padded_values 32 (stored_by language.isa instr.now ins.now) };

    /// The instruction that makes a step of a loop's counter, on a line, without
    /// tag, and neither early nor late.
    fn counter_op(&self, op: CounterOp, counter: Reg, line: u32) -> Instr
        requires counts { can_count language.isa.name counter ≡ true }
        requires step { IsStep op }
        ensures { result ≡ language.step_of op counter line };

    // The laws: the set is lawful; what is read is of the set, and what is printed
    // of it is read again; and so on.
    ghost lawful: { IsLanguage language };
}
