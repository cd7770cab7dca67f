//! AArch64 as an architecture.
ghost use Rattle.std.specs.Prelude.{◌≡◌};
ghost use Rattle.arm64_table.specs.Arm64.{arm64, step_form};
ghost use Rattle.arm64_table.specs.Laws.{arm64_lawful};

use crate::Arm64;
use crate::rows::table;
use form_table::{printer, reader};
use sl_base::NoMemory;
use sl_isa::{Access, Arch, ArchName, CounterOp, FormErr, FormInfo, Instr, Outs, Reg, Symbols};
use sl_text::Token;
use std::alloc::Global;

#[tactic(auto, unfolding(crate::specs::Arm64::arm64, form_isa::specs::TableIsa::table_language, form_isa::specs::TableIsa::table_isa, sl_isa::specs::Arch::access_of), using(form_isa::proofs::ForCallers::stored_is))]
impl Arch for Arm64 {
    ghost language = { arm64 };

    fn name(&self) -> ArchName {
        ArchName::Arm64
    }

    fn info(&self, form: u16) -> FormInfo {
        form_isa::info_at(&table(), form)
    }

    fn offset(&self, instr: &Instr) -> i64 {
        form_isa::offset_at(&table(), instr)
    }

    fn read_form(
        &self,
        alloc: Global,
        tokens: &[Token<'_>],
        symbols: &mut Symbols,
    ) -> Result<Instr, FormErr> {
        reader::read_form(&table(), alloc, tokens, symbols)
    }

    fn print_form(
        &self,
        instr: &Instr,
        symbols: &Symbols,
        out: &mut Vec<u8>,
    ) -> Result<(), NoMemory> {
        printer::print_form(&table(), instr, symbols, out)
    }

    fn access(&self, instr: &Instr, ins: &[u128]) -> Option<Access> {
        let info = form_isa::info_at(&table(), instr.form);
        let offset = form_isa::offset_at(&table(), instr);
        form_isa::access_of(ArchName::Arm64, &info, offset, ins)
    }

    fn exec(&self, instr: &Instr, ins: &[u128], loaded: &[u8]) -> Outs {
        Outs {
            regs: form_isa::values_at(ArchName::Arm64, &table(), instr, ins, loaded),
            bytes: form_isa::bytes_at(&table(), instr, ins),
        }
    }

    fn counter_op(&self, op: CounterOp, counter: Reg, line: u32) -> Instr {
        form_isa::step_instr(step_form(op), op, counter, line)
    }

    ghost lawful = { arm64_lawful };
}

// The form of a counter's step: `sub` and `subs` of an X register and a
// number, and `lsr` of an X register.
fn step_form(op: CounterOp) -> u16
    ensures { result ≡ step_form op }
{
    match op {
        CounterOp::Sub { .. } => 20,
        CounterOp::Subs => 44,
        CounterOp::Lsr { .. } => 122,
    }
}
