//! Armv7E-M as an architecture.
ghost use Rattle.std.specs.Prelude.{◌≡◌};
ghost use Rattle.m4_table.specs.M4.{m4, step_form};
ghost use Rattle.m4_table.specs.Laws.{m4_lawful};

use crate::M4;
use crate::rows::table;
use sl_base::NoMemory;
use sl_isa::{Access, Arch, ArchName, CounterOp, FormErr, FormInfo, Instr, Outs, Reg, Symbols};
use sl_text::Token;
use std::alloc::Global;

#[tactic(auto, unfolding(crate::specs::M4::m4, wide_forms::specs::Wide::wide_language, wide_forms::specs::Wide::wide_isa, form_isa::specs::TableIsa::table_isa, sl_isa::specs::Arch::access_of), using(wide_forms::proofs::ForCallers::wide_stored_is))]
impl Arch for M4 {
    ghost language = { m4 };

    fn name(&self) -> ArchName {
        ArchName::M4
    }

    fn info(&self, form: u16) -> FormInfo {
        form_isa::info_at(&table(), form)
    }

    fn offset(&self, instr: &Instr) -> i64 {
        form_isa::offset_at(&table(), instr)
    }

    fn read_form(
        &self,
        alloc: Global,
        tokens: &[Token<'_>],
        symbols: &mut Symbols,
    ) -> Result<Instr, FormErr> {
        wide_forms::read_form(&table(), alloc, tokens, symbols)
    }

    fn print_form(
        &self,
        instr: &Instr,
        symbols: &Symbols,
        out: &mut Vec<u8>,
    ) -> Result<(), NoMemory> {
        wide_forms::print_form(&table(), instr, symbols, out)
    }

    fn access(&self, instr: &Instr, ins: &[u128]) -> Option<Access> {
        let info = form_isa::info_at(&table(), instr.form);
        let offset = form_isa::offset_at(&table(), instr);
        form_isa::access_of(ArchName::M4, &info, offset, ins)
    }

    fn exec(&self, instr: &Instr, ins: &[u128], loaded: &[u8]) -> Outs {
        Outs {
            regs: form_isa::values_at(ArchName::M4, &table(), instr, ins, loaded),
            bytes: form_isa::bytes_at(&table(), instr, ins),
        }
    }

    fn counter_op(&self, op: CounterOp, counter: Reg, line: u32) -> Instr {
        form_isa::step_instr(step_form(op), op, counter, line)
    }

    ghost lawful = { m4_lawful };
}

// The form of a counter's step: `sub` and `subs` of a register and a number, and `lsr`.
fn step_form(op: CounterOp) -> u16
    ensures { result ≡ step_form op }
{
    match op {
        CounterOp::Sub { .. } => 14,
        CounterOp::Subs => 30,
        CounterOp::Lsr { .. } => 94,
    }
}
