//! A small instruction set of eight forms: sums, differences, a shift, a load and a store. It shows
//! that what the laws of architectures ask for can be met.
ghost use Rattle.std.specs.Prelude.{◌≡◌, ◌%◌, ◌^◌, ◌<◌, ◌∷◌, [], pos, slice_index};
ghost use Rattle.sl_isa.specs.Arch.{padded_values};
ghost use Rattle.sl_model.specs.Lawful.{IsValid};
ghost use Rattle.sample_set.specs.FewForms.{few, few_isa, few_step, form_of, info_of, less, flags_of, values_by, stored_by_form, step_form, step_number, step_flags, offset_by, access_by, x_register, example, example_ins, example_outs, operand_in, number_in, plain_info};
ghost use Rattle.sample_set.specs.Laws.{few_language};

use sl_base::NoMemory;
use sl_isa::{
    Access, Arch, ArchName, Bank, CounterOp, FormErr, FormInfo, FormReason, Instr, Outs, Reg,
    RegSet, Symbols,
};
use sl_text::Token;
use std::alloc::Global;

// `add`, `sub` and `eor` of three x registers; `sub`, `subs` and `lsr` with a number; a load of two
// bytes, and a store of two bytes that moves its base on.
#[derive(Clone, Copy, PartialEq, Eq)]
enum Form {
    AddRegisters,
    SubRegisters,
    EorRegisters,
    SubNumber,
    SubsNumber,
    LsrNumber,
    LoadHalf,
    StoreHalf,
}

/// The architecture of these forms.
pub struct FewForms;

// The form with a number.
fn form_of(number: u16) -> Form
    ensures { result ≡ form_of number }
{
    match number {
        0 => Form::AddRegisters,
        1 => Form::SubRegisters,
        2 => Form::EorRegisters,
        3 => Form::SubNumber,
        4 => Form::SubsNumber,
        5 => Form::LsrNumber,
        6 => Form::LoadHalf,
        _ => Form::StoreHalf,
    }
}

// A form without access, with a set for its second operand and one for its second output.
fn plain_info(second: RegSet, flags: RegSet) -> FormInfo
    ensures { result ≡ plain_info second flags }
{
    let x_registers = RegSet {
        bits: (1 << 31) - 1,
    };
    let nothing = RegSet { bits: 0 };
    FormInfo {
        class: 0,
        in_sets: [x_registers, second, nothing, nothing],
        out_sets: [x_registers, flags, nothing],
        tied: [None; 3],
        back: None,
        base: None,
        store: false,
        size: 0,
    }
}

// What the table says of a form.
fn info_of(form: Form) -> FormInfo
    ensures { result ≡ info_of form }
{
    let x_registers = RegSet {
        bits: (1 << 31) - 1,
    };
    let nothing = RegSet { bits: 0 };
    match form {
        Form::AddRegisters | Form::SubRegisters | Form::EorRegisters => plain_info(
            x_registers,
            nothing,
        ),
        Form::SubNumber | Form::LsrNumber => plain_info(nothing, nothing),
        Form::SubsNumber => plain_info(nothing, RegSet { bits: 1 << 64 }),
        Form::LoadHalf => FormInfo {
            base: Some(0),
            size: 2,
            ..plain_info(nothing, nothing)
        },
        Form::StoreHalf => FormInfo {
            tied: [Some(1), None, None],
            back: Some(0),
            base: Some(1),
            store: true,
            size: 2,
            ..plain_info(x_registers, nothing)
        },
    }
}

// The value of an operand, as that of an x register.
fn operand(ins: &[u128], place: usize) -> u64
    ensures { result ≡ operand_in ins.now place }
{
    if place < ins.len() {
        (ins[place] % (1 << 64)) as u64
    } else {
        0
    }
}

// A byte that was loaded.
fn loaded_byte(loaded: &[u8], place: usize) -> u64
    ensures value { result ≡ slice_index loaded.now place }
    ensures byte { result < 256 }
{
    if place < loaded.len() {
        u64::from(loaded[place])
    } else {
        0
    }
}

// A number less another, in 64 bits.
fn less(from: u64, number: u64) -> u64
    ensures { result ≡ less from number }
{
    from.wrapping_sub(number)
}

// The flags N, Z, C, V of a number less one below 64.
fn flags_of(from: u64, number: u64) -> u64
    ensures { result ≡ flags_of from number }
{
    let rest = less(from, number);
    let negative = if rest < 1 << 63 { 0 } else { 8 };
    let zero = if rest == 0 { 4 } else { 0 };
    let carry = if from < number { 0 } else { 2 };
    let overflow = if from < 1 << 63 {
        0
    } else if rest < 1 << 63 {
        1
    } else {
        0
    };
    negative + zero + carry + overflow
}

// The number of an instruction.
fn number_in(instr: &Instr) -> u64
    ensures { result ≡ number_in instr.now.imms }
{
    instr.imms[0].unsigned_abs()
}

// What an instruction gives that stores nothing: one value.
#[tactic(auto, unfolding(sl_isa::specs::Arch::padded_values))]
fn one_value(value: u64) -> Outs
    ensures regs { result.regs ≡ padded_values 3 (value ∷ []) }
    ensures bytes { result.bytes ≡ padded_values 32 [] }
{
    Outs {
        regs: [u128::from(value), 0, 0],
        bytes: [0; 32],
    }
}

#[tactic(auto, unfolding(crate::specs::FewForms::few, crate::specs::FewForms::few_isa, crate::specs::FewForms::few_step), using(crate::specs::FewLaws::small_number, crate::proofs::FewLemmas::access_is, crate::proofs::FewLemmas::stored_is))]
impl Arch for FewForms {
    ghost language = { few };

    fn name(&self) -> ArchName {
        ArchName::Arm64
    }

    fn info(&self, form: u16) -> FormInfo {
        info_of(form_of(form))
    }

    fn offset(&self, instr: &Instr) -> i64 {
        offset_of(form_of(instr.form), number_in(instr))
    }

    fn read_form(
        &self,
        _alloc: Global,
        _tokens: &[Token<'_>],
        _symbols: &mut Symbols,
    ) -> Result<Instr, FormErr> {
        Err(FormErr::Refused(FormReason::UnknownMnemonic))
    }

    fn print_form(
        &self,
        _instr: &Instr,
        _symbols: &Symbols,
        _out: &mut Vec<u8>,
    ) -> Result<(), NoMemory> {
        Ok(())
    }

    fn access(&self, instr: &Instr, ins: &[u128]) -> Option<Access> {
        access_by(form_of(instr.form), number_in(instr), ins)
    }

    fn exec(&self, instr: &Instr, ins: &[u128], loaded: &[u8]) -> Outs {
        exec_form(form_of(instr.form), number_in(instr), ins, loaded)
    }

    fn counter_op(&self, op: CounterOp, counter: Reg, line: u32) -> Instr {
        Instr {
            form: step_form(op),
            wide: false,
            imms: [step_number(op), 0, 0],
            ins: [Some(counter), None, None, None],
            outs: [Some(counter), step_flags(op), None],
            tag: None,
            early: false,
            late: false,
            line,
        }
    }

    ghost lawful = { few_language };
}

// The form of a counter's step.
fn step_form(op: CounterOp) -> u16
    ensures { result ≡ step_form op }
{
    match op {
        CounterOp::Sub { .. } => 3,
        CounterOp::Subs => 4,
        CounterOp::Lsr { .. } => 5,
    }
}

// The number of a counter's step.
fn step_number(op: CounterOp) -> i64
    ensures { result ≡ pos (step_number op) }
{
    match op {
        CounterOp::Sub { number } => i64::from(number),
        CounterOp::Subs => 1,
        CounterOp::Lsr { by } => i64::from(by),
    }
}

// The second output of a counter's step.
pub(crate) fn step_flags(op: CounterOp) -> Option<Reg>
    ensures { result ≡ step_flags op }
{
    if op != CounterOp::Subs {
        return None;
    }
    Some(Reg {
        bank: Bank::Flags,
        symbolic: false,
        number: 0,
    })
}

// The offset of an access.
fn offset_of(form: Form, number: u64) -> i64
    requires { number < 64 }
    ensures { result ≡ offset_by form number }
{
    match form {
        Form::LoadHalf => number as i64,
        _ => 0,
    }
}

// The access of an instruction of a form.
fn access_by(form: Form, number: u64, ins: &[u128]) -> Option<Access>
    ensures { result ≡ access_by form number ins.now }
{
    match form {
        Form::LoadHalf => Some(Access {
            store: false,
            address: operand(ins, 0).wrapping_add(number),
            size: 2,
        }),
        Form::StoreHalf => Some(Access {
            store: true,
            address: operand(ins, 1),
            size: 2,
        }),
        _ => None,
    }
}

// What an instruction of a form gives.
#[tactic(auto, unfolding(sl_isa::specs::Arch::padded_values))]
fn exec_form(form: Form, number: u64, ins: &[u128], loaded: &[u8]) -> Outs
    requires { number < 64 }
    ensures values { result.regs ≡ padded_values 3 (values_by form number ins.now loaded.now) }
    ensures stored { result.bytes ≡ padded_values 32 (stored_by_form form ins.now) }
{
    let left = operand(ins, 0);
    let right = operand(ins, 1);
    match form {
        Form::AddRegisters => one_value(left.wrapping_add(right)),
        Form::SubRegisters => one_value(less(left, right)),
        Form::EorRegisters => one_value(left ^ right),
        Form::SubNumber => one_value(less(left, number)),
        Form::SubsNumber => Outs {
            regs: [
                u128::from(less(left, number)),
                u128::from(flags_of(left, number)),
                0,
            ],
            bytes: [0; 32],
        },
        Form::LsrNumber => one_value(left >> number),
        Form::LoadHalf => one_value(loaded_byte(loaded, 0) + 256 * loaded_byte(loaded, 1)),
        Form::StoreHalf => {
            let mut bytes = [0; 32];
            bytes[0] = (left % 256) as u8;
            bytes[1] = (left / 256 % 256) as u8;
            Outs {
                regs: [u128::from(right.wrapping_add(number)), 0, 0],
                bytes,
            }
        }
    }
}

// An example of each form: it reads x1, and x2 where it has a second operand, and writes x3; the
// store moves x2 on.
#[tactic(auto, using(crate::proofs::FewLemmas::example_valid))]
pub fn example(form: u16, number: u8) -> Instr
    requires known { form < 8 }
    requires small { number < 64 }
    ensures { IsValid few.isa result }
{
    example_of(form, number)
}

pub(crate) fn example_of(form: u16, number: u8) -> Instr
    ensures { result ≡ example form number }
{
    Instr {
        form,
        wide: false,
        imms: [step_number(CounterOp::Sub { number }), 0, 0],
        ins: example_ins(form_of(form)),
        outs: example_outs(form_of(form)),
        tag: None,
        early: false,
        late: false,
        line: 1,
    }
}

pub(crate) fn x_register(number: u16) -> Option<Reg>
    ensures { result ≡ x_register number }
{
    Some(Reg {
        bank: Bank::General,
        symbolic: false,
        number,
    })
}

fn example_ins(form: Form) -> [Option<Reg>; 4]
    ensures { result ≡ example_ins form }
{
    match form {
        Form::AddRegisters | Form::SubRegisters | Form::EorRegisters | Form::StoreHalf => {
            [x_register(1), x_register(2), None, None]
        }
        _ => [x_register(1), None, None, None],
    }
}

fn example_outs(form: Form) -> [Option<Reg>; 3]
    ensures { result ≡ example_outs form }
{
    match form {
        Form::SubsNumber => [x_register(3), step_flags(CounterOp::Subs), None],
        Form::StoreHalf => [x_register(2), None, None],
        _ => [x_register(3), None, None],
    }
}
