//! The instructions that make the steps of a counter.
ghost use Rattle.std.specs.Prelude.{◌≡◌, pos};
ghost use Rattle.form_isa.specs.CounterSteps as spec;

use sl_isa::{Bank, CounterOp, Instr, Reg};

// The number of a counter's step.
fn step_number(op: CounterOp) -> i64
    ensures { result ≡ pos (spec.step_number op) }
{
    match op {
        CounterOp::Sub { number } => i64::from(number),
        CounterOp::Subs => 1,
        CounterOp::Lsr { by } => i64::from(by),
    }
}

// The second output of a counter's step.
fn step_flags(op: CounterOp) -> Option<Reg>
    ensures { result ≡ spec.step_flags op }
{
    if op != CounterOp::Subs {
        return None;
    }
    Some(Reg {
        bank: Bank::Flags,
        symbolic: false,
        number: 0,
    })
}

/// The instruction of a form that makes a step of a counter, on a line.
#[tactic(auto, unfolding(crate::specs::CounterSteps::step_instr))]
pub fn step_instr(form: u16, op: CounterOp, counter: Reg, line: u32) -> Instr
    ensures { result ≡ spec.step_instr form op counter line }
{
    Instr {
        form,
        wide: false,
        imms: [step_number(op), 0, 0],
        ins: [Some(counter), None, None, None],
        outs: [Some(counter), step_flags(op), None],
        tag: None,
        early: false,
        late: false,
        line,
    }
}
