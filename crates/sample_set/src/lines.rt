//! Instructions of the small set in registers of choice.
ghost use Rattle.std.specs.Prelude.{◌≡◌, ◌≢◌, ◌<◌};
ghost use Rattle.sl_model.specs.Lawful.{IsValid};
ghost use Rattle.sample_set.specs.FewForms.{few};
ghost use Rattle.sample_set.specs.FewLines.{sum_of, subs_of, load_of, store_of};

use crate::forms::{example_of, step_flags, x_register};
use sl_isa::{CounterOp, Instr};

/// The sum of two x registers into a third.
pub fn sum_of(out: u16, left: u16, right: u16) -> Instr
    requires out { out < 31 }
    requires left { left < 31 }
    requires right { right < 31 }
    ensures is { result ≡ sum_of out left right }
    ensures valid { IsValid few.isa result }
{
    plain_sum(out, left, right)
}

fn plain_sum(out: u16, left: u16, right: u16) -> Instr
    ensures { result ≡ sum_of out left right }
{
    Instr {
        ins: [x_register(left), x_register(right), None, None],
        outs: [x_register(out), None, None],
        ..example_of(0, 0)
    }
}

/// A register less a number, with flags.
pub fn subs_of(out: u16, from: u16, number: u8) -> Instr
    requires out { out < 31 }
    requires from { from < 31 }
    requires number { number < 64 }
    ensures is { result ≡ subs_of out from number }
    ensures valid { IsValid few.isa result }
{
    plain_subs(out, from, number)
}

fn plain_subs(out: u16, from: u16, number: u8) -> Instr
    ensures { result ≡ subs_of out from number }
{
    Instr {
        ins: [x_register(from), None, None, None],
        outs: [x_register(out), step_flags(CounterOp::Subs), None],
        ..example_of(4, number)
    }
}

/// A load of two bytes at a register and an offset, with a tag.
pub fn load_of(out: u16, base: u16, offset: u8, tag: Option<u16>) -> Instr
    requires out { out < 31 }
    requires base { base < 31 }
    requires offset { offset < 64 }
    ensures is { result ≡ load_of out base offset tag }
    ensures valid { IsValid few.isa result }
{
    plain_load(out, base, offset, tag)
}

fn plain_load(out: u16, base: u16, offset: u8, tag: Option<u16>) -> Instr
    ensures { result ≡ load_of out base offset tag }
{
    Instr {
        ins: [x_register(base), None, None, None],
        outs: [x_register(out), None, None],
        tag,
        ..example_of(6, offset)
    }
}

/// A store of the two low bytes of a register at another one, which it moves on, with a tag.
pub fn store_of(value: u16, base: u16, step: u8, tag: Option<u16>) -> Instr
    requires value { value < 31 }
    requires base { base < 31 }
    requires apart { value ≢ base }
    requires step { step < 64 }
    ensures is { result ≡ store_of value base step tag }
    ensures valid { IsValid few.isa result }
{
    plain_store(value, base, step, tag)
}

fn plain_store(value: u16, base: u16, step: u8, tag: Option<u16>) -> Instr
    ensures { result ≡ store_of value base step tag }
{
    Instr {
        ins: [x_register(value), x_register(base), None, None],
        outs: [x_register(base), None, None],
        tag,
        ..example_of(7, step)
    }
}
