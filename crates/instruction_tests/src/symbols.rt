//! How AArch64 reads and prints symbolic registers.
use crate::reading::{named_instr, reason_name, text_from};
use crate::walk::{Tested, walk_all};
use arm64_table::Arm64;
use sample_set::Failing;
use sl_isa::{Arch, FormErr, Reg, Symbols};
use std::alloc::{AllocError, Global};

/// Spellings with what they are printed as and the names that they number, or the first reason why
/// they are refused. A name that stands twice is one of two banks.
const SPELLINGS: &str = "\
    add x<a>, x0, x1 => add x<a>, x0, x1 : a\n\
    add x<c>, x<a>, x<b> => add x<c>, x<a>, x<b> : c a b\n\
    add x<a>, x<a>, x<a> => add x<a>, x<a>, x<a> : a\n\
    ADD X<Aa>, x<aa>,X<AA> , Lsl #3 => add x<Aa>, x<aa>, x<AA>, lsl #3 : Aa aa AA\n\
    add x<x>, x<x1>, x<lsl>, lsl #3 => add x<x>, x<x1>, x<lsl>, lsl #3 : x x1 lsl\n\
    add w<_>, w<a_1>, #1 => add w<_>, w<a_1>, #1 : _ a_1\n\
    umull x<a>, w<a>, w<b> => umull x<a>, w<a>, w<b> : a b\n\
    madd x<a>, x<b>, x<c>, x<d> => madd x<a>, x<b>, x<c>, x<d> : a b c d\n\
    csel x<a>, x<b>, xzr, hs => csel x<a>, x<b>, xzr, cs : a b\n\
    movk x<a>, #1, lsl #16 => movk x<a>, #1, lsl #16 : a\n\
    mov x<a>, #7 => movz x<a>, #7 : a\n\
    mov v<a>.16b, v<b>.16b => mov v<a>.16b, v<b>.16b : a b\n\
    add v<a>.4s, V<b>.4S, v<a>.4s => add v<a>.4s, v<b>.4s, v<a>.4s : a b\n\
    mul v<a>.8h, v1.8h, v<h>.h[7] => mul v<a>.8h, v1.8h, v<h>.h[7] : a h\n\
    mul v<a>.4s, v<s>.4s, v<d>.s[3] => mul v<a>.4s, v<s>.4s, v<d>.s[3] : a s d\n\
    dup v<a>.4s, w<a> => dup v<a>.4s, w<a> : a a\n\
    dup v<a>.2d, v<a>.d[1] => dup v<a>.2d, v<a>.d[1] : a\n\
    ldr x<a>, [x<a>] => ldr x<a>, [x<a>] : a\n\
    ldr q<a>, [ x<a> , #16 ] => ldr q<a>, [x<a>, #16] : a a\n\
    ldr s<a>, [x<p>], #-4 => ldr s<a>, [x<p>], #-4 : a p\n\
    str d<a>, [sp, #8] => str d<a>, [sp, #8] : a\n\
    str x<a>, [x<b>, #8]! => str x<a>, [x<b>, #8]! : a b\n\
    ldp q<a>, q<b>, [x<p>, #32]! => ldp q<a>, q<b>, [x<p>, #32]! : a b p\n\
    add x<1>, x0, x1 => BadOperand\n\
    add x<a, x0, x1 => BadOperand\n\
    add x<a, x0>, x1 => BadOperand\n\
    add x<>, x0, x1 => BadOperand\n\
    add x< a>, x0, x1 => BadOperand\n\
    add x<a >, x0, x1 => BadOperand\n\
    add x <a>, x0, x1 => BadOperand\n\
    add x<a b>, x0, x1 => BadOperand\n\
    add x<a.b>, x0, x1 => BadOperand\n\
    add x<a>>, x0, x1 => BadOperand\n\
    add x<<a>, x0, x1 => BadOperand\n\
    add x<x<a>>, x0, x1 => BadOperand\n\
    add <a>, x0, x1 => BadOperand\n\
    add r<a>, x0, x1 => BadOperand\n\
    add a<x>, x0, x1 => BadOperand\n\
    add xx<a>, x0, x1 => BadOperand\n\
    add x0<a>, x0, x1 => BadOperand\n\
    add v<a>, x0, x1 => BadOperand\n\
    add x0, x1, w<a> => BadOperand\n\
    add x0, x1, #<a> => BadOperand\n\
    add v<a>.4s, v1.4s, x<a> => BadOperand\n\
    add v<a>.8h, v1.4s, v2.4s => BadOperand\n\
    add v<a> .4s, v1.4s, v2.4s => BadOperand\n\
    add x<a>, x<b>, x<c>, x<d>, x<e>, x<f> => BadOperand\n\
    x<a> => UnknownMnemonic\n\
    addx x<a>, x<b> => UnknownMnemonic\n\
    add x<a>, x1, #4096 => ImmediateRange\n\
    mul v0.8h, v1.8h, v<a>.h[8] => ImmediateRange\n\
    add xzr, x<a>, x<b> => RegisterClass\n\
    add x<a>, sp, x1 => RegisterClass\n\
    ldr x<a>, [x<a>], #8 => SameRegister\n\
    str x<a>, [x<a>], #8 => SameRegister\n\
    ldp x<a>, x<a>, [x1] => SameRegister";

/// Adds the names of the numbers from 0 on.
fn push_names(out: &mut String, symbols: &Symbols) -> Result<(), AllocError> {
    for number in 0..symbols.count() {
        if let Ok(number) = u16::try_from(number) {
            out.push_str(" ")?;
            out.push_str(symbols.name(number).unwrap_or("no name"))?;
        }
    }
    Ok(())
}

/// How a spelling is printed and which names it numbers, or the reason why it is refused.
fn answer_to(alloc: Global, text: &str) -> Result<String, AllocError> {
    let mut symbols = Symbols::new(alloc);
    match named_instr(alloc, text, &mut symbols) {
        Ok(instr) => {
            let mut out = Vec::new(alloc);
            if Arm64.print_form(&instr, &symbols, &mut out).is_err() {
                return Err(AllocError);
            }
            let mut out = text_from(alloc, &out)?;
            out.push_str(" :")?;
            push_names(&mut out, &symbols)?;
            Ok(out)
        }
        Err(FormErr::NoMemory) => Err(AllocError),
        Err(FormErr::Refused(reason)) => {
            let mut out = String::from_str(alloc, reason_name(reason))?;
            push_names(&mut out, &symbols)?;
            Ok(out)
        }
    }
}

/// A spelling, and how it is printed with its names or why it is refused.
struct Spellings;

impl Tested for Spellings {
    fn try_line(&self, alloc: Global, line: &str, failing: &mut Failing) {
        let (text, wanted) = line.split_once(" => ").unwrap_or((line, "no arrow"));
        failing.compare(text, answer_to(alloc, text), wanted);
    }
}

#[test]
fn symbolic_registers_have_their_answers(rt: HostRuntime) -> Failing {
    walk_all(&Spellings, rt.alloc(), &[SPELLINGS], 56)
}

/// Is this a symbolic register with a number?
fn is_symbol(register: Option<Reg>, number: u16) -> bool {
    match register {
        Some(r) => r.symbolic && r.number == number,
        None => false,
    }
}

// Names keep their numbers from one instruction to the next, and a refused one leaves none behind.
#[test]
fn names_keep_their_numbers(rt: HostRuntime) -> Failing {
    let alloc = rt.alloc();
    let mut failing = Failing::new(alloc);
    let mut symbols = Symbols::new(alloc);
    if let Ok(instr) = named_instr(alloc, "add x<a>, x<b>, x0", &mut symbols) {
        failing.check("the first name", is_symbol(instr.outs[0], 0));
        failing.check("the second name", is_symbol(instr.ins[0], 1));
        failing.check("a register of the machine", !is_symbol(instr.ins[1], 0));
    }
    let refused = named_instr(alloc, "ldp x<c>, x<c>, [x<d>]", &mut symbols).is_err();
    failing.check("refused", refused && symbols.count() == 2);
    if let Ok(instr) = named_instr(alloc, "add x<d>, x<b>, w<a>", &mut symbols) {
        failing.check("no such operands", instr.form == u16::MAX);
    }
    if let Ok(instr) = named_instr(alloc, "add x<d>, x<b>, x<a>", &mut symbols) {
        failing.check("a new name", is_symbol(instr.outs[0], 2));
        failing.check("the second name again", is_symbol(instr.ins[0], 1));
        failing.check("the first name again", is_symbol(instr.ins[1], 0));
    }
    failing.check("three names", symbols.count() == 3);
    failing
}
