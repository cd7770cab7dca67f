//! The cost class of each row of AArch64's table, held against a list by mnemonic that was written on its own.
ghost use Rattle.std.specs.Prelude.{◌<◌};

use crate::form_rows::{PARTS, ROWS};
use arm64_table::Arm64;
use sample_set::Failing;
use sl_isa::Arch;
use sl_text::lines;
use std::alloc::{AllocError, Global};

/// The classes in the order of their numbers, each with what is of it: a mnemonic and the kinds of its operands, `r` for a general register,
/// `v` for a vector register, `e` for an element, `m` for a place in memory, `n` for a number, `s` for a shift and `c` for a condition.
const CLASSES: [(&str, &str); 10] = [
    (
        "alu",
        "add rrr, add rrn, add rrns, sub rrr, sub rrn, sub rrns, adds rrr, adds rrn, adds rrns, subs rrr, subs rrn, subs rrns, \
        adc rrr, sbc rrr, adcs rrr, sbcs rrr, and rrr, orr rrr, eor rrr, bic rrr, \
        mov rr, mov rn, movz rn, movz rns, movk rn, movk rns, csel rrrc",
    ),
    (
        "alus",
        "add rrrs, sub rrrs, adds rrrs, subs rrrs, and rrrs, orr rrrs, eor rrrs, bic rrrs, \
        extr rrrn, lsl rrn, lsr rrn, asr rrn, ror rrn, ubfx rrnn",
    ),
    (
        "mul",
        "mul rrr, madd rrrr, msub rrrr, umulh rrr, smulh rrr, umull rrr, smull rrr",
    ),
    (
        "load",
        "ldr rm, ldr rmn, ldr vm, ldr vmn, ldur rm, ldur rmn, ldur vm, ldur vmn, ldp rrm, ldp rrmn, ldp vvm, ldp vvmn",
    ),
    (
        "store",
        "str rm, str rmn, str vm, str vmn, stur rm, stur rmn, stur vm, stur vmn, stp rrm, stp rrmn, stp vvm, stp vvmn",
    ),
    (
        "valu",
        "add vvv, sub vvv, and vvv, orr vvv, eor vvv, bic vvv, mov vv",
    ),
    (
        "vshift",
        "shl vvn, sli vvn, sshr vvn, ushr vvn, srshr vvn, sri vvn, xtn vv",
    ),
    (
        "vmul",
        "mul vvv, mul vve, mla vvv, mla vve, mls vvv, mls vve, sqdmulh vvv, sqdmulh vve, sqrdmulh vvv, sqrdmulh vve, \
        smull vvv, umull vvv, smlal vvv, umlal vvv, smull2 vvv, umull2 vvv, smlal2 vvv, umlal2 vvv",
    ),
    (
        "vperm",
        "trn1 vvv, trn2 vvv, zip1 vvv, zip2 vvv, uzp1 vvv, uzp2 vvv, ext vvvn, dup ve, ins ee",
    ),
    ("vxfer", "dup vr, ins er, umov re"),
];

/// The letter of an operand's kind.
fn kind_of(operand: &str) -> &'static str {
    if operand.starts_with('#') {
        return "n";
    }
    if operand.starts_with('[') {
        return "m";
    }
    if operand.contains(" #") {
        return "s";
    }
    if operand.contains('[') {
        return "e";
    }
    if operand.starts_with('x') || operand.starts_with('w') {
        return "r";
    }
    if operand != "le" {
        return "v";
    }
    "c"
}

/// The mnemonic of a spelling, and the kinds of its operands.
fn shape_of(alloc: Global, text: &str) -> Result<String, AllocError> {
    let (mnemonic, operands) = text.split_once(" ").unwrap_or((text, ""));
    let mut shape = String::from_str(alloc, mnemonic)?;
    shape.push_str(" ")?;
    for operand in operands.split(", ") {
        shape.push_str(kind_of(operand))?;
    }
    Ok(shape)
}

/// The names of the classes that have a spelling.
fn wanted_for(alloc: Global, text: &str) -> Result<String, AllocError> {
    let shape = shape_of(alloc, text)?;
    let mut names = String::new(alloc);
    for (name, shapes) in CLASSES {
        if shapes.split(", ").any(|other| other == shape.as_str()) {
            names.push_str(name)?;
        }
    }
    Ok(names)
}

/// The name of the class of a form.
fn class_of(form: u16) -> &'static str
    requires { form < 425 }
{
    let class = usize::from(Arm64.info(form).class);
    if class < 10 {
        return CLASSES[class].0;
    }
    "none"
}

/// Notes the rows of a part, the first of which has this form, that have another class; gives the form behind them.
fn check_part(alloc: Global, part: &str, first: u16, failing: &mut Failing) -> u16 {
    let mut form = first;
    if part.len() < 65536 {
        for line in lines(part, 1) {
            if form < 425 {
                failing.compare(line.text, wanted_for(alloc, line.text), class_of(form));
            }
            form = form.saturating_add(1);
        }
    }
    form
}

#[test]
fn each_row_has_its_class(rt: HostRuntime) -> Failing {
    let mut failing = Failing::new(rt.alloc());
    let mut form: u16 = 0;
    for part in &PARTS {
        form = check_part(rt.alloc(), part, form, &mut failing);
    }
    failing.check("the number of rows", usize::from(form) == ROWS);
    failing
}
