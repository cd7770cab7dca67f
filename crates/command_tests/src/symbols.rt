//! Regions with symbolic registers: their items' lines and the registers' names, or the first refusal,
//! written by hand.
use crate::reading::{WANTS, answer_between};
use arm64_table::Arm64;
use asm_reader::read_region;
use sample_set::Failing;
use std::alloc::{AllocError, Global};

/// Lines with symbolic registers, and the answer.
const SYMBOLS: [(&str, &str); 32] = [
    // what is written above may be read
    ("add x<a>, x1, x2", "2 "),
    ("add x<a>, x1, x2\nadd x0, x<a>, x<a>", "2 3 "),
    ("add X<a>,x1,x2\nadd x0, x<a>,x1", "2 3 "),
    ("add x<_a9>, x1, x2; add x0, x<_a9>, x1", "2 2 "),
    ("add x<a>, x1, x2\nadd w0, w<a>, w1", "2 3 "),
    ("add w<a>, w1, w2\nadd x0, x<a>, x1", "2 3 "),
    ("add v<a>.4s, v1.4s, v2.4s\nstr q<a>, [x0]", "2 3 "),
    ("ldr q<a>, [x0]\nadd v0.8h, v<a>.8h, v<a>.8h", "2 3 "),
    ("add x<a>, x1, x2\nadd x<a>, x<a>, x<a>", "2 3 "),
    (
        "add x<a>, x1, x2\nldr x<b>, [x<a>], #8\nstr x<b>, [x<a>]",
        "2 3 4 ",
    ),
    (
        "add x<a>, x1, x2\nadd x<b>, x<a>, x2\nadd x0, x<a>, x<b>",
        "2 3 4 ",
    ),
    // nothing else may
    ("add x0, x<a>, x1", "2: SymbolUnset"),
    ("add x<a>, x<a>, x1", "2: SymbolUnset"),
    ("add x0, x<a>, x1\nadd x<a>, x1, x2", "2: SymbolUnset"),
    ("mla v<a>.4s, v1.4s, v2.4s", "2: SymbolUnset"),
    ("str x1, [x<a>]", "2: SymbolUnset"),
    ("ldr x0, [x<a>], #8", "2: SymbolUnset"),
    // a name is one in its bank, in letters of one case
    ("add x<a>, x1, x2\nadd x0, x<A>, x1", "3: SymbolUnset"),
    ("add x<a>, x1, x2\nadd x0, x<ab>, x1", "3: SymbolUnset"),
    (
        "add x<a>, x1, x2\nadd v0.4s, v<a>.4s, v1.4s",
        "3: SymbolUnset",
    ),
    ("add x<a>, x1, x2\nstr d<a>, [x0]", "3: SymbolUnset"),
    // what is no symbolic register
    ("add x<1>, x1, x2", "2: BadOperand"),
    ("add x<a, x1, x2", "2: BadOperand"),
    ("add x< a>, x1, x2", "2: BadOperand"),
    ("add r<a>, x1, x2", "2: BadOperand"),
    ("add x<a>, x1, v<b>.4s", "2: BadOperand"),
    ("add x<a>.4s, x1, x2", "2: BadOperand"),
    ("ldr x<a>, [x<a>], #8", "2: SameRegister"),
    // registers come after all statements, and the first line counts
    ("add x0, x<a>, x1\nnop", "3: UnknownMnemonic"),
    ("add x0, x<a>, x1 // @slothy:mem=a", "2: TagBad"),
    (
        "add x0, x1, x2\nadd x0, x<a>, x1\nadd x0, x<b>, x1",
        "3: SymbolUnset",
    ),
    (
        "add x0, x<b>, x1; add x<b>, x1, x2\nstr x<c>, [x0]",
        "2: SymbolUnset",
    ),
];

#[test]
fn symbols_have_their_answers(rt: HostRuntime) -> Failing {
    let mut failing = Failing::new(rt.alloc());
    for (body, wanted) in &SYMBOLS {
        failing.compare(body, answer_between(rt.alloc(), body, WANTS), wanted);
    }
    failing
}

/// Lines, and the names of their symbolic registers by their numbers, a blank behind each.
const NAMES: [(&str, &str); 5] = [
    ("add x0, x1, x2", ""),
    ("add x<b>, x1, x2\nadd x<a>, x<b>, x<b>", "b a "),
    ("add x<b>, x1, x2\nadd w<b>, w<b>, w<b>", "b "),
    ("add x<b>, x1, x2\nldr q<b>, [x<b>]", "b b "),
    ("ldr q<z>, [x0]; ldr d<Z>, [x0]; ldr s<z>, [x0]", "z Z "),
];

/// The names of the symbolic registers of what stands between the labels.
fn names_between(alloc: Global, body: &str) -> Result<String, AllocError> {
    let text = format!(in alloc; "s:\n{body}\ne:\n")?;
    if 1 << 31 <= text.len() {
        return Err(AllocError);
    }
    let mut names = String::new(alloc);
    let Ok(region) = read_region(&Arm64, alloc, text.as_str(), "s", "e", WANTS) else {
        return Err(AllocError);
    };
    for number in 0..100 {
        if let Some(name) = region.symbols.name(number) {
            write!(names, "{name} ")?;
        }
    }
    Ok(names)
}

#[test]
fn names_have_their_numbers(rt: HostRuntime) -> Failing {
    let mut failing = Failing::new(rt.alloc());
    for (body, wanted) in &NAMES {
        failing.compare(body, names_between(rt.alloc(), body), wanted);
    }
    failing
}
