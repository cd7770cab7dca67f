//! Rows of a small table: what is read and printed by them, what they say of their forms, and what they compute.
ghost use Rattle.std.specs.Prelude.{◌<◌, ◌^◌, length};

use crate::reading::{reason_name, text_from};
use crate::walk::{Tested, walk_all};
use form_isa::{info_of, values_of};
use form_table::printer::print_form;
use form_table::reader::read_form;
use form_table::table::Table;
use sample_set::Failing;
use sample_set::rows::{
    ADCS, ADD, ADD_LANES, ANY_X, LOAD_PAIR, NO_REGISTER, READABLE, STORE_PAIR, X_OR_ZERO,
};
use sl_isa::{ArchName, FormErr, FormInfo, FormReason, RegSet, Symbols};
use sl_text::{Comments, Line, Token, tokens};
use std::alloc::{AllocError, Global};

/// Spellings with what they are printed as, or the first reason why they are refused.
const SPELLINGS: &str = "\
    add x0, x1, x2 => add x0, x1, x2\n\
    ADD X0,x1 ,\tXZR => add x0, x1, xzr\n\
    add x0, x1, x2, lsl #3 => add x0, x1, x2, lsl #3\n\
    add x0, x1, x2, LSL \t 0 => add x0, x1, x2\n\
    add x0, x1, 0x00010 => add x0, x1, #16\n\
    add x0, x1, #0, lsl #12 => add x0, x1, #0, lsl #12\n\
    subs x30, x29, x28 => subs x30, x29, x28\n\
    eor x1, x1, x1 => eor x1, x1, x1\n\
    mov x7, #65535 => movz x7, #65535\n\
    movz x7, #1, lsl #48 => movz x7, #1, lsl #48\n\
    movz x7, #0, lsl #0 => movz x7, #0\n\
    lsl x3, x4, #63 => lsl x3, x4, #63\n\
    str xzr , [ x4 ] , #-256 => str xzr, [x4], #-256\n\
    csel x0, x1, x2, eq => csel x0, x1, x2, eq\n\
    csel x0, x1, x2, hs => csel x0, x1, x2, cs\n\
    csel x0, x1, x2, HS => csel x0, x1, x2, cs\n\
    csel x0, x1, x2, lo => csel x0, x1, x2, cc\n\
    csel x0, xzr, x2, Le => csel x0, xzr, x2, le\n\
    ubfx x0, x1, #60, #4 => ubfx x0, x1, #60, #4\n\
    ubfx x0, x1, #0, #64 => ubfx x0, x1, #0, #64\n\
    \x20=> UnknownMnemonic\n\
    addx x0, x1, x2 => UnknownMnemonic\n\
    add.n x0, x1, x2 => UnknownMnemonic\n\
    [x0], x1 => UnknownMnemonic\n\
    add .n x0, x1, x2 => BadOperand\n\
    add => BadOperand\n\
    add x0, x1 => BadOperand\n\
    add x0, x1, x2, x3 => BadOperand\n\
    add x0, x1, x31 => BadOperand\n\
    add x0, x01, x2 => BadOperand\n\
    add x0, w1, x2 => BadOperand\n\
    add x0, x1, #010 => BadOperand\n\
    add x0, x1, # 1 => BadOperand\n\
    add x0, x1, #- 1 => BadOperand\n\
    add x0, x1, #0x => BadOperand\n\
    add x0, x1, x2, lsl#3 => BadOperand\n\
    add x0, x1, x2, lsr #3 => BadOperand\n\
    add x0, x1, #4096 => ImmediateRange\n\
    add x0, xzr, #-1 => ImmediateRange\n\
    add x0, x1, #1, lsl #0 => ImmediateRange\n\
    add x0, x1, #340282366920938463463374607431768211456 => ImmediateRange\n\
    movz x0, #1, lsl #8 => ImmediateRange\n\
    mov xzr, #65536 => ImmediateRange\n\
    csel x0, x1, x2, al => BadOperand\n\
    csel x0, x1, x2, #0 => BadOperand\n\
    csel x0, x1, x2 => BadOperand\n\
    ubfx x0, x1, #60, #5 => ImmediateRange\n\
    ubfx x0, x1, #63, #64 => ImmediateRange\n\
    ubfx x0, x1, #0, #0 => ImmediateRange\n\
    ubfx xzr, x1, #60, #5 => ImmediateRange\n\
    add xzr, x1, x2 => RegisterClass\n\
    add x0, sp, x2 => RegisterClass\n\
    add x<a>, x1, X<b> => add x<a>, x1, x<b>\n\
    add x<a>, x1, w<b> => BadOperand\n\
    str x<a>, [x<b>], #8 => str x<a>, [x<b>], #8\n\
    str x<b>, [x<b>], #8 => SameRegister\n\
    str x4, [sp], #8 => RegisterClass\n\
    str x4, [x4], #8 => SameRegister";

/// The tokens of a text.
fn words_of(alloc: Global, text: &str) -> Result<Vec<Token<'_>>, AllocError>
    requires { length text.now < 2 ^ 31 }
{
    let mut words = Vec::new(alloc);
    for token in tokens(Line { number: 1, text }, Comments::Slash, false) {
        words.push(token)?;
    }
    Ok(words)
}

/// How a spelling is printed, or the reason why it is refused.
fn answer_to(alloc: Global, text: &str) -> Result<String, AllocError> {
    if 1024 <= text.len() {
        return Err(AllocError);
    }
    let words = words_of(alloc, text)?;
    let table = Table {
        first: &READABLE,
        second: &[],
        third: &[],
        fourth: &[],
    };
    let mut out = Vec::new(alloc);
    let mut symbols = Symbols::new(alloc);
    match read_form(&table, alloc, &words, &mut symbols) {
        Ok(instr) => {
            if print_form(&table, &instr, &symbols, &mut out).is_err() {
                return Err(AllocError);
            }
        }
        Err(FormErr::NoMemory) => return Err(AllocError),
        Err(FormErr::Refused(reason)) => return String::from_str(alloc, reason_name(reason)),
    }
    text_from(alloc, &out)
}

/// A spelling, and how it is printed or why it is refused.
struct Spellings;

impl Tested for Spellings {
    fn try_line(&self, alloc: Global, line: &str, failing: &mut Failing) {
        let (text, wanted) = line.split_once(" => ").unwrap_or((line, "no arrow"));
        failing.compare(text, answer_to(alloc, text), wanted);
    }
}

#[test]
fn spellings_have_their_answers(rt: HostRuntime) -> Failing {
    walk_all(&Spellings, rt.alloc(), &[SPELLINGS], 58)
}

const FLAGS: RegSet = RegSet { bits: 1 << 64 };

/// What is said of `add`.
const OF_ADD: FormInfo = FormInfo {
    class: 3,
    in_sets: [X_OR_ZERO, X_OR_ZERO, NO_REGISTER, NO_REGISTER],
    out_sets: [ANY_X, NO_REGISTER, NO_REGISTER],
    tied: [None, None, None],
    back: None,
    base: None,
    store: false,
    size: 0,
};

/// What is said of `adcs`, which is tied and has flags.
const OF_ADCS: FormInfo = FormInfo {
    class: 1,
    in_sets: [X_OR_ZERO, ANY_X, FLAGS, NO_REGISTER],
    out_sets: [ANY_X, FLAGS, NO_REGISTER],
    tied: [Some(1), None, None],
    ..OF_ADD
};

/// What is said of `stp` where its base is written back.
const OF_STORE_PAIR: FormInfo = FormInfo {
    class: 0,
    in_sets: [X_OR_ZERO, X_OR_ZERO, ANY_X, NO_REGISTER],
    tied: [Some(2), None, None],
    back: Some(0),
    base: Some(2),
    store: true,
    size: 16,
    ..OF_ADD
};

/// What is said of `ldp` where its base is written back.
const OF_LOAD_PAIR: FormInfo = FormInfo {
    in_sets: [ANY_X, NO_REGISTER, NO_REGISTER, NO_REGISTER],
    out_sets: [ANY_X, ANY_X, ANY_X],
    tied: [None, None, Some(0)],
    back: Some(2),
    base: Some(0),
    store: false,
    ..OF_STORE_PAIR
};

#[test]
fn rows_say_what_their_forms_are(rt: HostRuntime) -> Failing {
    let mut failing = Failing::new(rt.alloc());
    failing.check("a plain row", info_of(&ADD) == OF_ADD);
    failing.check("a tied row with flags", info_of(&ADCS) == OF_ADCS);
    failing.check("a pair stored", info_of(&STORE_PAIR) == OF_STORE_PAIR);
    failing.check("a pair loaded", info_of(&LOAD_PAIR) == OF_LOAD_PAIR);
    failing
}

// C is set before, and the sum of all ones, 0 and the carry is 0 with Z and C. In lanes the low one wraps, and the next one doesn't get its
// carry.
#[test]
fn sums_of_rows(rt: HostRuntime) -> Failing {
    let mut failing = Failing::new(rt.alloc());
    let sum = values_of(
        ArchName::Arm64,
        &ADCS,
        &[0, 0, 0],
        &[0xffff_ffff_ffff_ffff, 0, 2],
        &[],
    );
    failing.check("a sum with carry", sum == [0, 6, 0]);
    let lanes = values_of(
        ArchName::Arm64,
        &ADD_LANES,
        &[0, 0, 0],
        &[0x0001_ffff, 0x0001_0001],
        &[],
    );
    failing.check("a sum of lanes", lanes == [0x0002_0000, 0, 0]);
    failing
}

/// A mnemonic with so many operands.
fn long_text(alloc: Global, count: usize) -> Result<String, AllocError> {
    let mut text = String::from_str(alloc, "add")?;
    for _ in 0..count {
        text.push_str(" x1,")?;
    }
    Ok(text)
}

/// Is an instruction with so many operands refused for them?
fn is_refused(alloc: Global, count: usize) -> Result<bool, AllocError> {
    let text = long_text(alloc, count)?;
    if 1 << 31 <= text.len() {
        return Ok(false);
    }
    let words = words_of(alloc, text.as_str())?;
    let table = Table {
        first: &READABLE,
        second: &[],
        third: &[],
        fourth: &[],
    };
    let found = read_form(&table, alloc, &words, &mut Symbols::new(alloc));
    Ok(found == Err(FormErr::Refused(FormReason::BadOperand)))
}

// With memory at hand words of any number are read.
#[test]
fn long_lists_of_words_are_refused_as_words(rt: HostRuntime) -> Failing {
    let mut failing = Failing::new(rt.alloc());
    for count in &[32, 33, 48, 64, 65, 256, 257, 4097, 65537] {
        failing.check_number(*count, is_refused(rt.alloc(), *count) == Ok(true));
    }
    failing
}
