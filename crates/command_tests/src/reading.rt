//! Regions of texts: their items' lines, or the first refusal, written by hand.
use arm64_table::Arm64;
use asm_reader::{ReadRefusal, Reason, Wants, read_region};
use macro_expand::ExpandReason;
use sample_set::Failing;
use sl_isa::FormReason;
use sl_text::CutRefusal;
use std::alloc::{AllocError, Global};

/// At most 64 items.
pub(crate) const WANTS: Wants = Wants { limit: 64 };

fn reason_name(reason: FormReason) -> &'static str {
    match reason {
        FormReason::UnknownMnemonic => "UnknownMnemonic",
        FormReason::BadOperand => "BadOperand",
        FormReason::ImmediateRange => "ImmediateRange",
        FormReason::RegisterClass => "RegisterClass",
        FormReason::SameRegister => "SameRegister",
    }
}

/// Adds why a region isn't expanded.
fn push_expand(text: &mut String, reason: ExpandReason) -> Result<(), AllocError> {
    match reason {
        ExpandReason::NoEndm => text.push_str("NoEndm"),
        ExpandReason::MacroTwice => text.push_str("MacroTwice"),
        ExpandReason::MacroShape => text.push_str("MacroShape"),
        ExpandReason::ArgCount => text.push_str("ArgCount"),
        ExpandReason::ParamUnknown => text.push_str("ParamUnknown"),
        ExpandReason::AliasTwice => text.push_str("AliasTwice"),
        ExpandReason::AliasUnknown => text.push_str("AliasUnknown"),
        ExpandReason::Depth { limit } => write!(text, "Depth {limit}"),
        ExpandReason::ExpansionSize { limit } => write!(text, "ExpansionSize {limit}"),
    }
}

/// Adds why a region isn't read.
fn push_reason(text: &mut String, reason: Reason) -> Result<(), AllocError> {
    match reason {
        Reason::Cut(CutRefusal::NoStart) => text.push_str("NoStart"),
        Reason::Cut(CutRefusal::NoEnd) => text.push_str("NoEnd"),
        Reason::Cut(CutRefusal::Twice { line }) => write!(text, "Twice {line}"),
        Reason::Form(form) => text.push_str(reason_name(form)),
        Reason::Expand(reason) => push_expand(text, reason),
        Reason::TagBad => text.push_str("TagBad"),
        Reason::SymbolUnset => text.push_str("SymbolUnset"),
        Reason::NotYet => text.push_str("NotYet"),
        Reason::TooMany(limit) => write!(text, "TooMany {limit}"),
    }
}

/// The lines of the items of a text between the labels `s` and `e`, a blank behind each; or the line of its first refusal and the reason.
fn answer_to(alloc: Global, text: &str, wants: Wants) -> Result<String, AllocError> {
    let mut answer = String::new(alloc);
    if 1 << 31 <= text.len() {
        return Err(AllocError);
    }
    match read_region(&Arm64, alloc, text, "s", "e", wants) {
        Ok(region) => {
            for item in &region.items {
                let line = item.line;
                write!(answer, "{line} ")?;
            }
        }
        Err(ReadRefusal::Refused(refusal)) => {
            let line = refusal.line;
            write!(answer, "{line}: ")?;
            push_reason(&mut answer, refusal.reason)?;
        }
        Err(ReadRefusal::NoMemory) => return Err(AllocError),
    }
    Ok(answer)
}

/// What stands between the labels, from line 2 on, and its answer.
const REGIONS: [(&str, &str); 46] = [
    // statements
    ("", ""),
    (" \t", ""),
    ("add x0, x1, x2", "2 "),
    ("add x0,x1,x2;eor x3,x1,x2 ;; sub x4,x1,x2;", "2 2 2 "),
    ("add x0,x1,x2 /* ; */, lsl #1", "2 "),
    ("; /* x\n; nop */ add x0,x1,x2", "3 "),
    ("add x0,x1,x2 // ; nop\n\nsub x3,x1,x2", "2 4 "),
    ("/* a\n b */ add x0, /* c */ x1, x2\nadd x3,x1,x2", "3 4 "),
    ("add x0,x1,x2 @ a", "2: BadOperand"),
    ("add x0,x1\n, x2", "2: BadOperand"),
    // what is read later
    (".text", "2: UnknownMnemonic"),
    (" . text", "2: UnknownMnemonic"),
    ("loop:", "2: NotYet"),
    ("loop :", "2: UnknownMnemonic"),
    ("1:", "2: UnknownMnemonic"),
    ("b.ne 1f", "2: NotYet"),
    ("B.NE 1f", "2: NotYet"),
    ("b .ne 1f", "2: NotYet"),
    ("b.eq 1f", "2: UnknownMnemonic"),
    ("bl f", "2: UnknownMnemonic"),
    ("Ldr x0, [x1]", "2 "),
    ("ldrb w0, [x1]", "2: UnknownMnemonic"),
    ("stp q0, q1, [x0]", "2 "),
    ("acc .req x0", ""),
    ("acc\t.UnReq", "2: UnknownMnemonic"),
    (
        "a .req x0\nadd a, a, a; .unreq a\nadd a, x0, x1",
        "4: BadOperand",
    ),
    (".unreq a", "2: AliasUnknown"),
    (".macro m\nadd x0,x1,x2\n.endm\nm; m", "5 5 "),
    (".macro m\nm\n.endm\nm", "5: Depth 16"),
    ("acc.req x0", "2: UnknownMnemonic"),
    ("acc . req x0", "2: UnknownMnemonic"),
    ("add x0, x1 > x2", "2: BadOperand"),
    // registers that are written twice
    ("add x0,x1,x2\nadd x0,x1,x2", "2 3 "),
    ("add x0,x1,x2\nadd w0,w1,w2", "2 3 "),
    ("add x0,x1,x2\nadd v0.4s,v1.4s,v2.4s", "2 3 "),
    ("adds x0,x1,x2\nsubs x3,x1,x2", "2 3 "),
    ("add x0,x0,x0\nadd x1,x0,x0", "2 3 "),
    // reasons
    ("add x0,x1,#4096", "2: ImmediateRange"),
    ("add xzr,x1,x2", "2: RegisterClass"),
    // the first refusal counts
    ("add x0,x1,x2\nnop\n.text", "3: UnknownMnemonic"),
    ("add x0,x1,x2; .text\nnop", "2: UnknownMnemonic"),
    ("add x0,x1,x2; nop; .text", "2: UnknownMnemonic"),
    ("add x0,x1,x2\nadd x0,x1,x2; nop", "3: UnknownMnemonic"),
    ("s:", "2: Twice 2"),
    ("\n\ne:", "5: Twice 5"),
    ("add x0,x1,x2\ns: // again\nnop", "3: Twice 3"),
];

/// The answer to what stands between the labels.
pub(crate) fn answer_between(
    alloc: Global,
    body: &str,
    wants: Wants,
) -> Result<String, AllocError> {
    let text = format!(in alloc; "s:\n{body}\ne:\n")?;
    answer_to(alloc, text.as_str(), wants)
}

#[test]
fn regions_have_their_answers(rt: HostRuntime) -> Failing {
    let mut failing = Failing::new(rt.alloc());
    for (body, wanted) in &REGIONS {
        failing.compare(body, answer_between(rt.alloc(), body, WANTS), wanted);
    }
    failing
}

/// Lines with notes, and the answer: the items' lines, or the refusal.
const NOTES: [(&str, &str); 60] = [
    // what is a note
    ("add x0,x1,x2 // @slothy:i=0", "2 "),
    ("add x0,x1,x2 // @SLOTHY:I=0", "2 "),
    ("add x0,x1,x2 //@slothy:mem", "2 "),
    ("add x0,x1,x2 //  @slothy:mem", "2 "),
    ("add x0,x1,x2 // slothy:mem", "2 "),
    ("add x0,x1,x2 // a // @slothy:mem", "2 "),
    ("add x0,x1,x2 /* // @slothy:mem */", "2 "),
    ("/*\n// @slothy:mem\n*/ add x0,x1,x2", "4 "),
    ("/* x\n// @slothy:mem */ add x0,x1,x2", "3 "),
    ("/* x\n*/ add x0,x1,x2 // @slothy:mem", "3: TagBad"),
    // each word
    ("add x0,x1,x2 // @slothy:", "2 "),
    ("add x0,x1,x2 // @slothy: \t may_early\t", "2 "),
    ("add x0,x1,x2 // @slothy:May_Late", "2 "),
    ("ldr x0,[x1] // @slothy:MEM=_9 may_early", "2 "),
    (
        "add x0,x1,x2 // @slothy:i=0 u=u_2 c=0 part=dec line=7",
        "2 ",
    ),
    ("add x0,x1,x2 // @slothy:PART=Pre", "2 "),
    ("add x0,x1,x2 // @slothy:part=post", "2 "),
    ("add x0,x1,x2 // @slothy:u=abcdefghijklmnop", "2 "),
    (
        "add x0,x1,x2 // @slothy:i=340282366920938463463374607431768211455",
        "2 ",
    ),
    ("// @slothy:region", ""),
    (
        "// @slothy: Region V=2 KIND=Loop n=0 cycles=1 stalls=2 least=3 early=4",
        "",
    ),
    ("// @slothy:region kind=straight", ""),
    ("add x0,x1,x2 // @slothy:region early=3", "2 "),
    // words that are none
    ("add x0,x1,x2 // @slothy:late", "2: TagBad"),
    ("add x0,x1,x2 // @slothy:may_early=1", "2: TagBad"),
    ("add x0,x1,x2 // @slothy:i", "2: TagBad"),
    ("add x0,x1,x2 // @slothy:i=", "2: TagBad"),
    ("add x0,x1,x2 // @slothy:i=01", "2: TagBad"),
    ("add x0,x1,x2 // @slothy:i=0x1", "2: TagBad"),
    ("add x0,x1,x2 // @slothy:i=-1", "2: TagBad"),
    ("add x0,x1,x2 // @slothy:i =1", "2: TagBad"),
    (
        "add x0,x1,x2 // @slothy:i=340282366920938463463374607431768211456",
        "2: TagBad",
    ),
    ("ldr x0,[x1] // @slothy:mem", "2: TagBad"),
    ("ldr x0,[x1] // @slothy:mem=", "2: TagBad"),
    ("ldr x0,[x1] // @slothy:mem=a-b", "2: TagBad"),
    ("add x0,x1,x2 // @slothy:u=2", "2: TagBad"),
    ("add x0,x1,x2 // @slothy:u=_a", "2: TagBad"),
    ("add x0,x1,x2 // @slothy:u=abcdefghijklmnopq", "2: TagBad"),
    ("add x0,x1,x2 // @slothy:part=body", "2: TagBad"),
    ("add x0,x1,x2 // @slothy:n=1", "2: TagBad"),
    ("add x0,x1,x2 // @slothy:i=1 region", "2: TagBad"),
    ("// @slothy:region i=1", "2: TagBad"),
    ("// @slothy:region kind=both", "2: TagBad"),
    ("// @slothy:region=1", "2: TagBad"),
    // words that stand twice, or against each other
    ("add x0,x1,x2 // @slothy:i=1 I=2", "2: TagBad"),
    ("ldr x0,[x1] // @slothy:mem=a mem=b", "2: TagBad"),
    ("add x0,x1,x2 // @slothy:may_late may_late", "2: TagBad"),
    ("add x0,x1,x2 // @slothy:may_late may_early", "2: TagBad"),
    ("// @slothy:region region", "2: TagBad"),
    // which instruction a note belongs to
    ("add x0,x1,x2 // @slothy:mem=a", "2: TagBad"),
    ("ldr x0,[x1] // @slothy:mem=a", "2 "),
    ("ldr x0,[x1]; add x2,x3,x4 // @slothy:mem=a", "2: TagBad"),
    ("add x2,x3,x4; ldr x0,[x1]; // @slothy:mem=a", "2 2 "),
    ("ldr x0,[x1]; add x2,x3,x4; // @slothy:mem=a", "2: TagBad"),
    ("// @slothy:i=0", "2: TagBad"),
    ("// @slothy:", "2: TagBad"),
    ("add x0,x1,x2\n; // @slothy:i=0", "3: TagBad"),
    ("add x0,x1,x2; ; // @slothy:i=0", "2 "),
    // the first refusal counts
    ("nop // @slothy:mem", "2: UnknownMnemonic"),
    ("add x0,x1,x2; add x0,x1,x2 // @slothy:mem", "2: TagBad"),
];

#[test]
fn notes_have_their_answers(rt: HostRuntime) -> Failing {
    let mut failing = Failing::new(rt.alloc());
    for (body, wanted) in &NOTES {
        failing.compare(body, answer_between(rt.alloc(), body, WANTS), wanted);
    }
    failing
}

/// Is a region of so many items read, in a text with so many bytes before it?
fn is_read(alloc: Global, count: usize, before: usize, wants: Wants) -> Result<bool, AllocError> {
    let mut text = String::new(alloc);
    for _ in 0..before {
        text.push_str("-")?;
    }
    text.push_str("\ns:\n")?;
    for _ in 0..count {
        text.push_str("add x0, x1, x2\n")?;
    }
    text.push_str("e:\n")?;
    if 1 << 31 <= text.len() {
        return Err(AllocError);
    }
    match read_region(&Arm64, alloc, text.as_str(), "s", "e", wants) {
        Ok(region) => Ok(region.items.len() == count),
        Err(_) => Ok(false),
    }
}

// With memory at hand regions of any length are read, in texts of any length.
#[test]
fn long_regions_are_read(rt: HostRuntime) -> Failing {
    let wants = Wants { limit: 5000 };
    let mut failing = Failing::new(rt.alloc());
    for count in &[0, 1, 31, 32, 33, 48, 49, 64, 65, 192, 257, 4097, 5000] {
        failing.check_number(*count, is_read(rt.alloc(), *count, 0, wants) == Ok(true));
    }
    failing.check(
        "past the limit",
        is_read(rt.alloc(), 5001, 0, wants) == Ok(false),
    );
    for before in &[64, 4096, 32768, 65536, 1048576] {
        failing.check_number(*before, is_read(rt.alloc(), 3, *before, wants) == Ok(true));
    }
    failing
}
