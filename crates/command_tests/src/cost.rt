//! The command as a whole, and costs: how calls have to end.
use crate::calls::{Faults, NONE, Usual, answer_to, compare, compare_usage, is_well, repeated};
use sample_set::Failing;
use std::alloc::{AllocError, Global};
use std::thread::Threads;

/// The costs of a region of three instructions at latency 2.
const COST: Usual = Usual {
    words: "cost k.s --core one:2",
    input: "slothy_start:\n        add x2, x1, x0\n        eor x3, x2, x2\n        sub x4, x1, x0\nslothy_end:\n",
    state: "",
};

/// What `cost` says of it.
const COST_TEXT: &str =
    "kind=straight n=3 cycles=4 stalls=1\nc=0 u=u i=0 line=2 add x2, x1, x0\nc=2 u=u i=1 line=3 eor x3, x2, x2\nc=3 u=u i=2 line=4 sub x4, x1, x0\n";

/// Inputs with their costs, or why they have none.
const INPUTS: &str = "\
nothing|=|||3||slothy: k.s:0: refused: NoStart
~
no end|=|slothy_start:
||3||slothy: k.s:0: refused: NoEnd
~
the end above the start|=|slothy_end:
slothy_start:
||3||slothy: k.s:0: refused: NoEnd
~
two starts|=|slothy_start:
slothy_start:
slothy_end:
||3||slothy: k.s:2: refused: Twice
~
two ends|=|slothy_start:
slothy_end:

slothy_end:
||3||slothy: k.s:4: refused: Twice
~
two starts and no end|=|slothy_start:
slothy_start:
||3||slothy: k.s:2: refused: Twice
~
markers in a comment|=|/*
slothy_start:
*/
slothy_end:
||0|kind=straight n=0 cycles=0 stalls=0
|~
a macro before|=|f:
.macro m
.endm
slothy_start:
slothy_end:
||0|kind=straight n=0 cycles=0 stalls=0
|~
a macro in capitals before|=|f:
.MACRO add
.ENDM
slothy_start:
        add
slothy_end:
||0|kind=straight n=0 cycles=0 stalls=0
|~
an alias before|=|a .req x1
slothy_start:
        add a, a, a
slothy_end:
||0|kind=straight n=1 cycles=1 stalls=0
c=0 u=u i=0 line=3 add x1, x1, x1
|~
the end of no alias before|=|.unreq a
slothy_start:
slothy_end:
||3||slothy: k.s:1: refused: AliasUnknown
~
a macro in a comment before|=|slothy_start: // .macro
slothy_end:
||0|kind=straight n=0 cycles=0 stalls=0
|~
carriage returns|=|slothy_start:\r
        add x1, x2, x3\r
slothy_end:\r
||0|kind=straight n=1 cycles=1 stalls=0
c=0 u=u i=0 line=2 add x1, x2, x3
|~
carriage returns alone|=|slothy_start:\r
slothy_end:\r
||0|kind=straight n=0 cycles=0 stalls=0
|~
no line feed at the end|=|slothy_start:
slothy_end:||0|kind=straight n=0 cycles=0 stalls=0
|~
blanks about the markers|=|  \tslothy_start:  // here
 slothy_end:\t
.macro
||0|kind=straight n=0 cycles=0 stalls=0
|~
a load|=|slothy_start:
        ldr x1, [x0]
slothy_end:
||0|kind=straight n=1 cycles=1 stalls=0
c=0 u=u i=0 line=2 ldr x1, [x0]
|~
statements of all kinds|=|slothy_start:
        add x1, x2, x3

\tADD\tX4,X1,X2 // twice
/* none */ EOR x5 , x4 , x4; sub x6, x5, #1
slothy_end:
||0|kind=straight n=4 cycles=7 stalls=3
c=0 u=u i=0 line=2 add x1, x2, x3
c=2 u=u i=1 line=4 add x4, x1, x2
c=4 u=u i=2 line=5 eor x5, x4, x4
c=6 u=u i=3 line=5 sub x6, x5, #1
|~
a note|=|slothy_start:
        add x1, x2, x3 // @slothy:tag=t
slothy_end:
||3||slothy: k.s:2: refused: TagBad
~
an unknown mnemonic|=|slothy_start:
        madden x1, x2
slothy_end:
||3||slothy: k.s:2: refused: UnknownMnemonic
~
a number past its range|=|slothy_start:
        add x1, x2, #4096
slothy_end:
||3||slothy: k.s:2: refused: ImmediateRange
~
no such register|=|slothy_start:
        add x1, x2, x31
slothy_end:
||3||slothy: k.s:2: refused: BadOperand
~
a register outside its class|=|slothy_start:
        add x1, x2, sp
slothy_end:
||3||slothy: k.s:2: refused: RegisterClass
~
";

/// Inputs with statements, comments and lines of all kinds.
const STATEMENTS: &str = "\
a macro word above no region|=|slothy_end:
.req
slothy_start:||3||slothy: k.s:0: refused: NoEnd
~
a second start with a comment|=|slothy_start:

slothy_start: //
slothy_end:||3||slothy: k.s:3: refused: Twice
~
a macro word before a bad line|=|.macro m
slothy_start:
foo
slothy_end:
||3||slothy: k.s:1: refused: NoEndm
~
an alias on the second line|=|\r
x .req y\r
slothy_start:\r
slothy_end:||0|kind=straight n=0 cycles=0 stalls=0
|~
a macro word in a comment|=|

/* .unreq */
slothy_start:
slothy_end:||0|kind=straight n=0 cycles=0 stalls=0
|~
a word that is nearly an alias|=|// .re
slothy_start:
// .req
slothy_end:
.req||0|kind=straight n=0 cycles=0 stalls=0
|~
comments alone|=|slothy_start:
// a

 /* b
 c */; // d
slothy_end:
||0|kind=straight n=0 cycles=0 stalls=0
|~
a bad line|=|x
slothy_start:

 foo x0, x1, x2
slothy_end:
||3||slothy: k.s:4: refused: UnknownMnemonic
~
a bad statement before a branch|=|slothy_start:
;; foo; b f
slothy_end:
||3||slothy: k.s:2: refused: UnknownMnemonic
~
a branch before a bad statement|=|slothy_start:
;; b f; foo
slothy_end:
||3||slothy: k.s:2: refused: NotYet
~
a label|=|slothy_start:
/**/loop: foo
slothy_end:
||3||slothy: k.s:2: refused: NotYet
~
a directive|=|slothy_start:

.p2align 4
slothy_end:
||3||slothy: k.s:3: refused: UnknownMnemonic
~
a sign that starts no comment|=|slothy_start:
@ foo
slothy_end:
||3||slothy: k.s:2: refused: UnknownMnemonic
~
text behind a comment that was open|=|/* a
slothy_start:
foo
 b */ c
slothy_end:
||3||slothy: k.s:4: refused: UnknownMnemonic
~
a comment that was open|=|/* a
slothy_start:
foo
 b */;

slothy_end:
||0|kind=straight n=0 cycles=0 stalls=0
|~
a comment that was closed|=|/* a */
slothy_start:
foo
slothy_end:
||3||slothy: k.s:3: refused: UnknownMnemonic
~
a comment to the end|=|slothy_start:
/* a
foo
slothy_end:
*/ foo
||0|kind=straight n=0 cycles=0 stalls=0
|~
a note behind a semicolon|=|slothy_start:

; // @slothy:i=0
foo
slothy_end:
||3||slothy: k.s:3: refused: TagBad
~
";

#[test]
fn each_input_has_its_answer(rt: HostRuntime) -> Failing {
    let mut failing = Failing::new(rt.alloc());
    compare(&rt, rt.alloc(), &mut failing, COST, INPUTS);
    compare(&rt, rt.alloc(), &mut failing, COST, STATEMENTS);
    failing
}

/// Words that are wrong.
const WRONG_WORDS: &str = "\
    \x20\n\
    cost\n\
    cost k.s\n\
    cost k.s --core\n\
    cost k.s --core one:2 x\n\
    k.s cost --core one:2\n\
    opt k.s --core one:0\n\
    check k.s --core one:2\n\
    Cost k.s --core one:2\n\
    cost k.s --cores one:2\n\
    cost k.s core one:2\n\
    cost k.s --core=one:2 x\n\
    cost  --core one:2\n\
    cost -k.s --core one:2\n\
    cost k.s --core -\n\
    cost k.s --core one:256\n\
    cost k.s --core one:02\n\
    cost k.s --core one:2 --core one:2\n\
    cost k.s --core one:2 --max-stalls 3\n\
    opt k.s --core one:2 --max-stalls 256\n\
    opt k.s --core one:2 --start a --end a\n\
    opt k.s --core one:2 --live x31\n\
    opt k.s x --core one:2\n\
    --help";

#[test]
fn wrong_words_are_wrong_use(rt: HostRuntime) -> Failing {
    let mut failing = Failing::new(rt.alloc());
    compare_usage(&rt, rt.alloc(), &mut failing, WRONG_WORDS);
    compare_usage(&rt, rt.alloc(), &mut failing, "");
    failing
}

/// Words that say the same in other ways, or name other markers.
const RIGHT_WORDS: &str = "\
an option in one word|cost k.s --core=one:2|=||0|kind=straight n=3 cycles=4 stalls=1
c=0 u=u i=0 line=2 add x2, x1, x0
c=2 u=u i=1 line=3 eor x3, x2, x2
c=3 u=u i=2 line=4 sub x4, x1, x0
|~
an option before the mode|--core one:2 cost k.s|=||0|kind=straight n=3 cycles=4 stalls=1
c=0 u=u i=0 line=2 add x2, x1, x0
c=2 u=u i=1 line=3 eor x3, x2, x2
c=3 u=u i=2 line=4 sub x4, x1, x0
|~
a mark behind which no options are|cost --core one:2 -- k.s|=||0|kind=straight n=3 cycles=4 stalls=1
c=0 u=u i=0 line=2 add x2, x1, x0
c=2 u=u i=1 line=3 eor x3, x2, x2
c=3 u=u i=2 line=4 sub x4, x1, x0
|~
the one architecture|cost k.s --arch arm64 --core one:2|=||0|kind=straight n=3 cycles=4 stalls=1
c=0 u=u i=0 line=2 add x2, x1, x0
c=2 u=u i=1 line=3 eor x3, x2, x2
c=3 u=u i=2 line=4 sub x4, x1, x0
|~
other markers|cost k.s --start a --end=_b --core one:1|slothy_start:
a:
        add x1, x1, x2
_b:
||0|kind=straight n=1 cycles=1 stalls=0
c=0 u=u i=0 line=3 add x1, x1, x2
|~
";

#[test]
fn right_words_say_the_same_in_other_ways(rt: HostRuntime) -> Failing {
    let mut failing = Failing::new(rt.alloc());
    compare(&rt, rt.alloc(), &mut failing, COST, RIGHT_WORDS);
    failing
}

/// What `cost` answers where a call fails.
fn answer_with<R: Threads + Sync>(
    rt: &R,
    alloc: Global,
    faults: Faults,
) -> Result<String, AllocError> {
    answer_to(rt, alloc, COST.words, COST.input.as_bytes(), b"", faults)
}

// Call 0 on the files chooses the file, 1 gives its bytes, and 2 says that there are no more.
#[test]
fn each_failing_call_on_the_files_is_a_read_fault(rt: HostRuntime) -> Failing {
    let mut failing = Failing::new(rt.alloc());
    for call in 0..4u32 {
        let faults = Faults {
            files: Some(u64::from(call)),
            ..NONE
        };
        let found = answer_with(&rt, rt.alloc(), faults);
        if call == 3 {
            failing.check("no call fails", is_well(found));
        } else {
            failing.compare("a call fails", found, "5||slothy: read fault: k.s\n");
        }
    }
    failing
}

/// What was written of the message of a missing file, which is written in three pieces, where one of them fails.
const MESSAGE_FAULTS: [(u64, &str); 4] = [
    (0, "5||"),
    (1, "5||slothy: read fault: "),
    (2, "5||slothy: read fault: none.s"),
    (3, "5||slothy: read fault: none.s\n"),
];

#[test]
fn a_failing_error_output_changes_no_status(rt: HostRuntime) -> Failing {
    let mut failing = Failing::new(rt.alloc());
    let words = "cost none.s --core one:2";
    for (call, wanted) in &MESSAGE_FAULTS {
        let faults = Faults {
            err: Some(*call),
            ..NONE
        };
        let found = answer_to(&rt, rt.alloc(), words, b"", b"", faults);
        failing.compare(wanted, found, wanted);
    }
    failing
}

/// What is left where a write of 20 bytes fails: what was written before it, and a message.
fn wanted_at(alloc: Global, write: usize) -> Result<String, AllocError> {
    let sent = write.saturating_mul(20);
    let text = COST_TEXT.get(..sent).unwrap_or("");
    format!(in alloc; "6|{text}|slothy: write fault after {sent} bytes\n")
}

/// Is what was written before a failing write there, and no more?
fn is_left<R: Threads + Sync>(rt: &R, alloc: Global, write: usize) -> Result<bool, AllocError> {
    let faults = Faults {
        out: Some(write as u64),
        most: 20,
        ..NONE
    };
    let found = answer_with(rt, alloc, faults)?;
    Ok(found.as_str() == wanted_at(alloc, write)?.as_str())
}

// The text has 138 bytes, which is 7 writes of at most 20: where one fails, what was written before it is there, and no more.
#[test]
fn each_failing_write_leaves_what_was_written_before(rt: HostRuntime) -> Failing {
    let mut failing = Failing::new(rt.alloc());
    for write in 0..7 {
        failing.check_number(write, is_left(&rt, rt.alloc(), write) == Ok(true));
    }
    let faults = Faults {
        out: Some(7),
        most: 20,
        ..NONE
    };
    let wanted =
        "0|kind=straight n=3 cycles=4 stalls=1\nc=0 u=u i=0 line=2 add x2, x1, x0\nc=2 u=u i=1 line=3 eor x3, x2, x2\nc=3 u=u i=2 line=4 sub x4, x1, x0\n|";
    failing.compare(
        "no write fails",
        answer_with(&rt, rt.alloc(), faults),
        wanted,
    );
    failing
}

/// What `cost` has to answer to a chain of so many items at a latency.
fn costs_of_chain(alloc: Global, count: u32, latency: u32) -> Result<String, AllocError> {
    let last = count.saturating_sub(1).saturating_mul(latency);
    let cycles = if count == 0 {
        0
    } else {
        last.saturating_add(1)
    };
    let stalls = cycles.saturating_sub(count);
    let mut text = format!(in alloc;
        "0|kind=straight n={count} cycles={cycles} stalls={stalls}\n"
    )?;
    for item in 0..count {
        let (cycle, line) = (item.saturating_mul(latency), item.saturating_add(2));
        write!(text, "c={cycle} u=u i={item} line={line} add x1, x1, x2\n")?;
    }
    text.push_str("|")?;
    Ok(text)
}

const LINE: &str = "        add x1, x1, x2\n";

/// Does a chain have its costs?
fn has_costs<R: Threads + Sync>(
    rt: &R,
    alloc: Global,
    count: u32,
    latency: u32,
) -> Result<bool, AllocError> {
    let text = repeated(
        alloc,
        "slothy_start:\n",
        LINE,
        count as usize,
        "slothy_end:\n",
    )?;
    let words = format!(in alloc; "cost k.s --core one:{latency}")?;
    let found = answer_to(rt, alloc, words.as_str(), text.as_bytes(), b"", NONE)?;
    Ok(found.as_str() == costs_of_chain(alloc, count, latency)?.as_str())
}

// With memory at hand regions of every length up to 64 have their costs.
#[test]
fn chains_of_any_length_have_their_costs(rt: HostRuntime) -> Failing {
    let mut failing = Failing::new(rt.alloc());
    for count in &[0, 1, 8, 9, 31, 32, 33, 48, 49, 63, 64] {
        for latency in &[1, 2, 255] {
            let has_costs = has_costs(&rt, rt.alloc(), *count, *latency);
            failing.check_number(*count as usize, has_costs == Ok(true));
        }
    }
    failing
}

/// An input of a front, a line so many times, and a back, and how its call has to end.
type Grown = (
    &'static str,
    &'static str,
    usize,
    &'static str,
    &'static str,
);

/// Inputs at their limits, and past them.
const LIMITS: [Grown; 7] = [
    (
        "slothy_start:\n",
        LINE,
        65,
        "slothy_end:\n",
        "9||slothy: k.s:66: too large: items limit=64\n",
    ),
    (
        "slothy_start:\n",
        LINE,
        64,
        "        nop\nslothy_end:\n",
        "3||slothy: k.s:66: refused: UnknownMnemonic\n",
    ),
    (
        "slothy_start:\nslothy_end:\n",
        "x",
        32768,
        "",
        "0|kind=straight n=0 cycles=0 stalls=0\n|",
    ),
    (
        "slothy_start:\nslothy_end:\n",
        "x",
        65536,
        "",
        "0|kind=straight n=0 cycles=0 stalls=0\n|",
    ),
    (
        "slothy_start:\nslothy_end:\n",
        "x",
        1048550,
        "",
        "0|kind=straight n=0 cycles=0 stalls=0\n|",
    ),
    (
        "slothy_start:\nslothy_end:\n",
        "x",
        1048551,
        "",
        "9||slothy: k.s:0: too large: file limit=1048576\n",
    ),
    (
        "slothy_start:\n",
        "a",
        100000,
        "\nslothy_end:\n",
        "3||slothy: k.s:2: refused: UnknownMnemonic\n",
    ),
];

/// What `cost` answers to an input.
fn answer_of_grown<R: Threads + Sync>(
    rt: &R,
    alloc: Global,
    grown: &Grown,
) -> Result<String, AllocError> {
    let (front, line, count, back, _) = *grown;
    let text = repeated(alloc, front, line, count, back)?;
    answer_to(
        rt,
        alloc,
        "cost k.s --core one:1",
        text.as_bytes(),
        b"",
        NONE,
    )
}

#[test]
fn sixty_four_items_and_a_mebibyte_are_the_limits(rt: HostRuntime) -> Failing {
    let mut failing = Failing::new(rt.alloc());
    for grown in &LIMITS {
        failing.compare(grown.4, answer_of_grown(&rt, rt.alloc(), grown), grown.4);
    }
    failing
}

/// Places of a byte that belongs to no character, and the message.
const NO_TEXT: [(usize, &str); 3] = [
    (0, "3||slothy: k.s:1: refused: NotText\n"),
    (30, "3||slothy: k.s:2: refused: NotText\n"),
    (90, "3||slothy: k.s:5: refused: NotText\n"),
];

/// What `cost` answers where a byte belongs to no character.
fn answer_at<R: Threads + Sync>(rt: &R, alloc: Global, place: usize) -> Result<String, AllocError> {
    let mut text = Vec::from_slice(alloc, COST.input.as_bytes())?;
    if let Some(byte) = text.get_mut(place) {
        *byte = 0xff;
    }
    answer_to(rt, alloc, COST.words, &text, b"", NONE)
}

#[test]
fn bytes_that_are_no_text_are_refused_at_their_line(rt: HostRuntime) -> Failing {
    let mut failing = Failing::new(rt.alloc());
    for (place, wanted) in &NO_TEXT {
        failing.compare(wanted, answer_at(&rt, rt.alloc(), *place), wanted);
    }
    failing
}
