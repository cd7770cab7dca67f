//! Hostile lines, markers and bytes, with answers written by hand.
use sample_set::Failing;
use sl_text::TokenKind::{Comment, Mark, Number, Word};
use sl_text::{
    Comments, CutRefusal, Line, TokenKind, cut_region, holds, lines, split_line, text_of, tokens,
    without_end,
};
use std::alloc::{AllocError, Global};

/// Texts with their lines, numbered from 7, each between a number with a colon and a bar.
const LINES: [(&str, &str); 8] = [
    ("", ""),
    ("a", "7:a|"),
    ("a\n", "7:a|"),
    ("\n\n", "7:|8:|"),
    ("a\r\nb\n", "7:a|8:b|"),
    ("a\rb\r\r\n\r", "7:a\rb\r|8:\r|"),
    ("\r\n\u{e9}\r\n\u{20ac}", "7:|8:\u{e9}|9:\u{20ac}|"),
    ("\n\r\n\n", "7:|8:|9:|"),
];

/// The lines of a text, as in the table.
fn lines_of(alloc: Global, text: &str) -> Result<String, AllocError> {
    let mut found = String::new(alloc);
    if text.len() < 1024 {
        for line in lines(text, 7) {
            let (number, text) = (line.number, line.text);
            write!(found, "{number}:{text}|")?;
        }
    }
    Ok(found)
}

#[test]
fn lines_end_at_line_feeds(rt: HostRuntime) -> Failing {
    let mut failing = Failing::new(rt.alloc());
    for (text, wanted) in &LINES {
        failing.compare(text, lines_of(rt.alloc(), text), wanted);
    }
    failing.check(
        "a line and its rest",
        split_line("a\r\nb") == Some(("a\r\n", "b")),
    );
    failing.check("no line", split_line("") == None);
    failing.check("a line without its end", without_end("a\r\r\n") == "a\r");
    failing
}

/// Bytes with the line of the first that belongs to no character, and 0 where all do.
const BYTES: [(&str, &[u8], u32); 7] = [
    ("characters", b"mov\r\n\xc3\xa9\n", 0),
    ("none", b"", 0),
    ("the first byte", b"\xffmov\nadd\n", 1),
    ("the end of the second line", b"mov\nadd\xff\n", 2),
    ("half a character at the end", b"mov\nadd\n\xe2\x82", 3),
    ("a character that is spelled too long", b"\n\xc0\xaf", 2),
    ("a surrogate", b"\n\n\xed\xa0\x80\n", 3),
];

/// The line of the first byte that belongs to no character, and 0 where all do.
fn bad_line_of(bytes: &[u8]) -> u32 {
    if 1 << 31 <= bytes.len() {
        return 0;
    }
    match text_of(bytes) {
        Ok(_) => 0,
        Err(fault) => fault.line,
    }
}

#[test]
fn bytes_that_are_no_text_have_a_line(rt: HostRuntime) -> Failing {
    let mut failing = Failing::new(rt.alloc());
    for (name, bytes, wanted) in &BYTES {
        failing.check(name, bad_line_of(bytes) == *wanted);
    }
    failing
}

/// Texts with their parts before, between and behind the labels `s` and `e`, and the number of the first line between them; or why they
/// have none.
const CUTS: [(&str, &str); 10] = [
    (
        "/* s:\n s: // x\r\nadd\n\te\t:\n*/ e:\n\te:\t \n",
        "/* s:\n s: // x\r\n|add\n\te\t:\n*/ e:\n|\te:\t \n|3",
    ),
    ("s:\ne:", "s:\n||e:|2"),
    ("", "no start"),
    ("s2:\ne:\n", "no start"),
    ("s :\ne:\n", "no start"),
    ("nop; s:\ne:\ne:\n", "no start"),
    ("s: /* x */\ne:\n", "no start"),
    ("s:\n\ns: // again\ne:\ne:", "twice 3"),
    ("e:\ns:\r\n\ne:", "twice 4"),
    ("e:\ns:", "no end"),
];

/// The parts of a text, as in the table.
fn cut_of(alloc: Global, text: &str) -> Result<String, AllocError> {
    let mut found = String::new(alloc);
    if 1024 < text.len() {
        return Ok(found);
    }
    match cut_region(text, "s", "e") {
        Ok(cut) => {
            let (before, body, after, first) = (cut.before, cut.body, cut.after, cut.first);
            write!(found, "{before}|{body}|{after}|{first}")?;
        }
        Err(CutRefusal::NoStart) => found.push_str("no start")?,
        Err(CutRefusal::NoEnd) => found.push_str("no end")?,
        Err(CutRefusal::Twice { line }) => write!(found, "twice {line}")?,
    }
    Ok(found)
}

#[test]
fn a_text_is_cut_at_its_markers(rt: HostRuntime) -> Failing {
    let mut failing = Failing::new(rt.alloc());
    for (text, wanted) in &CUTS {
        failing.compare(text, cut_of(rt.alloc(), text), wanted);
    }
    failing
}

/// Texts and words, and whether the word stands in the text.
const WORDS: [(&str, &str, bool); 5] = [
    (".macro", ".macro", true),
    ("\t.mac.macro m", ".macro", true),
    (".macr", ".macro", false),
    ("", ".macro", false),
    ("", "", true),
];

#[test]
fn a_word_is_found_anywhere(rt: HostRuntime) -> Failing {
    let mut failing = Failing::new(rt.alloc());
    for (text, word, wanted) in &WORDS {
        failing.check(text, holds(text, word) == *wanted);
    }
    failing
}

/// Lines, whether a comment is open before them and whether `@` starts one, and their tokens: the place of each, its kind and its text, and
/// `open` where a comment is open behind them.
const TOKENS: [(&str, bool, Comments, &str); 14] = [
    ("", true, Comments::Slash, "open"),
    (" \t ", false, Comments::Slash, ""),
    (
        "b.ne 1f",
        false,
        Comments::Slash,
        "0 word b, 1 mark ., 2 word ne, 5 number 1f, ",
    ),
    (
        " x*/ y",
        true,
        Comments::Slash,
        "0 comment  x*/, 5 word y, ",
    ),
    ("// /* x", false, Comments::Slash, "0 comment // /* x, "),
    ("/*/ a", false, Comments::Slash, "0 comment /*/ a, open"),
    (
        "/**/ @b",
        false,
        Comments::Slash,
        "0 comment /**/, 5 mark @, 6 word b, ",
    ),
    (
        "\u{e9}_1\t\r",
        false,
        Comments::Slash,
        "0 mark \u{e9}, 2 word _1, 5 mark \r, ",
    ),
    (
        "a/* // */0x1F_2",
        false,
        Comments::Slash,
        "0 word a, 1 comment /* // */, 9 number 0x1F, 13 word _2, ",
    ),
    (
        " no end ",
        true,
        Comments::Slash,
        "0 comment  no end , open",
    ),
    (
        "v0.8h",
        false,
        Comments::SlashAt,
        "0 word v0, 2 mark ., 3 number 8h, ",
    ),
    (
        " no end ",
        true,
        Comments::SlashAt,
        "0 comment  no end , open",
    ),
    (
        "/**/ @b",
        false,
        Comments::SlashAt,
        "0 comment /**/, 5 comment @b, ",
    ),
    (
        "/* a */ /* b",
        false,
        Comments::SlashAt,
        "0 comment /* a */, 8 comment /* b, open",
    ),
];

fn kind_name(kind: TokenKind) -> &'static str {
    match kind {
        Word => "word",
        Number => "number",
        Mark => "mark",
        Comment => "comment",
    }
}

/// The tokens of a line, as in the tables.
fn tokens_of(
    alloc: Global,
    text: &str,
    comments: Comments,
    inside: bool,
) -> Result<String, AllocError> {
    let mut found = String::new(alloc);
    if 1024 < text.len() {
        return Ok(found);
    }
    let mut left = tokens(Line { number: 1, text }, comments, inside);
    while let Some(token) = left.next() {
        let (start, kind, text) = (token.start, kind_name(token.kind), token.text);
        write!(found, "{start} {kind} {text}, ")?;
    }
    if left.still_inside() {
        found.push_str("open")?;
    }
    Ok(found)
}

#[test]
fn a_line_has_tokens(rt: HostRuntime) -> Failing {
    let mut failing = Failing::new(rt.alloc());
    for (text, inside, comments, wanted) in &TOKENS {
        let found = tokens_of(rt.alloc(), text, *comments, *inside);
        failing.compare(text, found, wanted);
    }
    failing
}
