//! Calls of the command on files and sinks in memory, and the tables that they are held against.
use sample_set::Failing;
use sl_base::{Gate, MemFiles, MemSink, NoGate};
use sl_text::text_of;
use slothy_cli::run;
use std::alloc::{AllocError, Global};
use std::thread::Threads;

/// Which call fails, if one does, and how much the output takes at once.
#[derive(Clone, Copy)]
pub struct Faults {
    pub files: Option<u64>,
    pub out: Option<u64>,
    pub err: Option<u64>,
    pub most: usize,
}

/// No call fails.
pub const NONE: Faults = Faults {
    files: None,
    out: None,
    err: None,
    most: 4096,
};

/// The most bytes that are written in a test.
const ROOM: usize = 4194304;

/// The words that are separated by single blanks, behind the program's name.
fn words_of(alloc: Global, text: &str) -> Result<Vec<String>, AllocError> {
    let mut words = Vec::new(alloc);
    words.push(String::from_str(alloc, "slothy")?)?;
    for word in text.split(' ') {
        words.push(String::from_str(alloc, word)?)?;
    }
    Ok(words)
}

/// The list of the one call that fails, if one does.
fn fails_of(alloc: Global, call: Option<u64>) -> Result<Vec<u64>, AllocError> {
    let mut fails = Vec::new(alloc);
    if let Some(call) = call {
        fails.push(call)?;
    }
    Ok(fails)
}

/// A file with its name.
fn file_of(alloc: Global, name: &str, bytes: &[u8]) -> Result<(String, Vec<u8>), AllocError> {
    Ok((
        String::from_str(alloc, name)?,
        Vec::from_slice(alloc, bytes)?,
    ))
}

/// The files `k.s` and `s.txt`.
fn files_of(
    alloc: Global,
    input: &[u8],
    state: &[u8],
    fails: Option<u64>,
) -> Result<MemFiles, AllocError> {
    let mut files = Vec::new(alloc);
    files.push(file_of(alloc, "k.s", input)?)?;
    files.push(file_of(alloc, "s.txt", state)?)?;
    Ok(MemFiles::new(files, fails_of(alloc, fails)?))
}

/// A sink that takes at most so many bytes at once.
fn sink_of(alloc: Global, fails: Option<u64>, most: usize) -> Result<MemSink, AllocError> {
    match MemSink::new(alloc, fails_of(alloc, fails)?, most.max(1), ROOM) {
        Ok(sink) => Ok(sink),
        Err(_) => Err(AllocError),
    }
}

/// Adds bytes to a text.
fn push_bytes(text: &mut String, bytes: &[u8]) -> Result<(), AllocError> {
    if 1 << 31 <= bytes.len() {
        return Err(AllocError);
    }
    match text_of(bytes) {
        Ok(bytes) => text.push_str(bytes),
        Err(_) => text.push_str("no text"),
    }
}

/// How words end on the files `k.s` and `s.txt`: the number of the status, the output and the messages, with bars between.
pub fn answer_to<R: Threads + Sync>(
    rt: &R,
    alloc: Global,
    words: &str,
    input: &[u8],
    state: &[u8],
    faults: Faults,
) -> Result<String, AllocError> {
    answer_past(rt, alloc, words, input, state, faults, &NoGate)
}

/// The same, where the workers pass a gate.
pub fn answer_past<R: Threads + Sync, G: Gate + Sync>(
    rt: &R,
    alloc: Global,
    words: &str,
    input: &[u8],
    state: &[u8],
    faults: Faults,
    gate: &G,
) -> Result<String, AllocError> {
    let words = words_of(alloc, words)?;
    let mut files = files_of(alloc, input, state, faults.files)?;
    let mut out = sink_of(alloc, faults.out, faults.most)?;
    let mut err = sink_of(alloc, faults.err, 4096)?;
    let status = run(rt, alloc, &words, &mut files, &mut out, &mut err, gate);
    let code = status.code();
    let mut answer = format!(in alloc; "{code}|")?;
    push_bytes(&mut answer, out.taken())?;
    answer.push_str("|")?;
    push_bytes(&mut answer, err.taken())?;
    Ok(answer)
}

/// What stands before the first bar, and behind it.
fn cut(text: &str) -> (&str, &str) {
    text.split_once("|").unwrap_or((text, ""))
}

/// What a field says, or what its table says where it is `=`.
fn field<'a>(text: &'a str, usual: &'a str) -> &'a str {
    if text == "=" { usual } else { text }
}

/// The words, the input and the state of a table's rows that have `=` in their place.
#[derive(Clone, Copy)]
pub struct Usual {
    pub words: &'static str,
    pub input: &'static str,
    pub state: &'static str,
}

/// Notes the rows of a table that end otherwise than they should. A row has a name, the words, the texts of `k.s` and `s.txt`, and how the
/// call has to end: the status, the output and the messages. Bars stand between them, and `~` and a line feed behind a row.
pub fn compare<R: Threads + Sync>(
    rt: &R,
    alloc: Global,
    failing: &mut Failing,
    usual: Usual,
    rows: &str,
) {
    for row in rows.split("~\n") {
        let (name, rest) = cut(row);
        let (words, rest) = cut(rest);
        let (input, rest) = cut(rest);
        let (state, wanted) = cut(rest);
        if !name.is_empty() {
            let words = field(words, usual.words);
            let input = field(input, usual.input).as_bytes();
            let state = field(state, usual.state).as_bytes();
            failing.compare(
                name,
                answer_to(rt, alloc, words, input, state, NONE),
                wanted,
            );
        }
    }
}

/// Notes the words, one call a line, that aren't wrong use.
pub fn compare_usage<R: Threads + Sync>(rt: &R, alloc: Global, failing: &mut Failing, calls: &str) {
    let wanted = "2||slothy: usage: slothy MODE [INPUT] [OPTIONS]\n";
    for words in calls.split('\n') {
        failing.compare(words, answer_to(rt, alloc, words, b"", b"", NONE), wanted);
    }
}

/// Does a call end with status 0?
pub fn is_well(answer: Result<String, AllocError>) -> bool {
    match answer {
        Ok(text) => text.starts_with("0|"),
        Err(_) => false,
    }
}

/// A text of a front, a line so many times, and a back.
pub fn repeated(
    alloc: Global,
    front: &str,
    line: &str,
    count: usize,
    back: &str,
) -> Result<String, AllocError> {
    let mut text = String::from_str(alloc, front)?;
    for _ in 0..count {
        text.push_str(line)?;
    }
    text.push_str(back)?;
    Ok(text)
}
