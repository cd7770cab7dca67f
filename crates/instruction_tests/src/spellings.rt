//! How AArch64 reads and prints the spellings of its rows.
use crate::access_spelling_rows;
use crate::reading::{named_instr, reason_name, text_from};
use crate::spelling_rows::{PARTS, ROWS};
use crate::walk::{Tested, walk_all};
use arm64_table::Arm64;
use sample_set::Failing;
use sl_isa::{Arch, FormErr, Symbols};
use std::alloc::{AllocError, Global};

/// How a spelling is printed, or the reason why it is refused.
fn answer_to(alloc: Global, text: &str) -> Result<String, AllocError> {
    let mut symbols = Symbols::new(alloc);
    match named_instr(alloc, text, &mut symbols) {
        Ok(instr) => {
            let mut out = Vec::new(alloc);
            if Arm64.print_form(&instr, &symbols, &mut out).is_err() {
                return Err(AllocError);
            }
            text_from(alloc, &out)
        }
        Err(FormErr::NoMemory) => Err(AllocError),
        Err(FormErr::Refused(reason)) => String::from_str(alloc, reason_name(reason)),
    }
}

/// A spelling, and how it is printed where that is otherwise.
struct Spellings;

impl Tested for Spellings {
    fn try_line(&self, alloc: Global, line: &str, failing: &mut Failing) {
        let (text, wanted) = line.split_once(" => ").unwrap_or((line, line));
        failing.compare(text, answer_to(alloc, text), wanted);
    }
}

#[test]
fn spellings_have_their_answers(rt: HostRuntime) -> Failing {
    walk_all(&Spellings, rt.alloc(), &PARTS, ROWS)
}

#[test]
fn spellings_of_accesses_have_their_answers(rt: HostRuntime) -> Failing {
    walk_all(
        &Spellings,
        rt.alloc(),
        &access_spelling_rows::PARTS,
        access_spelling_rows::ROWS,
    )
}

/// Is an instruction printed behind a text of so many blanks?
fn is_printed_behind(alloc: Global, length: usize) -> Result<bool, AllocError> {
    let text = "sqrdmulh v30.8h, v29.8h, v15.h[7]";
    let mut out = vec![in alloc; b' '; length]?;
    let mut symbols = Symbols::new(alloc);
    let Ok(instr) = named_instr(alloc, text, &mut symbols) else {
        return Ok(false);
    };
    let is_printed = Arm64.print_form(&instr, &symbols, &mut out).is_ok();
    Ok(is_printed && out.ends_with(text.as_bytes()) && out.len() == length + text.len())
}

// With memory at hand an instruction is printed behind a text of any length.
#[test]
fn an_instruction_is_printed_behind_any_text(rt: HostRuntime) -> Failing {
    let mut failing = Failing::new(rt.alloc());
    for length in &[0, 31, 32, 33, 64, 4096, 32768, 65536, 1048576] {
        failing.check_number(*length, is_printed_behind(rt.alloc(), *length) == Ok(true));
    }
    failing
}
