//! Reading a statement, and adding it to a draft.
ghost use Rattle.std.specs.Prelude.{◌≡◌, ◌+◌, ◌<◌, ◌≤◌, true, length, is_some, if◌then◌else◌, IfOk, IfSome, OnOk, Result};
ghost use Rattle.sl_model.specs.declared.instruction.Instr.{Instr as InstrValue};
ghost use Rattle.sl_model.specs.Answers.{Gives, Refuses};
ghost use Rattle.sl_model.specs.Exec.{has_access};
ghost use Rattle.sl_model.specs.Lawful.{IsValid};
ghost use Rattle.sl_isa.specs.Arch.{reason_of};
ghost use Rattle.sl_isa.specs.SymbolViews.{pairs};
ghost use Rattle.sl_isa.specs.declared.reasons.FormReason.{FormReason as FormReasonValue};
ghost use Rattle.asm_reader.specs.DraftViews.{HasFewNames, Leaves, draft_value, progress_value};
ghost use Rattle.asm_reader.specs.NoteViews.{said_value};
ghost use Rattle.asm_reader.specs.Drafts as drafts;
ghost use Rattle.asm_reader.specs.Reading as spec;
ghost use Rattle.asm_reader.specs.Views.{statement_value, refusal_of};
ghost use Rattle.asm_reader.specs.WordViews.{bytes_value};
ghost use Rattle.macro_expand.specs.Spelled.{lexemes};

use crate::draft::{Awaiting, Draft};
use crate::note::{Said, note_said};
use crate::progress::Progress;
use crate::reasons::{ReadRefusal, Reason, Refusal, Wants};
use crate::statements::{Statement, is_unbuilt};
use sl_isa::{Arch, FormErr, FormReason, Instr, Symbols};
use sl_model::limits::READ_ITEMS;
use sl_text::Token;
use std::alloc::{AllocError, Global};

/// How a text is read.
#[derive(Clone, Copy)]
pub(crate) struct Manner {
    /// Where memory is taken.
    pub alloc: Global,
    /// What is asked of the region.
    pub wants: Wants,
}

// The most items of a region.
fn most_items(wants: Wants) -> u16
    ensures most { result ≡ drafts.most_items wants }
    ensures few { result ≤ 8192 }
{
    if usize::from(wants.limit) < READ_ITEMS {
        wants.limit
    } else {
        READ_ITEMS as u16
    }
}

// Adds an item that was read on a line.
fn push_item(
    wants: Wants,
    accesses: bool,
    line: u32,
    draft: &mut Draft<'_>,
    item: Instr,
) -> Result<(), ReadRefusal>
    ensures { Leaves result (draft_value draft.new)
        (drafts.with_item wants accesses line (draft_value draft.old) item) }
{
    let most = most_items(wants);
    if draft.items.len() >= usize::from(most) {
        let reason = Reason::TooMany(most);
        return Err(ReadRefusal::Refused(Refusal { line, reason }));
    }
    draft.push(accesses, line, item)?;
    Ok(())
}

// The refusal of words that are no instruction.
fn form_refusal(
    alloc: Global,
    line: u32,
    words: &[Token<'_>],
    form: FormReason,
) -> Result<Refusal, AllocError>
    ensures { IfOk result (λ refusal. refusal ≡ spec.form_refusal line (lexemes words.now) form) }
{
    if is_unbuilt(alloc, words)? {
        let reason = Reason::NotYet;
        return Ok(Refusal { line, reason });
    }
    let reason = Reason::Form(form);
    Ok(Refusal { line, reason })
}

// The failure where words weren't read.
fn words_refusal(alloc: Global, line: u32, words: &[Token<'_>], error: FormErr) -> ReadRefusal
    ensures { (answer : Result InstrValue FormReasonValue)
        → Refuses (reason_of error) answer
        → Refuses (refusal_of result) (spec.instr_or line (lexemes words.now) answer) }
{
    match error {
        FormErr::Refused(form) => match form_refusal(alloc, line, words, form) {
            Ok(refusal) => ReadRefusal::Refused(refusal),
            Err(_) => ReadRefusal::NoMemory,
        },
        FormErr::NoMemory => ReadRefusal::NoMemory,
    }
}

// The instruction of the words of a statement, if it has words. Names that are new are added.
fn read_instr<A: Arch>(
    arch: &A,
    alloc: Global,
    line: u32,
    words: &[Token<'_>],
    symbols: &mut Symbols,
) -> Result<Option<Instr>, ReadRefusal>
    requires { length (pairs symbols.old) ≤ 65529 }
    ensures answer { Gives refusal_of (λ instr. instr) result
        (spec.instr_of A.language (pairs symbols.old) line (lexemes words.now)) }
    ensures valid { IfOk result (λ instr. IfSome instr (λ i. IsValid A.language.isa i)) }
    ensures names { OnOk result (pairs symbols.new
        ≡ spec.pairs_after A.language (pairs symbols.old) (lexemes words.now)) }
    ensures few { IfOk result (λ instr. length (pairs symbols.new)
        ≤ length (pairs symbols.old) + (if is_some instr then 7 else 0)) }
{
    if words.is_empty() {
        return Ok(None);
    }
    match arch.read_form(alloc, words, symbols) {
        Ok(instr) => Ok(Some(instr)),
        Err(error) => Err(words_refusal(alloc, line, words, error)),
    }
}

// What the note of a statement says, if it has one.
fn said_by<'a>(
    alloc: Global,
    line: u32,
    note: Option<&'a [u8]>,
) -> Result<Option<Said<'a>>, ReadRefusal>
    ensures { Gives refusal_of said_value result (spec.said_by line (bytes_value note.entry)) }
{
    let Some(text) = note else {
        return Ok(None);
    };
    match note_said(alloc, line, text) {
        Ok(Some(said)) => Ok(Some(said)),
        Ok(None) => {
            let reason = Reason::TagBad;
            Err(ReadRefusal::Refused(Refusal { line, reason }))
        }
        Err(_) => Err(ReadRefusal::NoMemory),
    }
}

// Does an instruction access memory?
fn accesses<A: Arch>(arch: &A, instr: &Instr) -> bool
    requires { IsValid A.language.isa instr.now }
    ensures { result ≡ has_access (A.language.isa.info instr.now.form) }
{
    arch.info(instr.form).size > 0
}

// May a note say this of an instruction?
fn may_say(accesses: bool, said: &Option<Said<'_>>) -> bool
    ensures { result ≡ drafts.may_say accesses (said_value said.now) }
{
    match said {
        Some(Said::Item(remark)) => remark.tag.is_none() || accesses,
        _ => true,
    }
}

// Does the last instruction stand on a line, and may this be said of it?
fn awaits(line: u32, said: &Option<Said<'_>>, awaiting: Option<Awaiting>) -> bool
    ensures { result ≡ drafts.awaits line (said_value said.now) awaiting }
{
    match awaiting {
        Some(last) => last.line == line && may_say(last.accesses, said),
        None => false,
    }
}

// May a note stand on a line without an instruction of its statement?
fn may_stand(line: u32, draft: &Draft<'_>, said: &Option<Said<'_>>) -> bool
    ensures { result ≡ drafts.may_stand line (draft_value draft.now) (said_value said.now) }
{
    match said {
        Some(Said::Item(_)) => awaits(line, said, draft.awaiting),
        Some(Said::Region(_)) => !draft.invoked,
        None => true,
    }
}

// Adds what a note says, if there is one.
fn push_said<'a>(draft: &mut Draft<'a>, said: &Option<Said<'a>>) -> Result<(), AllocError>
    requires { drafts.has_place (said_value said.now) (draft_value draft.old).awaiting ≡ true }
    ensures { OnOk result
        (draft_value draft.new ≡ drafts.with_said (draft_value draft.old) (said_value said.now)) }
{
    match said {
        Some(said) => draft.say(said),
        None => Ok(()),
    }
}

// Adds a note that stands without an instruction of its statement.
fn push_note<'a>(
    line: u32,
    draft: &mut Draft<'a>,
    said: &Option<Said<'a>>,
) -> Result<(), ReadRefusal>
    ensures { Leaves result (draft_value draft.new)
        (drafts.with_note line (draft_value draft.old) (said_value said.now)) }
{
    if !may_stand(line, draft, said) {
        let reason = Reason::TagBad;
        return Err(ReadRefusal::Refused(Refusal { line, reason }));
    }
    push_said(draft, said)?;
    Ok(())
}

// Adds an instruction with its note.
fn push_noted<'a>(
    wants: Wants,
    accesses: bool,
    line: u32,
    draft: &mut Draft<'a>,
    said: &Option<Said<'a>>,
    item: Instr,
) -> Result<(), ReadRefusal>
    ensures { Leaves result (draft_value draft.new)
        (drafts.with_noted wants accesses line (draft_value draft.old) (said_value said.now) item) }
{
    if !may_say(accesses, said) {
        let reason = Reason::TagBad;
        return Err(ReadRefusal::Refused(Refusal { line, reason }));
    }
    push_item(wants, accesses, line, draft, item)?;
    push_said(draft, said)?;
    Ok(())
}

// Adds what a statement holds.
fn push_parts<'a, A: Arch>(
    arch: &A,
    wants: Wants,
    line: u32,
    draft: &mut Draft<'a>,
    said: &Option<Said<'a>>,
    instr: Option<Instr>,
) -> Result<(), ReadRefusal>
    requires { IfSome instr (λ i. IsValid A.language.isa i) }
    ensures { Leaves result (draft_value draft.new) (drafts.with_parts A.language.isa wants line
        (draft_value draft.old) (said_value said.now) instr) }
{
    match instr {
        Some(item) => {
            let accesses = accesses(arch, &item);
            push_noted(wants, accesses, line, draft, said, item)
        }
        None => push_note(line, draft, said),
    }
}

/// Adds a statement to what was read.
#[tactic(auto, unfolding(crate::specs::Reading::with_statement))]
pub(crate) fn push_statement<'a, A: Arch>(
    arch: &A,
    manner: Manner,
    statement: Statement<'_, '_, 'a>,
    read: &mut Progress<'a>,
) -> Result<(), ReadRefusal>
    requires { HasFewNames read.old }
    ensures answer { Leaves result (progress_value read.new)
        (spec.with_statement A.language manner.wants (progress_value read.old)
        (statement_value statement.entry)) }
    ensures few { OnOk result (HasFewNames read.new) }
{
    let Statement { line, words, note } = statement;
    let instr = read_instr(arch, manner.alloc, line, words, &mut read.symbols)?;
    let said = said_by(manner.alloc, line, note)?;
    push_parts(arch, manner.wants, line, &mut read.draft, &said, instr)
}
