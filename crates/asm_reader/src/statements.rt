//! A statement, and what is asked of one before it is read.
ghost use Rattle.std.specs.Prelude.{◌≡◌, ◌++◌, codes, IfOk, OnOk};
ghost use Rattle.sl_text.specs.Tokens.{token_value};
ghost use Rattle.macro_expand.specs.Spelled.{lexemes};
ghost use Rattle.asm_reader.specs.Statements as spec;

use macro_expand::{is_dotted, is_label};
use sl_text::Token;
use std::alloc::{AllocError, Global};

/// A statement: its line, its words, and what stands behind `// @slothy:` in its note, if it has one.
#[derive(Clone, Copy)]
pub(crate) struct Statement<'t, 'w, 'a> {
    pub line: u32,
    pub words: &'t [Token<'w>],
    pub note: Option<&'a [u8]>,
}

// Whether a statement begins with a label.
fn has_label(words: &[Token<'_>]) -> bool
    ensures { result ≡ spec.has_label (lexemes words.now) }
{
    let [first, colon, ..] = words else {
        return false;
    };
    is_label(first, colon)
}

// Whether two tokens are a suffix of the name that ends with a token:
// `.` and a word, with no blank.
fn is_suffix(before: &Token<'_>, dot: &Token<'_>, word: &Token<'_>) -> bool
    ensures { result ≡ spec.is_suffix (token_value before.now) (token_value dot.now)
        (token_value word.now) }
{
    if !dot.touches(before) {
        return false;
    }
    is_dotted(dot, word)
}

// Adds a suffix to a name. Where memory runs out, a part of it may be there.
fn push_suffix(name: &mut Vec<u8>, word: &str) -> Result<(), AllocError>
    ensures { OnOk result (name.new.items ≡ name.old.items ++ (codes "." ++ word.now)) }
{
    name.push(b'.')?;
    name.extend_from_slice(word.as_bytes())
}

// Adds to a name the suffixes that stand behind its first word. Where memory runs
// out, some of them may be there.
fn push_suffixes(
    name: &mut Vec<u8>,
    first: &Token<'_>,
    tokens: &[Token<'_>],
) -> Result<(), AllocError>
    ensures { OnOk result
        (name.new.items ≡ name.old.items
        ++ spec.suffixes (token_value first.now) (lexemes tokens.now)) }
{
    let mut before = *first;
    let mut rest = tokens;
    while let [dot, word, behind @ ..] = rest {
        if !is_suffix(&before, dot, word) {
            return Ok(());
        }
        push_suffix(name, word.text)?;
        before = *word;
        rest = behind;
    }
    Ok(())
}

// The mnemonic of a statement: its first word with the suffixes behind it.
fn mnemonic(alloc: Global, tokens: &[Token<'_>]) -> Result<Vec<u8>, AllocError>
    ensures { IfOk result (λ name. name.items ≡ spec.mnemonic (lexemes tokens.now)) }
{
    let mut name = Vec::new(alloc);
    let [first, behind @ ..] = tokens else {
        return Ok(name);
    };
    if !first.is_word() {
        return Ok(name);
    }
    name.extend_from_slice(first.text.as_bytes())?;
    push_suffixes(&mut name, first, behind)?;
    Ok(name)
}

// Whether a mnemonic is one of a branch.
fn is_branch(name: &[u8]) -> bool
    ensures { result ≡ spec.is_branch name.now }
{
    if name.eq_ignore_ascii_case(b"b") {
        return true;
    }
    if name.eq_ignore_ascii_case(b"b.ne") {
        return true;
    }
    if name.eq_ignore_ascii_case(b"bne") {
        return true;
    }
    name.eq_ignore_ascii_case(b"cbnz")
}

/// Whether the words of a statement are ones that aren't read yet: a label's or a branch's.
pub(crate) fn is_unbuilt(alloc: Global, words: &[Token<'_>]) -> Result<bool, AllocError>
    ensures { IfOk result (λ unbuilt. unbuilt ≡ spec.is_unbuilt (lexemes words.now)) }
{
    if has_label(words) {
        return Ok(true);
    }
    let name = mnemonic(alloc, words)?;
    Ok(is_branch(&name))
}
