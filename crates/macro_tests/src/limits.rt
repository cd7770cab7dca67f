//! Expansions at their limits.

use crate::answers::answer_behind;
use sample_set::Failing;
use sl_text::Comments;
use std::alloc::{AllocError, Global};

/// Ten macros, each of which invokes the one before it four times, and one that is invoked first.
const DOUBLED: &str = "\
.macro a0
add x1, x1, x2
.endm
.macro a1
a0;a0;a0;a0
.endm
.macro a2
a1;a1;a1;a1
.endm
.macro a3
a2;a2;a2;a2
.endm
.macro a4
a3;a3;a3;a3
.endm
.macro a5
a4;a4;a4;a4
.endm
.macro a6
a5;a5;a5;a5
.endm
.macro a7
a6;a6;a6;a6
.endm
.macro a8
a7;a7;a7;a7
.endm
.macro a9
a8;a8;a8;a8
.endm
.macro b
a9;a9;a9;a9
.endm
";

#[test]
fn four_to_the_tenth(rt: HostRuntime) -> Failing {
    let alloc = rt.alloc();
    let mut failing = Failing::new(alloc);
    let found = answer_behind(alloc, DOUBLED, "\nb\n", Comments::Slash);
    failing.compare("the last one", found, "35 ExpansionSize 1048576");
    failing
}

/// Four macros, each of which invokes the one before it 32 times, and the first of which has 32 empty
/// statements.
fn empty_ones(alloc: Global) -> Result<String, AllocError> {
    let mut text = String::from_str(alloc, "")?;
    for number in 0..4 {
        write!(text, ".macro e{number}\n")?;
        for _ in 0..32 {
            if number > 0 {
                let below = number - 1;
                write!(text, "e{below}")?;
            }
            text.push(';')?;
        }
        text.push_str("\n.endm\n")?;
    }
    Ok(text)
}

#[test]
fn empty_statements_add_up(rt: HostRuntime) -> Result<Failing, AllocError> {
    let alloc = rt.alloc();
    let mut failing = Failing::new(alloc);
    let before = empty_ones(alloc)?;
    let found = answer_behind(alloc, before.as_str(), "a\ne3\n", Comments::Slash);
    failing.compare("33 of 32 of 32 of 32", found, "14 ExpansionSize 1048576");
    let some = answer_behind(alloc, before.as_str(), "e1\n", Comments::Slash)?;
    failing.check("few", some.as_str().ends_with("!"));
    Ok(failing)
}

/// A statement that ends with so many bytes more.
fn long(alloc: Global, begin: &str, more: usize) -> Result<String, AllocError> {
    let mut text = String::from_str(alloc, begin)?;
    for _ in 0..more {
        text.push('a')?;
    }
    Ok(text)
}

/// What an expansion refuses of a statement of so many bytes; its pieces are left out.
fn size_answer(
    alloc: Global,
    before: &str,
    begin: &str,
    more: usize,
) -> Result<String, AllocError> {
    let body = long(alloc, begin, more)?;
    let found = answer_behind(alloc, before, &body, Comments::Slash)?;
    if found.len() < 100 {
        return Ok(found);
    }
    String::from_str(alloc, "pieces")
}

/// A name, what stands before a region, how the region begins, how many bytes its last statement has
/// more, and what is answered.
const SIZES: [(&str, &str, &str, usize, &str); 12] = [
    ("at the limit", "", "", 1048575, "pieces"),
    ("past it", "", "", 1048576, "1 ExpansionSize 1048576"),
    ("a statement counts one more", "", "b\n", 1048573, "pieces"),
    (
        "past it by that",
        "",
        "b\n",
        1048574,
        "2 ExpansionSize 1048576",
    ),
    ("a blank line counts one", "", "\n", 1048574, "pieces"),
    (
        "past it by a blank line",
        "",
        "\n",
        1048575,
        "2 ExpansionSize 1048576",
    ),
    ("comments count nothing", "", "/* x */ ", 1048575, "pieces"),
    (
        "blanks at the ends count nothing",
        "",
        " \t ",
        1048575,
        "pieces",
    ),
    ("a .req before counts", "a .req b\n", "", 1048566, "pieces"),
    (
        "past it by a .req",
        "a .req b\n",
        "",
        1048567,
        "2 ExpansionSize 1048576",
    ),
    (
        "other statements before don't",
        "add x1\n.unreq\n",
        "",
        1,
        "2 AliasUnknown",
    ),
    (
        "a definition before doesn't",
        ".macro m\na\n.endm\n",
        "",
        1048575,
        "pieces",
    ),
];

#[test]
fn an_expansion_adds_up(rt: HostRuntime) -> Failing {
    let alloc = rt.alloc();
    let mut failing = Failing::new(alloc);
    for (name, before, begin, more, wanted) in &SIZES {
        failing.compare(name, size_answer(alloc, before, begin, *more), wanted);
    }
    failing
}

/// So many macros, each of which invokes the one before it, and an invocation of the last.
fn chain(alloc: Global, count: usize) -> Result<String, AllocError> {
    let mut text = String::from_str(alloc, ".macro m0\nadd\n.endm\n")?;
    for number in 1..count {
        let below = number.saturating_sub(1);
        write!(text, ".macro m{number}\nm{below}\n.endm\n")?;
    }
    let last = count.saturating_sub(1);
    write!(text, "m{last}\n")?;
    Ok(text)
}

#[test]
fn sixteen_deep(rt: HostRuntime) -> Result<Failing, AllocError> {
    let alloc = rt.alloc();
    let mut failing = Failing::new(alloc);
    let most = chain(alloc, 16)?;
    let found = answer_behind(alloc, "", &most, Comments::Slash)?;
    failing.check("sixteen", found.as_str().contains("[add]"));
    let more = chain(alloc, 17)?;
    let found = answer_behind(alloc, "", &more, Comments::Slash);
    failing.compare("seventeen", found, "52 Depth 16");
    Ok(failing)
}
