//! Written files, of regions that are read and printed in their own order.
use arm64_table::Arm64;
use asm_printer::{Head, Plan, Program, print_region};
use asm_reader::{Note, Notes, Part, UnitName, Wants, read_region};
use sample_set::Failing;
use sl_text::text_of;
use std::alloc::{AllocError, Global};

const WANTS: Wants = Wants { limit: 5000 };

/// The plan of so many items in their own order, with the cycles 0, 2, 4 ..
fn own_plan(alloc: Global, count: u16) -> Result<Plan, AllocError> {
    let mut notes = Vec::new(alloc);
    for item in 0..count {
        notes.push(Note {
            item: Some(item),
            unit: Some(UnitName::new("u")),
            cycle: Some(u32::from(item).saturating_mul(2)),
            part: Part::Plain,
            line: u32::from(item).saturating_add(3),
        })?;
    }
    Ok(Plan {
        head: Head {
            items: count,
            cycles: 7,
            stalls: 5,
            least: 1,
            early: 0,
        },
        notes: Notes::new(notes),
    })
}

/// A text of so many bytes before a region of so many items, with this end of its lines.
fn text_with(alloc: Global, before: usize, count: u32, end: &str) -> Result<String, AllocError> {
    let mut text = String::new(alloc);
    for _ in 0..before {
        text.push_str("-")?;
    }
    write!(text, "{end}s:{end}")?;
    for item in 0..count {
        write!(text, "ADD X0,X1,#{item} // a{end}")?;
    }
    write!(text, "e: // b{end}")?;
    Ok(text)
}

/// The same, as it is written.
fn wanted_for(alloc: Global, before: usize, count: u32, end: &str) -> Result<String, AllocError> {
    let mut text = String::new(alloc);
    for _ in 0..before {
        text.push_str("-")?;
    }
    write!(
        text,
        "{end}s:{end}        // @slothy:region v=1 kind=straight n={count} cycles=7 stalls=5{end}"
    )?;
    for item in 0..count {
        let (cycle, line) = (item.saturating_mul(2), item.saturating_add(3));
        write!(
            text,
            "        add x0, x1, #{item} // @slothy:i={item} u=u c={cycle} line={line}{end}"
        )?;
    }
    write!(text, "e: // b{end}")?;
    Ok(text)
}

/// A region's written file.
fn written(alloc: Global, text: &str, count: u16) -> Result<String, AllocError> {
    if 1 << 31 <= text.len() {
        return Err(AllocError);
    }
    let Ok(region) = read_region(&Arm64, alloc, text, "s", "e", WANTS) else {
        return Err(AllocError);
    };
    let plan = own_plan(alloc, count)?;
    let items = Vec::from_slice(alloc, &region.items)?;
    let program = Program { items };
    let mut bytes = Vec::new(alloc);
    if print_region(&Arm64, alloc, &region, &program, &plan, &mut bytes).is_err() {
        return Err(AllocError);
    }
    if 1 << 31 <= bytes.len() {
        return Err(AllocError);
    }
    match text_of(&bytes) {
        Ok(text) => String::from_str(alloc, text),
        Err(_) => String::from_str(alloc, "no text"),
    }
}

/// Bytes before a region, its items, and the end of its lines.
const FILES: [(usize, u16, &str); 16] = [
    (0, 0, "\n"),
    (0, 1, "\r\n"),
    (0, 2, "\n"),
    (0, 31, "\n"),
    (0, 32, "\n"),
    (0, 33, "\n"),
    (0, 48, "\r\n"),
    (0, 49, "\n"),
    (0, 64, "\n"),
    (0, 65, "\n"),
    (0, 257, "\n"),
    (0, 3000, "\n"),
    (4096, 3, "\n"),
    (32768, 3, "\r\n"),
    (65536, 3, "\n"),
    (1048576, 3, "\n"),
];

/// Is a file written as it should be?
fn is_right(alloc: Global, before: usize, count: u16, end: &str) -> Result<bool, AllocError> {
    let text = text_with(alloc, before, u32::from(count), end)?;
    let found = written(alloc, text.as_str(), count)?;
    Ok(found.as_str() == wanted_for(alloc, before, u32::from(count), end)?.as_str())
}

/// Two lines with symbolic registers, and how they are printed.
const NAMED: [(&str, &str, &str); 3] = [
    (
        "ADD X<sum>,X1,X2\nADD W3,W<sum>,W<sum>",
        "add x<sum>, x1, x2",
        "add w3, w<sum>, w<sum>",
    ),
    (
        "LDR Q<a>,[X0],#16\nMUL V<b>.8H,V<a>.8H,V0.H[1]",
        "ldr q<a>, [x0], #16",
        "mul v<b>.8h, v<a>.8h, v0.h[1]",
    ),
    (
        "LDR D<a>,[X0]\nSTR S<a>,[X0,#4]",
        "ldr d<a>, [x0]",
        "str s<a>, [x0, #4]",
    ),
];

/// Two lines with their notes.
fn wanted_lines(alloc: Global, first: &str, second: &str) -> Result<String, AllocError> {
    format!(in alloc;
        "\ns:\n        // @slothy:region v=1 kind=straight n=2 cycles=7 stalls=5
        {first} // @slothy:i=0 u=u c=0 line=3
        {second} // @slothy:i=1 u=u c=2 line=4\ne:\n"
    )
}

#[test]
fn names_are_written(rt: HostRuntime) -> Failing {
    let mut failing = Failing::new(rt.alloc());
    for (body, first, second) in &NAMED {
        let alloc = rt.alloc();
        let text = format!(in alloc; "\ns:\n{body}\ne:\n");
        let wanted = wanted_lines(alloc, first, second);
        let (Ok(text), Ok(wanted)) = (text, wanted) else {
            return failing;
        };
        failing.compare(body, written(alloc, text.as_str(), 2), wanted.as_str());
    }
    failing
}

#[test]
fn files_are_written(rt: HostRuntime) -> Failing {
    let mut failing = Failing::new(rt.alloc());
    for (before, count, end) in &FILES {
        let is_right = is_right(rt.alloc(), *before, *count, end);
        failing.check_number(before + usize::from(*count), is_right == Ok(true));
    }
    failing
}
