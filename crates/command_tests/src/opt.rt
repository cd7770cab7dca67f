//! Schedules of `opt`.
use crate::calls::{NONE, Usual, answer_to, compare, repeated};
use sample_set::Failing;
use std::alloc::{AllocError, Global};
use std::thread::Threads;

/// A schedule of a region of three instructions at latency 2.
const OPT: Usual = Usual {
    words: "opt k.s --core one:2",
    input: "slothy_start:\n        add x2, x1, x0\n        eor x3, x2, x2\n        sub x4, x1, x0\nslothy_end:\n",
    state: "",
};

/// Regions with their best schedules, or why they have none.
const SCHEDULES: &str = "\
a chain|=|=||0|slothy_start:
        // @slothy:region v=1 kind=straight n=3 cycles=3 stalls=0
        add x2, x1, x0 // @slothy:i=0 u=u c=0 line=2
        sub x4, x1, x0 // @slothy:i=2 u=u c=1 line=4
        eor x3, x2, x2 // @slothy:i=1 u=u c=2 line=3
slothy_end:
|~
an output that is read before it is written|=|        nop
slothy_start:
        add x2, x1, x0
        eor x3, x2, x1
        sub x1, x0, x4
slothy_end: // x
        ret||0|        nop
slothy_start:
        // @slothy:region v=1 kind=straight n=3 cycles=4 stalls=1
        add x2, x1, x0 // @slothy:i=0 u=u c=0 line=3
        eor x3, x2, x1 // @slothy:i=1 u=u c=2 line=4
        sub x1, x0, x4 // @slothy:i=2 u=u c=3 line=5
slothy_end: // x
        ret|~
65 stalls|opt k.s --core one:66|slothy_start:
        add x2, x1, x0
        add x3, x2, x2
slothy_end:
||1||slothy: infeasible up to 64 stalls
~
64 stalls|opt k.s --core one:65|slothy_start:
        add x2, x1, x0
        add x3, x2, x2
slothy_end:
||0|slothy_start:
        // @slothy:region v=1 kind=straight n=2 cycles=66 stalls=64
        add x2, x1, x0 // @slothy:i=0 u=u c=0 line=2
        add x3, x2, x2 // @slothy:i=1 u=u c=65 line=3
slothy_end:
|~
carriage returns|=|slothy_start:\r
        add x2, x1, x0
slothy_end:
||0|slothy_start:\r
        // @slothy:region v=1 kind=straight n=1 cycles=1 stalls=0\r
        add x2, x1, x0 // @slothy:i=0 u=u c=0 line=2\r
slothy_end:
|~
flags and lanes|opt k.s --core one:3|slothy_start:
\tadds x1, x2, x3
\tcsel x4, x1, x2, ne // reads the flags
\tADD V0.4S,V1.4S,V2.4S
\teor v3.16b, v1.16b, v2.16b
slothy_end:
||0|slothy_start:
        // @slothy:region v=1 kind=straight n=4 cycles=4 stalls=0
        adds x1, x2, x3 // @slothy:i=0 u=u c=0 line=2
        add v0.4s, v1.4s, v2.4s // @slothy:i=2 u=u c=1 line=4
        eor v3.16b, v1.16b, v2.16b // @slothy:i=3 u=u c=2 line=5
        csel x4, x1, x2, ne // @slothy:i=1 u=u c=3 line=3
slothy_end:
|~
a load behind a store|opt k.s --core one:3|slothy_start:
        str x1, [x0]
        ldr x2, [x3]
        add x4, x2, x5
slothy_end:
||0|slothy_start:
        // @slothy:region v=1 kind=straight n=3 cycles=5 stalls=2
        str x1, [x0] // @slothy:i=0 u=u c=0 line=2
        ldr x2, [x3] // @slothy:i=1 u=u c=1 line=3
        add x4, x2, x5 // @slothy:i=2 u=u c=4 line=4
slothy_end:
|~
tagged apart|opt k.s --core one:3|slothy_start:
        str x1, [x0] // @slothy:mem=a
        ldr x2, [x3] // @slothy:mem=b
        add x4, x2, x5
slothy_end:
||0|slothy_start:
        // @slothy:region v=1 kind=straight n=3 cycles=4 stalls=1
        ldr x2, [x3] // @slothy:i=1 u=u c=0 line=3 mem=b
        str x1, [x0] // @slothy:i=0 u=u c=1 line=2 mem=a
        add x4, x2, x5 // @slothy:i=2 u=u c=3 line=4
slothy_end:
|~
tags that differ in case alone|opt k.s --core one:3|slothy_start:
        str x1, [x0]; // @SLOTHY: MEM=a
        ldr x2, [x3] // @slothy:may_late i=7 mem=A
        add x4, x2, x5 // @slothy:may_early
slothy_end:
||0|slothy_start:
        // @slothy:region v=1 kind=straight n=3 cycles=4 stalls=1
        ldr x2, [x3] // @slothy:i=1 u=u c=0 line=3 mem=A may_late
        str x1, [x0] // @slothy:i=0 u=u c=1 line=2 mem=a
        add x4, x2, x5 // @slothy:i=2 u=u c=3 line=4 may_early
slothy_end:
|~
one tag|opt k.s --core one:3|slothy_start:
        str x1, [x0] // @slothy:mem=a
        ldr x2, [x3] // @slothy:mem=a
slothy_end:
||0|slothy_start:
        // @slothy:region v=1 kind=straight n=2 cycles=2 stalls=0
        str x1, [x0] // @slothy:i=0 u=u c=0 line=2 mem=a
        ldr x2, [x3] // @slothy:i=1 u=u c=1 line=3 mem=a
slothy_end:
|~
flags written twice|=|slothy_start:
        adds x1, x2, x3
        subs x4, x5, x6
slothy_end:
||0|slothy_start:
        // @slothy:region v=1 kind=straight n=2 cycles=2 stalls=0
        adds x1, x2, x3 // @slothy:i=0 u=u c=0 line=2
        subs x4, x5, x6 // @slothy:i=1 u=u c=1 line=3
slothy_end:
|~
no items|=|slothy_start:
slothy_end:
||0|slothy_start:
        // @slothy:region v=1 kind=straight n=0 cycles=0 stalls=0
slothy_end:
|~
a register written twice above a bad line|=|slothy_start:
        add x2, x1, x0
        add x2, x3, x3
        nop
slothy_end:
||3||slothy: k.s:4: refused: UnknownMnemonic
~
one list, which is the schedule|opt k.s --core one:1 --budget 1|slothy_start:
        add x1, x2, x3
slothy_end:
||0|slothy_start:
        // @slothy:region v=1 kind=straight n=1 cycles=1 stalls=0
        add x1, x2, x3 // @slothy:i=0 u=u c=0 line=2
slothy_end:
|~
one list, and the schedule is the second|opt k.s --core one:1 --budget 1|slothy_start:
        add x1, x2, x3
        add x4, x2, x3
slothy_end:
||4||slothy: budget: level=0 tree=0
~
no stall is allowed|opt k.s --core one:2 --max-stalls 0|slothy_start:
        add x2, x1, x0
        add x3, x2, x2
slothy_end:
||1||slothy: infeasible up to 0 stalls
~
";

/// Regions whose values may change registers, with their best schedules.
const RENAMED: &str = "\
a value that would hold back another|=|slothy_start:
        add x2, x1, x0
        eor x3, x2, x2
        add x2, x4, x0
        eor x5, x2, x2
slothy_end:
||0|slothy_start:
        // @slothy:region v=1 kind=straight n=4 cycles=4 stalls=0
        add x3, x1, x0 // @slothy:i=0 u=u c=0 line=2
        add x2, x4, x0 // @slothy:i=2 u=u c=1 line=4
        eor x3, x3, x3 // @slothy:i=1 u=u c=2 line=3
        eor x5, x2, x2 // @slothy:i=3 u=u c=3 line=5
slothy_end:
|~
three names in two registers|opt k.s --core one:1 --free x5|slothy_start:
        add x<a>, x0, x1
        add x<b>, x0, x2
        add x<c>, x0, x3
        madd x4, x<a>, x<b>, x<c>
slothy_end:
||1||slothy: infeasible up to 64 stalls
~
three names in three registers|opt k.s --core one:1 --free x5,x6|slothy_start:
        add x<a>, x0, x1
        add x<b>, x0, x2
        add x<c>, x0, x3
        madd x4, x<a>, x<b>, x<c>
slothy_end:
||0|slothy_start:
        // @slothy:region v=1 kind=straight n=4 cycles=4 stalls=0
        add x4, x0, x1 // @slothy:i=0 u=u c=0 line=2
        add x5, x0, x2 // @slothy:i=1 u=u c=1 line=3
        add x6, x0, x3 // @slothy:i=2 u=u c=2 line=4
        madd x4, x4, x5, x6 // @slothy:i=3 u=u c=3 line=5
slothy_end:
|~
the least register of a kind|opt k.s --core one:1 --live x3|slothy_start:
        add x1, x0, x0
        add x2, x1, x1
        add x3, x2, x2
slothy_end:
||0|slothy_start:
        // @slothy:region v=1 kind=straight n=3 cycles=3 stalls=0
        add x1, x0, x0 // @slothy:i=0 u=u c=0 line=2
        add x1, x1, x1 // @slothy:i=1 u=u c=1 line=3
        add x3, x1, x1 // @slothy:i=2 u=u c=2 line=4
slothy_end:
|~
an output that stays in its operand's register|opt k.s --core one:1 --free x9|slothy_start:
        movz x<a>, #1
        movk w<a>, #2, lsl #16
        add x1, x<a>, x2
slothy_end:
||0|slothy_start:
        // @slothy:region v=1 kind=straight n=3 cycles=3 stalls=0
        movz x1, #1 // @slothy:i=0 u=u c=0 line=2
        movk w1, #2, lsl #16 // @slothy:i=1 u=u c=1 line=3
        add x1, x1, x2 // @slothy:i=2 u=u c=2 line=4
slothy_end:
|~
elements of halfwords stay in the low registers|opt k.s --core one:1 --live v20 --free v17,v9|slothy_start:
        add v<a>.8h, v0.8h, v1.8h
        mul v20.8h, v3.8h, v<a>.h[0]
slothy_end:
||0|slothy_start:
        // @slothy:region v=1 kind=straight n=2 cycles=2 stalls=0
        add v9.8h, v0.8h, v1.8h // @slothy:i=0 u=u c=0 line=2
        mul v20.8h, v3.8h, v9.h[0] // @slothy:i=1 u=u c=1 line=3
slothy_end:
|~
no low register for an element|opt k.s --core one:1 --live v20 --free v17|slothy_start:
        add v<a>.8h, v0.8h, v1.8h
        mul v20.8h, v3.8h, v<a>.h[0]
slothy_end:
||1||slothy: infeasible up to 64 stalls
~
a name that nothing writes|=|slothy_start:
        add x1, x0, x0
        add x2, x<a>, x1
        add x<a>, x1, x1
slothy_end:
||3||slothy: k.s:3: refused: SymbolUnset
~
";

#[test]
fn values_get_the_best_registers(rt: HostRuntime) -> Failing {
    let mut failing = Failing::new(rt.alloc());
    compare(&rt, rt.alloc(), &mut failing, OPT, RENAMED);
    failing
}

#[test]
fn opt_writes_the_best_schedule(rt: HostRuntime) -> Failing {
    let mut failing = Failing::new(rt.alloc());
    compare(&rt, rt.alloc(), &mut failing, OPT, SCHEDULES);
    failing
}

/// A region of so many stores, each to bytes of its own.
fn stores_of(alloc: Global, count: u32, back: &str) -> Result<String, AllocError> {
    let mut text = String::from_str(alloc, "slothy_start:\n")?;
    for item in 0..count {
        let place = item.saturating_add(1).saturating_mul(8);
        write!(text, "        str x1, [x0, #{place}]\n")?;
    }
    text.push_str(back)?;
    text.push_str("slothy_end:\n")?;
    Ok(text)
}

/// The same, as it is written: since each may touch what another stores, they stay in their order.
fn written_stores(alloc: Global, count: u32) -> Result<String, AllocError> {
    let mut text = String::from_str(alloc, "0|slothy_start:\n")?;
    write!(
        text,
        "        // @slothy:region v=1 kind=straight n={count} cycles={count} stalls=0\n"
    )?;
    for item in 0..count {
        let (place, line) = (
            item.saturating_add(1).saturating_mul(8),
            item.saturating_add(2),
        );
        write!(
            text,
            "        str x1, [x0, #{place}] // @slothy:i={item} u=u c={item} line={line}\n"
        )?;
    }
    text.push_str("slothy_end:\n|")?;
    Ok(text)
}

/// What `opt` answers to stores.
fn answer_of<R: Threads + Sync>(
    rt: &R,
    alloc: Global,
    count: u32,
    back: &str,
) -> Result<String, AllocError> {
    let text = stores_of(alloc, count, back)?;
    answer_to(rt, alloc, OPT.words, text.as_bytes(), b"", NONE)
}

/// Are stores written as they should be?
fn is_written<R: Threads + Sync>(rt: &R, alloc: Global, count: u32) -> Result<bool, AllocError> {
    let found = answer_of(rt, alloc, count, "")?;
    Ok(found.as_str() == written_stores(alloc, count)?.as_str())
}

// With memory at hand each region of at most 64 items is written.
#[test]
fn sixty_four_items_are_the_limit_of_opt(rt: HostRuntime) -> Failing {
    let mut failing = Failing::new(rt.alloc());
    for count in &[0, 1, 8, 9, 33, 64] {
        failing.check_number(
            *count as usize,
            is_written(&rt, rt.alloc(), *count) == Ok(true),
        );
    }
    failing.compare(
        "65 items",
        answer_of(&rt, rt.alloc(), 64, "        add x1, x0, x0\n"),
        "9||slothy: k.s:66: too large: items limit=64\n",
    );
    failing.compare(
        "a bad line",
        answer_of(&rt, rt.alloc(), 64, "        nop\n"),
        "3||slothy: k.s:66: refused: UnknownMnemonic\n",
    );
    failing
}

/// Is a text of so many bytes before the region written, and the region?
fn is_all_written<R: Threads + Sync>(
    rt: &R,
    alloc: Global,
    length: usize,
) -> Result<bool, AllocError> {
    let text = repeated(alloc, "// ", "y", length, "\n")?;
    let text = repeated(alloc, text.as_str(), OPT.input, 1, "")?;
    let found = answer_to(rt, alloc, OPT.words, text.as_bytes(), b"", NONE)?;
    let has_front = found.starts_with("0|// yyy") && found.len() > length;
    Ok(has_front && found.ends_with("line=4\nslothy_end:\n|"))
}

// What stands about the region is written, however long it is.
#[test]
fn long_files_are_written(rt: HostRuntime) -> Failing {
    let mut failing = Failing::new(rt.alloc());
    for length in &[4096, 32768, 65536, 1000000] {
        failing.check_number(
            *length,
            is_all_written(&rt, rt.alloc(), *length) == Ok(true),
        );
    }
    failing
}

/// What an instruction does to registers.
#[derive(Clone, Copy)]
struct Adds {
    out: u16,
    left: u16,
    right: u16,
}

impl Adds {
    /// Does it read a register?
    fn reads(self, register: u16) -> bool {
        self.left == register || self.right == register
    }

    /// Must it stay below another, which stands above it?
    fn depends_on(self, above: Adds) -> bool {
        self.reads(above.out) || above.reads(self.out) || above.out == self.out
    }
}

/// How many orders there are of the items behind each place of eight.
const ORDERS: [u32; 8] = [5040, 720, 120, 24, 6, 2, 1, 1];

/// The order of eight items with a number, where orders go by their first difference.
fn order_of(number: u32) -> [usize; 8] {
    let mut rest = number;
    let mut order: [usize; 8] = [0; 8];
    let mut used = [false; 8];
    for place in 0..8 {
        let behind = ORDERS[place].max(1);
        let mut skipped = rest / behind;
        rest %= behind;
        for item in 0..8 {
            if used[item] {
                continue;
            }
            if skipped == 0 {
                used[item] = true;
                order[place] = item;
                break;
            }
            skipped -= 1;
        }
    }
    order
}

/// The cycles of eight items in an order, one after the other; none where an item stands above one that it depends on.
fn cycles_in(items: &[Adds; 8], order: &[usize; 8], latency: u32) -> Option<[u32; 8]> {
    let mut cycles: [u32; 8] = [0; 8];
    let mut next: u32 = 0;
    for place in 0..8 {
        let mine = order[place];
        let item = items.get(mine)?;
        let mut cycle: u32 = next;
        for above in 0..place {
            let other = items.get(order[above])?;
            if order[above] > mine && other.depends_on(*item) {
                return None;
            }
            if order[above] < mine && item.reads(other.out) {
                cycle = cycle.max(cycles[above].saturating_add(latency));
            }
        }
        cycles[place] = cycle;
        next = cycle.saturating_add(1);
    }
    Some(cycles)
}

/// The region of items, as it stands.
fn region_of(alloc: Global, items: &[Adds; 8]) -> Result<String, AllocError> {
    let mut text = String::from_str(alloc, "slothy_start:\n")?;
    for item in items {
        let (out, left, right) = (item.out, item.left, item.right);
        write!(text, "        add x{out}, x{left}, x{right}\n")?;
    }
    text.push_str("slothy_end:\n")?;
    Ok(text)
}

/// The region of items in an order, as it is written.
fn written_in(
    alloc: Global,
    items: &[Adds; 8],
    order: &[usize; 8],
    cycles: &[u32; 8],
) -> Result<String, AllocError> {
    let count = cycles[7].saturating_add(1);
    let stalls = count.saturating_sub(8);
    let mut text = String::from_str(alloc, "slothy_start:\n")?;
    write!(
        text,
        "        // @slothy:region v=1 kind=straight n=8 cycles={count} stalls={stalls}\n"
    )?;
    for (number, cycle) in order.iter().zip(cycles) {
        let Some(item) = items.get(*number) else {
            return Err(AllocError);
        };
        let (out, left, right) = (item.out, item.left, item.right);
        let line = number.saturating_add(2);
        write!(
            text,
            "        add x{out}, x{left}, x{right} // @slothy:i={number} u=u c={cycle} line={line}\n"
        )?;
    }
    text.push_str("slothy_end:\n")?;
    Ok(text)
}

/// The region of items in the first of their best orders, of all 40320, as it is written.
fn best_written(alloc: Global, items: &[Adds; 8], latency: u32) -> Result<String, AllocError> {
    let mut best = String::new(alloc);
    let mut fewest = u32::MAX;
    for number in 0..40320 {
        let order = order_of(number);
        let Some(cycles) = cycles_in(items, &order, latency) else {
            continue;
        };
        if cycles[7] < fewest {
            fewest = cycles[7];
            best = written_in(alloc, items, &order, &cycles)?;
        }
    }
    Ok(best)
}

/// Eight sums, each of an output and what it reads.
type Sums = [(u16, u16, u16); 8];

/// Two chains that meet.
const CHAINS: Sums = [
    (1, 0, 0),
    (2, 1, 1),
    (3, 2, 0),
    (4, 0, 0),
    (5, 4, 4),
    (6, 5, 0),
    (7, 3, 6),
    (8, 0, 7),
];

/// Registers that are read and then written.
const WRITTEN: Sums = [
    (1, 9, 10),
    (2, 1, 10),
    (9, 2, 11),
    (3, 12, 10),
    (4, 3, 1),
    (12, 13, 13),
    (5, 13, 14),
    (13, 5, 4),
];

/// Does `opt` write the first of the best orders?
fn is_best<R: Threads + Sync>(
    rt: &R,
    alloc: Global,
    sums: Sums,
    latency: u32,
) -> Result<bool, AllocError> {
    let items = sums.map(|(out, left, right)| Adds { out, left, right });
    let text = region_of(alloc, &items)?;
    let words = format!(in alloc; "opt k.s --core one:{latency}")?;
    let found = answer_to(rt, alloc, words.as_str(), text.as_bytes(), b"", NONE)?;
    let wanted = best_written(alloc, &items, latency)?;
    Ok(found.as_str() == format!(in alloc; "0|{wanted}|")?.as_str())
}

#[test]
fn a_list_of_all_orders_has_the_same_best(rt: HostRuntime) -> Failing {
    let mut failing = Failing::new(rt.alloc());
    failing.check(
        "two chains",
        is_best(&rt, rt.alloc(), CHAINS, 3) == Ok(true),
    );
    failing.check(
        "registers that are written",
        is_best(&rt, rt.alloc(), WRITTEN, 5) == Ok(true),
    );
    failing
}
