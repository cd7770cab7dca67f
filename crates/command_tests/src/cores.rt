//! The command on the core of a file: what it answers, what it refuses, and which file is to blame.
use crate::calls::{NONE, Usual, answer_to, compare, repeated};
use sample_set::Failing;
use sample_set::cores::{DUO, SOLO};
use std::alloc::{AllocError, Global};
use std::thread::Threads;

/// Two loads and what waits for them.
pub const TWO_LOADS: &str =
    "slothy_start:\n        ldr x1, [x0]\n        add x2, x1, x3\n        ldr x4, [x0, #8]\n        add x5, x4, x3\nslothy_end:\n";

/// These, on a core that issues one instruction a cycle.
pub const ON_SOLO: Usual = Usual {
    words: "opt k.s --core s.txt",
    input: TWO_LOADS,
    state: SOLO,
};

/// What the command says of regions on that core.
const SOLO_ROWS: &str = "\
two loads as they stand|cost k.s --core s.txt|=|=|0|kind=straight n=4 cycles=8 stalls=4
c=0 u=load i=0 line=2 ldr x1, [x0]
c=3 u=alu i=1 line=3 add x2, x1, x3
c=4 u=load i=2 line=4 ldr x4, [x0, #8]
c=7 u=alu i=3 line=5 add x5, x4, x3
|~
two loads rescheduled|=|=|=|0|slothy_start:
        // @slothy:region v=1 kind=straight n=4 cycles=5 stalls=1
        ldr x1, [x0] // @slothy:i=0 u=load c=0 line=2
        ldr x4, [x0, #8] // @slothy:i=2 u=load c=1 line=4
        add x2, x1, x3 // @slothy:i=1 u=alu c=3 line=3
        add x5, x4, x3 // @slothy:i=3 u=alu c=4 line=5
slothy_end:
|~
no stall allowed|opt k.s --core=s.txt --max-stalls=0|=|=|1||slothy: infeasible up to 0 stalls
~
a budget that suffices|opt k.s --core s.txt --budget 4|=|=|0|slothy_start:
        // @slothy:region v=1 kind=straight n=4 cycles=5 stalls=1
        ldr x1, [x0] // @slothy:i=0 u=load c=0 line=2
        ldr x4, [x0, #8] // @slothy:i=2 u=load c=1 line=4
        add x2, x1, x3 // @slothy:i=1 u=alu c=3 line=3
        add x5, x4, x3 // @slothy:i=3 u=alu c=4 line=5
slothy_end:
|~
a budget that is too small|opt k.s --core s.txt --budget 3|=|=|4||slothy: budget: level=1 tree=0
~
an empty region|=|slothy_start:
slothy_end:
|=|0|slothy_start:
        // @slothy:region v=1 kind=straight n=0 cycles=0 stalls=0
slothy_end:
|~
three live in two registers|opt k.s --core s.txt --free x5|slothy_start:
        add x<a>, x0, x1
        add x<b>, x0, x2
        add x<c>, x0, x3
        madd x4, x<a>, x<b>, x<c>
slothy_end:
|=|1||slothy: infeasible up to 64 stalls
~
three live in three registers|opt k.s --core s.txt --free x5,x6|slothy_start:
        add x<a>, x0, x1
        add x<b>, x0, x2
        add x<c>, x0, x3
        madd x4, x<a>, x<b>, x<c>
slothy_end:
|=|0|slothy_start:
        // @slothy:region v=1 kind=straight n=4 cycles=4 stalls=0
        add x4, x0, x1 // @slothy:i=0 u=alu c=0 line=2
        add x5, x0, x2 // @slothy:i=1 u=alu c=1 line=3
        add x6, x0, x3 // @slothy:i=2 u=alu c=2 line=4
        madd x4, x4, x5, x6 // @slothy:i=3 u=mul c=3 line=5
slothy_end:
|~
a load behind a store|=|slothy_start:
        str x1, [x0]
        ldr x2, [x3]
        add x4, x2, x5
slothy_end:
|=|0|slothy_start:
        // @slothy:region v=1 kind=straight n=3 cycles=5 stalls=2
        str x1, [x0] // @slothy:i=0 u=store c=0 line=2
        ldr x2, [x3] // @slothy:i=1 u=load c=1 line=3
        add x4, x2, x5 // @slothy:i=2 u=alu c=4 line=4
slothy_end:
|~
flags are kept|=|slothy_start:
        adds x4, x4, x8
        adcs x5, x5, x9
        adcs x6, x6, x10
        ldr x7, [x0]
        add x11, x7, x12
slothy_end:
|=|0|slothy_start:
        // @slothy:region v=1 kind=straight n=5 cycles=5 stalls=0
        adds x4, x4, x8 // @slothy:i=0 u=alu c=0 line=2
        ldr x7, [x0] // @slothy:i=3 u=load c=1 line=5
        adcs x5, x5, x9 // @slothy:i=1 u=alu c=2 line=3
        adcs x6, x6, x10 // @slothy:i=2 u=alu c=3 line=4
        add x11, x7, x12 // @slothy:i=4 u=alu c=4 line=6
slothy_end:
|~
";

/// Products, on a core that issues two instructions a cycle.
const ON_DUO: Usual = Usual {
    words: "cost k.s --core s.txt",
    input: "slothy_start:\n        mul v0.8h, v1.8h, v2.8h\n        mla v0.8h, v3.8h, v4.8h\nslothy_end:\n",
    state: DUO,
};

/// What the command says of regions on that core.
const DUO_ROWS: &str = "\
an accumulator is forwarded|=|=|=|0|kind=straight n=2 cycles=2 stalls=1
c=0 u=va i=0 line=2 mul v0.8h, v1.8h, v2.8h
c=1 u=va i=1 line=3 mla v0.8h, v3.8h, v4.8h
|~
a factor isn't|=|slothy_start:
        mul v0.8h, v1.8h, v2.8h
        mla v5.8h, v0.8h, v4.8h
slothy_end:
|=|0|kind=straight n=2 cycles=5 stalls=4
c=0 u=va i=0 line=2 mul v0.8h, v1.8h, v2.8h
c=4 u=va i=1 line=3 mla v5.8h, v0.8h, v4.8h
|~
two in a cycle, each on a unit|=|slothy_start:
        add x1, x2, x3
        add x4, x5, x6
        add x7, x8, x9
slothy_end:
|=|0|kind=straight n=3 cycles=2 stalls=0
c=0 u=a0 i=0 line=2 add x1, x2, x3
c=0 u=a1 i=1 line=3 add x4, x5, x6
c=1 u=a0 i=2 line=4 add x7, x8, x9
|~
a unit that is busy|=|slothy_start:
        mul x1, x2, x3
        mul x4, x5, x6
slothy_end:
|=|0|kind=straight n=2 cycles=3 stalls=2
c=0 u=mul i=0 line=2 mul x1, x2, x3
c=2 u=mul i=1 line=3 mul x4, x5, x6
|~
a base that is written back|=|slothy_start:
        ldr x1, [x0], #8
        ldr x2, [x0]
        add x3, x1, x2
slothy_end:
|=|0|kind=straight n=3 cycles=6 stalls=4
c=0 u=ls i=0 line=2 ldr x1, [x0], #8
c=1 u=ls i=1 line=3 ldr x2, [x0]
c=5 u=a0 i=2 line=4 add x3, x1, x2
|~
the best of two units|opt k.s --core s.txt|slothy_start:
        add v0.8h, v1.8h, v2.8h
        sshr v3.8h, v4.8h, #1
slothy_end:
|=|0|slothy_start:
        // @slothy:region v=1 kind=straight n=2 cycles=1 stalls=0
        add v0.8h, v1.8h, v2.8h // @slothy:i=0 u=va c=0 line=2
        sshr v3.8h, v4.8h, #1 // @slothy:i=1 u=vb c=0 line=3
slothy_end:
|~
";

/// A core whose tables are given by each row.
const GIVEN: Usual = Usual {
    words: "cost k.s --core s.txt",
    input: "slothy_start:\n        add x2, x1, x0\n        mul x3, x2, x2\nslothy_end:\n",
    state: "",
};

/// Tables that are refused, and regions that don't fit them.
const REFUSALS: &str = "\
no document|=|=|width = = 1
|3||slothy: s.txt: refused: NotToml
~
nothing|=|=||3||slothy: s.txt: refused: Missing name
~
an unknown key|=|=|name = \"c\"
clock = 1
|3||slothy: s.txt: refused: KeyUnknown clock
~
another architecture|=|=|name = \"c\"
arch = \"m4\"
|3||slothy: s.txt: refused: ArchOther arch
~
a class that keeps a unit for no cycle|=|=|name = \"c\"
arch = \"arm64\"
width = 1
units = [\"u\"]
class.alu = { units = [\"u\"], busy = 0, latency = 1 }
|3||slothy: s.txt: refused: NumberRange class.alu.busy
~
a forward of no operand|=|=|name = \"c\"
arch = \"arm64\"
width = 1
units = [\"u\"]
class = {}
forward = [{ from = \"alu\", to = \"alu\", latency = 1 }]
|3||slothy: s.txt: refused: Missing forward.0.operand
~
a class that is missing|=|=|name = \"c\"
arch = \"arm64\"
width = 1
units = [\"u\"]
class.alu = { units = [\"u\"], busy = 1, latency = 1 }
|3||slothy: k.s:3: refused: ClassMissing
~
the same for a schedule|opt k.s --core s.txt|=|name = \"c\"
arch = \"arm64\"
width = 1
units = [\"u\"]
class.mul = { units = [\"u\"], busy = 1, latency = 1 }
|3||slothy: k.s:2: refused: ClassMissing
~
an empty region needs no class|=|slothy_start:
slothy_end:
|name = \"c\"
arch = \"arm64\"
width = 1
units = [\"u\"]
class = {}
|0|kind=straight n=0 cycles=0 stalls=0
|~
the first listed of units that are free at once|=|=|name = \"c\"
arch = \"arm64\"
width = 8
units = [\"a\", \"b\", \"c\"]
class.alu = { units = [\"c\", \"a\"], busy = 9, latency = 1 }
class.mul = { units = [\"c\", \"b\"], busy = 1, latency = 1 }
|0|kind=straight n=2 cycles=2 stalls=1
c=0 u=c i=0 line=2 add x2, x1, x0
c=1 u=b i=1 line=3 mul x3, x2, x2
|~
the core is read before the input|cost none.s --core s.txt|=||3||slothy: s.txt: refused: Missing name
~
the input stands before a class that is missing|=|slothy_start:
        add x2, x1
slothy_end:
|name = \"c\"
arch = \"arm64\"
width = 1
units = [\"u\"]
class = {}
|3||slothy: k.s:2: refused: BadOperand
~
a core that isn't there|cost k.s --core none.toml|=||5||slothy: read fault: none.toml
~
an input that isn't there|cost none.s --core one:2|=||5||slothy: read fault: none.s
~
a core that is the input|cost k.s --core k.s|=||3||slothy: k.s: refused: NotToml
~
";

#[test]
fn cores_of_files(rt: HostRuntime) -> Failing {
    let mut failing = Failing::new(rt.alloc());
    compare(&rt, rt.alloc(), &mut failing, ON_SOLO, SOLO_ROWS);
    compare(&rt, rt.alloc(), &mut failing, ON_DUO, DUO_ROWS);
    compare(&rt, rt.alloc(), &mut failing, GIVEN, REFUSALS);
    failing
}

/// How `cost` ends on a core whose table has so many bytes: a comment, and no key.
fn cost_on_comment<R: Threads + Sync>(
    rt: &R,
    alloc: Global,
    bytes: usize,
) -> Result<String, AllocError> {
    let table = repeated(alloc, "#", "x", bytes.saturating_sub(1), "")?;
    answer_to(rt, alloc, GIVEN.words, b"", table.as_bytes(), NONE)
}

#[test]
fn a_core_table_has_at_most_a_mebibyte(rt: HostRuntime) -> Failing {
    let mut failing = Failing::new(rt.alloc());
    failing.compare(
        "a mebibyte",
        cost_on_comment(&rt, rt.alloc(), 1048576),
        "3||slothy: s.txt: refused: Missing name\n",
    );
    failing.compare(
        "a byte more",
        cost_on_comment(&rt, rt.alloc(), 1048577),
        "9||slothy: s.txt:0: too large: file limit=1048576\n",
    );
    failing
}
