//! Kernels of `demo`.
use crate::calls::{Usual, compare};
use sample_set::Failing;
use sample_set::cores::{DUO, SOLO};

/// A kernel on a core that issues one instruction a cycle.
const ON_SOLO: Usual = Usual {
    words: "demo --core s.txt --key 0 --count 1",
    input: "",
    state: SOLO,
};

/// What the command says of kernels on that core.
const SOLO_ROWS: &str = "\
the least key|=|=|=|0|demo key=0 n=1 before=0 after=0
|~
the greatest key|demo --core s.txt --key 18446744073709551615 --count 1|=|=|0|demo key=18446744073709551615 n=1 before=0 after=0
|~
a key that is too great|demo --core s.txt --key 18446744073709551616 --count 1|=|=|2||slothy: usage: slothy MODE [INPUT] [OPTIONS]
~
stalls that go|demo --core s.txt --key 833911 --count 20|=|=|0|demo key=833911 n=20 before=5 after=0
|~
a budget that suffices|demo --core s.txt --key 8940083147172269253 --count 12 --budget 12|=|=|0|demo key=8940083147172269253 n=12 before=2 after=0
|~
a budget that is too small|demo --core s.txt --key 8940083147172269253 --count 12 --budget 11|=|=|4||slothy: budget: level=0 tree=0
~
all registers differ|demo --core one:1 --key 7 --count 12|=|=|0|demo key=7 n=12 before=0 after=0
|~
no schedule|demo --core one:3 --key 8603279476359532591 --count 5 --budget 10 --max-stalls 1|=|=|1||slothy: infeasible up to 1 stalls
~
the most items|demo --core one:1 --key 1 --count 64 --budget 63|=|=|4||slothy: budget: level=0 tree=0
~
an input|demo k.s --core one:1 --key 1 --count 1|=|=|2||slothy: usage: slothy MODE [INPUT] [OPTIONS]
~
a core that isn't there|demo --core none.toml --key 1 --count 1|=|=|5||slothy: read fault: none.toml
~
a core without a class|demo --core s.txt --key 0 --count 9|=|name = \"c\"\narch = \"arm64\"\nwidth = 1\nunits = [\"u\"]\n[class]\nload = { units = [\"u\"], busy = 1, latency = 1 }\n|3||slothy: demo:0: refused: ClassMissing
~
";

/// The same on a core that issues two.
const ON_DUO: Usual = Usual {
    words: "demo --core s.txt --key 616799 --count 8",
    input: "",
    state: DUO,
};

/// What the command says of them.
const DUO_ROWS: &str = "\
a stall that goes|=|=|=|0|demo key=616799 n=8 before=3 after=2
|~
a budget that is too small|demo --core s.txt --key 616799 --count 8 --budget 7|=|=|4||slothy: budget: level=2 tree=0
~
many items|demo --core s.txt --key 7 --count 64 --budget 100|=|=|4||slothy: budget: level=0 tree=0
~
";

#[test]
fn kernels_have_their_lines(rt: HostRuntime) -> Failing {
    let mut failing = Failing::new(rt.alloc());
    compare(&rt, rt.alloc(), &mut failing, ON_SOLO, SOLO_ROWS);
    compare(&rt, rt.alloc(), &mut failing, ON_DUO, DUO_ROWS);
    failing
}
