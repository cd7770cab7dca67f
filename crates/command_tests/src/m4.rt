//! Armv7E-M, through the whole command.
use crate::calls::{Usual, compare};
use sample_set::Failing;

/// A run of the longest multiplication.
const RUN: Usual = Usual {
    words: "run k.s --arch m4 --state s.txt",
    input: "slothy_start:\n        umaal r0, r1, r2, r3\nslothy_end:\n",
    state: "r0 = 0xffffffff\nr1 = 0xffffffff\nr2 = 0xffffffff\nr3 = 0xffffffff\n",
};

/// Two moves from S registers, and a sum on each.
const MOVES: Usual = Usual {
    words: "opt k.s --arch m4 --core one:2",
    input: "slothy_start:\n        vmov r1, s0\n        add r2, r1, r3\n        vmov r4, s1\n        add r5, r4, r3\nslothy_end:\n",
    state: "",
};

/// Runs with the states that they leave, or why there is none.
const RUNS: &str = "\
the longest multiplication|=|=|=|0|r0 = 0xffffffff
r1 = 0xffffffff
r2 = 0xffffffff
r3 = 0xffffffff
|~
a pair that is loaded, and its base|=|slothy_start:
        ldrd r2, r3, [r0], #8 @ a comment
slothy_end:
|r0 = 0x100
mem 0x100 = 0102030405060708
|0|r0 = 0x00000108
r2 = 0x04030201
r3 = 0x08070605
mem 0x00000100 = 0102030405060708
|~
a suffix that says how wide, and two operands|=|slothy_start:
        ADD.W r1, r2
slothy_end:
|r1 = 0xffffffff
r2 = 0x2
|0|r1 = 0x00000001
r2 = 0x00000002
|~
a register of the other architecture|=|slothy_start:
        add x0, x1, x2
slothy_end:
|=|3||slothy: k.s:2: refused: BadOperand
~
a state of the other architecture|=|=|x0 = 0x1
|3||slothy: s.txt:1: refused: StateBad
~
";

/// Schedules, and costs.
const SCHEDULES: &str = "\
moves together|=|=||0|slothy_start:
        // @slothy:region v=1 kind=straight n=4 cycles=4 stalls=0
        vmov r1, s0 // @slothy:i=0 u=u c=0 line=2
        vmov r4, s1 // @slothy:i=2 u=u c=1 line=4
        add r2, r1, r3 // @slothy:i=1 u=u c=2 line=3
        add r5, r4, r3 // @slothy:i=3 u=u c=3 line=5
slothy_end:
|~
their costs|cost k.s --arch m4 --core one:2|=||0|kind=straight n=4 cycles=6 stalls=2
c=0 u=u i=0 line=2 vmov r1, s0
c=2 u=u i=1 line=3 add r2, r1, r3
c=3 u=u i=2 line=4 vmov r4, s1
c=5 u=u i=3 line=5 add r5, r4, r3
|~
";

#[test]
fn armv7e_m_is_run_costed_and_rescheduled(rt: HostRuntime) -> Failing {
    let mut failing = Failing::new(rt.alloc());
    compare(&rt, rt.alloc(), &mut failing, RUN, RUNS);
    compare(&rt, rt.alloc(), &mut failing, MOVES, SCHEDULES);
    failing
}
