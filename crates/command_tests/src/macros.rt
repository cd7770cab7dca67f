//! Macros and aliases, through the whole command.
use crate::calls::{Usual, compare};
use sample_set::Failing;

/// The costs of a region at latency 1.
const COST: Usual = Usual {
    words: "cost k.s --core one:1",
    input: "",
    state: "",
};

/// Inputs with macros and aliases, with their costs, or why they have none.
const INPUTS: &str = "\
a macro and an alias in the region|=|slothy_start:
.macro twice d, s
        add \\d, \\s, \\s; add \\d, \\d, \\s
.endm
acc .req x9
        twice acc, x1
slothy_end:
||0|kind=straight n=2 cycles=2 stalls=0
c=0 u=u i=0 line=6 add x9, x1, x1
c=1 u=u i=1 line=6 add x9, x9, x1
|~
too few arguments|=|slothy_start:
.macro twice d, s
        add \\d, \\s, \\s
.endm
        twice x1
slothy_end:
||3||slothy: k.s:5: refused: ArgCount
~
a macro that invokes itself|=|slothy_start:
.macro twice d, s
        twice \\d, \\s
.endm

        twice x9, x1
slothy_end:
||9||slothy: k.s:6: too large: depth limit=16
~
a macro without an end|=|f:
slothy_start:
.macro m
slothy_end:
||3||slothy: k.s:3: refused: NoEndm
~
no end marker, and a macro without an end|=|f:
slothy_start:
.macro m
||3||slothy: k.s:0: refused: NoEnd
~
a macro that is defined twice|=|.macro m
.endm
.macro m
.endm
slothy_start:
slothy_end:
||3||slothy: k.s:3: refused: MacroTwice
~
parameters that are no names|=|.macro m a,, b
.endm
slothy_start:
        m x0, x1
slothy_end:
||3||slothy: k.s:4: refused: MacroShape
~
no such parameter|=|.macro m a
        add \\b, \\a, \\a
.endm
slothy_start:
        m x0
slothy_end:
||3||slothy: k.s:5: refused: ParamUnknown
~
an alias for two registers|=|a .req x0
slothy_start:
a .req x0
a .req x1
slothy_end:
||3||slothy: k.s:4: refused: AliasTwice
~
a note behind an invocation|=|.macro m
        add x0, x1, x2
.endm
slothy_start:
        m // @slothy:may_early
slothy_end:
||3||slothy: k.s:5: refused: TagBad
~
a note on the region behind an invocation|=|.macro m
.endm
slothy_start:
        m // @slothy:region
slothy_end:
||3||slothy: k.s:4: refused: TagBad
~
a note behind an instruction that stands behind an invocation|=|.macro m
.endm
slothy_start:
        m; add x0, x1, x2 // @slothy:may_early
slothy_end:
||0|kind=straight n=1 cycles=1 stalls=0
c=0 u=u i=0 line=4 add x0, x1, x2
|~
a note in a body|=|.macro m
        add x0, x1, x2
        // @slothy:may_early
.endm
slothy_start:
        m
slothy_end:
||3||slothy: k.s:6: refused: TagBad
~
a bad line in an expansion|=|.macro m a
        add x0, x1, x2
        add x0, x1, \\a
.endm
slothy_start:

        m x31
slothy_end:
||3||slothy: k.s:7: refused: BadOperand
~
";

#[test]
fn macros_are_expanded_and_aliases_replaced(rt: HostRuntime) -> Failing {
    let mut failing = Failing::new(rt.alloc());
    compare(&rt, rt.alloc(), &mut failing, COST, INPUTS);
    failing
}
