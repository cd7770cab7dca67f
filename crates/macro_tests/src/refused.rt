//! Regions that aren't expanded: the first reason, at its line.

use crate::answers::{answer_behind, answer_in};
use sample_set::Failing;
use sl_text::Comments;

/// A reason in the order in which reasons are told, what stands before a region, the region, and the
/// line and the reason of its refusal.
const REASONS: [(&str, &str, &str, &str); 11] = [
    ("NoEndm", "", "a\n.macro m\nb\n", "2 NoEndm"),
    (
        "NoEndm of an expansion",
        ".macro m\n\\().macro n\n.endm\n",
        "a\nm\n",
        "5 NoEndm",
    ),
    (
        "MacroTwice",
        ".macro m\n.endm\n",
        ".macro m\n.endm\n",
        "3 MacroTwice",
    ),
    ("MacroShape", ".macro m 1\n.endm\n", "m\n", "3 MacroShape"),
    ("ArgCount", ".macro m a\n.endm\n", "m 1, 2\n", "3 ArgCount"),
    (
        "ParamUnknown",
        ".macro m a\nb \\c\n.endm\n",
        "m 1\n",
        "4 ParamUnknown",
    ),
    (
        "AliasTwice",
        "a .req x1\n",
        "a .req x1\na .req x2\n",
        "3 AliasTwice",
    ),
    ("AliasUnknown", "", ".unreq a\n", "1 AliasUnknown"),
    ("Depth", ".macro m\nm\n.endm\n", "m\n", "4 Depth 16"),
    (
        "Depth is told before the sum",
        ".macro m\nm;m;m;m\n.endm\n",
        "a\nm\n",
        "5 Depth 16",
    ),
    (
        "what is met first",
        ".macro m a\n.unreq b\n\\c\n.endm\n",
        "m 1; m\n",
        "5 AliasUnknown",
    ),
];

#[test]
fn each_reason_is_told(rt: HostRuntime) -> Failing {
    let alloc = rt.alloc();
    let mut failing = Failing::new(alloc);
    for (name, before, body, wanted) in &REASONS {
        let found = answer_behind(alloc, before, body, Comments::Slash);
        failing.compare(name, found, wanted);
    }
    failing
}

/// A name, a text with the markers `slothy_start` and `slothy_end`, and the line and
/// the reason of its refusal.
const DEFINITIONS: [(&str, &str, &str); 26] = [
    (
        "NoEndm: a .macro that an expansion gives",
        "slothy_start:\n.macro a\n.macro b\nmov x1, x2\n.endm\na\nslothy_end:\n",
        "6 NoEndm",
    ),
    (
        "NoEndm: a .macro that an argument gives",
        "slothy_start:\n.macro a p\n\\p b\n.endm\na .macro\nslothy_end:\n",
        "5 NoEndm",
    ),
    (
        "NoEndm: in the region",
        "slothy_start:\nmov x1, x2\n.macro m\nmov x1, x2\nslothy_end:\n",
        "3 NoEndm",
    ),
    (
        "NoEndm: in before",
        ".macro m\nslothy_start:\nmov x1, x2\nslothy_end:\n",
        "1 NoEndm",
    ),
    (
        "NoEndm: closed behind the region only",
        "slothy_start:\n.macro m\nslothy_end:\n.endm\n",
        "2 NoEndm",
    ),
    (
        "NoEndm: the .endm in a block comment",
        "slothy_start:\n.macro m\n/* .endm */\nslothy_end:\n",
        "2 NoEndm",
    ),
    (
        "NoEndm: before MacroTwice",
        "slothy_start:\n.macro m\n.endm\n.macro m\nslothy_end:\n",
        "4 NoEndm",
    ),
    (
        "MacroTwice: in the region",
        "slothy_start:\n.macro m\n.endm\n.macro m\n.endm\nslothy_end:\n",
        "4 MacroTwice",
    ),
    (
        "MacroTwice: before and region",
        ".macro m\n.endm\nslothy_start:\n\n.macro m\n.endm\nslothy_end:\n",
        "5 MacroTwice",
    ),
    (
        "MacroTwice: both in before",
        ".macro m\n.endm\n.macro m a\n.endm\nslothy_start:\nbogus\nslothy_end:\n",
        "3 MacroTwice",
    ),
    (
        "MacroTwice: an unusable one counts",
        "slothy_start:\n.macro m a a\n.endm\n.macro m\n.endm\nslothy_end:\n",
        "4 MacroTwice",
    ),
    (
        "MacroShape: .macro m, a",
        "slothy_start:\n.macro m, a\nmov x1, x2\n.endm\nm x1\nslothy_end:\n",
        "5 MacroShape",
    ),
    (
        "MacroShape: .macro m a,,b",
        "slothy_start:\n.macro m a,,b\nmov x1, x2\n.endm\nm x1\nslothy_end:\n",
        "5 MacroShape",
    ),
    (
        "MacroShape: .macro m a,",
        "slothy_start:\n.macro m a,\nmov x1, x2\n.endm\nm x1\nslothy_end:\n",
        "5 MacroShape",
    ),
    (
        "MacroShape: .macro m a a",
        "slothy_start:\n.macro m a a\nmov x1, x2\n.endm\nm x1\nslothy_end:\n",
        "5 MacroShape",
    ),
    (
        "MacroShape: .macro m a, b, a",
        "slothy_start:\n.macro m a, b, a\nmov x1, x2\n.endm\nm x1\nslothy_end:\n",
        "5 MacroShape",
    ),
    (
        "MacroShape: .macro m 1",
        "slothy_start:\n.macro m 1\nmov x1, x2\n.endm\nm x1\nslothy_end:\n",
        "5 MacroShape",
    ),
    (
        "MacroShape: .macro m a, 2",
        "slothy_start:\n.macro m a, 2\nmov x1, x2\n.endm\nm x1\nslothy_end:\n",
        "5 MacroShape",
    ),
    (
        "MacroShape: .macro m a-b",
        "slothy_start:\n.macro m a-b\nmov x1, x2\n.endm\nm x1\nslothy_end:\n",
        "5 MacroShape",
    ),
    (
        "MacroShape: .macro m a=1",
        "slothy_start:\n.macro m a=1\nmov x1, x2\n.endm\nm x1\nslothy_end:\n",
        "5 MacroShape",
    ),
    (
        "MacroShape: .macro m \"a\"",
        "slothy_start:\n.macro m \"a\"\nmov x1, x2\n.endm\nm x1\nslothy_end:\n",
        "5 MacroShape",
    ),
    (
        "MacroShape: .macro m \\a",
        "slothy_start:\n.macro m \\a\nmov x1, x2\n.endm\nm x1\nslothy_end:\n",
        "5 MacroShape",
    ),
    (
        "MacroShape: .macro m a.b",
        "slothy_start:\n.macro m a.b\nmov x1, x2\n.endm\nm x1\nslothy_end:\n",
        "5 MacroShape",
    ),
    (
        "MacroShape: .macro m ,",
        "slothy_start:\n.macro m ,\nmov x1, x2\n.endm\nm x1\nslothy_end:\n",
        "5 MacroShape",
    ),
    (
        "MacroShape: .macro m a:req",
        "slothy_start:\n.macro m a:req\nmov x1, x2\n.endm\nm x1\nslothy_end:\n",
        "5 MacroShape",
    ),
    (
        "MacroShape: before ArgCount",
        "slothy_start:\n.macro m a,\n.endm\nm x1, x2, x3\nslothy_end:\n",
        "4 MacroShape",
    ),
];

#[test]
fn definitions_are_refused(rt: HostRuntime) -> Failing {
    let alloc = rt.alloc();
    let mut failing = Failing::new(alloc);
    for (name, text, wanted) in &DEFINITIONS {
        failing.compare(name, answer_in(alloc, text), wanted);
    }
    failing
}

/// A name, a text with the markers `slothy_start` and `slothy_end`, and the line and
/// the reason of its refusal.
const INVOCATIONS: [(&str, &str, &str); 25] = [
    (
        "ArgCount: one of two",
        "slothy_start:\n.macro twice d, s\n        add \\d, \\s, \\s; add \\d, \\d, \\s\n.endm\nacc .req x9\n        twice acc\nslothy_end:\n",
        "6 ArgCount",
    ),
    (
        "depth: a macro that invokes itself",
        "slothy_start:\n.macro twice d, s\n        twice acc, x1\n.endm\nacc .req x9\n        twice acc, x1\nslothy_end:\n",
        "6 Depth 16",
    ),
    (
        "arguments split inside brackets",
        "slothy_start:\n.macro m p\nldr x1, \\p\n.endm\n        m [x0, #8]\nslothy_end:\n",
        "5 ArgCount",
    ),
    (
        "one parameter and no text",
        "slothy_start:\n.macro m a\nadd x1, x2, x3\n.endm\n        m\nslothy_end:\n",
        "5 ArgCount",
    ),
    (
        "no parameter and one text",
        "slothy_start:\n.macro m\nadd x1, x2, x3\n.endm\n        m x1\nslothy_end:\n",
        "5 ArgCount",
    ),
    (
        "three for two",
        "slothy_start:\n.macro m a, b\nadd \\a, \\b, x3\n.endm\n        m x1, x2, x3\nslothy_end:\n",
        "5 ArgCount",
    ),
    (
        "a run that is no parameter",
        "slothy_start:\n.macro m a\nadd x1, x2, \\ab\n.endm\n        m x3\nslothy_end:\n",
        "5 ParamUnknown",
    ),
    (
        "an underscore belongs to the run",
        "slothy_start:\n.macro m a\nadd x1, x2, \\a_\n.endm\n        m x3\nslothy_end:\n",
        "5 ParamUnknown",
    ),
    (
        "a digit belongs to the run",
        "slothy_start:\n.macro m a\nldr q\\a0, [x0]\n.endm\n        m 1\nslothy_end:\n",
        "5 ParamUnknown",
    ),
    (
        "a parameter of digits",
        "slothy_start:\n.macro m 1\nmov x1, x\\1\n.endm\n        m 2\nslothy_end:\n",
        "5 MacroShape",
    ),
    (
        "a backslash at the end",
        "slothy_start:\n.macro m\nmov x1, x2\\\n.endm\n        m\nslothy_end:\n",
        "5 ParamUnknown",
    ),
    (
        "two backslashes",
        "slothy_start:\n.macro m a\nmov x1, \\\\a\n.endm\n        m x2\nslothy_end:\n",
        "5 ParamUnknown",
    ),
    (
        "a backslash before a blank",
        "slothy_start:\n.macro m a\nmov x1, \\ a\n.endm\n        m x2\nslothy_end:\n",
        "5 ParamUnknown",
    ),
    (
        "\\( without )",
        "slothy_start:\n.macro m\nmov x1, x2 \\(\n.endm\n        m\nslothy_end:\n",
        "5 ParamUnknown",
    ),
    (
        "a parameter by another case",
        "slothy_start:\n.macro m a\nmov x1, \\A\n.endm\n        m x2\nslothy_end:\n",
        "5 ParamUnknown",
    ),
    (
        "ArgCount: before ParamUnknown of the body",
        "slothy_start:\n.macro m a\nmov x1, \\b\n.endm\nm\nslothy_end:\n",
        "5 ArgCount",
    ),
    (
        "ArgCount: inside a body: the line of the invocation in the region",
        "slothy_start:\n.macro m a\nmov x1, \\a\n.endm\n.macro n\nm\n.endm\nmov x1, x2\nn\nslothy_end:\n",
        "9 ArgCount",
    ),
    (
        "ParamUnknown: inside a nested body",
        "slothy_start:\n.macro m a\nmov x1, \\c\n.endm\n.macro n\nm x1\n.endm\nn\nslothy_end:\n",
        "8 ParamUnknown",
    ),
    (
        "ParamUnknown: an AliasTwice above it in the body comes first",
        "slothy_start:\n.macro m\nq .req x1\nmov x1, \\c\n.endm\nm\nslothy_end:\n",
        "6 ParamUnknown",
    ),
    (
        "ParamUnknown: on a .req of a body",
        "slothy_start:\n.macro m\n\\q .req x1\n.endm\nm\nslothy_end:\n",
        "5 ParamUnknown",
    ),
    (
        "ArgCount: before ParamUnknown at one statement",
        "slothy_start:\n.macro n a\nmov x1, \\a\n.endm\n.macro m\nn x1, \\q\n.endm\nm\nslothy_end:\n",
        "8 ArgCount",
    ),
    (
        "seventeen deep",
        "slothy_start:\n.macro m0\nmov x1, x2\n.endm\n.macro m1\nm0\n.endm\n.macro m2\nm1\n.endm\n.macro m3\nm2\n.endm\n.macro m4\nm3\n.endm\n.macro m5\nm4\n.endm\n.macro m6\nm5\n.endm\n.macro m7\nm6\n.endm\n.macro m8\nm7\n.endm\n.macro m9\nm8\n.endm\n.macro m10\nm9\n.endm\n.macro m11\nm10\n.endm\n.macro m12\nm11\n.endm\n.macro m13\nm12\n.endm\n.macro m14\nm13\n.endm\n.macro m15\nm14\n.endm\n.macro m16\nm15\n.endm\nm16\nslothy_end:\n",
        "53 Depth 16",
    ),
    (
        "depth before the expansion sum",
        "slothy_start:\n.macro m\nm\n.endm\nm\nslothy_end:\n",
        "5 Depth 16",
    ),
    (
        "ArgCount: at the seventeenth depth before the limit",
        "slothy_start:\n.macro m0\nmov x1, x2\n.endm\n.macro m1\nm0\n.endm\n.macro m2\nm1\n.endm\n.macro m3\nm2\n.endm\n.macro m4\nm3\n.endm\n.macro m5\nm4\n.endm\n.macro m6\nm5\n.endm\n.macro m7\nm6\n.endm\n.macro m8\nm7\n.endm\n.macro m9\nm8\n.endm\n.macro m10\nm9\n.endm\n.macro m11\nm10\n.endm\n.macro m12\nm11\n.endm\n.macro m13\nm12\n.endm\n.macro m14\nm13\n.endm\n.macro m15\nm14\n.endm\n.macro m16\nm15\n.endm\n.macro q a\nm15\n.endm\nm16 x1\nslothy_end:\n",
        "56 ArgCount",
    ),
    (
        "ArgCount: a .req with the name of a macro in the region is an invocation",
        "slothy_start:\n.macro m\n.endm\nm .req x1\nslothy_end:\n",
        "4 ArgCount",
    ),
];

#[test]
fn invocations_are_refused(rt: HostRuntime) -> Failing {
    let alloc = rt.alloc();
    let mut failing = Failing::new(alloc);
    for (name, text, wanted) in &INVOCATIONS {
        failing.compare(name, answer_in(alloc, text), wanted);
    }
    failing
}

/// A name, a text with the markers `slothy_start` and `slothy_end`, and the line and
/// the reason of its refusal.
const ALIASES: [(&str, &str, &str); 18] = [
    (
        "AliasTwice: above a ParamUnknown of the same body",
        "slothy_start:\nq .req x2\n.macro m\nq .req x1\nmov x1, \\c\n.endm\nm\nslothy_end:\n",
        "7 AliasTwice",
    ),
    (
        "AliasTwice: another text",
        "slothy_start:\na .req x1\na .req x2\nslothy_end:\n",
        "3 AliasTwice",
    ),
    (
        "AliasTwice: another case of the text",
        "slothy_start:\na .req x1\na .req X1\nslothy_end:\n",
        "3 AliasTwice",
    ),
    (
        "AliasTwice: before and region",
        "a .req x1\nslothy_start:\na .req x2\nslothy_end:\n",
        "3 AliasTwice",
    ),
    (
        "AliasTwice: in before",
        "a .req x1\na .req x2\nslothy_start:\nbogus\nslothy_end:\n",
        "2 AliasTwice",
    ),
    (
        "AliasTwice: by a second expansion",
        "slothy_start:\n.macro m r\nq .req \\r\nmov q, q\n.endm\nm x1\nm x2\nslothy_end:\n",
        "7 AliasTwice",
    ),
    (
        "AliasUnknown: never made",
        "slothy_start:\n.unreq a\nslothy_end:\n",
        "2 AliasUnknown",
    ),
    (
        "AliasUnknown: twice undone",
        "slothy_start:\na .req x1\n.unreq a\n.unreq a\nslothy_end:\n",
        "4 AliasUnknown",
    ),
    (
        "AliasUnknown: no name",
        "slothy_start:\na .req x1\n.unreq\nslothy_end:\n",
        "3 AliasUnknown",
    ),
    (
        "AliasUnknown: two names",
        "slothy_start:\na .req x1\nb .req x2\n.unreq a b\nslothy_end:\n",
        "4 AliasUnknown",
    ),
    (
        "AliasUnknown: by its text",
        "slothy_start:\na .req x1\n.unreq x1\nslothy_end:\n",
        "3 AliasUnknown",
    ),
    (
        "AliasUnknown: another case",
        "slothy_start:\na .req x1\n.unreq A\nslothy_end:\n",
        "3 AliasUnknown",
    ),
    (
        "AliasUnknown: in before",
        ".unreq a\nslothy_start:\nmov x1, x2\nslothy_end:\n",
        "1 AliasUnknown",
    ),
    (
        "a file: AliasUnknown",
        ".macro M0 dst\n        mul \\dst, x9, \\dst\n.endm\n.macro _2 dst\n        load1 x7\n.endm\nslothy_start:\n.macro load1 A\n        ldr x4, [x0, #40]\n        M0 \\A\n        add \\A, x9, x8 // \\x\n.endm\nadd .req x10\n.unreq add\n        add x2, x6, x1\n        _2 x2\n        add x1, x3, add\n.unreq add\nslothy_end:\n",
        "18 AliasUnknown",
    ),
    (
        "a file: NoEndm",
        "slothy_start:\n.macro M0 dst\n        ldr x6, [x0, #64] // @slothy:mem=t0\n        EOR \\dst\\(), \\dst, \\dst\\()\n        mul \\dst, \\dst, \\dst // \\x\n.endm\n.macro M1 p1,a\n        mul x9, x4, \\a\\()\n        EOR \\a\\(), x10, x10\n        ldr \\a\\(), [x0, #8] // @slothy:mem=t1\n        M0 x6\n        add x5, x9, x4\nslothy_end:\n",
        "7 NoEndm",
    ),
    (
        "a file: AliasTwice",
        ".macro _1\r\n        m0 x11 , x1 , x1\r\n.endm\r\nslothy_start:\r\n.macro m0 dst p1 a\r\n        q0 .req \\p1\\()\r\n        add \\a, \\a, x5 // \\x\r\n.endm\r\nq0 .req x4\r\n        m0 x6, x1, x2\r\n        m0 q0, x10, x10\r\n        _1 \r\n        m0 x8, x5, x4\r\n        _1 \r\nslothy_end:\r\n",
        "10 AliasTwice",
    ),
    (
        "a file: ArgCount",
        "slothy_start:\n.macro m0 b\n        add x10, \\b, \\b\n.endm\n        m0 x7, x1\n        add x3, x2, x6\nslothy_end:\n",
        "5 ArgCount",
    ),
    (
        "a file: ParamUnknown",
        "tmp .req x2\nslothy_start:\n.macro M0 ab,p1,a\n        ldr \\z, [x0, #32] // @slothy:mem=t0\n        add \\p1, x8, \\p1\\() // \\x\n.endm\n.macro load1\n        M0 x7, x8, x10\n.endm\n        add x1, tmp, x9\n        add x3, x8, x8\n        add x7, x9, x11\n        load1 \n        add tmp, x1, x5\nslothy_end:\n",
        "13 ParamUnknown",
    ),
];

#[test]
fn aliases_are_refused(rt: HostRuntime) -> Failing {
    let alloc = rt.alloc();
    let mut failing = Failing::new(alloc);
    for (name, text, wanted) in &ALIASES {
        failing.compare(name, answer_in(alloc, text), wanted);
    }
    failing
}
