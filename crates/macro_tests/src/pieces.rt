//! The pieces of regions.

use crate::answers::answer_behind;
use sample_set::Failing;
use sl_text::Comments;

/// A name, what stands before a region, the region, and its pieces: `|` and the line where a row
/// begins, statements in brackets with `~` for comments, notes in braces, and `!` behind an
/// expansion, before which the row of the `.endm` begins.
const PIECES: [(&str, &str, &str, &str); 46] = [
    ("nothing", "", "", ""),
    ("a blank line", "", " \t\n", "|1 "),
    ("a statement", "s:\n", "  add x1, x2 \n", "|2 [add x1, x2]"),
    ("two on a line", "", "a ; b;\n", "|1 [a][b]"),
    ("labels", "", "l: m: add x1\n", "|1 [l:][m:][add x1]"),
    ("a label alone", "", "l:\nb", "|1 [l:]|2 [b]"),
    ("no label", "", "l : add", "|1 [l : add]"),
    ("CR LF", "", "a\r\nb\r\n", "|1 [a]|2 [b]"),
    ("a note", "", "a // @slothy:mem=t\n", "|1 [a]{mem=t}"),
    ("a note in capitals", "", "a // @SLOTHY: X", "|1 [a]{ X}"),
    ("no note", "", "a //@slothy:x\nb // x", "|1 [a]|2 [b]"),
    (
        "a comment inside",
        "",
        "add/**/x1/* */ ,x2",
        "|1 [add~x1~ ,x2]",
    ),
    (
        "comments that touch",
        "",
        "add/*a*//*b*//*c*/x1",
        "|1 [add~x1]",
    ),
    ("comments apart", "", "add/*a*/ /*b*/x1", "|1 [add~ ~x1]"),
    (
        "a comment over lines",
        "",
        "a /* x\n// @slothy:t\n*/ b",
        "|1 [a]|2 |3 [b]",
    ),
    ("open before the region", "/* x\n", "y */ a", "|2 [a]"),
    (
        "arguments",
        ".macro m a, b\n\\a,\\b\n.endm\n",
        "m x 1 , y\n",
        "|4 |4 |4 [x 1,y]|4 !",
    ),
    (
        "parameters by blanks",
        ".macro m a b\n\\b\\a\n.endm\n",
        "m x,y",
        "|4 |4 |4 [yx]|4 !",
    ),
    (
        "an empty argument",
        ".macro m a b\nc\\a,\\b\n.endm\n",
        "m ,y",
        "|4 |4 |4 [c,y]|4 !",
    ),
    (
        "nothing separates",
        ".macro m a\n\\a\\()b \\()c\\()\\()\n.endm\n",
        "m x",
        "|4 |4 |4 [xb c]|4 !",
    ),
    (
        "the longest name",
        ".macro m a ab\n\\ab.\\a\n.endm\n",
        "m x,y",
        "|4 |4 |4 [y.x]|4 !",
    ),
    (
        "a body on the line of .macro",
        "",
        ".macro m; a; b; .endm; m\n",
        "|1 |1 |1 |1 [a][b]!",
    ),
    (
        "a label by an argument",
        ".macro m p\n\\p: add\n.endm\n",
        "m l",
        "|4 |4 |4 [l:][add]|4 !",
    ),
    (
        "a comment in a body",
        ".macro m p\nadd/* \\q */\\p // \\r\n.endm\n",
        "m x1",
        "|4 |4 |4 [add~x1]|4 !",
    ),
    (
        "comments in a body that touch",
        ".macro m p\nadd/*a*//*b*/\\p\n.endm\n",
        "m x1",
        "|4 |4 |4 [add~x1]|4 !",
    ),
    (
        "a comment in an argument",
        ".macro m p\nadd \\p\n.endm\n",
        "m x1/* */x2 /* */",
        "|4 |4 |4 [add x1~x2]|4 !",
    ),
    (
        "a macro with an alias for an argument",
        "slothy_start:\n",
        ".macro twice d, s\n        add \\d, \\s, \\s; add \\d, \\d, \\s\n.endm\nacc .req x9\n        twice acc, x1\n",
        "|2 |2 |4 |5 |6 |6 |6 [add x9, x1, x1][add x9, x9, x1]|6 !",
    ),
    (
        "a note in a body",
        ".macro m p\na\\p // @slothy:mem=\\p\n.endm\n",
        "m x",
        "|4 |4 |4 [ax]{mem=\\p}|4 !",
    ),
    (
        "a note behind an invocation",
        ".macro m\na\n.endm\n",
        "m // @slothy:t",
        "|4 |4 |4 [a]|4 !{t}",
    ),
    (
        "a note behind .macro",
        "",
        ".macro m // @slothy:t\na\n.endm\nm",
        "|1 |1 {t}|3 |4 |4 |4 [a]|4 !",
    ),
    (
        "nested",
        ".macro a p\nadd \\p\n.endm\n.macro b q\na \\q; a x9\n.endm\n",
        "b x7\n",
        "|7 |7 |7 |7 |7 [add x7]|7 !|7 |7 [add x9]|7 !|7 !",
    ),
    (
        "begun before, ended in the region",
        ".macro m\na\ns:\n",
        "b\n.endm\nm\n",
        "|6 |6 |6 [a]|6 [s:]|6 [b]|6 !",
    ),
    (
        "a definition of the region",
        "",
        ".macro m\n.endm\nm",
        "|1 |1 |2 |3 |3 |3 !",
    ),
    ("no name", ".macro\na\n.endm\n", "a", "|4 [a]"),
    ("endm outside", "", ".endm\na", "|1 |2 [a]"),
    (
        "case of directives",
        ".MACRO m\na\n.EndM\n",
        "m",
        "|4 |4 |4 [a]|4 !",
    ),
    ("case of names", ".macro m\na\n.endm\n", "M", "|4 [M]"),
    (
        "a label is no invocation",
        ".macro m\na\n.endm\n",
        "m:",
        "|4 [m:]",
    ),
    (
        "an alias",
        "acc .req x9\n",
        "add acc, acc.w",
        "|2 [add x9, x9.w]",
    ),
    (
        "aliases chained",
        "",
        "a .req x1\nb .req a, a\na2 b b2 b\nc b",
        "|1 |2 |3 [a2 x1, x1 b2 x1, x1]|4 [c x1, x1]",
    ),
    (
        "words that stay",
        "a .req x1\n",
        "a a.a <a> . a < a",
        "|2 [a x1.a <a> . x1 < x1]",
    ),
    (
        "an alias undone",
        "",
        "a .req x1\nb .req a\n.unreq a\nc a, b",
        "|1 |2 |3 |4 [c a, x1]",
    ),
    (
        "an alias in an expansion",
        ".macro m p\nt .req \\p\nadd t\n.unreq t\n.endm\n",
        "m x1; m x2",
        "|6 |6 |6 |6 [add x1]|6 |6 !|6 |6 |6 [add x2]|6 |6 !",
    ),
    (
        "an alias of an alias outlives it",
        "",
        "a .req x1\nb .req a\nc .req b\n.unreq b\nd c, b",
        "|1 |2 |3 |4 |5 [d x1, b]",
    ),
    ("a .req without text", "a .req\n", "a .req\n", "|2 [a .req]"),
    (
        "a .req with the name of a macro, before",
        ".macro m\n.endm\nm .req x\n",
        "a m",
        "|4 [a m]",
    ),
];

#[test]
fn a_region_has_pieces(rt: HostRuntime) -> Failing {
    let alloc = rt.alloc();
    let mut failing = Failing::new(alloc);
    for (name, before, body, wanted) in &PIECES {
        let found = answer_behind(alloc, before, body, Comments::Slash);
        failing.compare(name, found, wanted);
    }
    failing
}

#[test]
fn an_at_begins_a_comment_where_it_does(rt: HostRuntime) -> Failing {
    let alloc = rt.alloc();
    let mut failing = Failing::new(alloc);
    let at = answer_behind(alloc, "", "a @ b", Comments::SlashAt);
    failing.compare("a comment", at, "|1 [a]");
    let mark = answer_behind(alloc, "", "a @ b", Comments::Slash);
    failing.compare("a mark", mark, "|1 [a @ b]");
    failing
}
