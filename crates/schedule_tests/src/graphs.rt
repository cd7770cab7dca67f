//! Graphs of lists: where operands come from, who reads what, and which accesses keep their order.

use crate::lines::{Line, general, items_of};
use dataflow::{Graph, ItemSet, Source};
use issue_cost::NoMemory;
use sample_set::lines::{load_of, store_of, subs_of, sum_of};
use sample_set::{Failing, FewForms};
use sl_model::register::{Bank, Reg};
use std::alloc::{AllocError, Global};

/// Adds the numbers of a set's members, a blank before each.
fn push_set(text: &mut String, set: &ItemSet) -> Result<(), AllocError> {
    for item in 0..192 {
        if set.contains(item) {
            write!(text, " {item}")?;
        }
    }
    Ok(())
}

/// Adds sources: the number of a register, or an item and the place of its output.
fn push_sources(text: &mut String, sources: &[Source]) -> Result<(), AllocError> {
    for source in sources {
        match *source {
            Source::Entry(reg) => {
                let number = reg.number;
                write!(text, " x{number}")?;
            }
            Source::Item { index, place } => write!(text, " {index}.{place}")?,
        }
    }
    Ok(())
}

/// A graph as a text: for each item its sources, the items that have to come before it, and those that read it.
fn shown(alloc: Global, graph: &Graph) -> Result<String, AllocError> {
    let mut text = String::new(alloc);
    for item in 0..graph.len() as u16 {
        push_sources(&mut text, graph.sources_of(item))?;
        text.push_str(",")?;
        push_set(&mut text, graph.must_precede(item))?;
        text.push_str(",")?;
        push_set(&mut text, &graph.readers(item))?;
        text.push_str(";")?;
    }
    text.push_str(" end")?;
    push_sources(&mut text, &[graph.last(general(3)), graph.last(general(9))])?;
    Ok(text)
}

/// The graph of a list as a text.
fn graph_text(alloc: Global, lines: &[Line]) -> Result<String, AllocError> {
    let Ok(items) = items_of(alloc, lines) else {
        return Err(AllocError);
    };
    if 64 < items.len() {
        return Err(AllocError);
    }
    let Ok(graph) = Graph::build(&FewForms, alloc, &items) else {
        return Err(AllocError);
    };
    shown(alloc, &graph)
}

/// Sums of what stands above, of one value twice, and over an earlier one.
const SUMS: [Line; 4] = [
    Line::Sum(3, 1, 2),
    Line::Sum(4, 3, 3),
    Line::Sum(3, 3, 4),
    Line::Subs(3, 3, 1),
];

/// Two loads and a store of one base, which it moves on, and a load of another.
const ACCESSES: [Line; 5] = [
    Line::Load(3, 1, 0, None),
    Line::Load(4, 1, 2, None),
    Line::Store(3, 1, 2, None),
    Line::Load(5, 1, 0, None),
    Line::Load(6, 2, 0, None),
];

/// Accesses by registers of their own, that only tags tell apart.
const TAGS: [Line; 4] = [
    Line::Store(3, 1, 0, Some(1)),
    Line::Load(4, 2, 0, Some(2)),
    Line::Load(5, 2, 0, Some(1)),
    Line::Store(3, 6, 0, None),
];

#[test]
fn lists_have_their_graphs(rt: HostRuntime) -> Failing {
    let alloc = rt.alloc();
    let mut failing = Failing::new(alloc);
    failing.compare("no item", graph_text(alloc, &[]), " end x3 x9");
    failing.compare(
        "sums",
        graph_text(alloc, &SUMS),
        " x1 x2,, 1 2; 0.0 0.0,, 2; 0.0 1.0,, 3; 2.0,,; end 3.0 x9",
    );
    failing.compare(
        "accesses",
        graph_text(alloc, &ACCESSES),
        " x1,, 2; x1,,; 0.0 x1, 0, 3; 2.0, 2,; x2, 2,; end 0.0 x9",
    );
    failing.compare(
        "tags",
        graph_text(alloc, &TAGS),
        " x3 x1,,; x2,,; x2, 0,; x3 x6, 0 1 2,; end x3 x9",
    );
    failing
}

/// What a load, a store, a difference and a sum read, where the store comes first and moves the load's base on.
const ROWS: [[Option<Source>; 4]; 4] = [
    [Some(Source::Item { index: 1, place: 0 }), None, None, None],
    [
        Some(Source::Entry(Reg {
            bank: Bank::General,
            symbolic: false,
            number: 6,
        })),
        Some(Source::Entry(Reg {
            bank: Bank::General,
            symbolic: false,
            number: 2,
        })),
        None,
        None,
    ],
    [Some(Source::Item { index: 0, place: 0 }), None, None, None],
    [
        Some(Source::Item { index: 2, place: 0 }),
        Some(Source::Item { index: 2, place: 1 }),
        None,
        None,
    ],
];

/// The graph of these, with other sources than those of their registers.
fn other_sources(alloc: Global) -> Result<Graph, NoMemory> {
    let items = [
        load_of(5, 1, 0, None),
        store_of(6, 2, 0, None),
        subs_of(3, 5, 1),
        sum_of(4, 3, 3),
    ];
    Graph::from_sources(&FewForms, alloc, &items, &[1, 0, 2, 3], &ROWS)
}

#[test]
fn other_sources_have_their_graph(rt: HostRuntime) -> Result<Failing, NoMemory> {
    let alloc = rt.alloc();
    let mut failing = Failing::new(alloc);
    let graph = other_sources(alloc)?;
    failing.compare(
        "a store before a load",
        shown(alloc, &graph),
        " 1.0, 1, 2; x6 x2,, 0; 0.0,, 3; 2.0 2.1,,; end 2.0 x9",
    );
    failing.check("the order", graph.order() == &[1, 0, 2, 3][..]);
    Ok(failing)
}

/// Sets with members on both sides of each word, in any order.
fn set_text(alloc: Global, items: &[u16]) -> Result<String, AllocError> {
    let mut set = ItemSet::new();
    for item in items {
        if *item < 192 {
            set.insert(*item);
        }
    }
    let mut text = String::new(alloc);
    push_set(&mut text, &set.copy())?;
    Ok(text)
}

#[test]
fn sets_have_their_members(rt: HostRuntime) -> Failing {
    let alloc = rt.alloc();
    let mut failing = Failing::new(alloc);
    failing.compare("no member", set_text(alloc, &[]), "");
    failing.compare(
        "both sides of each word",
        set_text(alloc, &[191, 64, 0, 128, 63, 127, 64]),
        " 0 63 64 127 128 191",
    );
    failing
}

// With memory at hand a graph of as many items as it may have is made and copied.
#[test]
fn the_longest_graph_is_made(rt: HostRuntime) -> Result<Failing, NoMemory> {
    let alloc = rt.alloc();
    let mut failing = Failing::new(alloc);
    let items = items_of(alloc, &[Line::Store(2, 1, 0, None); 64])?;
    let graph = Graph::build(&FewForms, alloc, &items)?.copy(alloc)?;
    failing.check(
        "64 items",
        graph.len() == 64 && graph.items() == items.as_slice(),
    );
    if graph.len() == 64 {
        let before = graph.must_precede(63);
        failing.check("all above", before.contains(0) && before.contains(62));
        failing.check("not itself", !before.contains(63));
        failing.check("a form", graph.info(63).size == 2);
        failing.check(
            "the source of the base",
            graph.source(63, 1)
                == Some(Source::Item {
                    index: 62,
                    place: 0,
                }),
        );
        failing.check("no third operand", graph.source(63, 2) == None);
    }
    Ok(failing)
}
