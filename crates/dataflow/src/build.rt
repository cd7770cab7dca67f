//! Graphs of lists of items, with their own sources or with others.
ghost use Rattle.std.specs.Prelude.{◌≡◌, ◌≤◌, map, length, IfOk};
ghost use Rattle.std.specs.List.{filter_map};
ghost use Rattle.sl_model.specs.Graph.{graph_of, list_graph, AreSources};
ghost use Rattle.sl_model.specs.Lawful.{AreValid};
ghost use Rattle.sl_model.specs.declared.limits.TheConstants.{ITEMS};

use crate::flow::Flow;
use crate::graph::Graph;
use crate::lists::{all_sources, numbers_below};
use sl_base::NoMemory;
use sl_isa::Arch;
use sl_model::instruction::Instr;
use sl_model::schedule::Source;
use std::alloc::{AllocError, Global};

impl Graph {
    /// The graph of a straight list of at most 64 items, in its own order with its own sources.
    pub fn build<A: Arch>(arch: &A, alloc: Global, items: &[Instr]) -> Result<Graph, NoMemory>
        requires few { length items.now ≤ ITEMS }
        requires valid { AreValid A.language.isa items.now }
        ensures { IfOk result (λ graph. graph ≡ list_graph A.language.isa items.now) }
    {
        let order = numbers_below(alloc, items.len() as u16)?;
        let sources = all_sources(alloc, items)?;
        let items = Vec::from_slice(alloc, items).map_err(AllocError::from)?;
        Graph::of_flow(arch, alloc, Flow::new(items, order, sources))
    }

    /// The graph of at most 64 items in an order, each of which has for its operands the sources of
    /// its row. Each item stands once in the order; and each source is what a register held at
    /// first, or an output of an item above.
    pub fn from_sources<A: Arch>(
        arch: &A,
        alloc: Global,
        items: &[Instr],
        order: &[u16],
        sources: &[[Option<Source>; 4]],
    ) -> Result<Graph, NoMemory>
        requires few { length items.now ≤ ITEMS }
        requires valid { AreValid A.language.isa items.now }
        requires sources { AreSources items.now order.now (map (filter_map (λ s. s)) sources.now) }
        ensures { IfOk result
            (λ graph. graph ≡ graph_of A.language.isa items.now order.now
            (map (filter_map (λ s. s)) sources.now)) }
    {
        let order = Vec::from_slice(alloc, order).map_err(AllocError::from)?;
        let sources = all_rows(alloc, sources)?;
        let items = Vec::from_slice(alloc, items).map_err(AllocError::from)?;
        Graph::of_flow(arch, alloc, Flow::new(items, order, sources))
    }
}

// The sources of each row.
fn all_rows(alloc: Global, rows: &[[Option<Source>; 4]]) -> Result<Vec<Vec<Source>>, NoMemory>
    ensures { IfOk result
        (λ all. map (λ v. v.items) all.items ≡ map (filter_map (λ s. s)) rows.now) }
{
    let mut all = Vec::new(alloc);
    for row in rows {
        all.push(sources_in(alloc, row)?).map_err(AllocError::from)?;
    }
    Ok(all)
}

// The sources of a row.
fn sources_in(alloc: Global, row: &[Option<Source>]) -> Result<Vec<Source>, NoMemory>
    ensures { IfOk result (λ sources. sources.items ≡ filter_map (λ s. s) row.now) }
{
    let sources = row.iter().filter_map(|source| *source).collect(alloc)?;
    Ok(sources)
}
