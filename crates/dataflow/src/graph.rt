//! The graph of items as a value.
ghost use Rattle.std.specs.Prelude.{◌≡◌, ◌<◌, ◌≤◌, length, slice_get, IfOk};
ghost use Rattle.sl_model.specs.Source.{item_at};
ghost use Rattle.sl_model.specs.Graph.{graph_of, info_at, sources_at, precedes_at, AreSources};
ghost use Rattle.sl_model.specs.Lawful.{AreValid};
ghost use Rattle.sl_model.specs.declared.limits.TheConstants.{ITEMS};
ghost use Rattle.dataflow.specs.Flows.{IsGraph};

use crate::conflicts::all_preceding;
use crate::flow::Flow;
use crate::infos::infos_of;
use crate::item_set::{ItemSet, copies};
use sl_base::NoMemory;
use sl_isa::Arch;
use sl_model::instruction::{FormInfo, Instr};
use sl_model::schedule::Source;
use std::alloc::{AllocError, Global};
use std::marker::Model;

/// Items, named by their places in their list from 0, with the order in which they stand, what the
/// table says of the form of each, the sources of its operands, and the items that have to come
/// before it.
#[derive(Drop)]
pub struct Graph {
    flow: Flow,
    infos: Vec<FormInfo>,
    precedes: Vec<ItemSet>,
}

impl Model for Graph {
    ghost use Rattle.sl_model.specs.Graph.{Graph};
    ghost use Rattle.dataflow.specs.Flows.{IsGraph};

    ghost Value = { Graph };

    ghost view = { λ a. record {
      items = a.flow.items;
      infos = a.infos.items;
      order = a.flow.order;
      sources = a.flow.sources;
      precedes = a.precedes.items;
    } };

    ghost invariant = { λ a. IsGraph (record {
      items = a.flow.items;
      infos = a.infos.items;
      order = a.flow.order;
      sources = a.flow.sources;
      precedes = a.precedes.items;
    }) };
}

impl Graph {
    // The graph of items in their order, with their sources.
    pub(crate) fn of_flow<A: Arch>(arch: &A, alloc: Global, flow: Flow) -> Result<Graph, NoMemory>
        requires valid { AreValid A.language.isa flow.items }
        requires few { length flow.items ≤ ITEMS }
        requires sources { AreSources flow.items flow.order flow.sources }
        ensures { IfOk result
            (λ graph. graph ≡ graph_of A.language.isa flow.items flow.order flow.sources) }
    {
        let infos = infos_of(arch, alloc, flow.items())?;
        let precedes = all_preceding(arch, alloc, &flow)?;
        Ok(Graph {
            flow,
            infos,
            precedes,
        })
    }

    /// An equal graph.
    pub fn copy(&self, alloc: Global) -> Result<Graph, NoMemory>
        ensures { IfOk result (λ graph. graph ≡ self.now) }
    {
        let flow = self.flow.copy(alloc)?;
        let infos = Vec::from_slice(alloc, &self.infos).map_err(AllocError::from)?;
        let precedes = copies(alloc, &self.precedes)?;
        Ok(Graph {
            flow,
            infos,
            precedes,
        })
    }

    /// The number of items, at most 64.
    pub fn len(&self) -> usize
        ensures len { result ≡ length self.now.items }
        ensures few { result ≤ ITEMS }
    {
        self.flow.len()
    }

    /// The items.
    pub fn items(&self) -> &[Instr]
        ensures { result.now ≡ self.now.items }
    {
        self.flow.items()
    }

    /// An item.
    pub fn item(&self, item: u16) -> &Instr
        requires { item < length self.now.items }
        ensures { result.now ≡ item_at self.now.items item }
    {
        self.flow.item(item)
    }

    /// The numbers of the items in the order in which they stand.
    pub fn order(&self) -> &[u16]
        ensures { result.now ≡ self.now.order }
    {
        self.flow.order()
    }

    /// What the table says of an item's form.
    pub fn info(&self, item: u16) -> FormInfo
        requires { item < length self.now.items }
        ensures { result ≡ info_at self.now item }
    {
        self.infos[usize::from(item)]
    }

    /// The sources of an item's operands, in their order; none where there is no such item.
    pub fn sources_of(&self, item: u16) -> &[Source]
        ensures sources { result.now ≡ sources_at self.now item }
        ensures few { length result.now ≤ 4 }
    {
        self.flow.sources_of(item)
    }

    /// The source of an operand of an item, if it has such an operand.
    pub fn source(&self, item: u16, operand: u8) -> Option<Source>
        ensures { result ≡ slice_get (sources_at self.now item) operand }
    {
        self.flow.source(item, operand)
    }

    /// The items that have to come before an item: that stand above it and conflict with it.
    pub fn must_precede(&self, item: u16) -> &ItemSet
        requires { item < length self.now.items }
        ensures { result.now ≡ precedes_at self.now item }
    {
        &self.precedes[usize::from(item)]
    }

    /// Each item stands once in the order, and the sources of its operands stand above it.
    pub fn is_sound(&self)
        ensures { IsGraph self.now }
    {
        // A look inside is all that the proof needs.
        let _ = self.flow.len();
    }
}
