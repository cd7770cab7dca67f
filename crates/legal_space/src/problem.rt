//! A problem of scheduling as a value.
ghost use Rattle.std.specs.Prelude.{◌≡◌, ℕ, ◌<◌, ◌≤◌, length, slice_index, IfOk, IsTrue};
ghost use Rattle.std.specs.List.{list_all};
ghost use Rattle.sl_model.specs.Source.{item_at};
ghost use Rattle.sl_model.specs.Legal.{sources_in, info_in, allowed_in};
ghost use Rattle.sl_model.specs.declared.limits.TheConstants.{ITEMS};
ghost use Rattle.search_space.specs.Searchable.{IsSearchable};
ghost use Rattle.legal_space.specs.Problems.{HasRoom};
ghost use Rattle.legal_space.specs.Timed.{is_known_source};

use dataflow::Graph;
use issue_cost::Costs;
use sl_base::NoMemory;
use sl_model::instruction::{FormInfo, Instr};
use sl_model::register::{Reg, RegSet};
use sl_model::schedule::Source;
use std::alloc::{AllocError, Global};
use std::marker::Model;

/// Items to schedule. Items are named by their places in the list, from 0.
#[derive(Drop)]
pub struct Problem {
    graph: Graph,
    finals: Vec<(Reg, Source)>,
    allowed: Vec<RegSet>,
    costs: Costs,
    looped: bool,
}

impl Model for Problem {
    ghost use Rattle.sl_model.specs.Legal.{Problem};
    ghost use Rattle.legal_space.specs.Problems.{IsProblem};

    ghost Value = { Problem };

    ghost view = { λ a. record {
      graph = a.graph;
      finals = a.finals.items;
      allowed = a.allowed.items;
      costs = a.costs;
      looped = a.looped;
    } };

    ghost invariant = { λ a. IsProblem (record {
      graph = a.graph;
      finals = a.finals.items;
      allowed = a.allowed.items;
      costs = a.costs;
      looped = a.looped;
    }) };
}

impl Problem {
    /// A problem of the items of a graph: the registers with the value that must stand in them at
    /// the end, a set of the registers that each item may write, a row of what each costs, and
    /// whether the items are the body of a loop. It copies what it keeps.
    pub fn new(
        alloc: Global,
        graph: &Graph,
        finals: &[(Reg, Source)],
        allowed: &[RegSet],
        costs: &Costs,
        looped: bool,
    ) -> Result<Problem, NoMemory>
        requires rows { length costs.now.rows ≡ length graph.now.items }
        requires allowed { length allowed.now ≡ length graph.now.items }
        ensures { IfOk result (λ problem. problem ≡ record {
          graph = graph.now;
          finals = finals.now;
          allowed = allowed.now;
          costs = costs.now;
          looped = looped;
        }) }
    {
        graph.is_sound();
        look_at_all(graph, costs);
        let graph = graph.copy(alloc)?;
        let finals = Vec::from_slice(alloc, finals).map_err(AllocError::from)?;
        let allowed = Vec::from_slice(alloc, allowed).map_err(AllocError::from)?;
        let costs = costs.copy(alloc)?;
        Ok(Problem {
            graph,
            finals,
            allowed,
            costs,
            looped,
        })
    }

    /// The number of items, at most 64, for each of which there is a row of what it costs, and a set
    /// of the registers that it may write.
    pub fn len(&self) -> usize
        ensures len { result ≡ length self.now.graph.items }
        ensures few { result ≤ ITEMS }
        ensures rows { length self.now.costs.rows ≡ length self.now.graph.items }
        ensures allowed { length self.now.allowed ≡ length self.now.graph.items }
    {
        self.graph.len()
    }

    /// Its schedules can be listed: each item stands once in its order, below its sources; the form
    /// of an item has a class for each of its operands and outputs; an item has at most 3 outputs;
    /// and the core has at most 16 units, and issues at least one item in a cycle.
    pub fn is_searchable(&self)
        ensures { IsSearchable self.now }
    {
        // A look inside is all that the proof needs.
        let _ = self.graph.len();
    }

    /// The graph of the items.
    pub fn graph(&self) -> &Graph
        ensures { result.now ≡ self.now.graph }
    {
        &self.graph
    }

    /// The items.
    pub fn items(&self) -> &[Instr]
        ensures { result.now ≡ self.now.graph.items }
    {
        self.graph.items()
    }

    /// An item.
    pub fn item(&self, item: u16) -> &Instr
        requires { item < length self.now.graph.items }
        ensures { result.now ≡ item_at self.now.graph.items item }
    {
        self.graph.item(item)
    }

    /// What the table says of an item's form.
    pub fn info(&self, item: u16) -> FormInfo
        requires { item < length self.now.graph.items }
        ensures { result ≡ info_in self.now item }
    {
        self.graph.info(item)
    }

    /// The numbers of the items in the order in which they stand.
    pub fn order(&self) -> &[u16]
        ensures order { result.now ≡ self.now.graph.order }
        ensures known { (k : ℕ) → k < length result.now
            → slice_index result.now k < length self.now.graph.items }
    {
        self.graph.is_sound();
        self.graph.order()
    }

    /// The registers with the value that must stand in them at the end.
    pub fn finals(&self) -> &[(Reg, Source)]
        ensures { result.now ≡ self.now.finals }
    {
        &self.finals
    }

    /// The registers that an item may write; none where there is no such item.
    pub fn allowed_for(&self, item: u16) -> RegSet
        ensures { result ≡ allowed_in self.now item }
    {
        match self.allowed.get(usize::from(item)) {
            Some(set) => *set,
            None => RegSet { bits: 0 },
        }
    }

    /// What the items cost.
    pub fn costs(&self) -> &Costs
        ensures costs { result.now ≡ self.now.costs }
        ensures rows { length result.now.rows ≡ length self.now.graph.items }
    {
        &self.costs
    }

    /// The sources of an item's operands, in their order; none where there is no such item.
    pub fn sources_of(&self, item: u16) -> &[Source]
        ensures sources { result.now ≡ sources_in self.now item }
        ensures few { length result.now ≤ 4 }
        ensures known { IsTrue
            (list_all (is_known_source (length self.now.graph.items)) result.now) }
    {
        self.graph.is_sound();
        self.graph.sources_of(item)
    }
}

// Each item and its form have room, and the core is wide enough: their types say so, and a look at
// each is all that the proof needs.
fn look_at_all(graph: &Graph, costs: &Costs)
    requires rows { length costs.now.rows ≡ length graph.now.items }
    ensures room { (p : ℕ) → p < length graph.now.items → HasRoom graph.now costs.now p }
    ensures width { 1 ≤ costs.now.width }
{
    let _ = costs.width();
    for item in 0..graph.len() as u16 {
        let instr = graph.item(item);
        look_at(instr.ins, instr.outs, graph.info(item));
        let _ = costs.units(item);
    }
}

// How many places there are for registers, and for their classes.
fn look_at(ins: [Option<Reg>; 4], outs: [Option<Reg>; 3], info: FormInfo)
    ensures ins { length ins ≡ 4 }
    ensures outs { length outs ≡ 3 }
    ensures in_sets { length info.in_sets ≡ 4 }
    ensures out_sets { length info.out_sets ≡ 3 }
{}
