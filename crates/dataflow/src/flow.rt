//! Items in an order, and where their operands come from.
ghost use Rattle.std.specs.Prelude.{◌≡◌, ◌<◌, [], map, length, slice_index_or, slice_get, IfOk};
ghost use Rattle.sl_model.specs.Source.{item_at};
ghost use Rattle.dataflow.specs.Flows.{Flow as FlowValue};

use sl_base::NoMemory;
use sl_model::instruction::Instr;
use sl_model::schedule::Source;
use std::alloc::{AllocError, Global};
use std::marker::Model;

/// Items in the order in which they stand, with the sources of the operands of each.
#[derive(Drop)]
pub struct Flow {
    items: Vec<Instr>,
    order: Vec<u16>,
    sources: Vec<Vec<Source>>,
}

impl Model for Flow {
    ghost use Rattle.std.specs.Prelude.{map};
    ghost use Rattle.dataflow.specs.Flows.{Flow};

    ghost Value = { Flow };

    ghost view = { λ a. record {
      items = a.items.items;
      order = a.order.items;
      sources = map (λ v. v.items) a.sources.items;
    } };
}

impl Flow {
    /// Keeps items, their order and the sources of their operands.
    pub fn new(items: Vec<Instr>, order: Vec<u16>, sources: Vec<Vec<Source>>) -> Flow
        ensures { result ≡ record {
          items = items.items;
          order = order.items;
          sources = map (λ v. v.items) sources.items;
        } }
    {
        Flow {
            items,
            order,
            sources,
        }
    }

    /// An equal flow.
    pub fn copy(&self, alloc: Global) -> Result<Flow, NoMemory>
        ensures { IfOk result (λ flow. flow ≡ self.now) }
    {
        let items = Vec::from_slice(alloc, &self.items).map_err(AllocError::from)?;
        let order = Vec::from_slice(alloc, &self.order).map_err(AllocError::from)?;
        let sources = copies(alloc, &self.sources)?;
        Ok(Flow {
            items,
            order,
            sources,
        })
    }

    /// The items.
    pub fn items(&self) -> &[Instr]
        ensures { result.now ≡ self.now.items }
    {
        &self.items
    }

    /// The number of items.
    pub fn len(&self) -> usize
        ensures { result ≡ length self.now.items }
    {
        self.items.len()
    }

    /// An item.
    pub fn item(&self, item: u16) -> &Instr
        requires { item < length self.now.items }
        ensures { result.now ≡ item_at self.now.items item }
    {
        &self.items[usize::from(item)]
    }

    /// The numbers of the items in the order in which they stand.
    pub fn order(&self) -> &[u16]
        ensures { result.now ≡ self.now.order }
    {
        &self.order
    }

    /// The sources of an item's operands, in their order; none where there is no such item.
    pub fn sources_of(&self, item: u16) -> &[Source]
        ensures { result.now ≡ slice_index_or self.now.sources item [] }
    {
        match self.sources.get(usize::from(item)) {
            Some(sources) => sources,
            None => &[],
        }
    }

    /// The source of an operand of an item, if it has such an operand.
    pub fn source(&self, item: u16, operand: u8) -> Option<Source>
        ensures { result ≡ slice_get (slice_index_or self.now.sources item []) operand }
    {
        self.sources_of(item).get(usize::from(operand)).copied()
    }
}

// Equal lists of sources.
fn copies(alloc: Global, lists: &[Vec<Source>]) -> Result<Vec<Vec<Source>>, NoMemory>
    ensures { IfOk result
        (λ all. map (λ v. v.items) all.items ≡ map (λ v. v.items) lists.now) }
{
    let mut all = Vec::new(alloc);
    for list in lists {
        let copy = Vec::from_slice(alloc, list).map_err(AllocError::from)?;
        all.push(copy).map_err(AllocError::from)?;
    }
    Ok(all)
}
