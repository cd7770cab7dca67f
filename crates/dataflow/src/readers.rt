//! Which items read what others write.
ghost use Rattle.std.specs.Prelude.{◌≡◌, ◌==◌, ◌<◌};
ghost use Rattle.std.specs.List.{list_any};
ghost use Rattle.sl_model.specs.Graph.{is_output_of, readers_of};

use crate::graph::Graph;
use crate::item_set::ItemSet;
use sl_model::schedule::Source;

impl Graph {
    /// The items that read an output of an item.
    pub fn readers(&self, item: u16) -> ItemSet
        ensures { result ≡ readers_of self.now item }
    {
        readers_of(self, item)
    }
}

// The items of a graph that read an output of an item.
fn readers_of(graph: &Graph, item: u16) -> ItemSet
    ensures { result ≡ readers_of graph.now item }
{
    graph.is_sound();
    let mut set = ItemSet::new();
    for reader in 0..graph.len() as u16 {
        if !is_read(graph.sources_of(reader), item) {
            continue;
        }
        set.insert(reader);
    }
    set
}

// Is an output of an item among sources?
fn is_read(sources: &[Source], item: u16) -> bool
    ensures { result ≡ list_any (is_output_of item) sources.now }
{
    sources.iter().any(|source| is_output_of(*source, item))
}

// Is a source an output of an item?
fn is_output_of(source: Source, item: u16) -> bool
    ensures { result ≡ is_output_of item source }
{
    match source {
        Source::Entry(_) => false,
        Source::Item { index, .. } => index == item,
    }
}
