//! What items read of one another, and which of them have to stay in their order.
#![tactic(auto)]

pub use graph::Graph;
pub use item_set::ItemSet;
pub use sl_model::schedule::Source;

mod build;
mod conflicts;
mod flow;
mod graph;
mod infos;
mod item_set;
mod last;
mod lists;
mod readers;
pub mod sources;
