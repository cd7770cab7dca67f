//! A schedule as a list of instructions, and that it computes the same.
#![tactic(auto)]

pub use applied::apply;

mod applied;
pub mod order;
