//! Printing instructions and a plan as the lines of a file, and what the printed region reads as.
#![tactic(auto)]

mod note;
pub mod plan;
mod print;

pub use plan::{Head, Plan, Program};
pub use print::print_region;
