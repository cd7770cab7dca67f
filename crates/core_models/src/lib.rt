//! What items cost on a core.
#![tactic(auto)]

mod rows;
mod units;

pub use core_text::Core;
pub use issue_cost::Costs;
pub use rows::{CostErr, costs};
pub use sl_base::NoMemory;
