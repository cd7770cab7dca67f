//! When a core issues items: the costs of a list of items, and the cycles at which they
//! are issued one after the other.
#![tactic(auto)]

pub use costs::Costs;
pub use issue::Issue;
pub use sl_base::NoMemory;
pub use sl_model::schedule::{CostRow, Forward};
pub use tally::Tally;

mod costs;
mod issue;
mod tally;
