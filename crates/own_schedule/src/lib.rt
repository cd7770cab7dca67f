//! The schedule of items as they stand: each on the unit of its class that issues it first.
#![tactic(auto)]

pub use own::own_schedule;
pub use sl_base::NoMemory;

mod own;
mod units;
