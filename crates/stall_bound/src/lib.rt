//! How many stalls any schedule that begins with some choices has at least.
#![tactic(auto)]

pub use bounds::Bounds;
pub use sl_base::NoMemory;
pub use slots::stalls_of;

mod bounds;
mod heights;
mod recount;
mod slots;
