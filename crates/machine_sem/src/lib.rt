//! Machine states, and what instructions do to them.
#![tactic(auto)]

pub mod run;
pub mod state;

pub use run::{run_list, step};
pub use sl_base::NoMemory;
pub use state::State;
