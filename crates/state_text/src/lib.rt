//! State files: a state as a text, read and printed.
#![tactic(auto)]

mod digits;
mod printer;
mod reader;
mod running;

pub use machine_sem::State;
pub use printer::print_state;
pub use reader::{StateErr, read_state};
pub use running::run_on_state;
pub use sl_base::NoMemory;
pub use sl_isa::ArchName;
