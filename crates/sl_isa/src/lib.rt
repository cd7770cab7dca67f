//! Instructions: what they compute, how they are named, and the contract of an architecture.
#![tactic(auto)]

pub mod arch;
pub mod meaning;
pub mod names;
pub mod reasons;
pub mod registers;
pub mod sets;
pub mod symbols;

pub use arch::{Arch, CounterOp, comment_kind};
pub use names::{push_name, register_in, register_named};
pub use reasons::{FormErr, FormReason};
pub use registers::{place_among, place_of, same_reg};
pub use sl_model::instruction::{Access, ArchName, FormInfo, Instr, Outs};
pub use sl_model::register::{Bank, Reg, RegSet};
pub use symbols::Symbols;
