//! The region of `demo`: a kernel that is made from two numbers.
#![tactic(auto)]

mod generator;
mod kernel;

pub use kernel::kernel_text;
pub use sl_base::NoMemory;
