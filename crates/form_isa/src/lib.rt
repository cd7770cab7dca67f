//! The instruction set of a table of rows.
#![tactic(auto)]

pub use by_table::{bytes_at, info_at, offset_at, values_at};
pub use exec::{access_of, bytes_of, offset_of, values_of};
pub use info::info_of;
pub use steps::step_instr;

mod access;
mod by_table;
mod exec;
mod info;
mod steps;
