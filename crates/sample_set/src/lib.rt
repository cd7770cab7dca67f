//! What tests stand on: a small instruction set with accesses to memory, a few rows of a table, a
//! gate at which two workers meet, and the list of the cases of a test that failed. The set and the rows show too that what the laws of
//! architectures and tables ask for can be met.
#![tactic(auto)]

pub mod cores;
pub mod failing;
pub mod forms;
pub mod lines;
pub mod meeting;
pub mod rows;

pub use failing::Failing;
pub use forms::{FewForms, example};
pub use meeting::{Meeting, TURNS};
