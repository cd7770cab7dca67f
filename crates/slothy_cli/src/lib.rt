//! The command: from words to the bytes on standard output.
#![tactic(auto)]

mod best;
mod command;
mod core_file;
mod cost;
mod demo;
mod files;
mod input;
mod opt;
mod plan;
mod problem;
mod report;
mod setting;
pub mod status;
pub mod stop;
mod top;
mod work;

pub use status::{Ending, Status};
pub use stop::{Failure, Quantity, Reason, Stop};
pub use top::run;
