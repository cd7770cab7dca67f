//! Reading the region of a text: a straight list of instructions between two markers.
#![tactic(auto)]

mod draft;
mod last;
pub mod note;
mod pieces;
mod progress;
mod reading;
pub mod reasons;
pub mod region;
mod statements;
pub mod tags;
pub mod unit_name;
mod unset;
mod words;

pub use note::{Note, Notes};
pub use reasons::{ReadRefusal, Reason, Refusal, Wants};
pub use region::{Region, read_region};
pub use tags::Tags;
pub use unit_name::UnitName;
pub use words::Part;
