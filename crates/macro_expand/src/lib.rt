//! Macros and aliases: the statements of a region once they are gone.
#![tactic(auto)]

pub mod expansion;
mod filled;
pub mod parts;
pub mod reading;
pub mod reasons;
mod source;
mod words;

pub use expansion::{Piece, What};
pub use parts::{Part, joined};
pub use reading::expand;
pub use reasons::{ExpandErr, ExpandReason};
pub use words::{is_dotted, is_label, words_of};
