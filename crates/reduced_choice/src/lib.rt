//! The least reduced choice that may come next: which registers needn't be tried, and the order of
//! choices.
#![tactic(auto)]

pub use next::next_choice;
pub use order::choice_before;
pub use reduced::is_reduced;

mod kinds;
mod machine;
mod next;
mod order;
mod reduced;
mod trials;
