//! Problems of scheduling: items, what they read, and what a schedule of them has to keep.
#![tactic(auto)]

pub use outputs::{may_overwrite, suits_output};
pub use placed::{given, is_placed};
pub use problem::Problem;
pub use ready::ready_among;
pub use registers::is_flags;
pub use rules::{first_broken, has_unit};
pub use second_pass::loop_times_of;
pub use sl_model::rules::Rule;
pub use sl_model::schedule::{Choice, Source};
pub use straight::{frame_of, written};
pub use times::{Times, times_of};

mod operands;
mod outputs;
mod placed;
mod problem;
mod ready;
mod registers;
mod rules;
mod second_pass;
mod straight;
mod times;
