//! The search of a problem's best schedule.
#![tactic(auto)]

pub use prefix::Prefix;
pub use race_pool::{Outcome, Stop};
pub use refusal::{ForestErr, TREES};
pub use searching::search;
pub use solving::{Solution, solve};
pub use straight::StraightForest;
pub use work::Work;

mod prefix;
mod refusal;
mod searching;
mod solving;
mod straight;
mod work;
