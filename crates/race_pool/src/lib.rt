//! Searches of many trees, level by level: what a tree and a search of it are, the race of workers
//! over the trees of a level, and the first tree of the first level that decides.
#![tactic(auto)]

pub use forest::{Forest, Outcome};
pub use level::{LevelAnswer, run_level};
pub use race_stop::RaceStop;
pub use sl_base::{Gate, NoMemory};
pub use stop::Stop;
pub use verdict::{Verdict, find_verdict};

mod best;
mod forest;
mod halves;
mod key;
mod level;
mod race_stop;
mod round;
mod rule;
mod scan;
mod seats;
mod stop;
mod turn;
mod verdict;
mod worker;
