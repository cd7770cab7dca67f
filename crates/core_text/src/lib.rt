//! Core tables: what a core tells of the classes of instructions, read from a text.
#![tactic(auto)]

mod class_names;
mod classes;
mod core_table;
mod document;
mod forwards;
mod key;
mod key_text;
mod plain;
mod reading;
mod reasons;
mod units;

pub use core_table::{ClassEntry, Core, MOST_CYCLES, MOST_OPERAND, MOST_UNITS, MOST_WIDTH};
pub use key_text::KeyText;
pub use plain::plain_core;
pub use reading::read_core;
pub use reasons::{CoreErr, CoreReason};
pub use sl_base::NoMemory;
pub use sl_model::instruction::ArchName;
pub use sl_model::schedule::Forward;
