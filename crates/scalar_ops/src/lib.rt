//! What scalar instructions compute.
#![tactic(auto)]

pub use scalar::scalar_values;
pub use words::word_values;

mod arithmetic;
mod flags;
mod halves;
mod scalar;
mod words;
