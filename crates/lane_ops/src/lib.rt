//! What vector instructions compute, on registers of 128 bits as numbers.
#![tactic(auto)]

pub use vector::vector_value;

mod cut;
mod lanewise;
mod long;
mod permute;
mod shifts;
mod signed;
mod vector;
