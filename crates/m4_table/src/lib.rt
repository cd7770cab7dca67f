//! The instructions of Armv7E-M.
#![tactic(auto)]

mod arch_impl;
mod rows;

/// Armv7E-M.
#[derive(Clone, Copy, Debug)]
pub struct M4;
