//! The instructions of AArch64.
#![tactic(auto)]

mod arch_impl;
mod rows;

/// AArch64.
#[derive(Clone, Copy, Debug)]
pub struct Arm64;
