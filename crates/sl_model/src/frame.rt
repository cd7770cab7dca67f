//! What the schedules of a region leave, and what they may write.

use crate::register::RegSet;

/// The registers that live on behind a region, and those that its schedules may write.
#[derive(Clone, Copy, Debug, PartialEq, Eq)]
pub struct Frame {
    /// The registers whose values are still wanted behind the region.
    pub live: RegSet,
    /// The registers that a schedule may write: those that the region writes, and the free ones.
    pub allowed: RegSet,
}
