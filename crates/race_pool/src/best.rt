//! The tree that a worker published.

/// A tree that was published, and whether its budget was spent.
#[derive(Clone, Copy)]
pub struct Best {
    pub tree: u32,
    pub spent: bool,
}
