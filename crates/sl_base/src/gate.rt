//! A gate that each worker passes before it takes a tree.

/// Something to be told of each tree that a worker takes. It changes no answer.
pub trait Gate {
    /// A worker takes the tree `tree`.
    fn enter(&self, tree: u32);
}

/// A gate that does nothing.
#[derive(Clone, Copy, Debug, Drop)]
pub struct NoGate;

impl Gate for NoGate {
    fn enter(&self, _tree: u32) {}
}
