//! Why there is no forest.
ghost use Rattle.std.specs.Prelude.{◌≡◌};
ghost use Rattle.bnb_solver.specs.declared.refusal.ForestErr.TheVariants.{NoMemory};

use sl_base::NoMemory as OutOfMemory;
use std::alloc::{AllocError, AllocFailed};

/// The most trees of a forest.
pub const TREES: usize = 65536;

/// Why there is no forest.
#[derive(Clone, Copy)]
pub enum ForestErr {
    /// There are more trees than this.
    TooManyTrees { limit: u32 },
    /// Memory ran out.
    NoMemory,
}

impl From<OutOfMemory> for ForestErr {
    ghost from_gives = { λ _ e. e ≡ NoMemory };

    fn from(_error: OutOfMemory) -> ForestErr {
        ForestErr::NoMemory
    }
}

impl From<AllocError> for ForestErr {
    ghost from_gives = { λ _ e. e ≡ NoMemory };

    fn from(_error: AllocError) -> ForestErr {
        ForestErr::NoMemory
    }
}

impl<T: Drop> From<AllocFailed<T>> for ForestErr {
    ghost from_gives = { λ _ e. e ≡ NoMemory };

    fn from(_error: AllocFailed<T>) -> ForestErr {
        ForestErr::NoMemory
    }
}
