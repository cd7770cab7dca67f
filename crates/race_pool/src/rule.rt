//! The rule of the word that workers share, and the names of its steps.
ghost use Rattle.race_pool.specs.Race.{Kept, newcomer, spent, joined, looked, published};

use crate::forest::Forest;
use crate::key::{Key, Level};
use atomic_table::{Join, Play, Seat, Shared, Split, TableRule};

/// What a worker knows: whether its seat is still one, the least tree that it published, and the level.
/// No value of it is made.
pub struct View {
    pub live: bool,
    pub best: u64,
    pub level: Level,
}

/// The rule of the word: it is the number of trees, or a tree of the level that has something.
pub struct Race;

impl<F: Forest> TableRule<(), View, Key<F>> for Race {
    ghost holds = { Kept };

    ghost first = { newcomer };
}

/// A load.
pub struct Look;

impl Play<(), View> for Look {
    ghost then = { looked };
}

/// A tree is published.
pub struct Publish;

impl Play<(), View> for Publish {
    ghost then = { published };
}

/// A seat for the other half.
pub struct Half;

impl Split<View> for Half {
    ghost left = { λ v. v };

    ghost right = { λ v. newcomer v.level };
}

impl Join<View> for Half {
    ghost both = { joined };

    ghost spent = { spent };
}

/// The word.
pub type Word<F> = Shared<(), View, Key<F>, Race>;

/// A worker's seat at it.
pub type Chair = Seat<(), View>;
