//! The level of a race, as clauses see it.
ghost use Rattle.std.specs.Prelude.{◌≡◌};
ghost use Rattle.race_pool.specs.Decisive.{level_of};

use crate::forest::Forest;
use std::collections::LinkedList;
use std::marker::Model;
use std::snapshot::Snapshot;

/// How many trees a level has, and which of them are decisive. No value of it is made.
pub struct Level {
    pub count: u32,
    pub decisive: LinkedList<u32>,
}

/// A level of a forest, seen as its `Level`.
#[derive(Drop)]
pub struct Key<F: Forest> {
    forest: Snapshot<F>,
    level: u32,
}

impl<F: Forest> Model for Key<F> {
    ghost use Rattle.race_pool.specs.declared.key.Level.{Level};

    ghost Value = { Level };

    ghost use Rattle.race_pool.specs.Decisive.{level_of};

    ghost view = { λ k. level_of (λ t. F.outcome k.forest.value t k.level) (F.tree_count k.forest.value) };
}

impl<F: Forest> Key<F> {
    /// A level of a forest.
    pub fn new(forest: &F, level: u32) -> Key<F>
        ensures { result ≡ level_of (λ t. F.outcome forest.now t level) (F.tree_count forest.now) }
    {
        Key {
            forest: Snapshot::of(forest),
            level,
        }
    }
}
