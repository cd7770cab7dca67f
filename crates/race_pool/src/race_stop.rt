//! The stop of a worker of a race.
ghost use Rattle.std.specs.Prelude.{◌≡◌, ℕ, ◌+◌, ◌-◌, ◌^◌, ◌≤◌, ◌<◌};
ghost use Rattle.std.specs.Prelude.{true, false, min, ◌||◌, []};
ghost use Rattle.atomic_table.specs.Seated.{TableId, table_id_coded};
ghost use Rattle.race_pool.specs.Decisive.{Has};
ghost use Rattle.race_pool.specs.Told.{has_below};

use crate::forest::Forest;
use crate::key::Level;
use crate::rule::{Chair, Look, Word};
use crate::stop::Stop;
use std::marker::Model;

/// What a search leaves of a `RaceStop`. No value of it is made.
pub struct StopMark {
    tree: u32,
    level: Level,
    pub ghost table_id: { TableId } by { table_id_coded },
}

impl Model for StopMark {
    ghost use base.Fml.{ftrue};

    ghost also_owns = { λ _. ftrue };
}

/// A stop that a worker asks on behalf of a tree: it tells to stop where a lower tree has something.
pub struct RaceStop<'a, F: Forest> {
    word: &'a Word<F>,
    seat: Chair,
    tree: u32,
    told: bool,
    polls: u64,
    // the seat is one at the word
    ghost seated: { (seat.table_id ≡ word.now.table_id) × (word.now.table_id.words ≡ 1)
        × (word.now.table_id.slots ≡ 0) × (seat.me.1 ≡ []) },
    // it is still one, and the tree is of its level
    ghost live: { (seat.me.0.live ≡ true) × (tree < seat.me.0.level.count)
        × (seat.me.0.best ≤ seat.me.0.level.count) },
    // a stop that was told has a decisive tree below its own
    ghost lower: { told ≡ true → has_below tree seat.me.0.level.decisive ≡ true },
}

impl<'a, F: Forest> RaceStop<'a, F> {
    /// A stop for a tree, at a seat.
    pub(crate) fn new(word: &'a Word<F>, seat: Chair, tree: u32) -> RaceStop<'a, F>
        requires seated { (seat.table_id ≡ word.now.table_id) × (word.now.table_id.words ≡ 1)
            × (word.now.table_id.slots ≡ 0) × (seat.me.1 ≡ []) }
        requires live { (seat.me.0.live ≡ true) × (tree < seat.me.0.level.count)
            × (seat.me.0.best ≤ seat.me.0.level.count) }
        ensures { (result.told ≡ false) × (result.tree ≡ tree) × (result.seat ≡ seat) }
    {
        RaceStop {
            word,
            seat,
            tree,
            told: false,
            polls: 0,
        }
    }
}

impl<F: Forest> RaceStop<'_, F> {
    /// The seat comes back.
    pub(crate) fn into_seat(self) -> Chair
        ensures { result ≡ self.entry.seat }
    {
        let RaceStop {
            word: _,
            seat,
            tree: _,
            told: _,
            polls: _,
        } = self;
        seat
    }
}

impl<'a, F: Forest> Stop for RaceStop<'a, F> {
    type Mark = StopMark;

    ghost use Rattle.race_pool.specs.Marks.{stop_mark};

    ghost told = { λ s. s.told };

    ghost polls = { λ s. s.polls };

    ghost mark = { λ s. stop_mark s.seat.table_id s.tree s.seat.me.0.level };

    /// Tells to stop only where the word is a decisive tree below the stop's.
    fn poll(&mut self) -> bool
        ensures told { self.new.told ≡ (self.old.told || result) }
        ensures counted { min (self.old.polls + 1) (2 ^ 64 - 1) ≤ self.new.polls }
        ensures grows { self.old.polls ≤ self.new.polls }
        ensures kept { stop_mark self.new.seat.table_id self.new.tree self.new.seat.me.0.level
            ≡ stop_mark self.old.seat.table_id self.old.tree self.old.seat.me.0.level }
        ensures lower { result ≡ true → (t : ℕ) × (t < self.old.tree) × Has self.old.seat.me.0.level.decisive t }
    {
        let found = self.word.load::<Look>(&mut self.seat, 0);
        self.polls = self.polls.saturating_add(1);
        let lower = found < u64::from(self.tree);
        self.told = self.told || lower;
        lower
    }
}
