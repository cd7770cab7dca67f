//! The steps of a worker's seat.
ghost use Rattle.std.specs.Prelude.{◌≡◌, ◌≤◌, min};
ghost use Rattle.race_pool.specs.Decisive.{Has};
ghost use Rattle.race_pool.specs.Race.{IsMark};
ghost use Rattle.race_pool.specs.Seats.{IsSeated};

use crate::forest::Forest;
use crate::rule::{Chair, Half, Look, Publish, Word};

/// Others see that this tree has something.
pub(crate) fn publish<F: Forest>(word: &Word<F>, seat: &mut Chair, tree: u32)
    requires seated { IsSeated word.now.table_id word.now.key seat.old }
    requires decisive { Has word.now.key.decisive tree }
    ensures seated { IsSeated word.now.table_id word.now.key seat.new }
    ensures best { (seat.new.me.0.best ≤ tree) × (seat.new.me.0.best ≤ seat.old.me.0.best) }
{
    word.fetch_min::<Publish>(seat, 0, u64::from(tree));
}

/// A new seat, for another worker.
pub(crate) fn part<F: Forest>(word: &Word<F>, seat: &mut Chair) -> Chair
    requires seated { IsSeated word.now.table_id word.now.key seat.old }
    ensures seated { IsSeated word.now.table_id word.now.key seat.new }
    ensures other { IsSeated word.now.table_id word.now.key result }
{
    word.split_seat::<Half>(seat)
}

/// The other seat's knowledge comes to this one.
pub(crate) fn merge<F: Forest>(word: &Word<F>, seat: &mut Chair, other: Chair)
    requires seated { IsSeated word.now.table_id word.now.key seat.old }
    requires other { IsSeated word.now.table_id word.now.key other }
    ensures seated { IsSeated word.now.table_id word.now.key seat.new }
    ensures best { seat.new.me.0.best ≡ min seat.old.me.0.best other.me.0.best }
{
    word.join_seat::<Half>(seat, other);
}

/// The word as it stands.
pub(crate) fn read_word<F: Forest>(word: &Word<F>, seat: &mut Chair) -> u64
    requires { IsSeated word.now.table_id word.now.key seat.old }
    ensures mark { IsMark word.now.key result }
    ensures best { result ≤ seat.old.me.0.best }
{
    word.load::<Look>(seat, 0)
}
