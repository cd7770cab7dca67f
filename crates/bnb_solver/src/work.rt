//! What a search works in.
ghost use Rattle.std.specs.Prelude.{◌≡◌, IfOk};

use crate::prefix::Prefix;
use sl_base::NoMemory;
use sl_model::schedule::Choice;
use std::alloc::Global;
use std::marker::Model;

/// What the search of a tree works in: all its room, made before it begins, and the schedule that was
/// found last.
#[derive(Drop)]
pub struct Work {
    pub(crate) prefix: Prefix,
}

impl Model for Work {
    ghost use Rattle.bnb_solver.specs.Work.{Work};

    ghost Value = { Work };

    ghost view = { λ a. record { room = a.prefix.room; found = a.prefix.choices } };
}

impl Work {
    /// Room for problems of at most so many items.
    pub fn with_room(alloc: Global, items: usize) -> Result<Work, NoMemory>
        ensures { IfOk result (λ work. work.room ≡ items) }
    {
        let prefix = Prefix::with_room(alloc, items)?;
        Ok(Work { prefix })
    }

    /// The schedule that was found.
    pub fn found(&self) -> &[Choice]
        ensures { result.now ≡ self.now.found }
    {
        self.prefix.choices()
    }
}
