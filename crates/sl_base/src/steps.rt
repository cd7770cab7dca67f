//! A count of steps that takes no memory and no time: only proofs read it.
ghost use Rattle.std.specs.Prelude.{◌≡◌, ℕ, ◌+◌, ◌<◌};

use std::marker::Model;
use std::sync::ledger::{Blank, Book, Ledger, Share};

/// How many steps were taken. It takes no bytes, and only `tick` changes it.
#[derive(Drop)]
pub struct Steps<L: Ledger> {
    book: Book<L>,
    share: Share<L>,
}

impl<L: Ledger> Model for Steps<L> {
    ghost Value = { ℕ };

    ghost view = { λ s. s.book.total };

    ghost invariant = { λ s. 0 < s.share.parts };
}

impl<L: Ledger> Steps<L> {
    /// No steps yet, counted in the ledger that `blank` opens.
    pub fn new(blank: Blank) -> Steps<L>
        requires name { blank.name ≡ L.name }
        requires parts { blank.parts ≡ L.parts }
        requires some { 0 < blank.parts }
        ensures { result ≡ 0 }
    {
        let (book, share) = blank.open();
        Steps { book, share }
    }
}

/// Takes one step.
pub fn tick<L: Ledger>(steps: &mut Steps<L>)
    ensures { steps.new ≡ steps.old + 1 }
{
    steps.book.add(&mut steps.share, 1);
}
