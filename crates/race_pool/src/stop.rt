//! What tells a search to stop.
ghost use Rattle.std.specs.Prelude.{◌≡◌, ℕ, ◌+◌, ◌-◌, ◌^◌, ◌≤◌, Bool, min, ◌||◌};

/// Something that a search asks before each step whether it is called off.
pub trait Stop {
    /// What stays of a stop, whatever is asked of it.
    type Mark;

    // Has a poll been answered by yes?
    ghost told: { Self → Bool };

    // How often it was asked, which stops at its last value.
    ghost polls: { Self → ℕ };

    // What stays of it.
    ghost mark: { Self → Self.Mark };

    /// Is the search called off?
    fn poll(&mut self) -> bool
        ensures told { told self.new ≡ (told self.old || result) }
        ensures counted { min (polls self.old + 1) (2 ^ 64 - 1) ≤ polls self.new }
        ensures grows { polls self.old ≤ polls self.new }
        ensures kept { mark self.new ≡ mark self.old };
}
