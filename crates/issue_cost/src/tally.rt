//! What is kept of the items that were issued, so that the next one's cycle is
//! found without counting them again.
ghost use Rattle.std.specs.Prelude.{◌≡◌, ℕ, ◌+◌, ◌^◌, ◌<◌, ◌≤◌, List, [], ◌∷◌, length};
ghost use Rattle.sl_model.specs.Cycles.{Issued, first_slot, next_cycle, unit_free};
ghost use Rattle.issue_cost.specs.Tallies.{Tallies};

/// How many units a core has at most.
pub const UNITS: usize = 16;

/// What the next item has to know of the items issued so far.
#[derive(Clone, Copy)]
pub struct Tally {
    /// The cycle of the last item, or 0.
    pub cycle: u32,
    /// How many items were issued at that cycle.
    pub count: u32,
    /// From which cycle on each unit is free.
    pub free: [u32; UNITS],
}

impl Tally {
    /// The tally of no item.
    pub fn start() -> Tally
        ensures { Tallies [] result }
    {
        Tally {
            cycle: 0,
            count: 0,
            free: [0; UNITS],
        }
    }

    /// The first cycle with a slot for one more item.
    pub fn first_slot(&self, width: u8) -> u32
        requires width { 1 ≤ width }
        requires fits { self.now.cycle + 1 < 2 ^ 32 }
        ensures { (done : List Issued) → Tallies done self.now → result ≡ first_slot width done }
    {
        if self.count < u32::from(width) {
            self.cycle
        } else {
            self.cycle + 1
        }
    }

    /// The cycle of one more item.
    pub fn next_cycle(&self, width: u8, unit: u8, ready: u32) -> u32
        requires width { 1 ≤ width }
        requires unit { unit < 16 }
        requires fits { self.now.cycle + 1 < 2 ^ 32 }
        ensures { (done : List Issued) → Tallies done self.now
            → result ≡ next_cycle width unit ready done }
    {
        let free = self.free[usize::from(unit)];
        self.first_slot(width).max(ready.max(free))
    }

    /// How many items are issued at a cycle with one more, where that is the cycle of this one.
    fn count_at(&self, cycle: u32) -> u32
        requires { self.now.count < 2 ^ 31 }
        ensures same { cycle ≡ self.now.cycle → result ≡ self.now.count + 1 }
        ensures later { self.now.cycle < cycle → result ≡ 1 }
    {
        if cycle == self.cycle {
            self.count + 1
        } else {
            1
        }
    }

    /// The tally with one more item, at a cycle at which it may be issued.
    pub fn after(&self, unit: u8, busy: u32, cycle: u32) -> Tally
        requires unit { unit < 16 }
        requires fits { cycle + busy < 2 ^ 32 }
        requires count_fits { self.now.count < 2 ^ 31 }
        requires in_order { self.now.cycle ≤ cycle }
        ensures { (done : List Issued) → Tallies done self.now → unit_free unit done ≤ cycle →
            Tallies (record { unit = unit; busy = busy; cycle = cycle } ∷ done) result }
    {
        let mut free = self.free;
        free[usize::from(unit)] = cycle + busy;
        Tally {
            cycle,
            count: self.count_at(cycle),
            free,
        }
    }
}
