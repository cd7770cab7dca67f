//! A gate at which two workers meet.
use sl_base::Gate;
use std::sync::atomic::{AtomicU64, Ordering};

/// How often a test asks whether something has happened before it gives up.
pub const TURNS: u64 = 100_000_000;

/// A gate that holds the first entries of the trees 0 and 1, each until the other has begun or so
/// many turns have passed.
#[derive(Drop)]
pub struct Meeting {
    first: AtomicU64,
    second: AtomicU64,
    missed: AtomicU64,
}

impl Meeting {
    /// Nobody has come yet.
    pub fn new() -> Meeting {
        Meeting {
            first: AtomicU64::new(0),
            second: AtomicU64::new(0),
            missed: AtomicU64::new(0),
        }
    }

    /// Notes that one has begun, and waits until the other has.
    fn meet(&self, own: &AtomicU64, other: &AtomicU64) {
        own.store(1, Ordering::SeqCst);
        for _ in 0..TURNS {
            if other.load(Ordering::SeqCst) != 0 {
                return;
            }
        }
        self.missed.store(1, Ordering::SeqCst);
    }

    /// Have both trees been entered, each while the other was held?
    pub fn have_met(&self) -> bool {
        let first = self.first.load(Ordering::SeqCst);
        let second = self.second.load(Ordering::SeqCst);
        let missed = self.missed.load(Ordering::SeqCst);
        (first, second, missed) == (1, 1, 0)
    }
}

impl Gate for Meeting {
    fn enter(&self, tree: u32) {
        match tree {
            0 => self.meet(&self.first, &self.second),
            1 => self.meet(&self.second, &self.first),
            _ => {}
        }
    }
}
