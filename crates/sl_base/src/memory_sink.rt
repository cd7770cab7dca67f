//! A sink in memory, some of whose calls fail on purpose.
ghost use Rattle.std.specs.Prelude.{◌≡◌, ℕ, ◌<◌, ◌≤◌, ◌++◌, [], true, false, List, length, take, OnOk, OnErr, IfOk, vec_len, Some, vec_capacity};
ghost use Rattle.std.specs.Io.KnownBytes.{append_known};
ghost use Rattle.std.specs.declared.option.Option.{Option};
ghost use Rattle.sl_base.specs.Faults.{HasRisen};
ghost use Rattle.sl_base.specs.Memory.{MemorySink, write_count, write_fails, after_write, after_failed_write};

use crate::files::{Failed, NoMemory};
use crate::sink::Sink;
use std::alloc::Global;
use std::marker::Model;

/// A sink that keeps what it takes in room made beforehand. It fails the calls whose numbers, from
/// 0, stand in `fails`, and those where the room has ended.
#[derive(Drop)]
pub struct MemSink {
    taken: Vec<u8>,
    fails: Vec<u64>,
    most: usize,
    room: usize,
    calls: u64,
    faults: u64,
}

impl Model for MemSink {
    ghost Value = { MemorySink };

    ghost view = { λ s. record {
      taken = s.taken.items;
      fails = s.fails.items;
      most = s.most;
      room = s.room;
      calls = s.calls;
      faults = s.faults;
    } };

    ghost invariant = { λ s. (0 < s.most) × (vec_len s.taken ≤ s.room)
        × (s.room ≤ vec_capacity s.taken) };
}

impl MemSink {
    /// A sink that takes at most `most` bytes at once, which is at least 1, and `room` in all.
    pub fn new(
        alloc: Global,
        fails: Vec<u64>,
        most: usize,
        room: usize,
    ) -> Result<MemSink, NoMemory>
        requires { 0 < most }
        ensures { IfOk result
            (λ sink. sink
            ≡ record {
              taken = [];
              fails = fails.items;
              most = most;
              room = room;
              calls = 0;
              faults = 0;
            }) }
    {
        let Ok(taken) = Vec::with_capacity(alloc, room) else {
            return Err(NoMemory);
        };
        Ok(MemSink {
            taken,
            fails,
            most,
            room,
            calls: 0,
            faults: 0,
        })
    }

    /// The bytes taken so far.
    pub fn taken(&self) -> &[u8]
        ensures { result.now ≡ self.now.taken }
    {
        self.taken.as_slice()
    }
}

impl Sink for MemSink {
    ghost taken = { λ s. Some s.taken };

    ghost faults = { λ s. s.faults };

    fn write(&mut self, bytes: &[u8]) -> Result<usize, Failed>
        ensures ok_count { IfOk result (λ n. n ≡ write_count self.old (length bytes.now)) }
        ensures ok_fails { OnOk result (write_fails self.old (length bytes.now) ≡ false) }
        ensures ok_after { IfOk result (λ n. self.new ≡ after_write self.old (take n bytes.now)) }
        ensures err_fails { OnErr result (write_fails self.old (length bytes.now) ≡ true) }
        ensures err_after { OnErr result (self.new ≡ after_failed_write self.old) }
        ensures never_falls { self.old.faults ≤ self.new.faults }
        ensures ok_bound { IfOk result (λ n. n ≤ length bytes.now) }
        ensures ok_some { IfOk result (λ n. 0 < length bytes.now → 0 < n) }
        ensures ok_taken { IfOk result (λ n. self.new.taken ≡ self.old.taken ++ take n bytes.now) }
        ensures ok_faults { OnOk result (self.new.faults ≡ self.old.faults) }
        ensures err_risen { OnErr result (HasRisen self.old.faults self.new.faults) }
        ensures err_taken { OnErr result (self.new.taken ≡ self.old.taken) }
    {
        let is_to_fail = self.fails.contains(&self.calls);
        let count = bytes.len().min(self.most).min(self.room - self.taken.len());
        self.calls = self.calls.saturating_add(1);
        if is_to_fail || (!bytes.is_empty() && count == 0) {
            self.faults = self.faults.saturating_add(1);
            return Err(Failed);
        }
        if self.taken.extend_from_slice(&bytes[..count]).is_err() {
            unreachable!()
        }
        Ok(count)
    }
}
