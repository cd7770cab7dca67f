//! Files in memory, some of whose calls fail on purpose.
ghost use Rattle.std.specs.Prelude.{◌≡◌, ℕ, ◌+◌, ◌-◌, ◌^◌, ◌<◌, ◌≤◌, ◌++◌, [], Bool, true, false, List, length, take, drop, map, OnOk, OnErr, IfOk, Some, None, string_bytes, MatchOption};
ghost use Rattle.std.specs.Io.KnownBytes.{prepend_known, IsAtEnd};
ghost use Rattle.std.specs.declared.option.Option.{Option};
ghost use Rattle.sl_base.specs.Faults.{HasRisen};
ghost use Rattle.sl_base.specs.Files.{OnFailed, OnNoMemory};
ghost use Rattle.sl_base.specs.Rows.{plain_file, bytes_at};
ghost use Rattle.sl_base.specs.Memory.{MemoryFiles, file_named, found, after_choice, after_failed_choice, read_count, read_fails, after_read, after_failed_read};

use crate::files::{ChooseErr, Failed, Files};
use std::marker::Model;

/// Files that are kept in memory, of two with one name the first. It fails the calls whose numbers,
/// from 0, stand in `fails`, and those that choose a name that isn't there. The number of a call
/// and the counts stop at their last value.
#[derive(Drop)]
pub struct MemFiles {
    files: Vec<(String, Vec<u8>)>,
    fails: Vec<u64>,
    calls: u64,
    chosen: String,
    place: usize,
    start: usize,
    given: u64,
    broken: bool,
    faults: u64,
}

impl Model for MemFiles {
    ghost Value = { MemoryFiles };

    ghost view = { λ s. record {
      files = map plain_file s.files.items;
      fails = s.fails.items;
      calls = s.calls;
      chosen = string_bytes s.chosen;
      left = drop s.start (bytes_at s.files.items s.place);
      given = s.given;
      broken = s.broken;
      faults = s.faults;
    } };

    ghost invariant = { λ s. s.start ≤ length (bytes_at s.files.items s.place) };
}

impl MemFiles {
    /// These files, of which none is chosen yet.
    pub fn new(files: Vec<(String, Vec<u8>)>, fails: Vec<u64>) -> MemFiles
        ensures { result
            ≡ record {
              files = map plain_file files.items;
              fails = fails.items;
              calls = 0;
              chosen = [];
              left = [];
              given = 0;
              broken = false;
              faults = 0;
            } }
    {
        let chosen = String::new(*files.allocator());
        let place = files.len();
        MemFiles {
            files,
            fails,
            calls: 0,
            chosen,
            place,
            start: 0,
            given: 0,
            broken: false,
            faults: 0,
        }
    }
}

/// The place of the first file of that name.
fn place_of(files: &[(String, Vec<u8>)], name: &str) -> Option<usize>
    ensures { MatchOption result (file_named (map plain_file files.now) name.now ≡ None)
        (λ place. file_named (map plain_file files.now) name.now
        ≡ Some (bytes_at files.now place)) }
{
    for (place, file) in files.iter().enumerate() {
        if file.0.as_str() == name {
            return Some(place);
        }
    }
    None
}

/// The bytes of the file at a place, none past the last.
fn bytes_of(files: &[(String, Vec<u8>)], place: usize) -> &[u8]
    ensures { result.now ≡ bytes_at files.now place }
{
    match files.get(place) {
        Some(file) => file.1.as_slice(),
        None => &[],
    }
}

impl Files for MemFiles {
    ghost holds = { λ s. file_named s.files };

    ghost left = { λ s. Some s.left };

    ghost given = { λ s. s.given };

    ghost chosen = { λ s. s.chosen };

    ghost broken = { λ s. s.broken };

    ghost faults = { λ s. s.faults };

    fn choose(&mut self, name: &str) -> Result<(), ChooseErr>
        ensures ok { OnOk result (found self.old name.now ≡ Some self.new.left) }
        ensures ok_after { OnOk result (self.new ≡ after_choice self.old name.now self.new.left) }
        ensures failed { OnFailed result (found self.old name.now ≡ None) }
        ensures failed_after { OnFailed result (self.new ≡ after_failed_choice self.old name.now) }
        ensures no_memory { OnNoMemory result (self.new ≡ self.old) }
        ensures never_falls { self.old.faults ≤ self.new.faults }
    {
        let Ok(chosen) = String::from_str(*self.files.allocator(), name) else {
            return Err(ChooseErr::NoMemory);
        };
        let is_to_fail = self.fails.contains(&self.calls);
        self.calls = self.calls.saturating_add(1);
        self.chosen = chosen;
        self.start = 0;
        self.given = 0;
        if !is_to_fail && let Some(place) = place_of(&self.files, name) {
            self.place = place;
            self.broken = false;
            return Ok(());
        }
        self.place = self.files.len();
        self.broken = true;
        self.faults = self.faults.saturating_add(1);
        Err(ChooseErr::Failed)
    }

    fn read(&mut self, buffer: &mut [u8]) -> Result<usize, Failed>
        ensures ok_count { IfOk result (λ n. n ≡ read_count self.old (length buffer.old)) }
        ensures ok_fails { OnOk result (read_fails self.old (length buffer.old) ≡ false) }
        ensures ok_after { IfOk result (λ n. self.new ≡ after_read self.old n) }
        ensures ok_buffer { IfOk result
            (λ n. buffer.new ≡ take n self.old.left ++ drop n buffer.old) }
        ensures err_fails { OnErr result (read_fails self.old (length buffer.old) ≡ true) }
        ensures err_after { OnErr result (self.new ≡ after_failed_read self.old) }
        ensures err_buffer { OnErr result (buffer.new ≡ buffer.old) }
        ensures never_falls { self.old.faults ≤ self.new.faults }
        ensures ok_given { OnOk result (self.new.given < 2 ^ 64) }
    {
        let is_to_fail = self.fails.contains(&self.calls);
        self.calls = self.calls.saturating_add(1);
        let left = &bytes_of(&self.files, self.place)[self.start..];
        let count = buffer.len().min(left.len());
        if is_to_fail || u64::MAX - self.given < count as u64 {
            self.broken = true;
            self.faults = self.faults.saturating_add(1);
            return Err(Failed);
        }
        buffer[..count].copy_from_slice(&left[..count]);
        self.start += count;
        self.given += count as u64;
        Ok(count)
    }
}
