//! Files that are chosen by name and read in pieces.
ghost use Rattle.std.specs.Prelude.{◌≡◌, ℕ, ◌+◌, ◌-◌, ◌^◌, ◌<◌, ◌≤◌, Bool, true, false, List, length, take, OnOk, OnErr, IfOk};
ghost use Rattle.std.specs.declared.option.Option.{Option};
ghost use Rattle.std.specs.Io.KnownBytes.{prepend_known, IsAtEnd};
ghost use Rattle.sl_base.specs.Faults.{HasRisen};
ghost use Rattle.sl_base.specs.Files.{OnFailed, OnNoMemory};

use std::alloc::AllocError;

/// The world refused: a file couldn't be opened or read, or a sink didn't take the bytes.
#[derive(Clone, Copy, Debug, PartialEq, Eq, Drop)]
pub struct Failed;

/// Memory ran out.
#[derive(Clone, Copy, Debug, PartialEq, Eq, Drop)]
pub struct NoMemory;

impl From<AllocError> for NoMemory {
    fn from(_error: AllocError) -> NoMemory {
        NoMemory
    }
}

/// Why a file couldn't be chosen.
#[derive(Clone, Copy, Debug, PartialEq, Eq, Drop)]
pub enum ChooseErr {
    /// The file isn't there or can't be opened.
    Failed,
    /// Memory ran out before anything changed.
    NoMemory,
}

/// Files by name, one of which is chosen and read at a time.
pub trait Files {
    // The bytes of the file of a name, where they are known. No call changes them.
    ghost holds: { Self → List ℕ → Option (List ℕ) };

    // The bytes that the chosen file still gives, where they are known.
    ghost left: { Self → Option (List ℕ) };

    // How many bytes were given since the last choice.
    ghost given: { Self → ℕ };

    // The name of the last choice, empty before the first.
    ghost chosen: { Self → List ℕ };

    // Whether the last choice, or a read after it, failed.
    ghost broken: { Self → Bool };

    // How many calls failed, which stops at its last value.
    ghost faults: { Self → ℕ };

    /// Chooses the file `name`, to be read from its start. A file that isn't there is `Failed`.
    /// After `NoMemory` nothing has changed.
    fn choose(&mut self, name: &str) -> Result<(), ChooseErr>
        ensures same_files { holds self.new ≡ holds self.old }
        ensures never_falls { faults self.old ≤ faults self.new }
        ensures ok_left { OnOk result (left self.new ≡ holds self.old name.now) }
        ensures ok_given { OnOk result (given self.new ≡ 0) }
        ensures ok_chosen { OnOk result (chosen self.new ≡ name.now) }
        ensures ok_broken { OnOk result (broken self.new ≡ false) }
        ensures ok_faults { OnOk result (faults self.new ≡ faults self.old) }
        ensures failed_risen { OnFailed result (HasRisen (faults self.old) (faults self.new)) }
        ensures failed_left { OnFailed result (IsAtEnd (left self.new)) }
        ensures failed_given { OnFailed result (given self.new ≡ 0) }
        ensures failed_chosen { OnFailed result (chosen self.new ≡ name.now) }
        ensures failed_broken { OnFailed result (broken self.new ≡ true) }
        ensures no_memory_left { OnNoMemory result (left self.new ≡ left self.old) }
        ensures no_memory_given { OnNoMemory result (given self.new ≡ given self.old) }
        ensures no_memory_chosen { OnNoMemory result (chosen self.new ≡ chosen self.old) }
        ensures no_memory_broken { OnNoMemory result (broken self.new ≡ broken self.old) }
        ensures no_memory_faults { OnNoMemory result (faults self.new ≡ faults self.old) };

    /// Moves the next bytes of the chosen file to the front of `buffer` and says how many: 0 only
    /// at the file's end or for an empty buffer. A read that would pass the last value of the
    /// count of bytes given is `Failed`.
    fn read(&mut self, buffer: &mut [u8]) -> Result<usize, Failed>
        ensures same_files { holds self.new ≡ holds self.old }
        ensures same_chosen { chosen self.new ≡ chosen self.old }
        ensures never_falls { faults self.old ≤ faults self.new }
        ensures ok_bound { IfOk result (λ n. n ≤ length buffer.old) }
        ensures ok_left { IfOk result
            (λ n. left self.old ≡ prepend_known (take n buffer.new) (left self.new)) }
        ensures ok_end { IfOk result
            (λ n. n ≡ 0 → 0 < length buffer.old → IsAtEnd (left self.new)) }
        ensures ok_given { IfOk result (λ n. given self.new ≡ given self.old + n) }
        ensures ok_count { OnOk result (given self.new < 2 ^ 64) }
        ensures ok_broken { OnOk result (broken self.new ≡ broken self.old) }
        ensures ok_faults { OnOk result (faults self.new ≡ faults self.old) }
        ensures err_risen { OnErr result (HasRisen (faults self.old) (faults self.new)) }
        ensures err_left { OnErr result (left self.new ≡ left self.old) }
        ensures err_given { OnErr result (given self.new ≡ given self.old) }
        ensures err_broken { OnErr result (broken self.new ≡ true) };
}
