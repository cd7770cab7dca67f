//! Sinks that take bytes.
ghost use Rattle.std.specs.Prelude.{◌≡◌, ℕ, ◌<◌, ◌≤◌, List, length, take, OnOk, OnErr, IfOk};
ghost use Rattle.std.specs.declared.option.Option.{Option};
ghost use Rattle.std.specs.Io.KnownBytes.{append_known};
ghost use Rattle.sl_base.specs.Faults.{HasRisen};

use crate::files::Failed;

/// Something that takes bytes, some at a time.
pub trait Sink {
    // The bytes taken so far, where they are known.
    ghost taken: { Self → Option (List ℕ) };

    // How many calls failed, which stops at its last value.
    ghost faults: { Self → ℕ };

    /// Takes a front of `bytes` and says how many: at least 1, unless `bytes` is empty. Where
    /// it fails it has taken nothing.
    fn write(&mut self, bytes: &[u8]) -> Result<usize, Failed>
        ensures never_falls { faults self.old ≤ faults self.new }
        ensures ok_bound { IfOk result (λ n. n ≤ length bytes.now) }
        ensures ok_some { IfOk result (λ n. 0 < length bytes.now → 0 < n) }
        ensures ok_taken { IfOk result
            (λ n. taken self.new ≡ append_known (taken self.old) (take n bytes.now)) }
        ensures ok_faults { OnOk result (faults self.new ≡ faults self.old) }
        ensures err_risen { OnErr result (HasRisen (faults self.old) (faults self.new)) }
        ensures err_taken { OnErr result (taken self.new ≡ taken self.old) };
}

/// The sink of a program's text.
pub trait Output: Sink {}

/// The sink of a program's messages.
pub trait Messages: Sink {}
