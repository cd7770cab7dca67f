//! Files and sinks over std's readers and writers: all that these give is handed on, in order,
//! and each of their faults is one.
ghost use Rattle.std.specs.Prelude.{◌≡◌, ℕ, ◌+◌, ◌-◌, ◌^◌, ◌<◌, ◌≤◌, [], Bool, true, false, List, length, take, OnOk, OnErr, IfOk, Some, None, string_bytes};
ghost use Rattle.std.specs.declared.option.Option.{Option};
ghost use Rattle.std.specs.Io.{ReadsAtMost};
ghost use Rattle.std.specs.Io.KnownBytes.{Keeps, append_known};
ghost use Rattle.sl_base.specs.Known.{told_is_known};
ghost use Rattle.sl_base.specs.Host.{HostState, StreamState, left_of, AreLeft, Reads};

use crate::files::{ChooseErr, Failed, Files};
use crate::sink::Sink;
use std::alloc::Global;
use std::io::{Read, Write};
use std::marker::Model;

/// What opens files by name.
pub trait Open {
    /// What reads a file that is open.
    type Reader: Read + Drop;

    // The bytes of the file of a name, where they are known.
    ghost holds: { Self → List ℕ → Option (List ℕ) };

    /// Opens the file `name`, to be read from its start. One that isn't there is `Failed`.
    fn open(&self, name: &str) -> Result<Self::Reader, Failed>
        ensures { IfOk result
            (λ reader. Keeps (holds self.now name.now) (Self.Reader.remaining reader)) };
}

/// Files that `O` opens, anew at each choice. A read fails too where the count of bytes
/// given could pass its last value.
#[derive(Drop)]
pub struct HostFiles<O: Open + Drop> {
    opener: O,
    alloc: Global,
    reader: Option<O::Reader>,
    chosen: String,
    given: u64,
    broken: bool,
    faults: u64,
}

impl<O: Open + Drop> Model for HostFiles<O> {
    ghost Value = { HostState O };

    ghost view = { λ s. record {
      opener = s.opener;
      left = left_of (O.holds s.opener (string_bytes s.chosen)) s.given s.reader;
      chosen = string_bytes s.chosen;
      given = s.given;
      broken = s.broken;
      faults = s.faults;
    } };

    ghost invariant = { λ s. AreLeft O.Reader.remaining
        (O.holds s.opener (string_bytes s.chosen)) s.given s.reader };
}

impl<O: Open + Drop> HostFiles<O> {
    /// The files that `opener` opens, of which none is chosen yet.
    pub fn new(opener: O, alloc: Global) -> HostFiles<O>
        ensures { result
            ≡ record {
              opener = opener;
              left = Some [];
              chosen = [];
              given = 0;
              broken = false;
              faults = 0;
            } }
    {
        HostFiles {
            opener,
            alloc,
            reader: None,
            chosen: String::new(alloc),
            given: 0,
            broken: false,
            faults: 0,
        }
    }
}

/// The next bytes of what is open, none where nothing is.
fn read_some<R: Read>(reader: &mut Option<R>, buffer: &mut [u8]) -> Result<usize, Failed>
    ensures bound { ReadsAtMost result buffer.new }
    ensures reads { Reads R.remaining reader.old reader.new result buffer.new }
{
    match reader {
        Some(reader) => reader.read(buffer).map_err(|_| Failed),
        None => Ok(0),
    }
}

impl<O: Open + Drop> Files for HostFiles<O> {
    ghost holds = { λ s. O.holds s.opener };

    ghost left = { λ s. s.left };

    ghost given = { λ s. s.given };

    ghost chosen = { λ s. s.chosen };

    ghost broken = { λ s. s.broken };

    ghost faults = { λ s. s.faults };

    fn choose(&mut self, name: &str) -> Result<(), ChooseErr> {
        let Ok(chosen) = String::from_str(self.alloc, name) else {
            return Err(ChooseErr::NoMemory);
        };
        self.chosen = chosen;
        self.given = 0;
        self.reader = self.opener.open(name).ok();
        self.broken = self.reader.is_none();
        if self.broken {
            self.faults = self.faults.saturating_add(1);
            return Err(ChooseErr::Failed);
        }
        Ok(())
    }

    fn read(&mut self, buffer: &mut [u8]) -> Result<usize, Failed> {
        if buffer.len() as u64 <= u64::MAX - self.given
            && let Ok(count) = read_some(&mut self.reader, buffer)
        {
            self.given += count as u64;
            return Ok(count);
        }
        self.broken = true;
        self.faults = self.faults.saturating_add(1);
        Err(Failed)
    }
}

/// A writer that keeps nothing back: what it took is written.
pub trait Stream: Write {
    // What it holds is always known, or never.
    ghost known: { (v w : Self) → Self.contents v ≡ None → Self.contents w ≡ None };
}

// What it was given is known.
impl Stream for &mut Vec<u8> {
    ghost known = { λ v w. told_is_known v.now.items (Some w.now.items) };
}

// What was written of it isn't known.
impl Stream for &mut [u8] {
    ghost known = { λ _ _ e. e };
}

/// A sink over a writer, with a count of its faults. A write that takes nothing of a
/// piece that isn't empty is a fault.
#[derive(Drop)]
pub struct HostStream<W: Stream + Drop> {
    writer: W,
    faults: u64,
}

impl<W: Stream + Drop> Model for HostStream<W> {
    ghost Value = { StreamState };

    ghost view = { λ s. record { taken = W.contents s.writer; faults = s.faults } };
}

impl<W: Stream + Drop> HostStream<W> {
    /// A sink that has taken what `writer` holds.
    pub fn new(writer: W) -> HostStream<W>
        ensures { result ≡ record { taken = W.contents writer; faults = 0 } }
    {
        HostStream { writer, faults: 0 }
    }
}

impl<W: Stream + Drop> Sink for HostStream<W> {
    ghost taken = { λ s. s.taken };

    ghost faults = { λ s. s.faults };

    fn write(&mut self, bytes: &[u8]) -> Result<usize, Failed> {
        match self.writer.write(bytes) {
            Ok(count) if count > 0 || bytes.is_empty() => Ok(count),
            _ => {
                self.faults = self.faults.saturating_add(1);
                Err(Failed)
            }
        }
    }
}
