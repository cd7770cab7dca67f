//! The files and the streams of the system.
ghost use Rattle.std.specs.Prelude.{None, codes, if◌then◌else◌};
ghost use Rattle.std.specs.Str.{bytes_eq};
ghost use Rattle.sl_base.specs.Source.{source_left};

use crate::files::Failed;
use crate::host::{HostFiles, HostStream, Open, Stream};
use crate::sink::{Messages, Output};
use std::io::{Input, Read};
use std::rt::{Stderr, Stdout};
use std::{fs, io};

/// The name that stands for standard input.
const STANDARD_INPUT: &str = "-";

/// The files of the file system.
#[derive(Drop)]
pub struct Disk<R: fs::Files + Drop> {
    /// What asks the system.
    pub rt: R,
}

impl<R: fs::Files + Drop> Open for Disk<R> {
    type Reader = R::File;

    // No contract of std says what a file holds: that the file of this name is read is trusted.
    ghost holds = { λ _ _. None };

    fn open(&self, name: &str) -> Result<R::File, Failed> {
        fs::open(&self.rt, name).map_err(|_| Failed)
    }
}

/// Files, and standard input as that of the name `-`.
#[derive(Drop)]
pub struct WithInput<O: Open + Drop, I: Input + Drop> {
    /// What opens the files.
    pub files: O,
    /// What gives standard input.
    pub input: I,
}

/// What is read: a file, or standard input.
#[derive(Drop)]
pub enum Source<F: Read + Drop, I: Read + Drop> {
    /// A file.
    File(F),
    /// Standard input.
    Input(I),
}

impl<F: Read + Drop, I: Read + Drop> Read for Source<F, I> {
    ghost remaining = { source_left F.remaining I.remaining };

    fn read(&mut self, buf: &mut [u8]) -> io::Result<usize> {
        match self {
            Source::File(file) => file.read(buf),
            Source::Input(input) => input.read(buf),
        }
    }
}

impl<O: Open + Drop, I: Input + Drop> Open for WithInput<O, I> {
    type Reader = Source<O::Reader, I::Reader>;

    ghost holds = { λ s name. if bytes_eq name (codes "-") then None else O.holds s.files name };

    fn open(&self, name: &str) -> Result<Source<O::Reader, I::Reader>, Failed> {
        if name == STANDARD_INPUT {
            return Ok(Source::Input(self.input.reader()));
        }
        Ok(Source::File(self.files.open(name)?))
    }
}

impl Stream for Stdout {
    ghost known = { λ _ _ e. e };
}

impl Stream for Stderr {
    ghost known = { λ _ _ e. e };
}

/// Standard output.
pub type HostOut = HostStream<Stdout>;

/// Standard error.
pub type HostErr = HostStream<Stderr>;

impl Output for HostOut {}

impl Messages for HostErr {}
