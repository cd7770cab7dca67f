//! The cases of a table that failed.
use std::alloc::{AllocError, Global};
use std::io::Eprint;
use std::process::{ExitCode, Termination};

/// The cases of a table that failed, each on a line with what was found.
#[derive(Drop)]
pub struct Failing {
    lines: String,
    no_memory: bool,
}

impl Failing {
    /// None yet.
    pub fn new(alloc: Global) -> Failing {
        Failing {
            lines: String::new(alloc),
            no_memory: false,
        }
    }

    /// Adds to the lines.
    fn push(&mut self, text: &str) {
        if self.lines.push_str(text).is_err() {
            self.no_memory = true;
        }
    }

    /// Notes a case, unless what was found is what was wanted.
    pub fn compare(&mut self, name: &str, found: Result<String, AllocError>, wanted: &str) {
        let Ok(found) = found else {
            self.no_memory = true;
            return;
        };
        if found.as_str() != wanted {
            self.push(name);
            self.push(": found ");
            self.push(found.as_str());
            self.push("\n");
        }
    }

    /// Notes a case, unless it holds.
    pub fn check(&mut self, name: &str, holds: bool) {
        if !holds {
            self.push(name);
            self.push("\n");
        }
    }

    /// How long the list is.
    pub fn len(&self) -> usize {
        self.lines.len()
    }

    /// Notes a case that is known by a number, unless it holds.
    pub fn check_number(&mut self, number: usize, holds: bool) {
        if !holds && write!(self.lines, "number {number}\n").is_err() {
            self.no_memory = true;
        }
    }
}

/// A test that gives its failing cases has passed where there are none and memory was at hand; else it prints them.
impl Termination for Failing {
    fn report<R: Eprint>(self, rt: &R) -> ExitCode {
        if self.no_memory {
            let _ = rt.eprintln("no memory");
            return ExitCode::FAILURE;
        }
        if self.lines.is_empty() {
            return ExitCode::SUCCESS;
        }
        let _ = rt.eprintln(self.lines.as_str());
        ExitCode::FAILURE
    }
}
