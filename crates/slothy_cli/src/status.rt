//! How a call ends.

ghost use Rattle.std.specs.Prelude.{◌≡◌};
ghost use Rattle.slothy_cli.specs.Messages.{code_of, status_of};
ghost use Rattle.slothy_cli.specs.Shown.{failed_ending};

use crate::stop::{Failure, File, Stop};

/// The status that the program ends with.
#[derive(Clone, Copy, Debug, PartialEq, Eq)]
pub enum Status {
    /// The text was written whole.
    Done,
    /// There is no schedule with so few stalls.
    Infeasible,
    /// The words are wrong.
    Usage,
    /// An input is outside its grammar.
    Refused,
    /// The budget of the search was spent.
    Budget,
    /// A file couldn't be read.
    ReadFault,
    /// The output didn't take the whole text.
    WriteFault,
    /// Memory ran out.
    NoMemory,
    /// The new region isn't a schedule of the old one.
    CheckNo,
    /// A quantity passes its limit.
    TooLarge,
    /// The loop would run more often than allowed.
    TurnsSpent,
}

impl Status {
    /// The number that stands for the status, from 0 for `Done` to 10
    /// for `TurnsSpent`, in their order.
    pub fn code(&self) -> u8
        ensures { result ≡ code_of self.now }
    {
        *self as u8
    }
}

/// How a call ended, with its cause.
#[derive(Drop)]
pub enum Ending {
    /// The text was written whole.
    Done,
    /// The words are wrong.
    Usage,
    /// There is no text for this input.
    Stopped(Stop),
    /// The file couldn't be read.
    ReadFault(File),
    /// The output took `sent` bytes of the text and then failed.
    WriteFault { sent: u64 },
    /// Memory ran out.
    NoMemory,
}

impl Ending {
    /// How a failure ends a call.
    pub fn of(failure: Failure) -> Ending
        ensures { result ≡ failed_ending failure }
    {
        match failure {
            Failure::Stopped(stop) => Ending::Stopped(stop),
            Failure::NoMemory => Ending::NoMemory,
        }
    }

    /// The status of the ending.
    pub fn status(&self) -> Status
        ensures { result ≡ status_of self.now }
    {
        match self {
            Ending::Done => Status::Done,
            Ending::Usage => Status::Usage,
            Ending::Stopped(Stop::CoreRefused { .. }) => Status::Refused,
            Ending::Stopped(Stop::Refused { .. }) => Status::Refused,
            Ending::Stopped(Stop::TooLarge { .. }) => Status::TooLarge,
            Ending::Stopped(Stop::Infeasible { .. }) => Status::Infeasible,
            Ending::Stopped(Stop::Budget { .. }) => Status::Budget,
            Ending::ReadFault(_) => Status::ReadFault,
            Ending::WriteFault { .. } => Status::WriteFault,
            Ending::NoMemory => Status::NoMemory,
        }
    }
}
