//! Why there is no text.
ghost use Rattle.std.specs.Prelude.{◌≡◌};
ghost use Rattle.slothy_cli.specs.declared.stop.Failure.TheVariants.{Stopped, NoMemory};

use core_text::{CoreReason, KeyText};
use sl_base::NoMemory as OutOfMemory;
use sl_isa::FormReason;
use std::alloc::{AllocError, AllocFailed};

/// Why an input is refused.
#[derive(Clone, Copy, Debug, PartialEq, Eq)]
pub enum Reason {
    /// The bytes aren't UTF-8.
    NotText,
    /// There is no start marker.
    NoStart,
    /// No end marker stands below the start marker.
    NoEnd,
    /// A marker stands a second time.
    Twice,
    /// No `.endm` ends the macro that begins here, or an expansion begins one.
    NoEndm,
    /// The macro is defined a second time.
    MacroTwice,
    /// The macro that is invoked has parameters that are no names, each another one.
    MacroShape,
    /// The macro that is invoked has more parameters than there are arguments, or fewer.
    ArgCount,
    /// A `\` in the macro that is invoked names no parameter.
    ParamUnknown,
    /// The alias stands for another text.
    AliasTwice,
    /// No such alias is in force.
    AliasUnknown,
    /// A note on the line isn't right, or stands where it can't.
    TagBad,
    /// A name of a register is read above every instruction that writes it.
    SymbolUnset,
    /// The line has something that isn't built yet.
    NotYet,
    /// A statement is no instruction.
    Form(FormReason),
    /// The line is no line of a state file.
    StateBad,
    /// The core says nothing of the class of the instruction.
    ClassMissing,
}

/// A file of the command.
#[derive(Clone, Copy, Debug, PartialEq, Eq)]
pub enum File {
    /// The one with the core table.
    Core,
    /// The one with the region.
    Input,
    /// The one with the state.
    State,
}

/// What passes a limit.
#[derive(Clone, Copy, Debug, PartialEq, Eq)]
pub enum Quantity {
    /// The bytes of a file.
    File,
    /// The instructions of the region.
    Items,
    /// How deep macros invoke one another.
    Depth,
    /// What the statements of an expansion add up to.
    Expansion,
    /// The trees of the search.
    Trees,
}

/// Why an input has no answer. Lines are counted from 1, and 0 stands for the whole file.
#[derive(Drop)]
pub enum Stop {
    /// The core table is refused, for this reason, at this key.
    CoreRefused {
        reason: CoreReason,
        key: KeyText,
    },
    /// The file is refused at this line, for this reason.
    Refused {
        file: File,
        line: u32,
        reason: Reason,
    },
    /// No schedule has at most this many stalls.
    Infeasible {
        most: u32,
    },
    /// The budget was spent in this tree, of the trees at this level of stalls.
    Budget {
        level: u32,
        tree: u32,
    },
    /// The quantity passes its limit at this line of the file.
    TooLarge {
        file: File,
        line: u32,
        quantity: Quantity,
        limit: u64,
    },
}

/// Why a step gives no answer.
#[derive(Drop)]
pub enum Failure {
    /// The input has none.
    Stopped(Stop),
    /// Memory ran out.
    NoMemory,
}

impl From<Stop> for Failure {
    ghost from_gives = { λ stop e. e ≡ Stopped stop };

    fn from(stop: Stop) -> Failure {
        Failure::Stopped(stop)
    }
}

impl From<OutOfMemory> for Failure {
    ghost from_gives = { λ _ e. e ≡ NoMemory };

    fn from(_error: OutOfMemory) -> Failure {
        Failure::NoMemory
    }
}

impl From<AllocError> for Failure {
    ghost from_gives = { λ _ e. e ≡ NoMemory };

    fn from(_error: AllocError) -> Failure {
        Failure::NoMemory
    }
}

impl<T: Drop> From<AllocFailed<T>> for Failure {
    ghost from_gives = { λ _ e. e ≡ NoMemory };

    fn from(_error: AllocFailed<T>) -> Failure {
        Failure::NoMemory
    }
}
