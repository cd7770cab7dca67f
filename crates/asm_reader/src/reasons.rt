//! What is asked of a region, and why a text gives none.
ghost use Rattle.std.specs.Prelude.{◌≡◌};
ghost use Rattle.asm_reader.specs.declared.reasons.ReadRefusal.TheVariants.{Refused, NoMemory};

use macro_expand::ExpandReason;
use sl_isa::FormReason;
use sl_model::text::CutRefusal;
use std::alloc::{AllocError, AllocFailed};

/// What a caller asks of a region.
#[derive(Clone, Copy, Debug, PartialEq, Eq)]
pub struct Wants {
    /// The most instructions that it may have; more than `READ_ITEMS` it never has.
    pub limit: u16,
}

/// Why a region isn't read.
#[derive(Clone, Copy, Debug, PartialEq, Eq)]
pub enum Reason {
    /// The markers don't stand as they should.
    Cut(CutRefusal),
    /// A macro or an alias isn't expanded.
    Expand(ExpandReason),
    /// A statement is no instruction.
    Form(FormReason),
    /// A note isn't right, or stands where it can't.
    TagBad,
    /// A symbolic register is read, and no instruction above writes it.
    SymbolUnset,
    /// There is something that isn't built yet.
    NotYet,
    /// There are more than so many instructions.
    TooMany(u16),
}

/// Where a text is refused first, and why. Lines are counted from 1,
/// and 0 stands for the whole text.
#[derive(Clone, Copy, Debug, PartialEq, Eq)]
pub struct Refusal {
    pub line: u32,
    pub reason: Reason,
}

/// Why no region was read.
#[derive(Clone, Copy, Debug, PartialEq, Eq)]
pub enum ReadRefusal {
    /// The text is refused.
    Refused(Refusal),
    /// No memory was found.
    NoMemory,
}

impl From<Refusal> for ReadRefusal {
    ghost from_gives = { λ refusal e. e ≡ Refused refusal };

    fn from(refusal: Refusal) -> ReadRefusal {
        ReadRefusal::Refused(refusal)
    }
}

impl From<AllocError> for ReadRefusal {
    ghost from_gives = { λ _ e. e ≡ NoMemory };

    fn from(_error: AllocError) -> ReadRefusal {
        ReadRefusal::NoMemory
    }
}

impl<T: Drop> From<AllocFailed<T>> for ReadRefusal {
    ghost from_gives = { λ _ e. e ≡ NoMemory };

    fn from(_error: AllocFailed<T>) -> ReadRefusal {
        ReadRefusal::NoMemory
    }
}
