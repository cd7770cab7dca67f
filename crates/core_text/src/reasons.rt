//! Why a core table is refused.
ghost use Rattle.std.specs.Prelude.{◌≡◌};
ghost use Rattle.core_text.specs.declared.reasons.CoreErr.TheVariants.{NoMemory as OutOfMemory};

use crate::KeyText;
use sl_base::NoMemory;
use std::alloc::AllocError;

/// Why a core table is refused.
#[derive(Clone, Copy, Debug, PartialEq, Eq)]
pub enum CoreReason {
    /// The bytes are no TOML document.
    NotToml,
    /// A key that is required is absent, or a value is of another type.
    Missing,
    /// There is no such key.
    KeyUnknown,
    /// A name is that of no unit.
    UnitUnknown,
    /// A name is that of no class of the architecture.
    ClassUnknown,
    /// A number is outside its range, or a list is empty or too long.
    NumberRange,
    /// A name has another shape, or there is no such architecture.
    NameBad,
    /// A name or a forward is repeated.
    Twice,
    /// The table is for another architecture.
    ArchOther,
}

/// Why a core table was not read.
#[derive(Drop)]
pub enum CoreErr {
    /// The table is refused, for the first reason that there is, at a key.
    Refused { reason: CoreReason, key: KeyText },
    /// Memory ran out.
    NoMemory,
}

impl From<NoMemory> for CoreErr {
    ghost from_gives = { λ _ e. e ≡ OutOfMemory };

    fn from(_error: NoMemory) -> CoreErr {
        CoreErr::NoMemory
    }
}

impl From<AllocError> for CoreErr {
    ghost from_gives = { λ _ e. e ≡ OutOfMemory };

    fn from(_error: AllocError) -> CoreErr {
        CoreErr::NoMemory
    }
}
