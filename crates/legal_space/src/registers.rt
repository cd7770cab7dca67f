//! Registers.
ghost use Rattle.std.specs.Prelude.{◌≡◌};
ghost use Rattle.sl_model.specs.Register.{same_bool};
ghost use Rattle.sl_model.specs.Legal.{is_flags};

use sl_model::register::{Bank, Reg};

/// Is a register the flags?
pub fn is_flags(reg: Reg) -> bool
    ensures { result ≡ is_flags reg }
{
    match reg.bank {
        Bank::Flags => true,
        _ => false,
    }
}

/// Are both registers flags, or neither?
pub fn are_alike(a: Reg, b: Reg) -> bool
    ensures { result ≡ same_bool (is_flags a) (is_flags b) }
{
    is_flags(a) == is_flags(b)
}
