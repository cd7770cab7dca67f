//! A written file, read again as it stands: the law that its region is read in place as it is read
//! by itself. There is no code here.
#![tactic(auto)]

ghost use Rattle.in_place.specs.InPlace.{AreReadInPlace};

use sl_isa::Arch;

/// The written file is read in place as its printed region is read by itself, only further down,
/// where what stands before the region is clear for what is printed.
pub fn reads_in_place<A: Arch>(_arch: &A)
    ensures { AreReadInPlace A.language }
{}
