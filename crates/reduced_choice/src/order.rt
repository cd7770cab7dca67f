//! The order of choices: by item, by unit, and by registers.
ghost use Rattle.std.specs.Prelude.{◌≡◌, map, slice_get};
ghost use Rattle.std.specs.List.{filter_map};
ghost use Rattle.sl_model.specs.RegSets.{bit_of};
ghost use Rattle.sl_model.specs.Space.{choice_key};
ghost use Rattle.search_space.specs.Next.{choice_before, is_behind};
ghost use Rattle.reduced_choice.specs.Early.{is_lower, is_early};

use crate::machine::bit_of;
use sl_model::register::Reg;
use sl_model::schedule::Choice;

/// How many outputs an item has at most.
const OUTPUTS: usize = 3;

/// Does a choice come before another: by its item, then by its unit, then by its registers, which
/// go by their bits in a set?
pub fn choice_before(a: &Choice, b: &Choice) -> bool
    ensures { result ≡ choice_before a.now b.now }
{
    is_lower(a, b, true)
}

/// Does a choice come behind another, where there is another?
pub fn is_behind(after: Option<Choice>, choice: &Choice) -> bool
    ensures { result ≡ is_behind after choice.now }
{
    match after {
        Some(after) => choice_before(&after, choice),
        None => true,
    }
}

/// Do all choices that begin as this one does come before another, where there is another?
#[tactic(auto, unfolding(crate::specs::Early::is_early))]
pub fn is_early(after: Option<Choice>, front: &Choice) -> bool
    ensures { result ≡ is_early after front.now }
{
    match after {
        Some(after) => is_lower(front, &after, false),
        None => false,
    }
}

// Is the first difference of two choices lower in the first one? Where the registers of the first
// one end and those of the other go on, it is as `ends` says.
fn is_lower(a: &Choice, b: &Choice, ends: bool) -> bool
    ensures { result ≡ is_lower ends (choice_key a.now) (choice_key b.now) }
{
    if a.item != b.item {
        return a.item < b.item;
    }
    if a.unit != b.unit {
        return a.unit < b.unit;
    }
    are_lower(a.outs, b.outs, ends)
}

// The same of registers.
fn are_lower(a: [Option<Reg>; OUTPUTS], b: [Option<Reg>; OUTPUTS], ends: bool) -> bool
    ensures { result
        ≡ is_lower ends (map (λ r. bit_of r.bank r.number) (filter_map (λ r. r) a))
        (map (λ r. bit_of r.bank r.number) (filter_map (λ r. r) b)) }
{
    for place in 0..OUTPUTS {
        let Some(other) = reg_at(&b, place) else {
            return false;
        };
        let Some(reg) = reg_at(&a, place) else {
            return ends;
        };
        if bit_of(reg) != bit_of(other) {
            return bit_of(reg) < bit_of(other);
        }
    }
    false
}

/// The register at a place among those that there are.
pub fn reg_at(outs: &[Option<Reg>], place: usize) -> Option<Reg>
    ensures { result ≡ slice_get (filter_map (λ r. r) outs.now) place }
{
    outs.iter().filter_map(|out| *out).nth(place)
}
