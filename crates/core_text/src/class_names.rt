//! The classes of instructions by name.
ghost use Rattle.std.specs.Prelude.{◌≡◌, ◌≤◌, ◌<◌, map, length, IfSome};
ghost use Rattle.std.specs.List.{list_any, position};
ghost use Rattle.std.specs.Str.{bytes_eq};
ghost use Rattle.core_text.specs.ClassNames as spec;

use sl_model::instruction::ArchName;

/// The classes of AArch64.
const ARM64: [&str; 10] = [
    "alu", "alus", "mul", "load", "store", "valu", "vshift", "vmul", "vperm", "vxfer",
];

/// The classes of Armv7E-M.
const M4: [&str; 7] = ["alu", "alus", "mul", "simd", "load", "store", "fmove"];

/// The classes of an architecture, numbered from 0.
#[tactic(auto, unfolding(crate::specs::ClassNames::class_names))]
pub(crate) fn class_names(arch: ArchName) -> &'static [&'static str]
    ensures names { map (λ name. name.now) result.now ≡ spec.class_names arch }
    ensures few { length result.now ≤ 10 }
{
    match arch {
        ArchName::Arm64 => &ARM64,
        ArchName::M4 => &M4,
    }
}

/// The architecture of a name.
pub(crate) fn arch_named(name: &str) -> Option<ArchName>
    ensures { result ≡ spec.arch_named name.now }
{
    match name {
        "arm64" => Some(ArchName::Arm64),
        "m4" => Some(ArchName::M4),
        _ => None,
    }
}

/// Are two architectures the same?
pub(crate) fn same_arch(arch: ArchName, other: ArchName) -> bool
    ensures { result ≡ spec.same_arch arch other }
{
    arch == other
}

// Is a text one of these?
fn has_name(names: &[&str], name: &str) -> bool
    ensures { result ≡ list_any (λ other. bytes_eq other.now name.now) names.now }
{
    names.iter().any(|other| *other == name)
}

/// Is a name one of these?
pub(crate) fn is_among(name: &str, names: &[&str]) -> bool
    ensures { result ≡ spec.is_among name.now (map (λ other. other.now) names.now) }
{
    has_name(names, name)
}

// The place of a text among these.
fn position_of(names: &[&str], name: &str) -> Option<usize>
    ensures { result ≡ position (λ other. bytes_eq other.now name.now) names.now }
{
    names.iter().position(|other| *other == name)
}

/// The place of a name among these, counted from 0.
pub(crate) fn place_of(name: &str, names: &[&str]) -> Option<usize>
    ensures place { result ≡ spec.place_of name.now (map (λ other. other.now) names.now) }
    ensures within { IfSome result (λ place. place < length names.now) }
{
    position_of(names, name)
}
