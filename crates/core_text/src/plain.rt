//! The core `one:L`.
ghost use Rattle.std.specs.Prelude.{◌≡◌, ◌≤◌, length, IfOk};
ghost use Rattle.core_text.specs.Plain as spec;

use crate::class_names::class_names;
use crate::core_table::{ClassEntry, Core};
use crate::units::owned_names;
use crate::{ArchName, NoMemory};
use std::alloc::Global;

// A class on unit 0.
fn plain_cost(alloc: Global, latency: u8, class: u8) -> Result<ClassEntry, NoMemory>
    ensures { IfOk result (λ entry. entry ≡ spec.plain_cost latency class) }
{
    let units = Vec::from_slice(alloc, &[0])?;
    Ok(ClassEntry::new(class, units, 1, latency, latency))
}

// The first classes, so many.
#[tactic(auto, unfolding(crate::specs::Plain::plain_costs))]
fn plain_costs(alloc: Global, latency: u8, classes: u8) -> Result<Vec<ClassEntry>, NoMemory>
    ensures { IfOk result (λ entries. entries.items ≡ spec.plain_costs latency classes) }
{
    let mut entries = Vec::new(alloc);
    for class in 0..classes {
        let entry = plain_cost(alloc, latency, class)?;
        if entries.push(entry).is_err() {
            return Err(NoMemory);
        }
    }
    Ok(entries)
}

/// The core `one:L` of an architecture, for a latency from 1 to 255 cycles: it issues an item in
/// a cycle, on its one unit `u`, for one cycle, and each result is ready after the latency.
#[tactic(auto, unfolding(crate::specs::Plain::plain_core))]
pub fn plain_core(alloc: Global, arch: ArchName, latency: u8) -> Result<Core, NoMemory>
    requires { 1 ≤ latency }
    ensures { IfOk result (λ core. core ≡ spec.plain_core arch latency) }
{
    let units = owned_names(alloc, &["u"])?;
    let classes = plain_costs(alloc, latency, class_names(arch).len() as u8)?;
    Ok(Core::new(1, units, classes, Vec::new(alloc)))
}
