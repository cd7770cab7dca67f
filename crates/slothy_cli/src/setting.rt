//! A region on a core.
use asm_reader::Region;
use core_text::Core;
use issue_cost::Costs;

/// A region on a core: the core, the region, and what its items cost there.
#[derive(Clone, Copy)]
pub struct Setting<'a, 't> {
    /// The core.
    pub core: &'a Core,
    /// The region.
    pub region: &'a Region<'t>,
    /// A row for each item of the region, and the forwards.
    pub costs: &'a Costs,
}
