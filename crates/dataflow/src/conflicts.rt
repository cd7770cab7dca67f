//! Which accesses to memory keep their order.
ghost use Rattle.std.specs.Prelude.{◌≡◌, ℤ, pos, ◌+ℤ◌, ◌&&◌, ◌||◌, ◌<◌, ◌≤◌, not, int_le, map, length, IfOk};
ghost use Rattle.sl_model.specs.Source.{item_at, numbers_below};
ghost use Rattle.sl_model.specs.Exec.{has_access};
ghost use Rattle.sl_model.specs.Body.{above, stands_in, conflict, are_apart, tags_differ, base_source, same_base, ranges_disjoint};
ghost use Rattle.sl_model.specs.Graph.{must_precede, preceding};
ghost use Rattle.sl_model.specs.Lawful.{AreValid};
ghost use Rattle.sl_model.specs.declared.limits.TheConstants.{ITEMS};
ghost use Rattle.dataflow.specs.Flows.{flow_body};

use crate::flow::Flow;
use crate::item_set::ItemSet;
use crate::sources::same_source;
use sl_base::NoMemory;
use sl_isa::Arch;
use sl_model::instruction::FormInfo;
use sl_model::schedule::Source;
use std::alloc::{AllocError, Global};

/// For each item those that have to come before it: that stand above it and conflict with it.
pub fn all_preceding<A: Arch>(
    arch: &A,
    alloc: Global,
    flow: &Flow,
) -> Result<Vec<ItemSet>, NoMemory>
    requires valid { AreValid A.language.isa flow.now.items }
    requires few { length flow.now.items ≤ ITEMS }
    ensures { IfOk result
        (λ all. all.items
        ≡ map (preceding A.language.isa (flow_body flow.now) (length flow.now.items))
        (numbers_below (length flow.now.items))) }
{
    let mut all = Vec::new(alloc);
    for item in 0..flow.len() as u16 {
        all.push(preceding(arch, flow, item))
            .map_err(AllocError::from)?;
    }
    Ok(all)
}

// Those that have to come before an item.
fn preceding<A: Arch>(arch: &A, flow: &Flow, item: u16) -> ItemSet
    requires valid { AreValid A.language.isa flow.now.items }
    requires few { length flow.now.items ≤ ITEMS }
    requires item { item < length flow.now.items }
    ensures { result
        ≡ preceding A.language.isa (flow_body flow.now) (length flow.now.items) item }
{
    let mut set = ItemSet::new();
    for other in 0..flow.len() as u16 {
        if !must_precede(arch, flow, item, other) {
            continue;
        }
        set.insert(other);
    }
    set
}

// Does an item stand above another, and conflict with it?
fn must_precede<A: Arch>(arch: &A, flow: &Flow, item: u16, other: u16) -> bool
    requires valid { AreValid A.language.isa flow.now.items }
    requires item { item < length flow.now.items }
    requires other { other < length flow.now.items }
    ensures { result ≡ must_precede A.language.isa (flow_body flow.now) item other }
{
    if !stands_above(flow.order(), item, other) {
        return false;
    }
    conflict(arch, flow, other, item)
}

// Does an item stand above another in an order?
fn stands_above(order: &[u16], item: u16, other: u16) -> bool
    ensures { result ≡ stands_in other (above item order.now) }
{
    for number in order {
        if *number == item {
            return false;
        }
        if *number == other {
            return true;
        }
    }
    false
}

// What the table says of an item's form.
fn info_of<A: Arch>(arch: &A, flow: &Flow, item: u16) -> FormInfo
    requires valid { AreValid A.language.isa flow.now.items }
    requires known { item < length flow.now.items }
    ensures { result ≡ A.language.isa.info (item_at flow.now.items item).form }
{
    arch.info(flow.item(item).form)
}

/// Do two accesses conflict: is at least one a store, and aren't they apart?
#[tactic(auto, unfolding(sl_model::specs::Body::conflict))]
pub fn conflict<A: Arch>(arch: &A, flow: &Flow, first: u16, second: u16) -> bool
    requires valid { AreValid A.language.isa flow.now.items }
    requires first { first < length flow.now.items }
    requires second { second < length flow.now.items }
    ensures { result ≡ conflict A.language.isa (flow_body flow.now) first second }
{
    let one = info_of(arch, flow, first);
    let two = info_of(arch, flow, second);
    if !have_accesses(&one, &two) {
        return false;
    }
    if !is_any_store(&one, &two) {
        return false;
    }
    !are_apart(arch, flow, first, second)
}

// Do both forms access memory?
fn have_accesses(one: &FormInfo, two: &FormInfo) -> bool
    ensures { result ≡ (has_access one.now && has_access two.now) }
{
    one.size > 0 && two.size > 0
}

// Is one of two accesses a store?
fn is_any_store(one: &FormInfo, two: &FormInfo) -> bool
    ensures { result ≡ (one.now.store || two.now.store) }
{
    one.store || two.store
}

/// Are two accesses apart: by their tags, or by their ranges from one base?
#[tactic(auto, unfolding(sl_model::specs::Body::are_apart))]
pub fn are_apart<A: Arch>(arch: &A, flow: &Flow, first: u16, second: u16) -> bool
    requires valid { AreValid A.language.isa flow.now.items }
    requires first { first < length flow.now.items }
    requires second { second < length flow.now.items }
    ensures { result ≡ are_apart A.language.isa (flow_body flow.now) first second }
{
    let one = flow.item(first);
    let two = flow.item(second);
    if tags_differ(one.tag, two.tag) {
        return true;
    }
    if !same_base(
        base_source(arch, flow, first),
        base_source(arch, flow, second),
    ) {
        return false;
    }
    let size = info_of(arch, flow, first).size;
    let other_size = info_of(arch, flow, second).size;
    ranges_disjoint(arch.offset(one), size, arch.offset(two), other_size)
}

// Do both have a tag, and not the same?
fn tags_differ(one: Option<u16>, two: Option<u16>) -> bool
    ensures { result ≡ tags_differ one two }
{
    let Some(one) = one else {
        return false;
    };
    let Some(two) = two else {
        return false;
    };
    one != two
}

// The source of the base of an item's access.
fn base_source<A: Arch>(arch: &A, flow: &Flow, item: u16) -> Option<Source>
    requires valid { AreValid A.language.isa flow.now.items }
    requires known { item < length flow.now.items }
    ensures { result ≡ base_source A.language.isa (flow_body flow.now) item }
{
    let Some(operand) = info_of(arch, flow, item).base else {
        return None;
    };
    flow.source(item, operand)
}

// Have both accesses a base, and of the same source?
fn same_base(one: Option<Source>, two: Option<Source>) -> bool
    ensures { result ≡ same_base one two }
{
    let Some(one) = one else {
        return false;
    };
    let Some(two) = two else {
        return false;
    };
    same_source(one, two)
}

// Does one of two ranges of bytes, each given by its offset and its
// size, end before the other begins?
fn ranges_disjoint(one: i64, size: u8, two: i64, other_size: u8) -> bool
    ensures { result ≡ ranges_disjoint one size two other_size }
{
    if ends_before(one, size, two) {
        return true;
    }
    ends_before(two, other_size, one)
}

// Does a range of bytes end before an offset?
fn ends_before(start: i64, size: u8, offset: i64) -> bool
    ensures { result ≡ int_le (start +ℤ pos size) offset }
{
    i128::from(start) + i128::from(size) <= i128::from(offset)
}
