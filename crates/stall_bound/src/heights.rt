//! How many cycles there are from an item's own to the end of its longest path of readers.
ghost use Rattle.std.specs.Prelude.{◌≡◌, ℕ, ◌+◌, ◌*◌, ◌<◌, ◌≤◌, max, length, replicate, slice_index, slice_set, EachIndex, vec_capacity};
ghost use Rattle.sl_model.specs.Legal.{sources_in};
ghost use Rattle.sl_model.specs.declared.limits.TheConstants.{ITEMS};
ghost use Rattle.search_space.specs.Bound.{way_by};
ghost use Rattle.stall_bound.specs.Prepared.{heights_of};

use issue_cost::Costs;
use legal_space::Problem;
use sl_model::schedule::Source;

/// The heights of the items of a problem, in place of what stood there. There has to be room.
pub fn fill_heights(problem: &Problem, heights: &mut Vec<u32>)
    requires room { length problem.now.graph.items ≤ vec_capacity heights.old }
    ensures heights { heights.new.items ≡ heights_of problem.now }
    ensures low { EachIndex heights.new.items
        (λ p. slice_index heights.new.items p ≤ 1 + 255 * ITEMS) }
    ensures room { vec_capacity heights.new ≡ vec_capacity heights.old }
{
    heights.clear();
    for _ in 0..problem.len() {
        heights.push_reserved(1);
    }
    raise_all(problem, heights);
}

// Raises the heights of items, which are all 1, by way of each reader, from the last reader on: it
// has its own height by then, since what reads it stands below it.
fn raise_all(problem: &Problem, heights: &mut [u32])
    requires { heights.old ≡ replicate (length problem.now.graph.items) 1 }
    ensures heights { heights.new ≡ heights_of problem.now }
    ensures low { EachIndex heights.new (λ p. slice_index heights.new p ≤ 1 + 255 * ITEMS) }
{
    problem.graph().is_sound();
    for reader in problem.order().iter().rev() {
        raise_sources(problem, *reader, heights);
    }
}

// Raises the height of each item that a reader reads to the latency and the height of the reader.
fn raise_sources(problem: &Problem, reader: u16, heights: &mut [u32])
    requires reader { reader < length problem.now.graph.items }
    requires items { length heights.old ≡ length problem.now.graph.items }
    requires low { EachIndex heights.old (λ p. slice_index heights.old p ≤ 255 * 65536) }
    ensures raised { (height : ℕ → ℕ) → height reader ≡ slice_index heights.old reader
        → EachIndex heights.new (λ p. slice_index heights.new p
        ≡ max (slice_index heights.old p) (way_by problem.now height p reader)) }
    ensures low { (limit : ℕ) → EachIndex heights.old (λ p. slice_index heights.old p ≤ limit)
        → EachIndex heights.new (λ p. slice_index heights.new p ≤ limit + 255) }
    ensures items { length heights.new ≡ length heights.old }
{
    let costs = problem.costs();
    let own = heights[usize::from(reader)];
    for (operand, source) in problem.sources_of(reader).iter().enumerate() {
        let Source::Item { index, place } = *source else {
            continue;
        };
        let way = costs.ready_after(index, place, reader, operand as u8) + own;
        raise(heights, index, way);
    }
}

// Raises the height of an item to at least a number.
fn raise(heights: &mut [u32], item: u16, least: u32)
    requires { item < length heights.old }
    ensures { heights.new ≡ slice_set heights.old item (max least (slice_index heights.old item)) }
{
    let item = usize::from(item);
    heights[item] = least.max(heights[item]);
}
