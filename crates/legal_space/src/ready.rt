//! When the operands of an item are ready.
ghost use Rattle.std.specs.Prelude.{◌≡◌, ℕ, ◌+◌, ◌^◌, ◌<◌, ◌≤◌, List, length, slice_index, EachIndex, IsTrue};
ghost use Rattle.std.specs.List.{list_all};
ghost use Rattle.sl_model.specs.declared.schedule.Choice.{Choice};
ghost use Rattle.sl_model.specs.Cycles.{Issued, ready_at, ready_from};
ghost use Rattle.legal_space.specs.Timed.{is_known_source, HasCycles};

use issue_cost::Costs;
use sl_model::schedule::Source;

/// The cycle from which on all sources of an item's operands are ready, at most 256, each an entry
/// or an output of an item, where the items were issued at these cycles, at most 2^29; 0 stands for
/// an item that isn't issued yet.
pub fn ready_among(costs: &Costs, cycles: &[u32], item: u16, sources: &[Source]) -> u32
    requires item { item < length cycles.now }
    requires rows { length costs.now.rows ≡ length cycles.now }
    requires few { length sources.now ≤ 256 }
    requires known { IsTrue (list_all (is_known_source (length cycles.now)) sources.now) }
    requires early { EachIndex cycles.now (λ q. slice_index cycles.now q ≤ 2 ^ 29) }
    ensures ready { (choices : List Choice) (done : List Issued) →
        HasCycles cycles.now choices done
        → result ≡ ready_from costs.now choices done item 0 sources.now }
    ensures early { (limit : ℕ) → EachIndex cycles.now (λ q. slice_index cycles.now q ≤ limit)
        → result ≤ limit + 255 }
{
    let mut ready = 0;
    for (operand, source) in sources.iter().enumerate() {
        ready = ready_at(costs, cycles, item, operand as u8, *source).max(ready);
    }
    ready
}

/// When a source is ready for an operand of an item, where the items were issued at these cycles.
pub fn ready_at(costs: &Costs, cycles: &[u32], item: u16, operand: u8, source: Source) -> u32
    requires item { item < length cycles.now }
    requires rows { length costs.now.rows ≡ length cycles.now }
    requires known { IsTrue (is_known_source (length cycles.now) source) }
    requires early { EachIndex cycles.now (λ q. slice_index cycles.now q ≤ 2 ^ 29) }
    ensures ready { (choices : List Choice) (done : List Issued) →
        HasCycles cycles.now choices done
        → result ≡ ready_at costs.now choices done item operand source }
    ensures early { (limit : ℕ) → EachIndex cycles.now (λ q. slice_index cycles.now q ≤ limit)
        → result ≤ limit + 255 }
{
    match source {
        Source::Entry(_) => 0,
        Source::Item { index, place } => {
            cycles[usize::from(index)] + costs.ready_after(index, place, item, operand)
        }
    }
}
