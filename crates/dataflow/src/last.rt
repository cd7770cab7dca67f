//! What stands in a register at the end of items.
ghost use Rattle.std.specs.Prelude.{◌≡◌, ◌<◌, true, ℕ, length, reverse};
ghost use Rattle.sl_model.specs.Body.{stands_in};
ghost use Rattle.sl_model.specs.Graph.{last_of, last_at};

use crate::graph::Graph;
use sl_isa::place_of;
use sl_model::instruction::Instr;
use sl_model::register::Reg;
use sl_model::schedule::Source;

impl Graph {
    /// What stands in a register at the end: the last output in it, or what it held at first.
    pub fn last(&self, reg: Reg) -> Source
        ensures { result ≡ last_at self.now reg }
    {
        self.is_sound();
        last_of(self.items(), self.order(), reg)
    }
}

// What stands in a register below items in an order, each of them one of a list.
#[tactic(auto, unfolding(sl_model::specs::Graph::last_of))]
fn last_of(items: &[Instr], order: &[u16], reg: Reg) -> Source
    requires { (p : ℕ) → stands_in p order.now ≡ true → p < length items.now }
    ensures { result ≡ last_of items.now (reverse order.now) reg }
{
    let mut rest = order;
    while let Some((last, before)) = rest.split_last() {
        if let Some(place) = place_of(&items[usize::from(*last)], reg) {
            return Source::Item {
                index: *last,
                place,
            };
        }
        rest = before;
    }
    Source::Entry(reg)
}
