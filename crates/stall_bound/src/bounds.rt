//! The bounds of lists of choices.
ghost use Rattle.std.specs.Prelude.{◌≡◌, ℕ, ◌+◌, ◌*◌, ◌<◌, ◌≤◌, [], ◌∷◌, List, length, nat_lt, reverse, IfOk, IsTrue, slice_index, EachIndex};
ghost use Rattle.std.specs.List.{list_all};
ghost use Rattle.sl_model.specs.declared.schedule.Choice.{Choice as ChoiceValue};
ghost use Rattle.sl_model.specs.declared.limits.TheConstants.{ITEMS};
ghost use Rattle.sl_model.specs.Cycles.{first_slot};
ghost use Rattle.search_space.specs.Bound.{bound, issued_for, needs, needed};
ghost use Rattle.stall_bound.specs.Prepared.{heights_of};
ghost use Rattle.stall_bound.specs.Recounts.{Recounts, IsRecount};

use crate::heights::fill_heights;
use crate::recount::Recount;
use crate::slots::{ceil_div, filled};
use legal_space::Problem;
use sl_base::NoMemory;
use sl_model::schedule::Choice;
use std::alloc::Global;
use std::marker::Model;

/// What tells the bounds of lists of choices of a problem: the heights of its items, in room made
/// before. It is started with a problem, and then tells bounds for that problem alone.
#[derive(Drop)]
pub struct Bounds {
    heights: Vec<u32>,
}

impl Model for Bounds {
    ghost use Rattle.std.specs.Prelude.{◌+◌, ◌*◌, ◌≤◌, slice_index, EachIndex, vec_capacity};
    ghost use Rattle.sl_model.specs.declared.limits.TheConstants.{ITEMS};
    ghost use Rattle.stall_bound.specs.Prepared.{Prepared};

    ghost Value = { Prepared };

    ghost view = { λ a. record { room = vec_capacity a.heights; heights = a.heights.items } };

    ghost invariant = { λ a. EachIndex a.heights.items
        (λ p. slice_index a.heights.items p ≤ 1 + 255 * ITEMS) };
}

impl Bounds {
    /// Room for problems of so many items. No problem is started with yet.
    pub fn with_room(alloc: Global, items: usize) -> Result<Bounds, NoMemory>
        ensures { IfOk result (λ bounds. bounds ≡ record { room = items; heights = [] }) }
    {
        let heights = Vec::with_capacity(alloc, items)?;
        Ok(Bounds { heights })
    }

    /// Starts with a problem, whatever was there. There has to be room for its items.
    pub fn start(&mut self, problem: &Problem)
        requires { length problem.now.graph.items ≤ self.old.room }
        ensures { self.new ≡ record { room = self.old.room; heights = heights_of problem.now } }
    {
        fill_heights(problem, &mut self.heights);
    }

    /// The bound of choices, in their order: no full legal schedule that begins with them has fewer
    /// stalls. It takes the problem started with, and at most 65536 choices, each of an item of it
    /// and a unit below 16.
    pub fn bound(&self, problem: &Problem, done: &[Choice]) -> u32
        requires started { self.now.heights ≡ heights_of problem.now }
        requires few { length done.now ≤ 65536 }
        requires known { IsTrue
            (list_all (λ c. nat_lt c.item (length problem.now.graph.items)) done.now) }
        requires units { IsTrue (list_all (λ c. nat_lt c.unit 16) done.now) }
        ensures { result ≡ bound problem.now (reverse done.now) }
    {
        let recount = Recount::of(problem, done);
        self.bound_of(problem, &recount)
    }

    /// The bound of choices and one more, which has an item of the problem and a unit below 16 too.
    pub fn bound_with(&self, problem: &Problem, done: &[Choice], choice: &Choice) -> u32
        requires started { self.now.heights ≡ heights_of problem.now }
        requires few { length done.now ≤ 65536 }
        requires known { IsTrue
            (list_all (λ c. nat_lt c.item (length problem.now.graph.items)) done.now) }
        requires units { IsTrue (list_all (λ c. nat_lt c.unit 16) done.now) }
        requires choice_known { choice.now.item < length problem.now.graph.items }
        requires choice_unit { choice.now.unit < 16 }
        ensures { result ≡ bound problem.now (choice.now ∷ reverse done.now) }
    {
        let mut recount = Recount::of(problem, done);
        recount.place(problem, choice);
        self.bound_of(problem, &recount)
    }

    // The bound of the choices of a recount.
    #[tactic(auto, unfolding(search_space::specs::Bound::bound))]
    fn bound_of(&self, problem: &Problem, recount: &Recount) -> u32
        requires started { self.now.heights ≡ heights_of problem.now }
        requires is_one { IsRecount problem.now recount.now }
        requires few { recount.now.placed ≤ 65537 }
        ensures { (done : List ChoiceValue) → Recounts problem.now done recount.now
            → result ≡ bound problem.now done }
    {
        let all = ceil_div(problem.len() as u32, problem.costs().width());
        let needed = self.needed(problem, recount);
        all.max(filled(problem, recount).max(needed)) - all
    }

    // The cycles that the unplaced items need at least, each with what reads it.
    fn needed(&self, problem: &Problem, recount: &Recount) -> u32
        requires started { self.now.heights ≡ heights_of problem.now }
        requires is_one { IsRecount problem.now recount.now }
        requires few { recount.now.placed ≤ 65537 }
        ensures { (done : List ChoiceValue) → Recounts problem.now done recount.now
            → result ≡ needed problem.now done }
    {
        let slot = recount.tally.first_slot(problem.costs().width());
        let mut needed = 0;
        for item in problem.order() {
            needed = self.needs(problem, recount, slot, *item).max(needed);
        }
        needed
    }

    // The cycles that an item needs at least with what reads it, where the first slot is at this
    // cycle, and 0 where it was placed.
    fn needs(&self, problem: &Problem, recount: &Recount, slot: u32, item: u16) -> u32
        requires started { self.now.heights ≡ heights_of problem.now }
        requires is_one { IsRecount problem.now recount.now }
        requires few { recount.now.placed ≤ 65537 }
        requires slot { (done : List ChoiceValue) → Recounts problem.now done recount.now
            → slot ≡ first_slot problem.now.costs.width (issued_for problem.now done) }
        requires item { item < length problem.now.graph.items }
        ensures { (done : List ChoiceValue) → Recounts problem.now done recount.now
            → result ≡ needs problem.now done item }
    {
        if recount.is_placed(problem, item) {
            return 0;
        }
        let earliest = recount.known(problem, item).max(slot);
        earliest + self.heights[usize::from(item)]
    }
}
