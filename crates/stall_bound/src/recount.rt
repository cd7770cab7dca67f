//! The cycles of some choices, counted from the first.
ghost use Rattle.std.specs.Prelude.{◌≡◌, ℕ, ◌+◌, ◌*◌, ◌<◌, ◌≤◌, List, [], ◌∷◌, length, nat_lt, reverse, IfSome, IsTrue};
ghost use Rattle.std.specs.List.{list_all};
ghost use Rattle.sl_model.specs.declared.schedule.Choice.{Choice as ChoiceValue};
ghost use Rattle.sl_model.specs.declared.limits.TheConstants.{ITEMS};
ghost use Rattle.sl_model.specs.Body.{is_placed};
ghost use Rattle.sl_model.specs.Cycles.{ready_at, ready_from};
ghost use Rattle.sl_model.specs.Legal.{Problem as ProblemValue, sources_in};
ghost use Rattle.search_space.specs.Bound.{issued_for, known_at, known_from};
ghost use Rattle.legal_space.specs.Timed.{is_known_source};
ghost use Rattle.stall_bound.specs.Recounts.{placed_at, Recounts, IsRecount};

use issue_cost::Tally;
use legal_space::Problem;
use sl_model::limits::ITEMS;
use sl_model::schedule::{Choice, Source};

/// What was issued for some choices of a problem, and when each item of them.
#[derive(Drop)]
pub struct Recount {
    /// The tally of what was issued.
    pub tally: Tally,
    /// How many choices there are.
    pub placed: u32,
    /// The cycle of each item, where it was placed.
    pub cycles: [Option<u32>; ITEMS],
}

impl Recount {
    /// The recount of no choice.
    pub fn start() -> Recount
        ensures { (problem : ProblemValue) → Recounts problem [] result }
    {
        Recount {
            tally: Tally::start(),
            placed: 0,
            cycles: [None; ITEMS],
        }
    }

    /// The recount of choices in their order, at most 65536, each of an item of the problem and a
    /// unit below 16.
    pub fn of(problem: &Problem, done: &[Choice]) -> Recount
        requires few { length done.now ≤ 65536 }
        requires known { IsTrue
            (list_all (λ c. nat_lt c.item (length problem.now.graph.items)) done.now) }
        requires units { IsTrue (list_all (λ c. nat_lt c.unit 16) done.now) }
        ensures { Recounts problem.now (reverse done.now) result }
    {
        let mut recount = Recount::start();
        for choice in done {
            recount.place(problem, choice);
        }
        recount
    }

    /// One more choice, where at most 65536 were made.
    pub fn place(&mut self, problem: &Problem, choice: &Choice)
        requires is_one { IsRecount problem.now self.old }
        requires few { self.old.placed ≤ 65536 }
        requires known { choice.now.item < length problem.now.graph.items }
        requires unit { choice.now.unit < 16 }
        ensures { (done : List ChoiceValue) → Recounts problem.now done self.old
            → Recounts problem.now (choice.now ∷ done) self.new }
    {
        // That there are few items is all that the proof needs.
        let _ = problem.len();
        let costs = problem.costs();
        let item = choice.item;
        let ready = self.ready(problem, item);
        let cycle = self.tally.next_cycle(costs.width(), choice.unit, ready);
        self.tally = self.tally.after(choice.unit, costs.busy(item), cycle);
        self.cycles[usize::from(item)] = Some(cycle);
        self.placed += 1;
    }

    /// Was an item placed?
    pub fn is_placed(&self, problem: &Problem, item: u16) -> bool
        requires is_one { IsRecount problem.now self.now }
        requires known { item < length problem.now.graph.items }
        ensures { (done : List ChoiceValue) → Recounts problem.now done self.now
            → result ≡ is_placed done item }
    {
        self.cycle_at(problem, item).is_some()
    }

    // The cycle of an item, where it was placed.
    fn cycle_at(&self, problem: &Problem, item: u16) -> Option<u32>
        requires is_one { IsRecount problem.now self.now }
        requires known { item < length problem.now.graph.items }
        ensures cycle { (done : List ChoiceValue) → Recounts problem.now done self.now
            → result ≡ placed_at problem.now done item }
        ensures soon { IfSome result (λ cycle. cycle ≤ 512 * self.now.placed) }
    {
        // That there are few items is all that the proof needs.
        let _ = problem.len();
        self.cycles[usize::from(item)]
    }

    // When a source is ready for an operand of an item, where a source that wasn't placed counts as
    // issued at cycle 0.
    fn ready_at(&self, problem: &Problem, item: u16, operand: u8, source: Source) -> u32
        requires is_one { IsRecount problem.now self.now }
        requires few { self.now.placed ≤ 65537 }
        requires known { item < length problem.now.graph.items }
        requires source { IsTrue (is_known_source (length problem.now.graph.items) source) }
        ensures ready { (done : List ChoiceValue) → Recounts problem.now done self.now
            → result ≡ ready_at problem.now.costs done (issued_for problem.now done)
            item operand source }
        ensures soon { result ≤ 512 * self.now.placed + 255 }
    {
        match source {
            Source::Entry(_) => 0,
            Source::Item { index, place } => {
                let after = problem.costs().ready_after(index, place, item, operand);
                self.cycle_at(problem, index).unwrap_or(0) + after
            }
        }
    }

    // When all sources of an item are ready.
    fn ready(&self, problem: &Problem, item: u16) -> u32
        requires is_one { IsRecount problem.now self.now }
        requires few { self.now.placed ≤ 65537 }
        requires known { item < length problem.now.graph.items }
        ensures ready { (done : List ChoiceValue) → Recounts problem.now done self.now
            → result ≡ ready_from problem.now.costs done (issued_for problem.now done)
            item 0 (sources_in problem.now item) }
        ensures soon { result ≤ 512 * self.now.placed + 255 }
    {
        let mut ready = 0;
        for (operand, source) in problem.sources_of(item).iter().enumerate() {
            ready = self
                .ready_at(problem, item, operand as u8, *source)
                .max(ready);
        }
        ready
    }

    // When a source is ready for an operand of an item, and 0 where it wasn't placed.
    fn known_at(&self, problem: &Problem, item: u16, operand: u8, source: Source) -> u32
        requires is_one { IsRecount problem.now self.now }
        requires few { self.now.placed ≤ 65537 }
        requires known { item < length problem.now.graph.items }
        requires source { IsTrue (is_known_source (length problem.now.graph.items) source) }
        ensures known { (done : List ChoiceValue) → Recounts problem.now done self.now
            → result ≡ known_at problem.now done item operand source }
        ensures soon { result ≤ 512 * self.now.placed + 255 }
    {
        let Source::Item { index, .. } = source else {
            return 0;
        };
        if !self.is_placed(problem, index) {
            return 0;
        }
        self.ready_at(problem, item, operand, source)
    }

    /// When all placed sources of an item are ready.
    pub fn known(&self, problem: &Problem, item: u16) -> u32
        requires is_one { IsRecount problem.now self.now }
        requires few { self.now.placed ≤ 65537 }
        requires known { item < length problem.now.graph.items }
        ensures known { (done : List ChoiceValue) → Recounts problem.now done self.now
            → result ≡ known_from problem.now done item 0 (sources_in problem.now item) }
        ensures soon { result ≤ 512 * self.now.placed + 255 }
    {
        let mut known = 0;
        for (operand, source) in problem.sources_of(item).iter().enumerate() {
            known = self
                .known_at(problem, item, operand as u8, *source)
                .max(known);
        }
        known
    }
}
