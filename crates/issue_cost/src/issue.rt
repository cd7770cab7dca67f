//! Items as they are issued, one after the other.
ghost use Rattle.std.specs.Prelude.{◌≡◌, ℕ, ◌+◌, ◌*◌, ◌^◌, ◌<◌, ◌≤◌, max, true, false, List, [], ◌∷◌, ◌++◌, length, take, None, Some, IfOk};
ghost use Rattle.sl_model.specs.Cycles.{Push, MayIssue, next_cycle, issued, cycle_count, row_of, unit_free};
ghost use Rattle.issue_cost.specs.Timeline.{Timeline, start_of, is_at_break, IsFreeBy};
ghost use Rattle.issue_cost.specs.Tallies.{Tallies};

use crate::costs::Costs;
use crate::tally::Tally;
use sl_base::NoMemory;
use std::alloc::Global;
use std::marker::Model;

/// A push, and the tally of the items up to it.
#[derive(Clone, Copy)]
struct Entry {
    width: u8,
    unit: u8,
    busy: u32,
    ready: u32,
    tally: Tally,
}

/// The items issued so far, in order, in room made before. A push, a pop and a question take the
/// same time however many items there are.
///
/// Behind a break the items are those of a second pass: they find the units as the first pass left
/// them, and none is issued before the cycle after the first pass's last.
#[derive(Drop)]
pub struct Issue {
    entries: Vec<Entry>,
    /// How many items were issued before the break, where one was made.
    pass: Option<usize>,
}

impl Model for Issue {
    ghost use Rattle.std.specs.Prelude.{map, vec_capacity};
    ghost use Rattle.issue_cost.specs.Timeline.{Timeline};

    ghost Value = { Timeline };

    ghost use Rattle.issue_cost.specs.Entries.{pushed, IsKept};

    ghost view = { λ a. record {
      pushes = map pushed a.entries.items;
      room = vec_capacity a.entries;
      pass = a.pass;
    } };

    ghost invariant = { λ a. IsKept (vec_capacity a.entries) a.entries.items a.pass };
}

impl Issue {
    /// Room for some items, at most 131072, of which none is issued yet.
    pub fn with_room(alloc: Global, items: usize) -> Result<Issue, NoMemory>
        requires { items ≤ 131072 }
        ensures { IfOk result
            (λ issue. issue ≡ record { pushes = []; room = items; pass = None }) }
    {
        let entries = Vec::with_capacity(alloc, items)?;
        Ok(Issue {
            entries,
            pass: None,
        })
    }

    /// Issues one more item to a unit below 16, where its operands are ready from the cycle `ready`
    /// on, at most 2^30, and gives its cycle. There has to be room for it. Each push counts with
    /// the width of the costs that it got, and behind a break as one that isn't ready before the
    /// second pass begins. The unit is free again when the item has kept it.
    pub fn push(&mut self, costs: &Costs, item: u16, unit: u8, ready: u32) -> u32
        requires room { length self.old.pushes < self.old.room }
        requires item { item < length costs.now.rows }
        requires unit { unit < 16 }
        requires ready { ready ≤ 2 ^ 30 }
        ensures cycle { result
            ≡ next_cycle costs.now.width unit (max (start_of self.old) ready)
            (issued self.old.pushes) }
        ensures pushed { self.new ≡ record self.old {
          pushes = self.old.pushes ++ record {
            width = costs.now.width;
            unit = unit;
            busy = (row_of costs.now item).busy;
            ready = max (start_of self.old) ready;
          } ∷ [];
        } }
        ensures counted { issued self.new.pushes ≡
            record { unit = unit; busy = (row_of costs.now item).busy; cycle = result }
            ∷ issued self.old.pushes }
        ensures started { start_of self.new ≡ start_of self.old }
        ensures kept { unit_free unit (issued self.new.pushes)
            ≡ result + (row_of costs.now item).busy }
        ensures fits { result ≤ 2 ^ 30 + 256 * self.old.room }
        ensures within { (limit : ℕ) → IsFreeBy limit (issued self.old.pushes) → ready ≤ limit
            → result ≤ limit }
        ensures free { (limit : ℕ) → IsFreeBy limit (issued self.old.pushes) → ready ≤ limit
            → IsFreeBy (limit + 255) (issued self.new.pushes) }
    {
        let cycle = self.cycle_for(costs, unit, ready);
        let busy = costs.busy(item);
        let tally = self.tally().after(unit, busy, cycle);
        let ready = self.start().max(ready);
        self.entries.push_reserved(Entry {
            width: costs.width(),
            unit,
            busy,
            ready,
            tally,
        });
        cycle
    }

    /// Ends the first pass: what is pushed from now on is the second one. No break may have been
    /// made yet.
    pub fn pass_break(&mut self)
        requires { self.old.pass ≡ None }
        ensures { self.new ≡ record self.old { pass = Some (length self.old.pushes) } }
    {
        self.pass = Some(self.entries.len());
    }

    /// Undoes the break, where one was made and nothing was pushed since, and else the last push.
    /// There has to be one of the two.
    pub fn pop(&mut self)
        requires { self.old.pass ≡ None → 0 < length self.old.pushes }
        ensures unbroken { is_at_break self.old ≡ true → self.new ≡ record self.old { pass = None } }
        ensures last { is_at_break self.old ≡ false
            → (last : Push) × (self.old.pushes ≡ self.new.pushes ++ last ∷ []) }
        ensures undone { is_at_break self.old ≡ false → (pushes : List Push) (last : Push)
            → self.old.pushes ≡ pushes ++ last ∷ [] → self.new.pushes ≡ pushes }
        ensures pass { is_at_break self.old ≡ false → self.new.pass ≡ self.old.pass }
        ensures room { self.new.room ≡ self.old.room }
    {
        if self.is_at_break() {
            self.pass = None;
        } else {
            let _ = self.entries.pop();
        }
    }

    /// The cycle that one more item would be issued at: the least one that the issue rule allows.
    /// The unit is below 16, and `ready` at most 2^30.
    pub fn cycle_for(&self, costs: &Costs, unit: u8, ready: u32) -> u32
        requires unit { unit < 16 }
        requires ready { ready ≤ 2 ^ 30 }
        ensures cycle { result
            ≡ next_cycle costs.now.width unit (max (start_of self.now) ready)
            (issued self.now.pushes) }
        ensures may_issue { MayIssue costs.now.width unit (max (start_of self.now) ready)
            (issued self.now.pushes) result }
        ensures least { (cycle : ℕ)
            → MayIssue costs.now.width unit (max (start_of self.now) ready)
            (issued self.now.pushes) cycle
            → result ≤ cycle }
        ensures fits { result ≤ 2 ^ 30 + 256 * self.now.room }
        ensures within { (limit : ℕ) → IsFreeBy limit (issued self.now.pushes) → ready ≤ limit
            → result ≤ limit }
    {
        let width = costs.width();
        let ready = self.start().max(ready);
        self.tally().next_cycle(width, unit, ready)
    }

    /// How many cycles the items take: one more than the cycle of the last, and 0 where there is
    /// none. They are counted from the first cycle of the first pass.
    pub fn cycles(&self) -> u32
        ensures cycles { result ≡ cycle_count (issued self.now.pushes) }
        ensures fits { result ≤ 2 ^ 30 + 256 * self.now.room }
    {
        self.cycles_of_first(self.len())
    }

    /// How many items were issued, at most 131072.
    pub fn len(&self) -> usize
        ensures len { result ≡ length self.now.pushes }
        ensures few { result ≤ self.now.room }
        ensures room { self.now.room ≤ 131072 }
    {
        self.entries.len()
    }

    /// Was a break made, and no push since?
    fn is_at_break(&self) -> bool
        ensures { result ≡ is_at_break self.now }
    {
        match self.pass {
            Some(place) => place == self.entries.len(),
            None => false,
        }
    }

    /// From which cycle on one more item is issued.
    #[tactic(auto, unfolding(crate::specs::Timeline::start_from))]
    fn start(&self) -> u32
        ensures start { result ≡ start_of self.now }
        ensures fits { result ≤ 2 ^ 30 + 256 * length self.now.pushes }
        ensures within { (limit : ℕ) → IsFreeBy limit (issued self.now.pushes)
            → result ≤ limit }
    {
        match self.pass {
            Some(place) => self.cycles_of_first(place),
            None => 0,
        }
    }

    /// How many cycles the first items take, of which there are so many.
    fn cycles_of_first(&self, count: usize) -> u32
        requires { count ≤ length self.now.pushes }
        ensures cycles { result ≡ cycle_count (issued (take count self.now.pushes)) }
        ensures fits { result ≤ 2 ^ 30 + 256 * count }
    {
        if count == 0 {
            return 0;
        }
        self.tally_of_first(count).cycle + 1
    }

    /// The tally of all items.
    fn tally(&self) -> Tally
        ensures tally { Tallies (issued self.now.pushes) result }
        ensures few { length self.now.pushes ≤ self.now.room }
        ensures small { self.now.room ≤ 131072 }
        ensures free_by { IsFreeBy (2 ^ 30 + 256 * length self.now.pushes)
            (issued self.now.pushes) }
    {
        self.tally_of_first(self.len())
    }

    /// The tally of the first items, of which there are so many.
    fn tally_of_first(&self, count: usize) -> Tally
        requires { count ≤ length self.now.pushes }
        ensures tally { Tallies (issued (take count self.now.pushes)) result }
        ensures few { count ≤ 131072 }
        ensures free_by { IsFreeBy (2 ^ 30 + 256 * count)
            (issued (take count self.now.pushes)) }
    {
        let entries = &self.entries;
        if count == 0 {
            return Tally::start();
        }
        entries[count - 1].tally
    }
}
