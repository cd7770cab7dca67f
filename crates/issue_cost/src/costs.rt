//! What items cost on a core.
ghost use Rattle.std.specs.Prelude.{◌≡◌, ℕ, ◌==◌, ◌&&◌, ◌<◌, ◌≤◌, length, IfOk, IsTrue};
ghost use Rattle.sl_model.specs.Cycles.{row_of, ready_after, forward_or, is_place};
ghost use Rattle.issue_cost.specs.Sound.{IsSound, is_sound_row};

use sl_base::NoMemory;
use sl_model::schedule::{CostRow, Forward};
use std::alloc::Global;
use std::marker::Model;

/// What a core tells of the items of a list: a row for each item, and the forwards.
#[derive(Drop)]
pub struct Costs {
    width: u8,
    rows: Vec<CostRow>,
    forwards: Vec<Forward>,
}

impl Model for Costs {
    ghost use Rattle.sl_model.specs.Cycles.{CostTable};
    ghost use Rattle.issue_cost.specs.Sound.{IsSound};

    ghost Value = { CostTable };

    ghost view = { λ a. record {
      width = a.width;
      rows = a.rows.items;
      forwards = a.forwards.items;
    } };

    ghost invariant = { λ a. IsSound
        (record { width = a.width; rows = a.rows.items; forwards = a.forwards.items }) };
}

impl Costs {
    /// Keeps a core's width, from 1 to 8 items in a cycle, a row for each item, and the forwards.
    /// Each row has a unit, and each number of cycles is at least 1. Of forwards for the same
    /// classes and operand the first counts.
    pub fn new(
        alloc: Global,
        width: u8,
        rows: &[CostRow],
        forwards: &[Forward],
    ) -> Result<Costs, NoMemory>
        requires { IsSound (record { width = width; rows = rows.now; forwards = forwards.now }) }
        ensures { IfOk result
            (λ costs. costs ≡ record { width = width; rows = rows.now; forwards = forwards.now }) }
    {
        let rows = Vec::from_slice(alloc, rows)?;
        let forwards = Vec::from_slice(alloc, forwards)?;
        Ok(Costs {
            width,
            rows,
            forwards,
        })
    }

    /// Equal costs.
    pub fn copy(&self, alloc: Global) -> Result<Costs, NoMemory>
        ensures { IfOk result (λ costs. costs ≡ self.now) }
    {
        Costs::new(alloc, self.width, &self.rows, &self.forwards)
    }

    /// How many items are issued in a cycle at most, from 1 to 8.
    pub fn width(&self) -> u8
        ensures width { result ≡ self.now.width }
        ensures least { 1 ≤ result }
        ensures most { result ≤ 8 }
    {
        self.width
    }

    /// The units that take an item, of which there is one: bit u for unit u.
    pub fn units(&self, item: u16) -> u16
        requires { item < length self.now.rows }
        ensures units { result ≡ (row_of self.now item).units }
        ensures least { 1 ≤ result }
    {
        self.row(item).units
    }

    /// How many cycles an item keeps its unit, from 1 to 255.
    pub fn busy(&self, item: u16) -> u32
        requires { item < length self.now.rows }
        ensures busy { result ≡ (row_of self.now item).busy }
        ensures least { 1 ≤ result }
        ensures most { result ≤ 255 }
    {
        u32::from(self.row(item).busy)
    }

    /// After how many cycles the output at a place of one item is ready for an operand of another,
    /// from 1 to 255: the `writeback` of the first for its written-back base, else the latency of
    /// the forward for the two classes and the operand, else the `latency` of the first.
    #[tactic(auto, unfolding(sl_model::specs::Cycles::ready_after))]
    pub fn ready_after(&self, from: u16, place: u8, to: u16, operand: u8) -> u32
        requires from_has_a_row { from < length self.now.rows }
        requires to_has_a_row { to < length self.now.rows }
        ensures ready { result ≡ ready_after self.now from place to operand }
        ensures least { 1 ≤ result }
        ensures most { result ≤ 255 }
    {
        let row = self.row(from);
        if is_back(&row, place) {
            return u32::from(row.writeback);
        }
        let class = self.row(to).class;
        u32::from(forward_or(&self.forwards, row.class, class, operand, row.latency))
    }

    /// The row of an item.
    fn row(&self, item: u16) -> CostRow
        requires { item < length self.now.rows }
        ensures row { result ≡ row_of self.now item }
        ensures sound { IsTrue (is_sound_row result) }
    {
        self.rows[usize::from(item)]
    }
}

/// Is the output at a place the written-back base?
fn is_back(row: &CostRow, place: u8) -> bool
    ensures { result ≡ is_place row.now.back place }
{
    match row.back {
        Some(back) => back == place,
        None => false,
    }
}

/// Is a forward for two classes and an operand of the second?
fn is_between(forward: &Forward, from: u8, to: u8, operand: u8) -> bool
    ensures { result ≡ (forward.now.from == from
        && (forward.now.to == to && forward.now.operand == operand)) }
{
    forward.from == from && forward.to == to && forward.operand == operand
}

/// The latency of the first forward for two classes and an operand of the
/// second, or else the given one.
#[tactic(auto, unfolding(sl_model::specs::Cycles::forward_or))]
fn forward_or(forwards: &[Forward], from: u8, to: u8, operand: u8, latency: u8) -> u8
    ensures { result ≡ forward_or forwards.now from to operand latency }
{
    for forward in forwards {
        if is_between(forward, from, to, operand) {
            return forward.latency;
        }
    }
    latency
}
