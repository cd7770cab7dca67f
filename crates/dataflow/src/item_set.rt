//! Sets of items.
ghost use Rattle.std.specs.Prelude.{◌≡◌, ◌==◌, ◌<◌, ◌^◌, [], filter, bit_or, IfOk};
ghost use Rattle.std.specs.Int.{bit_at};
ghost use Rattle.sl_model.specs.Source.{numbers_below};
ghost use Rattle.sl_model.specs.Body.{stands_in};
ghost use Rattle.sl_model.specs.declared.limits.TheConstants.{SET_ITEMS};
ghost use Rattle.dataflow.specs.ItemSets.{has_bit, members, with_item};

use sl_base::NoMemory;
use sl_model::limits::SET_ITEMS;
use std::alloc::{AllocError, Global};
use std::marker::Model;

/// A set of items, whose numbers are below [`SET_ITEMS`]: a bit for each.
#[derive(Drop)]
pub struct ItemSet {
    low: u64,
    middle: u64,
    high: u64,
}

impl Model for ItemSet {
    ghost use Rattle.std.specs.Prelude.{ℕ, List};
    ghost use Rattle.dataflow.specs.ItemSets.{members};

    ghost Value = { List ℕ };

    ghost view = { λ a. members a.low a.middle a.high };
}

impl ItemSet {
    /// The empty set.
    pub fn new() -> ItemSet
        ensures { result ≡ [] }
    {
        ItemSet {
            low: 0,
            middle: 0,
            high: 0,
        }
    }

    /// Is an item in the set?
    pub fn contains(&self, item: u16) -> bool
        ensures { result ≡ stands_in item self.now }
    {
        is_member(self.low, self.middle, self.high, item)
    }

    /// Puts an item into the set.
    pub fn insert(&mut self, item: u16)
        requires { item < SET_ITEMS }
        ensures { self.new ≡ with_item item self.old }
    {
        if item < 64 {
            self.low = with_bit(self.low, item);
        } else if item < 128 {
            self.middle = with_bit(self.middle, item - 64);
        } else {
            self.high = with_bit(self.high, item - 128);
        }
    }

    /// Each member is below the limit, and stands once, in its place.
    pub fn is_ascending(&self)
        ensures { self.now ≡ filter (λ p. stands_in p self.now) (numbers_below SET_ITEMS) }
    {
        // A look at the bits is all that the proof needs.
        let _ = is_member(self.low, self.middle, self.high, 0);
    }

    /// An equal set.
    pub fn copy(&self) -> ItemSet
        ensures { result ≡ self.now }
    {
        ItemSet {
            low: self.low,
            middle: self.middle,
            high: self.high,
        }
    }
}

// Is an item among those whose bits are set in three words?
fn is_member(low: u64, middle: u64, high: u64, item: u16) -> bool
    ensures { result ≡ stands_in item (members low middle high) }
{
    if usize::from(item) >= SET_ITEMS {
        return false;
    }
    has_bit(low, middle, high, item)
}

// Is the bit of an item set in three words?
#[tactic(auto, unfolding(crate::specs::ItemSets::has_bit))]
fn has_bit(low: u64, middle: u64, high: u64, item: u16) -> bool
    requires { item < SET_ITEMS }
    ensures { result ≡ has_bit low middle high item }
{
    if item < 64 {
        return is_set(low, item);
    }
    if item < 128 {
        return is_set(middle, item - 64);
    }
    is_set(high, item - 128)
}

// Is a bit of a word set?
fn is_set(word: u64, place: u16) -> bool
    requires { place < 64 }
    ensures { result ≡ (bit_at word place == 1) }
{
    (word >> place) % 2 == 1
}

// A word with a bit set.
fn with_bit(word: u64, place: u16) -> u64
    requires { place < 64 }
    ensures { result ≡ bit_or (2 ^ place) word }
{
    (1 << place) | word
}

// Equal sets.
pub(crate) fn copies(alloc: Global, sets: &[ItemSet]) -> Result<Vec<ItemSet>, NoMemory>
    ensures { IfOk result (λ all. all.items ≡ sets.now) }
{
    let mut all = Vec::new(alloc);
    for set in sets {
        all.push(set.copy()).map_err(AllocError::from)?;
    }
    Ok(all)
}
