//! The names of symbolic registers.
ghost use Rattle.std.specs.Prelude.{◌≡◌, ◌<◌, ◌≤◌, ◌+◌, ⊤, true, false, [], map, length, take, slice_get, OnOk, OnErr, IfOk, MatchOption, None, Some};
ghost use Rattle.sl_isa.specs.Symbols as spec;
ghost use Rattle.sl_isa.specs.SymbolViews.{pair_of, pairs};

use crate::Bank;
use sl_base::NoMemory;
use std::alloc::Global;

/// A name of a bank.
#[derive(Drop)]
pub struct Symbol {
    pub(crate) bank: Bank,
    pub(crate) name: String,
}

/// The names of symbolic registers, each with its bank and the number of its place.
#[derive(Drop)]
pub struct Symbols {
    pub(crate) list: Vec<Symbol>,
}

// Whether a symbol is this pair of bank and name.
fn is_pair(bank: Bank, name: &str, symbol: &Symbol) -> bool
    ensures { result ≡ spec.is_pair bank name.now (pair_of symbol.now) }
{
    if symbol.bank == bank {
        return symbol.name.as_str() == name;
    }
    false
}

// The place of a pair, counted from `first` on.
#[tactic(auto, unfolding(crate::specs::Symbols::place_from, crate::specs::Symbols::has_pair))]
fn place_from(first: usize, bank: Bank, name: &str, symbols: &[Symbol]) -> Option<usize>
    requires { first + length symbols.now < 131072 }
    ensures found { MatchOption result
        (spec.has_pair bank name.now (map pair_of symbols.now) ≡ false)
        (λ place. (spec.has_pair bank name.now (map pair_of symbols.now) ≡ true)
        × (place ≡ spec.place_from first bank name.now (map pair_of symbols.now))
        × (place < first + length symbols.now)) }
    ensures behind { MatchOption result
        (spec.place_from first bank name.now (map pair_of symbols.now) ≡ first + length symbols.now)
        (λ place. ⊤) }
{
    let Some((symbol, symbols)) = symbols.split_first() else {
        return None;
    };
    if is_pair(bank, name, symbol) {
        return Some(first);
    }
    place_from(first + 1, bank, name, symbols)
}

impl Symbols {
    /// No names.
    pub fn new(alloc: Global) -> Symbols
        ensures { pairs result ≡ [] }
    {
        Symbols {
            list: Vec::new(alloc),
        }
    }

    /// The number of a pair of bank and name: the same one each time. After
    /// `NoMemory` nothing has changed.
    #[tactic(auto, unfolding(crate::specs::Symbols::with_pair))]
    pub fn number(&mut self, alloc: Global, bank: Bank, name: &str) -> Result<u16, NoMemory>
        requires { length (pairs self.old) < 65536 }
        ensures number { IfOk result (λ n. n ≡ spec.number_of bank name.now (pairs self.old)) }
        ensures ok { OnOk result (pairs self.new ≡ spec.with_pair bank name.now (pairs self.old)) }
        ensures err { OnErr result (pairs self.new ≡ pairs self.old) }
        ensures count { length (pairs self.new) ≤ length (pairs self.old) + 1 }
        ensures front { take (length (pairs self.old)) (pairs self.new) ≡ pairs self.old }
    {
        if let Some(place) = place_from(0, bank, name, &self.list) {
            return Ok(place as u16);
        }
        let place = self.list.len() as u16;
        let Ok(name) = String::from_str(alloc, name) else {
            return Err(NoMemory);
        };
        if self.list.push(Symbol { bank, name }).is_err() {
            return Err(NoMemory);
        }
        Ok(place)
    }

    /// The number of a pair of bank and name that was numbered before.
    pub fn known(&self, bank: Bank, name: &str) -> Option<u16>
        requires { length (pairs self.now) ≤ 65536 }
        ensures { MatchOption result (spec.has_pair bank name.now (pairs self.now) ≡ false)
            (λ n. (spec.has_pair bank name.now (pairs self.now) ≡ true)
            × (n ≡ spec.number_of bank name.now (pairs self.now))) }
    {
        let place = place_from(0, bank, name, &self.list)?;
        Some(place as u16)
    }

    /// How many pairs were numbered.
    pub fn count(&self) -> usize
        ensures { result ≡ length (pairs self.now) }
    {
        self.list.len()
    }

    /// Leaves the first `count` pairs alone, and forgets those behind them.
    pub fn truncate(&mut self, count: usize)
        ensures { pairs self.new ≡ take count (pairs self.old) }
    {
        self.list.truncate(count);
    }

    /// The name with a number.
    pub fn name(&self, number: u16) -> Option<&str>
        ensures { MatchOption result (slice_get (pairs self.now) number ≡ None)
            (λ name. MatchOption (slice_get (pairs self.now) number) ⊥
            (λ pair. pair.1 ≡ name.now)) }
    {
        let symbol = self.list.get(usize::from(number))?;
        Some(symbol.name.as_str())
    }
}
