//! Numbers of symbolic registers.
ghost use Rattle.std.specs.Prelude.{◌<◌, ◌≤◌, ◌+◌, length};
ghost use Rattle.sl_isa.specs.SymbolViews.{pairs};

use sample_set::Failing;
use sl_isa::{Bank, Symbols};
use std::alloc::{AllocError, Global};

#[test]
fn each_pair_of_bank_and_name_has_its_number(rt: HostRuntime) -> Failing {
    let alloc = rt.alloc();
    let mut failing = Failing::new(alloc);
    let mut symbols = Symbols::new(alloc);
    let first = symbols.number(alloc, Bank::General, "a");
    let second = symbols.number(alloc, Bank::Vector, "a");
    let third = symbols.number(alloc, Bank::General, "A");
    let again = symbols.number(alloc, Bank::Vector, "a");
    failing.check("the first pair", first == Ok(0));
    failing.check("another bank", second == Ok(1));
    failing.check("another letter", third == Ok(2));
    failing.check("a pair again", again == Ok(1));
    failing.check("the last name", symbols.name(2) == Some("A"));
    failing.check("no name", symbols.name(3) == None);
    failing.check("a known pair", symbols.known(Bank::Vector, "a") == Some(1));
    failing.check("no known pair", symbols.known(Bank::Vector, "A") == None);
    failing.check("three pairs", symbols.count() == 3);
    symbols.truncate(2);
    failing.check("two pairs", symbols.count() == 2);
    failing.check("a forgotten name", symbols.name(2) == None);
    failing
}

/// Does the name of a number have this number?
fn is_numbered(alloc: Global, symbols: &mut Symbols, number: u16) -> Result<bool, AllocError>
    requires { length (pairs symbols.old) < 65536 }
    ensures { length (pairs symbols.new) ≤ length (pairs symbols.old) + 1 }
{
    let name = format!(in alloc; "n{number}")?;
    Ok(symbols.number(alloc, Bank::General, name.as_str()) == Ok(number))
}

// With memory at hand each new name has the next number, also past 1024 of them.
#[test]
fn names_are_numbered_one_after_the_other(rt: HostRuntime) -> Failing {
    let mut failing = Failing::new(rt.alloc());
    let mut symbols = Symbols::new(rt.alloc());
    for number in 0..1030u16 {
        let is_next = is_numbered(rt.alloc(), &mut symbols, number);
        failing.check_number(usize::from(number), is_next == Ok(true));
    }
    failing.check("the last name", symbols.name(1029) == Some("n1029"));
    let is_old = is_numbered(rt.alloc(), &mut symbols, 64);
    failing.check("an old name", is_old == Ok(true));
    failing
}
