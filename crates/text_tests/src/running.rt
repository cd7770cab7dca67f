//! What instructions do to states, with values of an A64 machine.
ghost use Rattle.std.specs.Prelude.{◌≡◌, IfOk};
ghost use Rattle.std.specs.List.{AllByRecursion};
ghost use Rattle.sl_model.specs.Lawful.{IsValid};
ghost use Rattle.sl_model.specs.declared.register.Bank.TheVariants.{General};
ghost use Rattle.machine_sem.specs.Fits.{Fits};
ghost use Rattle.sample_set.specs.FewForms.{few};

use machine_sem::{NoMemory, State, run_list, step};
use sample_set::{Failing, FewForms, example};
use sl_isa::{Bank, Instr, Reg};
use std::alloc::{AllocError, Global};

fn register(bank: Bank, symbolic: bool, number: u16) -> Reg
    ensures { result.bank ≡ bank }
{
    Reg {
        bank,
        symbolic,
        number,
    }
}

fn x(number: u16) -> Reg
    ensures { result.bank ≡ General }
{
    register(Bank::General, false, number)
}

/// Registers with the values that they are given one after the other, none of which they have before.
const VALUES: [(&str, Bank, bool, u16, u128); 6] = [
    ("x1", Bank::General, false, 1, 7),
    ("a symbolic register", Bank::General, true, 1, 8),
    ("v1", Bank::Vector, false, 1, u128::MAX),
    ("the flags", Bank::Flags, false, 0, 15),
    ("sp", Bank::Stack, false, 0, 9),
    ("x1 again", Bank::General, false, 1, 10),
];

/// Does a register have another value before it gets this one, and then this one?
fn is_set(state: &mut State, reg: Reg, value: u128) -> bool {
    state.reg(reg) != value && state.set_reg(reg, value).is_ok() && state.reg(reg) == value
}

/// Does an address have this byte once it gets it?
fn is_put(state: &mut State, address: u64, byte: u8) -> bool {
    state.set_byte(address, byte).is_ok() && state.byte(address) == byte
}

// What was set is read, each register apart; the zero register and what was never set read 0.
#[test]
fn what_was_set_is_read(rt: HostRuntime) -> Failing {
    let mut failing = Failing::new(rt.alloc());
    let mut state = State::new(rt.alloc());
    for (name, bank, symbolic, number, value) in &VALUES {
        let reg = register(*bank, *symbolic, *number);
        failing.check(name, is_set(&mut state, reg, *value));
    }
    failing.check("a byte", is_put(&mut state, u64::MAX, 5));
    failing.check("the byte again", is_put(&mut state, u64::MAX, 6));
    failing.check("no byte", state.byte(0) == 0);
    let symbolic = register(Bank::General, true, 1);
    failing.check("the symbolic register still", state.reg(symbolic) == 8);
    failing.check("the zero register", state.reg(x(31)) == 0);
    failing
}

// A state with values in x1 and x2.
fn start(alloc: Global, left: u64, right: u64) -> Result<State, NoMemory>
    ensures { IfOk result (λ s. Fits few.isa s) }
{
    let mut state = State::new(alloc);
    state.set_reg(x(1), u128::from(left))?;
    state.set_reg(x(2), u128::from(right))?;
    Ok(state)
}

/// A name, a form with its number, the values of x1 and x2, and those of x3 and the flags behind it.
type Case = (&'static str, (u16, u8), (u64, u64), (u64, u128));

/// The examples write x3, and `subs` the flags; the load has nothing to find. The values are those of an A64 machine.
const CASES: [Case; 9] = [
    ("add", (0, 0), (u64::MAX, 2), (1, 0)),
    ("sub", (1, 0), (1, 2), (u64::MAX, 0)),
    ("eor", (2, 0), (12, 10), (6, 0)),
    ("sub of a number", (3, 3), (2, 0), (u64::MAX, 0)),
    ("subs to zero", (4, 1), (1, 0), (0, 6)),
    ("subs below zero", (4, 1), (0, 0), (u64::MAX, 8)),
    (
        "subs of the least",
        (4, 1),
        (1 << 63, 0),
        ((1 << 63) - 1, 3),
    ),
    ("lsr", (5, 3), (80, 0), (10, 0)),
    ("a load of nothing", (6, 1), (80, 0), (0, 0)),
];

/// Does a case leave its values, and x1 as it was?
fn is_right(alloc: Global, case: &Case) -> Result<bool, NoMemory> {
    let (_, (form, number), (left, right), (value, flags)) = *case;
    let mut state = start(alloc, left, right)?;
    if 8 <= form || 64 <= number {
        return Ok(false);
    }
    step(&FewForms, &example(form, number), &mut state)?;
    let is_first_left = state.reg(x(1)) == u128::from(left);
    let has_flags = state.reg(register(Bank::Flags, false, 0)) == flags;
    Ok(is_first_left && has_flags && state.reg(x(3)) == u128::from(value))
}

#[test]
fn values_and_flags(rt: HostRuntime) -> Failing {
    let mut failing = Failing::new(rt.alloc());
    for case in &CASES {
        failing.check(case.0, is_right(rt.alloc(), case) == Ok(true));
    }
    failing
}

/// What is left by a store at the last address, and a load of it: the bytes, the base and the value.
fn stored_and_loaded(alloc: Global) -> Result<(u8, u8, u128, u128), NoMemory> {
    let mut state = start(alloc, u64::MAX - 4, u64::MAX)?;
    run_list(&FewForms, &[example(7, 3), example(6, 4)], &mut state)?;
    let (low, high) = (state.byte(u64::MAX), state.byte(0));
    Ok((low, high, state.reg(x(2)), state.reg(x(3))))
}

// A store at the last address puts its second byte at address 0, and moves its base on; a load finds
// both, the low byte first.
#[test]
fn a_store_and_a_load(rt: HostRuntime) -> Failing {
    let mut failing = Failing::new(rt.alloc());
    let found = stored_and_loaded(rt.alloc());
    failing.check("both", found == Ok((0xfb, 0xff, 2, 0xfffb)));
    failing
}

/// A state of 10000 registers and as many bytes.
fn large_state(alloc: Global) -> Result<State, NoMemory> {
    let mut state = State::new(alloc);
    for number in 0..10000u16 {
        state.set_reg(register(Bank::General, true, number), u128::from(number))?;
        state.set_byte(u64::from(number) << 7, (number % 251) as u8)?;
    }
    Ok(state)
}

/// Two registers of a large state, a byte, and how many bytes it has.
fn read_of_large(alloc: Global) -> Result<(u128, u128, u8, usize), NoMemory> {
    let state = large_state(alloc)?;
    let last = state.reg(register(Bank::General, true, 9999));
    let other = state.reg(register(Bank::General, true, 64));
    Ok((last, other, state.byte(65 << 7), state.bytes().count()))
}

// With memory at hand a state takes as many registers and bytes as there are.
#[test]
fn a_state_has_room(rt: HostRuntime) -> Failing {
    let mut failing = Failing::new(rt.alloc());
    let found = read_of_large(rt.alloc());
    failing.check("a large state", found == Ok((9999, 64, 65, 10000)));
    failing
}

/// An instruction so many times.
pub fn repeated(alloc: Global, item: Instr, count: usize) -> Result<Vec<Instr>, AllocError>
    requires { IsValid few.isa item }
    ensures { IfOk result (λ items. AllByRecursion (IsValid few.isa) items.items) }
{
    let items = vec![in alloc; item; count]?;
    Ok(items)
}

/// Do so many stores, which each move x2 on by 2, leave twice as many bytes and move it as far?
fn are_run(alloc: Global, count: usize) -> Result<bool, NoMemory> {
    let mut state = start(alloc, 0x3412, 0)?;
    let items = repeated(alloc, example(7, 2), count)?;
    run_list(&FewForms, &items, &mut state)?;
    Ok(state.bytes().count() / 2 == count && state.reg(x(2)) / 2 == count as u128)
}

// Lists of stores are run, however long.
#[test]
fn lists_of_any_length_are_run(rt: HostRuntime) -> Failing {
    let mut failing = Failing::new(rt.alloc());
    for count in &[0, 1, 32, 33, 48, 49, 64, 65, 257, 4097] {
        failing.check_number(*count, are_run(rt.alloc(), *count) == Ok(true));
    }
    failing
}
