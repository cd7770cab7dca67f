//! What instructions of AArch64 compute.
ghost use Rattle.std.specs.Prelude.{◌<◌};
ghost use Rattle.machine_sem.specs.Fits.{Fits};
ghost use Rattle.arm64_table.specs.Arm64.{arm64};
ghost use Rattle.sl_model.specs.Machine.{limit_of};

use crate::access_rows;
use crate::reading::instr_of;
use crate::result_rows::{PARTS, ROWS};
use crate::rows::{number_of, numbers_of};
use crate::walk::{Tested, walk_all};
use arm64_table::Arm64;
use machine_sem::{State, step};
use sample_set::Failing;
use sl_isa::{Bank, Instr, Reg};
use std::alloc::{AllocError, Global};

/// The greatest value of a register.
fn most_in(bank: Bank) -> u128
    ensures { result < limit_of arm64.isa.name bank }
{
    match bank {
        Bank::General => 0xffff_ffff_ffff_ffff,
        Bank::Vector => u128::MAX,
        Bank::Flags => 15,
        Bank::Stack => 0xffff_ffff_ffff_ffff,
    }
}

/// Gives a register a value; says whether it has it.
fn put(state: &mut State, reg: Reg, value: u128) -> bool
    requires { Fits arm64.isa state.old }
    ensures { Fits arm64.isa state.new }
{
    if most_in(reg.bank) < value {
        return false;
    }
    state.set_reg(reg, value).is_ok()
}

/// Gives registers values, one after the other; says whether all have them.
fn put_all(state: &mut State, regs: &[Option<Reg>], values: &[u128]) -> bool
    requires { Fits arm64.isa state.old }
    ensures { Fits arm64.isa state.new }
{
    let Some((first, regs)) = regs.split_first() else {
        return true;
    };
    let Some((value, values)) = values.split_first() else {
        return true;
    };
    match first {
        Some(reg) => put(state, *reg, *value) && put_all(state, regs, values),
        None => true,
    }
}

/// Puts a byte in memory; says whether it is there.
fn put_byte(state: &mut State, address: u64, value: u8) -> bool
    requires { Fits arm64.isa state.old }
    ensures { Fits arm64.isa state.new }
{
    state.set_byte(address, value).is_ok()
}

/// Puts the low bytes of a number in memory, so many, the lowest first; says whether all are there.
fn put_bytes(state: &mut State, address: u64, count: u8, value: u128) -> bool
    requires { Fits arm64.isa state.old }
    ensures { Fits arm64.isa state.new }
{
    if count == 0 {
        return true;
    }
    put_byte(state, address, (value % 256) as u8)
        && put_bytes(state, address.wrapping_add(1), count - 1, value / 256)
}

/// Puts numbers of 16 bytes in memory, one behind the other; says whether all are there.
fn put_words(state: &mut State, address: u64, words: &[u128]) -> bool
    requires { Fits arm64.isa state.old }
    ensures { Fits arm64.isa state.new }
{
    let Some((word, words)) = words.split_first() else {
        return true;
    };
    put_bytes(state, address, 16, *word) && put_words(state, address.wrapping_add(16), words)
}

/// The number of 16 bytes at an address.
fn word_at(state: &State, address: u64) -> u128 {
    let mut word: u128 = 0;
    for place in (0..16u64).rev() {
        word = (word << 8) | u128::from(state.byte(address.wrapping_add(place)));
    }
    word
}

/// The values of some registers, and 0 in the places of others.
fn values_in(state: &State, regs: &[Option<Reg>; 3]) -> [u128; 3] {
    let [first, second, third] = *regs;
    [first, second, third].map(|reg| match reg {
        Some(reg) => state.reg(reg),
        None => 0,
    })
}

/// The values of registers, and the bytes around an access as three numbers.
#[derive(Clone, Copy)]
struct Values {
    regs: [u128; 4],
    bytes: [u128; 3],
}

/// What an instruction gives whose operands have these values, where these bytes stand from an address on.
fn results_of(
    alloc: Global,
    text: &str,
    address: u64,
    before: &Values,
) -> Result<Values, AllocError> {
    let Ok(instr) = instr_of(alloc, text) else {
        return Err(AllocError);
    };
    let mut state = State::new(alloc);
    if put_all(&mut state, &instr.ins, &before.regs)
        && put_words(&mut state, address, &before.bytes)
        && step(&Arm64, &instr, &mut state).is_ok()
    {
        let [first, second, third] = values_in(&state, &instr.outs);
        return Ok(Values {
            regs: [first, second, third, 0],
            bytes: [0, 16, 32].map(|place| word_at(&state, address.wrapping_add(place))),
        });
    }
    Err(AllocError)
}

/// The values in a text: of registers and, behind `@`, bytes; where there are none, these.
fn values_of(text: &str, bytes: [u128; 3]) -> Values {
    let mut values = Values {
        regs: [0; 4],
        bytes,
    };
    let Some((regs, bytes)) = text.split_once(" @ ") else {
        numbers_of(text, &mut values.regs);
        return values;
    };
    numbers_of(regs, &mut values.regs);
    numbers_of(bytes, &mut values.bytes);
    values
}

/// Does a line say what an instruction gives?
fn is_right(alloc: Global, text: &str, values: &str) -> bool {
    let Some((before, after)) = values.split_once(" -> ") else {
        return false;
    };
    let (address, before) = before.split_once(": ").unwrap_or(("0", before));
    let address = (number_of(address) % (1 << 64)) as u64;
    let before = values_of(before, [0; 3]);
    let wanted = values_of(after, before.bytes);
    match results_of(alloc, text, address, &before) {
        Ok(found) => found.regs == wanted.regs && found.bytes == wanted.bytes,
        Err(AllocError) => false,
    }
}

/// An instruction with its operands' values, and what it gives.
struct Results;

impl Tested for Results {
    fn try_line(&self, alloc: Global, line: &str, failing: &mut Failing) {
        let (text, values) = line.split_once(" => ").unwrap_or((line, ""));
        failing.check(line, is_right(alloc, text, values));
    }
}

#[test]
fn instructions_compute_what_an_emulator_does(rt: HostRuntime) -> Failing {
    walk_all(&Results, rt.alloc(), &PARTS, ROWS)
}

#[test]
fn accesses_do_what_an_emulator_does(rt: HostRuntime) -> Failing {
    walk_all(&Results, rt.alloc(), &access_rows::PARTS, access_rows::ROWS)
}
