//! How Armv7E-M reads and prints its instructions, what they cost and what they compute.
ghost use Rattle.std.specs.Prelude.{◌<◌, ◌≤◌, ◌+◌, length, IfOk};
ghost use Rattle.machine_sem.specs.Fits.{Fits};
ghost use Rattle.m4_table.specs.M4.{m4};
ghost use Rattle.sl_model.specs.Lawful.{IsValid};
ghost use Rattle.sl_model.specs.Machine.{limit_of};
ghost use Rattle.sl_isa.specs.SymbolViews.{pairs};
ghost use Rattle.sl_isa.specs.Language.{IsNamed};

use crate::m4_rows::{GIVEN_PARTS, GIVEN_ROWS, REFUSED_PARTS, REFUSED_ROWS};
use crate::reading::{reason_name, text_from};
use crate::rows::numbers_of;
use crate::walk::{Tested, walk_all};
use m4_table::M4;
use machine_sem::{State, step};
use sample_set::Failing;
use sl_isa::{Arch, Bank, FormErr, Instr, Reg, Symbols};
use sl_text::{Comments, Line, Token, tokens};
use std::alloc::{AllocError, Global};

/// The address of the bytes in memory.
const ADDRESS: u32 = 0x1000;

/// The classes in the order of their numbers.
const CLASSES: [&str; 7] = ["alu", "alus", "mul", "simd", "load", "store", "fmove"];

/// The instruction that tokens spell.
fn read(alloc: Global, words: &[Token<'_>], symbols: &mut Symbols) -> Result<Instr, FormErr>
    requires { length (pairs symbols.old) ≤ 65529 }
    ensures valid { IfOk result (λ i. IsValid m4.isa i) }
    ensures named { IfOk result (λ i. IsNamed (pairs symbols.new) i) }
{
    M4.read_form(alloc, words, symbols)
}

/// The instruction that a text of fewer than 1024 bytes spells.
fn instr_of(alloc: Global, text: &str, symbols: &mut Symbols) -> Result<Instr, FormErr>
    requires { length (pairs symbols.old) ≤ 65529 }
    ensures valid { IfOk result (λ i. IsValid m4.isa i) }
    ensures named { IfOk result (λ i. IsNamed (pairs symbols.new) i) }
{
    let mut words = Vec::new(alloc);
    if text.len() < 1024 {
        for token in tokens(Line { number: 1, text }, Comments::SlashAt, false) {
            if words.push(token).is_err() {
                return Err(FormErr::NoMemory);
            }
        }
    }
    read(alloc, &words, symbols)
}

/// How a spelling is printed, or the reason why it is refused.
fn answer_to(alloc: Global, text: &str) -> Result<String, AllocError> {
    let mut symbols = Symbols::new(alloc);
    match instr_of(alloc, text, &mut symbols) {
        Ok(instr) => {
            let mut out = Vec::new(alloc);
            if M4.print_form(&instr, &symbols, &mut out).is_err() {
                return Err(AllocError);
            }
            text_from(alloc, &out)
        }
        Err(FormErr::NoMemory) => Err(AllocError),
        Err(FormErr::Refused(reason)) => String::from_str(alloc, reason_name(reason)),
    }
}

/// The name of an instruction's class.
fn class_of(instr: &Instr) -> &'static str
    requires { IsValid m4.isa instr.now }
{
    let class = usize::from(M4.info(instr.form).class);
    if class < 7 {
        return CLASSES[class];
    }
    "none"
}

/// The greatest value of a register.
fn most_in(bank: Bank) -> u128
    ensures { result < limit_of m4.isa.name bank }
{
    match bank {
        Bank::General | Bank::Vector | Bank::Stack => 0xffff_ffff,
        Bank::Flags => 15,
    }
}

/// Gives a register a value; says whether it has it.
fn put(state: &mut State, reg: Reg, value: u128) -> bool
    requires { Fits m4.isa state.old }
    ensures { Fits m4.isa state.new }
{
    if most_in(reg.bank) < value {
        return false;
    }
    state.set_reg(reg, value).is_ok()
}

/// Gives registers values, one after the other; says whether all have them.
fn put_all(state: &mut State, regs: &[Option<Reg>], values: &[u128]) -> bool
    requires { Fits m4.isa state.old }
    ensures { Fits m4.isa state.new }
{
    let Some((first, regs)) = regs.split_first() else {
        return true;
    };
    let Some((value, values)) = values.split_first() else {
        return true;
    };
    match first {
        Some(reg) => put(state, *reg, *value) && put_all(state, regs, values),
        None => true,
    }
}

/// Puts a byte in memory; says whether it is there.
fn put_byte(state: &mut State, address: u32, value: u8) -> bool
    requires { Fits m4.isa state.old }
    ensures { Fits m4.isa state.new }
{
    state.set_byte(u64::from(address), value).is_ok()
}

/// Puts the low bytes of a number in memory, so many, the lowest first; says whether all are there.
fn put_bytes(state: &mut State, address: u32, count: u8, value: u128) -> bool
    requires { Fits m4.isa state.old }
    ensures { Fits m4.isa state.new }
{
    if count == 0 {
        return true;
    }
    put_byte(state, address, (value % 256) as u8)
        && put_bytes(state, address.wrapping_add(1), count - 1, value / 256)
}

/// The number of the 16 bytes in memory.
fn bytes_in(state: &State) -> u128 {
    let mut word: u128 = 0;
    for place in (0..16u64).rev() {
        word = (word << 8) | u128::from(state.byte(u64::from(ADDRESS).wrapping_add(place)));
    }
    word
}

/// The values of some registers, and 0 in the places of others.
fn values_in(state: &State, regs: &[Option<Reg>; 3]) -> [u128; 3] {
    let [first, second, third] = *regs;
    [first, second, third].map(|reg| match reg {
        Some(reg) => state.reg(reg),
        None => 0,
    })
}

/// The values of registers, and the bytes in memory.
#[derive(Clone, Copy)]
struct Values {
    regs: [u128; 4],
    bytes: u128,
}

/// The values in a text: of registers and, behind `@`, the bytes; where there are none, these.
fn values_of(text: &str, bytes: u128) -> Values {
    let mut values = Values {
        regs: [0; 4],
        bytes,
    };
    let Some((regs, word)) = text.split_once(" @ ") else {
        numbers_of(text, &mut values.regs);
        return values;
    };
    numbers_of(regs, &mut values.regs);
    let mut numbers = [0; 1];
    numbers_of(word, &mut numbers);
    values.bytes = numbers[0];
    values
}

/// What an instruction gives whose operands have these values.
fn results_of(alloc: Global, instr: &Instr, before: &Values) -> Result<Values, AllocError>
    requires { IsValid m4.isa instr.now }
{
    let mut state = State::new(alloc);
    if put_all(&mut state, &instr.ins, &before.regs)
        && put_bytes(&mut state, ADDRESS, 16, before.bytes)
        && step(&M4, instr, &mut state).is_ok()
    {
        let [first, second, third] = values_in(&state, &instr.outs);
        return Ok(Values {
            regs: [first, second, third, 0],
            bytes: bytes_in(&state),
        });
    }
    Err(AllocError)
}

/// Is an instruction of a class, and does it give what a text says?
fn is_right(alloc: Global, class: &str, text: &str, values: &str) -> bool {
    let mut symbols = Symbols::new(alloc);
    let Ok(instr) = instr_of(alloc, text, &mut symbols) else {
        return false;
    };
    let (before, after) = values.split_once(" -> ").unwrap_or((values, ""));
    let before = values_of(before, 0);
    let wanted = values_of(after, before.bytes);
    match results_of(alloc, &instr, &before) {
        Ok(found) => {
            class_of(&instr) == class && found.regs == wanted.regs && found.bytes == wanted.bytes
        }
        Err(AllocError) => false,
    }
}

/// An instruction with its class, its printed spelling, its operands' values and what it gives.
struct Given;

impl Tested for Given {
    fn try_line(&self, alloc: Global, line: &str, failing: &mut Failing) {
        let (class, rest) = line.split_once(" | ").unwrap_or((line, ""));
        let (text, rest) = rest.split_once(" | ").unwrap_or((rest, ""));
        let (printed, values) = rest.split_once(" | ").unwrap_or((rest, ""));
        failing.compare(text, answer_to(alloc, text), printed);
        failing.check(line, is_right(alloc, class, text, values));
    }
}

/// A spelling, and why it is refused.
struct Refused;

impl Tested for Refused {
    fn try_line(&self, alloc: Global, line: &str, failing: &mut Failing) {
        let (text, wanted) = line.split_once(" => ").unwrap_or((line, line));
        failing.compare(text, answer_to(alloc, text), wanted);
    }
}

#[test]
fn instructions_are_those_of_the_manual(rt: HostRuntime) -> Failing {
    walk_all(&Given, rt.alloc(), &GIVEN_PARTS, GIVEN_ROWS)
}

#[test]
fn other_spellings_are_refused(rt: HostRuntime) -> Failing {
    walk_all(&Refused, rt.alloc(), &REFUSED_PARTS, REFUSED_ROWS)
}
