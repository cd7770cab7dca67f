//! Printing an instruction by a table of rows.
ghost use Rattle.std.specs.Prelude.{◌≡◌, ◌≤◌, ◌+◌, ◌<◌, ◌++◌, ◌∷◌, [], length, slice_get, slice_index_or, OnOk, OnErr};
ghost use Rattle.std.specs.Fmt.{decimal};
ghost use Rattle.form_table.specs.Rows.{row_operands, slots_of};
ghost use Rattle.form_table.specs.Printed as spec;
ghost use Rattle.form_table.specs.TableRows.{rows_of};
ghost use Rattle.form_table.specs.declared.rows.Slot.TheVariants as slot;
ghost use Rattle.sl_isa.specs.SymbolViews.{pairs};

use crate::reader::{Pick, is_picked};
use crate::rows::{Letter, Operand, Row, Shape, Slot, slots_of};
use crate::spells::{CONDITIONS, Held};
use crate::symbols::letter_code;
use crate::table::Table;
use itoa::Buffer;
use sl_base::{NoMemory, append, append_labelled};
use sl_isa::{Bank, Instr, Reg, Symbols};

// Whether a register is the stack pointer.
fn is_stack(bank: Bank) -> bool
    ensures { result ≡ spec.is_stack bank }
{
    bank == Bank::Stack
}

// Adds a register of the machine that is spelled with a letter.
#[tactic(auto, unfolding(crate::specs::Printed::register_name))]
fn push_machine(out: &mut Vec<u8>, letter: Letter, r: Reg) -> Result<(), NoMemory>
    ensures { OnOk result (out.new.items ≡ out.old.items ++ spec.register_name letter r) }
{
    match letter {
        Letter::X => {
            if is_stack(r.bank) {
                return append(out, b"sp");
            }
            if r.number == 31 {
                return append(out, b"xzr");
            }
            append_labelled(out, &[b'x'], u64::from(r.number))
        }
        Letter::W => {
            if r.number == 31 {
                return append(out, b"wzr");
            }
            append_labelled(out, &[b'w'], u64::from(r.number))
        }
        Letter::V => append_labelled(out, &[b'v'], u64::from(r.number)),
        Letter::Q => append_labelled(out, &[b'q'], u64::from(r.number)),
        Letter::D => append_labelled(out, &[b'd'], u64::from(r.number)),
        Letter::S => append_labelled(out, &[b's'], u64::from(r.number)),
        Letter::R => {
            if is_stack(r.bank) {
                return append(out, b"sp");
            }
            if r.number == 14 {
                return append(out, b"lr");
            }
            append_labelled(out, &[b'r'], u64::from(r.number))
        }
    }
}

// Adds a symbolic register with the name of its number, if there is such a name.
#[tactic(auto, unfolding(crate::specs::Printed::symbol_name))]
fn push_symbol(
    out: &mut Vec<u8>,
    letter: Letter,
    number: u16,
    symbols: &Symbols,
) -> Result<(), NoMemory>
    ensures { OnOk result
        (out.new.items
        ≡ out.old.items ++ spec.symbol_name letter (slice_get (pairs symbols.now) number)) }
{
    let Some(name) = symbols.name(number) else {
        return Ok(());
    };
    append(out, &[letter_code(letter)])?;
    append(out, b"<")?;
    append(out, name.as_bytes())?;
    append(out, b">")
}

// Adds a register that is spelled with a letter.
fn push_register(
    out: &mut Vec<u8>,
    letter: Letter,
    r: Reg,
    symbols: &Symbols,
) -> Result<(), NoMemory>
    ensures { OnOk result
        (out.new.items ≡ out.old.items ++ spec.named_register (pairs symbols.now) letter r) }
{
    if r.symbolic {
        return push_symbol(out, letter, r.number, symbols);
    }
    push_machine(out, letter, r)
}

// Adds a number, if there is one.
fn push_number(out: &mut Vec<u8>, number: Option<i64>) -> Result<(), NoMemory>
    ensures { OnOk result (out.new.items ≡ out.old.items ++ spec.number_text number) }
{
    let Some(n) = number else {
        return Ok(());
    };
    append(out, Buffer::new().format(n).as_bytes())
}

// The name at a place, and nothing behind the last one.
fn name_at(names: &[[u8; 2]], place: u64) -> &[u8]
    ensures { result.now ≡ slice_index_or names.now place [] }
{
    let place = place as usize;
    if names.len() <= place {
        return b"";
    }
    &names[place]
}

// Adds the name of a condition, if there is one.
fn push_condition(out: &mut Vec<u8>, number: Option<i64>) -> Result<(), NoMemory>
    ensures { OnOk result (out.new.items ≡ out.old.items ++ spec.condition_text number) }
{
    let Some(n) = number else {
        return Ok(());
    };
    append(out, name_at(&CONDITIONS, n.unsigned_abs()))
}

// Adds what is printed for a slot.
#[tactic(auto, unfolding(crate::specs::Printed::slot_text))]
fn push_slot(out: &mut Vec<u8>, held: Held, slot: Slot, symbols: &Symbols) -> Result<(), NoMemory>
    ensures { OnOk result
        (out.new.items ≡ out.old.items ++ spec.slot_text (pairs symbols.now) held slot) }
{
    match slot {
        Slot::Gap => append(out, b" "),
        Slot::Mark(code) => {
            if code == b',' {
                return append(out, b", ");
            }
            append(out, &[code])
        }
        Slot::Name(name) => append(out, name.text().as_bytes()),
        Slot::Register(letter) => {
            let Some(r) = held.register else {
                return Ok(());
            };
            push_register(out, letter, r, symbols)
        }
        Slot::Number => {
            append(out, b"#")?;
            push_number(out, held.number)
        }
        Slot::Index => push_number(out, held.number),
        Slot::Condition => push_condition(out, held.number),
    }
}

// Adds what is printed for slots, one behind the other.
#[tactic(auto, unfolding(crate::specs::Printed::slots_text))]
fn push_slots(
    out: &mut Vec<u8>,
    held: Held,
    slots: &[Slot],
    symbols: &Symbols,
) -> Result<(), NoMemory>
    ensures { OnOk result
        (out.new.items ≡ out.old.items ++ spec.slots_text (pairs symbols.now) held slots.now) }
{
    let Some((slot, slots)) = slots.split_first() else {
        return Ok(());
    };
    push_slot(out, held, *slot, symbols)?;
    push_slots(out, held, slots, symbols)
}

// Adds what is printed for an operand behind what leads to it.
fn push_operand(
    out: &mut Vec<u8>,
    held: Held,
    lead: Slot,
    shape: Shape,
    symbols: &Symbols,
) -> Result<(), NoMemory>
    ensures { OnOk result
        (out.new.items
        ≡ out.old.items ++ spec.slots_text (pairs symbols.now) held (slots_of lead shape)) }
{
    let slots = slots_of(lead, shape);
    push_slots(out, held, &slots.places[..slots.count], symbols)
}

/// Whether an operand of a shape has a register.
pub fn has_register(shape: Shape) -> bool
    ensures { result ≡ spec.has_register shape }
{
    !matches!(
        shape,
        Shape::Nothing | Shape::Number | Shape::Condition | Shape::Shift(_)
    )
}

// Whether it has a number.
fn has_number(shape: Shape) -> bool
    ensures { result ≡ spec.has_number shape }
{
    !matches!(
        shape,
        Shape::Nothing | Shape::Register(_) | Shape::Lanes(_) | Shape::Base(_)
    )
}

// Whether an operand's register is found among the outputs.
fn among_outs(operand: &Operand) -> bool
    ensures { result ≡ spec.among_outs operand.now }
{
    if has_register(operand.shape) {
        return is_picked(Pick::Written, operand.role);
    }
    false
}

// Whether it is found among the inputs.
fn among_ins(operand: &Operand) -> bool
    ensures { result ≡ spec.among_ins operand.now }
{
    if has_register(operand.shape) {
        return is_picked(Pick::Read, operand.role);
    }
    false
}

// A register among places.
fn register_at(places: &[Option<Reg>], place: usize) -> Option<Reg>
    ensures { result ≡ slice_index_or places.now place None }
{
    if places.len() <= place {
        return None;
    }
    places[place]
}

// The register of an operand, where so many inputs and outputs stand before it.
fn register_in(instr: &Instr, operand: &Operand, ins: usize, outs: usize) -> Option<Reg>
    ensures { result ≡ spec.register_in instr.now operand.now ins outs }
{
    if among_outs(operand) {
        return register_at(&instr.outs, outs);
    }
    if among_ins(operand) {
        return register_at(&instr.ins, ins);
    }
    None
}

// The number of an operand, where so many numbers stand before it.
fn number_in(instr: &Instr, operand: &Operand, numbers: usize) -> Option<i64>
    ensures { result ≡ spec.number_in instr.now operand.now numbers }
{
    if !has_number(operand.shape) {
        return None;
    }
    if instr.imms.len() <= numbers {
        return Some(0);
    }
    Some(instr.imms[numbers])
}

// What an operand holds, where so many inputs, outputs and numbers stand before it.
#[tactic(auto, unfolding(crate::specs::Printed::held_in))]
fn held_in(instr: &Instr, operand: &Operand, ins: usize, outs: usize, numbers: usize) -> Held
    ensures { result ≡ spec.held_in instr.now operand.now ins outs numbers }
{
    Held {
        register: register_in(instr, operand, ins, outs),
        number: number_in(instr, operand, numbers),
    }
}

// How many inputs, outputs and numbers of an instruction stand before an operand.
#[derive(Clone, Copy)]
struct Places {
    ins: usize,
    outs: usize,
    numbers: usize,
}

// How many stand before what is behind an operand.
fn places_behind(places: Places, operand: &Operand) -> Places
    requires ins { places.ins < 256 }
    requires outs { places.outs < 256 }
    requires numbers { places.numbers < 256 }
    ensures ins { result.ins ≡ places.ins + spec.one_if (spec.among_ins operand.now) }
    ensures outs { result.outs ≡ places.outs + spec.one_if (spec.among_outs operand.now) }
    ensures numbers { result.numbers
        ≡ places.numbers + spec.one_if (spec.has_number operand.now.shape) }
{
    Places {
        ins: places.ins + usize::from(among_ins(operand)),
        outs: places.outs + usize::from(among_outs(operand)),
        numbers: places.numbers + usize::from(has_number(operand.shape)),
    }
}

// Adds what is printed for operands, where so many inputs, outputs and numbers stand before them.
#[tactic(auto, unfolding(crate::specs::Printed::helds_in, crate::specs::Printed::operands_text))]
fn push_operands(
    out: &mut Vec<u8>,
    instr: &Instr,
    lead: Slot,
    operands: &[Operand],
    places: Places,
    symbols: &Symbols,
) -> Result<(), NoMemory>
    requires ins { places.ins + length operands.now < 256 }
    requires outs { places.outs + length operands.now < 256 }
    requires numbers { places.numbers + length operands.now < 256 }
    ensures { OnOk result
        (out.new.items
        ≡ out.old.items
        ++ spec.operands_text (pairs symbols.now) lead operands.now
        (spec.helds_in instr.now operands.now places.ins places.outs places.numbers)) }
{
    let Some((operand, operands)) = operands.split_first() else {
        return Ok(());
    };
    let held = held_in(instr, operand, places.ins, places.outs, places.numbers);
    push_operand(out, held, lead, operand.shape, symbols)?;
    let places = places_behind(places, operand);
    push_operands(out, instr, Slot::Mark(b','), operands, places, symbols)
}

/// Adds what is printed behind the mnemonic for an instruction of a row. After `NoMemory` a part of
/// it may be there.
pub fn push_behind(
    out: &mut Vec<u8>,
    row: &Row,
    instr: &Instr,
    symbols: &Symbols,
) -> Result<(), NoMemory>
    ensures { OnOk result
        (out.new.items
        ≡ out.old.items
        ++ spec.operands_text (pairs symbols.now) slot.Gap (row_operands row.now)
        (spec.helds_in instr.now (row_operands row.now) 0 0 0)) }
{
    let places = Places {
        ins: 0,
        outs: 0,
        numbers: 0,
    };
    push_operands(out, instr, Slot::Gap, &row.operands(), places, symbols)
}

// Adds what is printed for an instruction of a row.
#[tactic(auto, unfolding(crate::specs::Printed::row_text))]
fn push_row(out: &mut Vec<u8>, row: &Row, instr: &Instr, symbols: &Symbols) -> Result<(), NoMemory>
    ensures { OnOk result
        (out.new.items
        ≡ out.old.items
        ++ spec.row_text (pairs symbols.now) row.now
        (spec.helds_in instr.now (row_operands row.now) 0 0 0)) }
{
    append(out, row.mnemonic())?;
    push_behind(out, row, instr, symbols)
}

/// Adds an instruction's one printed spelling to `out`, with the names of its symbolic registers;
/// where a number has no name, nothing stands for the register. After `NoMemory` nothing has changed.
#[tactic(auto, unfolding(crate::specs::Printed::printed))]
pub fn print_form(
    table: &Table<'_>,
    instr: &Instr,
    symbols: &Symbols,
    out: &mut Vec<u8>,
) -> Result<(), NoMemory>
    ensures ok { OnOk result
        (out.new.items
        ≡ out.old.items ++ spec.printed (rows_of table.now) (pairs symbols.now) instr.now) }
    ensures err { OnErr result (out.new.items ≡ out.old.items) }
{
    let Some(row) = table.row(instr.form) else {
        return Ok(());
    };
    let mut text = Vec::new(*out.allocator());
    push_row(&mut text, row, instr, symbols)?;
    append(out, &text)
}
