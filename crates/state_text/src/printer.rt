//! Printing a state.
ghost use Rattle.std.specs.Prelude.{◌≡◌, ◌+◌, ◌<◌, ◌≤◌, ◌++◌, ◌^◌, ◌/◌, ◌%◌, OnOk, OnErr, IfOk};
ghost use Rattle.std.specs.Char.{digit_char};
ghost use Rattle.std.specs.FinMap.{entries};
ghost use Rattle.state_text.specs.StateText as spec;
ghost use Rattle.sl_model.specs.RegisterNames as names;

use machine_sem::State;
use sl_base::{NoMemory, append};
use sl_isa::{ArchName, Bank, Reg, push_name, register_in};

// A hexadecimal digit in lower case.
fn hex_digit(value: u8) -> u8
    requires { value < 16 }
    ensures { result ≡ digit_char value }
{
    if value < 10 {
        return b'0' + value;
    }
    b'a' + (value - 10)
}

// Adds the last `count` digits of a number.
fn push_hex(out: &mut Vec<u8>, count: u32, number: u128) -> Result<(), NoMemory>
    requires { count ≤ 32 }
    ensures { OnOk result (out.new.items ≡ out.old.items ++ spec.hex_digits count number) }
{
    if count == 0 {
        return Ok(());
    }
    let digit = (number >> (4 * (count - 1))) % 16;
    append(out, &[hex_digit(digit as u8)])?;
    push_hex(out, count - 1, number)
}

// ---- registers

// How many digits the value of a register of a bank has.
fn digit_count(arch: ArchName, bank: Bank) -> u32
    ensures value { result ≡ spec.digit_count arch bank }
    ensures few { result ≤ 32 }
{
    match bank {
        Bank::Flags => 1,
        Bank::Vector => match arch {
            ArchName::Arm64 => 32,
            ArchName::M4 => 8,
        },
        Bank::General | Bank::Stack => match arch {
            ArchName::Arm64 => 16,
            ArchName::M4 => 8,
        },
    }
}

// A bit as a digit.
fn bit_digit(flags: u128, place: u32) -> u8
    requires { place < 4 }
    ensures { result ≡ 48 + flags / 2 ^ place % 2 }
{
    b'0' + ((flags >> place) % 2) as u8
}

// Adds the value of a register of a bank.
#[tactic(auto, unfolding(crate::specs::StateText::value_text))]
fn push_value(out: &mut Vec<u8>, arch: ArchName, bank: Bank, value: u128) -> Result<(), NoMemory>
    ensures { OnOk result (out.new.items ≡ out.old.items ++ spec.value_text arch bank value) }
{
    if bank == Bank::Flags {
        return append(
            out,
            &[
                bit_digit(value, 3),
                bit_digit(value, 2),
                bit_digit(value, 1),
                bit_digit(value, 0),
            ],
        );
    }
    append(out, b"0x")?;
    push_hex(out, digit_count(arch, bank), value)
}

// Adds the line of a register, if it was set.
#[tactic(auto, unfolding(crate::specs::StateText::register_text))]
fn push_register(
    out: &mut Vec<u8>,
    arch: ArchName,
    state: &State,
    register: Reg,
) -> Result<(), NoMemory>
    ensures { OnOk result
        (out.new.items ≡ out.old.items ++ spec.register_text arch register state.now) }
{
    if state.kept(register).is_none() {
        return Ok(());
    }
    push_name(out, arch, register.bank, register.number)?;
    append(out, b" = ")?;
    push_value(out, arch, register.bank, state.reg(register))?;
    append(out, b"\n")
}

// Adds the lines of so many registers of a bank, from a number on.
fn push_registers_from(
    out: &mut Vec<u8>,
    arch: ArchName,
    state: &State,
    bank: Bank,
    first: u16,
    count: u16,
) -> Result<(), NoMemory>
    requires { first + count < 65536 }
    ensures { OnOk result
        (out.new.items ≡ out.old.items
        ++ spec.registers_text arch (names.registers_from bank first count) state.now) }
{
    if count == 0 {
        return Ok(());
    }
    push_register(out, arch, state, register_in(bank, first))?;
    push_registers_from(out, arch, state, bank, first + 1, count - 1)
}

// Adds the lines of the general registers.
#[tactic(auto, unfolding(sl_model::specs::RegisterNames::general_registers))]
fn push_general(out: &mut Vec<u8>, arch: ArchName, state: &State) -> Result<(), NoMemory>
    ensures { OnOk result
        (out.new.items ≡ out.old.items
        ++ spec.registers_text arch (names.general_registers arch) state.now) }
{
    match arch {
        ArchName::Arm64 => push_registers_from(out, arch, state, Bank::General, 0, 31),
        ArchName::M4 => {
            push_registers_from(out, arch, state, Bank::General, 0, 13)?;
            push_registers_from(out, arch, state, Bank::General, 14, 1)
        }
    }
}

// Adds the lines of the stack pointer, the vector registers and the flags.
#[tactic(auto, using(crate::proofs::Printing::others_are))]
fn push_others(out: &mut Vec<u8>, arch: ArchName, state: &State) -> Result<(), NoMemory>
    ensures { OnOk result
        (out.new.items ≡ out.old.items
        ++ spec.registers_text arch names.other_registers state.now) }
{
    push_registers_from(out, arch, state, Bank::Stack, 0, 1)?;
    push_registers_from(out, arch, state, Bank::Vector, 0, 32)?;
    push_registers_from(out, arch, state, Bank::Flags, 0, 1)
}

// ---- memory

// How many digits an address has.
fn address_count(arch: ArchName) -> u32
    ensures value { result ≡ spec.address_count arch }
    ensures few { result ≤ 32 }
{
    match arch {
        ArchName::Arm64 => 16,
        ArchName::M4 => 8,
    }
}

// Adds the begin of a line of bytes, with the first one.
#[tactic(auto, unfolding(crate::specs::StateText::bytes_start))]
fn push_start(out: &mut Vec<u8>, arch: ArchName, address: u64, byte: u8) -> Result<(), NoMemory>
    ensures { OnOk result (out.new.items ≡ out.old.items ++ spec.bytes_start arch (address, byte)) }
{
    append(out, b"mem 0x")?;
    push_hex(out, address_count(arch), u128::from(address))?;
    append(out, b" = ")?;
    push_hex(out, 2, u128::from(byte))
}

// How many bytes go on a line behind its first one.
const MORE_BYTES: u8 = 15;

// A line of bytes that was begun.
#[derive(Clone, Copy)]
pub struct Row {
    // How many bytes there is room for.
    pub room: u8,
    // The address behind its last byte.
    pub next: u128,
}

// Whether the byte at an address goes on a line.
fn goes_on(row: Row, address: u64) -> bool
    ensures { result ≡ spec.goes_on row.room row.next address }
{
    if row.room == 0 {
        return false;
    }
    u128::from(address) == row.next
}

// Adds a byte behind a line.
#[tactic(auto, unfolding(crate::specs::StateText::byte_text))]
fn push_byte(
    out: &mut Vec<u8>,
    arch: ArchName,
    row: Row,
    address: u64,
    byte: u8,
) -> Result<(), NoMemory>
    ensures { OnOk result
        (out.new.items ≡ out.old.items ++ spec.byte_text arch row.room row.next (address, byte)) }
{
    if goes_on(row, address) {
        return push_hex(out, 2, u128::from(byte));
    }
    append(out, b"\n")?;
    push_start(out, arch, address, byte)
}

// The line behind a byte.
fn row_behind(row: Row, address: u64) -> Row
    ensures room { result.room ≡ spec.room_behind row.room row.next address }
    ensures next { result.next ≡ address + 1 }
{
    let room = if goes_on(row, address) {
        row.room - 1
    } else {
        MORE_BYTES
    };
    Row {
        room,
        next: u128::from(address) + 1,
    }
}

// Adds the lines of bytes.
fn push_bytes(out: &mut Vec<u8>, arch: ArchName, state: &State) -> Result<(), NoMemory>
    ensures { OnOk result
        (out.new.items ≡ out.old.items ++ spec.bytes_text arch (entries state.now.memory)) }
{
    let mut bytes = state.bytes();
    let Some((address, byte)) = bytes.next() else {
        return Ok(());
    };
    push_start(out, arch, *address, *byte)?;
    let mut row = Row {
        room: MORE_BYTES,
        next: u128::from(*address) + 1,
    };
    for (address, byte) in bytes {
        push_byte(out, arch, row, *address, *byte)?;
        row = row_behind(row, *address);
    }
    append(out, b"\n")
}

// Adds a state.
#[tactic(auto, using(crate::proofs::Printing::registers_in_two), unfolding(crate::specs::StateText::state_text))]
fn push_state(out: &mut Vec<u8>, arch: ArchName, state: &State) -> Result<(), NoMemory>
    ensures { OnOk result (out.new.items ≡ out.old.items ++ spec.state_text arch state.now) }
{
    push_general(out, arch, state)?;
    push_others(out, arch, state)?;
    push_bytes(out, arch, state)
}

/// Adds the text of a state to `out`: a line for each register of the machine that was set, and
/// lines of at most 16 bytes. After `NoMemory` nothing has changed.
pub fn print_state(arch: ArchName, state: &State, out: &mut Vec<u8>) -> Result<(), NoMemory>
    ensures ok { OnOk result (out.new.items ≡ out.old.items ++ spec.state_text arch state.now) }
    ensures err { OnErr result (out.new.items ≡ out.old.items) }
{
    let mut text = Vec::new(*out.allocator());
    push_state(&mut text, arch, state)?;
    append(out, &text)
}
