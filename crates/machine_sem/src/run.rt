//! What instructions do to a state.
ghost use Rattle.std.specs.Prelude.{◌≡◌, ◌+◌, ◌%◌, ◌≤◌, ◌<◌, ℕ, OnOk, OnErr, IfSome, length, take};
ghost use Rattle.std.specs.List.{AllByRecursion};
ghost use Rattle.sl_model.specs.State.{load, store};
ghost use Rattle.sl_model.specs.Machine.{space_of};
ghost use Rattle.sl_model.specs.Exec.{exec, run};
ghost use Rattle.sl_model.specs.Lawful.{IsValid};
ghost use Rattle.machine_sem.specs.Fits.{Fits};
ghost use Rattle.machine_sem.specs.Moves.{with_memory, read_from, written, loaded_at, stored_at};

use crate::State;
use sl_base::NoMemory;
use sl_isa::{Access, Arch, ArchName, Instr, Outs, Reg};

// Registers that are written, and their values.
#[derive(Clone, Copy)]
struct Outputs<'a> {
    regs: &'a [Option<Reg>],
    values: &'a [u128],
}

// An address that may be past the last one, in the machine's space.
fn wrapped(name: ArchName, address: u64) -> u64
    ensures { result ≡ address % space_of name }
{
    match name {
        ArchName::Arm64 => address,
        ArchName::M4 => address % (1 << 32),
    }
}

// The address behind an address.
fn next_address(name: ArchName, address: u64) -> u64
    ensures { result ≡ (address + 1) % space_of name }
{
    match name {
        ArchName::Arm64 => address.wrapping_add(1),
        ArchName::M4 => (address % (1 << 32) + 1) % (1 << 32),
    }
}

// The values of the registers that stand in some places go to the front of `values`; says how many
// there are.
fn read_operands(state: &State, ins: &[Option<Reg>], values: &mut [u128]) -> usize
    requires { length ins.now ≤ length values.old }
    ensures count { result ≤ length ins.now }
    ensures values { take result values.new ≡ read_from ins.now state.now }
{
    let Some((first, ins)) = ins.split_first() else {
        return 0;
    };
    let Some(reg) = first else {
        return read_operands(state, ins, values);
    };
    let Some((value, values)) = values.split_first_mut() else {
        return 0;
    };
    *value = state.reg(*reg);
    1 + read_operands(state, ins, values)
}

// Loads bytes from an address on.
#[tactic(auto, unfolding(sl_model::specs::State::load))]
fn load_bytes(state: &State, name: ArchName, address: u64, bytes: &mut [u8])
    ensures { bytes.new ≡ load (space_of name) state.now.memory address (length bytes.old) }
{
    let Some((first, bytes)) = bytes.split_first_mut() else {
        return;
    };
    *first = state.byte(wrapped(name, address));
    load_bytes(state, name, next_address(name, address), bytes);
}

// Gives registers their values, one after the other. After `NoMemory` nothing has changed.
#[tactic(auto, unfolding(sl_model::specs::State::write_all))]
fn write_outputs(state: &mut State, outs: &[Option<Reg>], values: &[u128]) -> Result<(), NoMemory>
    ensures ok { OnOk result (state.new ≡ written outs.now values.now state.old) }
    ensures err { OnErr result (state.new ≡ state.old) }
{
    let Some((first, outs)) = outs.split_first() else {
        return Ok(());
    };
    let Some(reg) = first else {
        return write_outputs(state, outs, values);
    };
    let Some((value, values)) = values.split_first() else {
        return Ok(());
    };
    let before = state.kept(*reg);
    state.set_reg(*reg, *value)?;
    let Ok(()) = write_outputs(state, outs, values) else {
        state.put_back(*reg, before);
        return Err(NoMemory);
    };
    Ok(())
}

// Puts bytes in memory from an address on, and then gives registers their values. After `NoMemory`
// nothing has changed.
#[tactic(auto, unfolding(sl_model::specs::State::store))]
fn store_bytes(
    state: &mut State,
    name: ArchName,
    address: u64,
    bytes: &[u8],
    outputs: Outputs,
) -> Result<(), NoMemory>
    ensures ok { OnOk result (state.new ≡ written outputs.entry.regs.now outputs.entry.values.now
        (with_memory (store (space_of name) address bytes.now state.old.memory) state.old)) }
    ensures err { OnErr result (state.new ≡ state.old) }
{
    let Some((byte, rest)) = bytes.split_first() else {
        return write_outputs(state, outputs.regs, outputs.values);
    };
    let at = wrapped(name, address);
    let before = state.kept_byte(at);
    state.set_byte(at, *byte)?;
    let Ok(()) = store_bytes(state, name, next_address(name, address), rest, outputs) else {
        state.put_back_byte(at, before);
        return Err(NoMemory);
    };
    Ok(())
}

// What an access loads goes to the front of `bytes`; says how many bytes there are.
#[tactic(auto, unfolding(crate::specs::Moves::loaded_at))]
fn load_access(state: &State, name: ArchName, access: Option<Access>, bytes: &mut [u8]) -> usize
    requires { IfSome access (λ a. a.size ≤ length bytes.old) }
    ensures count { result ≤ length bytes.old }
    ensures bytes { take result bytes.new ≡ loaded_at (space_of name) access state.now.memory }
{
    let Some(access) = access else {
        return 0;
    };
    if access.store {
        return 0;
    }
    let size = usize::from(access.size);
    load_bytes(state, name, access.address, &mut bytes[..size]);
    size
}

// Stores what an access takes of some bytes, and then gives registers their values. After
// `NoMemory` nothing has changed.
#[tactic(auto, unfolding(crate::specs::Moves::stored_at))]
fn store_access(
    state: &mut State,
    name: ArchName,
    access: Option<Access>,
    bytes: &[u8],
    outputs: Outputs,
) -> Result<(), NoMemory>
    requires { IfSome access (λ a. a.size ≤ length bytes.now) }
    ensures ok { OnOk result (state.new ≡ written outputs.entry.regs.now outputs.entry.values.now
        (with_memory (stored_at (space_of name) access bytes.now state.old.memory) state.old)) }
    ensures err { OnErr result (state.new ≡ state.old) }
{
    let Some(access) = access else {
        return write_outputs(state, outputs.regs, outputs.values);
    };
    if !access.store {
        return write_outputs(state, outputs.regs, outputs.values);
    }
    store_bytes(
        state,
        name,
        access.address,
        &bytes[..usize::from(access.size)],
        outputs,
    )
}

/// Does one instruction: it takes the values of its operands and the bytes that it loads from the
/// state, and then stores its bytes and writes its outputs. After `NoMemory` nothing has changed.
pub fn step<A: Arch>(arch: &A, instr: &Instr, state: &mut State) -> Result<(), NoMemory>
    requires valid { IsValid A.language.isa instr.now }
    requires fitting { Fits A.language.isa state.old }
    ensures ok { OnOk result (state.new ≡ exec A.language.isa instr.now state.old) }
    ensures err { OnErr result (state.new ≡ state.old) }
    ensures fits { Fits A.language.isa state.new }
{
    let mut operands = [0; 4];
    let count = read_operands(state, &instr.ins, &mut operands);
    let ins = &operands[..count];
    let name = arch.name();
    let access = arch.access(instr, ins);
    let mut bytes = [0; 32];
    let size = load_access(state, name, access, &mut bytes);
    let outs = arch.exec(instr, ins, &bytes[..size]);
    let outputs = Outputs {
        regs: &instr.outs,
        values: &outs.regs,
    };
    store_access(state, name, access, &outs.bytes, outputs)
}

/// Does instructions one after the other. After `NoMemory` the state is the
/// one behind some front of them.
pub fn run_list<A: Arch>(arch: &A, items: &[Instr], state: &mut State) -> Result<(), NoMemory>
    requires valid { AllByRecursion (IsValid A.language.isa) items.now }
    requires fitting { Fits A.language.isa state.old }
    ensures ok { OnOk result (state.new ≡ run A.language.isa items.now state.old) }
    ensures err { OnErr result ((front : ℕ) × (front < length items.now)
        × (state.new ≡ run A.language.isa (take front items.now) state.old)) }
    ensures fits { Fits A.language.isa state.new }
{
    for instr in items {
        step(arch, instr, state)?;
    }
    Ok(())
}
