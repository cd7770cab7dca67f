//! States: the registers and the bytes of memory that were set.
ghost use Rattle.std.specs.Prelude.{◌≡◌, ◌∷◌, [], ◌<◌, OnOk, OnErr, IsSome};
ghost use Rattle.std.specs.FinMap.{get, entries};
ghost use Rattle.sl_model.specs.Register.{bank_number};
ghost use Rattle.sl_model.specs.State.{reg_key, is_zero, read, write, byte, put};
ghost use Rattle.sl_model.specs.Isa.{Isa};
ghost use Rattle.sl_model.specs.Lawful.{IsLawful};
ghost use Rattle.machine_sem.specs.Fits.{Fits};
ghost use Rattle.machine_sem.specs.Moves.{with_memory, with_regs};
ghost use Rattle.machine_sem.specs.StateCode.{new_state, restored};
ghost use Rattle.sl_model.specs.Machine.{space_of, limit_of};

use sl_base::NoMemory;
use sl_isa::{Bank, Reg};
use std::alloc::Global;
use std::collections::BTreeMap;
use std::collections::btree_map::Iter;
use std::marker::Model;

/// A machine state. A register or a byte that was never set reads 0.
#[derive(Drop)]
pub struct State {
    // By bank, whether symbolic, and number.
    regs: BTreeMap<[u16; 3], u128>,
    memory: BTreeMap<u64, u8>,
}

impl Model for State {
    ghost use Rattle.std.specs.FinMap.{from_entries};
    ghost use Rattle.sl_model.specs.State.{State as StateValue};
    ghost use Rattle.machine_sem.specs.StateCode.{state_code};

    ghost Value = { StateValue };

    ghost coded = { state_code };

    ghost view = { λ s. record {
      regs = from_entries s.regs.entries;
      memory = from_entries s.memory.entries;
    } };
}

impl State {
    /// A state in which nothing was set. It fits each architecture.
    pub fn new(alloc: Global) -> State
        ensures value { result ≡ new_state }
        ensures fits { (isa : Isa) → IsLawful isa → Fits isa result }
    {
        State {
            regs: BTreeMap::new(alloc),
            memory: BTreeMap::new(alloc),
        }
    }

    /// The value of a register, and 0 where it was never set. That of the zero register of AArch64
    /// is 0.
    #[tactic(auto, unfolding(sl_model::specs::State::read))]
    pub fn reg(&self, reg: Reg) -> u128
        ensures { result ≡ read self.now reg }
    {
        if is_zero(reg) {
            return 0;
        }
        self.kept(reg).unwrap_or(0)
    }

    /// Gives a register a value. After `NoMemory` nothing has changed. The state goes on fitting an
    /// architecture where the value fits the register.
    pub fn set_reg(&mut self, reg: Reg, value: u128) -> Result<(), NoMemory>
        ensures ok { OnOk result (self.new ≡ write reg value self.old) }
        ensures err { OnErr result (self.new ≡ self.old) }
        ensures fits { (isa : Isa) → IsLawful isa → value < limit_of isa.name reg.bank
            → Fits isa self.old
            → Fits isa self.new }
    {
        let Ok(_) = self.regs.insert(key(reg), value) else {
            return Err(NoMemory);
        };
        Ok(())
    }

    /// The byte at an address, and 0 where it was never set.
    #[tactic(auto, unfolding(sl_model::specs::State::byte))]
    pub fn byte(&self, address: u64) -> u8
        ensures { result ≡ byte self.now.memory address }
    {
        self.kept_byte(address).unwrap_or(0)
    }

    /// Puts a byte at an address. After `NoMemory` nothing has changed. The state goes on fitting
    /// an architecture that has the address.
    pub fn set_byte(&mut self, address: u64, value: u8) -> Result<(), NoMemory>
        ensures ok { OnOk result
            (self.new ≡ with_memory (put address value self.old.memory) self.old) }
        ensures err { OnErr result (self.new ≡ self.old) }
        ensures fits { (isa : Isa) → IsLawful isa → address < (space_of isa.name)
            → Fits isa self.old → Fits isa self.new }
    {
        let Ok(_) = self.memory.insert(address, value) else {
            return Err(NoMemory);
        };
        Ok(())
    }

    /// The value that a register was set to.
    pub fn kept(&self, reg: Reg) -> Option<u128>
        ensures { result ≡ get self.now.regs (reg_key reg) }
    {
        self.regs.get(&key(reg)).copied()
    }

    // Puts a register that was set back to what it was before.
    pub(crate) fn put_back(&mut self, reg: Reg, before: Option<u128>)
        requires { IsSome (get self.old.regs (reg_key reg)) }
        ensures { self.new ≡ with_regs (restored self.old.regs (reg_key reg) before) self.old }
    {
        let Some(earlier) = before else {
            self.regs.remove(&key(reg));
            return;
        };
        let Ok(_) = self.regs.insert(key(reg), earlier) else {
            unreachable!()
        };
    }

    /// The byte that an address was set to.
    pub fn kept_byte(&self, address: u64) -> Option<u8>
        ensures { result ≡ get self.now.memory address }
    {
        self.memory.get(&address).copied()
    }

    /// The bytes that were set, by rising address.
    pub fn bytes(&self) -> Iter<'_, u64, u8>
        ensures { result ≡ entries self.now.memory }
    {
        self.memory.iter()
    }

    // Puts an address that was set back to what it was before.
    pub(crate) fn put_back_byte(&mut self, address: u64, before: Option<u8>)
        requires { IsSome (get self.old.memory address) }
        ensures { self.new ≡ with_memory (restored self.old.memory address before) self.old }
    {
        let Some(earlier) = before else {
            self.memory.remove(&address);
            return;
        };
        let Ok(_) = self.memory.insert(address, earlier) else {
            unreachable!()
        };
    }
}

// The number of a bank.
fn bank_number(bank: Bank) -> u16
    ensures { result ≡ bank_number bank }
{
    match bank {
        Bank::General => 0,
        Bank::Vector => 1,
        Bank::Flags => 2,
        Bank::Stack => 3,
    }
}

// A register as a key.
fn key(reg: Reg) -> [u16; 3]
    ensures { result ≡ reg_key reg }
{
    [bank_number(reg.bank), u16::from(reg.symbolic), reg.number]
}

// Is this the zero register?
fn is_zero(reg: Reg) -> bool
    ensures { result ≡ is_zero reg }
{
    bank_number(reg.bank) == 0 && !reg.symbolic && reg.number == 31
}
