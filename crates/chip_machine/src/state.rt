//! States between frames.
ghost use Rattle.std.specs.Prelude.{◌≡◌, ◌↔◌, ◌<◌, ◌%◌, length, IsTrue, if◌then◌else◌, Some, None, IfOk, OnErr};
ghost use Rattle.cart_board.specs.CartState.{cart_at_power_on, fits};
ghost use Rattle.riot_chip.specs.Riot.{fields_of, riot_of};
ghost use Rattle.tia_chip.specs.Numbers.{is_settled, is_tia};
ghost use Rattle.chip_machine.specs.States.{cart_of, is_of, is_state, line_cycle_of, state_at_power_on};

use crate::fields::StateFields;
use crate::record::tia_bytes;
use cart_board::{Cart, MappedCart};
use mos_cpu::Cpu;
use riot_chip::Riot;
use std::alloc::{AllocError, Global};
use std::marker::Model;
use std::mem;
use tia_chip::Tia;

/// Where a processor that was reset finds the address of its first instruction.
const RESET_VECTOR: u16 = 0xFFFC;

/// A RAM of these bytes. AllocError comes only if its allocation was refused; no bytes need none.
pub(crate) fn ram_of(alloc: Global, bytes: &[u8]) -> Result<Vec<u8>, AllocError>
    ensures value { IfOk result (λ ram. ram.items ≡ bytes.now) }
    ensures memory { OnErr result (0 < length bytes.now) }
{
    if bytes.is_empty() {
        Ok(Vec::new(alloc))
    } else {
        bytes.to_vec(alloc)
    }
}

/// The state of a console between two frames, which contracts see as its numbers and the RAM of its
/// cartridge.
///
/// Each condition of the state record holds of it but those of a cartridge; a run need not reach it.
#[derive(Debug, Drop)]
pub struct State {
    fields: StateFields,
    ram: Vec<u8>,
}

impl Model for State {
    ghost use Rattle.std.specs.Prelude.{IsTrue};
    ghost use Rattle.chip_machine.specs.States.{StateData, is_state};

    ghost Value = { StateData };

    ghost view = { λ s. record { fields = s.fields; ram = s.ram.items } };

    ghost invariant = { λ s. IsTrue (is_state s.fields) };
}

impl State {
    /// The state of a console that was just switched on, with this cartridge.
    ///
    /// AllocError comes only if the allocation of its RAM was refused. A board without RAM takes no
    /// memory.
    pub fn power_on(alloc: Global, cart: &Cart) -> Result<State, AllocError>
        ensures value { IfOk result (λ s. s ≡ state_at_power_on cart.now) }
        ensures cartridge { IfOk result (λ s. IsTrue (is_of cart.now s)) }
        ensures memory { OnErr result (0 < cart.now.row.ram) }
    {
        let mapped = MappedCart::power_on(alloc, cart)?;
        let low = mapped.peek(RESET_VECTOR, 0);
        let high = mapped.peek(RESET_VECTOR + 1, 0);
        let cpu = Cpu {
            a: 0,
            x: 0,
            y: 0,
            s: 0xFF,
            p: 0x04,
            pc: u16::from_le_bytes([low, high]),
        };
        Ok(State::of_parts(cpu, &Riot::power_on(), &Tia::power_on(), mapped))
    }

    /// The state of these numbers with this RAM, if each condition of the state record holds but
    /// those of a cartridge.
    pub fn new(fields: StateFields, ram: Vec<u8>) -> Option<State>
        ensures { result ≡ (if is_state fields then Some (record { fields = fields; ram = ram.items }) else None) }
    {
        if fields.is_lawful() {
            Some(State { fields, ram })
        } else {
            None
        }
    }

    /// Its numbers.
    pub fn fields(&self) -> StateFields
        ensures value { result ≡ self.now.fields }
        ensures lawful { IsTrue (is_state result) }
    {
        self.fields
    }

    /// The RAM of its cartridge.
    pub fn ram(&self) -> &[u8]
        ensures { result.now ≡ self.now.ram }
    {
        &self.ram
    }

    /// Whether it is one of this cartridge: its bank bytes are numbers of banks, and the RAM is as
    /// long as the board's.
    pub fn is_of(&self, cart: &Cart) -> bool
        ensures { result ≡ is_of cart.now self.now }
    {
        MappedCart::fits(cart, &self.fields.banks, &self.ram)
    }

    /// Whether the TIAs of both have the same numbers: no two have the same record.
    fn has_tia_of(&self, other: &State) -> bool
        ensures { IsTrue result ↔ (self.now.fields.tia ≡ other.now.fields.tia) }
    {
        tia_bytes(&self.fields.tia) == tia_bytes(&other.fields.tia)
    }

    /// Whether the RIOTs of both have the same numbers.
    fn has_riot_of(&self, other: &State) -> bool
        ensures { IsTrue result ↔ (self.now.fields.riot ≡ other.now.fields.riot) }
    {
        self.fields.riot == other.fields.riot
    }

    /// Whether both have the same numbers.
    fn has_numbers_of(&self, other: &State) -> bool
        ensures { IsTrue result ↔ (self.now.fields ≡ other.now.fields) }
    {
        self.fields.cpu == other.fields.cpu
            && self.has_riot_of(other)
            && self.has_tia_of(other)
            && self.fields.banks == other.fields.banks
    }

    /// Whether both have the same numbers and the same RAM.
    pub fn equals(&self, other: &State) -> bool
        ensures { IsTrue result ↔ (self.now ≡ other.now) }
    {
        self.has_numbers_of(other) && self.ram == other.ram
    }

    /// A state with the same numbers and the same RAM.
    ///
    /// AllocError comes only if the allocation of the RAM was refused. Without RAM it takes no memory.
    pub fn copy(&self, alloc: Global) -> Result<State, AllocError>
        ensures value { IfOk result (λ s. s ≡ self.now) }
        ensures memory { OnErr result (0 < length self.now.ram) }
    {
        let ram = ram_of(alloc, &self.ram)?;
        Ok(State {
            fields: self.fields,
            ram,
        })
    }

    /// The beam's place in its scanline, in cycles, 0 to 75.
    pub fn line_cycle(&self) -> u8
        ensures { result ≡ line_cycle_of self.now }
    {
        self.fields.tia.clock / 3
    }

    /// Its processor.
    pub(crate) fn cpu(&self) -> Cpu
        ensures value { result ≡ self.now.fields.cpu }
        ensures lawful { IsTrue (is_state self.now.fields) }
    {
        self.fields.cpu
    }

    /// Its RIOT, whose pins are up.
    #[tactic(auto, unfolding(crate::specs::States::is_state))]
    pub(crate) fn riot(&self) -> Riot
        ensures { result ≡ riot_of self.now.fields.riot }
    {
        Riot::from_fields(self.fields.riot).unwrap()
    }

    /// Its TIA, at line 0 with no button pressed.
    #[tactic(auto, unfolding(crate::specs::States::is_state))]
    pub(crate) fn tia(&self) -> Tia
        ensures { result ≡ self.now.fields.tia }
    {
        Tia::from_state(self.fields.tia).unwrap()
    }

    /// Its cartridge, which takes its RAM from it.
    pub(crate) fn take_cart<'a>(&mut self, alloc: Global, cart: &'a Cart) -> MappedCart<'a>
        requires { IsTrue (is_of cart.now self.old) }
        ensures cart { result ≡ cart_of cart.now self.old }
        ensures fields { self.new.fields ≡ self.old.fields }
    {
        let ram = mem::replace(&mut self.ram, Vec::new(alloc));
        MappedCart::new(cart, self.fields.banks, ram).unwrap()
    }

    /// Takes the RAM of a cartridge, and nothing else of it.
    pub(crate) fn put_ram(&mut self, cart: MappedCart)
        ensures fields { self.new.fields ≡ self.old.fields }
        ensures ram { self.new.ram ≡ cart.entry.ram }
        ensures lawful { IsTrue (fits cart.entry.cartridge cart.entry.banks cart.entry.ram) }
    {
        let (_, ram) = cart.into_parts();
        self.ram = ram;
    }

    /// The state that these parts are left in.
    pub(crate) fn of_parts(cpu: Cpu, riot: &Riot, tia: &Tia, cart: MappedCart) -> State
        requires tia { IsTrue (is_tia tia.now) }
        requires settled { IsTrue (is_settled tia.now) }
        requires aligned { tia.now.clock % 3 ≡ 0 }
        ensures value { result ≡ record { fields = record { cpu = cpu; riot = fields_of riot.now; tia = tia.now; banks = cart.entry.banks }; ram = cart.entry.ram } }
        ensures cartridge { IsTrue (is_of cart.entry.cartridge result) }
    {
        // (the proof then knows that the status is one)
        let _ = &cpu.p;
        let (banks, ram) = cart.into_parts();
        State {
            fields: StateFields {
                cpu,
                riot: riot.fields(),
                tia: tia.state(),
                banks,
            },
            ram,
        }
    }
}
