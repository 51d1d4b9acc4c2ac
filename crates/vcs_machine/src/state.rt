//! States between frames.
ghost use Rattle.std.specs.Prelude.{◌≡◌, ◌<◌, ◌%◌, ◌↔◌, IsTrue, if◌then◌else◌};
ghost use Rattle.riot_map.specs.Riot.{riot_of, fields_of};
ghost use Rattle.tia_core.specs.TiaState.{tia_of as tia_state_of};
ghost use Rattle.vcs_machine.specs.States.{is_state, line_cycle_of, state_at_power_on};

use crate::fields::StateFields;
use mos_cpu::Cpu;
use riot_map::{Cart, Riot};
use std::marker::Model;
use tia_core::Tia;

/// Where a processor that was reset finds the address of its first instruction.
const RESET_VECTOR: u16 = 0xFFFC;

/// The state of a console between two frames, which contracts see as its numbers.
///
/// Each condition of the state record holds of it; a run need not reach it.
#[derive(Clone, Copy, Debug, PartialEq, Eq)]
pub struct State {
    fields: StateFields,
}

impl Model for State {
    ghost use Rattle.std.specs.Prelude.{IsTrue};
    ghost use Rattle.vcs_machine.specs.declared.fields.StateFields.{StateFields};
    ghost use Rattle.vcs_machine.specs.States.{is_state};

    ghost Value = { StateFields };

    ghost view = { λ s. s.fields };

    ghost invariant = { λ s. IsTrue (is_state s.fields) };

    ghost inverse = { λ f. record { fields = f } };
}

impl State {
    /// The state of a console that was just switched on, with this cartridge.
    pub fn power_on(cart: &Cart) -> State
        ensures { result ≡ state_at_power_on cart.now }
    {
        let bank = cart.bank_at_power_on();
        let cpu = Cpu {
            a: 0,
            x: 0,
            y: 0,
            s: 0xFF,
            p: 0x04,
            pc: u16::from_le_bytes([cart.at(bank, RESET_VECTOR), cart.at(bank, RESET_VECTOR + 1)]),
        };
        State {
            fields: StateFields {
                cpu,
                riot: Riot::power_on().fields(),
                tia: Tia::power_on().fields(),
                bank,
            },
        }
    }

    /// The state of these numbers, if each condition of the state record holds.
    pub fn from_fields(fields: StateFields) -> Option<State>
        ensures { result ≡ (if is_state fields then Some fields else None) }
    {
        if fields.is_lawful() {
            Some(State { fields })
        } else {
            None
        }
    }

    /// Its numbers.
    pub fn fields(&self) -> StateFields
        ensures value { result ≡ self.now }
        ensures lawful { IsTrue (is_state result) }
    {
        let State { fields } = *self;
        fields
    }

    /// Whether both have the same numbers.
    pub fn equals(&self, other: &State) -> bool
        ensures { IsTrue result ↔ (self.now ≡ other.now) }
    {
        self.fields.cpu == other.fields.cpu
            && self.fields.riot == other.fields.riot
            && self.fields.tia.equals(&other.fields.tia)
            && self.fields.bank == other.fields.bank
    }

    /// The beam's place in its scanline, in cycles, 0 to 75.
    pub fn line_cycle(&self) -> u8
        ensures value { result ≡ line_cycle_of self.now }
        ensures range { result < 76 }
        ensures lawful { IsTrue (is_state self.now) }
    {
        self.fields.tia.clock / 3
    }

    /// A state with the same numbers.
    pub fn copy(&self) -> State
        ensures value { result ≡ self.now }
        ensures lawful { IsTrue (is_state result) }
    {
        State {
            fields: self.fields,
        }
    }

    /// The bank of the cartridge that is selected.
    pub(crate) fn bank(&self) -> u8
        ensures value { result ≡ self.now.bank }
        ensures range { result < 2 }
    {
        self.fields.bank
    }

    /// The state that these parts are left in, with this bank.
    pub(crate) fn of_parts(cpu: Cpu, riot: &Riot, tia: &Tia, bank: u8) -> State
        requires aligned { tia.now.fields.clock % 3 ≡ 0 }
        requires bank { bank < 2 }
        ensures { result ≡ record { cpu = cpu; riot = fields_of riot.now; tia = tia.now.fields; bank = bank } }
    {
        // (the proof then knows that the status is one)
        let _ = &cpu.p;
        State {
            fields: StateFields {
                cpu,
                riot: riot.fields(),
                tia: tia.fields(),
                bank,
            },
        }
    }

    /// Its processor.
    pub(crate) fn cpu(&self) -> Cpu
        ensures value { result ≡ self.now.cpu }
        ensures lawful { IsTrue (is_state self.now) }
    {
        self.fields.cpu
    }

    /// Its RIOT, whose pins are up.
    #[tactic(auto, unfolding(crate::specs::States::is_state))]
    pub(crate) fn riot(&self) -> Riot
        ensures { result ≡ riot_of self.now.riot }
    {
        Riot::from_fields(self.fields.riot).unwrap()
    }

    /// Its TIA, at line 0 with no button pressed.
    #[tactic(auto, unfolding(crate::specs::States::is_state))]
    pub(crate) fn tia(&self) -> Tia
        ensures { result ≡ tia_state_of self.now.tia }
    {
        Tia::from_fields(self.fields.tia).unwrap()
    }
}
