//! A console as its processor's bus.
ghost use Rattle.std.specs.Prelude.{◌≡◌, ◌%◌, ◌/◌, ◌-◌, ◌*◌, ◌+◌, ◌<◌, ◌≤◌, IsTrue, IfSome};
ghost use Rattle.std.specs.Prelude.{false, true};
ghost use Rattle.riot_map.specs.Bits.{has_bit};
ghost use Rattle.riot_map.specs.Riot.{riot_read};
ghost use Rattle.riot_map.specs.Riot.{riot_of, fields_of, with_pins, with_ram};
ghost use Rattle.tia_core.specs.TiaState.{tia_of as tia_state_of, with_fire, at_frame_start};
ghost use Rattle.vcs_machine.specs.Consoles.{meaning_of, after_wait, wait_cycles};
ghost use Rattle.vcs_machine.specs.Consoles.{cycles_to_line_start, passed, read_at};
ghost use Rattle.vcs_machine.specs.Private.Polls.{GoOn, IsPoll};
ghost use Rattle.vcs_machine.specs.Inputs.{is_input, is_pressed};
ghost use Rattle.vcs_machine.specs.Private.BeamCycles.{IsInside, beam_cycles};

use crate::devices::{Devices, LINE_CYCLES, MOST_LAG};
use crate::input::Input;
use crate::mapped_cart::MappedCart;
use crate::polls::Poll;
use crate::state::State;
use mos_cpu::{Bus, Cpu};
use riot_map::{Cart, Place, Riot, place};
use std::marker::Model;
use tia_core::{Effect, Paint, Tia, WSYNC};

/// A console in a frame, whose pixels go to a sink.
#[derive(Drop)]
pub struct Console<'a, S: Paint> {
    mapped: MappedCart<'a>,
    devices: Devices<S>,
    /// WSYNC was written in this instruction.
    awaits_line: bool,
    /// VSYNC has fallen in this frame.
    ended: bool,
}

impl<'a, S: Paint> Model for Console<'a, S> {
    ghost use Rattle.vcs_machine.specs.Consoles.{Console as ConsoleOf};
    ghost use Rattle.vcs_machine.specs.Private.Lag.{riot_seen, tia_seen, sink_seen, IsBehind};
    ghost use Rattle.vcs_machine.specs.Private.Lag.{IsEventful};

    ghost Value = { ConsoleOf S };

    ghost view = { λ c. record {
      cartridge = c.mapped.cart.now;
      bank = c.mapped.bank;
      riot = riot_seen c.devices;
      tia = tia_seen c.devices;
      awaits_line = c.awaits_line;
      ended = c.ended;
      sink = sink_seen S.drawn c.devices;
    } };

    ghost invariant = { λ c. IsBehind c.devices × IsEventful c.devices.has_event c.awaits_line c.ended };
}

impl<'a, S: Paint> Bus for Console<'a, S> {
    ghost use Rattle.vcs_machine.specs.Consoles.{Console as ConsoleOf};

    ghost State = { ConsoleOf S };

    ghost state = { λ c. c };

    ghost meaning = { meaning_of S.drawn };

    #[tactic(auto, unfolding(crate::specs::Consoles::meaning_of, riot_map::specs::Riot::after_cycles))]
    #[inline(always)]
    fn pass(&mut self, cycles: u8) {
        self.devices.pass(cycles);
    }

    #[tactic(auto, unfolding(crate::specs::Consoles::meaning_of, riot_map::specs::Riot::after_cycles))]
    #[inline(always)]
    fn read(&mut self, address: u16) -> u8 {
        match place(address) {
            Place::Cart(address) => {
                let byte = self.mapped.at(address);
                self.mapped.select(address);
                byte
            }
            Place::Tia(register) => {
                self.devices.catch_up_tia_apart();
                self.devices.tia.read(register)
            }
            Place::Ram(index) => self.devices.riot.ram(index),
            Place::Io(number) => {
                self.devices.has_event = true;
                self.devices.catch_up_riot();
                self.devices.riot.read(number)
            }
        }
    }

    #[tactic(auto, unfolding(crate::specs::Consoles::meaning_of, riot_map::specs::Riot::after_cycles))]
    #[inline(always)]
    fn write(&mut self, address: u16, value: u8) {
        match place(address) {
            Place::Cart(address) => self.mapped.select(address),
            Place::Tia(register) => self.write_tia(register, value),
            Place::Ram(index) => self.devices.riot.set_ram(index, value),
            Place::Io(register) => {
                self.devices.catch_up_riot();
                self.devices.riot.write(register, value);
            }
        }
    }

    #[tactic(auto, unfolding(crate::specs::Consoles::meaning_of, riot_map::specs::Riot::after_cycles))]
    #[inline(always)]
    fn peek(&self, address: u16) -> Option<u8> {
        match place(address) {
            Place::Cart(address) => Some(self.mapped.at(address)),
            Place::Ram(index) => Some(self.devices.riot.ram(index)),
            Place::Tia(_) | Place::Io(_) => None,
        }
    }

    #[tactic(auto, unfolding(crate::specs::Consoles::meaning_of))]
    #[inline(always)]
    fn peek_after(&self, address: u16) -> Option<u8> {
        match place(address) {
            Place::Cart(address) => self.mapped.after(address),
            _ => None,
        }
    }

    #[tactic(auto, unfolding(crate::specs::Consoles::meaning_of, riot_map::specs::Riot::after_cycles))]
    #[inline(always)]
    fn peek_zero(&self, address: u8) -> u8 {
        match place(address as u16) {
            Place::Tia(register) => self.devices.peek_tia(register),
            _ => self.devices.riot.ram(address % 128),
        }
    }
}

impl<'a, S: Paint> Console<'a, S> {
    ghost use Rattle.vcs_machine.specs.Consoles.{after_tia_write};
    ghost use Rattle.vcs_machine.specs.Instructions.{byte_at};
    ghost use Rattle.vcs_machine.specs.Outcomes.{console_of, state_left};

    /// The console of a state as a frame begins: the pins and the buttons are those of the input.
    #[tactic(auto, unfolding(riot_map::specs::Riot::after_cycles))]
    pub fn begin(cart: &'a Cart, state: &State, input: Input, sink: S) -> Self
        ensures value { result ≡ console_of cart.now state.now input sink }
        ensures lawful { IsTrue (is_input input) }
    {
        let mut riot = state.riot();
        riot.set_pins(input.swcha(), input.swchb());
        let mut tia = state.tia();
        tia.set_fire(input.fire0(), input.fire1());
        tia.new_frame();
        Console {
            mapped: MappedCart::new(cart, state.bank()),
            devices: Devices {
                riot,
                tia,
                sink,
                lag_left: MOST_LAG,
                riot_left: MOST_LAG,
                has_event: false,
            },
            awaits_line: false,
            ended: false,
        }
    }

    /// The state that a processor and this console leave where a cycle begins, and the sink.
    pub fn finish(self, cpu: Cpu) -> (State, S)
        requires { self.tia.fields.clock % 3 ≡ 0 }
        ensures state { result.0 ≡ record {
          cpu = cpu;
          riot = fields_of self.entry.riot;
          tia = self.entry.tia.fields;
          bank = self.entry.bank;
        } }
        ensures sink { result.1 ≡ self.entry.sink }
    {
        let Console {
            mapped,
            mut devices,
            awaits_line: _,
            ended: _,
        } = self;
        devices.catch_up_tia_apart();
        devices.catch_up_riot();
        let Devices {
            riot,
            tia,
            sink,
            lag_left: _,
            riot_left: _,
            has_event: _,
        } = devices;
        (State::of_parts(cpu, &riot, &tia, mapped.bank), sink)
    }

    /// A write of a register of the TIA.
    #[tactic(auto, unfolding(riot_map::specs::Riot::after_cycles, tia_core::specs::Write::tia_after_write))]
    #[inline(always)]
    fn write_tia(&mut self, register: u8, value: u8)
        ensures { self.new ≡ after_tia_write self.old register value }
    {
        // These don't let the devices catch up, since they change nothing in the TIA.
        if register == WSYNC {
            self.awaits_line = true;
            self.devices.has_event = true;
            return;
        }
        if self.devices.tia.is_unchanged_by(register, value) {
            return;
        }
        self.change_tia(register, value);
    }

    /// A write of a register of the TIA that may change something.
    #[tactic(auto, unfolding(riot_map::specs::Riot::after_cycles, tia_core::specs::Write::tia_after_write))]
    #[inline(never)]
    fn change_tia(&mut self, register: u8, value: u8)
        ensures { self.new ≡ after_tia_write self.old register value }
    {
        if self.devices.write_unseen(register, value) {
            return;
        }
        self.devices.catch_up_tia();
        match self.devices.tia.write(register, value) {
            Effect::Nothing => return,
            Effect::Sync => self.awaits_line = true,
            Effect::FrameEnd => self.ended = true,
        }
        self.devices.has_event = true;
    }

    /// Whether an instruction may have asked for a wait, ended the frame, or read the RIOT, or the
    /// frame may be too long.
    #[inline(always)]
    pub fn has_event(&self) -> bool
        ensures no_wait { result ≡ false → self.now.awaits_line ≡ false }
        ensures no_end { result ≡ false → self.now.ended ≡ false }
        ensures early { result ≡ false → self.now.tia.line < 320 }
    {
        self.devices.has_event
    }

    /// Forgets what instructions have done, but for the frame's end.
    #[inline(always)]
    fn forget_event(&mut self)
        requires { self.old.awaits_line ≡ false }
        ensures { self.new ≡ self.old }
    {
        self.devices.has_event = self.ended || self.devices.is_late();
    }

    /// The wait that an instruction left, in cycles: up to the next scanline if it wrote WSYNC.
    #[tactic(auto, unfolding(crate::specs::Consoles::meaning_of, riot_map::specs::Riot::after_cycles))]
    pub fn wait(&mut self) -> u8
        ensures bus { self.new ≡ after_wait S.drawn self.old }
        ensures cycles { result ≡ wait_cycles self.old }
        ensures most { result ≤ 75 }
    {
        if !self.awaits_line {
            self.forget_event();
            return 0;
        }
        let cycles = (LINE_CYCLES - self.devices.line_cycle()) % LINE_CYCLES;
        self.pass(cycles);
        self.awaits_line = false;
        self.forget_event();
        cycles
    }

    /// The selected bank of the cartridge.
    pub fn bank(&self) -> u8
        ensures { result ≡ self.now.bank }
    {
        self.mapped.bank
    }

    /// An instruction's byte, or 0 if a register of a device would answer.
    pub fn byte_at(&self, address: u16) -> u8
        ensures { result ≡ byte_at (meaning_of S.drawn) self.now address }
    {
        self.peek(address).unwrap_or(0)
    }

    /// The scanline of the frame, counted from 0, and the cycle of it at which the beam stands.
    #[tactic(auto, unfolding(riot_map::specs::Riot::after_cycles))]
    pub fn beam(&mut self) -> (u16, u8)
        ensures bus { self.new ≡ self.old }
        ensures line { result.0 ≡ self.old.tia.line }
        ensures cycle { result.1 ≡ self.old.tia.fields.clock / 3 }
        ensures inside { self.old.tia.fields.clock < 228 }
    {
        self.devices.catch_up_tia_apart();
        (self.devices.tia.line(), self.devices.tia.beam() / 3)
    }

    /// The cycles from the begin of the frame's line 0 to the beam.
    pub fn beam_cycles(&mut self) -> u32
        ensures bus { self.new ≡ self.old }
        ensures cycles { result ≡ beam_cycles self.old }
        ensures inside { IsInside self.old }
    {
        let (line, cycle) = self.beam();
        LINE_CYCLES as u32 * line as u32 + cycle as u32
    }

    /// Whether VSYNC has fallen in this frame.
    pub fn has_ended(&self) -> bool
        ensures { result ≡ self.now.ended }
    {
        self.ended
    }

    /// The loop that waits for the timer whose branch stands at an address, if one does there.
    pub fn poll_at(&self, pc: u16) -> Option<Poll>
        ensures { IfSome result (λ poll. IsPoll self.now.cartridge self.now.bank pc poll) }
    {
        self.mapped.poll_at(pc)
    }

    /// So many rounds of such a loop surely go on: what is loaded in each but the last has the branch
    /// taken again.
    #[tactic(auto, unfolding(riot_map::specs::Riot::after_cycles))]
    pub fn rounds_ahead(&mut self, poll: Poll) -> u32
        requires timer { has_bit poll.register 2 ≡ true }
        requires cycles { 0 < poll.cycles }
        ensures bus { self.new ≡ self.old }
        ensures some { 1 ≤ result }
        ensures going { GoOn poll self.old.riot result }
    {
        self.devices.catch_up_riot();
        let byte = self.devices.riot.peek(poll.register);
        if !poll.branch.goes_on(byte) {
            return 1;
        }
        self.devices.riot.cycles_above(poll.branch.least()) / poll.cycles as u32 + 1
    }

    /// The byte that a load of a register of the RIOT gives, which ends after so many cycles.
    #[tactic(auto, unfolding(crate::specs::Consoles::meaning_of, riot_map::specs::Riot::after_cycles))]
    pub fn load_after(&mut self, register: u8, cycles: u32) -> u8
        ensures bus { self.new ≡ read_at (passed S.drawn self.old cycles) (Place.Io register) }
        ensures byte { result ≡ riot_read (passed S.drawn self.old cycles).riot register }
    {
        self.pass_all(cycles);
        self.devices.catch_up_riot();
        self.devices.riot.read(register)
    }

    /// Lets cycles pass, those of several scanlines perhaps.
    #[tactic(auto, unfolding(crate::specs::Consoles::meaning_of, riot_map::specs::Riot::after_cycles))]
    fn pass_all(&mut self, cycles: u32)
        ensures { self.new ≡ passed S.drawn self.old cycles }
    {
        let mut left = cycles;
        while left > MOST_LAG as u32 {
            self.pass(MOST_LAG);
            left -= MOST_LAG as u32;
        }
        self.pass(left as u8);
    }
}
