//! A console as its processor's bus.
ghost use Rattle.std.specs.Prelude.{◌≡◌, ◌↔◌, ◌/◌, ◌<◌, ◌≤◌, false, IfSome, IsTrue, None, Some, true};
ghost use Rattle.riot_map.specs.Place.{place_of};
ghost use Rattle.cart_board.specs.CartState.{fits};
ghost use Rattle.chip_machine.specs.Consoles.{after_cycle, after_stop, byte_found};
ghost use Rattle.chip_machine.specs.Consoles.{holds_code_at as holds_code_at_place};
ghost use Rattle.chip_machine.specs.Consoles.{found_at, meaning_of, read_at, seen, selected, stored_at};
ghost use Rattle.chip_machine.specs.Consoles.{after_tia_write as after_tia_write_of};
ghost use Rattle.chip_machine.specs.Outcomes.{begun, riot_left, tia_left};
ghost use Rattle.chip_machine.specs.Pictures.{rows_of};
ghost use Rattle.chip_machine.specs.Private.AtHand.{AreAtHand, IsRomAt, ReadsAlone};
ghost use Rattle.chip_machine.specs.Private.Lag.{after_cycles};
ghost use Rattle.chip_machine.specs.Private.Polls.{GoOn, IsPoll};
ghost use Rattle.record_table.specs.Bits.{has_bit};
ghost use Rattle.riot_chip.specs.Riot.{riot_read};
ghost use Rattle.riot_map.specs.declared.places.Place.TheVariants.{Io};

use crate::devices::Devices;
use crate::left::Left;
use crate::polls::{Poll, ROUND_CYCLES, poll_at};
use bus_cycles::{CycleBus, Purpose};
use cart_board::{Kind, MappedCart};
use riot_chip::Riot;
use riot_map::{Place, place};
use std::marker::Model;
use tia_chip::{Effect, Tia};
use tia_core::Paint;
use vcs_machine::{Input, LINE_CYCLES, MOST_ROWS};

/// A console in a frame, whose pixels go to a sink.
#[derive(Drop)]
pub struct Console<'a, S: Paint> {
    cart: MappedCart<'a>,
    devices: Devices<S>,
    /// The last byte on the bus.
    byte: u8,
    /// WSYNC was written, and nothing was read since.
    is_stopped: bool,
    /// VSYNC has fallen in this frame.
    has_ended: bool,
    /// The RIOT's ports or timer were read.
    has_read_riot: bool,
    /// One of these has come true since `clear_event`.
    has_event: bool,
}

impl<'a, S: Paint> Model for Console<'a, S> {
    ghost use Rattle.chip_machine.specs.Consoles.{Console as ConsoleOf};
    ghost use Rattle.chip_machine.specs.Private.Events.{AreTold};
    ghost use Rattle.chip_machine.specs.Private.Lag.{IsBehind, cycles_seen, riot_seen, sink_seen};
    ghost use Rattle.chip_machine.specs.Private.Lag.{tia_seen};

    ghost Value = { ConsoleOf S };

    ghost view = { λ c. record {
      cart = c.cart;
      riot = riot_seen c.devices;
      tia = tia_seen c.devices;
      sink = sink_seen S.drawn c.devices;
      byte = c.byte;
      is_stopped = c.is_stopped;
      has_ended = c.has_ended;
      cycles = cycles_seen c.devices;
    } };

    ghost invariant = { λ c. (IsBehind c.devices) × (AreTold c.is_stopped c.has_ended c.has_event) };
}

impl<'a, S: Paint> CycleBus for Console<'a, S> {
    ghost use Rattle.chip_machine.specs.Consoles.{Console as ConsoleOf};

    ghost State = { ConsoleOf S };

    ghost state = { λ c. c };

    ghost meaning = { meaning_of S.drawn };

    #[inline(always)]
    #[tactic(auto, unfolding(crate::specs::Consoles::meaning_of))]
    fn holds_code(&self, address: u16) -> bool {
        self.rom_at(address).is_some() || self.holds_code_at(address)
    }

    #[inline(always)]
    #[tactic(auto, unfolding(crate::specs::Consoles::meaning_of))]
    fn read(&mut self, address: u16, _purpose: Purpose) -> u8 {
        self.pass_stop();
        self.cycle();
        self.read_now(address)
    }

    #[inline(always)]
    #[tactic(auto, unfolding(crate::specs::Consoles::meaning_of))]
    fn write(&mut self, address: u16, value: u8) {
        self.cycle();
        self.write_now(address, value);
    }

    #[inline(always)]
    fn at_hand(&self, address: u16) -> Option<(u8, u8)> {
        self.two_at(address)
    }

    #[inline(always)]
    fn read_two(&mut self, address: u16, second: u8, purpose: Purpose) {
        match self.two_at(address) {
            Some(_) => {
                self.two_cycles();
                self.byte = second;
            }
            None => {
                let _ = self.read(address, Purpose::Code);
                let _ = self.read(address.wrapping_add(1), purpose);
            }
        }
    }
}

impl<'a, S: Paint> Console<'a, S> {
    /// A console as a frame begins: the pins and the buttons are those of the input.
    pub fn begin(cart: MappedCart<'a>, riot: Riot, tia: Tia, input: Input, sink: S) -> Self
        ensures { result ≡ begun cart.entry riot tia input sink }
    {
        let [swcha, swchb, buttons] = input.bytes();
        let (mut riot, mut tia) = (riot, tia);
        riot.set_pins(swcha, swchb);
        tia.set_fire(buttons % 2 == 1, buttons / 2 % 2 == 1);
        tia.new_frame();
        Console {
            cart,
            devices: Devices::new(riot, tia, sink),
            byte: 0,
            is_stopped: false,
            has_ended: false,
            has_read_riot: false,
            has_event: false,
        }
    }

    /// One cycle of the processor's clock: three colour clocks, and a step of the timer.
    #[inline(always)]
    fn cycle(&mut self)
        ensures { self.new ≡ after_cycle S.drawn self.old }
    {
        self.devices.pass(1);
    }

    /// Two of them.
    #[inline(always)]
    fn two_cycles(&mut self)
        ensures { self.new ≡ after_cycle S.drawn (after_cycle S.drawn self.old) }
    {
        self.devices.pass(2);
    }

    /// Lets the cycles pass for which WSYNC has stopped the processor, if it has.
    #[inline(always)]
    pub fn pass_stop(&mut self)
        ensures { self.new ≡ after_stop S.drawn self.old }
    {
        if self.is_stopped {
            let cycles = (LINE_CYCLES - self.devices.line_cycle()) % LINE_CYCLES;
            self.devices.pass(cycles);
            self.is_stopped = false;
        }
    }

    /// The byte of ROM at an address, if an access that reads it selects nothing. None says nothing.
    #[inline(always)]
    fn rom_at(&self, address: u16) -> Option<u8>
        ensures { IfSome result (λ byte. IsRomAt self.now.cart address byte) }
    {
        match place(address) {
            Place::Cart(_) => self.cart.rom_at(address),
            _ => None,
        }
    }

    /// Whether a byte of an instruction can be fetched from an address.
    #[cold]
    #[inline(never)]
    fn holds_code_at(&self, address: u16) -> bool
        ensures { result ≡ holds_code_at_place self.now (place_of address) }
    {
        match place(address) {
            Place::Cart(address) => self.cart.target(address).kind != Kind::WritePort,
            Place::Ram(_) => true,
            Place::Tia(_) | Place::Io(_) => false,
        }
    }

    /// Two bytes of ROM one after the other, if reads of them select nothing and the processor isn't
    /// stopped. None says nothing.
    #[inline(always)]
    fn two_at(&self, address: u16) -> Option<(u8, u8)>
        ensures { IfSome result (λ bytes. AreAtHand self.now address bytes.0 bytes.1) }
    {
        if self.has_event {
            return None;
        }
        self.cart.rom_pair_at(address)
    }

    /// The byte of ROM or of the RIOT's memory at an address, if an access that reads it leaves it on
    /// the bus and does nothing else. None says nothing.
    #[inline(always)]
    fn memory_at(&self, address: u16) -> Option<u8>
        ensures { IfSome result (λ byte. ReadsAlone self.now address byte) }
    {
        match place(address) {
            Place::Cart(_) => self.rom_at(address),
            Place::Ram(index) => {
                if self.cart.is_plain(address) {
                    Some(self.devices.riot.ram(index))
                } else {
                    None
                }
            }
            _ => None,
        }
    }

    /// An access that reads, behind its cycle: the board sees it before and after.
    #[inline(never)]
    fn read_seen(&mut self, address: u16) -> u8
        ensures value { result ≡ byte_found (selected self.old address None) address }
        ensures after { let here = selected self.old address None in
            self.new ≡ seen (found_at here address) address (byte_found here address) }
    {
        self.cart.select(address, None);
        let byte = self.find(address);
        self.see(address, byte);
        byte
    }

    /// An access that reads, behind its cycle.
    #[inline(always)]
    fn read_now(&mut self, address: u16) -> u8
        ensures value { result ≡ byte_found (selected self.old address None) address }
        ensures after { let here = selected self.old address None in
            self.new ≡ seen (found_at here address) address (byte_found here address) }
    {
        match self.memory_at(address) {
            Some(byte) => {
                self.byte = byte;
                byte
            }
            None => self.read_seen(address),
        }
    }

    /// An access that writes, behind its cycle: the board sees it before and after.
    #[inline(never)]
    fn write_seen(&mut self, address: u16, value: u8)
        ensures { self.new ≡ seen (stored_at (selected self.old address (Some value)) address value) address value }
    {
        self.cart.select(address, Some(value));
        self.store(address, value);
        self.see(address, value);
    }

    /// An access that writes, behind its cycle.
    #[inline(always)]
    fn write_now(&mut self, address: u16, value: u8)
        ensures { self.new ≡ seen (stored_at (selected self.old address (Some value)) address value) address value }
    {
        if address / 4096 % 2 == 0 && self.cart.is_plain(address) {
            self.store(address, value);
            self.byte = value;
        } else {
            self.write_seen(address, value);
        }
    }

    /// The loop that waits for the timer whose branch stands at an address, if one does there.
    pub fn poll_at(&self, pc: u16) -> Option<Poll>
        ensures { IfSome result (λ poll. IsPoll self.now.cart pc poll) }
    {
        poll_at(&self.cart, pc)
    }

    /// So many rounds of such a loop surely go on.
    pub fn rounds_ahead(&mut self, poll: Poll) -> u32
        requires { has_bit poll.register 2 ≡ true }
        ensures console { self.new ≡ self.old }
        ensures going { GoOn poll self.old.riot result }
    {
        self.devices
            .cycles_ahead(poll)
            .div_ceil(ROUND_CYCLES as u32)
    }

    /// Lets cycles pass, and reads a register of the RIOT in the last of them.
    pub fn look_after(&mut self, register: u8, cycles: u32) -> u8
        requires { cycles ≤ 77824 }
        ensures byte { result ≡ riot_read (after_cycles S.drawn cycles self.old).riot register }
        ensures console { self.new ≡ record (read_at (after_cycles S.drawn cycles self.old) (Io register)) { byte = result } }
    {
        self.devices.pass_all(cycles);
        self.devices.catch_up_riot();
        let byte = self.devices.riot.read(register);
        self.byte = byte;
        byte
    }

    /// Whether WSYNC has stopped the processor, the frame has ended, or the RIOT was read since the last
    /// `clear_event`.
    #[inline(always)]
    pub fn has_event(&self) -> bool
        ensures no_stop { result ≡ false → self.now.is_stopped ≡ false }
        ensures no_end { result ≡ false → self.now.has_ended ≡ false }
    {
        self.has_event
    }

    /// What there was of that has been dealt with.
    #[inline(always)]
    pub fn clear_event(&mut self)
        requires no_stop { self.old.is_stopped ≡ false }
        requires no_end { self.old.has_ended ≡ false }
        ensures { self.new ≡ self.old }
    {
        self.has_event = false;
    }

    /// Whether the RIOT's ports or timer were read since this was asked.
    pub fn has_read_riot(&mut self) -> bool
        ensures { self.new ≡ self.old }
    {
        let has_read = self.has_read_riot;
        self.has_read_riot = false;
        has_read
    }

    /// The byte that a read of an address finds.
    fn find(&mut self, address: u16) -> u8
        ensures value { result ≡ byte_found self.old address }
        ensures after { self.new ≡ found_at self.old address }
    {
        match place(address) {
            Place::Cart(address) => self.cart.read(address, self.byte),
            Place::Tia(register) => {
                self.devices.catch_up_tia();
                self.devices.tia.read(register, self.byte)
            }
            Place::Ram(index) => self.devices.riot.ram(index),
            Place::Io(register) => {
                self.has_read_riot = true;
                self.has_event = true;
                self.devices.catch_up_riot();
                self.devices.riot.read(register)
            }
        }
    }

    /// A write of a register of the TIA.
    fn write_tia(&mut self, register: u8, value: u8)
        ensures { self.new ≡ after_tia_write_of self.old register value }
    {
        match self.devices.write_tia(register, value) {
            Effect::Nothing => {}
            Effect::Sync => {
                self.has_event = true;
                self.is_stopped = true;
            }
            Effect::FrameEnd => {
                self.has_event = true;
                self.has_ended = true;
            }
        }
    }

    /// Puts a byte where an address leads.
    fn store(&mut self, address: u16, value: u8)
        ensures { self.new ≡ stored_at self.old address value }
    {
        match place(address) {
            Place::Cart(address) => self.cart.write(address, value),
            Place::Tia(register) => self.write_tia(register, value),
            Place::Ram(index) => self.devices.riot.set_ram(index, value),
            Place::Io(register) => {
                self.devices.catch_up_riot();
                self.devices.riot.write(register, value);
            }
        }
    }

    /// The byte of an access is on the bus, and the board looks at it.
    fn see(&mut self, address: u16, byte: u8)
        ensures { self.new ≡ seen self.old address byte }
    {
        self.cart.select_by_byte(address, byte);
        self.byte = byte;
    }

    /// Whether VSYNC has fallen in this frame.
    pub fn has_ended(&self) -> bool
        ensures { result ≡ self.now.has_ended }
    {
        self.has_ended
    }

    /// Whether the cycles of the frame so far are fewer than so many.
    #[inline(always)]
    pub fn are_cycles_below(&self, bound: u32) -> bool
        requires { 76 ≤ bound }
        ensures { IsTrue result ↔ (self.now.cycles < bound) }
    {
        self.devices.are_cycles_below(bound)
    }

    /// The cycles of the frame so far.
    pub fn cycles(&self) -> u32
        ensures { result ≡ self.now.cycles }
    {
        self.devices.cycles()
    }

    /// The bank bytes of the cartridge.
    pub fn banks(&self) -> [u8; 3]
        ensures { result ≡ self.now.cart.banks }
    {
        self.cart.banks()
    }

    /// Lets the TIA see all cycles. It stays the same console: what its TIA is asked next takes less.
    pub fn catch_up_tia(&mut self)
        ensures { self.new ≡ self.old }
    {
        self.devices.catch_up_tia();
        self.devices.tia.catch_up();
    }

    /// The scanline of the frame, counted from 0, and the cycle of it at which the beam stands.
    pub fn beam(&self) -> (u16, u8)
        ensures line { result.0 ≡ self.now.tia.line }
        ensures cycle { result.1 ≡ self.now.tia.clock / 3 }
    {
        let tia = self.devices.seen_tia();
        (tia.line(), tia.line_clock() / 3)
    }

    /// The rows of the picture of a frame that ends here.
    pub fn rows(&self) -> u16
        ensures { result ≡ rows_of self.now.tia }
    {
        let tia = self.devices.seen_tia();
        let lines = tia.line() as u32 + u32::from(tia.line_clock() > 0);
        lines.min(MOST_ROWS as u32) as u16
    }

    /// The parts that it leaves as a frame ends, with all pins up and no button pressed.
    pub fn finish(self) -> Left<'a, S>
        ensures cart { result.cart ≡ self.entry.cart }
        ensures riot { result.riot ≡ riot_left self.entry.riot }
        ensures tia { result.tia ≡ tia_left self.entry.tia }
        ensures sink { result.sink ≡ self.entry.sink }
    {
        let Console {
            cart,
            mut devices,
            byte: _,
            is_stopped: _,
            has_ended: _,
            has_read_riot: _,
            has_event: _,
        } = self;
        devices.catch_up_tia();
        devices.catch_up_riot();
        let Devices {
            mut riot,
            mut tia,
            sink,
            cycles: _,
            lag_left: _,
            riot_left: _,
        } = devices;
        riot.set_pins(0xFF, 0xFF);
        tia.set_fire(false, false);
        tia.new_frame();
        Left {
            cart,
            riot,
            tia,
            sink,
        }
    }
}
