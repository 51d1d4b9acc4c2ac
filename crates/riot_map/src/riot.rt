//! The RIOT.
ghost use Rattle.std.specs.Prelude.{◌≡◌, ◌<◌, ◌%◌, ◌^◌, if◌then◌else◌, IsTrue, slice_index};
ghost use Rattle.riot_map.specs.Riot.{RiotState, riot_of, fields_of, riot_at_power_on};
ghost use Rattle.riot_map.specs.Riot.{after_cycles, riot_read, after_read, after_write};
ghost use Rattle.riot_map.specs.Riot.{after_port_write, after_timer_write, port_read};
ghost use Rattle.riot_map.specs.Riot.{with_pins, with_ram};
ghost use Rattle.riot_map.specs.RiotFields.{is_riot, timer_of};
ghost use Rattle.riot_map.specs.Timer.{cycles_above};

use crate::bits::has_bit;
use crate::fields::RiotFields;
use crate::interval::Interval;
use crate::port::Port;
use crate::timer::Timer;
use std::marker::Model;

/// A RIOT: 128 bytes of memory, two ports and a timer.
#[derive(Drop)]
pub struct Riot {
    ram: [u8; 128],
    port_a: Port,
    port_b: Port,
    timer: Timer,
}

impl Model for Riot {
    ghost use Rattle.riot_map.specs.Riot.{RiotState};

    ghost Value = { RiotState };

    ghost view = { λ r. record { ram = r.ram; port_a = r.port_a; port_b = r.port_b; timer = r.timer } };
}

impl Riot {
    /// A RIOT as the power comes on, with all pins at 1.
    #[tactic(auto, unfolding(crate::specs::Riot::riot_at_power_on, crate::specs::Timer::timer_of_write))]
    pub fn power_on() -> Riot
        ensures { result ≡ riot_at_power_on }
    {
        let port = Port {
            output: 0,
            direction: 0,
            pins: 0xFF,
        };
        Riot {
            ram: [0; 128],
            port_a: port,
            port_b: port,
            timer: Timer::start(Interval::T1024t, 0),
        }
    }

    /// The RIOT of some numbers, with all pins at 1; none if they aren't lawful.
    #[tactic(auto, unfolding(crate::specs::Riot::riot_of))]
    pub fn from_fields(fields: RiotFields) -> Option<Riot>
        ensures { result ≡ (if is_riot fields then Some (riot_of fields) else None) }
    {
        let timer = Timer::from_fields(&fields)?;
        Some(Riot {
            ram: fields.ram,
            port_a: Port {
                output: fields.output_a,
                direction: fields.direction_a,
                pins: 0xFF,
            },
            port_b: Port {
                output: fields.output_b,
                direction: fields.direction_b,
                pins: 0xFF,
            },
            timer,
        })
    }

    /// Its numbers.
    #[tactic(auto, unfolding(crate::specs::Riot::fields_of, crate::specs::RiotFields::is_riot, crate::specs::RiotFields::timer_of))]
    pub fn fields(&self) -> RiotFields
        ensures value { result ≡ fields_of self.now }
        ensures lawful { IsTrue (is_riot result) }
        ensures timer { timer_of result ≡ self.now.timer }
    {
        RiotFields {
            ram: self.ram,
            output_a: self.port_a.output,
            direction_a: self.port_a.direction,
            output_b: self.port_b.output,
            direction_b: self.port_b.direction,
            timer: self.timer.value(),
            part: self.timer.part(),
            interval: self.timer.interval_code(),
            past_zero: self.timer.is_past_zero() as u8,
            flag: self.timer.flag() as u8,
        }
    }

    /// The cycles that may pass while INTIM, before zero, shows at least this much; 0 if it shows
    /// less now, or if zero is behind.
    pub fn cycles_above(&self, least: u8) -> u32
        ensures value { result ≡ cycles_above least self.now.timer }
        ensures interval { 0 < self.now.timer.interval }
        ensures most { result < 2 ^ 18 }
    {
        self.timer.cycles_above(least)
    }

    /// Lets `n` cycles of the processor's clock pass.
    #[tactic(auto, unfolding(crate::specs::Riot::after_cycles))]
    #[inline(always)]
    pub fn cycles(&mut self, n: u8)
        ensures { self.new ≡ after_cycles n self.old }
    {
        self.timer.cycles(n);
    }

    /// What a read of a register of the ports or the timer would give. The low five bits of `register`
    /// are the address lines A0 to A4; the others don't count.
    #[tactic(auto, unfolding(crate::specs::Riot::riot_read))]
    #[inline(always)]
    pub fn peek(&self, register: u8) -> u8
        ensures { result ≡ riot_read self.now register }
    {
        if !has_bit(u16::from(register), 2) {
            self.read_port(register)
        } else if !has_bit(u16::from(register), 0) {
            self.timer.value()
        } else if self.timer.flag() {
            0x80
        } else {
            0
        }
    }

    /// Reads a register of the ports or the timer: what `peek` says. A read of INTIM clears the
    /// flag.
    #[tactic(auto, unfolding(crate::specs::Riot::after_read, crate::specs::Riot::after_timer_read))]
    pub fn read(&mut self, register: u8) -> u8
        ensures value { result ≡ riot_read self.old register }
        ensures after { self.new ≡ after_read self.old register }
    {
        let value = self.peek(register);
        if has_bit(u16::from(register), 2) && !has_bit(u16::from(register), 0) {
            self.timer.clear_flag();
        }
        value
    }

    /// Reads SWCHA, SWACNT, SWCHB or SWBCNT.
    fn read_port(&self, register: u8) -> u8
        ensures { result ≡ port_read self.now (register % 4) }
    {
        match register % 4 {
            0 => self.port_a.read_a(),
            1 => self.port_a.direction,
            2 => self.port_b.read_b(),
            _ => self.port_b.direction,
        }
    }

    /// Writes a register of the ports or the timer. The low five bits of `register` are the address
    /// lines A0 to A4; the others don't count.
    #[tactic(auto, unfolding(crate::specs::Riot::after_write))]
    pub fn write(&mut self, register: u8, value: u8)
        ensures { self.new ≡ after_write self.old register value }
    {
        if has_bit(u16::from(register), 2) {
            if has_bit(u16::from(register), 4) {
                self.timer = Timer::start(Interval::of_code(register % 4), value);
            }
        } else {
            match register % 4 {
                0 => self.port_a.output = value,
                1 => self.port_a.direction = value,
                2 => self.port_b.output = value,
                _ => self.port_b.direction = value,
            }
        }
    }

    /// A byte of the memory.
    pub fn ram(&self, i: u8) -> u8
        requires { i < 128 }
        ensures { result ≡ slice_index self.now.ram i }
    {
        self.ram[i as usize]
    }

    /// Sets a byte of the memory.
    pub fn set_ram(&mut self, i: u8, value: u8)
        requires { i < 128 }
        ensures { self.new ≡ with_ram i value self.old }
    {
        self.ram[i as usize] = value;
    }

    /// Sets the pins of both ports: `a` those of the joysticks, `b` those of the console's
    /// switches.
    pub fn set_pins(&mut self, a: u8, b: u8)
        ensures { self.new ≡ with_pins a b self.old }
    {
        self.port_a.pins = a;
        self.port_b.pins = b;
    }
}
