//! The RIOT.
ghost use Rattle.std.specs.Prelude.{ℕ, ◌≡◌, ◌<◌, ◌%◌, IsTrue, if◌then◌else◌, slice_index, Some, None};
ghost use Rattle.std.specs.Fn.{iterate};
ghost use Rattle.riot_map.specs.Riot.{is_timer};
ghost use Rattle.riot_chip.specs.Riot.{RiotState, riot_of, fields_of, riot_at_power_on, is_riot};
ghost use Rattle.riot_chip.specs.Riot.{riot_after_step, riot_read, riot_after_read, riot_after_write};
ghost use Rattle.riot_chip.specs.Riot.{after_port_write, port_read, with_pins, with_ram};
ghost use Rattle.riot_chip.specs.Timer.{ShowsAtLeast, after_step, cycles_at_least};

use crate::fields::RiotFields;
use crate::timer::Timer;
use riot_map::Port;
use std::marker::Model;

/// A RIOT: 128 bytes of memory, two ports and a timer.
#[derive(Drop)]
pub struct Riot {
    ram: [u8; 128],
    port_a: Port,
    port_b: Port,
    timer: Timer,
}

impl Model for Riot {
    ghost use Rattle.riot_chip.specs.Riot.{RiotState};

    ghost Value = { RiotState };

    ghost view = { λ r. record { ram = r.ram; port_a = r.port_a; port_b = r.port_b; timer = r.timer } };
}

/// Line A2 of a register's address: whether it is one of the timer.
fn is_timer(register: u8) -> bool
    ensures { result ≡ is_timer register }
{
    register / 4 % 2 == 1
}

impl Riot {
    /// A RIOT as the power comes on, with all pins at 1.
    pub fn power_on() -> Riot
        ensures { result ≡ riot_at_power_on }
    {
        let port = Port {
            output: 0,
            direction: 0,
            pins: 0xFF,
        };
        Riot {
            ram: [0; 128],
            port_a: port,
            port_b: port,
            timer: Timer::power_on(),
        }
    }

    /// The RIOT of these numbers, with all pins at 1; none if they aren't lawful.
    pub fn from_fields(fields: RiotFields) -> Option<Riot>
        ensures { result ≡ (if is_riot fields then Some (riot_of fields) else None) }
    {
        let numbers = fields.timer;
        let ram = fields.ram;
        let timer = Timer::from_fields(numbers)?;
        Some(Riot {
            ram,
            port_a: Port {
                output: fields.output_a,
                direction: fields.direction_a,
                pins: 0xFF,
            },
            port_b: Port {
                output: fields.output_b,
                direction: fields.direction_b,
                pins: 0xFF,
            },
            timer,
        })
    }

    /// Its numbers.
    pub fn fields(&self) -> RiotFields
        ensures value { result ≡ fields_of self.now }
        ensures lawful { IsTrue (is_riot result) }
    {
        RiotFields {
            ram: self.ram,
            output_a: self.port_a.output,
            direction_a: self.port_a.direction,
            output_b: self.port_b.output,
            direction_b: self.port_b.direction,
            timer: self.timer.fields(),
        }
    }

    /// Lets one cycle of the processor's clock pass.
    pub fn step(&mut self)
        ensures { self.new ≡ riot_after_step self.old }
    {
        self.timer.step();
    }

    /// Lets so many cycles pass.
    #[tactic(auto, using(crate::proofs::StepLemmas::steps))]
    pub fn steps(&mut self, count: u32)
        ensures { self.new ≡ iterate riot_after_step count self.old }
    {
        self.timer.cycles(count);
    }

    /// For how many cycles, from this one on, INTIM shows at least this much while the timer's flag
    /// isn't set.
    pub fn cycles_at_least(&self, least: u8) -> u32
        ensures value { result ≡ cycles_at_least least self.now.timer }
        ensures shown { (n : ℕ) → n < result → ShowsAtLeast least (iterate after_step n self.now.timer) }
    {
        self.timer.cycles_at_least(least)
    }

    /// Reads SWCHA, SWACNT, SWCHB or SWBCNT.
    fn read_port(&self, register: u8) -> u8
        ensures { result ≡ port_read self.now (register % 4) }
    {
        match register % 4 {
            0 => self.port_a.read_a(),
            1 => self.port_a.direction,
            2 => self.port_b.read_b(),
            _ => self.port_b.direction,
        }
    }

    /// Reads a register of the ports or the timer. The low five bits of `register` are the address
    /// lines A0 to A4; the others don't count.
    pub fn read(&mut self, register: u8) -> u8
        ensures value { result ≡ riot_read self.old register }
        ensures after { self.new ≡ riot_after_read self.old register }
    {
        if is_timer(register) {
            self.timer.read(register)
        } else {
            self.read_port(register)
        }
    }

    /// Writes SWCHA, SWACNT, SWCHB or SWBCNT.
    fn write_port(&mut self, register: u8, value: u8)
        ensures { self.new ≡ after_port_write self.old (register % 4) value }
    {
        match register % 4 {
            0 => self.port_a.output = value,
            1 => self.port_a.direction = value,
            2 => self.port_b.output = value,
            _ => self.port_b.direction = value,
        }
    }

    /// Writes a register of the ports or the timer. The low five bits of `register` are the address
    /// lines A0 to A4; the others don't count.
    pub fn write(&mut self, register: u8, value: u8)
        ensures { self.new ≡ riot_after_write self.old register value }
    {
        if is_timer(register) {
            self.timer.write(register, value);
        } else {
            self.write_port(register, value);
        }
    }

    /// A byte of the memory.
    pub fn ram(&self, i: u8) -> u8
        requires { i < 128 }
        ensures { result ≡ slice_index self.now.ram i }
    {
        self.ram[i as usize]
    }

    /// Sets a byte of the memory.
    pub fn set_ram(&mut self, i: u8, value: u8)
        requires { i < 128 }
        ensures { self.new ≡ with_ram i value self.old }
    {
        let index = i as usize;
        self.ram[index] = value;
    }

    /// Sets the pins of both ports: `a` those of the joysticks, `b` those of the console's
    /// switches.
    pub fn set_pins(&mut self, a: u8, b: u8)
        ensures { self.new ≡ with_pins a b self.old }
    {
        self.port_a.pins = a;
        self.port_b.pins = b;
    }
}
