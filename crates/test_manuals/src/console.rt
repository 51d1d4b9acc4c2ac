//! A TIA and a RIOT at their addresses.

use crate::row::Row;
use crate::step::{Object, Step};
use riot_map::{Place, Riot, place};
use tia_core::{Effect, Tia, TiaFields};

/// No colour that a TIA puts.
const NO_COLOUR: u8 = 0xFF;

/// A TIA, a RIOT, and the pixels that were drawn last.
#[derive(Drop)]
pub(crate) struct Console {
    tia: Tia,
    riot: Riot,
    row: Row,
}

impl Console {
    /// Both as they are switched on.
    pub(crate) fn power_on() -> Console {
        Console {
            tia: Tia::power_on(),
            riot: Riot::power_on(),
            row: Row::of(NO_COLOUR),
        }
    }

    /// Takes a step. Whether all is as the step says.
    pub(crate) fn take(&mut self, step: &Step) -> bool {
        match step {
            Step::Write(address, value, effect) => {
                return self.write(*address, *value) == Some(*effect);
            }
            Step::Read(address, value) => return self.read(*address) == Some(*value),
            Step::Row(row) => return self.line() == *row,
            Step::Beam(clock) => return self.tia.beam() == *clock,
            Step::Put(object, pixel) => return self.put(object, *pixel),
            Step::At(object, pixel) => return *position(&mut self.tia.fields(), object) == *pixel,
            Step::Clocks(count) => self.clocks(*count),
            Step::Cycles(count) => self.cycles(*count),
            Step::Fire(first, second) => self.tia.set_fire(*first, *second),
            Step::Frame => self.tia.new_frame(),
            Step::Pins(a, b) => self.riot.set_pins(*a, *b),
        }
        true
    }

    /// Writes a byte; none where the address is the cartridge's.
    fn write(&mut self, address: u16, value: u8) -> Option<Effect> {
        match place(address) {
            Place::Tia(register) => return Some(self.tia.write(register, value)),
            Place::Ram(index) => self.riot.set_ram(index, value),
            Place::Io(register) => self.riot.write(register, value),
            Place::Cart(_) => return None,
        }
        Some(Effect::Nothing)
    }

    fn read(&mut self, address: u16) -> Option<u8> {
        match place(address) {
            Place::Tia(register) => Some(self.tia.read(register)),
            Place::Ram(index) => Some(self.riot.ram(index)),
            Place::Io(register) => Some(self.riot.read(register)),
            Place::Cart(_) => None,
        }
    }

    fn clocks(&mut self, count: u16) {
        for _hundred in 0..count / 100 {
            self.tia.clocks(100, &mut self.row);
        }
        self.tia.clocks((count % 100) as u8, &mut self.row);
    }

    fn cycles(&mut self, count: u16) {
        for _hundred in 0..count / 100 {
            self.riot.cycles(100);
        }
        self.riot.cycles((count % 100) as u8);
    }

    /// The pixels of the line, once it is drawn to its end.
    fn line(&mut self) -> Row {
        let left = 228 - self.tia.beam();
        self.tia.clocks(left, &mut self.row);
        let row = self.row;
        self.row = Row::of(NO_COLOUR);
        row
    }

    /// Puts an object to a pixel, and releases the buttons. Whether there is such a pixel.
    fn put(&mut self, object: &Object, pixel: u8) -> bool {
        let mut fields = self.tia.fields();
        *position(&mut fields, object) = pixel;
        match Tia::from_fields(fields) {
            Some(tia) => {
                self.tia = tia;
                true
            }
            None => false,
        }
    }
}

/// The position of an object.
fn position<'a>(fields: &'a mut TiaFields, object: &Object) -> &'a mut u8 {
    match object {
        Object::Player0 => &mut fields.position_p0,
        Object::Player1 => &mut fields.position_p1,
        Object::Missile0 => &mut fields.position_m0,
        Object::Missile1 => &mut fields.position_m1,
        Object::Ball => &mut fields.position_bl,
    }
}
