//! The TIA: colour clocks pass, and its registers are written and read. Clocks whose pixels nobody keeps
//! are only counted until they matter.
ghost use Rattle.std.specs.Fn.{iterate};
ghost use Rattle.std.specs.Prelude.{ℕ, ◌≡◌, ◌+◌, ◌%◌, ◌<◌, ◌≤◌, ◌&&◌, not, if◌then◌else◌, IfSome, IsTrue, Some, None, true, false};
ghost use Rattle.tia_chip.specs.AtRest.{awaits_rsync};
ghost use Rattle.tia_chip.specs.Clock.{after_clock};
ghost use Rattle.tia_chip.specs.Clock.{at_pixel};
ghost use Rattle.tia_chip.specs.Clocks.{sink_after_clocks};
ghost use Rattle.tia_chip.specs.Colour.{pixel_of};
ghost use Rattle.tia_chip.specs.Numbers.{is_settled, is_tia};
ghost use Rattle.tia_chip.specs.PowerOn.{at_frame_start, tia_at_power_on, with_fire};
ghost use Rattle.tia_chip.specs.Read.{tia_after_read, tia_read};
ghost use Rattle.tia_chip.specs.Write.{effect_of, tia_after_write};
ghost use Rattle.tia_chip.specs.declared.effect.Effect.TheVariants.{Nothing};

use crate::chip::Chip;
use crate::effect::Effect;
use crate::pixel::Pixel;
use crate::register::Register;
use crate::state::TiaState;
use std::marker::Model;
use tia_core::Paint;

/// Most clocks that the chip is behind.
const MOST_BEHIND: u32 = 1_000_000;

/// A TIA. Contracts see its state.
#[derive(Drop)]
pub struct Tia {
    chip: Chip,
    /// The clocks that have passed, and that the chip hasn't seen.
    behind: u32,
}

impl Model for Tia {
    ghost use Rattle.std.specs.Fn.{iterate};
    ghost use Rattle.std.specs.Prelude.{◌≤◌};
    ghost use Rattle.tia_chip.specs.Clock.{after_clock};
    ghost use Rattle.tia_chip.specs.declared.state.TiaState.{TiaState};

    ghost Value = { TiaState };

    ghost view = { λ a. iterate after_clock a.behind a.chip };

    ghost invariant = { λ a. a.behind ≤ 1000000 };
}

/// Lets a chip see the clocks that it is behind.
#[inline(always)]
fn catch_up(chip: &mut Chip, behind: &mut u32)
    ensures chip { chip.new ≡ iterate after_clock behind.old chip.old }
    ensures behind { behind.new ≡ 0 }
{
    chip.pass(*behind);
    *behind = 0;
}

impl Tia {
    /// A TIA that was just switched on.
    pub fn power_on() -> Self
        ensures { result ≡ tia_at_power_on }
    {
        Tia {
            chip: Chip::power_on(),
            behind: 0,
        }
    }

    /// The TIA of a state. None if its numbers aren't lawful, or if a record doesn't say all of it.
    pub fn from_state(state: TiaState) -> Option<Self>
        ensures { result ≡ (if is_tia state && is_settled state then Some state else None) }
    {
        match Chip::from_state(state) {
            Some(chip) => Some(Tia { chip, behind: 0 }),
            None => None,
        }
    }

    /// The chip once it has seen all clocks that have passed.
    fn chip_now(&self) -> Chip
        ensures { result ≡ self.now }
    {
        let mut chip = self.chip.copy();
        chip.pass(self.behind);
        chip
    }

    /// The clock of the line that comes next, 0 to 227.
    pub fn line_clock(&self) -> u8
        ensures value { result ≡ self.now.clock }
        ensures range { result < 228 }
    {
        match self.chip.line_clock_after(self.behind) {
            Some(clock) => clock,
            None => self.chip_now().line_clock(),
        }
    }

    /// The clock of the line that comes next once so many clocks have passed. None if an RSYNC is on
    /// its way, which no write leaves.
    #[inline(always)]
    pub fn line_clock_after(&self, count: u32) -> Option<u8>
        ensures value { result ≡ (if awaits_rsync self.now.waiting then None else Some ((self.now.clock + count) % 228)) }
        ensures clock { IfSome result (λ clock. (iterate after_clock count self.now).clock ≡ clock) }
        ensures range { IfSome result (λ clock. clock < 228) }
    {
        match self.chip.line_clock_after(self.behind) {
            Some(clock) => Some(((clock as u32 + count % 228) % 228) as u8),
            None => self.chip_now().line_clock_after(count),
        }
    }

    /// The line, from 0 at a frame's start, modulo 65,536.
    pub fn line(&self) -> u16
        ensures { result ≡ self.now.line }
    {
        self.chip_now().line()
    }

    /// The same TIA again.
    pub fn copy(&self) -> Tia
        ensures value { result ≡ self.now }
    {
        Tia {
            chip: self.chip.copy(),
            behind: self.behind,
        }
    }

    /// Its state.
    pub fn state(&self) -> TiaState
        ensures { result ≡ self.now }
    {
        self.chip_now().state()
    }

    /// One colour clock, and the pixel that it puts.
    pub fn clock(&mut self) -> Option<Pixel>
        ensures value { self.new ≡ after_clock self.old }
        ensures pixel { result ≡ pixel_of (at_pixel self.old) }
    {
        catch_up(&mut self.chip, &mut self.behind);
        self.chip.clock()
    }

    /// So many colour clocks, whose pixels go to the sink in order.
    #[inline(always)]
    pub fn clocks<S: Paint>(&mut self, count: u32, sink: &mut S)
        ensures state { self.new ≡ iterate after_clock count self.old }
        ensures sink { sink.new ≡ sink_after_clocks S.drawn sink.old count self.old }
    {
        if !sink.keeps() && count <= MOST_BEHIND - self.behind {
            self.behind += count;
        } else {
            catch_up(&mut self.chip, &mut self.behind);
            self.chip.clocks(count, sink);
        }
    }

    /// Passes the clocks that were only counted. It stays the same TIA: what it is asked next takes less.
    pub fn catch_up(&mut self)
        ensures { self.new ≡ self.old }
    {
        if self.behind > 0 {
            catch_up(&mut self.chip, &mut self.behind);
        }
    }

    /// Writes a register, of whose number the low six bits count, between two clocks.
    pub fn write(&mut self, number: u8, value: u8) -> Effect
        ensures value { self.new ≡ tia_after_write self.old number value }
        ensures effect { result ≡ effect_of self.old number value }
    {
        if Register::from_number(number).is_colour() && self.chip.is_free() {
            return self.chip.write(number, value);
        }
        catch_up(&mut self.chip, &mut self.behind);
        self.chip.write(number, value)
    }

    /// Writes a register so many clocks from now, if it can be put on its way already, and answers
    /// whether it is. That asks for nothing. It can be if it acts late, and no write is on its way but
    /// one that changes nothing.
    #[inline(always)]
    pub fn write_late(&mut self, lag: u8, number: u8, value: u8) -> bool
        ensures state { IsTrue result → iterate after_clock lag self.new ≡ tia_after_write (iterate after_clock lag self.old) number value }
        ensures pixels { IsTrue result → (n : ℕ) → n < lag → pixel_of (at_pixel (iterate after_clock n self.new)) ≡ pixel_of (at_pixel (iterate after_clock n self.old)) }
        ensures effect { IsTrue result → effect_of (iterate after_clock lag self.old) number value ≡ Nothing }
        ensures others { result ≡ false → self.new ≡ self.old }
    {
        let behind = self.behind;
        if lag > 240 || behind > 240 - u32::from(lag) {
            return self.write_late_apart(lag, number, value);
        }
        self.chip.write_late(behind as u8 + lag, number, value)
    }

    /// The same of a chip that first sees all clocks that have passed.
    #[cold]
    #[inline(never)]
    fn write_late_apart(&mut self, lag: u8, number: u8, value: u8) -> bool
        ensures state { IsTrue result → iterate after_clock lag self.new ≡ tia_after_write (iterate after_clock lag self.old) number value }
        ensures pixels { IsTrue result → (n : ℕ) → n < lag → pixel_of (at_pixel (iterate after_clock n self.new)) ≡ pixel_of (at_pixel (iterate after_clock n self.old)) }
        ensures effect { IsTrue result → effect_of (iterate after_clock lag self.old) number value ≡ Nothing }
        ensures others { result ≡ false → self.new ≡ self.old }
    {
        catch_up(&mut self.chip, &mut self.behind);
        self.chip.write_late(lag, number, value)
    }

    /// Reads a register, of whose number the low four bits count, between two clocks. `bus` is the
    /// last byte on the bus.
    pub fn read(&mut self, number: u8, bus: u8) -> u8
        ensures value { result ≡ tia_read self.old number bus }
        ensures state { self.new ≡ tia_after_read self.old number }
    {
        catch_up(&mut self.chip, &mut self.behind);
        self.chip.read(number, bus)
    }

    /// Presses and releases the two buttons.
    pub fn set_fire(&mut self, fire0: bool, fire1: bool)
        ensures { self.new ≡ with_fire self.old fire0 fire1 }
    {
        catch_up(&mut self.chip, &mut self.behind);
        self.chip.set_fire(fire0, fire1);
    }

    /// The start of a frame: lines are counted from 0.
    pub fn new_frame(&mut self)
        ensures { self.new ≡ at_frame_start self.old }
    {
        catch_up(&mut self.chip, &mut self.behind);
        self.chip.new_frame();
    }
}
