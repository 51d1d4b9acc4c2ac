//! The devices of a console, which may be behind its processor.
ghost use Rattle.std.specs.Prelude.{ℕ, ◌≡◌, ◌↔◌, ◌<◌, ◌≤◌, ◌+◌, ◌-◌, ◌*◌, ◌/◌, min, if◌then◌else◌, IsTrue, true};
ghost use Rattle.std.specs.Fn.{iterate};
ghost use Rattle.chip_machine.specs.Consoles.{most_cycles};
ghost use Rattle.chip_machine.specs.Private.Lag.{IsBehind, cycles_seen, riot_after_steps, riot_seen};
ghost use Rattle.chip_machine.specs.Private.Lag.{sink_seen, tia_seen};
ghost use Rattle.chip_machine.specs.Private.Polls.{GoesOnAt};
ghost use Rattle.record_table.specs.Bits.{has_bit};
ghost use Rattle.riot_chip.specs.Timer.{after_step};
ghost use Rattle.tia_chip.specs.Clock.{after_clock};
ghost use Rattle.tia_chip.specs.Clocks.{sink_after_clocks};
ghost use Rattle.tia_chip.specs.Write.{effect_of, tia_after_write};
ghost use Rattle.tia_chip.specs.declared.effect.Effect.TheVariants.{Nothing};

use crate::polls::Poll;
use riot_chip::Riot;
use tia_chip::{Effect, Tia};
use tia_core::{NoPaint, Paint, WSYNC};
use vcs_machine::LINE_CYCLES;

/// Most cycles that the TIA lags behind: those of a scanline.
const MOST_LAG: u8 = LINE_CYCLES;

/// Most that `Devices::riot_left` is after the TIA has caught up, so that it never overflows.
const MOST_RIOT_LEFT: u32 = 1_000_000;

/// A RIOT, a TIA and its sink, and how many cycles they lag behind the processor: the TIA by
/// `MOST_LAG` less the cycles that are left, and the RIOT by `riot_left` less these.
///
/// Most accesses are to memory, so a device catches up when it is looked at. What is left is
/// counted, so that one subtraction serves both devices.
#[derive(Drop)]
pub struct Devices<S> {
    pub riot: Riot,
    pub tia: Tia,
    pub sink: S,
    /// The cycles of the frame that the TIA has seen.
    pub cycles: u32,
    /// The cycles that may still pass before the TIA has to catch up.
    pub lag_left: u8,
    /// What `lag_left` was, or would have been, when the RIOT caught up.
    pub riot_left: u32,
}

impl<S: Paint> Devices<S> {
    /// Devices that have seen all cycles, as a frame begins.
    pub fn new(riot: Riot, tia: Tia, sink: S) -> Self
        ensures behind { IsBehind result }
        ensures riot { riot_seen result ≡ riot }
        ensures tia { tia_seen result ≡ tia }
        ensures sink { sink_seen S.drawn result ≡ sink }
        ensures cycles { cycles_seen result ≡ 0 }
    {
        Devices {
            riot,
            tia,
            sink,
            cycles: 0,
            lag_left: MOST_LAG,
            riot_left: MOST_LAG as u32,
        }
    }

    /// The cycles by which the TIA lags.
    #[inline(always)]
    fn lag(&self) -> u8
        requires { IsBehind self.now }
        ensures { result ≡ 76 - self.now.lag_left }
    {
        MOST_LAG - self.lag_left
    }

    /// The cycles of the frame so far.
    #[inline(always)]
    pub fn cycles(&self) -> u32
        requires { IsBehind self.now }
        ensures { result ≡ cycles_seen self.now }
    {
        self.cycles.saturating_add(self.lag() as u32)
    }

    /// Whether the cycles of the frame so far are fewer than so many. Where they are by far, the TIA's
    /// lag isn't asked for.
    #[inline(always)]
    pub fn are_cycles_below(&self, bound: u32) -> bool
        requires behind { IsBehind self.now }
        requires bound { 76 ≤ bound }
        ensures { IsTrue result ↔ (cycles_seen self.now < bound) }
    {
        self.cycles < bound - MOST_LAG as u32 || self.cycles() < bound
    }

    /// Lets the RIOT see the cycles that it has not seen.
    #[inline(always)]
    pub fn catch_up_riot(&mut self)
        requires { self.old.lag_left ≤ self.old.riot_left }
        ensures { self.new ≡ record self.old { riot = riot_seen self.old; riot_left = self.old.lag_left } }
    {
        let left = self.lag_left as u32;
        self.riot.steps(self.riot_left - left);
        self.riot_left = left;
    }

    /// Lets the TIA and its sink see the cycles that they have not seen.
    #[inline(always)]
    pub fn catch_up_tia(&mut self)
        requires { IsBehind self.old }
        ensures behind { IsBehind self.new }
        ensures riot { riot_seen self.new ≡ riot_seen self.old }
        ensures tia { self.new.tia ≡ tia_seen self.old }
        ensures sink { self.new.sink ≡ sink_seen S.drawn self.old }
        ensures cycles { self.new.cycles ≡ cycles_seen self.old }
        ensures left { self.new.lag_left ≡ 76 }
    {
        let lag = self.lag() as u32;
        self.cycles = self.cycles();
        self.tia.clocks(3 * lag, &mut self.sink);
        self.riot_left += lag;
        self.lag_left = MOST_LAG;
        if self.riot_left > MOST_RIOT_LEFT {
            self.catch_up_riot();
        }
    }

    /// The same in a function of its own, for callers that seldom do.
    #[cold]
    #[inline(never)]
    fn catch_up_tia_apart(&mut self)
        requires { IsBehind self.old }
        ensures behind { IsBehind self.new }
        ensures riot { riot_seen self.new ≡ riot_seen self.old }
        ensures tia { self.new.tia ≡ tia_seen self.old }
        ensures sink { self.new.sink ≡ sink_seen S.drawn self.old }
        ensures cycles { self.new.cycles ≡ cycles_seen self.old }
        ensures left { self.new.lag_left ≡ 76 }
    {
        self.catch_up_tia();
    }

    /// The cycle of its scanline at which the beam stands, once the TIA has seen all cycles.
    #[inline(always)]
    pub fn line_cycle(&mut self) -> u8
        requires { IsBehind self.old }
        ensures behind { IsBehind self.new }
        ensures riot { riot_seen self.new ≡ riot_seen self.old }
        ensures tia { tia_seen self.new ≡ tia_seen self.old }
        ensures sink { sink_seen S.drawn self.new ≡ sink_seen S.drawn self.old }
        ensures cycles { cycles_seen self.new ≡ cycles_seen self.old }
        ensures value { result ≡ (tia_seen self.old).clock / 3 }
        ensures range { result < 76 }
    {
        if let Some(clock) = self.tia.line_clock_after(3 * self.lag() as u32) {
            return clock / 3;
        }
        self.catch_up_tia_apart();
        self.tia.line_clock() / 3
    }

    /// Writes a register of the TIA though it lags, where the write acts late, and answers whether it did.
    /// Such a write asks for nothing.
    #[inline(always)]
    fn write_late(&mut self, register: u8, value: u8) -> bool
        requires { IsBehind self.old }
        ensures behind { IsBehind self.new }
        ensures riot { riot_seen self.new ≡ riot_seen self.old }
        ensures tia { tia_seen self.new ≡ (if result then tia_after_write (tia_seen self.old) register value else tia_seen self.old) }
        ensures effect { IsTrue result → effect_of (tia_seen self.old) register value ≡ Nothing }
        ensures sink { sink_seen S.drawn self.new ≡ sink_seen S.drawn self.old }
        ensures cycles { cycles_seen self.new ≡ cycles_seen self.old }
    {
        let clocks = 3 * self.lag();
        self.tia.write_late(clocks, register, value)
    }

    /// Writes a register of the TIA, and answers what the write asks for.
    pub fn write_tia(&mut self, register: u8, value: u8) -> Effect
        requires { IsBehind self.old }
        ensures behind { IsBehind self.new }
        ensures riot { riot_seen self.new ≡ riot_seen self.old }
        ensures tia { tia_seen self.new ≡ tia_after_write (tia_seen self.old) register value }
        ensures effect { result ≡ effect_of (tia_seen self.old) register value }
        ensures sink { sink_seen S.drawn self.new ≡ sink_seen S.drawn self.old }
        ensures cycles { cycles_seen self.new ≡ cycles_seen self.old }
    {
        // WSYNC changes nothing of the TIA.
        if register == WSYNC {
            return Effect::Sync;
        }
        if self.write_late(register, value) {
            return Effect::Nothing;
        }
        self.catch_up_tia();
        self.tia.write(register, value)
    }

    /// Lets so many cycles be left before the TIA has to catch up.
    #[inline(always)]
    fn make_room(&mut self, cycles: u8)
        requires behind { IsBehind self.old }
        requires most { cycles ≤ 76 }
        ensures behind { IsBehind self.new }
        ensures riot { riot_seen self.new ≡ riot_seen self.old }
        ensures tia { tia_seen self.new ≡ tia_seen self.old }
        ensures sink { sink_seen S.drawn self.new ≡ sink_seen S.drawn self.old }
        ensures cycles { cycles_seen self.new ≡ cycles_seen self.old }
        ensures room { cycles ≤ self.new.lag_left }
    {
        if self.lag_left < cycles {
            self.catch_up_tia_apart();
        }
    }

    /// Lets cycles pass.
    #[inline(always)]
    pub fn pass(&mut self, cycles: u8)
        requires behind { IsBehind self.old }
        requires most { cycles ≤ 76 }
        ensures behind { IsBehind self.new }
        ensures riot { riot_seen self.new ≡ riot_after_steps cycles (riot_seen self.old) }
        ensures tia { tia_seen self.new ≡ iterate after_clock (3 * cycles) (tia_seen self.old) }
        ensures sink { sink_seen S.drawn self.new ≡ sink_after_clocks S.drawn (sink_seen S.drawn self.old) (3 * cycles) (tia_seen self.old) }
        ensures cycles { cycles_seen self.new ≡ min (cycles_seen self.old + cycles) most_cycles }
    {
        self.make_room(cycles);
        self.lag_left -= cycles;
    }

    /// Lets cycles pass, those of several scanlines perhaps.
    pub fn pass_all(&mut self, cycles: u32)
        requires behind { IsBehind self.old }
        requires most { cycles ≤ 77824 }
        ensures behind { IsBehind self.new }
        ensures riot { riot_seen self.new ≡ riot_after_steps cycles (riot_seen self.old) }
        ensures tia { tia_seen self.new ≡ iterate after_clock (3 * cycles) (tia_seen self.old) }
        ensures sink { sink_seen S.drawn self.new ≡ sink_after_clocks S.drawn (sink_seen S.drawn self.old) (3 * cycles) (tia_seen self.old) }
        ensures cycles { cycles_seen self.new ≡ min (cycles_seen self.old + cycles) most_cycles }
    {
        self.catch_up_tia();
        self.catch_up_riot();
        self.tia.clocks(3 * cycles, &mut self.sink);
        self.riot.steps(cycles);
        self.cycles = self.cycles.saturating_add(cycles);
    }

    /// For how many cycles, from this one on, a loop surely goes on after a read of the timer.
    pub fn cycles_ahead(&mut self, poll: Poll) -> u32
        requires behind { IsBehind self.old }
        requires timer { has_bit poll.register 2 ≡ true }
        ensures devices { self.new ≡ record self.old { riot = riot_seen self.old; riot_left = self.old.lag_left } }
        ensures going { (n : ℕ) → n < result → GoesOnAt poll (iterate after_step n (riot_seen self.old).timer) }
    {
        self.catch_up_riot();
        let cycles = self.riot.cycles_at_least(poll.branch.least());
        // Where there are any zero is ahead, and so the read changes nothing.
        if cycles == 0 || !poll.branch.goes_on(self.riot.read(poll.register)) {
            return 0;
        }
        cycles
    }

    /// The TIA as it is once it has seen all cycles.
    pub fn seen_tia(&self) -> Tia
        requires { IsBehind self.now }
        ensures { result ≡ tia_seen self.now }
    {
        let mut tia = self.tia.copy();
        tia.clocks(3 * self.lag() as u32, &mut NoPaint);
        tia
    }
}
