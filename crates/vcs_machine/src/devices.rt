//! The devices of a console, which may be behind its processor.
ghost use Rattle.std.specs.Prelude.{◌≡◌, ◌≤◌, ◌<◌, ◌+◌, ◌-◌, ◌*◌, ◌/◌, ◌||◌, false, IsTrue};
ghost use Rattle.std.specs.Fn.{iterate};
ghost use Rattle.tia_core.specs.Read.{tia_read};
ghost use Rattle.vcs_machine.specs.Private.Lag.{riot_seen, tia_seen, sink_seen, given_back};
ghost use Rattle.vcs_machine.specs.Private.Lag.{IsBehind, is_late};
ghost use Rattle.riot_map.specs.Riot.{after_cycles};
ghost use Rattle.tia_core.specs.Clock.{after_clock, pixels, sink_after_pixels};
ghost use Rattle.tia_core.specs.Write.{effect_of, tia_after_write};
ghost use Rattle.tia_core.specs.declared.effect.Effect.TheVariants.{Nothing};

use riot_map::Riot;
use tia_core::{NoPaint, Paint, Tia};

/// The cycles of a scanline, each of three colour clocks.
pub const LINE_CYCLES: u8 = 76;

/// Most cycles that the TIA lags behind: those of a scanline, whose clocks fit a call of it.
pub const MOST_LAG: u8 = LINE_CYCLES;

/// Most that `Devices::riot_left` is, so that with a scanline's cycles it is a byte still.
const MOST_RIOT_LEFT: u8 = 179;

/// From this line on a frame may be too long before the TIA catches up again: one that began as line
/// 0 did has then taken 24,244 cycles, and the TIA lags by 76 at most.
const LATE_LINE: u16 = 319;

/// A RIOT, a TIA and its sink, and how many cycles they lag behind the processor: the TIA by
/// `MOST_LAG` less the cycles that are left, and the RIOT by `riot_left` less these.
///
/// Most instructions look at memory alone, so a device catches up when it is looked at. What is
/// left is counted, since whether it is enough is then told by the subtraction itself, and one
/// subtraction serves both devices.
#[derive(Drop)]
pub struct Devices<S> {
    pub riot: Riot,
    pub tia: Tia,
    pub sink: S,
    /// The cycles that may still pass before the TIA has to catch up.
    pub lag_left: u8,
    /// What `lag_left` was, or would have been, when the RIOT caught up.
    pub riot_left: u8,
    /// An instruction wrote WSYNC, ended the frame or read the RIOT, perhaps, or the frame may be too
    /// long: most instructions do none of these, and the loop of a frame asks this alone.
    pub has_event: bool,
}

impl<S: Paint> Devices<S> {
    /// The cycles by which the TIA lags.
    #[inline(always)]
    fn lag(&self) -> u8
        requires { IsBehind self.now }
        ensures { result ≡ 76 - self.now.lag_left }
    {
        MOST_LAG - self.lag_left
    }

    /// Lets the RIOT see the cycles that it has not seen.
    #[inline(always)]
    pub fn catch_up_riot(&mut self)
        requires { self.old.lag_left ≤ self.old.riot_left }
        ensures { self.new ≡ record self.old { riot = riot_seen self.old; riot_left = self.old.lag_left } }
    {
        self.riot.cycles(self.riot_left - self.lag_left);
        self.riot_left = self.lag_left;
    }

    /// Lets the RIOT see the cycles that it has not seen, if with a scanline's they would be too many.
    #[inline(always)]
    fn catch_up_riot_far_behind(&mut self)
        requires behind { self.old.lag_left ≤ self.old.riot_left }
        requires most { self.old.lag_left ≤ 76 }
        ensures others { self.new ≡ record self.old { riot = self.new.riot; riot_left = self.new.riot_left } }
        ensures riot { riot_seen self.new ≡ riot_seen self.old }
        ensures behind { self.old.lag_left ≤ self.new.riot_left }
        ensures most { self.new.riot_left ≤ 179 }
    {
        if self.riot_left > MOST_RIOT_LEFT {
            self.catch_up_riot();
        }
    }

    /// Lets the TIA and its sink see the cycles that they have not seen.
    #[inline(always)]
    pub fn catch_up_tia(&mut self)
        requires { IsBehind self.old }
        ensures behind { IsBehind self.new }
        ensures riot { riot_seen self.new ≡ riot_seen self.old }
        ensures tia { self.new.tia ≡ tia_seen self.old }
        ensures sink { self.new.sink ≡ sink_seen S.drawn self.old }
        ensures left { self.new.lag_left ≡ 76 }
        ensures event { self.new.has_event ≡ (self.old.has_event || is_late (tia_seen self.old)) }
    {
        let lag = self.lag();
        self.riot_left += lag;
        self.lag_left = MOST_LAG;
        self.tia.clocks(3 * lag, &mut self.sink);
        self.catch_up_riot_far_behind();
        if self.is_late() {
            self.has_event = true;
        }
    }

    /// The same in a function of its own, for a loop that seldom calls it.
    #[inline(never)]
    pub fn catch_up_tia_apart(&mut self)
        requires { IsBehind self.old }
        ensures behind { IsBehind self.new }
        ensures riot { riot_seen self.new ≡ riot_seen self.old }
        ensures tia { self.new.tia ≡ tia_seen self.old }
        ensures sink { self.new.sink ≡ sink_seen S.drawn self.old }
        ensures left { self.new.lag_left ≡ 76 }
        ensures event { self.new.has_event ≡ (self.old.has_event || is_late (tia_seen self.old)) }
    {
        self.catch_up_tia();
    }

    /// Writes a register that holds a colour, if the sink keeps no pixel, and answers
    /// whether it did. The TIA needn't catch up for it.
    #[tactic(auto, unfolding(tia_core::specs::Write::tia_after_write))]
    #[inline(always)]
    pub fn write_unseen(&mut self, register: u8, value: u8) -> bool
        requires { IsBehind self.old }
        ensures behind { IsBehind self.new }
        ensures riot { riot_seen self.new ≡ riot_seen self.old }
        ensures tia { IsTrue result → tia_seen self.new ≡ tia_after_write (tia_seen self.old) register value }
        ensures effect { IsTrue result → effect_of (tia_seen self.old) register value ≡ Nothing }
        ensures sink { sink_seen S.drawn self.new ≡ sink_seen S.drawn self.old }
        ensures event { self.new.has_event ≡ self.old.has_event }
        ensures others { result ≡ false → self.new ≡ self.old }
    {
        !self.sink.keeps() && self.tia.write_unseen(register, value)
    }

    /// Whether the TIA has seen so many lines that the frame may be too long before it catches up.
    #[inline(always)]
    pub fn is_late(&self) -> bool
        ensures { result ≡ is_late self.now.tia }
    {
        self.tia.line() >= LATE_LINE
    }

    /// Lets cycles pass.
    #[inline(always)]
    pub fn pass(&mut self, cycles: u8)
        requires behind { IsBehind self.old }
        requires most { cycles ≤ 76 }
        ensures behind { IsBehind self.new }
        ensures riot { riot_seen self.new ≡ after_cycles cycles (riot_seen self.old) }
        ensures tia { tia_seen self.new ≡ iterate after_clock (3 * cycles) (tia_seen self.old) }
        ensures sink { sink_seen S.drawn self.new ≡ sink_after_pixels S.drawn (sink_seen S.drawn self.old) (pixels (3 * cycles) (tia_seen self.old)) }
        ensures event { self.new.has_event ≡ false → self.old.has_event ≡ false }
    {
        let is_short = self.lag_left < cycles;
        self.lag_left = self.lag_left.wrapping_sub(cycles);
        if is_short {
            self.catch_up_and_lag(cycles);
        }
    }

    /// Takes back the cycles that were too many, lets the devices see those that they have not seen,
    /// and lets them lag by these.
    #[cold]
    #[inline(never)]
    fn catch_up_and_lag(&mut self, cycles: u8)
        requires behind { IsBehind (given_back self.old cycles) }
        requires most { cycles ≤ 76 }
        ensures behind { IsBehind self.new }
        ensures riot { riot_seen self.new ≡ after_cycles cycles (riot_seen (given_back self.old cycles)) }
        ensures tia { tia_seen self.new ≡ iterate after_clock (3 * cycles) (tia_seen (given_back self.old cycles)) }
        ensures sink { sink_seen S.drawn self.new ≡ sink_after_pixels S.drawn (sink_seen S.drawn (given_back self.old cycles)) (pixels (3 * cycles) (tia_seen (given_back self.old cycles))) }
        ensures event { self.new.has_event ≡ false → self.old.has_event ≡ false }
    {
        self.lag_left = self.lag_left.wrapping_add(cycles);
        self.catch_up_tia();
        self.lag_left = MOST_LAG - cycles;
    }

    /// What a read of a register of the TIA would give, had the TIA seen all cycles.
    #[inline(never)]
    pub fn peek_tia(&self, register: u8) -> u8
        requires { IsBehind self.now }
        ensures { result ≡ tia_read (tia_seen self.now) register }
    {
        let fields = self.tia.fields();
        // The buttons don't depend on the beam, only the collisions do.
        if register % 16 >= 8 {
            return self.tia.read(register);
        }
        let Some(mut tia) = Tia::from_fields(fields) else {
            unreachable!()
        };
        tia.clocks(3 * self.lag(), &mut NoPaint);
        tia.read(register)
    }

    /// The beam's place in its scanline, in cycles, as it is once the TIA has seen all of them.
    #[inline(always)]
    pub fn line_cycle(&self) -> u8
        requires { IsBehind self.now }
        ensures value { result ≡ (tia_seen self.now).fields.clock / 3 }
        ensures range { result < 76 }
    {
        (self.tia.beam() / 3 + self.lag()) % LINE_CYCLES
    }
}
