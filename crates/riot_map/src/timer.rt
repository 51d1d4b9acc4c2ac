//! The timer.
ghost use Rattle.std.specs.Prelude.{◌≡◌, ◌<◌, ◌≤◌, ◌==◌, ◌*◌, ◌+◌, ◌^◌, if◌then◌else◌, IsTrue, not, pos};
ghost use Rattle.std.specs.Prelude.{true, false};
ghost use Rattle.std.specs.Fn.{iterate};
ghost use Rattle.riot_map.specs.Timer.{Countdown, after_cycle, intim, part_left, timer_of_write};
ghost use Rattle.riot_map.specs.Timer.{is_running, interval_of, interval_code, count_of};
ghost use Rattle.riot_map.specs.Timer.{with_clear_flag, cycles_above};
ghost use Rattle.riot_map.specs.RiotFields.{timer_of, is_riot};
ghost use Rattle.riot_map.specs.Private.Interval.{interval_cycles};

use crate::fields::RiotFields;
use crate::interval::Interval;
use std::marker::Model;

/// A timer, which contracts see as one whole number that falls, an interval and a flag.
#[derive(Drop)]
pub struct Timer {
    /// What a read of INTIM gives.
    value: u8,
    /// The cycles until that changes.
    part: u16,
    interval: Interval,
    past_zero: bool,
    flag: bool,
}

impl Model for Timer {
    ghost use Rattle.riot_map.specs.Timer.{Countdown, count_of};
    ghost use Rattle.riot_map.specs.Private.Interval.{interval_cycles};
    ghost use Rattle.riot_map.specs.Private.Parts.{ArePartsLawful};

    ghost Value = { Countdown };

    ghost view = { λ t. record {
      count = count_of t.value t.part (interval_cycles t.interval) t.past_zero;
      interval = interval_cycles t.interval;
      flag = t.flag;
    } };

    ghost invariant = { λ t. ArePartsLawful t.value t.part (interval_cycles t.interval) t.past_zero };
}

impl Timer {
    /// A timer to which a value has just been written.
    #[tactic(auto, unfolding(crate::specs::Timer::timer_of_write))]
    pub fn start(interval: Interval, value: u8) -> Timer
        ensures { result ≡ timer_of_write (interval_cycles interval) value }
    {
        Timer {
            value,
            part: 1,
            interval,
            past_zero: false,
            flag: false,
        }
    }

    /// The timer of these parts.
    fn of_parts(value: u8, part: u16, interval: Interval, past_zero: bool, flag: bool) -> Timer
        requires some { 1 ≤ part }
        requires most { part ≤ interval_cycles interval }
        requires past { past_zero ≡ true → part ≡ 1 }
        ensures { result ≡ record { count = count_of value part (interval_cycles interval) past_zero; interval = interval_cycles interval; flag = flag } }
    {
        Timer {
            value,
            part,
            interval,
            past_zero,
            flag,
        }
    }

    /// The timer of some numbers; none if they aren't lawful.
    #[tactic(auto, unfolding(crate::specs::RiotFields::timer_of, crate::specs::RiotFields::is_riot))]
    pub fn from_fields(fields: &RiotFields) -> Option<Timer>
        ensures { result ≡ (if is_riot fields.now then Some (timer_of fields.now) else None) }
    {
        if !fields.is_lawful() {
            return None;
        }
        let interval = Interval::of_code(fields.interval);
        Some(Timer::of_parts(
            fields.timer,
            fields.part,
            interval,
            fields.past_zero == 1,
            fields.flag == 1,
        ))
    }

    /// What a read of INTIM gives.
    #[tactic(auto, using(crate::proofs::TimerLemmas::parts))]
    pub fn value(&self) -> u8
        ensures value { result ≡ intim self.now }
        ensures count { count_of result (part_left self.now) self.now.interval (not (is_running self.now)) ≡ self.now.count }
    {
        self.value
    }

    /// The cycles until the value changes.
    #[tactic(auto, using(crate::proofs::TimerLemmas::parts))]
    pub fn part(&self) -> u16
        ensures value { result ≡ part_left self.now }
        ensures some { 1 ≤ result }
        ensures most { result ≤ self.now.interval }
        ensures past { is_running self.now ≡ false → result ≡ 1 }
    {
        self.part
    }

    /// The code of its interval.
    pub fn interval_code(&self) -> u8
        ensures value { result ≡ interval_code self.now.interval }
        ensures range { result < 4 }
        ensures known { interval_of result ≡ self.now.interval }
    {
        self.interval.code()
    }

    /// Whether zero is behind.
    #[tactic(auto, using(crate::proofs::TimerLemmas::parts))]
    pub fn is_past_zero(&self) -> bool
        ensures { result ≡ not (is_running self.now) }
    {
        self.past_zero
    }

    /// Whether zero was passed since the last write, and the value not read since.
    pub fn flag(&self) -> bool
        ensures { result ≡ self.now.flag }
    {
        self.flag
    }

    /// The cycles that may pass while INTIM, before zero, shows at least this much; 0 if it shows
    /// less now, or if zero is behind.
    pub fn cycles_above(&self, least: u8) -> u32
        ensures value { result ≡ cycles_above least self.now }
        ensures interval { 0 < self.now.interval }
        ensures most { result < 2 ^ 18 }
    {
        if self.past_zero {
            return 0;
        }
        let interval = self.interval.cycles() as u32;
        let before_one = self.value as u32 * interval + self.part as u32 - 1;
        before_one.saturating_sub(least as u32 * interval)
    }

    /// Clears the flag.
    pub fn clear_flag(&mut self)
        ensures { self.new ≡ with_clear_flag self.old }
    {
        self.flag = false;
    }

    /// Lets `n` cycles pass.
    #[tactic(auto, using(crate::proofs::TimerLemmas::cycles))]
    #[inline(always)]
    pub fn cycles(&mut self, n: u8)
        ensures { self.new ≡ iterate after_cycle n self.old }
    {
        if self.past_zero {
            self.value = self.value.wrapping_sub(n);
            return;
        }
        // The value stays, as it mostly does.
        if (n as u16) < self.part {
            self.part -= n as u16;
            return;
        }
        let interval = self.interval.cycles() as u32;
        let count = self.value as u32 * interval + self.part as u32;
        let n = n as u32;
        if n < count {
            let rest = count - n - 1;
            self.value = (rest / interval) as u8;
            self.part = (rest % interval) as u16 + 1;
        } else {
            self.value = 255 - (n - count) as u8;
            self.part = 1;
            self.past_zero = true;
            self.flag = true;
        }
    }
}
