//! The timer.
ghost use Rattle.std.specs.Prelude.{ℕ, ◌≡◌, ◌<◌, true, IsTrue, if◌then◌else◌};
ghost use Rattle.std.specs.Fn.{iterate};
ghost use Rattle.riot_map.specs.Timer.{interval_of, is_interval};
ghost use Rattle.riot_chip.specs.Timer.{TimerState, after_step, after_read, after_write, timer_read};
ghost use Rattle.riot_chip.specs.Timer.{timer_at_power_on, is_timer, timer_of, numbers_of};
ghost use Rattle.riot_chip.specs.Timer.{ShowsAtLeast, cycles_at_least};

use std::marker::Model;

/// The cycles of an interval, by its code: those of TIM1T, TIM8T, TIM64T and T1024T.
const INTERVALS: [u16; 4] = [1, 8, 64, 1024];

/// The numbers of a timer.
#[derive(Clone, Copy, Debug, PartialEq, Eq)]
pub struct TimerFields {
    /// What INTIM shows.
    pub value: u8,
    /// The cycles until an interval ends, from the interval down to 1.
    pub part: u16,
    /// The code of the interval: 0 to 3.
    pub interval: u8,
    /// Whether zero is behind: 0 or 1.
    pub flag: u8,
}

impl TimerFields {
    /// Whether there is a timer of these numbers.
    pub fn is_lawful(&self) -> bool
        ensures { result ≡ is_timer self.now }
    {
        self.interval <= 3
            && 1 <= self.part
            && self.part <= interval_of(self.interval)
            && self.flag <= 1
    }
}

/// A timer, which contracts see as its value, its part, its interval in cycles, and its flag.
#[derive(Drop)]
pub struct Timer {
    value: u8,
    part: u16,
    interval: u16,
    flag: bool,
}

impl Model for Timer {
    ghost use Rattle.riot_chip.specs.Timer.{TimerState, IsTimer};

    ghost Value = { TimerState };

    ghost view = { λ t. record { value = t.value; part = t.part; interval = t.interval; flag = t.flag } };

    ghost invariant = { λ t. IsTimer (record { value = t.value; part = t.part; interval = t.interval; flag = t.flag }) };
}

/// The interval of a code, in cycles.
fn interval_of(code: u8) -> u16
    requires { code < 4 }
    ensures value { result ≡ interval_of code }
    ensures known { IsTrue (is_interval result) }
{
    INTERVALS[code as usize]
}

impl Timer {
    /// A timer as the power comes on.
    pub fn power_on() -> Timer
        ensures { result ≡ timer_at_power_on }
    {
        Timer {
            value: 0,
            part: 1,
            interval: 1024,
            flag: false,
        }
    }

    /// The timer of these numbers; none if they aren't lawful.
    pub fn from_fields(fields: TimerFields) -> Option<Timer>
        ensures { result ≡ (if is_timer fields then Some (timer_of fields) else None) }
    {
        if !fields.is_lawful() {
            return None;
        }
        Some(Timer {
            value: fields.value,
            part: fields.part,
            interval: interval_of(fields.interval),
            flag: fields.flag == 1,
        })
    }

    /// Its numbers.
    pub fn fields(&self) -> TimerFields
        ensures value { timer_of result ≡ self.now }
        ensures numbers { result ≡ numbers_of self.now }
        ensures lawful { IsTrue (is_timer result) }
    {
        TimerFields {
            value: self.value,
            part: self.part,
            interval: match self.interval {
                1 => 0,
                8 => 1,
                64 => 2,
                _ => 3,
            },
            flag: u8::from(self.flag),
        }
    }

    /// Lets one cycle pass.
    pub fn step(&mut self)
        ensures { self.new ≡ after_step self.old }
    {
        let ends = self.part == 1;
        if ends || self.flag {
            self.flag = self.flag || self.value == 0;
            self.value = self.value.wrapping_sub(1);
        }
        self.part = if ends { self.interval } else { self.part - 1 };
    }

    /// Lets `n` cycles pass while the flag is set: in each the value falls, and intervals go on.
    #[tactic(auto, using(crate::proofs::StepLemmas::falls))]
    fn fall(&mut self, n: u32)
        requires { self.old.flag ≡ true }
        ensures { self.new ≡ iterate after_step n self.old }
    {
        let interval = self.interval as u32;
        let part = self.part as u32;
        let past = n % interval;
        let left = if past < part { part } else { part + interval };
        self.value = self.value.wrapping_sub((n % 256) as u8);
        self.part = (left - past) as u16;
    }

    /// Lets `n` cycles pass.
    #[tactic(auto, using(crate::proofs::StepLemmas::cycles))]
    pub fn cycles(&mut self, n: u32)
        ensures { self.new ≡ iterate after_step n self.old }
    {
        if self.flag {
            self.fall(n);
            return;
        }
        let interval = self.interval as u32;
        // The cycle in which the flag is set is so far ahead.
        let ahead = self.value as u32 * interval + self.part as u32;
        if n < ahead {
            let left = ahead - n - 1;
            self.value = (left / interval) as u8;
            self.part = (left % interval) as u16 + 1;
        } else {
            self.value = 255;
            self.part = self.interval;
            self.flag = true;
            self.fall(n - ahead);
        }
    }

    /// For how many cycles, from this one on, INTIM shows at least this much while the flag isn't set.
    #[tactic(auto, using(crate::proofs::StepLemmas::shown))]
    pub fn cycles_at_least(&self, least: u8) -> u32
        ensures value { result ≡ cycles_at_least least self.now }
        ensures shown { (n : ℕ) → n < result → ShowsAtLeast least (iterate after_step n self.now) }
    {
        if self.flag || self.value < least {
            return 0;
        }
        (self.value - least) as u32 * self.interval as u32 + self.part as u32
    }

    /// Reads INTIM, or the flag where line A0 is 1. The other lines don't count.
    pub fn read(&mut self, register: u8) -> u8
        ensures value { result ≡ timer_read self.old register }
        ensures after { self.new ≡ after_read self.old register }
    {
        if register % 2 == 1 {
            return if self.flag { 0x80 } else { 0 };
        }
        self.flag = self.flag && self.value == 255;
        self.value
    }

    /// Writes a register of the timer. The lines A4, A1 and A0 of the address count.
    pub fn write(&mut self, register: u8, value: u8)
        ensures { self.new ≡ after_write self.old register value }
    {
        if register / 16 % 2 == 0 {
            return;
        }
        *self = Timer {
            value,
            part: 1,
            interval: interval_of(register % 4),
            flag: self.flag && self.value == 255,
        };
    }
}
