//! The timer's intervals.
ghost use Rattle.std.specs.Prelude.{◌≡◌, ◌<◌};
ghost use Rattle.riot_map.specs.Private.Interval.{interval_cycles, code_of_interval};
ghost use Rattle.riot_map.specs.Timer.{interval_of};

/// For how many cycles the timer holds each value, named as the registers that start it.
#[derive(Clone, Copy)]
pub enum Interval {
    Tim1t,
    Tim8t,
    Tim64t,
    T1024t,
}

impl Interval {
    /// The interval of a code, 0 to 3.
    pub fn of_code(code: u8) -> Interval
        requires { code < 4 }
        ensures { interval_cycles result ≡ interval_of code }
    {
        match code {
            0 => Interval::Tim1t,
            1 => Interval::Tim8t,
            2 => Interval::Tim64t,
            _ => Interval::T1024t,
        }
    }

    /// Its code.
    pub fn code(self) -> u8
        ensures { result ≡ code_of_interval self }
    {
        match self {
            Interval::Tim1t => 0,
            Interval::Tim8t => 1,
            Interval::Tim64t => 2,
            Interval::T1024t => 3,
        }
    }

    /// Its length in cycles.
    pub fn cycles(self) -> u16
        ensures { result ≡ interval_cycles self }
    {
        match self {
            Interval::Tim1t => 1,
            Interval::Tim8t => 8,
            Interval::Tim64t => 64,
            Interval::T1024t => 1024,
        }
    }
}
