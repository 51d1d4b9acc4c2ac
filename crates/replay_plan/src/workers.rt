//! How many workers judge a movie.
ghost use Rattle.std.specs.Prelude.{◌≡◌, ◌≤◌, ◌↔◌, IsSome, IfSome};
ghost use Rattle.replay_plan.specs.Limits.{most_workers};

/// The most workers.
pub const MOST_WORKERS: u8 = 64;

/// How many workers judge a movie: 1 to 64.
#[derive(Clone, Copy, Debug, PartialEq, Eq)]
pub struct Workers {
    number: u8,
    ghost some: { 1 ≤ number },
    ghost few: { number ≤ most_workers },
}

impl Workers {
    /// One worker, who needs no thread.
    pub const ONE: Workers = Workers { number: 1 };

    /// So many workers, or None if they are not 1 to 64.
    pub fn new(number: u8) -> Option<Workers>
        ensures range { IsSome result ↔ ((1 ≤ number) × (number ≤ most_workers)) }
        ensures value { IfSome result (λ workers. workers.number ≡ number) }
    {
        if number == 0 || number > MOST_WORKERS {
            return None;
        }
        Some(Workers { number })
    }

    /// How many they are.
    pub fn get(self) -> u8
        ensures value { result ≡ self.number }
        ensures range { (1 ≤ result) × (result ≤ most_workers) }
    {
        self.number
    }
}
