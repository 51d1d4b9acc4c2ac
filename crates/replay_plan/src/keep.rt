//! Which pictures are kept.
ghost use Rattle.std.specs.Prelude.{◌≡◌, ℕ, ◌+◌, ◌<◌, ◌≤◌, ◌↔◌, IsOk, IfOk};
ghost use Rattle.replay_plan.specs.Limits.{most_kept};

/// The most frames whose pictures are kept.
pub const MOST_KEPT: u32 = 600;

/// The frames whose pictures are kept: `count` of them, at most 600, from frame `first` on, at
/// least 1.
#[derive(Clone, Copy, Debug, PartialEq, Eq)]
pub struct Keep {
    first: u32,
    count: u32,
    ghost first_is: { 0 < first },
    ghost count_is: { count ≤ most_kept },
}

/// The first frame is 0, or the count is above 600.
#[derive(Clone, Copy, Debug, PartialEq, Eq)]
pub struct BadKeep;

impl Keep {
    ghost use Rattle.replay_plan.specs.Keeping.{is_kept, kept_count};

    /// No frame is kept.
    pub const NONE: Keep = Keep { first: 1, count: 0 };

    /// So many frames from `first` on.
    pub fn new(first: u32, count: u32) -> Result<Keep, BadKeep>
        ensures range { IsOk result ↔ ((0 < first) × (count ≤ most_kept)) }
        ensures value { IfOk result (λ keep. (keep.first ≡ first) × (keep.count ≡ count)) }
    {
        if first == 0 || count > MOST_KEPT {
            return Err(BadKeep);
        }
        Ok(Keep { first, count })
    }

    /// Whether the picture of a frame is kept.
    pub fn has(self, frame: u32) -> bool
        ensures { result ≡ is_kept self frame }
    {
        self.first <= frame && u64::from(frame) < u64::from(self.first) + u64::from(self.count)
    }

    /// How many of `len` frames after frame `from` are kept.
    pub fn count(self, from: u32, len: u32) -> usize
        ensures { result ≡ kept_count self from len }
    {
        let end = (u64::from(self.first) + u64::from(self.count)).min(
            u64::from(from) + u64::from(len) + 1,
        );
        let begin = u64::from(self.first).max(u64::from(from) + 1);
        end.saturating_sub(begin) as usize
    }
}
