//! How a run that reached its end ended.
ghost use Rattle.std.specs.Prelude.{◌≡◌};

/// How a run that reached its end ended.
#[derive(Clone, Copy, Debug, PartialEq, Eq)]
pub enum Status {
    /// The movie is genuine; or one was made, or told about.
    Done,
    /// A checkpoint is false.
    False,
    /// A frame faults.
    Fault,
    /// The bytes are no movie, or no movie can be made of them.
    Refused,
    /// The movie is genuine, but not what was expected.
    Unexpected,
}

impl Status {
    ghost use Rattle.commands.specs.Status.{status_code};

    /// The program's exit status, 0 to 3 or 6.
    pub fn code(self) -> u8
        ensures { result ≡ status_code self }
    {
        match self {
            Status::Done => 0,
            Status::False => 1,
            Status::Fault => 2,
            Status::Refused => 3,
            Status::Unexpected => 6,
        }
    }
}
