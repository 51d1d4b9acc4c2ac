//! What a command has answered, beside what it wrote.
ghost use Rattle.std.specs.Prelude.{◌≡◌};

use crate::hints::reason_of;
use command_line::CommandLine;
use commands::{Conclusion, Status};
use std::rt::Files;

/// The status of a command that came to its end, and what is to be said of an input, where reasons are
/// wanted.
#[derive(Drop)]
pub(crate) struct Answered {
    pub status: Status,
    pub reason: Option<String>,
}

impl Answered {
    /// What a command line has answered that ended so.
    pub(crate) fn of<R: Files + AllocGlobal>(
        rt: &R,
        line: &CommandLine,
        end: &Conclusion,
    ) -> Answered
        ensures { result.status ≡ end.now.status }
    {
        let reason = match &end.remark {
            Some(remark) if line.explain => reason_of(rt, line, remark),
            _ => None,
        };
        Answered {
            status: end.status,
            reason,
        }
    }
}
