//! How an object of JSON about a verdict begins.
ghost use Rattle.std.specs.Prelude.{◌≡◌, IfOk, string_bytes};
ghost use Rattle.movie_report.specs.VerdictHeads.{verdict_head};

use replay_segments::Verdict;
use std::alloc::{AllocError, Global};
use std::fmt;
use vcs_machine::{FaultKind, HexByte, HexWord};

/// A fault as members of an object of JSON: its words as in a line, its kind, and the opcode and the
/// address where there are such.
#[derive(Clone, Copy)]
pub struct FaultMembers(pub FaultKind);

impl fmt::Display for FaultMembers {
    ghost use Rattle.std.specs.Prelude.{Some};
    ghost use Rattle.movie_report.specs.VerdictHeads.{fault_members};

    ghost output = { λ fault. Some (fault_members fault.0) };

    fn fmt<W: fmt::Write>(&self, f: &mut fmt::Formatter<W>) -> fmt::Result {
        let kind = self.0;
        write!(f, ",\"fault\":\"{kind}\",\"fault_kind\":")?;
        match kind {
            FaultKind::BadOpcode { opcode, at } => write!(
                f,
                "\"bad opcode\",\"opcode\":\"{}\",\"address\":\"{}\"",
                HexByte(opcode),
                HexWord(at)
            ),
            FaultKind::FetchOutside { at } => {
                write!(f, "\"fetch outside\",\"address\":\"{}\"", HexWord(at))
            }
            FaultKind::Overlong => write!(f, "\"overlong\""),
        }
    }
}

/// The beginning of an object of JSON about a verdict: its members, up to the next one or the end of
/// the object.
pub fn verdict_head(alloc: Global, verdict: &Verdict) -> Result<String, AllocError>
    ensures { IfOk result (λ text. string_bytes text ≡ verdict_head verdict.now) }
{
    match verdict {
        Verdict::Genuine { .. } => format!(in alloc; "{{\"verdict\":\"genuine\""),
        Verdict::FalseCheckpoint { number, frame } => format!(in alloc;
            "{{\"verdict\":\"false checkpoint\",\"checkpoint\":{number},\"frame\":{frame}"
        ),
        Verdict::Fault { frame, kind } => format!(in alloc;
            "{{\"verdict\":\"fault\",\"frame\":{frame}{}",
            FaultMembers(*kind)
        ),
    }
}
