//! A line for each of some frames of a movie.
ghost use Rattle.std.specs.Prelude.{◌≡◌, List, ℕ, IfErr, IfOk};
ghost use Rattle.std.specs.Io.KnownBytes.{Appends};
ghost use Rattle.std.specs.NonZero.{non_zero_u32_get};
ghost use Rattle.picture_file.specs.Prefixes.{AppendsPrefix};
ghost use Rattle.commands.specs.Frames.{AppendsLines, Describes};
ghost use Rattle.commands.specs.RunErrors.{IsOfWriting};

use crate::asked_frames::{View, write_asked};
use crate::last_line::write_fault;
use crate::run_error::RunError;
use crate::status::Status;
use movie_file::{Movie, Progress};
use replay_plan::{Details, Notation};
use std::alloc::Global;
use std::io::Write;
use std::num::NonZeroU32;

/// Writes a line or an object for each of `count` frames from `first` on, as many as the movie has, with
/// the details that are asked for, and that of a fault.
///
/// It says how many cycles the frame took, how many rows its picture has, and, if a checkpoint
/// stands after it, whether the claimed state is that of the run; whatever the movie claims, it is
/// run on. No frame after the last one that is asked for is looked at. Each line is written as soon
/// as its frame has ended.
pub(crate) fn frames<L: Write, P: Progress>(
    alloc: Global,
    movie: &Movie,
    notation: Notation,
    details: &Details,
    first: NonZeroU32,
    count: u32,
    lines: &mut L,
    progress: &P,
) -> Result<Status, RunError>
    ensures ok { IfOk result (λ status. (text : List ℕ) × Describes movie.now notation details.now (non_zero_u32_get first) count status text
        × Appends (L.contents lines.old) (L.contents lines.new) text) }
    ensures only { IfErr result IsOfWriting }
    ensures memory { result ≡ Err RunError.NoMemory →
        AppendsLines movie.now notation details.now (non_zero_u32_get first) count (L.contents lines.old) (L.contents lines.new) }
    ensures fault { result ≡ Err RunError.WriteFault → (status : Status) × (text : List ℕ)
        × Describes movie.now notation details.now (non_zero_u32_get first) count status text
        × AppendsPrefix (L.contents lines.old) (L.contents lines.new) text }
{
    let _ = movie.frames();
    match write_asked(
        alloc,
        movie,
        View::Line(notation, details),
        first,
        count,
        lines,
        progress,
    )? {
        None => Ok(Status::Done),
        Some(fault) => {
            write_fault(alloc, notation, fault.frame, fault.kind, lines)?;
            Ok(Status::Fault)
        }
    }
}
