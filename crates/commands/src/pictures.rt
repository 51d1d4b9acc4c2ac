//! The pictures of some frames of a movie.
ghost use Rattle.std.specs.Prelude.{◌≡◌, Err, IfErr, IfOk, OnErr};
ghost use Rattle.std.specs.Io.KnownBytes.{Appends, Keeps};
ghost use Rattle.std.specs.NonZero.{non_zero_u32_get};
ghost use Rattle.picture_file.specs.Prefixes.{AppendsPrefix};
ghost use Rattle.commands.specs.Answers.{AnswerData};
ghost use Rattle.commands.specs.Lines.{line_bytes, status_of};
ghost use Rattle.commands.specs.Pictures.{AppendsPictures, Draws};
ghost use Rattle.commands.specs.RunErrors.{IsOfWriting};
ghost use Rattle.commands.specs.Streams.{WritesPart};

use crate::asked_frames::{View, frames_asked, write_asked};
use crate::last_line::write_last;
use crate::line::Line;
use crate::run_error::RunError;
use crate::status::Status;
use movie_file::{Movie, Progress};
use std::alloc::Global;
use std::io::Write;
use std::num::NonZeroU32;

/// Writes the pictures of a movie that are asked for, and answers the last line.
fn draw<P: Write, G: Progress>(
    alloc: Global,
    movie: &Movie,
    first: NonZeroU32,
    count: u32,
    pictures: &mut P,
    progress: &G,
) -> Result<Line, RunError>
    ensures ok { IfOk result (λ told. (answer : AnswerData) × Draws movie.now (non_zero_u32_get first) count answer × (status_of told ≡ answer.status)
        × (line_bytes told ≡ answer.text) × Appends (P.contents pictures.old) (P.contents pictures.new) answer.file) }
    ensures only { IfErr result IsOfWriting }
    ensures memory { result ≡ Err RunError.NoMemory →
        AppendsPictures movie.now (non_zero_u32_get first) count (P.contents pictures.old) (P.contents pictures.new) }
    ensures fault { result ≡ Err RunError.WriteFault → (answer : AnswerData) × Draws movie.now (non_zero_u32_get first) count answer
        × AppendsPrefix (P.contents pictures.old) (P.contents pictures.new) answer.file }
{
    let _ = movie.frames();
    match write_asked(
        alloc,
        movie,
        View::Picture,
        first,
        count,
        pictures,
        progress,
    )? {
        None => Ok(Line::Pictures {
            frames: frames_asked(movie, first, count),
        }),
        Some(fault) => Ok(Line::Fault {
            frame: fault.frame,
            kind: fault.kind,
        }),
    }
}

/// Hands on what a writer has gathered.
fn flush<P: Write>(writer: &mut P) -> Result<(), RunError>
    ensures kept { Keeps (P.contents writer.old) (P.contents writer.new) }
    ensures fault { OnErr result (result ≡ Err RunError.WriteFault) }
{
    match writer.flush() {
        Ok(()) => Ok(()),
        Err(_) => Err(RunError::WriteFault),
    }
}

/// Writes the pictures of `count` frames from `first` on, as many as the movie has, and then a line.
///
/// What the movie claims is not looked at, nor any frame after the last one that is asked for. The
/// pictures before a fault are written. Each picture is written as soon as its frame has ended, and
/// the pictures' writer is flushed before the line.
pub(crate) fn pictures<P: Write, L: Write, G: Progress>(
    alloc: Global,
    movie: &Movie,
    first: NonZeroU32,
    count: u32,
    file: &mut P,
    text: &mut L,
    progress: &G,
) -> Result<Status, RunError>
    ensures ok { IfOk result (λ status. (answer : AnswerData) × Draws movie.now (non_zero_u32_get first) count answer × (status ≡ answer.status)
        × Appends (P.contents file.old) (P.contents file.new) answer.file × Appends (L.contents text.old) (L.contents text.new) answer.text) }
    ensures only { IfErr result IsOfWriting }
    ensures memory { result ≡ Err RunError.NoMemory →
        AppendsPictures movie.now (non_zero_u32_get first) count (P.contents file.old) (P.contents file.new) × Keeps (L.contents text.old) (L.contents text.new) }
    ensures fault { result ≡ Err RunError.WriteFault → (answer : AnswerData) × Draws movie.now (non_zero_u32_get first) count answer
        × WritesPart (P.contents file.old) (P.contents file.new) answer.file (L.contents text.old) (L.contents text.new) answer.text }
{
    let last = draw(alloc, movie, first, count, file, progress)?;
    flush(file)?;
    write_last(alloc, last, text)?;
    Ok(last.status())
}
