//! The frames of a movie that a command asks for, and what is written of each.
ghost use Rattle.std.specs.Prelude.{◌≡◌, ◌≤◌, ◌<◌, ◌+◌, ◌-◌, ◌^◌, length, IfOk, IfErr, IfSome, None, OnOk, OnErr};
ghost use Rattle.std.specs.Io.KnownBytes.{Appends};
ghost use Rattle.std.specs.NonZero.{non_zero_u32_get};
ghost use Rattle.movie_file.specs.Movie.{IsMovie};
ghost use Rattle.movie_machine.specs.Carts.{ram_length};
ghost use Rattle.picture_file.specs.PictureBytes.{picture_bytes};
ghost use Rattle.picture_file.specs.Prefixes.{AppendsPrefix};
ghost use Rattle.replay_segments.specs.NextCheckpoint.{IsNext};
ghost use Rattle.run_cursor.specs.Cursor.{IsAt};
ghost use Rattle.run_cursor.specs.RunFaults.{FaultsWithin, FrameFails};
ghost use Rattle.commands.specs.AskedFrames.{Ends, frames_asked, from_frames, last_asked};
ghost use Rattle.commands.specs.Private.Stops.{StopsWriting};
ghost use Rattle.commands.specs.Private.Views.{bytes_shown, picture_of_frame, shown_bytes};
ghost use Rattle.commands.specs.RunErrors.{IsOfWriting};

use crate::run_error::RunError;
use frame_text::played_line;
use movie_file::{Movie, Progress, Work};
use picture_file::{WriteFault, ppm, write_bytes};
use refused::Refused;
use replay_plan::{Details, Notation};
use replay_segments::checkpoints_before;
use run_cursor::{Cursor, RunFault};
use std::alloc::{AllocError, Global};
use std::io::Write;
use std::num::NonZeroU32;
use vcs_machine::{FaultKind, Picture};

/// What is written of a frame.
#[derive(Clone, Copy)]
pub(crate) enum View<'a> {
    /// Its line or object, with these details.
    Line(Notation, &'a Details),
    /// Its picture, as a file.
    Picture,
}

impl View<'_> {
    /// So many frames of which this is written.
    fn work(self, frames: u32) -> Work {
        match self {
            View::Line(_, _) => Work::Lines(frames),
            View::Picture => Work::Frames(frames),
        }
    }
}

/// That of a frame that was played.
#[derive(Drop)]
enum Shown {
    Line(String),
    Picture(Picture),
}

impl Shown {
    fn write<W: Write>(&self, writer: &mut W) -> Result<(), WriteFault>
        ensures ok { OnOk result (Appends (W.contents writer.old) (W.contents writer.new) (shown_bytes self.now)) }
        ensures err { OnErr result (AppendsPrefix (W.contents writer.old) (W.contents writer.new) (shown_bytes self.now)) }
    {
        match self {
            Shown::Line(line) => write_bytes(line.as_bytes(), writer),
            Shown::Picture(picture) => ppm(picture, writer),
        }
    }
}

/// How many frames are asked for: `count` from `first` on, as many as the movie has.
pub(crate) fn frames_asked(movie: &Movie, first: NonZeroU32, count: u32) -> u32
    ensures value { result ≡ frames_asked movie.now (non_zero_u32_get first) count }
    ensures within { 0 < result → non_zero_u32_get first - 1 + result ≤ length movie.now.inputs }
    ensures fits { non_zero_u32_get first - 1 + result < 2 ^ 32 }
    ensures lawful { IsMovie movie.now }
{
    count.min(movie.frames().saturating_sub(first.get() - 1))
}

/// A cursor after so many frames of the run, or the first fault of these. The frames are a work of
/// their own, if there are some. Memory is taken for the RAM of the cartridge alone.
pub(crate) fn cursor_after<'a, P: Progress>(
    alloc: Global,
    movie: &'a Movie,
    frames: u32,
    progress: &P,
) -> Result<Result<Cursor<'a>, RunFault>, AllocError>
    requires { frames ≤ length movie.now.inputs }
    ensures at { IfOk result (λ come. IfOk come (IsAt movie.now frames)) }
    ensures faults { IfOk result (λ come. IfErr come (λ fault. FaultsWithin movie.now frames fault.frame fault.kind)) }
    ensures memory { OnErr result (0 < ram_length movie.now.cartridge) }
{
    let mut cursor = Cursor::at_start(alloc, movie)?;
    match cursor.work_to(alloc, frames, progress) {
        Ok(()) => Ok(Ok(cursor)),
        Err(Refused::Of(fault)) => Ok(Err(fault)),
        Err(Refused::NoMemory) => Err(AllocError),
    }
}

/// The same, where the frames are a part of a work that has begun.
pub(crate) fn cursor_in_work<'a, P: Progress>(
    alloc: Global,
    movie: &'a Movie,
    frames: u32,
    progress: &P,
) -> Result<Result<Cursor<'a>, RunFault>, AllocError>
    requires { frames ≤ length movie.now.inputs }
    ensures at { IfOk result (λ come. IfOk come (IsAt movie.now frames)) }
    ensures faults { IfOk result (λ come. IfErr come (λ fault. FaultsWithin movie.now frames fault.frame fault.kind)) }
    ensures memory { OnErr result (0 < ram_length movie.now.cartridge) }
{
    let mut cursor = Cursor::at_start(alloc, movie)?;
    match cursor.advance_to(alloc, frames, progress) {
        Ok(()) => Ok(Ok(cursor)),
        Err(Refused::Of(fault)) => Ok(Err(fault)),
        Err(Refused::NoMemory) => Err(AllocError),
    }
}

/// Plays the next frame; the answer is its picture.
fn played_picture(alloc: Global, cursor: &mut Cursor<'_>) -> Result<Picture, Refused<FaultKind>>
    requires more { cursor.old.frame < length cursor.old.movie.inputs }
    ensures ok { OnOk result (IsAt cursor.old.movie (cursor.old.frame + 1) cursor.new) }
    ensures picture { IfOk result (λ rows. picture_bytes rows ≡ picture_of_frame cursor.old.movie cursor.old.frame) }
    ensures err { IfErr result (FrameFails cursor.old.movie cursor.old.frame) }
{
    let timed = cursor.advance_timed(alloc, true)?;
    Ok(timed.picture.unwrap())
}

/// Plays the next frame; the answer is what is written of it. `next` is the index of the first
/// checkpoint that is not before that frame.
fn play(
    alloc: Global,
    view: View<'_>,
    next: u16,
    cursor: &mut Cursor<'_>,
) -> Result<Shown, Refused<FaultKind>>
    requires more { cursor.old.frame < length cursor.old.movie.inputs }
    requires next { IsNext cursor.old.movie next (cursor.old.frame + 1) }
    ensures ok { OnOk result (IsAt cursor.old.movie (cursor.old.frame + 1) cursor.new) }
    ensures shown { IfOk result (λ shown. shown_bytes shown ≡ bytes_shown cursor.old.movie view.entry cursor.old.frame) }
    ensures err { IfErr result (FrameFails cursor.old.movie cursor.old.frame) }
{
    match view {
        View::Line(notation, details) => {
            Ok(Shown::Line(played_line(alloc, notation, details, next, cursor)?))
        }
        View::Picture => Ok(Shown::Picture(played_picture(alloc, cursor)?)),
    }
}

/// Writes what is asked of the frames that follow, each as soon as it is played, up to a fault, which
/// is the answer. It takes the memory of one frame at a time. Each frame is told, as a part of a work
/// that has begun.
fn write_frames<W: Write, P: Progress>(
    alloc: Global,
    view: View<'_>,
    cursor: &mut Cursor<'_>,
    frames: u32,
    writer: &mut W,
    progress: &P,
) -> Result<Option<RunFault>, RunError>
    requires within { cursor.old.frame + frames ≤ length cursor.old.movie.inputs }
    ensures ends { IfOk result (λ fault. fault ≡ None → Ends cursor.old.movie (cursor.old.frame + frames)) }
    ensures faults { IfOk result (λ fault. IfSome fault (λ at. FaultsWithin cursor.old.movie (cursor.old.frame + frames) at.frame at.kind)) }
    ensures ok { OnOk result (Appends (W.contents writer.old) (W.contents writer.new)
        (from_frames (bytes_shown cursor.old.movie view.entry) cursor.old.frame frames)) }
    ensures only { IfErr result IsOfWriting }
    ensures err { IfErr result (StopsWriting (bytes_shown cursor.old.movie view.entry) cursor.old.frame frames
        (W.contents writer.old) (W.contents writer.new)) }
{
    let movie = cursor.movie();
    let from = cursor.frame();
    let mut next = 0;
    for k in 0..frames {
        let frame = from + k + 1;
        next = checkpoints_before(movie, next, frame);
        match play(alloc, view, next, cursor) {
            Ok(shown) => shown.write(writer)?,
            Err(Refused::Of(kind)) => return Ok(Some(RunFault { frame, kind })),
            Err(Refused::NoMemory) => return Err(RunError::NoMemory),
        }
        progress.advance();
    }
    Ok(None)
}

/// Runs a movie up to the last of the frames that are asked for, `count` from `first` on, as many as
/// it has, or up to a fault, which is the answer, and writes what is asked of them. The frames before
/// them are one work and they are another, if there are some.
pub(crate) fn write_asked<W: Write, P: Progress>(
    alloc: Global,
    movie: &Movie,
    view: View<'_>,
    first: NonZeroU32,
    count: u32,
    writer: &mut W,
    progress: &P,
) -> Result<Option<RunFault>, RunError>
    ensures ends { IfOk result (λ fault. fault ≡ None → Ends movie.now (last_asked movie.now (non_zero_u32_get first) count)) }
    ensures faults { IfOk result (λ fault. IfSome fault (λ at. FaultsWithin movie.now (last_asked movie.now (non_zero_u32_get first) count) at.frame at.kind)) }
    ensures ok { OnOk result (Appends (W.contents writer.old) (W.contents writer.new)
        (from_frames (bytes_shown movie.now view.entry) (non_zero_u32_get first - 1) (frames_asked movie.now (non_zero_u32_get first) count))) }
    ensures only { IfErr result IsOfWriting }
    ensures err { IfErr result (StopsWriting (bytes_shown movie.now view.entry) (non_zero_u32_get first - 1)
        (frames_asked movie.now (non_zero_u32_get first) count) (W.contents writer.old) (W.contents writer.new)) }
{
    let frames = frames_asked(movie, first, count);
    if frames == 0 {
        return Ok(None);
    }
    let mut cursor = match cursor_after(alloc, movie, first.get() - 1, progress)? {
        Ok(cursor) => cursor,
        Err(fault) => return Ok(Some(fault)),
    };
    progress.begin(view.work(frames));
    let written = write_frames(alloc, view, &mut cursor, frames, writer, progress);
    progress.end();
    written
}
