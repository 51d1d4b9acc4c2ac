//! The instructions of a frame of a movie.
ghost use Rattle.std.specs.Prelude.{◌≡◌, ◌≤◌, ◌<◌, ◌-◌, ◌⊎◌, List, ℕ, false, length, Some, IfErr, IfOk, IsTrue, OnOk};
ghost use Rattle.std.specs.Io.KnownBytes.{Appends, Keeps};
ghost use Rattle.std.specs.NonZero.{non_zero_u32_get};
ghost use Rattle.movie_file.specs.Run.{run};
ghost use Rattle.movie_machine.specs.Instructions.{Reaches, Stop, StopsAfter, Underway, cycles_of, has_ended};
ghost use Rattle.movie_machine.specs.States.{is_of};
ghost use Rattle.picture_file.specs.Prefixes.{AppendsPrefix};
ghost use Rattle.commands.specs.RunErrors.{IsOfWriting};
ghost use Rattle.trace_text.specs.TraceLines.{trace_line};
ghost use Rattle.commands.specs.Private.Tracing.{IsStop};
ghost use Rattle.commands.specs.Trace.{AppendsInstructions, Traces, instructions};

use crate::asked_frames::cursor_after;
use crate::last_line::write_last;
use crate::line::Line;
use crate::run_error::RunError;
use crate::status::Status;
use movie_file::{Movie, Progress};
use movie_machine::{Executed, State, Stepping};
use picture_file::write_bytes;
use std::alloc::Global;
use std::io::Write;
use std::num::NonZeroU32;
use trace_text::trace_line;
use vcs_machine::FaultKind;

/// Writes the line of an instruction.
fn write_instruction<L: Write>(
    alloc: Global,
    executed: &Executed,
    lines: &mut L,
) -> Result<(), RunError>
    ensures ok { OnOk result (Appends (L.contents lines.old) (L.contents lines.new) (trace_line executed.now)) }
    ensures only { IfErr result IsOfWriting }
    ensures memory { result ≡ Err RunError.NoMemory → Keeps (L.contents lines.old) (L.contents lines.new) }
    ensures fault { result ≡ Err RunError.WriteFault → AppendsPrefix (L.contents lines.old) (L.contents lines.new) (trace_line executed.now) }
{
    let Ok(text) = trace_line(alloc, executed) else {
        return Err(RunError::NoMemory);
    };
    match write_bytes(text.as_bytes(), lines) {
        Ok(()) => Ok(()),
        Err(_) => Err(RunError::WriteFault),
    }
}

/// Executes a frame from its start, and writes the line of each instruction once it was executed. It
/// answers the frame's fault, if it has one.
fn write_instructions<L: Write>(
    alloc: Global,
    stepping: &mut Stepping<'_>,
    lines: &mut L,
) -> Result<Option<FaultKind>, RunError>
    requires fresh { cycles_of stepping.old ≡ 0 }
    requires unended { has_ended stepping.old ≡ false }
    ensures ok { IfOk result (λ fault. (count : ℕ) × (stop : Stop) × StopsAfter stepping.old count stop × IsStop fault stepping.new stop
        × Appends (L.contents lines.old) (L.contents lines.new) (instructions stepping.old count)) }
    ensures only { IfErr result IsOfWriting }
    ensures memory { result ≡ Err RunError.NoMemory → (count : ℕ) × (here : Underway) × Reaches stepping.old count here
        × Appends (L.contents lines.old) (L.contents lines.new) (instructions stepping.old count) }
    ensures fault { result ≡ Err RunError.WriteFault → (count : ℕ) × (here : Underway) × Reaches stepping.old count here
        × AppendsPrefix (L.contents lines.old) (L.contents lines.new) (instructions stepping.old count) }
{
    while !stepping.is_over() {
        match stepping.next() {
            Ok(executed) => write_instruction(alloc, &executed, lines)?,
            Err(kind) => return Ok(Some(kind)),
        }
    }
    if stepping.has_ended() {
        Ok(None)
    } else {
        Ok(Some(FaultKind::Overlong))
    }
}

/// Writes the trace of a frame, counted from 1, that begins in this state.
fn trace_frame<L: Write>(
    alloc: Global,
    movie: &Movie,
    frame: u32,
    state: &State,
    lines: &mut L,
) -> Result<Status, RunError>
    requires first { 0 < frame }
    requires last { frame ≤ length movie.now.inputs }
    requires ran { run movie.now movie.now.start 0 (frame - 1) ≡ Some state.now }
    requires cartridge { IsTrue (is_of movie.now.cartridge state.now) }
    ensures ok { IfOk result (λ status. (text : List ℕ) × Traces movie.now frame status text
        × Appends (L.contents lines.old) (L.contents lines.new) text) }
    ensures only { IfErr result IsOfWriting }
    ensures memory { result ≡ Err RunError.NoMemory → Keeps (L.contents lines.old) (L.contents lines.new)
        ⊎ AppendsInstructions movie.now frame (L.contents lines.old) (L.contents lines.new) }
    ensures fault { result ≡ Err RunError.WriteFault → (status : Status) × (text : List ℕ) × Traces movie.now frame status text
        × AppendsPrefix (L.contents lines.old) (L.contents lines.new) text }
{
    let Ok(mut stepping) = Stepping::begin(alloc, movie.cart(), state, movie.input(frame)) else {
        return Err(RunError::NoMemory);
    };
    match write_instructions(alloc, &mut stepping, lines)? {
        None => {
            let line = Line::Frame {
                frame,
                cycles: stepping.cycles(),
                rows: stepping.rows(),
            };
            write_last(alloc, line, lines)?;
            Ok(Status::Done)
        }
        Some(kind) => {
            write_last(alloc, Line::Fault { frame, kind }, lines)?;
            Ok(Status::Fault)
        }
    }
}

/// Writes a line for each instruction of a movie's frame `frame`, counted from 1, and then one of the
/// frame; or why there are none.
///
/// A line says where the beam was and what the registers were before the instruction, and which data
/// accesses it made. What the movie claims is not looked at, nor any frame after that one. Of a frame
/// that faults the instructions before the fault are written. Each line is written as soon as its
/// instruction was executed.
pub(crate) fn trace<L: Write, P: Progress>(
    alloc: Global,
    movie: &Movie,
    frame: NonZeroU32,
    lines: &mut L,
    progress: &P,
) -> Result<Status, RunError>
    ensures ok { IfOk result (λ status. (text : List ℕ) × Traces movie.now (non_zero_u32_get frame) status text
        × Appends (L.contents lines.old) (L.contents lines.new) text) }
    ensures only { IfErr result IsOfWriting }
    ensures memory { result ≡ Err RunError.NoMemory → Keeps (L.contents lines.old) (L.contents lines.new)
        ⊎ AppendsInstructions movie.now (non_zero_u32_get frame) (L.contents lines.old) (L.contents lines.new) }
    ensures fault { result ≡ Err RunError.WriteFault → (status : Status) × (text : List ℕ) × Traces movie.now (non_zero_u32_get frame) status text
        × AppendsPrefix (L.contents lines.old) (L.contents lines.new) text }
{
    let frame = frame.get();
    if frame > movie.frames() {
        write_last(alloc, Line::NoFrame(frame), lines)?;
        return Ok(Status::Refused);
    }
    match cursor_after(alloc, movie, frame - 1, progress)? {
        Ok(cursor) => trace_frame(alloc, movie, frame, cursor.state(), lines),
        Err(fault) => {
            let line = Line::Fault {
                frame: fault.frame,
                kind: fault.kind,
            };
            write_last(alloc, line, lines)?;
            Ok(Status::Fault)
        }
    }
}
