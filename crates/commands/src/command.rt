//! From a command to its answer.
ghost use Rattle.std.specs.Prelude.{◌≡◌, ◌≢◌, ◌⊎◌, List, ℕ, IfErr, IfOk, IsSome, OnErr};
ghost use Rattle.std.specs.NonZero.{non_zero_u32_get};
ghost use Rattle.std.specs.Option.{option_copied, option_map};
ghost use Rattle.std.specs.Io.KnownBytes.{Appends, Keeps};
ghost use Rattle.command_line.specs.Writing.{writing_of};
ghost use Rattle.movie_file.specs.Movie.{MovieData};
ghost use Rattle.movie_file.specs.Reading.{movie_at};
ghost use Rattle.commands.specs.Answers.{AnswerData, conclusion_of};
ghost use Rattle.commands.specs.Commands.{Answers, HasBegun, IsAboutMovies, IsAnswered, ReadsInputs, ReadsNamed};
ghost use Rattle.commands.specs.Commands.{StartsThreads, WritesSome};
ghost use Rattle.commands.specs.Private.Groups.{IsAtOnce};
ghost use Rattle.commands.specs.Remarks.{no_frame};
ghost use Rattle.commands.specs.RunErrors.{IsOfJudging, IsOfReading};
ghost use Rattle.commands.specs.Streams.{IsTooLong, ReadsAll};

use crate::answer::Answer;
use crate::cartridge::cartridge;
use crate::claims::claims;
use crate::conclusion::Conclusion;
use crate::convert::convert;
use crate::cut::cut;
use crate::frames::frames;
use crate::info::info;
use crate::inputs::inputs;
use crate::make::make;
use crate::pictures::pictures;
use crate::refusal::refusal;
use crate::remark::no_frame;
use crate::report::report;
use crate::request::Request;
use crate::run_error::RunError;
use crate::status::Status;
use crate::streams::{read_all, read_input};
use crate::trace::trace;
use crate::verify::verify;
use command_line::{Command, CommandLine, NamedBoard};
use movie_file::{Movie, Progress};
use replay_plan::Plan;
use std::alloc::Global;
use std::io::{Read, Write};
use std::num::NonZeroU32;
use std::sync::Wait;
use std::thread::Threads;
use verify_pool::Gate;

/// The answer about a movie, which these bytes are, of a command that writes nothing before its
/// answer is whole, where this ROM was read or none.
fn answer<T: Threads + Wait + Sync + AllocGlobal, G: Gate + Progress + Sync>(
    request: &Request<'_, T, G>,
    bytes: &[u8],
    rom: Option<&[u8]>,
    movie: Movie,
) -> Result<Answer, RunError>
    requires about { IsAboutMovies request.now.line.now.command }
    requires at_once { IsAtOnce (writing_of request.now.line.now.command) }
    ensures answer { IfOk result (Answers request.now.line.now.command request.now.line.now.notation bytes.now (option_copied rom.entry) movie) }
    ensures only { IfErr result IsOfJudging }
    ensures no_thread { result ≡ Err RunError.NoThread → StartsThreads request.now.line.now }
{
    let Request { rt, line, gate } = *request;
    let alloc = rt.alloc();
    let notation = line.notation;
    match &line.command {
        Command::Verify { every, keep } => {
            let plan = Plan {
                workers: line.workers,
                every: *every,
                keep: *keep,
            };
            verify(rt, alloc, &movie, &plan, notation, gate)
        }
        Command::Report { expectations } => report(request, bytes, &movie, rom, expectations),
        Command::Info => Ok(info(alloc, notation, &movie)?),
        Command::Claims => Ok(claims(alloc, notation, &movie)?),
        Command::Inputs(listing) => Ok(inputs(alloc, &movie, *listing)?),
        Command::Cartridge => Ok(cartridge(alloc, &movie)?),
        Command::Convert => Ok(convert(alloc, movie)?),
        Command::Cut {
            first,
            count,
            every,
        } => Ok(cut(alloc, &movie, *first, *count, *every, gate)?),
        _ => unreachable!(),
    }
}

/// How a command ended with this status that looks at frames of a movie from this one on.
fn of_frames(movie: &Movie, first: NonZeroU32, status: Status) -> Conclusion
    ensures { result ≡ record { status = status; remark = no_frame movie.now (non_zero_u32_get first) } }
{
    Conclusion {
        status,
        remark: no_frame(movie, first),
    }
}

/// Writes the answer about a movie, which these bytes are, where this ROM was read or none.
fn answer_movie<
    T: Threads + Wait + Sync + AllocGlobal,
    W: Write,
    P: Write,
    G: Gate + Progress + Sync,
>(
    request: &Request<'_, T, G>,
    bytes: &[u8],
    rom: Option<&[u8]>,
    movie: Movie,
    text: &mut W,
    file: &mut P,
) -> Result<Conclusion, RunError>
    requires { IsAboutMovies request.now.line.now.command }
    ensures ok { IfOk result (λ end. (answer : AnswerData) × Answers request.now.line.now.command request.now.line.now.notation bytes.now (option_copied rom.entry) movie answer × (end ≡ conclusion_of answer)
        × Appends (W.contents text.old) (W.contents text.new) answer.text × Appends (P.contents file.old) (P.contents file.new) answer.file) }
    ensures write_fault { result ≡ Err RunError.WriteFault → (answer : AnswerData) × Answers request.now.line.now.command request.now.line.now.notation bytes.now (option_copied rom.entry) movie answer
        × WritesSome (writing_of request.now.line.now.command) (W.contents text.old) (W.contents text.new) answer.text (P.contents file.old) (P.contents file.new) answer.file }
    ensures quiet { OnErr result (result ≢ Err RunError.WriteFault → result ≢ Err RunError.NoMemory
        → Keeps (W.contents text.old) (W.contents text.new) × Keeps (P.contents file.old) (P.contents file.new)) }
    ensures memory { result ≡ Err RunError.NoMemory → (Keeps (W.contents text.old) (W.contents text.new) × Keeps (P.contents file.old) (P.contents file.new))
        ⊎ HasBegun request.now.line.now.command request.now.line.now.notation movie (W.contents text.old) (W.contents text.new) (P.contents file.old) (P.contents file.new) }
    ensures read { result ≢ Err RunError.TooLong }
    ensures no_thread { result ≡ Err RunError.NoThread → StartsThreads request.now.line.now }
{
    let Request { rt, line, gate } = *request;
    let alloc = rt.alloc();
    match &line.command {
        Command::Frames {
            first,
            count,
            details,
        } => {
            let status = frames(
                alloc,
                &movie,
                line.notation,
                details,
                *first,
                *count,
                text,
                gate,
            )?;
            Ok(of_frames(&movie, *first, status))
        }
        Command::Pictures { first, count } => {
            let status = pictures(alloc, &movie, *first, *count, file, text, gate)?;
            Ok(of_frames(&movie, *first, status))
        }
        Command::Trace { frame } => {
            let status = trace(alloc, &movie, *frame, text, gate)?;
            Ok(of_frames(&movie, *frame, status))
        }
        Command::Verify { .. } => {
            Ok(answer(request, bytes, rom, movie)?.write_text_first(text, file)?)
        }
        _ => Ok(answer(request, bytes, rom, movie)?.write_file_first(file, text)?),
    }
}

/// The bytes of the second input of a command about a movie, if it names one.
fn read_second<S: Read>(
    alloc: Global,
    line: &CommandLine,
    inputs: &mut S,
) -> Result<Option<Vec<u8>>, RunError>
    ensures reads { IfOk result (λ bytes. ReadsNamed line.now.second (S.remaining inputs.old) (S.remaining inputs.new) (option_map (λ bytes. bytes.items) bytes)) }
    ensures only { IfErr result IsOfReading }
    ensures named { result ≡ Err RunError.TooLong → IsSome line.now.second }
    ensures too_long { result ≡ Err RunError.TooLong → IsTooLong (S.remaining inputs.old) }
{
    match line.second {
        Some(_) => Ok(Some(read_all(alloc, inputs)?)),
        None => Ok(None),
    }
}

/// Does what a command line asks for: reads its input, which is a movie, or of `make` a cartridge and
/// then `inputs`, and writes a text, which ends with a line feed, and a file. A report that names a
/// ROM reads that from `inputs`, unless its input is no movie. The files' names aren't used.
///
/// Input that is refused is a line and `Status::Refused`, and the remark says why. After ReadFault,
/// TooLong and NoThread nothing was written. After NoMemory nothing was written either, or by
/// `frames`, `pictures` and `trace` the first lines or pictures, each whole. `verify` writes its text
/// before its file, and each other command after it. At most 16,777,217 reads of each input are made.
///
/// The progress of each replay is told to the gate, as a work. A work has ended before anything is
/// written, but for the lines and pictures of `frames` and `pictures`. That of a verdict counts
/// segments, around each of which the gate is called too, or frames if there are few segments.
pub fn run_command<
    T: Threads + Wait + Sync + AllocGlobal,
    R: Read,
    S: Read,
    W: Write,
    P: Write,
    G: Gate + Progress + Sync,
>(
    request: &Request<'_, T, G>,
    input: &mut R,
    inputs: &mut S,
    text: &mut W,
    file: &mut P,
) -> Result<Conclusion, RunError>
    // The output is that of the bytes read, and nothing else.
    ensures ok { IfOk result (λ end. (bytes : List ℕ) × (told : List ℕ) × (made : List ℕ) × ReadsAll (R.remaining input.old) (R.remaining input.new) bytes
        × IsAnswered request.now.line.now bytes (S.remaining inputs.old) (S.remaining inputs.new) end told made
        × Appends (W.contents text.old) (W.contents text.new) told × Appends (P.contents file.old) (P.contents file.new) made) }
    ensures write_fault { result ≡ Err RunError.WriteFault → (bytes : List ℕ) × (end : Conclusion) × (told : List ℕ) × (made : List ℕ)
        × ReadsAll (R.remaining input.old) (R.remaining input.new) bytes
        × IsAnswered request.now.line.now bytes (S.remaining inputs.old) (S.remaining inputs.new) end told made
        × WritesSome (writing_of request.now.line.now.command) (W.contents text.old) (W.contents text.new) told (P.contents file.old) (P.contents file.new) made }

    // What was written after the other errors.
    ensures quiet { OnErr result (result ≢ Err RunError.WriteFault → result ≢ Err RunError.NoMemory
        → Keeps (W.contents text.old) (W.contents text.new) × Keeps (P.contents file.old) (P.contents file.new)) }
    ensures memory { result ≡ Err RunError.NoMemory → (Keeps (W.contents text.old) (W.contents text.new) × Keeps (P.contents file.old) (P.contents file.new))
        ⊎ ((bytes : List ℕ) × (m : MovieData) × ReadsAll (R.remaining input.old) (R.remaining input.new) bytes × (movie_at bytes ≡ Ok m)
        × HasBegun request.now.line.now.command request.now.line.now.notation m (W.contents text.old) (W.contents text.new) (P.contents file.old) (P.contents file.new)) }
    ensures too_long { result ≡ Err RunError.TooLong → IsTooLong (R.remaining input.old) ⊎ (ReadsInputs request.now.line.now × IsTooLong (S.remaining inputs.old)) }
    ensures no_thread { result ≡ Err RunError.NoThread → StartsThreads request.now.line.now }
{
    let Request { rt, line, gate } = *request;
    let alloc = rt.alloc();
    if let Command::Make {
        form,
        making,
        board,
    } = &line.command
    {
        let rom = read_all(alloc, input)?;
        let board = NamedBoard::known_of(*board);
        let answer = make(alloc, rom, board, *form, inputs, *making, gate)?;
        return Ok(answer.write_file_first(file, text)?);
    }
    let (bytes, found) = read_input(alloc, input)?;
    match found {
        Ok(movie) => {
            let expected = read_second(alloc, line, inputs)?;
            answer_movie(request, &bytes, expected.as_deref(), movie, text, file)
        }
        Err(error) => {
            let answer = refusal(alloc, line.notation, &bytes, error)?;
            Ok(answer.write_text(text)?)
        }
    }
}
