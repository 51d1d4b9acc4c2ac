//! A command and its files.
ghost use Rattle.std.specs.Prelude.{◌≡◌, ◌≢◌, ◌⊎◌, ◌↔◌, List, ℕ, None, Ok, Err, codes, IfErr, IfOk, IsSome, OnErr, true};
ghost use Rattle.std.specs.Io.KnownBytes.{Appends, Keeps};
ghost use Rattle.command_line.specs.Writing.{writing_of};
ghost use Rattle.commands.specs.Commands.{HasBegun, IsAnswered, StartsThreads, WritesSome};
ghost use Rattle.commands.specs.Streams.{ReadsAll};
ghost use Rattle.commands.specs.declared.conclusion.Conclusion.{Conclusion};
ghost use Rattle.movie_file.specs.Movie.{MovieData};
ghost use Rattle.movie_file.specs.Reading.{movie_at};
ghost use Rattle.vcs_check.specs.Commands.{KeepsQuiet, LeavesPart, ReadsFirst, ReadsInputs, ReadsSecond};
ghost use Rattle.vcs_check.specs.Commands.{ReadsTwice, TakesFile, Writes, WritesPictures};
ghost use Rattle.named_files.specs.FileErrors.{IsInputStream, Names};
ghost use Rattle.named_files.specs.declared.replacing.Whole.TheVariants.{Flushed, Written};
ghost use Rattle.vcs_check.specs.Failures.{IsNoThread};
ghost use Rattle.vcs_check.specs.Private.Inputs.{ReadsBoth, ReadsFirstly, ReadsWith};

use crate::answered::Answered;
use crate::failure::Failure;
use crate::gathered::Gathered;
use command_line::{Command, CommandLine, Writing};
use commands::{Gate, Progress, Request, RunError, Status, run_command};
use named_files::{
    FileError, Identity, Named, Whole, check_standard_output, check_streams, create, open,
    open_beside, replace,
};
use std::io::{self, Read, Write};
use std::rt::Files;
use std::sync::Wait;
use std::thread::Threads;

/// The name of an input that is standard input, and of an output that is standard output.
pub(crate) const STANDARD: &str = "-";

/// Whether pictures are what a command writes to a file.
pub(crate) fn draws(command: &Command) -> bool
    ensures { (result ≡ true) ↔ WritesPictures (writing_of command.now) }
{
    matches!(
        command.writing(),
        Writing::TextFirst | Writing::GradualPictures
    )
}

/// When the file is whole that a command writes: pictures come one by one, a movie at once.
fn whole(command: &Command) -> Whole
    ensures pictures { WritesPictures (writing_of command.now) → result ≡ Flushed }
    ensures other { (WritesPictures (writing_of command.now) → ⊥) → result ≡ Written }
{
    if draws(command) {
        Whole::Flushed
    } else {
        Whole::Written
    }
}

/// Does what a command line asks for: reads its inputs, and writes the text and the file of its answer.
fn run<
    R: Files + Threads + Wait + Sync + AllocGlobal,
    M: Read,
    S: Read,
    W: Write,
    P: Write,
    G: Gate + Progress + Sync,
>(
    request: &Request<'_, R, G>,
    input: &mut M,
    inputs: &mut S,
    text: &mut W,
    file: &mut P,
) -> Result<Answered, RunError>
    ensures ok { IfOk result (λ answered. (end : Conclusion) × (answered.status ≡ end.status) × (bytes : List ℕ) × (told : List ℕ) × (made : List ℕ)
        × ReadsAll (M.remaining input.old) (M.remaining input.new) bytes
        × IsAnswered request.now.line.now bytes (S.remaining inputs.old) (S.remaining inputs.new) end told made
        × Appends (W.contents text.old) (W.contents text.new) told × Appends (P.contents file.old) (P.contents file.new) made) }
    ensures write_fault { result ≡ Err RunError.WriteFault → (bytes : List ℕ) × (end : Conclusion) × (told : List ℕ) × (made : List ℕ)
        × ReadsAll (M.remaining input.old) (M.remaining input.new) bytes
        × IsAnswered request.now.line.now bytes (S.remaining inputs.old) (S.remaining inputs.new) end told made
        × WritesSome (writing_of request.now.line.now.command) (W.contents text.old) (W.contents text.new) told (P.contents file.old) (P.contents file.new) made }
    ensures quiet { OnErr result (result ≢ Err RunError.WriteFault → result ≢ Err RunError.NoMemory
        → Keeps (W.contents text.old) (W.contents text.new) × Keeps (P.contents file.old) (P.contents file.new)) }
    ensures memory { result ≡ Err RunError.NoMemory → (Keeps (W.contents text.old) (W.contents text.new) × Keeps (P.contents file.old) (P.contents file.new))
        ⊎ ((bytes : List ℕ) × (m : MovieData) × ReadsAll (M.remaining input.old) (M.remaining input.new) bytes × (movie_at bytes ≡ Ok m)
        × HasBegun request.now.line.now.command request.now.line.now.notation m (W.contents text.old) (W.contents text.new) (P.contents file.old) (P.contents file.new)) }
    ensures no_thread { result ≡ Err RunError.NoThread → StartsThreads request.now.line.now }
{
    match run_command(request, input, inputs, text, file) {
        Ok(end) => Ok(Answered::of(request.rt, request.line, &end)),
        Err(error) => Err(error),
    }
}

/// Does what a command line asks for with these inputs, and a file that takes what it writes. If all
/// is done no bytes of before stay in that, though nothing was written.
fn write_to<
    'a,
    R: Files + Threads + Wait + Sync + AllocGlobal,
    M: Read,
    S: Read,
    W: Write,
    G: Gate + Progress + Sync,
>(
    request: &Request<'a, R, G>,
    input: &mut M,
    inputs: &mut S,
    identities: &[Option<Identity>],
    name: &'a str,
    text: &mut W,
) -> Result<Answered, Failure<'a>>
    requires { TakesFile request.now.line.now → ⊥ }
    ensures ok { Writes request.now.line.now (ReadsBoth (M.remaining input.old) (M.remaining input.new) (S.remaining inputs.old) (S.remaining inputs.new))
        (W.contents text.old) (W.contents text.new) result }
    ensures quiet { KeepsQuiet request.now.line.now (W.contents text.old) (W.contents text.new) result }
    ensures part { LeavesPart request.now.line.now (ReadsBoth (M.remaining input.old) (M.remaining input.new) (S.remaining inputs.old) (S.remaining inputs.new))
        (W.contents text.old) (W.contents text.new) result }
    ensures no_thread { IfErr result (λ failure. IsNoThread failure → StartsThreads request.now.line.now) }
{
    let command = &request.line.command;
    let output = create(request.rt, name, identities)?;
    let Ok(mut output) = replace(request.rt, name, output, whole(command)) else {
        return Err(Failure::Run(RunError::NoMemory, None));
    };
    let Ok(mut file) = Gathered::new(request.rt.alloc(), &mut output, draws(command)) else {
        return Err(Failure::Run(RunError::NoMemory, None));
    };
    let answer = run(request, input, inputs, text, &mut file);
    let answered = match file.end(answer) {
        Ok(answered) => answered,
        Err(error) => return Err(Failure::Run(error, None).by_output(output.output_error())),
    };
    if answered.status == Status::Done && output.finish().is_err() {
        return Err(Failure::Run(RunError::WriteFault, output.output_error()));
    }
    Ok(answered)
}

/// Does what a command line asks for with these inputs, and standard output as what takes the file.
fn write_to_standard_output<
    'a,
    R: Files + Threads + Wait + Sync + AllocGlobal,
    M: Read,
    S: Read,
    W: Write,
    E: Write,
    G: Gate + Progress + Sync,
>(
    request: &Request<'a, R, G>,
    input: &mut M,
    inputs: &mut S,
    output: &mut W,
    text: &mut E,
) -> Result<Answered, Failure<'a>>
    requires { TakesFile request.now.line.now }
    ensures ok { Writes request.now.line.now (ReadsBoth (M.remaining input.old) (M.remaining input.new) (S.remaining inputs.old) (S.remaining inputs.new))
        (W.contents output.old) (W.contents output.new) result }
    ensures quiet { KeepsQuiet request.now.line.now (W.contents output.old) (W.contents output.new) result }
    ensures part { LeavesPart request.now.line.now (ReadsBoth (M.remaining input.old) (M.remaining input.new) (S.remaining inputs.old) (S.remaining inputs.new))
        (W.contents output.old) (W.contents output.new) result }
    ensures no_thread { IfErr result (λ failure. IsNoThread failure → StartsThreads request.now.line.now) }
{
    check_standard_output(request.rt)?;
    match run(request, input, inputs, text, output) {
        Ok(answered) => Ok(answered),
        Err(error) => Err(Failure::Run(error, None)),
    }
}

/// Whether standard output is what takes the file of a command.
pub(crate) fn takes_file(line: &CommandLine) -> bool
    ensures { (result ≡ true) ↔ TakesFile line.now }
{
    match line.output.as_deref() {
        Some(output) => output == STANDARD,
        None => false,
    }
}

/// Does what a command line asks for with these inputs. Standard error gets the text if standard
/// output takes the file, and else nothing.
fn answer<
    'a,
    R: Files + Threads + Wait + Sync + AllocGlobal,
    M: Read,
    S: Read,
    W: Write,
    E: Write,
    G: Gate + Progress + Sync,
>(
    request: &Request<'a, R, G>,
    input: &mut M,
    inputs: &mut S,
    identities: &[Option<Identity>],
    output: &mut W,
    error: &mut E,
) -> Result<Answered, Failure<'a>>
    ensures ok { Writes request.now.line.now (ReadsBoth (M.remaining input.old) (M.remaining input.new) (S.remaining inputs.old) (S.remaining inputs.new))
        (W.contents output.old) (W.contents output.new) result }
    ensures quiet { KeepsQuiet request.now.line.now (W.contents output.old) (W.contents output.new) result }
    ensures part { LeavesPart request.now.line.now (ReadsBoth (M.remaining input.old) (M.remaining input.new) (S.remaining inputs.old) (S.remaining inputs.new))
        (W.contents output.old) (W.contents output.new) result }
    ensures no_thread { IfErr result (λ failure. IsNoThread failure → StartsThreads request.now.line.now) }
{
    if takes_file(request.line) {
        return write_to_standard_output(request, input, inputs, output, error);
    }
    if let Some(name) = request.line.output.as_deref() {
        return write_to(request, input, inputs, identities, name, output);
    }
    match run(request, input, inputs, output, &mut io::sink()) {
        Ok(answered) => Ok(answered),
        Err(error) => Err(Failure::Run(error, None)),
    }
}

/// Opens an input of a command line, beside its output if that has a name.
fn open_input<'a, R: Files>(
    rt: &R,
    line: &'a CommandLine,
    name: &'a str,
) -> Result<Named<'a, R::File>, FileError<'a>>
    ensures { IfOk result (λ input. (input.name.now ≡ name.now) × (input.length ≡ 0) × (input.reason ≡ None)) }
{
    match line.output.as_deref() {
        Some(output) if output != STANDARD => open_beside(rt, name, output),
        _ => open(rt, name),
    }
}

/// What tells an input, which is open, from an output. That it is a standard stream of text is an error.
fn identity_of<'a, R: Files>(rt: &R, input: &Named<'a, R::File>) -> Result<Identity, FileError<'a>>
    ensures { IfErr result (λ error. Names input.now.name.now error ⊎ IsInputStream error) }
{
    let identity = Identity::of(input)?;
    check_streams(rt, identity)?;
    Ok(identity)
}

/// The same of standard input, of which a command line without an output needn't know it.
fn identity_of_standard_input<R: Files>(
    rt: &R,
    line: &CommandLine,
) -> Result<Option<Identity>, FileError<'static>>
    ensures ok { IfOk result (λ identity. IsSome line.now.output → IsSome identity) }
    ensures err { IfErr result (λ error. IsSome line.now.output × Names (codes "standard input") error ⊎ IsInputStream error) }
{
    let identity = match (Identity::of_standard_input(rt), &line.output) {
        (Ok(identity), _) => identity,
        (Err(_), None) => return Ok(None),
        (Err(error), Some(_)) => return Err(error),
    };
    check_streams(rt, identity)?;
    Ok(Some(identity))
}

/// Does what a command line asks for with this first input, and this file as the second one.
fn answer_with_file<
    'a,
    R: Files + Threads + Wait + Sync + AllocGlobal,
    M: Read,
    W: Write,
    E: Write,
    G: Gate + Progress + Sync,
>(
    request: &Request<'a, R, G>,
    input: &mut M,
    identity: Option<Identity>,
    second: &'a str,
    output: &mut W,
    error: &mut E,
) -> Result<Answered, Failure<'a>>
    ensures ok { Writes request.now.line.now (ReadsFirstly (M.remaining input.old) (M.remaining input.new)) (W.contents output.old) (W.contents output.new) result }
    ensures quiet { KeepsQuiet request.now.line.now (W.contents output.old) (W.contents output.new) result }
    ensures part { LeavesPart request.now.line.now (ReadsFirstly (M.remaining input.old) (M.remaining input.new)) (W.contents output.old) (W.contents output.new) result }
    ensures no_thread { IfErr result (λ failure. IsNoThread failure → StartsThreads request.now.line.now) }
{
    let mut inputs = open_input(request.rt, request.line, second)?;
    let identities = [identity, Some(identity_of(request.rt, &inputs)?)];
    match answer(request, input, &mut inputs, &identities, output, error) {
        Ok(answered) => Ok(answered),
        Err(failure) => Err(failure.by_input(inputs.file_error())),
    }
}

/// Does what a command line asks for with this first input, where standard input may be the second
/// one.
fn answer_with<
    'a,
    R: Files + Threads + Wait + Sync + AllocGlobal,
    M: Read,
    I: Read,
    W: Write,
    E: Write,
    G: Gate + Progress + Sync,
>(
    request: &Request<'a, R, G>,
    input: &mut M,
    identity: Option<Identity>,
    standard: &mut I,
    output: &mut W,
    error: &mut E,
) -> Result<Answered, Failure<'a>>
    ensures ok { Writes request.now.line.now (ReadsWith request.now.line.now (M.remaining input.old) (M.remaining input.new) (I.remaining standard.old) (I.remaining standard.new))
        (W.contents output.old) (W.contents output.new) result }
    ensures quiet { KeepsQuiet request.now.line.now (W.contents output.old) (W.contents output.new) result }
    ensures part { LeavesPart request.now.line.now (ReadsWith request.now.line.now (M.remaining input.old) (M.remaining input.new) (I.remaining standard.old) (I.remaining standard.new))
        (W.contents output.old) (W.contents output.new) result }
    ensures no_thread { IfErr result (λ failure. IsNoThread failure → StartsThreads request.now.line.now) }
{
    if reads_second(request.line) {
        let identities = [
            identity,
            identity_of_standard_input(request.rt, request.line)?,
        ];
        return answer(request, input, standard, &identities, output, error);
    }
    match request.line.second.as_deref() {
        Some(second) => answer_with_file(request, input, identity, second, output, error),
        None => answer(request, input, &mut io::empty(), &[identity], output, error),
    }
}

/// Whether the first input of a command line is standard input.
pub(crate) fn reads_first(line: &CommandLine) -> bool
    ensures { (result ≡ true) ↔ ReadsFirst line.now }
{
    line.input.as_str() == STANDARD
}

/// Whether the second one is.
pub(crate) fn reads_second(line: &CommandLine) -> bool
    ensures { (result ≡ true) ↔ ReadsSecond line.now }
{
    match line.second.as_deref() {
        Some(second) => second == STANDARD,
        None => false,
    }
}

/// Does what a command line asks for, whose inputs aren't both standard input. The gate is called
/// around replays.
pub(crate) fn answer_line<
    'a,
    R: Files + Threads + Wait + Sync + AllocGlobal,
    I: Read,
    W: Write,
    E: Write,
    G: Gate + Progress + Sync,
>(
    request: &Request<'a, R, G>,
    standard: &mut I,
    output: &mut W,
    error: &mut E,
) -> Result<Answered, Failure<'a>>
    requires { ReadsTwice request.now.line.now → ⊥ }
    ensures ok { Writes request.now.line.now (ReadsInputs request.now.line.now (I.remaining standard.old) (I.remaining standard.new)) (W.contents output.old) (W.contents output.new) result }
    ensures quiet { KeepsQuiet request.now.line.now (W.contents output.old) (W.contents output.new) result }
    ensures part { LeavesPart request.now.line.now (ReadsInputs request.now.line.now (I.remaining standard.old) (I.remaining standard.new)) (W.contents output.old) (W.contents output.new) result }
    ensures no_thread { IfErr result (λ failure. IsNoThread failure → StartsThreads request.now.line.now) }
{
    if reads_first(request.line) {
        let identity = identity_of_standard_input(request.rt, request.line)?;
        return answer_with(request, standard, identity, &mut io::empty(), output, error);
    }
    let mut input = open_input(request.rt, request.line, &request.line.input)?;
    let identity = Some(identity_of(request.rt, &input)?);
    match answer_with(request, &mut input, identity, standard, output, error) {
        Ok(answered) => Ok(answered),
        Err(failure) => Err(failure.by_input(input.file_error())),
    }
}
