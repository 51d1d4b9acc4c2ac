//! The program: judges movies, makes them, converts them, looks into their runs, and says what they
//! hold and how they were played.
//!
//! Status 0: done; 1: a false checkpoint; 2: a fault; 3: refused; 4: no command; 5: an error of
//! files, memory or threads, which is printed on standard error; 6: genuine, but not what a report
//! was asked to expect. Without arguments it does what `verify -` does.
#![tactic(auto)]

mod advice;
mod answered;
mod command_files;
mod ending;
mod error_object;
mod failure;
mod gathered;
mod hints;
mod progress;
mod reasons;

ghost use Rattle.vcs_check.specs.Commands.{KeepsQuiet, LeavesPart, ReadsInputs, ReadsTwice, Writes};
ghost use Rattle.vcs_check.specs.Endings.{Concludes, IsEndingOfWords};
ghost use Rattle.vcs_check.specs.Failures.{IsForOutput};
ghost use Rattle.vcs_check.specs.ErrorObjects.{GetsErrorObject, SaysErrors};
ghost use Rattle.vcs_check.specs.Lines.{IsAdvised, IsFaultOf, IsFaultOfWords, IsLineOf, IsLineOfWords, IsMistake, texts_of};
ghost use Rattle.command_line.specs.Faults.{IsRefusal, UnlessRefused};
ghost use Rattle.command_line.specs.declared.command.LineFault.{LineFault as Fault};
ghost use Rattle.terminal_text.specs.Names.{shown_text};
ghost use Rattle.vcs_check.specs.declared.failure.Failure.{Failure as WhyNot};
ghost use Rattle.vcs_check.specs.declared.answered.Answered.{Answered as Told};
ghost use Rattle.named_files.specs.FileErrors.{IsAbout, IsErrorOf};
ghost use Rattle.named_files.specs.declared.file_error.FileError.{FileError as FailedFile};
ghost use Rattle.named_files.specs.declared.file_error.Reason.TheVariants.{IsTerminal as IsTerminalOutput};
ghost use Rattle.vcs_check.specs.declared.ending.Ending.TheVariants.{Failed};
ghost use Rattle.vcs_check.specs.declared.failure.Failure.TheVariants.{Open};
ghost use Rattle.std.specs.Prelude.{◌≡◌, ◌⊎◌, ℕ, IfErr, IfOk, List, Option, Result, codes, map};
ghost use Rattle.vcs_check.specs.Private.FileErrors.{by_input, by_output};
ghost use Rattle.std.specs.Io.KnownBytes.{Keeps};
ghost use Rattle.std.specs.Process.{exit_status};

use advice::{advised, help_without_explain, tell_remark};
use answered::Answered;
use clap::error::ErrorKind;
use command_files::{answer_line, draws, reads_first, reads_second, takes_file};
use command_line::{CommandLine, LineFault, parse_line};
use commands::{Gate, Progress, Request, RunError};
use ending::{Ending, not_written};
use error_object::{says_errors, write_error_object};
use failure::Failure;
use hints::tell_hints;
use named_files::{
    FileError, Limited, Named, Quota, Reason, STANDARD_ERROR, STANDARD_INPUT, STANDARD_OUTPUT,
    null_if_closed, sync_standard_output,
};
use progress::ProgressLine;
use reasons::{has_explain, is_explained, write_reason};
use refused::Refused;
use std::alloc::{AllocError, Global};
use std::env::{self, Env};
use std::io::{self, BufWriter, Eprint, IsTerminal, Print, Read, Write};
use std::process::ExitCode;
use std::rt::Files;
use std::sync::Wait;
use std::thread::Threads;
use terminal_text::Shown;

/// The same reason why words are no command, without advice that leads to none.
fn advised_fault(alloc: Global, words: &[String], fault: LineFault) -> Result<LineFault, AllocError>
    ensures { IfOk result (IsAdvised fault) }
{
    match fault {
        LineFault::Usage { kind, text } => Ok(LineFault::Usage {
            kind,
            text: advised(alloc, words, kind, text)?,
        }),
        other => Ok(other),
    }
}

/// Why some words are no command, where some of them aren't shown as they are: the reason of those
/// that are shown in their place.
fn fault_of_shown(alloc: Global, words: &[String]) -> Result<LineFault, AllocError>
    ensures { IfOk result (λ told. IsMistake told ⊎ ((fault : Fault) × IsAdvised fault told × IsRefusal (map shown_text (texts_of words.now)) fault)) }
{
    let mut shown = Vec::with_capacity(alloc, words.len())?;
    for word in words {
        shown.push(format!(in alloc; "{}", Shown::name(word))?)?;
    }
    match parse_line(alloc, &shown) {
        Err(Refused::NoMemory) => Err(AllocError),
        Err(Refused::Of(fault)) => advised_fault(alloc, &shown, fault),
        Ok(_) => {
            let text = String::from_str(alloc, "error: no command\n")?;
            Ok(LineFault::Usage {
                kind: ErrorKind::UnknownArgument,
                text,
            })
        }
    }
}

/// What is told of words that are no command line. If each of their characters is shown as it is,
/// that is this fault with advice. Otherwise it is the fault of the words as they are shown, so no
/// text about them has a character that a reader can't see.
fn told_fault(alloc: Global, words: &[String], fault: LineFault) -> Result<LineFault, AllocError>
    ensures { IfOk result (λ told. IsAdvised fault told ⊎ ((shown : Fault) × IsAdvised shown told × IsRefusal (map shown_text (texts_of words.now)) shown)) }
{
    if words.iter().all(|word| Shown::name(word).is_all_plain()) {
        return advised_fault(alloc, words, fault);
    }
    match fault {
        LineFault::Usage { .. } => fault_of_shown(alloc, words),
        LineFault::Help { text } => Ok(LineFault::Help { text }),
    }
}

/// The command line of some words.
fn line_of(alloc: Global, words: &[String]) -> Result<CommandLine, Refused<LineFault>>
    ensures ok { IfOk result (IsLineOf (texts_of words.now)) }
    ensures err { IfErr result (UnlessRefused (IsFaultOf (texts_of words.now))) }
{
    match parse_line(alloc, words) {
        Err(Refused::Of(fault)) => Err(Refused::Of(told_fault(alloc, words, fault)?)),
        answer => answer,
    }
}

/// The same, also where `--explain` stands after `help`.
fn line_of_all(alloc: Global, words: &[String]) -> Result<CommandLine, Refused<LineFault>>
    ensures ok { IfOk result (IsLineOfWords words.now) }
    ensures err { IfErr result (UnlessRefused (IsFaultOfWords words.now)) }
{
    match help_without_explain(alloc, words)? {
        Some(asked) => line_of(alloc, &asked),
        None => line_of(alloc, words),
    }
}

/// Hands on what standard output has gathered, and waits until the disk has it.
fn settle<R: Files, W: Write>(rt: &R, output: &mut W) -> io::Result<()>
    ensures { Keeps (W.contents output.old) (W.contents output.new) }
{
    output.flush()?;
    sync_standard_output(rt)
}

/// The same failure, with the standard stream that failed if no other file is known.
fn of_streams<'a, I, W, E>(
    failure: Failure<'a>,
    input: &Named<'a, I>,
    output: &Named<'a, W>,
    error: &Named<'a, E>,
) -> Failure<'a>
    ensures { (one two three : Option FailedFile) × IsErrorOf input.now one × IsErrorOf output.now two × IsErrorOf error.now three
        × (result ≡ by_output (by_output (by_input failure.entry one) two) three) }
{
    failure
        .by_input(input.file_error())
        .by_output(output.file_error())
        .by_output(error.file_error())
}

/// Says on standard output why a command failed that answers in JSON there, if standard output has not
/// failed itself and is no input.
fn say_error<R: Files + AllocGlobal, W: Write>(
    rt: &R,
    line: &CommandLine,
    failure: &Failure<'_>,
    output: &mut Named<'_, W>,
)
    ensures object { SaysErrors line.now → GetsErrorObject failure.now (W.contents output.old.stream) (W.contents output.new.stream) }
    ensures none { (SaysErrors line.now → ⊥) → W.contents output.new.stream ≡ W.contents output.old.stream }
    ensures not_for_it { (IsForOutput failure.now → ⊥) → W.contents output.new.stream ≡ W.contents output.old.stream }
{
    if says_errors(line) && output.file_error().is_none() && failure.is_for_output() {
        write_error_object(rt.alloc(), failure, output);
    }
}

/// Says the reason of what a command has answered so, if reasons are wanted, and answers the exit
/// status.
fn conclude<R: Files + AllocGlobal + Print + Eprint, I, W: Write, E>(
    rt: &R,
    line: &CommandLine,
    input: &Named<'_, I>,
    output: &mut Named<'_, W>,
    error: &Named<'_, E>,
    answer: Result<Answered, Failure<'_>>,
) -> ExitCode
    ensures { Concludes line.now (W.contents output.old.stream) (W.contents output.new.stream) answer.entry (exit_status result) }
{
    match answer {
        Ok(answered) => match settle(rt, output) {
            Ok(()) => {
                if line.explain {
                    tell_hints(rt, line, &answered);
                }
                ExitCode::from(answered.status.code())
            }
            Err(error) => not_written(error).report(rt, line.explain),
        },
        Err(failure) => {
            let failure = of_streams(failure, input, output, error);
            say_error(rt, line, &failure, output);
            Ending::Failed(failure).report(rt, line.explain)
        }
    }
}

/// Does what a command asks for, says the reason if reasons are wanted, and answers the exit status.
fn carry_out<
    R: Files + Threads + Wait + Sync + AllocGlobal + Print + Eprint,
    I: Read,
    W: Write,
    E: Write,
    G: Gate + Progress + Sync,
>(
    request: &Request<'_, R, G>,
    input: &mut Named<'_, I>,
    output: &mut Named<'_, W>,
    error: &mut Named<'_, E>,
) -> ExitCode
    requires { ReadsTwice request.now.line.now → ⊥ }
    // An answer, and what stands on standard output after it.
    ensures { (answer : Result Told WhyNot) × (told : Option (List ℕ))
        × Writes request.now.line.now (ReadsInputs request.now.line.now (I.remaining input.old.stream) (I.remaining input.new.stream)) (W.contents output.old.stream) told answer
        × KeepsQuiet request.now.line.now (W.contents output.old.stream) told answer
        × LeavesPart request.now.line.now (ReadsInputs request.now.line.now (I.remaining input.old.stream) (I.remaining input.new.stream)) (W.contents output.old.stream) told answer
        × Concludes request.now.line.now told (W.contents output.new.stream) answer (exit_status result) }
{
    let answer = answer_line(request, input, output, error);
    conclude(request.rt, request.line, input, output, error, answer)
}

/// The program's arguments.
fn words_of_program<R: Env + AllocGlobal>(rt: &R) -> Result<Vec<String>, Ending<'static>> {
    let arguments = env::args(rt)?;
    let words: Result<Vec<String>, AllocError> = arguments.collect(rt.alloc());
    match words {
        Ok(words) => Ok(words),
        Err(_) => Err(Ending::Failed(Failure::Run(RunError::NoMemory, None))),
    }
}

/// The command line of some words. One of its inputs alone may be `-`.
fn line_of_words(alloc: Global, words: &[String]) -> Result<CommandLine, Ending<'static>>
    ensures ok { IfOk result (λ line. ReadsTwice line → ⊥) }
    ensures words { IfOk result (IsLineOfWords words.now) }
    ensures err { IfErr result (IsEndingOfWords words.now) }
{
    let line = line_of_all(alloc, words)?;
    if reads_first(&line) && reads_second(&line) {
        return Err(Ending::Twice);
    }
    Ok(line)
}

/// Why standard output can't take the file of a command: it is a terminal.
fn to_terminal() -> Ending<'static>
    ensures { (file_error : FailedFile) × (result ≡ Failed (Open file_error)) × IsAbout (codes "standard output") IsTerminalOutput file_error }
{
    let file_error = FileError::new(STANDARD_OUTPUT, Reason::IsTerminal);
    Ending::Failed(Failure::Open(file_error))
}

fn main(rt: HostRuntime) -> ExitCode {
    // In this order, since the least number that is free is given.
    let _in_place_of_closed = (
        null_if_closed(&rt, "/dev/stdin", true),
        null_if_closed(&rt, "/dev/stdout", false),
        null_if_closed(&rt, "/dev/stderr", false),
    );
    let is_terminal = rt.stderr().is_terminal();
    let words = match words_of_program(&rt) {
        Ok(words) => words,
        Err(ending) => return ending.report(&rt, is_terminal || is_explained(&rt)),
    };
    let line = match line_of_words(rt.alloc(), &words) {
        Ok(line) => line,
        Err(ending) => {
            let explain = is_terminal || has_explain(&words);
            let code = ending.report(&rt, explain);
            if explain {
                tell_remark(&rt, &words);
            }
            return code;
        }
    };
    let line = CommandLine {
        explain: is_terminal || line.explain,
        ..line
    };
    if takes_file(&line) && rt.stdout().is_terminal() {
        return to_terminal().report(&rt, line.explain);
    }
    if words.len() < 2 && rt.stdin().is_terminal() {
        write_reason(
            &rt,
            "reads a movie from standard input; vcs_check --help says more",
        );
    }
    let mut input = Named::new(STANDARD_INPUT, rt.stdin());
    let output = Limited::new(io::writer(&rt), Quota::of_standard_output(&rt));
    let error = Limited::new(rt.stderr(), Quota::of_standard_error(&rt));
    let mut error = Named::new(STANDARD_ERROR, error);
    let progress = ProgressLine::new(&rt, is_terminal, rt.stdout().is_terminal());
    let request = Request {
        rt: &rt,
        line: &line,
        gate: &progress,
    };
    if !takes_file(&line) || !draws(&line.command) {
        let mut output = Named::new(STANDARD_OUTPUT, output);
        return carry_out(&request, &mut input, &mut output, &mut error);
    }
    // Pictures go through a buffer.
    match BufWriter::new(rt.alloc(), output) {
        Ok(output) => {
            let mut output = Named::new(STANDARD_OUTPUT, output);
            carry_out(&request, &mut input, &mut output, &mut error)
        }
        Err(_) => Ending::Failed(Failure::Run(RunError::NoMemory, None)).report(&rt, line.explain),
    }
}
