//! An error as an object of JSON, for commands that answer in JSON.
ghost use Rattle.std.specs.Prelude.{◌≡◌, ◌↔◌, IfOk, string_bytes, true};
ghost use Rattle.picture_file.specs.Prefixes.{AppendsPrefix};
ghost use Rattle.vcs_check.specs.ErrorObjects.{GetsErrorObject, IsErrorObject, IsObjectOf, SaysErrors};
ghost use Rattle.vcs_check.specs.ErrorObjects.{error_object, file_error_object};
ghost use Rattle.vcs_check.specs.Failures.{file_error_of};

use crate::command_files::takes_file;
use crate::failure::Failure;
use command_line::CommandLine;
use commands::Notation;
use picture_file::write_bytes;
use serde_json::json;
use std::alloc::{AllocError, Global};
use std::io::Write;

/// Whether standard output gets the errors of a command: it answers in JSON, and there.
pub(crate) fn says_errors(line: &CommandLine) -> bool
    ensures { (result ≡ true) ↔ SaysErrors line.now }
{
    line.notation == Notation::Json && !takes_file(line)
}

/// The object of an error about no file.
fn object_of(alloc: Global, error: &str) -> Result<String, AllocError>
    ensures { IfOk result (λ text. string_bytes text ≡ error_object error.now) }
{
    json!(in alloc; {"error": error})?.to_string(alloc)
}

/// That of an error about this file, for this reason.
fn object_of_file(
    alloc: Global,
    error: &str,
    file: &str,
    reason: &str,
) -> Result<String, AllocError>
    ensures { IfOk result (λ text. string_bytes text ≡ file_error_object error.now file.now reason.now) }
{
    json!(in alloc; {"error": error, "file": file, "reason": reason})?.to_string(alloc)
}

/// The object of a failure.
fn object_of_failure(alloc: Global, failure: &Failure<'_>) -> Result<String, AllocError>
    ensures { IfOk result (λ text. IsObjectOf (file_error_of failure.now) (string_bytes text)) }
{
    let error = format!(in alloc; "{failure}")?;
    match failure.file_error() {
        Some(file_error) => {
            let reason = format!(in alloc; "{}", file_error.reason())?;
            object_of_file(alloc, &error, file_error.file(), &reason)
        }
        None => object_of(alloc, &error),
    }
}

/// The same with the end of its line.
fn line_of_failure(alloc: Global, failure: &Failure<'_>) -> Result<String, AllocError>
    ensures { IfOk result (λ text. IsErrorObject failure.now (string_bytes text)) }
{
    let mut text = object_of_failure(alloc, failure)?;
    text.push_str("\n")?;
    Ok(text)
}

/// Writes a text, or as much of it as is taken.
fn write_text<W: Write>(text: &str, output: &mut W)
    ensures { AppendsPrefix (W.contents output.old) (W.contents output.new) text.now }
{
    let _written = write_bytes(text.as_bytes(), output);
}

/// Writes the object of a failure. That it isn't taken changes nothing, nor that there is no memory for
/// it.
pub(crate) fn write_error_object<W: Write>(alloc: Global, failure: &Failure<'_>, output: &mut W)
    ensures { GetsErrorObject failure.now (W.contents output.old) (W.contents output.new) }
{
    match line_of_failure(alloc, failure) {
        Ok(text) => write_text(&text, output),
        Err(_) => {}
    }
}
