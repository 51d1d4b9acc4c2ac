//! That bytes are no movie, or no cartridge.
ghost use Rattle.std.specs.Prelude.{◌≡◌, IfOk, string_bytes};
ghost use Rattle.cart_board.specs.Known.{known_row};
ghost use Rattle.command_line.specs.Program.{program_name};
ghost use Rattle.movie_file.specs.declared.error.MovieError.TheVariants.{BadCounts};
ghost use Rattle.commands.specs.Answers.{line_answer};
ghost use Rattle.commands.specs.Refusals.{Refuses, RefusesRom, refusal_bytes, refusal_object, rom_refusal_bytes, rom_refusal_object};
ghost use Rattle.commands.specs.Remarks.{known_if};
ghost use Rattle.commands.specs.declared.line.Line.TheVariants as lines;

use crate::answer::Answer;
use crate::line::Line;
use crate::remark::{Cause, Remark, WhichInput};
use crate::status::Status;
use cart_board::KnownBoard;
use command_line::program_name;
use hex::encode;
use movie_file::MovieError;
use movie_hints::{Hint, hint_of, hint_of_rom};
use replay_plan::Notation;
use sha2::{Digest, Sha256};
use std::alloc::{AllocError, Global};
use std::fmt;

/// The number that a refusal has, as a member of an object.
#[derive(Clone, Copy)]
struct NumberMember(MovieError);

impl fmt::Display for NumberMember {
    ghost use Rattle.std.specs.Prelude.{Some};
    ghost use Rattle.commands.specs.Refusals.{number_member};

    ghost output = { λ refusal. Some (number_member refusal.0) };

    fn fmt<W: fmt::Write>(&self, f: &mut fmt::Formatter<W>) -> fmt::Result {
        match self.0 {
            MovieError::BadState(number) => write!(f, ",\"at\":{number}"),
            MovieError::BadInput(number) => write!(f, ",\"at\":{number}"),
            MovieError::BadOrder(number) => write!(f, ",\"at\":{number}"),
            _ => Ok(()),
        }
    }
}

/// What a hint says of a field, as members of an object.
#[derive(Clone, Copy)]
struct FieldMembers(Hint);

impl fmt::Display for FieldMembers {
    ghost use Rattle.std.specs.Prelude.{Some};
    ghost use Rattle.commands.specs.Refusals.{field_members};

    ghost output = { λ hint. Some (field_members hint.0) };

    fn fmt<W: fmt::Write>(&self, f: &mut fmt::Formatter<W>) -> fmt::Result {
        match self.0 {
            Hint::Mismatch(mismatch) => write!(
                f,
                ",\"byte\":{},\"field\":\"{}\",\"expected\":\"{}\",\"found\":\"{}\"",
                mismatch.byte, mismatch.field, mismatch.expected, mismatch.found
            ),
            _ => Ok(()),
        }
    }
}

/// The reason of a refusal, if it is known, as members of an object.
#[derive(Clone, Copy)]
struct ReasonMembers(Option<Hint>);

impl fmt::Display for ReasonMembers {
    ghost use Rattle.std.specs.Prelude.{Some};
    ghost use Rattle.commands.specs.Refusals.{reason_members};

    ghost output = { λ hint. Some (reason_members hint.0) };

    fn fmt<W: fmt::Write>(&self, f: &mut fmt::Formatter<W>) -> fmt::Result {
        match self.0 {
            Some(hint) => write!(f, "{},\"reason\":\"{hint}\"", FieldMembers(hint)),
            None => Ok(()),
        }
    }
}

/// The object about bytes that are refused so, with this reason. The program's name has no quotation
/// mark, backslash or control character, as no hint at bytes has.
fn refusal_object(
    alloc: Global,
    program: &str,
    bytes: &[u8],
    error: MovieError,
    hint: Option<Hint>,
) -> Result<String, AllocError>
    ensures { IfOk result (λ text. string_bytes text ≡ refusal_object program.now bytes.now error hint) }
{
    let number = NumberMember(error);
    let reason = ReasonMembers(hint);
    let sha256 = encode(alloc, Sha256::digest(bytes))?;
    format!(in alloc;
        "{{\"verdict\":\"refused\",\"refusal\":\"{error}\"{number}{reason},\"program\":\"{program}\",\"movie_sha256\":\"{sha256}\"}}\n"
    )
}

/// The line or the object about bytes that are refused so, with this reason.
fn refusal_text(
    alloc: Global,
    notation: Notation,
    bytes: &[u8],
    error: MovieError,
    hint: Option<Hint>,
) -> Result<String, AllocError>
    ensures { IfOk result (λ text. string_bytes text ≡ refusal_bytes notation program_name bytes.now error hint) }
{
    match notation {
        Notation::Lines => Line::Refused(error).text(alloc),
        Notation::Json => refusal_object(alloc, program_name(), bytes, error, hint),
    }
}

/// What is to be said of an input, if anything is known of it.
pub(crate) fn remark_if(input: WhichInput, hint: Option<Hint>) -> Option<Remark>
    ensures { result ≡ known_if input hint }
{
    match hint {
        Some(hint) => Some(Remark::of(input, hint)),
        None => None,
    }
}

/// That these bytes are refused so, and why: a line, or an object of JSON that also says why.
pub(crate) fn refusal(
    alloc: Global,
    notation: Notation,
    bytes: &[u8],
    error: MovieError,
) -> Result<Answer, AllocError>
    ensures { IfOk result (Refuses notation program_name bytes.now error) }
{
    let hint = hint_of(bytes, error);
    let text = refusal_text(alloc, notation, bytes, error, hint)?;
    let answer = Answer::of_text(alloc, Status::Refused, text);
    Ok(answer.with_remark(remark_if(WhichInput::First, hint)))
}

/// That counts are refused, which this input has, with what is known of them.
pub(crate) fn counts_refusal(
    alloc: Global,
    input: WhichInput,
    hint: Option<Hint>,
) -> Result<Answer, AllocError>
    ensures { IfOk result (λ answer. answer ≡ record (line_answer (lines.Refused BadCounts)) { remark = known_if input hint }) }
{
    let answer = Answer::of_line(alloc, Line::Refused(MovieError::BadCounts))?;
    Ok(answer.with_remark(remark_if(input, hint)))
}

/// The object about a ROM that is refused, with this reason. The program's name has no quotation mark,
/// backslash or control character, as no hint at bytes has.
fn rom_refusal_object(alloc: Global, program: &str, hint: Hint) -> Result<String, AllocError>
    ensures { IfOk result (λ text. string_bytes text ≡ rom_refusal_object program.now hint) }
{
    format!(in alloc;
        "{{\"rom_refusal\":\"BadCartSize\",\"reason\":\"{hint}\",\"program\":\"{program}\"}}\n"
    )
}

/// The line or the object about a ROM that is refused, with this reason.
fn rom_refusal_text(alloc: Global, notation: Notation, hint: Hint) -> Result<String, AllocError>
    ensures { IfOk result (λ text. string_bytes text ≡ rom_refusal_bytes notation program_name hint) }
{
    match notation {
        Notation::Lines => Line::Refused(MovieError::BadCartSize).text(alloc),
        Notation::Json => rom_refusal_object(alloc, program_name(), hint),
    }
}

/// That the bytes of this input are no cartridge, on this board or on none, and why: a line, or an object
/// of JSON that also says why.
pub(crate) fn rom_refusal(
    alloc: Global,
    input: WhichInput,
    notation: Notation,
    board: Option<KnownBoard>,
    rom: &[u8],
) -> Result<Answer, AllocError>
    ensures { IfOk result (RefusesRom input notation program_name (known_row board) rom.now) }
{
    let hint = hint_of_rom(rom, board);
    let text = rom_refusal_text(alloc, notation, hint)?;
    let remark = Remark {
        input,
        cause: Cause::NoCartridge(hint),
    };
    Ok(Answer::of_text(alloc, Status::Refused, text).with_remark(Some(remark)))
}
