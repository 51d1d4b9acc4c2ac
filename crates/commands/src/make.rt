//! A movie that is made of a ROM and of inputs.
ghost use Rattle.std.specs.Prelude.{◌≡◌, Err, IfErr, IfOk, Some};
ghost use Rattle.cart_board.specs.Known.{known_row};
ghost use Rattle.std.specs.NonZero.{non_zero_u32_get};
ghost use Rattle.input_text.specs.Texts.{inputs_in};
ghost use Rattle.movie_file.specs.Spelling.{spelling};
ghost use Rattle.commands.specs.Answers.{line_answer};
ghost use Rattle.commands.specs.Make.{Makes, MakesFrom, MakesOf, RefusesInputs};
ghost use Rattle.commands.specs.RunErrors.{IsOfReading};
ghost use Rattle.commands.specs.Private.MadeRuns.{line_of, remark_of};
ghost use Rattle.commands.specs.declared.line.Line.TheVariants as lines;
ghost use Rattle.commands.specs.declared.remark.WhichInput.TheVariants.{Second};
ghost use Rattle.commands.specs.Streams.{IsTooLong};

use crate::answer::Answer;
use crate::bad_text::BadText;
use crate::line::Line;
use crate::make_run::{MadeMovie, make_run};
use crate::refusal::{counts_refusal, remark_if, rom_refusal};
use crate::remark::{Cause, Remark, WhichInput};
use crate::run_error::RunError;
use crate::streams::read_all;
use cart_board::KnownBoard;
use command_line::Making;
use input_text::read_text;
use movie_file::{MakeError, MovieError, Progress, is_length, read_inputs};
use movie_hints::{Hint, hint_of_counts, hint_of_storage};
use movie_machine::Cart;
use refused::Refused;
use replay_plan::{InputForm, Notation};
use std::alloc::{AllocError, Global};
use std::io::Read;
use vcs_machine::Input;

/// What is said of a movie that was made: how much it has, or its fault.
fn line_of(made: &MadeMovie) -> Line
    ensures { result ≡ line_of made.now.movie made.now.fault }
{
    match made.fault {
        None => Line::Made {
            frames: made.movie.frames(),
            checkpoints: made.movie.checkpoints(),
        },
        Some(fault) => Line::Fault {
            frame: fault.frame,
            kind: fault.kind,
        },
    }
}

/// What is said of inputs of which this was made: how they are stored, if the run ended.
fn remark_of(made: &MadeMovie, stored: Option<Hint>) -> Option<Remark>
    ensures { result ≡ remark_of stored made.now.fault }
{
    match made.fault {
        None => remark_if(WhichInput::Second, stored),
        Some(_) => None,
    }
}

/// What is written of a movie that was made of inputs that are stored so.
fn of_made(alloc: Global, made: MadeMovie, stored: Option<Hint>) -> Result<Answer, AllocError>
    ensures { IfOk result (λ answer. answer
        ≡ record (line_answer (line_of made.movie made.fault)) { file = spelling made.movie; remark = remark_of stored made.fault }) }
{
    let answer = Answer::of_movie(alloc, &made.movie, line_of(&made))?;
    Ok(answer.with_remark(remark_of(&made, stored)))
}

/// That inputs are refused by this line, for this cause.
fn refused_inputs(alloc: Global, line: Line, cause: Cause) -> Result<Answer, AllocError>
    ensures { IfOk result (λ answer. answer ≡ record (line_answer line) { remark = Some (record { input = Second; cause = cause }) }) }
{
    let input = WhichInput::Second;
    let answer = Answer::of_line(alloc, line)?;
    Ok(answer.with_remark(Some(Remark { input, cause })))
}

/// That bytes are no inputs, for this reason.
fn no_inputs(alloc: Global, bytes: Vec<u8>, error: MovieError) -> Result<Answer, AllocError>
    ensures { IfOk result (RefusesInputs bytes.items (lines.Refused error)) }
{
    refused_inputs(
        alloc,
        Line::Refused(error),
        Cause::NoInputs { bytes, error },
    )
}

/// That the line of this number, from 1, is the first bad one of a text.
fn bad_line(alloc: Global, text: Vec<u8>, number: u64) -> Result<Answer, AllocError>
    requires { inputs_in text.items ≡ Err number }
    ensures { IfOk result (RefusesInputs text.items (lines.BadLine number)) }
{
    let bad = BadText { text, number };
    refused_inputs(alloc, Line::BadLine(number), Cause::BadLine(bad))
}

/// What is written of a cartridge and inputs, which are stored so.
fn of_inputs<P: Progress>(
    alloc: Global,
    cart: Cart,
    inputs: Vec<Input>,
    stored: Option<Hint>,
    making: Making,
    progress: &P,
) -> Result<Answer, AllocError>
    ensures { IfOk result (λ answer. MakesOf cart inputs.items stored (non_zero_u32_get making.every) making.to_the_end making.to_the_fault answer) }
{
    let frames = inputs.len();
    match make_run(
        alloc,
        cart,
        inputs,
        making.every.get(),
        making.to_the_end,
        making.to_the_fault,
        progress,
    ) {
        Ok(made) => of_made(alloc, made, stored),
        Err(Refused::Of(MakeError::Fault { frame, kind })) => {
            let line = Line::Fault { frame, kind };
            Answer::of_line(alloc, line)
        }
        Err(Refused::Of(MakeError::BadCounts)) => {
            let hint = stored.or(hint_of_counts(frames as u64, making.every, making.to_the_end));
            counts_refusal(alloc, WhichInput::Second, hint)
        }
        Err(Refused::NoMemory) => Err(AllocError),
    }
}

/// What is written of a cartridge and the bytes of inputs.
fn of_bytes<P: Progress>(
    alloc: Global,
    cart: Cart,
    form: InputForm,
    bytes: Vec<u8>,
    making: Making,
    progress: &P,
) -> Result<Answer, AllocError>
    ensures { IfOk result (λ answer. MakesFrom cart form bytes.items (non_zero_u32_get making.every) making.to_the_end making.to_the_fault answer) }
{
    match form {
        InputForm::Bytes => match read_inputs(alloc, &bytes) {
            Ok(inputs) => of_inputs(alloc, cart, inputs, None, making, progress),
            Err(Refused::NoMemory) => Err(AllocError),
            Err(Refused::Of(error)) => no_inputs(alloc, bytes, error),
        },
        InputForm::Text => match read_text(alloc, &bytes) {
            Ok(inputs) => of_inputs(
                alloc,
                cart,
                inputs,
                hint_of_storage(&bytes),
                making,
                progress,
            ),
            Err(Refused::NoMemory) => Err(AllocError),
            Err(Refused::Of(bad)) => bad_line(alloc, bytes, bad.number),
        },
    }
}

/// A movie of the run from power-on with the cartridge of a ROM, on this board or on none, and these
/// inputs, which claims what is asked for; or why none is made. The inputs are read if the ROM is a
/// cartridge.
pub(crate) fn make<S: Read, P: Progress>(
    alloc: Global,
    rom: Vec<u8>,
    board: Option<KnownBoard>,
    form: InputForm,
    inputs: &mut S,
    making: Making,
    progress: &P,
) -> Result<Answer, RunError>
    ensures makes { IfOk result (λ answer. Makes form making (known_row board) rom.items (S.remaining inputs.old) (S.remaining inputs.new) answer) }
    ensures only { IfErr result IsOfReading }
    ensures too_long { result ≡ Err RunError.TooLong → IsTooLong (S.remaining inputs.old) }
{
    if !is_length(board, rom.len()) {
        let input = WhichInput::First;
        return Ok(rom_refusal(alloc, input, Notation::Lines, board, &rom)?);
    }
    let Ok(cart) = Cart::on(board, rom) else {
        unreachable!();
    };
    let bytes = read_all(alloc, inputs)?;
    Ok(of_bytes(alloc, cart, form, bytes, making, progress)?)
}
