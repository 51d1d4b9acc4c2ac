//! Movies by the chip's rules, of a cartridge on a board with memory of its own. A state of it takes a
//! growth for that memory. What they have to give is worked out by hand from these.

use crate::answer::{answer_to, answer_with};
use crate::call_failure::{CallFailure, OUT_OF_MEMORY, right};
use crate::movies::put;
use cart_board::{Cart, KnownBoard};
use commands::Status;
use movie_file::{Movie, NoProgress, make_movie, read_movie, write_movie};
use std::alloc::{AllocError, Global};
use std::sync::Wait;
use std::thread::Threads;
use vcs_machine::Input;

/// LDA #02, STA F400, STA VSYNC, LDA #00, STA VSYNC, JMP F800: a frame of 14 cycles, then one of 17.
/// F400 leads to the first byte of the cartridge's memory.
const PROGRAM: [u8; 14] = [
    0xA9, 2, 0x8D, 0, 0xF4, 0x85, 0, 0xA9, 0, 0x85, 0, 0x4C, 0, 0xF8,
];

/// The length of a state's record: of board CV it has 1,024 bytes of the cartridge's memory.
const RECORD: usize = 206 + 1024;

/// Where the cartridge begins, after the header; then the start, the inputs and the one claim, with its
/// frame and its state.
const CARTRIDGE: usize = 17;

const START: usize = CARTRIDGE + 2048;

const INPUTS: usize = START + RECORD;

const FRAME: usize = INPUTS + 6;

const CLAIM: usize = FRAME + 4;

/// The length of the movie of two frames, with one checkpoint.
const LENGTH: usize = CLAIM + RECORD;

/// The bytes of a movie of two frames from power-on, with a checkpoint after the first. They take no
/// memory.
fn two_frames() -> [u8; LENGTH] {
    let mut bytes = [0; LENGTH];
    put(&mut bytes, 0, b"A26M");
    put(&mut bytes, 4, &[0, 3, 14, 0, 0, 8, 0, 0, 0, 0, 2, 0, 1]);
    put(&mut bytes, CARTRIDGE, &PROGRAM);
    put(&mut bytes, CARTRIDGE + 0x7FD, &[0xF8]);
    // The start: S, P, PC, and the timer's part.
    put(&mut bytes, START + 3, &[0xFF, 0x04, 0xF8]);
    put(&mut bytes, START + 141, &[1, 3]);
    put(&mut bytes, INPUTS, &[0xFF, 0x3F, 0, 0xFF, 0x3F]);
    put(&mut bytes, FRAME + 3, &[1]);
    // The claimed state: S, P, PC, the timer, the cycle of the line, and the first byte of the
    // cartridge's memory.
    put(&mut bytes, CLAIM + 3, &[0xFF, 0x06, 0xF8, 0x0B]);
    put(&mut bytes, CLAIM + 139, &[0xF2, 0x03, 0xF3, 3, 1]);
    put(&mut bytes, CLAIM + 199, &[14]);
    put(&mut bytes, CLAIM + 206, &[2]);
    bytes
}

/// The same with its checkpoint after the second frame, at clock 93 of the line, of which 25 are visible:
/// as far have the counters of the five objects gone.
fn two_frames_to_the_end() -> [u8; LENGTH] {
    let mut bytes = two_frames();
    bytes[FRAME + 3] = 2;
    put(&mut bytes, CLAIM + 139, &[0xE1, 0x03, 0xE2]);
    put(&mut bytes, CLAIM + 176, &[25; 5]);
    bytes[CLAIM + 199] = 31;
    bytes
}

/// Tries a call about such a movie; none has another name.
pub(crate) fn outcome<R: Threads + Wait + Sync + AllocGlobal>(
    rt: &R,
    alloc: Global,
    call: &str,
) -> Option<Result<(), CallFailure>> {
    Some(match call {
        "read_movie_on_board" => is_read(alloc),
        "write_movie_on_board" => is_written(alloc),
        "make_movie_on_board" => is_made(alloc),
        "run_on_board" => is_judged(rt),
        "run_make_on_board" => is_made_by_command(rt),
        "run_report_on_board" => is_reported_false(rt),
        "run_frames_on_board" => are_told(rt),
        "run_trace_on_board" => is_traced(rt),
        "run_cut_on_board" => is_cut_out(rt),
        _ => return None,
    })
}

/// The movie of two frames.
fn movie(alloc: Global) -> Result<Movie, CallFailure> {
    Ok(read_movie(alloc, &two_frames())?)
}

fn is_read(alloc: Global) -> Result<(), CallFailure> {
    let movie = movie(alloc)?;
    right(movie.version() == 3 && movie.frames() == 2 && movie.checkpoints() == 1)
}

/// Where it is out of memory nothing is written.
fn is_written(alloc: Global) -> Result<(), CallFailure> {
    let movie = movie(alloc)?;
    let mut out = Vec::new(alloc);
    match write_movie(&movie, &mut out) {
        Ok(()) => right(out.as_slice() == two_frames().as_slice()),
        Err(AllocError) if out.is_empty() => Err(OUT_OF_MEMORY),
        Err(AllocError) => Err(CallFailure::Wrong),
    }
}

fn is_made(alloc: Global) -> Result<(), CallFailure> {
    let idle = Input::new(0xFF, 0x3F, 0).ok_or(CallFailure::Wrong)?;
    let known = KnownBoard::of_name("CV").ok_or(CallFailure::Wrong)?;
    let bytes = two_frames()[CARTRIDGE..START].to_vec(alloc)?;
    let Ok(cart) = Cart::new(known.board, bytes) else {
        return Err(CallFailure::Wrong);
    };
    let inputs = vec![in alloc; idle; 5]?;
    let cart = movie_machine::Cart::Chip(cart);
    let movie = make_movie(alloc, cart, inputs, 2, &NoProgress)?;
    right(movie.version() == 3 && movie.frames() == 5 && movie.checkpoints() == 2)
}

/// Two frames judged by one worker.
fn is_judged<R: Threads + Wait + Sync + AllocGlobal>(rt: &R) -> Result<(), CallFailure> {
    answer_to(rt, "vcs_check verify m", &mut two_frames().as_slice())?.is(
        Status::Done,
        b"genuine: 2 frames, 1 checkpoints\n",
        &[],
    )
}

/// A movie with a checkpoint at every two frames, byte by byte.
fn is_made_by_command<R: Threads + Wait + Sync + AllocGlobal>(rt: &R) -> Result<(), CallFailure> {
    let wanted = two_frames_to_the_end();
    let words = "vcs_check make r i --every 2 --out o --board CV";
    let (mut rom, mut inputs) = (&wanted[CARTRIDGE..START], &wanted[INPUTS..FRAME]);
    answer_with(rt, words, &mut rom, &mut inputs)?.is(
        Status::Done,
        b"made: 2 frames, 1 checkpoints\n",
        &wanted,
    )
}

/// A claim of 07 in the cartridge's memory, where each frame stores 02, and the report.
fn is_reported_false<R: Threads + Wait + Sync + AllocGlobal>(rt: &R) -> Result<(), CallFailure> {
    let mut movie = two_frames();
    movie[CLAIM + 206] = 7;
    let answer = answer_to(rt, "vcs_check report m", &mut movie.as_slice())?;
    let text = answer.text.as_slice();
    let begins = text.starts_with(
        b"false checkpoint 1 at frame 1\ncartridge memory 000: claimed 07, found 02\n",
    );
    answer.judged(Status::False, begins, text.is_empty())
}

/// The lines of the two frames, with digests: of the records, and of a picture's file with a row of
/// zeros.
const LINES: &str =
    "frame 1: 14 cycles, 1 rows, checkpoint 1 true, state bb3d8566c2aa1a304071f70e1100c059afb545be41c51c8844e5f36db51a816f, picture 4409125736b791ebfbe7f4b5965102771b94973613b155995c4cb26f34875114
frame 2: 17 cycles, 1 rows, state 5abd70385ce4ea32b4051909eaaaf7c57bd9f9067f0f0282fb3ac5789116664d, picture 4409125736b791ebfbe7f4b5965102771b94973613b155995c4cb26f34875114
";

/// The lines about two frames.
fn are_told<R: Threads + Wait + Sync + AllocGlobal>(rt: &R) -> Result<(), CallFailure> {
    let words = "vcs_check frames m --count 3 --digests";
    answer_to(rt, words, &mut two_frames().as_slice())?.is_in_lines(Status::Done, LINES.as_bytes())
}

/// The trace of the first of two frames.
const TRACE: &str = "  0  0  F800  A9 02     LDA #$02     A=00 X=00 Y=00 S=FF P=04
  0  2  F802  8D 00 F4  STA $F400    A=02 X=00 Y=00 S=FF P=04  write F400 02
  0  6  F805  85 00     STA $00      A=02 X=00 Y=00 S=FF P=04  write 0000 02
  0  9  F807  A9 00     LDA #$00     A=02 X=00 Y=00 S=FF P=04
  0 11  F809  85 00     STA $00      A=00 X=00 Y=00 S=FF P=06  write 0000 00
frame 1: 14 cycles, 1 rows
";

/// The trace of a frame.
fn is_traced<R: Threads + Wait + Sync + AllocGlobal>(rt: &R) -> Result<(), CallFailure> {
    let words = "vcs_check trace m --frame 1";
    answer_to(rt, words, &mut two_frames().as_slice())?.is_in_lines(Status::Done, TRACE.as_bytes())
}

/// Two frames as a movie of their own with a checkpoint after the second, byte by byte.
fn is_cut_out<R: Threads + Wait + Sync + AllocGlobal>(rt: &R) -> Result<(), CallFailure> {
    let words = "vcs_check cut m --count 3 --every 2 --out o";
    answer_to(rt, words, &mut two_frames().as_slice())?.is(
        Status::Done,
        b"cut: 2 frames, 1 checkpoints\n",
        &two_frames_to_the_end(),
    )
}
