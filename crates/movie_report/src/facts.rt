//! The facts of a movie, and its report.
ghost use Rattle.std.specs.Prelude.{◌≡◌, IfOk, length, string_bytes};
ghost use Rattle.std.specs.Option.{option_copied};
ghost use Rattle.movie_machine.specs.Carts.{board_of};
ghost use Rattle.movie_machine.specs.States.{state_at_power_on};
ghost use Rattle.movie_file.specs.Record.{record_in};
ghost use Rattle.replay_segments.specs.Verdicts.{HasVerdict};
ghost use Rattle.movie_report.specs.Facts.{banks_of, cartridge_text, end_text, facts_text, head_text};
ghost use Rattle.movie_report.specs.Facts.{held_text, last_held, movie_text, notes_and_facts_text};
ghost use Rattle.movie_report.specs.Facts.{start_differences_text, start_text, IsReport};
ghost use Rattle.movie_report.specs.Numbers.{bytes_in, state_names};

use crate::checkpoints::checkpoint_facts;
use crate::differences::{Comparison, differences};
use crate::expectations::Agreement;
use crate::failure_facts::failure_facts;
use crate::notation::{NumberFact, WordFact};
use crate::notes::notes;
use crate::object_head::verdict_head;
use hex::encode;
use input_text::is_idle;
use md5::Md5;
use movie_file::{Movie, Progress, state_record};
use movie_machine::{Cart, State};
use replay_plan::{Notation, Workers};
use replay_segments::Verdict;
use sha1::Sha1;
use sha2::Sha256;
use std::alloc::{AllocError, Global};
use std::thread::Threads;

/// The bank scheme by which a cartridge is played.
fn banks(cart: &Cart) -> &'static str
    ensures { result.now ≡ banks_of cart.now }
{
    match cart {
        Cart::Guide(cart) => { if cart.has_banks() { "F8" } else { "none" } }
        Cart::Chip(cart) => cart.board().name,
    }
}

/// A cartridge's length, digests and bank scheme.
fn cartridge_facts(alloc: Global, notation: Notation, cart: &Cart) -> Result<String, AllocError>
    ensures { IfOk result (λ text. string_bytes text ≡ cartridge_text notation cart.now) }
{
    let length = cart.len();
    let bytes = cart.bytes();
    let md5 = encode(alloc, <Md5 as md5::Digest>::digest(bytes))?;
    let sha1 = encode(alloc, Sha1::digest(bytes))?;
    let sha256 = encode(alloc, <Sha256 as sha2::Digest>::digest(bytes))?;
    let banks = banks(cart);
    format!(in alloc;
        "{}{}{}{}{}",
        NumberFact(notation, "cartridge", "cartridge: ", length, " bytes"),
        WordFact(notation, "md5", "md5: ", &md5),
        WordFact(notation, "sha1", "sha1: ", &sha1),
        WordFact(notation, "sha256", "sha256: ", &sha256),
        WordFact(notation, "banks", "banks: ", banks)
    )
}

/// Whether a start state is that of power-on: of the records of both.
fn start_fact(
    alloc: Global,
    notation: Notation,
    start: &[u8],
    power_on: &[u8],
) -> Result<String, AllocError>
    ensures { IfOk result (λ text. string_bytes text ≡ start_text notation start.now power_on.now) }
{
    let word = if start == power_on {
        "power-on"
    } else {
        "not power-on"
    };
    format!(in alloc; "{}", WordFact(notation, "start", "start: ", word))
}

/// In which numbers it differs from that, if it does.
fn start_differences(
    alloc: Global,
    notation: Notation,
    movie: &Movie,
    start: &[u8],
    power_on: &[u8],
) -> Result<String, AllocError>
    requires start { length start.now ≡ bytes_in (state_names (board_of movie.now.cartridge)) }
    requires power_on { length power_on.now ≡ bytes_in (state_names (board_of movie.now.cartridge)) }
    ensures { IfOk result (λ text. string_bytes text
        ≡ start_differences_text notation (board_of movie.now.cartridge) start.now power_on.now) }
{
    if start == power_on {
        return Ok(String::new(alloc));
    }
    let board = movie.cart().board();
    differences(alloc, notation, Comparison::Start, board, start, power_on)
}

/// The last frame of a movie in which anything is held, or 0.
#[tactic(auto, using(crate::proofs::ListLemmas::what_is_left))]
fn last_held_frame(movie: &Movie) -> u32
    ensures { result ≡ last_held 0 0 movie.now.inputs }
{
    let mut last = 0;
    for before in 0..movie.frames() {
        if !is_idle(&movie.input(before + 1)) {
            last = before + 1;
        }
    }
    last
}

/// The last frame in which anything is held.
fn held_facts(alloc: Global, notation: Notation, frame: u32) -> Result<String, AllocError>
    ensures { IfOk result (λ text. string_bytes text ≡ held_text notation frame) }
{
    match (notation, frame == 0) {
        (Notation::Lines, true) => format!(in alloc; "last input: none\n"),
        (Notation::Lines, false) => format!(in alloc; "last input: frame {frame}\n"),
        (Notation::Json, true) => format!(in alloc; ",\"last_input\":null"),
        (Notation::Json, false) => format!(in alloc; ",\"last_input\":{frame}"),
    }
}

/// What the movie is, of whose file these are the bytes, and which program says so.
fn movie_facts(
    alloc: Global,
    notation: Notation,
    program: &str,
    bytes: &[u8],
    movie: &Movie,
) -> Result<String, AllocError>
    ensures { IfOk result (λ text. string_bytes text ≡ movie_text notation program.now bytes.now movie.now) }
{
    let version = u32::from(movie.version());
    let frames = movie.frames();
    let sha256 = encode(alloc, <Sha256 as sha2::Digest>::digest(bytes))?;
    let held = held_facts(alloc, notation, last_held_frame(movie))?;
    format!(in alloc;
        "{}{}{}{held}{}",
        NumberFact(notation, "version", "movie version: ", version, ""),
        NumberFact(notation, "frames", "movie frames: ", frames, ""),
        WordFact(notation, "movie_sha256", "movie sha256: ", &sha256),
        WordFact(notation, "program", "program: ", program)
    )
}

/// How a report of this verdict begins.
fn head(alloc: Global, notation: Notation, verdict: &Verdict) -> Result<String, AllocError>
    ensures { IfOk result (λ text. string_bytes text ≡ head_text notation verdict.now) }
{
    if notation == Notation::Lines {
        return Ok(String::new(alloc));
    }
    verdict_head(alloc, verdict)
}

/// How a report ends.
fn end(notation: Notation) -> &'static str
    ensures { result.now ≡ end_text notation }
{
    match notation {
        Notation::Lines => "",
        Notation::Json => "}\n",
    }
}

/// What a movie is, whatever its verdict, with the records of its start state and of power-on.
fn facts(
    alloc: Global,
    notation: Notation,
    program: &str,
    bytes: &[u8],
    movie: &Movie,
    start: &[u8],
    power_on: &[u8],
) -> Result<String, AllocError>
    ensures { IfOk result (λ text. string_bytes text
        ≡ facts_text notation program.now bytes.now movie.now start.now power_on.now) }
{
    let cartridge = cartridge_facts(alloc, notation, movie.cart())?;
    let start = start_fact(alloc, notation, start, power_on)?;
    let checkpoints = checkpoint_facts(alloc, notation, movie)?;
    let contents = movie_facts(alloc, notation, program, bytes, movie)?;
    format!(in alloc; "{cartridge}{start}{checkpoints}{contents}")
}

/// The notes and the facts, and the numbers of a start that isn't power-on.
#[tactic(auto, using(crate::proofs::NumberLemmas::record_bytes, movie_file::proofs::StateLemmas::start_of))]
fn notes_and_facts(
    alloc: Global,
    notation: Notation,
    program: &str,
    bytes: &[u8],
    movie: &Movie,
) -> Result<String, AllocError>
    ensures { IfOk result (λ text. string_bytes text ≡ notes_and_facts_text notation program.now bytes.now movie.now
        (record_in movie.now.cartridge movie.now.start) (record_in movie.now.cartridge (state_at_power_on movie.now.cartridge))) }
{
    let _ = movie.frames();
    let cart = movie.cart();
    let start = state_record(alloc, cart, movie.start())?;
    let power_on = State::power_on(alloc, cart)?;
    let power_on = state_record(alloc, cart, &power_on)?;
    let notes = notes(alloc, notation, movie, &start, &power_on)?;
    let facts = facts(alloc, notation, program, bytes, movie, &start, &power_on)?;
    let differences = start_differences(alloc, notation, movie, &start, &power_on)?;
    format!(in alloc; "{notes}{facts}{differences}")
}

/// What a judge asks after a verdict, of a movie, of whose file these are the bytes, by a program of
/// this name: lines that follow the line of the verdict, or an object of JSON and a line feed.
///
/// First comes what went wrong, if the movie isn't genuine. Of a false checkpoint these are the
/// numbers in which the claimed state differs from that of the run, and of a fault the registers and
/// the beam's place that its frame left; for these so much of the movie is replayed as lies between
/// the place and the last checkpoint before it. Of both follows which segments between checkpoints
/// reach their claims: the verdict says it of the first that doesn't and of those before it, and the
/// others are replayed. Of a false checkpoint also comes after which other frame the run has the
/// claimed state, for which the run is replayed, and in which claims the run is, for which it goes on
/// to the last; a sentence; and a frame of the segment before it whose input, left out or played twice,
/// leads to the claim, for which runs of that segment are played. Then comes whether the movie is as
/// expected, where anything is, and in which bytes its cartridge differs from the ROM that is, if one
/// is given; then notes, and the facts: the cartridge's length, digests and bank scheme, whether the
/// start state is that of power-on, where checkpoints stand, and what the movie is. The numbers of a
/// start that isn't power-on are the last.
///
/// As many workers replay the segments, one on the calling thread and each other one in a thread of
/// its own, which is joined. Where the start of a thread is refused, the calling thread does its
/// work too, so the only error is that memory was refused. One worker starts no thread, and a
/// genuine movie none. What is replayed is told: the segments by workers as one work, and what the
/// calling thread replays before and after them as others.
///
/// The program's name has no quotation mark, backslash or control character.
pub fn report<R: Threads + Sync, P: Progress + Sync>(
    rt: &R,
    alloc: Global,
    notation: Notation,
    program: &str,
    bytes: &[u8],
    movie: &Movie,
    verdict: &Verdict,
    rom: Option<&[u8]>,
    agreement: Agreement,
    workers: Workers,
    progress: &P,
) -> Result<String, AllocError>
    requires { HasVerdict movie.now verdict.now }
    ensures { IfOk result (λ text. IsReport notation program.now bytes.now movie.now verdict.now
        (option_copied rom.entry) agreement (string_bytes text)) }
{
    let head = head(alloc, notation, verdict)?;
    let failure = failure_facts(rt, alloc, notation, movie, verdict, workers, progress)?;
    let expected = agreement.text(alloc, notation, rom, movie.cart().bytes())?;
    let rest = notes_and_facts(alloc, notation, program, bytes, movie)?;
    let end = end(notation);
    format!(in alloc; "{head}{failure}{expected}{rest}{end}")
}
