//! The line of a frame of a run.
ghost use Rattle.std.specs.Prelude.{◌≡◌, ◌<◌, ◌+◌, length, Some, None, IfOk, IfErr, IsTrue, OnOk};
ghost use Rattle.std.specs.Prelude.{if◌then◌else◌, string_bytes};
ghost use Rattle.std.specs.List.{flat_map};
ghost use Rattle.movie_machine.specs.States.{is_of};
ghost use Rattle.vcs_machine.specs.Pictures.{Rows};
ghost use Rattle.picture_file.specs.PictureBytes.{picture_bytes};
ghost use Rattle.replay_segments.specs.NextCheckpoint.{IsNext};
ghost use Rattle.run_cursor.specs.Cursor.{IsAt};
ghost use Rattle.run_cursor.specs.RunFaults.{FrameFails};
ghost use Rattle.frame_text.specs.FrameLines.{byte_at, byte_text, checkpoint_text, digests_text};
ghost use Rattle.frame_text.specs.FrameLines.{end_text, ended_line, frame_line, memory_text};
ghost use Rattle.frame_text.specs.FrameLines.{told_claim, watched_text};

use hex::{encode, encode_upper};
use movie_file::{Movie, have_one_record, state_record};
use movie_machine::{Cart, State, TimedFrame};
use picture_file::{HEADER_BYTES, ROW_BYTES, ppm};
use refused::Refused;
use replay_plan::{Address, Details, Notation};
use run_cursor::Cursor;
use sha2::{Digest, Sha256};
use std::alloc::{AllocError, Global};
use std::fmt;
use vcs_machine::{FaultKind, HexByte, Picture};

/// How many cycles a frame took, and how many rows its picture has, in words.
#[derive(Clone, Copy)]
pub struct FrameLength {
    pub frame: u32,
    pub cycles: u32,
    pub rows: u16,
}

impl fmt::Display for FrameLength {
    ghost use Rattle.std.specs.Prelude.{Some};
    ghost use Rattle.frame_text.specs.FrameLines.{frame_text};

    ghost output = { λ l. Some (frame_text l.frame l.cycles l.rows) };

    fn fmt<W: fmt::Write>(&self, f: &mut fmt::Formatter<W>) -> fmt::Result {
        let FrameLength {
            frame,
            cycles,
            rows,
        } = *self;
        write!(f, "frame {frame}: {cycles} cycles, {rows} rows")
    }
}

/// How a line or an object about a frame begins.
#[derive(Clone, Copy)]
struct Beginning {
    notation: Notation,
    length: FrameLength,
}

impl fmt::Display for Beginning {
    ghost use Rattle.std.specs.Prelude.{Some};
    ghost use Rattle.frame_text.specs.FrameLines.{length_text};

    ghost output = { λ b. Some (length_text b.notation b.length.frame b.length.cycles b.length.rows) };

    fn fmt<W: fmt::Write>(&self, f: &mut fmt::Formatter<W>) -> fmt::Result {
        let Beginning { notation, length } = *self;
        let FrameLength {
            frame,
            cycles,
            rows,
        } = length;
        match notation {
            Notation::Lines => write!(f, "{length}"),
            Notation::Json => write!(f, "{{\"frame\":{frame},\"cycles\":{cycles},\"rows\":{rows}"),
        }
    }
}

/// Whether the claim of a checkpoint of this number is true.
fn told_claim(
    alloc: Global,
    notation: Notation,
    number: u16,
    is_true: bool,
) -> Result<String, AllocError>
    ensures { IfOk result (λ text. string_bytes text ≡ told_claim notation number is_true) }
{
    match (notation, is_true) {
        (Notation::Lines, true) => format!(in alloc; ", checkpoint {number} true"),
        (Notation::Lines, false) => format!(in alloc; ", checkpoint {number} false"),
        (Notation::Json, true) => format!(in alloc;
            ",\"checkpoint\":{number},\"claim_is_true\":true"
        ),
        (Notation::Json, false) => format!(in alloc;
            ",\"checkpoint\":{number},\"claim_is_true\":false"
        ),
    }
}

/// What is said of the checkpoint after a frame, if one stands there. `next` is the index of the first
/// that is not before the frame.
#[tactic(auto, using(crate::proofs::StandingCheckpoints::what_is_told, movie_file::proofs::StateLemmas::claim_of))]
fn told_checkpoint(
    alloc: Global,
    notation: Notation,
    movie: &Movie,
    next: u16,
    frame: u32,
    state: &State,
) -> Result<String, AllocError>
    requires next { IsNext movie.now next frame }
    requires cartridge { IsTrue (is_of movie.now.cartridge state.now) }
    ensures { IfOk result (λ text. string_bytes text ≡ checkpoint_text notation movie.now frame state.now) }
{
    if next == movie.checkpoints() {
        return Ok(String::new(alloc));
    }
    let number = next + 1;
    let checkpoint = movie.checkpoint(number);
    if checkpoint.frame != frame {
        return Ok(String::new(alloc));
    }
    let is_true = have_one_record(movie.cart(), &checkpoint.state, state);
    told_claim(alloc, notation, number, is_true)
}

/// An address of the memory and its byte, as an object.
#[derive(Clone, Copy)]
struct ByteObject {
    address: u8,
    byte: u8,
}

impl fmt::Display for ByteObject {
    ghost use Rattle.std.specs.Prelude.{Some};
    ghost use Rattle.frame_text.specs.FrameLines.{byte_object};

    ghost output = { λ o. Some (byte_object o.address o.byte) };

    fn fmt<W: fmt::Write>(&self, f: &mut fmt::Formatter<W>) -> fmt::Result {
        write!(
            f,
            "{{\"address\":\"{}\",\"byte\":\"{}\"}}",
            HexByte(self.address),
            HexByte(self.byte)
        )
    }
}

/// The byte of the memory at an address.
fn byte_at(state: &State, address: Address) -> u8
    ensures { result ≡ byte_at state.now address }
{
    state.memory()[address.place() as usize]
}

/// What is said of a byte of the memory, after others.
fn told_byte(
    alloc: Global,
    notation: Notation,
    state: &State,
    watched: Address,
) -> Result<String, AllocError>
    ensures { IfOk result (λ text. string_bytes text ≡ byte_text notation state.now watched) }
{
    let address = watched.number();
    let byte = byte_at(state, watched);
    match notation {
        Notation::Lines => format!(in alloc; ", memory {} {}", HexByte(address), HexByte(byte)),
        Notation::Json => format!(in alloc; ",{}", ByteObject { address, byte }),
    }
}

/// What is said of bytes of the memory, each after others.
fn told_bytes(
    alloc: Global,
    notation: Notation,
    addresses: &[Address],
    state: &State,
) -> Result<String, AllocError>
    ensures { IfOk result (λ text. string_bytes text ≡ flat_map (byte_text notation state.now) addresses.now) }
{
    let mut text = String::new(alloc);
    for watched in addresses {
        let part = told_byte(alloc, notation, state, *watched)?;
        text.push_str(&part)?;
    }
    Ok(text)
}

/// What is said of the bytes of the memory that are watched.
fn told_watches(
    alloc: Global,
    notation: Notation,
    addresses: &[Address],
    state: &State,
) -> Result<String, AllocError>
    ensures { IfOk result (λ text. string_bytes text ≡ watched_text notation state.now addresses.now) }
{
    match (notation, addresses) {
        (Notation::Lines, _) => told_bytes(alloc, notation, addresses, state),
        (Notation::Json, []) => Ok(String::new(alloc)),
        (Notation::Json, [first, others @ ..]) => {
            let address = first.number();
            let byte = byte_at(state, *first);
            let others = told_bytes(alloc, notation, others, state)?;
            format!(in alloc; ",\"watched\":[{}{others}]", ByteObject { address, byte })
        }
    }
}

/// What is said of the whole memory.
fn told_memory(alloc: Global, notation: Notation, state: &State) -> Result<String, AllocError>
    ensures { IfOk result (λ text. string_bytes text ≡ memory_text notation state.now) }
{
    let digits = encode_upper(alloc, state.memory())?;
    match notation {
        Notation::Lines => format!(in alloc; ", memory {digits}"),
        Notation::Json => format!(in alloc; ",\"memory\":\"{digits}\""),
    }
}

/// The file of a picture.
fn file_of(alloc: Global, picture: &Picture) -> Result<Vec<u8>, AllocError>
    ensures { IfOk result (λ file. file.items ≡ picture_bytes picture.now) }
{
    let length = HEADER_BYTES + ROW_BYTES * picture.rows() as usize;
    let mut file = Vec::with_capacity(alloc, length)?;
    match ppm(picture, &mut file) {
        Ok(()) => Ok(file),
        Err(_) => Err(AllocError),
    }
}

/// The digests of a state's record and of a picture's file.
fn told_digests(
    alloc: Global,
    notation: Notation,
    cart: &Cart,
    state: &State,
    picture: &Picture,
) -> Result<String, AllocError>
    ensures { IfOk result (λ text. string_bytes text ≡ digests_text notation cart.now state.now picture.now) }
{
    let record = state_record(alloc, cart, state)?;
    let state = encode(alloc, Sha256::digest(&record))?;
    let file = file_of(alloc, picture)?;
    let picture = encode(alloc, Sha256::digest(&file))?;
    match notation {
        Notation::Lines => format!(in alloc; ", state {state}, picture {picture}"),
        Notation::Json => format!(in alloc; ",\"state\":\"{state}\",\"picture\":\"{picture}\""),
    }
}

/// The end of a line or of an object.
fn end(notation: Notation) -> &'static str
    ensures { result.now ≡ end_text notation }
{
    match notation {
        Notation::Lines => "\n",
        Notation::Json => "}\n",
    }
}

/// The line or the object of a frame that ended, with its end. `next` is the index of the first checkpoint that
/// is not before the frame.
fn line_of(
    alloc: Global,
    movie: &Movie,
    notation: Notation,
    details: &Details,
    next: u16,
    frame: u32,
    timed: &TimedFrame,
    state: &State,
) -> Result<String, AllocError>
    requires next { IsNext movie.now next frame }
    requires cartridge { IsTrue (is_of movie.now.cartridge state.now) }
    requires picture { (rows : Rows) × (timed.now.rows ≡ length rows)
        × (timed.now.picture ≡ (if details.now.digests then Some rows else None)) }
    ensures { IfOk result (λ text. (rows : Rows) → timed.now.rows ≡ length rows → timed.now.picture ≡ (if details.now.digests then Some rows else None)
        → string_bytes text ≡ ended_line movie.now notation details.now frame timed.now.cycles state.now rows) }
{
    let _ = movie.frames();
    let length = FrameLength {
        frame,
        cycles: timed.cycles,
        rows: timed.rows,
    };
    let beginning = Beginning { notation, length };
    let checkpoint = told_checkpoint(alloc, notation, movie, next, frame, state)?;
    let bytes = told_watches(alloc, notation, details.watches.addresses(), state)?;
    let memory = if details.memory {
        told_memory(alloc, notation, state)?
    } else {
        String::new(alloc)
    };
    let digests = match &timed.picture {
        Some(picture) => told_digests(alloc, notation, movie.cart(), state, picture)?,
        None => String::new(alloc),
    };
    let end = end(notation);
    format!(in alloc; "{beginning}{checkpoint}{bytes}{memory}{digests}{end}")
}

/// Plays the next frame; the answer is its line, with its end. `next` is the index of the first
/// checkpoint that is not before that frame.
pub fn played_line(
    alloc: Global,
    notation: Notation,
    details: &Details,
    next: u16,
    cursor: &mut Cursor<'_>,
) -> Result<String, Refused<FaultKind>>
    requires more { cursor.old.frame < length cursor.old.movie.inputs }
    requires next { IsNext cursor.old.movie next (cursor.old.frame + 1) }
    ensures ok { OnOk result (IsAt cursor.old.movie (cursor.old.frame + 1) cursor.new) }
    ensures line { IfOk result (λ text. string_bytes text ≡ frame_line cursor.old.movie notation details.now cursor.old.frame) }
    ensures err { IfErr result (FrameFails cursor.old.movie cursor.old.frame) }
{
    let movie = cursor.movie();
    let timed = cursor.advance_timed(alloc, details.digests)?;
    match line_of(
        alloc,
        movie,
        notation,
        details,
        next,
        cursor.frame(),
        &timed,
        cursor.state(),
    ) {
        Ok(text) => Ok(text),
        Err(AllocError) => Err(Refused::NoMemory),
    }
}
