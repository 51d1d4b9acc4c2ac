//! Movies: one of two frames byte by byte, longer ones that are made.

use crate::call_failure::{CallFailure, OUT_OF_MEMORY, right};
use movie_file::{Movie, NoProgress, make_movie, read_movie, write_movie};
use riot_map::Cart;
use std::alloc::{AllocError, Global};
use vcs_machine::Input;

/// LDA #02, STA 80, STA VSYNC, LDA #00, STA VSYNC, JMP F000: a frame of 13 cycles, then frames of
/// 16.
pub(crate) const ENDLESS_FRAMES: [u8; 13] = [
    0xA9, 2, 0x85, 0x80, 0x85, 0, 0xA9, 0, 0x85, 0, 0x4C, 0, 0xF0,
];

/// The length of the movie of two frames, with one checkpoint.
pub(crate) const LENGTH: usize = 2446;

/// The length of that movie in version 2: its two states have a byte more each.
pub(crate) const CONVERTED_LENGTH: usize = 2448;

/// Puts values from a place on.
pub(crate) fn put<const N: usize>(bytes: &mut [u8; N], from: usize, values: &[u8]) {
    for (byte, value) in bytes.iter_mut().skip(from).zip(values) {
        *byte = *value;
    }
}

/// Puts a movie up to its checkpoints: so many idle frames of a program from power-on, and how many
/// checkpoints there are.
pub(crate) fn put_start<const N: usize>(
    bytes: &mut [u8; N],
    program: &[u8],
    frames: u8,
    checkpoints: u8,
) {
    put(bytes, 0, b"A26M");
    put(bytes, 4, &[0, 1, 8, 0, 0, 0, 0, frames, 0, checkpoints]);
    put(bytes, 14, program);
    put(bytes, 14 + 0x7FD, &[0xF0]);
    // The start: S, P, PC, and the timer's part.
    put(bytes, 2065, &[0xFF, 0x04, 0xF0]);
    put(bytes, 2203, &[1, 3]);
    for frame in 0..usize::from(frames) {
        put(bytes, 2249 + 3 * frame, &[0xFF, 0x3F]);
    }
}

/// The bytes of a movie of two frames from power-on, with a checkpoint after the first. They take
/// no memory.
pub(crate) fn two_frames() -> [u8; LENGTH] {
    let mut bytes = [0; LENGTH];
    put_start(&mut bytes, &ENDLESS_FRAMES, 2, 1);
    // The frame of the checkpoint.
    put(&mut bytes, 2258, &[1]);
    // The claimed state: S, P, PC, A, the byte at 80, the timer, and the cycle of the line.
    put(&mut bytes, 2262, &[0xFF, 0x06, 0xF0, 0x0A, 2]);
    put(&mut bytes, 2398, &[0xF3, 0, 1, 3, 1, 1]);
    put(&mut bytes, 2444, &[0x0D]);
    bytes
}

/// The same with its checkpoint after the second frame.
pub(crate) fn two_frames_to_the_end() -> [u8; LENGTH] {
    let mut bytes = two_frames();
    bytes[2258] = 2;
    bytes[2398] = 0xE3;
    bytes[2444] = 0x1D;
    bytes
}

/// Two frames of which the checkpoint claims 07 at address 80, where each frame stores 02.
pub(crate) fn two_frames_with_a_false_claim() -> [u8; LENGTH] {
    let mut bytes = two_frames();
    bytes[2266] = 7;
    bytes
}

/// The movie of two frames in version 2: another version, and a last byte of each state, the bank,
/// which is 0.
pub(crate) fn conversion() -> [u8; CONVERTED_LENGTH] {
    let old = two_frames();
    let (to_the_start, rest) = old.split_at(2249);
    let mut bytes = [0; CONVERTED_LENGTH];
    put(&mut bytes, 0, to_the_start);
    put(&mut bytes, 5, &[2]);
    put(&mut bytes, 2250, rest);
    bytes
}

/// The movie of two frames.
pub(crate) fn movie(alloc: Global) -> Result<Movie, CallFailure> {
    Ok(read_movie(alloc, &two_frames())?)
}

/// The cartridge of a movie of two frames.
pub(crate) fn cartridge(alloc: Global, movie: &[u8; LENGTH]) -> Result<Cart, CallFailure> {
    let mut bytes = Vec::with_capacity(alloc, 2048)?;
    bytes.extend_from_slice(&movie[14..2062])?;
    match Cart::new(bytes) {
        Ok(cart) => Ok(cart),
        Err(_) => Err(CallFailure::Wrong),
    }
}

/// A movie of so many frames of that cartridge, with a checkpoint at every so many.
pub(crate) fn make(alloc: Global, frames: usize, every: u32) -> Result<Movie, CallFailure> {
    let Some(idle) = Input::new(0xFF, 0x3F, 0) else {
        return Err(CallFailure::Wrong);
    };
    let cart = cartridge(alloc, &two_frames())?;
    let inputs = vec![in alloc; idle; frames]?;
    Ok(make_movie(
        alloc,
        movie_machine::Cart::Guide(cart),
        inputs,
        every,
        &NoProgress,
    )?)
}

/// A cartridge of two banks, which takes no memory beside its bytes.
pub(crate) fn is_cartridge(alloc: Global) -> Result<(), CallFailure> {
    let bytes = vec![in alloc; 0u8; 8192]?;
    right(Cart::new(bytes).is_ok())
}

pub(crate) fn is_read(alloc: Global) -> Result<(), CallFailure> {
    let movie = movie(alloc)?;
    right(movie.frames() == 2 && movie.checkpoints() == 1)
}

/// Where it is out of memory nothing is written.
pub(crate) fn is_written(alloc: Global) -> Result<(), CallFailure> {
    let movie = movie(alloc)?;
    let mut out = Vec::new(alloc);
    match write_movie(&movie, &mut out) {
        Ok(()) => right(out.as_slice() == two_frames().as_slice()),
        Err(AllocError) if out.is_empty() => Err(OUT_OF_MEMORY),
        Err(AllocError) => Err(CallFailure::Wrong),
    }
}

pub(crate) fn is_made(alloc: Global) -> Result<(), CallFailure> {
    let movie = make(alloc, 5, 2)?;
    right(movie.frames() == 5 && movie.checkpoints() == 2)
}
