//! Worked movies as the format spells them, byte by byte.

use movie_file::{Movie, NoProgress, make_movie, read_movie};
use riot_map::Cart;
use std::alloc::Global;
use std::test::Fail;
use vcs_machine::Input;

/// LDA #02, STA 80, STA VSYNC, LDA #00, STA VSYNC, JMP F000: a frame of 13 cycles, then frames of
/// 16.
pub(crate) const ENDLESS_FRAMES: [u8; 13] = [
    0xA9, 2, 0x85, 0x80, 0x85, 0, 0xA9, 0, 0x85, 0, 0x4C, 0, 0xF0,
];

/// INX, CPX #07, BEQ F010, LDA #02, STA VSYNC, LDA #00, STA VSYNC, JMP F000: byte 02 stands at
/// F010.
pub(crate) const SEVEN_FRAMES: [u8; 16] = [
    0xE8, 0xE0, 7, 0xF0, 0x0B, 0xA9, 2, 0x85, 0, 0xA9, 0, 0x85, 0, 0x4C, 0, 0xF0,
];

/// INX, INX, STX COLUBK, STA WSYNC, LDA #02, STA VSYNC, STY VSYNC, JMP F000: line 0 of frame k has
/// the colour 2k from its left edge on, since each frame ends 8 cycles after a line's beginning.
pub(crate) const COLOURED_FRAMES: [u8; 15] = [
    0xE8, 0xE8, 0x86, 9, 0x85, 2, 0xA9, 2, 0x85, 0, 0x84, 0, 0x4C, 0, 0xF0,
];

/// The record of power-on: all 0 but S, P, PC, the timer's part and its interval.
pub(crate) fn power_on() -> [u8; 187] {
    let mut record = [0; 187];
    record[3] = 0xFF;
    record[4] = 0x04;
    record[5] = 0xF0;
    record[141] = 0x01;
    record[142] = 0x03;
    record
}

/// The record of the endless frames after 13 or 29 cycles, whose timer shows F3 or E3.
fn after_frame(timer: u8, line_cycle: u8) -> [u8; 187] {
    let mut record = power_on();
    record[4] = 0x06;
    record[6] = 0x0A;
    record[7] = 0x02;
    record[139] = timer;
    record[143] = 0x01;
    record[144] = 0x01;
    record[185] = line_cycle;
    record
}

/// The 2048 bytes of a cartridge with a program at F000.
pub(crate) fn rom(program: &[u8]) -> [u8; 2048] {
    let mut bytes = [0; 2048];
    for (i, byte) in program.iter().enumerate() {
        if i < 2048 {
            bytes[i] = *byte;
        }
    }
    bytes[0x010] = 0x02;
    bytes[0x7FD] = 0xF0;
    bytes
}

/// A movie of so many frames with idle inputs, and checkpoints after the frame of a given number,
/// the one behind it, ...
pub(crate) fn movie(
    alloc: Global,
    program: &[u8],
    start: &[u8; 187],
    frames: u8,
    first_checkpoint: u32,
    checkpoints: &[[u8; 187]],
) -> Result<Vec<u8>, Fail> {
    let count = u8::try_from(checkpoints.len())?;
    let mut bytes = Vec::new(alloc);
    bytes.extend_from_slice(b"A26M")?;
    bytes.extend_from_slice(&[0, 1, 8, 0, 0, 0, 0, frames, 0, count])?;
    bytes.extend_from_slice(&rom(program))?;
    bytes.extend_from_slice(start)?;
    for _frame in 0..frames {
        bytes.extend_from_slice(&[0xFF, 0x3F, 0])?;
    }
    let mut frame = first_checkpoint;
    for record in checkpoints {
        bytes.extend_from_slice(&frame.to_be_bytes())?;
        bytes.extend_from_slice(record)?;
        frame = frame.saturating_add(1);
    }
    Ok(bytes)
}

/// Two genuine frames with a true checkpoint after the first.
pub(crate) fn two_frames(alloc: Global) -> Result<Vec<u8>, Fail> {
    movie(
        alloc,
        &ENDLESS_FRAMES,
        &power_on(),
        2,
        1,
        &[after_frame(0xF3, 0x0D)],
    )
}

/// Two genuine frames with a true checkpoint after the second.
pub(crate) fn two_frames_with_a_last_checkpoint(alloc: Global) -> Result<Vec<u8>, Fail> {
    movie(
        alloc,
        &ENDLESS_FRAMES,
        &power_on(),
        2,
        2,
        &[after_frame(0xE3, 0x1D)],
    )
}

/// Three frames, of which the first checkpoint claims another byte in memory.
pub(crate) fn first_of_two_false(alloc: Global) -> Result<Vec<u8>, Fail> {
    let mut wrong = after_frame(0xF3, 0x0D);
    wrong[7] = 7;
    movie(
        alloc,
        &ENDLESS_FRAMES,
        &power_on(),
        3,
        1,
        &[wrong, after_frame(0xE3, 0x1D)],
    )
}

/// Six frames with checkpoints after the first five, of which the fourth claims another byte in
/// memory. Nothing looks at the fifth.
pub(crate) fn fourth_of_five_false(alloc: Global) -> Result<Movie, Fail> {
    let mut wrong = after_frame(0xC3, 0x3D);
    wrong[7] = 7;
    let checkpoints = [
        after_frame(0xF3, 0x0D),
        after_frame(0xE3, 0x1D),
        after_frame(0xD3, 0x2D),
        wrong,
        after_frame(0xC3, 0x3D),
    ];
    endless(alloc, 6, &checkpoints)
}

/// The cartridge of a program.
pub(crate) fn cartridge(alloc: Global, program: &[u8]) -> Result<Cart, Fail> {
    let mut bytes = Vec::new(alloc);
    bytes.extend_from_slice(&rom(program))?;
    Ok(Cart::new(bytes).ok().ok_or("a cartridge")?)
}

/// The run of a program from power-on, with idle inputs and a checkpoint after each frame.
pub(crate) fn run_of(alloc: Global, program: &[u8], frames: usize) -> Result<Movie, Fail> {
    let idle = Input::new(0xFF, 0x3F, 0).ok_or("an input")?;
    let cart = cartridge(alloc, program)?;
    let inputs = vec![in alloc; idle; frames]?;
    Ok(make_movie(
        alloc,
        movie_machine::Cart::Guide(cart),
        inputs,
        1,
        &NoProgress,
    )?)
}

/// The movie of these bytes.
pub(crate) fn read(alloc: Global, bytes: &[u8]) -> Result<Movie, Fail> {
    Ok(read_movie(alloc, bytes)?)
}

/// Endless frames from power-on, with checkpoints after frames 1, 2, ...
pub(crate) fn endless(alloc: Global, frames: u8, checkpoints: &[[u8; 187]]) -> Result<Movie, Fail> {
    let bytes = movie(alloc, &ENDLESS_FRAMES, &power_on(), frames, 1, checkpoints)?;
    read(alloc, &bytes)
}

/// Two genuine frames with a true checkpoint after the first.
pub(crate) fn two(alloc: Global) -> Result<Movie, Fail> {
    read(alloc, &two_frames(alloc)?)
}

/// Three frames, whose checkpoint after the first claims that the processor goes on at F010, where
/// no opcode stands.
pub(crate) fn going_on_at_no_opcode(alloc: Global) -> Result<Movie, Fail> {
    let mut wrong = after_frame(0xF3, 0x0D);
    wrong[6] = 0x10;
    endless(alloc, 3, &[wrong])
}
