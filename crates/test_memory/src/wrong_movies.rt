//! Movies with a false claim or a fault, byte by byte, and their verdicts.

use crate::call_failure::CallFailure;
use crate::movies::{ENDLESS_FRAMES, put, put_start};
use movie_file::{Movie, read_movie};
use replay_segments::Verdict;
use std::alloc::Global;
use vcs_machine::FaultKind;

/// INX, CPX #07, BEQ F010, LDA #02, STA VSYNC, LDA #00, STA VSYNC, JMP F000: byte 02 stands at
/// F010.
const SEVEN_FRAMES: [u8; 16] = [
    0xE8, 0xE0, 7, 0xF0, 0x0B, 0xA9, 2, 0x85, 0, 0xA9, 0, 0x85, 0, 0x4C, 0, 0xF0,
];

/// A movie that is not genuine.
#[derive(Clone, Copy)]
pub(crate) enum WrongMovie {
    /// Three frames of which the first of two checkpoints claims 07 at address 80, where each frame
    /// stores 02.
    FalseMemory,
    /// Three frames of which the checkpoint after the first claims that the processor goes on at
    /// F010, where no opcode stands.
    FalseCounter,
    /// Seven frames of which the last faults, with a checkpoint after it.
    Fault,
}

/// The state that the endless frames claim after 13 or 29 cycles, whose timer shows F3 or E3.
fn claim(timer: u8, line_cycle: u8) -> [u8; 187] {
    let mut record = [0; 187];
    put(&mut record, 3, &[0xFF, 0x06, 0xF0, 0x0A, 2]);
    put(&mut record, 139, &[timer, 0, 1, 3, 1, 1]);
    put(&mut record, 185, &[line_cycle]);
    record
}

/// The movie with another byte in memory.
fn false_memory() -> [u8; 2640] {
    let mut bytes = [0; 2640];
    put_start(&mut bytes, &ENDLESS_FRAMES, 3, 2);
    // Each checkpoint has its frame, and its state from the fifth byte on.
    put(&mut bytes, 2261, &[1]);
    put(&mut bytes, 2262, &claim(0xF3, 0x0D));
    put(&mut bytes, 2269, &[7]);
    put(&mut bytes, 2452, &[2]);
    put(&mut bytes, 2453, &claim(0xE3, 0x1D));
    bytes
}

/// The movie with another program counter.
fn false_counter() -> [u8; 2449] {
    let mut bytes = [0; 2449];
    put_start(&mut bytes, &ENDLESS_FRAMES, 3, 1);
    put(&mut bytes, 14 + 0x10, &[2]);
    put(&mut bytes, 2261, &[1]);
    put(&mut bytes, 2262, &claim(0xF3, 0x0D));
    put(&mut bytes, 2268, &[0x10]);
    bytes
}

/// The movie with a fault. Nothing looks at what its checkpoint claims.
fn faulty() -> [u8; 2461] {
    let mut bytes = [0; 2461];
    put_start(&mut bytes, &SEVEN_FRAMES, 7, 1);
    put(&mut bytes, 14 + 0x10, &[2]);
    put(&mut bytes, 2273, &[7]);
    put(&mut bytes, 2274, &claim(0xF3, 0x0D));
    bytes
}

impl WrongMovie {
    /// The movie.
    pub(crate) fn movie(self, alloc: Global) -> Result<Movie, CallFailure> {
        Ok(match self {
            WrongMovie::FalseMemory => read_movie(alloc, &false_memory())?,
            WrongMovie::FalseCounter => read_movie(alloc, &false_counter())?,
            WrongMovie::Fault => read_movie(alloc, &faulty())?,
        })
    }

    /// Whether a verdict is the movie's.
    pub(crate) fn has(self, verdict: &Verdict) -> bool {
        verdict.equals(&match self {
            WrongMovie::FalseMemory | WrongMovie::FalseCounter => Verdict::FalseCheckpoint {
                number: 1,
                frame: 1,
            },
            WrongMovie::Fault => Verdict::Fault {
                frame: 7,
                kind: FaultKind::BadOpcode {
                    opcode: 2,
                    at: 0xF010,
                },
            },
        })
    }
}
