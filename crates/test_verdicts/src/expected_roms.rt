//! Reports that compare a movie's cartridge with a ROM, over readers that fail.

use crate::answer::{Answer, answer_with, expect_nothing, line_of};
use crate::devices::{FailingReader, Zeros};
use crate::expectation::expect_equal;
use crate::movies::{ENDLESS_FRAMES, rom, two_frames};
use commands::{RunError, Status};
use std::io::Read;
use std::sync::Wait;
use std::test::Fail;
use std::thread::Threads;

/// The report of a movie whose cartridge is to have the bytes of a ROM.
fn compare<T: Threads + Wait + Sync + AllocGlobal, R: Read, S: Read>(
    rt: &T,
    movie: &mut R,
    rom: &mut S,
) -> Result<Answer, Fail> {
    let report = line_of(rt.alloc(), "vcs_check report m --rom r")?;
    Ok(answer_with(rt, &report, movie, rom))
}

#[test]
fn rom_that_cannot_be_read_is_a_failed_read(rt: HostRuntime) -> Result<(), Fail> {
    let movie = two_frames(rt.alloc())?;
    let bytes = rom(&ENDLESS_FRAMES);
    for left in [0u64, 1, 5] {
        let mut reader = FailingReader {
            bytes: &bytes,
            left,
        };
        let answer = compare(&rt, &mut movie.as_slice(), &mut reader)?;
        expect_nothing(&rt, &answer, RunError::ReadFault);
    }
    Ok(())
}

#[test]
fn endless_rom_is_too_long(rt: HostRuntime) -> Result<(), Fail> {
    let movie = two_frames(rt.alloc())?;
    let mut zeros = Zeros::new(u64::MAX);
    let answer = compare(&rt, &mut movie.as_slice(), &mut zeros)?;
    expect_nothing(&rt, &answer, RunError::TooLong);
    expect_equal(&rt, zeros.reads, 4097);
    Ok(())
}

#[test]
fn rom_is_not_read_for_a_refused_movie(rt: HostRuntime) -> Result<(), Fail> {
    let mut reader = FailingReader {
        bytes: &[],
        left: 0,
    };
    let answer = compare(&rt, &mut b"A26N".as_slice(), &mut reader)?;
    expect_equal(&rt, answer.status, Ok(Status::Refused));
    assert!(rt; answer.text.as_slice() == b"refused: BadMagic\n".as_slice());
    Ok(())
}
