//! Making movies and telling what they hold, over devices that fail. What else is written is
//! compared by `ci/cases`.

use crate::answer::{Answer, answer_into, answer_over, expect_beginning, expect_nothing, line_of};
use crate::devices::{FailingReader, Zeros};
use crate::expectation::expect_equal;
use crate::movies::{ENDLESS_FRAMES, rom, two_frames_with_a_last_checkpoint};
use commands::{RunError, Status};
use std::io::Read;
use std::sync::Wait;
use std::test::Fail;
use std::thread::Threads;

/// Two idle inputs.
const TWO_INPUTS: [u8; 6] = [0xFF, 0x3F, 0, 0xFF, 0x3F, 0];

/// The answer to a making of inputs as bytes, whose line's writer and whose movie's writer take so
/// many bytes each.
fn make<T: Threads + Wait + Sync + AllocGlobal, R: Read, S: Read>(
    rt: &T,
    rom: &mut R,
    inputs: &mut S,
    text: usize,
    file: usize,
) -> Result<Answer, Fail> {
    let line = line_of(rt.alloc(), "vcs_check make r i --every 2 --out o")?;
    Ok(answer_over(rt, &line, rom, inputs, text, file))
}

#[test]
fn inputs_of_a_bad_rom_are_not_read(rt: HostRuntime) -> Result<(), Fail> {
    let mut inputs = FailingReader {
        bytes: &TWO_INPUTS,
        left: 0,
    };
    let mut rom = [0; 2047].as_slice();
    let answer = make(&rt, &mut rom, &mut inputs, usize::MAX, 0)?;
    expect_equal(&rt, answer.status, Ok(Status::Refused));
    assert!(rt; answer.text.as_slice() == b"refused: BadCartSize\n".as_slice());
    Ok(())
}

#[test]
fn making_with_a_failed_read_writes_nothing(rt: HostRuntime) -> Result<(), Fail> {
    let endless = rom(&ENDLESS_FRAMES);
    for (rom_reads, input_reads) in [(0u64, 9u64), (5, 9), (9, 0), (9, 1)] {
        let mut rom = FailingReader {
            bytes: &endless,
            left: rom_reads,
        };
        let mut inputs = FailingReader {
            bytes: &TWO_INPUTS,
            left: input_reads,
        };
        let answer = make(&rt, &mut rom, &mut inputs, usize::MAX, usize::MAX)?;
        expect_nothing(&rt, &answer, RunError::ReadFault);
    }
    Ok(())
}

#[test]
fn making_of_endless_inputs_is_too_long(rt: HostRuntime) -> Result<(), Fail> {
    let mut inputs = Zeros::new(u64::MAX);
    let endless = rom(&ENDLESS_FRAMES);
    let mut rom = endless.as_slice();
    let answer = make(&rt, &mut rom, &mut inputs, usize::MAX, usize::MAX)?;
    expect_nothing(&rt, &answer, RunError::TooLong);
    expect_equal(&rt, inputs.reads, 4097);
    Ok(())
}

/// The answer to a making of two frames.
fn make_two_frames<T: Threads + Wait + Sync + AllocGlobal>(
    rt: &T,
    text: usize,
    file: usize,
) -> Result<Answer, Fail> {
    let endless = rom(&ENDLESS_FRAMES);
    let mut rom = endless.as_slice();
    make(rt, &mut rom, &mut TWO_INPUTS.as_slice(), text, file)
}

#[test]
fn failed_write_leaves_a_prefix_of_the_movie(rt: HostRuntime) -> Result<(), Fail> {
    let wanted = two_frames_with_a_last_checkpoint(rt.alloc())?;
    for left in [0, 1, 2445] {
        let answer = make_two_frames(&rt, usize::MAX, left)?;
        expect_beginning(&rt, answer.status, &answer.file, &wanted, left);
        assert!(rt; answer.text.is_empty());
    }
    Ok(())
}

#[test]
fn failed_write_leaves_the_movie_and_a_prefix_of_its_line(rt: HostRuntime) -> Result<(), Fail> {
    let wanted = two_frames_with_a_last_checkpoint(rt.alloc())?;
    let wanted_line = b"made: 2 frames, 1 checkpoints\n".as_slice();
    for left in [0, 29] {
        let answer = make_two_frames(&rt, left, usize::MAX)?;
        expect_beginning(&rt, answer.status, &answer.text, wanted_line, left);
        assert!(rt; answer.file == wanted);
    }
    Ok(())
}

#[test]
fn failed_write_leaves_a_prefix_of_the_information(rt: HostRuntime) -> Result<(), Fail> {
    let movie = two_frames_with_a_last_checkpoint(rt.alloc())?;
    let info = line_of(rt.alloc(), "vcs_check info m")?;
    let answer = answer_into(&rt, &info, &mut movie.as_slice(), 29, 0);
    let wanted = b"movie: version 1, cartridge 2048, 2 frames, 1 checkpoints\n";
    expect_beginning(&rt, answer.status, &answer.text, wanted, 29);
    Ok(())
}
