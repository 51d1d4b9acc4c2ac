//! Judging, over devices that fail. Verdicts are compared by `ci/cases`.

use crate::answer::{answer_into, answer_to, expect_beginning, expect_nothing, line_of};
use crate::devices::{FailingReader, Zeros};
use crate::expectation::expect_equal;
use crate::movies::two_frames;
use crate::pixmaps::two_black_pictures;
use command_line::CommandLine;
use commands::{RunError, Status};
use std::alloc::Global;
use std::test::Fail;

/// Two workers, all pictures, and a cut at each checkpoint.
fn verify(alloc: Global) -> Result<CommandLine, Fail> {
    line_of(alloc, "vcs_check verify m --workers 2 --pictures p")
}

/// The line about two genuine frames.
const GENUINE: &[u8] = b"genuine: 2 frames, 1 checkpoints\n";

#[test]
fn longest_input_is_read(rt: HostRuntime) -> Result<(), Fail> {
    let mut zeros = Zeros::new(16_777_216);
    let answer = answer_to(&rt, &verify(rt.alloc())?, &mut zeros);
    expect_equal(&rt, zeros.reads, 4097);
    expect_equal(&rt, answer.status, Ok(Status::Refused));
    assert!(rt; answer.status != Ok(Status::Done));
    assert!(rt; answer.text.as_slice() == b"refused: BadMagic\n".as_slice());
    Ok(())
}

#[test]
fn endless_input_is_too_long(rt: HostRuntime) -> Result<(), Fail> {
    let mut zeros = Zeros::new(u64::MAX);
    let answer = answer_to(&rt, &verify(rt.alloc())?, &mut zeros);
    expect_nothing(&rt, &answer, RunError::TooLong);
    assert!(rt; answer.status != Err(RunError::NoMemory));
    expect_equal(&rt, zeros.reads, 4097);
    Ok(())
}

#[test]
fn failed_read_writes_nothing(rt: HostRuntime) -> Result<(), Fail> {
    let bytes = two_frames(rt.alloc())?;
    let verify = verify(rt.alloc())?;
    for left in 0..7u64 {
        let mut reader = FailingReader {
            bytes: &bytes,
            left,
        };
        let answer = answer_to(&rt, &verify, &mut reader);
        if left == 6 {
            expect_equal(&rt, answer.status, Ok(Status::Done));
        } else {
            expect_nothing(&rt, &answer, RunError::ReadFault);
        }
    }
    Ok(())
}

#[test]
fn failed_write_leaves_a_prefix_of_the_line(rt: HostRuntime) -> Result<(), Fail> {
    let bytes = two_frames(rt.alloc())?;
    let verify = verify(rt.alloc())?;
    for left in 0..33usize {
        let answer = answer_into(&rt, &verify, &mut bytes.as_slice(), left, usize::MAX);
        expect_beginning(&rt, answer.status, &answer.text, GENUINE, left);
        assert!(rt; answer.file.is_empty());
    }
    Ok(())
}

#[test]
fn failed_write_leaves_the_line_and_a_prefix_of_the_pictures(rt: HostRuntime) -> Result<(), Fail> {
    let bytes = two_frames(rt.alloc())?;
    let wanted = two_black_pictures(rt.alloc())?;
    let verify = verify(rt.alloc())?;
    for left in 0..986usize {
        let answer = answer_into(&rt, &verify, &mut bytes.as_slice(), usize::MAX, left);
        expect_beginning(&rt, answer.status, &answer.file, &wanted, left);
        assert!(rt; answer.text.as_slice() == GENUINE);
    }
    Ok(())
}
