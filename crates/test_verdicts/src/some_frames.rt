//! What is written of some frames, and of a movie that can't be read.

use crate::answer::{answer_into, answer_to, expect_beginning, expect_nothing, line_of};
use crate::devices::FailingReader;
use crate::expectation::expect_equal;
use crate::movies::{two_frames, two_frames_with_a_last_checkpoint};
use crate::pixmaps::two_black_pictures;
use command_line::CommandLine;
use commands::RunError;
use std::alloc::Global;
use std::test::Fail;

/// The length of a picture of one row.
const PICTURE: usize = 13 + 480;

/// The command that writes the pictures of two frames.
fn pictures(alloc: Global) -> Result<CommandLine, Fail> {
    line_of(alloc, "vcs_check pictures m --count 2 --out o")
}

/// The command that makes a movie of two frames with a checkpoint after the second.
fn cut(alloc: Global) -> Result<CommandLine, Fail> {
    line_of(alloc, "vcs_check cut m --count 2 --every 2 --out o")
}

#[test]
fn line_of_a_cut_comes_after_the_movie(rt: HostRuntime) -> Result<(), Fail> {
    let bytes = two_frames(rt.alloc())?;
    let wanted = two_frames_with_a_last_checkpoint(rt.alloc())?;
    let cut = cut(rt.alloc())?;
    for left in [0, 2445] {
        let answer = answer_into(&rt, &cut, &mut bytes.as_slice(), usize::MAX, left);
        expect_beginning(&rt, answer.status, &answer.file, &wanted, left);
        assert!(rt; answer.text.is_empty());
    }
    Ok(())
}

#[test]
fn line_of_pictures_comes_after_them(rt: HostRuntime) -> Result<(), Fail> {
    let bytes = two_frames(rt.alloc())?;
    let wanted = two_black_pictures(rt.alloc())?;
    let pictures = pictures(rt.alloc())?;
    for left in [0, PICTURE, PICTURE + 13, 2 * PICTURE - 1] {
        let answer = answer_into(&rt, &pictures, &mut bytes.as_slice(), usize::MAX, left);
        expect_beginning(&rt, answer.status, &answer.file, &wanted, left);
        assert!(rt; answer.text.is_empty());
    }
    Ok(())
}

#[test]
fn line_that_fails_leaves_the_pictures(rt: HostRuntime) -> Result<(), Fail> {
    let bytes = two_frames(rt.alloc())?;
    let pictures = pictures(rt.alloc())?;
    let answer = answer_into(&rt, &pictures, &mut bytes.as_slice(), 9, usize::MAX);
    expect_beginning(&rt, answer.status, &answer.text, b"pictures: 2 frames\n", 9);
    expect_equal(&rt, answer.file.len(), 2 * PICTURE);
    Ok(())
}

#[test]
fn failed_read_writes_nothing(rt: HostRuntime) -> Result<(), Fail> {
    let bytes = two_frames(rt.alloc())?;
    let alloc = rt.alloc();
    for line in [
        line_of(alloc, "vcs_check frames m --count 2")?,
        pictures(alloc)?,
        cut(alloc)?,
        line_of(alloc, "vcs_check trace m --frame 1")?,
    ] {
        for left in [0, 3] {
            let mut reader = FailingReader {
                bytes: &bytes,
                left,
            };
            let answer = answer_to(&rt, &line, &mut reader);
            expect_nothing(&rt, &answer, RunError::ReadFault);
        }
    }
    Ok(())
}
