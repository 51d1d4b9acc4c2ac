//! How the progress of each command is told. Each count is worked out from the movie: its segments,
//! its frames, those of them that are done, and the works that begin and end.

use crate::answer::line_of;
use crate::devices::FailingWriter;
use crate::expectation::expect_equal;
use crate::gates::Counting;
use crate::movies::{
    ENDLESS_FRAMES, SEVEN_FRAMES, first_of_two_false, movie, power_on, rom, run_of, two,
};
use commands::{Request, run_command};
use movie_file::write_movie;
use replay_plan::{Keep, Workers};
use replay_segments::{Cuts, replay};
use std::alloc::Global;
use std::num::NonZeroU16;
use std::sync::Wait;
use std::test::Fail;
use std::thread::Threads;
use verify_pool::verify;

/// What a gate counts while the command of these words is done, whose text's writer takes so many
/// bytes.
fn told_over<T: Threads + Wait + Sync + AllocGlobal>(
    rt: &T,
    words: &str,
    input: &[u8],
    inputs: &[u8],
    text: usize,
) -> Result<[u64; 6], Fail> {
    let line = line_of(rt.alloc(), words)?;
    let mut input = input;
    let mut inputs = inputs;
    let mut text = FailingWriter::new(rt.alloc(), text);
    let mut file = FailingWriter::new(rt.alloc(), usize::MAX);
    let gate = Counting::new();
    let request = Request {
        rt,
        line: &line,
        gate: &gate,
    };
    let _end = run_command(&request, &mut input, &mut inputs, &mut text, &mut file);
    Ok(gate.counts())
}

/// What it counts while a command about a movie is done, whose writers take all.
fn told<T: Threads + Wait + Sync + AllocGlobal>(
    rt: &T,
    words: &str,
    input: &[u8],
) -> Result<[u64; 6], Fail> {
    told_over(rt, words, input, &[], usize::MAX)
}

/// A run of five frames with a checkpoint after each.
fn five_frames(alloc: Global) -> Result<Vec<u8>, Fail> {
    let mut bytes = Vec::new(alloc);
    write_movie(&run_of(alloc, &ENDLESS_FRAMES, 5)?, &mut bytes)?;
    Ok(bytes)
}

/// Seven frames, of which the last one faults.
fn seven_frames(alloc: Global) -> Result<Vec<u8>, Fail> {
    movie(alloc, &SEVEN_FRAMES, &power_on(), 7, 1, &[])
}

/// Of five frames without checkpoints, of five with some at which no cut is, and up to the first of
/// three, whose checkpoint is false.
#[test]
fn frames_of_one_segment_are_told(rt: HostRuntime) -> Result<(), Fail> {
    let alloc = rt.alloc();
    let uncut = "vcs_check verify m --workers 2 --every 6";
    let without = movie(alloc, &ENDLESS_FRAMES, &power_on(), 5, 1, &[])?;
    expect_equal(&rt, told(&rt, uncut, &without)?, [0, 5, 0, 5, 1, 1]);
    let five = five_frames(alloc)?;
    expect_equal(&rt, told(&rt, uncut, &five)?, [0, 5, 0, 5, 1, 1]);
    let wrong = first_of_two_false(alloc)?;
    expect_equal(&rt, told(&rt, uncut, &wrong)?, [0, 3, 0, 1, 1, 1]);
    Ok(())
}

/// Each of two segments has one frame, which is told in a work of the caller.
#[test]
fn frames_of_each_segment_are_told(rt: HostRuntime) -> Result<(), Fail> {
    let movie = two(rt.alloc())?;
    let cuts = Cuts::every(rt.alloc(), &movie, NonZeroU16::MIN)?;
    let gate = Counting::new();
    if cuts.fits(&movie) {
        for number in 0..cuts.segments() {
            let piece = replay(rt.alloc(), &movie, &cuts, Keep::NONE, number, &gate);
            assert!(rt; piece.passed());
        }
    }
    expect_equal(&rt, gate.counts(), [0, 0, 0, 2, 0, 0]);
    Ok(())
}

#[test]
fn each_segment_is_told(rt: HostRuntime) -> Result<(), Fail> {
    let five = five_frames(rt.alloc())?;
    let told = told(&rt, "vcs_check verify m --workers 2", &five)?;
    expect_equal(&rt, told, [6, 0, 0, 6, 1, 1]);
    Ok(())
}

/// A run of five frames with a checkpoint after each, of which every second is a cut, the last one, or
/// none.
#[test]
fn movie_is_cut_at_every_so_many_checkpoints(rt: HostRuntime) -> Result<(), Fail> {
    let five = five_frames(rt.alloc())?;
    for (words, wanted) in [
        (
            "vcs_check verify m --workers 2 --every 2",
            [3, 0, 0, 3, 1, 1],
        ),
        (
            "vcs_check verify m --workers 2 --every 5",
            [0, 5, 0, 5, 1, 1],
        ),
        (
            "vcs_check verify m --workers 2 --every 6",
            [0, 5, 0, 5, 1, 1],
        ),
    ] {
        expect_equal(&rt, told(&rt, words, &five)?, wanted);
    }
    Ok(())
}

/// Frames 3 and 4 of five.
#[test]
fn frames_are_told_up_to_the_last_one(rt: HostRuntime) -> Result<(), Fail> {
    let bytes = five_frames(rt.alloc())?;
    for (words, wanted) in [
        ("vcs_check frames m --first 3 --count 2", [0, 2, 2, 4, 2, 2]),
        (
            "vcs_check pictures m --first 3 --count 2 --out o",
            [0, 4, 0, 4, 2, 2],
        ),
        (
            "vcs_check cut m --first 3 --count 2 --every 1 --out o",
            [0, 4, 0, 4, 1, 1],
        ),
        ("vcs_check trace m --frame 3", [0, 2, 0, 2, 1, 1]),
        ("vcs_check trace m --frame 1", [0, 0, 0, 0, 0, 0]),
        ("vcs_check report m", [6, 0, 0, 6, 1, 1]),
    ] {
        expect_equal(&rt, told(&rt, words, &bytes)?, wanted);
    }
    Ok(())
}

#[test]
fn frames_of_a_movie_that_is_made_are_told(rt: HostRuntime) -> Result<(), Fail> {
    let inputs = [0xFF, 0x3F, 0, 0xFF, 0x3F, 0];
    let words = "vcs_check make r i --every 1 --out o";
    let told = told_over(&rt, words, &rom(&ENDLESS_FRAMES), &inputs, usize::MAX)?;
    expect_equal(&rt, told, [0, 2, 0, 2, 1, 1]);
    Ok(())
}

/// A fault in frame 7, in a verdict, among the frames that are asked for and before them.
#[test]
fn works_end_at_a_fault(rt: HostRuntime) -> Result<(), Fail> {
    let bytes = seven_frames(rt.alloc())?;
    for (words, wanted) in [
        ("vcs_check frames m --count 7", [0, 0, 7, 6, 1, 1]),
        (
            "vcs_check cut m --first 7 --count 1 --every 7 --out o",
            [0, 7, 0, 6, 1, 1],
        ),
        ("vcs_check verify m --workers 2", [0, 7, 0, 6, 1, 1]),
        ("vcs_check report m", [0, 13, 0, 12, 2, 2]),
    ] {
        expect_equal(&rt, told(&rt, words, &bytes)?, wanted);
    }
    Ok(())
}

/// The first of five lines is taken, and not the second.
#[test]
fn works_end_at_a_failed_write(rt: HostRuntime) -> Result<(), Fail> {
    let bytes = five_frames(rt.alloc())?;
    let words = "vcs_check frames m --count 5";
    let told = told_over(&rt, words, &bytes, &[], 50)?;
    expect_equal(&rt, told, [0, 0, 5, 1, 1, 1]);
    Ok(())
}

/// Of three segments the first is replayed for the verdict, its frame for the state that was found,
/// all three frames for the claimed state, the other segments for their signs, the second frame for
/// the sentence, and the first for a run without its input or with it twice.
#[test]
fn signs_are_a_work_of_their_own(rt: HostRuntime) -> Result<(), Fail> {
    let bytes = first_of_two_false(rt.alloc())?;
    let told = told(&rt, "vcs_check report m", &bytes)?;
    expect_equal(&rt, told, [5, 6, 0, 9, 6, 6]);
    Ok(())
}
