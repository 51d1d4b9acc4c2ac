//! Verdicts by workers, in threads.

use crate::expectation::expect_equal;
use crate::gates::{Counts, Meeting, SecondFirst};
use crate::movies::{
    COLOURED_FRAMES, ENDLESS_FRAMES, endless, first_of_two_false, fourth_of_five_false,
    going_on_at_no_opcode, read, run_of, two_frames_with_a_last_checkpoint,
};
use crate::verdicts::{FIRST_FALSE, colours, picture_count};
use movie_file::{Movie, Progress};
use replay_plan::{Keep, Workers};
use replay_segments::{Cuts, Verdict};
use std::alloc::Global;
use std::num::NonZeroU16;
use std::sync::Wait;
use std::sync::atomic::Ordering;
use std::test::Fail;
use std::thread::Threads;
use verify_pool::{Gate, verify};

/// The verdict of workers, with cuts at these checkpoints.
fn answer<G: Gate + Progress + Sync, R: Threads + Wait + Sync>(
    rt: &R,
    alloc: Global,
    movie: &Movie,
    numbers: &[u16],
    workers: u8,
    keep: Keep,
    gate: &G,
) -> Result<Verdict, Fail> {
    let mut list = Vec::new(alloc);
    list.extend_from_slice(numbers)?;
    let cuts = Cuts::new(movie, list)?;
    let workers = Workers::new(workers).ok_or("workers")?;
    Ok(verify(rt, alloc, movie, &cuts, workers, keep, gate)?)
}

#[test]
fn one_segment_has_one_worker(rt: HostRuntime) -> Result<(), Fail> {
    let one = endless(rt.alloc(), 1, &[])?;
    let counts = Counts::new();
    let verdict = answer(&rt, rt.alloc(), &one, &[], 8, Keep::new(1, 0)?, &counts)?;
    expect_equal(&rt, picture_count(&verdict), Some(0));
    expect_equal(&rt, counts.entries(), [1, 0, 0, 0]);
    expect_equal(&rt, counts.leaves(), [1, 0, 0, 0]);
    Ok(())
}

#[test]
fn no_workers_and_65_are_refused(rt: HostRuntime) {
    expect_equal(&rt, Workers::new(0), None);
    expect_equal(&rt, Workers::new(65), None);
    expect_equal(&rt, Workers::new(64).map(|workers| workers.get()), Some(64));
}

/// The verdict of workers who keep all pictures, with a cut at each checkpoint.
fn answer_of_all<G: Gate + Progress + Sync, R: Threads + Wait + Sync>(
    rt: &R,
    alloc: Global,
    movie: &Movie,
    workers: u8,
    gate: &G,
) -> Result<Verdict, Fail> {
    let cuts = Cuts::every(alloc, movie, NonZeroU16::MIN)?;
    let workers = Workers::new(workers).ok_or("workers")?;
    let keep = Keep::new(1, 600)?;
    Ok(verify(rt, alloc, movie, &cuts, workers, keep, gate)?)
}

#[test]
fn two_workers_give_the_pictures_in_order(rt: HostRuntime) -> Result<(), Fail> {
    let coloured = run_of(rt.alloc(), &COLOURED_FRAMES, 4)?;
    let gate = SecondFirst::new();
    let verdict = answer_of_all(&rt, rt.alloc(), &coloured, 2, &gate)?;
    assert!(rt; colours(rt.alloc(), &verdict)?.as_slice() == [2, 4, 6, 8].as_slice());
    expect_equal(&rt, gate.missed.load(Ordering::SeqCst), 0);
    Ok(())
}

#[test]
fn segment_that_comes_first_is_no_verdict(rt: HostRuntime) -> Result<(), Fail> {
    let claims = going_on_at_no_opcode(rt.alloc())?;
    let gate = SecondFirst::new();
    let verdict = answer(&rt, rt.alloc(), &claims, &[1], 2, Keep::new(1, 0)?, &gate)?;
    assert!(rt; verdict.equals(&FIRST_FALSE));
    expect_equal(&rt, gate.missed.load(Ordering::SeqCst), 0);
    Ok(())
}

/// Whether as many workers as segments all replay at once. There are one more than frames.
fn meet<R: Threads + Wait + Sync>(rt: &R, alloc: Global, frames: u8) -> Result<bool, Fail> {
    let movie = run_of(alloc, &ENDLESS_FRAMES, usize::from(frames))?;
    let workers = frames.saturating_add(1);
    let gate = Meeting::of(u64::from(workers));
    let verdict = answer_of_all(rt, alloc, &movie, workers, &gate)?;
    let met = gate.missed.load(Ordering::SeqCst) == 0;
    Ok(met && picture_count(&verdict) == Some(usize::from(frames)))
}

#[test]
fn all_workers_replay_at_once(rt: HostRuntime) -> Result<(), Fail> {
    for frames in [1, 2, 63] {
        assert!(rt; meet(&rt, rt.alloc(), frames)?);
    }
    Ok(())
}

#[test]
fn two_workers_replay_the_most_segments(rt: HostRuntime) -> Result<(), Fail> {
    let movie = run_of(rt.alloc(), &ENDLESS_FRAMES, 4095)?;
    let gate = Meeting::of(2);
    let verdict = answer_of_all(&rt, rt.alloc(), &movie, 2, &gate)?;
    expect_equal(&rt, gate.missed.load(Ordering::SeqCst), 0);
    expect_equal(&rt, picture_count(&verdict), Some(600));
    Ok(())
}

#[test]
fn segment_after_the_last_checkpoint_passes(rt: HostRuntime) -> Result<(), Fail> {
    let genuine = read(rt.alloc(), &two_frames_with_a_last_checkpoint(rt.alloc())?)?;
    for (first, count, wanted) in [(2, 600, 1), (3, 5, 0)] {
        let keep = Keep::new(first, count)?;
        let counts = Counts::new();
        let verdict = answer(&rt, rt.alloc(), &genuine, &[1], 2, keep, &counts)?;
        expect_equal(&rt, picture_count(&verdict), Some(wanted));
        expect_equal(&rt, counts.entries(), [1, 1, 0, 0]);
    }
    Ok(())
}

#[test]
fn segments_after_a_false_one_are_passed_over(rt: HostRuntime) -> Result<(), Fail> {
    let false_movie = read(rt.alloc(), &first_of_two_false(rt.alloc())?)?;
    let counts = Counts::new();
    let keep = Keep::new(1, 0)?;
    let verdict = answer(&rt, rt.alloc(), &false_movie, &[1, 2], 1, keep, &counts)?;
    assert!(rt; verdict.equals(&FIRST_FALSE));
    expect_equal(&rt, counts.entries(), [1, 0, 0, 0]);
    expect_equal(&rt, counts.leaves(), [1, 0, 0, 0]);
    Ok(())
}

#[test]
fn late_segments_are_passed_over_too(rt: HostRuntime) -> Result<(), Fail> {
    let false_movie = fourth_of_five_false(rt.alloc())?;
    let counts = Counts::new();
    let verdict = answer_of_all(&rt, rt.alloc(), &false_movie, 1, &counts)?;
    let fourth_false = Verdict::FalseCheckpoint {
        number: 4,
        frame: 4,
    };
    assert!(rt; verdict.equals(&fourth_false));
    expect_equal(&rt, counts.entries(), [1, 1, 1, 1]);
    expect_equal(&rt, counts.leaves(), [1, 1, 1, 1]);
    Ok(())
}
