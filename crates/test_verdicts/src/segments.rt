//! Movies cut into segments, whose pieces are gathered.

use crate::expectation::expect_equal;
use crate::movies::{
    endless, fourth_of_five_false, going_on_at_no_opcode, read, two,
    two_frames_with_a_last_checkpoint,
};
use crate::verdicts::{FIRST_FALSE, picture_count, verdict_of};
use movie_file::{Movie, NoProgress};
use refused::Refused;
use replay_plan::Keep;
use replay_segments::{BadCuts, Cuts, Missing, Piece, Verdict, gather, replay};
use std::alloc::Global;
use std::num::NonZeroU16;
use std::test::Fail;

/// The cuts at these checkpoints.
fn cuts_at(alloc: Global, movie: &Movie, numbers: &[u16]) -> Result<Result<Cuts, BadCuts>, Fail> {
    let mut list = Vec::new(alloc);
    list.extend_from_slice(numbers)?;
    Ok(Cuts::new(movie, list))
}

/// A value that may go to another thread.
fn sent<T: Send>(value: T) -> T {
    value
}

/// The pieces of segments 0 and 1 of a movie that is cut at checkpoint 1, replayed in the order in
/// which they are named. All pictures are kept.
fn pieces_of(alloc: Global, movie: &Movie, numbers: &[u32]) -> Result<Vec<Piece>, Fail> {
    let keep = Keep::new(1, 600)?;
    let cuts = cuts_at(alloc, movie, &[1])??;
    let mut pieces = Vec::new(alloc);
    if cuts.fits(movie) && cuts.segments() == 2 {
        for number in numbers {
            let piece = replay(alloc, movie, &cuts, keep, *number % 2, &NoProgress);
            pieces.push(sent(piece))?;
        }
    }
    Ok(pieces)
}

/// The verdict of one replay that keeps all pictures.
fn whole(alloc: Global, movie: &Movie) -> Result<Verdict, Fail> {
    verdict_of(alloc, movie, Keep::new(1, 600)?)
}

/// What the pieces of these segments give.
fn gather_pieces(
    alloc: Global,
    movie: &Movie,
    numbers: &[u32],
) -> Result<Result<Verdict, Refused<Missing>>, Fail> {
    let pieces = pieces_of(alloc, movie, numbers)?;
    Ok(gather(alloc, pieces, 2))
}

#[test]
fn pieces_pass_or_do_not(rt: HostRuntime) -> Result<(), Fail> {
    for (movie, passed) in [
        (two(rt.alloc())?, true),
        (going_on_at_no_opcode(rt.alloc())?, false),
    ] {
        let pieces = pieces_of(rt.alloc(), &movie, &[1, 1, 0, 0])?;
        expect_equal(&rt, pieces.len(), 4);
        assert!(rt; pieces.iter().all(|piece| piece.passed() == passed));
    }
    Ok(())
}

#[test]
fn pieces_in_any_order_give_the_verdict_of_one_replay(rt: HostRuntime) -> Result<(), Fail> {
    let genuine = two(rt.alloc())?;
    let whole = whole(rt.alloc(), &genuine)?;
    for order in [
        [1u32, 0].as_slice(),
        [0, 1].as_slice(),
        [1, 1, 0, 0].as_slice(),
    ] {
        let verdict = gather_pieces(rt.alloc(), &genuine, order)??;
        assert!(rt; verdict.equals(&whole));
    }
    Ok(())
}

#[test]
fn first_missing_segment_is_named(rt: HostRuntime) -> Result<(), Fail> {
    let genuine = two(rt.alloc())?;
    for (order, segment) in [
        ([1u32].as_slice(), 0),
        ([].as_slice(), 0),
        ([0].as_slice(), 1),
        ([1, 1].as_slice(), 0),
    ] {
        let verdict = gather_pieces(rt.alloc(), &genuine, order)?;
        let missing = Refused::Of(Missing { segment });
        expect_equal(&rt, verdict.err(), Some(missing));
        assert!(rt; missing != Refused::NoMemory);
    }
    Ok(())
}

#[test]
fn bad_segment_that_came_first_is_no_verdict(rt: HostRuntime) -> Result<(), Fail> {
    let claims = going_on_at_no_opcode(rt.alloc())?;
    for order in [[1u32, 0].as_slice(), [0, 1].as_slice(), [0].as_slice()] {
        let verdict = gather_pieces(rt.alloc(), &claims, order)??;
        assert!(rt; verdict.equals(&FIRST_FALSE));
    }
    let alone = gather_pieces(rt.alloc(), &claims, &[1])?;
    assert!(rt; matches!(alone, Err(Refused::Of(Missing { segment: 0 }))));
    Ok(())
}

#[test]
fn segment_after_the_last_checkpoint_has_no_frames(rt: HostRuntime) -> Result<(), Fail> {
    let genuine = read(rt.alloc(), &two_frames_with_a_last_checkpoint(rt.alloc())?)?;
    let last = pieces_of(rt.alloc(), &genuine, &[1])?;
    assert!(rt;
        last.iter()
            .all(|piece| piece.passed() && piece.number() == 1)
    );
    let verdict = gather_pieces(rt.alloc(), &genuine, &[1, 0])??;
    expect_equal(&rt, picture_count(&verdict), Some(2));
    assert!(rt; verdict.equals(&whole(rt.alloc(), &genuine)?));
    Ok(())
}

#[test]
fn cuts_are_rising_numbers_of_checkpoints(rt: HostRuntime) -> Result<(), Fail> {
    let genuine = two(rt.alloc())?;
    for (numbers, segments) in [
        ([].as_slice(), Ok(1)),
        ([1u16].as_slice(), Ok(2)),
        ([2].as_slice(), Err(BadCuts)),
        ([0].as_slice(), Err(BadCuts)),
        ([1, 1].as_slice(), Err(BadCuts)),
        ([1, 2].as_slice(), Err(BadCuts)),
    ] {
        let cuts = cuts_at(rt.alloc(), &genuine, numbers)?;
        expect_equal(&rt, cuts.map(|cuts| cuts.segments()), segments);
    }
    Ok(())
}

#[test]
fn cuts_are_at_each_so_many_checkpoints(rt: HostRuntime) -> Result<(), Fail> {
    let genuine = two(rt.alloc())?;
    for (every, segments) in [(1, 2), (2, 1)] {
        let every = NonZeroU16::new(every).ok_or("every")?;
        let cuts = Cuts::every(rt.alloc(), &genuine, every)?;
        expect_equal(&rt, cuts.segments(), segments);
    }
    Ok(())
}

/// Checkpoints 2 and 4 are cuts. The fourth is false, and so is the fifth: of the segments the first
/// alone passes, which has frames 1 and 2.
#[test]
fn cut_is_at_each_second_checkpoint(rt: HostRuntime) -> Result<(), Fail> {
    let claims = fourth_of_five_false(rt.alloc())?;
    let cuts = Cuts::every(rt.alloc(), &claims, NonZeroU16::MIN.saturating_add(1))?;
    expect_equal(&rt, cuts.segments(), 3);
    assert!(rt; cuts.fits(&claims));
    for number in 0..cuts.segments() {
        let piece = replay(rt.alloc(), &claims, &cuts, Keep::NONE, number, &NoProgress);
        expect_equal(&rt, piece.passed(), number == 0);
    }
    Ok(())
}

#[test]
fn cuts_fit_a_movie_with_their_checkpoints(rt: HostRuntime) -> Result<(), Fail> {
    let genuine = two(rt.alloc())?;
    let uncut = endless(rt.alloc(), 1, &[])?;
    for (every, fits) in [(1, false), (2, true)] {
        let every = NonZeroU16::new(every).ok_or("every")?;
        let cuts = Cuts::every(rt.alloc(), &genuine, every)?;
        assert!(rt; cuts.fits(&genuine));
        expect_equal(&rt, cuts.fits(&uncut), fits);
    }
    Ok(())
}
