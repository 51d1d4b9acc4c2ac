//! Verdicts and kept pictures.

use crate::expectation::expect_equal;
use crate::movies::two;
use movie_file::{Movie, NoProgress};
use replay_plan::{BadKeep, Keep};
use replay_segments::{Cuts, Verdict, gather, replay};
use std::alloc::Global;
use std::test::Fail;
use vcs_machine::FaultKind;

/// The verdict that checkpoint 1 is false, after frame 1.
pub(crate) const FIRST_FALSE: Verdict = Verdict::FalseCheckpoint {
    number: 1,
    frame: 1,
};

/// The verdict of one replay.
pub(crate) fn verdict_of(alloc: Global, movie: &Movie, keep: Keep) -> Result<Verdict, Fail> {
    let cuts = Cuts::new(movie, Vec::new(alloc))?;
    let mut pieces = Vec::new(alloc);
    pieces.push(replay(alloc, movie, &cuts, keep, 0, &NoProgress))?;
    Ok(gather(alloc, pieces, 1)?)
}

/// How many pictures a genuine movie has kept.
pub(crate) fn picture_count(verdict: &Verdict) -> Option<usize> {
    match verdict {
        Verdict::Genuine { pictures } => Some(pictures.len()),
        _ => None,
    }
}

/// The colours of line 0 of each kept picture, where that has one colour.
pub(crate) fn colours(alloc: Global, verdict: &Verdict) -> Result<Vec<u8>, Fail> {
    let mut colours = Vec::new(alloc);
    if let Verdict::Genuine { pictures } = verdict {
        for i in 0..pictures.len() {
            let picture = pictures.at(i);
            if picture.rows() > 0 && *picture.row(0) == [picture.at(0, 0); 160] {
                colours.push(picture.at(0, 0))?;
            }
        }
    }
    Ok(colours)
}

#[test]
fn verdicts_differ_in_their_pictures(rt: HostRuntime) -> Result<(), Fail> {
    let genuine = two(rt.alloc())?;
    let verdict = verdict_of(rt.alloc(), &genuine, Keep::new(1, 2)?)?;
    for (first, count, equals) in [(1, 2, true), (2, 1, false)] {
        let other = verdict_of(rt.alloc(), &genuine, Keep::new(first, count)?)?;
        expect_equal(&rt, verdict.equals(&other), equals);
    }
    assert!(rt; matches!(&verdict, Verdict::Genuine { pictures } if !pictures.is_empty()));
    Ok(())
}

#[test]
fn verdicts_differ_in_frames_and_kinds(rt: HostRuntime) {
    let second = Verdict::FalseCheckpoint {
        number: 1,
        frame: 2,
    };
    let kind = FaultKind::BadOpcode {
        opcode: 2,
        at: 0xF010,
    };
    let bad_opcode = Verdict::Fault { frame: 7, kind };
    let overlong = Verdict::Fault {
        frame: 7,
        kind: FaultKind::Overlong,
    };
    assert!(rt; FIRST_FALSE.equals(&FIRST_FALSE) && !FIRST_FALSE.equals(&second));
    assert!(rt; bad_opcode.equals(&bad_opcode) && !bad_opcode.equals(&overlong));
}

#[test]
fn frames_from_0_and_more_than_600_are_not_kept(rt: HostRuntime) {
    expect_equal(&rt, Keep::new(1, 601), Err(BadKeep));
    expect_equal(&rt, Keep::new(0, 1), Err(BadKeep));
}
