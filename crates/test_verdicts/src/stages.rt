//! What a terminal shows of a work that takes long: by the page of commands nothing in its first half
//! a second, and then at most five lines a second.

use crate::expectation::expect_equal;
use std::alloc::Global;
use std::test::Fail;
use terminal_text::{Stage, Unit};

/// What is written of a work of ten frames that began at millisecond 1000, if one more is done at each
/// of these.
fn lines_of(alloc: Global, times: &[u64]) -> Result<String, Fail> {
    let mut lines = String::new(alloc);
    let mut stage = Stage::Ready;
    stage.begin(Unit::Frames, 10, Some(1_000));
    for time in times {
        if let Some(notice) = stage.advance(Some(*time)) {
            let line = format!(in alloc; "{notice}")?;
            lines.push_str(&line)?;
        }
    }
    Ok(lines)
}

#[test]
fn first_line_comes_after_half_a_second(rt: HostRuntime) -> Result<(), Fail> {
    let lines = lines_of(rt.alloc(), &[1_100, 1_300, 1_490, 1_510])?;
    expect_equal(&rt, lines.as_str(), "\r4 of 10 frames");
    Ok(())
}

#[test]
fn lines_are_a_fifth_of_a_second_apart(rt: HostRuntime) -> Result<(), Fail> {
    let lines = lines_of(rt.alloc(), &[1_600, 1_700, 1_790, 1_810, 1_990])?;
    expect_equal(&rt, lines.as_str(), "\r1 of 10 frames\r4 of 10 frames");
    Ok(())
}
