//! The lines about frames.

use crate::answer::{answer_into, expect_beginning, line_of};
use crate::movies::first_of_two_false;
use std::test::Fail;

/// Of three frames, whose first checkpoint is false; the byte at 80 is told twice.
const LINES: &str = "frame 1: 13 cycles, 1 rows, checkpoint 1 false, memory 80 02, memory 80 02
frame 2: 16 cycles, 1 rows, checkpoint 2 true, memory 80 02, memory 80 02
frame 3: 16 cycles, 1 rows, memory 80 02, memory 80 02
";

#[test]
fn failed_write_leaves_the_lines_before(rt: HostRuntime) -> Result<(), Fail> {
    let bytes = first_of_two_false(rt.alloc())?;
    let words = "vcs_check frames m --count 3 --watch 80 --watch 80";
    let line = line_of(rt.alloc(), words)?;
    for left in [0, 1, 79, 80, 100, LINES.len() - 1] {
        let answer = answer_into(&rt, &line, &mut bytes.as_slice(), left, 0);
        expect_beginning(&rt, answer.status, &answer.text, LINES.as_bytes(), left);
    }
    Ok(())
}
