//! What is printed of instructions.

use crate::answer::{answer_into, expect_beginning, line_of};
use crate::movies::two_frames;
use std::test::Fail;

/// The trace of the second of two frames.
const LINES: &str = "  0 13  F00A  4C 00 F0  JMP $F000    A=00 X=00 Y=00 S=FF P=06
  0 16  F000  A9 02     LDA #$02     A=00 X=00 Y=00 S=FF P=06
  0 18  F002  85 80     STA $80      A=02 X=00 Y=00 S=FF P=04  write 0080 02
  0 21  F004  85 00     STA $00      A=02 X=00 Y=00 S=FF P=04  write 0000 02
  0 24  F006  A9 00     LDA #$00     A=02 X=00 Y=00 S=FF P=04
  0 26  F008  85 00     STA $00      A=00 X=00 Y=00 S=FF P=06  write 0000 00
frame 2: 16 cycles, 1 rows
";

#[test]
fn failed_write_leaves_the_instructions_before(rt: HostRuntime) -> Result<(), Fail> {
    let bytes = two_frames(rt.alloc())?;
    let line = line_of(rt.alloc(), "vcs_check trace m --frame 2")?;
    for left in [0, 1, 61, 62, 200, LINES.len() - 1] {
        let answer = answer_into(&rt, &line, &mut bytes.as_slice(), left, 0);
        expect_beginning(&rt, answer.status, &answer.text, LINES.as_bytes(), left);
    }
    Ok(())
}
