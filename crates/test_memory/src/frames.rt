//! What the program tells of frames and of instructions, over bytes in place of files.

use crate::answer::answer_to;
use crate::call_failure::CallFailure;
use crate::movies::two_frames;
use commands::Status;
use std::sync::Wait;
use std::thread::Threads;

/// The lines of the two frames, with the byte at 80.
const LINES: &str = "frame 1: 13 cycles, 1 rows, checkpoint 1 true, memory 80 02
frame 2: 16 cycles, 1 rows, memory 80 02
";

/// The same with digests: of the records of 188 bytes, and of a picture's file with a row of zeros.
const LINES_WITH_DIGESTS: &str =
    "frame 1: 13 cycles, 1 rows, checkpoint 1 true, memory 80 02, state 02a4b0a7ede45c26b131b7877dd25eaaf9bc28859b4c95bd0c3a3d226318cf60, picture 4409125736b791ebfbe7f4b5965102771b94973613b155995c4cb26f34875114
frame 2: 16 cycles, 1 rows, memory 80 02, state f2a70320d91e4670e162fcbe768faf0da7e880d9031e2c58461dc2d3a3ff6b53, picture 4409125736b791ebfbe7f4b5965102771b94973613b155995c4cb26f34875114
";

/// The lines about two frames.
pub(crate) fn are_told<R: Threads + Wait + Sync + AllocGlobal>(
    rt: &R,
    digests: bool,
) -> Result<(), CallFailure> {
    let (words, wanted) = if digests {
        (
            "vcs_check frames m --count 3 --watch 80 --digests",
            LINES_WITH_DIGESTS,
        )
    } else {
        ("vcs_check frames m --count 3 --watch 80", LINES)
    };
    answer_to(rt, words, &mut two_frames().as_slice())?.is_in_lines(Status::Done, wanted.as_bytes())
}

/// The objects about the two frames.
const OBJECTS: &str =
    "{\"frame\":1,\"cycles\":13,\"rows\":1,\"checkpoint\":1,\"claim_is_true\":true}
{\"frame\":2,\"cycles\":16,\"rows\":1}
";

/// The same as objects of JSON.
pub(crate) fn are_told_as_json<R: Threads + Wait + Sync + AllocGlobal>(
    rt: &R,
) -> Result<(), CallFailure> {
    let words = "vcs_check frames m --count 3 --json";
    answer_to(rt, words, &mut two_frames().as_slice())?.is_in_lines(
        Status::Done,
        OBJECTS.as_bytes(),
    )
}

/// How the first line with the memory begins.
const FIRST: &[u8] = b"frame 1: 13 cycles, 1 rows, checkpoint 1 true, memory 020000";

/// The length of what a line says of the whole memory, with its end.
const MEMORY: usize = 9 + 256 + 1;

/// The lengths of the first line with the memory, and of both.
const FIRST_LINE: usize = 45 + MEMORY;

const BOTH_LINES: usize = FIRST_LINE + 26 + MEMORY;

/// The lines about two frames with the whole memory, of which only the byte at 80 isn't 0. Some of them
/// may be there before an error, each whole.
pub(crate) fn are_told_with_memory<R: Threads + Wait + Sync + AllocGlobal>(
    rt: &R,
) -> Result<(), CallFailure> {
    let words = "vcs_check frames m --count 3 --memory";
    let answer = answer_to(rt, words, &mut two_frames().as_slice())?;
    let (text, file) = (answer.text.as_slice(), answer.file.as_slice());
    answer.judged(
        Status::Done,
        text.len() == BOTH_LINES && text.starts_with(FIRST) && file.is_empty(),
        matches!(text.len(), 0 | FIRST_LINE | BOTH_LINES),
    )
}

/// The trace of the first of two frames.
const TRACE: &str = "  0  0  F000  A9 02     LDA #$02     A=00 X=00 Y=00 S=FF P=04
  0  2  F002  85 80     STA $80      A=02 X=00 Y=00 S=FF P=04  write 0080 02
  0  5  F004  85 00     STA $00      A=02 X=00 Y=00 S=FF P=04  write 0000 02
  0  8  F006  A9 00     LDA #$00     A=02 X=00 Y=00 S=FF P=04
  0 10  F008  85 00     STA $00      A=00 X=00 Y=00 S=FF P=06  write 0000 00
frame 1: 13 cycles, 1 rows
";

/// The trace of a frame.
pub(crate) fn is_traced<R: Threads + Wait + Sync + AllocGlobal>(rt: &R) -> Result<(), CallFailure> {
    let words = "vcs_check trace m --frame 1";
    answer_to(rt, words, &mut two_frames().as_slice())?.is_in_lines(Status::Done, TRACE.as_bytes())
}
