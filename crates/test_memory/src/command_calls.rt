//! What the program's commands do, over bytes in place of files.

use crate::answer::{answer_to, answer_to_command, answer_with};
use crate::call_failure::CallFailure;
use crate::movies::{
    conversion, put, two_frames, two_frames_to_the_end, two_frames_with_a_false_claim,
};
use command_line::{Command, program_name};
use commands::{InputForm, Status};
use replay_plan::{Keep, Workers};
use std::io::{self, Read};
use std::num::NonZeroU16;
use std::sync::Wait;
use std::thread::Threads;

/// The length of a picture of one row: P6, 160 1, 255, and three bytes for each of 160 pixels.
const PICTURE: usize = 13 + 480;

/// The file of two pictures of a row of zeros.
fn two_pictures() -> [u8; 2 * PICTURE] {
    let mut bytes = [0; 2 * PICTURE];
    put(&mut bytes, 0, b"P6\n160 1\n255\n");
    put(&mut bytes, PICTURE, b"P6\n160 1\n255\n");
    bytes
}

/// The command that judges a movie with a cut at each checkpoint, and keeps these pictures.
fn verify(keep: Keep) -> Command {
    Command::Verify {
        every: NonZeroU16::MIN,
        keep,
    }
}

/// Two frames judged by so many workers, with a cut after the first, and their pictures. A gate that
/// was told of a beginning was told of the end too, whatever came between.
pub(crate) fn is_judged<R: Threads + Wait + Sync + AllocGlobal>(
    rt: &R,
    workers: u8,
) -> Result<(), CallFailure> {
    let workers = Workers::new(workers).ok_or(CallFailure::Wrong)?;
    let verify = verify(Keep::new(1, 2)?);
    answer_to_command(rt, verify, workers, &mut two_frames().as_slice()).is(
        Status::Done,
        b"genuine: 2 frames, 1 checkpoints\n",
        &two_pictures(),
    )
}

/// A movie with a checkpoint at every two frames, byte by byte, made of inputs in a form.
pub(crate) fn is_made<R: Threads + Wait + Sync + AllocGlobal>(
    rt: &R,
    form: InputForm,
) -> Result<(), CallFailure> {
    let wanted = two_frames_to_the_end();
    let mut rom = &wanted[14..2062];
    let (words, mut inputs) = match form {
        InputForm::Bytes => ("vcs_check make r i --every 2 --out o", &wanted[2249..2255]),
        InputForm::Text => (
            "vcs_check make r i --text --every 2 --out o",
            b"2\n".as_slice(),
        ),
    };
    answer_with(rt, words, &mut rom, &mut inputs)?.is(
        Status::Done,
        b"made: 2 frames, 1 checkpoints\n",
        &wanted,
    )
}

/// What the movie of two frames holds.
pub(crate) fn is_told<R: Threads + Wait + Sync + AllocGlobal>(rt: &R) -> Result<(), CallFailure> {
    let wanted = b"movie: version 1, cartridge 2048, 2 frames, 1 checkpoints\n";
    answer_to(rt, "vcs_check info m", &mut two_frames().as_slice())?.is(Status::Done, wanted, &[])
}

/// The same as JSON.
pub(crate) fn is_told_as_json<R: Threads + Wait + Sync + AllocGlobal>(
    rt: &R,
) -> Result<(), CallFailure> {
    let wanted = b"{\"version\":1,\"cartridge\":2048,\"frames\":2,\"checkpoints\":1}\n";
    answer_to(rt, "vcs_check info m --json", &mut two_frames().as_slice())?.is(
        Status::Done,
        wanted,
        &[],
    )
}

/// The movie of two frames in version 2, byte by byte.
pub(crate) fn is_converted<R: Threads + Wait + Sync + AllocGlobal>(
    rt: &R,
) -> Result<(), CallFailure> {
    let wanted = b"converted: 2 frames, 1 checkpoints\n";
    answer_to(rt, "vcs_check convert m o", &mut two_frames().as_slice())?.is(
        Status::Done,
        wanted,
        &conversion(),
    )
}

/// The cartridge of the movie of two frames.
pub(crate) fn is_taken<R: Threads + Wait + Sync + AllocGlobal>(rt: &R) -> Result<(), CallFailure> {
    let wanted = b"cartridge: 2048 bytes\n";
    let movie = two_frames();
    answer_to(rt, "vcs_check cartridge m --out o", &mut movie.as_slice())?.is(
        Status::Done,
        wanted,
        &movie[14..2062],
    )
}

/// What the one checkpoint of two frames claims.
pub(crate) fn is_claimed<R: Threads + Wait + Sync + AllocGlobal>(
    rt: &R,
) -> Result<(), CallFailure> {
    let answer = answer_to(rt, "vcs_check claims m", &mut two_frames().as_slice())?;
    let text = answer.text.as_slice();
    let begins = text.starts_with(
        b"checkpoint 1: frame 1\nA: 00\nX: 00\nY: 00\nS: FF\nP: 06\nPC: F00A\nmemory 80: 02\n",
    );
    let ends = text.ends_with(b"\nline cycle: 0D\ncomb: 00\nbank: 00\n");
    answer.judged(Status::Done, begins && ends, text.is_empty())
}

/// The inputs of two frames in which nothing is held.
pub(crate) fn is_listed<R: Threads + Wait + Sync + AllocGlobal>(
    rt: &R,
    numbers: bool,
) -> Result<(), CallFailure> {
    let (words, wanted) = if numbers {
        ("vcs_check inputs m --numbers", b"1: 2\n".as_slice())
    } else {
        ("vcs_check inputs m", b"2\n".as_slice())
    };
    answer_to(rt, words, &mut two_frames().as_slice())?.is(Status::Done, wanted, &[])
}

/// The length of the report of two frames without the name of the program: a line of the verdict, a
/// note, one for the length of the cartridge, three digests, its bank scheme, six lines of the start
/// and the checkpoints, and five of the movie.
const REPORT: usize = 33
    + 41
    + 22
    + 38
    + 47
    + 73
    + 12
    + 16
    + 15
    + 26
    + 25
    + 22
    + 36
    + 17
    + 16
    + 79
    + 17
    + 10;

/// Two frames judged, and their report, by these words.
pub(crate) fn is_reported<R: Threads + Wait + Sync + AllocGlobal>(
    rt: &R,
    words: &str,
) -> Result<(), CallFailure> {
    let answer = answer_to(rt, words, &mut two_frames().as_slice())?;
    let text = answer.text.as_slice();
    let begins = text.starts_with(
        b"genuine: 2 frames, 1 checkpoints\nnote: 1 frames after the last checkpoint\ncartridge: 2048 bytes\nmd5: 2062825b",
    );
    answer.judged(
        Status::Done,
        begins && text.len() == REPORT + program_name().len(),
        text.is_empty(),
    )
}

/// A false movie of two segments, and its report as JSON, by these words. The second segment passes,
/// since its frame stores what the claim has otherwise.
pub(crate) fn is_reported_false<R: Threads + Wait + Sync + AllocGlobal>(
    rt: &R,
    words: &str,
) -> Result<(), CallFailure> {
    let answer = answer_to(rt, words, &mut two_frames_with_a_false_claim().as_slice())?;
    let text = answer.text.as_slice();
    let begins = text.starts_with(
        b"{\"verdict\":\"false checkpoint\",\"checkpoint\":1,\"frame\":1,\"differs\":[{\"number\":\"memory 80\",\"claimed\":\"07\",\"found\":\"02\"}],\"segments\":\"X.\",\"claims\":\"X\",\"reason\":\"the run isn't in the only claim: that claim was changed, or what leads to it\",\"notes\":[\"1 frames after the last checkpoint\"],\"cartridge\":2048,",
    );
    answer.judged(Status::False, begins, text.is_empty())
}

/// Two frames judged by one worker, and the verdict as JSON.
pub(crate) fn is_judged_as_json<R: Threads + Wait + Sync + AllocGlobal>(
    rt: &R,
) -> Result<(), CallFailure> {
    let wanted = b"{\"verdict\":\"genuine\",\"frames\":2,\"checkpoints\":1}\n";
    answer_to(
        rt,
        "vcs_check verify m --json",
        &mut two_frames().as_slice(),
    )?
    .is(Status::Done, wanted, &[])
}

/// A movie of two frames with another magic number, and its refusal as JSON.
pub(crate) fn is_refused_as_json<R: Threads + Wait + Sync + AllocGlobal>(
    rt: &R,
) -> Result<(), CallFailure> {
    let mut movie = two_frames();
    movie[3] = b'N';
    let answer = answer_to(rt, "vcs_check verify m --json", &mut movie.as_slice())?;
    let text = answer.text.as_slice();
    let begins = text.starts_with(
        b"{\"verdict\":\"refused\",\"refusal\":\"BadMagic\",\"byte\":0,\"field\":\"magic\",\"expected\":\"4132364D\",\"found\":\"4132364E\",",
    );
    answer.judged(Status::Refused, begins, text.is_empty())
}

/// Two frames judged by one worker, and their report, with their cartridge's bytes as the ROM.
pub(crate) fn is_compared<R: Threads + Wait + Sync + AllocGlobal>(
    rt: &R,
) -> Result<(), CallFailure> {
    let movie = two_frames();
    let mut rom = &movie[14..2062];
    let words = "vcs_check report m --rom r";
    let answer = answer_with(rt, words, &mut movie.as_slice(), &mut rom)?;
    let text = answer.text.as_slice();
    let begins = text.starts_with(
        b"genuine: 2 frames, 1 checkpoints\ncartridge expected: yes\nnote: 1 frames after the last checkpoint\n",
    );
    answer.judged(Status::Done, begins, text.is_empty())
}

/// Nine million zeros, which are no movie.
pub(crate) fn is_refused<R: Threads + Wait + Sync + AllocGlobal>(
    rt: &R,
) -> Result<(), CallFailure> {
    let mut zeros = io::repeat(0).take(9_000_000);
    answer_to_command(rt, verify(Keep::NONE), Workers::ONE, &mut zeros).is(
        Status::Refused,
        b"refused: BadMagic\n",
        &[],
    )
}

/// The pictures of two frames. Where it is out of memory some of them may be there, each whole.
pub(crate) fn is_drawn<R: Threads + Wait + Sync + AllocGlobal>(rt: &R) -> Result<(), CallFailure> {
    let words = "vcs_check pictures m --count 3 --out o";
    let answer = answer_to(rt, words, &mut two_frames().as_slice())?;
    let (text, file) = (answer.text.as_slice(), answer.file.as_slice());
    answer.judged(
        Status::Done,
        text == b"pictures: 2 frames\n".as_slice() && file == two_pictures().as_slice(),
        text.is_empty() && file.len() % PICTURE == 0,
    )
}

/// Two frames as a movie of their own with a checkpoint after the second, byte by byte.
pub(crate) fn is_cut_out<R: Threads + Wait + Sync + AllocGlobal>(
    rt: &R,
) -> Result<(), CallFailure> {
    let words = "vcs_check cut m --count 3 --every 2 --out o";
    answer_to(rt, words, &mut two_frames().as_slice())?.is(
        Status::Done,
        b"cut: 2 frames, 1 checkpoints\n",
        &two_frames_to_the_end(),
    )
}
