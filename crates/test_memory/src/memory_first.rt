//! What is refused for another reason where memory is there: a call takes its room before it looks
//! at what it may refuse, so a refused growth is the answer whatever is wrong behind it.

use crate::answer::answer_to_command;
use crate::call_failure::{CallFailure, OUT_OF_MEMORY};
use crate::movies::{LENGTH, cartridge, two_frames};
use command_line::Command;
use commands::Status;
use movie_file::{MakeError, MovieError, NoProgress, make_movie, read_inputs, read_movie};
use movie_machine::Cart;
use refused::Refused;
use replay_plan::Workers;
use std::alloc::Global;
use std::num::NonZeroU32;
use std::sync::Wait;
use std::thread::Threads;
use vcs_machine::{Input, State, frame};

/// The movie of two frames with 02, which is no opcode, where its program begins.
fn without_opcode() -> [u8; LENGTH] {
    let mut bytes = two_frames();
    bytes[14] = 0x02;
    bytes
}

/// A start state whose P has bit 4, which no status has.
pub(crate) fn is_bad_state(alloc: Global) -> Result<(), CallFailure> {
    let mut bytes = two_frames();
    bytes[2066] = 0x14;
    match read_movie(alloc, &bytes) {
        Err(Refused::Of(MovieError::BadState(0))) => Ok(()),
        Err(Refused::NoMemory) => Err(OUT_OF_MEMORY),
        _ => Err(CallFailure::Wrong),
    }
}

/// A list whose first input has a third button.
pub(crate) fn is_bad_input(alloc: Global) -> Result<(), CallFailure> {
    match read_inputs(alloc, &[0xFF, 0x3F, 4]) {
        Err(Refused::Of(MovieError::BadInput(1))) => Ok(()),
        Err(Refused::NoMemory) => Err(OUT_OF_MEMORY),
        _ => Err(CallFailure::Wrong),
    }
}

/// A movie to be made of a run whose first frame faults.
pub(crate) fn is_faulty_run(alloc: Global) -> Result<(), CallFailure> {
    let Some(idle) = Input::new(0xFF, 0x3F, 0) else {
        return Err(CallFailure::Wrong);
    };
    let cart = cartridge(alloc, &without_opcode())?;
    let inputs = vec![in alloc; idle; 2]?;
    match make_movie(alloc, Cart::Guide(cart), inputs, 1, &NoProgress) {
        Err(Refused::Of(MakeError::Fault { frame: 1, kind: _ })) => Ok(()),
        Err(Refused::NoMemory) => Err(OUT_OF_MEMORY),
        _ => Err(CallFailure::Wrong),
    }
}

/// A frame that faults, with its picture.
pub(crate) fn is_faulty_frame(alloc: Global) -> Result<(), CallFailure> {
    let Some(idle) = Input::new(0xFF, 0x3F, 0) else {
        return Err(CallFailure::Wrong);
    };
    let cart = cartridge(alloc, &without_opcode())?;
    let mut state = State::power_on(&cart);
    match frame(alloc, &cart, &mut state, idle, true) {
        Err(Refused::Of(_)) => Ok(()),
        Err(Refused::NoMemory) => Err(OUT_OF_MEMORY),
        Ok(_) => Err(CallFailure::Wrong),
    }
}

/// A cut from the second frame on of a movie whose first frame faults. It takes no room for its
/// checkpoints, since the frames before it come first.
pub(crate) fn is_faulty_cut<R: Threads + Wait + Sync + AllocGlobal>(
    rt: &R,
) -> Result<(), CallFailure> {
    let cut = Command::Cut {
        first: NonZeroU32::MIN.saturating_add(1),
        count: 1,
        every: NonZeroU32::MIN,
    };
    let wanted = b"fault at frame 1: bad opcode 02 at F000\n";
    answer_to_command(rt, cut, Workers::ONE, &mut without_opcode().as_slice()).is(
        Status::Fault,
        wanted,
        &[],
    )
}
