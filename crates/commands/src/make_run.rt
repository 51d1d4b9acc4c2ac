//! Movies of runs from power-on, with the checkpoints that `make` is asked for.
ghost use Rattle.std.specs.Prelude.{◌≡◌, ◌≤◌, ◌<◌, ◌++◌, ◌/◌, [], length, IfErr, IfOk, IfSome, IsTrue, None};
ghost use Rattle.std.specs.Prelude.{OnErr, true, vec_capacity, vec_len};
ghost use Rattle.movie_machine.specs.Carts.{IsCart, ram_length};
ghost use Rattle.movie_machine.specs.States.{is_of, ram_of, state_at_power_on};
ghost use Rattle.movie_file.specs.Judgement.{IsGenuine};
ghost use Rattle.movie_file.specs.Making.{counts_fit};
ghost use Rattle.movie_file.specs.Movie.{CanBeClaimed, IsMovie, IsStateOf};
ghost use Rattle.movie_hints.specs.Counts.{checkpoints_of};
ghost use Rattle.commands.specs.Make.{IsMadeMovie, do_claims_fit, is_last_claimed, last_claim};
ghost use Rattle.commands.specs.Private.MadeRuns.{Explains, HasFault, HasRun, IsMadeRun, movie_up_to};

use movie_file::{
    Checkpoint, MOST_CHECKPOINTS, MakeError, Movie, Progress, Work, claim, copy_state,
    do_counts_fit, movie_of, version_made,
};
use movie_machine::{Cart, State, halt};
use refused::Refused;
use run_cursor::RunFault;
use std::alloc::{AllocError, Global};
use vcs_machine::Input;

/// A movie that is made, and the fault of its last frame, if that faults.
#[derive(Drop)]
pub(crate) struct MadeMovie {
    pub(crate) movie: Movie,
    pub(crate) fault: Option<RunFault>,
}

/// A run from power-on, up to its end or its first fault.
#[derive(Drop)]
struct MadeRun {
    checkpoints: Vec<Checkpoint>,
    /// The state after the last frame, if the run ended.
    state: State,
    fault: Option<RunFault>,
}

/// How many checkpoints a movie has that is made of so many frames.
fn checkpoints_of(frames: usize, every: u32, to_the_end: bool) -> usize
    requires { 1 ≤ every }
    ensures { result ≡ checkpoints_of frames every to_the_end }
{
    let every = every as usize;
    if to_the_end {
        frames.div_ceil(every)
    } else {
        frames / every
    }
}

/// Whether a movie can have so many frames, and these checkpoints.
fn do_claims_fit(frames: usize, every: u32, to_the_end: bool) -> bool
    ensures { result ≡ do_claims_fit frames every to_the_end }
{
    do_counts_fit(frames, every)
        && checkpoints_of(frames, every, to_the_end) <= MOST_CHECKPOINTS as usize
}

/// The run from power-on. The checkpoints are put into an empty list that has room for them.
fn run_of<P: Progress>(
    alloc: Global,
    mut checkpoints: Vec<Checkpoint>,
    cart: &Cart,
    start: &State,
    inputs: &[Input],
    every: u32,
    progress: &P,
) -> Result<MadeRun, AllocError>
    requires empty { checkpoints.items ≡ [] }
    requires start { start.now ≡ state_at_power_on cart.now }
    requires cartridge { IsTrue (is_of cart.now start.now) }
    requires fits { IsTrue (counts_fit (length inputs.now) every) }
    requires room { length inputs.now / every ≤ vec_capacity checkpoints }
    ensures ends { IfOk result (λ run. run.fault ≡ None → HasRun cart.now inputs.now every (length inputs.now) run.checkpoints.items run.state) }
    ensures faults { IfOk result (λ run. IfSome run.fault (λ fault. HasFault cart.now inputs.now every fault.frame fault.kind run.checkpoints.items)) }
    ensures capacity { IfOk result (λ run. vec_capacity run.checkpoints ≡ vec_capacity checkpoints) }
    ensures cartridge { IfOk result (λ run. IsTrue (is_of cart.now run.state)) }
    ensures lawful { IfOk result (λ _. IsStateOf cart.now start.now) }
    ensures memory { OnErr result (0 < ram_length cart.now) }
{
    let mut state = copy_state(alloc, start)?;
    for i in 0..inputs.len() {
        let frame = i as u32 + 1;
        match halt(alloc, cart, &mut state, inputs[i]) {
            None => claim(alloc, &mut checkpoints, every, frame, &state)?,
            Some(halt) => {
                let kind = halt.kind;
                return Ok(MadeRun {
                    checkpoints,
                    state,
                    fault: Some(RunFault { frame, kind }),
                });
            }
        }
        progress.advance();
    }
    Ok(MadeRun {
        checkpoints,
        state,
        fault: None,
    })
}

/// Adds the checkpoint after the last frame, if it is asked for and none stands there. Memory is taken
/// for the RAM of the cartridge alone.
fn with_last_claim(
    alloc: Global,
    mut checkpoints: Vec<Checkpoint>,
    frames: u32,
    every: u32,
    to_the_end: bool,
    state: &State,
) -> Result<Vec<Checkpoint>, AllocError>
    requires every { 1 ≤ every }
    requires room { is_last_claimed frames every to_the_end ≡ true → vec_len checkpoints < vec_capacity checkpoints }
    ensures items { IfOk result (λ all. all.items ≡ checkpoints.items ++ last_claim frames every to_the_end state.now) }
    ensures lawful { IfOk result (λ _. is_last_claimed frames every to_the_end ≡ true → CanBeClaimed state.now) }
    ensures memory { OnErr result (0 < length (ram_of state.now)) }
{
    if to_the_end && frames % every != 0 {
        let state = copy_state(alloc, state)?;
        checkpoints.push_reserved(Checkpoint {
            frame: frames,
            state,
        });
    }
    Ok(checkpoints)
}

/// The movie of a run that ended. Memory is taken for the RAM of the cartridge alone.
fn movie_of_run(
    alloc: Global,
    cart: Cart,
    start: State,
    inputs: Vec<Input>,
    run: MadeRun,
    every: u32,
    to_the_end: bool,
) -> Result<Movie, AllocError>
    requires lawful { IsCart cart }
    requires start { start ≡ state_at_power_on cart }
    requires cartridge { IsTrue (is_of cart run.state) }
    requires first { IsStateOf cart start }
    requires fits { IsTrue (do_claims_fit (length inputs.items) every to_the_end) }
    requires ran { HasRun cart inputs.items every (length inputs.items) run.checkpoints.items run.state }
    requires room { checkpoints_of (length inputs.items) every to_the_end ≤ vec_capacity run.checkpoints }
    ensures made { IfOk result (λ movie. IsMadeMovie cart inputs.items every to_the_end movie) }
    ensures genuine { IfOk result (λ movie. IsGenuine movie) }
    ensures memory { OnErr result (0 < length (ram_of run.state)) }
{
    let frames = inputs.len();
    let checkpoints = with_last_claim(
        alloc,
        run.checkpoints,
        frames as u32,
        every,
        to_the_end,
        &run.state,
    )?;
    let version = version_made(&cart, frames);
    Ok(movie_of(version, cart, start, inputs, checkpoints))
}

/// The movie of a run that faults in this frame, whose input is its last one. It takes no memory.
fn movie_to_the_fault(
    cart: Cart,
    start: State,
    mut inputs: Vec<Input>,
    checkpoints: Vec<Checkpoint>,
    frame: u32,
) -> Movie
    requires { IsCart cart → IsMovie (movie_up_to cart start inputs.items checkpoints.items frame) }
    ensures value { result ≡ movie_up_to cart start inputs.items checkpoints.items frame }
    ensures lawful { IsMovie result }
{
    inputs.truncate(frame as usize);
    let version = version_made(&cart, frame as usize);
    movie_of(version, cart, start, inputs, checkpoints)
}

/// The movie of a run from power-on on a cartridge, one frame for each input, with a checkpoint after
/// each `every` frames, and to the end after the last one too. If a frame faults, the movie ends with
/// the first that does, where that is asked for.
///
/// `BadCounts` comes first, as of `make_movie`. Then the memory of the checkpoints is taken, in one
/// allocation; if that is refused `NoMemory` comes before any frame. `Fault` names the first frame
/// that faults. The frames are told as one work, which begins after that memory was taken.
pub(crate) fn make_run<P: Progress>(
    alloc: Global,
    cart: Cart,
    inputs: Vec<Input>,
    every: u32,
    to_the_end: bool,
    to_the_fault: bool,
    progress: &P,
) -> Result<MadeMovie, Refused<MakeError>>
    ensures made { IfOk result (λ made. IsMadeRun cart inputs.items every to_the_end to_the_fault made.movie made.fault) }
    ensures fits { IfOk result (λ _. IsTrue (do_claims_fit (length inputs.items) every to_the_end)) }
    ensures refused { IfErr result (Explains cart inputs.items every to_the_end to_the_fault) }
{
    let frames = inputs.len();
    if !do_claims_fit(frames, every, to_the_end) {
        return Err(Refused::Of(MakeError::BadCounts));
    }
    let count = checkpoints_of(frames, every, to_the_end);
    let Ok(checkpoints) = Vec::with_capacity(alloc, count) else {
        return Err(Refused::NoMemory);
    };
    let Ok(start) = State::power_on(alloc, &cart) else {
        return Err(Refused::NoMemory);
    };
    progress.begin(Work::Frames(frames as u32));
    let run = run_of(alloc, checkpoints, &cart, &start, &inputs, every, progress);
    progress.end();
    let Ok(run) = run else {
        return Err(Refused::NoMemory);
    };
    let Some(fault) = run.fault else {
        let movie = movie_of_run(alloc, cart, start, inputs, run, every, to_the_end);
        let Ok(movie) = movie else {
            return Err(Refused::NoMemory);
        };
        return Ok(MadeMovie { movie, fault: None });
    };
    if !to_the_fault {
        return Err(Refused::Of(MakeError::Fault {
            frame: fault.frame,
            kind: fault.kind,
        }));
    }
    let movie = movie_to_the_fault(cart, start, inputs, run.checkpoints, fault.frame);
    let fault = Some(fault);
    Ok(MadeMovie { movie, fault })
}
