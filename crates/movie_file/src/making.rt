//! Making movies.
ghost use Rattle.std.specs.Prelude.{◌≡◌, ◌↔◌, ◌%◌, ◌/◌, ◌≤◌, ◌<◌, ◌++◌, ◌==◌, List, [], ◌∷◌};
ghost use Rattle.std.specs.Prelude.{length, vec_len, vec_capacity, if◌then◌else◌, IfOk, IfErr};
ghost use Rattle.std.specs.Prelude.{IsTrue, OnOk, OnErr};
ghost use Rattle.movie_machine.specs.Carts.{IsCart, rules_of};
ghost use Rattle.movie_machine.specs.States.{is_of, ram_of, state_at_power_on};
ghost use Rattle.movie_file.specs.Judgement.{IsGenuine};
ghost use Rattle.movie_file.specs.Making.{Explains, IsMadeOf, bare, counts_fit, guide_version, version_made};
ghost use Rattle.movie_file.specs.ClaimedStates.{checkpoint_if};
ghost use Rattle.movie_file.specs.Private.MakingSteps.{RunFails};
ghost use Rattle.movie_file.specs.Movie.{CanBeClaimed, IsMovie};

use crate::assembling::movie_of;
use crate::checkpoint::Checkpoint;
use crate::error::MakeError;
use crate::format::{MOST_CHECKPOINTS, MOST_FRAMES, most_frames, takes_cart};
use crate::movie::Movie;
use crate::progress::{Progress, Work};
use movie_machine::{Cart, State, halt};
use refused::Refused;
use std::alloc::{AllocError, Global};
use vcs_machine::Input;

/// Whether a movie can have so many frames, and a checkpoint after each `every` of them.
pub fn do_counts_fit(frames: usize, every: u32) -> bool
    ensures { result ≡ counts_fit frames every }
{
    1 <= frames
        && frames <= MOST_FRAMES as usize
        && 1 <= every
        && frames / every as usize <= MOST_CHECKPOINTS as usize
}

/// The version of the movie that is made by the guide's rules of a cartridge of so many bytes and so
/// many inputs.
fn guide_version(cartridge: u32, frames: usize) -> u16
    ensures { result ≡ guide_version cartridge frames }
{
    if takes_cart(1, None, cartridge) && frames <= most_frames(1) as usize {
        1
    } else {
        2
    }
}

/// The version of the movie that is made of a cartridge and so many inputs.
pub fn version_made(cart: &Cart, frames: usize) -> u16
    ensures value { result ≡ version_made cart.now frames }
    ensures lawful { IsCart cart.now }
{
    let bytes = cart.len();
    match cart {
        Cart::Guide(_) => guide_version(bytes, frames),
        Cart::Chip(_) => 3,
    }
}

/// A copy of a state, which a movie can claim.
///
/// AllocError comes only if memory for the RAM of its cartridge was refused.
#[tactic(auto, using(crate::proofs::StateLemmas::by_guide, crate::proofs::StateLemmas::by_chip))]
pub fn copy_state(alloc: Global, state: &State) -> Result<State, AllocError>
    ensures value { IfOk result (λ copy. copy ≡ state.now) }
    ensures lawful { CanBeClaimed state.now }
    ensures memory { OnErr result (0 < length (ram_of state.now)) }
{
    match state {
        State::Guide(state) => Ok(State::Guide(state.copy())),
        State::Chip(state) => {
            // (the proof then knows that its numbers are lawful)
            let _ = state.fields();
            Ok(State::Chip(state.copy(alloc)?))
        }
    }
}

/// Adds the checkpoint after a frame, if one stands there.
///
/// AllocError comes only if memory for the RAM of the state's cartridge was refused.
pub fn claim(
    alloc: Global,
    checkpoints: &mut Vec<Checkpoint>,
    every: u32,
    frame: u32,
    state: &State,
) -> Result<(), AllocError>
    requires every { 1 ≤ every }
    requires room { frame % every ≡ 0
        → vec_len checkpoints.old < vec_capacity checkpoints.old }
    ensures items { OnOk result (checkpoints.new.items
        ≡ checkpoints.old.items ++ checkpoint_if every frame state.now) }
    ensures lawful { OnOk result (frame % every ≡ 0 → CanBeClaimed state.now) }
    ensures capacity { vec_capacity checkpoints.new ≡ vec_capacity checkpoints.old }
    ensures memory { OnErr result (0 < length (ram_of state.now)) }
{
    if frame % every == 0 {
        let state = copy_state(alloc, state)?;
        checkpoints.push_reserved(Checkpoint { frame, state });
    }
    Ok(())
}

/// The checkpoints of a run from power-on, put into an empty list that has room for them.
fn checkpoints_of_run<P: Progress>(
    alloc: Global,
    mut checkpoints: Vec<Checkpoint>,
    cart: &Cart,
    start: &State,
    inputs: &[Input],
    every: u32,
    progress: &P,
) -> Result<Vec<Checkpoint>, Refused<MakeError>>
    requires empty { checkpoints.items ≡ [] }
    requires start { start.now ≡ state_at_power_on cart.now }
    requires cartridge { IsTrue (is_of cart.now start.now) }
    requires counts { IsTrue (counts_fit (length inputs.now) every) }
    requires room { length inputs.now / every ≤ vec_capacity checkpoints }
    ensures ok { IfOk result (λ made.
        let m = record (bare cart.now inputs.now) { checkpoints = made.items } in
        IsMadeOf cart.now inputs.now every m × IsGenuine m
        × (IsCart cart.now → IsMovie m)) }
    ensures err { IfErr result (RunFails cart.now inputs.now) }
{
    let Ok(mut state) = copy_state(alloc, start) else {
        return Err(Refused::NoMemory);
    };
    for i in 0..inputs.len() {
        let frame = i as u32 + 1;
        match halt(alloc, cart, &mut state, inputs[i]) {
            None => {}
            Some(halt) => {
                let kind = halt.kind;
                return Err(Refused::Of(MakeError::Fault { frame, kind }));
            }
        }
        let Ok(()) = claim(alloc, &mut checkpoints, every, frame, &state) else {
            return Err(Refused::NoMemory);
        };
        progress.advance();
    }
    Ok(checkpoints)
}

/// The movie of a run from power-on on a cartridge, one frame for each input, with a checkpoint
/// after each `every` frames.
///
/// By the guide's rules the movie has version 1 if that has room for it, and else version 2; by the
/// chip's rules it has version 3.
///
/// `BadCounts` comes first: for no inputs, more than 262,143, `every` 0, or more than 4,095
/// checkpoints. Then the memory of the checkpoints is taken, in one allocation; if that is refused
/// `NoMemory` comes before any frame. `Fault` names the first frame that faults. The frames are told
/// as one work, which begins after that memory was taken.
pub fn make_movie<P: Progress>(
    alloc: Global,
    cart: Cart,
    inputs: Vec<Input>,
    every: u32,
    progress: &P,
) -> Result<Movie, Refused<MakeError>>
    ensures made { IfOk result (λ movie. IsMadeOf cart inputs.items every movie) }
    ensures genuine { IfOk result (λ movie. IsGenuine movie) }
    ensures refused { IfErr result (Explains cart inputs.items every) }
    ensures counts { IfOk result (λ movie. IsTrue (counts_fit (length inputs.items) every)) }
{
    if !do_counts_fit(inputs.len(), every) {
        return Err(Refused::Of(MakeError::BadCounts));
    }
    let Ok(checkpoints) = Vec::with_capacity(alloc, inputs.len() / every as usize) else {
        return Err(Refused::NoMemory);
    };
    let version = version_made(&cart, inputs.len());
    let Ok(start) = State::power_on(alloc, &cart) else {
        return Err(Refused::NoMemory);
    };
    progress.begin(Work::Frames(inputs.len() as u32));
    let run = checkpoints_of_run(alloc, checkpoints, &cart, &start, &inputs, every, progress);
    progress.end();
    let checkpoints = match run {
        Ok(checkpoints) => checkpoints,
        Err(e) => return Err(e),
    };
    Ok(movie_of(version, cart, start, inputs, checkpoints))
}
