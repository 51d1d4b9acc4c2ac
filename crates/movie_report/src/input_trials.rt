//! Runs in which the input of one frame is left out or played twice.
ghost use Rattle.std.specs.Prelude.{◌≡◌, ◌+◌, ◌-◌, ◌^◌, ◌<◌, ◌≤◌, length, find, option_and_then};
ghost use Rattle.std.specs.Prelude.{IfOk, IfSome, IsSome, IsTrue, None, OnErr, OnOk, Some, slice_get, string_bytes, if◌then◌else◌};
ghost use Rattle.movie_file.specs.Run.{frame_after, run, state_after};
ghost use Rattle.movie_machine.specs.Carts.{ram_length};
ghost use Rattle.movie_machine.specs.States.{is_of};
ghost use Rattle.replay_segments.specs.Verdicts.{HasVerdict};
ghost use Rattle.replay_segments.specs.declared.verdict.Verdict.TheVariants.{FalseCheckpoint};
ghost use Rattle.run_cursor.specs.Cursor.{IsAt};
ghost use Rattle.movie_report.specs.ClaimPlace.{first_frame_in, is_state};
ghost use Rattle.movie_report.specs.InputTrials.{change_fact, first_trial, frame_before, is_tried, leads_to};
ghost use Rattle.movie_report.specs.InputTrials.{trial_fact, trials_after, trials_at, trials_of};

use movie_file::{Movie, Progress, Work, have_one_record};
use movie_machine::{Cart, State, halt};
use refused::Refused;
use replay_plan::Notation;
use run_cursor::Cursor;
use std::alloc::{AllocError, Global};

/// The trials of a segment may play so many frames, however few the movie has: those of 64.
const LEAST_PLAYED: u64 = 4096;

/// What is done with the input of a frame.
#[derive(Clone, Copy)]
pub(crate) enum Change {
    /// It is left out.
    LeftOut,
    /// It is played twice.
    Twice,
}

/// A run with changed inputs.
#[derive(Clone, Copy)]
pub(crate) struct Trial {
    pub change: Change,
    /// The frame whose input is changed.
    pub frame: u32,
    /// Its last frame.
    pub after: u32,
}

/// The state after frame `before` + 1, played from a state, if a movie has that frame and it ends.
fn after_next(
    alloc: Global,
    movie: &Movie,
    state: &State,
    before: u32,
) -> Result<Option<State>, AllocError>
    requires { IsTrue (is_of movie.now.cartridge state.now) }
    ensures state { IfOk result (λ next. next ≡ state_after (frame_after movie.now before state.now)) }
    ensures cartridge { IfOk result (λ next. IfSome next (λ s. IsTrue (is_of movie.now.cartridge s))) }
    ensures memory { OnErr result (0 < ram_length movie.now.cartridge) }
{
    if before >= movie.frames() {
        return Ok(None);
    }
    let mut next = state.copy(alloc)?;
    match halt(alloc, movie.cart(), &mut next, movie.input(before + 1)) {
        None => Ok(Some(next)),
        Some(_) => Ok(None),
    }
}

/// The state after the frames that follow frame `from` up to another one, played from a state.
fn after_frames(
    alloc: Global,
    movie: &Movie,
    start: &State,
    from: u32,
    to: u32,
) -> Result<Option<State>, AllocError>
    requires order { from ≤ to }
    requires cartridge { IsTrue (is_of movie.now.cartridge start.now) }
    ensures state { IfOk result (λ state. state ≡ run movie.now start.now from (to - from)) }
    ensures cartridge { IfOk result (λ state. IfSome state (λ s. IsTrue (is_of movie.now.cartridge s))) }
    ensures memory { OnErr result (0 < ram_length movie.now.cartridge) }
{
    let mut state = start.copy(alloc)?;
    for before in from..to {
        match after_next(alloc, movie, &state, before)? {
            Some(next) => state = next,
            None => return Ok(None),
        }
    }
    Ok(Some(state))
}

/// Whether this state of a cartridge is the claimed one.
fn is_claimed(cart: &Cart, found: &Option<State>, claimed: &State) -> bool
    requires found { IfSome found.now (λ s. IsTrue (is_of cart.now s)) }
    requires claimed { IsTrue (is_of cart.now claimed.now) }
    ensures { result ≡ is_state cart.now claimed.now found.now }
{
    match found {
        Some(found) => have_one_record(cart, claimed, found),
        None => false,
    }
}

/// The state after one frame more, if there is one.
fn after_another(
    alloc: Global,
    movie: &Movie,
    state: &Option<State>,
    before: u32,
) -> Result<Option<State>, AllocError>
    requires { IfSome state.now (λ s. IsTrue (is_of movie.now.cartridge s)) }
    ensures state { IfOk result (λ next. next ≡ option_and_then (λ s. state_after (frame_after movie.now before s)) state.now) }
    ensures cartridge { IfOk result (λ next. IfSome next (λ s. IsTrue (is_of movie.now.cartridge s))) }
    ensures memory { OnErr result (0 < ram_length movie.now.cartridge) }
{
    match state {
        Some(state) => after_next(alloc, movie, state, before),
        None => Ok(None),
    }
}

/// The first of a trial and of the same with one frame more that leads to a claim, where the frames
/// that follow frame `from` up to another one are played from a state for the first.
#[tactic(auto, using(crate::proofs::InputTrialLemmas::one_more))]
fn first_of_two(
    alloc: Global,
    movie: &Movie,
    start: &State,
    from: u32,
    to: u32,
    claimed: &State,
    trial: Trial,
) -> Result<Option<Trial>, AllocError>
    requires order { from ≤ to }
    requires room { trial.after + 1 < 2 ^ 32 }
    requires start { IsTrue (is_of movie.now.cartridge start.now) }
    requires claimed { IsTrue (is_of movie.now.cartridge claimed.now) }
    ensures first { IfOk result (λ first. first ≡ (if is_state movie.now.cartridge claimed.now (run movie.now start.now from (to - from)) then Some trial
        else (if is_state movie.now.cartridge claimed.now (run movie.now start.now from (to - from + 1)) then Some (record trial { after = trial.after + 1 }) else None))) }
    ensures memory { OnErr result (0 < ram_length movie.now.cartridge) }
{
    let cart = movie.cart();
    let found = after_frames(alloc, movie, start, from, to)?;
    if is_claimed(cart, &found, claimed) {
        return Ok(Some(trial));
    }
    let next = after_another(alloc, movie, &found, to)?;
    if is_claimed(cart, &next, claimed) {
        let after = trial.after + 1;
        return Ok(Some(Trial { after, ..trial }));
    }
    Ok(None)
}

/// The first trial that leads to a claim and leaves out the input of the frame after this state.
fn left_out(
    alloc: Global,
    movie: &Movie,
    state: &State,
    frame: u32,
    last: u32,
    claimed: &State,
) -> Result<Option<Trial>, AllocError>
    requires state { IsTrue (is_of movie.now.cartridge state.now) }
    requires claimed { IsTrue (is_of movie.now.cartridge claimed.now) }
    requires ran { run movie.now movie.now.start 0 (frame - 1) ≡ Some state.now }
    requires first { 0 < frame }
    requires order { frame ≤ last }
    requires within { last ≤ length movie.now.inputs }
    ensures first { IfOk result (λ first. first ≡ find (leads_to movie.now claimed.now) (trials_of last Change.LeftOut frame)) }
    ensures memory { OnErr result (0 < ram_length movie.now.cartridge) }
{
    let _ = movie.frames();
    let trial = Trial {
        change: Change::LeftOut,
        frame,
        after: last - 1,
    };
    first_of_two(alloc, movie, state, frame, last, claimed, trial)
}

/// The first trial that leads to a claim and plays the input of the frame before this state twice.
fn twice(
    alloc: Global,
    movie: &Movie,
    state: &State,
    frame: u32,
    last: u32,
    claimed: &State,
) -> Result<Option<Trial>, AllocError>
    requires state { IsTrue (is_of movie.now.cartridge state.now) }
    requires claimed { IsTrue (is_of movie.now.cartridge claimed.now) }
    requires ran { run movie.now movie.now.start 0 frame ≡ Some state.now }
    requires first { 0 < frame }
    requires order { frame ≤ last }
    requires within { last ≤ length movie.now.inputs }
    ensures first { IfOk result (λ first. first ≡ find (leads_to movie.now claimed.now) (trials_of last Change.Twice frame)) }
    ensures memory { OnErr result (0 < ram_length movie.now.cartridge) }
{
    let _ = movie.frames();
    let trial = Trial {
        change: Change::Twice,
        frame,
        after: last,
    };
    first_of_two(alloc, movie, state, frame - 1, last - 1, claimed, trial)
}

/// Plays the next frame of a run that comes to the end of frame `last`.
fn advance(alloc: Global, cursor: &mut Cursor<'_>, last: u32) -> Result<(), AllocError>
    requires more { cursor.old.frame < last }
    requires within { last ≤ length cursor.old.movie.inputs }
    requires ends { IsSome (run cursor.old.movie cursor.old.movie.start 0 last) }
    ensures at { OnOk result (IsAt cursor.old.movie (cursor.old.frame + 1) cursor.new) }
    ensures memory { OnErr result (0 < ram_length cursor.old.movie.cartridge) }
{
    match cursor.advance(alloc) {
        Ok(()) => Ok(()),
        Err(Refused::Of(_)) => unreachable!(),
        Err(Refused::NoMemory) => Err(AllocError),
    }
}

/// The first trial of the next frame that leads to a claim. The cursor goes on by that frame.
#[tactic(auto, using(crate::proofs::InputTrialLemmas::of_frame))]
fn trial_of_next(
    alloc: Global,
    cursor: &mut Cursor<'_>,
    last: u32,
    claimed: &State,
) -> Result<Option<Trial>, AllocError>
    requires more { cursor.old.frame < last }
    requires within { last ≤ length cursor.old.movie.inputs }
    requires ends { IsSome (run cursor.old.movie cursor.old.movie.start 0 last) }
    requires claimed { IsTrue (is_of cursor.old.movie.cartridge claimed.now) }
    ensures trial { IfOk result (λ first. first ≡ find (leads_to cursor.old.movie claimed.now) (trials_at last (cursor.old.frame + 1))) }
    ensures at { OnOk result (IsAt cursor.old.movie (cursor.old.frame + 1) cursor.new) }
    ensures memory { OnErr result (0 < ram_length cursor.old.movie.cartridge) }
{
    let movie = cursor.movie();
    let frame = cursor.frame() + 1;
    let left_out = left_out(alloc, movie, cursor.state(), frame, last, claimed)?;
    advance(alloc, cursor, last)?;
    match left_out {
        Some(trial) => Ok(Some(trial)),
        None => twice(alloc, movie, cursor.state(), frame, last, claimed),
    }
}

/// Whether the frame after one has the same input as that.
fn repeats(movie: &Movie, frame: u32) -> bool
    requires first { 0 < frame }
    requires more { frame < length movie.now.inputs }
    ensures { IsTrue result → slice_get movie.now.inputs frame ≡ slice_get movie.now.inputs (frame - 1) }
{
    let _ = movie.frames();
    movie.input(frame) == movie.input(frame + 1)
}

/// The same, where none of the frame before leads to it, if that comes after `first`. So none is played
/// if both frames have the same input.
fn next_trial(
    alloc: Global,
    cursor: &mut Cursor<'_>,
    first: u32,
    last: u32,
    claimed: &State,
) -> Result<Option<Trial>, AllocError>
    requires claimed { IsTrue (is_of cursor.old.movie.cartridge claimed.now) }
    requires more { cursor.old.frame < last }
    requires within { last ≤ length cursor.old.movie.inputs }
    requires ends { IsSome (run cursor.old.movie cursor.old.movie.start 0 last) }
    requires before { first < cursor.old.frame → find (leads_to cursor.old.movie claimed.now) (trials_at last cursor.old.frame) ≡ None }
    ensures trial { IfOk result (λ next. next ≡ find (leads_to cursor.old.movie claimed.now) (trials_at last (cursor.old.frame + 1))) }
    ensures at { OnOk result (IsAt cursor.old.movie (cursor.old.frame + 1) cursor.new) }
    ensures memory { OnErr result (0 < ram_length cursor.old.movie.cartridge) }
{
    let frame = cursor.frame();
    if frame > first && repeats(cursor.movie(), frame) {
        advance(alloc, cursor, last)?;
        return Ok(None);
    }
    trial_of_next(alloc, cursor, last, claimed)
}

/// The first trial that leads to a claim, of the frames that follow a cursor's.
#[tactic(auto, using(crate::proofs::InputTrialLemmas::no_trials))]
fn first_found<P: Progress>(
    alloc: Global,
    mut cursor: Cursor<'_>,
    last: u32,
    claimed: &State,
    progress: &P,
) -> Result<Option<Trial>, AllocError>
    requires claimed { IsTrue (is_of cursor.movie.cartridge claimed.now) }
    requires order { cursor.frame ≤ last }
    requires within { last ≤ length cursor.movie.inputs }
    requires ends { IsSome (run cursor.movie cursor.movie.start 0 last) }
    ensures trial { IfOk result (λ found. found ≡ find (leads_to cursor.entry.movie claimed.now) (trials_after last cursor.entry.frame)) }
    ensures memory { OnErr result (0 < ram_length cursor.entry.movie.cartridge) }
{
    let first = cursor.frame();
    for before in first..last {
        match next_trial(alloc, &mut cursor, first, last, claimed)? {
            Some(trial) => return Ok(Some(trial)),
            None => progress.advance(),
        }
    }
    Ok(None)
}

/// A cursor at the claim before the first false one, or at the start.
fn before_claim<'a>(
    alloc: Global,
    movie: &'a Movie,
    number: u16,
    last: u32,
) -> Result<Cursor<'a>, AllocError>
    requires { HasVerdict movie.now (FalseCheckpoint number last) }
    ensures at { IfOk result (IsAt movie.now (frame_before movie.now number)) }
    ensures before { frame_before movie.now number < last }
    ensures memory { OnErr result (0 < ram_length movie.now.cartridge) }
{
    let _ = movie.frames();
    if number == 1 {
        return Cursor::at_start(alloc, movie);
    }
    let claim = movie.checkpoint(number - 1);
    Cursor::at_claim(alloc, movie, claim.frame, &claim.state)
}

/// Whether a segment of so many frames is tried.
fn is_tried(movie: &Movie, count: u32) -> bool
    ensures { result ≡ is_tried movie.now count }
{
    let count = u64::from(count);
    count * count <= LEAST_PLAYED.max(u64::from(movie.frames()))
}

/// The first trial that leads to the first false claim, if its segment is tried and the run has the
/// claimed state after no frame. The frames of the segment are told as a work of their own.
#[tactic(auto, using(crate::proofs::InputTrialLemmas::false_ends))]
pub(crate) fn first_trial<P: Progress>(
    alloc: Global,
    movie: &Movie,
    number: u16,
    last: u32,
    claimed: &State,
    place: Option<u32>,
    progress: &P,
) -> Result<Option<Trial>, AllocError>
    requires verdict { HasVerdict movie.now (FalseCheckpoint number last) }
    requires place { place ≡ first_frame_in movie.now claimed.now }
    requires cartridge { IsTrue (is_of movie.now.cartridge claimed.now) }
    ensures trial { IfOk result (λ trial. trial ≡ first_trial movie.now number last claimed.now) }
    ensures memory { OnErr result (0 < ram_length movie.now.cartridge) }
{
    let cursor = before_claim(alloc, movie, number, last)?;
    let count = last - cursor.frame();
    if place.is_some() || !is_tried(movie, count) {
        return Ok(None);
    }
    progress.begin(Work::Frames(count));
    let trial = first_found(alloc, cursor, last, claimed, progress);
    progress.end();
    trial
}

/// That the run with a frame's input so changed is in the claim of a number after a frame.
fn change_fact(
    alloc: Global,
    notation: Notation,
    trial: Trial,
    number: u16,
) -> Result<String, AllocError>
    ensures { IfOk result (λ text. string_bytes text ≡ change_fact notation trial.change trial.frame number trial.after) }
{
    let Trial { frame, after, .. } = trial;
    match (notation, trial.change) {
        (Notation::Lines, Change::LeftOut) => format!(in alloc;
            "without the input of frame {frame} the run is in claim {number} after frame {after}\n"
        ),
        (Notation::Lines, Change::Twice) => format!(in alloc;
            "with the input of frame {frame} twice the run is in claim {number} after frame {after}\n"
        ),
        (Notation::Json, Change::LeftOut) => format!(in alloc;
            ",\"input_left_out\":{frame},\"in_claim_after\":{after}"
        ),
        (Notation::Json, Change::Twice) => format!(in alloc;
            ",\"input_twice\":{frame},\"in_claim_after\":{after}"
        ),
    }
}

/// The same of a trial that leads to the claim of a number, if there is one.
pub(crate) fn trial_fact(
    alloc: Global,
    notation: Notation,
    number: u16,
    trial: Option<Trial>,
) -> Result<String, AllocError>
    ensures { IfOk result (λ text. string_bytes text ≡ trial_fact notation number trial) }
{
    match trial {
        Some(trial) => change_fact(alloc, notation, trial, number),
        None => Ok(String::new(alloc)),
    }
}
