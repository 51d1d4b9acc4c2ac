//! In which of a movie's claims its run is.
ghost use Rattle.std.specs.Prelude.{◌≡◌, ◌≤◌, ◌<◌, length, drop, map, slice_get, IfOk, IfSome, IsTrue, OnErr, OnOk, Some};
ghost use Rattle.movie_file.specs.Run.{run};
ghost use Rattle.movie_machine.specs.Carts.{ram_length};
ghost use Rattle.movie_machine.specs.States.{is_of};
ghost use Rattle.replay_segments.specs.Verdicts.{HasVerdict};
ghost use Rattle.replay_segments.specs.declared.verdict.Verdict.TheVariants.{FalseCheckpoint};
ghost use Rattle.movie_report.specs.ClaimSigns.{claim_sign, claim_signs, sign_in};
ghost use Rattle.movie_report.specs.Private.Standing.{StandsBefore};

use crate::segments::Sign;
use movie_file::{Checkpoint, Movie, Progress, Work, have_one_record};
use movie_machine::{Cart, State};
use refused::Refused;
use run_cursor::Cursor;
use std::alloc::{AllocError, Global};

/// Whether this state of a cartridge is the claimed one.
fn sign_in(cart: &Cart, claimed: &State, found: &State) -> Sign
    requires claimed { IsTrue (is_of cart.now claimed.now) }
    requires found { IsTrue (is_of cart.now found.now) }
    ensures { result ≡ sign_in cart.now claimed.now (Some found.now) }
{
    if have_one_record(cart, claimed, found) {
        Sign::Passes
    } else {
        Sign::Differs
    }
}

/// Whether the run is in a claim, to which a cursor goes, as long as no frame faults.
fn sign_at<P: Progress>(
    alloc: Global,
    cursor: &mut Cursor<'_>,
    claim: &Checkpoint,
    progress: &P,
) -> Result<Sign, AllocError>
    requires later { cursor.old.frame ≤ claim.now.frame }
    requires within { claim.now.frame ≤ length cursor.old.movie.inputs }
    requires cartridge { IsTrue (is_of cursor.old.movie.cartridge claim.now.state) }
    ensures sign { IfOk result (λ sign. sign ≡ claim_sign cursor.old.movie claim.now) }
    ensures at { OnOk result (StandsBefore cursor.old.movie claim.now.frame cursor.new) }
    ensures memory { OnErr result (0 < ram_length cursor.old.movie.cartridge) }
{
    let movie = cursor.movie();
    match cursor.advance_to(alloc, claim.frame, progress) {
        Ok(()) => Ok(sign_in(movie.cart(), &claim.state, cursor.state())),
        Err(Refused::Of(_)) => Ok(Sign::Faults),
        Err(Refused::NoMemory) => Err(AllocError),
    }
}

/// The same of each claim after so many. The cursor stands at the first of them.
#[tactic(auto, using(crate::proofs::ClaimSignLemmas::claim_by_claim))]
fn signs_from<P: Progress>(
    alloc: Global,
    mut cursor: Cursor<'_>,
    before: u16,
    progress: &P,
) -> Result<Vec<Sign>, AllocError>
    requires stands { IfSome (slice_get cursor.movie.checkpoints before) (λ c. StandsBefore cursor.movie c.frame cursor) }
    requires some { before < length cursor.movie.checkpoints }
    ensures { IfOk result (λ signs. signs.items ≡ map (claim_sign cursor.entry.movie) (drop before cursor.entry.movie.checkpoints)) }
{
    let movie = cursor.movie();
    let mut signs = Vec::new(alloc);
    for index in before..movie.checkpoints() {
        let claim = movie.checkpoint(index + 1);
        let sign = sign_at(alloc, &mut cursor, claim, progress)?;
        signs.push(sign)?;
    }
    Ok(signs)
}

/// The same, as one work, if a frame is left up to the last claim.
fn signs_to_the_last<P: Progress>(
    alloc: Global,
    cursor: Cursor<'_>,
    before: u16,
    progress: &P,
) -> Result<Vec<Sign>, AllocError>
    requires stands { IfSome (slice_get cursor.movie.checkpoints before) (λ c. StandsBefore cursor.movie c.frame cursor) }
    requires some { before < length cursor.movie.checkpoints }
    ensures { IfOk result (λ signs. signs.items ≡ map (claim_sign cursor.entry.movie) (drop before cursor.entry.movie.checkpoints)) }
{
    let movie = cursor.movie();
    let last = movie.checkpoint(movie.checkpoints()).frame;
    let left = last.saturating_sub(cursor.frame());
    if left == 0 {
        return signs_from(alloc, cursor, before, progress);
    }
    progress.begin(Work::Frames(left));
    let signs = signs_from(alloc, cursor, before, progress);
    progress.end();
    signs
}

/// In which of a movie's claims its run is. The one of this number is the first that it isn't in; after
/// that claim's frame it has this state. What follows is replayed, on the calling thread.
pub(crate) fn claim_signs<P: Progress>(
    alloc: Global,
    movie: &Movie,
    number: u16,
    frame: u32,
    found: &State,
    progress: &P,
) -> Result<Vec<Sign>, AllocError>
    requires verdict { HasVerdict movie.now (FalseCheckpoint number frame) }
    requires found { run movie.now movie.now.start 0 frame ≡ Some found.now }
    requires cartridge { IsTrue (is_of movie.now.cartridge found.now) }
    ensures signs { IfOk result (λ signs. signs.items ≡ claim_signs movie.now) }
    ensures len { IfOk result (λ signs. length signs.items ≡ length movie.now.checkpoints) }
{
    let _ = movie.frames();
    let before = number - 1;
    let cursor = Cursor::at_claim(alloc, movie, frame, found)?;
    let mut later = signs_to_the_last(alloc, cursor, before, progress)?;
    let mut signs = vec![in alloc; Sign::Passes; usize::from(before)]?;
    signs.append(&mut later)?;
    Ok(signs)
}
