//! Which segments of a movie reach the claim at their end.
ghost use Rattle.std.specs.Prelude.{◌≡◌, ℕ, ◌+◌, ◌-◌, ◌<◌, ◌≤◌, length, map, slice_get, IfOk, IfSome, OnErr};
ghost use Rattle.std.specs.Prelude.{string_bytes, if◌then◌else◌};
ghost use Rattle.movie_machine.specs.Carts.{ram_length};
ghost use Rattle.replay_segments.specs.Cuts.{Fits};
ghost use Rattle.movie_report.specs.Private.FirstSigns.{IsFirst};
ghost use Rattle.movie_report.specs.Reasons.{breaks};
ghost use Rattle.movie_report.specs.Segments.{AreSigns, HasSign, character_of};
ghost use Rattle.movie_report.specs.Segments.{ends_with_checkpoint, sign_of, signs_text};

use crate::later_signs::later_signs;
use movie_file::{Movie, NoProgress, Progress};
use replay_plan::{Keep, Notation, Workers};
use replay_segments::{Cuts, Verdict, replay};
use std::alloc::{AllocError, Global};
use std::num::NonZeroU16;
use std::thread::Threads;

/// The signs in a line.
const LINE_SIGNS: usize = 64;

/// What is said of a segment, replayed from the state that its first cut claims.
#[derive(Clone, Copy)]
pub(crate) enum Sign {
    /// It reaches the state that is claimed at its end, if one is.
    Passes,
    /// It reaches another.
    Differs,
    /// One of its frames faults.
    Faults,
}

impl Sign {
    /// What a verdict says of its segment.
    fn of(verdict: &Verdict) -> Sign
        ensures { result ≡ sign_of verdict.now }
    {
        match verdict {
            Verdict::Genuine { .. } => Sign::Passes,
            Verdict::FalseCheckpoint { .. } => Sign::Differs,
            Verdict::Fault { .. } => Sign::Faults,
        }
    }

    /// Whether its segment doesn't reach the claim at its end.
    pub(crate) fn breaks(self) -> bool
        ensures { result ≡ breaks self }
    {
        !matches!(self, Sign::Passes)
    }

    /// As a report shows it.
    fn character(self) -> char
        ensures { result ≡ character_of self }
    {
        match self {
            Sign::Passes => '.',
            Sign::Differs => 'X',
            Sign::Faults => 'F',
        }
    }
}

/// Whether a checkpoint stands after a movie's last frame.
pub(crate) fn ends_with_checkpoint(movie: &Movie) -> bool
    ensures { result ≡ ends_with_checkpoint movie.now }
{
    let frames = movie.frames();
    let count = movie.checkpoints();
    if count == 0 {
        return false;
    }
    movie.checkpoint(count).frame == frames
}

/// How many segments between these cuts have a frame: all, or all but the last.
fn segments_in(movie: &Movie, cuts: &Cuts) -> u32
    ensures { result ≡ length cuts.now + 1 - (if ends_with_checkpoint movie.now then 1 else 0) }
{
    if ends_with_checkpoint(movie) {
        cuts.segments() - 1
    } else {
        cuts.segments()
    }
}

/// The sign of a segment, counted from 0, of a movie with these cuts. Memory is taken for the RAM of
/// the cartridge alone.
pub(crate) fn segment_sign(
    alloc: Global,
    movie: &Movie,
    cuts: &Cuts,
    number: u32,
) -> Result<Sign, AllocError>
    requires fit { Fits cuts.now movie.now }
    requires number { number < length cuts.now + 1 }
    ensures sign { IfOk result (HasSign movie.now cuts.now number) }
    ensures memory { OnErr result (0 < ram_length movie.now.cartridge) }
{
    let piece = replay(alloc, movie, cuts, Keep::NONE, number, &NoProgress);
    match piece.verdict() {
        Some(verdict) => Ok(Sign::of(verdict)),
        None => Err(AllocError),
    }
}

/// The signs of a movie's segments, in order, of which so many pass before the first that has
/// another sign, which is this. Those after it are replayed by workers.
pub(crate) fn signs_of<R: Threads + Sync, P: Progress + Sync>(
    rt: &R,
    alloc: Global,
    movie: &Movie,
    before: u32,
    sign: Sign,
    workers: Workers,
    progress: &P,
) -> Result<Vec<Sign>, AllocError>
    requires { IsFirst movie.now before sign }
    ensures signs { IfOk result (λ signs. AreSigns movie.now signs.items) }
    ensures len { IfOk result (λ signs. length movie.now.checkpoints ≤ length signs.items) }
{
    let cuts = Cuts::every(alloc, movie, NonZeroU16::MIN)?;
    let segments = segments_in(movie, &cuts);
    let mut signs = vec![in alloc; Sign::Passes; before as usize]?;
    signs.push(sign)?;
    let from = before + 1;
    let count = segments - from;
    let mut later = later_signs(rt, alloc, movie, &cuts, from, count, workers, progress)?;
    signs.append(&mut later)?;
    Ok(signs)
}

/// Signs as a report shows them.
fn characters(alloc: Global, signs: &[Sign]) -> Result<String, AllocError>
    ensures { IfOk result (λ text. string_bytes text ≡ map character_of signs.now) }
{
    let mut text = String::new(alloc);
    for sign in signs {
        text.push(sign.character())?;
    }
    Ok(text)
}

/// Lines of signs that have this name.
#[tactic(auto, using(crate::proofs::SignLemmas::signs_in_lines))]
fn lines(alloc: Global, name: &str, signs: &[Sign]) -> Result<String, AllocError>
    ensures { IfOk result (λ text. string_bytes text ≡ signs_text Notation.Lines name.now signs.now) }
{
    let mut text = String::new(alloc);
    for line in 0..signs.len().div_ceil(LINE_SIGNS) {
        let from = LINE_SIGNS * line;
        let to = signs.len().min(from + LINE_SIGNS);
        let characters = characters(alloc, &signs[from..to])?;
        let line = format!(in alloc; "{name}: {characters}\n")?;
        text.push_str(&line)?;
    }
    Ok(text)
}

/// Signs that have this name, which has no quotation mark, backslash or control character.
pub(crate) fn sign_facts(
    alloc: Global,
    notation: Notation,
    name: &str,
    signs: &[Sign],
) -> Result<String, AllocError>
    ensures { IfOk result (λ text. string_bytes text ≡ signs_text notation name.now signs.now) }
{
    match notation {
        Notation::Lines => lines(alloc, name, signs),
        Notation::Json => {
            let characters = characters(alloc, signs)?;
            format!(in alloc; ",\"{name}\":\"{characters}\"")
        }
    }
}
