//! What is said of a movie that isn't genuine.
ghost use Rattle.std.specs.Prelude.{◌≡◌, ◌≤◌, length, IfOk, IsTrue, string_bytes};
ghost use Rattle.movie_file.specs.Record.{record_in};
ghost use Rattle.movie_machine.specs.Carts.{board_of};
ghost use Rattle.movie_machine.specs.States.{is_of};
ghost use Rattle.replay_segments.specs.RunStates.{left_at};
ghost use Rattle.replay_segments.specs.Verdicts.{HasVerdict};
ghost use Rattle.replay_segments.specs.declared.verdict.Verdict.TheVariants.{FalseCheckpoint};
ghost use Rattle.replay_segments.specs.declared.verdict.Verdict.TheVariants.{Fault};
ghost use Rattle.movie_report.specs.ClaimSigns.{claim_signs};
ghost use Rattle.movie_report.specs.Differences.{differences_text};
ghost use Rattle.movie_report.specs.FailureFacts.{beam_text, left_text, registers_text};
ghost use Rattle.movie_report.specs.FailureFacts.{HasFailure};
ghost use Rattle.movie_report.specs.Reasons.{reason_text, sentence_in};

use crate::claim_place::{claim_place, frame_fact};
use crate::claim_signs::claim_signs;
use crate::differences::{Comparison, differences};
use crate::input_trials::{first_trial, trial_fact};
use crate::reason::{reason, sentence};
use crate::segments::{Sign, sign_facts, signs_of};
use mos_cpu::Cpu;
use movie_file::{Movie, Progress, state_record};
use movie_machine::{Cart, State};
use replay_plan::{Notation, Workers};
use replay_segments::{LeftState, Verdict, checkpoints_before, found_state, left_state};
use std::alloc::{AllocError, Global};
use std::thread::Threads;
use vcs_machine::{FaultKind, HexByte, HexWord};

/// The numbers in which the first false checkpoint differs from the run, whose state there this is.
#[tactic(auto, using(crate::proofs::NumberLemmas::record_bytes))]
fn claim_facts(
    alloc: Global,
    notation: Notation,
    cart: &Cart,
    claimed: &State,
    found: &State,
) -> Result<String, AllocError>
    requires claimed { IsTrue (is_of cart.now claimed.now) }
    requires found { IsTrue (is_of cart.now found.now) }
    ensures { IfOk result (λ text. string_bytes text
        ≡ differences_text notation Comparison.Claim (board_of cart.now)
        (record_in cart.now claimed.now) (record_in cart.now found.now)) }
{
    let claimed = state_record(alloc, cart, claimed)?;
    let found = state_record(alloc, cart, found)?;
    let board = cart.board();
    differences(alloc, notation, Comparison::Claim, board, &claimed, &found)
}

/// The processor's registers.
fn registers(alloc: Global, notation: Notation, cpu: &Cpu) -> Result<String, AllocError>
    ensures { IfOk result (λ text. string_bytes text ≡ registers_text notation cpu.now) }
{
    let (a, x, y) = (HexByte(cpu.a), HexByte(cpu.x), HexByte(cpu.y));
    let (s, p, pc) = (HexByte(cpu.s), HexByte(cpu.p), HexWord(cpu.pc));
    match notation {
        Notation::Lines => format!(in alloc;
            "registers: A {a}, X {x}, Y {y}, S {s}, P {p}, PC {pc}\n"
        ),
        Notation::Json => format!(in alloc;
            ",\"registers\":{{\"A\":\"{a}\",\"X\":\"{x}\",\"Y\":\"{y}\",\"S\":\"{s}\",\"P\":\"{p}\",\"PC\":\"{pc}\"}}"
        ),
    }
}

/// The place of the beam.
fn beam(alloc: Global, notation: Notation, scanline: u64, cycle: u8) -> Result<String, AllocError>
    ensures { IfOk result (λ text. string_bytes text ≡ beam_text notation scanline cycle) }
{
    match notation {
        Notation::Lines => format!(in alloc; "beam: scanline {scanline}, cycle {cycle}\n"),
        Notation::Json => format!(in alloc; ",\"scanline\":{scanline},\"cycle\":{cycle}"),
    }
}

/// What the frame left that faults.
fn left_facts<P: Progress>(
    alloc: Global,
    notation: Notation,
    movie: &Movie,
    frame: u32,
    kind: FaultKind,
    progress: &P,
) -> Result<String, AllocError>
    requires { HasVerdict movie.now (Fault frame kind) }
    ensures { IfOk result (λ text. string_bytes text ≡ left_text notation (left_at movie.now frame)) }
{
    let Some(left) = left_state(alloc, movie, frame, kind, progress)? else {
        return Ok(String::new(alloc));
    };
    let LeftState { state, scanline } = left;
    let registers = registers(alloc, notation, &state.cpu())?;
    let beam = beam(alloc, notation, scanline, state.line_cycle())?;
    format!(in alloc; "{registers}{beam}")
}

/// The sentence, by the signs of all segments and of all claims.
fn reason_facts(
    alloc: Global,
    notation: Notation,
    movie: &Movie,
    number: u16,
    segments: &[Sign],
    claims: &[Sign],
) -> Result<String, AllocError>
    requires number { number ≤ length movie.now.checkpoints }
    requires segments { length movie.now.checkpoints ≤ length segments.now }
    requires claims { claims.now ≡ claim_signs movie.now }
    requires len { length claims.now ≡ length movie.now.checkpoints }
    ensures { IfOk result (λ text. string_bytes text ≡ reason_text notation (sentence_in movie.now number segments.now)) }
{
    let (from, to) = (usize::from(number), usize::from(movie.checkpoints()));
    let sentence = sentence(alloc, number, &segments[from..to], &claims[from..to])?;
    reason(alloc, notation, &sentence)
}

/// What is said after a false checkpoint.
#[tactic(auto, using(movie_file::proofs::StateLemmas::claim_of))]
fn false_facts<R: Threads + Sync, P: Progress + Sync>(
    rt: &R,
    alloc: Global,
    notation: Notation,
    movie: &Movie,
    number: u16,
    frame: u32,
    workers: Workers,
    progress: &P,
) -> Result<String, AllocError>
    requires { HasVerdict movie.now (FalseCheckpoint number frame) }
    ensures { IfOk result (λ text. HasFailure notation movie.now (FalseCheckpoint number frame) (string_bytes text)) }
{
    let _ = movie.frames();
    let found = found_state(alloc, movie, number, frame, progress)?;
    let claimed = &movie.checkpoint(number).state;
    let claim = claim_facts(alloc, notation, movie.cart(), claimed, &found)?;
    let frame_in = claim_place(alloc, movie, claimed, progress)?;
    let place = frame_fact(alloc, notation, frame_in)?;
    let before = u32::from(number) - 1;
    let signs = signs_of(rt, alloc, movie, before, Sign::Differs, workers, progress)?;
    let segments = sign_facts(alloc, notation, "segments", &signs)?;
    let found = claim_signs(alloc, movie, number, frame, &found, progress)?;
    let claims = sign_facts(alloc, notation, "claims", &found)?;
    let reason = reason_facts(alloc, notation, movie, number, &signs, &found)?;
    let trial = first_trial(alloc, movie, number, frame, claimed, frame_in, progress)?;
    let trial = trial_fact(alloc, notation, number, trial)?;
    format!(in alloc; "{claim}{place}{segments}{claims}{reason}{trial}")
}

/// What is said after a fault.
fn fault_facts<R: Threads + Sync, P: Progress + Sync>(
    rt: &R,
    alloc: Global,
    notation: Notation,
    movie: &Movie,
    frame: u32,
    kind: FaultKind,
    workers: Workers,
    progress: &P,
) -> Result<String, AllocError>
    requires { HasVerdict movie.now (Fault frame kind) }
    ensures { IfOk result (λ text. HasFailure notation movie.now (Fault frame kind) (string_bytes text)) }
{
    let left = left_facts(alloc, notation, movie, frame, kind, progress)?;
    let before = u32::from(checkpoints_before(movie, 0, frame));
    let signs = signs_of(rt, alloc, movie, before, Sign::Faults, workers, progress)?;
    let segments = sign_facts(alloc, notation, "segments", &signs)?;
    format!(in alloc; "{left}{segments}")
}

/// What went wrong, if anything did.
pub(crate) fn failure_facts<R: Threads + Sync, P: Progress + Sync>(
    rt: &R,
    alloc: Global,
    notation: Notation,
    movie: &Movie,
    verdict: &Verdict,
    workers: Workers,
    progress: &P,
) -> Result<String, AllocError>
    requires { HasVerdict movie.now verdict.now }
    ensures { IfOk result (λ text. HasFailure notation movie.now verdict.now (string_bytes text)) }
{
    match verdict {
        Verdict::Genuine { .. } => Ok(String::new(alloc)),
        Verdict::FalseCheckpoint { number, frame } => {
            false_facts(
                rt, alloc, notation, movie, *number, *frame, workers, progress,
            )
        }
        Verdict::Fault { frame, kind } => {
            fault_facts(rt, alloc, notation, movie, *frame, *kind, workers, progress)
        }
    }
}
