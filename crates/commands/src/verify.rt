//! The verdict of a movie.
ghost use Rattle.std.specs.Prelude.{◌≡◌, ◌≤◌, Err, IfErr, IfOk};
ghost use Rattle.replay_segments.specs.Verdicts.{IsVerdict};
ghost use Rattle.commands.specs.RunErrors.{IsOfJudging};
ghost use Rattle.commands.specs.Verify.{Verifies};

use crate::answer::Answer;
use crate::run_error::RunError;
use movie_file::{Movie, Progress};
use refused::Refused;
use replay_plan::{Notation, Plan};
use replay_segments::{Cuts, Verdict};
use std::alloc::Global;
use std::sync::Wait;
use std::thread::Threads;
use verify_pool::{Gate, NoThread};

/// The verdict of a movie, by the workers of a plan. It is a work.
pub(crate) fn verdict_of<T: Threads + Wait + Sync, G: Gate + Progress + Sync>(
    rt: &T,
    alloc: Global,
    movie: &Movie,
    plan: &Plan,
    gate: &G,
) -> Result<Verdict, RunError>
    ensures verdict { IfOk result (λ verdict. IsVerdict movie.now plan.now.keep verdict) }
    ensures only { IfErr result IsOfJudging }
    ensures no_thread { result ≡ Err RunError.NoThread → 2 ≤ plan.now.workers.number }
{
    let Ok(cuts) = Cuts::every(alloc, movie, plan.every) else {
        return Err(RunError::NoMemory);
    };
    match verify_pool::verify(rt, alloc, movie, &cuts, plan.workers, plan.keep, gate) {
        Ok(verdict) => Ok(verdict),
        Err(Refused::NoMemory) => Err(RunError::NoMemory),
        Err(Refused::Of(NoThread)) => Err(RunError::NoThread),
    }
}

/// The line or the object of a movie's verdict, and the kept pictures of a genuine movie.
pub(crate) fn verify<T: Threads + Wait + Sync, G: Gate + Progress + Sync>(
    rt: &T,
    alloc: Global,
    movie: &Movie,
    plan: &Plan,
    notation: Notation,
    gate: &G,
) -> Result<Answer, RunError>
    ensures answer { IfOk result (Verifies notation plan.now.keep movie.now) }
    ensures only { IfErr result IsOfJudging }
    ensures no_thread { result ≡ Err RunError.NoThread → 2 ≤ plan.now.workers.number }
{
    let verdict = verdict_of(rt, alloc, movie, plan, gate)?;
    Ok(Answer::of_verdict(alloc, notation, movie, verdict)?)
}
