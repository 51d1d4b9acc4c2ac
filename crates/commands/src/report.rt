//! The verdict of a movie, and facts about it.
ghost use Rattle.std.specs.Prelude.{◌≡◌, ◌≤◌, ◌++◌, List, ℕ, Err, IfErr, IfOk, IfSome, None, string_bytes};
ghost use Rattle.cart_board.specs.Known.{known_row};
ghost use Rattle.std.specs.Option.{option_copied};
ghost use Rattle.command_line.specs.Program.{program_name};
ghost use Rattle.commands.specs.Lines.{line_bytes};
ghost use Rattle.commands.specs.Report.{IsNoCartridge, Reports, ReportsMovie, line_in, status_with};
ghost use Rattle.commands.specs.RunErrors.{IsOfJudging};
ghost use Rattle.commands.specs.Verify.{verdict_line};

use crate::answer::Answer;
use crate::line::Line;
use crate::refusal::rom_refusal;
use crate::remark::WhichInput;
use crate::request::Request;
use crate::run_error::RunError;
use crate::status::Status;
use crate::verify::verdict_of;
use cart_board::KnownBoard;
use command_line::program_name;
use movie_file::{Movie, Progress, is_length};
use movie_report::Agreement;
use replay_plan::{Expectations, Notation, Plan};
use replay_segments::Verdict;
use std::alloc::{AllocError, Global};
use std::sync::Wait;
use std::thread::Threads;
use verify_pool::Gate;

/// What is written of a movie that has this verdict: its line before the lines of facts, or an object
/// of facts.
fn text_of(
    alloc: Global,
    movie: &Movie,
    verdict: &Verdict,
    notation: Notation,
    facts: String,
) -> Result<String, AllocError>
    ensures { IfOk result (λ text. string_bytes text
        ≡ line_in notation (line_bytes (verdict_line movie.now verdict.now)) ++ string_bytes facts) }
{
    match notation {
        Notation::Lines => {
            let mut text = Line::of_verdict(movie, verdict).text(alloc)?;
            text.push_str(&facts)?;
            Ok(text)
        }
        Notation::Json => Ok(facts),
    }
}

/// The status of a movie with this one by its verdict, and with what is expected of it.
fn status_with(agreement: Agreement, status: Status) -> Status
    ensures { result ≡ status_with agreement status }
{
    if status == Status::Done && agreement.disagrees() {
        return Status::Unexpected;
    }
    status
}

/// The verdict of the movie that these bytes are, by so many workers, and facts about it: the line of
/// the verdict and then a line for each fact, or an object of JSON. What is expected of it, beside the
/// bytes of a cartridge if there is one, is among them.
fn report_of<T: Threads + Wait + Sync + AllocGlobal, G: Gate + Progress + Sync>(
    request: &Request<'_, T, G>,
    bytes: &[u8],
    movie: &Movie,
    rom: Option<&[u8]>,
    expectations: &Expectations,
) -> Result<Answer, RunError>
    ensures answer { IfOk result (ReportsMovie request.now.line.now.notation program_name (option_copied rom.entry) expectations.now bytes.now movie.now) }
    ensures only { IfErr result IsOfJudging }
    ensures no_thread { result ≡ Err RunError.NoThread → 2 ≤ request.now.line.now.workers.number }
{
    let Request { rt, line, gate } = *request;
    let alloc = rt.alloc();
    let plan = Plan::without_pictures(line.workers);
    let verdict = verdict_of(rt, alloc, movie, &plan, gate)?;
    let agreement = Agreement::of(alloc, movie, rom, expectations)?;
    let facts = movie_report::report(
        rt,
        alloc,
        line.notation,
        program_name(),
        bytes,
        movie,
        &verdict,
        rom,
        agreement,
        line.workers,
        gate,
    )?;
    let status = status_with(agreement, Line::of_verdict(movie, &verdict).status());
    let text = text_of(alloc, movie, &verdict, line.notation, facts)?;
    Ok(Answer::of_text(alloc, status, text))
}

/// The ROM that is expected, if no cartridge can be it, on this board or on none.
fn no_cartridge<'a>(board: Option<KnownBoard>, rom: Option<&'a [u8]>) -> Option<&'a [u8]>
    ensures some { IfSome result (λ other.
        IsNoCartridge (known_row board) (option_copied rom.entry) other.now) }
    ensures none { result ≡ None → (other : List ℕ)
        → IsNoCartridge (known_row board) (option_copied rom.entry) other → ⊥ }
{
    match rom {
        Some(bytes) if !is_length(board, bytes.len()) => Some(bytes),
        _ => None,
    }
}

/// The same, where the ROM may be no cartridge. Then that is said, and the movie isn't judged.
pub(crate) fn report<T: Threads + Wait + Sync + AllocGlobal, G: Gate + Progress + Sync>(
    request: &Request<'_, T, G>,
    bytes: &[u8],
    movie: &Movie,
    rom: Option<&[u8]>,
    expectations: &Expectations,
) -> Result<Answer, RunError>
    ensures answer { IfOk result (Reports request.now.line.now.notation program_name (option_copied rom.entry) expectations.now bytes.now movie.now) }
    ensures only { IfErr result IsOfJudging }
    ensures no_thread { result ≡ Err RunError.NoThread → 2 ≤ request.now.line.now.workers.number }
{
    let board = movie.cart().board();
    match no_cartridge(board, rom) {
        Some(other) => {
            let alloc = request.rt.alloc();
            let notation = request.line.notation;
            Ok(rom_refusal(alloc, WhichInput::Second, notation, board, other)?)
        }
        None => report_of(request, bytes, movie, rom, expectations),
    }
}
