//! A program that tries each call which takes memory, reads or writes: with memory enough, or with
//! one growth of memory refused. It is a program, since the growth that is refused is chosen for a
//! whole process.
//!
//! A line of standard input names a call, and is answered by a line: the call is right, or failed with
//! out of memory or another error, or is wrong, which means any other value, or something written
//! where nothing was to be.
//!
//! Where nothing is refused, each call has to be right. `ci/refused-growths` refuses each growth of
//! each call. `ci/wrong-bodies` has bodies that keep their contracts and are wrong. They are tried
//! by a process whose thousandth growth is refused (`rt try --fail-alloc 1000`): at a line `CALL N`
//! the program makes so many growths before the call that it is the call's N-th one, and says
//! whether the call came so far.
#![tactic(auto)]

mod answer;
mod arguments;
mod board_movies;
mod call_failure;
mod command_calls;
mod consoles;
mod frames;
mod gate;
mod growths;
mod memory_first;
mod movies;
mod segments;
mod workers;
mod wrong_movies;

use call_failure::CallFailure;
use commands::InputForm;
use growths::{REFUSED, grow};
use std::alloc::Global;
use std::io::{self, Print, Read};
use std::process::ExitCode;
use std::sync::Wait;
use std::thread::Threads;
use wrong_movies::WrongMovie;

/// Tries a call about a movie or its segments; none has another name.
fn outcome_of_movies(alloc: Global, call: &str) -> Option<Result<(), CallFailure>> {
    Some(match call {
        "cartridge" => movies::is_cartridge(alloc),
        "read_movie" => movies::is_read(alloc),
        "write_movie" => movies::is_written(alloc),
        "make_movie" => movies::is_made(alloc),
        "read_movie_with_bad_state" => memory_first::is_bad_state(alloc),
        "read_inputs_with_bad_input" => memory_first::is_bad_input(alloc),
        "make_movie_with_fault" => memory_first::is_faulty_run(alloc),
        "frame_with_fault" => memory_first::is_faulty_frame(alloc),
        "cuts" => segments::is_cut(alloc),
        "replay" => segments::is_replayed(alloc),
        "replay_whole" => segments::is_replayed_whole(alloc),
        "replay_without_pictures" => segments::is_replayed_without_pictures(alloc),
        "gather" => segments::is_gathered(alloc, 2),
        "gather_without_pictures" => segments::is_gathered(alloc, 0),
        "gather_two_of_a_segment" => segments::is_gathered_of_three(alloc),
        _ => return None,
    })
}

/// Tries a call of workers; none has another name.
fn outcome_of_workers<R: Threads + Wait + Sync>(
    rt: &R,
    alloc: Global,
    call: &str,
) -> Option<Result<(), CallFailure>> {
    Some(match call {
        "desk" => workers::has_desk(alloc),
        "crew" => workers::is_worked_on(rt, alloc),
        "verify_by_one" => workers::is_judged_by(rt, alloc, 1),
        "verify_by_two" => workers::is_judged_by(rt, alloc, 2),
        "verify_by_eight" => workers::is_judged_by_eight(rt, alloc),
        "verify_with_gate" => workers::is_entered_before_replay(rt, alloc),
        "verify_600_pictures" => workers::is_judged_once(rt, alloc),
        "verify_600_pictures_of_one_cut" => workers::is_judged_once_of_one_cut(rt, alloc),
        _ => return None,
    })
}

/// Tries a call about a movie that is not genuine; none has another name.
fn outcome_of_wrong_movies<R: Threads + Wait + Sync>(
    rt: &R,
    alloc: Global,
    call: &str,
) -> Option<Result<(), CallFailure>> {
    use WrongMovie::{FalseCounter, FalseMemory, Fault};
    Some(match call {
        "gather_false_memory" => segments::is_gathered_as_wrong(alloc, FalseMemory),
        "gather_false_counter" => segments::is_gathered_as_wrong(alloc, FalseCounter),
        "verify_false_memory_by_one" => workers::is_judged_as_wrong(rt, alloc, FalseMemory, 1),
        "verify_false_memory_by_two" => workers::is_judged_as_wrong(rt, alloc, FalseMemory, 2),
        "verify_false_memory_by_eight" => workers::is_judged_as_wrong(rt, alloc, FalseMemory, 8),
        "verify_false_counter_by_one" => workers::is_judged_as_wrong(rt, alloc, FalseCounter, 1),
        "verify_false_counter_by_two" => workers::is_judged_as_wrong(rt, alloc, FalseCounter, 2),
        "verify_false_counter_by_eight" => workers::is_judged_as_wrong(rt, alloc, FalseCounter, 8),
        "verify_fault_by_one" => workers::is_judged_as_wrong(rt, alloc, Fault, 1),
        "verify_fault_by_two" => workers::is_judged_as_wrong(rt, alloc, Fault, 2),
        "verify_fault_by_eight" => workers::is_judged_as_wrong(rt, alloc, Fault, 8),
        _ => return None,
    })
}

/// Tries what a command does; none has another name.
fn outcome_of_commands<R: Threads + Wait + Sync + AllocGlobal>(
    rt: &R,
    alloc: Global,
    call: &str,
) -> Option<Result<(), CallFailure>> {
    Some(match call {
        "command" => arguments::are_command(alloc),
        "usage" => arguments::are_usage(alloc),
        "help" => arguments::are_help(alloc),
        "run" => command_calls::is_judged(rt, 1),
        "run_by_two" => command_calls::is_judged(rt, 2),
        "run_of_9_megabytes" => command_calls::is_refused(rt),
        "run_make" => command_calls::is_made(rt, InputForm::Bytes),
        "run_make_of_text" => command_calls::is_made(rt, InputForm::Text),
        "run_inputs" => command_calls::is_listed(rt, false),
        "run_inputs_with_numbers" => command_calls::is_listed(rt, true),
        "run_report" => command_calls::is_reported(rt, "vcs_check report m"),
        "run_report_by_two" => command_calls::is_reported(rt, "vcs_check report m --workers 2"),
        "run_report_of_false" => command_calls::is_reported_false(rt, "vcs_check report m --json"),
        "run_report_of_false_by_two" => command_calls::is_reported_false(
            rt,
            "vcs_check report m --json --workers 2",
        ),
        "run_verify_as_json" => command_calls::is_judged_as_json(rt),
        "run_refusal_as_json" => command_calls::is_refused_as_json(rt),
        "run_report_with_rom" => command_calls::is_compared(rt),
        "run_info" => command_calls::is_told(rt),
        "run_information" => command_calls::is_told_as_json(rt),
        "run_claims" => command_calls::is_claimed(rt),
        "run_cartridge" => command_calls::is_taken(rt),
        "run_convert" => command_calls::is_converted(rt),
        "run_frames" => frames::are_told(rt, false),
        "run_frames_with_digests" => frames::are_told(rt, true),
        "run_frames_as_json" => frames::are_told_as_json(rt),
        "run_frames_with_memory" => frames::are_told_with_memory(rt),
        "run_trace" => frames::is_traced(rt),
        "run_pictures" => command_calls::is_drawn(rt),
        "run_cut" => command_calls::is_cut_out(rt),
        "run_cut_with_fault" => memory_first::is_faulty_cut(rt),
        _ => return None,
    })
}

/// Tries a call; none has another name.
fn outcome_of<R: Threads + Wait + Sync + AllocGlobal>(
    rt: &R,
    alloc: Global,
    call: &str,
) -> Option<Result<(), CallFailure>> {
    if let Some(outcome) = outcome_of_movies(alloc, call) {
        return Some(outcome);
    }
    if let Some(outcome) = consoles::outcome(alloc, call) {
        return Some(outcome);
    }
    if let Some(outcome) = board_movies::outcome(rt, alloc, call) {
        return Some(outcome);
    }
    if let Some(outcome) = outcome_of_workers(rt, alloc, call) {
        return Some(outcome);
    }
    if let Some(outcome) = outcome_of_wrong_movies(rt, alloc, call) {
        return Some(outcome);
    }
    outcome_of_commands(rt, alloc, call)
}

/// Does what a line asks for, and prints the answer.
fn tell_outcome<R: Threads + Wait + Sync + AllocGlobal + Print>(
    rt: &R,
    line: &str,
) -> io::Result<()> {
    let alloc = rt.alloc();
    let (call, number) = match line.split_once(' ') {
        Some((call, number)) => (call, number.parse::<usize>().ok()),
        None => (line, None),
    };
    if let Some(number) = number {
        grow(alloc, REFUSED.saturating_sub(number));
    }
    let outcome = outcome_of(rt, alloc, call);
    // The refused growth is still to come.
    let later = if number.is_some() && !grow(alloc, REFUSED) {
        ", in fewer growths"
    } else {
        ""
    };
    match outcome {
        Some(Ok(())) => println!(rt; "{line}: right{later}"),
        Some(Err(failure)) => println!(rt; "{line}: {failure}{later}"),
        None => println!(rt; "{line}: no such call"),
    }
}

fn main(rt: HostRuntime) -> ExitCode {
    let mut room = [0u8; 2048];
    let Ok(length) = rt.stdin().read(&mut room) else {
        return ExitCode::FAILURE;
    };
    let Ok(text) = str::from_utf8(&room[..length]) else {
        return ExitCode::FAILURE;
    };
    for line in text.lines() {
        if tell_outcome(&rt, line).is_err() {
            return ExitCode::FAILURE;
        }
    }
    ExitCode::SUCCESS
}
