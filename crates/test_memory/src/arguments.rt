//! The arguments of a command line.

use crate::call_failure::{CallFailure, OUT_OF_MEMORY, right};
use command_line::{Command, CommandLine, LineFault, parse_line};
use refused::Refused;
use replay_plan::Keep;
use std::alloc::Global;

/// Words that are a command.
pub(crate) fn are_command(alloc: Global) -> Result<(), CallFailure> {
    match parse_line(alloc, &["vcs_check", "verify", "m", "--pictures", "p"]) {
        Ok(
            CommandLine {
                command: Command::Verify { keep, .. },
                output: Some(_),
                ..
            },
        ) => right(Keep::new(1, 600) == Ok(keep)),
        Err(Refused::NoMemory) => Err(OUT_OF_MEMORY),
        _ => Err(CallFailure::Wrong),
    }
}

/// Words that are no command.
pub(crate) fn are_usage(alloc: Global) -> Result<(), CallFailure> {
    match parse_line(alloc, &["vcs_check", "verify", "m", "--workers", "65"]) {
        Err(Refused::Of(LineFault::Usage { .. })) => Ok(()),
        Err(Refused::NoMemory) => Err(OUT_OF_MEMORY),
        _ => Err(CallFailure::Wrong),
    }
}

/// Words that ask for help.
pub(crate) fn are_help(alloc: Global) -> Result<(), CallFailure> {
    match parse_line(alloc, &["vcs_check", "--help"]) {
        Err(Refused::Of(LineFault::Help { .. })) => Ok(()),
        Err(Refused::NoMemory) => Err(OUT_OF_MEMORY),
        _ => Err(CallFailure::Wrong),
    }
}
