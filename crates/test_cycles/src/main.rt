//! Executes instructions a cycle at a time, and compares each access with what the manual lists. It
//! is a program of its own, and no tests, so that the cases are data that can be laid beside a
//! manual. `cycles.txt` says itself how its cases are written.
#![tactic(auto)]

mod access;
mod case;
mod log_bus;

use case::{is_comment, is_met};
use std::{fs, io};

fn main(rt: HostRuntime) -> io::Result<()> {
    let text = fs::read_to_string(&rt, "cycles.txt")?;
    let mut tried: u64 = 0;
    let mut different: u64 = 0;
    for case in text.split("\n\n").filter(|text| !is_comment(text)) {
        tried = tried.saturating_add(1);
        if !is_met(case) {
            different = different.saturating_add(1);
            let title = case.lines().next().unwrap_or("");
            println!(rt; "differs: {title}")?;
        }
    }
    println!(rt; "{tried} cases of bus cycles, {different} differ")
}
