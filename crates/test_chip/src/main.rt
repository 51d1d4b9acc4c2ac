//! Executes cases of the TIA by the chip's rules, and compares what they show with what was measured
//! or worked out by hand. It is a program of its own, and no tests, so that the cases are data that
//! can be laid beside a manual, and so that errors put into bodies can be tried on them without a
//! proof. `rows.txt` says itself how its cases are written.
#![tactic(auto)]

mod case;
mod console;
mod registers;
mod row;
mod screen;
mod step;

use case::{difference, is_comment};
use std::fs;
use std::io::{self, Print};

/// Tries the cases of a text, which stand between empty lines, prints each that differs and where,
/// and then how many there were.
fn try_cases<R: Print>(rt: &R, text: &str) -> io::Result<()> {
    let mut tried: u64 = 0;
    let mut different: u64 = 0;
    for case in text.split("\n\n").filter(|text| !is_comment(text)) {
        let found = difference(case);
        tried = tried.saturating_add(1);
        if let Some(step) = found {
            different = different.saturating_add(1);
            let title = case.lines().next().unwrap_or("");
            println!(rt; "differs: {title}: {step}")?;
        }
    }
    println!(rt; "{tried} cases of the chip's TIA, {different} differ")
}

fn main(rt: HostRuntime) -> io::Result<()> {
    let rows = fs::read_to_string(&rt, "rows.txt")?;
    try_cases(&rt, &rows)
}
