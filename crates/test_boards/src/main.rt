//! Makes accesses to cartridges on each board, and compares what they read, select and store with
//! what the boards do. It is a program of its own, and no tests, so that the cases are data that
//! can be laid beside a board's description, and that other programs can write. `boards.txt` says
//! itself how its cases are written.
#![tactic(auto)]

mod case;
mod step;
mod trial;

use case::{difference, is_comment};
use std::{fs, io};

fn main(rt: HostRuntime) -> io::Result<()> {
    let text = fs::read_to_string(&rt, "boards.txt")?;
    let mut tried: u64 = 0;
    let mut different: u64 = 0;
    for case in text.split("\n\n").filter(|text| !is_comment(text)) {
        tried = tried.saturating_add(1);
        let found = difference(rt.alloc(), case)?;
        if let Some(step) = found {
            different = different.saturating_add(1);
            let title = case.lines().next().unwrap_or("");
            println!(rt; "differs: {title}: {step}")?;
        }
    }
    println!(rt; "{tried} board cases, {different} differ")
}
