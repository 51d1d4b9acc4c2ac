//! Plays frames on consoles by the chip's rules, and compares the states that they leave with what
//! was measured or worked out by hand. It is a program of its own, and no tests, so that the cases
//! are data that can be laid beside a page, and so that errors put into bodies can be tried on them
//! without a proof. `machine.txt` says itself how its cases are written.
#![tactic(auto)]

mod cartridge;
mod case;
mod number;
mod step;
mod trial;

use case::{difference, is_comment};
use std::{fs, io};

fn main(rt: HostRuntime) -> io::Result<()> {
    let text = fs::read_to_string(&rt, "machine.txt")?;
    let mut tried: u64 = 0;
    let mut different: u64 = 0;
    for case in text.split("\n\n").filter(|text| !is_comment(text)) {
        tried = tried.saturating_add(1);
        let found = difference(rt.alloc(), case)?;
        if let Some(step) = found {
            different = different.saturating_add(1);
            let title = case.lines().next().unwrap_or("");
            println!(rt; "differs: {title}: {step}")?;
        }
    }
    println!(rt; "{tried} cases of the chip's console, {different} differ")
}
