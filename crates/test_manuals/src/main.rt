//! Executes cases of the processor, the TIA and the RIOT, and compares what they leave with what
//! another emulator's processor left or with what the manuals say. It is a program of its own, and
//! no tests, so that the cases are data that can be laid beside a manual, and so that errors put
//! into bodies can be tried on them without a proof.
//!
//! Each line of `instructions.txt` is one instruction, in four parts with ` | ` between them: the
//! opcode and the registers before, the bytes that it uses, the registers and cycles after, and its
//! data accesses with their cycles. Numbers are hexadecimal but for cycles. `tia.txt` and
//! `riot.txt` say themselves how their cases are written. Lines that begin with `#` are none.
#![tactic(auto)]

mod case;
mod console;
mod event;
mod instruction;
mod log_bus;
mod registers;
mod row;
mod step;

use case::{difference, is_comment};
use instruction::Instruction;
use std::fs;
use std::io::{self, Print};

/// How many cases were tried, and how many differ.
#[derive(Clone, Copy)]
struct Count {
    tried: u64,
    different: u64,
}

impl Count {
    fn none() -> Count {
        Count {
            tried: 0,
            different: 0,
        }
    }

    fn add(&mut self, differs: bool) {
        self.tried = self.tried.saturating_add(1);
        if differs {
            self.different = self.different.saturating_add(1);
        }
    }
}

/// Tries the instructions of a text, and prints each that differs.
fn try_instructions<R: Print>(rt: &R, text: &str) -> io::Result<Count> {
    let mut count = Count::none();
    for line in text.lines().filter(|line| !line.starts_with('#')) {
        let is_met = Instruction::parse(line).is_some_and(|instruction| instruction.is_met());
        count.add(!is_met);
        if !is_met {
            println!(rt; "differs: {line}")?;
        }
    }
    Ok(count)
}

/// Tries the cases of a text, which stand between empty lines, and prints each that differs and
/// where.
fn try_cases<R: Print>(rt: &R, text: &str) -> io::Result<Count> {
    let mut count = Count::none();
    for case in text.split("\n\n").filter(|text| !is_comment(text)) {
        let found = difference(case);
        count.add(found.is_some());
        if let Some(step) = found {
            let title = case.lines().next().unwrap_or("");
            println!(rt; "differs: {title}: {step}")?;
        }
    }
    Ok(count)
}

fn print_count<R: Print>(rt: &R, count: Count, name: &str) -> io::Result<()> {
    let Count { tried, different } = count;
    println!(rt; "{tried} {name}, {different} differ")
}

fn main(rt: HostRuntime) -> io::Result<()> {
    let instructions = fs::read_to_string(&rt, "instructions.txt")?;
    let tia = fs::read_to_string(&rt, "tia.txt")?;
    let riot = fs::read_to_string(&rt, "riot.txt")?;
    print_count(&rt, try_instructions(&rt, &instructions)?, "instructions")?;
    print_count(&rt, try_cases(&rt, &tia)?, "TIA cases")?;
    print_count(&rt, try_cases(&rt, &riot)?, "RIOT cases")
}
