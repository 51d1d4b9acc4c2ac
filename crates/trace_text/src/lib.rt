//! What a line of a trace says of an instruction: where the beam was, the instruction's bytes, the same as
//! an assembler has it, the registers and the accesses.
#![tactic(auto)]

mod assembly;
mod line;
mod mnemonic;

pub use line::trace_line;
