//! What a judge asks after a verdict: facts of a movie, and of the place where its run went wrong.
#![tactic(auto)]

mod cartridge_differences;
mod checkpoints;
mod claim_facts;
mod claim_place;
mod claim_signs;
mod differences;
mod expectations;
mod facts;
mod failure_facts;
mod input_trials;
mod later_signs;
mod notation;
mod notes;
mod numbers;
mod object_head;
mod reason;
mod segments;

pub use claim_facts::claims;
pub use expectations::Agreement;
pub use facts::report;
pub use object_head::{FaultMembers, verdict_head};
