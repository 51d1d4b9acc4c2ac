//! The RIOT as the chip does it: memory, ports, and a timer that counts past zero.
#![tactic(auto)]

mod fields;
mod laws;
mod riot;
mod timer;
#[cfg(test)]
mod worked_riot;
#[cfg(test)]
mod worked_timer;

pub use fields::RiotFields;
pub use laws::law_of_records;
pub use riot::Riot;
pub use timer::{Timer, TimerFields};
