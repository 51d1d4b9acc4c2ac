//! The processor of `mos_cpu` by the cycle: each cycle of an instruction is one access of a bus.
#![tactic(auto)]

mod at_hand;
mod bus;
mod class;
mod finding;
mod held;
mod kind;
mod laws;
mod near;
mod processor;

pub use bus::{CycleBus, Purpose};
pub use laws::law_of_data_accesses;
pub use processor::{step, step_running};
