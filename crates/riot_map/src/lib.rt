//! The address map of an Atari 2600, its cartridge, and its RIOT: 128 bytes of memory, two ports
//! and a timer.
//!
//! The rules follow the Stella Programmer's Guide; if that is silent they are this project's
//! own, as the definitions in `specs/` say.
#![tactic(auto)]

mod address_map;
mod bits;
mod cart;
mod fields;
mod interval;
mod laws;
mod places;
mod port;
mod riot;
mod timer;

pub use address_map::place;
pub use cart::{BANK_LENGTH, BadCartSize, Cart};
pub use fields::RiotFields;
pub use laws::{
    law_of_lawful_riots, law_of_numbers, law_of_riot_cycles, law_of_riots, law_of_the_timer,
};
pub use places::Place;
pub use port::Port;
pub use riot::Riot;
