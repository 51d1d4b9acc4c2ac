//! The television interface adaptor (TIA) of the Atari 2600 as the chip does it, clock by clock. Its
//! sources are the Stella Programmer's Guide, Andrew Towers' notes on the TIA, and what was measured
//! in Stella 6.7; `specs/` states each rule with its source.
#![tactic(auto)]

mod ball;
mod bits;
mod calm;
mod chip;
mod collision;
mod colour;
mod copies;
mod counter;
mod effect;
mod lawful;
mod laws;
mod line;
mod lit_pixels;
mod missile;
mod motion;
mod numbers;
mod objects;
mod owed;
mod pixel;
mod player;
mod playfield;
mod read;
mod register;
mod sight;
mod state;
mod tia;
mod waiting;
mod write;

pub use ball::Ball;
pub use effect::Effect;
pub use laws::{
    law_of_calm_clocks, law_of_cycles, law_of_pulses, law_of_quiet_balls, law_of_quiet_missiles,
    law_of_quiet_pixels, law_of_quiet_players, law_of_records, law_of_tias_underway,
    law_of_waiting_writes,
};
pub use missile::{Missile, MissileCopy};
pub use numbers::{
    ball_copy_number, bit_number, missile_copy_number, moves_number, own_size_number,
    player_copy_number, seen_number, size_number,
};
pub use pixel::Pixel;
pub use player::{Player, PlayerCopy};
pub use register::{Register, WSYNC};
pub use state::TiaState;
pub use tia::Tia;
pub use waiting::Waiting;
