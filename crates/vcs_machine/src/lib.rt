//! The console: its states between frames, and what one frame does to a state.
#![tactic(auto)]

mod console;
mod devices;
mod executed;
mod fault;
mod fields;
mod frame_loop;
mod frames;
mod hexadecimal;
mod input;
mod laws;
mod logged;
mod mapped_cart;
mod picture;
mod pictures;
mod polls;
mod state;
mod stepping;
mod timing;

pub use devices::LINE_CYCLES;
pub use executed::{DataAccess, Executed};
pub use fault::{FaultKind, Halt};
pub use fields::StateFields;
pub use frames::{frame, halt};
pub use hexadecimal::{HexByte, HexWord};
pub use input::Input;
pub use laws::{
    law_of_banks, law_of_frame_lengths, law_of_one_stop, law_of_stepping, law_of_waits,
    law_of_whole_cycles,
};
pub use picture::{MOST_ROWS, Picture};
pub use pictures::Pictures;
pub use state::State;
pub use stepping::Stepping;
pub use timing::{TimedFrame, timed_frame};
