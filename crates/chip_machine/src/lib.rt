//! The console as its chips do it: its states between frames, and what one frame does to a state. In
//! each cycle the processor accesses its bus, and every chip and the cartridge's board see that.
#![tactic(auto)]

mod console;
mod devices;
mod executed;
mod fields;
mod frame_loop;
mod frames;
mod left;
mod logged;
mod polls;
mod record;
mod state;
mod stepping;
mod timed_frame;

pub use executed::Executed;
pub use fields::StateFields;
pub use frames::frame;
pub use record::{read_state, write_state};
pub use state::State;
pub use stepping::Stepping;
pub use timed_frame::TimedFrame;
