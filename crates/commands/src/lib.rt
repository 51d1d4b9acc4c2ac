//! The commands of the verifier, each from the bytes of its input to what it writes: a movie's
//! verdict and facts, what is in it, its inputs as text, what its run shows frame by frame or
//! instruction by instruction, the same movie in version 2, and movies that are made.
#![tactic(auto)]

mod answer;
mod asked_frames;
mod bad_text;
mod cartridge;
mod claims;
mod command;
mod conclusion;
mod convert;
mod cut;
mod cut_movie;
mod frames;
mod info;
mod inputs;
mod last_line;
mod laws;
mod line;
mod make;
mod make_run;
mod pictures;
mod refusal;
mod remark;
mod report;
mod request;
mod run_error;
mod status;
mod streams;
mod trace;
mod verdict_text;
mod verify;

pub use bad_text::BadText;
pub use command::run_command;
pub use conclusion::Conclusion;
pub use laws::law_of_cuts;
pub use line::Line;
pub use movie_file::{Progress, Work};
pub use picture_file::{WriteFault, ppm, rgb};
pub use remark::{Cause, Remark, WhichInput};
pub use replay_plan::{InputForm, Notation};
pub use request::Request;
pub use run_error::RunError;
pub use status::Status;
pub use streams::read_all;
pub use verify_pool::{Gate, NoGate, Ticket};
