//! Movie files: a cartridge, a start state, an input for each frame, and claimed states
//! (checkpoints), as bytes.
//!
//! The format is this project's own. Each movie has one spelling; `specs/Spelling` says what it
//! is, and `specs/Reading` which bytes are refused, and with which refusal.
#![tactic(auto)]

mod assembling;
mod checkpoint;
mod converting;
mod error;
mod format;
mod laws;
mod making;
mod movie;
mod parts;
mod progress;
mod reading;
mod record;
mod records;
mod writing;

pub use assembling::movie_of;
pub use checkpoint::Checkpoint;
pub use converting::{ConvertError, convert};
pub use error::{MakeError, MovieError};
pub use format::{
    INPUT_LENGTH, MOST_CHECKPOINTS, MOST_FRAMES, STATE_LENGTH, has_board, has_wide_length,
    header_length, is_length, most_frames, record_length,
};
pub use laws::{
    law_of_checkpoints, law_of_conversion, law_of_inputs, law_of_judgements, law_of_making,
    law_of_one_movie, law_of_one_spelling, law_of_reading, law_of_records, law_of_runs,
};
pub use making::{claim, copy_state, do_counts_fit, make_movie, version_made};
pub use movie::Movie;
pub use progress::{NoProgress, Progress, Work};
pub use reading::{read_inputs, read_movie};
pub use record::{
    BANK_BYTES_AT, BANK_NUMBERS, BANK_NUMBERS_AT, CHIP_RIOT_NUMBERS, CHIP_RIOT_NUMBERS_AT,
    CHIP_TIA_NUMBERS, CHIP_TIA_NUMBERS_AT, PROCESSOR_NUMBERS, RIOT_NUMBERS, RIOT_NUMBERS_AT,
    RecordNumber, TIA_NUMBERS, TIA_NUMBERS_AT, read_state, write_state,
};
pub use records::{have_one_record, state_record};
pub use writing::write_movie;
