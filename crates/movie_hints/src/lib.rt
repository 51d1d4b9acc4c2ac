//! What is wrong with the bytes of a refused file: which byte says what, and what was expected.
//!
//! The refusals and their order are those of `movie_file`. What a file looks like that is none of
//! its kind is this project's own.
#![tactic(auto)]

mod claims;
mod fit;
mod fit_rules;
mod hint;
mod inputs;
mod lengths;
mod look;
mod mismatch;
mod places;
mod plain_text;
mod refusals;
mod state_rules;
mod text_hint;
mod word;

pub use claims::hint_of_claims;
pub use fit::Fit;
pub use hint::Hint;
pub use inputs::{hint_of_counts, hint_of_inputs, hint_of_rom};
pub use look::Look;
pub use mismatch::{Expected, Field, Found, Mismatch};
pub use refusals::hint_of;
pub use text_hint::{TextHint, hint_of_storage, hint_of_text};
pub use word::Word;
