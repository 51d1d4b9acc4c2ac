//! The cartridge of a movie.
ghost use Rattle.std.specs.Prelude.{◌≡◌, IfOk};
ghost use Rattle.commands.specs.Cartridge.{cartridge_answer};

use crate::answer::Answer;
use crate::line::Line;
use movie_file::Movie;
use std::alloc::{AllocError, Global};

/// The bytes of a movie's cartridge, lowest address first, and how many they are.
pub(crate) fn cartridge(alloc: Global, movie: &Movie) -> Result<Answer, AllocError>
    ensures { IfOk result (λ answer. answer ≡ cartridge_answer movie.now) }
{
    let cart = movie.cart();
    let bytes = cart.len();
    let line = Line::Cartridge { bytes };
    Answer::of_bytes(alloc, Vec::from_slice(alloc, cart.bytes())?, line)
}
