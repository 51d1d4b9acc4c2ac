//! Movies of parts that are known to make one.
ghost use Rattle.std.specs.Prelude.{◌≡◌};
ghost use Rattle.movie_file.specs.Movie.{IsMovie};

use crate::checkpoint::Checkpoint;
use crate::movie::Movie;
use crate::parts::MovieParts;
use movie_machine::{Cart, State};
use vcs_machine::Input;

/// The movie of a version with this cartridge, start state and checkpoints, and an input for each
/// frame. It takes no memory.
pub fn movie_of(
    version: u16,
    cart: Cart,
    start: State,
    inputs: Vec<Input>,
    checkpoints: Vec<Checkpoint>,
) -> Movie
    requires { IsMovie (record {
      version = version;
      cartridge = cart;
      start = start;
      inputs = inputs.items;
      checkpoints = checkpoints.items;
    }) }
    ensures { result ≡ record {
      version = version;
      cartridge = cart;
      start = start;
      inputs = inputs.items;
      checkpoints = checkpoints.items;
    } }
{
    Movie::from_parts(MovieParts {
        version,
        cart,
        start,
        inputs,
        checkpoints,
    })
}
