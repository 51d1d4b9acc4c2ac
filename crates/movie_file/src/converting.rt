//! Conversion of movies to version 2.
ghost use Rattle.std.specs.Prelude.{◌≡◌, IfOk, IfErr};
ghost use Rattle.movie_file.specs.Conversion.{IsHandedBack, in_version_2};

use crate::movie::Movie;

/// Why a movie is not converted. It is handed back.
#[derive(Drop)]
pub enum ConvertError {
    /// The movie has version 2 already.
    AlreadyTwo(Movie),
    /// The movie has version 3, whose states are another machine's.
    AlreadyThree(Movie),
}

/// The movie of version 2 with the same cartridge, start state, inputs and checkpoints. Each bank
/// is 0.
///
/// Takes no memory. `AlreadyTwo` comes for every movie of version 2, and `AlreadyThree` for every
/// movie of version 3, whatever its cartridge.
pub fn convert(movie: Movie) -> Result<Movie, ConvertError>
    ensures converted { IfOk result (λ new. (movie.version ≡ 1) × (new ≡ in_version_2 movie)) }
    ensures refused { IfErr result (IsHandedBack movie) }
{
    match movie.version() {
        1 => Ok(movie.in_version_2()),
        2 => Err(ConvertError::AlreadyTwo(movie)),
        _ => Err(ConvertError::AlreadyThree(movie)),
    }
}
