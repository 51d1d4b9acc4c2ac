//! Reading an input to its end.
ghost use Rattle.std.specs.Prelude.{◌≡◌, ◌≤◌, IfErr, IfOk, length};
ghost use Rattle.movie_file.specs.Reading.{movie_at};
ghost use Rattle.commands.specs.RunErrors.{IsOfReading};
ghost use Rattle.input_limit.specs.Limits.{input_limit};
ghost use Rattle.commands.specs.Streams.{ReadsAll, IsTooLong};

use crate::run_error::RunError;
use input_limit::INPUT_LIMIT;
use movie_file::{Movie, MovieError, read_movie};
use refused::Refused;
use std::alloc::Global;
use std::io::Read;

/// One read for each byte of the longest input, and one that finds its end or a byte too many.
const MOST_READS: usize = INPUT_LIMIT + 1;

/// All bytes of an input, in at most 16,777,217 reads. Any error of a read is the end.
pub fn read_all<R: Read>(alloc: Global, reader: &mut R) -> Result<Vec<u8>, RunError>
    ensures all { IfOk result (λ bytes. ReadsAll (R.remaining reader.old) (R.remaining reader.new) bytes.items) }
    ensures few { IfOk result (λ bytes. length bytes.items ≤ input_limit) }
    ensures only { IfErr result IsOfReading }
    ensures too_long { result ≡ Err RunError.TooLong → IsTooLong (R.remaining reader.old) }
{
    let mut bytes = Vec::new(alloc);
    let mut chunk = [0; 4096];
    for _ in 0..MOST_READS {
        let n = match reader.read(&mut chunk) {
            Ok(n) => n,
            Err(_) => return Err(RunError::ReadFault),
        };
        if n == 0 {
            return Ok(bytes);
        }
        if INPUT_LIMIT - bytes.len() < n {
            return Err(RunError::TooLong);
        }
        match bytes.extend_from_slice(&chunk[..n]) {
            Ok(()) => {}
            Err(_) => return Err(RunError::NoMemory),
        }
    }
    unreachable!()
}

/// All bytes of an input, and the movie that they are, or why they are none.
pub(crate) fn read_input<R: Read>(
    alloc: Global,
    reader: &mut R,
) -> Result<(Vec<u8>, Result<Movie, MovieError>), RunError>
    ensures all { IfOk result (λ read. ReadsAll (R.remaining reader.old) (R.remaining reader.new) read.0.items) }
    ensures found { IfOk result (λ read. read.1 ≡ movie_at read.0.items) }
    ensures only { IfErr result IsOfReading }
    ensures too_long { result ≡ Err RunError.TooLong → IsTooLong (R.remaining reader.old) }
{
    let bytes = read_all(alloc, reader)?;
    match read_movie(alloc, &bytes) {
        Ok(movie) => Ok((bytes, Ok(movie))),
        Err(Refused::Of(error)) => Ok((bytes, Err(error))),
        Err(Refused::NoMemory) => Err(RunError::NoMemory),
    }
}
