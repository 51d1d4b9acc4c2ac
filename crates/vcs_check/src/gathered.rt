//! The file that a command writes, with a buffer before it if it gets pictures.
ghost use Rattle.std.specs.Prelude.{◌≡◌, ◌⊎◌, Err, IfErr, IfOk, IsOk, Ok};

use crate::answered::Answered;
use commands::RunError;
use std::alloc::{AllocError, Global};
use std::io::{self, BufWriter, Write};

/// What takes the bytes of a file.
#[derive(Drop)]
pub(crate) enum Gathered<W: Write + Drop> {
    /// The file itself.
    Whole(W),
    /// A buffer before it, which gathers small writes.
    Parts(BufWriter<W>),
}

impl<W: Write + Drop> Gathered<W> {
    /// What takes the bytes of this file, which come in small writes or not.
    pub(crate) fn new(alloc: Global, file: W, in_parts: bool) -> Result<Gathered<W>, AllocError> {
        if !in_parts {
            return Ok(Gathered::Whole(file));
        }
        match BufWriter::new(alloc, file) {
            Ok(buffer) => Ok(Gathered::Parts(buffer)),
            Err(_) => Err(AllocError),
        }
    }

    /// The same answer of a command, once the file has got what the buffer holds of it. That the last
    /// write failed shows only here.
    pub(crate) fn end(self, answer: Result<Answered, RunError>) -> Result<Answered, RunError>
        ensures ok { IfOk result (λ answered. answer ≡ Ok answered) }
        ensures err { IfErr result (λ error. (answer ≡ Err error) ⊎ ((error ≡ RunError.WriteFault) × IsOk answer)) }
    {
        match (self, answer) {
            (Gathered::Parts(mut buffer), Ok(answered)) => match buffer.flush() {
                Ok(()) => Ok(answered),
                Err(_) => Err(RunError::WriteFault),
            },
            (_, answer) => answer,
        }
    }
}

impl<W: Write + Drop> Write for Gathered<W> {
    fn write(&mut self, buf: &[u8]) -> io::Result<usize> {
        match self {
            Gathered::Whole(file) => file.write(buf),
            Gathered::Parts(buffer) => buffer.write(buf),
        }
    }

    fn flush(&mut self) -> io::Result<()> {
        match self {
            Gathered::Whole(file) => file.flush(),
            Gathered::Parts(buffer) => buffer.flush(),
        }
    }
}
