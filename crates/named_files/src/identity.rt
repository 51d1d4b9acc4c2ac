//! What tells files apart.
ghost use Rattle.std.specs.Prelude.{IfErr, codes};
ghost use Rattle.named_files.specs.FileErrors.{Names};

use crate::STANDARD_INPUT;
use crate::file_error::{FileError, Reason};
use crate::named::Named;
use std::fs::{self, Metadata, OpenFile};
use std::io;
use std::os::unix::fs::MetadataExt;
use std::rt::Files;

/// What tells a file from all others, under whatever names it is opened.
#[derive(Clone, Copy, PartialEq, Eq)]
pub struct Identity {
    device: u64,
    inode: u64,
}

impl Identity {
    pub(crate) fn new(metadata: &Metadata) -> Identity {
        Identity {
            device: metadata.dev(),
            inode: metadata.ino(),
        }
    }

    /// Of what is open under this name, of which the system answers this.
    fn of_metadata<'a>(
        metadata: io::Result<Metadata>,
        name: &'a str,
    ) -> Result<Identity, FileError<'a>>
        ensures { IfErr result (Names name.now) }
    {
        match metadata {
            Ok(metadata) => Ok(Identity::new(&metadata)),
            Err(error) => Err(FileError::new(name, Reason::System(error))),
        }
    }

    /// Of an open file. The error is the system's.
    pub fn of<'a, F: OpenFile>(file: &Named<'a, F>) -> Result<Identity, FileError<'a>>
        ensures { IfErr result (Names file.now.name.now) }
    {
        Identity::of_metadata(file.stream().metadata(), file.name())
    }

    /// Of standard input. The error is the system's.
    pub fn of_standard_input<R: Files>(rt: &R) -> Result<Identity, FileError<'static>>
        ensures { IfErr result (Names (codes "standard input")) }
    {
        Identity::of_metadata(fs::metadata(rt, "/dev/stdin"), STANDARD_INPUT)
    }
}
