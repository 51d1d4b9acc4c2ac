//! Whether what was written is on the disk. A quota or a full disk may show only when that is asked.
ghost use Rattle.std.specs.Prelude.{◌≡◌, ◌↔◌, Err, IfErr, IsOk, OnOk, true};
ghost use Rattle.std.specs.IoError.{error_kind};
ghost use Rattle.named_files.specs.FileErrors.{IsNeverSynced};

use std::fs::{self, OpenFile, OpenOptions};
use std::io::{self, ErrorKind};
use std::rt::Files;

/// Whether the system can't sync a file of this kind, as a pipe, and so says nothing of its bytes.
fn is_never_synced(error: io::Error) -> bool
    ensures { (result ≡ true) ↔ IsNeverSynced (error_kind error) }
{
    matches!(
        error.kind(),
        ErrorKind::InvalidInput | ErrorKind::Unsupported | ErrorKind::ReadOnlyFilesystem
    )
}

/// What comes of an answer of the system to a sync.
fn settled(answer: io::Result<()>) -> io::Result<()>
    ensures ok { OnOk answer (IsOk result) }
    ensures never { IfErr answer (λ error. IsNeverSynced (error_kind error) → IsOk result) }
    ensures err { IfErr answer (λ error. (IsNeverSynced (error_kind error) → ⊥) → result ≡ Err error) }
{
    match answer {
        Err(error) if !is_never_synced(error) => Err(error),
        _ => Ok(()),
    }
}

/// Waits until the disk has what was written to a file, if it is one on a disk.
pub(crate) fn sync<F: OpenFile>(file: &F) -> io::Result<()> {
    settled(file.sync_all())
}

/// The same of standard output, which is opened a second time for it, if it is a file that has a name.
pub fn sync_standard_output<R: Files>(rt: &R) -> io::Result<()> {
    match fs::metadata(rt, "/dev/stdout") {
        Ok(metadata) if metadata.is_file() => {}
        _ => return Ok(()),
    }
    match OpenOptions::new().write(true).open(rt, "/dev/stdout") {
        Ok(file) => sync(&file),
        Err(_) => Ok(()),
    }
}
