//! Files that are whole or as they were.
ghost use Rattle.std.specs.Prelude.{◌≡◌};

use crate::disk::sync;
use crate::identity::Identity;
use crate::output::{Before, Output};
use crate::size_limit::Quota;
use std::alloc::{AllocError, Global};
use std::fs::{self, Metadata, OpenFile, OpenOptions};
use std::io::{self, ErrorKind, Write};
use std::os::unix::fs::{MetadataExt, OpenOptionsExt};
use std::path::Path;
use std::rt::Files;

/// Whether the folder or its system refuses a new file, and nothing has failed: EACCES, EPERM or
/// EROFS.
fn is_refusal(error: io::Error) -> bool {
    matches!(
        error.kind(),
        ErrorKind::PermissionDenied | ErrorKind::ReadOnlyFilesystem
    )
}

/// Whether no file takes the place of another: because of a refusal, or as something is mounted on it.
fn is_bound(error: io::Error) -> bool {
    is_refusal(error)
        || matches!(
            error.kind(),
            ErrorKind::ResourceBusy | ErrorKind::CrossesDevices
        )
}

/// The most bytes of a name to which `.part1` can be added.
const LONGEST: usize = 249;

/// The folder of a path.
fn folder_of(file: &str) -> &str {
    match Path::new(file).parent() {
        Some(folder) if !folder.as_str().is_empty() => folder.as_str(),
        _ => ".",
    }
}

/// The path of the first file beside a file.
fn part_of(alloc: Global, file: &str) -> Result<String, AllocError> {
    match Path::new(file).file_name() {
        Some(name) if name.len() > LONGEST => {
            format!(in alloc; "{}/vcs_check.part1", folder_of(file))
        }
        _ => format!(in alloc; "{file}.part1"),
    }
}

/// The path of a file, and that of another beside it, which takes its place.
#[derive(Drop)]
pub(crate) struct Paths {
    file: String,
    /// The last character is a digit.
    part: String,
    /// Of the file. The other gets its permissions, and must have its owner and group.
    metadata: Metadata,
}

impl Paths {
    /// Those of the file that is open under this name, which stands for its path if that can't be
    /// found. There are none if nothing can take its place: if it is no regular file, has other names
    /// or none.
    fn of<R: Files>(
        rt: &R,
        alloc: Global,
        name: &str,
        metadata: Metadata,
    ) -> Result<Option<Paths>, AllocError> {
        if !metadata.is_file() || metadata.nlink() != 1 {
            return Ok(None);
        }
        let file = match rt.canonicalize(alloc, name) {
            Ok(file) => file.into_string(),
            Err(error) if error.kind() == ErrorKind::OutOfMemory => return Err(AllocError),
            Err(_) => String::from_str(alloc, name)?,
        };
        match fs::symlink_metadata(rt, file.as_str()) {
            Ok(found) if Identity::new(&found) == Identity::new(&metadata) => {}
            _ => return Ok(None),
        }
        let part = part_of(alloc, file.as_str())?;
        Ok(Some(Paths {
            file,
            part,
            metadata,
        }))
    }

    /// Makes the file beside, whose name must be free, and gives it the permissions of the file.
    fn make<R: Files>(&self, rt: &R) -> io::Result<R::File> {
        let file = OpenOptions::new()
            .write(true)
            .create_new(true)
            .mode(0o600)
            .open(rt, self.part.as_str())?;
        let answer = self.liken(&file);
        if let Err(error) = answer {
            self.remove(rt);
            return Err(error);
        }
        Ok(file)
    }

    /// Gives the file beside the permissions of the file. Another owner or group is an error.
    fn liken<F: OpenFile>(&self, file: &F) -> io::Result<()> {
        file.set_permissions(self.metadata.permissions())?;
        let metadata = file.metadata()?;
        if metadata.uid() == self.metadata.uid() && metadata.gid() == self.metadata.gid() {
            Ok(())
        } else {
            Err(io::Error::from(io::ErrorKind::PermissionDenied))
        }
    }

    /// Opens a file beside: FILE.part1, or as long as others have their names, up to FILE.part9. There
    /// is none where a new file is refused. Each other error stays one, and so does it if each of the
    /// names is taken.
    fn open<R: Files>(&mut self, rt: &R) -> io::Result<Option<R::File>> {
        for digit in b"123456789" {
            let _last = self.part.pop();
            if self.part.push(char::from(*digit)).is_err() {
                return Err(io::Error::from(ErrorKind::OutOfMemory));
            }
            match self.make(rt) {
                Ok(file) => return Ok(Some(file)),
                Err(error) if error.kind() == ErrorKind::AlreadyExists => {}
                Err(error) if is_refusal(error) => return Ok(None),
                Err(error) => return Err(error),
            }
        }
        Err(io::Error::from(ErrorKind::AlreadyExists))
    }

    /// Puts the file beside in the place of the file. The answer is whether the system does that.
    fn put<R: Files>(&self, rt: &R) -> io::Result<bool> {
        match fs::rename(rt, self.part.as_str(), self.file.as_str()) {
            Ok(()) => Ok(true),
            Err(error) if is_bound(error) => Ok(false),
            Err(error) => Err(error),
        }
    }

    /// Waits until the disk has the file's name, if its folder can be opened.
    fn sync_folder<R: Files>(&self, rt: &R) -> io::Result<()> {
        match fs::open(rt, folder_of(self.file.as_str())) {
            Ok(folder) => sync(&folder),
            Err(_) => Ok(()),
        }
    }

    fn remove<R: Files>(&self, rt: &R) {
        let _removed = fs::remove_file(rt, self.part.as_str());
    }
}

/// When an output is whole.
#[derive(Clone, Copy, PartialEq, Eq)]
pub enum Whole {
    /// When a write was taken to its end.
    Written,
    /// When it is flushed.
    Flushed,
}

/// An output whose bytes are written to a file beside it, which takes its place once it is whole. An
/// output that is dropped before stays as it was, and one that the command created is removed. One that
/// can't be replaced is written over, and cut after the new bytes.
pub struct Replacing<'a, R: Files> {
    rt: &'a R,
    output: Output<R::File>,
    whole: Whole,
    paths: Option<Paths>,
    /// Whether it is settled that there is a file beside, or none.
    is_begun: bool,
    /// What is open as the file beside.
    part: Option<R::File>,
    /// The digit of the file beside that was kept, since it could not be copied.
    kept: Option<char>,
    quota: Quota,
}

impl<'a, R: Files> Replacing<'a, R> {
    /// What is written of an output. The answer is an error only if memory was refused.
    pub(crate) fn new(
        rt: &'a R,
        alloc: Global,
        name: &str,
        output: Output<R::File>,
        whole: Whole,
    ) -> Result<Replacing<'a, R>, AllocError> {
        let metadata = output.metadata();
        let quota = match &metadata {
            Ok(metadata) if metadata.is_file() => Quota::after(rt, 0),
            _ => Quota::UNLIMITED,
        };
        let paths = match metadata {
            Ok(metadata) => Paths::of(rt, alloc, name, metadata),
            Err(_) => Ok(None),
        };
        let Ok(paths) = paths else {
            output.remove_if_new(rt, name);
            return Err(AllocError);
        };
        Ok(Replacing {
            rt,
            output,
            whole,
            paths,
            is_begun: false,
            part: None,
            kept: None,
            quota,
        })
    }

    /// Opens the file beside, if there is to be one and that isn't settled.
    fn begin(&mut self) -> io::Result<()> {
        if self.is_begun {
            return Ok(());
        }
        if let Some(paths) = &mut self.paths {
            self.part = paths.open(self.rt)?;
        }
        self.is_begun = true;
        Ok(())
    }

    /// Copies what was written beside over the file, and removes it once the disk has the copy.
    fn copy(&mut self, mut paths: Paths) -> io::Result<()> {
        let copied = fs::copy(self.rt, paths.part.as_str(), paths.file.as_str());
        self.output.change();
        let answer = match copied {
            Ok(_) => self.output.sync(),
            Err(error) => Err(error),
        };
        if answer.is_ok() {
            paths.remove(self.rt);
        } else {
            self.kept = paths.part.pop();
        }
        answer
    }

    /// Puts what was written beside in its place, and waits until the disk has it.
    fn replace(&mut self) -> io::Result<()> {
        let is_put = match (&self.paths, &self.part) {
            (Some(paths), Some(part)) => {
                sync(part)?;
                paths.put(self.rt)?
            }
            _ => return Ok(()),
        };
        let (Some(paths), Some(part)) = (self.paths.take(), self.part.take()) else {
            return Ok(());
        };
        if !is_put {
            return self.copy(paths);
        }
        self.output = Output::new(part, Before::Nothing);
        paths.sync_folder(self.rt)
    }

    /// Waits until the disk has what was written, in its place, and nothing behind it.
    fn settle(&mut self) -> io::Result<()> {
        if self.part.is_some() {
            return self.replace();
        }
        self.output.cut()?;
        self.output.sync()
    }

    /// Takes out the bytes of before, if none was written. A file that the command created stays.
    pub(crate) fn empty(&mut self) -> io::Result<()> {
        self.output.end()?;
        self.output.sync()
    }

    /// The digit of the file beside that was kept, if it could not be copied.
    pub(crate) fn kept(&self) -> Option<char>
        ensures { result ≡ self.now.kept }
    {
        self.kept
    }
}

impl<R: Files> Write for Replacing<'_, R> {
    fn write(&mut self, buf: &[u8]) -> io::Result<usize> {
        self.begin()?;
        let bytes = self.quota.part(buf)?;
        let n = match &mut self.part {
            Some(part) => part.write(bytes)?,
            None => self.output.write(bytes)?,
        };
        self.quota.wrote(n);
        if self.whole == Whole::Written && n == buf.len() {
            self.settle()?;
        }
        Ok(n)
    }

    fn flush(&mut self) -> io::Result<()> {
        self.settle()
    }
}

impl<R: Files> Drop for Replacing<'_, R> {
    fn drop(self) {
        let Replacing {
            rt,
            mut output,
            whole: _,
            paths,
            is_begun: _,
            part,
            kept: _,
            quota: _,
        } = self;
        // After a failed write nothing follows what was written.
        let _cut = output.cut();
        let Some(paths) = paths else {
            return;
        };
        if part.is_some() {
            paths.remove(rt);
        }
        output.remove_if_new(rt, paths.file.as_str());
    }
}
