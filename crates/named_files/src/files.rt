//! How the files of a command are opened.
ghost use Rattle.std.specs.Prelude.{◌≡◌, ◌⊎◌, IfErr, IfOk, Some, codes, false, true};
ghost use Rattle.std.specs.Fs.{IsFile, file_type};
ghost use Rattle.std.specs.List.{Contains};
ghost use Rattle.named_files.specs.FileErrors.{IsInputStream, IsOpened, Names, conflict};
ghost use Rattle.named_files.specs.declared.file_error.Reason.TheVariants.{IsInput};
ghost use Rattle.named_files.specs.declared.output.Before.TheVariants.{Bytes, NoFile, Nothing};

use crate::file_error::{FileError, Reason};
use crate::identity::Identity;
use crate::named::Named;
use crate::output::{Before, Output};
use crate::replacing::{Replacing, Whole};
use crate::{STANDARD_ERROR, STANDARD_OUTPUT};
use std::alloc::AllocError;
use std::fs::{self, Metadata, OpenFile, OpenOptions};
use std::io;
use std::os::unix::fs::FileTypeExt;
use std::rt::Files;

/// Opens an input. The error is the system's.
pub fn open<'a, R: Files>(rt: &R, name: &'a str) -> Result<Named<'a, R::File>, FileError<'a>>
    ensures ok { IfOk result (IsOpened name.now) }
    ensures err { IfErr result (Names name.now) }
{
    match fs::open(rt, name) {
        Ok(file) => Ok(Named::new(name, file)),
        Err(error) => Err(FileError::new(name, Reason::System(error))),
    }
}

/// Whether two names lead to one pipe.
fn is_one_pipe<R: Files>(rt: &R, name: &str, other: &str) -> bool {
    match (fs::metadata(rt, name), fs::metadata(rt, other)) {
        (Ok(pipe), Ok(other)) => {
            pipe.file_type().is_fifo() && Identity::new(&pipe) == Identity::new(&other)
        }
        _ => false,
    }
}

/// Opens an input of a command that has this output. If both are one pipe, which would wait for
/// itself, the error is about the output.
pub fn open_beside<'a, R: Files>(
    rt: &R,
    name: &'a str,
    output: &'a str,
) -> Result<Named<'a, R::File>, FileError<'a>>
    ensures ok { IfOk result (IsOpened name.now) }
    ensures err { IfErr result (λ error. Names name.now error ⊎ Names output.now error) }
{
    if is_one_pipe(rt, name, output) {
        return Err(FileError::new(output, Reason::IsInput));
    }
    open(rt, name)
}

/// Whether the standard stream of this name has a file of this identity.
fn is_stream<R: Files>(rt: &R, stream: &str, identity: Identity) -> bool {
    match fs::metadata(rt, stream) {
        Ok(metadata) => Identity::new(&metadata) == identity,
        Err(_) => false,
    }
}

/// Why a file is no output of a command, by whether it keeps what is written, is a pipe, and is an
/// input of the command, and by what keeps it from being one as it is a standard stream.
fn conflict(keeps: bool, is_pipe: bool, is_input: bool, stream: Option<Reason>) -> Option<Reason>
    ensures { result ≡ conflict keeps is_pipe is_input stream }
{
    if (keeps || is_pipe) && is_input {
        Some(Reason::IsInput)
    } else if keeps {
        stream
    } else {
        None
    }
}

/// The same of the file of this metadata and identity.
fn conflict_of(
    metadata: &Metadata,
    identity: Identity,
    inputs: &[Option<Identity>],
    stream: Option<Reason>,
) -> Option<Reason>
    ensures input { IsFile (file_type metadata.now) → Contains inputs.now (Some identity) → result ≡ Some IsInput }
    ensures other { IsFile (file_type metadata.now) → (Contains inputs.now (Some identity) → ⊥) → result ≡ stream }
{
    let file_type = metadata.file_type();
    let keeps = metadata.is_file() || file_type.is_block_device();
    let is_input = inputs.contains(&Some(identity));
    conflict(keeps, file_type.is_fifo(), is_input, stream)
}

/// What there was before an output was opened, by whether the command created it, and whether it is a
/// regular file.
fn before(is_new: bool, is_file: bool) -> Before
    ensures new { is_new ≡ true → result ≡ NoFile }
    ensures old { is_new ≡ false → is_file ≡ true → result ≡ Bytes }
    ensures none { is_new ≡ false → is_file ≡ false → result ≡ Nothing }
{
    match (is_new, is_file) {
        (true, _) => Before::NoFile,
        (false, true) => Before::Bytes,
        (false, false) => Before::Nothing,
    }
}

/// Opens a file to be written, which is created if it isn't there. The answer is also whether it is
/// known that it was created.
fn open_or_create<R: Files>(rt: &R, name: &str) -> io::Result<(R::File, bool)> {
    let created = OpenOptions::new()
        .write(true)
        .create_new(true)
        .open(rt, name);
    match created {
        Ok(file) => Ok((file, true)),
        Err(_) => {
            let file = OpenOptions::new().write(true).create(true).open(rt, name)?;
            Ok((file, false))
        }
    }
}

/// Opens an output, which is created if it isn't there. Terminals and other devices that keep nothing
/// may be inputs, and they and pipes standard streams, as well.
fn open_output<R: Files>(
    rt: &R,
    name: &str,
    inputs: &[Option<Identity>],
) -> Result<Output<R::File>, Reason> {
    let (file, is_new) = open_or_create(rt, name)?;
    let metadata = file.metadata()?;
    let identity = Identity::new(&metadata);
    let is_written = is_stream(rt, "/dev/stdout", identity)
        || is_stream(rt, "/dev/stderr", identity);
    let stream = is_written.then_some(Reason::IsOutput);
    match conflict_of(&metadata, identity, inputs, stream) {
        Some(reason) => Err(reason),
        None => Ok(Output::new(file, before(is_new, metadata.is_file()))),
    }
}

/// Opens an output, which is created if it isn't there. Its bytes stay until the first new ones are
/// written.
///
/// If it is one of the inputs of the command, which are open, or standard output or standard error,
/// nothing is touched, and the error says so. Terminals and other devices that keep nothing may be
/// those as well, and pipes standard streams.
pub fn create<'a, R: Files>(
    rt: &R,
    name: &'a str,
    inputs: &[Option<Identity>],
) -> Result<Output<R::File>, FileError<'a>>
    ensures { IfErr result (Names name.now) }
{
    match open_output(rt, name, inputs) {
        Ok(output) => Ok(output),
        Err(reason) => Err(FileError::new(name, reason)),
    }
}

/// What is written of the output of this name, which is removed if it was created and is dropped before
/// anything is written. From the first new bytes on it is whole or as it was, if it can be replaced.
/// `whole` says when it is whole. The error is that there is no memory for the names of the file and of
/// the one beside it.
pub fn replace<'a, 'b, R: Files + AllocGlobal>(
    rt: &'b R,
    name: &'a str,
    output: Output<R::File>,
    whole: Whole,
) -> Result<Named<'a, Replacing<'b, R>>, AllocError>
    ensures { IfOk result (IsOpened name.now) }
{
    match Replacing::new(rt, rt.alloc(), name, output, whole) {
        Ok(replacing) => Ok(Named::new(name, replacing)),
        Err(_) => Err(AllocError),
    }
}

/// Whether what goes to the standard stream of this name would come into this input, or through a pipe
/// back to it.
fn comes_into<R: Files>(rt: &R, stream: &str, input: Identity) -> bool {
    match fs::metadata(rt, stream) {
        Ok(metadata) => {
            let identity = Identity::new(&metadata);
            conflict_of(&metadata, identity, &[Some(input)], None).is_some()
        }
        Err(_) => false,
    }
}

/// Whether standard output and standard error can take a text of a command with this input, which is
/// open. If one of them is that input, the error says so, of standard error first; what keeps nothing
/// may be as in `create`.
pub fn check_streams<R: Files>(rt: &R, input: Identity) -> Result<(), FileError<'static>>
    ensures { IfErr result IsInputStream }
{
    if comes_into(rt, "/dev/stderr", input) {
        return Err(FileError::new(STANDARD_ERROR, Reason::ErrorIsInput));
    }
    if comes_into(rt, "/dev/stdout", input) {
        return Err(FileError::new(STANDARD_OUTPUT, Reason::OutputIsInput));
    }
    Ok(())
}

/// Why standard output takes no file of a command, if it doesn't: the text, which standard error gets
/// then, would come into the file.
fn conflict_of_standard_output<R: Files>(rt: &R) -> Result<(), Reason> {
    let metadata = fs::metadata(rt, "/dev/stdout")?;
    let identity = Identity::new(&metadata);
    let is_written = is_stream(rt, "/dev/stderr", identity);
    let stream = is_written.then_some(Reason::IsStandardError);
    match conflict_of(&metadata, identity, &[], stream) {
        Some(reason) => Err(reason),
        None => Ok(()),
    }
}

/// Whether standard output can take the file of a command, none of whose inputs it is. If it is standard
/// error, the error says so; what keeps nothing, and pipes, may be as in `create`.
pub fn check_standard_output<R: Files>(rt: &R) -> Result<(), FileError<'static>>
    ensures { IfErr result (Names (codes "standard output")) }
{
    match conflict_of_standard_output(rt) {
        Ok(()) => Ok(()),
        Err(reason) => Err(FileError::new(STANDARD_OUTPUT, reason)),
    }
}

/// Opens `/dev/null` in place of a standard stream that is closed, so that no file of a command gets
/// its number, and is read or written as the stream. It is open for what nobody does with the stream,
/// so each read of the one that is read fails, and each write of the others. The file has to stay
/// open.
pub fn null_if_closed<R: Files>(rt: &R, stream: &str, is_read: bool) -> Option<R::File> {
    if fs::metadata(rt, stream).is_ok() {
        return None;
    }
    OpenOptions::new()
        .read(!is_read)
        .write(is_read)
        .open(rt, "/dev/null")
        .ok()
}
