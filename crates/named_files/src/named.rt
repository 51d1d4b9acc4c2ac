//! Files and standard streams with their names.
ghost use Rattle.std.specs.Prelude.{◌≡◌, ◌≢◌, ◌+◌, ◌-◌, ◌^◌, min, None, Some};
ghost use Rattle.std.specs.Prelude.{IfErr, IfOk, IfSome, IsSomeAnd, OnErr, OnOk};
ghost use Rattle.std.specs.Io.{ReadsAtMost, WritesAtMost};
ghost use Rattle.std.specs.Io.KnownBytes.{Keeps, ReadConsumes, WriteAppends};
ghost use Rattle.named_files.specs.FileErrors.{IsAbout, IsErrorOf, reason_at_length, reason_beside};
ghost use Rattle.named_files.specs.declared.file_error.Reason.TheVariants.{System, TookNothing};

use crate::file_error::{FileError, Reason};
use crate::replacing::Replacing;
use input_limit::INPUT_LIMIT;
use std::io::{self, ErrorKind, Read, Write};
use std::rt::Files;

/// A file or a standard stream with its name, which remembers how many bytes were read of it, and
/// why it failed last.
#[derive(Drop)]
pub struct Named<'a, S> {
    name: &'a str,
    stream: S,
    length: u64,
    reason: Option<Reason>,
}

impl<'a, S> Named<'a, S> {
    pub fn new(name: &'a str, stream: S) -> Named<'a, S>
        ensures name { result.name.now ≡ name.now }
        ensures stream { result.stream ≡ stream }
        ensures length { result.length ≡ 0 }
        ensures reason { result.reason ≡ None }
    {
        Named {
            name,
            stream,
            length: 0,
            reason: None,
        }
    }

    pub fn name(&self) -> &'a str
        ensures { result.now ≡ self.now.name.now }
    {
        self.name
    }

    pub fn stream(&self) -> &S
        ensures { result.now ≡ self.now.stream }
    {
        &self.stream
    }

    /// The name and the reason, if it failed.
    pub fn file_error(&self) -> Option<FileError<'a>>
        ensures error { IsErrorOf self.now result }
        ensures failed { IfSome self.now.reason (λ reason. IsSomeAnd result (IsAbout self.now.name.now reason)) }
        ensures whole { self.now.reason ≡ None → result ≡ None }
    {
        match self.reason {
            Some(reason) => Some(FileError::new(self.name, reason)),
            None => None,
        }
    }
}

impl<'a, R: Files> Named<'a, Replacing<'_, R>> {
    /// The name and the reason, if it failed, which may name the file beside it.
    pub fn output_error(&self) -> Option<FileError<'a>>
        ensures failed { IfSome self.now.reason (λ reason. IsSomeAnd result (IsAbout self.now.name.now (reason_beside self.now.stream.kept reason))) }
        ensures whole { self.now.reason ≡ None → result ≡ None }
    {
        let reason = match (self.reason?, self.stream.kept()) {
            (Reason::System(error), Some(digit)) => Reason::NotCopied(error, digit),
            (Reason::System(error), None) if error.kind() == ErrorKind::AlreadyExists => {
                Reason::NoFreeName
            }
            (reason, _) => reason,
        };
        Some(FileError::new(self.name, reason))
    }

    /// Takes out the bytes of before, if none was written.
    pub fn finish(&mut self) -> io::Result<()>
        ensures others { self.new ≡ record self.old { stream = self.new.stream; reason = self.new.reason } }
        ensures ok { OnOk result (self.new.reason ≡ self.old.reason) }
        ensures err { IfErr result (λ error. self.new.reason ≡ Some (System error)) }
    {
        let answer = self.stream.empty();
        if let Err(error) = &answer {
            self.reason = Some(Reason::System(*error));
        }
        answer
    }
}

impl<S: Read> Read for Named<'_, S> {
    ghost remaining = { λ named. S.remaining named.stream };

    fn read(&mut self, buf: &mut [u8]) -> io::Result<usize>
        ensures bound { ReadsAtMost result buf.new }
        ensures bytes { ReadConsumes (S.remaining self.old.stream) (S.remaining self.new.stream) result buf.new }
        ensures name { self.new.name ≡ self.old.name }
        ensures length { IfOk result (λ n. self.new.length ≡ min (self.old.length + n) (2 ^ 64 - 1)) }
        ensures ok { IfOk result (λ n. self.new.reason ≡ reason_at_length (self.old.length + n) self.old.reason) }
        ensures err { IfErr result (λ error. self.new.reason ≡ Some (System error)) }
        ensures kept { OnErr result (self.new.length ≡ self.old.length) }
    {
        let answer = self.stream.read(buf);
        match &answer {
            Ok(n) => {
                self.length = self.length.saturating_add(*n as u64);
                if self.length > INPUT_LIMIT as u64 {
                    self.reason = Some(Reason::TooLong);
                }
            }
            Err(error) => self.reason = Some(Reason::System(*error)),
        }
        answer
    }
}

impl<S: Write> Write for Named<'_, S> {
    ghost contents = { λ named. S.contents named.stream };

    fn write(&mut self, buf: &[u8]) -> io::Result<usize>
        ensures bound { WritesAtMost result buf.now }
        ensures bytes { WriteAppends (S.contents self.old.stream) (S.contents self.new.stream) result buf.now }
        ensures others { self.new ≡ record self.old { stream = self.new.stream; reason = self.new.reason } }
        ensures none { IfOk result (λ n. n ≡ 0 → self.new.reason ≡ Some TookNothing) }
        ensures some { IfOk result (λ n. n ≢ 0 → self.new.reason ≡ self.old.reason) }
        ensures err { IfErr result (λ error. self.new.reason ≡ Some (System error)) }
    {
        let answer = self.stream.write(buf);
        match &answer {
            Ok(0) => self.reason = Some(Reason::TookNothing),
            Ok(_) => {}
            Err(error) => self.reason = Some(Reason::System(*error)),
        }
        answer
    }

    fn flush(&mut self) -> io::Result<()>
        ensures bytes { Keeps (S.contents self.old.stream) (S.contents self.new.stream) }
        ensures others { self.new ≡ record self.old { stream = self.new.stream; reason = self.new.reason } }
        ensures ok { OnOk result (self.new.reason ≡ self.old.reason) }
        ensures err { IfErr result (λ error. self.new.reason ≡ Some (System error)) }
    {
        let answer = self.stream.flush();
        if let Err(error) = &answer {
            self.reason = Some(Reason::System(*error));
        }
        answer
    }
}
