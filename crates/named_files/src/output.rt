//! Files that are written.
ghost use Rattle.std.specs.Prelude.{◌≡◌, ◌≢◌, ◌+◌, ◌-◌, ◌^◌, IfOk, OnErr, OnOk, false, min, true};
ghost use Rattle.std.specs.Io.{WritesAtMost};
ghost use Rattle.std.specs.Io.KnownBytes.{WriteAppends};
ghost use Rattle.named_files.specs.declared.output.Before.TheVariants.{Nothing};

use crate::disk::sync;
use crate::identity::Identity;
use std::fs::{self, Metadata, OpenFile};
use std::io::{self, Write};
use std::rt::Files;

/// What there was before a file was written, as long as it matters.
#[derive(Clone, Copy, PartialEq, Eq)]
pub(crate) enum Before {
    /// Bytes, which may still follow the new ones.
    Bytes,
    /// No file: the command created it.
    NoFile,
    /// Nothing that matters, as of a device.
    Nothing,
}

/// A file that is written. Its bytes of before stay until new ones are written over them, and those
/// behind the new ones until it is cut: after a command that comes to no output it is as it was.
#[derive(Drop)]
pub struct Output<F> {
    file: F,
    before: Before,
    /// How many new bytes it has.
    length: u64,
    /// Whether it was changed since it was last synced.
    is_changed: bool,
}

impl<F: OpenFile> Output<F> {
    /// What is open as this file.
    pub(crate) fn new(file: F, before: Before) -> Output<F>
        ensures file { result.file ≡ file }
        ensures before { result.before ≡ before }
        ensures length { result.length ≡ 0 }
        ensures changed { result.is_changed ≡ false }
    {
        Output {
            file,
            before,
            length: 0,
            is_changed: false,
        }
    }

    /// What the system says of the file.
    pub(crate) fn metadata(&self) -> io::Result<Metadata> {
        self.file.metadata()
    }

    /// Ends the file after its new bytes, so that it is empty if there are none. From now on it stays,
    /// also if the command created it.
    pub(crate) fn end(&mut self) -> io::Result<()>
        ensures file { self.new.file ≡ self.old.file }
        ensures length { self.new.length ≡ self.old.length }
        ensures ok { OnOk result (self.new.before ≡ Nothing) }
        ensures err { OnErr result (self.new ≡ self.old) }
    {
        if self.before == Before::Bytes {
            self.file.set_len(self.length)?;
            self.is_changed = true;
        }
        self.before = Before::Nothing;
        Ok(())
    }

    /// Takes out the bytes of before that follow the new ones, if there are new ones.
    pub(crate) fn cut(&mut self) -> io::Result<()>
        ensures file { self.new.file ≡ self.old.file }
        ensures none { self.old.length ≡ 0 → self.new ≡ self.old }
        ensures ok { OnOk result (self.old.length ≢ 0 → self.new.before ≡ Nothing) }
        ensures err { OnErr result (self.new ≡ self.old) }
    {
        if self.length == 0 {
            return Ok(());
        }
        self.end()
    }

    /// It has new bytes, written by another way.
    pub(crate) fn change(&mut self)
        ensures file { self.new.file ≡ self.old.file }
        ensures before { self.new.before ≡ Nothing }
        ensures changed { self.new.is_changed ≡ true }
    {
        self.before = Before::Nothing;
        self.is_changed = true;
    }

    /// Removes the file of this name, if it is this one, the command created it, and nothing has come of
    /// it.
    pub(crate) fn remove_if_new<R: Files>(&self, rt: &R, name: &str) {
        if self.before != Before::NoFile {
            return;
        }
        if let (Ok(metadata), Ok(found)) = (self.metadata(), fs::symlink_metadata(rt, name)) {
            if found.len() == 0 && Identity::new(&found) == Identity::new(&metadata) {
                let _removed = fs::remove_file(rt, name);
            }
        }
    }

    /// Waits until the disk has its bytes, if it was changed.
    pub(crate) fn sync(&mut self) -> io::Result<()>
        ensures file { self.new.file ≡ self.old.file }
        ensures before { self.new.before ≡ self.old.before }
        ensures length { self.new.length ≡ self.old.length }
        ensures ok { OnOk result (self.new.is_changed ≡ false) }
    {
        if self.is_changed {
            sync(&self.file)?;
            self.is_changed = false;
        }
        Ok(())
    }
}

impl<F: Write + OpenFile> Write for Output<F> {
    ghost contents = { λ output. F.contents output.file };

    fn write(&mut self, buf: &[u8]) -> io::Result<usize>
        ensures bound { WritesAtMost result buf.now }
        ensures bytes { WriteAppends (F.contents self.old.file) (F.contents self.new.file) result buf.now }
        ensures length { IfOk result (λ n. self.new.length ≡ min (self.old.length + n) (2 ^ 64 - 1)) }
        ensures err { OnErr result (self.new.length ≡ self.old.length) }
        ensures before { self.new.before ≡ self.old.before }
        ensures changed { self.new.is_changed ≡ true }
    {
        self.is_changed = true;
        let n = self.file.write(buf)?;
        self.length = self.length.saturating_add(n as u64);
        Ok(n)
    }

    fn flush(&mut self) -> io::Result<()> {
        self.file.flush()
    }
}
