//! The limit that the system sets on the size of files. At the first byte beyond it the system ends
//! a program by a signal, which can't be caught here. So no such byte is written.
ghost use Rattle.std.specs.Prelude.{◌≡◌, ◌↔◌, ◌≤◌, ◌<◌, IfOk, IfSome, OnErr, Some, length, take, true};
ghost use Rattle.std.specs.Io.{WritesAtMost};
ghost use Rattle.std.specs.Io.KnownBytes.{Keeps, WriteAppends};
ghost use Rattle.named_files.specs.FileErrors.{HasRoom, left_after, within_quota};

use std::io::{self, Read, Write};
use std::rt::Files;
use std::{fmt, fs};

/// The system's number of the error that a file would be too large.
const TOO_LARGE: i32 = 27;

/// The bytes that a file may have, if there is a limit. A system that has no such file as is read
/// here says nothing of one.
fn size_limit<R: Files>(rt: &R) -> Option<u64> {
    let mut buffer = [0u8; 2048];
    let Ok(mut file) = fs::open(rt, "/proc/self/limits") else {
        return None;
    };
    let Ok(length) = file.read(&mut buffer) else {
        return None;
    };
    let Ok(text) = str::from_utf8(&buffer[..length]) else {
        return None;
    };
    for line in text.lines() {
        if let Some(numbers) = line.strip_prefix("Max file size") {
            return numbers.split_ascii_whitespace().next()?.parse::<u64>().ok();
        }
    }
    None
}

/// How many bytes may still be written to a file, if there is a limit.
#[derive(Clone, Copy)]
pub struct Quota {
    left: Option<u64>,
}

impl Quota {
    /// As many as anybody writes.
    pub const UNLIMITED: Quota = Quota { left: None };

    /// Of a regular file in which so many bytes come before.
    pub fn after<R: Files>(rt: &R, bytes: u64) -> Quota {
        Quota {
            left: size_limit(rt).map(|limit| limit.saturating_sub(bytes)),
        }
    }

    /// Of the file of this name, a standard stream that is written.
    fn of_stream<R: Files>(rt: &R, name: &str) -> Quota {
        match fs::metadata(rt, name) {
            Ok(metadata) if metadata.is_file() => Quota::after(rt, metadata.len()),
            _ => Quota::UNLIMITED,
        }
    }

    /// Of standard output.
    pub fn of_standard_output<R: Files>(rt: &R) -> Quota {
        Quota::of_stream(rt, "/dev/stdout")
    }

    /// Of standard error.
    pub fn of_standard_error<R: Files>(rt: &R) -> Quota {
        Quota::of_stream(rt, "/dev/stderr")
    }

    /// Takes the room of so many bytes, if it is there.
    fn takes(&mut self, bytes: usize) -> bool
        ensures room { (result ≡ true) ↔ HasRoom self.old.left bytes }
        ensures left { result ≡ true → self.new.left ≡ left_after bytes self.old.left }
    {
        let has_room = self.left.is_none_or(|left| bytes as u64 <= left);
        if has_room {
            self.wrote(bytes);
        }
        has_room
    }

    /// Whether there is room for a whole text.
    pub fn has_room<D: fmt::Display + Drop>(&self, text: D) -> bool
        ensures { result ≡ true → IfSome (D.output text) (λ bytes. HasRoom self.now.left (length bytes)) }
    {
        use std::fmt::Write as _;

        let mut quota = *self;
        write!(quota, "{text}").is_ok()
    }

    /// The first of some bytes, for which there is room: all, if all have room. If there is none it
    /// is the system's error.
    pub fn part<'b>(&self, bytes: &'b [u8]) -> io::Result<&'b [u8]>
        ensures part { IfOk result (λ part. part.now ≡ take (within_quota self.now.left (length bytes.now)) bytes.now) }
        ensures full { OnErr result ((self.now.left ≡ Some 0) × (0 < length bytes.now)) }
    {
        match self.left {
            None => Ok(bytes),
            Some(0) if !bytes.is_empty() => Err(io::Error::from_raw_os_error(TOO_LARGE)),
            Some(left) => match usize::try_from(left) {
                Ok(left) => Ok(&bytes[..bytes.len().min(left)]),
                Err(_) => Ok(bytes),
            },
        }
    }

    /// So many bytes were written.
    pub fn wrote(&mut self, bytes: usize)
        ensures { self.new.left ≡ left_after bytes self.old.left }
    {
        self.left = self.left.map(|left| left.saturating_sub(bytes as u64));
    }
}

/// A text that is only measured: it is written if there is room for it.
impl fmt::Write for Quota {
    ghost write_str_gives = { λ old bytes new. HasRoom old.left (length bytes) × (new.left ≡ left_after (length bytes) old.left) };

    fn write_str(&mut self, text: &str) -> fmt::Result {
        if self.takes(text.len()) {
            Ok(())
        } else {
            Err(fmt::Error)
        }
    }
}

/// A stream that is written up to a limit.
#[derive(Drop)]
pub struct Limited<W> {
    stream: W,
    quota: Quota,
}

impl<W> Limited<W> {
    pub fn new(stream: W, quota: Quota) -> Limited<W>
        ensures stream { result.stream ≡ stream }
        ensures quota { result.quota ≡ quota }
    {
        Limited { stream, quota }
    }
}

impl<W: Write> Write for Limited<W> {
    ghost contents = { λ limited. W.contents limited.stream };

    fn write(&mut self, buf: &[u8]) -> io::Result<usize>
        ensures bound { WritesAtMost result buf.now }
        ensures bytes { WriteAppends (W.contents self.old.stream) (W.contents self.new.stream) result buf.now }
        ensures most { IfOk result (λ n. IfSome self.old.quota.left (λ left. n ≤ left)) }
        ensures quota { IfOk result (λ n. self.new.quota.left ≡ left_after n self.old.quota.left) }
        ensures err { OnErr result (self.new.quota ≡ self.old.quota) }
    {
        let part = self.quota.part(buf)?;
        let bytes = self.stream.write(part)?;
        self.quota.wrote(bytes);
        Ok(bytes)
    }

    fn flush(&mut self) -> io::Result<()>
        ensures bytes { Keeps (W.contents self.old.stream) (W.contents self.new.stream) }
        ensures quota { self.new.quota ≡ self.old.quota }
    {
        self.stream.flush()
    }
}
