//! Readers and writers that give and take little at a time, and fail.

use std::alloc::Global;
use std::io;
use std::io::{Read, Write};

/// A reader that gives zeros, at most 4096 a read, and counts its reads.
#[derive(Drop)]
pub(crate) struct Zeros {
    pub left: u64,
    pub reads: u64,
}

impl Zeros {
    /// A reader that gives so many zeros.
    pub(crate) fn new(left: u64) -> Zeros {
        Zeros { left, reads: 0 }
    }
}

impl Read for Zeros {
    fn read(&mut self, buf: &mut [u8]) -> io::Result<usize> {
        let n = self.left.min(4096).min(buf.len() as u64);
        self.left -= n;
        self.reads = self.reads.saturating_add(1);
        buf[..n as usize].fill(0);
        Ok(n as usize)
    }
}

/// A reader that gives bytes, 500 a read, and whose read of a given number fails.
#[derive(Drop)]
pub(crate) struct FailingReader<'a> {
    pub bytes: &'a [u8],
    pub left: u64,
}

impl Read for FailingReader<'_> {
    fn read(&mut self, buf: &mut [u8]) -> io::Result<usize> {
        if self.left == 0 {
            return Err(io::Error::from(io::ErrorKind::Other));
        }
        self.left -= 1;
        let n = buf.len().min(500);
        self.bytes.read(&mut buf[..n])
    }
}

/// A writer that takes one byte a write, and whose write of a given number fails.
#[derive(Drop)]
pub(crate) struct FailingWriter {
    pub taken: Vec<u8>,
    pub left: usize,
}

impl FailingWriter {
    /// A writer that takes so many bytes.
    pub(crate) fn new(alloc: Global, left: usize) -> FailingWriter {
        let taken = Vec::new(alloc);
        FailingWriter { taken, left }
    }
}

impl Write for FailingWriter {
    fn write(&mut self, buf: &[u8]) -> io::Result<usize> {
        if self.left == 0 || buf.is_empty() {
            return Err(io::Error::from(io::ErrorKind::Other));
        }
        self.left -= 1;
        self.taken.extend_from_slice(&buf[..1])?;
        Ok(1)
    }

    fn flush(&mut self) -> io::Result<()> {
        Ok(())
    }
}
