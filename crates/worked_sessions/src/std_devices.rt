//! A reader and a writer of std that give and take a few bytes at a time, and are interrupted or fail at a given call.

use std::io;
use std::io::{ErrorKind, Read, Write};

/// Gives its bytes in steps.
#[derive(Drop)]
pub struct SteppingReader {
    pub bytes: Vec<u8>,
    /// How many bytes one read gives at the most.
    pub step: usize,
    /// How many bytes it has given.
    pub at: usize,
    pub calls: u64,
    /// The numbers of the read that is interrupted and of the one that fails, from 1; 0 for none.
    pub interrupted_at: u64,
    pub fails_at: u64,
}

impl Read for SteppingReader {
    fn read(&mut self, buf: &mut [u8]) -> io::Result<usize> {
        self.calls = self.calls.saturating_add(1);
        if self.calls == self.interrupted_at {
            return Err(io::Error::from(ErrorKind::Interrupted));
        }
        if self.calls == self.fails_at {
            return Err(io::Error::from(ErrorKind::BrokenPipe));
        }
        let start = self.at.min(self.bytes.len());
        let rest = &self.bytes[start..];
        let count = self.step.min(rest.len()).min(buf.len());
        buf[..count].copy_from_slice(&rest[..count]);
        self.at = start + count;
        Ok(count)
    }
}

/// Takes one byte at a time, and counts its writes and its flushes.
#[derive(Drop)]
pub struct SteppingWriter {
    pub bytes: Vec<u8>,
    pub writes: u64,
    pub flushes: u64,
    /// The numbers of the write and of the flush that fail, from 1; 0 for none.
    pub write_fails_at: u64,
    pub flush_fails_at: u64,
    /// How they fail.
    pub kind: ErrorKind,
}

impl Write for SteppingWriter {
    fn write(&mut self, buf: &[u8]) -> io::Result<usize> {
        self.writes = self.writes.saturating_add(1);
        if self.writes == self.write_fails_at {
            return Err(io::Error::from(self.kind));
        }
        let count = buf.len().min(1);
        self.bytes.extend_from_slice(&buf[..count])?;
        Ok(count)
    }

    fn flush(&mut self) -> io::Result<()> {
        self.flushes = self.flushes.saturating_add(1);
        if self.flushes == self.flush_fails_at {
            return Err(io::Error::from(self.kind));
        }
        Ok(())
    }
}
