//! Devices over std's readers and writers.
//!
//! std's contracts don't say what a flush does, so a sink keeps for itself whether it has taken bytes since its writer was last flushed.
ghost use Rattle.std.specs.Prelude.{◌≡◌, false};

use crate::device::{DeviceFault, Sink, Source};
use std::io::{Read, Write};

/// A source over a reader of std.
#[derive(Drop)]
pub struct ReadFrom<R> {
    pub reader: R,
    /// How many reads it has answered.
    pub reads: u64,
    /// Whether it has answered `Failed`.
    pub failed: bool,
}

impl<R: Read> ReadFrom<R> {
    /// A source that has answered no read.
    pub fn new(reader: R) -> Self
        ensures reads { result.reads ≡ 0 }
        ensures failed { result.failed ≡ false }
        ensures reader { result.reader ≡ reader }
    {
        ReadFrom {
            reader,
            reads: 0,
            failed: false,
        }
    }
}

impl<R: Read> Source for ReadFrom<R> {
    ghost remaining = { λ s. R.remaining s.reader };

    ghost reads = { λ s. s.reads };

    ghost failed = { λ s. s.failed };

    /// One read of std's reader.
    ///
    /// # Errors
    ///
    /// `Interrupted` where std's reader says so, and else `Failed`, which is remembered.
    fn read(&mut self, buf: &mut [u8]) -> Result<usize, DeviceFault> {
        self.reads += 1;
        match self.reader.read(buf) {
            Ok(count) => Ok(count),
            Err(error) => match DeviceFault::of(&error) {
                DeviceFault::Interrupted => Err(DeviceFault::Interrupted),
                DeviceFault::Failed => {
                    self.failed = true;
                    Err(DeviceFault::Failed)
                }
            },
        }
    }
}

/// A sink over a writer of std. A write that takes no byte has failed, and so has one that was interrupted.
#[derive(Drop)]
pub struct WriteTo<W> {
    pub writer: W,
    /// Whether it has answered `Failed`.
    pub failed: bool,
    /// Whether it has taken bytes since its writer was last flushed.
    pub unflushed: bool,
}

impl<W: Write> WriteTo<W> {
    /// A sink that hasn't failed and has taken no bytes.
    pub fn new(writer: W) -> Self
        ensures failed { result.failed ≡ false }
        ensures unflushed { result.unflushed ≡ false }
        ensures writer { result.writer ≡ writer }
    {
        WriteTo {
            writer,
            failed: false,
            unflushed: false,
        }
    }
}

impl<W: Write> Sink for WriteTo<W> {
    ghost contents = { λ s. W.contents s.writer };

    ghost failed = { λ s. s.failed };

    ghost unflushed = { λ s. s.unflushed };

    /// One write of std's writer.
    ///
    /// # Errors
    ///
    /// `Failed` where std's writer gives an error, of whatever kind, or takes none of the bytes; it is remembered.
    fn write(&mut self, buf: &[u8]) -> Result<usize, DeviceFault> {
        match self.writer.write(buf) {
            Ok(count) if count > 0 || buf.is_empty() => {
                self.unflushed |= count > 0;
                Ok(count)
            }
            _ => {
                self.failed = true;
                Err(DeviceFault::Failed)
            }
        }
    }

    /// One flush of std's writer.
    ///
    /// # Errors
    ///
    /// `Failed` where std's writer gives an error; it is remembered, and so is that bytes are held back, if some were.
    fn flush(&mut self) -> Result<(), DeviceFault> {
        match self.writer.flush() {
            Ok(()) => {
                self.unflushed = false;
                Ok(())
            }
            Err(_) => {
                self.failed = true;
                Err(DeviceFault::Failed)
            }
        }
    }
}
