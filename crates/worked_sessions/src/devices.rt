//! A source of bytes and a sink, each of which may fail at a given call.
ghost use Rattle.std.specs.Prelude.{◌≡◌, false, None, IfOk};

use ls_server::{DeviceFault, Sink, Source};
use std::alloc::{AllocError, Global};
use std::sync::Arc;
use std::sync::atomic::{AtomicU64, Ordering};

/// Gives its bytes, as many as a read takes.
#[derive(Drop)]
pub struct Bytes {
    bytes: Vec<u8>,
    // How many it has given.
    at: usize,
    /// How many reads it has answered.
    pub reads: u64,
    // The number of the read that fails, from 1; 0 for none.
    fails_at: u64,
    /// Whether it has answered `Failed`.
    pub failed: bool,
}

impl Bytes {
    pub fn new(bytes: Vec<u8>, fails_at: u64) -> Bytes
        ensures reads { result.reads ≡ 0 }
        ensures failed { result.failed ≡ false }
    {
        Bytes {
            bytes,
            at: 0,
            reads: 0,
            fails_at,
            failed: false,
        }
    }
}

impl Source for Bytes {
    ghost remaining = { λ source. None };

    ghost reads = { λ source. source.reads };

    ghost failed = { λ source. source.failed };

    fn read(&mut self, buf: &mut [u8]) -> Result<usize, DeviceFault> {
        self.reads += 1;
        if self.reads == self.fails_at {
            self.failed = true;
            return Err(DeviceFault::Failed);
        }
        let start = self.at.min(self.bytes.len());
        let rest = &self.bytes[start..];
        let count = rest.len().min(buf.len());
        buf[..count].copy_from_slice(&rest[..count]);
        self.at = start + count;
        Ok(count)
    }
}

/// Whether the bytes have these among them.
fn has(bytes: &[u8], wanted: &[u8]) -> bool {
    for at in 0..bytes.len() {
        if bytes[at..].starts_with(wanted) {
            return true;
        }
    }
    false
}

/// Keeps what it takes, and notes that a write had these bytes.
#[derive(Drop)]
pub struct Noting {
    bytes: Vec<u8>,
    wanted: Vec<u8>,
    seen: Arc<AtomicU64>,
    calls: u64,
    // The number of the write or flush that fails, from 1; 0 for none.
    fails_at: u64,
    /// Whether it has answered `Failed`.
    pub failed: bool,
    /// Whether it has taken bytes since its last flush.
    pub unflushed: bool,
}

impl Noting {
    pub fn new(
        alloc: Global,
        wanted: &[u8],
        seen: Arc<AtomicU64>,
        fails_at: u64,
    ) -> Result<Noting, AllocError>
        ensures { IfOk result (λ sink. sink.failed ≡ false) }
    {
        let mut copy = Vec::new(alloc);
        copy.extend_from_slice(wanted)?;
        Ok(Noting {
            bytes: Vec::new(alloc),
            wanted: copy,
            seen,
            calls: 0,
            fails_at,
            failed: false,
            unflushed: false,
        })
    }

    /// What it has taken.
    pub fn into_bytes(self) -> Vec<u8> {
        let Noting { bytes, .. } = self;
        bytes
    }

    /// Counts a call, and says whether it fails.
    fn fails(&mut self) -> bool
        ensures failed { self.new.failed ≡ self.old.failed }
        ensures unflushed { self.new.unflushed ≡ self.old.unflushed }
    {
        self.calls = self.calls.saturating_add(1);
        self.calls == self.fails_at
    }
}

impl Sink for Noting {
    ghost contents = { λ sink. None };

    ghost failed = { λ sink. sink.failed };

    ghost unflushed = { λ sink. sink.unflushed };

    fn write(&mut self, buf: &[u8]) -> Result<usize, DeviceFault> {
        if self.fails() || self.bytes.extend_from_slice(buf).is_err() {
            self.failed = true;
            return Err(DeviceFault::Failed);
        }
        if has(buf, &self.wanted) {
            self.seen.store(1, Ordering::SeqCst);
        }
        let count = buf.len();
        self.unflushed |= count > 0;
        Ok(count)
    }

    fn flush(&mut self) -> Result<(), DeviceFault> {
        if self.fails() {
            self.failed = true;
            return Err(DeviceFault::Failed);
        }
        self.unflushed = false;
        Ok(())
    }
}
