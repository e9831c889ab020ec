//! Where bytes come from and go to.
ghost use Rattle.std.specs.Prelude.{◌≡◌, ◌↔◌, ℕ, ◌+◌, ◌≤◌, ◌<◌, ◌||◌, ◌&&◌, Bool, List, length, Option, IfOk, IfErr};
ghost use Rattle.std.specs.Io.KnownBytes.{Keeps, ReadConsumes, WriteAppends};
ghost use Rattle.ls_devices.specs.Devices.{is_failed, took_bytes};
ghost use Rattle.std.specs.IoError.{error_kind};

use std::io;
use std::io::ErrorKind;
use thiserror::Error;

/// Why a call on a device gave nothing.
#[derive(Clone, Copy, Debug, Drop, PartialEq, Eq, Error)]
pub enum DeviceFault {
    /// The call may be made again.
    #[error("the call was interrupted")]
    Interrupted,
    /// The device failed.
    #[error("the device failed")]
    Failed,
}

impl DeviceFault {
    /// What an error of std's reader means: `Interrupted` exactly where it is of that kind, else `Failed`.
    pub fn of(error: &io::Error) -> DeviceFault
        ensures { (result ≡ DeviceFault.Interrupted) ↔ (error_kind error.now ≡ ErrorKind.Interrupted) }
    {
        if error.kind() == ErrorKind::Interrupted {
            DeviceFault::Interrupted
        } else {
            DeviceFault::Failed
        }
    }
}

/// Gives bytes.
pub trait Source {
    // The bytes that reads will give from here on, where they are known.
    ghost remaining: { Self → Option (List ℕ) };

    // How many reads it has answered.
    ghost reads: { Self → ℕ };

    // Whether it has answered Failed.
    ghost failed: { Self → Bool };

    /// Puts the next bytes at the front of `buf`, and gives how many; 0 says that there are no more. What it gives is a prefix of what
    /// remains, where that is known. Each read is counted, of which there may be fewer than 2^64. It may wait for bytes.
    ///
    /// # Errors
    ///
    /// `Interrupted` where the call may be made again, and `Failed` where the device failed, which is remembered.
    fn read(&mut self, buf: &mut [u8]) -> Result<usize, DeviceFault>
        requires { reads self.old < 18446744073709551615 }
        ensures bound { IfOk result (λ n. n ≤ length buf.new) }
        ensures bytes { ReadConsumes (remaining self.old) (remaining self.new) result buf.new }
        ensures counted { reads self.new ≡ reads self.old + 1 }
        ensures failed { failed self.new ≡ (failed self.old || is_failed result) };
}

/// Takes bytes.
pub trait Sink {
    // The bytes that it holds, where they are known.
    ghost contents: { Self → Option (List ℕ) };

    // Whether it has answered Failed.
    ghost failed: { Self → Bool };

    // Whether it has taken bytes since it last handed on all of them.
    ghost unflushed: { Self → Bool };

    /// Takes bytes from the front of `buf`, at least one where there is one, and gives how many. What is taken stands behind what was
    /// there, where that is known. That bytes were taken is remembered, up to the next flush that doesn't fail.
    ///
    /// # Errors
    ///
    /// `Failed` where the device failed, which is remembered.
    fn write(&mut self, buf: &[u8]) -> Result<usize, DeviceFault>
        ensures bound { IfOk result (λ n. n ≤ length buf.now) }
        ensures some { IfOk result (λ n. 0 < length buf.now → 0 < n) }
        ensures fault { IfErr result (λ e. e ≡ DeviceFault.Failed) }
        ensures bytes { WriteAppends (contents self.old) (contents self.new) result buf.now }
        ensures failed { failed self.new ≡ (failed self.old || is_failed result) }
        ensures unflushed { unflushed self.new ≡ (unflushed self.old || took_bytes result) };

    /// Hands on all bytes taken so far.
    ///
    /// # Errors
    ///
    /// `Failed` where the device failed, which is remembered. It may hold bytes back then.
    fn flush(&mut self) -> Result<(), DeviceFault>
        ensures fault { IfErr result (λ e. e ≡ DeviceFault.Failed) }
        ensures bytes { Keeps (contents self.old) (contents self.new) }
        ensures failed { failed self.new ≡ (failed self.old || is_failed result) }
        ensures unflushed { unflushed self.new ≡ (is_failed result && unflushed self.old) };
}
