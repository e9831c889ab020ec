//! The file of a certificate.

ghost use Rattle.std.specs.Prelude.{◌≡◌, ◌≤◌, ◌<◌, IfOk, IfSome, length};

use std::alloc::Global;
use std::io::Read;
use text_files::{FileFault, read_bytes};

/// The largest file of a certificate, in bytes.
pub const MAX_CERT_BYTES: u32 = 268_435_456;

/// The bytes of a certificate's file, at most [`MAX_CERT_BYTES`]. Of a larger one no more than one byte above that is read.
///
/// # Errors
///
/// `NotText` exactly where there are more, `CannotRead` where a read fails, and `Memory` where an allocation is refused.
pub fn read_cert_file<R: Read + Drop>(alloc: Global, file: R) -> Result<Vec<u8>, FileFault>
    ensures bytes { IfSome (R.remaining file) (λ all. IfOk result (λ bytes. (bytes.items ≡ all) × (length all ≤ MAX_CERT_BYTES))) }
    ensures fault { IfSome (R.remaining file) (λ all. result ≡ Err FileFault.NotText → MAX_CERT_BYTES < length all) }
{
    read_bytes(alloc, file, MAX_CERT_BYTES)
}
