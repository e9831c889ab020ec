//! The files that are read.

ghost use Rattle.std.specs.Prelude.{◌≡◌, ◌≤◌, ◌<◌, ◌⊎◌, ◌↔◌, IfOk, IfSome, length};
ghost use Rattle.std.specs.IoError.{error_kind};
ghost use Rattle.std.specs.Str.{chars};
ghost use Rattle.text_files.specs.Files.{IsTextFile};

use ls_text::{MAX_BYTES, Snapshot, TextFault};
use std::alloc::{AllocError, Global};
use std::io;
use std::io::{ErrorKind, Read};
use thiserror::Error;

/// Why a file can't be used.
#[derive(Clone, Copy, Debug, Drop, PartialEq, Eq, Error)]
pub enum FileFault {
    /// It can't be opened, or a read fails.
    #[error("the file can't be read")]
    CannotRead,
    /// It is too large, or isn't UTF-8.
    #[error("the file is not a text")]
    NotText,
    /// An allocation was refused.
    #[error("out of memory")]
    Memory,
}

impl FileFault {
    /// What an error of a file means: `Memory` exactly where its kind says that memory was refused, else `CannotRead`.
    pub fn of(error: &io::Error) -> FileFault
        ensures one { (result ≡ FileFault.CannotRead) ⊎ (result ≡ FileFault.Memory) }
        ensures memory { (result ≡ FileFault.Memory) ↔ (error_kind error.now ≡ ErrorKind.OutOfMemory) }
    {
        if error.kind() == ErrorKind::OutOfMemory {
            FileFault::Memory
        } else {
            FileFault::CannotRead
        }
    }
}

impl From<AllocError> for FileFault {
    ghost use Rattle.std.specs.Prelude.{◌≡◌};
    ghost use Rattle.text_files.specs.declared.file.FileFault.TheVariants.{Memory};

    ghost from_gives = { λ e f. f ≡ Memory };

    /// A refused allocation is [`FileFault::Memory`].
    fn from(_: AllocError) -> FileFault {
        FileFault::Memory
    }
}

impl From<TextFault> for FileFault {
    ghost use Rattle.std.specs.Prelude.{◌≡◌};
    ghost use Rattle.text_files.specs.Files.{fault_of_text};

    ghost from_gives = { λ e f. f ≡ fault_of_text e };

    /// A text that is too large is no text of a file.
    fn from(fault: TextFault) -> FileFault {
        match fault {
            TextFault::TooLarge => FileFault::NotText,
            TextFault::Memory => FileFault::Memory,
        }
    }
}

/// All bytes of a file, at most so many. Of a larger file no more than one byte above the most is read.
///
/// # Errors
///
/// `NotText` only where there are more bytes, `CannotRead` where a read fails, and `Memory` where an allocation is
/// refused.
pub fn read_bytes<R: Read + Drop>(alloc: Global, file: R, most: u32) -> Result<Vec<u8>, FileFault>
    ensures few { IfOk result (λ bytes. length bytes.items ≤ most) }
    ensures all { IfSome (R.remaining file) (λ all. IfOk result (λ bytes. bytes.items ≡ all)) }
    ensures fault { IfSome (R.remaining file) (λ all. result ≡ Err FileFault.NotText → most < length all) }
{
    let mut bytes = Vec::new(alloc);
    match file.take(u64::from(most) + 1).read_to_end(&mut bytes) {
        Ok(_) => {
            if bytes.len() > most as usize {
                return Err(FileFault::NotText);
            }
            Ok(bytes)
        }
        Err(error) => Err(FileFault::of(&error)),
    }
}

/// The text of a grammar's file: UTF-8 of at most [`MAX_BYTES`] bytes, in time by these.
///
/// # Errors
///
/// `NotText` only where the file has more bytes or isn't UTF-8, `CannotRead` where a read fails, and `Memory` where an
/// allocation is refused.
pub fn read_text<R: Read + Drop>(alloc: Global, file: R) -> Result<Snapshot, FileFault>
    ensures text { IfSome (R.remaining file) (λ all. IfOk result (λ text. IsTextFile all × (text ≡ chars all))) }
    ensures fault { IfSome (R.remaining file) (λ all. result ≡ Err FileFault.NotText → ¬ (IsTextFile all)) }
{
    let bytes = read_bytes(alloc, file, MAX_BYTES as u32)?;
    text_of(alloc, bytes)
}

/// The text that these bytes are.
fn text_of(alloc: Global, bytes: Vec<u8>) -> Result<Snapshot, FileFault>
    ensures text { IfOk result (λ text. IsTextFile bytes.items × (text ≡ chars bytes.items)) }
    ensures fault { (result ≡ Err FileFault.NotText) ↔ ¬ (IsTextFile bytes.items) }
{
    let Ok(text) = String::from_utf8(bytes) else {
        return Err(FileFault::NotText);
    };
    Ok(Snapshot::of_text(alloc, text)?)
}
