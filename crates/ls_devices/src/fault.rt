//! Why a run breaks off, and how much it reads.

use std::alloc::AllocError;
use thiserror::Error;

/// The most bytes that one read takes.
pub const READ_MOST: usize = 65_536;

/// A session makes fewer reads than this: the read with this number is answered as [`ServeFault::Read`].
pub const READS_END: u64 = 1_099_511_627_776;

/// Why a run broke off.
#[derive(Clone, Copy, Debug, Drop, PartialEq, Eq, Error)]
pub enum ServeFault {
    /// The source failed, or was read as often as a session may.
    #[error("the source failed")]
    Read,
    /// The sink failed.
    #[error("the sink failed")]
    Write,
    /// What was done at the desk isn't what its journal has, or something was left undone. Only a run by several threads tests that.
    #[error("strayed")]
    Strayed,
    /// An allocation was refused.
    #[error("out of memory")]
    Memory,
}

impl From<AllocError> for ServeFault {
    ghost use Rattle.std.specs.Prelude.{◌≡◌};
    ghost use Rattle.ls_devices.specs.declared.fault.ServeFault.TheVariants.{Memory};

    ghost from_gives = { λ e f. f ≡ Memory };

    /// A refused allocation is [`ServeFault::Memory`].
    fn from(_: AllocError) -> ServeFault {
        ServeFault::Memory
    }
}
