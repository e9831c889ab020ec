//! Why there is no snapshot.

use std::alloc::AllocError;
use thiserror::Error;

/// Why there is no snapshot of a text.
#[derive(Clone, Copy, Debug, PartialEq, Eq, Error)]
pub enum TextFault {
    /// The text has more than [`MAX_BYTES`](crate::MAX_BYTES) bytes of UTF-8.
    #[error("the text is too large")]
    TooLarge,
    /// An allocation was refused.
    #[error("out of memory")]
    Memory,
}

impl From<AllocError> for TextFault {
    ghost use Rattle.std.specs.Prelude.{◌≡◌};
    ghost use Rattle.ls_text.specs.declared.fault.TextFault.TheVariants.{Memory};

    ghost from_gives = { λ _ r. r ≡ Memory };

    /// A refused allocation is `Memory`.
    fn from(_: AllocError) -> TextFault {
        TextFault::Memory
    }
}
