//! What can be wrong with the text of a certificate.

use thiserror::Error;

/// Why a certificate could not be read.
#[derive(Clone, Copy, Debug, Drop, PartialEq, Eq, Error)]
pub enum CertFault {
    /// A line of another form, with a leading zero, or without its line end.
    #[error("a line is malformed")]
    BadLine,
    /// The first number isn't the line's number, from 0.
    #[error("a line is out of order")]
    OutOfOrder,
    /// A length, height or choice is above 18446744073709551615.
    #[error("a number is too large")]
    NumberTooLarge,
    /// An allocation was refused.
    #[error("out of memory")]
    Memory,
}
