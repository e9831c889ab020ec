//! What can be wrong with a stream of frames.

use thiserror::Error;

/// Why a stream of frames is refused, or a call couldn't do its work.
#[derive(Clone, Copy, Debug, Drop, PartialEq, Eq, Error)]
pub enum FrameFault {
    /// 4,096 bytes of a header part have come, and its empty line hasn't ended.
    #[error("the header part is too long")]
    HeaderTooLong,
    /// An LF without CR, a CR without LF, or a line of the header part that is neither empty nor a field line.
    #[error("the header part is malformed")]
    BadHeader,
    /// The header part has ended without a `Content-Length` field.
    #[error("the header part has no Content-Length")]
    NoLength,
    /// The header part has a second `Content-Length` field.
    #[error("the header part has two Content-Length fields")]
    TwoLengths,
    /// The value of `Content-Length` isn't one or more digits.
    #[error("the Content-Length is no number")]
    BadLength,
    /// The value of `Content-Length` is above 16,777,216 bytes.
    #[error("the content is too large")]
    TooLarge,
    /// The stream has ended within a frame.
    #[error("the stream ends within a frame")]
    Truncated,
    /// The allocator refused memory.
    #[error("out of memory")]
    Memory,
}
