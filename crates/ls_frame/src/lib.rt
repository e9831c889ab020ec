//! Frames of LSP's base protocol (LSP 3.17, "Base Protocol").
//!
//! A frame is a header part and a content part. The header part is field lines and an empty line, each ended by
//! CRLF; exactly one of the fields is `Content-Length`, the content's count of bytes in decimal. Other fields are
//! ignored. A header part has at most 4,096 bytes, a content at most 16,777,216. `Framer` reads a stream of frames in
//! pieces, `write_frame` writes one frame.
#![tactic(auto)]

mod fault;
mod framer;
mod front;
mod header;
mod laws;
mod line;
mod writer;

pub use fault::FrameFault;
pub use framer::Framer;
pub use laws::{streams_are_unique, streams_exist};
pub use writer::{frame_around, write_frame};
