//! Texts of documents, as a language server sees them: lines, places and positions.
//!
//! A [`Snapshot`] is a text that doesn't change. Contracts see it as the list of its characters.
//!
//! The definitions are those of the Language Server Protocol 3.17, "Text Documents" and "Position":
//!
//! - A line end is CRLF, else LF or CR, and nothing else. A text has one line more than it has line ends.
//! - A [`Position`] is a line from 0, and the units of that line before it: bytes of UTF-8, UTF-16 units or characters, by the
//!   [`Encoding`] on which client and server agreed.
//! - A [`Place`] is a line from 0, and bytes of UTF-8 from the start of that line, without its line end.
//! - An offset is a number of characters (Unicode scalar values) from the start of the text.
#![tactic(auto)]

mod alike;
mod chunk;
mod cut;
mod edit;
mod fault;
mod line;
mod line_end;
mod lines;
mod part;
mod position;
mod ruler;
mod snapshot;
mod units;

pub use edit::Edit;
pub use fault::TextFault;
pub use position::{Encoding, Place, Position, Range, Units};
pub use ruler::Ruler;
pub use snapshot::{MAX_BYTES, Snapshot};
