//! Files with texts.
//!
//! [`read_text`] reads the text of a grammar's file, and [`read_bytes`] the bytes of any file up to a limit.
//! [`FileFault`] says why a file can't be used. What they promise they promise of a reader whose own contract says what
//! is left in it. This crate knows bytes, UTF-8, and the limit of a text. It never knows how a file is opened, what a
//! text says, or how a program ends.
#![tactic(auto)]

mod file;
mod name;

pub use file::{FileFault, read_bytes, read_text};
pub use name::{has_ending, is_markdown};
