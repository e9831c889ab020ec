//! What the program does beside serving: its two commands, which read a grammar from a file ([`example_text`], [`check_text`]), and how it
//! ends ([`Ending`]).
#![tactic(auto)]

mod commands;
mod ending;
mod file;
mod laws;
mod memory;

pub use commands::{cert_part, check_text, example_text};
pub use ending::Ending;
pub use file::read_cert_file;
pub use laws::{example_texts_are_accepted, example_texts_exist};
pub use memory::keep_freed_blocks;
