//! The blocks of ABNF in a draft in Markdown.
//!
//! They are fenced code blocks, as CommonMark 0.31 has them in section 4.5, whose info string begins with the word
//! `abnf`, or which an attribute list as kramdown has it says to be ABNF. A fence may stand at any indentation, as it can be
//! part of a list's item, and in a quote. What stands in a comment is none.
#![tactic(auto)]

mod attributes;
mod beside;
mod cut;
mod fence;
mod found;
mod front;
mod gather;
mod line;
mod prose;
mod reading;

pub use gather::{gather_markdown, unread_blocks};
