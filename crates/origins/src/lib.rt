//! Texts that are made of pieces of another one, the draft, and where their characters come from.
//!
//! A [`Gathered`] is such a text: characters are put behind those that are there, each with the offset at which it begins
//! in the draft, in characters. [`add_block`](Gathered::add_block) puts a block of grammar there, left aligned (RFC 5234
//! section 2.2). What of a draft can't be read is [`Unread`], and what may have to be said so of is an [`Aside`]. This
//! crate knows characters, offsets and indents. It never knows in which format a draft is written, nor what a grammar says.
#![tactic(auto)]

mod aligned;
mod gathered;
mod rows;
mod runs;
mod unread;

pub use aligned::{is_blank, is_break};
pub use gathered::Gathered;
pub use unread::{Aside, Lack, Unread};
