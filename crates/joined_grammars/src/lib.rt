//! Blocks of grammars by the names that they define: rules of other grammars that are joined to one, and definitions that a
//! grammar repeats.
//!
//! [`joined`] appends to a text the blocks of other texts that have new names, as specs/Joined has it. A text has one joined grammar
//! ([`joined_texts_exist`]), and no other ([`joined_texts_are_unique`]). [`Repeats`] are the definitions of names that the text defines
//! before, as specs/Repeats has it, each with whether it says the same ([`repeats_exist`], [`repeats_are_unique`]).
#![tactic(auto)]

mod join;
mod laws;
mod repeats;
mod words;

pub use join::joined;
pub use laws::{joined_texts_are_unique, joined_texts_exist, repeats_are_unique, repeats_exist};
pub use repeats::{Repeat, Repeats};
