//! Worked rows of drafts: the grammar in them, and where its characters stand in the draft.
//!
//! They stand above the crates that they test, since a crate with tests is proved twice.

mod asides;
mod gathered;
mod markdown;
mod unmarked;
mod xml;
