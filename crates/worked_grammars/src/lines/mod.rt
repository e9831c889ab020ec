//! Worked rows of texts: their ranges, positions and places, the lines that two of them share, and the items and ends of the
//! blocks of a grammar that they are cut into.
//!
//! They stand above the crates that they test, since a crate with tests is proved twice.

mod alike;
mod blocks;
mod texts;
