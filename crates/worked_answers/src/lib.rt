//! Worked answers that no program shows: what is found by a certificate, which texts are kept, the words of faults, and numbers and names.
//!
//! They stand above the crates that they test, since a crate with tests is proved twice. What is found in a text is written with a line
//! for each finding: its place in bytes as `LINE:START-LINE:END`, its severity as LSP 3.17 numbers it (1 error, 2 warning), its code
//! and its message. Rows of the programs have tokens, findings, renames and answers in drafts (docs/TESTING.md).
#![tactic(auto)]

#[cfg(test)]
mod found;
#[cfg(test)]
mod kept;
#[cfg(test)]
mod rows;
#[cfg(test)]
mod tokens;
#[cfg(test)]
mod words;
