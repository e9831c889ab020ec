//! Worked rows of what no line of `abnf_findings` shows: where each character of a grammar that is gathered begins in its file, what may have
//! to be said of blocks, joined grammars, repeated definitions, and how many blocks of a text are rules.
//!
//! What it prints is in `tools/findings_rows.py` and `tools/published_rows.py`. The tests stand above the crates that they test, since a crate
//! with tests is proved twice.
#![tactic(auto)]

#[cfg(test)]
mod counts;
#[cfg(test)]
mod drafts;
#[cfg(test)]
mod files;
#[cfg(test)]
mod joins;
#[cfg(test)]
mod near;
#[cfg(test)]
mod published;
#[cfg(test)]
mod repeats;
#[cfg(test)]
mod texts;
