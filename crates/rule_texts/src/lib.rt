//! How many of a text's blocks are rules.
//!
//! A block derives a rule or shows a fault (`items_say_something` of abnf_syntax). [`Counts`] has how many blocks a text has, how many of
//! these have a head, and how many are rules, as specs/Rules has it. By these numbers a text may be rules alone
//! ([`Counts::are_rules_alone`]), or no grammar at all ([`Counts::is_no_grammar`]). A text has such numbers ([`counts_exist`]), and no
//! others ([`counts_are_unique`]). This crate knows nothing of drafts and files.
#![tactic(auto)]

mod counts;
mod laws;

pub use counts::Counts;
pub use laws::{counts_are_unique, counts_exist};
