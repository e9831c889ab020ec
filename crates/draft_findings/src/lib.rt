//! What of a grammar's findings is reported in its draft.
//!
//! [`reported`] leaves out definitions that say the same as the first of their name, and of the many faults of syntax in a block that is no
//! ABNF it keeps the first, for all of them: specs/Reports. [`block_ends`] says where the blocks of a draft end in its grammar's text, as
//! specs/Ends has it. What is said of what is left stands in specs/Words. This crate knows nothing of the formats of drafts.
#![tactic(auto)]

mod cut;
mod ends;
mod report;
mod walk;
mod words;

pub use cut::{reported, reported_in_draft};
pub use ends::block_ends;
pub use report::{Remark, Reported, is_fault_of_syntax};
pub use words::{differing, push_addition};
