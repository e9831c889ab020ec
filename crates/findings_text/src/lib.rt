//! What is printed of the findings in a grammar's text: a line for each, in the form of compilers.
//!
//! [`print_findings`] gives the lines of a text, which are defined in specs/Print, and says how the text went by an
//! [`Outcome`]. [`print_rules`] gives a line for each rule instead, as specs/Rules has it. [`print_from`] and
//! [`print_rules_from`] do so of a text that comes from a [`Source`], at the places of its file. [`print_told`] and
//! [`print_told_rules`] print what stands in a grammar at the front of its text, as specs/Told has it. Among the lines
//! stand those of what can't be read of a draft, as specs/Unread has it. Behind a name that stands for nothing a known name
//! is printed which is near, as specs/Hints has it; and behind a rule that generates nothing as it leads to names which no file
//! defines, that it does so, as specs/Gaps has it.
#![tactic(auto)]

mod gaps;
mod hints;
mod laws;
mod line;
mod outcome;
mod print;
mod rule_line;
mod rules;
mod source;
mod unread;

pub use laws::{
    filled_texts_are_unique, filled_texts_exist, heads_are_first, printed_rules_are_unique,
    printed_rules_exist, printed_texts_are_unique, printed_texts_exist,
};
pub use line::place_text;
pub use ls_lists::Text;
pub use ls_text::Snapshot;
pub use outcome::Outcome;
pub use print::{Printed, print_findings, print_from, print_told};
pub use rules::{print_rules, print_rules_from, print_told_rules};
pub use source::Source;
pub use unread::print_unread;
