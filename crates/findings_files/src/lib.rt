//! What the arguments of `abnf_findings` ask for, what is printed of a file, by what it is written in and by which other files
//! are known, and how the program ends.
//!
//! [`request_of`] reads the arguments, as specs/Arguments has it, and [`help`] is what `--help` prints. The kit's `clap` isn't
//! taken: it takes options behind files too, which are refused here.
//!
//! [`print_as`] and [`print_rules_as`] read files by their [`Format`], as specs/Formats and specs/Contents have it: of a
//! draft or a published text they go by the grammar in it, as specs/Drafts has it. They join rules of files that are
//! [`Known`] to their grammars, as specs/Known has it. [`print_grammar_as`] gives a file's grammar. How a file went is an
//! [`Outcome`], and the [`Ending`] of a run follows from the outcomes of its files.
#![tactic(auto)]

mod argument_laws;
mod arguments;
mod content;
mod draft;
mod ending;
mod format;
mod grammar;
mod known;
mod laws;
mod step;
mod usage;
mod word;
mod xml;

pub use argument_laws::{files_alone_ask_for_findings, help_comes_first};
pub use arguments::{Arguments, Asked, Request, request_of};
pub use ending::{Ending, ending_of, fault_line};
pub use findings_text::{Outcome, Printed};
pub use format::Format;
pub use grammar::print_grammar_as;
pub use known::{Known, print_as, print_rules_as};
pub use laws::{
    contents_are_unique, contents_exist, joined_prints_exist, joined_rule_prints_exist,
    printed_grammars_are_unique, printed_grammars_exist, prints_are_unique, prints_exist,
    rule_prints_are_unique,
};
pub use ls_lists::Text;
pub use ls_text::Snapshot;
pub use text_files::{FileFault, read_text};
pub use usage::help;
