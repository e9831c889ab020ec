//! Answers to questions about a text, each with its text and its question.
//!
//! A [`Job`] is a question about a snapshot, with the encoding in which its positions count; [`run`] gives a [`Done`], whose type keeps
//! that its answer is the definition's for its own text, encoding and question, or that memory was refused. A question about a text has an
//! answer ([`answers_exist`]), and at most one, but for the certificate beside an example ([`answers_are_unique`]).
//!
//! A rename that is granted keeps the grammar of its text: what [`run`] says of it, of the text after its edits, follows from the answer by
//! a law ([`renames_keep_the_grammar`]).
//!
//! [`hover_text`] says in one or two lines what is known of the shortest strings of a rule.
#![tactic(auto)]

mod answer;
mod ask;
mod diagnostics;
mod draft_diagnostics;
mod draft_tokens;
mod hover;
mod hovers;
mod in_draft;
mod in_grammar;
mod insertion;
mod inward;
mod job;
mod laws;
mod outline;
mod outward;
mod places;
mod recent;
mod rename;
mod semantic_tokens;

pub use answer::{
    Answer, Diagnostic, DraftAnswer, DraftCode, DraftDiagnostic, HoverText, Insertion, RenameFault,
    Symbol,
};
pub use ask::Ask;
pub use hover::hover_text;
pub use job::{Done, Job, run, run_keeping};
pub use laws::{
    answers_are_unique, answers_exist, hover_texts_are_unique, hover_texts_exist,
    renames_keep_the_grammar,
};
pub use recent::Recent;
