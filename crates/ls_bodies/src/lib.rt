//! The bodies of answers and of refusals, as JSON (JSON-RPC 2.0, LSP 3.17).
//!
//! An answer is the result of a reply, findings are a notice, and a [`Refusal`] is an error with its code and its text. Contracts say each
//! body to the byte. Members of all JSON stand in the order of their keys.
#![tactic(auto)]

mod bodies;
mod diagnostics;
mod edits;
mod positions;
mod refusal;
mod tokens;

pub use bodies::{failure_body, findings_body, reply_body};
pub use refusal::Refusal;
