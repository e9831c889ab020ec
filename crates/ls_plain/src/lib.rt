//! The server on one thread: it reads frames from a source, answers each message by a session over a desk before it hears the next, and
//! writes its answers to a sink. What is written is what such a session says ([`ls_steps`]), or a prefix of it.
#![tactic(auto)]

mod laws;
mod serve;

pub use laws::inputs_have_one_output;
pub use serve::{serve_limited, serve_plain};
