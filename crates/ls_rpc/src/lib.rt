//! JSON-RPC 2.0 messages: which message a body is, and the texts of replies and notices.
//!
//! A body is the content of one frame, without its header. All texts are compact JSON whose members stand in the
//! order of their keys.
#![tactic(auto)]

pub mod laws;
mod message;
mod reply;

pub use message::{INVALID_REQUEST, Id, Message, PARSE_ERROR, read_id, read_message};
pub use reply::{error_text, notice_text, open_notice, open_reply, result_text};
