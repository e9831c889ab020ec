//! `ls_rpc`: messages, ids, and the texts of replies.
ghost use Rattle.std.specs.Prelude.{◌≡◌, false};
ghost use Rattle.serde_json.specs.View.{view};
ghost use Rattle.serde_json.specs.Written.{has_float};

use ls_lists::Text;
use ls_rpc::{Id, Message};
use serde_json::Value;
use std::alloc::{AllocError as Memory, Global};

pub fn id_number(number: i64) -> Id {
    Id::Number(number)
}

pub fn id_text(text: Text) -> Id {
    Id::Text(text)
}

pub fn id_kind(id: &Id) -> u8 {
    match id {
        Id::Number(_) => 0,
        Id::Text(_) => 1,
    }
}

pub fn id_copy(id: &Id) -> Result<Id, Memory> {
    id.copy()
}

pub fn message_request(id: Id, method: Text, params: Value) -> Message {
    Message::Request { id, method, params }
}

pub fn message_notice(method: Text, params: Value) -> Message {
    Message::Notice { method, params }
}

pub fn message_response() -> Message {
    Message::Response
}

pub fn message_bad(id: Option<Id>, code: i32) -> Message {
    Message::Bad { id, code }
}

pub fn message_kind(message: &Message) -> u8 {
    match message {
        Message::Request {
            id: _,
            method: _,
            params: _,
        } => 0,
        Message::Notice {
            method: _,
            params: _,
        } => 1,
        Message::Response => 2,
        Message::Bad { id: _, code: _ } => 3,
    }
}

pub fn read_message(alloc: Global, body: &[u8]) -> Result<Message, Memory> {
    ls_rpc::read_message(alloc, body)
}

pub fn result_text(alloc: Global, id: &Id, value: Value) -> Result<Vec<u8>, Memory>
    requires { has_float (view value) ≡ false }
{
    ls_rpc::result_text(alloc, id, value)
}

pub fn error_text(
    alloc: Global,
    id: Option<&Id>,
    code: i32,
    message: &str,
) -> Result<Vec<u8>, Memory> {
    ls_rpc::error_text(alloc, id, code, message)
}

pub fn notice_text(alloc: Global, method: &str, params: Value) -> Result<Vec<u8>, Memory>
    requires { has_float (view params) ≡ false }
{
    ls_rpc::notice_text(alloc, method, params)
}
