//! Messages and ids, as they are read from JSON.

ghost use Rattle.std.specs.Prelude.{◌≡◌, ◌<◌, ℕ, List, Some, IfOk, OnErr, length, option_map, option_and_then, is_some, false, bytes_eq};
ghost use Rattle.serde_json.specs.Data.{object};
ghost use Rattle.serde_json.specs.Find.{get_member};
ghost use Rattle.serde_json.specs.View.{view, members_view};
ghost use Rattle.ls_rpc.specs.Message.{message_view, message_of, message_of_value, id_of, IsText, with_method, bad, invalid_request};

use ls_lists::Text;
use serde_json::{Map, Value};
use std::alloc::{AllocError as Memory, Global};

/// The code of an error whose body is no JSON (JSON-RPC 2.0, section 5.1).
pub const PARSE_ERROR: i32 = -32700;

/// The code of an error whose body is JSON, but no message that can be served (JSON-RPC 2.0, section 5.1).
pub const INVALID_REQUEST: i32 = -32600;

/// The id of a request (LSP 3.17, "Request Message"). A number and a text are never the same id.
#[derive(Drop)]
pub enum Id {
    /// A number that JSON writes as an integer, without a point or an exponent.
    Number(i64),
    /// A text.
    Text(Text),
}

/// What a client sent (JSON-RPC 2.0, sections 4 and 5).
#[derive(Drop)]
pub enum Message {
    /// A call that wants a reply. Absent params are null.
    Request { id: Id, method: Text, params: Value },
    /// A call that wants no reply. Absent params are null.
    Notice { method: Text, params: Value },
    /// A reply of the client.
    Response,
    /// None of these. `code` is the error to answer, to `id` where the body has one that can be read.
    Bad { id: Option<Id>, code: i32 },
}

/// The message that a body is, for every list of bytes. `jsonrpc` isn't looked at. Bytes that aren't UTF-8, aren't JSON
/// or nest deeper than 127 are a parse error; of members with the same key the last counts.
///
/// # Errors
///
/// Where an allocation is refused. A body of no bytes needs none.
pub fn read_message(alloc: Global, body: &[u8]) -> Result<Message, Memory>
    ensures ok { IfOk result (λ message. message_view message ≡ message_of body.now) }
    ensures memory { OnErr result (0 < length body.now) }
{
    match Value::from_slice(alloc, body) {
        Ok(value) => Ok(message_of(value)),
        Err(error) => {
            if error.is_memory() {
                Err(Memory)
            } else {
                Ok(Message::Bad {
                    id: None,
                    code: PARSE_ERROR,
                })
            }
        }
    }
}

/// The id that a value is: an integer of `i64` or a text. `None` for any other value, also a number with a point.
///
/// # Errors
///
/// Where an allocation is refused. Only a text needs one.
pub fn read_id(alloc: Global, value: &Value) -> Result<Option<Id>, Memory>
    ensures ok { IfOk result (λ id. id ≡ id_of (view value.now)) }
    ensures memory { OnErr result (IsText (id_of (view value.now))) }
{
    if let Some(text) = value.as_str() {
        return Ok(Some(Id::Text(Text::from_str(alloc, text)?)));
    }
    match value.as_i64() {
        Some(number) => Ok(Some(Id::Number(number))),
        None => Ok(None),
    }
}

impl Id {
    /// An id of its own that is the same.
    ///
    /// # Errors
    ///
    /// Where an allocation is refused. Only a text needs one.
    pub fn copy(&self) -> Result<Id, Memory>
        ensures ok { IfOk result (λ id. id ≡ self.now) }
        ensures memory { OnErr result (IsText (Some self.now)) }
    {
        match self {
            Id::Number(number) => Ok(Id::Number(*number)),
            Id::Text(text) => Ok(Id::Text(text.copy()?)),
        }
    }
}

fn message_of(value: Value) -> Message
    ensures { message_view result ≡ message_of_value (view value) }
{
    match value {
        Value::Object(members) => message_of_members(members),
        _ => Message::Bad {
            id: None,
            code: INVALID_REQUEST,
        },
    }
}

fn message_of_members(mut members: Map<String, Value>) -> Message
    ensures { message_view result ≡ message_of_value (object (members_view members.entries)) }
{
    let method = take_member(&mut members, "method");
    let id = take_member(&mut members, "id");
    match method {
        Some(Value::String(method)) => {
            let params = take_member(&mut members, "params").unwrap_or(Value::Null);
            with_method(Text::new(method), id, params)
        }
        Some(_) => bad_request(id),
        None => {
            if has_member(&members, "result") || has_member(&members, "error") {
                Message::Response
            } else {
                bad_request(id)
            }
        }
    }
}

fn take_member(members: &mut Map<String, Value>, key: &str) -> Option<Value>
    ensures value { option_map view result ≡ get_member key.now (members_view members.old.entries) }
    ensures others { (q : List ℕ) → bytes_eq key.now q ≡ false
        → get_member q (members_view members.new.entries)
        ≡ get_member q (members_view members.old.entries) }
{
    members.remove(key)
}

fn has_member(members: &Map<String, Value>, key: &str) -> bool
    ensures { result ≡ is_some (get_member key.now (members_view members.now.entries)) }
{
    members.contains_key(key)
}

fn bad_request(id: Option<Value>) -> Message
    ensures { message_view result
        ≡ bad (option_and_then id_of (option_map view id)) invalid_request }
{
    Message::Bad {
        id: id.and_then(id_of),
        code: INVALID_REQUEST,
    }
}

fn with_method(method: Text, id: Option<Value>, params: Value) -> Message
    ensures { message_view result ≡ with_method method (option_map view id) (view params) }
{
    match id {
        None => Message::Notice { method, params },
        Some(id) => match id_of(id) {
            Some(id) => Message::Request { id, method, params },
            None => Message::Bad {
                id: None,
                code: INVALID_REQUEST,
            },
        },
    }
}

fn id_of(value: Value) -> Option<Id>
    ensures { result ≡ id_of (view value) }
{
    match value {
        Value::Number(number) => number.as_i64().map(Id::Number),
        Value::String(text) => Some(Id::Text(Text::new(text))),
        _ => None,
    }
}
