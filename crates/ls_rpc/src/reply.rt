//! The texts of replies and notices. `serde_json` writes each from what it says, with no tree of the whole.
ghost use Rattle.std.specs.Prelude.{◌≡◌, IfOk, OnOk, false, option_map};
ghost use Rattle.std.specs.Option.{option_copied};
ghost use Rattle.serde.specs.Event.{Log};
ghost use Rattle.serde_json.specs.Data.{Data};
ghost use Rattle.serde_json.specs.Events.{SendsValue};
ghost use Rattle.serde_json.specs.View.{view};
ghost use Rattle.serde_json.specs.Written.{has_float, compact_text};
ghost use Rattle.ls_rpc.specs.Reply.{id_json, id_or_null, result_json, error_json, fault_json, notice_json};
ghost use Rattle.ls_rpc.specs.Sent.{OpensNotice, OpensReply};

use crate::message::Id;
use serde::{Described, Serialize, Serializer};
use serde_json::Value;
use std::alloc::{AllocError as Memory, Global};

/// The version of JSON-RPC that each message names (JSON-RPC 2.0, section 4).
const VERSION: &str = "2.0";

/// The compact text of a reply with a result (JSON-RPC 2.0, section 5), in time by its bytes. The result has no float in
/// it.
///
/// # Errors
///
/// Where an allocation is refused.
pub fn result_text(alloc: Global, id: &Id, result_value: Value) -> Result<Vec<u8>, Memory>
    requires { has_float (view result_value) ≡ false }
    ensures { IfOk result (λ text.
        text.items ≡ compact_text (result_json id.now (view result_value))) }
{
    let reply = Reply {
        id,
        result: &result_value,
    };
    json_text(alloc, &reply)
}

/// The compact text of a reply with an error (JSON-RPC 2.0, section 5.1). Its id is null where the request's isn't known.
///
/// # Errors
///
/// Where an allocation is refused.
pub fn error_text(
    alloc: Global,
    id: Option<&Id>,
    code: i32,
    message: &str,
) -> Result<Vec<u8>, Memory>
    ensures { IfOk result (λ text.
        text.items ≡ compact_text (error_json (option_copied id.entry) code message.now)) }
{
    let reply = ErrorReply {
        id,
        error: Fault { code, message },
    };
    json_text(alloc, &reply)
}

/// The compact text of a notice, a call that wants no reply (JSON-RPC 2.0, section 4.1), in time by its bytes. The
/// parameters have no float in them.
///
/// # Errors
///
/// Where an allocation is refused.
pub fn notice_text(alloc: Global, method: &str, params: Value) -> Result<Vec<u8>, Memory>
    requires { has_float (view params) ≡ false }
    ensures { IfOk result (λ text. text.items ≡ compact_text (notice_json method.now (view params))) }
{
    let notice = Notice {
        method,
        params: &params,
    };
    json_text(alloc, &notice)
}

/// The compact text of what a value sends to a serializer, by the JSON that this is. No [`Value`] is made of it.
///
/// # Errors
///
/// Where an allocation is refused. Nothing else can fail, since no key is a number and no integer is wider than 64 bits.
pub fn json_text<T: Serialize>(alloc: Global, value: &T) -> Result<Vec<u8>, Memory>
    ghost json: { Data }
    requires sends { (old : Log) → (new : Log) → T.writes value.now old new → SendsValue json old new }
    requires whole { has_float json ≡ false }
    ensures { IfOk result (λ text. text.items ≡ compact_text json) }
{
    match serde_json::to_vec(alloc, value) {
        Ok(text) => Ok(text),
        Err(_) => Err(Memory),
    }
}

/// Writes a reply as far as the key of its result (JSON-RPC 2.0, section 5). The result and the end of the object are the
/// caller's to write.
///
/// # Errors
///
/// The serializer's own, where it takes no more.
pub fn open_reply<S: Serializer>(out: &mut S, id: &Id) -> Result<(), S::Error>
    ensures { OnOk result (OpensReply id.now (S.written out.old) (S.written out.new)) }
{
    out.begin_map(Some(3))?;
    out.key("id")?;
    id.serialize(out)?;
    out.key("jsonrpc")?;
    out.str(VERSION)?;
    out.key("result")
}

/// Writes a notice as far as the key of its parameters (JSON-RPC 2.0, section 4.1). The parameters and the end of the
/// object are the caller's to write.
///
/// # Errors
///
/// The serializer's own, where it takes no more.
pub fn open_notice<S: Serializer>(out: &mut S, method: &str) -> Result<(), S::Error>
    ensures { OnOk result (OpensNotice method.now (S.written out.old) (S.written out.new)) }
{
    out.begin_map(Some(3))?;
    out.key("jsonrpc")?;
    out.str(VERSION)?;
    out.key("method")?;
    out.str(method)?;
    out.key("params")
}

/// A reply with a result.
#[derive(Drop)]
struct Reply<'a> {
    id: &'a Id,
    result: &'a Value,
}

impl Described for Reply<'_> {
    ghost writes = { λ reply. SendsValue (result_json reply.id.now (view reply.result.now)) };
}

impl Serialize for Reply<'_> {
    fn serialize<S: Serializer>(&self, out: &mut S) -> Result<(), S::Error> {
        open_reply(out, self.id)?;
        self.result.serialize(out)?;
        out.end_map()
    }
}

/// A notice.
#[derive(Drop)]
struct Notice<'a> {
    method: &'a str,
    params: &'a Value,
}

impl Described for Notice<'_> {
    ghost writes = { λ notice. SendsValue (notice_json notice.method.now (view notice.params.now)) };
}

impl Serialize for Notice<'_> {
    fn serialize<S: Serializer>(&self, out: &mut S) -> Result<(), S::Error> {
        open_notice(out, self.method)?;
        self.params.serialize(out)?;
        out.end_map()
    }
}

/// A reply with an error.
#[derive(Drop)]
struct ErrorReply<'a> {
    id: Option<&'a Id>,
    error: Fault<'a>,
}

impl Described for ErrorReply<'_> {
    ghost writes = { λ reply. SendsValue (error_json (option_map (λ id. id.now) reply.id) reply.error.code reply.error.message.now) };
}

impl Serialize for ErrorReply<'_> {
    fn serialize<S: Serializer>(&self, out: &mut S) -> Result<(), S::Error> {
        out.begin_map(Some(3))?;
        out.key("error")?;
        self.error.serialize(out)?;
        out.key("id")?;
        write_id(out, self.id)?;
        out.key("jsonrpc")?;
        out.str(VERSION)?;
        out.end_map()
    }
}

/// What an error says.
#[derive(Drop)]
struct Fault<'a> {
    code: i32,
    message: &'a str,
}

impl Described for Fault<'_> {
    ghost writes = { λ fault. SendsValue (fault_json fault.code fault.message.now) };
}

impl Serialize for Fault<'_> {
    fn serialize<S: Serializer>(&self, out: &mut S) -> Result<(), S::Error> {
        out.begin_map(Some(2))?;
        out.key("code")?;
        Value::from(self.code).serialize(out)?;
        out.key("message")?;
        out.str(self.message)?;
        out.end_map()
    }
}

impl Described for Id {
    ghost writes = { λ id. SendsValue (id_json id) };
}

impl Serialize for Id {
    /// Writes the id as JSON: a number or a text.
    ///
    /// # Errors
    ///
    /// The serializer's own, where it takes no more.
    fn serialize<S: Serializer>(&self, out: &mut S) -> Result<(), S::Error> {
        match self {
            Id::Number(number) => Value::from(*number).serialize(out),
            Id::Text(text) => out.str(text.as_str()),
        }
    }
}

/// The id, or null where it isn't known.
fn write_id<S: Serializer>(out: &mut S, id: Option<&Id>) -> Result<(), S::Error>
    ensures { OnOk result (SendsValue (id_or_null (option_copied id.entry)) (S.written out.old) (S.written out.new)) }
{
    match id {
        Some(id) => id.serialize(out),
        None => out.unit(),
    }
}
