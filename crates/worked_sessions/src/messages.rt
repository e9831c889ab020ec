//! What a request and a notice have, with parameters and without. What they are answered stands in `tools/session_rows.py`, and so do other
//! bodies.

use ls_rpc::{Id, Message, read_message};
use serde_json::Value;
use std::alloc::{AllocError as Memory, Global};

fn is_request(message: &Message) -> bool {
    match message {
        Message::Request {
            id: Id::Text(id),
            method,
            params,
        } => id.as_str() == "x" && method.as_str() == "m" && params.as_bool() == Some(true),
        _ => false,
    }
}

fn is_notice(message: &Message) -> bool {
    match message {
        Message::Notice {
            method,
            params: Value::Null,
        } => method.as_str() == "m",
        _ => false,
    }
}

const REQUEST: &str = "{\"id\":\"x\",\"method\":\"m\",\"params\":true}";

fn reads_request(alloc: Global) -> Result<bool, Memory> {
    Ok(is_request(&read_message(alloc, REQUEST.as_bytes())?))
}

const NOTICE: &str = "{\"method\":\"m\"}";

fn reads_notice(alloc: Global) -> Result<bool, Memory> {
    Ok(is_notice(&read_message(alloc, NOTICE.as_bytes())?))
}

#[test]
fn parameters(rt: HostRuntime) -> Result<(), Memory> {
    assert!(rt; reads_request(rt.alloc())?);
    assert!(rt; reads_notice(rt.alloc())?);
    Ok(())
}
