//! When a session heeds a cancel, and how requests are refused as a server on one thread never refuses them. What it makes of other
//! messages, and what it answers, stands in `tools/session_rows.py`.

use ls_desk::DeskFault;
use ls_rpc::Id;
use ls_session::{ClientEvent, Session, Turn, refusal_body};
use std::alloc::{AllocError as Memory, Global};
use std::test::Fail;

/// The body of `initialize` by a client that offers `documentChanges`.
const INITIALIZE: &[u8] =
    b"{\"id\":1,\"method\":\"initialize\",\"params\":{\"capabilities\":{\"workspace\":{\"workspaceEdit\":{\"documentChanges\":true}}}}}";

const CLOSE: &[u8] =
    b"{\"method\":\"textDocument/didClose\",\"params\":{\"textDocument\":{\"uri\":\"file:///g\"}}}";

const SHUTDOWN: &[u8] = b"{\"id\":3,\"method\":\"shutdown\"}";

const CANCEL: &[u8] = b"{\"method\":\"$/cancelRequest\",\"params\":{\"id\":\"q\"}}";

/// Goes on by a body, whatever it comes to.
fn pass(session: &mut Session, body: &[u8]) -> Result<(), Memory> {
    let turn = session.event(body)?;
    drop(turn);
    Ok(())
}

/// Whether what the session makes of a body is this.
fn makes<F: FnOnce(&Turn) -> bool>(
    session: &mut Session,
    body: &[u8],
    is_it: F,
) -> Result<bool, Memory>
    requires { F.IsAlwaysCallable is_it }
{
    let turn = session.event(body)?;
    let is_so = is_it(&turn);
    drop(turn);
    Ok(is_so)
}

/// Whether the session makes nothing of a body.
fn is_ignored(session: &mut Session, body: &[u8]) -> Result<bool, Memory> {
    makes(session, body, |turn| matches!(turn, Turn::Nothing))
}

/// Whether this cancels the request with the id `q`.
fn cancels(turn: &Turn) -> bool {
    match turn {
        Turn::Event(ClientEvent::Cancel(Id::Text(id))) => id.as_str() == "q",
        _ => false,
    }
}

/// Whether the session cancels that request.
fn is_cancelled(session: &mut Session) -> Result<bool, Memory> {
    makes(session, CANCEL, cancels)
}

#[test]
fn a_cancel(rt: HostRuntime) -> Result<(), Fail> {
    let mut session = Session::new(rt.alloc());
    assert!(rt; is_ignored(&mut session, CANCEL)?);
    pass(&mut session, INITIALIZE)?;
    assert!(rt; is_cancelled(&mut session)?);
    pass(&mut session, SHUTDOWN)?;
    assert!(rt; is_cancelled(&mut session)?);
    assert!(rt; is_ignored(&mut session, CLOSE)?);
    Ok(())
}

/// Whether a refusal of the request with id 2 for this fault has this body, which is none where it is empty.
fn refuses(alloc: Global, fault: DeskFault, wanted: &str) -> Result<bool, Memory> {
    match &refusal_body(alloc, &Id::Number(2), fault)? {
        Some(body) => Ok(body.as_slice() == wanted.as_bytes()),
        None => Ok(wanted.is_empty()),
    }
}

#[test]
fn refusals(rt: HostRuntime) -> Result<(), Fail> {
    let alloc = rt.alloc();
    assert!(rt;
        refuses(
            alloc,
            DeskFault::IdInUse,
            "{\"error\":{\"code\":-32600,\"message\":\"id in use\"},\"id\":2,\"jsonrpc\":\"2.0\"}"
        )?
    );
    assert!(rt;
        refuses(
            alloc,
            DeskFault::TooManyWaiting,
            "{\"error\":{\"code\":-32803,\"message\":\"too many requests waiting\"},\"id\":2,\"jsonrpc\":\"2.0\"}"
        )?
    );
    assert!(rt; refuses(alloc, DeskFault::TooLarge, "")?);
    Ok(())
}
