//! A document that is closed and opened again, with texts that are near to each other.

use super::bodies::{CAPABILITIES, INITIALIZE, NOTHING_WRONG, frames};
use super::by_steps::run_through;
use ls_steps::Step;
use std::test::Fail;

/// Three rules, with which nothing is wrong, and the label 1.
const OPEN: &str =
    r#"{"jsonrpc":"2.0","method":"textDocument/didOpen","params":{"textDocument":{"uri":"file:///g","languageId":"abnf","version":1,"text":"a = b\nb = c\nc = \"x\"\n"}}}"#;

/// The same, but that the second rule has a name that isn't defined, and the label 2.
const OPEN_NEAR: &str =
    r#"{"jsonrpc":"2.0","method":"textDocument/didOpen","params":{"textDocument":{"uri":"file:///g","languageId":"abnf","version":2,"text":"a = b\nb = d\nc = \"x\"\n"}}}"#;

const CLOSE: &str =
    r#"{"jsonrpc":"2.0","method":"textDocument/didClose","params":{"textDocument":{"uri":"file:///g"}}}"#;

/// The first two rules generate nothing, and the name isn't defined.
const WRONG: &str =
    r#"{"jsonrpc":"2.0","method":"textDocument/publishDiagnostics","params":{"diagnostics":[{"code":"unproductive","message":"rule a generates nothing","range":{"end":{"character":1,"line":0},"start":{"character":0,"line":0}},"severity":2,"source":"abnf"},{"code":"unproductive","message":"rule b generates nothing","range":{"end":{"character":1,"line":1},"start":{"character":0,"line":1}},"severity":2,"source":"abnf"},{"code":"undefined","message":"undefined rule d","range":{"end":{"character":5,"line":1},"start":{"character":4,"line":1}},"severity":1,"source":"abnf"}],"uri":"file:///g","version":2}}"#;

const SAID: [&str; 8] = [
    INITIALIZE, OPEN, CLOSE, OPEN_NEAR, CLOSE, OPEN, CLOSE, OPEN_NEAR,
];

/// The third opening's job is taken before the document is closed, and runs behind the fourth opening.
const OVER_CLOSINGS: [Step; 20] = [
    Step::Message,
    Step::Message,
    Step::Take,
    Step::Finish(0),
    Step::Message,
    Step::Message,
    Step::Take,
    Step::Finish(0),
    Step::Message,
    Step::Message,
    Step::Take,
    Step::Message,
    Step::Message,
    Step::Take,
    Step::Finish(0),
    Step::Finish(0),
    Step::Send,
    Step::Send,
    Step::Send,
    Step::Send,
];

// Seven events of the client and the answer to `initialize`, four jobs that are taken and three that are handed in, and four that are sent.
#[test]
fn a_document_is_opened_again(rt: HostRuntime) -> Result<(), Fail> {
    let run = run_through(rt.alloc(), &frames(rt.alloc(), &SAID)?, &OVER_CLOSINGS)?;
    let wanted = frames(rt.alloc(), &[CAPABILITIES, NOTHING_WRONG, WRONG, WRONG])?;
    assert!(rt; run.bytes.as_slice() == wanted.as_slice());
    assert_eq!(rt; run.events, 19);
    assert!(rt; run.status.is_none());
    Ok(())
}
