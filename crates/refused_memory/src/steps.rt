//! A session by steps, over changes of a document. It is begun anew where memory is refused to it.

use ls_frame::{FrameFault, write_frame};
use ls_steps::{Run, Step, run_steps};
use std::alloc::{AllocError, Global};
use std::io;

const INITIALIZE: &str = r#"{"jsonrpc":"2.0","id":1,"method":"initialize","params":{}}"#;

/// The document `file:///g` with the text `a = "x"`.
const OPEN: &str =
    r#"{"jsonrpc":"2.0","method":"textDocument/didOpen","params":{"textDocument":{"uri":"file:///g","version":1,"text":"a = \"x\""}}}"#;

const HOVER: &str =
    r#"{"jsonrpc":"2.0","id":2,"method":"textDocument/hover","params":{"textDocument":{"uri":"file:///g"},"position":{"line":0,"character":0}}}"#;

/// Changes to the whole texts `a = "yy"` and `a = "z"`.
const CHANGE: &str =
    r#"{"jsonrpc":"2.0","method":"textDocument/didChange","params":{"textDocument":{"uri":"file:///g","version":2},"contentChanges":[{"text":"a = \"yy\""}]}}"#;

const CHANGE_AGAIN: &str =
    r#"{"jsonrpc":"2.0","method":"textDocument/didChange","params":{"textDocument":{"uri":"file:///g","version":3},"contentChanges":[{"text":"a = \"z\""}]}}"#;

/// A rename that the second change ends, and one that is granted.
const RENAME: &str =
    r#"{"jsonrpc":"2.0","id":3,"method":"textDocument/rename","params":{"textDocument":{"uri":"file:///g"},"position":{"line":0,"character":0},"newName":"b"}}"#;

const RENAME_AGAIN: &str =
    r#"{"jsonrpc":"2.0","id":4,"method":"textDocument/rename","params":{"textDocument":{"uri":"file:///g"},"position":{"line":0,"character":0},"newName":"b"}}"#;

/// The hover is handed in after the first change. The rename that isn't wanted any more is handed in as the last but two jobs.
const STEPS: [Step; 26] = [
    Step::Message,
    Step::Message,
    Step::Take,
    Step::Finish(0),
    Step::Send,
    Step::Send,
    Step::Message,
    Step::Take,
    Step::Message,
    Step::Finish(0),
    Step::Send,
    Step::Take,
    Step::Finish(0),
    Step::Send,
    Step::Message,
    Step::Take,
    Step::Message,
    Step::Send,
    Step::Finish(0),
    Step::Take,
    Step::Finish(0),
    Step::Send,
    Step::Message,
    Step::Take,
    Step::Finish(0),
    Step::Send,
];

fn pushed(alloc: Global, stream: &mut Vec<u8>, body: &str) -> Result<(), AllocError> {
    match write_frame(alloc, body.as_bytes(), stream) {
        Ok(()) => Ok(()),
        Err(_) => Err(AllocError),
    }
}

// What the session writes.
fn written(alloc: Global) -> Result<Vec<u8>, AllocError> {
    let mut input = Vec::new(alloc);
    for body in [
        INITIALIZE,
        OPEN,
        HOVER,
        CHANGE,
        RENAME,
        CHANGE_AGAIN,
        RENAME_AGAIN,
    ] {
        pushed(alloc, &mut input, body)?;
    }
    let Run { bytes, desk, .. } = run_steps(alloc, &input, &STEPS)?;
    drop(desk);
    Ok(bytes)
}

/// Runs the session, and prints the frames that it writes.
pub fn run(rt: &HostRuntime) -> io::Result<()> {
    let alloc = rt.alloc();
    let bytes = match written(alloc) {
        Ok(bytes) => Ok(bytes),
        Err(AllocError) => written(alloc),
    };
    match bytes {
        Ok(bytes) => println!(rt; "{}", str::from_utf8(&bytes).unwrap_or("no text")),
        Err(AllocError) => println!(rt; "refused memory twice"),
    }
}
