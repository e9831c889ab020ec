//! Requests that are answered, ended by a change, cancelled or refused.

use super::bodies::{CAPABILITIES, HOVER, HOVERED, INITIALIZE, NOTHING_WRONG, OPEN, frames};
use super::by_steps::{Left, run_through};
use ls_steps::Step;
use std::alloc::Global;
use std::test::Fail;

/// A change to the whole text `a = "yy"`, with the label 2.
const CHANGE: &str =
    r#"{"jsonrpc":"2.0","method":"textDocument/didChange","params":{"textDocument":{"uri":"file:///g","version":2},"contentChanges":[{"text":"a = \"yy\""}]}}"#;

const RENAME: &str =
    r#"{"jsonrpc":"2.0","id":3,"method":"textDocument/rename","params":{"textDocument":{"uri":"file:///g"},"position":{"line":0,"character":0},"newName":"b"}}"#;

/// A change to the whole text `a = "z"`, with the label 3.
const CHANGE_AGAIN: &str =
    r#"{"jsonrpc":"2.0","method":"textDocument/didChange","params":{"textDocument":{"uri":"file:///g","version":3},"contentChanges":[{"text":"a = \"z\""}]}}"#;

const CANCEL: &str = r#"{"jsonrpc":"2.0","method":"$/cancelRequest","params":{"id":2}}"#;

const NOTHING_WRONG_THEN: &str =
    r#"{"jsonrpc":"2.0","method":"textDocument/publishDiagnostics","params":{"diagnostics":[],"uri":"file:///g","version":2}}"#;

const MODIFIED: &str =
    r#"{"error":{"code":-32801,"message":"content modified"},"id":3,"jsonrpc":"2.0"}"#;

const CANCELLED: &str =
    r#"{"error":{"code":-32800,"message":"request cancelled"},"id":2,"jsonrpc":"2.0"}"#;

const NOT_OPEN: &str =
    r#"{"error":{"code":-32602,"message":"document not open"},"id":2,"jsonrpc":"2.0"}"#;

/// Steps over the changes of a document. The last one hands in a rename that isn't wanted any more.
const OVER_CHANGES: [Step; 19] = [
    Step::Message,
    Step::Message,
    Step::Take,
    Step::Finish(0),
    Step::Send,
    Step::Send,
    Step::Message,
    Step::Take,
    Step::Message,
    Step::Finish(0),
    Step::Send,
    Step::Take,
    Step::Finish(0),
    Step::Send,
    Step::Message,
    Step::Take,
    Step::Message,
    Step::Send,
    Step::Finish(0),
];

/// A run over the changes of a document, by so many steps.
fn changed(alloc: Global, steps: usize) -> Result<Left, Fail> {
    let input = frames(
        alloc,
        &[INITIALIZE, OPEN, HOVER, CHANGE, RENAME, CHANGE_AGAIN],
    )?;
    Ok(run_through(alloc, &input, &OVER_CHANGES[..steps.min(19)])?)
}

// The hover is answered about the text that was open when it was asked.
#[test]
fn a_change_ends_a_rename_and_no_hover(rt: HostRuntime) -> Result<(), Fail> {
    let run = changed(rt.alloc(), 18)?;
    let wanted = frames(
        rt.alloc(),
        &[
            CAPABILITIES,
            NOTHING_WRONG,
            HOVERED,
            NOTHING_WRONG_THEN,
            MODIFIED,
        ],
    )?;
    assert_eq!(rt; HOVERED.len(), 180);
    assert!(rt; run.bytes.as_slice() == wanted.as_slice());
    assert_eq!(rt; run.events, 18);
    Ok(())
}

#[test]
fn a_job_that_is_not_wanted_leaves_nothing(rt: HostRuntime) -> Result<(), Fail> {
    let run = changed(rt.alloc(), 18)?;
    let later = changed(rt.alloc(), 19)?;
    assert!(rt; run.bytes.as_slice() == later.bytes.as_slice());
    assert_eq!(rt; later.events, 18);
    Ok(())
}

#[test]
fn a_cancel_is_told(rt: HostRuntime) -> Result<(), Fail> {
    let input = frames(rt.alloc(), &[INITIALIZE, OPEN, HOVER, CANCEL])?;
    let steps = [
        Step::Message,
        Step::Message,
        Step::Message,
        Step::Take,
        Step::Take,
        Step::Message,
        Step::Finish(1),
        Step::Finish(0),
        Step::Send,
        Step::Send,
        Step::Send,
    ];
    let run = run_through(rt.alloc(), &input, &steps)?;
    let wanted = frames(rt.alloc(), &[CAPABILITIES, CANCELLED, NOTHING_WRONG])?;
    assert!(rt; run.bytes.as_slice() == wanted.as_slice());
    Ok(())
}

#[test]
fn a_request_about_no_document_is_refused(rt: HostRuntime) -> Result<(), Fail> {
    let input = frames(rt.alloc(), &[INITIALIZE, HOVER])?;
    let steps = [Step::Message, Step::Message, Step::Send, Step::Send];
    let run = run_through(rt.alloc(), &input, &steps)?;
    let wanted = frames(rt.alloc(), &[CAPABILITIES, NOT_OPEN])?;
    assert!(rt; run.bytes.as_slice() == wanted.as_slice());
    assert!(rt; run.status.is_none());
    Ok(())
}
