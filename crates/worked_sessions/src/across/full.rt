//! A session that is full, by a limit of a few events and unsent replies: nothing is heard, taken or run any more, and what is unsent is sent.
ghost use Rattle.std.specs.Prelude.{◌<◌, ◌≤◌};

use crate::bodies::{CAPABILITIES, INITIALIZE, frames};
use ls_desk::Counts;
use ls_session::Status;
use ls_steps::Conversation;
use std::alloc::{AllocError, Global};
use std::test::Fail;

/// The document `file:///g` with the label 1 and the text `a = "x"`.
const OPEN: &str =
    r#"{"jsonrpc":"2.0","method":"textDocument/didOpen","params":{"textDocument":{"uri":"file:///g","version":1,"text":"a = \"x\""}}}"#;

const HOVER: &str =
    r#"{"jsonrpc":"2.0","id":2,"method":"textDocument/hover","params":{"textDocument":{"uri":"file:///g"},"position":{"line":0,"character":0}}}"#;

const HOVER_AGAIN: &str =
    r#"{"jsonrpc":"2.0","id":3,"method":"textDocument/hover","params":{"textDocument":{"uri":"file:///g"},"position":{"line":0,"character":0}}}"#;

const NOTHING_WRONG: &str =
    r#"{"jsonrpc":"2.0","method":"textDocument/publishDiagnostics","params":{"diagnostics":[],"uri":"file:///g","version":1}}"#;

const HOVERED: &str =
    r#"{"id":2,"jsonrpc":"2.0","result":{"contents":{"kind":"plaintext","value":"shortest length 1\nexample x"},"range":{"end":{"character":1,"line":0},"start":{"character":0,"line":0}}}}"#;

const HOVERED_AGAIN: &str =
    r#"{"id":3,"jsonrpc":"2.0","result":{"contents":{"kind":"plaintext","value":"shortest length 1\nexample x"},"range":{"end":{"character":1,"line":0},"start":{"character":0,"line":0}}}}"#;

/// The first so many of these bodies are sent, where so many events and unsent replies have come about: two by `initialize`, which is answered, one
/// each by an open, a hover and a take, and two by a job that has run.
fn replies(used: u64) -> &'static [&'static str] {
    match used {
        0 => &[],
        2 | 3 | 4 | 5 => &[CAPABILITIES],
        7 | 8 | 9 => &[CAPABILITIES, NOTHING_WRONG],
        11 | 12 => &[CAPABILITIES, NOTHING_WRONG, HOVERED],
        _ => &[CAPABILITIES, NOTHING_WRONG, HOVERED, HOVERED_AGAIN],
    }
}

fn work(talk: &mut Conversation) -> Result<(), AllocError> {
    talk.take()?;
    talk.finish(0)
}

// Says all, and runs the jobs.
fn act(talk: &mut Conversation) -> Result<(), AllocError> {
    talk.hear(INITIALIZE.as_bytes())?;
    talk.hear(OPEN.as_bytes())?;
    talk.hear(HOVER.as_bytes())?;
    work(talk)?;
    talk.hear(HOVER_AGAIN.as_bytes())?;
    work(talk)?;
    work(talk)
}

// What is to be said, up to five frames.
fn sent(talk: &mut Conversation, alloc: Global) -> Result<Vec<u8>, AllocError> {
    let mut bytes = Vec::new(alloc);
    for _ in 0..5u32 {
        if let Some(frame) = talk.send()? {
            bytes.extend_from_slice(&frame)?;
        }
    }
    Ok(bytes)
}

// Sends these bytes, and nothing more where all is said and run once more.
fn sends(talk: &mut Conversation, alloc: Global, wanted: &[u8]) -> Result<bool, AllocError> {
    act(talk)?;
    let first = sent(talk, alloc)?;
    act(talk)?;
    let more = sent(talk, alloc)?;
    Ok(first.as_slice() == wanted && more.is_empty())
}

// How many events there were.
fn events(talk: Conversation) -> u64 {
    let desk = talk.into_desk();
    let Counts {
        client,
        took,
        returned,
        finished,
        sent,
    } = desk.counts();
    drop(desk);
    let worked = took.saturating_add(returned).saturating_add(finished);
    client.saturating_add(worked).saturating_add(sent)
}

// The number itself, from 1 to 1,000.
fn limit(number: u64) -> u64
    ensures { (0 < result) × (result ≤ 1000000) }
{
    number.max(1).min(1_000)
}

// Whether a session by such a journal and so many events and unsent replies comes to so many of them, is full then, and sends what is unsent.
fn is_full(alloc: Global, max_journal: u64, max_events: u64, used: u64) -> Result<bool, Fail> {
    let wanted = frames(alloc, replies(used))?;
    let mut talk = Conversation::with_limits(alloc, limit(max_journal) as usize, limit(max_events));
    let sends = sends(&mut talk, alloc, &wanted);
    let status = talk.status();
    let events = events(talk);
    Ok(sends? && status == Some(Status::Full) && events == used)
}

#[test]
fn sends_alone_act_in_a_full_session(rt: HostRuntime) -> Result<(), Fail> {
    let mut max_events = 0_u64;
    for used in [0, 2, 3, 4, 5, 5, 7, 8, 9, 9, 11, 12, 12] {
        max_events = max_events.saturating_add(1);
        assert!(rt; is_full(rt.alloc(), 1, max_events, used)?, "{max_events}");
        assert!(rt;
            is_full(rt.alloc(), 1_000, max_events, used)?,
            "{max_events}"
        );
    }
    Ok(())
}

// One event more, and the session isn't full before all is sent; then its client goes on until it is.
#[test]
fn a_session_ends_just_before_it_is_full(rt: HostRuntime) -> Result<(), Fail> {
    let mut talk = Conversation::with_limits(rt.alloc(), 1, 14);
    let acted = act(&mut talk);
    let status = talk.status();
    let bytes = sent(&mut talk, rt.alloc());
    let events = events(talk);
    let wanted = frames(rt.alloc(), replies(14))?;
    acted?;
    assert!(rt; status == None && events == 14);
    assert!(rt; bytes?.as_slice() == wanted.as_slice());
    Ok(())
}
