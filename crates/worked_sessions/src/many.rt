//! Two hundred changes with a hover each: every request has the one reply that a run on one thread gives it.

use super::bodies::{EXIT, INITIALIZE, OPEN, SHUTDOWN, push, replies};
use super::devices::{Bytes, Noting};
use super::sessions::{Open, serves, serves_anew};
use ls_server::{Status, serve_plain};
use ls_threads::Gate;
use std::alloc::Global;
use std::sync::atomic::AtomicU64;
use std::sync::{Arc, Mutex, Wait};
use std::test::Fail;

/// How many changes there are, and hovers.
pub const CHANGES: u64 = 200;

// Holds each ticket for some turns, up to 255, that the seed and the ticket draw.
#[derive(Drop)]
struct Dawdles {
    seed: u64,
    turns: Mutex<u64>,
}

impl Gate for Dawdles {
    fn pass<R: Wait>(&self, rt: &R, ticket: u64) {
        let drawn = ticket
            .wrapping_add(self.seed)
            .wrapping_mul(0x9e37_79b9_7f4a_7c15)
            >> 56;
        for _ in 0..drawn {
            let mut turns = self.turns.lock(rt);
            *turns = turns.saturating_add(1);
        }
    }
}

// A change to the whole text `a = i"x"` with a label, and a hover on its rule, with the id i + 1.
fn push_change(alloc: Global, stream: &mut Vec<u8>, i: u64, label: u64) -> Result<(), Fail> {
    let change = format!(in alloc;
        r#"{{"jsonrpc":"2.0","method":"textDocument/didChange","params":{{"textDocument":{{"uri":"file:///g","version":{label}}},"contentChanges":[{{"text":"a = {i}\"x\""}}]}}}}"#
    )?;
    push(alloc, stream, change.as_str())?;
    let id = i.saturating_add(1);
    let hover = format!(in alloc;
        r#"{{"jsonrpc":"2.0","id":{id},"method":"textDocument/hover","params":{{"textDocument":{{"uri":"file:///g"}},"position":{{"line":0,"character":0}}}}}}"#
    )?;
    push(alloc, stream, hover.as_str())
}

/// What the client says. The label of the first change is 2, and that of each later one so much higher.
pub fn input(alloc: Global, higher: u64) -> Result<Vec<u8>, Fail> {
    let mut stream = Vec::new(alloc);
    push(alloc, &mut stream, INITIALIZE)?;
    push(alloc, &mut stream, OPEN)?;
    let mut label = 2_u64;
    for i in 1..CHANGES + 1 {
        push_change(alloc, &mut stream, i, label)?;
        label = label.saturating_add(higher);
    }
    push(alloc, &mut stream, SHUTDOWN)?;
    push(alloc, &mut stream, EXIT)?;
    Ok(stream)
}

// What a run on one thread writes.
fn written_plainly(alloc: Global) -> Result<Vec<u8>, Fail> {
    let mut source = Bytes::new(input(alloc, 1)?, 0);
    let seen = Arc::new(alloc, AtomicU64::new(0))?;
    let mut sink = Noting::new(alloc, b"none of these bytes", seen, 0)?;
    match serve_plain(alloc, &mut source, &mut sink) {
        Ok(_) => Ok(sink.into_bytes()),
        Err(_) => Ok(Vec::new(alloc)),
    }
}

#[test]
fn each_request_has_one_reply(rt: HostRuntime) -> Result<(), Fail> {
    let alloc = rt.alloc();
    let wanted = replies(alloc, &written_plainly(alloc)?)?;
    assert!(rt; wanted.len() == 202);
    for workers in [1, 2, 4, 8] {
        let left = serves(&rt, alloc, input(alloc, 1)?, workers, (0, 0), &Open)?;
        assert!(rt; left.answer == Ok(Status::Clean));
        assert!(rt; replies(alloc, &left.bytes)? == wanted);
    }
    Ok(())
}

#[test]
fn each_request_has_one_reply_whoever_dawdles(rt: HostRuntime) -> Result<(), Fail> {
    let alloc = rt.alloc();
    let wanted = replies(alloc, &written_plainly(alloc)?)?;
    for seed in 0..4 {
        let gate = Dawdles {
            seed,
            turns: Mutex::new(0),
        };
        let left = serves(&rt, alloc, input(alloc, 1)?, 4, (0, 0), &gate)?;
        assert!(rt; left.answer == Ok(Status::Clean));
        assert!(rt; replies(alloc, &left.bytes)? == wanted);
    }
    Ok(())
}

// The journal begins anew with each event of the client, or nearly so, and the audit finds nothing at any of these times.
#[test]
fn each_request_has_one_reply_by_short_journals(rt: HostRuntime) -> Result<(), Fail> {
    let alloc = rt.alloc();
    let wanted = replies(alloc, &written_plainly(alloc)?)?;
    for max_journal in [1, 2, 3, 50] {
        let left = serves_anew(&rt, alloc, input(alloc, 1)?, max_journal)?;
        assert!(rt; left.answer == Ok(Status::Clean));
        assert!(rt; replies(alloc, &left.bytes)? == wanted);
    }
    Ok(())
}
