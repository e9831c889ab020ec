//! Two hovers, the first of which is held back until the reply of the second has been written.
ghost use Rattle.std.specs.Prelude.{◌<◌, ◌≤◌};

use super::bodies::{EXIT, HOVER, HOVERED, INITIALIZE, OPEN, SHUTDOWN, frames};
use super::devices::{Bytes, Noting};
use ls_frame::Framer;
use ls_server::Status;
use ls_threads::{Gate, Served, serve_threads};
use std::alloc::Global;
use std::sync::atomic::{AtomicU64, Ordering};
use std::sync::{Arc, Mutex, Wait};
use std::test::Fail;
use std::thread;
use std::thread::Threads;

const SECOND_HOVER: &str =
    r#"{"jsonrpc":"2.0","id":3,"method":"textDocument/hover","params":{"textDocument":{"uri":"file:///g"},"position":{"line":0,"character":0}}}"#;

const SECOND_HOVERED: &str =
    r#"{"id":3,"jsonrpc":"2.0","result":{"contents":{"kind":"plaintext","value":"shortest length 1\nexample x"},"range":{"end":{"character":1,"line":0},"start":{"character":0,"line":0}}}}"#;

// Holds ticket 2, that of the first hover, until the sink has seen the reply of the second, for a million turns at most.
#[derive(Drop)]
struct HoldsFirst {
    seen: Arc<AtomicU64>,
    turns: Mutex<u64>,
    gave_up: AtomicU64,
}

impl Gate for HoldsFirst {
    fn pass<R: Wait>(&self, rt: &R, ticket: u64) {
        if ticket != 2 {
            return;
        }
        for _ in 0..1_000_000 {
            if self.seen.load(Ordering::SeqCst) != 0 {
                return;
            }
            let mut turns = self.turns.lock(rt);
            *turns = turns.saturating_add(1);
            drop(turns);
            thread::yield_now();
        }
        self.gave_up.store(1, Ordering::SeqCst);
    }
}

// The place of a body among those that are written.
fn place_of(bodies: &[Vec<u8>], wanted: &str) -> Option<usize> {
    bodies
        .iter()
        .position(|body| body.as_slice() == wanted.as_bytes())
}

// Whether the second hover is answered before the first, and the gate didn't give up.
fn overtakes<R: Threads + Wait + Sync>(rt: &R, alloc: Global, workers: u32) -> Result<bool, Fail>
    requires { (0 < workers) × (workers ≤ 8) }
{
    let input = frames(
        alloc,
        &[INITIALIZE, OPEN, HOVER, SECOND_HOVER, SHUTDOWN, EXIT],
    )?;
    let seen = Arc::new(alloc, AtomicU64::new(0))?;
    let gate = HoldsFirst {
        seen: seen.clone()?,
        turns: Mutex::new(0),
        gave_up: AtomicU64::new(0),
    };
    let sink = Noting::new(alloc, br#"{"id":3,"#, seen, 0)?;
    let Served {
        answer,
        source: _,
        sink,
    } = serve_threads(rt, alloc, Bytes::new(input, 0), sink, workers, &gate);
    let mut bodies = Vec::new(alloc);
    Framer::new(alloc).feed(&sink.into_bytes(), &mut bodies)?;
    let first = place_of(&bodies, HOVERED);
    let second = place_of(&bodies, SECOND_HOVERED);
    let overtaken = match (first, second) {
        (Some(first), Some(second)) => second < first,
        _ => false,
    };
    let held = gate.gave_up.load(Ordering::SeqCst) == 0;
    Ok(answer == Ok(Status::Clean) && overtaken && held)
}

#[test]
fn the_second_hover_overtakes_the_first(rt: HostRuntime) -> Result<(), Fail> {
    for workers in [2, 4, 8] {
        assert!(rt; overtakes(&rt, rt.alloc(), workers)?);
    }
    Ok(())
}
