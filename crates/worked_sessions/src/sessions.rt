//! A session with an outline, by any number of workers, and with devices that fail.
ghost use Rattle.std.specs.Prelude.{◌<◌, ◌≤◌};

use super::bodies::{
    CAPABILITIES, DOWN, EXIT, INITIALIZE, NOTHING_WRONG, OPEN, OUTLINE, SHUTDOWN, SYMBOLS,
    are_frames_of, frames, sorted,
};
use super::devices::{Bytes, Noting};
use ls_server::{ServeFault, Status, serve_limited};
use ls_threads::{Gate, Limits, Served, serve_threads, serve_with_limits};
use std::alloc::Global;
use std::sync::atomic::AtomicU64;
use std::sync::{Arc, Wait};
use std::test::Fail;
use std::thread::Threads;

/// Holds no worker back.
#[derive(Drop)]
pub struct Open;

impl Gate for Open {
    fn pass<R: Wait>(&self, _rt: &R, _ticket: u64) {}
}

/// How a run ended, and what it wrote.
#[derive(Drop)]
pub struct Left {
    pub answer: Result<Status, ServeFault>,
    pub bytes: Vec<u8>,
}

/// Serves the input with two workers, by a journal that begins anew once it has so many events.
pub fn serves_anew<R: Threads + Wait + Sync>(
    rt: &R,
    alloc: Global,
    input: Vec<u8>,
    max_journal: usize,
) -> Result<Left, Fail>
    requires { (0 < max_journal) × (max_journal ≤ 1000000) }
{
    let seen = Arc::new(alloc, AtomicU64::new(0))?;
    let source = Bytes::new(input, 0);
    let sink = Noting::new(alloc, b"none of these bytes", seen, 0)?;
    let limits = Limits {
        workers: 2,
        journal: max_journal,
    };
    let Served {
        answer,
        source: _,
        sink,
    } = serve_with_limits(rt, alloc, source, sink, limits, &Open);
    Ok(Left {
        answer,
        bytes: sink.into_bytes(),
    })
}

/// Serves the input with this many workers. The numbers are those of the read that fails and of the write or flush that does, 0 for none.
pub fn serves<R: Threads + Wait + Sync, G: Gate + Sync>(
    rt: &R,
    alloc: Global,
    input: Vec<u8>,
    workers: u32,
    fails: (u64, u64),
    gate: &G,
) -> Result<Left, Fail>
    requires { (0 < workers) × (workers ≤ 8) }
{
    let seen = Arc::new(alloc, AtomicU64::new(0))?;
    let source = Bytes::new(input, fails.0);
    let sink = Noting::new(alloc, b"none of these bytes", seen, fails.1)?;
    let Served {
        answer,
        source: _,
        sink,
    } = serve_threads(rt, alloc, source, sink, workers, gate);
    Ok(Left {
        answer,
        bytes: sink.into_bytes(),
    })
}

const FIRST: [&str; 5] = [INITIALIZE, OPEN, SYMBOLS, SHUTDOWN, EXIT];

#[test]
fn the_first_session(rt: HostRuntime) -> Result<(), Fail> {
    let alloc = rt.alloc();
    let wanted = frames(alloc, &[CAPABILITIES, NOTHING_WRONG, OUTLINE, DOWN])?;
    for workers in [1, 2, 4, 8] {
        let left = serves(&rt, alloc, frames(alloc, &FIRST)?, workers, (0, 0), &Open)?;
        assert!(rt; left.answer == Ok(Status::Clean));
        assert!(rt; sorted(alloc, &left.bytes)? == sorted(alloc, &wanted)?);
    }
    Ok(())
}

const ASKED: [&str; 3] = [INITIALIZE, OPEN, SYMBOLS];

const ANSWERED: [&str; 3] = [CAPABILITIES, NOTHING_WRONG, OUTLINE];

// The first read gives the whole input, and the second its end. No frame is cut.
#[test]
fn a_read_fails(rt: HostRuntime) -> Result<(), Fail> {
    let alloc = rt.alloc();
    for workers in [1, 2, 4] {
        let left = serves(&rt, alloc, frames(alloc, &ASKED)?, workers, (1, 0), &Open)?;
        assert!(rt; left.answer == Err(ServeFault::Read));
        assert!(rt; left.bytes.is_empty());
        let left = serves(&rt, alloc, frames(alloc, &ASKED)?, workers, (2, 0), &Open)?;
        assert!(rt; left.answer == Err(ServeFault::Read));
        assert!(rt; are_frames_of(alloc, &left.bytes, &ANSWERED)?);
        assert!(rt; sorted(alloc, &left.bytes)?.len() <= ANSWERED.len());
    }
    Ok(())
}

// Three bodies are written, each by a write and a flush.
#[test]
fn a_write_fails(rt: HostRuntime) -> Result<(), Fail> {
    let alloc = rt.alloc();
    for workers in [1, 2, 4] {
        for call in 1..7 {
            let left = serves(
                &rt,
                alloc,
                frames(alloc, &ASKED)?,
                workers,
                (0, call),
                &Open,
            )?;
            assert!(rt; left.answer == Err(ServeFault::Write));
            assert!(rt; are_frames_of(alloc, &left.bytes, &ANSWERED)?);
            assert_eq!(rt; sorted(alloc, &left.bytes)?.len() as u64, call / 2);
        }
    }
    let left = serves(&rt, alloc, frames(alloc, &ASKED)?, 2, (0, 7), &Open)?;
    assert!(rt; left.answer == Ok(Status::Unclean));
    Ok(())
}

// On one thread, where the first read is one too many.
#[test]
fn no_read_is_allowed(rt: HostRuntime) -> Result<(), Fail> {
    let alloc = rt.alloc();
    let mut source = Bytes::new(frames(alloc, &["{}"])?, 0);
    let seen = Arc::new(alloc, AtomicU64::new(0))?;
    let mut sink = Noting::new(alloc, b"none of these bytes", seen, 0)?;
    let answer = serve_limited(alloc, &mut source, &mut sink, 1);
    let bytes = sink.into_bytes();
    assert!(rt; answer == Err(ServeFault::Read));
    assert!(rt; bytes.is_empty());
    Ok(())
}
