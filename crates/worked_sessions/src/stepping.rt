//! The first session between a reader and a writer of std, on one thread (0 workers) and on several.
ghost use Rattle.std.specs.Prelude.{◌<◌, ◌≤◌};

use super::bodies::{
    CAPABILITIES, DOWN, EXIT, INITIALIZE, NOTHING_WRONG, OPEN, OUTLINE, SHUTDOWN, SYMBOLS,
    are_frames_of, frames, sorted,
};
use super::sessions::Open;
use super::std_devices::{SteppingReader, SteppingWriter};
use ls_server::{DeviceFault, ReadFrom, ServeFault, Sink, Status, WriteTo, serve_plain};
use ls_threads::{Served, serve_threads};
use std::alloc::Global;
use std::io::ErrorKind;
use std::sync::Wait;
use std::test::Fail;
use std::thread::Threads;

/// How many bytes a read gives: the input of 522 bytes takes six reads.
const STEP: usize = 100;

const SAID: [&str; 5] = [INITIALIZE, OPEN, SYMBOLS, SHUTDOWN, EXIT];

/// How a device fails. One that is interrupted may be called again; a writer isn't.
const BROKEN: ErrorKind = ErrorKind::BrokenPipe;

const KINDS: [ErrorKind; 2] = [BROKEN, ErrorKind::Interrupted];

/// What each of these leads to, but the last one.
const ANSWERED: [&str; 4] = [CAPABILITIES, NOTHING_WRONG, OUTLINE, DOWN];

// What a run left: its answer, what was written, and how often that was flushed.
#[derive(Drop)]
struct Left {
    answer: Result<Status, ServeFault>,
    bytes: Vec<u8>,
    flushes: u64,
}

fn left_by(answer: Result<Status, ServeFault>, sink: WriteTo<SteppingWriter>) -> Left {
    let WriteTo { writer, .. } = sink;
    let SteppingWriter { bytes, flushes, .. } = writer;
    Left {
        answer,
        bytes,
        flushes,
    }
}

// Serves the input with this many workers, on one thread with none.
fn served<R: Threads + Wait + Sync>(
    rt: &R,
    alloc: Global,
    reader: SteppingReader,
    writer: SteppingWriter,
    workers: u32,
) -> Left
    requires { workers ≤ 8 }
{
    let mut source = ReadFrom::new(reader);
    let mut sink = WriteTo::new(writer);
    if workers == 0 {
        let answer = serve_plain(alloc, &mut source, &mut sink);
        return left_by(answer, sink);
    }
    let Served { answer, sink, .. } = serve_threads(rt, alloc, source, sink, workers, &Open);
    left_by(answer, sink)
}

// A writer. The numbers are those of the write and of the flush that fail so.
fn writer(alloc: Global, write: u64, flush: u64, kind: ErrorKind) -> SteppingWriter {
    SteppingWriter {
        bytes: Vec::new(alloc),
        writes: 0,
        flushes: 0,
        write_fails_at: write,
        flush_fails_at: flush,
        kind,
    }
}

// Serves the first session. The numbers are those of the read that is interrupted, and of the read, the write and the flush that fail.
fn first_session<R: Threads + Wait + Sync>(
    rt: &R,
    alloc: Global,
    workers: u32,
    interrupted_at: u64,
    read: u64,
    write: u64,
    flush: u64,
    kind: ErrorKind,
) -> Result<Left, Fail>
    requires { workers ≤ 8 }
{
    let reader = SteppingReader {
        bytes: frames(alloc, &SAID)?,
        step: STEP,
        at: 0,
        calls: 0,
        interrupted_at,
        fails_at: read,
    };
    let writer = writer(alloc, write, flush, kind);
    Ok(served(rt, alloc, reader, writer, workers))
}

// One byte at a time, and each read interrupted in turn: all is written, and each body is flushed once.
#[test]
fn a_read_is_interrupted(rt: HostRuntime) -> Result<(), Fail> {
    let alloc = rt.alloc();
    let wanted = sorted(alloc, &frames(alloc, &ANSWERED)?)?;
    for workers in [0, 1, 4] {
        for read in 1..7 {
            let left = first_session(&rt, alloc, workers, read, 0, 0, 0, BROKEN)?;
            assert!(rt; left.answer == Ok(Status::Clean));
            assert!(rt; sorted(alloc, &left.bytes)? == wanted);
            assert_eq!(rt; left.flushes, 4);
        }
    }
    Ok(())
}

// How many of the messages are answered that are whole in so many bytes of the input.
fn answered_in(alloc: Global, heard: usize) -> Result<usize, Fail> {
    let mut count = 0;
    for number in 0..ANSWERED.len() {
        if frames(alloc, &SAID[..number + 1])?.len() <= heard {
            count = number + 1;
        }
    }
    Ok(count.min(ANSWERED.len()))
}

// Whether just this read fails is told, and of what came before it at most the answers are written: on one thread all of them, in order.
fn is_told_of_read(alloc: Global, left: &Left, workers: u32, heard: usize) -> Result<bool, Fail> {
    let count = answered_in(alloc, heard)?.min(ANSWERED.len());
    let answers = &ANSWERED[..count];
    let told = left.answer == Err(ServeFault::Read);
    if workers == 0 {
        return Ok(told && left.bytes == frames(alloc, answers)?);
    }
    Ok(told && are_frames_of(alloc, &left.bytes, answers)?)
}

#[test]
fn a_read_of_std_fails(rt: HostRuntime) -> Result<(), Fail> {
    let alloc = rt.alloc();
    for workers in [0, 1, 4] {
        let mut heard = 0_usize;
        for read in 1..7 {
            let left = first_session(&rt, alloc, workers, 0, read, 0, 0, BROKEN)?;
            assert!(rt; is_told_of_read(alloc, &left, workers, heard)?);
            heard = heard.saturating_add(STEP);
        }
    }
    Ok(())
}

// As many bytes have been taken as writes came before the one that fails or is interrupted: frames of what is answered, and a front of one more.
#[test]
fn a_write_of_std_fails(rt: HostRuntime) -> Result<(), Fail> {
    let alloc = rt.alloc();
    for kind in KINDS {
        for workers in [0, 1, 4] {
            for write in [1, 2, 24, 503, 504, 505, 645, 700, 900, 942] {
                let left = first_session(&rt, alloc, workers, 0, 0, write, 0, kind)?;
                assert!(rt; left.answer == Err(ServeFault::Write));
                assert_eq!(rt; left.bytes.len() as u64, write - 1);
                assert!(rt; are_frames_of(alloc, &left.bytes, &ANSWERED)?);
            }
        }
    }
    Ok(())
}

// As many whole frames have been taken as the number of the flush that fails or is interrupted, and nothing behind them.
#[test]
fn a_flush_of_std_fails(rt: HostRuntime) -> Result<(), Fail> {
    let alloc = rt.alloc();
    for kind in KINDS {
        for workers in [0, 1, 4] {
            for flush in 1..5 {
                let left = first_session(&rt, alloc, workers, 0, 0, 0, flush, kind)?;
                assert!(rt; left.answer == Err(ServeFault::Write));
                assert_eq!(rt; left.flushes, flush);
                assert_eq!(rt; sorted(alloc, &left.bytes)?.len() as u64, flush);
                assert!(rt; are_frames_of(alloc, &left.bytes, &ANSWERED)?);
            }
        }
    }
    Ok(())
}

// Whether a write is answered by `Failed` where its writer fails so, and a flush too, and the sink says that it has failed.
fn is_failed(alloc: Global, kind: ErrorKind) -> bool {
    let mut sink = WriteTo::new(writer(alloc, 1, 0, kind));
    let written = sink.write(b"x") == Err(DeviceFault::Failed) && sink.failed;
    let mut sink = WriteTo::new(writer(alloc, 0, 1, kind));
    let taken = sink.write(b"x") == Ok(1) && !sink.failed;
    let flushed = sink.flush() == Err(DeviceFault::Failed) && sink.failed && sink.unflushed;
    written && taken && flushed
}

#[test]
fn a_writer_of_std_fails(rt: HostRuntime) {
    for kind in KINDS {
        assert!(rt; is_failed(rt.alloc(), kind));
    }
}
