//! What the writer's thread does.
ghost use Rattle.std.specs.Prelude.{◌≡◌, [], false};
ghost use Rattle.std.specs.Io.KnownBytes.{Appends};
ghost use Rattle.ls_devices.specs.Devices.{AppendsPrefix};
ghost use Rattle.ls_history.specs.Told.{outs_of};
ghost use Rattle.ls_threads.specs.Ends.{has_failed};
ghost use Rattle.ls_threads.specs.Writing.{HasTold, HasWritten, frame_for};

use crate::ending::Wrote;
use ls_desk::{Desk, Out};
use ls_devices::{Sink, write_and_flush};
use ls_session::framed;
use ls_workers::{Board, Crew, Stop, WriterSeat};
use std::alloc::Global;
use std::snapshot::Snapshot;
use std::sync::Wait;
use std::thread::Promise;

/// The writer's seat, and its sink.
#[derive(Drop)]
pub struct Writer<C: Crew, W: Sink> {
    pub seat: WriterSeat<C>,
    pub sink: W,
    pub ghost good: { W.failed sink ≡ false },
}

/// What a writer leaves, and how it ended.
#[derive(Drop)]
pub struct Written<C: Crew, W: Sink> {
    pub seat: WriterSeat<C>,
    pub sink: W,
    pub end: Wrote,
    pub ghost failed: { W.failed sink ≡ has_failed end },
}

/// What a writer's thread promises of a sink that it was given: what it wrote there are the frames of the replies that its seat was given.
#[derive(Drop)]
pub struct Writes<W>(pub Snapshot<W>);

impl<C: Crew, W: Sink> Promise<Written<C, W>> for Writes<W> {
    ghost kept_by = { λ promise left. HasWritten (W.contents promise.0.value) (W.contents left.sink) (W.unflushed promise.0.value) (W.unflushed left.sink) left.end (outs_of left.seat.front) };
}

/// Writes the frame of a reply, and flushes it. `All`: all of it was written. `Failed`: a prefix of it was. `Memory`: nothing was. A sink
/// that held nothing back and doesn't fail holds nothing back.
pub fn put<W: Sink>(alloc: Global, sink: &mut W, out: Out) -> Wrote
    requires { W.failed sink.old ≡ false }
    ensures failed { W.failed sink.new ≡ has_failed result }
    ensures all { result ≡ Wrote.All → Appends (W.contents sink.old) (W.contents sink.new) (frame_for out) }
    ensures front { AppendsPrefix (W.contents sink.old) (W.contents sink.new) (frame_for out) }
    ensures none { result ≡ Wrote.Memory → Appends (W.contents sink.old) (W.contents sink.new) [] }
    ensures flushed { W.unflushed sink.old ≡ false → has_failed result ≡ false → W.unflushed sink.new ≡ false }
{
    let frame = framed(alloc, &out);
    drop(out);
    let Ok(frame) = frame else {
        return Wrote::Memory;
    };
    if write_and_flush(sink, &frame).is_err() {
        return Wrote::Failed;
    }
    Wrote::All
}

impl<C: Crew, W: Sink> Writer<C, W> {
    /// Writes what is said until there is nothing more. A fault ends the run for all.
    ///
    /// It waits for replies, and for the lock.
    pub fn write_on<R: Wait>(self, rt: &R, alloc: Global, board: &Board<C>) -> Written<C, W>
        requires none { outs_of self.seat.front ≡ [] }
        ensures { HasWritten (W.contents self.sink) (W.contents result.sink) (W.unflushed self.sink) (W.unflushed result.sink) result.end (outs_of result.seat.front) }
    {
        let Writer { mut seat, mut sink } = self;
        for _ in rt.forever() {
            let out = match board.next_out(rt, &mut seat) {
                Ok(Some(out)) => out,
                Ok(None) => {
                    return Written {
                        seat,
                        sink,
                        end: Wrote::All,
                    };
                }
                Err(_) => {
                    board.stop(rt, Stop::Now);
                    return Written {
                        seat,
                        sink,
                        end: Wrote::Memory,
                    };
                }
            };
            let end = put(alloc, &mut sink, out);
            match end {
                Wrote::All => {}
                Wrote::Failed | Wrote::Memory => {
                    board.stop(rt, Stop::Now);
                    return Written { seat, sink, end };
                }
            }
        }
        unreachable!()
    }
}

/// Writes what a closed board's desk still has unsent. `All`: all of it was written. Else the replies up to the one that broke it off have
/// left the desk, and of that one's frame at most a prefix was written.
pub fn write_rest<W: Sink>(alloc: Global, desk: &mut Desk, sink: &mut W) -> Wrote
    requires { W.failed sink.old ≡ false }
    ensures failed { W.failed sink.new ≡ has_failed result }
    ensures told { HasTold result desk.old desk.new (W.contents sink.old) (W.contents sink.new) }
    ensures all { result ≡ Wrote.All → desk.new.outbox ≡ [] }
    ensures flushed { W.unflushed sink.old ≡ false → has_failed result ≡ false → W.unflushed sink.new ≡ false }
{
    'replies: while let Some(out) = desk.next_out() {
        match put(alloc, sink, out) {
            Wrote::All => {}
            Wrote::Failed => return Wrote::Failed,
            Wrote::Memory => return Wrote::Memory,
        }
    }
    Wrote::All
}
