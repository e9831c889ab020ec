//! The run: the threads are made, joined, and their board is closed.
ghost use denote.Param.Send.{IsSend};
ghost use Rattle.std.specs.Prelude.{◌≡◌, ◌+◌, ◌<◌, ◌≤◌, ◌==◌, ◌||◌, ◌++◌, ◌∷◌, ◌≢◌, IfOk, OnOk, [], false, sum_by, true, vec_len, vec_capacity};
ghost use Rattle.std.specs.Io.KnownBytes.{Appends};
ghost use Rattle.ls_session.specs.declared.session.Stage.TheVariants.{BeforeInitialize};
ghost use Rattle.ls_history.specs.Told.{heard_of, outs_of};
ghost use Rattle.ls_workers.specs.Jobs.{HasLimits};
ghost use Rattle.ls_workers.specs.Seats.{AreAll, logged_by};
ghost use Rattle.ls_threads.specs.own.Audit.{IsAnswered, left_by_threads};
ghost use Rattle.ls_devices.specs.Ends.{has_cause};
ghost use Rattle.ls_devices.specs.declared.fault.TheConstants.{READS_END};
ghost use Rattle.ls_threads.specs.Ends.{has_failed, worked_by, worse};
ghost use Rattle.ls_threads.specs.Input.{HasHeard};
ghost use Rattle.ls_threads.specs.Served.{IsServed};
ghost use Rattle.ls_threads.specs.Writing.{HasWritten, SaysTheRest, WritesFrames};

use crate::ending::{Early, Worked, Wrote, has_met_full_session, result_of};
use crate::reading::Reader;
use crate::settling::is_settled;
use crate::working::work_on;
use crate::writing::{Writer, Writes, Written, write_rest};
use ls_desk::{Desk, DeskFault, MOST_EVENTS, MOST_JOURNAL};
use ls_devices::{READS_END, ReaderEnd, ServeFault, Sink, Source};
use ls_session::{Session, Status};
use ls_workers::{Blanks, Board, ClientSeat, Crew, Gate, Stop, WorkerSeat};
use std::alloc::Global;
use std::marker::Brand;
use std::snapshot::Snapshot;
use std::sync::Wait;
use std::thread;
use std::thread::{Scope, Threads};

/// The mark of the board. A run has one.
const MARK: u64 = 1;

/// How large a run is.
#[derive(Clone, Copy, Drop)]
pub struct Limits {
    /// How many workers there are: 1 to 8.
    pub workers: u32,
    /// How many events the journal has, 1 to 1,000,000, where it begins anew with the client's next one.
    pub journal: usize,
}

/// What a run reads from and writes to.
#[derive(Drop)]
struct Devices<I, W> {
    source: I,
    sink: W,
}

/// What a run leaves: its answer, and the devices, which come back with every answer.
#[derive(Drop)]
pub struct Served<I: Source, W: Sink> {
    /// How the session ended, or why the run broke off.
    pub answer: Result<Status, ServeFault>,
    /// The source as it was left.
    pub source: I,
    /// The sink as it was left.
    pub sink: W,
}

/// What the threads of a run share.
#[derive(Drop)]
struct Run<'a, C: Crew, R, G> {
    rt: &'a R,
    alloc: Global,
    board: &'a Board<C>,
    gate: &'a G,
}

/// What the reader leaves, and how it ended.
#[derive(Drop)]
struct ReadUp<C: Crew, I: Source> {
    seat: ClientSeat<C>,
    source: I,
    end: ReaderEnd<Early>,
    ghost cause: { has_cause end (I.failed source) (I.reads source) READS_END ≡ true },
}

/// The reader and its source, before the first read.
#[derive(Drop)]
struct Unread<'a, C: Crew, R, I: Source> {
    reader: Reader<'a, C, R>,
    source: I,
    ghost none: { I.reads source ≡ 0 },
    ghost good: { I.failed source ≡ false },
}

impl<C: Crew, R: Wait, I: Source> Unread<'_, C, R, I> {
    /// Reads up to the end, and ends the board as that asks for. Where not all threads could be made it reads nothing.
    fn read_up(self, all_made: bool) -> ReadUp<C, I>
        ensures { HasHeard (I.remaining self.entry.source) (I.remaining result.source) self.entry.reader.session (heard_of self.entry.reader.seat.front) result.end (heard_of result.seat.front) }
    {
        if !all_made {
            return self.given_up();
        }
        let Unread {
            mut reader,
            mut source,
        } = self;
        let end = reader.read_on(&mut source);
        let Reader {
            rt,
            board,
            seat,
            ..
        } = reader;
        let stop = match end {
            ReaderEnd::Ended(_) => Stop::Drain,
            ReaderEnd::Failed | ReaderEnd::Broken(_) => Stop::Now,
        };
        board.stop(rt, stop);
        ReadUp { seat, source, end }
    }

    /// Reads nothing.
    fn given_up(self) -> ReadUp<C, I>
        ensures { HasHeard (I.remaining self.entry.source) (I.remaining result.source) self.entry.reader.session (heard_of self.entry.reader.seat.front) result.end (heard_of result.seat.front) }
    {
        let Unread { reader, source } = self;
        let Reader { seat, .. } = reader;
        ReadUp {
            seat,
            source,
            end: ReaderEnd::Broken(Early::Memory),
        }
    }
}

/// What the reader and the workers leave.
#[derive(Drop)]
struct Done<C: Crew, I: Source> {
    read: ReadUp<C, I>,
    workers: Vec<WorkerSeat<C>>,
    worked: Worked,
    /// Whether all threads could be made, and there was room for what they leave.
    made: bool,
}

impl<C: Crew, I: Source> Done<C, I> {
    /// Nothing was read, and nobody has worked.
    fn nothing<R: Wait>(unread: Unread<'_, C, R, I>, workers: Vec<WorkerSeat<C>>) -> Done<C, I>
        ensures { HasHeard (I.remaining unread.entry.source) (I.remaining result.read.source) unread.entry.reader.session (heard_of unread.entry.reader.seat.front) result.read.end (heard_of result.read.seat.front) }
    {
        Done {
            read: unread.given_up(),
            workers,
            worked: Worked::All,
            made: false,
        }
    }
}

/// Puts a worker's seat to those that came back, and answers how these workers ended.
fn put_back<C: Crew>(
    workers: &mut Vec<WorkerSeat<C>>,
    worked: Worked,
    left: (WorkerSeat<C>, Option<DeskFault>),
) -> Worked
    requires { vec_len workers.old < vec_capacity workers.old }
    ensures worst { result ≡ worse worked (worked_by left.1) }
    ensures seats { workers.new.items ≡ workers.old.items ++ left.0 ∷ [] }
    ensures room { (vec_len workers.new ≡ vec_len workers.old + 1) × (vec_capacity workers.new ≡ vec_capacity workers.old) }
{
    let (seat, fault) = left;
    workers.push_reserved(seat);
    worked.and(Worked::by(fault))
}

/// Reads here while the workers work, each in a thread of its own, of this scope. Room for what they leave is made before the first starts.
/// Where a thread can't be made the board is ended, and its worker, which then finds nothing to do, gives its seat back here.
fn work_within<
    's,
    'a: 's,
    C: Crew + Send + Sync,
    R: Threads + Wait + Sync,
    I: Source + Drop,
    G: Gate + Sync,
>(
    scope: &Scope<'s, &'a ()>,
    run: &Run<'a, C, R, G>,
    unread: Unread<'a, C, R, I>,
    seats: Vec<WorkerSeat<C>>,
) -> Done<C, I>
    ensures { HasHeard (I.remaining unread.entry.source) (I.remaining result.read.source) unread.entry.reader.session (heard_of unread.entry.reader.seat.front) result.read.end (heard_of result.read.seat.front) }
{
    let Run {
        rt,
        alloc,
        board,
        gate,
    } = *run;
    let (Ok(mut handles), Ok(mut workers)) = (
        Vec::with_capacity(alloc, seats.len()),
        Vec::with_capacity(alloc, seats.len()),
    ) else {
        board.stop(rt, Stop::Now);
        return Done::nothing(unread, seats);
    };
    let mut seats = seats;
    let mut worked = Worked::All;
    let mut made = true;
    'seats: while let Some(seat) = seats.pop() {
        match scope.spawn(move || work_on(rt, alloc, board, seat, gate)) {
            Ok(handle) => handles.push_reserved(handle),
            Err(refused) => {
                board.stop(rt, Stop::Now);
                made = false;
                worked = put_back(&mut workers, worked, (refused.value)());
            }
        }
    }
    let read = unread.read_up(made);
    'handles: while let Some(handle) = handles.pop() {
        worked = put_back(&mut workers, worked, handle.join(rt));
    }
    Done {
        read,
        workers,
        worked,
        made,
    }
}

/// Reads here while the workers work, in a scope of theirs.
fn read_and_work<
    'a,
    C: Crew + Send + Sync,
    R: Threads + Wait + Sync,
    I: Source + Drop,
    G: Gate + Sync,
>(run: &Run<'a, C, R, G>, unread: Unread<'a, C, R, I>, seats: Vec<WorkerSeat<C>>) -> Done<C, I>
    ensures { HasHeard (I.remaining unread.entry.source) (I.remaining result.read.source) unread.entry.reader.session (heard_of unread.entry.reader.seat.front) result.read.end (heard_of result.read.seat.front) }
{
    thread::scope(
        thread::scope_env(),
        run.rt,
        |scope| -> Done<C, I>
            ensures { HasHeard (I.remaining unread.entry.source) (I.remaining result.read.source) unread.entry.reader.session (heard_of unread.entry.reader.seat.front) result.read.end (heard_of result.read.seat.front) }
        { work_within(scope, run, unread, seats) },
    )
}

/// What all threads leave.
#[derive(Drop)]
struct Ran<C: Crew, I: Source, W: Sink> {
    done: Done<C, I>,
    written: Written<C, W>,
}

/// Reads and works while the writer writes in a thread of its own. Where that can't be made the board is ended, and the writer, which then
/// finds nothing to write, gives its seat and its sink back here.
fn run_threads<
    'a,
    C: Crew + Send + Sync,
    R: Threads + Wait + Sync,
    I: Source + Drop,
    W: Sink + Send + Drop,
    G: Gate + Sync,
>(
    run: &Run<'a, C, R, G>,
    unread: Unread<'a, C, R, I>,
    writer: Writer<C, W>,
    seats: Vec<WorkerSeat<C>>,
) -> Ran<C, I, W>
    requires none { outs_of writer.seat.front ≡ [] }
    ensures written { HasWritten (W.contents writer.sink) (W.contents result.written.sink) (W.unflushed writer.sink) (W.unflushed result.written.sink) result.written.end (outs_of result.written.seat.front) }
    ensures heard { HasHeard (I.remaining unread.entry.source) (I.remaining result.done.read.source) unread.entry.reader.session (heard_of unread.entry.reader.seat.front) result.done.read.end (heard_of result.done.read.seat.front) }
{
    let Run {
        rt,
        alloc,
        board,
        ..
    } = *run;
    thread::scope(
        thread::scope_env(),
        rt,
        |scope| -> Ran<C, I, W>
            requires send { IsSend C.row }
            requires none { outs_of writer.seat.front ≡ [] }
            ensures written { HasWritten (W.contents writer.sink) (W.contents result.written.sink) (W.unflushed writer.sink) (W.unflushed result.written.sink) result.written.end (outs_of result.written.seat.front) }
            ensures heard { HasHeard (I.remaining unread.entry.source) (I.remaining result.done.read.source) unread.entry.reader.session (heard_of unread.entry.reader.seat.front) result.done.read.end (heard_of result.done.read.seat.front) }
        {
            let promise = Writes(Snapshot::of(&writer.sink));
            match scope.spawn_with(promise, move || writer.write_on(rt, alloc, board)) {
                Ok(writing) => {
                    let done = read_and_work(run, unread, seats);
                    let written = writing.join(rt);
                    Ran { done, written }
                }
                Err(refused) => {
                    board.stop(rt, Stop::Now);
                    let written = (refused.value)();
                    let done = Done::nothing(unread, seats);
                    Ran { done, written }
                }
            }
        },
    )
}

/// Writes what the desk of a full session still has unsent, where the writer has written all that left it before. How that went is answered
/// with how the writer ended.
fn finished<W: Sink>(alloc: Global, desk: Desk, sink: &mut W, full: bool, wrote: Wrote) -> Wrote
    requires { W.failed sink.old ≡ has_failed wrote }
    ensures failed { W.failed sink.new ≡ has_failed result }
    ensures told { wrote ≡ Wrote.All → SaysTheRest full result desk (W.contents sink.old) (W.contents sink.new) }
    ensures kept { full ≡ false → result ≡ wrote }
    ensures still { wrote ≢ Wrote.All → (result ≡ wrote) × Appends (W.contents sink.old) (W.contents sink.new) [] }
    ensures flushed { W.unflushed sink.old ≡ false → has_failed result ≡ false → W.unflushed sink.new ≡ false }
{
    let mut desk = desk;
    if !full {
        drop(desk);
        return wrote;
    }
    match wrote {
        Wrote::Failed | Wrote::Memory => {
            drop(desk);
            return wrote;
        }
        Wrote::All => {}
    }
    let rest = write_rest(alloc, &mut desk, sink);
    drop(desk);
    rest
}

/// Closes the board, and answers for the run: `Memory` where a thread couldn't be made, whatever the audit says; `Strayed` only where the
/// board can't be closed with these seats, its desk isn't as these ends leave it, or a worker has strayed. Once the session is full the
/// desk's unsent replies are written, whatever else was met, unless the writer has broken off.
fn closed<C: Crew, I: Source + Drop, W: Sink + Drop>(
    alloc: Global,
    board: Board<C>,
    input: Snapshot<I>,
    begun: Snapshot<W>,
    ran: Ran<C, I, W>,
) -> Served<I, W>
    requires parts { (C.workers ≡ C.parts) × (0 < C.parts) }
    requires limit { C.max_events ≡ MOST_EVENTS }
    requires written { HasWritten (W.contents begun.value) (W.contents ran.written.sink) (W.unflushed begun.value) (W.unflushed ran.written.sink) ran.written.end (outs_of ran.written.seat.front) }
    requires heard { HasHeard (I.remaining input.value) (I.remaining ran.done.read.source) BeforeInitialize [] ran.done.read.end (heard_of ran.done.read.seat.front) }
    ensures read { result.answer ≡ Err ServeFault.Read → (I.failed result.source || (I.reads result.source + 1 == READS_END)) ≡ true }
    ensures write { result.answer ≡ Err ServeFault.Write → W.failed result.sink ≡ true }
    ensures good { OnOk result.answer (W.failed result.sink ≡ false) }
    ensures frames { WritesFrames (W.failed result.sink) (I.remaining input.value) (I.remaining result.source) (W.contents begun.value) (W.contents result.sink) }
    ensures flushed { W.unflushed begun.value ≡ false → W.failed result.sink ≡ false → W.unflushed result.sink ≡ false }
    ensures not_made { ran.done.made ≡ false → result.answer ≡ Err ServeFault.Memory }
    ensures causes { ran.done.made ≡ true → IsAnswered ((ran.done.read.seat.mark ≡ board.mark) × (ran.written.seat.mark ≡ board.mark)
        × AreAll (λ seat. seat.mark) (λ seat. seat.number) board.mark board.workers ran.done.workers.items) C.max_journal C.max_events (left_by_threads (ran.done.read.end, ran.written.end, ran.done.worked) (
          ran.done.read.seat.asked.share.amount,
          sum_by (λ seat. seat.took.share.amount) ran.done.workers.items,
          sum_by (λ seat. seat.returned.share.amount) ran.done.workers.items,
          sum_by (λ seat. seat.finished.share.amount) ran.done.workers.items,
          ran.written.seat.sent.share.amount,
        ) (logged_by ran.done.read.seat.audit_log)
        (ran.written.seat.checkpoints, ran.written.seat.tickets.items)) (W.failed result.sink) result.answer }
    ensures served { IfOk result.answer (λ status. IsServed C.max_journal C.max_events status (I.remaining input.value) (I.remaining result.source) (W.contents begun.value) (W.contents result.sink)) }
{
    let Ran { done, written } = ran;
    let Done {
        read,
        workers,
        worked,
        made,
    } = done;
    let ReadUp { seat, source, end } = read;
    let Written {
        seat: writer,
        mut sink,
        end: wrote,
    } = written;
    let audited = board.close(seat, writer, workers);
    if !made {
        return Served {
            answer: Err(ServeFault::Memory),
            source,
            sink,
        };
    }
    let Ok(desk) = audited else {
        return Served {
            answer: result_of(end, wrote, worked, false, false),
            source,
            sink,
        };
    };
    let _sound = desk.journal();
    let settled = is_settled(&desk, MOST_EVENTS, end, worked);
    let full = has_met_full_session(end, worked);
    let wrote = finished(alloc, desk, &mut sink, full, wrote);
    Served {
        answer: result_of(end, wrote, worked, true, settled),
        source,
        sink,
    }
}

/// Makes a board whose ledgers are those of `C`, runs its threads and closes it. It stands apart for the caller to say which ledgers these
/// are.
fn run_session<
    C: Crew + Send + Sync,
    R: Threads + Wait + Sync,
    I: Source + Drop,
    W: Sink + Send + Drop,
    G: Gate + Sync,
>(
    rt: &R,
    alloc: Global,
    blanks: Blanks,
    limits: Limits,
    devices: Devices<I, W>,
    gate: &G,
) -> Served<I, W>
    requires book { blanks.history ≡ C.book }
    requires heard { (blanks.heard.name ≡ C.heard) × (blanks.heard.parts ≡ 1) }
    requires names { (blanks.client.name ≡ C.client) × (blanks.took.name ≡ C.took) × (blanks.returned.name ≡ C.returned) × (blanks.finished.name ≡ C.finished) × (blanks.sent.name ≡ C.sent) }
    requires parts { (blanks.client.parts ≡ 1) × (blanks.took.parts ≡ C.parts) × (blanks.returned.parts ≡ C.parts) × (blanks.finished.parts ≡ C.parts) × (blanks.sent.parts ≡ 1) }
    requires workers { (limits.workers ≡ C.workers) × (limits.workers ≡ C.parts) × (0 < limits.workers) × (limits.workers ≤ 8) }
    requires journal { (0 < limits.journal) × (limits.journal ≤ 1000000) }
    requires limits { (C.max_journal ≡ limits.journal) × (C.max_events ≡ MOST_EVENTS) }
    requires none { I.reads devices.source ≡ 0 }
    requires source { I.failed devices.source ≡ false }
    requires sink { W.failed devices.sink ≡ false }
    ensures read { result.answer ≡ Err ServeFault.Read → (I.failed result.source || (I.reads result.source + 1 == READS_END)) ≡ true }
    ensures write { result.answer ≡ Err ServeFault.Write → W.failed result.sink ≡ true }
    ensures good { OnOk result.answer (W.failed result.sink ≡ false) }
    ensures frames { WritesFrames (W.failed result.sink) (I.remaining devices.source) (I.remaining result.source) (W.contents devices.sink) (W.contents result.sink) }
    ensures flushed { W.unflushed devices.sink ≡ false → W.failed result.sink ≡ false → W.unflushed result.sink ≡ false }
    ensures served { IfOk result.answer (λ status. IsServed limits.journal MOST_EVENTS status (I.remaining devices.source) (I.remaining result.source) (W.contents devices.sink) (W.contents result.sink)) }
{
    let Devices { source, sink } = devices;
    let desk = Desk::new(alloc, limits.journal, MOST_EVENTS);
    let workers = limits.workers;
    let Ok((board, client, writer, seats)) = Board::<C>::new(rt, alloc, blanks, MARK, desk, workers)
    else {
        return Served {
            answer: Err(ServeFault::Memory),
            source,
            sink,
        };
    };
    let input = Snapshot::of(&source);
    let begun = Snapshot::of(&sink);
    let session = Session::new(alloc);
    let reader = Reader {
        rt,
        alloc,
        board: &board,
        seat: client,
        session,
    };
    let run = Run {
        rt,
        alloc,
        board: &board,
        gate,
    };
    let unread = Unread { reader, source };
    let writer = Writer { seat: writer, sink };
    let ran = run_threads(&run, unread, writer, seats);
    closed(alloc, board, input, begun, ran)
}

/// Serves one client with 1 to 8 workers, each in a thread of its own, and gives the source and the sink back. Each worker passes the gate
/// between the take of a job and its run. The journal begins anew with the client's next event once it has 1,000,000 events; the events of
/// the session and the unsent replies are at most 18,446,744,073,709,551,614 together. It waits for the source, the sink and its threads.
///
/// With `Ok` there is one legal history of all that the board did, from its beginning to the end of the run ([`ls_history`]), however long
/// the session was. Its client's events are the messages of the input, in order: each has the answer or the refusal that the state at that
/// place gives, or a refusal for want of memory. Each event is that of a message, or says that there was a refusal, and each message has
/// its event, unless it asked for none. What was written are the frames of the replies that left in it, whole and in order: the k-th frame
/// is that of the k-th reply, whose answer is right for its job's own text. The status is how the reader ended, no job waits and no reply
/// is unsent; or it says that the session is full, and the desk that the history led to is within 1,025 events of its limit. The sink
/// hasn't failed.
///
/// With any answer there is one legal history of which the client's events are what hearing the input left, up to where that broke off, and
/// what was written are the frames of its replies, whole and in order, but at most the last one's; of that one a prefix may be written
/// where the sink failed. A sink that held nothing back at the start and hasn't failed holds nothing back.
///
/// # Errors
///
/// The answer of what it gives is, of those that hold, the first of these. `Read`: the source failed, or was read one time less than
/// [`READS_END`]. `Write`: the sink failed. `Strayed`: the board wasn't closed, or the desk didn't know what ran. `Memory`: an
/// allocation was refused. `Strayed`: something was left undone. Where a thread couldn't be made it is `Memory`, whatever else holds.
pub fn serve_threads<
    R: Threads + Wait + Sync,
    I: Source + Drop,
    W: Sink + Send + Drop,
    G: Gate + Sync,
>(rt: &R, alloc: Global, source: I, sink: W, workers: u32, gate: &G) -> Served<I, W>
    requires workers { (0 < workers) × (workers ≤ 8) }
    requires none { I.reads source ≡ 0 }
    requires source { I.failed source ≡ false }
    requires sink { W.failed sink ≡ false }
    ensures read { result.answer ≡ Err ServeFault.Read → (I.failed result.source || (I.reads result.source + 1 == READS_END)) ≡ true }
    ensures write { result.answer ≡ Err ServeFault.Write → W.failed result.sink ≡ true }
    ensures good { OnOk result.answer (W.failed result.sink ≡ false) }
    ensures frames { WritesFrames (W.failed result.sink) (I.remaining source) (I.remaining result.source) (W.contents sink) (W.contents result.sink) }
    ensures flushed { W.unflushed sink ≡ false → W.failed result.sink ≡ false → W.unflushed result.sink ≡ false }
    ensures served { IfOk result.answer (λ status. IsServed MOST_JOURNAL MOST_EVENTS status (I.remaining source) (I.remaining result.source) (W.contents sink) (W.contents result.sink)) }
{
    let limits = Limits {
        workers,
        journal: MOST_JOURNAL,
    };
    serve_with_limits(rt, alloc, source, sink, limits, gate)
}

/// Serves as [`serve_threads`] does, by as many workers and with as long a journal as these limits say.
///
/// # Errors
///
/// Those of [`serve_threads`].
pub fn serve_with_limits<
    R: Threads + Wait + Sync,
    I: Source + Drop,
    W: Sink + Send + Drop,
    G: Gate + Sync,
>(rt: &R, alloc: Global, source: I, sink: W, limits: Limits, gate: &G) -> Served<I, W>
    requires workers { (0 < limits.workers) × (limits.workers ≤ 8) }
    requires journal { (0 < limits.journal) × (limits.journal ≤ 1000000) }
    requires none { I.reads source ≡ 0 }
    requires source { I.failed source ≡ false }
    requires sink { W.failed sink ≡ false }
    ensures read { result.answer ≡ Err ServeFault.Read → (I.failed result.source || (I.reads result.source + 1 == READS_END)) ≡ true }
    ensures write { result.answer ≡ Err ServeFault.Write → W.failed result.sink ≡ true }
    ensures good { OnOk result.answer (W.failed result.sink ≡ false) }
    ensures frames { WritesFrames (W.failed result.sink) (I.remaining source) (I.remaining result.source) (W.contents sink) (W.contents result.sink) }
    ensures flushed { W.unflushed sink ≡ false → W.failed result.sink ≡ false → W.unflushed result.sink ≡ false }
    ensures served { IfOk result.answer (λ status. IsServed limits.journal MOST_EVENTS status (I.remaining source) (I.remaining result.source) (W.contents sink) (W.contents result.sink)) }
{
    let blanks = Blanks::new(limits.workers);
    let devices = Devices { source, sink };
    run_session::<Brand, R, I, W, G>(rt, alloc, blanks, limits, devices, gate)
}
