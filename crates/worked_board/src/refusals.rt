//! A worker whose call is refused: the session is full, or what it brings back is the run of another text. The board has one worker, and
//! one document is opened.
ghost use Rattle.std.specs.Prelude.{◌≡◌, ◌<◌, ◌≤◌};

use super::calls::{counts, opening};
use ls_answers::{Ask, Done, Job, run};
use ls_desk::{Desk, DeskFault, Kept, SharedSnapshot};
use ls_text::{Encoding, Snapshot, TextFault};
use ls_workers::{
    Blanks, Board, ClientAnswer, ClientSeat, Crew, Gate, Stop, WorkerSeat, WriterSeat, work,
};
use std::alloc::{AllocError, Global};
use std::marker::Brand;
use std::sync::Wait;
use std::test::Fail;

// Holds no worker back.
#[derive(Drop)]
struct Open;

impl Gate for Open {
    fn pass<R: Wait>(&self, _: &R, _: u64) {}
}

// How many events of each kind there were: of the client, taken, returned, finished and sent.
type Counts = (u64, u64, u64, u64, u64);

// Whether a reply could be sent.
fn sends_one(desk: &mut Desk) -> bool {
    let Some(out) = desk.next_out() else {
        return false;
    };
    drop(out);
    true
}

// Whether so many replies can be sent still, and no more.
fn sends_rest(desk: &mut Desk, count: u64) -> bool {
    for _ in 0..count {
        if !sends_one(desk) {
            return false;
        }
    }
    !sends_one(desk)
}

// Whether the board is closed with these counts, and its desk then sends what is unsent, also where the session is full.
fn closes<C: Crew>(
    board: Board<C>,
    client: ClientSeat<C>,
    writer: WriterSeat<C>,
    workers: Vec<WorkerSeat<C>>,
    wanted: Counts,
) -> bool
    requires { (C.workers ≡ C.parts) × (0 < C.parts) }
{
    match board.close(client, writer, workers) {
        Ok(mut desk) => {
            let found = counts(&desk);
            let sends_rest = sends_rest(&mut desk, wanted.3.saturating_sub(wanted.4));
            drop(desk);
            found == wanted && sends_rest
        }
        Err(fault) => {
            drop(fault);
            false
        }
    }
}

// The one worker works. Whether its work ends by this fault.
fn ends<C: Crew, R: Wait>(
    rt: &R,
    alloc: Global,
    board: &Board<C>,
    workers: &mut Vec<WorkerSeat<C>>,
    fault: Option<DeskFault>,
) -> Result<bool, AllocError> {
    let Some(worker) = workers.pop() else {
        return Ok(false);
    };
    let (worker, ended) = work(rt, alloc, board, worker, &Open);
    workers.push(worker)?;
    Ok(ended == fault)
}

// The document is opened, and its findings are left to a worker, in a session of so many events and unsent replies. Whether the work ends
// by this fault, and the seats count these events.
fn works<C: Crew, R: Wait>(
    rt: &R,
    alloc: Global,
    blanks: Blanks,
    events: u64,
    fault: Option<DeskFault>,
    wanted: Counts,
) -> Result<bool, AllocError>
    requires book { blanks.history ≡ C.book }
    requires heard { (blanks.heard.name ≡ C.heard) × (blanks.heard.parts ≡ 1) }
    requires names { (blanks.client.name ≡ C.client) × (blanks.took.name ≡ C.took) × (blanks.returned.name ≡ C.returned) × (blanks.finished.name ≡ C.finished) × (blanks.sent.name ≡ C.sent) }
    requires parts { (blanks.client.parts ≡ 1) × (blanks.took.parts ≡ C.parts) × (blanks.returned.parts ≡ C.parts) × (blanks.finished.parts ≡ C.parts) × (blanks.sent.parts ≡ 1) }
    requires workers { (C.workers ≡ 1) × (C.parts ≡ 1) }
    requires events { (0 < events) × (events ≤ 1000000) }
    requires limits { (C.max_journal ≡ 1000000) × (C.max_events ≡ events) }
{
    let event = opening(alloc)?;
    let desk = Desk::new(alloc, 1_000_000, events);
    let (board, mut client, writer, mut workers) = Board::<C>::new(rt, alloc, blanks, 1, desk, 1)?;
    let opened = board.client(rt, &mut client, event) == Ok(ClientAnswer::Version(1));
    board.stop(rt, Stop::Drain);
    let ended = ends(rt, alloc, &board, &mut workers, fault);
    let closed = closes(board, client, writer, workers, wanted);
    Ok(opened && ended? && closed)
}

// A run with this ticket of the findings of another text.
fn other_run(alloc: Global, ticket: u64) -> Result<Done, DeskFault> {
    let text = String::from_str(alloc, "a = \"y\"")?;
    let snapshot = match Snapshot::of_text(alloc, text) {
        Ok(snapshot) => SharedSnapshot::new(alloc, snapshot)?.arc()?,
        Err(TextFault::TooLarge) => return Err(DeskFault::TooLarge),
        Err(TextFault::Memory) => return Err(DeskFault::Memory),
    };
    let job = Job {
        ticket,
        snapshot,
        encoding: Encoding::Utf16,
        ask: Ask::Diagnose,
    };
    Ok(run(alloc, job))
}

// Whether the run of another text with this ticket is refused and comes back.
fn is_refused<C: Crew, R: Wait>(
    rt: &R,
    alloc: Global,
    board: &Board<C>,
    worker: &mut WorkerSeat<C>,
    ticket: u64,
) -> Result<bool, DeskFault> {
    match board.finish(rt, worker, other_run(alloc, ticket)?) {
        Err((fault, back)) => {
            let is_it = fault == DeskFault::OtherText && back.ticket() == 1;
            drop(back);
            Ok(is_it)
        }
        Ok(_) => Ok(false),
    }
}

// Whether a run was kept for a reply.
fn is_kept(answer: Result<Kept, (DeskFault, Done)>) -> bool {
    let is_reply = matches!(&answer, Ok(Kept::Reply));
    drop(answer);
    is_reply
}

// The findings are taken. The run of another text under their ticket is refused and comes back, and the seat has brought nothing; then
// their own run is kept.
fn strays<C: Crew, R: Wait>(
    rt: &R,
    alloc: Global,
    board: &Board<C>,
    client: &mut ClientSeat<C>,
    worker: &mut WorkerSeat<C>,
) -> Result<bool, DeskFault> {
    let opened = board.client(rt, client, opening(alloc)?)?;
    let job = board.take(rt, worker)?.ok_or(DeskFault::UnknownTicket)?;
    let refused = is_refused(rt, alloc, board, worker, job.ticket);
    let none = worker.took.get() == 1 && worker.finished.get() == 0;
    let kept = is_kept(board.finish(rt, worker, run(alloc, job)));
    Ok(opened == ClientAnswer::Version(1) && refused? && none && kept)
}

fn strays_once<C: Crew, R: Wait>(rt: &R, alloc: Global, blanks: Blanks) -> Result<bool, AllocError>
    requires book { blanks.history ≡ C.book }
    requires heard { (blanks.heard.name ≡ C.heard) × (blanks.heard.parts ≡ 1) }
    requires names { (blanks.client.name ≡ C.client) × (blanks.took.name ≡ C.took) × (blanks.returned.name ≡ C.returned) × (blanks.finished.name ≡ C.finished) × (blanks.sent.name ≡ C.sent) }
    requires parts { (blanks.client.parts ≡ 1) × (blanks.took.parts ≡ C.parts) × (blanks.returned.parts ≡ C.parts) × (blanks.finished.parts ≡ C.parts) × (blanks.sent.parts ≡ 1) }
    requires workers { (C.workers ≡ 1) × (C.parts ≡ 1) }
    requires limits { (C.max_journal ≡ 1000000) × (C.max_events ≡ 1000000) }
{
    let desk = Desk::new(alloc, 1_000_000, 1_000_000);
    let (board, mut client, writer, mut workers) = Board::<C>::new(rt, alloc, blanks, 1, desk, 1)?;
    let strayed = strays(rt, alloc, &board, &mut client, &mut workers[0]) == Ok(true);
    let closed = closes(board, client, writer, workers, (1, 1, 0, 1, 0));
    Ok(strayed && closed)
}

// The same with ledgers that are picked here.
fn holds<R: Wait>(
    rt: &R,
    alloc: Global,
    events: u64,
    fault: Option<DeskFault>,
    wanted: Counts,
) -> Result<bool, AllocError>
    requires { (0 < events) × (events ≤ 1000000) }
{
    works::<Brand, R>(rt, alloc, Blanks::new(1), events, fault, wanted)
}

fn holds_once<R: Wait>(rt: &R, alloc: Global) -> Result<bool, AllocError> {
    strays_once::<Brand, R>(rt, alloc, Blanks::new(1))
}

// The opening is the first event, the take the second, and a run needs two places more: for its event and for what it leaves to be sent.
#[test]
fn a_worker_meets_a_full_session(rt: HostRuntime) -> Result<(), Fail> {
    let alloc = rt.alloc();
    let full = Some(DeskFault::SessionFull);
    assert!(rt; holds(&rt, alloc, 1, full, (1, 0, 0, 0, 0))?);
    assert!(rt; holds(&rt, alloc, 2, full, (1, 1, 0, 0, 0))?);
    assert!(rt; holds(&rt, alloc, 3, full, (1, 1, 0, 0, 0))?);
    assert!(rt; holds(&rt, alloc, 4, None, (1, 1, 0, 1, 0))?);
    Ok(())
}

#[test]
fn a_worker_brings_the_run_of_another_text(rt: HostRuntime) -> Result<(), Fail> {
    assert!(rt; holds_once(&rt, rt.alloc())?);
    Ok(())
}
