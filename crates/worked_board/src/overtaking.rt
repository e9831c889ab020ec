//! Two hovers, the first of which is held back until the second has been answered by the other worker.
ghost use Rattle.std.specs.Prelude.{◌≡◌, ◌+◌, ◌<◌, nat_lt, if◌then◌else◌};

use super::calls::{DESKS, LAST, answers_hover, begin, counts, has_told, nth_desk, return_one};
use ls_desk::{Desk, DeskFault};
use ls_history::Front;
use ls_workers::{
    Blanks, Board, ClientSeat, Crew, Gate, SeatFault, Stop, WorkerSeat, WriterSeat, work,
};
use std::alloc::{AllocError, Global};
use std::marker::Brand;
use std::sync::Wait;
use std::sync::atomic::{AtomicU64, Ordering};
use std::test::Fail;
use std::thread;
use std::thread::Threads;

// Holds ticket 2 until 3 isn't wanted any more, for a million turns at most, and says whether it gave up.
#[derive(Drop)]
struct HoldsFirst<'b, C: Crew> {
    board: &'b Board<C>,
    seen: Front<C>,
    gave_up: AtomicU64,
}

impl<C: Crew> Gate for HoldsFirst<'_, C> {
    fn pass<R: Wait>(&self, rt: &R, ticket: u64) {
        if ticket != 2 {
            return;
        }
        let mut seen = self.seen.again();
        for _ in 0..1_000_000 {
            if !self.board.wanted(rt, &mut seen, 3) {
                return;
            }
            thread::yield_now();
        }
        self.gave_up.store(1, Ordering::SeqCst);
    }
}

// Whether the next reply answers the hover with this ticket and this id.
fn sends<C: Crew, R: Wait>(
    rt: &R,
    board: &Board<C>,
    writer: &mut WriterSeat<C>,
    ticket: u64,
    id: i64,
) -> bool {
    let Ok(Some(out)) = board.next_out(rt, writer) else {
        return false;
    };
    let is_it = answers_hover(&out, ticket, id);
    drop(out);
    is_it
}

// The workers' seats as they come back, and whether the second hover was answered before the first, and both workers have worked up to the
// end.
#[derive(Drop)]
struct Worked<C: Crew> {
    writer: WriterSeat<C>,
    workers: Vec<WorkerSeat<C>>,
    overtaken: bool,
}

// The workers work, each in a thread of its own, until both hovers are sent.
fn run_workers<'a, C: Crew + Send + Sync, R: Threads + Wait + Sync>(
    rt: &'a R,
    alloc: Global,
    gate: &'a HoldsFirst<'a, C>,
    mut writer: WriterSeat<C>,
    seats: Vec<WorkerSeat<C>>,
) -> Option<Worked<C>> {
    thread::scope(thread::scope_env(), rt, |scope| {
        let board = gate.board;
        let mut handles = Vec::new(alloc);
        for seat in seats {
            let Ok(handle) = scope.spawn(move || work(rt, alloc, board, seat, gate)) else {
                board.stop(rt, Stop::Now);
                return None;
            };
            if handles.push(handle).is_err() {
                board.stop(rt, Stop::Now);
                return None;
            }
        }
        let second = sends(rt, board, &mut writer, 3, 2);
        let first = sends(rt, board, &mut writer, 2, 1);
        board.stop(rt, Stop::Drain);
        let mut workers = Vec::new(alloc);
        let mut worked = true;
        for handle in handles {
            let (seat, fault) = handle.join(rt);
            worked = worked && fault.is_none();
            if workers.push(seat).is_err() {
                return None;
            }
        }
        let overtaken = second && first && worked && workers.len() == 2;
        Some(Worked {
            writer,
            workers,
            overtaken,
        })
    })
}

// The same behind a gate, which must not give up.
fn run_gated<C: Crew + Send + Sync, R: Threads + Wait + Sync>(
    rt: &R,
    alloc: Global,
    board: &Board<C>,
    writer: WriterSeat<C>,
    seats: Vec<WorkerSeat<C>>,
) -> Option<Worked<C>> {
    let gate = HoldsFirst {
        board,
        seen: writer.front.again(),
        gave_up: AtomicU64::new(0),
    };
    let Worked {
        writer,
        workers,
        overtaken,
    } = run_workers(rt, alloc, &gate, writer, seats)?;
    let held = gate.gave_up.load(Ordering::SeqCst) == 0;
    Some(Worked {
        writer,
        workers,
        overtaken: overtaken && held,
    })
}

// With which seats a board is closed.
#[derive(Clone, Copy, Drop)]
enum Seats {
    All,
    // One worker's is missing.
    OneLess,
    // The writer's has the mark of another board.
    OtherMark,
}

// Whether the desk is that of the session: by how many events of each kind there were, and, where its journal has them all, by the client's
// events themselves and by what was sent.
fn is_whole(alloc: Global, desk: &Desk, number: usize) -> Result<bool, AllocError> {
    let told = number < LAST || has_told(alloc, desk.journal(), &[1, 3, 2])?;
    Ok(told && counts(desk) == (3, 4, 1, 3, 3))
}

// Closes the board with these seats, and says whether it answers as it must.
fn closes<C: Crew>(
    alloc: Global,
    board: Board<C>,
    client: ClientSeat<C>,
    worked: Worked<C>,
    number: usize,
    seats: Seats,
) -> Result<bool, AllocError>
    requires { (C.workers ≡ C.parts) × (0 < C.parts) }
{
    let Worked {
        mut writer,
        mut workers,
        overtaken,
    } = worked;
    match seats {
        Seats::All => {}
        Seats::OneLess => drop(workers.pop()),
        Seats::OtherMark => writer.mark = 8,
    }
    match board.close(client, writer, workers) {
        Ok(desk) => {
            let whole = is_whole(alloc, &desk, number);
            drop(desk);
            Ok(matches!(seats, Seats::All) && overtaken && whole?)
        }
        Err(SeatFault::SeatMissing) => Ok(!matches!(seats, Seats::All) && overtaken),
        Err(SeatFault::Strayed(desk)) => {
            drop(desk);
            Ok(false)
        }
    }
}

// Two workers, a document with its findings, and two hovers, the first of which was taken and given back before the workers start.
fn two_hovers<C: Crew + Send + Sync, R: Threads + Wait + Sync>(
    rt: &R,
    alloc: Global,
    blanks: Blanks,
    number: usize,
    seats: Seats,
) -> Result<bool, AllocError>
    requires book { blanks.history ≡ C.book }
    requires heard { (blanks.heard.name ≡ C.heard) × (blanks.heard.parts ≡ 1) }
    requires names { (blanks.client.name ≡ C.client) × (blanks.took.name ≡ C.took) × (blanks.returned.name ≡ C.returned) × (blanks.finished.name ≡ C.finished) × (blanks.sent.name ≡ C.sent) }
    requires parts { (blanks.client.parts ≡ 1) × (blanks.took.parts ≡ C.parts) × (blanks.returned.parts ≡ C.parts) × (blanks.finished.parts ≡ C.parts) × (blanks.sent.parts ≡ 1) }
    requires workers { (C.workers ≡ 2) × (C.parts ≡ 2) }
    requires limits { (C.max_journal ≡ (if nat_lt number 4 then number + 1 else 1000000)) × (C.max_events ≡ 1000000) }
{
    let desk = nth_desk(alloc, number);
    let (board, mut client, mut writer, mut workers) = Board::<C>::new(
        rt, alloc, blanks, 7, desk, 2,
    )?;
    let begun = begin(rt, alloc, &board, &mut client, &mut writer, &mut workers[0]);
    let returned = match begun {
        Ok(true) => return_one(rt, &board, &mut workers[0]),
        Ok(false) => Err(DeskFault::OtherText),
        Err(fault) => Err(fault),
    };
    if returned != Ok(2) {
        board.stop(rt, Stop::Now);
    }
    match run_gated(rt, alloc, &board, writer, workers) {
        Some(worked) => closes(alloc, board, client, worked, number, seats),
        None => {
            drop(board);
            drop(client);
            Ok(false)
        }
    }
}

// The same on each desk, with ledgers that are picked here.
fn holds<R: Threads + Wait + Sync>(
    rt: &R,
    alloc: Global,
    seats: Seats,
) -> Result<bool, AllocError> {
    for number in 0..DESKS {
        if !two_hovers::<Brand, R>(rt, alloc, Blanks::new(2), number, seats)? {
            return Ok(false);
        }
    }
    Ok(true)
}

#[test]
fn the_second_hover_overtakes_the_first(rt: HostRuntime) -> Result<(), Fail> {
    assert!(rt; holds(&rt, rt.alloc(), Seats::All)?);
    Ok(())
}

#[test]
fn a_worker_is_missing(rt: HostRuntime) -> Result<(), Fail> {
    assert!(rt; holds(&rt, rt.alloc(), Seats::OneLess)?);
    Ok(())
}

#[test]
fn a_seat_is_of_another_board(rt: HostRuntime) -> Result<(), Fail> {
    assert!(rt; holds(&rt, rt.alloc(), Seats::OtherMark)?);
    Ok(())
}
