//! A board isn't closed with a seat of another board in the place of the client's, the writer's or a worker's.
ghost use Rattle.std.specs.Prelude.{◌≡◌, ◌<◌};

use super::calls::{LAST, nth_desk};
use ls_workers::{Blanks, Board, ClientSeat, Crew, SeatFault, WorkerSeat, WriterSeat};
use std::alloc::{AllocError, Global};
use std::marker::Brand;
use std::sync::Wait;
use std::test::Fail;

/// The mark of the board, and that of another one.
const OWN: u64 = 7;

const OTHER: u64 = 8;

/// Which seat has the mark of another board.
#[derive(Clone, Copy, Drop)]
enum Stranger {
    Client,
    Writer,
    Worker,
    Nobody,
}

// Whether the board is closed.
fn closes<C: Crew>(
    board: Board<C>,
    mut client: ClientSeat<C>,
    mut writer: WriterSeat<C>,
    mut workers: Vec<WorkerSeat<C>>,
    stranger: Stranger,
) -> Option<bool>
    requires { (C.workers ≡ C.parts) × (0 < C.parts) }
{
    match stranger {
        Stranger::Client => client.mark = OTHER,
        Stranger::Writer => writer.mark = OTHER,
        Stranger::Worker => {
            if let Some(worker) = workers.last_mut() {
                worker.mark = OTHER;
            }
        }
        Stranger::Nobody => {}
    }
    match board.close(client, writer, workers) {
        Ok(desk) => {
            drop(desk);
            Some(true)
        }
        Err(SeatFault::SeatMissing) => Some(false),
        Err(SeatFault::Strayed(desk)) => {
            drop(desk);
            None
        }
    }
}

// A board with two workers at which nothing happens.
fn two_workers<C: Crew, R: Wait>(
    rt: &R,
    alloc: Global,
    blanks: Blanks,
    stranger: Stranger,
) -> Result<Option<bool>, AllocError>
    requires book { blanks.history ≡ C.book }
    requires heard { (blanks.heard.name ≡ C.heard) × (blanks.heard.parts ≡ 1) }
    requires names { (blanks.client.name ≡ C.client) × (blanks.took.name ≡ C.took) × (blanks.returned.name ≡ C.returned) × (blanks.finished.name ≡ C.finished) × (blanks.sent.name ≡ C.sent) }
    requires parts { (blanks.client.parts ≡ 1) × (blanks.took.parts ≡ C.parts) × (blanks.returned.parts ≡ C.parts) × (blanks.finished.parts ≡ C.parts) × (blanks.sent.parts ≡ 1) }
    requires workers { (C.workers ≡ 2) × (C.parts ≡ 2) }
    requires limits { (C.max_journal ≡ 1000000) × (C.max_events ≡ 1000000) }
{
    let desk = nth_desk(alloc, LAST);
    let (board, client, writer, workers) = Board::<C>::new(rt, alloc, blanks, OWN, desk, 2)?;
    Ok(closes(board, client, writer, workers, stranger))
}

fn is_closed<R: Wait>(
    rt: &R,
    alloc: Global,
    stranger: Stranger,
) -> Result<Option<bool>, AllocError> {
    two_workers::<Brand, R>(rt, alloc, Blanks::new(2), stranger)
}

#[test]
fn each_seat_of_another_board(rt: HostRuntime) -> Result<(), Fail> {
    for stranger in [Stranger::Client, Stranger::Writer, Stranger::Worker] {
        assert!(rt; is_closed(&rt, rt.alloc(), stranger)? == Some(false));
    }
    assert!(rt; is_closed(&rt, rt.alloc(), Stranger::Nobody)? == Some(true));
    Ok(())
}
