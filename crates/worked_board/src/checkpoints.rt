//! A client's list that is altered before a checkpoint or behind it: closing the board finds it out, at once and after more events. A list
//! that isn't altered is the journal's, however often that begins anew.
ghost use Rattle.std.specs.Prelude.{◌≡◌, ◌<◌, ◌≤◌};

use super::calls::{next_ticket, opening, run_one};
use ls_desk::{Desk, DeskFault, Event};
use ls_rpc::Id;
use ls_workers::{
    Blanks, Board, ClientAnswer, ClientEvent, ClientSeat, Crew, SeatFault, WorkerSeat, WriterSeat,
};
use std::alloc::{AllocError, Global};
use std::marker::Brand;
use std::sync::Wait;
use std::test::Fail;

// Which entry is altered.
#[derive(Clone, Copy, Drop)]
enum Place {
    // None.
    Nowhere,
    // The one with this number in the list that the checkpoint ends, before it does.
    Before(usize),
    // The same, once the list has ended.
    Ended(usize),
    // The first of the list that the checkpoint begins.
    Behind,
}

// How many events the longer journal may have.
const LONG: u32 = 40;

// How many events the shorter one may have.
const SHORT: u32 = 4;

// The client cancels as many requests that it hasn't made, each by an id of its own.
fn cancels<C: Crew, R: Wait>(
    rt: &R,
    board: &Board<C>,
    client: &mut ClientSeat<C>,
    count: u32,
) -> Result<bool, DeskFault> {
    for id in 0..count {
        let event = ClientEvent::Cancel(Id::Number(i64::from(id)));
        if board.client(rt, client, event)? != ClientAnswer::Cancelled(false) {
            return Ok(false);
        }
        if client.audit_log.ended.len() > 1 {
            return Ok(false);
        }
    }
    Ok(true)
}

// A document is opened, and its findings are sent: four events, of which one is the client's.
fn opens<C: Crew, R: Wait>(
    rt: &R,
    alloc: Global,
    board: &Board<C>,
    client: &mut ClientSeat<C>,
    worker: &mut WorkerSeat<C>,
    writer: &mut WriterSeat<C>,
) -> Result<bool, DeskFault> {
    let opened = board.client(rt, client, opening(alloc)?)?;
    let findings = run_one(rt, alloc, board, worker)?;
    let sent = next_ticket(rt, board, writer)?;
    Ok(opened == ClientAnswer::Version(1) && findings == 1 && sent == Some(1))
}

// Another event takes an entry's place, where there is one.
fn alters(list: &mut Vec<Event>, at: usize) -> bool {
    let Some(entry) = list.get_mut(at) else {
        return false;
    };
    *entry = Event::Cancelled {
        id: Id::Number(-1),
        found: false,
    };
    true
}

// Alters what is to be altered before the checkpoint.
fn alters_before<C: Crew>(client: &mut ClientSeat<C>, place: Place) -> bool {
    match place {
        Place::Before(at) => alters(&mut client.audit_log.list, at),
        Place::Nowhere | Place::Ended(_) | Place::Behind => true,
    }
}

// Alters what is to be altered behind it.
fn alters_behind<C: Crew>(client: &mut ClientSeat<C>, place: Place) -> bool {
    match place {
        Place::Ended(at) => match client.audit_log.ended.last_mut() {
            Some(ended) => alters(&mut ended.list, at),
            None => false,
        },
        Place::Behind => alters(&mut client.audit_log.list, 0),
        Place::Nowhere | Place::Before(_) => true,
    }
}

// Whether the board is closed as it must be: with the desk, after so many events of the client, and as strayed where an entry was altered.
fn closes<C: Crew>(
    board: Board<C>,
    client: ClientSeat<C>,
    writer: WriterSeat<C>,
    workers: Vec<WorkerSeat<C>>,
    place: Place,
) -> bool
    requires { (C.workers ≡ C.parts) × (0 < C.parts) }
{
    let entered = client.asked.get();
    let (desk, strayed) = match board.close(client, writer, workers) {
        Ok(desk) => (desk, false),
        Err(SeatFault::Strayed(desk)) => (desk, true),
        Err(SeatFault::SeatMissing) => return false,
    };
    let counted = desk.counts().client == entered && desk.checkpoints() > 0;
    drop(desk);
    counted && strayed != matches!(place, Place::Nowhere)
}

// The journal is filled, one event more makes a checkpoint, and so many more come behind it. The longer journal has a worker's events and
// the writer's too.
fn one_row<C: Crew, R: Wait>(
    rt: &R,
    alloc: Global,
    blanks: Blanks,
    journal: u32,
    place: Place,
    more: u32,
) -> Result<bool, AllocError>
    requires book { blanks.history ≡ C.book }
    requires heard { (blanks.heard.name ≡ C.heard) × (blanks.heard.parts ≡ 1) }
    requires names { (blanks.client.name ≡ C.client) × (blanks.took.name ≡ C.took) × (blanks.returned.name ≡ C.returned) × (blanks.finished.name ≡ C.finished) × (blanks.sent.name ≡ C.sent) }
    requires parts { (blanks.client.parts ≡ 1) × (blanks.took.parts ≡ C.parts) × (blanks.returned.parts ≡ C.parts) × (blanks.finished.parts ≡ C.parts) × (blanks.sent.parts ≡ 1) }
    requires workers { (C.workers ≡ 1) × (C.parts ≡ 1) }
    requires journal { (0 < journal) × (journal ≤ 40) }
    requires limits { (C.max_journal ≡ journal) × (C.max_events ≡ 1000000) }
{
    let desk = Desk::new(alloc, journal as usize, 1_000_000);
    let (board, mut client, mut writer, mut workers) = Board::<C>::new(
        rt, alloc, blanks, 1, desk, 1,
    )?;
    let worker = &mut workers[0];
    let (opened, others) = if journal == LONG {
        let opened = opens(rt, alloc, &board, &mut client, worker, &mut writer);
        (opened == Ok(true), LONG - 4)
    } else {
        (true, journal)
    };
    let filled = cancels(rt, &board, &mut client, others) == Ok(true);
    let before = alters_before(&mut client, place);
    let ended = cancels(rt, &board, &mut client, 1) == Ok(true)
        && client.audit_log.checkpoints == 1;
    let behind = alters_behind(&mut client, place);
    let went_on = cancels(rt, &board, &mut client, more) == Ok(true);
    let closed = closes(board, client, writer, workers, place);
    Ok(opened && filled && before && ended && behind && went_on && closed)
}

// The same with ledgers that are picked here, at once behind the checkpoint, where some of what it ended is compared, where all is, and
// behind further checkpoints.
fn holds<R: Wait>(rt: &R, alloc: Global, journal: u32, place: Place) -> Result<bool, AllocError>
    requires { (0 < journal) × (journal ≤ 40) }
{
    for more in [0, 1, 20, 100] {
        if !one_row::<Brand, R>(rt, alloc, Blanks::new(1), journal, place, more)? {
            return Ok(false);
        }
    }
    Ok(true)
}

#[test]
fn an_honest_list_agrees(rt: HostRuntime) -> Result<(), Fail> {
    assert!(rt; holds(&rt, rt.alloc(), SHORT, Place::Nowhere)?);
    assert!(rt; holds(&rt, rt.alloc(), LONG, Place::Nowhere)?);
    Ok(())
}

// The first entry, one in the middle, and the last.
#[test]
fn an_entry_is_altered_before_a_checkpoint(rt: HostRuntime) -> Result<(), Fail> {
    for at in [0, 1, 3] {
        assert!(rt; holds(&rt, rt.alloc(), SHORT, Place::Before(at))?);
    }
    for at in [0, 18, 36] {
        assert!(rt; holds(&rt, rt.alloc(), LONG, Place::Before(at))?);
    }
    Ok(())
}

#[test]
fn an_entry_is_altered_once_its_list_has_ended(rt: HostRuntime) -> Result<(), Fail> {
    for at in [0, 1, 3] {
        assert!(rt; holds(&rt, rt.alloc(), SHORT, Place::Ended(at))?);
    }
    for at in [0, 18, 36] {
        assert!(rt; holds(&rt, rt.alloc(), LONG, Place::Ended(at))?);
    }
    Ok(())
}

#[test]
fn an_entry_is_altered_behind_a_checkpoint(rt: HostRuntime) -> Result<(), Fail> {
    assert!(rt; holds(&rt, rt.alloc(), SHORT, Place::Behind)?);
    assert!(rt; holds(&rt, rt.alloc(), LONG, Place::Behind)?);
    Ok(())
}
