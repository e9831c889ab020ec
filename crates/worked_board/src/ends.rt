//! How a board ends, and that lists which aren't those of the journal are found out, also those of a journal that has begun anew since. It
//! has one worker, and one document is opened.
ghost use Rattle.std.specs.Prelude.{◌≡◌, ◌+◌, ◌<◌, nat_lt, if◌then◌else◌};

use super::calls::{DESKS, counts, has_no_job, hover, next_ticket, nth_desk, opening, run_one};
use ls_desk::DeskFault;
use ls_rpc::Id;
use ls_workers::{
    Blanks, Board, ClientAnswer, ClientEvent, ClientSeat, Crew, SeatFault, Stop, WorkerSeat,
    WriterSeat,
};
use std::alloc::{AllocError, Global};
use std::marker::Brand;
use std::sync::Wait;
use std::test::Fail;

// What is done at the board.
#[derive(Clone, Copy, Drop)]
enum Session {
    // It ends once all is done.
    Drained,
    // It ends at once.
    Stopped,
    // It ends at once, and the client forgets what it entered.
    Forgotten,
    // It ends once all is done, and the writer forgets what it was given.
    Unsent,
    // The client forgets what it entered before it enters more, which may begin the journal anew. It ends once all is done.
    Altered,
    // The findings are sent, and then the client enters more. It ends at once.
    Unheard,
    // The client cancels what it hasn't asked, again and again, by which most journals begin anew. It ends at once.
    Renewed,
}

// The document is opened, and can't be opened again. The seat has the first call alone.
fn opens<C: Crew, R: Wait>(
    rt: &R,
    alloc: Global,
    board: &Board<C>,
    client: &mut ClientSeat<C>,
) -> Result<bool, DeskFault> {
    let first = board.client(rt, client, opening(alloc)?)?;
    let second = board.client(rt, client, opening(alloc)?);
    let refused = second == Err(DeskFault::AlreadyOpen);
    let counted = client.asked.get() == 1 && client.audit_log.list.len() == 1;
    Ok(first == ClientAnswer::Version(1) && refused && counted)
}

// A hover is asked beside the findings. After `Drain` both jobs are given, and their replies, both of which wait, are sent in
// their order, and nothing more.
fn drains<C: Crew, R: Wait>(
    rt: &R,
    alloc: Global,
    board: &Board<C>,
    client: &mut ClientSeat<C>,
    worker: &mut WorkerSeat<C>,
    writer: &mut WriterSeat<C>,
) -> Result<bool, DeskFault> {
    let asked = board.client(rt, client, hover(alloc, 1)?)?;
    board.stop(rt, Stop::Drain);
    let findings = run_one(rt, alloc, board, worker)?;
    let shown = run_one(rt, alloc, board, worker)?;
    let no_job = has_no_job(rt, board, worker);
    let unknown = board.give_back(rt, worker, 1) == Err(DeskFault::UnknownTicket);
    let first = next_ticket(rt, board, writer)?;
    let second = next_ticket(rt, board, writer)?;
    let last = next_ticket(rt, board, writer)?;
    let ran = asked == ClientAnswer::Ticket(2) && findings == 1 && shown == 2;
    let sent = first == Some(1) && second == Some(2) && last == None;
    Ok(ran && no_job && unknown && sent)
}

// The client forgets what it entered, where the session says so.
fn forgets<C: Crew>(client: &mut ClientSeat<C>, session: Session) {
    if matches!(session, Session::Altered) {
        drop(client.audit_log.list.pop());
    }
}

// The findings are sent, and a hover is asked, which may begin the journal anew. Nothing is sent behind it.
fn asks_late<C: Crew, R: Wait>(
    rt: &R,
    alloc: Global,
    board: &Board<C>,
    client: &mut ClientSeat<C>,
    worker: &mut WorkerSeat<C>,
    writer: &mut WriterSeat<C>,
) -> Result<bool, DeskFault> {
    let findings = run_one(rt, alloc, board, worker)?;
    let sent = next_ticket(rt, board, writer)?;
    let asked = board.client(rt, client, hover(alloc, 1)?)?;
    board.stop(rt, Stop::Now);
    Ok(findings == 1 && sent == Some(1) && asked == ClientAnswer::Ticket(2))
}

// No event leaves more behind than what it has ended.
fn renews<C: Crew, R: Wait>(
    rt: &R,
    board: &Board<C>,
    client: &mut ClientSeat<C>,
) -> Result<bool, DeskFault> {
    for _ in 0..20 {
        let answer = board.client(rt, client, ClientEvent::Cancel(Id::Number(9)))?;
        if answer != ClientAnswer::Cancelled(false) || client.audit_log.ended.len() > 1 {
            return Ok(false);
        }
    }
    board.stop(rt, Stop::Now);
    Ok(true)
}

// After `Now` nothing is given, though a job is queued, and `Drain` doesn't undo it.
fn stops<C: Crew, R: Wait>(
    rt: &R,
    board: &Board<C>,
    worker: &mut WorkerSeat<C>,
    writer: &mut WriterSeat<C>,
) -> bool {
    board.stop(rt, Stop::Now);
    board.stop(rt, Stop::Drain);
    let no_job = has_no_job(rt, board, worker);
    let no_reply = next_ticket(rt, board, writer) == Ok(None);
    let asked = board.wanted(rt, &mut worker.front, 1);
    let unasked = board.wanted(rt, &mut worker.front, 2);
    no_job && no_reply && asked && !unasked
}

// Closes the board, and says whether it answers as it must.
fn closes<C: Crew>(
    board: Board<C>,
    mut client: ClientSeat<C>,
    mut writer: WriterSeat<C>,
    workers: Vec<WorkerSeat<C>>,
    session: Session,
) -> bool
    requires { (C.workers ≡ C.parts) × (0 < C.parts) }
{
    match session {
        Session::Forgotten => drop(client.audit_log.list.pop()),
        Session::Unsent => drop(writer.tickets.pop()),
        Session::Drained
        | Session::Stopped
        | Session::Altered
        | Session::Unheard
        | Session::Renewed => {}
    }
    let (desk, strayed) = match board.close(client, writer, workers) {
        Ok(desk) => (desk, false),
        Err(SeatFault::Strayed(desk)) => (desk, true),
        Err(SeatFault::SeatMissing) => return false,
    };
    let counts = counts(&desk);
    drop(desk);
    match session {
        Session::Drained => !strayed && counts == (2, 2, 0, 2, 2),
        Session::Unsent => strayed && counts == (2, 2, 0, 2, 2),
        Session::Altered => strayed && counts == (2, 2, 0, 2, 2),
        Session::Stopped => !strayed && counts == (1, 0, 0, 0, 0),
        Session::Forgotten => strayed && counts == (1, 0, 0, 0, 0),
        Session::Unheard => !strayed && counts == (2, 1, 0, 1, 1),
        Session::Renewed => !strayed && counts == (21, 0, 0, 0, 0),
    }
}

fn one_worker<C: Crew, R: Wait>(
    rt: &R,
    alloc: Global,
    blanks: Blanks,
    number: usize,
    session: Session,
) -> Result<bool, AllocError>
    requires book { blanks.history ≡ C.book }
    requires heard { (blanks.heard.name ≡ C.heard) × (blanks.heard.parts ≡ 1) }
    requires names { (blanks.client.name ≡ C.client) × (blanks.took.name ≡ C.took) × (blanks.returned.name ≡ C.returned) × (blanks.finished.name ≡ C.finished) × (blanks.sent.name ≡ C.sent) }
    requires parts { (blanks.client.parts ≡ 1) × (blanks.took.parts ≡ C.parts) × (blanks.returned.parts ≡ C.parts) × (blanks.finished.parts ≡ C.parts) × (blanks.sent.parts ≡ 1) }
    requires workers { (C.workers ≡ 1) × (C.parts ≡ 1) }
    requires limits { (C.max_journal ≡ (if nat_lt number 4 then number + 1 else 1000000)) × (C.max_events ≡ 1000000) }
{
    let desk = nth_desk(alloc, number);
    let (board, mut client, mut writer, mut workers) = Board::<C>::new(
        rt, alloc, blanks, 1, desk, 1,
    )?;
    let opened = opens(rt, alloc, &board, &mut client) == Ok(true);
    forgets(&mut client, session);
    let worker = &mut workers[0];
    let ended = match session {
        Session::Drained | Session::Unsent | Session::Altered => {
            drains(rt, alloc, &board, &mut client, worker, &mut writer) == Ok(true)
        }
        Session::Stopped | Session::Forgotten => stops(rt, &board, worker, &mut writer),
        Session::Unheard => {
            asks_late(rt, alloc, &board, &mut client, worker, &mut writer) == Ok(true)
        }
        Session::Renewed => renews(rt, &board, &mut client) == Ok(true),
    };
    let closed = closes(board, client, writer, workers, session);
    Ok(opened && ended && closed)
}

// The same on each desk, with ledgers that are picked here.
fn holds<R: Wait>(rt: &R, alloc: Global, session: Session) -> Result<bool, AllocError> {
    for number in 0..DESKS {
        if !one_worker::<Brand, R>(rt, alloc, Blanks::new(1), number, session)? {
            return Ok(false);
        }
    }
    Ok(true)
}

#[test]
fn it_drains(rt: HostRuntime) -> Result<(), Fail> {
    assert!(rt; holds(&rt, rt.alloc(), Session::Drained)?);
    Ok(())
}

#[test]
fn it_stops_at_once(rt: HostRuntime) -> Result<(), Fail> {
    assert!(rt; holds(&rt, rt.alloc(), Session::Stopped)?);
    Ok(())
}

#[test]
fn an_event_is_forgotten(rt: HostRuntime) -> Result<(), Fail> {
    assert!(rt; holds(&rt, rt.alloc(), Session::Forgotten)?);
    Ok(())
}

#[test]
fn a_ticket_is_forgotten(rt: HostRuntime) -> Result<(), Fail> {
    assert!(rt; holds(&rt, rt.alloc(), Session::Unsent)?);
    Ok(())
}

#[test]
fn an_event_is_forgotten_before_another(rt: HostRuntime) -> Result<(), Fail> {
    assert!(rt; holds(&rt, rt.alloc(), Session::Altered)?);
    Ok(())
}

#[test]
fn what_a_list_had_goes(rt: HostRuntime) -> Result<(), Fail> {
    assert!(rt; holds(&rt, rt.alloc(), Session::Renewed)?);
    Ok(())
}

#[test]
fn nothing_is_sent_behind_the_last_event(rt: HostRuntime) -> Result<(), Fail> {
    assert!(rt; holds(&rt, rt.alloc(), Session::Unheard)?);
    Ok(())
}
