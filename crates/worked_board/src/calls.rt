//! What the client, the workers and the writer do, with plain arguments. All are about one document.
ghost use Rattle.std.specs.Prelude.{◌≡◌, ◌+◌, ◌<◌, ◌≤◌, [], IfOk, nat_lt, if◌then◌else◌};
ghost use Rattle.ls_machine.specs.Client.{IsAllowed};
ghost use Rattle.ls_workers.specs.Jobs.{HasLimits};

use abnf_least::Shortest;
use ls_answers::{Answer, Ask, Done, run};
use ls_desk::{Boxed, Counts, Desk, DeskFault, Event, Kept, Out, SharedSnapshot, ticket_of};
use ls_lists::Text;
use ls_machine::same_event;
use ls_rpc::Id;
use ls_text::{Encoding, Position, Snapshot};
use ls_workers::{Board, ClientAnswer, ClientEvent, ClientSeat, Crew, WorkerSeat, WriterSeat};
use std::alloc::{AllocError, Global};
use std::sync::Wait;

const URI: &str = "file:///g";

const TEXT: &str = "a = \"x\"";

// The start of the document, where the name of its first rule stands.
const START: Position = Position {
    line: 0,
    character: 0,
};

fn uri(alloc: Global) -> Result<Text, AllocError> {
    Text::from_str(alloc, URI)
}

/// The document is opened with one rule, whose shortest string is `x`: a copy of that event.
pub(crate) fn opening(alloc: Global) -> Result<ClientEvent, AllocError>
    ensures { IfOk result (λ event. IsAllowed event) }
{
    let text = Text::from_str(alloc, TEXT)?;
    let event = ClientEvent::DidOpen(uri(alloc)?, 1, text, Encoding::Utf16);
    let copy = event.copy();
    drop(event);
    copy
}

// How many events a journal may have before it begins anew: 1 to 4, and then as many as it may have at all.
fn longest(number: usize) -> usize
    ensures within { (0 < result) × (result ≤ 1000000) }
    ensures is { result ≡ (if nat_lt number 4 then number + 1 else 1000000) }
{
    if number < 4 { number + 1 } else { 1_000_000 }
}

/// How many desks there are on which each worked session goes the same way.
pub(crate) const DESKS: usize = 5;

/// The last of these desks, whose journal doesn't begin anew.
pub(crate) const LAST: usize = 4;

/// One of these desks, on which nothing has happened. They differ in how long their journals may be.
pub(crate) fn nth_desk(alloc: Global, number: usize) -> Desk
    ensures empty { result.journal ≡ [] }
    ensures limits { HasLimits (if nat_lt number 4 then number + 1 else 1000000) 1000000 result }
{
    Desk::new(alloc, longest(number), 1_000_000)
}

/// How many events of each kind there were: of the client, taken, returned, finished and sent.
pub(crate) fn counts(desk: &Desk) -> (u64, u64, u64, u64, u64) {
    let Counts {
        client,
        took,
        returned,
        finished,
        sent,
    } = desk.counts();
    (client, took, returned, finished, sent)
}

/// A hover on that rule: a copy of that event.
pub(crate) fn hover(alloc: Global, id: i64) -> Result<ClientEvent, AllocError>
    ensures { IfOk result (λ event. IsAllowed event) }
{
    let event = ClientEvent::Request(Id::Number(id), uri(alloc)?, Ask::Hover(START), false);
    let copy = event.copy();
    drop(event);
    copy
}

/// Takes a job and brings it back, and says its ticket.
pub(crate) fn run_one<C: Crew, R: Wait>(
    rt: &R,
    alloc: Global,
    board: &Board<C>,
    seat: &mut WorkerSeat<C>,
) -> Result<u64, DeskFault> {
    let job = board.take(rt, seat)?.ok_or(DeskFault::UnknownTicket)?;
    let ticket = job.ticket;
    match board.finish(rt, seat, run(alloc, job)) {
        Ok(Kept::Reply) => Ok(ticket),
        Ok(Kept::Failure) => Err(DeskFault::Memory),
        Ok(Kept::Nothing) => Err(DeskFault::Memory),
        Err((fault, back)) => {
            drop(back);
            Err(fault)
        }
    }
}

/// Takes a job and gives it back unrun, and says its ticket.
pub(crate) fn return_one<C: Crew, R: Wait>(
    rt: &R,
    board: &Board<C>,
    seat: &mut WorkerSeat<C>,
) -> Result<u64, DeskFault> {
    let job = board.take(rt, seat)?.ok_or(DeskFault::UnknownTicket)?;
    let ticket = job.ticket;
    drop(job);
    board.give_back(rt, seat, ticket)?;
    Ok(ticket)
}

/// Whether there is no job to take.
pub(crate) fn has_no_job<C: Crew, R: Wait>(
    rt: &R,
    board: &Board<C>,
    seat: &mut WorkerSeat<C>,
) -> bool {
    let taken = board.take(rt, seat);
    let has_none = matches!(&taken, Ok(None));
    drop(taken);
    has_none
}

/// The ticket of the next reply, if there is one.
pub(crate) fn next_ticket<C: Crew, R: Wait>(
    rt: &R,
    board: &Board<C>,
    writer: &mut WriterSeat<C>,
) -> Result<Option<u64>, DeskFault> {
    let Some(out) = board.next_out(rt, writer)? else {
        return Ok(None);
    };
    let ticket = ticket_of(&out);
    drop(out);
    Ok(Some(ticket))
}

/// The document is opened, its findings are found by the first worker and sent, and two hovers are asked: the client's answers and the
/// tickets are as they must be.
pub(crate) fn begin<C: Crew, R: Wait>(
    rt: &R,
    alloc: Global,
    board: &Board<C>,
    client: &mut ClientSeat<C>,
    writer: &mut WriterSeat<C>,
    worker: &mut WorkerSeat<C>,
) -> Result<bool, DeskFault> {
    let opened = board.client(rt, client, opening(alloc)?)?;
    let found = run_one(rt, alloc, board, worker)?;
    let sent = next_ticket(rt, board, writer)?;
    let first = board.client(rt, client, hover(alloc, 1)?)?;
    let second = board.client(rt, client, hover(alloc, 2)?)?;
    let answers = opened == ClientAnswer::Version(1)
        && first == ClientAnswer::Ticket(2)
        && second == ClientAnswer::Ticket(3);
    Ok(answers && found == 1 && sent == Some(1))
}

// Whether the answer has the example `x`.
fn shows_x(done: &Done) -> bool {
    let Ok(Answer::Hover(Some(hover))) = done.answer() else {
        return false;
    };
    match &hover.example {
        Some((Shortest::Shown { length, text }, _)) => {
            *length == 1 && matches!(text.as_slice(), [120])
        }
        _ => false,
    }
}

/// Whether this is the answer to the hover with this ticket and this id.
pub(crate) fn answers_hover(out: &Out, ticket: u64, number: i64) -> bool {
    match out {
        Out::Replied {
            id: Id::Number(id),
            version,
            done,
            ..
        } => { *id == number && *version == 1 && done.ticket() == ticket && shows_x(done) }
        _ => false,
    }
}

// The entry by which the document was opened.
fn opened(alloc: Global) -> Result<Event, AllocError> {
    let Ok(snapshot) = Snapshot::of_text(alloc, Text::from_str(alloc, TEXT)?.into_string()) else {
        return Err(AllocError);
    };
    let text = SharedSnapshot::new(alloc, snapshot)?;
    Ok(Event::Opened {
        uri: uri(alloc)?,
        label: 1,
        text,
        encoding: Encoding::Utf16,
        version: 1,
    })
}

// The entry of a hover on its rule, with this id and this ticket.
fn asked(alloc: Global, id: i64, ticket: u64) -> Result<Event, AllocError> {
    Ok(Event::Asked {
        id: Boxed::new(alloc, Id::Number(id))?,
        uri: uri(alloc)?,
        ask: Boxed::new(alloc, Ask::Hover(START))?,
        links: false,
        ticket,
    })
}

// Whether this is the client's entry with this number, from 0, of the session with two hovers.
fn is_of_client(alloc: Global, event: &Event, number: usize) -> Result<bool, AllocError> {
    let wanted = match number {
        0 => opened(alloc)?,
        1 => asked(alloc, 1, 2)?,
        2 => asked(alloc, 2, 3)?,
        _ => return Ok(false),
    };
    Ok(same_event(event, &wanted))
}

/// Whether the client's events in a journal are that one document is opened and two hovers are asked, in this order, and what was sent has
/// these tickets, in this order.
pub(crate) fn has_told(
    alloc: Global,
    journal: &[Event],
    tickets: &[u64],
) -> Result<bool, AllocError> {
    let mut count = 0_usize;
    let mut are_alike = true;
    let mut sent = Vec::new(alloc);
    for event in journal {
        match event {
            Event::Sent { ticket } => sent.push(*ticket)?,
            Event::Took { .. } | Event::Returned { .. } | Event::Finished { .. } => {}
            _ => {
                are_alike = are_alike && is_of_client(alloc, event, count)?;
                count = count.saturating_add(1);
            }
        }
    }
    Ok(are_alike && count == 3 && sent.as_slice() == tickets)
}
