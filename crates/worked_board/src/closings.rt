//! A document that is closed and opened again, with texts that are near to each other, and closed once while a worker has its job.
ghost use Rattle.std.specs.Prelude.{◌≡◌, IfOk};
ghost use Rattle.ls_machine.specs.Client.{IsAllowed};

use super::calls::{LAST, counts, nth_desk};
use ls_answers::Answer;
use ls_desk::{Desk, DeskFault, Out};
use ls_lists::Text;
use ls_text::Encoding;
use ls_workers::{
    Blanks, Board, ClientAnswer, ClientEvent, ClientSeat, Crew, Gate, Stop, WorkerSeat, WriterSeat,
    work,
};
use std::alloc::{AllocError, Global};
use std::marker::Brand;
use std::sync::{Mutex, Wait};
use std::test::Fail;

const URI: &str = "file:///g";

/// Nothing is wrong with it.
const RIGHT: &str = "a = b\nb = c\nc = \"x\"\n";

/// The name `d` isn't defined, and so the first two rules generate nothing.
const WRONG: &str = "a = b\nb = d\nc = \"x\"\n";

fn opening(alloc: Global, text: &str) -> Result<ClientEvent, AllocError>
    ensures { IfOk result (λ event. IsAllowed event) }
{
    let (uri, text) = (Text::from_str(alloc, URI)?, Text::from_str(alloc, text)?);
    Ok(ClientEvent::DidOpen(uri, 1, text, Encoding::Utf16))
}

fn closing(alloc: Global) -> Result<ClientEvent, AllocError>
    ensures { IfOk result (λ event. IsAllowed event) }
{
    Ok(ClientEvent::DidClose(Text::from_str(alloc, URI)?))
}

/// Closes the document once the worker has the job with this ticket.
#[derive(Drop)]
struct Closes<'b, C: Crew> {
    alloc: Global,
    board: &'b Board<C>,
    client: Mutex<ClientSeat<C>>,
    ticket: u64,
}

impl<C: Crew> Closes<'_, C> {
    // What the client does is answered so.
    fn is_answered<R: Wait>(&self, rt: &R, event: ClientEvent, answer: ClientAnswer) -> bool
        requires { IsAllowed event }
    {
        let mut client = self.client.lock(rt);
        self.board.client(rt, &mut client, event) == Ok(answer)
    }

    // The document is closed.
    fn closes<R: Wait>(&self, rt: &R) -> bool {
        let Ok(event) = closing(self.alloc) else {
            return false;
        };
        self.is_answered(rt, event, ClientAnswer::Closed)
    }
}

impl<C: Crew> Gate for Closes<'_, C> {
    fn pass<R: Wait>(&self, rt: &R, ticket: u64) {
        if ticket == self.ticket && !self.closes(rt) {
            self.board.stop(rt, Stop::Now);
        }
    }
}

// What is sent next: the version of a text, and how many findings it has. None where nothing is, or something else.
fn next_found<C: Crew, R: Wait>(
    rt: &R,
    board: &Board<C>,
    writer: &mut WriterSeat<C>,
) -> Option<(u64, usize)> {
    let Ok(Some(out)) = board.next_out(rt, writer) else {
        return None;
    };
    let found = match &out {
        Out::Findings { version, done, .. } => match done.answer() {
            Ok(Answer::Findings(findings)) => Some((*version, findings.len())),
            _ => None,
        },
        _ => None,
    };
    drop(out);
    found
}

// The document is opened with a text, which has this version, and all that waits is done. What is sent then, and the worker's seat.
fn opens<C: Crew, R: Wait>(
    rt: &R,
    gate: &Closes<'_, C>,
    writer: &mut WriterSeat<C>,
    worker: WorkerSeat<C>,
    text: &str,
    version: u64,
) -> (WorkerSeat<C>, Option<(u64, usize)>) {
    let Ok(event) = opening(gate.alloc, text) else {
        return (worker, None);
    };
    if !gate.is_answered(rt, event, ClientAnswer::Version(version)) {
        return (worker, None);
    }
    let (worker, fault) = work(rt, gate.alloc, gate.board, worker, gate);
    let found = next_found(rt, gate.board, writer);
    (worker, if fault.is_none() { found } else { None })
}

// Four openings, with a close between any two, of which the last comes once the worker has the third job.
fn four_openings<C: Crew, R: Wait>(
    rt: &R,
    gate: &Closes<'_, C>,
    writer: &mut WriterSeat<C>,
    worker: WorkerSeat<C>,
) -> (WorkerSeat<C>, bool) {
    let (worker, first) = opens(rt, gate, writer, worker, RIGHT, 1);
    let closed = gate.closes(rt);
    let (worker, second) = opens(rt, gate, writer, worker, WRONG, 2);
    let closed_again = gate.closes(rt);
    let (worker, third) = opens(rt, gate, writer, worker, RIGHT, 3);
    let (worker, last) = opens(rt, gate, writer, worker, WRONG, 4);
    let found = first == Some((1, 0)) && second == Some((2, 3)) && last == Some((4, 3));
    (worker, found && closed && closed_again && third.is_none())
}

// Seven events of the client, four jobs that the worker takes and three that it brings back, and as many that are sent.
fn one_session<C: Crew, R: Wait>(rt: &R, alloc: Global, blanks: Blanks) -> Result<bool, AllocError>
    requires book { blanks.history ≡ C.book }
    requires heard { (blanks.heard.name ≡ C.heard) × (blanks.heard.parts ≡ 1) }
    requires names { (blanks.client.name ≡ C.client) × (blanks.took.name ≡ C.took) × (blanks.returned.name ≡ C.returned) × (blanks.finished.name ≡ C.finished) × (blanks.sent.name ≡ C.sent) }
    requires parts { (blanks.client.parts ≡ 1) × (blanks.took.parts ≡ C.parts) × (blanks.returned.parts ≡ C.parts) × (blanks.finished.parts ≡ C.parts) × (blanks.sent.parts ≡ 1) }
    requires workers { (C.workers ≡ 1) × (C.parts ≡ 1) }
    requires limits { (C.max_journal ≡ 1000000) × (C.max_events ≡ 1000000) }
{
    let desk = nth_desk(alloc, LAST);
    let (board, client, mut writer, mut workers) = Board::<C>::new(rt, alloc, blanks, 1, desk, 1)?;
    board.stop(rt, Stop::Drain);
    let Some(worker) = workers.pop() else {
        return Ok(false);
    };
    let gate = Closes {
        alloc,
        board: &board,
        client: Mutex::new(client),
        ticket: 3,
    };
    let (worker, found) = four_openings(rt, &gate, &mut writer, worker);
    let client = gate.client.into_inner();
    workers.push(worker)?;
    match board.close(client, writer, workers) {
        Ok(desk) => {
            let counted = counts(&desk) == (7, 4, 0, 3, 3);
            drop(desk);
            Ok(found && counted)
        }
        Err(_) => Ok(false),
    }
}

// The same with ledgers that are picked here.
fn holds<R: Wait>(rt: &R, alloc: Global) -> Result<bool, AllocError> {
    one_session::<Brand, R>(rt, alloc, Blanks::new(1))
}

#[test]
fn a_document_is_opened_again(rt: HostRuntime) -> Result<(), Fail> {
    assert!(rt; holds(&rt, rt.alloc())?);
    Ok(())
}
