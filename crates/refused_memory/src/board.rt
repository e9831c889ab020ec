//! A session at a board whose journal begins anew with each event of the client but the first. It goes on where memory is refused once.
ghost use Rattle.std.specs.Prelude.{◌≡◌, ◌<◌, IfOk};
ghost use Rattle.ls_machine.specs.Client.{IsAllowed};

use ls_answers::Ask;
use ls_desk::{Desk, DeskFault};
use ls_lists::Text;
use ls_rpc::Id;
use ls_text::Encoding;
use ls_workers::{
    Blanks, Board, ClientAnswer, ClientEvent, ClientSeat, Crew, WorkerSeat, WriterSeat,
};
use one_document::{START, uri, whole};
use std::alloc::{AllocError, Global};
use std::io;
use std::marker::Brand;
use std::sync::Wait;

/// What the client does, with the text of its document or the id of its request.
#[derive(Clone, Copy)]
enum Does {
    Open(&'static str),
    Rename(i64),
    Change(&'static str),
    Close,
}

/// The change ends the rename, whose reply is unsent at the end.
const SESSION: [Does; 5] = [
    Does::Open("a = \"x\""),
    Does::Rename(2),
    Does::Change("a = \"yy\""),
    Does::Close,
    Does::Open("a = \"z\""),
];

fn event(alloc: Global, does: Does) -> Result<ClientEvent, AllocError>
    ensures { IfOk result (λ event. IsAllowed event) }
{
    let uri = uri(alloc)?;
    match does {
        Does::Open(text) => {
            let text = Text::from_str(alloc, text)?;
            Ok(ClientEvent::DidOpen(uri, 1, text, Encoding::Utf16))
        }
        Does::Rename(id) => {
            let ask = Ask::Rename(START, Text::from_str(alloc, "b")?);
            Ok(ClientEvent::Request(Id::Number(id), uri, ask, false))
        }
        Does::Change(text) => Ok(ClientEvent::DidChange(uri, 2, whole(alloc, text)?)),
        Does::Close => Ok(ClientEvent::DidClose(uri)),
    }
}

fn entered<C: Crew, R: Wait>(
    rt: &R,
    alloc: Global,
    board: &Board<C>,
    client: &mut ClientSeat<C>,
    does: Does,
) -> Result<ClientAnswer, DeskFault> {
    board.client(rt, client, event(alloc, does)?)
}

// What a client's seat has counted and listed: how many events it has entered in all and since the last checkpoint, how many checkpoints these
// made, and whether it has strayed.
fn logged<C: Crew>(client: &ClientSeat<C>) -> (u64, usize, u64, bool) {
    let log = &client.audit_log;
    let entered = client.asked.get();
    (entered, log.list.len(), log.checkpoints, log.strayed)
}

// Which of the first eight tickets wait, by a bit for each.
fn waiting<C: Crew, R: Wait>(rt: &R, board: &Board<C>, client: &ClientSeat<C>) -> u32 {
    let mut seen = client.front.again();
    let mut waiting = 0_u32;
    for ticket in 1..9_u64 {
        let bit = u32::from(board.wanted(rt, &mut seen, ticket));
        waiting = waiting.wrapping_mul(2).wrapping_add(bit);
    }
    waiting
}

// What the board answers, to the same event made once more where memory is refused. None where all isn't as before then, or memory is refused
// twice.
fn answered<C: Crew, R: Wait>(
    rt: &R,
    alloc: Global,
    board: &Board<C>,
    client: &mut ClientSeat<C>,
    does: Does,
) -> Option<ClientAnswer> {
    let before = (logged(client), waiting(rt, board, client));
    match entered(rt, alloc, board, client, does) {
        Err(DeskFault::Memory) => {}
        answer => return answer.ok(),
    }
    if (logged(client), waiting(rt, board, client)) != before {
        return None;
    }
    entered(rt, alloc, board, client, does).ok()
}

fn played<C: Crew, R: Wait>(
    rt: &HostRuntime,
    waits: &R,
    board: &Board<C>,
    client: &mut ClientSeat<C>,
) -> io::Result<()> {
    for does in SESSION {
        let answer = answered(waits, rt.alloc(), board, client, does);
        println!(rt; "client: {answer:?}")?;
    }
    Ok(())
}

// How many events of the client, checkpoints and unsent replies the board's desk has, by which the seats are audited.
fn closed<C: Crew>(
    board: Board<C>,
    client: ClientSeat<C>,
    writer: WriterSeat<C>,
    workers: Vec<WorkerSeat<C>>,
) -> Option<(u64, u64, usize)>
    requires { (C.workers ≡ C.parts) × (0 < C.parts) }
{
    match board.close(client, writer, workers) {
        Ok(desk) => {
            let told = (desk.counts().client, desk.checkpoints(), desk.unsent());
            drop(desk);
            Some(told)
        }
        Err(fault) => {
            drop(fault);
            None
        }
    }
}

fn tell(rt: &HostRuntime, closed: Option<(u64, u64, usize)>) -> io::Result<()> {
    match closed {
        Some((events, checkpoints, unsent)) => println!(rt;
            "close: {events} events, {checkpoints} checkpoints, unsent {unsent}"
        ),
        None => println!(rt; "close: refused"),
    }
}

// Plays the session at a board with one worker. Nothing is printed where memory for the board is refused.
fn session<C: Crew, R: Wait>(
    rt: &HostRuntime,
    waits: &R,
    blanks: Blanks,
) -> Result<io::Result<()>, AllocError>
    requires book { blanks.history ≡ C.book }
    requires heard { (blanks.heard.name ≡ C.heard) × (blanks.heard.parts ≡ 1) }
    requires names { (blanks.client.name ≡ C.client) × (blanks.took.name ≡ C.took) × (blanks.returned.name ≡ C.returned) × (blanks.finished.name ≡ C.finished) × (blanks.sent.name ≡ C.sent) }
    requires parts { (blanks.client.parts ≡ 1) × (blanks.took.parts ≡ C.parts) × (blanks.returned.parts ≡ C.parts) × (blanks.finished.parts ≡ C.parts) × (blanks.sent.parts ≡ 1) }
    requires workers { (C.workers ≡ 1) × (C.parts ≡ 1) }
    requires limits { (C.max_journal ≡ 1) × (C.max_events ≡ 1000000) }
{
    let alloc = rt.alloc();
    let desk = Desk::new(alloc, 1, 1_000_000);
    let (board, mut client, writer, workers) = Board::<C>::new(waits, alloc, blanks, 1, desk, 1)?;
    let played = played(rt, waits, &board, &mut client);
    let closed = closed(board, client, writer, workers);
    Ok(match played {
        Ok(()) => tell(rt, closed),
        Err(error) => Err(error),
    })
}

fn begun<R: Wait>(rt: &HostRuntime, waits: &R) -> Result<io::Result<()>, AllocError> {
    session::<Brand, R>(rt, waits, Blanks::new(1))
}

/// Plays the session, and prints what the board answers. The second handle is the one to wait by.
pub fn run<R: Wait>(rt: &HostRuntime, waits: &R) -> io::Result<()> {
    let ended = match begun(rt, waits) {
        Err(AllocError) => begun(rt, waits),
        ended => ended,
    };
    match ended {
        Ok(ended) => ended,
        Err(AllocError) => println!(rt; "refused memory twice"),
    }
}
