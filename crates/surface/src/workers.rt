//! `ls_workers`: the board, its seats, and what a worker does.
ghost use Rattle.std.specs.Prelude.{◌≡◌, ◌<◌, ◌≤◌, []};
ghost use Rattle.ls_machine.specs.Client.{IsAllowed};
ghost use Rattle.ls_workers.specs.Jobs.{HasLimits};

use ls_answers::{Ask, Done, Job};
use ls_desk::{Desk, DeskFault, Kept, Out};
use ls_lists::{List, Text};
use ls_rpc::Id;
use ls_text::{Edit, Encoding};
use ls_workers::{
    Blanks, Board, ClientAnswer, ClientEvent, ClientSeat, Crew, Front, Gate, SeatFault, Stop,
    WorkerSeat, WriterSeat,
};
use std::alloc::{AllocError as Memory, Global};
use std::sync::Wait;

pub fn blanks(workers: u32) -> Blanks {
    Blanks::new(workers)
}

pub fn board<C: Crew, R: Wait>(
    rt: &R,
    alloc: Global,
    blanks: Blanks,
    mark: u64,
    desk: Desk,
    workers: u32,
) -> Result<(Board<C>, ClientSeat<C>, WriterSeat<C>, Vec<WorkerSeat<C>>), Memory>
    requires book { blanks.history ≡ C.book }
    requires heard { (blanks.heard.name ≡ C.heard) × (blanks.heard.parts ≡ 1) }
    requires names { (blanks.client.name ≡ C.client) × (blanks.took.name ≡ C.took) × (blanks.returned.name ≡ C.returned) × (blanks.finished.name ≡ C.finished) × (blanks.sent.name ≡ C.sent) }
    requires parts { (blanks.client.parts ≡ 1) × (blanks.took.parts ≡ C.parts) × (blanks.returned.parts ≡ C.parts) × (blanks.finished.parts ≡ C.parts) × (blanks.sent.parts ≡ 1) }
    requires workers { (workers ≡ C.workers) × (workers ≡ C.parts) × (0 < workers) × (workers ≤ 8) }
    requires empty { desk.journal ≡ [] }
    requires limits { HasLimits C.max_journal C.max_events desk }
{
    Board::new(rt, alloc, blanks, mark, desk, workers)
}

pub fn client_mark<C: Crew>(seat: &ClientSeat<C>) -> u64 {
    seat.mark
}

pub fn client_count<C: Crew>(seat: &ClientSeat<C>) -> u64 {
    seat.asked.get()
}

pub fn writer_mark<C: Crew>(seat: &WriterSeat<C>) -> u64 {
    seat.mark
}

pub fn writer_count<C: Crew>(seat: &WriterSeat<C>) -> u64 {
    seat.sent.get()
}

pub fn worker_mark<C: Crew>(seat: &WorkerSeat<C>) -> u64 {
    seat.mark
}

pub fn worker_number<C: Crew>(seat: &WorkerSeat<C>) -> u32 {
    seat.number
}

pub fn worker_counts<C: Crew>(seat: &WorkerSeat<C>) -> (u64, u64, u64) {
    (seat.took.get(), seat.returned.get(), seat.finished.get())
}

pub fn client<C: Crew, R: Wait>(
    board: &Board<C>,
    rt: &R,
    seat: &mut ClientSeat<C>,
    event: ClientEvent,
) -> Result<ClientAnswer, DeskFault>
    requires { IsAllowed event }
{
    board.client(rt, seat, event)
}

pub fn take<C: Crew, R: Wait>(
    board: &Board<C>,
    rt: &R,
    seat: &mut WorkerSeat<C>,
) -> Result<Option<Job>, DeskFault> {
    board.take(rt, seat)
}

pub fn finish<C: Crew, R: Wait>(
    board: &Board<C>,
    rt: &R,
    seat: &mut WorkerSeat<C>,
    done: Done,
) -> Result<Kept, (DeskFault, Done)> {
    board.finish(rt, seat, done)
}

pub fn give_back<C: Crew, R: Wait>(
    board: &Board<C>,
    rt: &R,
    seat: &mut WorkerSeat<C>,
    ticket: u64,
) -> Result<(), DeskFault> {
    board.give_back(rt, seat, ticket)
}

pub fn next_out<C: Crew, R: Wait>(
    board: &Board<C>,
    rt: &R,
    seat: &mut WriterSeat<C>,
) -> Result<Option<Out>, Memory> {
    board.next_out(rt, seat)
}

pub fn wanted<C: Crew, R: Wait>(
    board: &Board<C>,
    rt: &R,
    seen: &mut Front<C>,
    ticket: u64,
) -> bool {
    board.wanted(rt, seen, ticket)
}

pub fn stop<C: Crew, R: Wait>(board: &Board<C>, rt: &R, how: Stop) {
    board.stop(rt, how)
}

pub const STOPS: [Stop; 2] = [Stop::Drain, Stop::Now];

pub fn stop_number(stop: Stop) -> u8 {
    match stop {
        Stop::Drain => 0,
        Stop::Now => 1,
    }
}

pub fn did_open(uri: Text, label: i64, text: Text, encoding: Encoding) -> ClientEvent {
    ClientEvent::DidOpen(uri, label, text, encoding)
}

pub fn did_change(uri: Text, label: i64, edits: List<Edit>) -> ClientEvent {
    ClientEvent::DidChange(uri, label, edits)
}

pub fn did_close(uri: Text) -> ClientEvent {
    ClientEvent::DidClose(uri)
}

pub fn request(id: Id, uri: Text, ask: Ask, links: bool) -> ClientEvent {
    ClientEvent::Request(id, uri, ask, links)
}

pub fn cancel(id: Id) -> ClientEvent {
    ClientEvent::Cancel(id)
}

pub fn say(body: List<u8>) -> ClientEvent {
    ClientEvent::Say(body)
}

pub fn client_event_kind(event: &ClientEvent) -> u8 {
    match event {
        ClientEvent::DidOpen(_, _, _, _) => 0,
        ClientEvent::DidChange(_, _, _) => 1,
        ClientEvent::DidClose(_) => 2,
        ClientEvent::Request(_, _, _, _) => 3,
        ClientEvent::Cancel(_) => 4,
        ClientEvent::Say(_) => 5,
    }
}

pub fn client_event_copy(event: &ClientEvent) -> Result<ClientEvent, Memory> {
    event.copy()
}

pub fn client_answers(version: u64, ticket: u64, found: bool) -> [ClientAnswer; 5] {
    [
        ClientAnswer::Version(version),
        ClientAnswer::Closed,
        ClientAnswer::Ticket(ticket),
        ClientAnswer::Cancelled(found),
        ClientAnswer::Said,
    ]
}

pub fn client_answer_kind(answer: ClientAnswer) -> u8 {
    match answer {
        ClientAnswer::Version(_) => 0,
        ClientAnswer::Closed => 1,
        ClientAnswer::Ticket(_) => 2,
        ClientAnswer::Cancelled(_) => 3,
        ClientAnswer::Said => 4,
    }
}

pub fn close<C: Crew>(
    board: Board<C>,
    client: ClientSeat<C>,
    writer: WriterSeat<C>,
    workers: Vec<WorkerSeat<C>>,
) -> Result<Desk, SeatFault>
    requires { (C.workers ≡ C.parts) × (0 < C.parts) }
{
    board.close(client, writer, workers)
}

pub fn seat_missing() -> SeatFault {
    SeatFault::SeatMissing
}

pub fn strayed(desk: Desk) -> SeatFault {
    SeatFault::Strayed(desk)
}

pub fn seat_fault_number(fault: &SeatFault) -> u8 {
    match fault {
        SeatFault::SeatMissing => 1,
        SeatFault::Strayed(_) => 2,
    }
}

/// A gate that holds no worker back.
#[derive(Drop)]
pub struct Open;

impl Gate for Open {
    fn pass<R: Wait>(&self, _rt: &R, _ticket: u64) {}
}

pub fn pass<G: Gate, R: Wait>(gate: &G, rt: &R, ticket: u64) {
    gate.pass(rt, ticket)
}

pub fn work<C: Crew, R: Wait, G: Gate>(
    rt: &R,
    alloc: Global,
    board: &Board<C>,
    seat: WorkerSeat<C>,
    gate: &G,
) -> (WorkerSeat<C>, Option<DeskFault>) {
    ls_workers::work(rt, alloc, board, seat, gate)
}
