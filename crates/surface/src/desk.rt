//! `ls_desk`: documents, jobs, the journal and what is to be sent.
ghost use Rattle.std.specs.Prelude.{◌<◌, ◌≤◌, ◌≢◌};

use ls_answers::{Ask, Done, Job};
use ls_desk::{
    Boxed, Counts, Desk, DeskFault, Document, Event, Kept, Out, OutboxEntry, Request,
    SharedSnapshot, State, Waiting,
};
use ls_lists::{List, Text};
use ls_machine::ClientEvent;
use ls_rpc::Id;
use ls_text::{Edit, Encoding, Snapshot};
use std::alloc::{AllocError as Memory, Global};
use std::sync::Arc;

pub fn desk(alloc: Global, max_journal: usize, max_events: u64) -> Desk
    requires journal { (0 < max_journal) × (max_journal ≤ 1000000) }
    requires events { (0 < max_events) × (max_events ≤ 18446744073709551614) }
{
    Desk::new(alloc, max_journal, max_events)
}

pub fn did_open(
    desk: &mut Desk,
    uri: Text,
    label: i64,
    text: Text,
    encoding: Encoding,
) -> Result<u64, DeskFault> {
    desk.did_open(uri, label, text, encoding)
}

pub fn did_change(
    desk: &mut Desk,
    uri: Text,
    label: i64,
    edits: List<Edit>,
) -> Result<Option<u64>, DeskFault> {
    desk.did_change(uri, label, edits)
}

pub fn did_close(desk: &mut Desk, uri: Text) -> Result<(), DeskFault> {
    desk.did_close(uri)
}

pub fn text_closed_by(desk: &Desk, event: &ClientEvent) -> Result<Option<SharedSnapshot>, Memory> {
    desk.text_closed_by(event)
}

pub fn give_room_back(events: &mut Vec<Event>) {
    ls_desk::give_room_back(events)
}

pub fn request(
    desk: &mut Desk,
    id: Id,
    uri: Text,
    question: Ask,
    links: bool,
) -> Result<u64, DeskFault>
    requires { question ≢ Ask.Diagnose }
{
    desk.request(id, uri, question, links)
}

pub fn cancel(desk: &mut Desk, id: &Id) -> Result<bool, DeskFault> {
    desk.cancel(id)
}

pub fn say(desk: &mut Desk, body: List<u8>) -> Result<(), DeskFault> {
    desk.say(body)
}

pub fn take(desk: &mut Desk, worker: u32) -> Result<Option<Job>, DeskFault> {
    desk.take(worker)
}

pub fn give_back(desk: &mut Desk, ticket: u64) -> Result<(), DeskFault> {
    desk.give_back(ticket)
}

pub fn finish(desk: &mut Desk, done: Done) -> Result<Kept, (DeskFault, Done)> {
    desk.finish(done)
}

pub const KEPT: [Kept; 3] = [Kept::Reply, Kept::Failure, Kept::Nothing];

pub fn kept_number(kept: Kept) -> u8 {
    match kept {
        Kept::Reply => 0,
        Kept::Failure => 1,
        Kept::Nothing => 2,
    }
}

pub fn next_out(desk: &mut Desk) -> Option<Out> {
    desk.next_out()
}

pub fn wanted(desk: &Desk, ticket: u64) -> bool {
    desk.wanted(ticket)
}

pub fn journal(desk: &Desk) -> &[Event] {
    desk.journal()
}

pub fn unsent(desk: &Desk) -> usize {
    desk.unsent()
}

pub fn out_at(desk: &Desk, at: usize) -> Option<&Out> {
    desk.out_at(at)
}

pub fn max_journal(desk: &Desk) -> usize {
    desk.max_journal()
}

pub fn base(desk: &Desk) -> &State {
    desk.base()
}

pub fn checkpoints(desk: &Desk) -> u64 {
    desk.checkpoints()
}

pub fn counts(desk: &Desk) -> Counts {
    desk.counts()
}

pub fn counted(client: u64, took: u64, returned: u64, finished: u64, sent: u64) -> Counts {
    Counts {
        client,
        took,
        returned,
        finished,
        sent,
    }
}

pub fn state(
    documents: List<Document>,
    waiting: List<Waiting>,
    unsent: List<OutboxEntry>,
    next_version: u64,
    next_ticket: u64,
) -> State {
    State {
        documents,
        waiting,
        unsent,
        next_version,
        next_ticket,
    }
}

pub fn document(
    uri: Text,
    version: u64,
    label: i64,
    text: SharedSnapshot,
    encoding: Encoding,
) -> Document {
    Document {
        uri,
        version,
        label,
        text,
        encoding,
    }
}

pub fn whose(id: Id, links: bool) -> Request {
    Request { id, links }
}

pub fn waits_for(waiting: &Waiting) -> u64 {
    let Waiting {
        ticket,
        ask: _,
        uri: _,
        version: _,
        label: _,
        text: _,
        encoding: _,
        request: _,
        taken: _,
    } = waiting;
    *ticket
}

pub fn entry_body(body: List<u8>) -> OutboxEntry {
    OutboxEntry::Body(body)
}

pub fn entry_failure(ticket: u64, id: Id, code: i32) -> OutboxEntry {
    OutboxEntry::Failure { ticket, id, code }
}

pub fn entry_outcome(waiting: Waiting) -> OutboxEntry {
    OutboxEntry::Outcome(waiting)
}

pub fn entry_kind(entry: &OutboxEntry) -> u8 {
    match entry {
        OutboxEntry::Body(_) => 0,
        OutboxEntry::Failure {
            ticket: _,
            id: _,
            code: _,
        } => 1,
        OutboxEntry::Outcome(_) => 2,
    }
}

pub fn shared(snapshot: Arc<Snapshot>) -> SharedSnapshot {
    SharedSnapshot::of(snapshot)
}

pub fn boxed<T: Drop>(alloc: Global, value: T) -> Result<Boxed<T>, Memory> {
    Boxed::new(alloc, value)
}

pub fn in_box<T>(boxed: &Boxed<T>) -> &T {
    boxed.get()
}

pub const DESK_FAULTS: [DeskFault; 10] = [
    DeskFault::NotOpen,
    DeskFault::AlreadyOpen,
    DeskFault::TooManyDocuments,
    DeskFault::TooManyWaiting,
    DeskFault::IdInUse,
    DeskFault::TooLarge,
    DeskFault::UnknownTicket,
    DeskFault::OtherText,
    DeskFault::SessionFull,
    DeskFault::Memory,
];

pub fn desk_fault_number(fault: DeskFault) -> u8 {
    match fault {
        DeskFault::NotOpen => 1,
        DeskFault::AlreadyOpen => 2,
        DeskFault::TooManyDocuments => 3,
        DeskFault::TooManyWaiting => 4,
        DeskFault::IdInUse => 5,
        DeskFault::TooLarge => 6,
        DeskFault::UnknownTicket => 7,
        DeskFault::OtherText => 8,
        DeskFault::SessionFull => 9,
        DeskFault::Memory => 10,
    }
}

pub fn out_said(body: List<u8>) -> Out {
    Out::Said(body)
}

pub fn out_replied(id: Id, uri: Text, version: u64, label: i64, links: bool, done: Done) -> Out {
    Out::Replied {
        id,
        uri,
        version,
        label,
        links,
        done,
    }
}

pub fn out_failed(ticket: u64, id: Id, code: i32) -> Out {
    Out::Failed { ticket, id, code }
}

pub fn out_findings(uri: Text, version: u64, label: i64, done: Done) -> Out {
    Out::Findings {
        uri,
        version,
        label,
        done,
    }
}

pub fn out_kind(out: &Out) -> u8 {
    match out {
        Out::Said(_) => 0,
        Out::Replied {
            id: _,
            uri: _,
            version: _,
            label: _,
            links: _,
            done: _,
        } => 1,
        Out::Failed {
            ticket: _,
            id: _,
            code: _,
        } => 2,
        Out::Findings {
            uri: _,
            version: _,
            label: _,
            done: _,
        } => 3,
    }
}

pub fn opened(
    uri: Text,
    label: i64,
    text: SharedSnapshot,
    encoding: Encoding,
    version: u64,
) -> Event {
    Event::Opened {
        uri,
        label,
        text,
        encoding,
        version,
    }
}

pub fn changed(uri: Text, label: i64, edits: Boxed<List<Edit>>, version: Option<u64>) -> Event {
    Event::Changed {
        uri,
        label,
        edits,
        version,
    }
}

pub fn closed(uri: Text) -> Event {
    Event::Closed { uri }
}

pub fn asked(id: Boxed<Id>, uri: Text, ask: Boxed<Ask>, links: bool, ticket: u64) -> Event {
    Event::Asked {
        id,
        uri,
        ask,
        links,
        ticket,
    }
}

pub fn cancelled(id: Id, found: bool) -> Event {
    Event::Cancelled { id, found }
}

pub fn said(body: List<u8>) -> Event {
    Event::Said { body }
}

pub fn took(worker: u32) -> Event {
    Event::Took { worker }
}

pub fn returned(ticket: u64) -> Event {
    Event::Returned { ticket }
}

pub fn finished(ticket: u64, failed: bool) -> Event {
    Event::Finished { ticket, failed }
}

pub fn sent(ticket: u64) -> Event {
    Event::Sent { ticket }
}

pub fn event_kind(event: &Event) -> u8 {
    match event {
        Event::Opened {
            uri: _,
            label: _,
            text: _,
            encoding: _,
            version: _,
        } => 0,
        Event::Changed {
            uri: _,
            label: _,
            edits: _,
            version: _,
        } => 1,
        Event::Closed { uri: _ } => 2,
        Event::Asked {
            id: _,
            uri: _,
            ask: _,
            links: _,
            ticket: _,
        } => 3,
        Event::Cancelled { id: _, found: _ } => 4,
        Event::Said { body: _ } => 5,
        Event::Took { worker: _ } => 6,
        Event::Returned { ticket: _ } => 7,
        Event::Finished {
            ticket: _,
            failed: _,
        } => 8,
        Event::Sent { ticket: _ } => 9,
    }
}
