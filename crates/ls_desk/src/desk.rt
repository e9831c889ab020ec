//! The desk and its calls.
//!
//! Each call has three steps: it makes all that needs memory and finds its refusal, it makes room, and it writes what changes, where
//! nothing can fail any more. A refusal is the first whose cause holds in the order of the call's checks, and `Memory` where none does;
//! nothing has changed then.
//!
//! A call takes time in proportion to the open documents, 256 at most, and the waiting jobs, but for what an opening or a change does to a
//! text. One that makes a checkpoint copies these and the unsent replies besides, but no text of a document.
ghost use Rattle.std.specs.Prelude.{◌≢◌, is_some, slice_get, false, is_none, find, position, ◌≡◌, ◌==◌, ◌+◌, ◌<◌, ◌≤◌, IfOk, IfErr, OnOk, OnErr, IfSome, IfNone, Some, None, [], length, true};
ghost use Rattle.std.specs.Option.{option_map};
ghost use Rattle.std.specs.Str.{chars};
ghost use Rattle.ls_text.specs.Edits.{is_too_large};
ghost use Rattle.ls_text.specs.Lines.{max_bytes};
ghost use Rattle.ls_machine.specs.Machine.{is_open, document_of, is_held, is_queued, left_at, asked, asks_with, requests, id_waits, told_if_found, request_cancelled, waits, edited_at, measured};
ghost use Rattle.ls_machine.specs.Counts.{first, no_events};
ghost use Rattle.ls_machine.specs.Same.{is_for};
ghost use Rattle.ls_desk.specs.Stands.{Enters, Sends, IsSound, StandsAt, counts_of, failures, fresh, state_of, used};
ghost use Rattle.ls_desk.specs.Faults.{Accepts, open_fault, open_shared_fault, sized_open_fault, Refuses, end_fault, is_session_full, finish_fault, request_fault, take_fault, give_back_fault, cancel_fault, full_fault, kept_of, IsFirstCause, IsJobOf, Takes};
ghost use Rattle.ls_desk.specs.Door.{text_closed_by};
ghost use Rattle.ls_desk.specs.own.Puts.{next_of};

use crate::history::History;
use crate::job::{asked, has_failed, job_of, kept_for};
use crate::outs::{
    REQUEST_CANCELLED, failures, put_failure, put_finished, replies_at_end, ticket_of,
};
use crate::prepared::{Asking, Change, Ending, Opening, Query};
use crate::present::Present;
use crate::room::{
    put_replies, room_for_event, room_for_job, room_for_next, room_for_replies, room_for_text,
};
use crate::texts::snapshot_of_text;
use ls_answers::{Ask, Done, Job};
use ls_lists::{List, Text};
use ls_machine::{
    Boxed, ClientEvent, Counts, DeskFault, Document, Event, Kept, Out, SharedSnapshot, State,
    Waiting, find, state_of,
};
use ls_rpc::Id;
use ls_text::{Edit, Encoding, MAX_BYTES};
use std::alloc::{AllocError, Global};
use std::collections::VecDeque;
use std::marker::Model;

/// The most documents that are open at once.
const MOST_DOCUMENTS: usize = 256;

/// The most requests that wait at once.
const MOST_REQUESTS: usize = 1_024;

/// The most events that a desk's journal may have where a client's event comes to it.
pub const MOST_JOURNAL: usize = 1_000_000;

/// The most events and unsent replies of a session, together.
pub const MOST_EVENTS: u64 = 18_446_744_073_709_551_614;

/// The open documents, the waiting jobs, the unsent replies and the journal of a session.
///
/// Contracts see its base, its journal, its unsent replies and its limits, and what is left of the journal that the last checkpoint ended.
/// Its state is the replay of its journal from the base. The type keeps that the journal is legal, that some legal list of events led to
/// the base, and that the replies stand for the unsent entries of that state (`IsSound`).
pub struct Desk {
    alloc: Global,
    present: Present,
    outbox: VecDeque<Out>,
    history: History,
    max_journal: usize,
    max_events: u64,
}

// Not derived, so that what lets one go is proved without its fields.
impl Drop for Desk {
    fn drop(self) {
        let Desk {
            alloc: _,
            present: _,
            outbox: _,
            history: _,
            max_journal: _,
            max_events: _,
        } = self;
    }
}

impl Model for Desk {
    ghost use Rattle.ls_desk.specs.Stands.{Seen};
    ghost use Rattle.ls_desk.specs.own.Kept.{IsDeskKept};

    ghost Value = { Seen };

    ghost view = { λ d. record { base = d.history.base; journal = d.history.events.items; outbox = d.outbox.items; max_journal = d.max_journal; max_events = d.max_events; ended = d.history.events.ended } };

    ghost invariant = { λ d. IsDeskKept d.history.base d.history.events.items d.history.counts d.present d.outbox.items d.max_journal d.max_events d.history.events.room };
}

impl Desk {
    /// A desk on which nothing has happened. Its journal has at most `max_journal` events where a client's event comes to it, and the
    /// events of the session and the unsent replies are at most `max_events` together. Takes no memory.
    pub fn new(alloc: Global, max_journal: usize, max_events: u64) -> Desk
        requires journal { (0 < max_journal) × (max_journal ≤ 1000000) }
        requires events { (0 < max_events) × (max_events ≤ 18446744073709551614) }
        ensures { result ≡ record { base = first; journal = []; outbox = []; max_journal = max_journal; max_events = max_events; ended = [] } }
    {
        Desk {
            alloc,
            present: Present::new(alloc),
            outbox: VecDeque::new(alloc),
            history: History::new(alloc),
            max_journal,
            max_events,
        }
    }

    /// What happened here since the base. It is legal, and the outbox stands for the unsent entries of the state that it leads to.
    pub fn journal(&self) -> &[Event]
        ensures value { result.now ≡ self.now.journal }
        ensures sound { IsSound self.now }
    {
        self.history.events.as_slice()
    }

    /// The state that the journal goes on from. All earlier events led to it.
    pub fn base(&self) -> &State
        ensures value { result.now ≡ self.now.base.state }
        ensures sound { IsSound self.now }
    {
        &self.history.base.state
    }

    /// How often a state has become the base.
    pub fn checkpoints(&self) -> u64
        ensures { result ≡ self.now.base.checkpoints }
    {
        self.history.base.checkpoints
    }

    /// What is left of the journal that the last checkpoint ended: all of it right behind the event that made the checkpoint, and less with
    /// the events behind that. The desk has none of it from now on, and else it stays as it was. Takes no memory.
    pub fn take_ended(&mut self) -> Vec<Event>
        ensures ended { result.items ≡ self.old.ended }
        ensures same { self.new ≡ record self.old { ended = [] } }
    {
        self.history.events.take_ended()
    }

    /// How many events of each kind there were over the session. There were none where the journal is empty, since each checkpoint leaves
    /// one there.
    pub fn counts(&self) -> Counts
        ensures value { result ≡ counts_of self.now }
        ensures none { self.now.journal ≡ [] → result ≡ no_events }
    {
        self.history.counts
    }

    /// How many events the journal may have where a client's event comes to it.
    pub fn max_journal(&self) -> usize
        ensures { result ≡ self.now.max_journal }
    {
        self.max_journal
    }

    /// How many replies wait to be sent.
    pub fn unsent(&self) -> usize
        ensures { result ≡ length self.now.outbox }
    {
        self.outbox.len()
    }

    /// Whether there is no room for an event and these replies.
    fn is_full(&self, replies: usize) -> bool
        ensures full { result ≡ is_session_full self.now (1 + replies) }
        ensures room { result ≡ false → used self.now + (1 + replies) ≤ self.now.max_events }
    {
        self.max_events - (self.history.counts.total() + self.outbox.len() as u64) <= replies as u64
    }

    /// The state that becomes the base, where a client's event that comes now finds the journal as long as it may be.
    fn fresh(&self) -> Result<Option<State>, AllocError>
        ensures { IfOk result (λ state. state ≡ fresh self.now) }
    {
        if self.history.events.len() < self.max_journal {
            return Ok(None);
        }
        let state = state_of(
            self.alloc,
            self.present.documents.as_slice(),
            self.present.waiting.as_slice(),
            &self.outbox,
            self.present.next_version,
            self.present.next_ticket,
        )?;
        Ok(Some(state))
    }

    /// The document whose text ends, and what its end leaves, or the refusal that comes first.
    #[tactic(auto, using(crate::proofs::Rules::desk_rules))]
    fn ends(&self, uri: &Text) -> Result<(&Document, Ending), DeskFault>
        ensures document { IfOk result (λ found. document_of uri.now (state_of self.now).documents ≡ Some found.0.now) }
        ensures state { IfOk result (λ found. found.1.state ≡ fresh self.now) }
        ensures replies { IfOk result (λ found. found.1.replies.items ≡ failures uri.now (state_of self.now).waiting) }
        ensures none { OnOk result (end_fault self.now uri.now ≡ None) }
        ensures room { IfOk result (λ found. used self.now + (1 + length found.1.replies.items) ≤ self.now.max_events) }
        ensures err { IfErr result (λ fault. IsFirstCause (end_fault self.now uri.now) fault) }
    {
        let documents = self.present.documents.as_slice();
        let Some(document) = find::document_of(documents, uri) else {
            return Err(DeskFault::NotOpen);
        };
        if self.is_full(replies_at_end(uri, self.present.waiting.as_slice())) {
            return Err(DeskFault::SessionFull);
        }
        let replies = failures(self.alloc, uri, self.present.waiting.as_slice())?;
        let state = self.fresh()?;
        Ok((document, Ending { state, replies }))
    }

    /// What a change leaves, or the refusal that comes first.
    fn changed(&self, uri: &Text, label: i64, edits: List<Edit>) -> Result<Change, DeskFault>
        ensures open { OnOk result (is_open uri.now (state_of self.now).documents ≡ true) }
        ensures state { IfOk result (λ change. change.ending.state ≡ fresh self.now) }
        ensures replies { IfOk result (λ change. change.ending.replies.items ≡ failures uri.now (state_of self.now).waiting) }
        ensures next { IfOk result (λ change. change.next ≡ next_of (state_of self.now).next_version (state_of self.now).next_ticket uri.now label (edited_at (document_of uri.now (state_of self.now).documents) edits)) }
        ensures edits { IfOk result (λ change. change.edits ≡ edits) }
        ensures none { OnOk result (end_fault self.now uri.now ≡ None) }
        ensures room { IfOk result (λ change. used self.now + (1 + length change.ending.replies.items) ≤ self.now.max_events) }
        ensures err { IfErr result (λ fault. IsFirstCause (end_fault self.now uri.now) fault) }
    {
        let (document, ending) = self.ends(uri)?;
        let next = self
            .present
            .changed_text(self.alloc, uri, label, document, edits.as_slice())?;
        let edits = Boxed::new(self.alloc, edits)?;
        Ok(Change {
            ending,
            next,
            edits,
        })
    }

    /// Changes a document by edits, each on the text that the ones before it left, and gives the version of the new text. That has a job
    /// for its findings, and the document's waiting renames, code actions and findings end; each request among them is answered -32801.
    /// `None`: one of these texts would have more than [`MAX_BYTES`] bytes, and the document is closed.
    ///
    /// # Errors
    ///
    /// The first of these that holds; nothing has changed then. `NotOpen` where no document of this uri is open; `SessionFull` where there
    /// is no room for the event and the errors of the requests that it ends; `Memory` where an allocation is refused.
    pub fn did_change(
        &mut self,
        uri: Text,
        label: i64,
        edits: List<Edit>,
    ) -> Result<Option<u64>, DeskFault>
        ensures ok { IfOk result (λ version. Accepts (end_fault self.old uri) self.old self.new (Event.Changed uri label edits version)) }
        ensures err { IfErr result (λ fault. Refuses (end_fault self.old uri) self.old self.new fault) }
    {
        let mut change = self.changed(&uri, label, edits)?;
        room_for_next(&mut self.present.waiting, &change.next)?;
        put_replies(
            &mut self.history.events,
            &mut self.outbox,
            &mut change.ending,
        )?;
        let (state, next, edits) = change.into_parts();
        let version = self.present.change(&uri, next);
        self.history.enter(
            state,
            Event::Changed {
                uri,
                label,
                edits,
                version,
            },
        );
        Ok(version)
    }

    /// Closes a document. Its waiting renames, code actions and findings end, and each request among them is answered -32801; its other
    /// requests go on for the text that they were asked about.
    ///
    /// # Errors
    ///
    /// The first of these that holds; nothing has changed then. `NotOpen` where no document of this uri is open; `SessionFull` where there
    /// is no room for the event and the errors of the requests that it ends; `Memory` where an allocation is refused.
    pub fn did_close(&mut self, uri: Text) -> Result<(), DeskFault>
        ensures ok { OnOk result (Accepts (end_fault self.old uri) self.old self.new (Event.Closed uri)) }
        ensures err { IfErr result (λ fault. Refuses (end_fault self.old uri) self.old self.new fault) }
    {
        let (_, mut ending) = self.ends(&uri)?;
        put_replies(&mut self.history.events, &mut self.outbox, &mut ending)?;
        let state = ending.into_state();
        self.present.close(&uri);
        self.history.enter(state, Event::Closed { uri });
        Ok(())
    }

    /// The text that a client's event closes, as its document has it now: another owner of it. `None` where the event closes none, or no
    /// document of its uri is open.
    ///
    /// # Errors
    ///
    /// Where an allocation is refused.
    pub fn text_closed_by(&self, event: &ClientEvent) -> Result<Option<SharedSnapshot>, AllocError>
        ensures text { IfOk result (λ text. text ≡ text_closed_by (state_of self.now) event.now) }
        ensures memory { OnErr result (is_some (text_closed_by (state_of self.now) event.now) ≡ true) }
    {
        let ClientEvent::DidClose(uri) = event else {
            return Ok(None);
        };
        match find::document_of(self.present.documents.as_slice(), uri) {
            Some(document) => Ok(Some(document.text.again()?)),
            None => Ok(None),
        }
    }

    /// Where the job stands that was run there and how many replies it leaves, or the refusal that comes first.
    fn check_finish(&self, done: &Done, failed: bool) -> Result<(usize, usize), DeskFault>
        requires { failed ≡ is_none done.now.answer }
        ensures none { OnOk result (finish_fault self.now done.now ≡ None) }
        ensures at { IfOk result (λ found. position (is_held done.now.ticket) (state_of self.now).waiting ≡ Some found.0) }
        ensures within { IfOk result (λ found. found.0 < length (state_of self.now).waiting) }
        ensures replies { IfOk result (λ found. found.1 ≡ length (left_at (is_none done.now.answer) (find (is_held done.now.ticket) (state_of self.now).waiting))) }
        ensures job { OnOk result (is_for (find (is_held done.now.ticket) (state_of self.now).waiting) done.now ≡ true) }
        ensures room { OnOk result (used self.now + (1 + length (left_at (is_none done.now.answer) (find (is_held done.now.ticket) (state_of self.now).waiting))) ≤ self.now.max_events) }
        ensures err { IfErr result (λ fault. finish_fault self.now done.now ≡ Some fault) }
    {
        let Some((at, job)) = find::held(self.present.waiting.as_slice(), done.ticket()) else {
            return Err(DeskFault::UnknownTicket);
        };
        if !find::is_for(job, done) {
            return Err(DeskFault::OtherText);
        }
        let replies = find::replies_of(failed, job);
        if self.is_full(replies) {
            return Err(DeskFault::SessionFull);
        }
        Ok((at, replies))
    }

    /// Takes back a job that has run. Its answer is kept for sending; where memory was refused in it, a failure (-32603) is, or nothing
    /// where it was for findings. A run is taken only where its ticket is, and where its text, encoding and question are those of that job.
    ///
    /// # Errors
    ///
    /// The first of these that holds, with the run, which is handed back; nothing has changed then. `UnknownTicket` where no job with its
    /// ticket is taken now; `OtherText` where the run is of another text, encoding or question than that job; `SessionFull` where there is
    /// no room for the event and what the job leaves; `Memory` where an allocation is refused.
    pub fn finish(&mut self, done: Done) -> Result<Kept, (DeskFault, Done)>
        ensures ok { IfOk result (λ kept. Accepts (finish_fault self.old done) self.old self.new (Event.Finished done.ticket (is_none done.answer)) × (kept ≡ kept_of self.old done)) }
        ensures err { IfErr result (λ e. Refuses (finish_fault self.old done) self.old self.new e.0 × (e.1 ≡ done)) }
    {
        let failed = has_failed(&done);
        let (at, replies) = match self.check_finish(&done, failed) {
            Ok(found) => found,
            Err(fault) => return Err((fault, done)),
        };
        match room_for_replies(&mut self.history.events, &None, &mut self.outbox, replies) {
            Ok(()) => {}
            Err(_) => return Err((DeskFault::Memory, done)),
        }
        let job = self.present.remove_at(at);
        let kept = kept_for(failed, &job);
        let ticket = done.ticket();
        put_finished(&mut self.outbox, job, done, failed);
        self.history.enter(None, Event::Finished { ticket, failed });
        Ok(kept)
    }

    /// The job that a request makes, or the refusal that comes first.
    fn asked(&self, id: &Id, uri: &Text, question: &Ask, links: bool) -> Result<Waiting, DeskFault>
        ensures job { IfOk result (λ job. option_map (asked (state_of self.now).next_ticket id.now question.now links) (document_of uri.now (state_of self.now).documents) ≡ Some job) }
        ensures none { OnOk result (request_fault self.now id.now uri.now ≡ None) }
        ensures possible { OnOk result ((requests (state_of self.now).waiting < 1024) × (id_waits id.now (state_of self.now).waiting ≡ false)) }
        ensures room { OnOk result (used self.now + 1 ≤ self.now.max_events) }
        ensures err { IfErr result (λ fault. IsFirstCause (request_fault self.now id.now uri.now) fault) }
    {
        let Some(document) = find::document_of(self.present.documents.as_slice(), uri) else {
            return Err(DeskFault::NotOpen);
        };
        if find::requests(self.present.waiting.as_slice()) >= MOST_REQUESTS {
            return Err(DeskFault::TooManyWaiting);
        }
        if find::asked(self.present.waiting.as_slice(), id).is_some() {
            return Err(DeskFault::IdInUse);
        }
        if self.is_full(0) {
            return Err(DeskFault::SessionFull);
        }
        Ok(asked(document, self.present.next_ticket, id, question, links)?)
    }

    /// What a request leaves, or the refusal that comes first.
    fn asking(&self, id: Id, uri: &Text, question: Ask, links: bool) -> Result<Asking, DeskFault>
        ensures state { IfOk result (λ asking. asking.state ≡ fresh self.now) }
        ensures job { IfOk result (λ asking. option_map (asked (state_of self.now).next_ticket id question links) (document_of uri.now (state_of self.now).documents) ≡ Some asking.job) }
        ensures id { IfOk result (λ asking. asking.query.id ≡ id) }
        ensures ask { IfOk result (λ asking. asking.query.ask ≡ question) }
        ensures none { OnOk result (request_fault self.now id uri.now ≡ None) }
        ensures possible { OnOk result ((requests (state_of self.now).waiting < 1024) × (id_waits id (state_of self.now).waiting ≡ false)) }
        ensures room { OnOk result (used self.now + 1 ≤ self.now.max_events) }
        ensures err { IfErr result (λ fault. IsFirstCause (request_fault self.now id uri.now) fault) }
    {
        let job = self.asked(&id, uri, &question, links)?;
        let query = Query::new(self.alloc, id, question)?;
        let state = self.fresh()?;
        Ok(Asking { state, job, query })
    }

    /// A request about a document waits from now on, with the text that the document has now. Gives its ticket, from 1 over the session.
    /// Findings are asked for by the desk alone. `links` says whether the client takes edits of a workspace as `documentChanges` (LSP 3.17,
    /// "WorkspaceEdit").
    ///
    /// # Errors
    ///
    /// The first of these that holds; nothing has changed then. `NotOpen` where no document of this uri is open; `TooManyWaiting` where
    /// 1,024 requests wait; `IdInUse` where one with this id does; `SessionFull` where there is no room for the event; `Memory` where an
    /// allocation is refused.
    pub fn request(
        &mut self,
        id: Id,
        uri: Text,
        question: Ask,
        links: bool,
    ) -> Result<u64, DeskFault>
        requires { question ≢ Ask.Diagnose }
        ensures ok { IfOk result (λ ticket. Accepts (request_fault self.old id uri) self.old self.new (Event.Asked id uri question links ticket)) }
        ensures err { IfErr result (λ fault. Refuses (request_fault self.old id uri) self.old self.new fault) }
    {
        let asking = self.asking(id, &uri, question, links)?;
        room_for_job(
            &mut self.present.waiting,
            &mut self.history.events,
            &asking.state,
            self.outbox.len(),
        )?;
        let (state, job, id, ask) = asking.into_parts();
        let ticket = self.present.ask(job);
        self.history.enter(
            state,
            Event::Asked {
                id,
                uri,
                ask,
                links,
                ticket,
            },
        );
        Ok(ticket)
    }

    /// The first queued job and where it stands, or the refusal that comes first.
    fn next_job(&self) -> Result<Option<(usize, Job)>, DeskFault>
        ensures none { IfOk result (λ next. IfNone next (find is_queued (state_of self.now).waiting ≡ None)) }
        ensures free { OnOk result (take_fault self.now ≡ None) }
        ensures at { IfOk result (λ next. IfSome next (λ n. position is_queued (state_of self.now).waiting ≡ Some n.0)) }
        ensures within { IfOk result (λ next. IfSome next (λ n. n.0 < length (state_of self.now).waiting)) }
        ensures job { IfOk result (λ next. IfSome next (λ n. IfSome (find is_queued (state_of self.now).waiting) (λ w. IsJobOf w n.1))) }
        ensures room { IfOk result (λ next. IfSome next (λ _. used self.now + 1 ≤ self.now.max_events)) }
        ensures err { IfErr result (λ fault. IsFirstCause (take_fault self.now) fault) }
        ensures queued { OnErr result (is_some (find is_queued (state_of self.now).waiting) ≡ true) }
    {
        let Some((at, job)) = find::queued(self.present.waiting.as_slice()) else {
            return Ok(None);
        };
        if self.is_full(0) {
            return Err(DeskFault::SessionFull);
        }
        Ok(Some((at, job_of(job)?)))
    }

    /// Hands out the queued job with the least ticket, to the worker of this number. `None`: no job is queued, which it answers whatever
    /// memory there is; nothing has changed then.
    ///
    /// # Errors
    ///
    /// Only where a job is queued; nothing has changed then. `SessionFull` where there is no room for the event; `Memory` where an
    /// allocation is refused.
    pub fn take(&mut self, worker: u32) -> Result<Option<Job>, DeskFault>
        ensures ok { IfOk result (λ job. Takes worker self.old self.new job) }
        ensures err { IfErr result (λ fault. Refuses (take_fault self.old) self.old self.new fault) }
        ensures queued { OnErr result (is_some (find is_queued (state_of self.old).waiting) ≡ true) }
    {
        let Some((at, job)) = self.next_job()? else {
            return Ok(None);
        };
        room_for_event(&mut self.history.events, &None, self.outbox.len())?;
        self.present.take(at);
        self.history.enter(None, Event::Took { worker });
        Ok(Some(job))
    }

    /// Where the taken job with a ticket stands, or the refusal that comes first.
    fn held(&self, ticket: u64) -> Result<usize, DeskFault>
        ensures at { IfOk result (λ at. position (is_held ticket) (state_of self.now).waiting ≡ Some at) }
        ensures none { OnOk result (give_back_fault self.now ticket ≡ None) }
        ensures within { IfOk result (λ at. at < length (state_of self.now).waiting) }
        ensures there { OnOk result (is_some (find (is_held ticket) (state_of self.now).waiting) ≡ true) }
        ensures room { OnOk result (used self.now + 1 ≤ self.now.max_events) }
        ensures err { IfErr result (λ fault. give_back_fault self.now ticket ≡ Some fault) }
    {
        let Some((at, _)) = find::held(self.present.waiting.as_slice(), ticket) else {
            return Err(DeskFault::UnknownTicket);
        };
        if self.is_full(0) {
            return Err(DeskFault::SessionFull);
        }
        Ok(at)
    }

    /// Takes back a job that wasn't run. It is queued again, at its place by its ticket.
    ///
    /// # Errors
    ///
    /// The first of these that holds; nothing has changed then. `UnknownTicket` where no job with this ticket is taken now; `SessionFull`
    /// where there is no room for the event; `Memory` where an allocation is refused.
    pub fn give_back(&mut self, ticket: u64) -> Result<(), DeskFault>
        ensures ok { OnOk result (Accepts (give_back_fault self.old ticket) self.old self.new (Event.Returned ticket)) }
        ensures err { IfErr result (λ fault. Refuses (give_back_fault self.old ticket) self.old self.new fault) }
    {
        let at = self.held(ticket)?;
        room_for_event(&mut self.history.events, &None, self.outbox.len())?;
        self.present.give_back(at);
        self.history.enter(None, Event::Returned { ticket });
        Ok(())
    }

    /// Where the request with an id stands, or the refusal that comes first.
    fn waiting_at(&self, id: &Id) -> Result<Option<usize>, DeskFault>
        ensures none { IfOk result (λ at. IfNone at (find (asks_with id.now) (state_of self.now).waiting ≡ None)) }
        ensures free { OnOk result (cancel_fault self.now id.now ≡ None) }
        ensures at { IfOk result (λ at. IfSome at (λ i. position (asks_with id.now) (state_of self.now).waiting ≡ Some i)) }
        ensures within { IfOk result (λ at. IfSome at (λ i. i < length (state_of self.now).waiting)) }
        ensures room { OnOk result (used self.now + (1 + length (told_if_found request_cancelled (find (asks_with id.now) (state_of self.now).waiting))) ≤ self.now.max_events) }
        ensures err { IfErr result (λ fault. cancel_fault self.now id.now ≡ Some fault) }
    {
        match find::asked(self.present.waiting.as_slice(), id) {
            Some((at, job)) => {
                if self.is_full(find::replies_of(true, job)) {
                    return Err(DeskFault::SessionFull);
                }
                Ok(Some(at))
            }
            None => {
                if self.is_full(0) {
                    return Err(DeskFault::SessionFull);
                }
                Ok(None)
            }
        }
    }

    /// Cancels the request with this id, queued or taken, if one waits: its job ends, and it is answered -32800 (LSP 3.17, "Cancellation
    /// Support"). Gives whether one waited. Where none did, the event is entered all the same, and nothing else changes.
    ///
    /// # Errors
    ///
    /// The first of these that holds; nothing has changed then. `SessionFull` where there is no room for the event, and for the error where
    /// a request with this id waits; `Memory` where an allocation is refused.
    pub fn cancel(&mut self, id: &Id) -> Result<bool, DeskFault>
        ensures ok { IfOk result (λ found. Accepts (cancel_fault self.old id.now) self.old self.new (Event.Cancelled id.now found)) }
        ensures err { IfErr result (λ fault. Refuses (cancel_fault self.old id.now) self.old self.new fault) }
    {
        let at = self.waiting_at(id)?;
        let id = id.copy()?;
        let state = self.fresh()?;
        match at {
            Some(at) => {
                room_for_replies(&mut self.history.events, &state, &mut self.outbox, 1)?;
                let job = self.present.remove_at(at);
                put_failure(&mut self.outbox, job, REQUEST_CANCELLED);
                self.history
                    .enter(state, Event::Cancelled { id, found: true });
                Ok(true)
            }
            None => {
                room_for_event(&mut self.history.events, &state, self.outbox.len())?;
                self.history
                    .enter(state, Event::Cancelled { id, found: false });
                Ok(false)
            }
        }
    }

    /// A copy of a body that is to be said, or the refusal that comes first.
    fn copied(&self, body: &List<u8>) -> Result<List<u8>, DeskFault>
        ensures copy { IfOk result (λ copy. copy ≡ body.now) }
        ensures none { OnOk result (full_fault self.now 2 ≡ None) }
        ensures room { OnOk result (used self.now + 2 ≤ self.now.max_events) }
        ensures err { IfErr result (λ fault. IsFirstCause (full_fault self.now 2) fault) }
    {
        if self.is_full(1) {
            return Err(DeskFault::SessionFull);
        }
        Ok(body.copy()?)
    }

    /// Keeps a body for sending, as it stands, behind all that is kept already.
    ///
    /// # Errors
    ///
    /// The first of these that holds; nothing has changed then. `SessionFull` where there is no room for the event and the body; `Memory`
    /// where an allocation is refused.
    pub fn say(&mut self, body: List<u8>) -> Result<(), DeskFault>
        ensures ok { OnOk result (Accepts (full_fault self.old 2) self.old self.new (Event.Said body)) }
        ensures err { IfErr result (λ fault. Refuses (full_fault self.old 2) self.old self.new fault) }
    {
        let copy = self.copied(&body)?;
        let state = self.fresh()?;
        room_for_replies(&mut self.history.events, &state, &mut self.outbox, 1)?;
        self.outbox.push_back_reserved(Out::Said(copy));
        self.history.enter(state, Event::Said { body });
        Ok(())
    }

    /// Whether a job with this ticket waits, queued or taken: no worker need run one that doesn't.
    pub fn wanted(&self, ticket: u64) -> bool
        ensures { result ≡ waits ticket (state_of self.now).waiting }
    {
        find::waits(self.present.waiting.as_slice(), ticket)
    }

    /// Whether a job is queued: true exactly where a take would find one.
    pub fn has_queued(&self) -> bool
        ensures { result ≡ is_some (find is_queued (state_of self.now).waiting) }
    {
        find::queued(self.present.waiting.as_slice()).is_some()
    }

    /// Whether no job waits, queued or taken.
    pub fn is_idle(&self) -> bool
        ensures { result ≡ (length (state_of self.now).waiting == 0) }
    {
        self.present.waiting.is_empty()
    }

    /// The reply with this number, from 0 for the oldest, of those that wait to be sent. None where there are no more. It is what the
    /// unsent entry with that number stands for: an answer is right for the text and the question of its job. It names the document's
    /// version and the client's number of it, and the text of that version was current when the request was accepted, or is the one that
    /// was opened or changed, in events that led to the base and then the journal. So it is whatever was changed, closed or cancelled
    /// since, and in whatever order the calls came.
    pub fn out_at(&self, at: usize) -> Option<&Out>
        ensures value { option_map (λ out. out.now) result ≡ slice_get self.now.outbox at }
        ensures stands { IfSome result (λ out. StandsAt self.now at out.now) }
        ensures sound { IsSound self.now }
    {
        self.outbox.get(at)
    }

    /// The refusal that comes first of a document that is to be opened with a text of so many bytes. 0: its text is made already.
    fn check_open(&self, uri: &Text, bytes: usize) -> Result<(), DeskFault>
        ensures none { OnOk result (sized_open_fault self.now uri.now bytes ≡ None) }
        ensures possible { OnOk result ((is_open uri.now (state_of self.now).documents ≡ false) × (length (state_of self.now).documents < 256)) }
        ensures fits { OnOk result (bytes ≤ max_bytes) }
        ensures room { OnOk result (used self.now + 1 ≤ self.now.max_events) }
        ensures err { IfErr result (λ fault. sized_open_fault self.now uri.now bytes ≡ Some fault) }
    {
        if find::document_of(self.present.documents.as_slice(), uri).is_some() {
            return Err(DeskFault::AlreadyOpen);
        }
        if self.present.documents.len() >= MOST_DOCUMENTS {
            return Err(DeskFault::TooManyDocuments);
        }
        if bytes > MAX_BYTES {
            return Err(DeskFault::TooLarge);
        }
        if self.is_full(0) {
            return Err(DeskFault::SessionFull);
        }
        Ok(())
    }

    /// What an opening leaves.
    fn opening(
        &self,
        uri: &Text,
        label: i64,
        text: &SharedSnapshot,
        encoding: Encoding,
    ) -> Result<Opening, AllocError>
        ensures state { IfOk result (λ opening. opening.state ≡ fresh self.now) }
        ensures next { IfOk result (λ opening. Some opening.next ≡ next_of (state_of self.now).next_version (state_of self.now).next_ticket uri.now label (Some (measured encoding text.now))) }
    {
        let next = self.present.next_text(uri, label, text, encoding)?;
        let state = self.fresh()?;
        Ok(Opening { state, next })
    }

    /// Opens a document against which nothing stands.
    fn put_open(
        &mut self,
        uri: Text,
        label: i64,
        text: SharedSnapshot,
        encoding: Encoding,
    ) -> Result<u64, AllocError>
        requires fits { is_too_large text ≡ false }
        requires possible { (is_open uri (state_of self.old).documents ≡ false) × (length (state_of self.old).documents < 256) }
        requires room { used self.old + 1 ≤ self.old.max_events }
        ensures ok { IfOk result (λ version. Enters self.old self.new (Event.Opened uri label text encoding version)) }
        ensures err { OnErr result (self.new ≡ self.old) }
    {
        let opening = self.opening(&uri, label, &text, encoding)?;
        room_for_text(
            &mut self.present,
            &mut self.history.events,
            &opening.state,
            self.outbox.len(),
        )?;
        let (state, next) = opening.into_parts();
        let version = self.present.open(next);
        self.history.enter(
            state,
            Event::Opened {
                uri,
                label,
                text,
                encoding,
                version,
            },
        );
        Ok(version)
    }

    /// Opens a document whose text is made already, and gives the version of that text. It isn't copied, so this takes no longer for a
    /// large text. The positions in its texts count these units from now on.
    ///
    /// # Errors
    ///
    /// The first of these that holds; nothing has changed then. `AlreadyOpen` where a document of this uri is open; `TooManyDocuments`
    /// where 256 are; `SessionFull` where there is no room for the event; `Memory` where an allocation is refused.
    pub fn open_shared(
        &mut self,
        uri: Text,
        label: i64,
        text: SharedSnapshot,
        encoding: Encoding,
    ) -> Result<u64, DeskFault>
        requires { is_too_large text ≡ false }
        ensures ok { IfOk result (λ version. Accepts (open_shared_fault self.old uri) self.old self.new (Event.Opened uri label text encoding version)) }
        ensures err { IfErr result (λ fault. Refuses (open_shared_fault self.old uri) self.old self.new fault) }
    {
        self.check_open(&uri, 0)?;
        Ok(self.put_open(uri, label, text, encoding)?)
    }

    /// Opens a document, in whose texts positions count these units from now on, and gives the version of its text, from 1 over the
    /// session. The text has a job for its findings, which is nobody's request. All of the text is read.
    ///
    /// # Errors
    ///
    /// The first of these that holds; nothing has changed then. `AlreadyOpen` where a document of this uri is open; `TooManyDocuments`
    /// where 256 are; `TooLarge` where the text has more than [`MAX_BYTES`] bytes; `SessionFull` where there is no room for the event;
    /// `Memory` where an allocation is refused.
    pub fn did_open(
        &mut self,
        uri: Text,
        label: i64,
        text: Text,
        encoding: Encoding,
    ) -> Result<u64, DeskFault>
        ensures ok { IfOk result (λ version. Accepts (open_fault self.old uri text) self.old self.new (Event.Opened uri label (chars text) encoding version)) }
        ensures err { IfErr result (λ fault. Refuses (open_fault self.old uri text) self.old self.new fault) }
    {
        self.check_open(&uri, text.len())?;
        let text = snapshot_of_text(self.alloc, text)?;
        Ok(self.put_open(uri, label, text, encoding)?)
    }

    /// The oldest reply, which leaves the outbox. It is what the first unsent entry stands for, and what [`Desk::out_at`] says of it holds.
    /// `None`: no reply waits, and nothing has changed. It takes no memory, and can't be refused: each reply has a place for its event.
    pub fn next_out(&mut self) -> Option<Out>
        ensures some { IfSome result (λ out. Sends self.old self.new out) }
        ensures none { IfNone result ((self.old.outbox ≡ []) × (self.new ≡ self.old)) }
    {
        let out = self.outbox.pop_front()?;
        let ticket = ticket_of(&out);
        self.history.enter(None, Event::Sent { ticket });
        Some(out)
    }
}
