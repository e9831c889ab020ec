//! A client's session, over a desk.
ghost use Rattle.std.specs.Prelude.{◌≡◌, ◌<◌, ◌≤◌, ◌&&◌, [], not, is_some, true, IfOk, IfNone, IfSome, OnOk, Some};
ghost use Rattle.ls_machine.specs.Machine.{first_ticket};
ghost use Rattle.ls_machine.specs.Counts.{total};
ghost use Rattle.ls_steps.specs.Plain.{has_run_all};
ghost use Rattle.ls_desk.specs.Stands.{IsSound};
ghost use Rattle.ls_steps.specs.Runs.{Steps, begun, break_off, bytes_in, counts_at, finish_job, hear, is_filled, send, state_at, take_job};

use crate::at_desk::{finish, meet, run_job};
use ls_answers::{Job, Recent};
use ls_desk::{Desk, DeskFault, MOST_EVENTS, MOST_JOURNAL, Out};
use ls_frame::FrameFault;
use ls_session::{Session, Status, Turn, framed};
use std::alloc::{AllocError as Memory, Global};
use std::marker::Model;

/// The number of the worker.
const WORKER: u32 = 0;

/// The session of one client, the desk with its documents, the jobs that the worker holds, and the texts that it diagnosed last. Its
/// methods are the steps that can come in any order, each one step of the relation `Steps`. A session that is full only sends on, and after
/// an exit or a framing fault nothing is heard.
///
/// Where a method is refused memory the session is over.
pub struct Conversation {
    alloc: Global,
    session: Session,
    desk: Desk,
    held: Vec<Job>,
    recent: Recent,
    status: Option<Status>,
}

// Not derived, so that what lets one go is proved without its fields.
impl Drop for Conversation {
    fn drop(self) {
        let Conversation {
            alloc: _,
            session: _,
            desk: _,
            held: _,
            recent: _,
            status: _,
        } = self;
    }
}

impl Model for Conversation {
    ghost use Rattle.std.specs.Prelude.{map};
    ghost use Rattle.ls_desk.specs.Stands.{IsSound};
    ghost use Rattle.ls_steps.specs.Runs.{Going, held_as};

    ghost Value = { Going };

    ghost view = { λ c. record { stage = c.session; base = c.desk.base; journal = c.desk.journal; max_journal = c.desk.max_journal; max_events = c.desk.max_events; held = map held_as c.held.items; status = c.status } };

    ghost invariant = { λ c. IsSound c.desk };
}

impl Conversation {
    /// A session to which nothing has come. Its journal has at most 1,000,000 events where a client's event comes to it, and the events of
    /// the session and the unsent replies are at most 18,446,744,073,709,551,614 together. Takes no memory.
    pub fn new(alloc: Global) -> Conversation
        ensures { result ≡ begun }
    {
        Conversation::with_journal(alloc, MOST_JOURNAL)
    }

    /// The same, by a journal that begins anew with the client's next event once it has so many.
    pub fn with_journal(alloc: Global, max_journal: usize) -> Conversation
        requires { (0 < max_journal) × (max_journal ≤ 1000000) }
        ensures { result ≡ record begun { max_journal = max_journal } }
    {
        Conversation::with_limits(alloc, max_journal, MOST_EVENTS)
    }

    /// The same, for so many events and unsent replies together.
    pub fn with_limits(alloc: Global, max_journal: usize, max_events: u64) -> Conversation
        requires journal { (0 < max_journal) × (max_journal ≤ 1000000) }
        requires events { (0 < max_events) × (max_events ≤ 18446744073709551614) }
        ensures { result ≡ record begun { max_journal = max_journal; max_events = max_events } }
    {
        Conversation {
            alloc,
            session: Session::new(alloc),
            desk: Desk::new(alloc, max_journal, max_events),
            held: Vec::new(alloc),
            recent: Recent::new(),
            status: None,
        }
    }

    /// How the session ended. None where it goes on.
    pub fn status(&self) -> Option<Status>
        ensures { result ≡ self.now.status }
    {
        self.status
    }

    /// Whether the session is full.
    fn is_full(&self) -> bool
        ensures { result ≡ is_filled self.now.status }
    {
        matches!(self.status, Some(Status::Full))
    }

    /// Hears a message of the client, by its body. What it asks for goes to the desk, and a request that is refused there is answered by
    /// its error. After the end of the session nothing is heard.
    ///
    /// # Errors
    ///
    /// Where an allocation is refused.
    #[tactic(auto, unfolding(crate::specs::Runs::Steps))]
    pub fn hear(&mut self, body: &[u8]) -> Result<(), Memory>
        ensures { OnOk result (Steps true self.old (hear body.now) self.new []) }
    {
        if self.status.is_some() {
            return Ok(());
        }
        match self.session.event(body)? {
            Turn::Nothing => {}
            Turn::Exit(status) => self.status = Some(status),
            Turn::Event(event) => {
                if meet(self.alloc, &mut self.desk, &mut self.recent, event)? {
                    self.status = Some(Status::Full);
                }
            }
        }
        Ok(())
    }

    /// Ends the session where the client's bytes are no frames, unless it has ended.
    #[tactic(auto, unfolding(crate::specs::Runs::Steps))]
    pub fn break_off(&mut self, fault: FrameFault)
        ensures { Steps true self.old (break_off fault) self.new [] }
    {
        if self.status.is_none() {
            self.status = Some(Status::BadFrame(fault));
        }
    }

    /// Takes the queued job with the least ticket, and gives whether one was taken: true exactly where one is queued and the session isn't
    /// full, before or by this.
    ///
    /// # Errors
    ///
    /// Where an allocation is refused.
    #[tactic(auto, unfolding(crate::specs::Runs::Steps))]
    pub fn take(&mut self) -> Result<bool, Memory>
        ensures steps { OnOk result (Steps true self.old take_job self.new []) }
        ensures taken { IfOk result (λ taken. taken ≡ not (has_run_all self.old) && not (is_filled self.new.status)) }
        ensures fits { OnOk result (total (counts_at self.new) ≤ self.new.max_events) }
    {
        if self.is_full() {
            return Ok(false);
        }
        match self.desk.take(WORKER) {
            Ok(Some(job)) => {
                self.held.push(job)?;
                Ok(true)
            }
            Ok(None) => Ok(false),
            Err(DeskFault::SessionFull) => {
                self.status = Some(Status::Full);
                Ok(false)
            }
            Err(_) => Err(Memory),
        }
    }

    /// Runs a job that was taken and hands it in: the one at this place, counted from 0, of those that are held. Where none is held there,
    /// or the session is full, nothing happens. Where memory is refused in the job itself a request is answered -32603, and a job whose
    /// ticket waits no longer is dropped. It takes as long as the job does.
    ///
    /// # Errors
    ///
    /// Where an allocation is refused at the desk, as its event is entered.
    #[tactic(auto, unfolding(crate::specs::Runs::Steps))]
    pub fn finish(&mut self, at: usize) -> Result<(), Memory>
        ensures { OnOk result (Steps true self.old (finish_job at) self.new []) }
    {
        if self.is_full() || at >= self.held.len() {
            return Ok(());
        }
        let job = self.held.remove(at);
        let done = run_job(self.alloc, &self.desk, &mut self.recent, job);
        if finish(&mut self.desk, done)? {
            self.status = Some(Status::Full);
        }
        Ok(())
    }

    /// The frame of what is to be said first, which counts as sent from now on. None where nothing is unsent. An answer in it is right for
    /// the text that was current when its request was accepted.
    ///
    /// # Errors
    ///
    /// Where an allocation is refused. What was to be said has left the desk then.
    pub fn send(&mut self) -> Result<Option<Vec<u8>>, Memory>
        ensures sent { IfOk result (λ frame. Steps true self.old send self.new (bytes_in frame)) }
        ensures none { IfOk result (λ frame. IfNone frame ((state_at self.old).unsent ≡ [])) }
        ensures some { IfOk result (λ frame. IfSome frame (λ _. is_some (first_ticket (state_at self.old).unsent) ≡ true)) }
    {
        let Some(out) = self.desk.next_out() else {
            return Ok(None);
        };
        Ok(Some(framed(self.alloc, &out)?))
    }

    /// The desk, as the session leaves it, with its base, journal and limits.
    pub fn into_desk(self) -> Desk
        ensures base { result.base ≡ self.base }
        ensures journal { result.journal ≡ self.journal }
        ensures most { (result.max_journal ≡ self.max_journal) × (result.max_events ≡ self.max_events) }
        ensures sound { IsSound result }
    {
        let Conversation {
            alloc: _,
            session: _,
            desk,
            held: _,
            recent: _,
            status: _,
        } = self;
        desk
    }
}
