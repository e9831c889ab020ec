//! What a client's seat lists of its events, to be compared with the journal.
ghost use Rattle.std.specs.Prelude.{◌≡◌, ◌↔◌, ◌-◌, ◌++◌, ◌∷◌, ◌<◌, [], All, IfOk, OnOk, Some, length, slice_get, vec_len, vec_capacity, true, false, if◌then◌else◌};
ghost use Rattle.ls_machine.specs.Client.{client_events, filled};
ghost use Rattle.ls_workers.specs.Seats.{AreSame, HasAgreed, HasRoomForEntry, IsNoteOf, KnowsTheSame, logged_by, logged_nothing};

use crate::agree::ends_with;
use crate::ended::Ended;
use crate::notes::{filled, note_of};
use ls_desk::{Desk, Event};
use ls_machine::{ClientAnswer, ClientEvent};
use std::alloc::{AllocError, Global};
use std::mem;

/// What a client's seat knows of its events.
#[derive(Drop)]
pub struct AuditLog {
    /// The events that it has entered since the last checkpoint, each with the answer that it got, as they stand in the journal.
    pub list: Vec<Event>,
    /// Another list, which is empty, with which it begins anew.
    pub spare: Vec<Event>,
    /// What it had before earlier checkpoints, beside the journals that these ended, as far as it isn't compared yet.
    pub ended: Vec<Ended>,
    /// How many checkpoints its events have made.
    pub checkpoints: u64,
    /// Whether a difference was found: the journal had another entry where one of them was entered, or a list that ended isn't its
    /// journal's.
    pub strayed: bool,
}

impl AuditLog {
    /// Nothing yet. Takes no memory.
    pub fn nothing(alloc: Global) -> AuditLog
        ensures { logged_by result ≡ logged_nothing }
    {
        AuditLog {
            list: Vec::new(alloc),
            spare: Vec::new(alloc),
            ended: Vec::new(alloc),
            checkpoints: 0,
            strayed: false,
        }
    }

    /// Compares a few events of a journal that ended with the list that ended with it. They go, and a difference is kept. Takes no memory.
    fn compare_some(&mut self)
        ensures { KnowsTheSame (logged_by self.old) (logged_by self.new) }
    {
        let Some(mut ended) = self.ended.pop() else {
            return;
        };
        let agree = ended.compare_some();
        self.strayed = self.strayed || !agree;
        if !ended.is_done() {
            self.ended.push_reserved(ended);
        }
    }

    /// The note of an event, its answer aside, for which there is room then. `None` where the event's text is too large for any desk.
    /// A few events of what had ended are compared.
    ///
    /// # Errors
    ///
    /// Where an allocation is refused.
    pub(crate) fn prepare_note(&mut self, event: &ClientEvent) -> Result<Option<Event>, AllocError>
        ensures note { IfOk result (λ noted. IsNoteOf event.now noted) }
        ensures room { OnOk result (HasRoomForEntry self.new) }
        ensures kept { KnowsTheSame (logged_by self.old) (logged_by self.new) }
    {
        self.compare_some();
        self.list.reserve(1)?;
        self.spare.reserve(1)?;
        self.ended.reserve(1)?;
        note_of(*self.list.allocator(), event)
    }

    /// Where an event made a checkpoint at a desk, the list begins anew, and what it had comes beside the journal that ended, to be
    /// compared. Takes no memory, and lets none go.
    fn begin_anew(&mut self, anew: bool, desk: &mut Desk)
        requires { HasRoomForEntry self.old }
        ensures list { self.new.list.items ≡ (if anew then [] else self.old.list.items) }
        ensures checkpoints { self.new.checkpoints ≡ (if anew then desk.old.base.checkpoints else self.old.checkpoints) }
        ensures strayed { self.new.strayed ≡ self.old.strayed }
        ensures ended { All AreSame self.new.ended.items ↔ (All AreSame self.old.ended.items × (anew ≡ true → client_events desk.old.ended ≡ self.old.list.items)) }
        ensures room { vec_len self.new.list < vec_capacity self.new.list }
        ensures desk { record desk.old { ended = desk.new.ended } ≡ desk.new }
    {
        if !anew {
            return;
        }
        let alloc = *self.list.allocator();
        let mut spare = mem::replace(&mut self.spare, Vec::new(alloc));
        spare.clear();
        let list = mem::replace(&mut self.list, spare);
        let journal = desk.take_ended();
        self.ended.push_reserved(Ended { list, journal });
        self.checkpoints = desk.checkpoints();
    }

    /// An event was entered at a desk with its answer, and comes with its note. It is a difference where the desk's journal has another
    /// entry. Where the event made a checkpoint the list begins anew with it, and what it had is compared later with the journal that
    /// ended, which the desk lets go. Takes no memory, and lets none go.
    pub(crate) fn log(&mut self, anew: bool, desk: &mut Desk, note: Event, answer: ClientAnswer)
        requires { HasRoomForEntry self.old }
        ensures list { self.new.list.items ≡ (if anew then [] else self.old.list.items) ++ filled note answer ∷ [] }
        ensures checkpoints { self.new.checkpoints ≡ (if anew then desk.old.base.checkpoints else self.old.checkpoints) }
        ensures agreed { HasAgreed (logged_by self.new) ↔ (HasAgreed (logged_by self.old) × (slice_get desk.old.journal (length desk.old.journal - 1) ≡ Some (filled note answer))
            × (anew ≡ true → client_events desk.old.ended ≡ self.old.list.items)) }
        ensures desk { record desk.old { ended = desk.new.ended } ≡ desk.new }
    {
        let entry = filled(note, answer);
        let is_last = ends_with(desk.journal(), &entry);
        self.begin_anew(anew, desk);
        self.strayed = self.strayed || !is_last;
        self.list.push_reserved(entry);
    }
}
