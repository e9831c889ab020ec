//! What a checkpoint ended: a journal, and beside it the client's events until then, as its seat listed them. Both are compared, a few
//! events at a time.
ghost use Rattle.std.specs.Prelude.{◌≡◌, ◌↔◌, [], IsTrue, true};
ghost use Rattle.ls_workers.specs.Seats.{AreSame};

use crate::agree::{client_event, same_events};
use ls_desk::{Event, give_room_back};
use ls_machine::same_event;

/// How many events of a journal are compared at once, and go.
const AT_ONCE: usize = 16;

/// A journal that a checkpoint ended, and the client's events until then, as its seat listed them. What was compared of both has gone, from
/// the end.
#[derive(Drop)]
pub struct Ended {
    pub list: Vec<Event>,
    pub journal: Vec<Event>,
}

impl Ended {
    /// Whether the list is the client's events of the journal.
    pub(crate) fn agrees(&self) -> bool
        ensures { IsTrue result ↔ AreSame self.now }
    {
        same_events(&self.journal, &self.list)
    }

    /// Whether nothing is left to compare.
    pub(crate) fn is_done(&self) -> bool
        ensures { result ≡ true → ((self.now.journal.items ≡ []) × (self.now.list.items ≡ [])) }
    {
        self.journal.is_empty() && self.list.is_empty()
    }

    /// The last event of the journal goes. Where it is a client's, the list's last entry goes with it. Whether they are the same.
    fn compare_last(&mut self) -> bool
        ensures { AreSame self.old ↔ (IsTrue result × AreSame self.new) }
    {
        let Some(last) = self.journal.pop() else {
            return self.list.pop().is_none();
        };
        let Some(event) = client_event(&last) else {
            return true;
        };
        let Some(entry) = self.list.pop() else {
            return false;
        };
        same_event(event, &entry)
    }

    /// A few events of the journal go, from its end, with the list's entries of those that are a client's. Whether they are the same.
    pub(crate) fn compare_some(&mut self) -> bool
        ensures { AreSame self.old ↔ (IsTrue result × AreSame self.new) }
    {
        let mut agree = true;
        for _ in 0..AT_ONCE {
            agree = self.compare_last() && agree;
        }
        give_room_back(&mut self.list);
        give_room_back(&mut self.journal);
        agree
    }
}
