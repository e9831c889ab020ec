//! What happens at a desk.
use ls_desk::{DeskFault, Event, Out};
use ls_machine::{ClientAnswer, ClientEvent};

/// How a board ends.
#[derive(Clone, Copy, PartialEq, Eq, Debug, Drop)]
pub enum Stop {
    /// Once all that is there has run and is sent.
    Drain,
    /// At once. It is final.
    Now,
}

/// One entry of a history. No value of it is made.
#[derive(Drop)]
pub enum HistoryEntry {
    /// The history began, over a desk that may have so many events and unsent replies together. It is the first entry.
    Began(u64),
    /// A client's event came, and had this answer, or this refusal, which leaves the desk as it was.
    Heard(ClientEvent, Result<ClientAnswer, DeskFault>),
    /// A reply left.
    Left(Out),
    /// A worker took a job, gave one back, or brought one back that has run, by this event of the machine.
    Worked(Event),
    /// The board was asked to end so.
    Stopped(Stop),
}
