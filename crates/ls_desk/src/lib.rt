//! The desk of a session: the open documents, the jobs that wait, the replies that aren't sent yet, and a journal of what happened.
//!
//! A [`Desk`] does in steps that may come in any order what a server does between its client and its workers: it takes a client's events
//! and requests, hands out jobs ([`Desk::take`]), takes back those that have run ([`Desk::finish`]) or that haven't ([`Desk::give_back`]),
//! and gives the replies to send ([`Desk::next_out`]).
//!
//! What happens is the machine of `ls_machine`. The journal has each event at its end, a client's with the answer that it got. It begins at
//! a base: the state that all events before it led to, and how many of each kind these were. A client's event that finds the journal as
//! long as it may be makes a checkpoint: the present state becomes the base, and the journal begins anew with that event. So a session goes
//! on as long as its client does, in memory that the length of a journal bounds, and not that of the session.
//!
//! The journal is legal: each event was possible in the state to which those before it lead, from the base on; and some legal list of
//! events led to the base. What contracts see of a desk is its base, its journal, its unsent replies and its limits, and what is left of
//! the journal that the last checkpoint ended; its state is the replay of the journal from the base. So the desk can promise of each answer
//! that it sends that it is right for the very text that was asked about.
//!
//! A call that is refused leaves the desk as it was. No call waits for a whole journal: where there is memory a journal is moved only while
//! it is short, and the one before a checkpoint is let go bit by bit, unless somebody takes it ([`Desk::take_ended`]). No text is copied.
#![tactic(auto)]

mod desk;
mod door;
mod history;
mod job;
mod journal;
mod outs;
mod prepared;
mod present;
mod room;
mod texts;

pub use desk::{Desk, MOST_EVENTS, MOST_JOURNAL};
pub use journal::give_room_back;
pub use ls_machine::{
    Boxed, Counts, DeskFault, Document, Event, Kept, Out, OutboxEntry, Request, SharedSnapshot,
    State, Waiting,
};
pub use outs::ticket_of;
pub use texts::snapshot_of_text;
