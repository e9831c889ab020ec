//! The machine of a desk: a state, and for each [`Event`] where it is possible, with which answer, and which state it leads to.
//!
//! - A [`State`] has the open documents, the waiting jobs in the order of their tickets, the unsent entries in the order in which they are
//!   to be sent, and the next version and ticket. Versions and tickets count from 1 over the session.
//! - A text that is opened or changed gets the next version, and a job that asks for its findings.
//! - A request gets the next ticket, with the text that its document has then. It waits, queued or taken by a worker, until its job is
//!   finished, it is cancelled, or a change of its document ends it. Until then its id is in use.
//! - A change or a close of a document ends its waiting renames, code actions and findings (LSP 3.17, "ContentModified" and
//!   "RequestCancelled" in "Response Message"). All other requests go on for the text that they were asked about.
//!
//! A list of events is legal where each was possible in the state to which those before it lead. A [`Base`] is a state that such a list
//! leads to, and how many events of each kind that list had. In the state of a legal list each request waits, or has one reply: nothing is
//! lost, and nothing is said twice ([`tickets_are_kept_once`]).
#![tactic(auto)]

mod base;
mod boxed;
mod client;
mod copies;
mod entries;
mod event;
pub mod find;
mod laws;
mod progress;
mod shared;
mod state;

pub use base::{Base, Counts};
pub use boxed::Boxed;
pub use client::{ClientAnswer, ClientEvent, copy_of};
pub use copies::state_of;
pub use entries::same_event;
pub use event::{DeskFault, Event, Kept, Out};
pub use laws::{legal_journals_are_ordered, runs_are_known, tickets_are_kept_once};
pub use progress::{steps_are_few, work_goes_on};
pub use shared::SharedSnapshot;
pub use state::{Document, OutboxEntry, Request, State, Waiting};
