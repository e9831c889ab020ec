//! A board: a desk that several threads use under one lock, the seats through which they do, and what a worker does.
//!
//! A [`Board`] has a desk behind its lock. What a thread does there it does through its seat: the client's events through the one
//! [`ClientSeat`], takes, returns and finishes of jobs through a [`WorkerSeat`] each, sending through the one [`WriterSeat`]. A seat isn't
//! copied, so nobody else writes its kinds of event.
//!
//! - Each kind of event (the client's events, `Took`, `Returned`, `Finished`, `Sent`) has a ledger. Its book lies behind the lock and
//!   always has the number of events of that kind at the desk, over the session. Its shares are in the seats, and a share rises by one with
//!   each call through its seat that wrote such an event, and with no other.
//! - All that is done at the desk, and that the board is asked to end, stands in one history, which exists in proofs alone
//!   ([`ls_history`]). Each seat has seen a beginning of it: the client's with each of the client's events, and the answer or the refusal
//!   that it had, the writer's with each reply that it was given, and a worker's with what it did last. [`Board::close`] says that one
//!   history led to the desk, and has just these events and replies.
//! - What a call says of the desk is so where the history has led that its seat has seen then: a job that is taken is the first queued
//!   there, a refusal has its cause there, and where a worker or the writer is given nothing more, the board has ended by then, and nothing
//!   is left there.
//! - The client's seat also lists each event that it entered since the last checkpoint, with the answer that it got. Each is compared with
//!   the journal's last entry where it is entered. At a checkpoint the list begins anew. The one that ended and the journal that ended with
//!   it are compared too, at most 16 events with each call that follows, and the seat remembers a difference.
//! - The writer's seat lists the ticket of each reply that it was given since the last checkpoint that it has seen.
//! - [`Board::close`] takes all seats back and tests their lists against the journal, and what isn't compared yet of the client's earlier
//!   lists against the journals that ended with them. It gives the desk only where all agree, as each entry of the client's did where it
//!   was entered, and then there were as many events of each kind as the seats counted.
//!
//! What takes long is done while the lock is free: [`work`] passes its gate and runs its job, and the text of a document that is opened is
//! made before the lock is taken, as all that a call needs memory for in its seat. Under the lock the edits of a change are applied, which
//! stand on the text that the desk has just then, a run's text is compared with its job's, and a client's event with its entry. What the
//! client's list had before a checkpoint is compared while the lock is free, as it goes. A thread that waits for a job or a reply sleeps
//! until something has changed.
#![tactic(auto)]

mod agree;
mod audit_log;
mod board;
mod board_state;
mod calls;
mod crew;
mod ended;
mod gate;
mod lately;
mod laws;
mod ledgers;
mod notes;
mod seats;
mod worker;

pub use audit_log::AuditLog;
pub use board::Board;
pub use board_state::SeatFault;
pub use ended::Ended;
pub use gate::Gate;
pub use laws::first_waiting_is_let_go;
pub use ledgers::{
    Blanks, Crew, Ledgers, OfClient, OfFinished, OfHeard, OfReturned, OfSent, OfTook,
};
pub use ls_history::{Front, Stop};
pub use ls_machine::{ClientAnswer, ClientEvent};
pub use seats::{ClientSeat, Count, WorkerSeat, WriterSeat};
pub use worker::work;
