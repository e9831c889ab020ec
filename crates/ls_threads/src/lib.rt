//! The server on several threads.
//!
//! The caller's thread reads, one thread writes, and each of 1 to 8 others works, all at one [`ls_workers::Board`]. An exit, the end of the
//! input and a framing fault drain the board: what waits is run and sent. Where a device fails, memory is refused, the session is full or a
//! run isn't the desk's, it is ended at once, and the reader asks the board for that before each message. Then all threads are joined and
//! the board is closed, which tests the seats' lists against the journal, and its desk is tested for what was left undone. What an `Ok`
//! says of a run stands at [`serve_threads`].
#![tactic(auto)]

mod ending;
mod laws;
mod reading;
mod serve;
mod settling;
mod working;
mod writing;

pub use laws::{requests_are_answered_once, runs_are_journals, runs_can_end};
pub use ls_workers::Gate;
pub use serve::{Limits, Served, serve_threads, serve_with_limits};
