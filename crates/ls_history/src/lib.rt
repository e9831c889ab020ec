//! The history of a desk that several threads use: what happened there, from the beginning on, in one order. It exists in proofs alone. At
//! run time there is one word, which is how many entries it has. What several threads did at a desk is one legal run of its machine.
//!
//! - [`HistoryEntry`] is one entry: the desk began, a client's event had an answer or a refusal, a reply left, a worker did something, the
//!   board was asked to end. No value of it is made.
//! - A history is legal where each entry may happen in the state that those before it led to: an answer stands where nothing is against its
//!   event, a refusal where its cause holds just then, a reply where it is for the first unsent entry. Every history is.
//! - A [`Front`] is a beginning of the history that somebody has seen. What it says is true for ever, since entries are only added, at the
//!   end.
//! - Whoever has the desk alone, behind a lock, has the [`History`] beside it, and adds an entry for each call of the desk: one that was
//!   possible there, and leads to where the desk stands then. So the desk always stands where the history has led.
//!
//! An entry costs one compare-and-exchange of the word, and no memory.
#![tactic(auto)]

mod book;
mod entries;
mod history_entry;
mod laws;
mod progress;
mod rule;

pub use book::{BlankHistory, BookName, Front, History};
pub use entries::{BringsRun, Hearing, Leaves, ReturnsJob, StopsBoard, TakesJob};
pub use history_entry::{HistoryEntry, Stop};
pub use laws::{desks_have_histories, ends_stay, histories_are_journals, histories_tell_once};
pub use progress::{schedules_end, work_goes_on};
