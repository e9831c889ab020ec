//! Worked sessions at a board: seats and workers over one desk, and what closing it gives.
//!
//! They stand above the crate that they test, since a crate with tests is proved twice. No clause says that two threads ran, that one that
//! waits wakes, or that a call that is refused had to be: here the first hover can only be answered after the second, by another worker,
//! and each call succeeds once, and is refused where the session is full or a run isn't the job's.
#![tactic(auto)]

#[cfg(test)]
mod calls;
#[cfg(test)]
mod checkpoints;
#[cfg(test)]
mod closings;
#[cfg(test)]
mod desk;
#[cfg(test)]
mod ends;
#[cfg(test)]
mod histories;
#[cfg(test)]
mod overtaking;
#[cfg(test)]
mod refusals;
#[cfg(test)]
mod strangers;
