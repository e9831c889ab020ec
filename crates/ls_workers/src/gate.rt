//! What lets a worker pass on its way from the take of a job to its run.
use std::sync::Wait;

/// What a worker passes between the take of a job and its run. It may hold the worker back for a while.
pub trait Gate {
    /// Lets the worker that took the job with this ticket pass. No lock is held. It may wait.
    fn pass<R: Wait>(&self, rt: &R, ticket: u64);
}
