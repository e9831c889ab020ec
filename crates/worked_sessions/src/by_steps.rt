//! A run by steps.

use ls_session::Status;
use ls_steps::{Run, Step, run_steps};
use std::alloc::{AllocError, Global};

/// What a run leaves, but for its desk, of which it tells the events: a way out of a function with a desk in hand is dear to prove.
#[derive(Drop)]
pub(crate) struct Left {
    pub bytes: Vec<u8>,
    pub events: usize,
    pub status: Option<Status>,
}

/// Runs a session by steps, over all that its client sends.
pub(crate) fn run_through(alloc: Global, input: &[u8], steps: &[Step]) -> Result<Left, AllocError> {
    let Run {
        bytes,
        desk,
        status,
    } = run_steps(alloc, input, steps)?;
    let events = desk.journal().len();
    drop(desk);
    Ok(Left {
        bytes,
        events,
        status,
    })
}
