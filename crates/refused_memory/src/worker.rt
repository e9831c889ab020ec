//! A worker, and the jobs that it holds.

use ls_answers::{Done, Job, run};
use ls_desk::{Desk, DeskFault, Kept};
use std::alloc::{AllocError, Global};

/// The jobs that are taken and not handed in, in the order in which they were taken.
#[derive(Drop)]
pub struct Worker {
    held: Vec<Job>,
}

fn copied(job: &Job) -> Result<Job, AllocError> {
    Ok(Job {
        ticket: job.ticket,
        snapshot: job.snapshot.clone()?,
        encoding: job.encoding,
        ask: job.ask.copy()?,
    })
}

// Hands in a job that has run, also one in which memory was refused.
fn handed_in(desk: &mut Desk, done: Done) -> Result<Kept, DeskFault> {
    match desk.finish(done) {
        Ok(kept) => Ok(kept),
        Err((fault, back)) => {
            drop(back);
            Err(fault)
        }
    }
}

impl Worker {
    pub fn new(alloc: Global) -> Worker {
        Worker {
            held: Vec::new(alloc),
        }
    }

    /// How many jobs it holds.
    pub fn count(&self) -> usize {
        self.held.len()
    }

    /// Takes a job, and gives its ticket, 0 where none is queued.
    pub fn take(&mut self, desk: &mut Desk) -> Result<u64, DeskFault> {
        self.held.reserve(1)?;
        let Some(job) = desk.take(0)? else {
            return Ok(0);
        };
        let ticket = job.ticket;
        self.held.push_reserved(job);
        Ok(ticket)
    }

    /// Gives the job back that was taken last.
    pub fn give_back(&mut self, desk: &mut Desk) -> Result<(), DeskFault> {
        let Some(job) = self.held.last() else {
            return Ok(());
        };
        desk.give_back(job.ticket)?;
        drop(self.held.pop());
        Ok(())
    }

    /// Runs the job that was taken last, of which it keeps a copy, and hands it in. It is held until the answer is another than `Memory`.
    pub fn finish(&mut self, desk: &mut Desk, alloc: Global) -> Result<Kept, DeskFault> {
        let Some(job) = self.held.last() else {
            return Ok(Kept::Nothing);
        };
        let job = copied(job)?;
        let answer = handed_in(desk, run(alloc, job));
        if answer != Err(DeskFault::Memory) {
            drop(self.held.pop());
        }
        answer
    }
}
