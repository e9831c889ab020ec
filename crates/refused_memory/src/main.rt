//! Calls, a session at a desk, call by call, one at a board, and a session by steps, which go on where memory is refused once.
//!
//! It prints what they answer. A call that is refused memory must leave what it was given as it was, a desk by the whole of its journal and of
//! the state from which that began; it is made once more, and the session goes on. A job that is refused memory is handed in as it is. So it
//! prints the same whichever allocation is refused, but for what such a job leaves: a failure, or nothing where nobody asked. It says so where
//! a refused call has left a trace. `tools/refused_memory.py` has each allocation refused in turn.
#![tactic(auto)]

mod board;
mod call;
mod certs;
mod same;
mod script;
mod single;
mod steps;
mod worker;

use call::{Answer, Call};
use ls_desk::{Desk, DeskFault};
use same::is_same_desk;
use script::SCRIPT;
use std::alloc::Global;
use std::io;
use worker::Worker;

/// A desk and its worker.
#[derive(Drop)]
struct Office {
    desk: Desk,
    worker: Worker,
}

/// A short journal, so that some calls make a checkpoint.
const MOST_JOURNAL: usize = 4;

impl Office {
    fn new(alloc: Global) -> Office {
        Office {
            desk: Desk::new(alloc, MOST_JOURNAL, 1_000_000),
            worker: Worker::new(alloc),
        }
    }

    fn answer(&mut self, alloc: Global, call: &Call) -> Answer {
        call.made(&mut self.desk, &mut self.worker, alloc)
    }

    fn is_same(&self, other: &Office) -> bool {
        is_same_desk(&self.desk, &other.desk) && self.worker.count() == other.worker.count()
    }
}

/// What a call answers, made once more where memory is refused. None where it isn't as its twin then, at which the call hasn't been made, or is
/// refused memory twice.
fn answered(office: &mut Office, twin: &Office, alloc: Global, call: &Call) -> Option<Answer> {
    match office.answer(alloc, call) {
        Answer::Refused(DeskFault::Memory) => {}
        answer => return Some(answer),
    }
    if !office.is_same(twin) {
        return None;
    }
    match office.answer(alloc, call) {
        Answer::Refused(DeskFault::Memory) => None,
        answer => Some(answer),
    }
}

/// Makes the call at the twin too.
fn follow(twin: &mut Office, alloc: Global, call: &Call) {
    if matches!(twin.answer(alloc, call), Answer::Refused(DeskFault::Memory)) {
        twin.answer(alloc, call);
    }
}

fn told(rt: &HostRuntime, call: &Call, answer: Option<Answer>) -> io::Result<()> {
    let name = call.name();
    match answer {
        Some(answer) => println!(rt; "{name}: {answer:?}"),
        None => println!(rt; "{name}: a trace of what was refused"),
    }
}

fn played(rt: &HostRuntime, office: &mut Office, twin: &mut Office) -> io::Result<()> {
    for call in &SCRIPT {
        let answer = answered(office, twin, rt.alloc(), call);
        follow(twin, rt.alloc(), call);
        told(rt, call, answer)?;
    }
    let desk = &office.desk;
    let (checkpoints, events, unsent) = (desk.checkpoints(), desk.journal().len(), desk.unsent());
    println!(rt; "{events} events after {checkpoints} checkpoints, {unsent} unsent")
}

fn main(rt: HostRuntime) -> io::Result<()> {
    let mut office = Office::new(rt.alloc());
    let mut twin = Office::new(rt.alloc());
    let played = played(&rt, &mut office, &mut twin);
    drop(office);
    drop(twin);
    played?;
    single::made(&rt)?;
    certs::told(&rt)?;
    board::run(&rt, &rt)?;
    steps::run(&rt)
}
