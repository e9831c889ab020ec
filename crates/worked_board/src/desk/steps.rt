//! The calls of a desk, with plain arguments. All are about one document.
ghost use Rattle.std.specs.Prelude.{◌<◌, ◌≤◌};

use ls_answers::{Ask, Done, Job, run};
use ls_desk::{Desk, DeskFault, Kept, Out, SharedSnapshot};
use ls_rpc::Id;
use ls_text::{Encoding, Snapshot, TextFault};
use one_document::open;
use std::alloc::Global;

/// How many desks there are on which each worked session goes the same way.
const DESKS: usize = 5;

// How many events a journal may have before it begins anew: 1 to 4, and then as many as it may have at all.
fn longest(number: usize) -> usize
    ensures { (0 < result) × (result ≤ 1000000) }
{
    if number < 4 { number + 1 } else { 1_000_000 }
}

/// Whether a session goes as it must on each of these desks, on which nothing has happened. They differ in how long their journals may be.
/// (A function that is passed has three proofs as an `Fn`, and one so.)
pub(crate) fn on_each_desk<F: FnOnce(&mut Desk, Global) -> Result<bool, DeskFault> + Copy>(
    alloc: Global,
    session: F,
) -> Result<bool, DeskFault>
    requires { F.IsAlwaysCallable session }
{
    for number in 0..DESKS {
        let mut desk = Desk::new(alloc, longest(number), 1_000_000);
        let goes = session(&mut desk, alloc);
        drop(desk);
        if !goes? {
            return Ok(false);
        }
    }
    Ok(true)
}

/// A job with a ticket, of a text, an encoding and a question of its own.
pub(crate) fn job_of(
    alloc: Global,
    ticket: u64,
    text: &str,
    encoding: Encoding,
    ask: Ask,
) -> Result<Job, DeskFault> {
    let text = String::from_str(alloc, text)?;
    let snapshot = match Snapshot::of_text(alloc, text) {
        Ok(snapshot) => SharedSnapshot::new(alloc, snapshot)?.arc()?,
        Err(TextFault::TooLarge) => return Err(DeskFault::TooLarge),
        Err(TextFault::Memory) => return Err(DeskFault::Memory),
    };
    Ok(Job {
        ticket,
        snapshot,
        encoding,
        ask,
    })
}

/// The first queued job, which is there.
pub(crate) fn take(desk: &mut Desk) -> Result<Job, DeskFault> {
    desk.take(0)?.ok_or(DeskFault::UnknownTicket)
}

/// Runs a job, and says what its finish kept or why it was refused.
pub(crate) fn finish(desk: &mut Desk, alloc: Global, job: Job) -> Result<Kept, DeskFault> {
    match desk.finish(run(alloc, job)) {
        Ok(kept) => Ok(kept),
        Err((fault, _)) => Err(fault),
    }
}

/// Whether a job that has run is refused for this, and comes back.
pub(crate) fn comes_back(desk: &mut Desk, done: Done, want: DeskFault) -> bool {
    let ticket = done.ticket();
    match desk.finish(done) {
        Ok(_) => false,
        Err((fault, done)) => fault == want && done.ticket() == ticket,
    }
}

/// Whether a reply leaves, which is the oldest.
pub(crate) fn leaves(desk: &mut Desk) -> bool {
    desk.next_out().is_some()
}

// Whether the first queued job has this ticket, and its answer is kept.
fn takes(desk: &mut Desk, alloc: Global, ticket: u64) -> Result<bool, DeskFault> {
    let job = take(desk)?;
    let first = job.ticket == ticket;
    let kept = finish(desk, alloc, job);
    Ok(first && kept? == Kept::Reply)
}

/// Whether the findings with a ticket are the first queued job, and are sent once it has run.
pub(crate) fn tells_findings(
    desk: &mut Desk,
    alloc: Global,
    ticket: u64,
) -> Result<bool, DeskFault> {
    let kept = takes(desk, alloc, ticket)?;
    Ok(kept && matches!(desk.out_at(0), Some(Out::Findings { .. })) && leaves(desk))
}

/// Opens the document at version 1, and sends its findings.
pub(crate) fn opened(desk: &mut Desk, alloc: Global) -> Result<bool, DeskFault> {
    let version = open(desk, alloc, "a = \"x\"")?;
    Ok(version == 1 && tells_findings(desk, alloc, 1)?)
}

/// Whether the oldest reply is a failure of this job, with this id and code. It leaves.
pub(crate) fn sends_failure(desk: &mut Desk, want: u64, number: i64, told: i32) -> bool {
    let fails = match desk.out_at(0) {
        Some(
            Out::Failed {
                ticket,
                id: Id::Number(id),
                code,
            },
        ) => *ticket == want && *id == number && *code == told,
        _ => false,
    };
    fails && leaves(desk)
}
