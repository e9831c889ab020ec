//! A job: what a request makes of it, what a worker is given, and what it leaves once it has run.
ghost use Rattle.std.specs.Prelude.{◌≡◌, IfOk, IfSome, false, is_none};
ghost use Rattle.ls_answers.specs.Answers.{IsAnswer};
ghost use Rattle.ls_machine.specs.Machine.{asked};
ghost use Rattle.ls_desk.specs.Faults.{kept_for, IsJobOf};

use ls_answers::{Ask, Done, Job};
use ls_machine::{Document, Kept, Request, Waiting};
use ls_rpc::Id;
use std::alloc::AllocError;

/// A job about the text that a document has now.
///
/// # Errors
///
/// Where an allocation is refused.
pub fn about(
    document: &Document,
    ticket: u64,
    ask: Ask,
    request: Option<Request>,
) -> Result<Waiting, AllocError>
    ensures { IfOk result (λ job. job ≡ record { ticket = ticket; ask = ask; uri = document.now.uri; version = document.now.version; label = document.now.label; text = document.now.text; encoding = document.now.encoding; request = request; taken = false }) }
{
    Ok(Waiting {
        ticket,
        ask,
        uri: document.uri.copy()?,
        version: document.version,
        label: document.label,
        text: document.text.again()?,
        encoding: document.encoding,
        request,
        taken: false,
    })
}

/// The job that a request makes.
///
/// # Errors
///
/// Where an allocation is refused.
pub fn asked(
    document: &Document,
    ticket: u64,
    id: &Id,
    ask: &Ask,
    links: bool,
) -> Result<Waiting, AllocError>
    ensures { IfOk result (λ job. job ≡ asked ticket id.now ask.now links document.now) }
{
    let ask = ask.copy()?;
    let id = id.copy()?;
    about(document, ticket, ask, Some(Request { id, links }))
}

/// What a worker is given for a job.
///
/// # Errors
///
/// Where an allocation is refused.
pub fn job_of(job: &Waiting) -> Result<Job, AllocError>
    ensures { IfOk result (λ given. IsJobOf job.now given) }
{
    Ok(Job {
        ticket: job.ticket,
        snapshot: job.text.arc()?,
        encoding: job.encoding,
        ask: job.ask.copy()?,
    })
}

/// Whether memory was refused in a job.
pub fn has_failed(done: &Done) -> bool
    ensures value { result ≡ is_none done.now.answer }
    ensures right { IfSome done.now.answer (λ a. IsAnswer done.now.encoding done.now.text done.now.ask a) }
{
    done.answer().is_err()
}

/// What a job leaves that has run.
pub fn kept_for(failed: bool, job: &Waiting) -> Kept
    ensures { result ≡ kept_for failed job.now.request }
{
    if !failed {
        return Kept::Reply;
    }
    match job.request {
        Some(_) => Kept::Failure,
        None => Kept::Nothing,
    }
}
