//! The replies: what is answered where a text ends, what a job leaves, and the ticket of each.
ghost use Rattle.std.specs.Prelude.{◌≡◌, ◌+◌, ◌≤◌, ◌++◌, IfOk, OnOk, length, is_none};
ghost use Rattle.std.specs.VecDeque.{deque_len, deque_capacity};
ghost use Rattle.ls_machine.specs.Machine.{ends};
ghost use Rattle.ls_desk.specs.Stands.{failed, failed_by, failures, finished, ticket_of_out};

use ls_answers::Done;
use ls_lists::Text;
use ls_machine::find::is_ended;
use ls_machine::{Out, Request, Waiting};
use std::alloc::{AllocError, Global};
use std::collections::VecDeque;

const CONTENT_MODIFIED: i32 = -32801;

/// The code with which a cancelled request is answered.
pub const REQUEST_CANCELLED: i32 = -32800;

const INTERNAL_ERROR: i32 = -32603;

/// Adds what is answered where a change of its text ends a job.
fn push_failure(
    replies: &mut VecDeque<Out>,
    uri: &Text,
    waiting: &Waiting,
) -> Result<(), AllocError>
    ensures { OnOk result (replies.new.items ≡ replies.old.items ++ failed_by uri.now waiting.now) }
{
    if !is_ended(uri, waiting) {
        return Ok(());
    }
    let Some(request) = &waiting.request else {
        return Ok(());
    };
    let reply = Out::Failed {
        ticket: waiting.ticket,
        id: request.id.copy()?,
        code: CONTENT_MODIFIED,
    };
    replies.push_back(reply)?;
    Ok(())
}

/// What is answered where the text of a document ends, in the order of the tickets.
///
/// # Errors
///
/// Where an allocation is refused.
pub fn failures(alloc: Global, uri: &Text, waiting: &[Waiting]) -> Result<VecDeque<Out>, AllocError>
    ensures { IfOk result (λ replies. replies.items ≡ failures uri.now waiting.now) }
{
    let mut replies = VecDeque::new(alloc);
    for job in waiting {
        push_failure(&mut replies, uri, job)?;
    }
    Ok(replies)
}

/// How many replies are put down where the text of a document ends.
pub fn replies_at_end(uri: &Text, waiting: &[Waiting]) -> usize
    ensures { result ≡ length (ends uri.now waiting.now) }
{
    let mut count = 0;
    for job in waiting {
        if is_ended(uri, job) && job.request.is_some() {
            count += 1;
        }
    }
    count
}

/// Puts down the error with this code for the request of a job.
pub fn put_failure(outbox: &mut VecDeque<Out>, job: Waiting, code: i32)
    requires { deque_len outbox.old + length (failed code job) ≤ deque_capacity outbox.old }
    ensures { outbox.new.items ≡ outbox.old.items ++ failed code job }
{
    let Waiting {
        ticket,
        ask: _,
        uri: _,
        version: _,
        label: _,
        text: _,
        encoding: _,
        request,
        taken: _,
    } = job;
    if let Some(Request { id, links: _ }) = request {
        outbox.push_back_reserved(Out::Failed { ticket, id, code });
    }
}

/// Puts down what a job leaves that has run.
pub fn put_finished(outbox: &mut VecDeque<Out>, job: Waiting, done: Done, failed: bool)
    requires room { deque_len outbox.old + length (finished job done) ≤ deque_capacity outbox.old }
    requires failed { failed ≡ is_none done.answer }
    ensures { outbox.new.items ≡ outbox.old.items ++ finished job done }
{
    if failed {
        put_failure(outbox, job, INTERNAL_ERROR);
        return;
    }
    let Waiting {
        ticket: _,
        ask: _,
        uri,
        version,
        label,
        text: _,
        encoding: _,
        request,
        taken: _,
    } = job;
    let reply = match request {
        Some(request) => Out::Replied {
            id: request.id,
            uri,
            version,
            label,
            links: request.links,
            done,
        },
        None => Out::Findings {
            uri,
            version,
            label,
            done,
        },
    };
    outbox.push_back_reserved(reply);
}

/// The ticket of the job that a reply came from, 0 for a body.
pub fn ticket_of(out: &Out) -> u64
    ensures { result ≡ ticket_of_out out.now }
{
    match out {
        Out::Said(_) => 0,
        Out::Failed { ticket, .. } => *ticket,
        Out::Replied { done, .. } => done.ticket(),
        Out::Findings { done, .. } => done.ticket(),
    }
}
