//! A state as a value of its own, from what a desk holds.
ghost use Rattle.std.specs.Prelude.{◌≡◌, ◌++◌, IfOk, OnOk, map};
ghost use Rattle.ls_machine.specs.Outs.{entry_for, job_of_run};

use crate::event::Out;
use crate::shared::SharedSnapshot;
use crate::state::{Document, OutboxEntry, Request, State, Waiting};
use ls_answers::Done;
use ls_lists::{List, Text};
use std::alloc::{AllocError, Global};
use std::collections::VecDeque;

/// Documents of their own that are the same.
fn documents_copy(alloc: Global, documents: &[Document]) -> Result<List<Document>, AllocError>
    ensures { IfOk result (λ copy. copy ≡ documents.now) }
{
    let mut copy = List::new(alloc);
    for document in documents {
        copy.push(document.copy()?)?;
    }
    Ok(copy)
}

/// Jobs of their own that are the same.
fn waiting_copy(alloc: Global, waiting: &[Waiting]) -> Result<List<Waiting>, AllocError>
    ensures { IfOk result (λ copy. copy ≡ waiting.now) }
{
    let mut copy = List::new(alloc);
    for job in waiting {
        copy.push(job.copy()?)?;
    }
    Ok(copy)
}

/// The job that has run.
fn job_of(
    uri: &Text,
    version: u64,
    label: i64,
    request: Option<Request>,
    done: &Done,
) -> Result<Waiting, AllocError>
    ensures { IfOk result (λ job. job ≡ job_of_run uri.now version label request done.now) }
{
    Ok(Waiting {
        ticket: done.ticket(),
        ask: done.ask().copy()?,
        uri: uri.copy()?,
        version,
        label,
        text: SharedSnapshot::of(done.share()?),
        encoding: done.encoding(),
        request,
        taken: true,
    })
}

/// The entry for which a reply stands.
fn entry_for(out: &Out) -> Result<OutboxEntry, AllocError>
    ensures { IfOk result (λ entry. entry ≡ entry_for out.now) }
{
    match out {
        Out::Said(body) => Ok(OutboxEntry::Body(body.copy()?)),
        Out::Failed { ticket, id, code } => {
            let id = id.copy()?;
            Ok(OutboxEntry::Failure {
                ticket: *ticket,
                id,
                code: *code,
            })
        }
        Out::Replied {
            id,
            uri,
            version,
            label,
            links,
            done,
        } => {
            let request = Request {
                id: id.copy()?,
                links: *links,
            };
            Ok(OutboxEntry::Outcome(job_of(uri, *version, *label, Some(request), done)?))
        }
        Out::Findings {
            uri,
            version,
            label,
            done,
        } => Ok(OutboxEntry::Outcome(job_of(uri, *version, *label, None, done)?)),
    }
}

/// The entries for which replies stand, behind those that are there.
fn push_entries(entries: &mut List<OutboxEntry>, outs: &[Out]) -> Result<(), AllocError>
    ensures { OnOk result (entries.new ≡ entries.old ++ map entry_for outs.now) }
{
    for out in outs {
        entries.push(entry_for(out)?)?;
    }
    Ok(())
}

/// The entries for which replies stand.
fn entries_for(alloc: Global, outbox: &VecDeque<Out>) -> Result<List<OutboxEntry>, AllocError>
    ensures { IfOk result (λ entries. entries ≡ map entry_for outbox.now.items) }
{
    let (first, rest) = outbox.as_slices();
    let mut entries = List::new(alloc);
    push_entries(&mut entries, first)?;
    push_entries(&mut entries, rest)?;
    Ok(entries)
}

/// The state that has these parts, and for its unsent entries what these replies stand for. All is copied but the texts, which are shared.
///
/// # Errors
///
/// Where an allocation is refused.
pub fn state_of(
    alloc: Global,
    documents: &[Document],
    waiting: &[Waiting],
    outbox: &VecDeque<Out>,
    next_version: u64,
    next_ticket: u64,
) -> Result<State, AllocError>
    ensures { IfOk result (λ state. state ≡ record { documents = documents.now; waiting = waiting.now; unsent = map entry_for outbox.now.items; next_version = next_version; next_ticket = next_ticket }) }
{
    Ok(State {
        documents: documents_copy(alloc, documents)?,
        waiting: waiting_copy(alloc, waiting)?,
        unsent: entries_for(alloc, outbox)?,
        next_version,
        next_ticket,
    })
}
