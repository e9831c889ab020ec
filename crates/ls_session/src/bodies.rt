//! The bodies of what the desk says: of what waits to be said, and of its refusals.
ghost use Rattle.std.specs.Prelude.{◌≡◌, IfOk, Some, None, Ok, option_map};
ghost use Rattle.ls_session.specs.Bodies.{body_of, refusal_of, refusal_of_fault, refusal_to};

use ls_bodies::{Refusal, failure_body, findings_body, reply_body};
use ls_machine::{DeskFault, Out};
use ls_rpc::Id;
use std::alloc::{AllocError as Memory, Global};

/// The body that says what waits. Members of its JSON stand in the order of their keys.
///
/// # Errors
///
/// Where an allocation is refused, here or in the job that has run.
#[tactic(auto, unfolding(crate::specs::Bodies::body_of))]
pub fn body_of(alloc: Global, out: &Out) -> Result<Vec<u8>, Memory>
    ensures { IfOk result (λ body. Some body.items ≡ body_of out.now) }
{
    match out {
        Out::Said(body) => Vec::from_slice(alloc, body.as_slice()),
        Out::Replied {
            id,
            uri,
            label,
            links,
            done,
            ..
        } => reply_body(alloc, id, uri.as_str(), *label, *links, done.answer()?),
        Out::Failed { id, code, .. } => failure_body(alloc, id, *code),
        Out::Findings {
            uri,
            label,
            done,
            ..
        } => findings_body(alloc, uri.as_str(), *label, done.answer()?),
    }
}

/// The body that answers a request which the desk refused. None where there is nothing to answer: the fault isn't a request's, or is the
/// server's own.
///
/// # Errors
///
/// Where an allocation is refused. Where there is nothing to answer none is asked for.
#[tactic(auto, unfolding(crate::specs::Bodies::refusal_of))]
pub fn refusal_body(alloc: Global, id: &Id, fault: DeskFault) -> Result<Option<Vec<u8>>, Memory>
    ensures body { IfOk result (λ body. option_map (λ b. b.items) body ≡ refusal_of id.now fault) }
    ensures none { refusal_of id.now fault ≡ None → result ≡ Ok None }
{
    match refusal_of_fault(fault) {
        Some(refusal) => Ok(Some(refusal.body(alloc, Some(id))?)),
        None => Ok(None),
    }
}

/// The body that says to whoever asked that the desk refused it. None where nobody asked, or where there is nothing to answer.
///
/// # Errors
///
/// Where an allocation is refused. Where nothing is answered none is asked for.
pub fn refusal_to(
    alloc: Global,
    asker: &Option<Id>,
    fault: DeskFault,
) -> Result<Option<Vec<u8>>, Memory>
    ensures body { IfOk result (λ body. option_map (λ b. b.items) body ≡ refusal_to asker.now fault) }
    ensures none { refusal_to asker.now fault ≡ None → result ≡ Ok None }
{
    let Some(id) = asker else {
        return Ok(None);
    };
    refusal_body(alloc, id, fault)
}

/// The refusal of a request that the desk doesn't take. None where there is nothing to answer: the
/// fault isn't a request's, or is the server's own.
fn refusal_of_fault(fault: DeskFault) -> Option<Refusal>
    ensures { result ≡ refusal_of_fault fault }
{
    match fault {
        DeskFault::NotOpen => Some(Refusal::DocumentNotOpen),
        DeskFault::TooManyWaiting => Some(Refusal::TooManyWaiting),
        DeskFault::IdInUse => Some(Refusal::IdInUse),
        DeskFault::AlreadyOpen
        | DeskFault::TooManyDocuments
        | DeskFault::TooLarge
        | DeskFault::UnknownTicket
        | DeskFault::OtherText
        | DeskFault::SessionFull
        | DeskFault::Memory => None,
    }
}
