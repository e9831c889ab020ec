//! Whether two desks stand at the same point: by the whole of their journals, and of the states from which these began.

use ls_desk::{Desk, Document, Event, OutboxEntry, Request, SharedSnapshot, Waiting};
use ls_lists::Text;
use ls_machine::find::{same_ask, same_encoding, same_id};
use ls_machine::same_event;

fn is_same_text(a: &SharedSnapshot, b: &SharedSnapshot) -> bool {
    a.get().same_text(b.get())
}

fn is_same_name(a: &Text, b: &Text) -> bool {
    a.as_str() == b.as_str()
}

fn are_same_events(a: &[Event], b: &[Event]) -> bool {
    a.len() == b.len() && a.iter().zip(b.iter()).all(|(a, b)| same_event(a, b))
}

fn is_same_document(a: &Document, b: &Document) -> bool {
    is_same_name(&a.uri, &b.uri)
        && (a.version, a.label) == (b.version, b.label)
        && is_same_text(&a.text, &b.text)
        && same_encoding(a.encoding, b.encoding)
}

fn are_same_documents(a: &[Document], b: &[Document]) -> bool {
    a.len() == b.len() && a.iter().zip(b.iter()).all(|(a, b)| is_same_document(a, b))
}

fn is_same_asker(a: &Option<Request>, b: &Option<Request>) -> bool {
    match (a, b) {
        (Some(a), Some(b)) => same_id(&a.id, &b.id) && a.links == b.links,
        (None, None) => true,
        _ => false,
    }
}

fn is_same_job(a: &Waiting, b: &Waiting) -> bool {
    let same_numbers = (a.ticket, a.version, a.label) == (b.ticket, b.version, b.label);
    same_numbers
        && a.taken == b.taken
        && same_ask(&a.ask, &b.ask)
        && is_same_name(&a.uri, &b.uri)
        && is_same_text(&a.text, &b.text)
        && same_encoding(a.encoding, b.encoding)
        && is_same_asker(&a.request, &b.request)
}

fn are_same_jobs(a: &[Waiting], b: &[Waiting]) -> bool {
    a.len() == b.len() && a.iter().zip(b.iter()).all(|(a, b)| is_same_job(a, b))
}

fn is_same_entry(a: &OutboxEntry, b: &OutboxEntry) -> bool {
    match (a, b) {
        (OutboxEntry::Body(a), OutboxEntry::Body(b)) => a.as_slice() == b.as_slice(),
        (
            OutboxEntry::Failure { ticket, id, code },
            OutboxEntry::Failure {
                ticket: other_ticket,
                id: other_id,
                code: other_code,
            },
        ) => (*ticket, *code) == (*other_ticket, *other_code) && same_id(id, other_id),
        (OutboxEntry::Outcome(a), OutboxEntry::Outcome(b)) => is_same_job(a, b),
        _ => false,
    }
}

fn are_same_entries(a: &[OutboxEntry], b: &[OutboxEntry]) -> bool {
    a.len() == b.len() && a.iter().zip(b.iter()).all(|(a, b)| is_same_entry(a, b))
}

/// Whether two desks stand at the same point.
pub fn is_same_desk(a: &Desk, b: &Desk) -> bool {
    let (base, other) = (a.base(), b.base());
    a.checkpoints() == b.checkpoints()
        && a.counts() == b.counts()
        && (base.next_version, base.next_ticket) == (other.next_version, other.next_ticket)
        && are_same_documents(base.documents.as_slice(), other.documents.as_slice())
        && are_same_jobs(base.waiting.as_slice(), other.waiting.as_slice())
        && are_same_entries(base.unsent.as_slice(), other.unsent.as_slice())
        && are_same_events(a.journal(), b.journal())
        && a.unsent() == b.unsent()
}
