//! Whether what the seats know is what a journal has.
ghost use Rattle.std.specs.Prelude.{◌≡◌, ◌↔◌, ◌-◌, All, IsTrue, Some, length, slice_get, true, false};
ghost use Rattle.std.specs.Option.{option_map};
ghost use Rattle.ls_machine.specs.Client.{client_event, client_events, sent_ticket, sent_tickets};
ghost use Rattle.ls_workers.specs.Seats.{Agrees, AgreesAll, AreSame, HasAgreed, since, logged_by};

use crate::audit_log::AuditLog;
use crate::ended::Ended;
use ls_desk::{Desk, Event};
use ls_machine::same_event;

/// The event where it is a client's.
pub fn client_event(event: &Event) -> Option<&Event>
    ensures { option_map (λ entry. entry.now) result ≡ client_event event.now }
{
    match event {
        Event::Opened { .. }
        | Event::Changed { .. }
        | Event::Closed { .. }
        | Event::Asked { .. }
        | Event::Cancelled { .. }
        | Event::Said { .. } => Some(event),
        Event::Took { .. } | Event::Returned { .. } | Event::Finished { .. } | Event::Sent { .. } =>
            None,
    }
}

/// The ticket where a reply left.
fn sent_ticket(event: &Event) -> Option<u64>
    ensures { result ≡ sent_ticket event.now }
{
    match event {
        Event::Sent { ticket } => Some(*ticket),
        _ => None,
    }
}

/// Whether this is the last entry of a journal.
pub fn ends_with(journal: &[Event], entry: &Event) -> bool
    ensures { IsTrue result ↔ (slice_get journal.now (length journal.now - 1) ≡ Some entry.now) }
{
    match journal.last() {
        Some(last) => same_event(last, entry),
        None => false,
    }
}

/// Whether these are the client's events of a journal.
pub fn same_events(journal: &[Event], list: &[Event]) -> bool
    ensures { IsTrue result ↔ (client_events journal.now ≡ list.now) }
{
    let mut count = 0;
    for at in 0..journal.len() {
        if let Some(event) = client_event(&journal[at]) {
            if count >= list.len() {
                return false;
            }
            if !same_event(event, &list[count]) {
                return false;
            }
            count += 1;
        }
    }
    count == list.len()
}

/// Whether these are the tickets of what a journal sent.
fn same_tickets(journal: &[Event], tickets: &[u64]) -> bool
    ensures { IsTrue result ↔ (sent_tickets journal.now ≡ tickets.now) }
{
    let mut count = 0;
    for at in 0..journal.len() {
        if let Some(ticket) = sent_ticket(&journal[at]) {
            if count >= tickets.len() {
                return false;
            }
            if ticket != tickets[count] {
                return false;
            }
            count += 1;
        }
    }
    count == tickets.len()
}

/// Whether these are the client's events of a journal, and the tickets of what it sent.
fn agrees(journal: &[Event], list: &[Event], tickets: &[u64]) -> bool
    ensures { IsTrue result ↔ Agrees journal.now list.now tickets.now }
{
    same_events(journal, list) && same_tickets(journal, tickets)
}

/// The tickets since the last checkpoint of a desk, by how many the seat had seen whose tickets these are.
fn since<'t>(desk: &Desk, seen: u64, tickets: &'t [u64]) -> &'t [u64]
    ensures { result.now ≡ since desk.now.base.checkpoints seen tickets.now }
{
    if seen == desk.checkpoints() {
        tickets
    } else {
        &tickets[..0]
    }
}

/// Whether what the seats know is what the journal of a desk has, and how many checkpoints there were.
fn agrees_all(desk: &Desk, audit_log: &AuditLog, seen: u64, tickets: &[u64]) -> bool
    ensures { IsTrue result ↔ AgreesAll desk.now (logged_by audit_log.now) seen tickets.now }
{
    let tickets = since(desk, seen, tickets);
    agrees(desk.journal(), &audit_log.list, tickets) && desk.checkpoints() == audit_log.checkpoints
}

/// Whether each list that ended with a journal is the client's events of it.
fn ended_agree(ended: &[Ended]) -> bool
    ensures { IsTrue result ↔ All AreSame ended.now }
{
    for at in 0..ended.len() {
        if !ended[at].agrees() {
            return false;
        }
    }
    true
}

/// Whether no difference was found in what a client's seat knows, and there is none in what isn't compared yet.
fn has_agreed(audit_log: &AuditLog) -> bool
    ensures { IsTrue result ↔ HasAgreed (logged_by audit_log.now) }
{
    !audit_log.strayed && ended_agree(&audit_log.ended)
}

/// Whether what the seats know isn't what the journal of a desk has, or a difference was found or is there in what had ended.
pub fn strays(desk: &Desk, audit_log: &AuditLog, seen: u64, tickets: &[u64]) -> bool
    ensures some { result ≡ true → HasAgreed (logged_by audit_log.now) × AgreesAll desk.now (logged_by audit_log.now) seen tickets.now → ⊥ }
    ensures none { result ≡ false → HasAgreed (logged_by audit_log.now) × AgreesAll desk.now (logged_by audit_log.now) seen tickets.now }
{
    !has_agreed(audit_log) || !agrees_all(desk, audit_log, seen, tickets)
}
