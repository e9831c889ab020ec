//! Whether two entries of a journal are the same.
ghost use Rattle.std.specs.Prelude.{◌≡◌, ◌↔◌, IsTrue, ◌<◌, length, false};
ghost use Rattle.ls_machine.specs.Counts.{is_client};

use crate::event::Event;
use crate::find::{same_ask, same_encoding, same_id, same_range};
use crate::shared::SharedSnapshot;
use ls_answers::Ask;
use ls_lists::{List, Text};
use ls_rpc::Id;
use ls_text::{Edit, Encoding, Range};

/// Whether two texts are the same.
fn same_text(a: &Text, b: &Text) -> bool
    ensures { IsTrue result ↔ (a.now ≡ b.now) }
{
    a.as_str() == b.as_str()
}

/// Whether two ranges, or none, are the same.
fn same_ranges(a: &Option<Range>, b: &Option<Range>) -> bool
    ensures { IsTrue result ↔ (a.now ≡ b.now) }
{
    match (a, b) {
        (Some(a), Some(b)) => same_range(a, b),
        (None, None) => true,
        _ => false,
    }
}

/// Whether two edits are the same.
fn same_edit(a: &Edit, b: &Edit) -> bool
    ensures { IsTrue result ↔ (a.now ≡ b.now) }
{
    same_ranges(&a.range, &b.range) && same_text(&a.text, &b.text)
}

/// Whether two lists of edits are the same.
fn same_edits(a: &[Edit], b: &[Edit]) -> bool
    ensures { IsTrue result ↔ (a.now ≡ b.now) }
{
    if a.len() != b.len() {
        return false;
    }
    for at in 0..a.len() {
        if !same_edit(&a[at], &b[at]) {
            return false;
        }
    }
    true
}

/// Whether an event is the opening of this document.
fn is_opening(
    event: &Event,
    uri: &Text,
    label: i64,
    text: &SharedSnapshot,
    encoding: Encoding,
    version: u64,
) -> bool
    ensures { IsTrue result ↔ (Event.Opened uri.now label text.now encoding version ≡ event.now) }
{
    match event {
        Event::Opened {
            uri: other,
            label: other_label,
            text: other_text,
            encoding: other_encoding,
            version: other_version,
        } => {
            same_text(uri, other)
                && label == *other_label
                && same_encoding(encoding, *other_encoding)
                && text.get().same_text(other_text.get())
                && version == *other_version
        }
        _ => false,
    }
}

/// Whether an event is this change of a document.
fn is_change(
    event: &Event,
    uri: &Text,
    label: i64,
    edits: &List<Edit>,
    version: Option<u64>,
) -> bool
    ensures { IsTrue result ↔ (Event.Changed uri.now label edits.now version ≡ event.now) }
{
    match event {
        Event::Changed {
            uri: other,
            label: other_label,
            edits: other_edits,
            version: other_version,
        } => {
            same_text(uri, other)
                && label == *other_label
                && same_edits(edits.as_slice(), other_edits.get().as_slice())
                && version == *other_version
        }
        _ => false,
    }
}

/// Whether an event is this request.
fn is_request(event: &Event, id: &Id, uri: &Text, ask: &Ask, links: bool, ticket: u64) -> bool
    ensures { IsTrue result ↔ (Event.Asked id.now uri.now ask.now links ticket ≡ event.now) }
{
    match event {
        Event::Asked {
            id: other,
            uri: other_uri,
            ask: other_ask,
            links: other_links,
            ticket: other_ticket,
        } => {
            same_id(id, other.get())
                && same_text(uri, other_uri)
                && same_ask(ask, other_ask.get())
                && links == *other_links
                && ticket == *other_ticket
        }
        _ => false,
    }
}

/// Whether an event is the close of this document.
fn is_close(event: &Event, uri: &Text) -> bool
    ensures { IsTrue result ↔ (Event.Closed uri.now ≡ event.now) }
{
    match event {
        Event::Closed { uri: other } => same_text(uri, other),
        _ => false,
    }
}

/// Whether an event is this cancel.
fn is_cancel(event: &Event, id: &Id, found: bool) -> bool
    ensures { IsTrue result ↔ (Event.Cancelled id.now found ≡ event.now) }
{
    match event {
        Event::Cancelled {
            id: other,
            found: waited,
        } => same_id(id, other) && found == *waited,
        _ => false,
    }
}

/// Whether an event is this body, said.
fn is_said(event: &Event, body: &List<u8>) -> bool
    ensures { IsTrue result ↔ (Event.Said body.now ≡ event.now) }
{
    match event {
        Event::Said { body: other } => body.as_slice() == other.as_slice(),
        _ => false,
    }
}

/// Whether two events are the same, of which the first is none of the client's.
fn same_work(a: &Event, b: &Event) -> bool
    requires { is_client a.now ≡ false }
    ensures { IsTrue result ↔ (a.now ≡ b.now) }
{
    match (a, b) {
        (Event::Took { worker }, Event::Took { worker: other }) => *worker == *other,
        (Event::Returned { ticket }, Event::Returned { ticket: other }) => *ticket == *other,
        (
            Event::Finished { ticket, failed },
            Event::Finished {
                ticket: other,
                failed: other_failed,
            },
        ) => *ticket == *other && *failed == *other_failed,
        (Event::Sent { ticket }, Event::Sent { ticket: other }) => *ticket == *other,
        _ => false,
    }
}

/// Whether two events are the same, with all that they carry, a client's with its answer: true exactly where they are equal. So the prover
/// refuses a new kind of event that is forgotten here.
pub fn same_event(a: &Event, b: &Event) -> bool
    ensures { IsTrue result ↔ (a.now ≡ b.now) }
{
    match a {
        Event::Opened {
            uri,
            label,
            text,
            encoding,
            version,
        } => is_opening(b, uri, *label, text, *encoding, *version),
        Event::Changed {
            uri,
            label,
            edits,
            version,
        } => is_change(b, uri, *label, edits.get(), *version),
        Event::Closed { uri } => is_close(b, uri),
        Event::Asked {
            id,
            uri,
            ask,
            links,
            ticket,
        } => is_request(b, id.get(), uri, ask.get(), *links, *ticket),
        Event::Cancelled { id, found } => is_cancel(b, id, *found),
        Event::Said { body } => is_said(b, body),
        Event::Took { .. } | Event::Returned { .. } | Event::Finished { .. } | Event::Sent { .. } =>
            { same_work(a, b) }
    }
}
