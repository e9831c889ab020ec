//! The entry of a client's event, made before its answer is known.
//!
//! It is made before the lock is taken, and filled without memory once the desk has answered. So nothing of the client's text is copied
//! under the lock for the seat's list, and the text of an open is shared with it.
ghost use Rattle.std.specs.Prelude.{◌≡◌, IfOk};
ghost use Rattle.ls_machine.specs.Client.{filled};
ghost use Rattle.ls_workers.specs.Seats.{IsNoteOf};

use ls_desk::{Event, snapshot_of_text};
use ls_machine::{Boxed, ClientAnswer, ClientEvent, copy_of};
use ls_text::MAX_BYTES;
use std::alloc::{AllocError, Global};

/// The entry that an event will be, its answer aside. `None` where its text is too large for any desk.
///
/// # Errors
///
/// Where an allocation is refused.
pub fn note_of(alloc: Global, event: &ClientEvent) -> Result<Option<Event>, AllocError>
    ensures { IfOk result (λ noted. IsNoteOf event.now noted) }
{
    match event {
        ClientEvent::DidOpen(uri, label, text, encoding) => {
            if text.len() > MAX_BYTES {
                return Ok(None);
            }
            let text = snapshot_of_text(alloc, text.copy()?)?;
            Ok(Some(Event::Opened {
                uri: uri.copy()?,
                label: *label,
                text,
                encoding: *encoding,
                version: 0,
            }))
        }
        ClientEvent::DidChange(uri, label, edits) => {
            let edits = Boxed::new(alloc, copy_of(edits)?)?;
            Ok(Some(Event::Changed {
                uri: uri.copy()?,
                label: *label,
                edits,
                version: None,
            }))
        }
        ClientEvent::DidClose(uri) => Ok(Some(Event::Closed { uri: uri.copy()? })),
        ClientEvent::Request(id, uri, ask, links) => Ok(Some(Event::Asked {
            id: Boxed::new(alloc, id.copy()?)?,
            uri: uri.copy()?,
            ask: Boxed::new(alloc, ask.copy()?)?,
            links: *links,
            ticket: 0,
        })),
        ClientEvent::Cancel(id) => Ok(Some(Event::Cancelled {
            id: id.copy()?,
            found: false,
        })),
        ClientEvent::Say(body) => Ok(Some(Event::Said { body: body.copy()? })),
    }
}

/// The entry with its answer. Takes no memory.
pub fn filled(note: Event, answer: ClientAnswer) -> Event
    ensures { result ≡ filled note answer }
{
    let mut note = note;
    match answer {
        ClientAnswer::Version(given) => match &mut note {
            Event::Opened { version, .. } => *version = given,
            Event::Changed { version, .. } => *version = Some(given),
            _ => {}
        },
        ClientAnswer::Ticket(given) => {
            if let Event::Asked { ticket, .. } = &mut note {
                *ticket = given;
            }
        }
        ClientAnswer::Cancelled(waited) => {
            if let Event::Cancelled { found, .. } = &mut note {
                *found = waited;
            }
        }
        ClientAnswer::Closed | ClientAnswer::Said => {}
    }
    note
}
