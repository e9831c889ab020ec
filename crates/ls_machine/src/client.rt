//! What a client does at a desk.
ghost use Rattle.std.specs.Prelude.{◌≡◌, ◌<◌, IfOk, OnErr, length};
ghost use Rattle.ls_rpc.specs.Message.{IsText};
ghost use Rattle.ls_machine.specs.Client.{HoldsText, asker_of};

use ls_answers::Ask;
use ls_lists::{List, Text};
use ls_rpc::Id;
use ls_text::{Edit, Encoding};
use std::alloc::AllocError as Memory;

/// What a client does: a call of the desk, with its arguments. Texts and lists are those of `ls_lists`, here and in the calls of the desk,
/// so contracts see what they hold and no memory.
#[derive(Drop)]
pub enum ClientEvent {
    /// A document is opened: its uri, the client's version of it, its text, and what the positions in its texts count.
    DidOpen(Text, i64, Text, Encoding),
    /// The document with this uri is changed: its uri, the client's version of it, and edits, each on the text that the ones before it
    /// left.
    DidChange(Text, i64, List<Edit>),
    /// The document with this uri is closed.
    DidClose(Text),
    /// A request with this id asks about the document with this uri. The last field says whether the client takes edits of a workspace as
    /// `documentChanges` (LSP 3.17, "WorkspaceEdit").
    Request(Id, Text, Ask, bool),
    /// The request with this id isn't wanted any more (LSP 3.17, "Cancellation Support").
    Cancel(Id),
    /// A body that is to be said as it stands.
    Say(List<u8>),
}

/// What the desk answered.
#[derive(Clone, Copy, PartialEq, Eq, Debug, Drop)]
pub enum ClientAnswer {
    /// The version of the text that was opened or changed, from 1 over the session.
    Version(u64),
    /// The document is closed: it was to be, or its text grew too large.
    Closed,
    /// The ticket of the request, from 1 over the session.
    Ticket(u64),
    /// Whether a request with this id waited.
    Cancelled(bool),
    /// The body is kept for sending.
    Said,
}

impl ClientEvent {
    /// An event of its own that is the same, with its texts and lists.
    ///
    /// # Errors
    ///
    /// Where an allocation is refused. A cancel by a number asks for none.
    pub fn copy(&self) -> Result<ClientEvent, Memory>
        ensures ok { IfOk result (λ event. event ≡ self.now) }
        ensures memory { OnErr result (HoldsText self.now) }
    {
        match self {
            ClientEvent::DidOpen(uri, label, text, encoding) => {
                let uri = uri.copy()?;
                Ok(ClientEvent::DidOpen(uri, *label, text.copy()?, *encoding))
            }
            ClientEvent::DidChange(uri, label, edits) => {
                let uri = uri.copy()?;
                Ok(ClientEvent::DidChange(uri, *label, copy_of(edits)?))
            }
            ClientEvent::DidClose(uri) => Ok(ClientEvent::DidClose(uri.copy()?)),
            ClientEvent::Request(id, uri, ask, links) => {
                let id = id.copy()?;
                let uri = uri.copy()?;
                Ok(ClientEvent::Request(id, uri, ask.copy()?, *links))
            }
            ClientEvent::Cancel(id) => Ok(ClientEvent::Cancel(id.copy()?)),
            ClientEvent::Say(body) => Ok(ClientEvent::Say(body.copy()?)),
        }
    }

    /// The id of the request, where the event is one: a refusal concerns whoever asked. None of all other events.
    ///
    /// # Errors
    ///
    /// Where an allocation is refused. Only a request whose id is a text asks for one.
    pub fn asker(&self) -> Result<Option<Id>, Memory>
        ensures ok { IfOk result (λ id. id ≡ asker_of self.now) }
        ensures memory { OnErr result (IsText (asker_of self.now)) }
    {
        match self {
            ClientEvent::Request(id, _, _, _) => Ok(Some(id.copy()?)),
            ClientEvent::DidOpen(_, _, _, _)
            | ClientEvent::DidChange(_, _, _)
            | ClientEvent::DidClose(_)
            | ClientEvent::Cancel(_)
            | ClientEvent::Say(_) => Ok(None),
        }
    }
}

/// Edits of their own that are the same.
///
/// # Errors
///
/// Where an allocation is refused. No edits ask for none.
pub fn copy_of(edits: &List<Edit>) -> Result<List<Edit>, Memory>
    ensures ok { IfOk result (λ copy. copy ≡ edits.now) }
    ensures memory { OnErr result (0 < length edits.now) }
{
    let mut copy = edits.new_alike();
    for edit in edits.as_slice() {
        copy.push(edit.copy()?)?;
    }
    Ok(copy)
}
