//! States, and their parts.
ghost use Rattle.std.specs.Prelude.{◌≡◌, IfOk, OnErr, Some};
ghost use Rattle.ls_rpc.specs.Message.{IsText};
ghost use Rattle.ls_machine.specs.Machine.{start};

use crate::shared::SharedSnapshot;
use ls_answers::Ask;
use ls_lists::{List, Text};
use ls_rpc::Id;
use ls_text::Encoding;
use std::alloc::{AllocError, Global};

/// An open document.
#[derive(Drop)]
pub struct Document {
    /// The name by which the client opened it, which is compared byte for byte.
    pub uri: Text,
    /// The number of its text, from 1 over the session.
    pub version: u64,
    /// The client's number of its text, which isn't looked at.
    pub label: i64,
    /// Its text now.
    pub text: SharedSnapshot,
    /// What the positions in its text count.
    pub encoding: Encoding,
}

impl Document {
    /// A document of its own that is the same. Its uri is copied, its text is shared.
    ///
    /// # Errors
    ///
    /// Where an allocation is refused.
    pub fn copy(&self) -> Result<Document, AllocError>
        ensures { IfOk result (λ document. document ≡ self.now) }
    {
        Ok(Document {
            uri: self.uri.copy()?,
            version: self.version,
            label: self.label,
            text: self.text.again()?,
            encoding: self.encoding,
        })
    }
}

/// Whose request a job is.
#[derive(Drop)]
pub struct Request {
    /// The client's id of it.
    pub id: Id,
    /// Whether the client takes the edits of a workspace as `documentChanges` (LSP 3.17, "WorkspaceEdit").
    pub links: bool,
}

impl Request {
    /// A request of its own that is the same.
    ///
    /// # Errors
    ///
    /// Where an allocation is refused. Only an id that is a text asks for one.
    pub fn copy(&self) -> Result<Request, AllocError>
        ensures ok { IfOk result (λ request. request ≡ self.now) }
        ensures memory { OnErr result (IsText (Some self.now.id)) }
    {
        Ok(Request {
            id: self.id.copy()?,
            links: self.links,
        })
    }
}

/// Whose request a job is, if it is one.
fn copied(request: &Option<Request>) -> Result<Option<Request>, AllocError>
    ensures { IfOk result (λ copy. copy ≡ request.now) }
{
    match request {
        Some(request) => Ok(Some(request.copy()?)),
        None => Ok(None),
    }
}

/// A job that waits, with the text that it is for: that of its document when the job was made.
#[derive(Drop)]
pub struct Waiting {
    /// Its number, from 1 over the session.
    pub ticket: u64,
    /// The question.
    pub ask: Ask,
    /// The name of its document.
    pub uri: Text,
    /// The version of its document that it is about.
    pub version: u64,
    /// The client's number of that version.
    pub label: i64,
    /// The text of that version.
    pub text: SharedSnapshot,
    /// What the positions in the text count.
    pub encoding: Encoding,
    /// Whose request it is. The job that asks for the findings of a new text is nobody's.
    pub request: Option<Request>,
    /// Whether a worker has it.
    pub taken: bool,
}

impl Waiting {
    /// A job of its own that is the same. Its text is shared.
    ///
    /// # Errors
    ///
    /// Where an allocation is refused.
    pub fn copy(&self) -> Result<Waiting, AllocError>
        ensures { IfOk result (λ waiting. waiting ≡ self.now) }
    {
        Ok(Waiting {
            ticket: self.ticket,
            ask: self.ask.copy()?,
            uri: self.uri.copy()?,
            version: self.version,
            label: self.label,
            text: self.text.again()?,
            encoding: self.encoding,
            request: copied(&self.request)?,
            taken: self.taken,
        })
    }
}

/// What is to be sent, as the state of a desk has it.
#[derive(Drop)]
pub enum OutboxEntry {
    /// A body that was said, as it stands.
    Body(List<u8>),
    /// A request that gets no answer, with its ticket and its id, and the code of its error: -32801, -32800 or -32603 (LSP 3.17,
    /// "ErrorCodes").
    Failure { ticket: u64, id: Id, code: i32 },
    /// The outcome of a job that has run: the job. What it answered is no part of a state.
    Outcome(Waiting),
}

/// Where a session stands: what its desk holds, but for the journal.
#[derive(Drop)]
pub struct State {
    /// The open documents.
    pub documents: List<Document>,
    /// The waiting jobs, in the order of their tickets.
    pub waiting: List<Waiting>,
    /// What isn't sent yet, the oldest first.
    pub unsent: List<OutboxEntry>,
    /// The number that the next text gets.
    pub next_version: u64,
    /// The number that the next job gets.
    pub next_ticket: u64,
}

impl State {
    /// Where nothing has happened. Takes no memory.
    pub fn start(alloc: Global) -> State
        ensures { result ≡ start }
    {
        State {
            documents: List::new(alloc),
            waiting: List::new(alloc),
            unsent: List::new(alloc),
            next_version: 1,
            next_ticket: 1,
        }
    }
}
