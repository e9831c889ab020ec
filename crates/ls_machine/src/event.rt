//! What happens at a desk, and what it hands out.
use crate::boxed::Boxed;
use crate::shared::SharedSnapshot;
use ls_answers::{Ask, Done};
use ls_lists::{List, Text};
use ls_rpc::Id;
use ls_text::{Edit, Encoding};
use std::alloc::AllocError;
use thiserror::Error;

/// One entry of the journal. A client's event has the answer that its call gave. Texts and lists are those of `ls_lists`.
///
/// Most entries of a journal are small ones, and each has the room of the largest kind: what would make it more than 64 bytes is in boxes.
#[derive(Drop)]
pub enum Event {
    /// A document was opened, and its text got this version.
    Opened {
        uri: Text,
        label: i64,
        text: SharedSnapshot,
        /// What the positions in its text count, in this text and in all that come by changes.
        encoding: Encoding,
        version: u64,
    },
    /// A document was changed by edits, each on the text that the ones before it left, and the new text got this version. Where one of
    /// these texts was too large there is no version, and the document was closed.
    Changed {
        uri: Text,
        label: i64,
        edits: Boxed<List<Edit>>,
        version: Option<u64>,
    },
    /// A document was closed.
    Closed {
        uri: Text,
    },
    /// A request waits from here on, with this ticket.
    Asked {
        id: Boxed<Id>,
        uri: Text,
        ask: Boxed<Ask>,
        links: bool,
        ticket: u64,
    },
    /// A request was cancelled: `found` says whether one with this id waited. Where none did nothing has changed.
    Cancelled {
        id: Id,
        found: bool,
    },
    /// A body is to be sent.
    Said {
        body: List<u8>,
    },
    /// The worker of this number took the first queued job.
    Took {
        worker: u32,
    },
    /// The taken job with this ticket was given back, and is queued again.
    Returned {
        ticket: u64,
    },
    /// The taken job with this ticket has run; it failed where memory was refused in it.
    Finished {
        ticket: u64,
        failed: bool,
    },
    /// The first unsent entry left. The ticket is that of the job that it came from, 0 for a body.
    Sent {
        ticket: u64,
    },
}

/// A reply that leaves the desk. The type of a job that has run keeps that its answer is right.
#[derive(Drop)]
pub enum Out {
    /// A body that was said.
    Said(List<u8>),
    /// The answer to a request about a version of a document: the request's id, the document's uri, its version and the client's number of
    /// that, whether the client takes edits as `documentChanges`, and the job that has run.
    Replied {
        id: Id,
        uri: Text,
        version: u64,
        label: i64,
        links: bool,
        done: Done,
    },
    /// A request that gets no answer, and the code of its error: -32801 content modified, -32800 request cancelled, or -32603 internal
    /// error where memory was refused (LSP 3.17, "ErrorCodes").
    Failed {
        ticket: u64,
        id: Id,
        code: i32,
    },
    /// The findings on a version of a document, with the client's number of that version.
    Findings {
        uri: Text,
        version: u64,
        label: i64,
        done: Done,
    },
}

/// What a desk kept for sending of a job that has run.
#[derive(Clone, Copy, Debug, Drop, PartialEq, Eq)]
pub enum Kept {
    /// The answer.
    Reply,
    /// That a request failed, since memory was refused in its job.
    Failure,
    /// Nothing: memory was refused where findings were asked for.
    Nothing,
}

/// Why a call was refused: the first whose cause holds, in each call's own order, or `Memory` where none does.
#[derive(Clone, Copy, Debug, Drop, PartialEq, Eq, Error)]
pub enum DeskFault {
    /// No document of this name is open.
    #[error("not open")]
    NotOpen,
    /// A document of this name is open.
    #[error("already open")]
    AlreadyOpen,
    /// 256 documents are open.
    #[error("too many documents")]
    TooManyDocuments,
    /// 1,024 requests wait.
    #[error("too many requests wait")]
    TooManyWaiting,
    /// A request with this id waits.
    #[error("id in use")]
    IdInUse,
    /// The text has more than [`MAX_BYTES`](ls_text::MAX_BYTES) bytes.
    #[error("the text is too large")]
    TooLarge,
    /// No job with this ticket is taken now.
    #[error("unknown ticket")]
    UnknownTicket,
    /// The run is for another text, another encoding or another question than the job with its ticket.
    #[error("another text or question")]
    OtherText,
    /// The journal and the unsent replies have no room for what the call would add.
    #[error("session full")]
    SessionFull,
    /// An allocation was refused.
    #[error("out of memory")]
    Memory,
}

impl From<AllocError> for DeskFault {
    ghost use Rattle.std.specs.Prelude.{◌≡◌};
    ghost use Rattle.ls_machine.specs.declared.event.DeskFault.TheVariants.{Memory};

    ghost from_gives = { λ e f. f ≡ Memory };

    /// A refused allocation is [`DeskFault::Memory`].
    fn from(_: AllocError) -> DeskFault {
        DeskFault::Memory
    }
}
