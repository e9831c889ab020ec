//! The errors that are answered, and their bodies.
ghost use Rattle.std.specs.Prelude.{◌≡◌, IfOk};
ghost use Rattle.std.specs.Option.{option_copied};
ghost use Rattle.ls_bodies.specs.Refusal.{code_of, refusal_text, error_body, refusal_in_draft, refusal_of_code, refusal_of_failure, refusal_of_rename};

use draft_grammars::DraftRenameFault;
use ls_answers::RenameFault;
use ls_rpc::{INVALID_REQUEST, Id, PARSE_ERROR, error_text};
use std::alloc::{AllocError as Memory, Global};

/// The errors that are answered, each with a code and a text (JSON-RPC 2.0, section 5.1; LSP 3.17, "Response Message").
///
/// On one thread the server answers each request before it reads the next message. So no request waits then, and none of
/// [`Refusal::IdInUse`], [`Refusal::RequestCancelled`], [`Refusal::ContentModified`] and [`Refusal::TooManyWaiting`] is said.
#[derive(Clone, Copy, Debug, PartialEq, Eq)]
pub enum Refusal {
    /// -32700: the body is no JSON.
    ParseError,
    /// -32600: the body is no message; or the request came after `shutdown`, or is a second `initialize`.
    InvalidRequest,
    /// -32601: the method isn't known as a request.
    MethodNotFound,
    /// -32602: the parameters can't be read.
    InvalidParams,
    /// -32602: the document of the request isn't open.
    DocumentNotOpen,
    /// -32002: the request came before `initialize`.
    NotInitialized,
    /// -32803: 1,024 requests wait, which is the most.
    TooManyWaiting,
    /// -32600: a request with this id waits.
    IdInUse,
    /// -32801: the document of a rename or a code action was changed or closed while it waited, so that the answer would be out of date.
    ContentModified,
    /// -32800: the client has cancelled the request while it waited.
    RequestCancelled,
    /// -32603: memory was refused to the answer.
    InternalError,
    /// -32803: a rename to a text that isn't the name of a rule.
    NotAName,
    /// -32803: a rename where no name stands that the document defines.
    NothingToRename,
    /// -32803: a rename to another name of the document, or to that of a core rule.
    NameInUse,
    /// -32803: a rename in a draft whose XML is at fault.
    DraftAtFault,
    /// -32803: a rename that would make the draft too large.
    TextTooLarge,
    /// -32803: a rename in a draft that the name's markup doesn't allow.
    NameSplit,
}

impl Refusal {
    /// The code of the error, which is the one that stands beside each.
    pub fn code(self) -> i32
        ensures { result ≡ code_of self }
    {
        match self {
            Refusal::ParseError => PARSE_ERROR,
            Refusal::InvalidRequest | Refusal::IdInUse => INVALID_REQUEST,
            Refusal::MethodNotFound => -32601,
            Refusal::InvalidParams | Refusal::DocumentNotOpen => -32602,
            Refusal::NotInitialized => -32002,
            Refusal::ContentModified => -32801,
            Refusal::RequestCancelled => -32800,
            Refusal::InternalError => -32603,
            Refusal::TooManyWaiting
            | Refusal::NotAName
            | Refusal::NothingToRename
            | Refusal::NameInUse
            | Refusal::DraftAtFault
            | Refusal::TextTooLarge
            | Refusal::NameSplit => -32803,
        }
    }

    /// The text of the error, its `message`.
    pub fn text(self) -> &'static str
        ensures { result.now ≡ refusal_text self }
    {
        match self {
            Refusal::ParseError => "parse error",
            Refusal::InvalidRequest => "invalid request",
            Refusal::MethodNotFound => "method not found",
            Refusal::InvalidParams => "invalid params",
            Refusal::DocumentNotOpen => "document not open",
            Refusal::NotInitialized => "not initialized",
            Refusal::TooManyWaiting => "too many requests waiting",
            Refusal::IdInUse => "id in use",
            Refusal::ContentModified => "content modified",
            Refusal::RequestCancelled => "request cancelled",
            Refusal::InternalError => "internal error",
            Refusal::NotAName => "not a rule name",
            Refusal::NothingToRename => "nothing to rename",
            Refusal::NameInUse => "name in use",
            Refusal::DraftAtFault => "the draft's XML is at fault",
            Refusal::TextTooLarge => "text too large",
            Refusal::NameSplit => "name split by markup",
        }
    }

    /// The refusal of a body that is no message, by the code that reading it gave: -32700 where it is no JSON; any other is -32600.
    pub fn of_code(code: i32) -> Refusal
        ensures { result ≡ refusal_of_code code }
    {
        if code == PARSE_ERROR {
            Refusal::ParseError
        } else {
            Refusal::InvalidRequest
        }
    }

    /// The refusal of a rename that isn't granted.
    pub(crate) fn of_rename(fault: RenameFault) -> Refusal
        ensures { result ≡ refusal_of_rename fault }
    {
        match fault {
            RenameFault::NotAName => Refusal::NotAName,
            RenameFault::NothingToRename => Refusal::NothingToRename,
            RenameFault::NameInUse => Refusal::NameInUse,
        }
    }

    /// The refusal of a rename that isn't granted in a draft.
    pub(crate) fn in_draft(fault: DraftRenameFault) -> Refusal
        ensures { result ≡ refusal_in_draft fault }
    {
        match fault {
            DraftRenameFault::AtFault => Refusal::DraftAtFault,
            DraftRenameFault::TooLarge => Refusal::TextTooLarge,
            DraftRenameFault::Split => Refusal::NameSplit,
        }
    }

    /// The refusal of a request that was given up, by the code that is kept for it; -32603 for any but -32801 and -32800.
    pub(crate) fn of_failure(code: i32) -> Refusal
        ensures { result ≡ refusal_of_failure code }
    {
        if code == Refusal::ContentModified.code() {
            Refusal::ContentModified
        } else if code == Refusal::RequestCancelled.code() {
            Refusal::RequestCancelled
        } else {
            Refusal::InternalError
        }
    }

    /// The body that answers the error, with a null id where the request's isn't known.
    ///
    /// # Errors
    ///
    /// Where an allocation is refused.
    pub fn body(self, alloc: Global, id: Option<&Id>) -> Result<Vec<u8>, Memory>
        ensures { IfOk result (λ body. body.items ≡ error_body (option_copied id.entry) self) }
    {
        error_text(alloc, id, self.code(), self.text())
    }
}
