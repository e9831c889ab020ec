//! The methods that are known, by their names.
ghost use Rattle.std.specs.Prelude.{◌≡◌};
ghost use Rattle.ls_session.specs.Kind.{request_named, notice_named};

/// The methods that are known as requests.
#[derive(Clone, Copy, Debug, PartialEq, Eq)]
pub enum RequestKind {
    Initialize,
    Shutdown,
    Hover,
    Definition,
    References,
    DocumentSymbol,
    Rename,
    CodeAction,
    SemanticTokens,
    Unknown,
}

/// The methods that are known as notices.
#[derive(Clone, Copy, Debug, PartialEq, Eq)]
pub enum NoticeKind {
    Exit,
    DidOpen,
    DidChange,
    DidClose,
    CancelRequest,
    Unknown,
}

pub(crate) fn request_kind(method: &str) -> RequestKind
    ensures { result ≡ request_named method.now }
{
    if method == "initialize" {
        RequestKind::Initialize
    } else if method == "shutdown" {
        RequestKind::Shutdown
    } else if method == "textDocument/hover" {
        RequestKind::Hover
    } else if method == "textDocument/definition" {
        RequestKind::Definition
    } else if method == "textDocument/references" {
        RequestKind::References
    } else if method == "textDocument/documentSymbol" {
        RequestKind::DocumentSymbol
    } else if method == "textDocument/rename" {
        RequestKind::Rename
    } else if method == "textDocument/codeAction" {
        RequestKind::CodeAction
    } else if method == "textDocument/semanticTokens/full" {
        RequestKind::SemanticTokens
    } else {
        RequestKind::Unknown
    }
}

pub(crate) fn notice_kind(method: &str) -> NoticeKind
    ensures { result ≡ notice_named method.now }
{
    if method == "exit" {
        NoticeKind::Exit
    } else if method == "textDocument/didOpen" {
        NoticeKind::DidOpen
    } else if method == "textDocument/didChange" {
        NoticeKind::DidChange
    } else if method == "textDocument/didClose" {
        NoticeKind::DidClose
    } else if method == "$/cancelRequest" {
        NoticeKind::CancelRequest
    } else {
        NoticeKind::Unknown
    }
}
