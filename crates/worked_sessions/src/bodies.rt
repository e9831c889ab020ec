//! What the two sides of a session say, and what is made of a stream of it.

use ls_frame::{Framer, write_frame};
use std::alloc::Global;
use std::test::Fail;

pub const INITIALIZE: &str =
    r#"{"jsonrpc":"2.0","id":1,"method":"initialize","params":{"capabilities":{}}}"#;

/// The document `file:///g` with the label 1 and the text `a = "x"`.
pub const OPEN: &str =
    r#"{"jsonrpc":"2.0","method":"textDocument/didOpen","params":{"textDocument":{"uri":"file:///g","languageId":"abnf","version":1,"text":"a = \"x\""}}}"#;

pub const SYMBOLS: &str =
    r#"{"jsonrpc":"2.0","id":2,"method":"textDocument/documentSymbol","params":{"textDocument":{"uri":"file:///g"}}}"#;

pub const HOVER: &str =
    r#"{"jsonrpc":"2.0","id":2,"method":"textDocument/hover","params":{"textDocument":{"uri":"file:///g"},"position":{"line":0,"character":0}}}"#;

pub const SHUTDOWN: &str = r#"{"jsonrpc":"2.0","id":1000,"method":"shutdown"}"#;

pub const EXIT: &str = r#"{"jsonrpc":"2.0","method":"exit"}"#;

/// The answer to `initialize` (LSP 3.17, "Initialize Request"): 480 bytes.
pub const CAPABILITIES: &str =
    r#"{"id":1,"jsonrpc":"2.0","result":{"capabilities":{"codeActionProvider":true,"definitionProvider":true,"documentSymbolProvider":true,"hoverProvider":true,"positionEncoding":"utf-16","referencesProvider":true,"renameProvider":true,"semanticTokensProvider":{"full":true,"legend":{"tokenModifiers":["definition","defaultLibrary"],"tokenTypes":["type","string","number","operator","comment","macro"]}},"textDocumentSync":{"change":2,"openClose":true}},"serverInfo":{"name":"abnf_ls"}}}"#;

/// Nothing is wrong with the document as it was opened: 118 bytes.
pub const NOTHING_WRONG: &str =
    r#"{"jsonrpc":"2.0","method":"textDocument/publishDiagnostics","params":{"diagnostics":[],"uri":"file:///g","version":1}}"#;

/// 215 bytes.
pub const OUTLINE: &str =
    r#"{"id":2,"jsonrpc":"2.0","result":[{"kind":12,"name":"a","range":{"end":{"character":7,"line":0},"start":{"character":0,"line":0}},"selectionRange":{"end":{"character":1,"line":0},"start":{"character":0,"line":0}}}]}"#;

/// The answer to the hover: 180 bytes.
pub const HOVERED: &str =
    r#"{"id":2,"jsonrpc":"2.0","result":{"contents":{"kind":"plaintext","value":"shortest length 1\nexample x"},"range":{"end":{"character":1,"line":0},"start":{"character":0,"line":0}}}}"#;

pub const DOWN: &str = r#"{"id":1000,"jsonrpc":"2.0","result":null}"#;

/// What begins each body that answers no request.
const NOTICE: &[u8] = br#"{"jsonrpc":"2.0","method""#;

/// Adds the frame of a body.
pub fn push(alloc: Global, stream: &mut Vec<u8>, body: &str) -> Result<(), Fail> {
    write_frame(alloc, body.as_bytes(), stream)?;
    Ok(())
}

/// The frames of the bodies, in this order.
pub fn frames(alloc: Global, bodies: &[&str]) -> Result<Vec<u8>, Fail> {
    let mut stream = Vec::new(alloc);
    for body in bodies {
        push(alloc, &mut stream, body)?;
    }
    Ok(stream)
}

/// Whether the bytes are the frames of some of these bodies, each at most once, and at last a front of one more.
pub fn are_frames_of(alloc: Global, bytes: &[u8], bodies: &[&str]) -> Result<bool, Fail> {
    let mut left = Vec::new(alloc);
    for body in bodies {
        left.push(frames(alloc, &[*body])?)?;
    }
    let mut rest = bytes;
    for _ in 0..bodies.len() {
        let Some(found) = left.iter().position(|frame| rest.starts_with(frame)) else {
            break;
        };
        let frame = left.swap_remove(found);
        rest = &rest[frame.len().min(rest.len())..];
    }
    Ok(rest.is_empty() || left.iter().any(|frame| frame.starts_with(rest)))
}

/// The bodies of a stream, in the order of their bytes.
pub fn sorted(alloc: Global, stream: &[u8]) -> Result<Vec<Vec<u8>>, Fail> {
    let mut bodies = Vec::new(alloc);
    let mut framer = Framer::new(alloc);
    framer.feed(stream, &mut bodies)?;
    framer.end()?;
    bodies.sort()?;
    Ok(bodies)
}

/// The bodies of a stream that answer requests, in the order of their bytes.
pub fn replies(alloc: Global, stream: &[u8]) -> Result<Vec<Vec<u8>>, Fail> {
    let mut kept = Vec::new(alloc);
    for body in sorted(alloc, stream)? {
        if !body.starts_with(NOTICE) {
            kept.push(body)?;
        }
    }
    Ok(kept)
}
