//! What a client says: its messages, and their bodies.

use std::alloc::{AllocError, Global};

pub(crate) const INITIALIZE: &str =
    r#"{"jsonrpc":"2.0","id":1,"method":"initialize","params":{"capabilities":{"workspace":{"workspaceEdit":{"documentChanges":true}}}}}"#;

/// The text of a document with the client's number of it: three lines, by their numbers.
#[derive(Clone, Copy)]
pub(crate) struct Version {
    pub document: u32,
    pub label: u64,
    pub first: u32,
    pub second: u32,
    pub third: u32,
}

/// A request, by the number of its method and the place that it is about.
#[derive(Clone, Copy)]
pub(crate) struct Question {
    pub id: u64,
    pub document: u32,
    pub method: u32,
    pub line: u32,
    pub character: u32,
    pub name: u32,
}

/// One message of a client.
#[derive(Clone, Copy)]
pub(crate) enum Said {
    Opened(Version),
    /// The document has this text from here on, by edits of these of its parts.
    Changed(Version, u32),
    Closed(u32),
    /// The text is that of the document, if it is open.
    Asked(Question, Option<Version>),
    Cancelled(u64),
}

/// How many lines there are to choose from.
pub(crate) const LINES: u32 = 12;

/// A line with its end, as it stands in a text of JSON.
fn line(number: u32) -> &'static str {
    match number {
        0 => r#"a = b / \"x\"\n"#,
        1 => r#"a = \"yy\"\n"#,
        2 => r#"a =/ 2c\r\n"#,
        3 => r#"b = 2a / c\n"#,
        4 => r#"b = 1*3c ; é 😀\n"#,
        5 => r#"c = %x41-5A\n"#,
        6 => r#"c =/ DIGIT / b\n"#,
        7 => r#"d = ( a\n"#,
        8 => r#"a = 5*2c\n"#,
        9 => r#"c = <é> f\n"#,
        10 => r#"  / \"w\" B\n"#,
        _ => r#"; 😀\n"#,
    }
}

/// How many methods there are to choose from.
pub(crate) const METHODS: u32 = 7;

fn method(number: u32) -> &'static str {
    match number {
        0 => "hover",
        1 => "definition",
        2 => "references",
        3 => "documentSymbol",
        4 => "semanticTokens/full",
        5 => "rename",
        _ => "codeAction",
    }
}

/// Whether a change of the document ends such a request (LSP 3.17, "ContentModified" in "Response Message"): what it answers are edits.
pub(crate) fn is_for_edits(question: Question) -> bool {
    question.method >= 5
}

/// How many new names of a rule there are to choose from.
pub(crate) const NAMES: u32 = 3;

/// A name that no text has, one that some have, and what is no name.
fn name(number: u32) -> &'static str {
    match number {
        0 => "q",
        1 => "b",
        _ => "1x",
    }
}

pub(crate) fn opening(alloc: Global, version: Version) -> Result<String, AllocError> {
    format!(in alloc;
        r#"{{"jsonrpc":"2.0","method":"textDocument/didOpen","params":{{"textDocument":{{"uri":"file:///{}","version":{},"text":"{}{}{}"}}}}}}"#,
        version.document,
        version.label,
        line(version.first),
        line(version.second),
        line(version.third)
    )
}

// An edit of the lines from one on, up to another.
fn edit(alloc: Global, from: u32, to: u32, text: &str) -> Result<String, AllocError> {
    format!(in alloc;
        r#"{{"range":{{"start":{{"line":{from},"character":0}},"end":{{"line":{to},"character":0}}}},"text":"{text}"}}"#
    )
}

fn two_edits(alloc: Global, version: Version) -> Result<String, AllocError> {
    let third = edit(alloc, 2, 3, line(version.third))?;
    let first = edit(alloc, 0, 1, line(version.first))?;
    format!(in alloc; "{third},{first}")
}

fn whole(alloc: Global, version: Version) -> Result<String, AllocError> {
    format!(in alloc;
        r#"{{"text":"{}{}{}"}}"#,
        line(version.first),
        line(version.second),
        line(version.third)
    )
}

/// How many ways there are to change a text: one of its lines, the two outer ones, or all.
pub(crate) const WAYS: u32 = 5;

fn edits(alloc: Global, version: Version, way: u32) -> Result<String, AllocError> {
    match way {
        0 => edit(alloc, 0, 1, line(version.first)),
        1 => edit(alloc, 1, 2, line(version.second)),
        2 => edit(alloc, 2, 3, line(version.third)),
        3 => two_edits(alloc, version),
        _ => whole(alloc, version),
    }
}

fn change(alloc: Global, version: Version, way: u32) -> Result<String, AllocError> {
    let edits = edits(alloc, version, way)?;
    format!(in alloc;
        r#"{{"jsonrpc":"2.0","method":"textDocument/didChange","params":{{"textDocument":{{"uri":"file:///{}","version":{}}},"contentChanges":[{edits}]}}}}"#,
        version.document, version.label
    )
}

fn close(alloc: Global, document: u32) -> Result<String, AllocError> {
    format!(in alloc;
        r#"{{"jsonrpc":"2.0","method":"textDocument/didClose","params":{{"textDocument":{{"uri":"file:///{document}"}}}}}}"#
    )
}

fn cancel(alloc: Global, id: u64) -> Result<String, AllocError> {
    format!(in alloc; r#"{{"jsonrpc":"2.0","method":"$/cancelRequest","params":{{"id":{id}}}}}"#)
}

// The place of a request, as a position and as a range. Each method reads what it knows.
fn place(alloc: Global, question: Question) -> Result<String, AllocError> {
    let Question {
        line,
        character,
        ..
    } = question;
    format!(in alloc;
        r#""position":{{"line":{line},"character":{character}}},"range":{{"start":{{"line":{line},"character":{character}}},"end":{{"line":{line},"character":{character}}}}}"#
    )
}

pub(crate) fn request(alloc: Global, question: Question) -> Result<String, AllocError> {
    let place = place(alloc, question)?;
    format!(in alloc;
        r#"{{"jsonrpc":"2.0","id":{},"method":"textDocument/{}","params":{{"textDocument":{{"uri":"file:///{}"}},{place},"newName":"{}"}}}}"#,
        question.id,
        method(question.method),
        question.document,
        name(question.name)
    )
}

/// The body of a message.
pub(crate) fn body(alloc: Global, said: Said) -> Result<String, AllocError> {
    match said {
        Said::Opened(version) => opening(alloc, version),
        Said::Changed(version, way) => change(alloc, version, way),
        Said::Closed(document) => close(alloc, document),
        Said::Asked(question, _) => request(alloc, question),
        Said::Cancelled(id) => cancel(alloc, id),
    }
}
