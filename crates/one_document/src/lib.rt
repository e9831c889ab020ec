//! One document, `file:///g`, as the tests of other crates have it: the calls of a desk about it, with plain arguments.
#![tactic(auto)]

use ls_answers::Ask;
use ls_desk::{Desk, DeskFault};
use ls_lists::{List, Text};
use ls_rpc::Id;
use ls_text::{Edit, Encoding, Position};
use std::alloc::{AllocError, Global};

/// The document's name.
pub const URI: &str = "file:///g";

/// The start of the document, where the name of its first rule stands.
pub const START: Position = Position {
    line: 0,
    character: 0,
};

/// The document's name, as a text of its own.
///
/// # Errors
///
/// Where an allocation is refused.
pub fn uri(alloc: Global) -> Result<Text, AllocError> {
    Text::from_str(alloc, URI)
}

/// Opens the document with a text and the label 1, where positions count UTF-16 units.
///
/// # Errors
///
/// Those of [`Desk::did_open`].
pub fn open(desk: &mut Desk, alloc: Global, text: &str) -> Result<u64, DeskFault> {
    let text = Text::from_str(alloc, text)?;
    desk.did_open(uri(alloc)?, 1, text, Encoding::Utf16)
}

/// Closes the document.
///
/// # Errors
///
/// Those of [`Desk::did_close`].
pub fn close(desk: &mut Desk, alloc: Global) -> Result<(), DeskFault> {
    desk.did_close(uri(alloc)?)
}

/// One edit that replaces the whole text.
///
/// # Errors
///
/// Where an allocation is refused.
pub fn whole(alloc: Global, text: &str) -> Result<List<Edit>, AllocError> {
    let text = Text::from_str(alloc, text)?;
    let mut edits = List::new(alloc);
    edits.push(Edit { range: None, text })?;
    Ok(edits)
}

/// Changes the whole document to a text, with the label 2.
///
/// # Errors
///
/// Those of [`Desk::did_change`].
pub fn change(desk: &mut Desk, alloc: Global, text: &str) -> Result<Option<u64>, DeskFault> {
    desk.did_change(uri(alloc)?, 2, whole(alloc, text)?)
}

/// Asks for a hover at the start, and gives its ticket.
///
/// # Errors
///
/// Those of [`Desk::request`].
pub fn hover(desk: &mut Desk, alloc: Global, id: i64) -> Result<u64, DeskFault> {
    desk.request(Id::Number(id), uri(alloc)?, Ask::Hover(START), false)
}

/// Asks for the outline, and gives its ticket.
///
/// # Errors
///
/// Those of [`Desk::request`].
pub fn symbols(desk: &mut Desk, alloc: Global, id: i64) -> Result<u64, DeskFault> {
    desk.request(Id::Number(id), uri(alloc)?, Ask::Symbols, false)
}

/// Asks for a rename of the name at the start to `b`, and gives its ticket.
///
/// # Errors
///
/// Those of [`Desk::request`].
pub fn rename(desk: &mut Desk, alloc: Global, id: i64) -> Result<u64, DeskFault> {
    let ask = Ask::Rename(START, Text::from_str(alloc, "b")?);
    desk.request(Id::Number(id), uri(alloc)?, ask, false)
}
