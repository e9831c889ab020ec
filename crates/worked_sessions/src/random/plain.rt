//! What a new session says that is served plainly.

use super::messages::{INITIALIZE, Question, Version, opening, request};
use ls_steps::Conversation;
use std::alloc::{AllocError, Global};

// What is said to this body, where that document is open alone, if one is.
fn says(
    talk: &mut Conversation,
    alloc: Global,
    version: Option<Version>,
    body: &str,
) -> Result<Vec<u8>, AllocError> {
    talk.serve(alloc, INITIALIZE.as_bytes())?;
    if let Some(version) = version {
        let opening = opening(alloc, version)?;
        talk.serve(alloc, opening.as_bytes())?;
    }
    talk.serve(alloc, body.as_bytes())
}

fn said(alloc: Global, version: Option<Version>, body: &str) -> Result<Vec<u8>, AllocError> {
    let mut talk = Conversation::new(alloc);
    let said = says(&mut talk, alloc, version, body);
    drop(talk);
    said
}

/// The frame of the reply to a request about a text, or about a document that isn't open.
pub(crate) fn reply(
    alloc: Global,
    question: Question,
    version: Option<Version>,
) -> Result<Vec<u8>, AllocError> {
    let body = request(alloc, question)?;
    said(alloc, version, body.as_str())
}

/// The frame of the findings of a text.
pub(crate) fn findings(alloc: Global, version: Version) -> Result<Vec<u8>, AllocError> {
    let body = opening(alloc, version)?;
    said(alloc, None, body.as_str())
}

/// The frame of the reply to `initialize`.
pub(crate) fn capabilities(alloc: Global) -> Result<Vec<u8>, AllocError> {
    let mut talk = Conversation::new(alloc);
    let said = talk.serve(alloc, INITIALIZE.as_bytes());
    drop(talk);
    said
}
