//! Bodies in frames.

use super::messages::{INITIALIZE, Said, body};
use ls_frame::{Framer, write_frame};
use std::alloc::{AllocError, Global};

fn push_frame(alloc: Global, body: &[u8], frames: &mut Vec<u8>) -> Result<(), AllocError> {
    match write_frame(alloc, body, frames) {
        Ok(()) => Ok(()),
        Err(_) => Err(AllocError),
    }
}

fn push_said(alloc: Global, said: Said, frames: &mut Vec<u8>) -> Result<(), AllocError> {
    let body = body(alloc, said)?;
    push_frame(alloc, body.as_bytes(), frames)
}

/// The frames of all that a client says.
pub(crate) fn input(alloc: Global, said: &[Said]) -> Result<Vec<u8>, AllocError> {
    let mut input = Vec::new(alloc);
    push_frame(alloc, INITIALIZE.as_bytes(), &mut input)?;
    for one in said {
        push_said(alloc, *one, &mut input)?;
    }
    Ok(input)
}

/// The frame of a body.
pub(crate) fn frame(alloc: Global, body: &[u8]) -> Result<Vec<u8>, AllocError> {
    let mut frame = Vec::new(alloc);
    push_frame(alloc, body, &mut frame)?;
    Ok(frame)
}

/// The contents of all frames, and none where one isn't whole.
pub(crate) fn bodies(alloc: Global, bytes: &[u8]) -> Vec<Vec<u8>> {
    let mut framer = Framer::new(alloc);
    let mut bodies = Vec::new(alloc);
    if framer.feed(bytes, &mut bodies).is_err() || framer.end().is_err() {
        bodies.clear();
    }
    bodies
}

/// These bytes, frame by frame. There is none where they aren't whole frames.
pub(crate) fn frames(alloc: Global, bytes: &[u8]) -> Result<Vec<Vec<u8>>, AllocError> {
    let bodies = bodies(alloc, bytes);
    let mut frames = Vec::new(alloc);
    for body in &bodies {
        frames.push(frame(alloc, body)?)?;
    }
    Ok(frames)
}
