//! The whole frames that a list of bytes begins with.
ghost use Rattle.std.specs.Prelude.{◌≡◌, [], IfOk};
ghost use Rattle.ls_frame.specs.Feeds.{contents_of};
ghost use Rattle.ls_frame.specs.own.Rests.{FrontIs, SplitIs, TakenIs};

use super::header::{Head, head_of};
use crate::fault::FrameFault;
use std::alloc::{AllocError, Global};

/// What is known of bytes that no whole frame begins.
#[derive(Clone, Copy, Drop)]
pub enum Rest {
    /// They show no fault, and while there are fewer bytes than this, more bytes change nothing.
    Open(usize),
    /// They show this fault.
    Faulty(FrameFault),
}

/// What the bytes begin with.
pub enum AtFront {
    /// No frame that is whole.
    Rest(Rest),
    /// A frame, whose content goes from the first place up to the second.
    Frame(usize, usize),
}

/// Frames that have been taken from the front of some bytes.
pub struct Taken {
    /// How many frames.
    pub count: usize,
    /// How many bytes they have.
    pub used: usize,
    /// What is known of the bytes behind them.
    pub rest: Rest,
}

/// Looks at the frame that the bytes begin with.
fn front_of(bytes: &[u8]) -> AtFront
    ensures { FrontIs bytes.now result }
{
    match head_of(bytes) {
        Head::Open => AtFront::Rest(Rest::Open(0)),
        Head::Faulty(fault) => AtFront::Rest(Rest::Faulty(fault)),
        Head::Whole(header, content) => {
            let end = header + content;
            if bytes.len() < end {
                return AtFront::Rest(Rest::Open(end));
            }
            AtFront::Frame(header, end)
        }
    }
}

/// Copies the contents of the frames that the bytes begin with, and answers how many bytes those frames have, and
/// what is known of the bytes behind them.
fn split(alloc: Global, bytes: &[u8], found: &mut Vec<Vec<u8>>) -> Result<(usize, Rest), AllocError>
    requires { found.old.items ≡ [] }
    ensures { IfOk result (λ r. SplitIs bytes.now (contents_of found.new.items) r.0 r.1) }
{
    let mut at = 0;
    'frames: loop {
        let behind = &bytes[at..];
        match front_of(behind) {
            AtFront::Rest(rest) => return Ok((at, rest)),
            AtFront::Frame(from, end) => {
                let content = Vec::from_slice(alloc, &behind[from..end])?;
                found.push(content)?;
                at += end;
            }
        }
    }
}

/// Appends the contents of the frames that the bytes begin with. Where memory is refused `out` is as before.
pub fn take_frames(alloc: Global, bytes: &[u8], out: &mut Vec<Vec<u8>>) -> Result<Taken, AllocError>
    ensures { TakenIs bytes.now (contents_of out.old.items) result (contents_of out.new.items) }
{
    let mut found = Vec::new(alloc);
    let (used, rest) = split(alloc, bytes, &mut found)?;
    let count = found.len();
    out.append(&mut found)?;
    Ok(Taken { count, used, rest })
}
