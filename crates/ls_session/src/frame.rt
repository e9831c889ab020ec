//! The frames of what the desk says.
ghost use Rattle.std.specs.Prelude.{◌≡◌, ℕ, List, IfOk, Some};
ghost use Rattle.ls_frame.specs.Frames.{frame_of};
ghost use Rattle.ls_session.specs.Bodies.{body_of};

use crate::bodies::body_of;
use ls_frame::frame_around;
use ls_machine::Out;
use std::alloc::{AllocError as Memory, Global};

/// The frame of what is to be said.
///
/// # Errors
///
/// Where an allocation is refused, here or in the job that has run.
pub fn framed(alloc: Global, out: &Out) -> Result<Vec<u8>, Memory>
    ensures { IfOk result (λ frame. (body : List ℕ) × (body_of out.now ≡ Some body) × (frame.items ≡ frame_of body)) }
{
    frame_around(alloc, body_of(alloc, out)?)
}
