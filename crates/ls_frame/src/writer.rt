//! The writer of frames.
ghost use Rattle.std.specs.Prelude.{◌≡◌, IfOk};
ghost use Rattle.ls_frame.specs.Feeds.{WriteIs};
ghost use Rattle.ls_frame.specs.Frames.{frame_of};

use crate::fault::FrameFault;
use std::alloc::{AllocError, Global};

/// Appends the frame with this content: `Content-Length: `, its count of bytes in decimal, two CRLF, and the content.
///
/// There is no limit of size. Time goes by the bytes of the content.
///
/// # Errors
///
/// `Memory` where an allocation is refused, and nothing else. Then `out` is as before.
pub fn write_frame(alloc: Global, body: &[u8], out: &mut Vec<u8>) -> Result<(), FrameFault>
    ensures { WriteIs body.now out.old.items result out.new.items }
{
    let Ok(header) = format!(in alloc; "Content-Length: {}\r\n\r\n", body.len()) else {
        return Err(FrameFault::Memory);
    };
    let had = out.len();
    if out.extend_from_slice(header.as_bytes()).is_err() {
        return Err(FrameFault::Memory);
    }
    if out.extend_from_slice(body).is_err() {
        out.truncate(had);
        return Err(FrameFault::Memory);
    }
    Ok(())
}

/// The frame with this content, which is moved behind a header: the one that [`write_frame`] appends. It stays where it lies if there is
/// room for the header.
///
/// # Errors
///
/// Where an allocation is refused.
pub fn frame_around(alloc: Global, body: Vec<u8>) -> Result<Vec<u8>, AllocError>
    ensures { IfOk result (λ frame. frame.items ≡ frame_of body.items) }
{
    let header = format!(in alloc; "Content-Length: {}\r\n\r\n", body.len())?;
    let mut frame = body;
    frame.splice(0..0, header.into_bytes())?;
    Ok(frame)
}
