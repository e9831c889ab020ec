//! A framer behind a fault, and a frame that is written behind other bytes. Streams of frames run through the built program
//! (`STREAMS` of `tools/session_rows.py`).

use ls_frame::{FrameFault, Framer, write_frame};
use std::alloc::{AllocError, Global};

#[test]
fn a_fault_stays(rt: HostRuntime) {
    let mut framer = Framer::new(rt.alloc());
    let mut out = Vec::new(rt.alloc());
    assert!(rt; framer.feed(b"Content-Type: x\r\n\r\n", &mut out) == Err(FrameFault::NoLength));
    assert!(rt; framer.feed(b"Content-Length: 0\r\n\r\n", &mut out) == Err(FrameFault::NoLength));
    assert!(rt; framer.end() == Err(FrameFault::NoLength));
    assert!(rt; out.is_empty());
}

/// Writes a frame behind other bytes, and once more where memory was refused, which leaves them as they were.
fn written(alloc: Global, out: &mut Vec<u8>) -> bool {
    if write_frame(alloc, b"{}", out).is_ok() {
        return true;
    }
    out.as_slice() == b"x".as_slice() && write_frame(alloc, b"{}", out).is_ok()
}

#[test]
fn writes_a_frame(rt: HostRuntime) -> Result<(), AllocError> {
    let mut out = Vec::from_slice(rt.alloc(), b"x")?;
    assert!(rt; written(rt.alloc(), &mut out));
    assert!(rt; out.as_slice() == b"xContent-Length: 2\r\n\r\n{}".as_slice());
    Ok(())
}
