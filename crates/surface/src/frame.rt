//! `ls_frame`: frames of the base protocol.

use ls_frame::{FrameFault, Framer};
use std::alloc::{AllocError, Global};

pub fn framer(alloc: Global) -> Framer {
    Framer::new(alloc)
}

pub fn feed(
    framer: &mut Framer,
    piece: &[u8],
    out: &mut Vec<Vec<u8>>,
) -> Result<usize, FrameFault> {
    framer.feed(piece, out)
}

pub fn end(framer: &Framer) -> Result<(), FrameFault> {
    framer.end()
}

pub fn write_frame(alloc: Global, body: &[u8], out: &mut Vec<u8>) -> Result<(), FrameFault> {
    ls_frame::write_frame(alloc, body, out)
}

pub fn frame_around(alloc: Global, body: Vec<u8>) -> Result<Vec<u8>, AllocError> {
    ls_frame::frame_around(alloc, body)
}

pub const FRAME_FAULTS: [FrameFault; 8] = [
    FrameFault::HeaderTooLong,
    FrameFault::BadHeader,
    FrameFault::NoLength,
    FrameFault::TwoLengths,
    FrameFault::BadLength,
    FrameFault::TooLarge,
    FrameFault::Truncated,
    FrameFault::Memory,
];

pub fn frame_fault_number(fault: FrameFault) -> u8 {
    match fault {
        FrameFault::HeaderTooLong => 1,
        FrameFault::BadHeader => 2,
        FrameFault::NoLength => 3,
        FrameFault::TwoLengths => 4,
        FrameFault::BadLength => 5,
        FrameFault::TooLarge => 6,
        FrameFault::Truncated => 7,
        FrameFault::Memory => 8,
    }
}
