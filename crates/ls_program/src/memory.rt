//! What becomes of memory that is let go.

use std::alloc::Global;

/// The bytes of the largest block that the C library takes for its limit: with its header and rounded up to pages it has just below 32 MiB.
const KEPT_MOST: usize = 33_546_240;

/// Has the C library's allocator keep blocks of up to 32 MiB that are let go, and 64 MiB of freed memory in all, where it would give them
/// back to the system at once and each answer would ask the system for all its memory again: it takes the size of a large block that it
/// gets back for its limit from then on, and twice that for what it keeps (glibc's `mallopt`, `M_MMAP_THRESHOLD` and `M_TRIM_THRESHOLD`).
/// No byte of that block is touched. Where it is refused, memory is as it was. No clause says this.
pub fn keep_freed_blocks(alloc: Global) {
    if let Ok(block) = Vec::<u8>::with_capacity(alloc, KEPT_MOST) {
        drop(block);
    }
}
