//! Digests of blocks, as they are kept.

/// The head of a block: the number of its name in a table, and whether `=/` follows it.
#[derive(Clone, Copy)]
pub struct HeadNumber {
    pub name: u32,
    pub adds: bool,
}

/// The digest of a block: its head, if it has one, and where the words of the gists of its alternatives stand in a list of words. Beside it
/// stand the block's lines, and whether it has findings of its own, whatever other blocks say.
#[derive(Clone, Copy)]
pub struct BlockDigest {
    pub head: Option<HeadNumber>,
    pub start: u32,
    pub end: u32,
    /// The block's first line.
    pub first: u32,
    /// The line behind its last one.
    pub behind: u32,
    pub has_own: bool,
}
