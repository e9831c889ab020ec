//! What of a draft can't be read.

use crate::gathered::Gathered;

/// Why a block of a draft can't be read.
#[derive(Clone, Copy, Debug, PartialEq, Eq)]
pub enum Lack {
    /// Its text is in another file.
    Elsewhere,
    /// It has no text.
    Empty,
    /// Its fence has no word, and all of it is rules.
    BareFence,
    /// Its element has no type, and all of it is rules.
    Untyped,
    /// It begins as a rule does, and not all of it is rules.
    Faulty,
}

/// A block of a draft that can't be read, or a part of one.
#[derive(Clone, Copy, Debug, PartialEq, Eq)]
pub struct Unread {
    /// The offset in the draft at which it begins, in characters.
    pub at: usize,
    /// Why it can't be read.
    pub lack: Lack,
}

/// A block of a draft of which something may have to be said: what that is, and the text that decides it.
#[derive(Drop)]
pub struct Aside {
    /// What may have to be said of it.
    pub unread: Unread,
    /// Its text, where that decides; else nothing.
    pub text: Gathered,
}
