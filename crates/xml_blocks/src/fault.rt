//! What can be wrong with a draft in RFCXML.

ghost use Rattle.std.specs.Prelude.{◌≡◌};
ghost use Rattle.xml_blocks.specs.Faults.{fault_offset, fault_words};

use std::alloc::AllocError;
use thiserror::Error;

/// Why the grammar of a draft could not be gathered. Each offset counts characters of the draft.
#[derive(Clone, Copy, Debug, Drop, PartialEq, Eq, Error)]
pub enum XmlFault {
    /// The start tag here begins a block of ABNF whose end tag doesn't come.
    #[error("this block of ABNF has no end tag")]
    BlockWithoutEnd(usize),
    /// The comment that begins here has no `-->`.
    #[error("this comment has no end")]
    CommentWithoutEnd(usize),
    /// The CDATA section that begins here has no `]]>`.
    #[error("this CDATA section has no end")]
    SectionWithoutEnd(usize),
    /// The tag that begins here has no `>`.
    #[error("this tag has no end")]
    TagWithoutEnd(usize),
    /// The `&` here begins none of the references that a block of ABNF may have.
    #[error("this is no reference to a character")]
    BadReference(usize),
    /// An allocation was refused.
    #[error("out of memory")]
    Memory,
}

impl XmlFault {
    /// The offset of the draft at which it stands, in characters; 0 of [`Memory`](XmlFault::Memory).
    pub fn offset(self) -> usize
        ensures { result ≡ fault_offset self }
    {
        match self {
            XmlFault::BlockWithoutEnd(at) => at,
            XmlFault::CommentWithoutEnd(at) => at,
            XmlFault::SectionWithoutEnd(at) => at,
            XmlFault::TagWithoutEnd(at) => at,
            XmlFault::BadReference(at) => at,
            XmlFault::Memory => 0,
        }
    }

    /// What it is, in a few words.
    pub fn words(self) -> &'static str
        ensures { result.now ≡ fault_words self }
    {
        match self {
            XmlFault::BlockWithoutEnd(_) => "block without an end tag",
            XmlFault::CommentWithoutEnd(_) => "comment without an end",
            XmlFault::SectionWithoutEnd(_) => "CDATA section without an end",
            XmlFault::TagWithoutEnd(_) => "tag without an end",
            XmlFault::BadReference(_) => "no reference to a character",
            XmlFault::Memory => "out of memory",
        }
    }
}

impl From<AllocError> for XmlFault {
    ghost use Rattle.std.specs.Prelude.{◌≡◌};
    ghost use Rattle.xml_blocks.specs.declared.fault.XmlFault.TheVariants.{Memory};

    ghost from_gives = { λ _ r. r ≡ Memory };

    /// A refused allocation is `Memory`.
    fn from(_: AllocError) -> XmlFault {
        XmlFault::Memory
    }
}
