//! What can be wrong with a block.

use ls_text::Place;
use std::alloc::AllocError;
use thiserror::Error;

/// Why a block is no rule, and where, or that memory was refused.
///
/// The end of a block is the empty place after its last item.
#[derive(Clone, Copy, Debug, Drop, PartialEq, Eq, Error)]
pub enum SyntaxFault {
    /// The first item isn't a name; at that item.
    #[error("rule name expected")]
    NoName(Place),
    /// The second item isn't `=` or `=/`, or there is none; at that item, or at the end.
    #[error("\"=\" or \"=/\" expected")]
    NoDefinedAs(Place),
    /// A character that begins no token comes next; at that item.
    #[error("bad character")]
    BadToken(Place),
    /// An element must come and none does; or `=` or `=/` comes after an element; or a closing bracket comes outside all
    /// brackets; at the item that came, or at the end. Or an element doesn't follow a repeat at once; at the repeat.
    #[error("element expected")]
    ElementExpected(Place),
    /// A repetition begins right after another; at its first item.
    #[error("blank expected")]
    BlankExpected(Place),
    /// In a bracket, after an element, the block ends or the other closing bracket comes; at the innermost bracket that
    /// is still open.
    #[error("bracket not closed")]
    Unclosed(Place),
    /// A number of a repeat or of a number is above 4,294,967,295; at that item.
    #[error("number too large")]
    NumberTooLarge(Place),
    /// A bracket would nest 65 deep; at that bracket.
    #[error("brackets nested too deep")]
    TooDeep(Place),
    /// The allocator refused memory.
    #[error("out of memory")]
    Memory,
}

impl From<AllocError> for SyntaxFault {
    ghost use Rattle.std.specs.Prelude.{◌≡◌};
    ghost use Rattle.abnf_syntax.specs.declared.fault.SyntaxFault.TheVariants.{Memory};

    ghost from_gives = { λ _ r. r ≡ Memory };

    /// A refused allocation is `Memory`.
    fn from(_: AllocError) -> SyntaxFault {
        SyntaxFault::Memory
    }
}
