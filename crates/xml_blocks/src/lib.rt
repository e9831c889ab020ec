//! The blocks of ABNF in a draft in RFCXML.
//!
//! They are the elements `sourcecode` and `artwork` of RFC 7991 whose attribute `type` is `abnf`. Of XML 1.0 only what can hide the end
//! of such a block, or a character of it, is looked at: comments, CDATA sections, tags and references.
#![tactic(auto)]

mod fault;
mod gather;
mod piece;
mod reference;
mod tag;
mod text;
mod unread;
mod untyped;

pub use fault::XmlFault;
pub use gather::{XmlFront, gather_front, gather_xml};
pub use reference::reference_len;
pub use unread::unread_blocks;
