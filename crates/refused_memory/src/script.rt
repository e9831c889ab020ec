//! The session.

use crate::call::Call;

pub const SCRIPT: [Call; 54] = [
    Call::Open("a = \"x\""),
    Call::Take,
    Call::Finish,
    Call::NextOut,
    // A hover is for the text that it was asked about, whatever comes between.
    Call::Hover(2),
    Call::Take,
    Call::Change("a = \"yy\""),
    Call::Finish,
    // A change ends a rename, and the findings of the text that goes. Both have been taken.
    Call::Take,
    Call::Rename(3),
    Call::Take,
    Call::Change("a = \"zzz\""),
    Call::Finish,
    Call::Finish,
    // A cancel ends a request.
    Call::Symbols(4),
    Call::Cancel(4),
    Call::Cancel(4),
    // A job that is given back is the next one again.
    Call::Take,
    Call::GiveBack,
    Call::Take,
    Call::Finish,
    Call::Say,
    // Refused: the id waits, and no document is open.
    Call::Symbols(5),
    Call::Symbols(5),
    Call::Close,
    Call::Close,
    Call::Take,
    Call::Finish,
    Call::NextOut,
    Call::NextOut,
    Call::NextOut,
    Call::NextOut,
    Call::NextOut,
    Call::NextOut,
    Call::NextOut,
    // The journal begins anew with an open, over what a closed document left.
    Call::Open("a = \"w\""),
    Call::Hover(6),
    Call::Rename(7),
    Call::Take,
    // It does with a change, over a document and three jobs, one of which is taken. The change ends that one and the rename.
    Call::Change("a = \"vv\""),
    Call::Finish,
    Call::Take,
    Call::GiveBack,
    Call::Take,
    // It does with a close, over a document, two jobs and a reply. The hover waits on.
    Call::Close,
    Call::Cancel(6),
    Call::Finish,
    Call::NextOut,
    Call::Say,
    // It does with an open, over two replies.
    Call::Open(""),
    Call::NextOut,
    Call::NextOut,
    Call::Close,
    Call::NextOut,
];
