//! The reader of frames.
ghost use Rattle.std.specs.Prelude.{◌≡◌, ◌≤◌, [], ◌++◌, length, drop, List, ℕ};
ghost use Rattle.ls_frame.specs.Faults.{fault_of};
ghost use Rattle.ls_frame.specs.Feeds.{contents_of, FeedIs, EndIs, GoesOn, SoFar};

use super::front::{Rest, Taken, take_frames};
use crate::fault::FrameFault;
use std::alloc::Global;
use std::marker::Model;

/// The bytes for which a framer keeps room while it waits for a frame: as many as one read brings.
const KEPT_ROOM: usize = 65_536;

/// Takes a stream of bytes in pieces, and gives the contents of its frames (LSP 3.17, "Base Protocol").
///
/// Contracts see the rest of the stream: the bytes that have come behind the last whole frame.
#[derive(Drop)]
pub struct Framer {
    alloc: Global,
    pending: Vec<u8>,
    rest: Rest,
}

impl Model for Framer {
    ghost use Rattle.std.specs.Prelude.{List, ℕ};
    ghost use Rattle.ls_frame.specs.own.Rests.{RestIs};

    ghost Value = { List ℕ };

    ghost view = { λ f. f.pending.items };

    ghost invariant = { λ f. RestIs f.pending.items f.rest };
}

/// Drops the first bytes. The room that a large frame took isn't kept for small ones.
fn drop_front(bytes: &mut Vec<u8>, count: usize)
    requires { count ≤ length bytes.old.items }
    ensures { bytes.new.items ≡ drop count bytes.old.items }
{
    if count > 0 {
        bytes.drain(..count);
        bytes.shrink_to(KEPT_ROOM);
    }
}

/// Makes room for the frame that the bytes begin, if memory allows; without it the bytes grow by and by.
fn make_room(bytes: &mut Vec<u8>, wanted: usize)
    ensures { bytes.new.items ≡ bytes.old.items }
{
    let had = bytes.len();
    if had < wanted {
        let _made = bytes.reserve(wanted - had);
    }
}

impl Framer {
    /// A framer at the start of a stream, to which no byte has come. It takes no memory.
    pub fn new(alloc: Global) -> Framer
        ensures { result ≡ [] }
    {
        Framer {
            alloc,
            pending: Vec::new(alloc),
            rest: Rest::Open(0),
        }
    }

    /// Takes the next piece of the stream, appends to `out` the content of each frame that is whole now, and answers how
    /// many those are.
    ///
    /// Over all pieces the contents given so far are those of all bytes so far as one stream, however they were cut into
    /// pieces. Time goes by the bytes of the piece and of what is held of an unfinished frame. A header part is read
    /// again from its start with each piece, as far as its 4,096 bytes; of a content that isn't whole only the number of
    /// its bytes is looked at.
    ///
    /// # Errors
    ///
    /// The fault of the stream, by the call whose piece shows it, once the contents of the frames before it have been
    /// appended, and by each later call. It is the least one that the shortest front of the stream that shows any shows.
    /// `Memory` where an allocation is refused, which comes only where no fault has been shown. After it the piece hasn't
    /// been taken: the framer and `out` are as before. `Truncated` is [`end`](Framer::end)'s alone.
    #[tactic(none)]
    pub fn feed(&mut self, piece: &[u8], out: &mut Vec<Vec<u8>>) -> Result<usize, FrameFault>
        ensures taken { FeedIs self.old piece.now (contents_of out.old.items) result self.new (contents_of out.new.items) }
        ensures stream { (seen : List ℕ) (given : List (List ℕ)) → SoFar seen given self.old
            → GoesOn seen given piece.now (contents_of out.old.items) result self.new (contents_of out.new.items) }
    {
        let wanted = match self.rest {
            Rest::Faulty(fault) => return Err(fault),
            Rest::Open(wanted) => wanted,
        };
        let had = self.pending.len();
        if self.pending.extend_from_slice(piece).is_err() {
            return Err(FrameFault::Memory);
        }
        if self.pending.len() < wanted {
            return Ok(0);
        }
        let Ok(Taken { count, used, rest }) = take_frames(self.alloc, &self.pending, out) else {
            self.pending.truncate(had);
            return Err(FrameFault::Memory);
        };
        drop_front(&mut self.pending, used);
        self.rest = rest;
        match rest {
            Rest::Faulty(fault) => Err(fault),
            Rest::Open(wanted) => {
                make_room(&mut self.pending, wanted);
                Ok(count)
            }
        }
    }

    /// Whether the stream may end here. Nothing is read again.
    ///
    /// # Errors
    ///
    /// The fault that the stream has shown, or `Truncated` where a frame has begun and isn't whole. No memory is asked
    /// for.
    pub fn end(&self) -> Result<(), FrameFault>
        ensures { EndIs (fault_of self.now) self.now result }
    {
        match self.rest {
            Rest::Faulty(fault) => Err(fault),
            Rest::Open(_) if self.pending.is_empty() => Ok(()),
            Rest::Open(_) => Err(FrameFault::Truncated),
        }
    }
}
