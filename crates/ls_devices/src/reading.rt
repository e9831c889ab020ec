//! What reads an input: it cuts what comes into frames, and a listener hears the message in each.
ghost use Rattle.std.specs.Prelude.{◌≡◌, ◌<◌, ℕ, List, length, Option, None, IfErr, IfNone, IfOk, false, true};
ghost use Rattle.ls_frame.specs.Feeds.{contents_of};
ghost use Rattle.ls_frame.specs.Faults.{fault_of};
ghost use Rattle.ls_frame.specs.Frames.{HasNoFrame};
ghost use Rattle.ls_devices.specs.Ends.{end_status, has_cause};
ghost use Rattle.ls_devices.specs.Reading.{HearsAll, HearsPrefix, HearsInput, IsRefusal};
ghost use Rattle.ls_devices.specs.own.Pieces.{HearsPiece, IsEndOfPiece};
ghost use Rattle.ls_session.specs.declared.turn.Status.{Status};

use crate::device::{DeviceFault, Source};
use crate::fault::READ_MOST;
use ls_frame::{FrameFault, Framer};
use ls_session::Status;
use std::alloc::{AllocError, Global};

/// Hears the messages of an input, one after the other.
pub trait Listener {
    /// Why it breaks off. That an allocation was refused is a reason too.
    type Fault: From<AllocError>;

    // What it must be to hear a message. It is so again behind each one that isn't an exit.
    ghost is_ready: { Self → Type 0 };

    // A message is heard by its body: what it is before, the status of an exit, and what it is then.
    ghost hears: { List ℕ → Self → Option Status → Self → Type 0 };

    // It breaks off within a message: what it is before, why, and what it is then.
    ghost breaks: { List ℕ → Self → Self.Fault → Self → Type 0 };

    /// Hears a message by its body, and answers the status of an exit.
    ///
    /// # Errors
    ///
    /// Where it breaks off.
    fn hear(&mut self, body: &[u8]) -> Result<Option<Status>, Self::Fault>
        requires { is_ready self.old }
        ensures ok { IfOk result (λ status. hears body.now self.old status self.new) }
        ensures ready { IfOk result (λ status. IfNone status (is_ready self.new)) }
        ensures err { IfErr result (λ fault. breaks body.now self.old fault self.new) };
}

/// How the reading of an input ended.
#[derive(Clone, Copy, Debug, Drop, PartialEq, Eq)]
pub enum ReaderEnd<F> {
    /// By an exit, the end of the input or a framing fault.
    Ended(Status),
    /// The source failed, or was read as often as it may be.
    Failed,
    /// The listener broke off, or an allocation was refused.
    Broken(F),
}

/// The status where the input ends here.
fn at_end(framer: &Framer) -> Status
    ensures { result ≡ end_status (fault_of framer.now) framer.now }
{
    match framer.end() {
        Ok(()) => Status::Unclean,
        Err(fault) => Status::BadFrame(fault),
    }
}

/// What a fed piece means for the reader, once its messages have been heard.
fn end_of_piece<F: From<AllocError>>(fed: Result<usize, FrameFault>) -> Result<Option<Status>, F>
    ensures { IsEndOfPiece (IsRefusal F.from_gives) fed result }
{
    match fed {
        Ok(_) => Ok(None),
        Err(FrameFault::Memory) => Err(F::from(AllocError)),
        Err(fault) => Ok(Some(Status::BadFrame(fault))),
    }
}

/// Hears the messages with these bodies in order, up to an exit.
fn hear_all<L: Listener>(listener: &mut L, bodies: &[Vec<u8>]) -> Result<Option<Status>, L::Fault>
    requires { L.is_ready listener.old }
    ensures ok { IfOk result (λ status. HearsAll L.hears (contents_of bodies.now) listener.old status listener.new) }
    ensures ready { IfOk result (λ status. IfNone status (L.is_ready listener.new)) }
    ensures err { IfErr result (λ fault. HearsPrefix L.hears L.breaks (IsRefusal L.Fault.from_gives) fault (contents_of bodies.now) listener.old listener.new) }
{
    for body in bodies {
        if let Some(status) = listener.hear(body)? {
            return Ok(Some(status));
        }
    }
    Ok(None)
}

/// Takes a piece of the input and hears the messages that it completes. An exit and a framing fault have a status.
fn take_piece<L: Listener>(
    alloc: Global,
    framer: &mut Framer,
    listener: &mut L,
    piece: &[u8],
) -> Result<Option<Status>, L::Fault>
    requires partial { HasNoFrame framer.old }
    requires good { fault_of framer.old ≡ None }
    requires ready { L.is_ready listener.old }
    ensures piece { HearsPiece L.hears L.breaks (IsRefusal L.Fault.from_gives) framer.old piece.now listener.old result framer.new listener.new }
    ensures ready { IfOk result (λ status. IfNone status (L.is_ready listener.new)) }
{
    let mut bodies = Vec::new(alloc);
    let fed = framer.feed(piece, &mut bodies);
    match hear_all(listener, &bodies)? {
        Some(status) => Ok(Some(status)),
        None => end_of_piece(fed),
    }
}

/// Reads and hears by this buffer. The loop stands apart from where its buffer is made for the prover's time alone. Both have all their
/// answers written, so that what doesn't hold is refused at once.
#[tactic(none)]
fn read_with<I: Source, L: Listener>(
    alloc: Global,
    source: &mut I,
    listener: &mut L,
    buffer: &mut [u8],
    reads: u64,
) -> ReaderEnd<L::Fault>
    requires none { I.reads source.old ≡ 0 }
    requires good { I.failed source.old ≡ false }
    requires ready { L.is_ready listener.old }
    requires room { 0 < length buffer.old }
    requires some { 0 < reads }
    ensures cause { has_cause result (I.failed source.new) (I.reads source.new) reads ≡ true }
    ensures heard { HearsInput L.hears L.breaks (IsRefusal L.Fault.from_gives) (I.remaining source.old) (I.remaining source.new) listener.old result listener.new }
{
    let mut framer = Framer::new(alloc);
    for i in 1..reads {
        let _ = i;
        let count = match source.read(buffer) {
            Ok(count) => count,
            Err(DeviceFault::Interrupted) => continue,
            Err(DeviceFault::Failed) => return ReaderEnd::Failed,
        };
        if count == 0 {
            return ReaderEnd::Ended(at_end(&framer));
        }
        match take_piece(alloc, &mut framer, listener, &buffer[..count]) {
            Ok(None) => {}
            Ok(Some(status)) => return ReaderEnd::Ended(status),
            Err(fault) => return ReaderEnd::Broken(fault),
        }
    }
    ReaderEnd::Failed
}

/// Reads an input up to an exit, its end or a fault, and lets the listener hear each message as soon as its frame is whole. The read with
/// the number `reads` isn't made: it counts as one that failed.
#[tactic(none)]
pub fn listen<I: Source, L: Listener>(
    alloc: Global,
    source: &mut I,
    listener: &mut L,
    reads: u64,
) -> ReaderEnd<L::Fault>
    requires none { I.reads source.old ≡ 0 }
    requires good { I.failed source.old ≡ false }
    requires ready { L.is_ready listener.old }
    requires some { 0 < reads }
    ensures cause { has_cause result (I.failed source.new) (I.reads source.new) reads ≡ true }
    ensures heard { HearsInput L.hears L.breaks (IsRefusal L.Fault.from_gives) (I.remaining source.old) (I.remaining source.new) listener.old result listener.new }
{
    let mut buffer = match vec![in alloc; 0u8; READ_MOST] {
        Ok(buffer) => buffer,
        Err(refused) => return ReaderEnd::Broken(refused.into()),
    };
    read_with(alloc, source, listener, &mut buffer, reads)
}
