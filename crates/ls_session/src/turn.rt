//! What a message of the client comes to.

use ls_frame::FrameFault;
use ls_machine::ClientEvent;

/// How a session ended.
#[derive(Clone, Copy, Debug, Drop, PartialEq, Eq)]
pub enum Status {
    /// By `exit` after `shutdown`.
    Clean,
    /// By `exit` without `shutdown`, or by the end of the input before any `exit`.
    Unclean,
    /// By bytes that are no frames.
    BadFrame(FrameFault),
    /// By as many events as a session may have.
    Full,
}

/// What one message of the client comes to.
#[derive(Drop)]
pub enum Turn {
    /// Nothing is said, and nothing happens at the desk.
    Nothing,
    /// What the client does, or a body that is to be said. Texts and lists are those of `ls_lists`.
    Event(ClientEvent),
    /// The session has ended. No message is read after it.
    Exit(Status),
}
