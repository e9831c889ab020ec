//! One message after the other, each answered before the next.
ghost use Rattle.std.specs.Prelude.{◌≡◌, ◌++◌, ℕ, true, IfOk, OnOk};
ghost use Rattle.ls_steps.specs.Plain.{HearsAndRuns, Replies, Serves, Works};

use crate::conversation::Conversation;
use std::alloc::{AllocError as Memory, Global};

/// A frame behind bytes, which is all there is where it is the first.
fn behind(mut bytes: Vec<u8>, frame: Vec<u8>) -> Result<Vec<u8>, Memory>
    ensures { IfOk result (λ all. all.items ≡ bytes.items ++ frame.items) }
{
    if bytes.is_empty() {
        return Ok(frame);
    }
    bytes.extend_from_slice(&frame)?;
    Ok(bytes)
}

impl Conversation {
    /// Hears a message of the client, and runs the jobs that wait, one after the other, until none does or the session is full. What is to
    /// be said then is given by [`Conversation::send`].
    ///
    /// # Errors
    ///
    /// Where an allocation is refused, but in a job itself.
    pub fn meet(&mut self, body: &[u8]) -> Result<(), Memory>
        ensures { OnOk result (HearsAndRuns true self.old body.now self.new) }
    {
        self.hear(body)?;
        self.work()
    }

    /// Hears a message of the client, runs the jobs that wait, one after the other, until none does or the session is full, and gives the
    /// frames of all that is to be said.
    ///
    /// # Errors
    ///
    /// Where an allocation is refused, but in a job itself.
    pub fn serve(&mut self, alloc: Global, body: &[u8]) -> Result<Vec<u8>, Memory>
        ensures { IfOk result (λ bytes. Serves true self.old body.now self.new bytes.items) }
    {
        self.meet(body)?;
        self.send_all(alloc)
    }

    /// Runs the jobs that wait, until none does or the session is full.
    fn work(&mut self) -> Result<(), Memory>
        ensures { OnOk result ((jobs : ℕ) × Works true jobs self.old self.new) }
    {
        'jobs: while self.take()? {
            self.finish(0)?;
        }
        Ok(())
    }

    /// The frames of all that is to be said, which counts as sent from now on.
    fn send_all(&mut self, alloc: Global) -> Result<Vec<u8>, Memory>
        ensures { IfOk result (λ bytes. (replies : ℕ) × Replies true replies self.old self.new bytes.items) }
    {
        let mut bytes = Vec::new(alloc);
        'frames: while let Some(frame) = self.send()? {
            bytes = behind(bytes, frame)?;
        }
        Ok(bytes)
    }
}
