//! A run by steps.
ghost use Rattle.std.specs.Prelude.{◌≡◌, ◌≢◌, [], false, Err, IfOk, OnOk};
ghost use Rattle.ls_desk.specs.Stands.{IsSound};
ghost use Rattle.ls_frame.specs.Feeds.{contents_of};
ghost use Rattle.ls_frame.specs.Frames.{Stream};
ghost use Rattle.ls_steps.specs.Runs.{Going, IsRun};

use crate::conversation::Conversation;
use ls_desk::Desk;
use ls_frame::{FrameFault, Framer};
use ls_session::Status;
use std::alloc::{AllocError as Memory, Global};

/// A step of a run.
#[derive(Clone, Copy, Debug, PartialEq, Eq)]
pub enum Step {
    /// The next whole frame is heard. Where bytes stand in its place that are no frame, the session ends by that fault.
    Message,
    /// The worker takes the queued job with the least ticket.
    Take,
    /// The worker runs one of the jobs that it holds, counted from 0, and hands it in.
    Finish(usize),
    /// What is to be said first is written.
    Send,
}

/// What a run leaves.
#[derive(Drop)]
pub struct Run {
    /// The frames that were written.
    pub bytes: Vec<u8>,
    /// The desk, as the session leaves it.
    pub desk: Desk,
    /// How the session ended. None where it goes on.
    pub status: Option<Status>,
}

/// Whether memory was refused to the framer.
fn is_memory(fed: &Result<usize, FrameFault>) -> bool
    ensures { result ≡ false → fed.now ≢ Err FrameFault.Memory }
{
    match fed {
        Err(FrameFault::Memory) => true,
        Ok(_) | Err(_) => false,
    }
}

/// Takes all of an input, and appends the contents of its whole frames. What is wrong behind them the framer's end says.
fn feed_all(framer: &mut Framer, input: &[u8], bodies: &mut Vec<Vec<u8>>) -> Result<(), Memory>
    requires start { framer.old ≡ [] }
    requires none { bodies.old.items ≡ [] }
    ensures { OnOk result (Stream input.now (contents_of bodies.new.items) framer.new) }
{
    let fed = framer.feed(input, bodies);
    if is_memory(&fed) {
        return Err(Memory);
    }
    Ok(())
}

/// Runs a session by steps, over all that its client sends. What each step does is a method of [`Conversation`]; a Message with no frame
/// left does nothing, but where bytes stand behind the last frame that are none: these end the session. The session has the limits of
/// [`Conversation::new`], and its desk the base and the journal that the steps lead to.
///
/// # Errors
///
/// Where an allocation is refused, but in a job itself.
pub fn run_steps(alloc: Global, input: &[u8], steps: &[Step]) -> Result<Run, Memory>
    ensures run { IfOk result (λ run. (h : Going) × IsRun input.now steps.now h run.bytes.items × (run.desk.base ≡ h.base) × (run.desk.journal ≡ h.journal) × (run.status ≡ h.status)) }
    ensures sound { IfOk result (λ run. IsSound run.desk × (run.desk.max_events ≡ 18446744073709551614)) }
{
    let mut framer = Framer::new(alloc);
    let mut bodies = Vec::new(alloc);
    feed_all(&mut framer, input, &mut bodies)?;
    let end = framer.end();
    let mut talk = Conversation::new(alloc);
    let mut bytes = Vec::new(alloc);
    let mut read = 0;
    for step in steps {
        match step {
            Step::Message => {
                if read < bodies.len() {
                    talk.hear(&bodies[read])?;
                    read += 1;
                } else if let Err(fault) = &end {
                    talk.break_off(*fault);
                }
            }
            Step::Take => {
                talk.take()?;
            }
            Step::Finish(at) => talk.finish(*at)?,
            Step::Send => {
                if let Some(frame) = talk.send()? {
                    bytes.extend_from_slice(&frame)?;
                }
            }
        }
    }
    let status = talk.status();
    Ok(Run {
        bytes,
        desk: talk.into_desk(),
        status,
    })
}
