//! Each reply of a run against what had to be said.
ghost use Rattle.std.specs.Prelude.{◌<◌, ◌≤◌};

use super::frames::{bodies, frame, frames, input};
use super::messages::{Question, Said, Version, is_for_edits};
use super::schedule::steps;
use super::{client, plain};
use ls_steps::{Conversation, Run, Step, run_steps};
use std::alloc::{AllocError, Global};
use std::test::Fail;

/// How many sessions there are, and how many messages in each.
const SESSIONS: u64 = 100;

const MESSAGES: usize = 40;

/// How many replies of each kind a run has written.
#[derive(Clone, Copy)]
struct Tally {
    /// Those that a plain session gives.
    plain: usize,
    /// Of these, those to a request whose document has changed since.
    overtaken: usize,
    modified: usize,
    cancelled: usize,
    findings: usize,
}

const NONE: Tally = Tally {
    plain: 0,
    overtaken: 0,
    modified: 0,
    cancelled: 0,
    findings: 0,
};

impl Tally {
    fn and(self, other: Tally) -> Tally {
        Tally {
            plain: self.plain.saturating_add(other.plain),
            overtaken: self.overtaken.saturating_add(other.overtaken),
            modified: self.modified.saturating_add(other.modified),
            cancelled: self.cancelled.saturating_add(other.cancelled),
            findings: self.findings.saturating_add(other.findings),
        }
    }

    fn replies(self) -> usize {
        self.plain
            .saturating_add(self.modified)
            .saturating_add(self.cancelled)
    }

    fn frames(self) -> usize {
        self.replies().saturating_add(self.findings)
    }
}

// What a run writes by these steps.
fn written(alloc: Global, input: &[u8], steps: &[Step]) -> Result<Vec<u8>, AllocError> {
    let Run { bytes, desk, .. } = run_steps(alloc, input, steps)?;
    drop(desk);
    Ok(bytes)
}

// Makes a step, where so many of the bodies have been heard.
fn act(
    talk: &mut Conversation,
    bodies: &[Vec<u8>],
    read: &mut usize,
    step: Step,
    bytes: &mut Vec<u8>,
) -> Result<(), AllocError> {
    match step {
        Step::Message => {
            if let Some(body) = bodies.get(*read) {
                talk.hear(body.as_slice())?;
                *read = read.saturating_add(1);
            }
        }
        Step::Take => {
            talk.take()?;
        }
        Step::Finish(at) => talk.finish(at)?,
        Step::Send => {
            if let Some(frame) = talk.send()? {
                bytes.extend_from_slice(&frame)?;
            }
        }
    }
    Ok(())
}

// What a session writes by these steps.
fn acted(
    talk: &mut Conversation,
    alloc: Global,
    bodies: &[Vec<u8>],
    steps: &[Step],
) -> Result<Vec<u8>, AllocError> {
    let mut bytes = Vec::new(alloc);
    let mut read = 0;
    for step in steps {
        act(talk, bodies, &mut read, *step, &mut bytes)?;
    }
    Ok(bytes)
}

// How many events the journal of a session may have before it begins anew: 1 to 4.
fn longest(seed: u64) -> usize
    ensures { (0 < result) × (result ≤ 1000000) }
{
    (seed % 4) as usize + 1
}

// What a run writes by these steps, by a journal that begins anew once it has so many events.
fn written_anew(
    alloc: Global,
    input: &[u8],
    steps: &[Step],
    seed: u64,
) -> Result<Vec<u8>, AllocError> {
    let bodies = bodies(alloc, input);
    let mut talk = Conversation::with_journal(alloc, longest(seed));
    let bytes = acted(&mut talk, alloc, &bodies, steps);
    drop(talk);
    bytes
}

// How many of the frames are this one.
fn count(frames: &[Vec<u8>], wanted: &[u8]) -> usize {
    let mut count: usize = 0;
    for frame in frames {
        if frame.as_slice() == wanted {
            count = count.saturating_add(1);
        }
    }
    count
}

fn ends_text(later: &[Said], document: u32) -> bool {
    later.iter().any(|said| match said {
        Said::Changed(version, _) => version.document == document,
        Said::Closed(closed) => *closed == document,
        Said::Opened(_) | Said::Asked(_, _) | Said::Cancelled(_) => false,
    })
}

fn cancels(later: &[Said], id: u64) -> bool {
    later.iter().any(|said| match said {
        Said::Cancelled(cancelled) => *cancelled == id,
        _ => false,
    })
}

// How many of the frames say that a request has failed so.
fn failures(
    alloc: Global,
    frames: &[Vec<u8>],
    id: u64,
    code: i32,
    message: &str,
) -> Result<usize, AllocError> {
    let body = format!(in alloc;
        r#"{{"error":{{"code":{code},"message":"{message}"}},"id":{id},"jsonrpc":"2.0"}}"#
    )?;
    let frame = frame(alloc, body.as_bytes())?;
    Ok(count(frames, &frame))
}

// The replies to a request about this text that are right, where all this has been said later.
fn replies(
    alloc: Global,
    frames: &[Vec<u8>],
    question: Question,
    version: Option<Version>,
    later: &[Said],
) -> Result<Tally, AllocError> {
    let plain = plain::reply(alloc, question, version)?;
    let mut tally = NONE;
    tally.plain = count(frames, &plain);
    let is_ended = ends_text(later, question.document);
    if is_ended {
        tally.overtaken = tally.plain;
    }
    if is_ended && is_for_edits(question) {
        tally.modified = failures(alloc, frames, question.id, -32801, "content modified")?;
    }
    if cancels(later, question.id) {
        tally.cancelled = failures(alloc, frames, question.id, -32800, "request cancelled")?;
    }
    Ok(tally)
}

// How many of the frames are the findings of a text.
fn findings(alloc: Global, frames: &[Vec<u8>], version: Version) -> Result<Tally, AllocError> {
    let plain = plain::findings(alloc, version)?;
    let mut tally = NONE;
    tally.findings = count(frames, &plain);
    Ok(tally)
}

// What is right of what is told of a message, and none where it is told too often, or not at all though it must.
fn told(
    alloc: Global,
    frames: &[Vec<u8>],
    said: Said,
    later: &[Said],
) -> Result<Option<Tally>, AllocError> {
    match said {
        Said::Opened(version) | Said::Changed(version, _) => {
            let tally = findings(alloc, frames, version)?;
            let may_be_none = ends_text(later, version.document);
            let is_right = tally.findings == 1 || (tally.findings == 0 && may_be_none);
            Ok(is_right.then_some(tally))
        }
        Said::Asked(question, version) => {
            let tally = replies(alloc, frames, question, version, later)?;
            Ok((tally.replies() == 1).then_some(tally))
        }
        Said::Closed(_) | Said::Cancelled(_) => Ok(Some(NONE)),
    }
}

// What is told of all messages, and none where that of one is wrong.
fn all_told(alloc: Global, frames: &[Vec<u8>], said: &[Said]) -> Result<Option<Tally>, AllocError> {
    let mut all = NONE;
    for at in 0..said.len() {
        match told(alloc, frames, said[at], &said[at + 1..])? {
            Some(tally) => all = all.and(tally),
            None => return Ok(None),
        }
    }
    Ok(Some(all))
}

// The frames that a run writes by random steps, over all that the client says. There is none where it writes others by a short journal.
fn run(alloc: Global, said: &[Said], seed: u64) -> Result<Vec<Vec<u8>>, AllocError> {
    let input = input(alloc, said)?;
    let steps = steps(alloc, seed, MESSAGES + 1)?;
    let bytes = written(alloc, &input, &steps)?;
    let anew = written_anew(alloc, &input, &steps, seed)?;
    if anew.as_slice() != bytes.as_slice() {
        return Ok(Vec::new(alloc));
    }
    frames(alloc, &bytes)
}

// Whether these are the reply to `initialize` and so many frames behind it.
fn are_all(alloc: Global, frames: &[Vec<u8>], rest: usize) -> Result<bool, AllocError> {
    let first = plain::capabilities(alloc)?;
    Ok(frames.len() == rest.saturating_add(1) && count(frames, &first) == 1)
}

// What the session with this number is told, and none where that is wrong.
fn judged(alloc: Global, seed: u64) -> Result<Option<Tally>, AllocError> {
    let said = client::said(alloc, seed, MESSAGES)?;
    let frames = run(alloc, &said, seed)?;
    let Some(tally) = all_told(alloc, &frames, &said)? else {
        return Ok(None);
    };
    let is_all = are_all(alloc, &frames, tally.frames())?;
    Ok(is_all.then_some(tally))
}

#[test]
fn each_reply_is_for_the_text_that_was_asked_about(rt: HostRuntime) -> Result<(), Fail> {
    let mut all = NONE;
    for seed in 0..SESSIONS {
        match judged(rt.alloc(), seed)? {
            Some(tally) => all = all.and(tally),
            None => panic!(rt; "the session with the seed {seed}"),
        }
    }
    assert!(rt; all.overtaken > 1_000 && all.modified > 300 && all.cancelled > 100);
    assert!(rt; all.plain > all.overtaken && all.findings > 300);
    Ok(())
}
