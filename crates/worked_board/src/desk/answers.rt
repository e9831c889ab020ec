//! Answers for the text that was asked about, whatever has happened since.

use super::steps::{finish, leaves, on_each_desk, opened, sends_failure, take, tells_findings};
use abnf_least::Shortest;
use ls_answers::{Answer, Done};
use ls_desk::{Desk, DeskFault, Kept, Out};
use one_document::{change, hover, open, rename};
use std::alloc::Global;
use std::test::Fail;

fn is_findings_alone(desk: &mut Desk, alloc: Global) -> Result<bool, DeskFault> {
    let version = open(desk, alloc, "a = \"x\"")?;
    let waits = desk.wanted(1);
    let told = tells_findings(desk, alloc, 1)?;
    Ok(version == 1 && waits && told && !desk.wanted(1) && desk.unsent() == 0)
}

#[test]
fn an_open_text_has_findings(rt: HostRuntime) -> Result<(), Fail> {
    assert!(rt; on_each_desk(rt.alloc(), is_findings_alone)?);
    Ok(())
}

fn is_one_letter(shortest: &Shortest, letter: u32) -> bool {
    match shortest {
        Shortest::Shown { length, text } => {
            *length == 1 && matches!(text.as_slice(), [only] if *only == letter)
        }
        _ => false,
    }
}

/// Whether the example of a hover is this letter alone.
pub(crate) fn shows(done: &Done, letter: u32) -> bool {
    match done.answer() {
        Ok(Answer::Hover(Some(hover))) => match &hover.example {
            Some((shortest, _)) => is_one_letter(shortest, letter),
            None => false,
        },
        _ => false,
    }
}

/// Whether the oldest reply is a hover about this version whose example is this letter. It leaves.
pub(crate) fn sends_hover(desk: &mut Desk, want: u64, letter: u32) -> bool {
    let right = match desk.out_at(0) {
        Some(Out::Replied { version, done, .. }) => *version == want && shows(done, letter),
        _ => false,
    };
    right && leaves(desk)
}

/// A hover is taken, the text is changed, and only then the hover is finished.
pub(crate) fn hovers_over_a_change(desk: &mut Desk, alloc: Global) -> Result<bool, DeskFault> {
    let begun = opened(desk, alloc)? && hover(desk, alloc, 2)? == 2;
    let job = take(desk)?;
    let changed = change(desk, alloc, "a = \"yy\"");
    let kept = finish(desk, alloc, job);
    Ok(begun && changed? == Some(2) && kept? == Kept::Reply && sends_hover(desk, 1, 120))
}

// A hover over a change, and then the findings of that change.
fn hovers_and_tells(desk: &mut Desk, alloc: Global) -> Result<bool, DeskFault> {
    Ok(hovers_over_a_change(desk, alloc)? && tells_findings(desk, alloc, 3)?)
}

#[test]
fn a_hover_is_for_its_own_text(rt: HostRuntime) -> Result<(), Fail> {
    assert!(rt; on_each_desk(rt.alloc(), hovers_and_tells)?);
    Ok(())
}

// A rename is taken, and a change ends it, which is answered at once.
fn ends(desk: &mut Desk, alloc: Global) -> Result<bool, DeskFault> {
    let begun = opened(desk, alloc)? && rename(desk, alloc, 3)? == 2;
    let job = take(desk)?;
    let changed = change(desk, alloc, "a = \"z\"");
    let one = desk.unsent() == 1 && sends_failure(desk, 2, 3, -32801);
    let unknown = finish(desk, alloc, job) == Err(DeskFault::UnknownTicket);
    Ok(begun && changed? == Some(2) && one && unknown && desk.unsent() == 0)
}

#[test]
fn a_change_ends_a_rename(rt: HostRuntime) -> Result<(), Fail> {
    assert!(rt; on_each_desk(rt.alloc(), ends)?);
    Ok(())
}

fn drops_the_findings(desk: &mut Desk, alloc: Global) -> Result<bool, DeskFault> {
    open(desk, alloc, "a = \"x\"")?;
    change(desk, alloc, "a = \"y\"")?;
    let gone = !desk.wanted(1);
    Ok(gone && tells_findings(desk, alloc, 2)? && desk.counts().client == 2)
}

#[test]
fn a_change_drops_the_findings(rt: HostRuntime) -> Result<(), Fail> {
    assert!(rt; on_each_desk(rt.alloc(), drops_the_findings)?);
    Ok(())
}
