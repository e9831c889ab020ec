//! Runs that are strange to a desk come back whole, and the own one is taken once.

use super::answers::{sends_hover, shows};
use super::steps::{finish, job_of, on_each_desk, opened, take};
use ls_answers::{Ask, Done, Job, run};
use ls_desk::{Desk, DeskFault, Kept};
use ls_text::{Encoding, Position};
use one_document::hover;
use std::alloc::Global;
use std::test::Fail;

const TEXT: &str = "a = \"x\"";

const OTHER_TEXT: &str = "a = \"y\"";

/// A run of a hover on the first line: its ticket, its text, the character that it is about, and the example that it shows.
#[derive(Clone, Copy, Drop)]
struct Hovered {
    ticket: u64,
    text: &'static str,
    character: u32,
    letter: u32,
}

impl Hovered {
    fn new(ticket: u64, text: &'static str, character: u32, letter: u32) -> Hovered {
        Hovered {
            ticket,
            text,
            character,
            letter,
        }
    }

    fn job(&self, alloc: Global) -> Result<Job, DeskFault> {
        let at = Position {
            line: 0,
            character: self.character,
        };
        job_of(
            alloc,
            self.ticket,
            self.text,
            Encoding::Utf16,
            Ask::Hover(at),
        )
    }

    // Whether this is the run, with all that it had.
    fn is_whole(&self, done: &Done) -> bool {
        let text = done.snapshot().line_count() == 1 && done.snapshot().line(0) == Some(self.text);
        let ask = match done.ask() {
            Ask::Hover(at) => at.line == 0 && at.character == self.character,
            _ => false,
        };
        let encoding = matches!(done.encoding(), Encoding::Utf16);
        done.ticket() == self.ticket && text && ask && encoding && shows(done, self.letter)
    }

    // Whether the run is refused for this, and comes back whole.
    fn comes_back(
        &self,
        desk: &mut Desk,
        alloc: Global,
        want: DeskFault,
    ) -> Result<bool, DeskFault> {
        match desk.finish(run(alloc, self.job(alloc)?)) {
            Ok(_) => Ok(false),
            Err((fault, done)) => Ok(fault == want && self.is_whole(&done)),
        }
    }
}

// Of another text, at another position, of a ticket that was never given.
fn refuses_others(desk: &mut Desk, alloc: Global) -> Result<bool, DeskFault> {
    let text = Hovered::new(2, OTHER_TEXT, 0, 121);
    let text = text.comes_back(desk, alloc, DeskFault::OtherText)?;
    let at = Hovered::new(2, TEXT, 1, 120);
    let at = at.comes_back(desk, alloc, DeskFault::OtherText)?;
    let ticket = Hovered::new(9, TEXT, 0, 120);
    let ticket = ticket.comes_back(desk, alloc, DeskFault::UnknownTicket)?;
    Ok(text && at && ticket)
}

// A hover is asked and taken. Strange runs are refused, then its own is taken, and a second one like it is refused.
fn takes_its_own(desk: &mut Desk, alloc: Global) -> Result<bool, DeskFault> {
    let begun = opened(desk, alloc)? && hover(desk, alloc, 2)? == 2;
    let job = take(desk)?;
    let refused = refuses_others(desk, alloc);
    let kept = finish(desk, alloc, job);
    let own = Hovered::new(2, TEXT, 0, 120);
    let again = own.comes_back(desk, alloc, DeskFault::UnknownTicket)?;
    let taken = kept? == Kept::Reply && sends_hover(desk, 1, 120);
    Ok(begun && refused? && taken && again && desk.unsent() == 0)
}

#[test]
fn strange_runs_come_back(rt: HostRuntime) -> Result<(), Fail> {
    assert!(rt; on_each_desk(rt.alloc(), takes_its_own)?);
    Ok(())
}
