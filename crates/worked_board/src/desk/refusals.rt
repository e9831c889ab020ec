//! Runs that are refused come back.

use super::cancels::taken;
use super::steps::{comes_back, finish, job_of, leaves, on_each_desk, opened, take};
use ls_answers::{Ask, Done, run};
use ls_desk::{Counts, Desk, DeskFault, Kept};
use ls_lists::List;
use ls_rpc::Id;
use ls_text::Encoding;
use one_document::{START, change, close, open, symbols};
use std::alloc::Global;
use std::test::Fail;

// A run with a ticket, of a text and a question of its own.
fn done(alloc: Global, ticket: u64, text: &str, ask: Ask) -> Result<Done, DeskFault> {
    let job = job_of(alloc, ticket, text, Encoding::Utf16, ask)?;
    Ok(run(alloc, job))
}

// Whether a run of the first ticket after the findings is refused for this.
fn is_refused(
    desk: &mut Desk,
    alloc: Global,
    text: &str,
    ask: Ask,
    want: DeskFault,
) -> Result<bool, DeskFault> {
    let other = done(alloc, 2, text, ask)?;
    Ok(comes_back(desk, other, want))
}

// Whether a run of the first ticket after the findings is refused by its encoding alone.
fn is_refused_in(desk: &mut Desk, alloc: Global, encoding: Encoding) -> Result<bool, DeskFault> {
    let job = job_of(alloc, 2, "a = \"x\"", encoding, Ask::Symbols)?;
    Ok(comes_back(desk, run(alloc, job), DeskFault::OtherText))
}

// An outline is asked for and taken.
fn outlined(desk: &mut Desk, alloc: Global) -> Result<bool, DeskFault> {
    let begun = opened(desk, alloc)? && symbols(desk, alloc, 2)? == 2;
    let job = take(desk)?;
    Ok(begun && job.ticket == 2)
}

// Of another text, of another question, and in other encodings.
fn refuses_others(desk: &mut Desk, alloc: Global) -> Result<bool, DeskFault> {
    let fault = DeskFault::OtherText;
    let begun = outlined(desk, alloc)?;
    let text = is_refused(desk, alloc, "a = \"y\"", Ask::Symbols, fault)?;
    let question = is_refused(desk, alloc, "a = \"x\"", Ask::Hover(START), fault)?;
    let bytes = is_refused_in(desk, alloc, Encoding::Utf8)?;
    let characters = is_refused_in(desk, alloc, Encoding::Utf32)?;
    Ok(begun && text && question && bytes && characters)
}

#[test]
fn of_another_text_encoding_or_question(rt: HostRuntime) -> Result<(), Fail> {
    assert!(rt; on_each_desk(rt.alloc(), refuses_others)?);
    Ok(())
}

// A ticket that is queued and not taken, and one that was never given.
fn refuses_tickets(desk: &mut Desk, alloc: Global) -> Result<bool, DeskFault> {
    let begun = opened(desk, alloc)? && symbols(desk, alloc, 2)? == 2;
    let queued = done(alloc, 2, "a = \"x\"", Ask::Symbols)?;
    let refused = comes_back(desk, queued, DeskFault::UnknownTicket);
    let never = done(alloc, 9, "a = \"x\"", Ask::Symbols)?;
    Ok(begun && refused && comes_back(desk, never, DeskFault::UnknownTicket))
}

#[test]
fn of_another_ticket(rt: HostRuntime) -> Result<(), Fail> {
    assert!(rt; on_each_desk(rt.alloc(), refuses_tickets)?);
    Ok(())
}

// A run of a text of its own with the same characters is taken, once.
fn takes_one_run(desk: &mut Desk, alloc: Global) -> Result<bool, DeskFault> {
    let begun = outlined(desk, alloc)?;
    let first = done(alloc, 2, "a = \"x\"", Ask::Symbols)?;
    let kept = matches!(desk.finish(first), Ok(Kept::Reply));
    let again = is_refused(
        desk,
        alloc,
        "a = \"x\"",
        Ask::Symbols,
        DeskFault::UnknownTicket,
    )?;
    Ok(begun && kept && again)
}

#[test]
fn of_a_second_run(rt: HostRuntime) -> Result<(), Fail> {
    assert!(rt; on_each_desk(rt.alloc(), takes_one_run)?);
    Ok(())
}

// Three events fill it: an open, a request, a take. The findings of the open are what is taken.
fn is_full(desk: &mut Desk, alloc: Global) -> Result<bool, DeskFault> {
    let version = open(desk, alloc, "a = \"x\"")?;
    let ticket = symbols(desk, alloc, 2)?;
    let job = take(desk)?;
    let refused = comes_back(desk, run(alloc, job), DeskFault::SessionFull);
    Ok(version == 1 && ticket == 2 && refused)
}

#[test]
fn of_a_full_session(rt: HostRuntime) -> Result<(), Fail> {
    let mut desk = Desk::new(rt.alloc(), 1, 3);
    let full = is_full(&mut desk, rt.alloc());
    let changed = change(&mut desk, rt.alloc(), "");
    drop(desk);
    assert!(rt; full?);
    assert!(rt; changed == Err(DeskFault::SessionFull));
    Ok(())
}

// Four events and a reply fill it: an open, a request, a take, and a finish, which keeps the findings. The request still waits.
fn fills(desk: &mut Desk, alloc: Global) -> Result<bool, DeskFault> {
    let version = open(desk, alloc, "a = \"x\"")?;
    let ticket = symbols(desk, alloc, 2)?;
    let job = take(desk)?;
    let kept = finish(desk, alloc, job)?;
    Ok(version == 1 && ticket == 2 && kept == Kept::Reply && desk.unsent() == 1)
}

// Whether a full session refuses each call that would write an event, but a send.
fn refuses_all(desk: &mut Desk, alloc: Global) -> Result<bool, DeskFault> {
    let full = DeskFault::SessionFull;
    let changed = change(desk, alloc, "") == Err(full);
    let closed = close(desk, alloc) == Err(full);
    let asked = symbols(desk, alloc, 3) == Err(full);
    let cancelled = desk.cancel(&Id::Number(2)) == Err(full);
    let said = desk.say(List::from_vec(Vec::from_slice(alloc, b"{}")?)) == Err(full);
    let taken = taken(desk) == Err(full);
    Ok(changed && closed && asked && cancelled && said && taken)
}

#[test]
fn of_all_but_sends_in_a_full_session(rt: HostRuntime) -> Result<(), Fail> {
    let mut desk = Desk::new(rt.alloc(), 1, 5);
    let full = fills(&mut desk, rt.alloc());
    let refused = refuses_all(&mut desk, rt.alloc());
    let sent = leaves(&mut desk) && !leaves(&mut desk);
    let again = refuses_all(&mut desk, rt.alloc());
    let counts = desk.counts();
    drop(desk);
    assert!(rt; full? && refused? && sent && again?);
    let want = Counts {
        client: 2,
        took: 1,
        returned: 0,
        finished: 1,
        sent: 1,
    };
    assert!(rt; counts == want);
    Ok(())
}

// A document is opened once, closed once, and opened anew at the next version.
fn opens_and_closes(desk: &mut Desk, alloc: Global) -> Result<bool, DeskFault> {
    let begun = opened(desk, alloc)?;
    let twice = open(desk, alloc, "") == Err(DeskFault::AlreadyOpen);
    close(desk, alloc)?;
    let closed = close(desk, alloc) == Err(DeskFault::NotOpen);
    let asked = symbols(desk, alloc, 2) == Err(DeskFault::NotOpen);
    Ok(begun && twice && closed && asked && open(desk, alloc, "")? == 2)
}

#[test]
fn of_what_is_not_open(rt: HostRuntime) -> Result<(), Fail> {
    assert!(rt; on_each_desk(rt.alloc(), opens_and_closes)?);
    Ok(())
}
