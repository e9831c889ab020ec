//! Requests that are cancelled, and jobs that are given back.

use super::steps::{finish, leaves, on_each_desk, opened, sends_failure, take};
use ls_desk::{Desk, DeskFault, Out};
use ls_lists::List;
use ls_rpc::Id;
use one_document::symbols;
use std::alloc::Global;
use std::test::Fail;

/// A taken request is cancelled: its run isn't wanted any more, and it is answered once.
pub(crate) fn cancels(desk: &mut Desk, alloc: Global) -> Result<bool, DeskFault> {
    let begun = opened(desk, alloc)? && symbols(desk, alloc, 2)? == 2;
    let job = take(desk)?;
    let found = desk.cancel(&Id::Number(2));
    let kept = finish(desk, alloc, job);
    let told = sends_failure(desk, 2, 2, -32800) && desk.unsent() == 0;
    Ok(begun && found? && kept == Err(DeskFault::UnknownTicket) && told)
}

/// It doesn't wait any more, and its id is free again.
pub(crate) fn is_over(desk: &mut Desk, alloc: Global) -> Result<bool, DeskFault> {
    let found = desk.cancel(&Id::Number(2))?;
    Ok(!found && symbols(desk, alloc, 2)? == 3)
}

fn cancels_once(desk: &mut Desk, alloc: Global) -> Result<bool, DeskFault> {
    Ok(cancels(desk, alloc)? && is_over(desk, alloc)?)
}

#[test]
fn a_cancel_is_told_once(rt: HostRuntime) -> Result<(), Fail> {
    assert!(rt; on_each_desk(rt.alloc(), cancels_once)?);
    Ok(())
}

/// The ticket of the first queued job, which is taken.
pub(crate) fn taken(desk: &mut Desk) -> Result<u64, DeskFault> {
    let job = take(desk)?;
    Ok(job.ticket)
}

// A job that is given back is handed out again, and a ticket that was never given isn't taken back.
fn comes_again(desk: &mut Desk, alloc: Global) -> Result<bool, DeskFault> {
    let begun = opened(desk, alloc)? && symbols(desk, alloc, 2)? == 2;
    let first = taken(desk)?;
    desk.give_back(first)?;
    let second = taken(desk)?;
    let unknown = desk.give_back(9) == Err(DeskFault::UnknownTicket);
    let none = taken(desk) == Err(DeskFault::UnknownTicket);
    Ok(begun && first == 2 && second == 2 && unknown && none)
}

#[test]
fn a_job_comes_back(rt: HostRuntime) -> Result<(), Fail> {
    assert!(rt; on_each_desk(rt.alloc(), comes_again)?);
    Ok(())
}

fn says(desk: &mut Desk, alloc: Global) -> Result<bool, DeskFault> {
    desk.say(List::from_vec(Vec::from_slice(alloc, b"{}")?))?;
    let said = matches!(desk.out_at(0), Some(Out::Said(_))) && desk.out_at(1).is_none();
    Ok(said && leaves(desk) && !leaves(desk))
}

#[test]
fn a_body_is_said(rt: HostRuntime) -> Result<(), Fail> {
    let mut desk = Desk::new(rt.alloc(), 1_000_000, 2);
    let said = says(&mut desk, rt.alloc());
    drop(desk);
    assert!(rt; said?);
    Ok(())
}
