//! Sessions that go on at one desk, with the tickets that come of that.

use super::answers::hovers_over_a_change;
use super::cancels::{cancels, is_over, taken};
use super::steps::{finish, on_each_desk, sends_failure, take, tells_findings};
use ls_desk::{Desk, DeskFault};
use one_document::{change, rename};
use std::alloc::Global;
use std::test::Fail;

// A rename, which has ticket 4, is taken, and a change ends it, which is answered at once.
fn ends_the_fourth(desk: &mut Desk, alloc: Global) -> Result<bool, DeskFault> {
    let asked = rename(desk, alloc, 3)? == 4;
    let job = take(desk)?;
    let changed = change(desk, alloc, "a = \"z\"");
    let told = desk.unsent() == 1 && sends_failure(desk, 4, 3, -32801);
    let kept = finish(desk, alloc, job);
    Ok(asked && changed? == Some(3) && told && kept == Err(DeskFault::UnknownTicket))
}

// A hover that is finished after a change, the findings of that change, and then a rename that another change ends.
fn hovers_and_ends(desk: &mut Desk, alloc: Global) -> Result<bool, DeskFault> {
    let hovers = hovers_over_a_change(desk, alloc)? && tells_findings(desk, alloc, 3)?;
    Ok(hovers && ends_the_fourth(desk, alloc)? && desk.unsent() == 0)
}

#[test]
fn a_rename_behind_a_hover(rt: HostRuntime) -> Result<(), Fail> {
    assert!(rt; on_each_desk(rt.alloc(), hovers_and_ends)?);
    Ok(())
}

// The id of a request that was cancelled is free: its new one, with ticket 3, is given back and handed out again.
fn comes_back_as_the_third(desk: &mut Desk, alloc: Global) -> Result<bool, DeskFault> {
    let over = is_over(desk, alloc)?;
    let first = taken(desk)?;
    desk.give_back(first)?;
    Ok(over && first == 3 && taken(desk)? == 3)
}

fn cancels_and_comes_back(desk: &mut Desk, alloc: Global) -> Result<bool, DeskFault> {
    Ok(cancels(desk, alloc)? && comes_back_as_the_third(desk, alloc)?)
}

#[test]
fn a_job_comes_back_behind_a_cancel(rt: HostRuntime) -> Result<(), Fail> {
    assert!(rt; on_each_desk(rt.alloc(), cancels_and_comes_back)?);
    Ok(())
}
