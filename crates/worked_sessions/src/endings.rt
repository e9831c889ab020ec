//! Sessions that end.

use super::bodies::{CAPABILITIES, EXIT, INITIALIZE, frames};
use super::by_steps::run_through;
use ls_frame::FrameFault;
use ls_session::Status;
use ls_steps::Step;
use std::test::Fail;

#[test]
fn nothing_is_heard_after_an_exit(rt: HostRuntime) -> Result<(), Fail> {
    let input = frames(rt.alloc(), &[INITIALIZE, EXIT, INITIALIZE])?;
    let steps = [
        Step::Message,
        Step::Message,
        Step::Message,
        Step::Send,
        Step::Send,
    ];
    let run = run_through(rt.alloc(), &input, &steps)?;
    let wanted = frames(rt.alloc(), &[CAPABILITIES])?;
    assert!(rt; run.bytes.as_slice() == wanted.as_slice());
    assert!(rt; run.status == Some(Status::Unclean));
    Ok(())
}

#[test]
fn a_frame_that_is_cut_off_ends_the_session(rt: HostRuntime) -> Result<(), Fail> {
    let run = run_through(rt.alloc(), b"Content-Length: 2\r\n\r\n{", &[Step::Message])?;
    assert!(rt; run.bytes.is_empty());
    assert!(rt; run.status == Some(Status::BadFrame(FrameFault::Truncated)));
    Ok(())
}
