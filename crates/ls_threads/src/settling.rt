//! Whether the desk of a closed board is as the threads' ends leave it.
//!
//! The threads only say how they ended, and one that was wrong could say that all is done: so the closed desk is looked at. A full session
//! is believed only where the dearest event might not have fitted. What is used never falls, since a reply that leaves goes from the unsent
//! ones into the count, so a board that once refused an event for want of room stays so near its limit.
ghost use Rattle.std.specs.Prelude.{◌≡◌, ◌<◌, ◌^◌};
ghost use Rattle.ls_desk.specs.Stands.{used};
ghost use Rattle.ls_threads.specs.Settled.{is_done, is_nearly_full, is_settled};

use crate::ending::{Early, Worked, has_met_full_session, is_ended};
use ls_desk::Desk;
use ls_devices::ReaderEnd;

/// The most that one event may need: a place for itself, and one for each request that it ends.
const MOST_NEEDED: u128 = 1_025;

/// How many events the session had, and how many replies are unsent, together.
fn used(desk: &Desk) -> u128
    ensures sum { result ≡ used desk.now }
    ensures small { result < 2 ^ 67 }
{
    let counts = desk.counts();
    let client = counts.client as u128;
    let worked = counts.took as u128 + counts.returned as u128 + counts.finished as u128;
    client + worked + counts.sent as u128 + desk.unsent() as u128
}

/// Whether so little is left of so many events that one more may find the session full.
fn is_nearly_full(desk: &Desk, events: u64) -> bool
    ensures { result ≡ is_nearly_full events desk.now }
{
    used(desk) + MOST_NEEDED > events as u128
}

/// Whether no job waits, and no reply is unsent.
fn is_done(desk: &Desk) -> bool
    ensures { result ≡ is_done desk.now }
{
    desk.is_idle() && desk.unsent() == 0
}

/// Whether the desk is as these ends leave it: nearly full where one of them met a full session; else the reader ended by itself, and all
/// is done.
pub fn is_settled(desk: &Desk, events: u64, heard: ReaderEnd<Early>, worked: Worked) -> bool
    ensures { result ≡ is_settled events heard worked desk.now }
{
    if has_met_full_session(heard, worked) {
        return is_nearly_full(desk, events);
    }
    is_ended(heard) && is_done(desk)
}
