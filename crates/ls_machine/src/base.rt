//! Where a journal begins.
ghost use Rattle.std.specs.Prelude.{◌≡◌, ◌+◌, ◌<◌, ◌^◌};
ghost use Rattle.ls_machine.specs.Counts.{count_one, first, no_events, total};

use crate::event::Event;
use crate::state::State;
use std::alloc::Global;

/// How many events there were of each kind.
#[derive(Clone, Copy, PartialEq, Eq, Debug, Drop)]
pub struct Counts {
    /// The client's events, of whatever kind.
    pub client: u64,
    /// Jobs that were taken.
    pub took: u64,
    /// Taken jobs that were given back.
    pub returned: u64,
    /// Jobs that have run.
    pub finished: u64,
    /// Entries that were sent.
    pub sent: u64,
}

impl Counts {
    /// No event of any kind.
    pub fn none() -> Counts
        ensures { result ≡ no_events }
    {
        Counts {
            client: 0,
            took: 0,
            returned: 0,
            finished: 0,
            sent: 0,
        }
    }

    /// How many events there were of all kinds together, which must be fewer than 2^64.
    pub fn total(&self) -> u64
        requires { total self.now < 2 ^ 64 }
        ensures { result ≡ total self.now }
    {
        self.client + self.took + self.returned + self.finished + self.sent
    }

    /// The counts with this event more. All events together must be fewer than 2^64.
    pub fn with(self, event: &Event) -> Counts
        requires { total self + 1 < 2 ^ 64 }
        ensures { result ≡ count_one self event.now }
    {
        let mut counts = self;
        match event {
            Event::Took { .. } => counts.took += 1,
            Event::Returned { .. } => counts.returned += 1,
            Event::Finished { .. } => counts.finished += 1,
            Event::Sent { .. } => counts.sent += 1,
            _ => counts.client += 1,
        }
        counts
    }
}

/// A state that earlier events led to. Behind it a journal begins anew.
#[derive(Drop)]
pub struct Base {
    /// The state.
    pub state: State,
    /// How many events there were before.
    pub counts: Counts,
    /// How often a state has become the base.
    pub checkpoints: u64,
}

impl Base {
    /// The state in which nothing has happened. Takes no memory.
    pub fn first(alloc: Global) -> Base
        ensures { result ≡ first }
    {
        Base {
            state: State::start(alloc),
            counts: Counts::none(),
            checkpoints: 0,
        }
    }
}
