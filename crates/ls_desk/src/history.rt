//! What happened, from a base on.
ghost use Rattle.std.specs.Prelude.{◌≡◌, []};
ghost use Rattle.ls_machine.specs.Counts.{first, no_events};

use crate::journal::Journal;
use ls_machine::{Base, Counts, Event, State};
use std::alloc::Global;

/// A base, the events since, and how many there were of each kind over the session.
#[derive(Drop)]
pub struct History {
    pub base: Base,
    pub events: Journal,
    pub counts: Counts,
}

impl History {
    ghost use Rattle.ls_desk.specs.Anew.{IsEndedBy, base_after, journal_after};
    ghost use Rattle.ls_desk.specs.own.Held.{room_after};
    ghost use Rattle.ls_desk.specs.own.Writes.{HasRoom, Writes};

    /// Nothing has happened. Takes no memory.
    pub fn new(alloc: Global) -> History
        ensures base { result.base ≡ first }
        ensures events { result.events.items ≡ [] }
        ensures ended { result.events.ended ≡ [] }
        ensures counts { result.counts ≡ no_events }
    {
        History {
            base: Base::first(alloc),
            events: Journal::new(alloc),
            counts: Counts::none(),
        }
    }

    /// The journal begins anew from this state, where there is one. Else a few events of the journal before go.
    fn go_on(&mut self, state: Option<State>)
        requires { HasRoom state self.old }
        ensures base { self.new.base ≡ base_after state self.old.counts self.old.base }
        ensures events { self.new.events.items ≡ journal_after state self.old.events.items }
        ensures ended { IsEndedBy state self.old.events.items self.old.events.ended self.new.events.ended }
        ensures room { self.new.events.room ≡ room_after state self.old.events }
        ensures counts { self.new.counts ≡ self.old.counts }
    {
        let Some(state) = state else {
            self.events.let_go();
            return;
        };
        self.events.begin_anew();
        self.base = Base {
            state,
            counts: self.counts,
            checkpoints: self.base.checkpoints + 1,
        };
    }

    /// An event enters the journal, which begins anew from this state, where there is one. Else a few events of the journal before go.
    pub fn enter(&mut self, state: Option<State>, event: Event)
        requires { HasRoom state self.old }
        ensures { Writes state self.old self.new event }
    {
        self.go_on(state);
        self.counts = self.counts.with(&event);
        self.events.push(event);
    }
}
