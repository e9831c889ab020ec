//! The events since a base, and what is left of those before it.
//!
//! To move a long journal took 13 to 18 milliseconds on a busy machine, and to let a million events go at once 60. So it is moved once,
//! into room for all that may come, and let go a few events at a time.
ghost use Rattle.std.specs.Prelude.{◌≡◌, ◌+◌, ◌<◌, ◌≤◌, ◌++◌, ◌∷◌, [], OnOk, OnErr, length, vec_capacity};
ghost use mathlib.Core.List.{IsPrefix};

use ls_machine::Event;
use std::alloc::{AllocError, Global};
use std::marker::Model;
use std::mem;

/// How many events of the journal before go with each event that comes.
const AT_ONCE: usize = 16;

/// For how many entries room is given back at once, and how many are moved at most where a journal grows.
const PART: usize = 65_536;

/// For how many events a long journal seeks room: more than a client's event may find there.
const LONGEST: usize = 1_048_576;

/// Lets a few events go from the end, and from time to time the room behind them.
fn let_go(past: &mut Vec<Event>)
    ensures { IsPrefix past.new.items past.old.items }
{
    past.truncate(past.len().saturating_sub(AT_ONCE));
    give_room_back(past);
}

/// Gives the room behind events back: all of it where none is left, and else from time to time.
pub fn give_room_back(events: &mut Vec<Event>)
    ensures { events.new.items ≡ events.old.items }
{
    if events.is_empty() {
        let alloc = *events.allocator();
        *events = Vec::new(alloc);
    } else if events.capacity() - events.len() >= PART {
        events.shrink_to_fit();
    }
}

/// A long journal that has to grow seeks room for all that may come, so that it is moved this once. Where that is refused it has the room
/// that it had.
fn seek_room(events: &mut Vec<Event>, more: usize)
    ensures items { events.new.items ≡ events.old.items }
    ensures more { vec_capacity events.old ≤ vec_capacity events.new }
{
    if events.capacity() - events.len() >= more {
        return;
    }
    if events.len() >= PART / 2 && events.len() < LONGEST {
        let _ = events.reserve_exact(LONGEST - events.len());
    }
}

/// The events since a base. Where the journal begins anew, the one before isn't let go at once, which would take time in proportion to it:
/// a few of its events go with each event that comes, or somebody takes them.
///
/// Contracts see the events, for how many there is room, in this journal and in the next, and what is left of the journal before.
#[derive(Drop)]
pub struct Journal {
    alloc: Global,
    events: Vec<Event>,
    /// The journal that comes next. It has no event.
    next: Vec<Event>,
    /// What is left of the journal before.
    past: Vec<Event>,
}

impl Model for Journal {
    ghost use Rattle.std.specs.Prelude.{◌≡◌, [], vec_capacity};
    ghost use Rattle.ls_desk.specs.own.Held.{HeldJournal};

    ghost Value = { HeldJournal };

    ghost view = { λ j. record { items = j.events.items; room = vec_capacity j.events; next = vec_capacity j.next; ended = j.past.items } };

    ghost invariant = { λ j. j.next.items ≡ [] };
}

impl Journal {
    /// No event. Takes no memory.
    pub fn new(alloc: Global) -> Journal
        ensures items { result.items ≡ [] }
        ensures ended { result.ended ≡ [] }
    {
        Journal {
            alloc,
            events: Vec::new(alloc),
            next: Vec::new(alloc),
            past: Vec::new(alloc),
        }
    }

    /// The events.
    pub fn as_slice(&self) -> &[Event]
        ensures { result.now ≡ self.now.items }
    {
        self.events.as_slice()
    }

    /// How many events there are.
    pub fn len(&self) -> usize
        ensures { result ≡ length self.now.items }
    {
        self.events.len()
    }

    /// Room for so many events more.
    pub fn reserve(&mut self, more: usize) -> Result<(), AllocError>
        ensures items { self.new.items ≡ self.old.items }
        ensures next { self.new.next ≡ self.old.next }
        ensures ended { self.new.ended ≡ self.old.ended }
        ensures more { self.old.room ≤ self.new.room }
        ensures room { OnOk result (length self.new.items + more ≤ self.new.room) }
        ensures full { OnErr result (self.old.room < length self.old.items + more) }
    {
        seek_room(&mut self.events, more);
        self.events.reserve(more)
    }

    /// Room for so many events in the next journal.
    pub fn reserve_next(&mut self, needed: usize) -> Result<(), AllocError>
        ensures items { self.new.items ≡ self.old.items }
        ensures same { self.new.room ≡ self.old.room }
        ensures ended { self.new.ended ≡ self.old.ended }
        ensures room { OnOk result (needed ≤ self.new.next) }
        ensures full { OnErr result (self.old.next < needed) }
    {
        self.next.reserve(needed)
    }

    /// The next journal takes the place of this one, which is the one before from now on, whole.
    pub fn begin_anew(&mut self)
        ensures items { self.new.items ≡ [] }
        ensures ended { self.new.ended ≡ self.old.items }
        ensures room { self.new.room ≡ self.old.next }
    {
        let next = mem::replace(&mut self.next, Vec::new(self.alloc));
        self.past = mem::replace(&mut self.events, next);
    }

    /// Puts an event at the end, where there is room.
    pub fn push(&mut self, event: Event)
        requires { length self.old.items < self.old.room }
        ensures items { self.new.items ≡ self.old.items ++ event ∷ [] }
        ensures room { self.new.room ≡ self.old.room }
        ensures ended { self.new.ended ≡ self.old.ended }
    {
        self.events.push_reserved(event);
    }

    /// A few events of the journal before go, from its end.
    pub fn let_go(&mut self)
        ensures items { self.new.items ≡ self.old.items }
        ensures room { self.new.room ≡ self.old.room }
        ensures ended { IsPrefix self.new.ended self.old.ended }
    {
        let_go(&mut self.past);
    }

    /// What is left of the journal before, which has none from now on. Takes no memory.
    pub fn take_ended(&mut self) -> Vec<Event>
        ensures ended { result.items ≡ self.old.ended }
        ensures none { self.new.ended ≡ [] }
        ensures items { self.new.items ≡ self.old.items }
        ensures room { self.new.room ≡ self.old.room }
    {
        mem::replace(&mut self.past, Vec::new(self.alloc))
    }
}
