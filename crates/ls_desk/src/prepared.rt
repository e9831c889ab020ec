//! What a call has made before it writes: all that needs memory, but for room.
//!
//! No drop is derived, so that what lets one go is proved without its fields.
ghost use Rattle.std.specs.Prelude.{◌≡◌, IfOk};

use crate::texts::Next;
use ls_answers::Ask;
use ls_lists::List;
use ls_machine::{Boxed, Out, State, Waiting};
use ls_rpc::Id;
use ls_text::Edit;
use std::alloc::{AllocError, Global};
use std::collections::VecDeque;

/// What the end of a text leaves: the state that becomes the base, where one does, and what is answered.
pub struct Ending {
    pub state: Option<State>,
    pub replies: VecDeque<Out>,
}

impl Drop for Ending {
    fn drop(self) {
        let Ending {
            state: _,
            replies: _,
        } = self;
    }
}

impl Ending {
    /// The state, once the replies are put down.
    pub fn into_state(self) -> Option<State>
        ensures { result ≡ self.state }
    {
        let Ending { state, replies: _ } = self;
        state
    }
}

/// What a change leaves: the end of the text before, the text behind it, unless that would be too large, and the edits for the journal.
pub struct Change {
    pub ending: Ending,
    pub next: Option<Next>,
    pub edits: Boxed<List<Edit>>,
}

impl Drop for Change {
    fn drop(self) {
        let Change {
            ending: _,
            next: _,
            edits: _,
        } = self;
    }
}

impl Change {
    /// Its state, its text and its edits, once the replies are put down.
    pub fn into_parts(self) -> (Option<State>, Option<Next>, Boxed<List<Edit>>)
        ensures state { result.0 ≡ self.ending.state }
        ensures next { result.1 ≡ self.next }
        ensures edits { result.2 ≡ self.edits }
    {
        let Change {
            ending,
            next,
            edits,
        } = self;
        (ending.into_state(), next, edits)
    }
}

/// What an opening leaves: the state that becomes the base, where one does, and the text.
pub struct Opening {
    pub state: Option<State>,
    pub next: Next,
}

impl Drop for Opening {
    fn drop(self) {
        let Opening { state: _, next: _ } = self;
    }
}

impl Opening {
    /// Its state and its text.
    pub fn into_parts(self) -> (Option<State>, Next)
        ensures state { result.0 ≡ self.state }
        ensures next { result.1 ≡ self.next }
    {
        let Opening { state, next } = self;
        (state, next)
    }
}

/// A request's id and its question, as the journal keeps them.
pub struct Query {
    pub id: Boxed<Id>,
    pub ask: Boxed<Ask>,
}

impl Drop for Query {
    fn drop(self) {
        let Query { id: _, ask: _ } = self;
    }
}

impl Query {
    /// This id and this question.
    ///
    /// # Errors
    ///
    /// Where an allocation is refused.
    pub fn new(alloc: Global, id: Id, question: Ask) -> Result<Query, AllocError>
        ensures id { IfOk result (λ query. query.id ≡ id) }
        ensures ask { IfOk result (λ query. query.ask ≡ question) }
    {
        let id = Boxed::new(alloc, id)?;
        let ask = Boxed::new(alloc, question)?;
        Ok(Query { id, ask })
    }

    /// The id and the question.
    pub fn into_parts(self) -> (Boxed<Id>, Boxed<Ask>)
        ensures id { result.0 ≡ self.id }
        ensures ask { result.1 ≡ self.ask }
    {
        let Query { id, ask } = self;
        (id, ask)
    }
}

/// What a request leaves: the state that becomes the base, where one does, the job, and what the journal keeps of it.
pub struct Asking {
    pub state: Option<State>,
    pub job: Waiting,
    pub query: Query,
}

impl Drop for Asking {
    fn drop(self) {
        let Asking {
            state: _,
            job: _,
            query: _,
        } = self;
    }
}

impl Asking {
    /// Its state, its job, its id and its question.
    pub fn into_parts(self) -> (Option<State>, Waiting, Boxed<Id>, Boxed<Ask>)
        ensures state { result.0 ≡ self.state }
        ensures job { result.1 ≡ self.job }
        ensures id { result.2 ≡ self.query.id }
        ensures ask { result.3 ≡ self.query.ask }
    {
        let Asking { state, job, query } = self;
        let (id, ask) = query.into_parts();
        (state, job, id, ask)
    }
}
