//! The history that all threads share, and what each of them has seen of it.
ghost use Rattle.std.specs.Prelude.{◌≡◌, ◌++◌, ◌∷◌, [], MatchBool, None, length, nat_le};
ghost use Rattle.ls_history.specs.History.{HasLedTo, IsDesk, IsLegalHistory, LeadsOn, MayHappen, replay_entries};
ghost use Rattle.ls_history.specs.Places.{beginning};
ghost use Rattle.ls_history.specs.Told.{LieBeside};
ghost use mathlib.Core.List.{IsPrefix};
ghost use Rattle.ls_history.specs.own.Rules.{first_word};
ghost use Rattle.ls_history.specs.declared.history_entry.HistoryEntry.TheVariants.{Began, Heard};

use crate::entries::{Begins, Hearing, Hears};
use crate::history_entry::HistoryEntry;
use crate::rule::{Add, Law, Nothing};
use logbook::{Offer, Plain, Seen, Start, Word};
use ls_desk::{Desk, DeskFault};
use ls_machine::ClientAnswer;
use std::marker::{Brand, Model, PhantomData};
use std::sync::Wait;

/// Which book a history is in.
///
/// A function that is generic in this is called with [`Brand`], and picks the book there.
pub trait BookName {
    ghost use Rattle.logbook.specs.Pages.{Book};

    ghost book: { Book };
}

impl BookName for Brand {
    ghost book = { record { number = 0; log_name = 0; cells_name = 0 } };
}

/// A book with an empty history, which has no type yet. Contracts see which book it is.
#[derive(Drop)]
pub struct BlankHistory {
    head: Word<HistoryEntry, u64, Law>,
    seen: Seen<HistoryEntry, u64, Law>,
}

impl Model for BlankHistory {
    ghost use Rattle.std.specs.Prelude.{◌≡◌, []};
    ghost use Rattle.logbook.specs.Pages.{Book};
    ghost use Rattle.ls_history.specs.own.Rules.{first_word};

    ghost Value = { Book };

    ghost view = { λ b. b.seen.book };

    ghost invariant = { λ b. (b.seen.log ≡ []) × (b.head ≡ first_word b.seen.book) };
}

impl BlankHistory {
    /// A new book, whose history is empty. Takes no memory.
    pub fn new() -> BlankHistory {
        let (seen, mut first, _second) = Seen::open(Start::alone(), 0, 0);
        BlankHistory {
            head: Word::tracked(0, &mut first),
            seen,
        }
    }

    /// The empty history of this book, which must be the one that `C` names.
    pub fn named<C: BookName>(self) -> History<C>
        requires { self ≡ C.book }
        ensures { result ≡ [] }
    {
        let BlankHistory { head, seen } = self;
        History {
            word: SharedWord {
                head,
                of: PhantomData,
            },
            front: Front {
                count: 0,
                seen,
                of: PhantomData,
            },
        }
    }
}

/// The word that all threads share: the length of the history.
#[derive(Drop)]
struct SharedWord<C: BookName> {
    head: Word<HistoryEntry, u64, Law>,
    of: PhantomData<C>,
    ghost head_is: { head ≡ first_word C.book },
}

/// A beginning of the history that was seen. Contracts see it as its entries.
#[derive(Drop)]
pub struct Front<C: BookName> {
    count: u64,
    seen: Seen<HistoryEntry, u64, Law>,
    of: PhantomData<C>,
}

impl<C: BookName> Model for Front<C> {
    ghost use Rattle.std.specs.Prelude.{◌≡◌, List, length};
    ghost use Rattle.ls_history.specs.declared.history_entry.HistoryEntry.{HistoryEntry};

    ghost Value = { List HistoryEntry };

    ghost view = { λ f. f.seen.log };

    ghost invariant = { λ f. (f.count ≡ length f.seen.log) × (f.seen.book ≡ C.book) };
}

impl<C: BookName> Front<C> {
    /// A copy, which has seen the same. Takes no memory.
    pub fn again(&self) -> Front<C>
        ensures { result ≡ self.now }
    {
        Front {
            count: self.count,
            seen: self.seen.again(),
            of: PhantomData,
        }
    }

    /// Two fronts are beginnings of one history: one of them begins the other. Nothing is done at run time: it is called for what its
    /// contract says.
    pub fn beside(&self, other: &Front<C>)
        ensures { LieBeside other.now self.now }
    {
        let mut known = self.seen.again();
        known.learn(&other.seen);
    }

    /// Whether this has no more entries than another.
    fn is_within(&self, other: &Front<C>) -> bool
        ensures { result ≡ nat_le (length self.now) (length other.now) }
    {
        self.count <= other.count
    }

    /// Sees all of the history: it comes on from what it had seen itself.
    ///
    /// Nobody has seen more than there is. No proof knows that, so the lengths are compared: were this the longer one, this would go on
    /// comparing.
    pub fn follow(&mut self, rt: &impl Wait, history: &History<C>)
        ensures seen { self.new ≡ history.now }
        ensures grows { IsPrefix self.old history.now }
    {
        for _ in rt.forever() {
            if self.is_within(&history.front) {
                history.front.beside(self);
                *self = history.seen();
                return;
            }
        }
        unreachable!()
    }

    /// What was seen of a history is legal: each entry may happen where those before it have led. Nothing is done at run time: it is called
    /// for what its contract says.
    pub fn legal(&self)
        ensures { IsLegalHistory self.now }
    {
        let mut known = self.seen.again();
        known.learn(&self.seen);
    }

    /// Adds an entry where this is all of the history, and says whether it did.
    fn try_add<X, M: Plain<X, HistoryEntry, u64>>(
        &mut self,
        word: &SharedWord<C>,
        about: &X,
    ) -> bool
        requires plain { M.state about.now ≡ None }
        requires possible { MayHappen (replay_entries beginning self.old) (M.ask about.now) }
        ensures { MatchBool result (self.new ≡ self.old ++ M.ask about.now ∷ []) (self.new ≡ self.old) }
    {
        if self.count == u64::MAX {
            return false;
        }
        let count = self.count;
        let mut seen = self.seen.again();
        let mut offer: Offer<HistoryEntry, u64, Law, Nothing> = seen.plain::<Nothing, X, M>(about);
        let mut pen = seen.no_pen();
        let found = word
            .head
            .compare_exchange::<Add, Nothing>(count, count + 1, &mut seen, &mut offer, &mut pen);
        if found != count {
            return false;
        }
        self.count = count + 1;
        self.seen = seen;
        true
    }
    /// Adds an entry where this is all of the history.
    ///
    /// Whoever has the desk is alone in adding. That the history isn't longer than this, no proof knows, so it looks: where it were, this
    /// would go on looking.
    fn add<X, M: Plain<X, HistoryEntry, u64>>(
        &mut self,
        rt: &impl Wait,
        word: &SharedWord<C>,
        about: &X,
    )
        requires plain { M.state about.now ≡ None }
        requires possible { MayHappen (replay_entries beginning self.old) (M.ask about.now) }
        ensures { self.new ≡ self.old ++ M.ask about.now ∷ [] }
    {
        for _ in rt.forever() {
            if self.try_add::<X, M>(word, about) {
                return;
            }
        }
        unreachable!()
    }
}

/// All of a history, and the word that all threads share. Contracts see it as its entries. It lies beside the desk, behind a lock, and
/// always leads to where that stands.
#[derive(Drop)]
pub struct History<C: BookName> {
    word: SharedWord<C>,
    front: Front<C>,
}

impl<C: BookName> Model for History<C> {
    ghost use Rattle.std.specs.Prelude.{List};
    ghost use Rattle.ls_history.specs.declared.history_entry.HistoryEntry.{HistoryEntry};

    ghost Value = { List HistoryEntry };

    ghost view = { λ h. h.front };
}

impl<C: BookName> History<C> {
    /// The front that has seen all of it.
    pub fn front(&self) -> &Front<C>
        ensures { result.now ≡ self.now }
    {
        &self.front
    }

    /// A front of its own that has seen all of it. Takes no memory.
    pub fn seen(&self) -> Front<C>
        ensures { result ≡ self.now }
    {
        self.front.again()
    }

    /// The history begins, with the limit of a desk on which nothing has happened, and has led to where that stands.
    pub fn begin(&mut self, rt: &impl Wait, desk: &Desk)
        requires none { self.old ≡ [] }
        requires journal { desk.now.journal ≡ [] }
        ensures added { self.new ≡ Began desk.now.max_events ∷ [] }
        ensures led { HasLedTo desk.now self.new }
        ensures desk { IsDesk desk.now }
    {
        self.add::<Desk, Begins>(rt, desk, desk);
    }

    /// Adds a client's event, which `K` names, with its answer or its refusal: what [`History::add`] says.
    pub fn add_heard<K: Hearing>(
        &mut self,
        rt: &impl Wait,
        desk: &Desk,
        reply: &Result<ClientAnswer, DeskFault>,
    )
        requires { IsDesk desk.now → LeadsOn self.old (Heard K.event reply.now) desk.now }
        ensures added { self.new ≡ self.old ++ Heard K.event reply.now ∷ [] }
        ensures led { HasLedTo desk.now self.new }
        ensures desk { IsDesk desk.now }
    {
        self.add::<Result<ClientAnswer, DeskFault>, Hears<K>>(rt, desk, reply);
    }

    /// Adds an entry behind all that there was. It must be one that may happen there, and lead to where the desk stands now. One
    /// compare-and-exchange of the word, and no memory.
    pub fn add<X, M: Plain<X, HistoryEntry, u64>>(&mut self, rt: &impl Wait, desk: &Desk, about: &X)
        requires plain { M.state about.now ≡ None }
        requires leads { IsDesk desk.now → LeadsOn self.old (M.ask about.now) desk.now }
        ensures added { self.new ≡ self.old ++ M.ask about.now ∷ [] }
        ensures led { HasLedTo desk.now self.new }
        ensures desk { IsDesk desk.now }
    {
        let _sound = desk.journal();
        let _counts = desk.counts();
        self.front.add::<X, M>(rt, &self.word, about);
    }
}
