//! The ledgers of a board and the book of its history, under one type parameter.
ghost use Rattle.std.specs.Prelude.{◌≡◌, [], ℕ};

use ls_history::{BlankHistory, BookName, History};
use std::marker::{Brand, PhantomData};
use std::sync::ledger::{Blank, Book, Ledger, Share};

/// The ledgers of a board, one for each kind of event and one for the replies to its client: their names, and into how many shares those of
/// the workers are cut. The book of its history has a name too.
///
/// A function that is generic in this is called with [`Brand`], and picks its members there.
pub trait Ledgers: BookName {
    /// The ledger of the client's events.
    ghost client: { ℕ };

    /// The ledger of the replies to the client's events: answers and refusals.
    ghost heard: { ℕ };

    /// The ledger of jobs that were taken.
    ghost took: { ℕ };

    /// The ledger of jobs that were given back.
    ghost returned: { ℕ };

    /// The ledger of jobs that have run.
    ghost finished: { ℕ };

    /// The ledger of replies that left.
    ghost sent: { ℕ };

    /// The shares of each of the workers' three ledgers.
    ghost parts: { ℕ };
}

impl Ledgers for Brand {
    ghost client = { 0 };

    ghost heard = { 0 };

    ghost took = { 0 };

    ghost returned = { 0 };

    ghost finished = { 0 };

    ghost sent = { 0 };

    ghost parts = { 0 };
}

/// The ledgers of a board, how many workers it has, and the limits of its desk.
///
/// The number of workers stands here once more beside `parts`, which no field beside a token of these ledgers can name.
pub trait Crew: Ledgers {
    /// How many workers the board has.
    ghost workers: { ℕ };

    /// How many events the journal of its desk may have where a client's event comes to it.
    ghost max_journal: { ℕ };

    /// How many events and unsent replies its desk may have together.
    ghost max_events: { ℕ };
}

impl Crew for Brand {
    ghost workers = { 0 };

    ghost max_journal = { 0 };

    ghost max_events = { 0 };
}

/// The ledger of the client's events. It is whole: one seat has all of it.
pub struct OfClient<C: Ledgers>(PhantomData<C>);

impl<C: Ledgers> Ledger for OfClient<C> {
    ghost name = { C.client };

    ghost parts = { 1 };
}

/// The ledger of the replies to the client's events: answers and refusals. It is whole: one seat has all of it.
pub struct OfHeard<C: Ledgers>(PhantomData<C>);

impl<C: Ledgers> Ledger for OfHeard<C> {
    ghost name = { C.heard };

    ghost parts = { 1 };
}

/// The ledger of jobs that were taken. Each worker has a share.
pub struct OfTook<C: Ledgers>(PhantomData<C>);

impl<C: Ledgers> Ledger for OfTook<C> {
    ghost name = { C.took };

    ghost parts = { C.parts };
}

/// The ledger of jobs that were given back. Each worker has a share.
pub struct OfReturned<C: Ledgers>(PhantomData<C>);

impl<C: Ledgers> Ledger for OfReturned<C> {
    ghost name = { C.returned };

    ghost parts = { C.parts };
}

/// The ledger of jobs that have run. Each worker has a share.
pub struct OfFinished<C: Ledgers>(PhantomData<C>);

impl<C: Ledgers> Ledger for OfFinished<C> {
    ghost name = { C.finished };

    ghost parts = { C.parts };
}

/// The ledger of replies that left. It is whole: one seat has all of it.
pub struct OfSent<C: Ledgers>(PhantomData<C>);

impl<C: Ledgers> Ledger for OfSent<C> {
    ghost name = { C.sent };

    ghost parts = { 1 };
}

/// The books of a board's ledgers: one for each kind of event, and one of the replies to the client's events.
#[derive(Drop)]
pub struct Books<C: Ledgers> {
    pub client: Book<OfClient<C>>,
    pub heard: Book<OfHeard<C>>,
    pub took: Book<OfTook<C>>,
    pub returned: Book<OfReturned<C>>,
    pub finished: Book<OfFinished<C>>,
    pub sent: Book<OfSent<C>>,
}

/// Shares of the workers' three ledgers.
#[derive(Drop)]
pub struct WorkerShares<C: Ledgers> {
    pub took: Share<OfTook<C>>,
    pub returned: Share<OfReturned<C>>,
    pub finished: Share<OfFinished<C>>,
}

/// Shares of all ledgers of a board.
#[derive(Drop)]
pub struct Shares<C: Ledgers> {
    pub client: Share<OfClient<C>>,
    pub heard: Share<OfHeard<C>>,
    pub sent: Share<OfSent<C>>,
    pub workers: WorkerShares<C>,
}

/// New ledgers and a new book, none of which has a type yet. A board is made of them.
#[derive(Drop)]
pub struct Blanks {
    pub client: Blank,
    pub heard: Blank,
    pub took: Blank,
    pub returned: Blank,
    pub finished: Blank,
    pub sent: Blank,
    pub history: BlankHistory,
}

impl Blanks {
    /// New ledgers and a new book, the ledgers of the workers cut for so many of them. Takes no memory.
    pub fn new(workers: u32) -> Blanks
        ensures client { result.client.parts ≡ 1 }
        ensures heard { result.heard.parts ≡ 1 }
        ensures took { result.took.parts ≡ workers }
        ensures returned { result.returned.parts ≡ workers }
        ensures finished { result.finished.parts ≡ workers }
        ensures sent { result.sent.parts ≡ 1 }
    {
        Blanks {
            client: Blank::new(1),
            heard: Blank::new(1),
            took: Blank::new(u64::from(workers)),
            returned: Blank::new(u64::from(workers)),
            finished: Blank::new(u64::from(workers)),
            sent: Blank::new(1),
            history: BlankHistory::new(),
        }
    }

    /// The books of these ledgers with their shares, and the history, which is empty. They must be those that `C` names. Takes no memory.
    pub(crate) fn open<C: Ledgers>(self) -> (Books<C>, Shares<C>, History<C>)
        requires book { self.history ≡ C.book }
        requires heard { (self.heard.name ≡ C.heard) × (self.heard.parts ≡ 1) }
        requires names { (self.client.name ≡ C.client) × (self.took.name ≡ C.took) × (self.returned.name ≡ C.returned) × (self.finished.name ≡ C.finished) × (self.sent.name ≡ C.sent) }
        requires parts { (self.client.parts ≡ 1) × (self.took.parts ≡ C.parts) × (self.returned.parts ≡ C.parts) × (self.finished.parts ≡ C.parts) × (self.sent.parts ≡ 1) }
        ensures totals { (result.0.client.total ≡ 0) × (result.0.heard.total ≡ 0) × (result.0.took.total ≡ 0) × (result.0.returned.total ≡ 0) × (result.0.finished.total ≡ 0) × (result.0.sent.total ≡ 0) }
        ensures whole { (result.1.client.parts ≡ 1) × (result.1.heard.parts ≡ 1) × (result.1.sent.parts ≡ 1) }
        ensures none { (result.1.client.amount ≡ 0) × (result.1.heard.amount ≡ 0) × (result.1.sent.amount ≡ 0) }
        ensures workers { (result.1.workers.took.parts ≡ C.parts) × (result.1.workers.returned.parts ≡ C.parts) × (result.1.workers.finished.parts ≡ C.parts) }
        ensures unworked { (result.1.workers.took.amount ≡ 0) × (result.1.workers.returned.amount ≡ 0) × (result.1.workers.finished.amount ≡ 0) }
        ensures history { result.2 ≡ [] }
    {
        let (client, all_of_client) = self.client.open::<OfClient<C>>();
        let (heard, all_heard) = self.heard.open::<OfHeard<C>>();
        let (took, all_took) = self.took.open::<OfTook<C>>();
        let (returned, all_returned) = self.returned.open::<OfReturned<C>>();
        let (finished, all_finished) = self.finished.open::<OfFinished<C>>();
        let (sent, all_sent) = self.sent.open::<OfSent<C>>();
        let books = Books {
            client,
            heard,
            took,
            returned,
            finished,
            sent,
        };
        let shares = Shares {
            client: all_of_client,
            heard: all_heard,
            sent: all_sent,
            workers: WorkerShares {
                took: all_took,
                returned: all_returned,
                finished: all_finished,
            },
        };
        (books, shares, self.history.named::<C>())
    }
}
