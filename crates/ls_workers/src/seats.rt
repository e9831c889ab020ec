//! Seats: what the client's reader, the workers and the writer hold.
ghost use Rattle.std.specs.Prelude.{◌≡◌, ◌+◌, ◌++◌, ◌∷◌, ◌<◌, ◌^◌, [], length, vec_len, vec_capacity};
ghost use mathlib.Core.List.{IsPrefix};
ghost use Rattle.ls_history.specs.Told.{heard_of, outs_of};
ghost use Rattle.ls_workers.specs.Seats.{logged_by, logged_nothing, since};

use crate::audit_log::AuditLog;
use crate::ledgers::{Ledgers, OfClient, OfFinished, OfHeard, OfReturned, OfSent, OfTook};
use ls_history::{Front, History};
use std::alloc::Global;
use std::sync::Wait;
use std::sync::ledger::{Book, Ledger, Share};

/// How many events of a kind a seat has written: a number, and the share of the kind's ledger that bears it out.
#[derive(Drop)]
pub struct Count<L: Ledger> {
    number: u64,
    pub share: Share<L>,
    pub ghost is: { number ≡ share.amount },
}

impl<L: Ledger> Count<L> {
    /// Nothing has been counted: the share must be of nothing.
    pub fn new(share: Share<L>) -> Count<L>
        requires { share.amount ≡ 0 }
        ensures { result.share ≡ share }
    {
        Count { number: 0, share }
    }

    /// How many events the seat has written: the amount of its share.
    pub fn get(&self) -> u64
        ensures { result ≡ self.now.share.amount }
    {
        self.number
    }

    /// Changes nothing. Where the share is all of its ledger, it shows that the seat has written as many events as the book has: it is
    /// called for what its contract says.
    pub fn audit(&mut self, book: &mut Book<L>)
        ensures whole { self.old.share.parts ≡ L.parts → self.old.share.amount ≡ book.old.total }
        ensures total { book.new.total ≡ book.old.total }
        ensures amount { self.new.share.amount ≡ self.old.share.amount }
        ensures parts { self.new.share.parts ≡ self.old.share.parts }
    {
        let Count { share, .. } = self;
        book.audit(share);
    }

    /// The seat has written one event more: share and book are raised by one together. The book must be below 2^64 - 1.
    pub fn one_more(&mut self, book: &mut Book<L>)
        requires parts { 0 < self.old.share.parts }
        requires room { book.old.total + 1 < 2 ^ 64 }
        ensures whole { self.old.share.parts ≡ L.parts → self.old.share.amount ≡ book.old.total }
        ensures total { book.new.total ≡ book.old.total + 1 }
        ensures amount { self.new.share.amount ≡ self.old.share.amount + 1 }
        ensures parts { self.new.share.parts ≡ self.old.share.parts }
    {
        let Count { number, share } = self;
        book.audit(share);
        *number += 1;
        book.add(share, 1);
    }
}

/// The seat of a board's client: whoever has it enters the client's events.
#[derive(Drop)]
pub struct ClientSeat<C: Ledgers> {
    /// The mark of its board.
    pub mark: u64,
    /// How many events it has entered.
    pub asked: Count<OfClient<C>>,
    /// What it knows of these events.
    pub audit_log: AuditLog,
    /// What it has seen of the history, which has each of its client's events, with the answer or the refusal.
    pub front: Front<C>,
    /// The share that says that it is all.
    pub heard: Share<OfHeard<C>>,
    pub ghost whole: { asked.share.parts ≡ 1 },
    pub ghost whole_heard: { heard.parts ≡ 1 },
    pub ghost all_heard: { heard.amount ≡ length (heard_of front) },
}

impl<C: Ledgers> ClientSeat<C> {
    /// A seat that has entered nothing, of the board with this mark. Takes no memory.
    pub fn new(
        alloc: Global,
        mark: u64,
        share: Share<OfClient<C>>,
        front: Front<C>,
        heard: Share<OfHeard<C>>,
    ) -> ClientSeat<C>
        requires none { (share.parts ≡ 1) × (share.amount ≡ 0) }
        requires unheard { (heard.parts ≡ 1) × (heard.amount ≡ 0) × (front ≡ []) }
        ensures none { (result.mark ≡ mark) × (result.asked.share.amount ≡ 0) × (logged_by result.audit_log ≡ logged_nothing) }
        ensures front { result.front ≡ [] }
    {
        ClientSeat {
            mark,
            asked: Count::new(share),
            audit_log: AuditLog::nothing(alloc),
            front,
            heard,
        }
    }
}

/// The seat of a board's writer: whoever has it is given the replies.
#[derive(Drop)]
pub struct WriterSeat<C: Ledgers> {
    /// The mark of its board.
    pub mark: u64,
    /// How many replies it was given.
    pub sent: Count<OfSent<C>>,
    /// The tickets of the replies that it was given since the last checkpoint that it has seen, 0 for a body.
    pub tickets: Vec<u64>,
    /// How many checkpoints there had been when it was given the last reply.
    pub checkpoints: u64,
    /// What it has seen of the history, which has all replies that it was given.
    pub front: Front<C>,
    pub ghost whole: { sent.share.parts ≡ 1 },
    pub ghost all_left: { sent.share.amount ≡ length (outs_of front) },
}

impl<C: Ledgers> WriterSeat<C> {
    /// A seat that was given nothing, of the board with this mark. Takes no memory.
    pub fn new(alloc: Global, mark: u64, share: Share<OfSent<C>>, front: Front<C>) -> WriterSeat<C>
        requires none { (share.parts ≡ 1) × (share.amount ≡ 0) }
        requires unsent { front ≡ [] }
        ensures given { (result.mark ≡ mark) × (result.sent.share.amount ≡ 0) × (result.tickets.items ≡ []) × (result.checkpoints ≡ 0) }
        ensures front { result.front ≡ [] }
    {
        WriterSeat {
            mark,
            sent: Count::new(share),
            tickets: Vec::new(alloc),
            checkpoints: 0,
            front,
        }
    }

    /// Sees all of the history, which has as many replies as the book: just those that it was given.
    pub(crate) fn follow(
        &mut self,
        rt: &impl Wait,
        book: &mut Book<OfSent<C>>,
        history: &History<C>,
    )
        requires { book.old.total ≡ length (outs_of history.now) }
        ensures seen { self.new.front ≡ history.now }
        ensures grows { IsPrefix self.old.front history.now }
        ensures outs { outs_of self.new.front ≡ outs_of self.old.front }
        ensures total { book.new.total ≡ book.old.total }
        ensures counted { (self.new.sent.share.amount ≡ self.old.sent.share.amount) × (self.new.sent.share.amount ≡ book.new.total) }
        ensures kept { (self.new.mark ≡ self.old.mark) × (self.new.tickets ≡ self.old.tickets) × (self.new.checkpoints ≡ self.old.checkpoints) }
    {
        let WriterSeat { sent, front, .. } = self;
        sent.audit(book);
        front.follow(rt, history);
    }

    /// A reply leaves. The tickets begin anew with its own where there was a checkpoint since the last one.
    pub(crate) fn add(&mut self, checkpoints: u64, ticket: u64)
        requires { vec_len self.old.tickets < vec_capacity self.old.tickets }
        ensures tickets { self.new.tickets.items ≡ since checkpoints self.old.checkpoints self.old.tickets.items ++ ticket ∷ [] }
        ensures seen { self.new.checkpoints ≡ checkpoints }
        ensures kept { (self.new.sent.share.amount ≡ self.old.sent.share.amount) × (self.new.mark ≡ self.old.mark) }
        ensures front { self.new.front ≡ self.old.front }
    {
        if self.checkpoints != checkpoints {
            self.tickets.clear();
            self.checkpoints = checkpoints;
        }
        self.tickets.push_reserved(ticket);
    }
}

/// The seat of one of a board's workers: whoever has it takes jobs, and brings them back.
#[derive(Drop)]
pub struct WorkerSeat<C: Ledgers> {
    /// The mark of its board.
    pub mark: u64,
    /// Which worker it is, from 0.
    pub number: u32,
    /// How many jobs it has taken.
    pub took: Count<OfTook<C>>,
    /// How many jobs it has given back unrun.
    pub returned: Count<OfReturned<C>>,
    /// How many jobs that it brought back have run.
    pub finished: Count<OfFinished<C>>,
    /// What it has seen of the history: all of it, as it was when it last called.
    pub front: Front<C>,
    pub ghost one_took: { took.share.parts ≡ 1 },
    pub ghost one_returned: { returned.share.parts ≡ 1 },
    pub ghost one_finished: { finished.share.parts ≡ 1 },
}
