//! The texts that all workers together were asked about last.
ghost use Rattle.std.specs.Prelude.{◌≡◌, ◌≢◌, ◌+◌, ◌%◌, IfNone, IfSome};
ghost use Rattle.ls_answers.specs.Remembered.{IsLent, IsLetGo, IsShared, IsTakenBack, nothing_kept};

use ls_answers::Recent;
use ls_desk::SharedSnapshot;
use ls_text::Snapshot;
use std::mem;

/// What is kept of the texts that all workers together were asked about last, and how many documents were closed: from 0 again behind
/// 2^64 - 1.
#[derive(Drop)]
pub struct Lately {
    pub texts: Recent,
    pub closed: u64,
}

/// What a worker has of these meanwhile, and how many documents had been closed when it was lent.
#[derive(Drop)]
pub struct Lent {
    pub texts: Recent,
    pub closed: u64,
}

impl Lately {
    /// Nothing yet. Takes no memory.
    pub fn new() -> Lately
        ensures texts { result.texts ≡ nothing_kept }
        ensures closed { result.closed ≡ 0 }
    {
        Lately {
            texts: Recent::new(),
            closed: 0,
        }
    }

    /// Lends what is kept of the one that is nearest to a text, if one is near.
    pub fn lend(&mut self, snapshot: &Snapshot) -> Lent
        ensures lent { IsLent self.old.texts self.new.texts result.texts }
        ensures closed { (self.new.closed ≡ self.old.closed) × (result.closed ≡ self.old.closed) }
    {
        Lent {
            texts: self.texts.lend(snapshot),
            closed: self.closed,
        }
    }

    /// Shares the draft that is near to a text, if one is.
    pub fn share(&self, snapshot: &Snapshot) -> Lent
        ensures shared { IsShared self.now.texts result.texts }
        ensures closed { result.closed ≡ self.now.closed }
    {
        Lent {
            texts: self.texts.share(snapshot),
            closed: self.closed,
        }
    }

    /// Keeps what a worker has found with what it was lent. Where a document was closed since then it goes, as it may be of that one.
    pub fn take_back(&mut self, lent: Lent)
        ensures kept { lent.closed ≡ self.old.closed → IsTakenBack self.old.texts lent.texts self.new.texts }
        ensures gone { lent.closed ≢ self.old.closed → self.new.texts ≡ self.old.texts }
        ensures closed { self.new.closed ≡ self.old.closed }
    {
        if lent.closed == self.closed {
            self.texts.take_back(lent.texts);
        }
    }

    /// A document was closed that had this text: what is kept of it goes, the one that is nearest to it, if one is near. Where the text
    /// isn't known all go. Gives what goes, as texts of their own.
    pub fn let_go(&mut self, text: &Option<SharedSnapshot>) -> Recent
        ensures near { IfSome text.now (λ _. IsLetGo self.old.texts self.new.texts result) }
        ensures all { IfNone text.now ((self.new.texts ≡ nothing_kept) × (result ≡ self.old.texts)) }
        ensures closed { self.new.closed ≡ (self.old.closed + 1) % 18446744073709551616 }
    {
        self.closed = self.closed.wrapping_add(1);
        match text {
            Some(text) => self.texts.let_go(text.get()),
            None => mem::replace(&mut self.texts, Recent::new()),
        }
    }
}
