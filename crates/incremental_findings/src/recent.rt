//! The texts that were diagnosed last.

ghost use Rattle.std.specs.Prelude.{◌≡◌, ◌<◌, [], IfSome, Option, Some, length};
ghost use Rattle.incremental_findings.specs.Known.{Known};
ghost use Rattle.incremental_findings.specs.Recent.{IsTaken, lent, with_last, with_text};

use crate::diagnosed::Diagnosed;
use arrayvec::ArrayVec;
use ls_text::Snapshot;
use std::marker::Model;

/// How many texts are kept: of as many documents where an author changes several in turn.
const MOST: usize = 4;

/// How many lines of two texts are compared from the front, and how many from the back.
const SAMPLES: usize = 4;

/// How many of all these are the same where one text is made of the other by few edits.
const ENOUGH: usize = 3;

/// So many lines are looked at for one that isn't empty: empty ones are the same in most texts.
const REACH: usize = 8;

/// The texts that were diagnosed last, the newest last. Contracts see them as a list.
pub struct Recent {
    // (Options, since the vector fills the places that aren't used.)
    texts: ArrayVec<Option<Diagnosed>, MOST>,
}

// Not derived, so that what lets one go is proved without its fields.
impl Drop for Recent {
    fn drop(self) {
        let Recent { texts: _ } = self;
    }
}

impl Model for Recent {
    ghost use Rattle.incremental_findings.specs.Recent.{Texts};

    ghost Value = { Texts };

    ghost view = { λ r. r.texts.items };
}

/// The first line from one on that isn't empty, if one of a few isn't.
fn sample(snapshot: &Snapshot, from: usize) -> &str {
    for at in from..from.saturating_add(REACH) {
        if let Some(line) = snapshot.line(at) {
            if !line.is_empty() {
                return line;
            }
        }
    }
    ""
}

/// How many of some lines are the same in both texts, at the same places from the front or from the back.
fn same_samples(ours: &Snapshot, theirs: &Snapshot) -> usize {
    let (more, others) = (ours.line_count(), theirs.line_count());
    let count = more.min(others);
    let mut same = 0;
    for number in 0..SAMPLES {
        let at = count / SAMPLES * number;
        if sample(ours, at) == sample(theirs, at) {
            same += 1;
        }
        if sample(ours, more - count + at) == sample(theirs, others - count + at) {
            same += 1;
        }
    }
    same
}

/// Which of some texts is nearest to another one, the newest of several; none where none is near.
fn nearest(texts: &[Option<Diagnosed>], snapshot: &Snapshot) -> Option<usize>
    ensures { IfSome result (λ at. at < length texts.now) }
{
    let mut nearest = None;
    let mut most = ENOUGH;
    for at in 0..texts.len() {
        if let Some(diagnosed) = &texts[at] {
            let same = same_samples(diagnosed.snapshot(), snapshot);
            if same >= most {
                nearest = Some(at);
                most = same;
            }
        }
    }
    nearest
}

impl Recent {
    /// None yet.
    pub fn new() -> Recent
        ensures { result ≡ [] }
    {
        Recent {
            texts: ArrayVec::new(),
        }
    }

    /// Takes the text that is likeliest to help to find what another one has, if one is likely to: that of which most of eight lines stand
    /// there, too.
    pub fn take_near(&mut self, snapshot: &Snapshot) -> Option<Diagnosed>
        ensures { IsTaken self.old result self.new }
    {
        match nearest(self.texts.as_slice(), snapshot) {
            Some(at) => self.texts.remove(at),
            None => None,
        }
    }

    /// Lends the text that [`Recent::take_near`] takes, if it takes one: as texts of their own.
    pub fn lend(&mut self, snapshot: &Snapshot) -> Recent
        ensures { (taken : Option Known) × IsTaken self.old taken self.new × (result ≡ lent taken) }
    {
        let mut texts = Recent::new();
        if let Some(near) = self.take_near(snapshot) {
            texts.keep(near);
        }
        texts
    }

    /// Keeps the last of some others, if there is one.
    pub fn take_back(&mut self, others: Recent)
        ensures { self.new ≡ with_last self.old others }
    {
        let Recent { mut texts } = others;
        if let Some(Some(last)) = texts.pop() {
            self.keep(last);
        }
    }

    /// Keeps one more. Of more than four the oldest is let go.
    pub fn keep(&mut self, diagnosed: Diagnosed)
        ensures { self.new ≡ with_text self.old (Some diagnosed) }
    {
        if self.texts.is_full() {
            self.texts.remove(0);
        }
        self.texts.push(Some(diagnosed));
    }
}
