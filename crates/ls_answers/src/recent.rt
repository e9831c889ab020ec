//! What is kept of the texts that were asked about last.

ghost use Rattle.std.specs.Prelude.{◌≡◌, ◌<◌, IfOk, IfSome, IsTrue, length};
ghost use Rattle.std.specs.Arc.{arc_value};
ghost use Rattle.incremental_findings.specs.Recent.{IsTaken};
ghost use Rattle.draft_grammars.specs.Drafts.{contents_in};
ghost use Rattle.ls_answers.specs.Remembered as spec;

use arrayvec::ArrayVec;
use draft_grammars::{DraftGrammar, Format};
use ls_text::Snapshot;
use std::alloc::{AllocError as Memory, Global};
use std::marker::Model;
use std::sync::Arc;

/// How many drafts are kept, of as many documents.
const MOST: usize = 4;

/// A draft whose grammar was gathered.
#[derive(Drop)]
pub struct ReadDraft {
    format: Format,
    draft: Arc<Snapshot>,
    grammar: Arc<DraftGrammar>,
}

impl Model for ReadDraft {
    ghost use Rattle.std.specs.Prelude.{◌≡◌};
    ghost use Rattle.std.specs.Arc.{arc_value};
    ghost use Rattle.draft_grammars.specs.Drafts.{contents_in};
    ghost use Rattle.ls_answers.specs.Remembered.{KnownDraft};

    ghost Value = { KnownDraft };

    ghost view = { λ d. record { format = d.format; text = arc_value d.draft } };

    ghost invariant = { λ d. arc_value d.grammar ≡ contents_in d.format (arc_value d.draft) };
}

impl ReadDraft {
    /// A draft, whose grammar is gathered: with the help of a draft that it follows, if there is one.
    fn of(
        alloc: Global,
        format: Format,
        draft: &Arc<Snapshot>,
        before: Option<ReadDraft>,
    ) -> Result<ReadDraft, Memory>
        ensures { IfOk result (λ read. read ≡ record { format = format; text = arc_value draft.now }) }
    {
        let grammar = match &before {
            Some(before) => DraftGrammar::following(alloc, format, draft, &before.grammar)?,
            None => DraftGrammar::of(alloc, format, draft)?,
        };
        let draft = draft.clone()?;
        let grammar = Arc::new(alloc, grammar)?;
        Ok(ReadDraft {
            format,
            draft,
            grammar,
        })
    }

    /// The draft's grammar.
    pub fn grammar(&self) -> &DraftGrammar
        ensures { result.now ≡ contents_in self.now.format self.now.text }
    {
        &self.grammar
    }

    /// Whether it is this draft.
    fn is_of(&self, format: Format, draft: &Snapshot) -> bool
        ensures { IsTrue result → (self.now ≡ record { format = format; text = draft.now }) }
    {
        self.format == format && self.draft.same_text(draft)
    }

    /// One more owner of the draft and its grammar, which aren't copied.
    fn share(&self) -> Result<ReadDraft, Memory>
        ensures { IfOk result (λ shared. shared ≡ self.now) }
    {
        Ok(ReadDraft {
            format: self.format,
            draft: self.draft.clone()?,
            grammar: self.grammar.clone()?,
        })
    }

    /// Whether half of the lines or more are those of another draft, from the front or from the back.
    fn is_near(&self, other: &Snapshot) -> bool {
        let least = self.draft.line_count().min(other.line_count());
        let most = self.draft.line_count().max(other.line_count());
        let front = self.draft.same_front(other);
        let back = self.draft.same_back(other, least.saturating_sub(front));
        front.saturating_add(back) >= most / 2
    }
}

/// What is kept of the texts that were asked about last: of four grammars what is found in them, and four drafts with their grammars.
/// It may spare the questions that come much work, and no answer depends on it.
#[derive(Drop)]
pub struct Recent {
    pub(crate) grammars: incremental_findings::Recent,
    // (Options, since the vector fills the places that aren't used.)
    drafts: ArrayVec<Option<ReadDraft>, MOST>,
}

impl Model for Recent {
    ghost use Rattle.ls_answers.specs.Remembered.{Remembered};

    ghost Value = { Remembered };

    ghost view = { λ r. record { grammars = r.grammars; drafts = r.drafts.items } };
}

/// Which of some drafts is near to a text, the newest of several; none where none is.
fn nearest(drafts: &[Option<ReadDraft>], text: &Snapshot) -> Option<usize>
    ensures { IfSome result (λ at. at < length drafts.now) }
{
    let mut nearest = None;
    for at in 0..drafts.len() {
        if let Some(read) = &drafts[at] {
            if read.is_near(text) {
                nearest = Some(at);
            }
        }
    }
    nearest
}

impl Recent {
    /// Nothing yet. It takes no memory.
    pub fn new() -> Recent
        ensures { result ≡ spec.nothing_kept }
    {
        Recent {
            grammars: incremental_findings::Recent::new(),
            drafts: ArrayVec::new(),
        }
    }

    /// One more owner of the draft that is near to a text, if one is.
    fn shared(&self, text: &Snapshot) -> Option<ReadDraft>
        ensures { spec.IsOneOf self.now.drafts result }
    {
        let at = nearest(self.drafts.as_slice(), text)?;
        match &self.drafts[at] {
            Some(read) => read.share().ok(),
            None => None,
        }
    }

    /// Takes the draft that is near to a text, if one is.
    fn take_draft(&mut self, text: &Snapshot) -> Option<ReadDraft>
        ensures grammars { self.new.grammars ≡ self.old.grammars }
        ensures drafts { IsTaken self.old.drafts result self.new.drafts }
    {
        match nearest(self.drafts.as_slice(), text) {
            Some(at) => self.drafts.remove(at),
            None => None,
        }
    }

    /// Keeps a draft in the place of the one that is near to it, if one is. Of more than four the oldest is let go.
    pub(crate) fn keep_draft(&mut self, read: ReadDraft)
        ensures grammars { self.new.grammars ≡ self.old.grammars }
        ensures drafts { spec.IsDraftKept self.old.drafts read self.new.drafts }
    {
        drop(self.take_draft(&read.draft));
        if self.drafts.is_full() {
            self.drafts.remove(0);
        }
        self.drafts.push(Some(read));
    }

    /// A draft with its grammar: the kept one, if it is kept, and else it is gathered. It is taken from what is kept, or another one in its
    /// place.
    pub(crate) fn read_draft(
        &mut self,
        alloc: Global,
        format: Format,
        draft: &Arc<Snapshot>,
    ) -> Result<ReadDraft, Memory>
        ensures { IfOk result (λ read. read ≡ record { format = format; text = arc_value draft.now }) }
    {
        let near = self.take_draft(draft);
        match near {
            Some(read) if read.is_of(format, draft) => Ok(read),
            near => ReadDraft::of(alloc, format, draft, near),
        }
    }

    /// Shares the draft that is near to a text, if one is, as drafts of their own.
    pub fn share(&self, text: &Snapshot) -> Recent
        ensures { spec.IsShared self.now result }
    {
        let mut shared = Recent::new();
        if let Some(read) = self.shared(text) {
            shared.drafts.push(Some(read));
        }
        shared
    }

    /// Shares the draft that is near to a text, if one is, and lends what is kept of its grammar, or of the text itself: that is gone from
    /// these meanwhile.
    pub fn lend(&mut self, text: &Snapshot) -> Recent
        ensures { spec.IsLent self.old self.new result }
    {
        let mut lent = Recent::new();
        match self.shared(text) {
            Some(read) => {
                lent.grammars = self.grammars.lend(read.grammar().text());
                lent.drafts.push(Some(read));
            }
            None => lent.grammars = self.grammars.lend(text),
        }
        lent
    }

    /// Keeps the last of the grammars and of the drafts of others, if there are such.
    pub fn take_back(&mut self, others: Recent)
        ensures { spec.IsTakenBack self.old others self.new }
    {
        let Recent {
            grammars,
            mut drafts,
        } = others;
        self.grammars.take_back(grammars);
        if let Some(Some(read)) = drafts.pop() {
            self.keep_draft(read);
        }
    }

    /// Lets go what is kept of a text: the draft that is near to it, if one is, and what is kept of its grammar, or of the text itself. Gives
    /// what goes, as texts of their own.
    pub fn let_go(&mut self, text: &Snapshot) -> Recent
        ensures { spec.IsLetGo self.old self.new result }
    {
        let mut gone = Recent::new();
        match self.take_draft(text) {
            Some(read) => {
                gone.grammars = self.grammars.lend(read.grammar().text());
                gone.drafts.push(Some(read));
            }
            None => gone.grammars = self.grammars.lend(text),
        }
        gone
    }
}
