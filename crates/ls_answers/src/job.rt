//! Questions about a text, and what they give.
ghost use Rattle.std.specs.Prelude.{◌≡◌, IfOk, IfSome, MatchResult, None, Ok, Some};
ghost use Rattle.std.specs.Arc.{arc_value};
ghost use Rattle.ls_answers.specs.Answers.{IsAnswer, KeepsIfRenamed};
ghost use Rattle.ls_answers.specs.Asks.{IsToNoName};

use crate::answer::{Answer, RenameFault};
use crate::ask::Ask;
use crate::in_draft::answer_in_draft;
use crate::in_grammar::answer_in_grammar;
use crate::recent::Recent;
use draft_grammars::Format;
use ls_text::{Encoding, Snapshot};
use std::alloc::{AllocError as Memory, Global};
use std::marker::Model;
use std::sync::Arc;

/// A question about a text.
#[derive(Drop)]
pub struct Job {
    /// The number of the request, from 1 over the session.
    pub ticket: u64,
    /// The text that is asked about.
    pub snapshot: Arc<Snapshot>,
    /// What the positions of the question and of its answer count.
    pub encoding: Encoding,
    /// The question.
    pub ask: Ask,
}

/// A job that has run. The type keeps that its answer is the definition's (`IsAnswer`) for just its own text, encoding and question, or
/// that memory was refused.
pub struct Done {
    ticket: u64,
    snapshot: Arc<Snapshot>,
    encoding: Encoding,
    ask: Ask,
    answer: Result<Answer, Memory>,
}

// Not derived, so that what lets one go is proved without its fields.
impl Drop for Done {
    fn drop(self) {
        let Done {
            ticket: _,
            snapshot: _,
            encoding: _,
            ask: _,
            answer: _,
        } = self;
    }
}

impl Model for Done {
    ghost use Rattle.ls_answers.specs.Told.{Told};
    ghost use Rattle.ls_answers.specs.Answers.{IsAnswer};
    ghost use Rattle.std.specs.Prelude.{IfOk};
    ghost use Rattle.std.specs.Arc.{arc_value};
    ghost use Rattle.std.specs.Result.{result_ok};

    ghost Value = { Told };

    ghost view = { λ d. record { ticket = d.ticket; text = arc_value d.snapshot; encoding = d.encoding; ask = d.ask; answer = result_ok d.answer } };

    ghost invariant = { λ d. IfOk d.answer (λ a. IsAnswer d.encoding (arc_value d.snapshot) d.ask a) };
}

impl Done {
    /// The number of the request, from 1 over the session.
    pub fn ticket(&self) -> u64
        ensures { result ≡ self.now.ticket }
    {
        self.ticket
    }

    /// The text that was asked about.
    pub fn snapshot(&self) -> &Snapshot
        ensures { result.now ≡ self.now.text }
    {
        &self.snapshot
    }

    /// One more owner of the text, which isn't copied.
    ///
    /// # Errors
    ///
    /// Where an allocation is refused.
    pub fn share(&self) -> Result<Arc<Snapshot>, Memory>
        ensures { IfOk result (λ arc. arc_value arc ≡ self.now.text) }
    {
        self.snapshot.clone()
    }

    /// What the positions of the question and of its answer count.
    pub fn encoding(&self) -> Encoding
        ensures { result ≡ self.now.encoding }
    {
        self.encoding
    }

    /// The question.
    pub fn ask(&self) -> &Ask
        ensures { result.now ≡ self.now.ask }
    {
        &self.ask
    }

    /// The answer for just the job's own text, encoding and question. Where ranges answer a rename, the text after these edits has the same
    /// grammar but for the name that they give anew.
    ///
    /// # Errors
    ///
    /// Where memory was refused when the job ran. It asks for none itself.
    pub fn answer(&self) -> Result<&Answer, Memory>
        ensures value { MatchResult result (λ a. self.now.answer ≡ Some a.now) (λ _. self.now.answer ≡ None) }
        ensures right { IfOk result (λ a. IsAnswer self.now.encoding self.now.text self.now.ask a.now) }
        ensures keeps { IfOk result (λ a. KeepsIfRenamed self.now.encoding self.now.text self.now.ask a.now) }
    {
        let _count = self.snapshot.char_count();
        match &self.answer {
            Ok(answer) => Ok(answer),
            Err(_) => Err(Memory),
        }
    }
}

/// The answer to a question about a document, as a grammar or as a draft.
fn answer_of(
    alloc: Global,
    recent: &mut Recent,
    snapshot: &Arc<Snapshot>,
    encoding: Encoding,
    ask: &Ask,
) -> Result<Answer, Memory>
    ensures answer { IfOk result (λ answer. IsAnswer encoding (arc_value snapshot.now) ask.now answer) }
    ensures not_a_name { IsToNoName ask.now → result ≡ Ok (Answer.Refused RenameFault.NotAName) }
{
    match Format::of(encoding) {
        Some(format) => answer_in_draft(alloc, recent, format, snapshot, encoding, ask),
        None => answer_in_grammar(alloc, &mut recent.grammars, snapshot, encoding, ask),
    }
}

/// Answers the question of a job. A refusal of memory is kept in what it gives.
///
/// The edits of a rename that is granted keep the grammar of the text: line by line its tokens but at the places of the name, and its rules
/// with what they generate. A rename to what is no name is refused as that, whatever memory there is.
///
/// What is kept of the last texts is the caller's to keep from one run to the next, nothing at first: it may spare much work on the next
/// text, and no answer depends on it.
///
/// All else grows with the size of the text. An outline reads the text's tokens, the places of a name those and the blocks that have the
/// name. A rename, a hover, an insertion and the classes of tokens make the text's grammar; a hover and an insertion search a certificate
/// of it besides.
pub fn run_keeping(alloc: Global, recent: &mut Recent, job: Job) -> Done
    ensures ticket { result.ticket ≡ job.ticket }
    ensures text { result.text ≡ arc_value job.snapshot }
    ensures encoding { result.encoding ≡ job.encoding }
    ensures ask { result.ask ≡ job.ask }
    ensures keeps { IfSome result.answer (λ answer. KeepsIfRenamed job.encoding (arc_value job.snapshot) job.ask answer) }
    ensures not_a_name { IsToNoName job.ask → result.answer ≡ Some (Answer.Refused RenameFault.NotAName) }
{
    let Job {
        ticket,
        snapshot,
        encoding,
        ask,
    } = job;
    let _count = snapshot.char_count();
    let answer = answer_of(alloc, recent, &snapshot, encoding, &ask);
    Done {
        ticket,
        snapshot,
        encoding,
        ask,
        answer,
    }
}

/// Answers the question of a job as [`run_keeping`] does, and keeps nothing for the next one: so the findings of a text are searched in all
/// of it each time.
pub fn run(alloc: Global, job: Job) -> Done
    ensures ticket { result.ticket ≡ job.ticket }
    ensures text { result.text ≡ arc_value job.snapshot }
    ensures encoding { result.encoding ≡ job.encoding }
    ensures ask { result.ask ≡ job.ask }
    ensures keeps { IfSome result.answer (λ answer. KeepsIfRenamed job.encoding (arc_value job.snapshot) job.ask answer) }
    ensures not_a_name { IsToNoName job.ask → result.answer ≡ Some (Answer.Refused RenameFault.NotAName) }
{
    let mut recent = Recent::new();
    run_keeping(alloc, &mut recent, job)
}
