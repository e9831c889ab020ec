//! What the journal has led to, but for the replies.
ghost use Rattle.std.specs.Prelude.{◌≡◌, ◌+◌, ◌<◌, ◌≤◌, ◌^◌, ◌++◌, ◌∷◌, [], Bool, IfOk, Some, true, false, length, find, position, vec_len, vec_capacity};
ghost use Rattle.ls_machine.specs.declared.state.Waiting.{Waiting};
ghost use Rattle.ls_machine.specs.Machine.{is_open, going_on, others, without_first_job, on_first, with_taken, edited_at, measured, version_if};
ghost use Rattle.ls_desk.specs.own.Puts.{next_of, documents_of, jobs_of, count_of};

use crate::job::about;
use crate::texts::Next;
use ls_answers::Ask;
use ls_lists::Text;
use ls_machine::find::is_ended;
use ls_machine::{Document, SharedSnapshot, Waiting};
use ls_text::{Edit, Encoding, TextFault};
use std::alloc::{AllocError, Global};

/// The jobs that the end of a text ends go.
fn end_jobs(waiting: &mut Vec<Waiting>, uri: &Text)
    ensures items { waiting.new.items ≡ going_on uri.now waiting.old.items }
    ensures fewer { vec_len waiting.new ≤ vec_len waiting.old }
    ensures capacity { vec_capacity waiting.new ≡ vec_capacity waiting.old }
{
    waiting.retain(|job| !is_ended(uri, job));
}

/// The document of this name goes.
fn close_document(documents: &mut Vec<Document>, uri: &Text)
    ensures items { documents.new.items ≡ others uri.now documents.old.items }
    ensures capacity { vec_capacity documents.new ≡ vec_capacity documents.old }
    ensures place { is_open uri.now documents.old.items ≡ true → vec_len documents.new < vec_capacity documents.new }
{
    documents.retain(|document| document.uri.as_str() != uri.as_str());
}

/// The version that a change puts down, which is the one given.
fn version_of(next: &Option<Next>, version: u64) -> Option<u64>
    ensures { result ≡ version_if version next.now }
{
    match next {
        Some(_) => Some(version),
        None => None,
    }
}

/// The open documents, the jobs that wait, queued or taken, and the version and the ticket that come next.
#[derive(Drop)]
pub struct Present {
    pub documents: Vec<Document>,
    pub waiting: Vec<Waiting>,
    pub next_version: u64,
    pub next_ticket: u64,
}

impl Present {
    /// No document is open, and no job waits. Takes no memory.
    pub fn new(alloc: Global) -> Present
        ensures documents { result.documents.items ≡ [] }
        ensures waiting { result.waiting.items ≡ [] }
        ensures version { result.next_version ≡ 1 }
        ensures ticket { result.next_ticket ≡ 1 }
    {
        Present {
            documents: Vec::new(alloc),
            waiting: Vec::new(alloc),
            next_version: 1,
            next_ticket: 1,
        }
    }

    /// A text with the next version, and the job to diagnose it with the next ticket.
    pub fn next_text(
        &self,
        uri: &Text,
        label: i64,
        text: &SharedSnapshot,
        encoding: Encoding,
    ) -> Result<Next, AllocError>
        ensures { IfOk result (λ next. Some next ≡ next_of self.now.next_version self.now.next_ticket uri.now label (Some (measured encoding text.now))) }
    {
        let document = Document {
            uri: uri.copy()?,
            version: self.next_version,
            label,
            text: text.again()?,
            encoding,
        };
        let waiting = about(&document, self.next_ticket, Ask::Diagnose, None)?;
        Ok(Next { document, waiting })
    }

    /// The text of a document after edits, or none where it would be too large.
    pub fn changed_text(
        &self,
        alloc: Global,
        uri: &Text,
        label: i64,
        document: &Document,
        edits: &[Edit],
    ) -> Result<Option<Next>, AllocError>
        ensures { IfOk result (λ next. next ≡ next_of self.now.next_version self.now.next_ticket uri.now label (edited_at (Some document.now) edits.now)) }
    {
        match document.text.get().apply(edits, document.encoding) {
            Ok(snapshot) => {
                let text = SharedSnapshot::new(alloc, snapshot)?;
                Ok(Some(self.next_text(uri, label, &text, document.encoding)?))
            }
            Err(TextFault::TooLarge) => Ok(None),
            Err(TextFault::Memory) => Err(AllocError),
        }
    }

    /// Puts a text down.
    fn put_text(&mut self, next: Option<Next>)
        requires documents { vec_len self.old.documents + count_of next ≤ vec_capacity self.old.documents }
        requires waiting { vec_len self.old.waiting + count_of next ≤ vec_capacity self.old.waiting }
        requires version { self.old.next_version + 1 < 2 ^ 64 }
        requires ticket { self.old.next_ticket + 1 < 2 ^ 64 }
        ensures documents { self.new.documents.items ≡ self.old.documents.items ++ documents_of next }
        ensures waiting { self.new.waiting.items ≡ self.old.waiting.items ++ jobs_of next }
        ensures version { self.new.next_version ≡ self.old.next_version + count_of next }
        ensures ticket { self.new.next_ticket ≡ self.old.next_ticket + count_of next }
    {
        if let Some(next) = next {
            let (document, waiting) = next.into_parts();
            self.documents.push_reserved(document);
            self.waiting.push_reserved(waiting);
            self.next_version += 1;
            self.next_ticket += 1;
        }
    }

    /// A document is opened: its text is put down.
    pub fn open(&mut self, next: Next) -> u64
        requires documents { vec_len self.old.documents < vec_capacity self.old.documents }
        requires waiting { vec_len self.old.waiting < vec_capacity self.old.waiting }
        requires version { self.old.next_version + 1 < 2 ^ 64 }
        requires ticket { self.old.next_ticket + 1 < 2 ^ 64 }
        ensures documents { self.new.documents.items ≡ self.old.documents.items ++ documents_of (Some next) }
        ensures waiting { self.new.waiting.items ≡ self.old.waiting.items ++ jobs_of (Some next) }
        ensures version { self.new.next_version ≡ self.old.next_version + 1 }
        ensures ticket { self.new.next_ticket ≡ self.old.next_ticket + 1 }
        ensures result { result ≡ self.old.next_version }
    {
        let version = self.next_version;
        self.put_text(Some(next));
        version
    }

    /// A document is changed: what it ends goes, and the new text, where there is one, is put down in its place.
    pub fn change(&mut self, uri: &Text, next: Option<Next>) -> Option<u64>
        requires open { is_open uri.now self.old.documents.items ≡ true }
        requires waiting { vec_len self.old.waiting + count_of next ≤ vec_capacity self.old.waiting }
        requires version { self.old.next_version + 1 < 2 ^ 64 }
        requires ticket { self.old.next_ticket + 1 < 2 ^ 64 }
        ensures documents { self.new.documents.items ≡ others uri.now self.old.documents.items ++ documents_of next }
        ensures waiting { self.new.waiting.items ≡ going_on uri.now self.old.waiting.items ++ jobs_of next }
        ensures version { self.new.next_version ≡ self.old.next_version + count_of next }
        ensures ticket { self.new.next_ticket ≡ self.old.next_ticket + count_of next }
        ensures result { result ≡ version_if self.old.next_version next }
    {
        let version = version_of(&next, self.next_version);
        end_jobs(&mut self.waiting, uri);
        close_document(&mut self.documents, uri);
        self.put_text(next);
        version
    }

    /// A document is closed: what it ends goes.
    pub fn close(&mut self, uri: &Text)
        ensures documents { self.new.documents.items ≡ others uri.now self.old.documents.items }
        ensures waiting { self.new.waiting.items ≡ going_on uri.now self.old.waiting.items }
        ensures version { self.new.next_version ≡ self.old.next_version }
        ensures ticket { self.new.next_ticket ≡ self.old.next_ticket }
    {
        end_jobs(&mut self.waiting, uri);
        close_document(&mut self.documents, uri);
    }

    /// A job with the next ticket waits from now on.
    pub fn ask(&mut self, job: Waiting) -> u64
        requires waiting { vec_len self.old.waiting < vec_capacity self.old.waiting }
        requires ticket { self.old.next_ticket + 1 < 2 ^ 64 }
        ensures documents { self.new.documents.items ≡ self.old.documents.items }
        ensures waiting { self.new.waiting.items ≡ self.old.waiting.items ++ job ∷ [] }
        ensures version { self.new.next_version ≡ self.old.next_version }
        ensures ticket { self.new.next_ticket ≡ self.old.next_ticket + 1 }
        ensures result { result ≡ self.old.next_ticket }
    {
        let ticket = self.next_ticket;
        self.waiting.push_reserved(job);
        self.next_ticket = ticket + 1;
        ticket
    }

    /// Marks the job at a place as taken or not.
    fn mark_at(&mut self, at: usize, taken: bool)
        requires { at < vec_len self.old.waiting }
        ensures documents { self.new.documents.items ≡ self.old.documents.items }
        ensures waiting { (p : Waiting → Bool) → position p self.old.waiting.items ≡ Some at
            → self.new.waiting.items ≡ on_first p (with_taken taken) self.old.waiting.items }
        ensures version { self.new.next_version ≡ self.old.next_version }
        ensures ticket { self.new.next_ticket ≡ self.old.next_ticket }
    {
        self.waiting[at].taken = taken;
    }

    /// The job at a place is taken.
    pub fn take(&mut self, at: usize)
        requires { at < vec_len self.old.waiting }
        ensures documents { self.new.documents.items ≡ self.old.documents.items }
        ensures waiting { (p : Waiting → Bool) → position p self.old.waiting.items ≡ Some at
            → self.new.waiting.items ≡ on_first p (with_taken true) self.old.waiting.items }
        ensures version { self.new.next_version ≡ self.old.next_version }
        ensures ticket { self.new.next_ticket ≡ self.old.next_ticket }
    {
        self.mark_at(at, true);
    }

    /// The job at a place is given back.
    pub fn give_back(&mut self, at: usize)
        requires { at < vec_len self.old.waiting }
        ensures documents { self.new.documents.items ≡ self.old.documents.items }
        ensures waiting { (p : Waiting → Bool) → position p self.old.waiting.items ≡ Some at
            → self.new.waiting.items ≡ on_first p (with_taken false) self.old.waiting.items }
        ensures version { self.new.next_version ≡ self.old.next_version }
        ensures ticket { self.new.next_ticket ≡ self.old.next_ticket }
    {
        self.mark_at(at, false);
    }

    /// Takes away the job at a place.
    pub fn remove_at(&mut self, at: usize) -> Waiting
        requires { at < vec_len self.old.waiting }
        ensures documents { self.new.documents.items ≡ self.old.documents.items }
        ensures waiting { (p : Waiting → Bool) → position p self.old.waiting.items ≡ Some at
            → (find p self.old.waiting.items ≡ Some result) × (self.new.waiting.items ≡ without_first_job p self.old.waiting.items) }
        ensures version { self.new.next_version ≡ self.old.next_version }
        ensures ticket { self.new.next_ticket ≡ self.old.next_ticket }
    {
        self.waiting.remove(at)
    }
}
