//! Look-ups in the parts of a state. A look-up goes through the documents, 256 at most, or through the waiting jobs.
ghost use Rattle.std.specs.Prelude.{◌≡◌, ◌↔◌, ◌<◌, IsTrue, position, is_some, IfOk, IfSome, find, length, bytes_eq, Some};
ghost use Rattle.std.specs.Option.{option_map};
ghost use Rattle.ls_machine.specs.Same.{id_eq, encoding_eq, units_eq, ask_eq, position_eq, range_eq};
ghost use Rattle.ls_machine.specs.Machine.{is_open, document_of, asks_with, requests, is_held, is_queued, is_ended, ends_by_change, left_by, waits};
ghost use Rattle.ls_machine.specs.Same.{is_for};

use crate::state::{Document, Waiting};
use ls_answers::{Ask, Done};
use ls_lists::Text;
use ls_rpc::Id;
use ls_text::{Encoding, Position, Range, Snapshot, Units};

/// Whether two ids are the same: true exactly where they are equal. A number and a text never are.
pub fn same_id(a: &Id, b: &Id) -> bool
    ensures value { result ≡ id_eq a.now b.now }
    ensures same { IsTrue result ↔ (a.now ≡ b.now) }
{
    match (a, b) {
        (Id::Number(a), Id::Number(b)) => *a == *b,
        (Id::Text(a), Id::Text(b)) => a.as_str() == b.as_str(),
        _ => false,
    }
}

/// Whether two units are the same.
fn same_units(a: Units, b: Units) -> bool
    ensures value { result ≡ units_eq a b }
    ensures same { IsTrue result ↔ (a ≡ b) }
{
    match (a, b) {
        (Units::Utf8, Units::Utf8) => true,
        (Units::Utf16, Units::Utf16) => true,
        (Units::Utf32, Units::Utf32) => true,
        _ => false,
    }
}

/// Whether two encodings are the same, with what the texts are.
pub fn same_encoding(a: Encoding, b: Encoding) -> bool
    ensures value { result ≡ encoding_eq a b }
    ensures same { IsTrue result ↔ (a ≡ b) }
{
    match (a, b) {
        (Encoding::Utf8, Encoding::Utf8) => true,
        (Encoding::Utf16, Encoding::Utf16) => true,
        (Encoding::Utf32, Encoding::Utf32) => true,
        (Encoding::Markdown(a), Encoding::Markdown(b)) => same_units(a, b),
        (Encoding::Xml(a), Encoding::Xml(b)) => same_units(a, b),
        _ => false,
    }
}

/// Whether two positions are the same.
fn same_position(a: &Position, b: &Position) -> bool
    ensures value { result ≡ position_eq a.now b.now }
    ensures same { IsTrue result ↔ (a.now ≡ b.now) }
{
    a.line == b.line && a.character == b.character
}

/// Whether two ranges are the same.
pub fn same_range(a: &Range, b: &Range) -> bool
    ensures value { result ≡ range_eq a.now b.now }
    ensures same { IsTrue result ↔ (a.now ≡ b.now) }
{
    same_position(&a.start, &b.start) && same_position(&a.end, &b.end)
}

/// Whether two questions are the same, with all that they carry, a new name byte for byte: true exactly where they are equal. So the prover
/// refuses a new kind of question that is forgotten here.
pub fn same_ask(a: &Ask, b: &Ask) -> bool
    ensures value { result ≡ ask_eq a.now b.now }
    ensures same { IsTrue result ↔ (a.now ≡ b.now) }
{
    match (a, b) {
        (Ask::Hover(a), Ask::Hover(b)) => same_position(a, b),
        (Ask::Definition(a), Ask::Definition(b)) => same_position(a, b),
        (Ask::References(a, x), Ask::References(b, y)) => same_position(a, b) && *x == *y,
        (Ask::Symbols, Ask::Symbols) => true,
        (Ask::Rename(a, n), Ask::Rename(b, m)) => same_position(a, b) && n.as_str() == m.as_str(),
        (Ask::Action(a), Ask::Action(b)) => same_range(a, b),
        (Ask::Tokens, Ask::Tokens) => true,
        (Ask::Diagnose, Ask::Diagnose) => true,
        _ => false,
    }
}

/// The open document of this name. None where none is open.
pub fn document_of<'d>(documents: &'d [Document], uri: &Text) -> Option<&'d Document>
    ensures { option_map (λ document. document.now) result ≡ document_of uri.now documents.now }
{
    documents.iter().find(|d| d.uri.as_str() == uri.as_str())
}

/// Whether a job is that of a request with this id.
fn asks_with(id: &Id, waiting: &Waiting) -> bool
    ensures { result ≡ asks_with id.now waiting.now }
{
    match &waiting.request {
        Some(request) => same_id(&request.id, id),
        None => false,
    }
}

/// Whether a change or a close of the document of this name ends a job: true where it is about that document, and its question is ended so.
pub fn is_ended(uri: &Text, waiting: &Waiting) -> bool
    ensures { result ≡ is_ended uri.now waiting.now }
{
    waiting.uri.as_str() == uri.as_str() && ends_by_change(&waiting.ask)
}

/// Whether a change of its document ends a question.
fn ends_by_change(ask: &Ask) -> bool
    ensures { result ≡ ends_by_change ask.now }
{
    match ask {
        Ask::Rename(_, _) | Ask::Action(_) | Ask::Diagnose => true,
        _ => false,
    }
}

/// The place, counted from 0, of the job of a request with this id. None where none waits.
pub fn asked_at(waiting: &[Waiting], id: &Id) -> Option<usize>
    ensures { result ≡ position (asks_with id.now) waiting.now }
{
    waiting.iter().position(|w| asks_with(id, w))
}

/// How many of the jobs are requests, and not for findings.
pub fn requests(waiting: &[Waiting]) -> usize
    ensures { result ≡ requests waiting.now }
{
    let mut count = 0;
    for job in waiting {
        if job.request.is_some() {
            count += 1;
        }
    }
    count
}

/// The place, counted from 0, of the first job that no worker has. None where there is none.
pub fn first_queued(waiting: &[Waiting]) -> Option<usize>
    ensures { result ≡ position is_queued waiting.now }
{
    waiting.iter().position(|w| !w.taken)
}

/// The place, counted from 0, of the job with this ticket that a worker has. None where no worker has one.
pub fn held_at(waiting: &[Waiting], ticket: u64) -> Option<usize>
    ensures { result ≡ position (is_held ticket) waiting.now }
{
    waiting.iter().position(|w| w.ticket == ticket && w.taken)
}

/// Whether two texts are the same.
fn same_text(a: &Snapshot, b: &Snapshot) -> bool
    ensures { result ≡ bytes_eq a.now b.now }
{
    a.same_text(b)
}

/// Whether this job was run there: true exactly where the run has the job's encoding, its text and its question. Texts are compared only
/// where the encodings are the same.
pub fn is_for(job: &Waiting, done: &Done) -> bool
    ensures { result ≡ is_for (Some job.now) done.now }
{
    same_encoding(job.encoding, done.encoding())
        && same_text(job.text.get(), done.snapshot())
        && same_ask(&job.ask, done.ask())
}

/// How many entries a job leaves that has run, 0 or 1: none only where memory was refused in a job for findings.
pub fn replies_of(failed: bool, job: &Waiting) -> usize
    ensures { result ≡ length (left_by failed job.now) }
{
    if failed && job.request.is_none() {
        return 0;
    }
    1
}

/// The first job that no worker has, and its place, counted from 0. None where there is none.
pub fn queued(waiting: &[Waiting]) -> Option<(usize, &Waiting)>
    ensures at { option_map (λ found. found.0) result ≡ position is_queued waiting.now }
    ensures job { option_map (λ found. found.1.now) result ≡ find is_queued waiting.now }
    ensures within { IfSome result (λ found. found.0 < length waiting.now) }
{
    match first_queued(waiting) {
        Some(at) => Some((at, &waiting[at])),
        None => None,
    }
}

/// The job with this ticket that a worker has, and its place, counted from 0. None where no worker has one.
pub fn held(waiting: &[Waiting], ticket: u64) -> Option<(usize, &Waiting)>
    ensures at { option_map (λ found. found.0) result ≡ position (is_held ticket) waiting.now }
    ensures job { option_map (λ found. found.1.now) result ≡ find (is_held ticket) waiting.now }
    ensures within { IfSome result (λ found. found.0 < length waiting.now) }
{
    match held_at(waiting, ticket) {
        Some(at) => Some((at, &waiting[at])),
        None => None,
    }
}

/// The job of the request with this id, and its place, counted from 0. None where none waits.
pub fn asked<'w>(waiting: &'w [Waiting], id: &Id) -> Option<(usize, &'w Waiting)>
    ensures at { option_map (λ found. found.0) result ≡ position (asks_with id.now) waiting.now }
    ensures job { option_map (λ found. found.1.now) result ≡ find (asks_with id.now) waiting.now }
    ensures within { IfSome result (λ found. found.0 < length waiting.now) }
{
    match asked_at(waiting, id) {
        Some(at) => Some((at, &waiting[at])),
        None => None,
    }
}

/// Whether the job with this ticket waits, queued or taken.
pub fn waits(waiting: &[Waiting], ticket: u64) -> bool
    ensures { result ≡ waits ticket waiting.now }
{
    waiting.iter().any(|w| w.ticket == ticket)
}
