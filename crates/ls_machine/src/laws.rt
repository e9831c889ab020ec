//! Laws of legal journals, and of runs.
ghost use Rattle.ls_machine.specs.Laws.{LegalJournalsAreOrdered, RequestsAreKeptOnce, RunsAreKnown, TicketsAreKeptOnce};

/// In the state that a legal journal leads to, whoever wrote it, tickets rise along the waiting jobs, so that a ticket stands once; no two
/// of them wait for requests with the same id; and the text of each, as of each outcome that isn't sent yet, is that of the version of its
/// document that was current when it was asked, or when its text was opened or changed. The event that made it is that very request, or
/// that very open or change; and the entry of a request's failure has the ticket and the id of one that was asked.
pub fn legal_journals_are_ordered()
    ensures { LegalJournalsAreOrdered }
{}

/// Nothing is lost, and nothing is said twice. In a legal journal each ticket that was given stands at one place: its job waits, or it has
/// one entry, that was sent or isn't sent yet. Or it stands at none: then it was for findings, and a change or a close of its document or a
/// run without memory has ended it, of which nothing is said. A request is never let go so.
///
/// That what waits is run and sent in the end is no law of journals: it rests on the threads that take and send.
pub fn tickets_are_kept_once()
    ensures tickets { TicketsAreKeptOnce }
    ensures requests { RequestsAreKeptOnce }
{}

/// A run is taken for that of a job exactly where it was made of the job's text, with its encoding and its question. So no question is
/// taken for another one, and no run of a job is refused as another's.
pub fn runs_are_known()
    ensures { RunsAreKnown }
{}
