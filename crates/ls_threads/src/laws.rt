//! Laws of runs that ended well.
//!
//! [`crate::serve_threads`] promises that such a run has a history, of which the input, the status and what was written are as it says.
//! These laws say what follows from that of the machine and of requests, in a session of any length.
ghost use Rattle.ls_threads.specs.Laws.{RequestsAreAnsweredOnce, RunsAreJournals};
ghost use Rattle.ls_threads.specs.Progress.{RunsCanEnd};

/// Each such run is a run of the machine: the machine's events in its history are a legal journal from the start of a session, which leads
/// to the state and to the counts of the run's desk.
pub fn runs_are_journals()
    ensures { RunsAreJournals }
{}

/// Where no job waits in the end, as where the status isn't a full session's, just one of the replies whose frames were written has the
/// ticket of a request that was accepted, and it is to that request.
pub fn requests_are_answered_once()
    ensures { RequestsAreAnsweredOnce }
{}

/// No schedule of workers and writer gets stuck, and none goes on for ever. At each place of a run's history workers can take and finish
/// jobs and the writer can send, in any order and however they begin, until no job waits and nothing is unsent: after no more steps than
/// are left there, three for each queued job, two for each taken one and one for each reply. Then each request that was accepted by that
/// place has been answered once. The session must have room for an event for each of these steps. That the threads take them is up to the
/// scheduler.
pub fn runs_can_end()
    ensures { RunsCanEnd }
{}
