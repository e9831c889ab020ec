//! What a worker does.
ghost use Rattle.std.specs.Prelude.{◌≡◌, IfNone, IfSome, false, true};
ghost use Rattle.std.specs.Arc.{arc_value};
ghost use mathlib.Core.List.{IsPrefix};
ghost use Rattle.ls_machine.specs.Machine.{waits};
ghost use Rattle.ls_workers.specs.Jobs.{HasNoJob, IsNotHeld, led_by};
ghost use Rattle.ls_workers.specs.Refusals.{ends_work, may_refuse_run};

use crate::board::Board;
use crate::gate::Gate;
use crate::ledgers::Crew;
use crate::seats::WorkerSeat;
use ls_answers::{Ask, Done, Job, run_keeping};
use ls_desk::DeskFault;
use ls_history::Front;
use std::alloc::Global;
use std::sync::Wait;

/// What a refusal of a run means for whoever ran the job: nothing where the job had ended meanwhile, and else it ends the work.
fn ended_by(fault: DeskFault) -> Option<DeskFault>
    requires { may_refuse_run fault ≡ true }
    ensures ended { IfSome result (λ ended. (ended ≡ fault) × (ends_work ended ≡ true)) }
    ensures none { IfNone result (fault ≡ DeskFault.UnknownTicket) }
{
    (fault != DeskFault::UnknownTicket).then_some(fault)
}

/// Runs a job if it is still wanted, with the help of what is kept of a text near to its own, if all workers together were asked about one
/// lately. For findings that is lent meanwhile, and what is found is kept then; for all else a draft is shared. No lock is held while the
/// job runs.
///
/// A text is lent before it is asked whether the job is wanted. So a document that is closed later is counted in what is lent, and one that
/// was closed earlier has no job that is wanted: in either case what is found isn't kept.
fn run_wanted<C: Crew, R: Wait>(
    rt: &R,
    alloc: Global,
    board: &Board<C>,
    seen: &mut Front<C>,
    job: Job,
) -> Option<Done>
    ensures ticket { IfSome result (λ done. done.ticket ≡ job.ticket) }
    ensures text { IfSome result (λ done. done.text ≡ arc_value job.snapshot) }
    ensures encoding { IfSome result (λ done. done.encoding ≡ job.encoding) }
    ensures ask { IfSome result (λ done. done.ask ≡ job.ask) }
    ensures some { IfSome result (λ _. waits job.ticket (led_by seen.new).state.waiting ≡ true) }
    ensures none { IfNone result (waits job.ticket (led_by seen.new).state.waiting ≡ false) }
    ensures follows { IsPrefix seen.old seen.new }
{
    let Ask::Diagnose = &job.ask else {
        let mut shared = board.lately.lock(rt).share(&job.snapshot);
        let wanted = board.wanted(rt, seen, job.ticket);
        return if wanted {
            Some(run_keeping(alloc, &mut shared.texts, job))
        } else {
            None
        };
    };
    let mut lent = board.lately.lock(rt).lend(&job.snapshot);
    let wanted = board.wanted(rt, seen, job.ticket);
    let done = if wanted {
        Some(run_keeping(alloc, &mut lent.texts, job))
    } else {
        None
    };
    board.lately.lock(rt).take_back(lent);
    done
}

/// Passes the gate with a job, runs it if it is still wanted and brings it back. What ended the work, if something did: the session is
/// full, the desk doesn't know what ran, or memory was refused. Where the job ended meanwhile its run is dropped. Unless something ended
/// the work, no worker holds the job by what the seat has seen then.
fn run_one<C: Crew, R: Wait, G: Gate>(
    rt: &R,
    alloc: Global,
    board: &Board<C>,
    seat: &mut WorkerSeat<C>,
    gate: &G,
    job: Job,
) -> Option<DeskFault>
    ensures seat { (seat.new.mark ≡ seat.old.mark) × (seat.new.number ≡ seat.old.number) }
    ensures ended { IfSome result (λ fault. ends_work fault ≡ true) }
    ensures done { IfNone result (IsNotHeld job.ticket seat.new.front) }
{
    gate.pass(rt, job.ticket);
    let Some(done) = run_wanted(rt, alloc, board, &mut seat.front, job) else {
        return None;
    };
    let Err((fault, _)) = board.finish(rt, seat, done) else {
        seat.front.legal();
        return None;
    };
    ended_by(fault)
}

/// Works at a board through a seat: takes a job, passes the gate, runs the job if it is still wanted and brings it back, until there is
/// none. A seat with the same mark and number comes back, and what ended the work early: the session is full, the desk doesn't know what
/// ran (`OtherText`), or memory was refused. Where a job ended meanwhile its run is dropped. `None` beside the seat: the board has ended by
/// then, and by `Drain` no job was queued.
///
/// It waits for jobs, and for the locks.
pub fn work<C: Crew, R: Wait, G: Gate>(
    rt: &R,
    alloc: Global,
    board: &Board<C>,
    seat: WorkerSeat<C>,
    gate: &G,
) -> (WorkerSeat<C>, Option<DeskFault>)
    ensures seat { (result.0.mark ≡ seat.mark) × (result.0.number ≡ seat.number) }
    ensures ended { IfSome result.1 (λ fault. ends_work fault ≡ true) }
    ensures rests { IfNone result.1 (HasNoJob result.0.front) }
{
    let mut seat = seat;
    for _ in rt.forever() {
        let job = match board.take(rt, &mut seat) {
            Ok(Some(job)) => job,
            Ok(None) => return (seat, None),
            Err(fault) => return (seat, Some(fault)),
        };
        if let Some(fault) = run_one(rt, alloc, board, &mut seat, gate, job) {
            return (seat, Some(fault));
        }
    }
    unreachable!()
}
