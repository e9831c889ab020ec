//! What the session's steps do at the desk.
ghost use Rattle.std.specs.Prelude.{◌≡◌, IfNone, IfOk, IfSome, Some, false};
ghost use Rattle.std.specs.Arc.{arc_value};
ghost use Rattle.ls_answers.specs.Asks.{IsToNoName};
ghost use Rattle.ls_answers.specs.Remembered.{IsGone, nothing_kept};
ghost use Rattle.ls_answers.specs.declared.answer.Answer.TheVariants.{Refused};
ghost use Rattle.ls_answers.specs.declared.answer.RenameFault.TheVariants.{NotAName};
ghost use Rattle.ls_desk.specs.Stands.{IsSound, state_of};
ghost use Rattle.ls_steps.specs.Runs.{finishes, meets, left_by_refusal};
ghost use Rattle.ls_steps.specs.own.Leaves.{IsLeft};
ghost use Rattle.ls_machine.specs.Client.{IsAllowed};
ghost use Rattle.ls_machine.specs.Machine.{waits};

use ls_answers::{Done, Job, Recent, run, run_keeping};
use ls_desk::{Desk, DeskFault, SharedSnapshot};
use ls_lists::List;
use ls_machine::ClientAnswer;
use ls_rpc::Id;
use ls_session::{ClientEvent, refusal_to};
use std::alloc::{AllocError as Memory, Global};

/// Answers a refused request by its error, and gives whether the session is full.
fn tell(alloc: Global, desk: &mut Desk, asker: Option<Id>, fault: DeskFault) -> Result<bool, Memory>
    ensures left { IfOk result (λ full. IsLeft (left_by_refusal desk.old asker fault) full desk.old desk.new) }
    ensures sound { IsSound desk.old → IsSound desk.new }
{
    if let DeskFault::SessionFull = fault {
        return Ok(true);
    }
    let Some(body) = refusal_to(alloc, &asker, fault)? else {
        return Ok(false);
    };
    match desk.say(List::from_vec(body)) {
        Ok(()) => Ok(false),
        Err(DeskFault::Memory) => Err(Memory),
        Err(_) => Ok(true),
    }
}

/// A document was closed that had this text: what is kept of it goes, which is that of the text nearest to it, if one is near. Where the
/// text isn't known all that is kept goes.
fn let_go(recent: &mut Recent, text: &Option<SharedSnapshot>)
    ensures near { IfSome text.now (λ _. IsGone recent.old recent.new) }
    ensures all { IfNone text.now (recent.new ≡ nothing_kept) }
{
    match text {
        Some(text) => drop(recent.let_go(text.get())),
        None => *recent = Recent::new(),
    }
}

/// Does what an event of the client asks for, and gives whether the session is full. A refused request is answered by its error. What is
/// kept of a document goes where it is closed: where its text isn't known, as where it grew too large, that of all documents.
///
/// # Errors
///
/// Where an allocation is refused.
pub fn meet(
    alloc: Global,
    desk: &mut Desk,
    recent: &mut Recent,
    event: ClientEvent,
) -> Result<bool, Memory>
    requires { IsAllowed event }
    ensures left { IfOk result (λ full. IsLeft (meets desk.old event) full desk.old desk.new) }
    ensures sound { IsSound desk.old → IsSound desk.new }
{
    let asker = event.asker()?;
    let text = desk.text_closed_by(&event).unwrap_or(None);
    match desk.enter(event, None) {
        Ok(ClientAnswer::Closed) => {
            let_go(recent, &text);
            Ok(false)
        }
        Ok(_) => Ok(false),
        Err(DeskFault::Memory) => Err(Memory),
        Err(fault) => tell(alloc, desk, asker, fault),
    }
}

/// Runs a job. What is found in its text is kept, unless the job waits no longer: its document may be closed.
pub fn run_job(alloc: Global, desk: &Desk, recent: &mut Recent, job: Job) -> Done
    ensures ticket { result.ticket ≡ job.ticket }
    ensures text { result.text ≡ arc_value job.snapshot }
    ensures encoding { result.encoding ≡ job.encoding }
    ensures ask { result.ask ≡ job.ask }
    ensures not_a_name { IsToNoName job.ask → result.answer ≡ Some (Refused NotAName) }
    ensures unwanted { waits job.ticket (state_of desk.now).waiting ≡ false → recent.new ≡ recent.old }
{
    if desk.wanted(job.ticket) {
        run_keeping(alloc, recent, job)
    } else {
        run(alloc, job)
    }
}

/// Takes a job that has run back to the desk, and gives whether the session is full. A run whose ticket waits no longer is dropped.
///
/// # Errors
///
/// Where an allocation is refused.
pub fn finish(desk: &mut Desk, done: Done) -> Result<bool, Memory>
    ensures left { IfOk result (λ full. IsLeft (finishes desk.old done) full desk.old desk.new) }
    ensures sound { IsSound desk.old → IsSound desk.new }
{
    match desk.finish(done) {
        Ok(_) => Ok(false),
        Err((fault, done)) => {
            drop(done);
            match fault {
                DeskFault::Memory => Err(Memory),
                DeskFault::SessionFull => Ok(true),
                _ => Ok(false),
            }
        }
    }
}
