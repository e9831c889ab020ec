//! What a call does at a desk: whether it makes a checkpoint, what it enters, and which run it brings back.
ghost use Rattle.std.specs.Prelude.{◌≡◌, Err, IfOk, OnOk, OnErr, Some, false, is_none, true};
ghost use Rattle.ls_workers.specs.Count.{AddsEvents};
ghost use Rattle.ls_machine.specs.Client.{Notes, IsAllowed, entry_of, filled, note_of, opens_too_large};
ghost use Rattle.ls_desk.specs.Anew.{base_after, journal_after};
ghost use Rattle.ls_desk.specs.Stands.{counts_of, fresh, is_long};
ghost use Rattle.ls_history.specs.declared.history_entry.HistoryEntry.TheVariants.{Heard};
ghost use Rattle.ls_history.specs.Laws.{IsDone};
ghost use Rattle.ls_workers.specs.Jobs.{HasLimits};
ghost use Rattle.ls_workers.specs.Seats.{IsNoteOf};

use ls_answers::Done;
use ls_desk::{Desk, DeskFault, Event};
use ls_machine::{ClientAnswer, ClientEvent};
use std::alloc::AllocError;

/// Whether the journal is as long as it may be.
pub fn is_long(desk: &Desk) -> bool
    ensures { result ≡ is_long desk.now }
{
    desk.journal().len() >= desk.max_journal()
}

/// The ticket of a run, and whether memory was refused in it.
pub fn run_of(done: &Done) -> (u64, bool)
    ensures { result ≡ (done.now.ticket, is_none done.now.answer) }
{
    let failed = match done.answer() {
        Ok(_) => false,
        Err(_) => true,
    };
    (done.ticket(), failed)
}

#[tactic(auto, using(crate::proofs::Entering::notes_entry, crate::proofs::Entering::base_is, crate::proofs::Entering::ended_is, crate::proofs::Entering::adds_one, crate::proofs::Entering::same_limits))]
/// Enters a client's event, whose note it is: the desk shares the text of an opening with the note. A text that is too large has no note,
/// and where there was no memory for one the event is refused. The history may have the event with its answer, or its refusal.
pub fn enter(
    desk: &mut Desk,
    event: ClientEvent,
    note: &Result<Option<Event>, AllocError>,
) -> Result<ClientAnswer, DeskFault>
    requires allowed { IsAllowed event }
    requires note { IfOk note.now (λ noted. IsNoteOf event noted) }
    ensures ok { IfOk result (λ answer. Notes event answer (journal_after (fresh desk.old) desk.old.journal) desk.new.journal) }
    ensures base { OnOk result (desk.new.base ≡ base_after (fresh desk.old) (counts_of desk.old) desk.old.base) }
    ensures counts { OnOk result (AddsEvents 1 0 0 0 0 desk.old desk.new) }
    ensures ended { OnOk result (is_long desk.old ≡ true → desk.new.ended ≡ desk.old.journal) }
    ensures limits { OnOk result (HasLimits desk.old.max_journal desk.old.max_events desk.new) }
    ensures told { IfOk result (λ answer. entry_of event answer ≡ Some (filled (note_of event) answer)) }
    ensures fits { OnOk result (opens_too_large event ≡ false) }
    ensures memory { OnErr note.now (result ≡ Err DeskFault.Memory) }
    ensures err { OnErr result (desk.new ≡ desk.old) }
    ensures done { IsDone (Heard event result) desk.old desk.new }
{
    let made = match note {
        Ok(Some(Event::Opened { text, .. })) => Some(text.again()?),
        Ok(_) => None,
        Err(_) => return Err(DeskFault::Memory),
    };
    desk.enter(event, made)
}
