//! How each kind of entry comes into the history.
use crate::history_entry::{HistoryEntry, Stop};
use logbook::Plain;
use ls_desk::{Desk, DeskFault, Out};
use ls_machine::ClientAnswer;
use std::marker::{Brand, PhantomData};

/// Which event of the client an entry is about.
pub trait Hearing {
    ghost use Rattle.ls_machine.specs.declared.client.ClientEvent.{ClientEvent};

    ghost event: { ClientEvent };
}

impl Hearing for Brand {
    ghost use Rattle.std.specs.Prelude.{[]};
    ghost use Rattle.ls_machine.specs.declared.client.ClientEvent.TheVariants.{Say};

    ghost event = { Say [] };
}

/// The entry of a client's event, by its answer or its refusal.
pub struct Hears<K: Hearing>(PhantomData<K>);

impl<K: Hearing> Plain<Result<ClientAnswer, DeskFault>, HistoryEntry, u64> for Hears<K> {
    ghost use Rattle.std.specs.Prelude.{None};
    ghost use Rattle.ls_history.specs.declared.history_entry.HistoryEntry.TheVariants.{Heard};

    ghost ask = { λ reply. Heard K.event reply };

    ghost state = { λ reply. None };
}

/// The entry of a board that begins over a desk.
pub struct Begins;

impl Plain<Desk, HistoryEntry, u64> for Begins {
    ghost use Rattle.std.specs.Prelude.{None};
    ghost use Rattle.ls_history.specs.declared.history_entry.HistoryEntry.TheVariants.{Began};

    ghost ask = { λ desk. Began desk.max_events };

    ghost state = { λ desk. None };
}

/// The entry of a reply that leaves.
pub struct Leaves;

impl Plain<Out, HistoryEntry, u64> for Leaves {
    ghost use Rattle.std.specs.Prelude.{None};
    ghost use Rattle.ls_history.specs.declared.history_entry.HistoryEntry.TheVariants.{Left};

    ghost ask = { λ out. Left out };

    ghost state = { λ out. None };
}

/// The entry of a job that a worker takes.
pub struct TakesJob;

impl Plain<u32, HistoryEntry, u64> for TakesJob {
    ghost use Rattle.std.specs.Prelude.{None};
    ghost use Rattle.ls_machine.specs.declared.event.Event.TheVariants.{Took};
    ghost use Rattle.ls_history.specs.declared.history_entry.HistoryEntry.TheVariants.{Worked};

    ghost ask = { λ worker. Worked (Took worker) };

    ghost state = { λ worker. None };
}

/// The entry of a job that is given back unrun, by its ticket.
pub struct ReturnsJob;

impl Plain<u64, HistoryEntry, u64> for ReturnsJob {
    ghost use Rattle.std.specs.Prelude.{None};
    ghost use Rattle.ls_machine.specs.declared.event.Event.TheVariants.{Returned};
    ghost use Rattle.ls_history.specs.declared.history_entry.HistoryEntry.TheVariants.{Worked};

    ghost ask = { λ ticket. Worked (Returned ticket) };

    ghost state = { λ ticket. None };
}

/// The entry of a job that is brought back when it has run, by its ticket and whether memory was refused in it.
pub struct BringsRun;

impl Plain<(u64, bool), HistoryEntry, u64> for BringsRun {
    ghost use Rattle.std.specs.Prelude.{None};
    ghost use Rattle.ls_machine.specs.declared.event.Event.TheVariants.{Finished};
    ghost use Rattle.ls_history.specs.declared.history_entry.HistoryEntry.TheVariants.{Worked};

    ghost ask = { λ run. Worked (Finished run.0 run.1) };

    ghost state = { λ run. None };
}

/// The entry of a board that is asked to end.
pub struct StopsBoard;

impl Plain<Stop, HistoryEntry, u64> for StopsBoard {
    ghost use Rattle.std.specs.Prelude.{None};
    ghost use Rattle.ls_history.specs.declared.history_entry.HistoryEntry.TheVariants.{Stopped};

    ghost ask = { λ stop. Stopped stop };

    ghost state = { λ stop. None };
}
