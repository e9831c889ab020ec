//! How the threads end, and what that makes of the run.
ghost use Rattle.std.specs.Prelude.{◌≡◌};
ghost use Rattle.ls_threads.specs.Ends.{worked_by, has_met_full_session, has_ended_itself, result_of, worse};

use ls_desk::DeskFault;
use ls_devices::{ReaderEnd, ServeFault};
use ls_session::Status;
use std::alloc::AllocError;

/// Why the reader broke off before the end of its input.
#[derive(Clone, Copy, Debug, Drop, PartialEq, Eq)]
pub enum Early {
    /// The session has had as many events as it may have.
    Full,
    Memory,
    /// Another thread ended the run.
    Halted,
}

impl From<AllocError> for Early {
    ghost use Rattle.std.specs.Prelude.{◌≡◌};
    ghost use Rattle.ls_threads.specs.declared.ending.Early.TheVariants.{Memory};

    ghost from_gives = { λ e early. early ≡ Memory };

    fn from(_: AllocError) -> Early {
        Early::Memory
    }
}

impl From<DeskFault> for Early {
    ghost use Rattle.std.specs.Prelude.{◌≡◌};
    ghost use Rattle.ls_threads.specs.Ends.{early_by};

    ghost from_gives = { λ fault early. early ≡ early_by fault };

    fn from(fault: DeskFault) -> Early {
        match fault {
            DeskFault::SessionFull => Early::Full,
            _ => Early::Memory,
        }
    }
}

/// How the writer ended.
#[derive(Clone, Copy, Debug, Drop, PartialEq, Eq)]
pub enum Wrote {
    /// All that it was given is written.
    All,
    /// The sink failed.
    Failed,
    Memory,
}

/// How the workers ended.
#[derive(Clone, Copy, Debug, Drop, PartialEq, Eq)]
pub enum Worked {
    /// They were given nothing more.
    All,
    /// The session has had as many events as it may have.
    Full,
    Memory,
    /// The desk doesn't know what ran.
    Strayed,
}

impl Worked {
    /// How a worker ended, by the fault that ended its work early, if one did.
    pub fn by(fault: Option<DeskFault>) -> Worked
        ensures { result ≡ worked_by fault }
    {
        match fault {
            None => Worked::All,
            Some(DeskFault::SessionFull) => Worked::Full,
            Some(DeskFault::Memory) => Worked::Memory,
            Some(
                DeskFault::NotOpen
                | DeskFault::AlreadyOpen
                | DeskFault::TooManyDocuments
                | DeskFault::TooManyWaiting
                | DeskFault::IdInUse
                | DeskFault::TooLarge
                | DeskFault::UnknownTicket
                | DeskFault::OtherText,
            ) => Worked::Strayed,
        }
    }

    /// How two workers ended, by the end that counts for more.
    pub fn and(self, other: Worked) -> Worked
        ensures { result ≡ worse self other }
    {
        match (self, other) {
            (Worked::Strayed, _) | (_, Worked::Strayed) => Worked::Strayed,
            (Worked::Memory, _) | (_, Worked::Memory) => Worked::Memory,
            (Worked::Full, _) | (_, Worked::Full) => Worked::Full,
            (Worked::All, Worked::All) => Worked::All,
        }
    }
}

/// Whether the reader or a worker found the session full. Then the desk may still have replies to send.
pub fn has_met_full_session(heard: ReaderEnd<Early>, worked: Worked) -> bool
    ensures { result ≡ has_met_full_session heard worked }
{
    match (heard, worked) {
        (ReaderEnd::Broken(Early::Full), _) | (_, Worked::Full) => true,
        _ => false,
    }
}

/// Whether the reader ended by itself: neither the source nor another thread broke it off.
pub fn is_ended(heard: ReaderEnd<Early>) -> bool
    ensures { result ≡ has_ended_itself heard }
{
    match heard {
        ReaderEnd::Ended(_) => true,
        ReaderEnd::Failed | ReaderEnd::Broken(_) => false,
    }
}

/// What a run answers whose threads could all be made: of several faults the one that comes first in [`ServeFault`], then `Strayed` where
/// the desk isn't as such ends leave it (`settled`), else `Full`, else the reader's status. `audited` says that the board was closed and
/// gave its desk.
pub fn result_of(
    heard: ReaderEnd<Early>,
    wrote: Wrote,
    worked: Worked,
    audited: bool,
    settled: bool,
) -> Result<Status, ServeFault>
    ensures { result ≡ result_of heard wrote worked audited settled }
{
    if let ReaderEnd::Failed = heard {
        return Err(ServeFault::Read);
    }
    if let Wrote::Failed = wrote {
        return Err(ServeFault::Write);
    }
    if !audited {
        return Err(ServeFault::Strayed);
    }
    match (heard, wrote, worked) {
        (_, _, Worked::Strayed) => Err(ServeFault::Strayed),
        (ReaderEnd::Broken(Early::Memory), _, _) | (_, Wrote::Memory, _) | (_, _, Worked::Memory) =>
            Err(ServeFault::Memory),
        _ if !settled => Err(ServeFault::Strayed),
        (ReaderEnd::Broken(Early::Full), _, _) | (_, _, Worked::Full) => Ok(Status::Full),
        (ReaderEnd::Ended(status), _, Worked::All) => Ok(status),
        (_, _, Worked::All) => Ok(Status::Unclean),
    }
}
