//! What the reader does.
ghost use Rattle.std.specs.Prelude.{◌≡◌, ◌⊎◌, OnErr, OnOk, false, true, ⊤};
ghost use Rattle.ls_devices.specs.Ends.{has_cause};
ghost use Rattle.ls_machine.specs.Client.{IsAllowed};
ghost use Rattle.ls_history.specs.Told.{heard_of};
ghost use Rattle.ls_session.specs.Bodies.{refusal_to};
ghost use Rattle.ls_threads.specs.Input.{HasHeard};
ghost use Rattle.ls_threads.specs.Reading.{BreaksOffAt, Hears, IsLost, IsMet, IsTold, IsUntold};

use crate::ending::Early;
use ls_desk::DeskFault;
use ls_devices::{Listener, READS_END, ReaderEnd, Source, listen};
use ls_lists::List;
use ls_rpc::Id;
use ls_session::{ClientEvent, Session, Status, Turn, refusal_to};
use ls_workers::{Board, ClientSeat, Crew};
use std::alloc::Global;
use std::sync::Wait;

/// The client's seat at a board, and its session.
#[derive(Drop)]
pub struct Reader<'a, C: Crew, R> {
    pub rt: &'a R,
    pub alloc: Global,
    pub board: &'a Board<C>,
    pub seat: ClientSeat<C>,
    pub session: Session,
}

impl<C: Crew, R: Wait> Listener for Reader<'_, C, R> {
    type Fault = Early;

    ghost is_ready = { λ _. ⊤ };

    ghost hears = { λ body reader status after. Hears body (reader.session, heard_of reader.seat.front) status (after.session, heard_of after.seat.front) };

    ghost breaks = { λ body reader _ after. BreaksOffAt body (reader.session, heard_of reader.seat.front) (after.session, heard_of after.seat.front) };

    /// Hears a message by its body, and answers the status of an exit. Once the board has ended by `Now` none is heard.
    ///
    /// # Errors
    ///
    /// `Halted` where the board has ended so, and else where the event was refused for want of room or of memory.
    fn hear(&mut self, body: &[u8]) -> Result<Option<Status>, Early> {
        let mut seen = self.seat.front.again();
        if self.board.has_ended(self.rt, &mut seen) {
            return Err(Early::Halted);
        }
        match self.session.event(body)? {
            Turn::Nothing => Ok(None),
            Turn::Event(event) => {
                self.meet(event)?;
                Ok(None)
            }
            Turn::Exit(status) => Ok(Some(status)),
        }
    }
}

impl<C: Crew, R: Wait> Reader<'_, C, R> {
    /// Says to whoever asked that the desk refused it. Where no request did, nothing is said.
    fn tell(&mut self, asker: Option<Id>, fault: DeskFault) -> Result<(), Early>
        ensures ok { OnOk result (IsTold (refusal_to asker fault) (heard_of self.old.seat.front) (heard_of self.new.seat.front)) }
        ensures err { OnErr result ((heard_of self.new.seat.front ≡ heard_of self.old.seat.front)
            ⊎ IsUntold (refusal_to asker fault) (heard_of self.old.seat.front) (heard_of self.new.seat.front)) }
        ensures session { self.new.session ≡ self.old.session }
    {
        let Some(body) = refusal_to(self.alloc, &asker, fault)? else {
            return Ok(());
        };
        let said = ClientEvent::Say(List::from_vec(body));
        self.board.client(self.rt, &mut self.seat, said)?;
        Ok(())
    }

    /// Enters an event of the client. A refused request is answered by its error.
    fn meet(&mut self, event: ClientEvent) -> Result<(), Early>
        requires { IsAllowed event }
        ensures ok { OnOk result (IsMet event (heard_of self.old.seat.front) (heard_of self.new.seat.front)) }
        ensures err { OnErr result ((heard_of self.new.seat.front ≡ heard_of self.old.seat.front)
            ⊎ IsLost event (heard_of self.old.seat.front) (heard_of self.new.seat.front)) }
        ensures session { self.new.session ≡ self.old.session }
    {
        let asker = event.asker()?;
        match self.board.client(self.rt, &mut self.seat, event) {
            Ok(_) => Ok(()),
            Err(fault @ (DeskFault::SessionFull | DeskFault::Memory)) => Err(fault.into()),
            Err(fault) => self.tell(asker, fault),
        }
    }

    /// Reads and hears the input up to an exit, its end or a fault.
    ///
    /// It waits for the lock alone, beside what the source waits for.
    pub fn read_on<I: Source>(&mut self, source: &mut I) -> ReaderEnd<Early>
        requires none { I.reads source.old ≡ 0 }
        requires good { I.failed source.old ≡ false }
        ensures cause { has_cause result (I.failed source.new) (I.reads source.new) READS_END ≡ true }
        ensures heard { HasHeard (I.remaining source.old) (I.remaining source.new) self.old.session (heard_of self.old.seat.front)
            result (heard_of self.new.seat.front) }
    {
        listen(self.alloc, source, self, READS_END)
    }
}
