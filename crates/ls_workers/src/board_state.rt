//! What lies behind the lock of a board.
ghost use Rattle.std.specs.Prelude.{◌≡◌, ◌+◌, ◌%◌, ◌++◌, ◌∷◌, ◌<◌, ◌⊎◌, [], length, IfOk, IfErr, OnOk, OnErr, IfNone, IfSome, OnSome, None, Some, IsTrue, find, slice_set, sum_by, vec_len, vec_capacity, true, false};
ghost use Rattle.ls_machine.specs.Machine.{is_queued, waits};
ghost use Rattle.ls_desk.specs.Stands.{IsSound, state_of, ticket_of_out};
ghost use mathlib.Core.List.{IsPrefix};
ghost use Rattle.ls_history.specs.Ends.{ended_by, is_over, stop_of};
ghost use Rattle.ls_history.specs.declared.history_entry.HistoryEntry.TheVariants as entry;
ghost use Rattle.ls_history.specs.History.{HasLedTo};
ghost use Rattle.ls_history.specs.Told.{heard_of, outs_of};
ghost use Rattle.ls_machine.specs.declared.client.ClientEvent.{ClientEvent};
ghost use Rattle.ls_workers.specs.Count.{Counts};
ghost use Rattle.ls_machine.specs.Client.{IsAllowed};
ghost use Rattle.ls_desk.specs.Faults.{take_fault, give_back_fault, finish_fault};
ghost use Rattle.ls_workers.specs.Jobs.{HasLimits, IsFinishedAt, IsRefusedAt, IsReturnedAt, IsTakenAt, led_by};
ghost use Rattle.ls_workers.specs.Refusals.{is_shortage, may_refuse_return, may_refuse_run};
ghost use Rattle.ls_workers.specs.Seats.{Agrees, AgreesAll, HasAgreed, HasHistory, HasRoomForEntry, HaveHistory, IsNoteOf, Logs, since, logged_by};
ghost use Rattle.ls_workers.specs.Ends.{first_waiting, is_first, has_job, has_job_for, has_news};

use crate::agree::strays;
use crate::calls::{enter, is_long, run_of};
use crate::crew::gathered;
use crate::ledgers::{Books, Crew, Shares};
use crate::seats::{ClientSeat, WorkerSeat, WriterSeat};
use ls_answers::{Done, Job};
use ls_desk::{Desk, DeskFault, Event, Kept, Out, ticket_of};
use ls_history::{BringsRun, Front, History, Leaves, ReturnsJob, Stop, StopsBoard, TakesJob};
use ls_machine::{ClientAnswer, ClientEvent};
use std::alloc::AllocError;
use std::marker::Brand;
use std::sync::Wait;

/// Why a board isn't closed.
#[derive(Drop)]
pub enum SeatFault {
    /// A seat's mark isn't the board's, or the workers' numbers aren't all there, each once. The desk is gone.
    SeatMissing,
    /// What the seats know isn't what the journal of this desk, the board's, has, or had until a checkpoint, or had where an event was
    /// entered. The seats are all the board's own, and the desk has their counts and the board's limits.
    Strayed(Desk),
}

/// The desk, which has the limits of the board's, the history that led to it, a book for each kind of event, which has the number of that
/// kind over the session, and one of the replies to the client's events, and how the board ends, as the history says.
#[derive(Drop)]
pub struct BoardState<C: Crew> {
    pub desk: Desk,
    pub history: History<C>,
    pub books: Books<C>,
    pub stop: Option<Stop>,
    /// Which workers wait for a job, by their numbers.
    pub idle: [bool; 8],
    pub ghost counts: { Counts books.client.total books.took.total books.returned.total books.finished.total books.sent.total desk },
    pub ghost limits: { HasLimits C.max_journal C.max_events desk },
    pub ghost led: { HasLedTo desk history },
    pub ghost hears: { books.heard.total ≡ length (heard_of history) },
    pub ghost leaves: { books.sent.total ≡ length (outs_of history) },
    pub ghost ended: { stop ≡ stop_of history },
}

/// How a board has ended that is asked to end once more. The end at once is final.
fn ended_by(before: Option<Stop>, stop: Stop) -> Option<Stop>
    ensures { result ≡ ended_by before stop }
{
    match before {
        Some(Stop::Now) => before,
        Some(Stop::Drain) => Some(stop),
        None => Some(stop),
    }
}

impl<C: Crew> BoardState<C> {
    /// What lies behind the lock of a new board, over a desk on which nothing has happened: the board hasn't ended.
    pub fn new(rt: &impl Wait, history: History<C>, desk: Desk, books: Books<C>) -> BoardState<C>
        requires empty { desk.journal ≡ [] }
        requires unheard { (history ≡ []) × (books.heard.total ≡ 0) }
        requires limits { HasLimits C.max_journal C.max_events desk }
        requires none { (books.client.total ≡ 0) × (books.took.total ≡ 0) × (books.returned.total ≡ 0) × (books.finished.total ≡ 0) × (books.sent.total ≡ 0) }
        ensures stop { result.stop ≡ None }
        ensures desk { result.desk ≡ desk }
    {
        let mut history = history;
        history.begin(rt, &desk);
        BoardState {
            desk,
            history,
            books,
            stop: None,
            idle: [false; 8],
        }
    }

    /// Ends the board, unless it has ended at once. The history has it.
    pub fn stop(&mut self, rt: &impl Wait, stop: Stop)
        ensures stop { self.new.stop ≡ ended_by self.old.stop stop }
        ensures desk { self.new.desk ≡ self.old.desk }
        ensures idle { self.new.idle ≡ self.old.idle }
    {
        self.history.add::<Stop, StopsBoard>(rt, &self.desk, &stop);
        self.stop = ended_by(self.stop, stop);
    }

    /// Whether the board has ended at once.
    fn is_over(&self) -> bool
        ensures { result ≡ is_over self.now.stop }
    {
        match self.stop {
            Some(Stop::Now) => true,
            Some(Stop::Drain) => false,
            None => false,
        }
    }

    /// Whether some worker has nothing to wait for: a job is queued, or the board has ended.
    pub fn has_job(&self) -> bool
        ensures { result ≡ has_job self.now.stop self.now.desk }
    {
        self.stop.is_some() || self.desk.has_queued()
    }

    /// The first worker that waits for a job.
    fn first_waiting(&self) -> Option<usize>
        ensures { result ≡ first_waiting self.now.idle }
    {
        self.idle.iter().position(|waits| *waits)
    }

    /// Whether the worker with this number is the first that waits.
    fn is_first(&self, number: u32) -> bool
        ensures { result ≡ is_first self.now.idle (number % 8) }
    {
        self.first_waiting() == Some(number as usize % 8)
    }

    /// Whether the worker with this number has nothing to wait for. Of those that wait the one with the least number takes a job, so that
    /// jobs which come one at a time are run by one worker: the C library keeps the memory that a thread lets go for that thread.
    pub fn has_job_for(&self, number: u32) -> bool
        ensures { result ≡ has_job_for self.now.stop self.now.desk self.now.idle (number % 8) }
    {
        self.stop.is_some() || (self.desk.has_queued() && self.is_first(number))
    }

    /// A worker begins to wait for a job.
    pub fn begin_wait(&mut self, number: u32)
        ensures idle { self.new.idle ≡ slice_set self.old.idle (number % 8) true }
        ensures desk { self.new.desk ≡ self.old.desk }
        ensures stop { self.new.stop ≡ self.old.stop }
    {
        self.idle[number as usize % 8] = true;
    }

    /// A worker waits no longer.
    pub fn end_wait(&mut self, number: u32)
        ensures idle { self.new.idle ≡ slice_set self.old.idle (number % 8) false }
        ensures desk { self.new.desk ≡ self.old.desk }
        ensures stop { self.new.stop ≡ self.old.stop }
    {
        self.idle[number as usize % 8] = false;
    }

    /// Whether the writer has nothing to wait for.
    pub fn has_news(&self) -> bool
        ensures { result ≡ has_news self.now.stop self.now.desk }
    {
        match self.stop {
            Some(Stop::Now) => true,
            Some(Stop::Drain) => self.desk.unsent() > 0 || self.desk.is_idle(),
            None => self.desk.unsent() > 0,
        }
    }

    /// Whether a ticket waits, queued or taken, where the history has led by now. The front has seen all of it then.
    pub fn wanted(&self, rt: &impl Wait, seen: &mut Front<C>, ticket: u64) -> bool
        ensures wanted { result ≡ waits ticket (led_by seen.new).state.waiting }
        ensures follows { IsPrefix seen.old seen.new }
    {
        seen.follow(rt, &self.history);
        self.desk.wanted(ticket)
    }

    /// Whether the board has ended at once, where the history has led by now. The front has seen all of it then.
    pub fn has_ended(&self, rt: &impl Wait, seen: &mut Front<C>) -> bool
        ensures ended { result ≡ is_over (stop_of seen.new) }
        ensures follows { IsPrefix seen.old seen.new }
    {
        seen.follow(rt, &self.history);
        self.is_over()
    }

    /// Enters a client's event, whose note it is. The seat has room for one entry more, which is compared with the journal's. Where the
    /// event makes a checkpoint, the seat's list begins anew, and the seat has what it had beside the journal that ended. Where there was no
    /// memory for the note, the event is refused. The history has the event with its answer, or its refusal.
    pub fn client(
        &mut self,
        rt: &impl Wait,
        seat: &mut ClientSeat<C>,
        event: ClientEvent,
        note: Result<Option<Event>, AllocError>,
    ) -> Result<ClientAnswer, DeskFault>
        ghost said: { ClientEvent }
        requires same { event ≡ said }
        requires allowed { IsAllowed event }
        requires note { IfOk note (λ noted. IsNoteOf event noted) }
        requires room { OnOk note (HasRoomForEntry seat.old.audit_log) }
        ensures history { heard_of seat.new.front ≡ heard_of seat.old.front ++ (said, result) ∷ [] }
        ensures added { seat.new.front ≡ self.old.history ++ entry.Heard said result ∷ [] }
        ensures all { seat.new.front ≡ self.new.history }
        ensures ok { OnOk result (seat.new.asked.share.amount ≡ seat.old.asked.share.amount + 1) }
        ensures logged { IfOk result (λ answer. Logs event answer self.old.desk self.new.desk
            (logged_by seat.old.audit_log) (logged_by seat.new.audit_log)) }
        ensures err { OnErr result ((seat.new.asked.share.amount ≡ seat.old.asked.share.amount) × (logged_by seat.new.audit_log ≡ logged_by seat.old.audit_log)) }
        ensures same { OnErr result ((self.new.desk ≡ self.old.desk) × (self.new.books.client.total ≡ self.old.books.client.total)) }
        ensures mark { seat.new.mark ≡ seat.old.mark }
        ensures ends { (self.new.stop ≡ self.old.stop) × (self.new.idle ≡ self.old.idle) }
    {
        let long = is_long(&self.desk);
        self.books.heard.audit(&mut seat.heard);
        self.history.front().beside(&seat.front);
        let reply = enter(&mut self.desk, event, &note);
        self.history.add_heard::<Brand>(rt, &self.desk, &reply);
        seat.front = self.history.seen();
        self.books.heard.add(&mut seat.heard, 1);
        let Ok(answer) = reply else {
            return reply;
        };
        let Ok(Some(note)) = note else { unreachable!() };
        seat.asked.one_more(&mut self.books.client);
        seat.audit_log.log(long, &mut self.desk, note, answer);
        Ok(answer)
    }

    /// Takes the first queued job. `None` where the board has ended at once, or where none is queued, which takes no memory. The seat has
    /// seen all of the history then.
    pub fn take(
        &mut self,
        rt: &impl Wait,
        seat: &mut WorkerSeat<C>,
    ) -> Result<Option<Job>, DeskFault>
        ensures some { IfOk result (λ job. OnSome job (seat.new.took.share.amount ≡ seat.old.took.share.amount + 1)) }
        ensures taken { IfOk result (λ job. IfSome job (λ taken. IsTakenAt seat.old.number seat.old.front seat.new.front taken)) }
        ensures free { ((is_over self.old.stop ≡ true) ⊎ (find is_queued (state_of self.old.desk).waiting ≡ None)) → result ≡ Ok None }
        ensures none { IfOk result (λ job. IfNone job (seat.new.took.share.amount ≡ seat.old.took.share.amount)) }
        ensures nothing { IfOk result (λ job. IfNone job ((self.new.desk ≡ self.old.desk) × (self.new.books.took.total ≡ self.old.books.took.total)
            × ((is_over self.old.stop ≡ true) ⊎ (find is_queued (state_of self.old.desk).waiting ≡ None)))) }
        ensures err { OnErr result (seat.new.took.share.amount ≡ seat.old.took.share.amount) }
        ensures same { OnErr result ((self.new.desk ≡ self.old.desk) × (self.new.books.took.total ≡ self.old.books.took.total)) }
        ensures cause { IfErr result (λ fault. IsRefusedAt take_fault fault seat.new.front) }
        ensures follows { IsPrefix seat.old.front seat.new.front }
        ensures all { seat.new.front ≡ self.new.history }
        ensures refused { IfErr result (λ fault. is_shortage fault ≡ true) }
        ensures others { (seat.new.returned.share.amount ≡ seat.old.returned.share.amount) × (seat.new.finished.share.amount ≡ seat.old.finished.share.amount) }
        ensures kept { (seat.new.mark ≡ seat.old.mark) × (seat.new.number ≡ seat.old.number) }
        ensures ends { (self.new.stop ≡ self.old.stop) × (self.new.idle ≡ self.old.idle) }
    {
        seat.front.follow(rt, &self.history);
        if self.is_over() || !self.desk.has_queued() {
            return Ok(None);
        }
        let Some(job) = self.desk.take(seat.number)? else {
            return Ok(None);
        };
        self.history
            .add::<u32, TakesJob>(rt, &self.desk, &seat.number);
        seat.took.one_more(&mut self.books.took);
        seat.front = self.history.seen();
        Ok(Some(job))
    }

    /// Gives a job back that wasn't run.
    pub fn give_back(
        &mut self,
        rt: &impl Wait,
        seat: &mut WorkerSeat<C>,
        ticket: u64,
    ) -> Result<(), DeskFault>
        ensures ok { OnOk result (seat.new.returned.share.amount ≡ seat.old.returned.share.amount + 1) }
        ensures returned { OnOk result (IsReturnedAt ticket seat.old.front seat.new.front) }
        ensures err { OnErr result (seat.new.returned.share.amount ≡ seat.old.returned.share.amount) }
        ensures same { OnErr result ((self.new.desk ≡ self.old.desk) × (self.new.books.returned.total ≡ self.old.books.returned.total)) }
        ensures cause { IfErr result (λ fault. IsRefusedAt (λ desk. give_back_fault desk ticket) fault seat.new.front) }
        ensures follows { IsPrefix seat.old.front seat.new.front }
        ensures refused { IfErr result (λ fault. may_refuse_return fault ≡ true) }
        ensures others { (seat.new.took.share.amount ≡ seat.old.took.share.amount) × (seat.new.finished.share.amount ≡ seat.old.finished.share.amount) }
        ensures kept { (seat.new.mark ≡ seat.old.mark) × (seat.new.number ≡ seat.old.number) }
        ensures ends { (self.new.stop ≡ self.old.stop) × (self.new.idle ≡ self.old.idle) }
    {
        seat.front.follow(rt, &self.history);
        self.desk.give_back(ticket)?;
        self.history.add::<u64, ReturnsJob>(rt, &self.desk, &ticket);
        seat.returned.one_more(&mut self.books.returned);
        seat.front = self.history.seen();
        Ok(())
    }

    /// Brings a job back that has run.
    pub fn finish(
        &mut self,
        rt: &impl Wait,
        seat: &mut WorkerSeat<C>,
        done: Done,
    ) -> Result<Kept, (DeskFault, Done)>
        ensures ok { OnOk result (seat.new.finished.share.amount ≡ seat.old.finished.share.amount + 1) }
        ensures finished { IfOk result (λ kept. IsFinishedAt done kept seat.old.front seat.new.front) }
        ensures err { IfErr result (λ refused. (seat.new.finished.share.amount ≡ seat.old.finished.share.amount) × (refused.1 ≡ done)) }
        ensures same { OnErr result ((self.new.desk ≡ self.old.desk) × (self.new.books.finished.total ≡ self.old.books.finished.total)) }
        ensures cause { IfErr result (λ refused. IsRefusedAt (λ desk. finish_fault desk done) refused.0 seat.new.front) }
        ensures follows { IsPrefix seat.old.front seat.new.front }
        ensures refused { IfErr result (λ refused. may_refuse_run refused.0 ≡ true) }
        ensures others { (seat.new.took.share.amount ≡ seat.old.took.share.amount) × (seat.new.returned.share.amount ≡ seat.old.returned.share.amount) }
        ensures kept { (seat.new.mark ≡ seat.old.mark) × (seat.new.number ≡ seat.old.number) }
        ensures ends { (self.new.stop ≡ self.old.stop) × (self.new.idle ≡ self.old.idle) }
    {
        seat.front.follow(rt, &self.history);
        let run = run_of(&done);
        let kept = self.desk.finish(done)?;
        self.history
            .add::<(u64, bool), BringsRun>(rt, &self.desk, &run);
        seat.finished.one_more(&mut self.books.finished);
        seat.front = self.history.seen();
        Ok(kept)
    }

    /// Whether the board has ended at once, or no reply is unsent.
    fn has_no_reply(&self) -> bool
        ensures none { result ≡ true → ((is_over self.now.stop ≡ true) ⊎ (self.now.desk.outbox ≡ [])) }
        ensures some { result ≡ false → 0 < length self.now.desk.outbox }
    {
        self.is_over() || self.desk.unsent() == 0
    }

    /// The oldest reply, which leaves. `None` where the board has ended at once, or where none is unsent. The seat has room for one ticket
    /// more, and has seen all of the history then.
    pub fn next_out(&mut self, rt: &impl Wait, seat: &mut WriterSeat<C>) -> Option<Out>
        requires { vec_len seat.old.tickets < vec_capacity seat.old.tickets }
        ensures history { IfSome result (λ out. outs_of seat.new.front ≡ outs_of seat.old.front ++ out ∷ []) }
        ensures unseen { IfNone result (outs_of seat.new.front ≡ outs_of seat.old.front) }
        ensures some { OnSome result (seat.new.sent.share.amount ≡ seat.old.sent.share.amount + 1) }
        ensures tickets { IfSome result (λ out. seat.new.tickets.items ≡ since seat.new.checkpoints seat.old.checkpoints seat.old.tickets.items ++ ticket_of_out out ∷ []) }
        ensures seen { OnSome result (seat.new.checkpoints ≡ self.new.desk.base.checkpoints) }
        ensures none { IfNone result ((seat.new.sent.share.amount ≡ seat.old.sent.share.amount) × (seat.new.tickets.items ≡ seat.old.tickets.items) × (seat.new.checkpoints ≡ seat.old.checkpoints)) }
        ensures nothing { IfNone result ((self.new.desk ≡ self.old.desk) × (self.new.books.sent.total ≡ self.old.books.sent.total) × ((is_over self.old.stop ≡ true) ⊎ (self.old.desk.outbox ≡ []))) }
        ensures sound { IfNone result (IsSound self.new.desk) }
        ensures follows { IsPrefix seat.old.front seat.new.front }
        ensures all { seat.new.front ≡ self.new.history }
        ensures mark { seat.new.mark ≡ seat.old.mark }
        ensures ends { (self.new.stop ≡ self.old.stop) × (self.new.idle ≡ self.old.idle) }
    {
        let has_none = self.has_no_reply();
        let _sound = self.desk.journal();
        seat.follow(rt, &mut self.books.sent, &self.history);
        if has_none {
            return None;
        }
        let Some(out) = self.desk.next_out() else {
            unreachable!()
        };
        self.history.add::<Out, Leaves>(rt, &self.desk, &out);
        seat.sent.one_more(&mut self.books.sent);
        seat.front = self.history.seen();
        seat.add(self.desk.checkpoints(), ticket_of(&out));
        Some(out)
    }

    /// One history has just what a client's seat and a writer's seat know. By their types these are the board's own, whatever their marks
    /// say. Nothing is done at run time.
    pub fn audit_seats(&mut self, client: &mut ClientSeat<C>, writer: &mut WriterSeat<C>)
        ensures history { HaveHistory (heard_of client.old.front) (outs_of writer.old.front) }
        ensures client { (client.new.asked ≡ client.old.asked) × (client.new.audit_log ≡ client.old.audit_log) × (client.new.front ≡ client.old.front) }
        ensures sent { writer.new.sent.share.amount ≡ writer.old.sent.share.amount }
        ensures writer { (writer.new.tickets ≡ writer.old.tickets) × (writer.new.checkpoints ≡ writer.old.checkpoints) × (writer.new.front ≡ writer.old.front) }
    {
        self.books.heard.audit(&mut client.heard);
        writer.sent.audit(&mut self.books.sent);
        let front = self.history.front();
        front.legal();
        front.beside(&client.front);
        front.beside(&writer.front);
    }

    /// The desk, where there were as many events of each kind as the gathered shares, and the history that led to it, which has as many
    /// replies of both kinds as their shares.
    pub fn audited(mut self, shares: Shares<C>) -> (Desk, History<C>)
        requires one { (shares.client.parts ≡ 1) × (shares.sent.parts ≡ 1) × (shares.heard.parts ≡ 1) }
        requires all { (shares.workers.took.parts ≡ C.parts) × (shares.workers.returned.parts ≡ C.parts) × (shares.workers.finished.parts ≡ C.parts) }
        ensures counts { Counts shares.client.amount shares.workers.took.amount shares.workers.returned.amount shares.workers.finished.amount shares.sent.amount result.0 }
        ensures limits { HasLimits C.max_journal C.max_events result.0 }
        ensures led { HasLedTo result.0 result.1 }
        ensures heard { shares.heard.amount ≡ length (heard_of result.1) }
        ensures sent { shares.sent.amount ≡ length (outs_of result.1) }
    {
        let mut shares = shares;
        self.books.client.audit(&mut shares.client);
        self.books.heard.audit(&mut shares.heard);
        self.books.took.audit(&mut shares.workers.took);
        self.books.returned.audit(&mut shares.workers.returned);
        self.books.finished.audit(&mut shares.workers.finished);
        self.books.sent.audit(&mut shares.sent);
        let BoardState { desk, history, .. } = self;
        (desk, history)
    }

    /// The desk, where the seats are all of the board's own: what `Board::close` says of it. `Err` has a desk whose journal isn't what the
    /// seats know, or wasn't until a checkpoint, or had another entry where an event was entered.
    pub fn closed(
        self,
        client: ClientSeat<C>,
        writer: WriterSeat<C>,
        workers: Vec<WorkerSeat<C>>,
    ) -> Result<Desk, Desk>
        requires all { vec_len workers ≡ C.parts }
        requires some { 0 < C.parts }
        ensures counts { IfOk result (λ desk. Counts client.asked.share.amount (sum_by (λ seat. seat.took.share.amount) workers.items)
            (sum_by (λ seat. seat.returned.share.amount) workers.items) (sum_by (λ seat. seat.finished.share.amount) workers.items)
            writer.sent.share.amount desk) }
        ensures agrees { IfOk result (λ desk. Agrees desk.journal client.audit_log.list.items (since desk.base.checkpoints writer.checkpoints writer.tickets.items)) }
        ensures checkpoints { IfOk result (λ desk. desk.base.checkpoints ≡ client.audit_log.checkpoints) }
        ensures strayed { OnOk result (HasAgreed (logged_by client.audit_log)) }
        ensures history { IfOk result (HasHistory (heard_of client.front) (outs_of writer.front)) }
        ensures limits { IfOk result (λ desk. HasLimits C.max_journal C.max_events desk) }
        ensures counted { IfErr result (λ desk. Counts client.asked.share.amount (sum_by (λ seat. seat.took.share.amount) workers.items)
            (sum_by (λ seat. seat.returned.share.amount) workers.items) (sum_by (λ seat. seat.finished.share.amount) workers.items)
            writer.sent.share.amount desk) }
        ensures limited { IfErr result (λ desk. HasLimits C.max_journal C.max_events desk) }
        ensures err { IfErr result (λ desk. HasAgreed (logged_by client.audit_log) × AgreesAll desk (logged_by client.audit_log) writer.checkpoints writer.tickets.items → ⊥) }
    {
        let ClientSeat {
            mark: _,
            asked,
            audit_log,
            front: client_front,
            heard,
        } = client;
        let WriterSeat {
            mark: _,
            sent,
            tickets,
            checkpoints,
            front: writer_front,
        } = writer;
        let shares = Shares {
            client: asked.share,
            heard,
            sent: sent.share,
            workers: gathered(workers),
        };
        let (desk, history) = self.audited(shares);
        if strays(&desk, &audit_log, checkpoints, &tickets) {
            return Err(desk);
        }
        let front = history.front();
        front.legal();
        front.beside(&client_front);
        front.beside(&writer_front);
        Ok(desk)
    }
}
