//! The board, and the calls of its seats.
ghost use Rattle.std.specs.Prelude.{◌≡◌, ◌+◌, ◌<◌, ◌≤◌, ◌++◌, ◌∷◌, [], IfOk, IfErr, OnOk, OnErr, IfNone, IfSome, OnSome, vec_len, sum_by, false, true};
ghost use mathlib.Core.List.{IsPrefix};
ghost use Rattle.ls_machine.specs.Machine.{waits};
ghost use Rattle.ls_desk.specs.Faults.{finish_fault, give_back_fault, take_fault};
ghost use Rattle.ls_desk.specs.Stands.{ticket_of_out};
ghost use Rattle.ls_history.specs.Ends.{is_over, stop_of};
ghost use Rattle.ls_history.specs.Told.{heard_of, outs_of};
ghost use Rattle.ls_workers.specs.Count.{Counts};
ghost use Rattle.ls_workers.specs.Jobs.{HasLimits, HasNoJob, HasNothingMore, IsFinishedAt, IsRefusedAt, IsReturnedAt, IsTakenAt, led_by};
ghost use Rattle.ls_workers.specs.Refusals.{is_shortage, may_refuse_return, may_refuse_run};
ghost use Rattle.ls_workers.specs.Seats.{Agrees, AreAll, HasAgreed, HasCause, HasHistory, HaveHistory, IsLogged, KnowsTheSame, since, logged_by, logged_nothing};
ghost use Rattle.ls_machine.specs.Client.{IsAllowed};

use crate::board_state::{BoardState, SeatFault};
use crate::crew::{are_all, seats_of};
use crate::lately::Lately;
use crate::ledgers::{Blanks, Crew};
use crate::seats::{ClientSeat, WorkerSeat, WriterSeat};
use ls_answers::{Done, Job};
use ls_desk::{Desk, DeskFault, Kept, Out};
use ls_history::{Front, Stop};
use ls_machine::{ClientAnswer, ClientEvent};
use std::alloc::{AllocError as Memory, Global};
use std::sync::{Condvar, Mutex, Wait};

/// A desk that several threads use, each through its seat, under one lock. The texts that its workers diagnosed last lie behind another.
///
/// Whenever the lock is free, the history has led to where the desk stands, and says how the board has ended. The desk is what its legal
/// journal leads to, as each desk is, and has the limits of the board's [`Crew`]. The book of each kind of event has the number of that
/// kind over the session.
#[derive(Drop)]
pub struct Board<C: Crew> {
    /// Which board it is. Whoever makes boards gives each a mark of its own.
    mark: u64,
    workers: u32,
    state: Mutex<BoardState<C>>,
    /// Something behind the lock has changed.
    changed: Condvar,
    /// The texts that were diagnosed last, behind a lock of their own. No other one is taken while it is held.
    pub(crate) lately: Mutex<Lately>,
    ghost all: { workers ≡ C.workers },
}

impl<C: Crew> Board<C> {
    /// A board over a desk on which nothing has happened, with its seats: the client's, the writer's, and those of 1 to 8 workers in the
    /// order of their numbers. The seats have the board's mark, and nothing is counted or listed in them, nor is anything of the client or
    /// of replies in what they have seen of the history. The limits of the desk are those of `C`.
    ///
    /// # Errors
    ///
    /// Where an allocation is refused.
    pub fn new(
        rt: &impl Wait,
        alloc: Global,
        blanks: Blanks,
        mark: u64,
        desk: Desk,
        workers: u32,
    ) -> Result<(Board<C>, ClientSeat<C>, WriterSeat<C>, Vec<WorkerSeat<C>>), Memory>
        requires book { blanks.history ≡ C.book }
        requires heard { (blanks.heard.name ≡ C.heard) × (blanks.heard.parts ≡ 1) }
        requires names { (blanks.client.name ≡ C.client) × (blanks.took.name ≡ C.took) × (blanks.returned.name ≡ C.returned) × (blanks.finished.name ≡ C.finished) × (blanks.sent.name ≡ C.sent) }
        requires parts { (blanks.client.parts ≡ 1) × (blanks.took.parts ≡ C.parts) × (blanks.returned.parts ≡ C.parts) × (blanks.finished.parts ≡ C.parts) × (blanks.sent.parts ≡ 1) }
        requires workers { (workers ≡ C.workers) × (workers ≡ C.parts) × (0 < workers) × (workers ≤ 8) }
        requires empty { desk.journal ≡ [] }
        requires limits { HasLimits C.max_journal C.max_events desk }
        ensures history { IfOk result (λ made. (heard_of made.1.front ≡ []) × (outs_of made.2.front ≡ [])) }
        ensures client { IfOk result (λ made. (made.1.mark ≡ mark) × (made.1.asked.share.amount ≡ 0) × (logged_by made.1.audit_log ≡ logged_nothing)) }
        ensures writer { IfOk result (λ made. (made.2.mark ≡ mark) × (made.2.sent.share.amount ≡ 0) × (made.2.tickets.items ≡ []) × (made.2.checkpoints ≡ 0)) }
        ensures workers { IfOk result (λ made. AreAll (λ seat. seat.mark) (λ seat. seat.number) mark workers made.3.items) }
        ensures none { IfOk result (λ made. (sum_by (λ seat. seat.took.share.amount) made.3.items ≡ 0) × (sum_by (λ seat. seat.returned.share.amount) made.3.items ≡ 0)
            × (sum_by (λ seat. seat.finished.share.amount) made.3.items ≡ 0)) }
        ensures board { IfOk result (λ made. (made.0.mark ≡ mark) × (made.0.workers ≡ workers)) }
    {
        let (books, shares, history) = blanks.open::<C>();
        let seats = seats_of(alloc, mark, workers, shares.workers, history.front())?;
        let client = ClientSeat::new(alloc, mark, shares.client, history.seen(), shares.heard);
        let writer = WriterSeat::new(alloc, mark, shares.sent, history.seen());
        let state = BoardState::new(rt, history, desk, books);
        let board = Board {
            mark,
            workers,
            state: Mutex::new(state),
            changed: Condvar::new(),
            lately: Mutex::new(Lately::new()),
        };
        Ok((board, client, writer, seats))
    }

    /// Enters a client's event, and notes it with its answer in the seat, which remembers whether the journal has another entry. Where the
    /// event makes a checkpoint, the seat's list begins anew with it. What it had and the journal that ended are compared a few events at a
    /// time with the calls that follow, and go; what is left is compared where the board is closed. The seat remembers a difference; when
    /// that is found no clause says. What a call needs memory for in the seat it makes before it takes the lock, and the text of a document
    /// that is opened: the desk shares that text with the note.
    ///
    /// Whatever it answers, the event and its answer or its refusal are the next, and the only new ones, of the client in the history that
    /// the seat has seen then. It waits for the lock alone, and once a document is closed for that of the texts that were diagnosed last: what
    /// is kept of the document is let go, and all that is kept where its text isn't known, as where it grew too large.
    ///
    /// # Errors
    ///
    /// Those of the event's own call at the desk (`Desk::enter`). `Memory` also where an allocation for the note is refused, whatever else
    /// stands against the event. The seat has counted nothing then, and its list is as it was, but that some more of what had ended may
    /// have been compared.
    pub fn client(
        &self,
        rt: &impl Wait,
        seat: &mut ClientSeat<C>,
        event: ClientEvent,
    ) -> Result<ClientAnswer, DeskFault>
        requires { IsAllowed event }
        ensures history { heard_of seat.new.front ≡ heard_of seat.old.front ++ (event, result) ∷ [] }
        ensures ok { OnOk result (seat.new.asked.share.amount ≡ seat.old.asked.share.amount + 1) }
        ensures logged { IfOk result (λ answer. IsLogged event answer C.max_journal C.max_events (logged_by seat.old.audit_log) (logged_by seat.new.audit_log) seat.new.front) }
        ensures err { OnErr result ((seat.new.asked.share.amount ≡ seat.old.asked.share.amount) × KnowsTheSame (logged_by seat.old.audit_log) (logged_by seat.new.audit_log)) }
        ensures mark { seat.new.mark ≡ seat.old.mark }
    {
        let note = seat.audit_log.prepare_note(&event);
        let mut state = self.state.lock(rt);
        let text = state.desk.text_closed_by(&event).unwrap_or(None);
        let result = state.client(rt, seat, event, note);
        drop(state);
        self.changed.notify_all();
        if let Ok(ClientAnswer::Closed) = result {
            let gone = self.lately.lock(rt).let_go(&text);
            drop(gone);
        }
        result
    }

    /// Waits for a job, and takes the queued one with the least ticket. `None` once the board has ended by `Now`, or has ended by `Drain`
    /// and none is queued. Of the workers that wait the one with the least number is let go first. The seat has seen all of the history
    /// each time.
    ///
    /// # Errors
    ///
    /// `SessionFull` where there is no room for the event, and `Memory` where an allocation is refused, each only where a job is queued.
    /// The seat has counted nothing then.
    pub fn take(&self, rt: &impl Wait, seat: &mut WorkerSeat<C>) -> Result<Option<Job>, DeskFault>
        ensures some { IfOk result (λ job. OnSome job (seat.new.took.share.amount ≡ seat.old.took.share.amount + 1)) }
        ensures taken { IfOk result (λ job. IfSome job (λ taken. IsTakenAt seat.old.number seat.old.front seat.new.front taken)) }
        ensures none { IfOk result (λ job. IfNone job (seat.new.took.share.amount ≡ seat.old.took.share.amount)) }
        ensures nothing { IfOk result (λ job. IfNone job (HasNoJob seat.new.front)) }
        ensures err { OnErr result (seat.new.took.share.amount ≡ seat.old.took.share.amount) }
        ensures refused { IfErr result (λ fault. is_shortage fault ≡ true) }
        ensures cause { IfErr result (λ fault. IsRefusedAt take_fault fault seat.new.front) }
        ensures follows { IsPrefix seat.old.front seat.new.front }
        ensures others { (seat.new.returned.share.amount ≡ seat.old.returned.share.amount) × (seat.new.finished.share.amount ≡ seat.old.finished.share.amount) }
        ensures kept { (seat.new.mark ≡ seat.old.mark) × (seat.new.number ≡ seat.old.number) }
    {
        let number = seat.number;
        let mut state = self.state.lock(rt);
        state.begin_wait(number);
        let mut state = self
            .changed
            .wait_while(rt, state, |state| !state.has_job_for(number));
        state.end_wait(number);
        let job = state.take(rt, seat);
        let has_more = state.has_job();
        drop(state);
        if has_more {
            self.changed.notify_all();
        }
        job
    }

    /// Gives back the job with this ticket, which wasn't run. It is queued again. It waits for the lock alone. The seat has seen all of the
    /// history each time.
    ///
    /// # Errors
    ///
    /// The first of these that holds; the seat has counted nothing then. `UnknownTicket` where no job with this ticket is taken now;
    /// `SessionFull` where there is no room for the event; `Memory` where an allocation is refused.
    pub fn give_back(
        &self,
        rt: &impl Wait,
        seat: &mut WorkerSeat<C>,
        ticket: u64,
    ) -> Result<(), DeskFault>
        ensures ok { OnOk result (seat.new.returned.share.amount ≡ seat.old.returned.share.amount + 1) }
        ensures returned { OnOk result (IsReturnedAt ticket seat.old.front seat.new.front) }
        ensures err { OnErr result (seat.new.returned.share.amount ≡ seat.old.returned.share.amount) }
        ensures refused { IfErr result (λ fault. may_refuse_return fault ≡ true) }
        ensures cause { IfErr result (λ fault. IsRefusedAt (λ desk. give_back_fault desk ticket) fault seat.new.front) }
        ensures follows { IsPrefix seat.old.front seat.new.front }
        ensures others { (seat.new.took.share.amount ≡ seat.old.took.share.amount) × (seat.new.finished.share.amount ≡ seat.old.finished.share.amount) }
        ensures kept { (seat.new.mark ≡ seat.old.mark) × (seat.new.number ≡ seat.old.number) }
    {
        let result = self.state.lock(rt).give_back(rt, seat, ticket);
        self.changed.notify_all();
        result
    }

    /// Brings a job back that has run, and gives what the desk keeps of it. It waits for the lock alone. The seat has seen all of the
    /// history each time.
    ///
    /// # Errors
    ///
    /// The first of these that holds, with the run, which is handed back; the seat has counted nothing then. `UnknownTicket` where no job
    /// with its ticket is taken now, since it has ended meanwhile, or was given back; `OtherText` where the run is of another text,
    /// encoding or question than that job; `SessionFull` where there is no room for the event and what the job leaves; `Memory` where an
    /// allocation is refused.
    pub fn finish(
        &self,
        rt: &impl Wait,
        seat: &mut WorkerSeat<C>,
        done: Done,
    ) -> Result<Kept, (DeskFault, Done)>
        ensures ok { OnOk result (seat.new.finished.share.amount ≡ seat.old.finished.share.amount + 1) }
        ensures finished { IfOk result (λ kept. IsFinishedAt done kept seat.old.front seat.new.front) }
        ensures err { IfErr result (λ refused. (seat.new.finished.share.amount ≡ seat.old.finished.share.amount) × (refused.1 ≡ done)) }
        ensures refused { IfErr result (λ refused. may_refuse_run refused.0 ≡ true) }
        ensures cause { IfErr result (λ refused. IsRefusedAt (λ desk. finish_fault desk done) refused.0 seat.new.front) }
        ensures follows { IsPrefix seat.old.front seat.new.front }
        ensures others { (seat.new.took.share.amount ≡ seat.old.took.share.amount) × (seat.new.returned.share.amount ≡ seat.old.returned.share.amount) }
        ensures kept { (seat.new.mark ≡ seat.old.mark) × (seat.new.number ≡ seat.old.number) }
    {
        let result = self.state.lock(rt).finish(rt, seat, done);
        self.changed.notify_all();
        result
    }

    /// Waits for a reply, the oldest, which leaves, and notes its ticket in the seat, whose list begins anew with it where there was a
    /// checkpoint since. `None` once the board has ended by `Now`, or has ended by `Drain`, nothing is unsent and no job waits. The seat
    /// has seen all of the history then.
    ///
    /// # Errors
    ///
    /// Where an allocation is refused, for the ticket: the seat is as it was then, and no reply has left.
    pub fn next_out(&self, rt: &impl Wait, seat: &mut WriterSeat<C>) -> Result<Option<Out>, Memory>
        ensures history { IfOk result (λ next. IfSome next (λ out. outs_of seat.new.front ≡ outs_of seat.old.front ++ out ∷ [])) }
        ensures unseen { IfOk result (λ next. IfNone next (outs_of seat.new.front ≡ outs_of seat.old.front)) }
        ensures unsent { OnErr result (outs_of seat.new.front ≡ outs_of seat.old.front) }
        ensures nothing { IfOk result (λ next. IfNone next (HasNothingMore seat.new.front)) }
        ensures follows { IsPrefix seat.old.front seat.new.front }
        ensures some { IfOk result (λ next. OnSome next (seat.new.sent.share.amount ≡ seat.old.sent.share.amount + 1)) }
        ensures tickets { IfOk result (λ next. IfSome next (λ out. seat.new.tickets.items ≡ since seat.new.checkpoints seat.old.checkpoints seat.old.tickets.items ++ ticket_of_out out ∷ [])) }
        ensures none { IfOk result (λ next. IfNone next ((seat.new.sent.share.amount ≡ seat.old.sent.share.amount) × (seat.new.tickets.items ≡ seat.old.tickets.items)
            × (seat.new.checkpoints ≡ seat.old.checkpoints))) }
        ensures err { OnErr result ((seat.new.sent.share.amount ≡ seat.old.sent.share.amount) × (seat.new.tickets.items ≡ seat.old.tickets.items)
            × (seat.new.checkpoints ≡ seat.old.checkpoints)) }
        ensures mark { seat.new.mark ≡ seat.old.mark }
    {
        seat.tickets.reserve(1)?;
        let state = self.state.lock(rt);
        let mut state = self
            .changed
            .wait_while(rt, state, |state| !state.has_news());
        Ok(state.next_out(rt, seat))
    }

    /// Whether a job with this ticket waits now, queued or taken: where the history has led by now, all of which the front has seen then.
    ///
    /// It waits for the lock alone, and takes no memory.
    pub fn wanted(&self, rt: &impl Wait, seen: &mut Front<C>, ticket: u64) -> bool
        ensures wanted { result ≡ waits ticket (led_by seen.new).state.waiting }
        ensures follows { IsPrefix seen.old seen.new }
    {
        self.state.lock(rt).wanted(rt, seen, ticket)
    }

    /// Whether the board has ended by `Now`: where the history has led by now, all of which the front has seen then.
    ///
    /// It waits for the lock alone, and takes no memory.
    pub fn has_ended(&self, rt: &impl Wait, seen: &mut Front<C>) -> bool
        ensures ended { result ≡ is_over (stop_of seen.new) }
        ensures follows { IsPrefix seen.old seen.new }
    {
        self.state.lock(rt).has_ended(rt, seen)
    }

    /// Ends the board: by `Drain` its seats are served until there is nothing left, by `Now` they are given nothing more. `Now` is final.
    /// No clause says this here: it stands where a seat is given nothing more.
    ///
    /// It waits for the lock alone, and takes no memory.
    pub fn stop(&self, rt: &impl Wait, stop: Stop) {
        self.state.lock(rt).stop(rt, stop);
        self.changed.notify_all();
    }

    /// Takes all seats back, and gives the desk, which has the limits of the one that the board was made over. There were as many events of
    /// each kind as the seats counted, and its journal has the client's events since the last checkpoint with the answers that its seat was
    /// given, and the tickets that the writer's seat was given since. There were as many checkpoints as the client's seat has seen. The
    /// lists that these ended were the client's events of the journals that they ended.
    ///
    /// Whatever it answers, one legal history has just the client's events, with what these two seats know of them, and just the replies
    /// that they know of; by their types the seats are the board's own, whatever their marks say. It waits for nothing, and takes no
    /// memory. It goes through the desk's journal, and what isn't compared yet of earlier ones.
    ///
    /// # Errors
    ///
    /// `SeatMissing` where a seat isn't of this board, or not all workers' are here. `Strayed` where the seats are all here, and the
    /// journal isn't what they know, or wasn't until a checkpoint, or had another entry where an event was entered.
    pub fn close(
        self,
        client: ClientSeat<C>,
        writer: WriterSeat<C>,
        workers: Vec<WorkerSeat<C>>,
    ) -> Result<Desk, SeatFault>
        requires { (C.workers ≡ C.parts) × (0 < C.parts) }
        ensures marks { OnOk result ((client.mark ≡ self.mark) × (writer.mark ≡ self.mark)
            × AreAll (λ seat. seat.mark) (λ seat. seat.number) self.mark self.workers workers.items) }
        ensures counts { IfOk result (λ desk. Counts client.asked.share.amount (sum_by (λ seat. seat.took.share.amount) workers.items)
            (sum_by (λ seat. seat.returned.share.amount) workers.items) (sum_by (λ seat. seat.finished.share.amount) workers.items)
            writer.sent.share.amount desk) }
        ensures agrees { IfOk result (λ desk. Agrees desk.journal client.audit_log.list.items (since desk.base.checkpoints writer.checkpoints writer.tickets.items)) }
        ensures checkpoints { IfOk result (λ desk. desk.base.checkpoints ≡ client.audit_log.checkpoints) }
        ensures strayed { OnOk result (HasAgreed (logged_by client.audit_log)) }
        ensures history { IfOk result (HasHistory (heard_of client.front) (outs_of writer.front)) }
        ensures told { HaveHistory (heard_of client.front) (outs_of writer.front) }
        ensures limits { IfOk result (λ desk. HasLimits C.max_journal C.max_events desk) }
        ensures err { IfErr result (λ fault. HasCause ((client.mark ≡ self.mark) × (writer.mark ≡ self.mark)
            × AreAll (λ seat. seat.mark) (λ seat. seat.number) self.mark self.workers workers.items)
            (λ desk. Counts client.asked.share.amount (sum_by (λ seat. seat.took.share.amount) workers.items)
            (sum_by (λ seat. seat.returned.share.amount) workers.items) (sum_by (λ seat. seat.finished.share.amount) workers.items)
            writer.sent.share.amount desk × HasLimits C.max_journal C.max_events desk)
            (logged_by client.audit_log) writer.checkpoints writer.tickets.items fault) }
    {
        let mut client = client;
        let mut writer = writer;
        let own = client.mark == self.mark && writer.mark == self.mark;
        let all = own && are_all(&workers, self.mark, self.workers);
        let Board { state, .. } = self;
        let mut state = state.into_inner();
        state.audit_seats(&mut client, &mut writer);
        if !all {
            return Err(SeatFault::SeatMissing);
        }
        match state.closed(client, writer, workers) {
            Ok(desk) => Ok(desk),
            Err(desk) => Err(SeatFault::Strayed(desk)),
        }
    }
}
