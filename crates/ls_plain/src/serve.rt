//! The run on one thread: frames in, frames out.
ghost use Rattle.std.specs.Prelude.{◌≡◌, ◌+◌, ◌<◌, ◌⊎◌, ◌||◌, true, false, [], ◌∷◌, OnOk, IfErr, None};
ghost use Rattle.std.specs.Io.KnownBytes.{Appends};
ghost use Rattle.ls_devices.specs.Devices.{AppendsPrefix};
ghost use Rattle.ls_plain.specs.Runs.{RunsToOutput, ServedIs, is_write};
ghost use Rattle.ls_plain.specs.own.Answering.{Answers, AnswersIs, AnswersPart, WasServed, standing_of};
ghost use Rattle.ls_plain.specs.own.Sending.{SendsIs};
ghost use Rattle.ls_steps.specs.Plain.{CanSendAll};
ghost use Rattle.ls_steps.specs.Runs.{begun};
ghost use Rattle.ls_session.specs.declared.turn.Status.{Status};

use ls_devices::{
    Listener, READS_END, ReaderEnd, ServeFault, Sink, Source, listen, write_and_flush,
};
use ls_session::Status;
use ls_steps::Conversation;
use std::alloc::Global;

/// Writes a frame and flushes it. Where that fails a prefix of it may be written.
fn send_frame<W: Sink>(writer: &mut W, frame: &[u8]) -> Result<(), ServeFault>
    ensures ok { OnOk result (Appends (W.contents writer.old) (W.contents writer.new) frame.now) }
    ensures prefix { AppendsPrefix (W.contents writer.old) (W.contents writer.new) frame.now }
    ensures failed { W.failed writer.new ≡ (W.failed writer.old || is_write result) }
    ensures flushed { OnOk result (W.unflushed writer.new ≡ false) }
    ensures fault { IfErr result (λ e. e ≡ ServeFault.Write) }
{
    if write_and_flush(writer, frame).is_err() {
        return Err(ServeFault::Write);
    }
    Ok(())
}

/// Sends all that is to be said. The frame of each reply is written and flushed before the next reply is taken.
fn send_all<W: Sink>(talk: &mut Conversation, writer: &mut W) -> Result<(), ServeFault>
    requires { CanSendAll talk.old }
    ensures sends { SendsIs talk.old (W.contents writer.old) result talk.new (W.contents writer.new) }
    ensures failed { W.failed writer.new ≡ (W.failed writer.old || is_write result) }
    ensures flushed { is_write result ≡ false → W.unflushed writer.old ≡ false → W.unflushed writer.new ≡ false }
{
    'replies: while let Some(frame) = talk.send()? {
        send_frame(writer, &frame)?;
    }
    Ok(())
}

/// Answers one body.
fn answer<W: Sink>(
    talk: &mut Conversation,
    body: &[u8],
    writer: &mut W,
) -> Result<Option<Status>, ServeFault>
    requires { WasServed talk.old }
    ensures answers { AnswersIs talk.old (body.now ∷ []) (W.contents writer.old) result talk.new
        (W.contents writer.new) }
    ensures failed { W.failed writer.new ≡ (W.failed writer.old || is_write result) }
    ensures flushed { is_write result ≡ false → W.unflushed writer.old ≡ false → W.unflushed writer.new ≡ false }
{
    talk.meet(body)?;
    send_all(talk, writer)?;
    Ok(talk.status())
}

/// A session that answers each message before it hears the next.
#[derive(Drop)]
struct Answering<'a, W> {
    talk: Conversation,
    writer: &'a mut W,
}

impl<W: Sink> Listener for Answering<'_, W> {
    type Fault = ServeFault;

    ghost is_ready = { λ it. WasServed it.talk × (it.talk.status ≡ None) };

    ghost hears = { λ body it status after. (after.writer.ghost_name ≡ it.writer.ghost_name)
        × Answers body (standing_of it.talk (W.contents it.writer.now) (W.failed it.writer.now) (W.unflushed it.writer.now)) status
        (standing_of after.talk (W.contents after.writer.now) (W.failed after.writer.now) (W.unflushed after.writer.now)) };

    ghost breaks = { λ body it fault after. (after.writer.ghost_name ≡ it.writer.ghost_name)
        × AnswersPart body (standing_of it.talk (W.contents it.writer.now) (W.failed it.writer.now) (W.unflushed it.writer.now)) fault
        (standing_of after.talk (W.contents after.writer.now) (W.failed after.writer.now) (W.unflushed after.writer.now)) };

    /// Answers a message, and says the session's status.
    ///
    /// # Errors
    ///
    /// `Write` where the sink failed, and `Memory` where an allocation was refused.
    fn hear(&mut self, body: &[u8]) -> Result<Option<Status>, ServeFault> {
        answer(&mut self.talk, body, self.writer)
    }
}

/// Reads the input and answers it, from the beginning of a session on.
fn answer_input<R: Source, W: Sink>(
    alloc: Global,
    reader: &mut R,
    answering: &mut Answering<'_, W>,
    reads: u64,
) -> Result<Status, ServeFault>
    requires begun { answering.old.talk ≡ begun }
    requires none { R.reads reader.old ≡ 0 }
    requires source { R.failed reader.old ≡ false }
    requires sink { W.failed answering.old.writer.now ≡ false }
    requires some { 0 < reads }
    ensures same_reference { answering.new.writer.ghost_name ≡ answering.old.writer.ghost_name }
    ensures served { ServedIs (R.remaining reader.old) (R.remaining reader.new)
        ((R.failed reader.new ≡ true) ⊎ (R.reads reader.new + 1 ≡ reads)) (W.failed answering.new.writer.now ≡ true)
        (W.contents answering.old.writer.now) result (W.contents answering.new.writer.now) }
    ensures good { OnOk result (W.failed answering.new.writer.now ≡ false) }
    ensures flushed { is_write result ≡ false → W.unflushed answering.old.writer.now ≡ false → W.unflushed answering.new.writer.now ≡ false }
{
    match listen(alloc, reader, answering, reads) {
        ReaderEnd::Ended(status) => Ok(status),
        ReaderEnd::Failed => Err(ServeFault::Read),
        ReaderEnd::Broken(fault) => Err(fault),
    }
}

/// Serves as [`serve_plain`] does, with fewer than this many reads: the read with this number isn't made, and is answered as `Read`.
///
/// # Errors
///
/// Those of [`serve_plain`].
pub fn serve_limited<R: Source, W: Sink>(
    alloc: Global,
    reader: &mut R,
    writer: &mut W,
    reads: u64,
) -> Result<Status, ServeFault>
    requires none { R.reads reader.old ≡ 0 }
    requires source { R.failed reader.old ≡ false }
    requires sink { W.failed writer.old ≡ false }
    requires some { 0 < reads }
    ensures served { ServedIs (R.remaining reader.old) (R.remaining reader.new)
        ((R.failed reader.new ≡ true) ⊎ (R.reads reader.new + 1 ≡ reads)) (W.failed writer.new ≡ true)
        (W.contents writer.old) result (W.contents writer.new) }
    ensures whole { RunsToOutput (R.remaining reader.old) (R.remaining reader.new) (W.contents writer.old) result (W.contents writer.new) }
    ensures good { OnOk result (W.failed writer.new ≡ false) }
    ensures flushed { is_write result ≡ false → W.unflushed writer.old ≡ false → W.unflushed writer.new ≡ false }
{
    let talk = Conversation::new(alloc);
    let mut answering = Answering { talk, writer };
    let answer = answer_input(alloc, reader, &mut answering, reads);
    // (the reference has a name of its own: else nothing would be known of the sink behind it)
    let Answering {
        talk,
        writer: _writer,
    } = answering;
    drop(talk);
    answer
}

/// Serves one client on this thread: reads its messages and writes the answers, each before the next message is heard, until it exits, its
/// input ends, the session is full or a fault stops the run. With Ok what was written is what a session says on the messages by the plain
/// schedule, and the status is that. That is what the desk keeps: results, each for the text that was current when its request was
/// accepted, errors, and the findings of each version, with its uri and the client's number of it.
///
/// It is said twice: of the bytes that were read, and of the whole input, where the source says what that is. With any end but `Write`
/// nothing is left unflushed that wasn't before.
///
/// # Errors
///
/// `Read`: the source failed in this call, or was read one time less than [`READS_END`]; what is said on the frames that were read is
/// written. `Write`: the sink failed in this call. `Memory`: an allocation was refused, but in a job itself, whose request is answered
/// -32603. After these two a prefix of what is said on the first of the messages is written. `Strayed` never comes.
pub fn serve_plain<R: Source, W: Sink>(
    alloc: Global,
    reader: &mut R,
    writer: &mut W,
) -> Result<Status, ServeFault>
    requires none { R.reads reader.old ≡ 0 }
    requires source { R.failed reader.old ≡ false }
    requires sink { W.failed writer.old ≡ false }
    ensures served { ServedIs (R.remaining reader.old) (R.remaining reader.new)
        ((R.failed reader.new ≡ true) ⊎ (R.reads reader.new + 1 ≡ READS_END)) (W.failed writer.new ≡ true)
        (W.contents writer.old) result (W.contents writer.new) }
    ensures whole { RunsToOutput (R.remaining reader.old) (R.remaining reader.new) (W.contents writer.old) result (W.contents writer.new) }
    ensures good { OnOk result (W.failed writer.new ≡ false) }
    ensures flushed { is_write result ≡ false → W.unflushed writer.old ≡ false → W.unflushed writer.new ≡ false }
{
    serve_limited(alloc, reader, writer, READS_END)
}
