//! `ls_server`: the session, runs by steps, devices, and the server.
ghost use Rattle.std.specs.Prelude.{◌≡◌, ◌<◌, ◌≤◌, None, false};

use abnf_cert::CertFault;
use ls_desk::{Desk, DeskFault, Out};
use ls_frame::FrameFault;
use ls_lists::Text;
use ls_rpc::Id;
use ls_server::{
    DeviceFault, Ending, ReadFrom, Run, ServeFault, Served, Session, Sink, Snapshot, Source,
    Status, Step, Turn, WriteTo,
};
use ls_workers::{ClientEvent, Gate};
use std::alloc::{AllocError as Memory, Global};
use std::io::{Read, Write};
use std::sync::Wait;
use std::thread::Threads;

pub fn session(alloc: Global) -> Session {
    Session::new(alloc)
}

pub fn event(session: &mut Session, body: &[u8]) -> Result<Turn, Memory> {
    session.event(body)
}

pub fn turn_nothing() -> Turn {
    Turn::Nothing
}

pub fn turn_event(event: ClientEvent) -> Turn {
    Turn::Event(event)
}

pub fn turn_exit(status: Status) -> Turn {
    Turn::Exit(status)
}

pub fn turn_kind(turn: &Turn) -> u8 {
    match turn {
        Turn::Nothing => 0,
        Turn::Event(_) => 1,
        Turn::Exit(_) => 2,
    }
}

pub fn refusal_body(alloc: Global, id: &Id, fault: DeskFault) -> Result<Option<Vec<u8>>, Memory> {
    ls_server::refusal_body(alloc, id, fault)
}

pub fn body_of(alloc: Global, out: &Out) -> Result<Vec<u8>, Memory> {
    ls_server::body_of(alloc, out)
}

pub fn cert_part(bytes: &[u8]) -> &[u8] {
    ls_server::cert_part(bytes)
}

pub fn example_text(alloc: Global, snapshot: &Snapshot, rule: &str) -> Result<String, Memory> {
    ls_server::example_text(alloc, snapshot, rule)
}

pub fn check_text(alloc: Global, snapshot: &Snapshot, cert: &[u8]) -> Result<bool, CertFault> {
    ls_server::check_text(alloc, snapshot, cert)
}

pub fn ending_framing(fault: FrameFault) -> Ending {
    Ending::Framing(fault)
}

pub fn ending_cannot_read(path: Text) -> Ending {
    Ending::CannotRead(path)
}

pub fn ending_not_text(path: Text) -> Ending {
    Ending::NotText(path)
}

pub fn ending_certificate(fault: CertFault) -> Ending {
    Ending::Certificate(fault)
}

pub fn other_endings() -> [Ending; 8] {
    [
        Ending::Good,
        Ending::Not,
        Ending::Full,
        Ending::ReadFailed,
        Ending::WriteFailed,
        Ending::HasStrayed,
        Ending::Usage,
        Ending::OutOfMemory,
    ]
}

pub fn ending_kind(ending: &Ending) -> u8 {
    match ending {
        Ending::Good => 0,
        Ending::Not => 1,
        Ending::Framing(_) => 2,
        Ending::ReadFailed => 3,
        Ending::WriteFailed => 4,
        Ending::CannotRead(_) => 5,
        Ending::NotText(_) => 6,
        Ending::Certificate(_) => 7,
        Ending::Full => 8,
        Ending::HasStrayed => 9,
        Ending::Usage => 10,
        Ending::OutOfMemory => 11,
    }
}

pub fn ending_of(served: Result<Status, ServeFault>) -> Ending {
    Ending::of(served)
}

pub fn ending_status(ending: &Ending) -> u8 {
    ending.status()
}

pub fn ending_line(ending: &Ending) -> (&str, &str) {
    ending.line()
}

pub fn steps(held: usize) -> [Step; 4] {
    [Step::Message, Step::Take, Step::Finish(held), Step::Send]
}

pub fn step_kind(step: Step) -> u8 {
    match step {
        Step::Message => 0,
        Step::Take => 1,
        Step::Finish(_) => 2,
        Step::Send => 3,
    }
}

pub fn run_steps(alloc: Global, input: &[u8], steps: &[Step]) -> Result<Run, Memory> {
    ls_server::run_steps(alloc, input, steps)
}

pub fn run(bytes: Vec<u8>, desk: Desk, status: Option<Status>) -> Run {
    Run {
        bytes,
        desk,
        status,
    }
}

/// A source at its end.
#[derive(Drop)]
pub struct Empty {
    pub reads: u64,
}

impl Source for Empty {
    ghost remaining = { λ source. None };

    ghost reads = { λ source. source.reads };

    ghost failed = { λ source. false };

    fn read(&mut self, _buf: &mut [u8]) -> Result<usize, DeviceFault> {
        self.reads += 1;
        Ok(0)
    }
}

/// A sink that keeps nothing.
#[derive(Drop)]
pub struct Hole {
    pub unflushed: bool,
}

impl Sink for Hole {
    ghost contents = { λ sink. None };

    ghost failed = { λ sink. false };

    ghost unflushed = { λ sink. sink.unflushed };

    fn write(&mut self, buf: &[u8]) -> Result<usize, DeviceFault> {
        self.unflushed |= !buf.is_empty();
        Ok(buf.len())
    }

    fn flush(&mut self) -> Result<(), DeviceFault> {
        self.unflushed = false;
        Ok(())
    }
}

pub fn read<S: Source>(source: &mut S, buf: &mut [u8]) -> Result<usize, DeviceFault>
    requires { S.reads source.old < 18446744073709551615 }
{
    source.read(buf)
}

pub fn write<S: Sink>(sink: &mut S, buf: &[u8]) -> Result<usize, DeviceFault> {
    sink.write(buf)
}

pub fn flush<S: Sink>(sink: &mut S) -> Result<(), DeviceFault> {
    sink.flush()
}

pub const DEVICE_FAULTS: [DeviceFault; 2] = [DeviceFault::Interrupted, DeviceFault::Failed];

pub fn device_fault_number(fault: DeviceFault) -> u8 {
    match fault {
        DeviceFault::Interrupted => 0,
        DeviceFault::Failed => 1,
    }
}

fn is_source<S: Source>(_: &S) {}

fn is_sink<S: Sink>(_: &S) {}

pub fn read_from<R: Read>(reader: R) -> ReadFrom<R> {
    let source = ReadFrom::new(reader);
    is_source(&source);
    source
}

pub fn write_to<W: Write>(writer: W) -> WriteTo<W> {
    let sink = WriteTo::new(writer);
    is_sink(&sink);
    sink
}

pub fn serve_plain<R: Source, W: Sink>(
    alloc: Global,
    reader: &mut R,
    writer: &mut W,
) -> Result<Status, ServeFault>
    requires none { R.reads reader.old ≡ 0 }
    requires source { R.failed reader.old ≡ false }
    requires sink { W.failed writer.old ≡ false }
{
    ls_server::serve_plain(alloc, reader, writer)
}

pub fn serve_limited<R: Source, W: Sink>(
    alloc: Global,
    reader: &mut R,
    writer: &mut W,
    reads: u64,
) -> Result<Status, ServeFault>
    requires none { R.reads reader.old ≡ 0 }
    requires source { R.failed reader.old ≡ false }
    requires sink { W.failed writer.old ≡ false }
    requires some { 0 < reads }
{
    ls_server::serve_limited(alloc, reader, writer, reads)
}

pub fn serve_threads<
    T: Threads + Wait + Sync,
    R: Source + Drop,
    W: Sink + Send + Drop,
    G: Gate + Sync,
>(rt: &T, alloc: Global, reader: R, writer: W, workers: u32, gate: &G) -> Served<R, W>
    requires workers { (0 < workers) × (workers ≤ 8) }
    requires none { R.reads reader ≡ 0 }
    requires source { R.failed reader ≡ false }
    requires sink { W.failed writer ≡ false }
{
    ls_server::serve_threads(rt, alloc, reader, writer, workers, gate)
}

pub fn answer_of<R: Source + Drop, W: Sink + Drop>(
    served: Served<R, W>,
) -> Result<Status, ServeFault> {
    let Served {
        answer,
        source: _,
        sink: _,
    } = served;
    answer
}

pub fn statuses(fault: FrameFault) -> [Status; 4] {
    [
        Status::Clean,
        Status::Unclean,
        Status::BadFrame(fault),
        Status::Full,
    ]
}

pub fn status_number(status: Status) -> u8 {
    match status {
        Status::Clean => 0,
        Status::Unclean => 1,
        Status::BadFrame(_) => 2,
        Status::Full => 3,
    }
}

pub const SERVE_FAULTS: [ServeFault; 4] = [
    ServeFault::Read,
    ServeFault::Write,
    ServeFault::Strayed,
    ServeFault::Memory,
];

pub fn serve_fault_number(fault: ServeFault) -> u8 {
    match fault {
        ServeFault::Read => 1,
        ServeFault::Write => 2,
        ServeFault::Strayed => 3,
        ServeFault::Memory => 4,
    }
}
