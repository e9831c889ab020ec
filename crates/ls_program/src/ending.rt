//! How the program ends.
ghost use Rattle.std.specs.Prelude.{◌≡◌, ◌++◌, string_bytes};
ghost use Rattle.ls_program.specs.Endings.{cert_fault_text, ending_of_session, ending_of_check, ending_of_file, framing_fault_text, line_of_ending, status_of_ending, text_of_check};

use abnf_cert::CertFault;
use ls_devices::ServeFault;
use ls_frame::FrameFault;
use ls_lists::Text;
use ls_session::Status;
use text_files::FileFault;

/// The endings of the program, with the fault or path that each shows. Each has its exit status, and from 2 on a line on standard error, as
/// the manual page has them.
#[derive(Drop)]
pub enum Ending {
    /// The client exited after a shutdown, an example was printed, or the answer is yes.
    Good,
    /// The input ended without that, or the answer is no.
    Not,
    /// The client's bytes are no frames.
    Framing(FrameFault),
    /// The session has had as many events as it may have.
    Full,
    /// Standard input can't be read.
    ReadFailed,
    /// Standard output can't be written.
    WriteFailed,
    /// A file can't be read.
    CannotRead(Text),
    /// A file is too large, or the one with the grammar isn't UTF-8.
    NotText(Text),
    /// A file's certificate can't be read.
    Certificate(CertFault),
    /// What was done at the desk isn't what its journal has, or something was left undone.
    HasStrayed,
    /// The arguments ask for nothing that there is.
    Usage,
    /// An allocation was refused.
    OutOfMemory,
}

/// A framing fault with its number.
fn numbered(fault: FrameFault) -> &'static str
    ensures { result.now ≡ framing_fault_text fault }
{
    match fault {
        FrameFault::HeaderTooLong => "1 HeaderTooLong",
        FrameFault::BadHeader => "2 BadHeader",
        FrameFault::NoLength => "3 NoLength",
        FrameFault::TwoLengths => "4 TwoLengths",
        FrameFault::BadLength => "5 BadLength",
        FrameFault::TooLarge => "6 TooLarge",
        FrameFault::Truncated => "7 Truncated",
        FrameFault::Memory => "8 Memory",
    }
}

/// A fault of a certificate with its number.
fn numbered_cert_fault(fault: CertFault) -> &'static str
    ensures { result.now ≡ cert_fault_text fault }
{
    match fault {
        CertFault::BadLine => "1 BadLine",
        CertFault::OutOfOrder => "2 OutOfOrder",
        CertFault::NumberTooLarge => "3 NumberTooLarge",
        CertFault::Memory => "4 Memory",
    }
}

impl Ending {
    /// How a session ends the program: `Good` by an exit after a shutdown, `Not` by an exit or the end of the input without one, and else
    /// by what the session met or why the run broke off.
    pub fn of(served: Result<Status, ServeFault>) -> Ending
        ensures { result ≡ ending_of_session served }
    {
        match served {
            Ok(Status::Clean) => Ending::Good,
            Ok(Status::Unclean) => Ending::Not,
            Ok(Status::BadFrame(fault)) => Ending::Framing(fault),
            Ok(Status::Full) => Ending::Full,
            Err(ServeFault::Read) => Ending::ReadFailed,
            Err(ServeFault::Write) => Ending::WriteFailed,
            Err(ServeFault::Strayed) => Ending::HasStrayed,
            Err(ServeFault::Memory) => Ending::OutOfMemory,
        }
    }

    /// How a command ends that can't use the file with this path. The path is shown, but where memory was refused.
    pub fn of_file(fault: FileFault, path: String) -> Ending
        ensures { result ≡ ending_of_file fault (string_bytes path) }
    {
        match fault {
            FileFault::CannotRead => Ending::CannotRead(Text::new(path)),
            FileFault::NotText => Ending::NotText(Text::new(path)),
            FileFault::Memory => Ending::OutOfMemory,
        }
    }

    /// How a check with this answer ends, and what it prints: `yes` or `no` with a line end, or nothing where the certificate can't be
    /// read.
    pub fn of_check(answer: Result<bool, CertFault>) -> (&'static str, Ending)
        ensures text { result.0.now ≡ text_of_check answer }
        ensures ending { result.1 ≡ ending_of_check answer }
    {
        match answer {
            Ok(true) => ("yes\n", Ending::Good),
            Ok(false) => ("no\n", Ending::Not),
            Err(CertFault::Memory) => ("", Ending::OutOfMemory),
            Err(fault) => ("", Ending::Certificate(fault)),
        }
    }

    /// The exit status: 0 for `Good`, 1 for `Not`, 3 for a full session, 4 where the run has strayed, 5 for a misuse, 6 where memory was
    /// refused, and 2 for all else.
    pub fn status(&self) -> u8
        ensures { result ≡ status_of_ending self.now }
    {
        match self {
            Ending::Good => 0,
            Ending::Not => 1,
            Ending::Framing(_)
            | Ending::ReadFailed
            | Ending::WriteFailed
            | Ending::CannotRead(_)
            | Ending::NotText(_)
            | Ending::Certificate(_) => 2,
            Ending::Full => 3,
            Ending::HasStrayed => 4,
            Ending::Usage => 5,
            Ending::OutOfMemory => 6,
        }
    }

    /// The line on standard error, without its line end, in two parts: what happened, and the path or the fault that it happened to. Both
    /// are empty where nothing is to be printed, and the second where there is nothing to show.
    pub fn line(&self) -> (&str, &str)
        ensures { result.0.now ++ result.1.now ≡ line_of_ending self.now }
    {
        match self {
            Ending::Good | Ending::Not => ("", ""),
            Ending::Framing(fault) => ("framing fault ", numbered(*fault)),
            Ending::Full => ("session full", ""),
            Ending::ReadFailed => ("read failed", ""),
            Ending::WriteFailed => ("write failed", ""),
            Ending::CannotRead(path) => return ("cannot read ", path.as_str()),
            Ending::NotText(path) => return ("not a text: ", path.as_str()),
            Ending::Certificate(fault) => ("certificate fault ", numbered_cert_fault(*fault)),
            Ending::HasStrayed => ("strayed", ""),
            Ending::Usage => ("usage: abnf_ls [example FILE RULE | check FILE CERT]", ""),
            Ending::OutOfMemory => ("out of memory", ""),
        }
    }
}
