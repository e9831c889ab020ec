//! How the program ends, also by how its files went.

ghost use Rattle.std.specs.Prelude.{◌≡◌, ◌++◌};
ghost use Rattle.std.specs.List.{list_any};
ghost use Rattle.findings_files.specs.Endings as spec;

use findings_text::Outcome;
use std::alloc::AllocError;
use text_files::FileFault;

/// The endings of the program, each with its exit status ([`status`](Ending::status)).
#[derive(Clone, Copy, Debug, Drop, PartialEq, Eq)]
pub enum Ending {
    /// No file has what isn't to pass: 0.
    Good,
    /// One has: 1.
    Found,
    /// A file can't be read or isn't a text: 2. Its own line has said so.
    NotRead,
    /// A write to standard output failed: 2.
    WriteFailed,
    /// The arguments are none of the program's: 5.
    Usage,
    /// An allocation was refused: 6.
    OutOfMemory,
}

impl Ending {
    /// The exit status of the process: 0, 1, 2, 5 or 6.
    pub fn status(self) -> u8
        ensures { result ≡ spec.status_of self }
    {
        match self {
            Ending::Good => 0,
            Ending::Found => 1,
            Ending::NotRead | Ending::WriteFailed => 2,
            Ending::Usage => 5,
            Ending::OutOfMemory => 6,
        }
    }

    /// The line on standard error, without its line end; empty for none.
    pub fn line(self) -> &'static str
        ensures { result.now ≡ spec.line_of self }
    {
        match self {
            Ending::Good | Ending::Found | Ending::NotRead => "",
            Ending::WriteFailed => "write failed",
            Ending::Usage =>
                "usage: abnf_findings [--strict | --rules | --grammar] [--with FILE].. [--format abnf | markdown | xml | text] FILE..",
            Ending::OutOfMemory => "out of memory",
        }
    }
}

impl From<AllocError> for Ending {
    ghost use Rattle.std.specs.Prelude.{◌≡◌};
    ghost use Rattle.findings_files.specs.declared.ending.Ending.TheVariants.{OutOfMemory};

    ghost from_gives = { λ e f. f ≡ OutOfMemory };

    /// A refused allocation is [`Ending::OutOfMemory`].
    fn from(_: AllocError) -> Ending {
        Ending::OutOfMemory
    }
}

/// Whether an argument is an option and no file: it begins with `-`, and more follows.
pub(crate) fn is_option(argument: &str) -> bool
    ensures { result ≡ spec.is_option argument.now }
{
    match argument.as_bytes() {
        [b'-', _, ..] => true,
        _ => false,
    }
}

/// The line on standard error for a file with this name that can't be used, in two parts and without its line end.
pub fn fault_line(fault: FileFault, file: &str) -> (&'static str, &str)
    ensures { result.0.now ++ result.1.now ≡ spec.line_of_fault fault file.entry.now }
{
    match fault {
        FileFault::CannotRead => ("cannot read ", file),
        FileFault::NotText => ("not a text: ", file),
        FileFault::Memory => ("out of memory", ""),
    }
}

/// Whether a file can't be read or isn't a text.
fn is_not_read(outcome: Outcome) -> bool
    ensures { result ≡ spec.is_not_read outcome }
{
    match outcome {
        Outcome::NotRead => true,
        Outcome::Clean | Outcome::Warnings | Outcome::Errors => false,
    }
}

/// Whether a text isn't to pass. Where it is strict, warnings don't pass either.
fn is_faulty(outcome: Outcome, strict: bool) -> bool
    ensures { result ≡ spec.is_faulty strict outcome }
{
    match outcome {
        Outcome::Errors => true,
        Outcome::Warnings => strict,
        Outcome::Clean | Outcome::NotRead => false,
    }
}

fn has_not_read(outcomes: &[Outcome]) -> bool
    ensures { result ≡ list_any spec.is_not_read outcomes.now }
{
    outcomes.iter().any(|outcome| is_not_read(*outcome))
}

fn has_faulty(outcomes: &[Outcome], strict: bool) -> bool
    ensures { result ≡ list_any (spec.is_faulty strict) outcomes.now }
{
    outcomes.iter().any(|outcome| is_faulty(*outcome, strict))
}

/// What a run over files that went so ends with: `NotRead` where one isn't read, else `Found` where one isn't to pass,
/// which is one with an error, and where it is strict one with warnings too; else `Good`. Time goes by their number.
pub fn ending_of(strict: bool, outcomes: &[Outcome]) -> Ending
    ensures { result ≡ spec.ending_of strict outcomes.now }
{
    if has_not_read(outcomes) {
        return Ending::NotRead;
    }
    if has_faulty(outcomes, strict) {
        return Ending::Found;
    }
    Ending::Good
}
