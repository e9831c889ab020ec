//! `abnf_ls`, a language server for ABNF grammars over standard input and output, and its two commands: a shortest sentence of a rule, and
//! the check of a certificate. No function here has a contract beyond safety.
#![tactic(auto)]

use ls_devices::{ReadFrom, WriteTo};
use ls_program::{Ending, check_text, example_text, keep_freed_blocks, read_cert_file};
use ls_text::Snapshot;
use ls_threads::{Gate, Served, serve_threads};
use std::fs::File;
use std::io::{ErrorKind, Write};
use std::process::ExitCode;
use std::sync::Wait;
use std::thread::Threads;
use std::{env, fs, io};
use text_files::{FileFault, read_text};

/// How many threads work.
const WORKERS: u32 = 4;

/// Holds no worker back.
#[derive(Drop)]
struct Open;

impl Gate for Open {
    /// Lets each worker pass at once.
    fn pass<R: Wait>(&self, _rt: &R, _ticket: u64) {}
}

/// Opens the file with this path.
fn opened(rt: &HostRuntime, path: &str) -> Result<File, FileFault> {
    match fs::open(rt, path) {
        Ok(file) => Ok(file),
        Err(error) => Err(FileFault::of(&error)),
    }
}

/// The text of a grammar's file.
fn text_at(rt: &HostRuntime, path: String) -> Result<Snapshot, Ending> {
    let read = match opened(rt, path.as_str()) {
        Ok(file) => read_text(rt.alloc(), file),
        Err(fault) => Err(fault),
    };
    match read {
        Ok(text) => Ok(text),
        Err(fault) => Err(Ending::of_file(fault, path)),
    }
}

/// The bytes of a certificate's file.
fn cert_at(rt: &HostRuntime, path: String) -> Result<Vec<u8>, Ending> {
    let read = match opened(rt, path.as_str()) {
        Ok(file) => read_cert_file(rt.alloc(), file),
        Err(fault) => Err(fault),
    };
    match read {
        Ok(bytes) => Ok(bytes),
        Err(fault) => Err(Ending::of_file(fault, path)),
    }
}

/// Prints a text. The ending is this one, unless that fails.
fn printed(rt: &HostRuntime, text: &str, ending: Ending) -> Ending {
    let mut writer = io::writer(rt);
    match writer.write_all(text.as_bytes()) {
        Ok(()) => ending,
        Err(_) => Ending::WriteFailed,
    }
}

/// `example FILE RULE`
fn example(rt: &HostRuntime, file: String, rule: &str) -> Result<Ending, Ending> {
    let text = text_at(rt, file)?;
    match example_text(rt.alloc(), &text, rule) {
        Ok(example) => Ok(printed(rt, example.as_str(), Ending::Good)),
        Err(_) => Err(Ending::OutOfMemory),
    }
}

/// `check FILE CERT`
fn check(rt: &HostRuntime, file: String, cert: String) -> Result<Ending, Ending> {
    let text = text_at(rt, file)?;
    let cert = cert_at(rt, cert)?;
    let (said, ending) = Ending::of_check(check_text(rt.alloc(), &text, &cert));
    Ok(printed(rt, said, ending))
}

/// Serves standard input and output.
fn serve<R: Threads + Wait + Sync>(rt: &HostRuntime, threads: &R) -> Ending {
    keep_freed_blocks(rt.alloc());
    let source = ReadFrom::new(rt.stdin());
    let sink = WriteTo::new(rt.stdout());
    let Served { answer, .. } = serve_threads(threads, rt.alloc(), source, sink, WORKERS, &Open);
    Ending::of(answer)
}

/// Does what the arguments ask for. One that isn't a text asks for nothing that there is.
fn run<R: Threads + Wait + Sync>(rt: &HostRuntime, threads: &R) -> Result<Ending, Ending> {
    let mut arguments = match env::args(rt) {
        Ok(arguments) => arguments.skip(1),
        Err(error) if error.kind() == ErrorKind::OutOfMemory => return Err(Ending::OutOfMemory),
        Err(_) => return Err(Ending::Usage),
    };
    let Some(command) = arguments.next() else {
        return Ok(serve(rt, threads));
    };
    let (Some(file), Some(other), None) = (arguments.next(), arguments.next(), arguments.next())
    else {
        return Err(Ending::Usage);
    };
    match command.as_str() {
        "example" => example(rt, file, other.as_str()),
        "check" => check(rt, file, other),
        _ => Err(Ending::Usage),
    }
}

fn main(rt: HostRuntime) -> ExitCode {
    let ending = match run(&rt, &rt) {
        Ok(ending) => ending,
        Err(ending) => ending,
    };
    let (kind, detail) = ending.line();
    if !kind.is_empty() {
        // A line that can't be printed leaves the status to say how it ended.
        let _ = eprintln!(rt; "{kind}{detail}");
    }
    ExitCode::from(ending.status())
}
