//! `abnf_findings`, which prints what is found in the grammars of files, for makefiles, hooks and continuous integration.
//!
//! It opens files and standard input, prints, and ends with a status. What the arguments ask for, what is printed of a file,
//! and how the program ends is said by `findings_files`.
#![tactic(auto)]

use findings_files::{
    Arguments, Asked, Ending, FileFault, Format, Known, Outcome, Printed, Request, Snapshot, Text,
    ending_of, fault_line, help, print_as, print_grammar_as, print_rules_as, read_text, request_of,
};
use std::alloc::AllocError;
use std::fs::File;
use std::io::{ErrorKind, Write};
use std::process::ExitCode;
use std::{env, fs, io};

/// What `--version` prints. It names the logic by which the crates are proved, as `rt version` does.
const VERSION: &str = "abnf_findings 0.1.0 (rattle-kit-13f logic dac8208d650f15bf)\n";

/// Where grammars of standards are installed, from the folder above that of the program.
const GRAMMARS: &str = "share/abnf_ls/grammars";

/// The arguments, without the name of the program.
fn words_of(rt: &HostRuntime) -> Result<Vec<Text>, Ending> {
    let given = match env::args(rt) {
        Ok(given) => given.skip(1),
        Err(error) if error.kind() == ErrorKind::OutOfMemory => return Err(Ending::OutOfMemory),
        Err(_) => return Err(Ending::Usage),
    };
    let mut words = Vec::new(rt.alloc());
    for word in given {
        words.push(Text::new(word)).map_err(AllocError::from)?;
    }
    Ok(words)
}

/// The format of a file of which something is asked: that which is named for these, else that of its name.
fn format_of(arguments: &Arguments, file: &str) -> Format {
    match arguments.format {
        Some(format) => format,
        None => Format::of_file(file),
    }
}

/// The text of a file, or of standard input for `-`.
fn text_at(rt: &HostRuntime, file: &str) -> Result<Snapshot, FileFault> {
    if file == "-" {
        return read_text(rt.alloc(), rt.stdin());
    }
    match fs::open(rt, file) {
        Ok(opened) => read_text(rt.alloc(), opened),
        Err(error) => Err(FileFault::of(&error)),
    }
}

/// Reports why a file can't be used.
fn tell_fault(rt: &HostRuntime, fault: FileFault, file: &str) -> Result<Outcome, Ending> {
    if fault == FileFault::Memory {
        return Err(Ending::OutOfMemory);
    }
    let (kind, name) = fault_line(fault, file);
    // A line that can't be printed leaves the status to say it.
    let _ = eprintln!(rt; "{kind}{name}");
    Ok(Outcome::NotRead)
}

/// Whether a file may be named by a short name, as `rfc9110`.
fn is_short(file: &str) -> bool {
    file.bytes().all(|byte| byte.is_ascii_alphanumeric())
}

/// Opens a grammar that is installed with the program, by its short name.
fn open_installed(rt: &HostRuntime, name: &str) -> io::Result<File> {
    let program = env::current_exe(rt)?;
    let Some(folder) = program.parent() else {
        return Err(ErrorKind::NotFound.into());
    };
    let Some(prefix) = folder.parent() else {
        return Err(ErrorKind::NotFound.into());
    };
    let grammars = prefix.join(rt.alloc(), GRAMMARS)?;
    let file = format!(in rt.alloc(); "{name}.abnf")?;
    let path = grammars.join(rt.alloc(), file.as_str())?;
    fs::open(rt, &path)
}

/// Opens a file whose names are to be known: one that is there, or else one that is installed by this short name.
fn open_known(rt: &HostRuntime, file: &str) -> io::Result<File> {
    match fs::open(rt, file) {
        Err(error) if error.kind() == ErrorKind::NotFound && is_short(file) => {
            open_installed(rt, file)
        }
        opened => opened,
    }
}

/// The text of a file whose names are to be known.
fn known_text(rt: &HostRuntime, file: &str) -> Result<Snapshot, FileFault> {
    if file == "-" {
        return text_at(rt, file);
    }
    match open_known(rt, file) {
        Ok(opened) => read_text(rt.alloc(), opened),
        Err(error) => Err(FileFault::of(&error)),
    }
}

/// Makes the names of a file known. What it is written in its name says.
fn add_known(rt: &HostRuntime, known: &mut Known, file: &str) -> Result<Printed, FileFault> {
    let text = known_text(rt, file)?;
    known.add(rt.alloc(), file, Format::of_file(file), &text)
}

/// Makes the names of a file known, and prints its warning, if it has one and findings are asked for. How the file went.
fn tell_known(
    rt: &HostRuntime,
    arguments: &Arguments,
    known: &mut Known,
    file: &str,
) -> Result<Outcome, Ending> {
    let printed = match add_known(rt, known, file) {
        Ok(printed) => printed,
        Err(fault) => return tell_fault(rt, fault, file),
    };
    match arguments.asked {
        Asked::Findings | Asked::StrictFindings => {
            say(rt, printed.lines.as_str())?;
            Ok(printed.outcome)
        }
        Asked::Rules | Asked::Grammar => Ok(Outcome::Clean),
    }
}

/// The files whose names are known, and how each of them went. Each that can't be used is reported, and then it ends.
fn known_files(rt: &HostRuntime, arguments: &Arguments) -> Result<(Known, Vec<Outcome>), Ending> {
    let mut known = Known::new(rt.alloc());
    let mut outcomes = Vec::new(rt.alloc());
    let mut all_read = true;
    for file in arguments.with.as_slice() {
        let outcome = tell_known(rt, arguments, &mut known, file.as_str())?;
        all_read = all_read && outcome != Outcome::NotRead;
        outcomes.push(outcome).map_err(AllocError::from)?;
    }
    if all_read {
        Ok((known, outcomes))
    } else {
        Err(Ending::NotRead)
    }
}

/// What is printed of a file, and how it went.
fn printed(
    rt: &HostRuntime,
    arguments: &Arguments,
    known: &Known,
    file: &str,
    text: &Snapshot,
) -> Result<(Text, Outcome), FileFault> {
    let format = format_of(arguments, file);
    let printed = match arguments.asked {
        Asked::Findings | Asked::StrictFindings => {
            print_as(rt.alloc(), file, format, text, known)?
        }
        Asked::Rules => print_rules_as(rt.alloc(), file, format, text, known)?,
        Asked::Grammar => print_grammar_as(rt.alloc(), file, format, text)?,
    };
    Ok((printed.lines, printed.outcome))
}

/// Prints a text.
fn say(rt: &HostRuntime, text: &str) -> Result<(), Ending> {
    let mut writer = io::writer(rt);
    match writer.write_all(text.as_bytes()) {
        Ok(()) => Ok(()),
        Err(_) => Err(Ending::WriteFailed),
    }
}

/// Prints what is asked of a file.
fn tell(
    rt: &HostRuntime,
    arguments: &Arguments,
    known: &Known,
    file: &str,
) -> Result<Outcome, Ending> {
    let text = match text_at(rt, file) {
        Ok(text) => text,
        Err(fault) => return tell_fault(rt, fault, file),
    };
    let (lines, outcome) = match printed(rt, arguments, known, file, &text) {
        Ok(printed) => printed,
        Err(fault) => return tell_fault(rt, fault, file),
    };
    say(rt, lines.as_str())?;
    Ok(outcome)
}

/// Prints what is asked of the files.
fn tell_all(rt: &HostRuntime, arguments: &Arguments) -> Result<Ending, Ending> {
    let (known, mut outcomes) = known_files(rt, arguments)?;
    for file in arguments.files.as_slice() {
        let outcome = tell(rt, arguments, &known, file.as_str())?;
        outcomes.push(outcome).map_err(AllocError::from)?;
    }
    let is_strict = arguments.asked == Asked::StrictFindings;
    Ok(ending_of(is_strict, outcomes.as_slice()))
}

/// Prints how the program is used.
fn tell_help(rt: &HostRuntime) -> Result<Ending, Ending> {
    say(rt, help(rt.alloc())?.as_str())?;
    Ok(Ending::Good)
}

/// Does what the arguments ask for.
fn run(rt: &HostRuntime) -> Result<Ending, Ending> {
    let words = words_of(rt)?;
    match request_of(rt.alloc(), words.as_slice())? {
        Request::Help => tell_help(rt),
        Request::Version => {
            say(rt, VERSION)?;
            Ok(Ending::Good)
        }
        Request::Print(arguments) => tell_all(rt, &arguments),
    }
}

fn main(rt: HostRuntime) -> ExitCode {
    let ending = match run(&rt) {
        Ok(ending) => ending,
        Err(ending) => ending,
    };
    if !ending.line().is_empty() {
        // A line that can't be printed leaves the status to say the ending.
        let _ = eprintln!(rt; "{}", ending.line());
    }
    ExitCode::from(ending.status())
}
