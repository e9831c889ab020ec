//! What one argument more says.

ghost use Rattle.std.specs.Prelude.{◌≡◌, ◌++◌, ◌∷◌, [], IfOk};
ghost use Rattle.findings_files.specs.Formats.{format_named};
ghost use Rattle.findings_files.specs.Arguments as spec;

use crate::arguments::{Arguments, Asked, Request};
use crate::format::Format;
use crate::word::{Word, word_of};
use ls_lists::{List, Text};
use std::alloc::{AllocError, Global};

/// What may stand next.
#[derive(Clone, Copy, Debug, Drop, PartialEq, Eq)]
pub(crate) enum Expected {
    /// An option, or a file.
    Options,
    /// The name of a format.
    Format,
    /// A file whose names are known.
    With,
    /// A file, and no option any more.
    Files,
    /// Files, whatever their names are.
    Rest,
}

/// Where the reading is.
#[derive(Drop)]
pub(crate) enum Step {
    /// It goes on, and this was said.
    Goes(Expected, Arguments),
    /// What follows doesn't count.
    Ends(Request),
    Wrong,
}

/// With one more file.
fn and_file(alloc: Global, files: List<Text>, file: &str) -> Result<List<Text>, AllocError>
    ensures { IfOk result (λ more. more ≡ files ++ file.now ∷ []) }
{
    let mut files = files;
    files.push(Text::from_str(alloc, file)?)?;
    Ok(files)
}

/// An option that says what is asked of the files: one of these stands at most.
fn asks(asked: Asked, arguments: Arguments) -> Step
    ensures { result ≡ spec.asks_for asked arguments.asked arguments }
{
    match arguments.asked {
        Asked::Findings => Step::Goes(Expected::Options, Arguments { asked, ..arguments }),
        Asked::StrictFindings | Asked::Rules | Asked::Grammar => Step::Wrong,
    }
}

/// `--format`, which stands once at most.
fn awaits_format(arguments: Arguments) -> Step
    ensures { result ≡ spec.awaits_format arguments.format arguments }
{
    match arguments.format {
        None => Step::Goes(Expected::Format, arguments),
        Some(_) => Step::Wrong,
    }
}

/// A file that is named.
fn file(
    alloc: Global,
    stage: Expected,
    arguments: Arguments,
    word: &str,
) -> Result<Step, AllocError>
    ensures { IfOk result (λ step. step ≡ spec.file stage arguments word.now) }
{
    let files = and_file(alloc, arguments.files, word)?;
    Ok(Step::Goes(stage, Arguments { files, ..arguments }))
}

/// An argument that stands where an option may stand.
fn first_step(alloc: Global, arguments: Arguments, word: &str) -> Result<Step, AllocError>
    ensures { IfOk result (λ step. step ≡ spec.first_step (spec.argument_word word.now) arguments word.now) }
{
    match word_of(word) {
        Word::Strict => Ok(asks(Asked::StrictFindings, arguments)),
        Word::Rules => Ok(asks(Asked::Rules, arguments)),
        Word::Grammar => Ok(asks(Asked::Grammar, arguments)),
        Word::Format => Ok(awaits_format(arguments)),
        Word::With => Ok(Step::Goes(Expected::With, arguments)),
        Word::Help => Ok(Step::Ends(Request::Help)),
        Word::Version => Ok(Step::Ends(Request::Version)),
        Word::End => Ok(Step::Goes(Expected::Rest, arguments)),
        Word::Unknown => Ok(Step::Wrong),
        Word::File => file(alloc, Expected::Files, arguments, word),
    }
}

/// The name behind `--format`.
fn format_step(arguments: Arguments, name: &str) -> Step
    ensures { result ≡ spec.format_step (format_named name.now) arguments }
{
    match Format::named(name) {
        Some(format) => Step::Goes(
            Expected::Options,
            Arguments {
                format: Some(format),
                ..arguments
            },
        ),
        None => Step::Wrong,
    }
}

/// The file behind `--with`.
fn with_step(alloc: Global, arguments: Arguments, word: &str) -> Result<Step, AllocError>
    ensures { IfOk result (λ step. step ≡ spec.with_step (spec.argument_word word.now) arguments word.now) }
{
    if word_of(word) != Word::File {
        return Ok(Step::Wrong);
    }
    let with = and_file(alloc, arguments.with, word)?;
    Ok(Step::Goes(Expected::Options, Arguments { with, ..arguments }))
}

/// An argument behind a file: no option stands there.
fn file_step(alloc: Global, arguments: Arguments, word: &str) -> Result<Step, AllocError>
    ensures { IfOk result (λ step. step ≡ spec.file_step (spec.argument_word word.now) arguments word.now) }
{
    if word_of(word) != Word::File {
        return Ok(Step::Wrong);
    }
    file(alloc, Expected::Files, arguments, word)
}

/// What an argument adds to what was said before it.
fn next_step(
    alloc: Global,
    stage: Expected,
    arguments: Arguments,
    word: &str,
) -> Result<Step, AllocError>
    ensures { IfOk result (λ step. step ≡ spec.next_step stage arguments word.now) }
{
    match stage {
        Expected::Options => first_step(alloc, arguments, word),
        Expected::Format => Ok(format_step(arguments, word)),
        Expected::With => with_step(alloc, arguments, word),
        Expected::Files => file_step(alloc, arguments, word),
        Expected::Rest => file(alloc, Expected::Rest, arguments, word),
    }
}

/// One argument more. Behind what ends the reading, or is wrong, nothing counts.
pub(crate) fn further(alloc: Global, before: Step, word: &str) -> Result<Step, AllocError>
    ensures { IfOk result (λ step. step ≡ spec.further before word.now) }
{
    match before {
        Step::Goes(stage, arguments) => next_step(alloc, stage, arguments, word),
        Step::Ends(request) => Ok(Step::Ends(request)),
        Step::Wrong => Ok(Step::Wrong),
    }
}
