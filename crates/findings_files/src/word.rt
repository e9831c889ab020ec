//! What an argument is by itself.

ghost use Rattle.std.specs.Prelude.{◌≡◌};
ghost use Rattle.findings_files.specs.Arguments as spec;

use crate::ending::is_option;

/// What an argument is by itself.
#[derive(Clone, Copy, Debug, Drop, PartialEq, Eq)]
pub(crate) enum Word {
    Strict,
    Rules,
    Grammar,
    Format,
    With,
    Help,
    Version,
    /// No option stands behind it.
    End,
    /// An option that there isn't.
    Unknown,
    File,
}

/// Which option an argument is, if it is one that there is.
fn option_named(word: &str) -> Option<Word>
    ensures { result ≡ spec.option_named word.now }
{
    if word == "--strict" {
        Some(Word::Strict)
    } else if word == "--rules" {
        Some(Word::Rules)
    } else if word == "--grammar" {
        Some(Word::Grammar)
    } else if word == "--format" {
        Some(Word::Format)
    } else if word == "--with" {
        Some(Word::With)
    } else if word == "--help" {
        Some(Word::Help)
    } else if word == "--version" {
        Some(Word::Version)
    } else if word == "--" {
        Some(Word::End)
    } else {
        None
    }
}

/// What an argument is by itself.
pub(crate) fn word_of(word: &str) -> Word
    ensures { result ≡ spec.argument_word word.now }
{
    match option_named(word) {
        Some(option) => option,
        None if is_option(word) => Word::Unknown,
        None => Word::File,
    }
}
