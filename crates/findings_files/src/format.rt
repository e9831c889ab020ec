//! What a file is written in.

ghost use Rattle.std.specs.Prelude.{◌≡◌};
ghost use Rattle.findings_files.specs.Formats as spec;

use text_files::{has_ending, is_markdown};

/// What a file is written in.
#[derive(Clone, Copy, Debug, Drop, PartialEq, Eq)]
pub enum Format {
    /// The whole file is a grammar.
    Abnf,
    /// A draft in Markdown, whose fenced blocks of ABNF are one grammar.
    Markdown,
    /// A draft in RFCXML, whose elements of ABNF are one grammar.
    Xml,
    /// A published RFC in plain text, whose runs of lines that are rules alone are one grammar.
    Text,
}

impl Format {
    /// The format of a file by the ending of its name, in any case of ASCII letters: `.md`, `.mkd` and `.markdown` are
    /// those of drafts in Markdown, `.xml` that of drafts in RFCXML, `.txt` that of published texts, and all others are
    /// those of grammars.
    pub fn of_file(file: &str) -> Format
        ensures { result ≡ spec.format_by_name file.now }
    {
        if is_markdown(file) {
            Format::Markdown
        } else if has_ending(file, ".xml") {
            Format::Xml
        } else if has_ending(file, ".txt") {
            Format::Text
        } else {
            Format::Abnf
        }
    }

    /// The format that is named `abnf`, `markdown`, `xml` or `text`; `None` of any other name.
    pub fn named(name: &str) -> Option<Format>
        ensures { result ≡ spec.format_named name.now }
    {
        if name == "abnf" {
            Some(Format::Abnf)
        } else if name == "markdown" {
            Some(Format::Markdown)
        } else if name == "xml" {
            Some(Format::Xml)
        } else if name == "text" {
            Some(Format::Text)
        } else {
            None
        }
    }
}
