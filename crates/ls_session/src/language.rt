//! What a document is written in, by the name of its language and by its uri (LSP 3.17, "TextDocumentItem").
ghost use Rattle.std.specs.Prelude.{◌≡◌};
ghost use Rattle.ls_session.specs.Language.{by_ending, encoding_for, format_of_language};

use ls_text::{Encoding, Units};
use text_files::{has_ending, is_markdown};

/// What a document is written in.
#[derive(Clone, Copy, Debug, PartialEq, Eq)]
pub enum Format {
    /// The whole document is a grammar.
    Abnf,
    /// A draft in Markdown, whose blocks of ABNF are its grammar.
    Markdown,
    /// A draft in RFCXML, whose elements of ABNF are its grammar.
    Xml,
}

/// The format that a language's name says, if it is `abnf`, `markdown` or `xml`; any other name says nothing (LSP 3.17,
/// "TextDocumentItem": `languageId`). Names are compared byte for byte.
pub(crate) fn format_named(language: &str) -> Option<Format>
    ensures { result ≡ format_of_language language.now }
{
    if language == "abnf" {
        Some(Format::Abnf)
    } else if language == "markdown" {
        Some(Format::Markdown)
    } else if language == "xml" {
        Some(Format::Xml)
    } else {
        None
    }
}

/// The format that the ending of a uri says, in any case of ASCII letters: `.md`, `.mkd` and `.markdown` are those of
/// drafts in Markdown, `.xml` that of drafts in RFCXML, and all others are those of grammars.
pub(crate) fn by_ending(uri: &str) -> Format
    ensures { result ≡ by_ending uri.now }
{
    if is_markdown(uri) {
        Format::Markdown
    } else if has_ending(uri, ".xml") {
        Format::Xml
    } else {
        Format::Abnf
    }
}

/// How a document of this format is read, where positions count these units.
pub(crate) fn encoding_for(format: Format, units: Units) -> Encoding
    ensures { result ≡ encoding_for format units }
{
    match format {
        Format::Abnf => grammar_in(units),
        Format::Markdown => Encoding::Markdown(units),
        Format::Xml => Encoding::Xml(units),
    }
}

fn grammar_in(units: Units) -> Encoding
    ensures { result ≡ encoding_for Format.Abnf units }
{
    match units {
        Units::Utf8 => Encoding::Utf8,
        Units::Utf16 => Encoding::Utf16,
        Units::Utf32 => Encoding::Utf32,
    }
}
