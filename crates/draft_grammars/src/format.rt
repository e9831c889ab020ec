//! What a draft is written in.

ghost use Rattle.std.specs.Prelude.{◌≡◌};
ghost use Rattle.draft_grammars.specs.Drafts.{format_of};

use ls_text::Encoding;

/// What a draft is written in.
#[derive(Clone, Copy, Debug, Drop, PartialEq, Eq)]
pub enum Format {
    /// Markdown, as kramdown-rfc reads it: its fenced blocks of ABNF are one grammar.
    Markdown,
    /// RFCXML (RFC 7991): its elements of ABNF are one grammar.
    Xml,
}

impl Format {
    /// What a text is written in, by the encoding of its document; `None` for one that is a grammar itself.
    pub fn of(encoding: Encoding) -> Option<Format>
        ensures { result ≡ format_of encoding }
    {
        match encoding {
            Encoding::Utf8 | Encoding::Utf16 | Encoding::Utf32 => None,
            Encoding::Markdown(_) => Some(Format::Markdown),
            Encoding::Xml(_) => Some(Format::Xml),
        }
    }
}
