//! Units, encodings, positions, ranges and places.

ghost use Rattle.std.specs.Prelude.{◌≡◌};
ghost use Rattle.ls_text.specs.Lines.{units_of};

/// What positions count within their line (LSP 3.17, "PositionEncodingKind"): a client and a server agree on it.
#[derive(Clone, Copy, Debug, PartialEq, Eq)]
pub enum Units {
    /// Bytes of UTF-8.
    Utf8,
    /// UTF-16 units: two for a character above U+FFFF, else one.
    Utf16,
    /// Characters.
    Utf32,
}

/// How a text is read: what the positions in it count, and what it is.
#[derive(Clone, Copy, Debug, PartialEq, Eq)]
pub enum Encoding {
    /// A grammar, by bytes of UTF-8.
    Utf8,
    /// A grammar, by UTF-16 units.
    Utf16,
    /// A grammar, by characters.
    Utf32,
    /// A draft in Markdown, whose blocks of ABNF are its grammar, by these units.
    Markdown(Units),
    /// A draft in RFCXML, whose elements of ABNF are its grammar, by these units.
    Xml(Units),
}

impl Encoding {
    /// What the positions count.
    pub fn units(self) -> Units
        ensures { result ≡ units_of self }
    {
        match self {
            Encoding::Utf8 => Units::Utf8,
            Encoding::Utf16 => Units::Utf16,
            Encoding::Utf32 => Units::Utf32,
            Encoding::Markdown(units) | Encoding::Xml(units) => units,
        }
    }
}

/// A position in a text (LSP 3.17, "Position"). An [`Encoding`], which stands beside it, says what it counts.
///
/// It stands between two characters. A character past the line's end means the line's end, before its line end. A line
/// past the last means the text's end. A character inside a character's units means the start of that character.
#[derive(Clone, Copy, Debug, PartialEq, Eq)]
pub struct Position {
    /// The line, from 0.
    pub line: u32,
    /// The units of the line before the position.
    pub character: u32,
}

/// The text from one position to another (LSP 3.17, "Range").
#[derive(Clone, Copy, Debug, PartialEq, Eq)]
pub struct Range {
    /// The position before the first character of the range.
    pub start: Position,
    /// The position after the last character of the range.
    pub end: Position,
}

/// Characters of one line, by the bytes of UTF-8 before them in that line.
#[derive(Clone, Copy, Debug, PartialEq, Eq)]
pub struct Place {
    /// The line, from 0.
    pub line: usize,
    /// The bytes of the line before the place.
    pub start: usize,
    /// The bytes of the line up to the end of the place.
    pub end: usize,
}
