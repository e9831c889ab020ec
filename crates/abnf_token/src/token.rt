//! Tokens and their classes.

ghost use Rattle.std.specs.Prelude.{◌+◌, ◌<◌, ◌^◌, length};

/// The class of a token.
///
/// The classes are the terminals of the grammar of ABNF, RFC 5234 section 4 with the strings of RFC 7405 section 2.2.
/// Letters and digits are ASCII. But for [`Kind::Bad`] no text is in two classes.
#[derive(Clone, Copy, Debug, PartialEq, Eq)]
pub enum Kind {
    /// A letter, then letters, digits and `-` (`rulename`; RFC 5234 sections 2.1 and 4).
    Name,
    /// `=` (`defined-as`; RFC 5234 sections 2.2 and 4).
    Defines,
    /// `=/` (`defined-as`; RFC 5234 sections 3.3 and 4).
    Adds,
    /// `/` (`alternation`; RFC 5234 sections 3.2 and 4).
    Slash,
    /// One or more digits; or digits or none, `*`, digits or none (`repeat`; RFC 5234 sections 3.6, 3.7 and 4).
    Repeat,
    /// `(` (`group`; RFC 5234 sections 3.5 and 4).
    ParenL,
    /// `)` (`group`; RFC 5234 sections 3.5 and 4).
    ParenR,
    /// `[` (`option`; RFC 5234 sections 3.8 and 4).
    BracketL,
    /// `]` (`option`; RFC 5234 sections 3.8 and 4).
    BracketR,
    /// `"`, characters %x20-21 and %x23-7E or none, `"`; with `%i` or `%s`, in either case, before it or nothing
    /// (`char-val`; RFC 7405 section 2.2, which replaces that of RFC 5234 sections 2.3 and 4).
    Quoted,
    /// `%`, one of `b`, `d` and `x` in either case, and one or more digits of base 2, 10 or 16; then nothing, or one or
    /// more times `.` and digits, or once `-` and digits (`num-val`; RFC 5234 sections 2.3, 3.4 and 4).
    Number,
    /// `<`, characters but `>` or none, `>` (`prose-val`; RFC 5234 section 4). RFC 5234 has %x20-3D and %x3F-7E alone
    /// between the two; here any character of the line but `>` may stand there.
    Prose,
    /// `;` and the rest of the line (`comment`; RFC 5234 sections 3.9 and 4). RFC 5234 has WSP and VCHAR alone after the
    /// `;`; here any character may stand there. The line's end is no part of it.
    Comment,
    /// One or more SP and HTAB (`WSP`; RFC 5234 section 4 and appendix B.1).
    Blank,
    /// One character, where no text of another class begins.
    Bad,
}

/// A token of a line.
///
/// Its text is a slice of the line, and so lives as long as the line.
#[derive(Clone, Copy, Debug)]
pub struct Token<'t> {
    /// The class of the text.
    pub kind: Kind,
    /// The text as it stands in the line.
    pub text: &'t str,
    /// The number of the line, as it was given to [`tokens`](crate::tokens).
    pub line: usize,
    /// How many bytes of the line stand before the text.
    pub start: usize,
    pub ghost in_line: { start + length text.now < 2 ^ 64 },
}
