//! A line.

ghost use Rattle.std.specs.Prelude.{◌≡◌, length};
ghost use Rattle.std.specs.Str.{chars, encode_utf8_all};
ghost use Rattle.abnf_token.specs.Marks.{AreMarks};
ghost use Rattle.ls_text.specs.Cut.{row};

use crate::line_end::LineEnd;
use abnf_token::TokenMark;
use std::marker::Model;

// A line of a text. Contracts see its characters and its line end.
#[derive(Drop)]
pub struct Line<'t> {
    // Without its line end.
    text: &'t str,
    end: LineEnd,
    // How many characters the text has.
    char_count: usize,
    // Where the tokens of the text stand.
    marks: &'t [TokenMark],
}

impl<'t> Model for Line<'t> {
    ghost use Rattle.std.specs.Prelude.{◌≡◌, length};
    ghost use Rattle.std.specs.Str.{chars, IsUtf8};
    ghost use Rattle.abnf_token.specs.Marks.{AreMarks};
    ghost use Rattle.ls_text.specs.Cut.{Row, row};

    ghost Value = { Row };

    ghost view = { λ l. row (chars l.text.now) l.end };

    ghost invariant = { λ l.
        (l.char_count ≡ length (chars l.text.now)) × AreMarks l.text.now l.marks.now × IsUtf8 l.text.now };
}

impl<'t> Line<'t> {
    // The line of this text, which has so many characters and these marks.
    #[inline]
    pub fn of(text: &'t str, end: LineEnd, char_count: usize, marks: &'t [TokenMark]) -> Line<'t>
        requires count { char_count ≡ length (chars text.now) }
        requires marks { AreMarks text.now marks.now }
        ensures { result ≡ row (chars text.now) end }
    {
        Line {
            text,
            end,
            char_count,
            marks,
        }
    }

    // The text without its line end.
    #[inline]
    pub fn text(&self) -> &'t str
        ensures bytes { result.now ≡ encode_utf8_all self.now.text }
        ensures characters { chars result.now ≡ self.now.text }
    {
        self.text
    }

    // The line end.
    #[inline]
    pub fn end(&self) -> LineEnd
        ensures { result ≡ self.now.end }
    {
        self.end
    }

    // How many characters the text has.
    #[inline]
    pub fn char_count(&self) -> usize
        ensures { result ≡ length self.now.text }
    {
        self.char_count
    }

    // Where the tokens of the text stand.
    #[inline]
    pub fn marks(&self) -> &'t [TokenMark]
        ensures { AreMarks (encode_utf8_all self.now.text) result.now }
    {
        self.marks
    }
}
