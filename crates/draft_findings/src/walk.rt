//! A text, read character by character.

ghost use Rattle.std.specs.Prelude.{◌≡◌, ◌∷◌, [], MatchOption, drop, slice_get};
ghost use Rattle.std.specs.Str.{chars};

use std::marker::Model;

/// The first character, and the text behind it.
pub(crate) fn first(text: &str) -> Option<(char, &str)>
    ensures { MatchOption result (chars text.now ≡ []) (λ r. chars text.now ≡ r.0 ∷ chars r.1.now) }
{
    let mut characters = text.chars();
    match characters.next() {
        Some(c) => Some((c, characters.as_str())),
        None => None,
    }
}

/// The first character alone.
pub(crate) fn front(text: &str) -> Option<char>
    ensures { result ≡ slice_get (chars text.now) 0 }
{
    match first(text) {
        Some((c, _behind)) => Some(c),
        None => None,
    }
}

/// The text behind so many characters.
fn behind(text: &str, count: usize) -> &str
    ensures { chars result.now ≡ drop count (chars text.now) }
{
    let mut rest = text;
    let mut left = count;
    'characters: while left > 0 {
        let Some((_gone, more)) = first(rest) else {
            return rest;
        };
        rest = more;
        left -= 1;
    }
    rest
}

/// A text, and a place in it from which it is read on. Contracts see the characters of the text.
#[derive(Drop)]
pub(crate) struct Walk<'t> {
    whole: &'t str,
    at: usize,
    rest: &'t str,
}

impl<'t> Model for Walk<'t> {
    ghost use Rattle.std.specs.Prelude.{◌≡◌, ℕ, List, drop};
    ghost use Rattle.std.specs.Str.{chars};

    ghost Value = { List ℕ };

    ghost view = { λ w. chars w.whole.now };

    ghost invariant = { λ w. chars w.rest.now ≡ drop w.at (chars w.whole.now) };
}

impl<'t> Walk<'t> {
    /// The start of a text.
    pub(crate) fn of(text: &'t str) -> Walk<'t>
        ensures { result ≡ chars text.entry.now }
    {
        Walk {
            whole: text,
            at: 0,
            rest: text,
        }
    }

    /// The text from an offset on.
    fn rest_at(&self, offset: usize) -> &'t str
        ensures { chars result.now ≡ drop offset self.now }
    {
        if self.at <= offset {
            behind(self.rest, offset - self.at)
        } else {
            behind(self.whole, offset)
        }
    }

    /// The character at an offset, which counts characters. Time goes by those from the offset before to this one; where
    /// that stands behind it, by all in front.
    pub(crate) fn char_at(&mut self, offset: usize) -> Option<char>
        ensures same { self.new ≡ self.old }
        ensures value { result ≡ slice_get self.old offset }
    {
        let rest = self.rest_at(offset);
        self.at = offset;
        self.rest = rest;
        front(rest)
    }
}
