//! The rows of a block: what of a line stays without the base indent, up to its line end and with it.

ghost use Rattle.std.specs.Prelude.{◌≡◌, ℕ, ◌+◌, ◌^◌, ◌<◌, ◌≤◌, ◌∷◌, [], MatchOption, OnOk, drop, length, take};
ghost use Rattle.std.specs.Str.{chars};
ghost use Rattle.origins.specs.Origins.{left_aligned};
ghost use Rattle.origins.specs.own.Runs.{placed, row_len};

use crate::aligned::{is_blank, is_break};

// The first character, and the text behind it.
pub fn first(text: &str) -> Option<(char, &str)>
    ensures { MatchOption result (chars text.now ≡ []) (λ r. chars text.now ≡ r.0 ∷ chars r.1.now) }
{
    let mut characters = text.chars();
    match characters.next() {
        Some(c) => Some((c, characters.as_str())),
        None => None,
    }
}

// How many blanks at the front of a line go, of so many at most, and the text behind them.
pub fn without_indent(text: &str, base: usize) -> (usize, &str)
    ensures rest { chars result.1.now ≡ drop result.0 (chars text.now) }
    ensures within { result.0 ≤ length (chars text.now) }
    ensures kept { (f : ℕ → ℕ) (at : ℕ) → left_aligned base 0 (placed f (at + result.0) (chars result.1.now)) ≡ left_aligned base base (placed f at (chars text.now)) }
{
    let mut rest = text;
    let mut gone = 0usize;
    'blanks: while gone < base {
        let Some((c, more)) = first(rest) else {
            return (gone, rest);
        };
        if is_blank(c) {
            rest = more;
            gone += 1;
        } else {
            return (gone, rest);
        }
    }
    (gone, rest)
}

// How many characters the first row of a text has, and the text behind it.
fn behind_row(text: &str) -> (usize, &str)
    requires { length (chars text.now) < 2 ^ 63 }
    ensures count { result.0 ≡ row_len (chars text.now) }
    ensures rest { chars result.1.now ≡ drop result.0 (chars text.now) }
    ensures within { result.0 ≤ length (chars text.now) }
{
    let mut rest = text;
    let mut count = 0usize;
    'characters: loop {
        let Some((c, more)) = first(rest) else {
            return (count, rest);
        };
        rest = more;
        count += 1;
        if is_break(c) {
            return (count, rest);
        }
    }
}

// A row at the front of a text, how many characters it has, and the text behind it.
pub fn first_row(text: &str) -> (&str, usize, &str)
    requires { length (chars text.now) < 2 ^ 63 }
    ensures count { result.1 ≡ row_len (chars text.now) }
    ensures row { chars result.0.now ≡ take result.1 (chars text.now) }
    ensures rest { chars result.2.now ≡ drop result.1 (chars text.now) }
    ensures within { result.1 ≤ length (chars text.now) }
{
    let (count, behind) = behind_row(text);
    let (row, _) = text.split_at(text.len() - behind.len());
    (row, count, behind)
}
