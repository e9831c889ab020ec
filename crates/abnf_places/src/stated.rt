//! Where a name is written, by the marks of lines.

ghost use Rattle.std.specs.Prelude.{◌≡◌, ◌≤◌, ◌<◌, false};
ghost use Rattle.std.specs.List.{list_any};
ghost use Rattle.abnf_token.specs.Marks.{AreMarks, IsMarkOf};
ghost use Rattle.abnf_parts.specs.Names.{folded_text};
ghost use Rattle.abnf_places.specs.own.Stated as spec;

use abnf_syntax::{Row, Sheet, is_item};
use abnf_token::{Folded, Kind, TokenMark, token_at};

/// Whether the token that has this mark is this name.
fn is_called(text: &str, mark: &TokenMark, name: Folded<'_>) -> bool
    requires { IsMarkOf text.now mark.now }
    ensures { result ≡ spec.is_called_at (folded_text name.entry) text.now mark.now }
{
    match mark.kind {
        Kind::Name => name == Folded(token_at(text, 0, mark).text),
        _ => false,
    }
}

/// Whether some token of a line is this name.
fn stands_in(row: Row<'_>, name: Folded<'_>) -> bool
    requires { AreMarks row.text.now row.marks.now }
    ensures { result ≡ list_any (spec.is_called_at (folded_text name.entry) row.entry.text.now) row.entry.marks.now }
{
    for mark in row.marks {
        if is_called(row.text, mark, name) {
            return true;
        }
    }
    false
}

/// Whether the first item of a line is this name.
fn stands_first(row: Row<'_>, name: Folded<'_>) -> bool
    requires { AreMarks row.text.now row.marks.now }
    ensures { result ≡ spec.is_first_at (folded_text name.entry) row.entry.text.now row.entry.marks.now }
{
    for mark in row.marks {
        if is_item(mark.kind) {
            return is_called(row.text, mark, name);
        }
    }
    false
}

/// Whether the first item of a line is this name, as it is where a block that begins there defines it.
pub(crate) fn begins_with(sheet: &Sheet<'_>, at: usize, name: Folded<'_>) -> bool
    ensures { result ≡ false → spec.IsNotFirst sheet.now (folded_text name.entry) at }
{
    stands_first(sheet.row(at), name)
}

/// Whether a name is written in one of these lines.
pub(crate) fn is_stated(sheet: &Sheet<'_>, first: usize, end: usize, name: Folded<'_>) -> bool
    requires { first ≤ end }
    ensures { result ≡ false → spec.IsNowhere sheet.now (folded_text name.entry) first end }
{
    for at in first..end {
        if stands_in(sheet.row(at), name) {
            return true;
        }
    }
    false
}
