//! The lines of what can't be read of a draft.

ghost use Rattle.std.specs.Prelude.{◌≡◌, ◌≤◌, ◌++◌, IfOk, OnOk, drop, length, string_bytes, take};
ghost use Rattle.findings_text.specs.Sources.{asides_in};
ghost use Rattle.findings_text.specs.Unread as spec;

use crate::line::place_text;
use crate::outcome::{Outcome, outcome_of};
use crate::source::Source;
use draft_findings::Reported;
use joined_grammars::Repeats;
use ls_text::{Encoding, Position, Snapshot};
use origins::{Gathered, Lack, Unread};
use std::alloc::{AllocError as Memory, Global};

/// Why it can't be read, in words.
fn lack_text(lack: Lack) -> &'static str
    ensures { result.now ≡ spec.lack_text lack }
{
    match lack {
        Lack::Elsewhere => "grammar in another file",
        Lack::Empty => "empty block of grammar",
        Lack::BareFence => "rules in a block without a word, \"~~~ abnf\" marks them",
        Lack::Untyped => "rules in an element without a type, type=\"abnf\" marks them",
        Lack::Faulty => "lines that are not all rules",
    }
}

/// The code that is printed of it.
fn lack_code(lack: Lack) -> &'static str
    ensures { result.now ≡ spec.lack_code lack }
{
    match lack {
        Lack::BareFence | Lack::Untyped => "unmarked",
        Lack::Elsewhere | Lack::Empty | Lack::Faulty => "not-read",
    }
}

/// Appends the line of what can't be read and begins at a position.
fn push_lack(
    lines: &mut String,
    alloc: Global,
    file: &str,
    at: Position,
    lack: Lack,
) -> Result<(), Memory>
    ensures { OnOk result (string_bytes lines.new ≡ string_bytes lines.old ++ spec.lack_line file.now at lack) }
{
    let place = place_text(alloc, at)?;
    lines.push_str(file)?;
    lines.push_str(place.as_str())?;
    lines.push_str("warning: ")?;
    lines.push_str(lack_text(lack))?;
    lines.push_str(" [")?;
    lines.push_str(lack_code(lack))?;
    lines.push_str("]\n")?;
    Ok(())
}

/// What of the file of a source can't be read.
pub(crate) fn unread_in(source: Source<'_>) -> &[Unread]
    ensures { result.now ≡ (asides_in source.entry).1 }
{
    match source {
        Source::File => &[],
        Source::Draft(_, _, _, _, unread) => unread,
    }
}

/// Where it begins in the file.
fn begin_of(source: Source<'_>, unread: Unread) -> Position
    ensures { result ≡ (asides_in source.entry).0 unread }
{
    match source {
        Source::File => Position {
            line: 0,
            character: 0,
        },
        Source::Draft(draft, _, _, _, _) => draft.position_of(unread.at, Encoding::Utf32),
    }
}

/// Appends the lines of these.
pub(crate) fn push_unread(
    lines: &mut String,
    alloc: Global,
    file: &str,
    source: Source<'_>,
    unread: &[Unread],
) -> Result<(), Memory>
    ensures { OnOk result (string_bytes lines.new ≡ string_bytes lines.old ++ spec.unread_lines file.now (asides_in source.entry).0 unread.now) }
{
    for one in unread {
        push_lack(lines, alloc, file, begin_of(source, *one), one.lack)?;
    }
    Ok(())
}

/// Whether a position stands before another one.
fn is_before(a: Position, b: Position) -> bool
    ensures { result ≡ spec.is_position_before a b }
{
    a.line < b.line || (a.line == b.line && a.character < b.character)
}

/// How many of these begin before a position, up to the first that doesn't.
fn ahead(source: Source<'_>, at: Position, unread: &[Unread]) -> usize
    ensures count { result ≡ spec.count_before (asides_in source.entry).0 at unread.now }
    ensures within { result ≤ length unread.now }
{
    unread
        .iter()
        .take_while(|one| is_before(begin_of(source, **one), at))
        .count()
}

/// Appends the lines of those that begin before a position, and returns the others.
pub(crate) fn push_ahead<'u>(
    lines: &mut String,
    alloc: Global,
    file: &str,
    source: Source<'_>,
    at: Position,
    unread: &'u [Unread],
) -> Result<&'u [Unread], Memory>
    ensures lines { OnOk result (string_bytes lines.new ≡ string_bytes lines.old ++ spec.unread_lines file.now (asides_in source.entry).0 (take (spec.count_before (asides_in source.entry).0 at unread.now) unread.now)) }
    ensures left { IfOk result (λ left. left.now ≡ drop (spec.count_before (asides_in source.entry).0 at unread.now) unread.now) }
{
    let (front, left) = unread.split_at(ahead(source, at, unread));
    push_unread(lines, alloc, file, source, front)?;
    Ok(left)
}

/// How a file went by what can't be read in it and by what is reported of it.
pub(crate) fn outcome_with(unread: &[Unread], found: &[Reported<'_>]) -> Outcome
    ensures { result ≡ spec.outcome_with unread.now found.now }
{
    match (unread, outcome_of(found)) {
        ([_, ..], Outcome::Clean) => Outcome::Warnings,
        (_, outcome) => outcome,
    }
}

/// The lines of what can't be read of a draft in a file with this name, a warning for each, at its place in the draft. Lines
/// and columns count from 1, and columns count characters.
///
/// # Errors
///
/// Where an allocation is refused.
pub fn print_unread(
    alloc: Global,
    file: &str,
    draft: &Snapshot,
    unread: &[Unread],
) -> Result<String, Memory>
    ensures { IfOk result (λ lines. string_bytes lines ≡ spec.unread_lines file.now (spec.asides_of draft.now unread.now).0 unread.now) }
{
    let grammar = Gathered::new(alloc);
    let none = Repeats::none(alloc);
    let source = Source::Draft(draft, &grammar, &none, &[], unread);
    let mut lines = String::new(alloc);
    push_unread(&mut lines, alloc, file, source, unread)?;
    Ok(lines)
}
