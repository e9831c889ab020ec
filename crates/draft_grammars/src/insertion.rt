//! Lines that are inserted in a draft.

ghost use Rattle.std.specs.Prelude.{◌≡◌, ◌++◌, ◌∷◌, [], encode_utf8_all, IfOk, OnOk, string_bytes, take};
ghost use Rattle.std.specs.List.{list_all};
ghost use Rattle.std.specs.Str.{chars};
ghost use Rattle.draft_grammars.specs.Insertions as spec;
ghost use Rattle.draft_grammars.specs.Places.{margin_before, outward, grammar_place};

use crate::format::Format;
use crate::places::SourceMap;
use crate::rename::{is_read, written};
use ls_lists::Text;
use ls_text::{Encoding, Position, Range, Snapshot};
use origins::is_blank;
use std::alloc::{AllocError, Global};

/// What is inserted in a draft.
#[derive(Drop)]
pub struct Inserted {
    /// Where it is inserted, in the units of the draft's encoding.
    pub position: Position,
    /// What is inserted there.
    pub text: Text,
}

// Where a line of a text ends. (No line has so many characters.)
fn line_stop(text: &Snapshot, line: u32) -> usize
    ensures { result ≡ spec.line_stop text.now line }
{
    let at = Position {
        line,
        character: u32::MAX,
    };
    text.offset_of(at, Encoding::Utf32)
}

// Whether the line of an offset ends in CR LF.
fn ends_in_crlf(text: &Snapshot, offset: usize) -> bool
    ensures { result ≡ spec.ends_in_crlf text.now offset }
{
    let _count = text.char_count();
    let line = text.position_of(offset, Encoding::Utf32).line;
    let next = Position {
        line: line + 1,
        character: 0,
    };
    text.offset_of(next, Encoding::Utf32) == line_stop(text, line) + 2
}

// Adds a character, or CR LF for LF.
fn push_end(to: &mut String, c: char) -> Result<(), AllocError>
    ensures { OnOk result (string_bytes to.new ≡ string_bytes to.old ++ encode_utf8_all (spec.with_crlf (c ∷ []))) }
{
    if c == '\n' {
        to.push_str("\r\n")
    } else {
        to.push(c)
    }
}

// A text with CR LF in the place of each LF.
fn with_crlf(alloc: Global, text: &str) -> Result<String, AllocError>
    ensures { IfOk result (λ made. string_bytes made ≡ encode_utf8_all (spec.with_crlf (chars text.now))) }
{
    let mut made = String::new(alloc);
    for c in text.chars() {
        push_end(&mut made, c)?;
    }
    Ok(made)
}

// A text with the line end of the line at an offset of a draft.
fn with_end_at(
    alloc: Global,
    draft: &Snapshot,
    offset: usize,
    text: &Text,
) -> Result<Text, AllocError>
    ensures { IfOk result (λ own. own ≡ spec.with_end_at draft.now offset text.now) }
{
    if ends_in_crlf(draft, offset) {
        Ok(Text::new(with_crlf(alloc, text.as_str())?))
    } else {
        text.copy()
    }
}

// A text, and behind it what stands in the draft before a position of the grammar, in its line.
fn with_margin(places: &SourceMap<'_>, at: Position, text: &Text) -> Result<Text, AllocError>
    ensures { IfOk result (λ made. made ≡ text.now ++ encode_utf8_all (margin_before places.now.draft (outward places.now (grammar_place places.now at)))) }
{
    let mut made = text.copy()?.into_string();
    places.push_margin(&mut made, at)?;
    Ok(Text::new(made))
}

// Whether the first characters of a line, so many, are blanks and marks of a quote.
fn is_plain_front(line: &str, count: usize) -> bool
    ensures { result ≡ list_all spec.is_margin_char (take count (chars line.now)) }
{
    line.chars().take(count).all(|c| is_blank(c) || c == '>')
}

// Whether only these stand before an offset of a draft in its line.
fn has_plain_margin(draft: &Snapshot, offset: usize) -> bool
    ensures { result ≡ spec.has_plain_margin draft.now offset }
{
    let at = draft.position_of(offset, Encoding::Utf32);
    match draft.line(at.line as usize) {
        Some(line) => is_plain_front(line, at.character as usize),
        None => true,
    }
}

// Whether this draft and this text are there, and are alike.
fn are_alike(
    alloc: Global,
    format: Format,
    at_fault: bool,
    draft: Option<Snapshot>,
    text: Option<Snapshot>,
) -> Result<bool, AllocError>
    ensures { IfOk result (λ alike. alike ≡ spec.are_alike format at_fault draft text) }
{
    match (draft, text) {
        (Some(draft), Some(text)) => is_read(alloc, format, &draft, at_fault, &text),
        _ => Ok(false),
    }
}

/// What is inserted in a draft for these lines, with LF, at the start of a line of its grammar. They come behind the margin of the line that
/// they push down, with its line end, and bring its margin. `None` where that has markup, where the grammar of the draft wouldn't get just
/// these lines, or where a text would be larger than 4,194,304 bytes. It is tried, in time by the length of the draft.
///
/// # Errors
///
/// Where an allocation is refused.
pub fn inserted_lines(
    alloc: Global,
    format: Format,
    places: &SourceMap<'_>,
    at: Position,
    lines: &Text,
) -> Result<Option<Inserted>, AllocError>
    ensures { IfOk result (λ given. given ≡ spec.insertion_in format places.now at lines.now) }
{
    let offset = places.outward_offset(at);
    if !has_plain_margin(places.draft(), offset) {
        return Ok(None);
    }
    let own = with_end_at(alloc, places.draft(), offset, lines)?;
    let position = places.outward_position(at);
    let text = with_margin(places, at, &own)?;
    let there = Range {
        start: position,
        end: position,
    };
    let here = Range { start: at, end: at };
    let draft = written(alloc, places.draft(), places.encoding(), &[there], &text)?;
    let grammar = places.grammar().text();
    let grammar = written(alloc, grammar, Encoding::Utf32, &[here], &own)?;
    let at_fault = places.fault().is_some();
    if are_alike(alloc, format, at_fault, draft, grammar)? {
        Ok(Some(Inserted { position, text }))
    } else {
        Ok(None)
    }
}
