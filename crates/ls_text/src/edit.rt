//! Changes of a text, and its lines with a part replaced.

ghost use Rattle.std.specs.Prelude.{◌≡◌, ◌+◌, ◌-◌, ◌<◌, ◌≤◌, ◌++◌, ◌↔◌, length, take, drop, Err, OnOk, IfOk, IfErr};
ghost use Rattle.std.specs.Str.{chars, encode_utf8_all};
ghost use Rattle.std.specs.String.{string_bytes};
ghost use Rattle.ls_text.specs.Lines.{offset_of, units};
ghost use Rattle.ls_text.specs.Cut.{end_text, line_text, end_at, text_of, IsCut, IsKeptText};
ghost use Rattle.ls_text.specs.own.Spots.{IsSpot, front_of, back_of};

use crate::chunk::MOST_LINES;
use crate::cut::{first_line, with_lines};
use crate::fault::TextFault;
use crate::line::Line;
use crate::line_end::LineEnd;
use crate::lines::Lines;
use crate::part::Part;
use crate::position::{Encoding, Position, Range};
use crate::snapshot::MAX_BYTES;
use crate::units::fitting;
use ls_lists::Text;
use std::alloc::{AllocError, Global};

/// A change of a text (LSP 3.17, "TextDocumentContentChangeEvent").
#[derive(Drop)]
pub struct Edit {
    /// What is replaced, or `None` for the whole text. A range whose start is after its end is read with the two exchanged.
    pub range: Option<Range>,
    /// What stands there after the edit.
    pub text: Text,
}

impl Edit {
    /// An edit of its own with the same content, in time by the bytes of its text.
    ///
    /// # Errors
    ///
    /// Where an allocation is refused.
    pub fn copy(&self) -> Result<Edit, AllocError>
        ensures { IfOk result (λ edit. edit ≡ self.now) }
    {
        Ok(Edit {
            range: self.range,
            text: self.text.copy()?,
        })
    }
}

// A place between two characters of a line.
#[derive(Clone, Copy)]
pub struct Spot {
    pub line: usize,
    // The bytes of the line before it.
    pub bytes: usize,
    // The characters of the text before it.
    pub offset: usize,
}

// Where a position stands in these lines.
pub fn spot_of(lines: &Lines, at: Position, encoding: Encoding) -> Spot
    requires { IsKeptText lines.now }
    ensures spot { IsSpot lines.now result }
    ensures position { result.offset ≡ offset_of (units encoding) (text_of lines.now) at.line at.character }
{
    let number = at.line as usize;
    if number < lines.len() {
        let (line, start) = lines.line(number);
        let fit = fitting(
            line.text(),
            line.char_count(),
            encoding,
            at.character as usize,
        );
        Spot {
            line: number,
            bytes: fit.bytes,
            offset: start + fit.count,
        }
    } else {
        let last = lines.len() - 1;
        let (line, _) = lines.line(last);
        Spot {
            line: last,
            bytes: line.text().len(),
            offset: lines.char_count(),
        }
    }
}

// Adds the text of a line with its line end.
fn push_line_text(text: &mut String, line: &Line<'_>) -> Result<(), AllocError>
    ensures { OnOk result (chars (string_bytes text.new)
        ≡ chars (string_bytes text.old) ++ (line_text line.now ++ end_text line.now.end)) }
{
    text.push_str(line.text())?;
    text.push_str(line.end().as_str())?;
    Ok(())
}

// Adds the text of the lines from one up to another.
pub fn push_text(text: &mut String, lines: &Lines, from: usize, to: usize) -> Result<(), AllocError>
    requires order { from ≤ to }
    requires within { to ≤ length lines.now }
    ensures { OnOk result (chars (string_bytes text.new)
        ≡ chars (string_bytes text.old) ++ text_of (take (to - from) (drop from lines.now))) }
{
    for i in from..to {
        let (line, _) = lines.line(i);
        push_line_text(text, &line)?;
    }
    Ok(())
}

// The text of the lines from `kept` up to the first spot's, then the front of that line, the new text, and the rest of the
// second spot's line with its line end.
fn middle(
    alloc: Global,
    lines: &Lines,
    kept: usize,
    from: Spot,
    to: Spot,
    new: &str,
) -> Result<String, AllocError>
    requires kept { kept ≤ from.line }
    requires from { IsSpot lines.now from }
    requires to { IsSpot lines.now to }
    ensures { IfOk result (λ text. chars (string_bytes text)
        ≡ text_of (take (from.line - kept) (drop kept lines.now))
        ++ (front_of lines.now from
        ++ (chars new.now ++ (back_of lines.now to ++ end_text (end_at lines.now to.line))))) }
{
    let mut text = String::new(alloc);
    push_text(&mut text, lines, kept, from.line)?;
    let (first, _) = lines.line(from.line);
    let (last, _) = lines.line(to.line);
    let (front, _) = first.text().split_at(from.bytes);
    let (_, back) = last.text().split_at(to.bytes);
    text.push_str(front)?;
    text.push_str(new)?;
    text.push_str(back)?;
    text.push_str(last.end().as_str())?;
    Ok(text)
}

// The lines of a text, which isn't too large. A chunk is made as soon as it is full.
fn cut_whole(alloc: Global, text: &str) -> Result<Lines, TextFault>
    requires { length text.now ≤ MAX_BYTES }
    ensures ok { IfOk result (λ lines. IsCut (chars text.now) lines) }
    ensures memory { IfErr result (λ e. e ≡ TextFault.Memory) }
{
    let mut lines = Lines::with_room(alloc, 0)?;
    let mut part = Part::for_text(alloc, text.len(), MOST_LINES)?;
    let mut rest = text;
    'lines: loop {
        let (line, end, after) = first_line(rest);
        part = part.pushed(line, end)?;
        if let LineEnd::Eof = end {
            return lines.with_part(alloc, part);
        }
        if part.len() >= MOST_LINES {
            lines = lines.with_part(alloc, part)?;
            part = Part::for_text(alloc, after.len(), MOST_LINES)?;
        }
        rest = after;
    }
}

// The lines of a text. Nothing grows where it is too large.
pub fn whole(alloc: Global, text: &str) -> Result<Lines, TextFault>
    ensures ok { IfOk result (λ lines. IsCut (chars text.now) lines) }
    ensures too_large { (result ≡ Err TextFault.TooLarge) ↔ (MAX_BYTES < length (encode_utf8_all (chars text.now))) }
{
    if text.len() > MAX_BYTES {
        return Err(TextFault::TooLarge);
    }
    cut_whole(alloc, text)
}

// The bytes of the lines from one up to another.
fn bytes_between(lines: &Lines, from: usize, to: usize) -> usize
    requires lines { IsKeptText lines.now }
    requires order { from ≤ to }
    requires within { to ≤ length lines.now }
    ensures { result ≡ length (encode_utf8_all (text_of (take (to - from) (drop from lines.now)))) }
{
    let mut bytes = 0;
    for i in from..to {
        let (line, _) = lines.line(i);
        bytes += line.text().len() + line.end().len();
    }
    bytes
}

// The bytes of a text but for those between two spots.
fn bytes_around(lines: &Lines, from: Spot, to: Spot) -> usize
    requires lines { IsKeptText lines.now }
    requires from { IsSpot lines.now from }
    requires to { IsSpot lines.now to }
    requires order { from.offset ≤ to.offset }
    ensures { result ≡ length (encode_utf8_all (take from.offset (text_of lines.now)))
        + length (encode_utf8_all (drop to.offset (text_of lines.now))) }
{
    let gone = bytes_between(lines, from.line, to.line) + to.bytes;
    lines.byte_count() + from.bytes - gone
}

// The lines with what stands between two spots replaced, where the text isn't too large then.
fn joined(alloc: Global, lines: &Lines, from: Spot, to: Spot, new: &str) -> Result<Lines, TextFault>
    requires lines { IsKeptText lines.now }
    requires from { IsSpot lines.now from }
    requires to { IsSpot lines.now to }
    requires small { let text = take from.offset (text_of lines.now)
        ++ (chars new.now ++ drop to.offset (text_of lines.now)) in
        length (encode_utf8_all text) ≤ MAX_BYTES }
    ensures ok { let text = take from.offset (text_of lines.now)
        ++ (chars new.now ++ drop to.offset (text_of lines.now)) in
        IfOk result (λ cut. IsCut text cut) }
    ensures memory { IfErr result (λ e. e ≡ TextFault.Memory) }
{
    let kept = from.line.saturating_sub(1);
    let part = middle(alloc, lines, kept, from, to, new)?;
    let (mut cut, rest) = with_lines(Part::new(alloc), part.as_str())?;
    let (last, _) = lines.line(to.line);
    if let LineEnd::Eof = last.end() {
        cut = cut.pushed(rest, LineEnd::Eof)?;
    }
    lines.replaced(alloc, kept, to.line + 1, &cut)
}

// The lines with what stands between two spots replaced. The lines before the one before the first spot, and those after the
// second spot's, are taken over with their marks. The line before is cut anew, since its CR and a new LF are one line end.
// The bytes of the whole are counted first: nothing grows where they are too many.
pub fn spliced(
    alloc: Global,
    lines: &Lines,
    from: Spot,
    to: Spot,
    new: &str,
) -> Result<Lines, TextFault>
    requires lines { IsKeptText lines.now }
    requires from { IsSpot lines.now from }
    requires to { IsSpot lines.now to }
    requires order { from.offset ≤ to.offset }
    ensures ok { let text = take from.offset (text_of lines.now)
        ++ (chars new.now ++ drop to.offset (text_of lines.now)) in
        IfOk result (λ cut. IsCut text cut) }
    ensures too_large { let text = take from.offset (text_of lines.now)
        ++ (chars new.now ++ drop to.offset (text_of lines.now)) in
        (result ≡ Err TextFault.TooLarge) ↔ (MAX_BYTES < length (encode_utf8_all text)) }
{
    if bytes_around(lines, from, to).saturating_add(new.len()) > MAX_BYTES {
        return Err(TextFault::TooLarge);
    }
    joined(alloc, lines, from, to, new)
}
