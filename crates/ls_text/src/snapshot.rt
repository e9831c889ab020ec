//! Texts that don't change.

ghost use Rattle.std.specs.Prelude.{ℕ, ◌≡◌, ◌+◌, ◌-◌, ◌<◌, ◌≤◌, ◌++◌, ◌↔◌, ◌∷◌, [], length, map, take, drop, Option, true, false, Some, None, Err, All, IsTrue, OnOk, IfOk, IfErr, IfSome, slice_index};
ghost use Rattle.std.specs.Char.{len_utf8, IsScalar};
ghost use Rattle.std.specs.Str.{chars, encode_utf8_all, IsUtf8};
ghost use Rattle.std.specs.String.{string_bytes, string_len};
ghost use Rattle.std.specs.Option.{option_map};
ghost use Rattle.std.specs.List.{slice_get};
ghost use Rattle.ls_text.specs.Lines.{line_ends, lines, offset_of, units};
ghost use Rattle.ls_text.specs.Marks.{AreMarksOf};
ghost use Rattle.ls_text.specs.Positions.{position_of, position_in, place_at, place_range};
ghost use Rattle.ls_text.specs.Edits.{position_offset, replaced, edited, edited_all, is_too_large, first_is_too_large};
ghost use Rattle.ls_text.specs.Cut.{AreLines, IsCut, text_of};

use crate::edit::{Edit, push_text, spliced, spot_of, whole};
use crate::fault::TextFault;
use crate::line::Line;
use crate::lines::Lines;
use crate::position::{Encoding, Place, Position, Range, Units};
use crate::units::{fitting, units_before, units_in};
use abnf_token::TokenMark;
use std::alloc::{AllocError, Global};
use std::hash::DefaultHasher;
use std::marker::Model;

/// The longest text of a document, in bytes of UTF-8.
pub const MAX_BYTES: usize = 4_194_304;

/// A text that doesn't change, cut into lines. Contracts see the list of its characters.
///
/// It has at most [`MAX_BYTES`] bytes of UTF-8.
#[derive(Drop)]
pub struct Snapshot {
    alloc: Global,
    lines: Lines,
}

impl Model for Snapshot {
    ghost use Rattle.std.specs.Prelude.{List, ℕ};
    ghost use Rattle.ls_text.specs.Cut.{text_of, IsKeptText};

    ghost Value = { List ℕ };

    ghost view = { λ s. text_of s.lines };

    ghost invariant = { λ s. IsKeptText s.lines };
}

// The snapshot of these lines.
fn kept(alloc: Global, lines: Lines) -> Snapshot
    requires { AreLines lines }
    ensures text { result ≡ text_of lines }
    ensures small { length (encode_utf8_all (text_of lines)) ≤ MAX_BYTES }
{
    let _count = lines.char_count();
    Snapshot { alloc, lines }
}

// Whether two lines have the same text and line end.
fn same_line(a: &Line<'_>, b: &Line<'_>) -> bool
    ensures { IsTrue result ↔ (a.now ≡ b.now) }
{
    a.end() == b.end() && a.text() == b.text()
}

// Whether the lines of two texts are the same: those at the front by whole chunks, the others one by one.
fn same_lines(a: &Lines, b: &Lines) -> bool
    requires a { AreLines a.now }
    requires b { AreLines b.now }
    ensures { IsTrue result ↔ (text_of a.now ≡ text_of b.now) }
{
    if a.len() != b.len() {
        return false;
    }
    for i in a.same_front(b)..a.len() {
        let (ours, _) = a.line(i);
        let (theirs, _) = b.line(i);
        if !same_line(&ours, &theirs) {
            return false;
        }
    }
    true
}

impl Snapshot {
    /// The snapshot of a text. It is cut into lines, and each line into tokens, in time by the bytes of the text.
    ///
    /// # Errors
    ///
    /// `TooLarge` exactly where the text has more than [`MAX_BYTES`] bytes, whatever memory there is; else `Memory` where
    /// an allocation is refused.
    pub fn of_text(alloc: Global, text: String) -> Result<Snapshot, TextFault>
        ensures ok { IfOk result (λ s. (s ≡ chars (string_bytes text)) × (string_len text ≤ MAX_BYTES)) }
        ensures too_large { (result ≡ Err TextFault.TooLarge) ↔ (MAX_BYTES < string_len text) }
    {
        if text.len() > MAX_BYTES {
            return Err(TextFault::TooLarge);
        }
        Ok(kept(alloc, whole(alloc, text.as_str())?))
    }

    /// The number of characters. All are Unicode scalar values, and they have at most [`MAX_BYTES`] bytes of UTF-8. It is
    /// kept, not counted.
    pub fn char_count(&self) -> usize
        ensures count { result ≡ length self.now }
        ensures scalars { All IsScalar self.now }
        ensures small { length (encode_utf8_all self.now) ≤ MAX_BYTES }
    {
        self.lines.char_count()
    }

    /// The number of lines, one more than the text has line ends. It is kept, not counted.
    pub fn line_count(&self) -> usize
        ensures { result ≡ line_ends self.now + 1 }
    {
        self.lines.len()
    }

    /// The line `at`, from 0, without its line end. There is none from [`line_count`](Snapshot::line_count) on. It is
    /// found by halving the list of chunks.
    pub fn line(&self, at: usize) -> Option<&str>
        ensures characters { option_map (λ line. chars line.now) result ≡ slice_get (lines self.now) at }
        ensures bytes { option_map (λ line. line.now) result
            ≡ option_map encode_utf8_all (slice_get (lines self.now) at) }
        ensures utf8 { IfSome result (λ line. IsUtf8 line.now) }
    {
        if at < self.lines.len() {
            let (line, _) = self.lines.line(at);
            Some(line.text())
        } else {
            None
        }
    }

    /// Where the tokens of the line `at`, from 0, stand, in bytes of the line. There is none from
    /// [`line_count`](Snapshot::line_count) on.
    ///
    /// They were made when the line was cut, so the call takes no memory, and as long as [`line`](Snapshot::line).
    pub fn marks(&self, at: usize) -> Option<&[TokenMark]>
        ensures { AreMarksOf (slice_get (lines self.now) at) (option_map (λ marks. marks.now) result) }
    {
        if at < self.lines.len() {
            let (line, _) = self.lines.line(at);
            Some(line.marks())
        } else {
            None
        }
    }

    /// The line `at`, from 0, without its line end, and where its tokens stand, by one look-up. There is none from
    /// [`line_count`](Snapshot::line_count) on.
    pub fn row(&self, at: usize) -> Option<(&str, &[TokenMark])>
        ensures bytes { option_map (λ row. row.0.now) result
            ≡ option_map encode_utf8_all (slice_get (lines self.now) at) }
        ensures marks { AreMarksOf (slice_get (lines self.now) at) (option_map (λ row. row.1.now) result) }
    {
        if at < self.lines.len() {
            let (line, _) = self.lines.line(at);
            Some((line.text(), line.marks()))
        } else {
            None
        }
    }

    /// The offset of a position, in characters: the greatest in its line with at most that many units before it in the
    /// line. Past the last line it is the text's end. Time goes by the characters of the line before it, but in a line of
    /// ASCII nothing is counted.
    pub fn offset_of(&self, at: Position, encoding: Encoding) -> usize
        ensures { result ≡ offset_of (units encoding) self.now at.line at.character }
    {
        let line = at.line as usize;
        let limit = at.character as usize;
        if line < self.lines.len() {
            let (held, start) = self.lines.line(line);
            start + fitting(held.text(), held.char_count(), encoding, limit).count
        } else {
            self.lines.char_count()
        }
    }

    /// The position of an offset, which counts characters. Past the text's end it is that of the end, and between CR and
    /// LF that before the CR. Time goes by the characters of the line before it, but in a line of ASCII nothing is
    /// counted.
    pub fn position_of(&self, offset: usize, encoding: Encoding) -> Position
        ensures { result ≡ position_of (units encoding) self.now offset }
    {
        let (line, held, start) = self.lines.line_before(offset);
        Position {
            line: line as u32,
            character: units_before(held.text(), held.char_count(), encoding, offset - start),
        }
    }

    /// The empty place at an offset, which counts characters. Past the text's end it is that at the end, and between CR and
    /// LF that before the CR.
    pub fn place_at(&self, offset: usize) -> Place
        ensures { result ≡ place_at self.now offset }
    {
        let at = self.position_of(offset, Encoding::Utf8);
        Place {
            line: at.line as usize,
            start: at.character as usize,
            end: at.character as usize,
        }
    }

    // The position of so many bytes in a line.
    pub(crate) fn position_in(&self, line: usize, bytes: usize, encoding: Encoding) -> Position
        ensures position { result ≡ position_of (units encoding) self.now (offset_of len_utf8 self.now line bytes) }
        ensures in_line { IfSome (slice_get (lines self.now) line)
            (λ text. result ≡ position_in (units encoding) line text bytes) }
    {
        if line < self.lines.len() {
            let (held, _) = self.lines.line(line);
            let (text, char_count) = (held.text(), held.char_count());
            Position {
                line: line as u32,
                character: units_in(text, char_count, encoding, bytes),
            }
        } else {
            self.position_of(self.lines.char_count(), encoding)
        }
    }

    // A line whose units have to be counted: it isn't ASCII, and bytes aren't units.
    pub(crate) fn wide_line(&self, at: usize, encoding: Encoding) -> Option<&str>
        ensures line { IfSome result (λ line. slice_get (lines self.now) at ≡ Some (chars line.now)) }
        ensures small { IfSome result (λ line. length line.now ≤ MAX_BYTES) }
        ensures fits { IfSome result (λ _. at < 4_294_967_296) }
        ensures position { IfSome result (λ line. (width : ℕ → ℕ) (bytes : ℕ) → position_in width at (chars line.now) bytes ≡ position_of width self.now (offset_of len_utf8 self.now at bytes)) }
    {
        if let Units::Utf8 = encoding.units() {
            return None;
        }
        if at >= self.lines.len() {
            return None;
        }
        let (held, _) = self.lines.line(at);
        if held.text().len() == held.char_count() {
            return None;
        }
        Some(held.text())
    }

    /// The positions of a place's two ends.
    ///
    /// An end past the line's end is taken for the line's end, and one inside a character for that character's start.
    /// Time goes by the bytes of the line before its ends, but in a line of ASCII nothing is counted, nor in UTF-8 where
    /// characters begin. [`Ruler`](crate::Ruler) is for many places of one line.
    pub fn range_of(&self, place: &Place, encoding: Encoding) -> Range
        ensures range { result ≡ place_range (units encoding) self.now place.now }

        // In a line of the text, these are the units before the place's two ends in that line.
        ensures start { IfSome (slice_get (lines self.now) place.now.line)
            (λ text. result.start ≡ position_in (units encoding) place.now.line text place.now.start) }
        ensures end { IfSome (slice_get (lines self.now) place.now.line)
            (λ text. result.end ≡ position_in (units encoding) place.now.line text place.now.end) }
    {
        Range {
            start: self.position_in(place.line, place.start, encoding),
            end: self.position_in(place.line, place.end, encoding),
        }
    }

    /// The whole text with its line ends, in time by its bytes.
    ///
    /// # Errors
    ///
    /// Where an allocation is refused.
    pub fn to_text(&self) -> Result<String, AllocError>
        ensures { IfOk result (λ text. chars (string_bytes text) ≡ self.now) }
    {
        let mut text = String::new(self.alloc);
        push_text(&mut text, &self.lines, 0, self.lines.len())?;
        Ok(text)
    }

    /// Whether both texts have the same characters. Time goes by the bytes of the shorter one, up to the first line that
    /// differs.
    pub fn same_text(&self, other: &Snapshot) -> bool
        ensures { IsTrue result ↔ (self.now ≡ other.now) }
    {
        same_lines(&self.lines, &other.lines)
    }

    /// Feeds the bytes of all lines to a hasher, without their line ends, many lines in one piece.
    pub fn feed(&self, hasher: &mut DefaultHasher) {
        self.lines.feed(hasher);
    }

    /// How many lines at the front are the same in another text, with their line ends: by whole chunks, and within the
    /// first that differs. It may be fewer than there are.
    pub fn same_front(&self, other: &Snapshot) -> usize
        ensures within { (result ≤ line_ends self.now + 1) × (result ≤ line_ends other.now + 1) }
        ensures same { take result (lines self.now) ≡ take result (lines other.now) }
    {
        self.lines.same_front(&other.lines)
    }

    /// How many lines at the back are the same in another text, with their line ends, at most so many. It may be fewer
    /// than there are.
    pub fn same_back(&self, other: &Snapshot, most: usize) -> usize
        ensures most { result ≤ most }
        ensures within { (result ≤ line_ends self.now + 1) × (result ≤ line_ends other.now + 1) }
        ensures same { drop (line_ends self.now + 1 - result) (lines self.now)
            ≡ drop (line_ends other.now + 1 - result) (lines other.now) }
    {
        self.lines.same_back(&other.lines, most)
    }

    // The lines with a range replaced.
    fn replaced(&self, range: Range, encoding: Encoding, new: &str) -> Result<Lines, TextFault>
        ensures ok { IfOk result (λ lines. IsCut
            (replaced self.now
            (position_offset (units encoding) self.now range.start)
            (position_offset (units encoding) self.now range.end)
            (chars new.now))
            lines) }
        ensures too_large { let text = replaced self.now
            (position_offset (units encoding) self.now range.start)
            (position_offset (units encoding) self.now range.end)
            (chars new.now) in
            (result ≡ Err TextFault.TooLarge) ↔ (MAX_BYTES < length (encode_utf8_all text)) }
    {
        let start = spot_of(&self.lines, range.start, encoding);
        let end = spot_of(&self.lines, range.end, encoding);
        if start.offset <= end.offset {
            spliced(self.alloc, &self.lines, start, end, new)
        } else {
            spliced(self.alloc, &self.lines, end, start, new)
        }
    }

    // The text after one edit.
    fn edited(&self, edit: &Edit, encoding: Encoding) -> Result<Snapshot, TextFault>
        ensures ok { IfOk result (λ s. (s ≡ edited (units encoding) self.now edit.now) × (is_too_large s ≡ false)) }
        ensures too_large { (result ≡ Err TextFault.TooLarge)
            ↔ (is_too_large (edited (units encoding) self.now edit.now) ≡ true) }
    {
        let lines = match edit.range {
            None => whole(self.alloc, edit.text.as_str())?,
            Some(range) => self.replaced(range, encoding, edit.text.as_str())?,
        };
        Ok(kept(self.alloc, lines))
    }

    // This text, without a copy of its lines.
    fn share(&self) -> Result<Snapshot, AllocError>
        ensures { IfOk result (λ s. s ≡ self.now) }
    {
        Ok(Snapshot {
            alloc: self.alloc,
            lines: self.lines.share(self.alloc)?,
        })
    }

    // The text after these edits, each on the text that the ones before it left.
    fn edited_all(self, edits: &[Edit], encoding: Encoding) -> Result<Snapshot, TextFault>
        ensures ok { IfOk result (λ s. edited_all (units encoding) self edits.now ≡ Some s) }
        ensures too_large { IfErr result
            (λ e. e ≡ TextFault.TooLarge → edited_all (units encoding) self edits.now ≡ None) }
    {
        let mut text = self;
        for edit in edits {
            text = text.edited(edit, encoding)?;
        }
        Ok(text)
    }

    /// The text after these edits, each on the text that the ones before it left. This text stays as it is.
    ///
    /// Chunks of lines that no edit comes near are shared and not copied. An edit takes time by the bytes of its text and
    /// of the lines that it replaces, and by the number of chunks.
    ///
    /// # Errors
    ///
    /// `TooLarge` where the text after one of the edits has more than [`MAX_BYTES`] bytes, also where a later edit would
    /// shrink it, and `Memory` where an allocation is refused before. The bytes of a text are counted before anything
    /// grows for it, so of the first edit `TooLarge` is reported whatever memory there is.
    pub fn apply(&self, edits: &[Edit], encoding: Encoding) -> Result<Snapshot, TextFault>
        ensures ok { IfOk result (λ s. edited_all (units encoding) self.now edits.now ≡ Some s) }
        ensures too_large { IfErr result
            (λ e. e ≡ TextFault.TooLarge → edited_all (units encoding) self.now edits.now ≡ None) }
        ensures first { first_is_too_large (units encoding) self.now edits.now ≡ true → result ≡ Err TextFault.TooLarge }
    {
        match edits {
            [] => Ok(self.share()?),
            [first, rest @ ..] => self.edited(first, encoding)?.edited_all(rest, encoding),
        }
    }
}
