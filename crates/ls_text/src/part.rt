//! Some lines that follow one another, in one text.
//!
//! Texts and marks stand in one block each, so that an edit copies a few blocks. Marks are made where a line is cut: a snapshot is shared
//! and never changes, so a mark that is made later would need a lock. Where a number of 32 bits can't say where a line stands, memory is
//! refused.

ghost use Rattle.std.specs.Prelude.{◌≡◌, ◌-◌, ◌<◌, ◌≤◌, ◌^◌, ◌++◌, ◌+◌, [], length, map, take, drop, All, IsTrue, IfOk, OnOk, slice_index_or};
ghost use Rattle.std.specs.List.{slice_range};
ghost use Rattle.std.specs.Str.{IsCharBoundary};
ghost use Rattle.ls_text.specs.Cut.{IsPushedLine};
ghost use Rattle.ls_text.specs.own.Alike.{IsSameFront, IsSameBack};
ghost use Rattle.ls_text.specs.own.Parts.{moved, IsMovable, IsBehind, IsAlike, AreAlike};

use crate::line::Line;
use crate::line_end::LineEnd;
use crate::units::char_count;
use abnf_token::{TokenMark, push_marks};
use ls_lists::{MOST_NARROW, narrow};
use std::alloc::{AllocError, Global};
use std::hash::{DefaultHasher, Hasher};
use std::marker::Model;

// How many bytes and marks an edit may add before the room for them grows.
const SPARE: usize = 256;

// How many bytes a token has, at least about.
const BYTES_OF_A_MARK: usize = 4;

// How many bytes a line has, at most about.
const BYTES_OF_A_LINE: usize = 64;

// Where the text of a line and its marks stand among those of its part.
#[derive(Clone, Copy)]
pub struct Held {
    pub text_start: u32,
    pub text_end: u32,
    pub marks_start: u32,
    pub marks_end: u32,
    pub char_count: u32,
    pub end: LineEnd,
}

// Some lines that follow one another. Contracts see the list of them.
#[derive(Drop)]
pub struct Part {
    // The texts of the lines, one after another, without line ends.
    text: String,
    // The marks of their tokens.
    marks: Vec<TokenMark>,
    lines: Vec<Held>,
}

impl Model for Part {
    ghost use Rattle.std.specs.Prelude.{List, map};
    ghost use Rattle.std.specs.String.{string_bytes};
    ghost use Rattle.ls_text.specs.Cut.{Row};

    ghost Value = { List Row };

    ghost use Rattle.ls_text.specs.own.Parts.{held_row, IsPart};

    ghost view = { λ p. map (held_row (string_bytes p.text)) p.lines.items };

    ghost invariant = { λ p. IsPart (string_bytes p.text) p.marks.items p.lines.items };
}

// A text from one place up to another.
#[inline(always)]
fn piece(text: &str, from: u32, to: u32) -> &str
    requires order { from ≤ to }
    requires start { IsCharBoundary text.now from }
    requires end { IsCharBoundary text.now to }
    ensures { result.now ≡ slice_range text.now from to }
{
    &text[from as usize..to as usize]
}

// The marks from one up to another.
#[inline(always)]
fn between(marks: &[TokenMark], from: u32, to: u32) -> &[TokenMark]
    requires order { from ≤ to }
    requires within { to ≤ length marks.now }
    ensures { result.now ≡ slice_range marks.now from to }
{
    &marks[from as usize..to as usize]
}

// Where a line stands.
#[inline(always)]
fn held_of(
    text_start: usize,
    text_end: usize,
    marks_start: usize,
    marks_end: usize,
    char_count: usize,
    end: LineEnd,
) -> Result<Held, AllocError>
    ensures { IfOk result (λ held. held ≡ record {
      text_start = text_start;
      text_end = text_end;
      marks_start = marks_start;
      marks_end = marks_end;
      char_count = char_count;
      end = end;
    }) }
{
    Ok(Held {
        text_start: narrow(text_start)?,
        text_end: narrow(text_end)?,
        marks_start: narrow(marks_start)?,
        marks_end: narrow(marks_end)?,
        char_count: narrow(char_count)?,
        end,
    })
}

// Where the text and the marks of some lines begin, and where their copies do.
#[derive(Clone, Copy)]
struct Shift {
    text_from: u32,
    text_to: u32,
    marks_from: u32,
    marks_to: u32,
}

// Adds the places of the copies of these lines.
#[inline(always)]
fn push_moved(lines: &mut Vec<Held>, some: &[Held], shift: Shift) -> Result<(), AllocError>
    requires { All (IsMovable shift) some.now }
    ensures { OnOk result (lines.new.items ≡ lines.old.items ++ map (moved shift) some.now) }
{
    lines.reserve(some.len())?;
    for held in some {
        lines.push(Held {
            text_start: shift.text_to + (held.text_start - shift.text_from),
            text_end: shift.text_to + (held.text_end - shift.text_from),
            marks_start: shift.marks_to + (held.marks_start - shift.marks_from),
            marks_end: shift.marks_to + (held.marks_end - shift.marks_from),
            char_count: held.char_count,
            end: held.end,
        })?;
    }
    Ok(())
}

// Whether a line stands as far behind one place as another does behind another, and ends alike.
#[inline(always)]
fn is_alike(our: Held, place: u32, their: Held, there: u32) -> bool
    requires our { IsBehind place our }
    requires their { IsBehind there their }
    ensures { IsTrue result → IsAlike place there our their }
{
    our.text_start - place == their.text_start - there
        && our.text_end - place == their.text_end - there
        && our.end == their.end
}

// Whether these lines stand as far behind one place as those do behind another, and end alike.
#[inline(always)]
fn are_alike(ours: &[Held], place: u32, theirs: &[Held], there: u32) -> bool
    requires count { length ours.now ≡ length theirs.now }
    requires ours { All (IsBehind place) ours.now }
    requires theirs { All (IsBehind there) theirs.now }
    ensures { IsTrue result → AreAlike place there ours.now theirs.now (length ours.now) }
{
    for at in 0..ours.len() {
        if !is_alike(ours[at], place, theirs[at], there) {
            return false;
        }
    }
    true
}

impl Part {
    // No lines.
    pub fn new(alloc: Global) -> Part
        ensures { result ≡ [] }
    {
        Part {
            text: String::new(alloc),
            marks: Vec::new(alloc),
            lines: Vec::new(alloc),
        }
    }

    // No lines, with room for about as many as another part has.
    pub fn like(alloc: Global, part: &Part) -> Result<Part, AllocError>
        ensures { IfOk result (λ lines. lines ≡ []) }
    {
        Ok(Part {
            text: String::with_capacity(alloc, part.text.len().saturating_add(SPARE))?,
            marks: Vec::with_capacity(alloc, part.marks.len().saturating_add(SPARE))?,
            lines: Vec::with_capacity(alloc, part.lines.len().saturating_add(2))?,
        })
    }

    // No lines, with room for about those of a text of so many bytes, of which no more than so many come. What isn't needed is let go
    // once they have come.
    pub fn for_text(alloc: Global, bytes: usize, lines: usize) -> Result<Part, AllocError>
        ensures { IfOk result (λ lines. lines ≡ []) }
    {
        let bytes = bytes.min(lines.saturating_mul(BYTES_OF_A_LINE));
        Ok(Part {
            text: String::with_capacity(alloc, bytes)?,
            marks: Vec::with_capacity(alloc, bytes / BYTES_OF_A_MARK)?,
            lines: Vec::with_capacity(alloc, lines.min(bytes))?,
        })
    }

    // How many lines there are.
    pub fn len(&self) -> usize
        ensures { result ≡ length self.now }
    {
        self.lines.len()
    }

    // Feeds the texts of the lines to a hasher, in one piece.
    pub fn feed(&self, hasher: &mut DefaultHasher) {
        hasher.write(self.text.as_bytes());
    }

    // A line.
    #[inline(always)]
    pub fn line(&self, at: usize) -> Line<'_>
        requires { at < length self.now }
        ensures { result ≡ slice_index_or self.now at result }
    {
        let held = self.lines[at];
        let text = piece(self.text.as_str(), held.text_start, held.text_end);
        let marks = between(&self.marks, held.marks_start, held.marks_end);
        Line::of(text, held.end, held.char_count as usize, marks)
    }

    // These lines, and one with a copy of this text.
    #[inline(always)]
    pub fn pushed(self, text: &str, end: LineEnd) -> Result<Part, AllocError>
        requires { length text.now < 2 ^ 32 }
        ensures { IfOk result (λ part. IsPushedLine self text.now end part) }
    {
        let Part {
            text: mut before,
            mut marks,
            mut lines,
        } = self;
        let text_start = before.len();
        let marks_start = marks.len();
        before.push_str(text)?;
        push_marks(&mut marks, text)?;
        let held = held_of(
            text_start,
            before.len(),
            marks_start,
            marks.len(),
            char_count(text),
            end,
        )?;
        lines.push(held)?;
        Ok(Part {
            text: before,
            marks,
            lines,
        })
    }

    // Whether so many lines from one on are the same as those of another part. Their texts are compared in one piece.
    pub fn are_same(&self, from: usize, other: &Part, there: usize, count: usize) -> bool
        requires ours { from + count ≤ length self.now }
        requires theirs { there + count ≤ length other.now }
        ensures { IsTrue result → take count (drop from self.now) ≡ take count (drop there other.now) }
    {
        if count == 0 {
            return true;
        }
        let first = self.lines[from];
        let last = self.lines[from + count - 1];
        let other_first = other.lines[there];
        let other_last = other.lines[there + count - 1];
        let ours = piece(self.text.as_str(), first.text_start, last.text_end);
        let theirs = piece(
            other.text.as_str(),
            other_first.text_start,
            other_last.text_end,
        );
        ours == theirs
            && are_alike(
                &self.lines[from..from + count],
                first.text_start,
                &other.lines[there..there + count],
                other_first.text_start,
            )
    }

    // How many lines at the front are the same in another part: all of the shorter, or found by halving.
    pub fn same_front(&self, other: &Part) -> usize
        ensures { IsSameFront self.now other.now result }
    {
        let mut low = 0;
        let mut high = self.len().min(other.len());
        if self.are_same(0, other, 0, high) {
            return high;
        }
        'halves: while low < high {
            let middle = high - (high - low) / 2;
            if self.are_same(low, other, low, middle - low) {
                low = middle;
            } else {
                high = middle - 1;
            }
        }
        low
    }

    // How many lines at the back are the same in another part, at most so many.
    pub fn same_back(&self, other: &Part, most: usize) -> usize
        ensures most { result ≤ most }
        ensures same { IsSameBack self.now other.now result }
    {
        let ours = self.len();
        let theirs = other.len();
        let mut low = 0;
        let mut high = ours.min(theirs).min(most);
        if self.are_same(ours - high, other, theirs - high, high) {
            return high;
        }
        'halves: while low < high {
            let middle = high - (high - low) / 2;
            if self.are_same(ours - middle, other, theirs - middle, middle - low) {
                low = middle;
            } else {
                high = middle - 1;
            }
        }
        low
    }

    // These lines, and copies of those of another part, from one up to another. Their texts are copied in one piece, and
    // their marks in another.
    pub fn with_some(self, part: &Part, from: usize, to: usize) -> Result<Part, AllocError>
        requires order { from ≤ to }
        requires within { to ≤ length part.now }
        ensures { IfOk result (λ lines. lines ≡ self ++ take (to - from) (drop from part.now)) }
    {
        if from == to {
            return Ok(self);
        }
        let first = part.lines[from];
        let last = part.lines[to - 1];
        let Part {
            mut text,
            mut marks,
            mut lines,
        } = self;
        let shift = Shift {
            text_from: first.text_start,
            text_to: narrow(text.len())?,
            marks_from: first.marks_start,
            marks_to: narrow(marks.len())?,
        };
        text.push_str(piece(part.text.as_str(), first.text_start, last.text_end))?;
        marks.extend_from_slice(between(&part.marks, first.marks_start, last.marks_end))?;
        if text.len() > MOST_NARROW || marks.len() > MOST_NARROW {
            return Err(AllocError);
        }
        push_moved(&mut lines, &part.lines[from..to], shift)?;
        Ok(Part { text, marks, lines })
    }

    // The same lines, without room to spare.
    pub fn trimmed(self) -> Part
        ensures { result ≡ self }
    {
        let Part {
            mut text,
            mut marks,
            mut lines,
        } = self;
        text.shrink_to_fit();
        marks.shrink_to_fit();
        lines.shrink_to_fit();
        Part { text, marks, lines }
    }
}
