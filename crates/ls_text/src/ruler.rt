//! Ranges of places that ascend.
//!
//! The units before a place are counted from the place before, where that stands in the same line, and not at all where the line is ASCII
//! or the units are bytes. So the ranges of all places in a line cost the length of the line once.

ghost use Rattle.std.specs.Prelude.{◌≡◌, ◌≤◌, ℕ, List, Some, length, take, sum_by, IfSome};
ghost use Rattle.std.specs.Char.{len_utf8};
ghost use Rattle.std.specs.List.{slice_get};
ghost use Rattle.std.specs.Str.{chars};
ghost use Rattle.ls_text.specs.Lines.{fitting, lines, offset_of, units};
ghost use Rattle.ls_text.specs.Positions.{position_in, position_of, place_range};
ghost use Rattle.ls_text.specs.own.Counts.{IsCountedIn};

use crate::position::{Encoding, Place, Position, Range};
use crate::snapshot::{MAX_BYTES, Snapshot};
use crate::units::{chars_fitting, units_before};
use std::marker::Model;

// How far a line has been counted.
#[derive(Clone, Copy)]
pub struct Counted<'s> {
    // What hasn't been counted yet.
    pub rest: &'s str,
    // The bytes of what has been counted, and its units.
    pub bytes: usize,
    pub units: u32,
}

impl<'s> Counted<'s> {
    // Nothing of a line.
    fn nothing(line: &'s str) -> Counted<'s>
        requires { length line.now ≤ MAX_BYTES }
        ensures counted { (width : ℕ → ℕ) → IsCountedIn width (chars line.now) result }
        ensures none { result.bytes ≡ 0 }
    {
        Counted {
            rest: line,
            bytes: 0,
            units: 0,
        }
    }

    // As far as these bytes of the line go, by characters that are whole in them.
    fn up_to(self, bytes: usize, encoding: Encoding) -> Counted<'s>
        requires counted { (line : List ℕ) × IsCountedIn (units encoding) line self }
        requires behind { self.bytes ≤ bytes }
        ensures { (line : List ℕ) → IsCountedIn (units encoding) line self.entry → IsCountedIn (units encoding) line result × (result.units ≡ sum_by (units encoding) (take (fitting len_utf8 line bytes) line)) }
    {
        let fit = chars_fitting(self.rest, Encoding::Utf8, bytes - self.bytes);
        let (more, rest) = self.rest.split_at(fit.bytes);
        Counted {
            rest,
            bytes: self.bytes + fit.bytes,
            units: self.units + units_before(more, fit.count, encoding, fit.count),
        }
    }
}

/// Gives the ranges of places in a text, each as [`Snapshot::range_of`] does, whatever was asked before. It counts on
/// from the place that it was asked for last, where the next one stands behind it in the same line: so places that ascend
/// cost no more than the length of their line together. In a line of ASCII nothing is counted, nor in UTF-8
/// where characters begin.
///
/// Contracts see the text and the encoding.
#[derive(Drop)]
pub struct Ruler<'s> {
    text: &'s Snapshot,
    encoding: Encoding,
    // The line that was counted last, if there is one, and how far.
    last: Option<(usize, Counted<'s>)>,
}

impl<'s> Model for Ruler<'s> {
    ghost use Rattle.std.specs.Prelude.{IfSome};
    ghost use Rattle.ls_text.specs.own.Counts.{IsCountedAt};
    ghost use Rattle.ls_text.specs.Lines.{units};
    ghost use Rattle.ls_text.specs.Positions.{Measured};

    ghost Value = { Measured };

    ghost view = { λ ruler. record { text = ruler.text.now; encoding = ruler.encoding } };

    ghost invariant = { λ ruler. IfSome ruler.last (λ last. IsCountedAt (units ruler.encoding) ruler.text.now last.0 last.1) };
}

impl<'s> Ruler<'s> {
    /// A ruler that has counted nothing yet.
    pub fn new(text: &'s Snapshot, encoding: Encoding) -> Ruler<'s>
        ensures { result ≡ record { text = text.now; encoding = encoding } }
    {
        Ruler {
            text,
            encoding,
            last: None,
        }
    }

    // How far a line has been counted, where that is no further than these bytes.
    fn counted_before(&self, line: usize, held: &'s str, bytes: usize) -> Counted<'s>
        requires line { slice_get (lines self.now.text) line ≡ Some (chars held.now) }
        requires small { length held.now ≤ MAX_BYTES }
        ensures counted { IsCountedIn (units self.now.encoding) (chars held.now) result }
        ensures before { result.bytes ≤ bytes }
    {
        match self.last {
            Some((at, counted)) if at == line && counted.bytes <= bytes => counted,
            _ => Counted::nothing(held),
        }
    }

    // The position of so many bytes in a line.
    fn position_in(&mut self, line: usize, bytes: usize) -> Position
        ensures text { self.new ≡ self.old }
        ensures position { result ≡ position_of (units self.old.encoding) self.old.text (offset_of len_utf8 self.old.text line bytes) }
        ensures in_line { IfSome (slice_get (lines self.old.text) line)
            (λ text. result ≡ position_in (units self.old.encoding) line text bytes) }
    {
        let Some(held) = self.text.wide_line(line, self.encoding) else {
            return self.text.position_in(line, bytes, self.encoding);
        };
        let counted = self
            .counted_before(line, held, bytes)
            .up_to(bytes, self.encoding);
        self.last = Some((line, counted));
        Position {
            line: line as u32,
            character: counted.units,
        }
    }

    /// The positions of a place's two ends, as [`Snapshot::range_of`] gives them. Time goes by the bytes of the line that
    /// haven't been counted yet, where any are to be counted.
    pub fn range_of(&mut self, place: &Place) -> Range
        ensures text { self.new ≡ self.old }
        ensures range { result ≡ place_range (units self.old.encoding) self.old.text place.now }

        // In a line of the text, these are the units before the place's two ends in that line.
        ensures start { IfSome (slice_get (lines self.old.text) place.now.line)
            (λ text. result.start ≡ position_in (units self.old.encoding) place.now.line text place.now.start) }
        ensures end { IfSome (slice_get (lines self.old.text) place.now.line)
            (λ text. result.end ≡ position_in (units self.old.encoding) place.now.line text place.now.end) }
    {
        let start = self.position_in(place.line, place.start);
        let end = self.position_in(place.line, place.end);
        Range { start, end }
    }
}
