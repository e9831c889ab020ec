//! Offsets, positions and ranges of a draft and of its grammar.

ghost use Rattle.std.specs.Prelude.{◌≡◌, ◌^◌, ◌<◌, ◌≤◌, ◌++◌, drop, encode_utf8_all, IfSome, length, OnOk, map, string_bytes, take, unwrap_or};
ghost use Rattle.std.specs.List.{prefix_len};
ghost use Rattle.std.specs.Str.{chars};
ghost use Rattle.origins.specs.Origins.{is_blank_char};
ghost use Rattle.draft_grammars.specs.Places as spec;

use crate::grammar::DraftGrammar;
use ls_text::{Encoding, Position, Range, Snapshot};
use origins::is_blank;
use std::alloc::AllocError;
use std::marker::Model;
use xml_blocks::{XmlFault, reference_len};

/// The way between the positions of a draft, which count the units of its encoding, and those of its grammar, which count characters.
/// Contracts see the draft, the encoding, the grammar and the draft's fault.
#[derive(Drop)]
pub struct SourceMap<'d> {
    draft: &'d Snapshot,
    encoding: Encoding,
    grammar: &'d DraftGrammar,
}

impl<'d> Model for SourceMap<'d> {
    ghost use Rattle.draft_grammars.specs.Places.{Mapped};

    ghost Value = { Mapped };

    ghost view = { λ map. record { draft = map.draft.now; encoding = map.encoding; grammar = map.grammar.now.grammar; fault = map.grammar.now.fault } };
}

// How many blanks follow so many characters of a line.
fn blanks_in(line: &str, from: usize) -> usize
    ensures value { result ≡ prefix_len is_blank_char (drop from (chars line.now)) }
    ensures small { result < 2 ^ 63 }
{
    line.chars().skip(from).take_while(|c| is_blank(*c)).count()
}

// How many blanks follow an offset in its line of a draft.
fn blanks_behind(draft: &Snapshot, offset: usize) -> usize
    ensures value { result ≡ spec.blanks_behind draft.now offset }
    ensures small { result < 2 ^ 63 }
{
    let at = draft.position_of(offset, Encoding::Utf32);
    match draft.line(at.line as usize) {
        Some(line) => blanks_in(line, at.character as usize),
        None => 0,
    }
}

// How many characters the reference has that begins at a byte of a line, if one does there.
fn reference_at(line: &str, at: usize) -> Option<usize>
    ensures value { result ≡ spec.reference_at (drop at line.now) }
    ensures small { IfSome result (λ width. width ≤ length line.now) }
{
    if at >= line.len() || line.as_bytes()[at] != b'&' {
        return None;
    }
    let (_, behind) = line.split_at(at + 1);
    match reference_len(behind) {
        Some(len) => Some(len + 1),
        None => None,
    }
}

// How many characters the reference has that begins at an offset of a draft, or one.
fn reference_width(draft: &Snapshot, offset: usize) -> usize
    ensures value { result ≡ unwrap_or (spec.reference_at (spec.bytes_behind draft.now offset)) 1 }
    ensures small { result < 2 ^ 63 }
{
    let at = draft.place_at(offset);
    match draft.line(at.line) {
        Some(line) => reference_at(line, at.start).unwrap_or(1),
        None => 1,
    }
}

// Adds the first characters of a line, so many.
fn push_front(to: &mut String, line: &str, count: usize) -> Result<(), AllocError>
    ensures { OnOk result (string_bytes to.new ≡ string_bytes to.old ++ encode_utf8_all (take count (chars line.now))) }
{
    for c in line.chars().take(count) {
        to.push(c)?;
    }
    Ok(())
}

impl<'d> SourceMap<'d> {
    /// The way between a draft and its grammar.
    pub fn new(draft: &'d Snapshot, encoding: Encoding, grammar: &'d DraftGrammar) -> SourceMap<'d>
        ensures { result ≡ record { draft = draft.now; encoding = encoding; grammar = grammar.now.grammar; fault = grammar.now.fault } }
    {
        SourceMap {
            draft,
            encoding,
            grammar,
        }
    }

    /// The draft.
    pub fn draft(&self) -> &'d Snapshot
        ensures { result.now ≡ self.now.draft }
    {
        self.draft
    }

    /// What the positions of the draft count.
    pub fn encoding(&self) -> Encoding
        ensures { result ≡ self.now.encoding }
    {
        self.encoding
    }

    /// The draft's grammar.
    pub fn grammar(&self) -> &'d DraftGrammar
        ensures { result.now ≡ record { grammar = self.now.grammar; fault = self.now.fault } }
    {
        self.grammar
    }

    /// The draft's fault, if it has one.
    pub fn fault(&self) -> Option<XmlFault>
        ensures { result ≡ self.now.fault }
    {
        self.grammar.fault()
    }

    /// The range of the draft's fault, if it has one: the one character at which it is. At the draft's end it is empty.
    pub fn fault_range(&self) -> Option<Range>
        ensures { result ≡ spec.fault_range self.now }
    {
        let at = self.fault()?.offset();
        let count = self.draft.char_count();
        let end = if at < count { at + 1 } else { count };
        Some(Range {
            start: self.drafted(at),
            end: self.drafted(end),
        })
    }

    // The place behind a character that ends at an offset of the draft.
    fn ended_at(&self, offset: usize) -> Option<usize>
        ensures { result ≡ spec.place_ended_at self.now.grammar offset }
    {
        if offset == 0 {
            return None;
        }
        let _count = self.grammar.text().char_count();
        match self.grammar.place_of(offset - 1) {
            Some(before) => Some(before + 1),
            None => None,
        }
    }

    // The place in the grammar of an offset of the draft, if that stands in a block.
    fn inward(&self, offset: usize) -> Option<usize>
        requires { offset < 2 ^ 63 }
        ensures { result ≡ spec.inward self.now offset }
    {
        let begun = self.grammar.place_of(offset);
        let behind = offset + blanks_behind(self.draft, offset);
        begun.or(self.grammar.place_of(behind).or(self.ended_at(offset)))
    }

    fn inward_at(&self, offset: usize) -> Option<Position>
        requires { offset < 2 ^ 63 }
        ensures { result ≡ spec.inward_at self.now offset }
    {
        let place = self.inward(offset)?;
        Some(self.grammar.text().position_of(place, Encoding::Utf32))
    }

    /// The position in the grammar of a position in the draft, if that stands in a block: in front of the character that begins there. A
    /// position in the margin of a line, which is no part of the grammar, is that of the first character behind it, and one behind the last
    /// character of a block is behind it.
    pub fn inward_position(&self, at: Position) -> Option<Position>
        ensures { result ≡ spec.inward_position self.now at }
    {
        let _count = self.draft.char_count();
        self.inward_at(self.draft.offset_of(at, self.encoding))
    }

    /// The empty range in the grammar at the start of a range in the draft, whichever of its ends comes first, if that stands in a block.
    pub fn inward_range(&self, range: Range) -> Option<Range>
        ensures { result ≡ spec.inward_range self.now range }
    {
        let _count = self.draft.char_count();
        let start = self.draft.offset_of(range.start, self.encoding);
        let end = self.draft.offset_of(range.end, self.encoding);
        let at = self.inward_at(start.min(end))?;
        Some(Range { start: at, end: at })
    }

    // Where the character at a place of the grammar begins in the draft.
    fn outward(&self, place: usize) -> usize
        ensures { result ≡ spec.outward self.now place }
    {
        match self.grammar.origin_of(place) {
            Some(origin) => origin,
            None => self.draft.char_count(),
        }
    }

    // How many characters of the draft stand for the one at a place of the grammar, which begins at this offset.
    fn width(&self, place: usize, offset: usize) -> usize
        requires place { place < 2 ^ 63 }
        requires offset { offset ≡ spec.outward self.now place }
        ensures value { result ≡ spec.width self.now place }
        ensures small { result < 2 ^ 63 }
    {
        let next = self.outward(place + 1);
        if next > offset && next - offset == 1 {
            return 1;
        }
        reference_width(self.draft, offset)
    }

    // Where in the draft ends what goes from one place of the grammar to another.
    fn outward_end(&self, start: usize, end: usize) -> usize
        requires { end < 2 ^ 63 }
        ensures { result ≡ spec.outward_end self.now start end }
    {
        if start >= end {
            return self.outward(start);
        }
        let last = self.outward(end - 1);
        let count = self.draft.char_count();
        if last < count {
            count.min(last + self.width(end - 1, last))
        } else {
            count
        }
    }

    // The place in the grammar of a position there.
    fn place_of(&self, at: Position) -> usize
        ensures value { result ≡ spec.grammar_place self.now at }
        ensures small { result < 2 ^ 63 }
    {
        let text: &Snapshot = self.grammar.text();
        let _count = text.char_count();
        text.offset_of(at, Encoding::Utf32)
    }

    fn drafted(&self, offset: usize) -> Position
        ensures { result ≡ spec.drafted self.now offset }
    {
        self.draft.position_of(offset, self.encoding)
    }

    // The offset in the draft of a position in the grammar.
    pub(crate) fn outward_offset(&self, at: Position) -> usize
        ensures { result ≡ spec.outward self.now (spec.grammar_place self.now at) }
    {
        self.outward(self.place_of(at))
    }

    /// The position in the draft of a position in the grammar.
    pub fn outward_position(&self, at: Position) -> Position
        ensures { result ≡ spec.outward_position self.now at }
    {
        self.drafted(self.outward_offset(at))
    }

    /// The range in the draft of a range in the grammar. It ends behind what stands in the draft for its last character, as a reference.
    pub fn outward_range(&self, range: Range) -> Range
        ensures { result ≡ spec.outward_range self.now range }
    {
        let start = self.place_of(range.start);
        let end = self.place_of(range.end);
        Range {
            start: self.drafted(self.outward(start)),
            end: self.drafted(self.outward_end(start, end)),
        }
    }

    /// Writes these ranges of the grammar anew, as those of the draft.
    pub fn carry_ranges(&self, ranges: &mut [Range])
        ensures { ranges.new ≡ map (spec.outward_range self.now) ranges.old }
    {
        for range in ranges.iter_mut() {
            *range = self.outward_range(*range);
        }
    }

    /// Adds what stands in the draft before a position of the grammar, in its line.
    ///
    /// # Errors
    ///
    /// Where an allocation is refused.
    pub fn push_margin(&self, to: &mut String, at: Position) -> Result<(), AllocError>
        ensures { OnOk result (string_bytes to.new ≡ string_bytes to.old ++ encode_utf8_all (spec.margin_before self.now.draft (spec.outward self.now (spec.grammar_place self.now at)))) }
    {
        let offset = self.outward_offset(at);
        let at = self.draft.position_of(offset, Encoding::Utf32);
        match self.draft.line(at.line as usize) {
            Some(line) => push_front(to, line, at.character as usize),
            None => Ok(()),
        }
    }
}
