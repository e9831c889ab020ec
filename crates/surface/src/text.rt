//! `ls_text`: snapshots, positions and edits.

use abnf_token::TokenMark;
use ls_lists::Text;
use ls_text::{Edit, Encoding, Place, Position, Range, Snapshot, TextFault, Units};
use std::alloc::{AllocError as Memory, Global};

pub fn position(line: u32, character: u32) -> Position {
    Position { line, character }
}

pub fn range(start: Position, end: Position) -> Range {
    Range { start, end }
}

pub fn place(line: usize, start: usize, end: usize) -> Place {
    Place { line, start, end }
}

pub fn edit(range: Option<Range>, text: Text) -> Edit {
    Edit { range, text }
}

pub fn edit_copy(edit: &Edit) -> Result<Edit, Memory> {
    edit.copy()
}

pub const ENCODINGS: [Encoding; 3] = [Encoding::Utf8, Encoding::Utf16, Encoding::Utf32];

pub fn encoding_number(encoding: Encoding) -> u8 {
    match encoding {
        Encoding::Utf8 => 0,
        Encoding::Utf16 => 1,
        Encoding::Utf32 => 2,
        Encoding::Markdown(_) => 3,
        Encoding::Xml(_) => 4,
    }
}

pub fn units_number(encoding: Encoding) -> u8 {
    match encoding.units() {
        Units::Utf8 => 0,
        Units::Utf16 => 1,
        Units::Utf32 => 2,
    }
}

pub fn of_text(alloc: Global, text: String) -> Result<Snapshot, TextFault> {
    Snapshot::of_text(alloc, text)
}

pub fn apply(
    snapshot: &Snapshot,
    edits: &[Edit],
    encoding: Encoding,
) -> Result<Snapshot, TextFault> {
    snapshot.apply(edits, encoding)
}

pub fn line_count(snapshot: &Snapshot) -> usize {
    snapshot.line_count()
}

pub fn line(snapshot: &Snapshot, at: usize) -> Option<&str> {
    snapshot.line(at)
}

pub fn offset_of(snapshot: &Snapshot, at: Position, encoding: Encoding) -> usize {
    snapshot.offset_of(at, encoding)
}

pub fn position_of(snapshot: &Snapshot, offset: usize, encoding: Encoding) -> Position {
    snapshot.position_of(offset, encoding)
}

pub fn range_of(snapshot: &Snapshot, place: &Place, encoding: Encoding) -> Range {
    snapshot.range_of(place, encoding)
}

pub fn to_text(snapshot: &Snapshot) -> Result<String, Memory> {
    snapshot.to_text()
}

pub fn same_text(snapshot: &Snapshot, other: &Snapshot) -> bool {
    snapshot.same_text(other)
}

pub fn marks(snapshot: &Snapshot, at: usize) -> Option<&[TokenMark]> {
    snapshot.marks(at)
}

pub const TEXT_FAULTS: [TextFault; 2] = [TextFault::TooLarge, TextFault::Memory];

pub fn text_fault_number(fault: TextFault) -> u8 {
    match fault {
        TextFault::TooLarge => 1,
        TextFault::Memory => 2,
    }
}
