//! Texts: ranges of places, and positions and places of offsets, also of such that no position has; and what edits make of them.

use crate::check::snapshot;
use ls_lists::Text;
use ls_text::{Edit, Encoding, Place, Position, Range, Ruler, Snapshot, TextFault};
use std::alloc::{AllocError, Global};

/// Whether the characters of line 1 between two bytes are those between two positions, also by a ruler that has told others.
fn has_range(
    text: &Snapshot,
    ruler: &mut Ruler<'_>,
    encoding: Encoding,
    bytes: (usize, usize),
    characters: (u32, u32),
) -> bool {
    let place = Place {
        line: 1,
        start: bytes.0,
        end: bytes.1,
    };
    let range = Range {
        start: position((1, characters.0)),
        end: position((1, characters.1)),
    };
    text.range_of(&place, encoding) == range && ruler.range_of(&place) == range
}

/// Bytes of a place, and the units before its two ends.
type Ends = ((usize, usize), (u32, u32));

/// The bytes of `;`, U+1F600 and `z` are 1, 4 and 1.
const RANGES_IN_BYTES: &[Ends] = &[
    ((0, 1), (0, 1)),
    ((1, 5), (1, 5)),
    ((5, 6), (5, 6)),
    ((3, 9), (1, 6)),
];

/// Their UTF-16 units are 1, 2 and 1.
const RANGES: &[Ends] = &[
    ((0, 1), (0, 1)),
    ((1, 5), (1, 3)),
    ((5, 6), (3, 4)),
    ((0, 6), (0, 4)),
    ((6, 6), (4, 4)),
];

/// They are a character each.
const RANGES_IN_CHARACTERS: &[Ends] = &[
    ((0, 1), (0, 1)),
    ((1, 5), (1, 2)),
    ((5, 6), (2, 3)),
    ((3, 9), (1, 3)),
];

fn has_ranges(text: &Snapshot, encoding: Encoding, ranges: &[Ends]) -> bool {
    let mut ruler = Ruler::new(text, encoding);
    for (bytes, characters) in ranges {
        if !has_range(text, &mut ruler, encoding, *bytes, *characters) {
            return false;
        }
    }
    ranges.len() >= 4
}

#[test]
fn finds_ranges(rt: HostRuntime) -> Result<(), TextFault> {
    let text = snapshot(rt.alloc(), "\n;\u{1F600}z\n")?;
    assert!(rt; has_ranges(&text, Encoding::Utf8, RANGES_IN_BYTES));
    assert!(rt; has_ranges(&text, Encoding::Utf16, RANGES));
    assert!(rt; has_ranges(&text, Encoding::Utf32, RANGES_IN_CHARACTERS));
    Ok(())
}

/// Offsets, and the position of each.
const POSITIONS: &[(usize, (u32, u32))] = &[
    (0, (0, 0)),
    (1, (0, 1)),
    (2, (0, 1)),
    (3, (1, 0)),
    (5, (1, 3)),
    (6, (1, 4)),
    (7, (2, 0)),
    (8, (2, 0)),
];

const POSITIONS_IN_BYTES: &[(usize, (u32, u32))] = &[
    (2, (0, 1)),
    (4, (1, 1)),
    (5, (1, 5)),
    (6, (1, 6)),
    (8, (2, 0)),
];

const POSITIONS_IN_CHARACTERS: &[(usize, (u32, u32))] = &[
    (2, (0, 1)),
    (4, (1, 1)),
    (5, (1, 2)),
    (6, (1, 3)),
    (8, (2, 0)),
];

fn has_positions(text: &Snapshot, encoding: Encoding, rows: &[(usize, (u32, u32))]) -> bool {
    for (offset, at) in rows {
        if text.position_of(*offset, encoding) != position(*at) {
            return false;
        }
    }
    rows.len() >= 5
}

fn has_all_positions(text: &Snapshot) -> bool {
    has_positions(text, Encoding::Utf8, POSITIONS_IN_BYTES)
        && has_positions(text, Encoding::Utf16, POSITIONS)
        && has_positions(text, Encoding::Utf32, POSITIONS_IN_CHARACTERS)
}

#[test]
fn finds_positions(rt: HostRuntime) -> Result<(), TextFault> {
    let text = snapshot(rt.alloc(), "a\r\n;\u{1F600}z\n")?;
    assert!(rt; has_all_positions(&text));
    Ok(())
}

/// Whether the empty place at an offset is behind so many bytes of a line.
fn has_place(text: &Snapshot, offset: usize, line: usize, bytes: usize) -> bool {
    let place = text.place_at(offset);
    place.line == line && place.start == bytes && place.end == bytes
}

/// Offsets, and the line and the bytes of it before each.
const PLACES: &[(usize, usize, usize)] = &[
    (0, 0, 0),
    (1, 0, 1),
    (2, 0, 3),
    (3, 0, 3),
    (4, 1, 0),
    (5, 1, 3),
    (6, 1, 7),
    (7, 1, 8),
    (8, 1, 8),
];

fn has_places(text: &Snapshot) -> bool {
    for (offset, line, bytes) in PLACES {
        if !has_place(text, *offset, *line, *bytes) {
            return false;
        }
    }
    PLACES.len() >= 9
}

#[test]
fn finds_places(rt: HostRuntime) -> Result<(), TextFault> {
    let text = snapshot(rt.alloc(), "a\u{E9}\r\n\u{20AC}\u{1F600}z")?;
    assert!(rt; has_places(&text));
    // No line follows the last.
    assert!(rt; text.line(2).is_none() && text.marks(9).is_none());
    Ok(())
}

/// Two positions, each a line and a character.
pub type Span = ((u32, u32), (u32, u32));

fn range_of(span: Span) -> Range {
    Range {
        start: position(span.0),
        end: position(span.1),
    }
}

fn position(at: (u32, u32)) -> Position {
    Position {
        line: at.0,
        character: at.1,
    }
}

/// The copy of an edit of a range, or of the whole text where there is none.
fn edit(alloc: Global, span: Option<Span>, text: &str) -> Result<Edit, AllocError> {
    let range = match span {
        Some(span) => Some(range_of(span)),
        None => None,
    };
    let text = Text::from_str(alloc, text)?;
    Edit { range, text }.copy()
}

fn push_edit(
    alloc: Global,
    edits: &mut Vec<Edit>,
    span: Option<Span>,
    text: &str,
) -> Result<(), AllocError> {
    Ok(edits.push(edit(alloc, span, text)?)?)
}

/// Edits, each of a range or of the whole text.
fn edits_of(alloc: Global, rows: &[(Option<Span>, &str)]) -> Result<Vec<Edit>, AllocError> {
    let mut edits = Vec::new(alloc);
    for (span, text) in rows {
        push_edit(alloc, &mut edits, *span, text)?;
    }
    Ok(edits)
}

/// What edits make of a text.
pub fn applied(
    alloc: Global,
    text: &Snapshot,
    rows: &[(Option<Span>, &str)],
) -> Result<Snapshot, TextFault> {
    let edits = edits_of(alloc, rows)?;
    text.apply(edits.as_slice(), Encoding::Utf16)
}
