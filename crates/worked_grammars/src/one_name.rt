//! Where a name stands that a text doesn't have, and which name stands at an offset past the text's end.

use super::check::{At, snapshot};
use abnf_places::{Wanted, name_at, places_of};
use abnf_token::Folded;
use ls_text::{Snapshot, TextFault};
use std::alloc::{AllocError, Global};

/// A text, a name that it doesn't have, and an offset past its end with what stands there.
type Row = (&'static str, &'static str, usize, At);

const TEXTS: &[Row] = &[
    ("a = b\n  / A c\nB =/ a\n", "d", 99, (0, 0, 0, "")),
    (
        "; b\n  a = %d9b <b> \"b\" ; b\n  c = b",
        "d",
        35,
        (2, 6, 7, "b"),
    ),
    ("; a\n\n ", "a", 7, (0, 0, 0, "")),
];

/// Whether this name stands at an offset.
fn has_name(alloc: Global, text: &Snapshot, offset: usize, want: At) -> Result<bool, AllocError> {
    Ok(match name_at(alloc, text, offset)? {
        Some((place, name)) => (place.line, place.start, place.end, name.0) == want,
        None => want.3.is_empty(),
    })
}

/// Whether a name stands nowhere.
fn is_missing(alloc: Global, text: &Snapshot, name: &str) -> Result<bool, AllocError> {
    let spots = places_of(alloc, text, Folded(name), Wanted::Both)?;
    Ok(spots.as_slice().is_empty())
}

fn is_so(alloc: Global, row: &Row) -> Result<bool, TextFault> {
    let (characters, name, offset, want) = *row;
    let text = snapshot(alloc, characters)?;
    Ok(is_missing(alloc, &text, name)? && has_name(alloc, &text, offset, want)?)
}

#[test]
fn one_name(rt: HostRuntime) -> Result<(), TextFault> {
    for row in TEXTS {
        assert!(rt; is_so(rt.alloc(), row)?);
    }
    Ok(())
}
