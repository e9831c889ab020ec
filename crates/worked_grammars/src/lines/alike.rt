//! How many lines of two texts are the same, at their front and at their back.

use super::texts::{Span, applied};
use crate::check::snapshot;
use ls_text::{Snapshot, TextFault};
use std::alloc::{AllocError, Global};

/// Two texts, and how many lines are the same at their front and at their back.
const ALIKE: &[(&str, &str, usize, usize)] = &[
    ("", "", 1, 1),
    ("", "a", 0, 0),
    ("a\nb\r\nc", "a\nb\r\nc", 3, 3),
    ("a\nb\nc", "a\nx\nc", 1, 1),
    ("a\n\u{1F600}\nc", "a\n\u{1F601}\nc", 1, 1),
    // The same characters, with other line ends, or with a line end elsewhere.
    ("a\r\nb\r\nc", "a\nb\nc", 0, 1),
    ("ab\nc\nd", "a\nbc\nd", 0, 1),
    // One text is a front of the other.
    ("a\nb\n", "a\nb\nc\n", 2, 1),
    ("a\nb", "a\nb\nc", 1, 0),
    // One text is a back of the other.
    ("b\nc", "a\nb\nc", 0, 2),
];

/// Whether so many lines are the same at the front and at the back, whichever text is asked, and no more than are asked for.
fn has_same(one: &Snapshot, other: &Snapshot, front: usize, back: usize) -> bool {
    one.same_front(other) == front
        && other.same_front(one) == front
        && one.same_back(other, usize::MAX) == back
        && other.same_back(one, usize::MAX) == back
        && one.same_back(other, back / 2) == back / 2
}

#[test]
fn finds_same_lines(rt: HostRuntime) -> Result<(), TextFault> {
    let rows = ALIKE;
    assert!(rt; rows.len() >= 10);
    for (one, other, front, back) in rows {
        let ours = snapshot(rt.alloc(), one)?;
        let theirs = snapshot(rt.alloc(), other)?;
        assert!(rt;
            has_same(&ours, &theirs, *front, *back),
            "{one:?} {other:?}"
        );
    }
    Ok(())
}

/// A text of two thousand lines and an empty one, which are four chunks.
fn long_text(alloc: Global) -> Result<String, AllocError> {
    let mut text = String::new(alloc);
    for _ in 0..2_000u32 {
        text.push_str("a\n")?;
    }
    Ok(text)
}

/// An edit of the long text, and how many lines are the same at the front and at the back afterwards.
const EDITS: &[(Span, &str, usize, usize)] = &[
    (((1_200, 0), (1_200, 1)), "b", 1_200, 800),
    // A line of the first chunk, of the last, and where two chunks meet.
    (((0, 0), (0, 0)), "b", 0, 2_000),
    (((2_000, 0), (2_000, 0)), "b", 2_000, 0),
    (((1_023, 1), (1_023, 1)), "b", 1_023, 977),
    (((1_024, 1), (1_024, 1)), "b", 1_024, 976),
    // A line end.
    (((700, 1), (701, 0)), "\r\n", 700, 1_300),
    // Nothing.
    (((700, 1), (701, 0)), "\n", 2_001, 2_001),
];

#[test]
fn finds_same_lines_of_chunks(rt: HostRuntime) -> Result<(), TextFault> {
    let rows = EDITS;
    assert!(rt; rows.len() >= 7);
    let before = Snapshot::of_text(rt.alloc(), long_text(rt.alloc())?)?;
    for (span, new, front, back) in rows {
        let after = applied(rt.alloc(), &before, &[(Some(*span), new)])?;
        assert!(rt; has_same(&before, &after, *front, *back), "{front}");
    }
    Ok(())
}
