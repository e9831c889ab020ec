//! Published texts with their grammar, written out by hand.

use crate::texts::is_gathered;
use ls_text::{Snapshot, TextFault};
use origins::{Lack, Unread};
use published_blocks::gather_published;
use std::alloc::Global;

/// A text, its grammar, where characters of the grammar, by their offset, begin in the text, and where runs do that aren't all rules.
type Row = (
    &'static str,
    &'static str,
    &'static [(usize, usize)],
    &'static [usize],
);

const RUNS: &[Row] = &[
    (
        "a = b\n  / c\n",
        "a = b\n  / c\n\n",
        &[(0, 0), (5, 5), (6, 6), (11, 11), (12, 11)],
        &[],
    ),
    // between prose, and left aligned
    (
        "1. Rules\n\n   a = b\n      / c\n\nSome words.\n",
        "a = b\n   / c\n\n",
        &[(0, 13), (5, 18), (6, 22), (9, 25), (12, 28), (13, 28)],
        &[],
    ),
    // a blank line ends a run, whatever follows
    (
        "a = b\n \t\nc =/ d\n",
        "a = b\n\nc =/ d\n\n",
        &[(5, 5), (6, 5), (7, 9), (13, 15), (14, 15)],
        &[],
    ),
    ("a = b\n\n  / c\n", "a = b\n\n", &[(5, 5), (6, 5)], &[]),
    // a comment comes first, and comments alone are none
    (
        "; of a\n a = b\n",
        "; of a\na = b\n\n",
        &[(0, 0), (6, 6), (7, 8), (12, 13), (13, 13)],
        &[],
    ),
    ("; a\n; b\n", "", &[], &[]),
    // line ends become LF, and characters count
    (
        "a = b\r\n  / c\r\n",
        "a = b\n  / c\n\n",
        &[(5, 5), (6, 7), (11, 12), (12, 12)],
        &[],
    ),
    (
        "\u{E9}\u{1F600}\n\na = b ; \u{20AC}\n",
        "a = b ; \u{20AC}\n\n",
        &[(0, 4), (8, 12), (9, 13), (10, 13)],
        &[],
    ),
    // a block of a run is no rule
    (
        "a = b\n\n  c = ?\n\nd = e\n",
        "a = b\n\nd = e\n\n",
        &[(0, 0), (7, 16), (12, 21), (13, 21)],
        &[7],
    ),
    ("a = b\nSome words.\n", "", &[], &[0]),
    ("\n; c\n  x = 5 apples\n", "", &[], &[1]),
    ("x = 5 apples\n\n\u{E9} = b\n\n y = ?\n", "", &[], &[0, 21]),
    // runs that don't begin as a rule does
    ("", "", &[], &[]),
    ("Some words:\na = b\n", "", &[], &[]),
    ("1a = b\n", "", &[], &[]),
    ("a\n = b\n", "", &[], &[]),
    ("= b\n", "", &[], &[]),
];

const PAGES: &[Row] = &[
    // a page break in a rule: a footer, a form feed, a header and blank lines
    (
        "a = b\n    / c\n\nDoe [Page 3]\n\u{C}\nRFC 1\n\n    / d\n",
        "a = b\n    / c\n    / d\n\n",
        &[(13, 13), (14, 37), (21, 44), (22, 44)],
        &[],
    ),
    // a form feed and the header in a line
    (
        "a = b\n\u{C}RFC 1\n  / c\n",
        "a = b\n  / c\n\n",
        &[(5, 5), (6, 13), (11, 18), (12, 18)],
        &[],
    ),
    // a form feed alone, and a header behind it, whatever it says
    (
        "a = b\n\u{C} \t\nc = d\n  / e\n",
        "a = b\n  / e\n\n",
        &[(5, 5), (6, 16), (11, 21), (12, 21)],
        &[],
    ),
    // there is none behind it
    (
        "a = b\n\u{C}\n  / c\n",
        "a = b\n  / c\n\n",
        &[(5, 5), (6, 8), (11, 13), (12, 13)],
        &[],
    ),
    // a footer alone
    (
        "a = b\nDoe [Page 12] \t\n  / c\n",
        "a = b\n  / c\n\n",
        &[(5, 5), (6, 22), (11, 27), (12, 27)],
        &[],
    ),
    (
        "a = b ; [Page 3]\nc = d\n",
        "c = d\n\n",
        &[(0, 17), (5, 22), (6, 22)],
        &[],
    ),
    // these are none
    (
        "a = b ; [Page iv]\nc = d ; [Page 3] e\nf = g ; [Page ]\n",
        "a = b ; [Page iv]\nc = d ; [Page 3] e\nf = g ; [Page ]\n\n",
        &[(17, 17), (18, 18), (52, 52), (53, 52)],
        &[],
    ),
    // a page break in prose, behind which a rule begins
    (
        "Some words\n\nDoe [Page 1]\n\u{C}\nRFC 1\n\n  a = b\n",
        "a = b\n\n",
        &[(0, 36), (5, 41), (6, 41)],
        &[],
    ),
    (
        "Some words\n[Page 1]\n  a = b\n",
        "a = b\n\n",
        &[(0, 22), (5, 27), (6, 27)],
        &[],
    ),
    ("Some words\n\u{C}\nRFC 1\n  more words\n", "", &[], &[]),
    // a line behind a page break that isn't indented deeper, or begins another rule
    (
        "  a = b\n\u{C}\nRFC 1\n  / c\n",
        "a = b\n\n",
        &[(0, 2), (5, 7), (6, 7)],
        &[],
    ),
    (
        "a = b\n\u{C}\nRFC 1\n  c = d\n",
        "a = b\n\nc = d\n\n",
        &[(5, 5), (6, 5), (7, 16), (12, 21), (13, 21)],
        &[],
    ),
    // the run that goes on isn't all rules
    ("\na = b\n\u{C}\nRFC 1\n  ?\n", "", &[], &[1]),
];

/// Whether these are runs that aren't all rules, which begin at these places.
fn are_faulty(unread: &[Unread], places: &[usize]) -> bool {
    if unread.len() != places.len() {
        return false;
    }
    for (run, at) in unread.iter().zip(places) {
        if run.at != *at || run.lack != Lack::Faulty {
            return false;
        }
    }
    true
}

/// Whether this is found in a text.
fn is_found(alloc: Global, row: Row) -> Result<bool, TextFault> {
    let (text, grammar, places, faulty) = row;
    let text = Snapshot::of_text(alloc, String::from_str(alloc, text)?)?;
    let found = gather_published(alloc, &text)?;
    let is_right = is_gathered(&found.grammar, grammar, places);
    Ok(is_right && are_faulty(found.unread.as_slice(), faulty))
}

#[test]
fn finds_runs_of_rules(rt: HostRuntime) -> Result<(), TextFault> {
    let rows = RUNS;
    assert!(rt; rows.len() >= 17);
    for row in rows {
        assert!(rt; is_found(rt.alloc(), *row)?, "{}", row.0);
    }
    Ok(())
}

#[test]
fn leaves_page_breaks_out(rt: HostRuntime) -> Result<(), TextFault> {
    let rows = PAGES;
    assert!(rt; rows.len() >= 13);
    for row in rows {
        assert!(rt; is_found(rt.alloc(), *row)?, "{}", row.0);
    }
    Ok(())
}
