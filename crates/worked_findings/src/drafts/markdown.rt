//! Drafts in Markdown with their grammar, written out by hand.

use crate::texts::is_gathered;
use ls_text::{Snapshot, TextFault};
use markdown_blocks::gather_markdown;
use std::alloc::{AllocError, Global};

/// A draft, its grammar, and where characters of the grammar, by their offset, begin in the draft.
type Row = (&'static str, &'static str, &'static [(usize, usize)]);

const FENCES: &[Row] = &[
    (
        "# Title\n```abnf\na = b\n```\nend\n",
        "a = b\n\n",
        &[(0, 16), (5, 21), (6, 22)],
    ),
    ("``` abnf\na = b\n```\n", "a = b\n\n", &[(0, 9), (6, 15)]),
    ("~~~abnf\na = b\n~~~\n", "a = b\n\n", &[(0, 8), (6, 14)]),
    (
        "~~~~ ABNF rules\na = b\n~~~~~~\n",
        "a = b\n\n",
        &[(0, 16), (6, 22)],
    ),
    ("~~~abnf `\na = b\n~~~\n", "a = b\n\n", &[(0, 10), (6, 16)]),
    (
        "````abnf\na = b\n```\n~~~~\n````\n",
        "a = b\n```\n~~~~\n\n",
        &[(6, 15), (10, 19), (15, 24)],
    ),
    (
        "```abnf\na = b\n``` no\n``` \t\n",
        "a = b\n``` no\n\n",
        &[(6, 14), (13, 21)],
    ),
    (
        "```abnf\na = b\n~~~\n",
        "a = b\n~~~\n\n",
        &[(6, 14), (10, 18)],
    ),
    ("```abnf\na = b", "a = b\n", &[(4, 12), (5, 13)]),
    ("```abnf\n```\n", "\n", &[(0, 8)]),
];

const LINES: &[Row] = &[
    (
        "```abnf\r\na = b\r\n```\r\n",
        "a = b\r\n\n",
        &[(5, 14), (6, 15), (7, 16)],
    ),
    ("~~~ abnf\ra = b\r~~~", "a = b\r\n", &[(5, 14), (6, 15)]),
    (
        "\u{E9}\u{1F600}\n```abnf\na = \"\u{20AC}\"\n```\n",
        "a = \"\u{20AC}\"\n\n",
        &[(0, 11), (5, 16), (6, 17), (8, 19)],
    ),
];

const INDENTS: &[Row] = &[
    (
        "  ```abnf\n  a = b\n c = d\n    / e\n  ```\n",
        "a = b\nc = d\n  / e\n\n",
        &[(0, 12), (6, 19), (12, 27), (18, 33)],
    ),
    (
        "\t~~~\tabnf\t\n\t\ta = b\n\t~~~\n",
        "a = b\n\n",
        &[(0, 13), (5, 18), (6, 19)],
    ),
    (
        "1. Rules:\n\n   ~~~ abnf\n   a = b\n   ~~~\n",
        "a = b\n\n",
        &[(0, 26), (6, 32)],
    ),
    (
        "```abnf\n ; c\n  a = b\n```\n",
        "; c\na = b\n\n",
        &[(0, 9), (4, 15), (10, 21)],
    ),
    (
        "```abnf\n  a = b\n   / c\n```\n\n~~~ abnf\nd = e\n~~~\n",
        "a = b\n / c\n\nd = e\n\n",
        &[(0, 10), (6, 18), (11, 23), (12, 37), (18, 43)],
    ),
];

/// Whether a draft has this grammar, whose characters begin in the draft at these places, and none behind the last.
fn has_grammar(
    alloc: Global,
    draft: &str,
    grammar: &str,
    places: &[(usize, usize)],
) -> Result<bool, TextFault> {
    let draft = Snapshot::of_text(alloc, String::from_str(alloc, draft)?)?;
    let gathered = gather_markdown(alloc, &draft)?;
    Ok(is_gathered(&gathered, grammar, places))
}

#[test]
fn finds_fences(rt: HostRuntime) -> Result<(), TextFault> {
    let rows = FENCES;
    assert!(rt; rows.len() >= 10);
    for (draft, grammar, places) in rows {
        assert!(rt; has_grammar(rt.alloc(), draft, grammar, places)?, "{draft}");
    }
    Ok(())
}

#[test]
fn keeps_lines(rt: HostRuntime) -> Result<(), TextFault> {
    let rows = LINES;
    assert!(rt; rows.len() >= 3);
    for (draft, grammar, places) in rows {
        assert!(rt; has_grammar(rt.alloc(), draft, grammar, places)?, "{draft}");
    }
    Ok(())
}

#[test]
fn takes_indents_away(rt: HostRuntime) -> Result<(), TextFault> {
    let rows = INDENTS;
    assert!(rt; rows.len() >= 5);
    for (draft, grammar, places) in rows {
        assert!(rt; has_grammar(rt.alloc(), draft, grammar, places)?, "{draft}");
    }
    Ok(())
}
