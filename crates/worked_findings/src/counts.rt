//! How many blocks of texts are rules, counted by hand.

use crate::texts::snapshot;
use findings_files::FileFault;
use rule_texts::Counts;
use std::alloc::Global;

/// A text, how many blocks it has, how many of these have a head, and how many are rules.
type Row = (&'static str, usize, usize, usize);

/// Texts that are rules alone.
const RULES: &[Row] = &[
    ("a = b\n", 1, 1, 1),
    ("a = b\n  / c\nd =/ e\n", 2, 2, 2),
    ("; a\n  a = b\n\n  c = \"x\" ; c\n", 2, 2, 2),
    ("a = b\r\nc\r\n = d", 2, 2, 2),
];

/// Texts that are no grammar.
const NO_GRAMMAR: &[Row] = &[
    ("Some words.\nMore words.\n", 2, 0, 0),
    ("= b\n= c\n", 2, 0, 0),
    ("Some words.\na = ?\nMore words.\n", 3, 1, 0),
    (
        "Some words.\na = ?\nMore words.\nb =/ ?\nAnd more.\n",
        5,
        2,
        0,
    ),
];

/// Texts that are neither.
const OTHERS: &[Row] = &[
    // no block
    ("", 0, 0, 0),
    ("; a\n\n", 0, 0, 0),
    // one block
    ("Some words.\n  More words.\n", 1, 0, 0),
    ("a = ?\n", 1, 1, 0),
    // half of the blocks have a head, or more
    ("Some words.\na = ?\n", 2, 1, 0),
    ("Some words.\na\n =/ ?\n", 2, 1, 0),
    ("Some words.\na = ?\nb = ?\n", 3, 2, 0),
    // a rule among prose
    ("Some words.\nMore words.\na = b\nAnd more.\n", 4, 1, 1),
    // a rule that another block follows
    ("a = b\nc = ?\n", 2, 2, 1),
    ("a = b\nSome words.\n", 2, 1, 1),
];

/// Whether a text has these numbers of blocks, and is rules alone and no grammar, if this says so.
fn is_counted(
    alloc: Global,
    row: Row,
    are_rules_alone: bool,
    is_no_grammar: bool,
) -> Result<bool, FileFault> {
    let (text, blocks, heads, rules) = row;
    let wanted = Counts {
        blocks,
        heads,
        rules,
    };
    let text = snapshot(alloc, text)?;
    let counts = Counts::of(alloc, &text)?;
    Ok(
        counts == wanted
            && counts.are_rules_alone() == are_rules_alone
            && counts.is_no_grammar() == is_no_grammar,
    )
}

#[test]
fn counts_blocks(rt: HostRuntime) -> Result<(), FileFault> {
    let rows = RULES;
    assert!(rt; rows.len() >= 4);
    for row in rows {
        assert!(rt; is_counted(rt.alloc(), *row, true, false)?, "{}", row.0);
    }
    let rows = NO_GRAMMAR;
    assert!(rt; rows.len() >= 4);
    for row in rows {
        assert!(rt; is_counted(rt.alloc(), *row, false, true)?, "{}", row.0);
    }
    let rows = OTHERS;
    assert!(rt; rows.len() >= 10);
    for row in rows {
        assert!(rt; is_counted(rt.alloc(), *row, false, false)?, "{}", row.0);
    }
    Ok(())
}
