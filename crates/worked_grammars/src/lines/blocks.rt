//! Texts with their items and where their blocks end, written out by hand; and that parsing a block shows what its check shows.

ghost use Rattle.std.specs.Prelude.{◌<◌, length};

use crate::check::snapshot;
use abnf_syntax::{Block, Item, blocks, check_block, parse_block};
use ls_text::TextFault;
use std::alloc::Global;

/// An item: its text, its line, where it starts there, and whether something stands between it and the one before.
type Row = (&'static str, usize, usize, bool);

fn is_item(item: &Item<'_>, row: Row) -> bool {
    let token = item.token;
    (token.text, token.line, token.start, item.apart) == row
}

fn are_items(items: &[Item<'_>], rows: &[Row]) -> bool {
    let mut count = 0;
    for row in rows {
        match items.get(count) {
            Some(item) if is_item(item, *row) => count += 1,
            _ => return false,
        }
    }
    count == items.len()
}

/// Whether the first block of a text has these items.
fn has_items(alloc: Global, text: &str, rows: &[Row]) -> Result<bool, TextFault> {
    let text = snapshot(alloc, text)?;
    let found = blocks(alloc, &text)?;
    match found.first() {
        Some(block) => Ok(are_items(block.items.as_slice(), rows)),
        None => Ok(false),
    }
}

const BRACKETS: &str = " a=b;c\n \t2( d\n  );e\n";

const ITEMS: &[Row] = &[
    ("a", 0, 1, false),
    ("=", 0, 2, false),
    ("b", 0, 3, false),
    ("2", 1, 2, true),
    ("(", 1, 3, false),
    ("d", 1, 5, true),
    (")", 2, 2, true),
];

// Items know what stands before them.
#[test]
fn items_of_a_block(rt: HostRuntime) -> Result<(), TextFault> {
    assert!(rt; has_items(rt.alloc(), BRACKETS, ITEMS)?);
    Ok(())
}

/// Whether the parse of a block shows the fault that its check shows, if there is one.
fn is_parsed(alloc: Global, block: &Block<'_>) -> bool
    requires { 0 < length block.now.items }
{
    let fault = parse_block(alloc, block).err();
    check_block(alloc, block).err() == fault
}

/// Whether that is so of the first block of a text.
fn parses(alloc: Global, text: &str) -> Result<bool, TextFault> {
    let text = snapshot(alloc, text)?;
    let found = blocks(alloc, &text)?;
    match found.first() {
        Some(block) => Ok(is_parsed(alloc, block)),
        None => Ok(false),
    }
}

/// Texts whose first blocks show each fault, or none.
const TEXTS: &[&str] = &[
    "= \"x\"",
    "a \"x\"",
    "a =",
    "a = 2 \"x\"",
    "a = \"x\"\"y\"",
    "a = (b",
    "a = %x100000000",
    "a = ?",
    "a = 2(b",
    "a = 2]",
    "a",
    "a = ; c",
    "a = \"x\" / ",
    "a = (",
    "a = ()",
    "a = (b]",
    "a = b)",
    "a = b = c",
    "? = \"x\"",
    "a ? \"x\"",
    "a = 2?",
    "a = \"x\"2?",
    "a = 4294967296?",
    "a = \"x\"%x100000000",
    "a = 4294967296\"x\"",
    "a = %d1.2.4294967296",
    BRACKETS,
    // 64 brackets, and 65
    "a = ((((((((((((((((((((((((((((((((((((((((((((((((((((((((((((((((\"x\"))))))))))))))))))))))))))))))))))))))))))))))))))))))))))))))))",
    "a = ((((((((((((((((((((((((((((((((((((((((((((((((((((((((((((((((\"x\"(",
    "a = (((((((((((((((((((((((((((((((((((((((((((((((((((((((((((((((((",
];

#[test]
fn parses_as_checked(rt: HostRuntime) -> Result<(), TextFault> {
    let rows = TEXTS;
    assert!(rt; rows.len() >= 30);
    for text in rows {
        assert!(rt; parses(rt.alloc(), text)?, "{text}");
    }
    Ok(())
}

/// Whether these are the first lines of blocks, and the lines after their last ones.
fn are_bounds(found: &[Block<'_>], rows: &[(usize, usize)]) -> bool {
    let mut count = 0;
    for row in rows {
        match found.get(count) {
            Some(block) if (block.first, block.end) == *row => count += 1,
            _ => return false,
        }
    }
    count == found.len()
}

fn has_bounds(alloc: Global, text: &str, rows: &[(usize, usize)]) -> Result<bool, TextFault> {
    let text = snapshot(alloc, text)?;
    Ok(are_bounds(blocks(alloc, &text)?.as_slice(), rows))
}

/// Texts that are cut at the indent of the first rule.
const CUTS: &[(&str, &[(usize, usize)])] = &[
    (
        "   a = \"x\"\n     / \"y\"\n  b = \"z\"\n   c = \"w\"",
        &[(0, 2), (2, 3), (3, 4)],
    ),
    // blanks and comments set no indent, and belong to the block before
    ("; c\n\n a = \"x\"\n; d\n\n b = \"y\"\n", &[(2, 5), (5, 7)]),
    // a tab counts as one
    ("\ta = \"x\"\n  / \"y\"\n b = \"z\"", &[(0, 2), (2, 3)]),
    ("", &[]),
    (" ; c\n \n", &[]),
    (BRACKETS, &[(0, 4)]),
];

#[test]
fn cuts_of_texts(rt: HostRuntime) -> Result<(), TextFault> {
    let rows = CUTS;
    assert!(rt; rows.len() >= 6);
    for (text, bounds) in rows {
        assert!(rt; has_bounds(rt.alloc(), text, bounds)?, "{text}");
    }
    Ok(())
}
