//! Drafts in RFCXML with their grammar, written out by hand.

use crate::texts::is_gathered;
use std::alloc::Global;
use xml_blocks::{XmlFault, gather_front, gather_xml};

/// A draft, its grammar, and where characters of the grammar, by their offset, begin in the draft.
type Row = (&'static str, &'static str, &'static [(usize, usize)]);

const BLOCKS: &[Row] = &[
    (
        "<sourcecode type=\"abnf\">a = b</sourcecode>",
        "a = b\n",
        &[(0, 24), (4, 28), (5, 29)],
    ),
    (
        "<artwork type='ABNF'>a = b</artwork>",
        "a = b\n",
        &[(0, 21), (5, 26)],
    ),
    (
        "<sourcecode type=\"abnf\">a = b</sourcecode> <artwork type=\"abnf\">c = d</artwork\n>",
        "a = b\nc = d\n",
        &[(5, 29), (6, 64), (11, 69)],
    ),
    (
        "<sourcecode type=\"abnf\" src=\"a.abnf\"/><sourcecode name=\"a>b\" type = \"abnf\" >a = b</sourcecode>",
        "a = b\n",
        &[(0, 76), (5, 81)],
    ),
    (
        "<sourcecode type=\"abnf\">a = b</artwork></sourcecode>",
        "a = b\n",
        &[(4, 28), (5, 39)],
    ),
    (
        "\u{E9}<artwork type=\"abnf\">\n  a = b\n</artwork>",
        "\na = b\n\n",
        &[(0, 22), (1, 25), (6, 30), (7, 31)],
    ),
];

const PIECES: &[Row] = &[
    (
        "<sourcecode type=\"abnf\">a = &lt;b&gt;</sourcecode>",
        "a = <b>\n",
        &[(4, 28), (5, 32), (6, 33), (7, 37)],
    ),
    (
        "<sourcecode type=\"abnf\">a = %x41 ; &#x41;&#65;&amp;&quot;&apos;</sourcecode>",
        "a = %x41 ; AA&\"'\n",
        &[(11, 35), (12, 41), (13, 46), (14, 51), (15, 57), (16, 63)],
    ),
    (
        "<sourcecode type=\"abnf\">a = <![CDATA[<b>]]> c</sourcecode>",
        "a = <b> c\n",
        &[(4, 37), (6, 39), (7, 43), (8, 44), (9, 45)],
    ),
    (
        "<sourcecode type=\"abnf\">a <!-- = x -->= b</sourcecode>",
        "a = b\n",
        &[(1, 25), (2, 38), (5, 41)],
    ),
    (
        "<!-- <sourcecode type=\"abnf\"> --><artwork type=\"abnf\">a = b</artwork>",
        "a = b\n",
        &[(0, 54), (5, 59)],
    ),
];

/// A draft that is at fault, the grammar in front of that, the places of characters, as in a [`Row`], and the fault.
type Front = (
    &'static str,
    &'static str,
    &'static [(usize, usize)],
    XmlFault,
);

const FRONTS: &[Front] = &[
    (
        "<artwork type=\"abnf\">a = b</artwork><artwork type=\"abnf\">c = &d</artwork>",
        "a = b\nc = \n",
        &[(0, 21), (5, 26), (6, 57), (9, 60), (10, 61)],
        XmlFault::BadReference(61),
    ),
    (
        "<artwork type=\"abnf\">a = b<![CDATA[ c</artwork>",
        "a = b\n",
        &[(4, 25), (5, 26)],
        XmlFault::SectionWithoutEnd(26),
    ),
    (
        "<artwork type=\"abnf\">a = b</artwork><artwork type=\"abnf\">c = d",
        "a = b\n",
        &[(5, 26)],
        XmlFault::BlockWithoutEnd(36),
    ),
    (
        "<artwork type=\"abnf\">a = b</artwork><!-- <artwork type=\"abnf\">c = d</artwork>",
        "a = b\n",
        &[(5, 26)],
        XmlFault::CommentWithoutEnd(36),
    ),
    ("a <b", "", &[], XmlFault::TagWithoutEnd(2)),
];

/// Whether a draft has this grammar, whose characters begin in the draft at these places, and none behind the last.
fn has_grammar(
    alloc: Global,
    draft: &str,
    grammar: &str,
    places: &[(usize, usize)],
) -> Result<bool, XmlFault> {
    Ok(is_gathered(&gather_xml(alloc, draft)?, grammar, places))
}

#[test]
fn finds_blocks(rt: HostRuntime) -> Result<(), XmlFault> {
    let rows = BLOCKS;
    assert!(rt; rows.len() >= 6);
    for (draft, grammar, places) in rows {
        assert!(rt; has_grammar(rt.alloc(), draft, grammar, places)?, "{draft}");
    }
    Ok(())
}

#[test]
fn reads_pieces(rt: HostRuntime) -> Result<(), XmlFault> {
    let rows = PIECES;
    assert!(rt; rows.len() >= 5);
    for (draft, grammar, places) in rows {
        assert!(rt; has_grammar(rt.alloc(), draft, grammar, places)?, "{draft}");
    }
    Ok(())
}

#[test]
fn finds_what_stands_in_front_of_faults(rt: HostRuntime) -> Result<(), XmlFault> {
    let rows = FRONTS;
    assert!(rt; rows.len() >= 5);
    for (draft, grammar, places, fault) in rows {
        let front = gather_front(rt.alloc(), draft)?;
        assert!(rt; is_gathered(&front.grammar, grammar, places), "{draft}");
        assert!(rt; front.fault == Some(*fault), "{draft}");
    }
    for (draft, grammar, places) in BLOCKS {
        let front = gather_front(rt.alloc(), draft)?;
        assert!(rt; is_gathered(&front.grammar, grammar, places), "{draft}");
        assert!(rt; front.fault == None, "{draft}");
    }
    Ok(())
}
