//! Drafts with blocks that nothing marks, written out by hand: whether something is said of them their texts decide.

use crate::drafts::asides::{Row, is_said_of_markdown, is_said_of_xml};
use ls_text::TextFault;
use origins::Lack;
use xml_blocks::XmlFault;

/// Fences without an info string in drafts in Markdown.
const BARE: &[Row] = &[
    ("```\na = b\n```\n", &[(0, Lack::BareFence, "a = b\n\n")]),
    // behind its margin, and left aligned
    (
        "text\n\n  ~~~~  \n    a = b\n      / c\n  ~~~~\n",
        &[(8, Lack::BareFence, "a = b\n  / c\n\n")],
    ),
    (
        "> ~~~\n> a = b\n> ~~~\n",
        &[(2, Lack::BareFence, "a = b\n\n")],
    ),
    // whatever stands in it, and if nothing does
    (
        "~~~\nsome words\n~~~\n",
        &[(0, Lack::BareFence, "some words\n\n")],
    ),
    ("```\n```\n```text\n```\n", &[(0, Lack::BareFence, "\n")]),
    // it isn't closed
    ("```\na = b", &[(0, Lack::BareFence, "a = b\n")]),
    // characters count, and line ends stay
    (
        "\u{E9}\u{1F600}\n```\n\u{20AC}\n```\n",
        &[(3, Lack::BareFence, "\u{20AC}\n\n")],
    ),
    (
        "~~~\r\na = b\r\n~~~\r\n",
        &[(0, Lack::BareFence, "a = b\r\n\n")],
    ),
    // attribute lists that aren't beside it
    (
        "{: .a}\n\n```\na\n```\n\n{: .b}\n",
        &[(8, Lack::BareFence, "a\n\n")],
    ),
    // in the order of the draft
    (
        "```\na\n```\n```abnf\n```\n~~~\nb\n~~~\n",
        &[
            (0, Lack::BareFence, "a\n\n"),
            (18, Lack::Empty, ""),
            (22, Lack::BareFence, "b\n\n"),
        ],
    ),
];

/// Elements without a type in drafts in RFCXML.
const UNTYPED: &[Row] = &[
    (
        "<sourcecode>a = b</sourcecode>",
        &[(0, Lack::Untyped, "a = b\n")],
    ),
    // left aligned, with references, comments, sections and tags as in a grammar
    (
        "x<artwork name=\"a\">\n  a = &lt;b&gt;\n   / c\n</artwork>",
        &[(1, Lack::Untyped, "\na = <b>\n / c\n\n")],
    ),
    (
        "<artwork><!-- a -->a<b/> = <![CDATA[<c>]]></artwork>",
        &[(0, Lack::Untyped, "a = <c>\n")],
    ),
    // whatever stands in it, and if nothing does
    (
        "<artwork>+--+ words</artwork>",
        &[(0, Lack::Untyped, "+--+ words\n")],
    ),
    ("<artwork></artwork>", &[(0, Lack::Untyped, "\n")]),
    // characters count
    (
        "\u{E9}\u{1F600}<artwork>a</artwork>",
        &[(2, Lack::Untyped, "a\n")],
    ),
    // what stands in quotes is no attribute
    (
        "<artwork name=\" type='abnf' src='a'\">a = b</artwork>",
        &[(0, Lack::Untyped, "a = b\n")],
    ),
    // the end tag of another element ends none
    (
        "<artwork>a</sourcecode> b</artwork >",
        &[(0, Lack::Untyped, "a b\n")],
    ),
    // another such element begins in it, so that it is none
    (
        "<artwork><sourcecode>a</sourcecode></artwork>",
        &[(9, Lack::Untyped, "a\n")],
    ),
    (
        "<artwork><artwork type=\"abnf\"/></artwork>",
        &[(9, Lack::Empty, "")],
    ),
    // a reference in it can't be read
    (
        "<artwork>a &b c</artwork><artwork>d</artwork>",
        &[(25, Lack::Untyped, "d\n")],
    ),
    // in the order of the draft
    (
        "<artwork type=\"abnf\"/><artwork>a</artwork><artwork type=\"abnf\" src=\"b\"/>",
        &[
            (0, Lack::Empty, ""),
            (22, Lack::Untyped, "a\n"),
            (42, Lack::Elsewhere, ""),
        ],
    ),
    // up to a fault
    (
        "<artwork>a</artwork><artwork>b<!-- </artwork>",
        &[(0, Lack::Untyped, "a\n")],
    ),
    ("<artwork>a = b<!-- </artwork>", &[]),
    (
        "<artwork type=\"abnf\"/><!-- <artwork type=\"abnf\"/>",
        &[(0, Lack::Empty, "")],
    ),
];

#[test]
fn finds_bare_fences(rt: HostRuntime) -> Result<(), TextFault> {
    let rows = BARE;
    assert!(rt; rows.len() >= 10);
    for (draft, wanted) in rows {
        assert!(rt; is_said_of_markdown(rt.alloc(), draft, wanted)?, "{draft}");
    }
    Ok(())
}

#[test]
fn finds_elements_without_a_type(rt: HostRuntime) -> Result<(), XmlFault> {
    let rows = UNTYPED;
    assert!(rt; rows.len() >= 15);
    for (draft, wanted) in rows {
        assert!(rt; is_said_of_xml(rt.alloc(), draft, wanted)?, "{draft}");
    }
    Ok(())
}
