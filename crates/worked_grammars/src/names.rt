//! Texts with the numbers of their rules, their nodes, and names at offsets that no position has, written out by hand.

use super::check::{At, Check, Want, holds};
use abnf_names::{Grammar, Node, NodeNo, RuleNo};
use abnf_token::Folded;
use ls_text::TextFault;

/// Whether these are the numbers of nodes.
fn are_numbers(nodes: &[NodeNo], want: &[usize]) -> bool {
    for (node, number) in nodes.iter().zip(want) {
        if node.get() != *number {
            return false;
        }
    }
    nodes.len() == want.len()
}

/// The number of a rule.
fn number_of(rule: Option<RuleNo>) -> Option<usize> {
    match rule {
        Some(rule) => Some(rule.get()),
        None => None,
    }
}

fn is_node(node: &Node<'_>, want: Want) -> bool {
    match (node, want) {
        (Node::Ref { name, rule }, Want::Ref(other, number)) => {
            name.0 == other && number_of(*rule) == number
        }
        (Node::Quoted { text, exact }, Want::Quoted(other, is_exact)) => {
            *text == other && *exact == is_exact
        }
        (Node::Series(characters), Want::Series(others)) => characters.as_slice() == others,
        (Node::Span { low, high }, Want::Span(first, last)) => *low == first && *high == last,
        (Node::Alt(parts), Want::Alt(numbers)) => are_numbers(parts.as_slice(), numbers),
        (Node::Rep { least, most, body }, Want::Rep(from, to, number)) => {
            *least == from && *most == to && body.get() == number
        }
        (Node::Opaque, Want::Opaque) => true,
        _ => false,
    }
}

pub(crate) fn has_nodes(nodes: &[Node<'_>], rows: &[(usize, Want)]) -> bool {
    for (number, want) in rows {
        match nodes.get(*number) {
            Some(node) if is_node(node, *want) => {}
            _ => return false,
        }
    }
    true
}

/// Whether the names stand for the rules 0, 1 and so on.
pub(crate) fn are_numbered(grammar: &Grammar<'_>, names: &[&'static str]) -> bool {
    for (number, name) in names.iter().enumerate() {
        if number_of(grammar.rule_of(Folded(name))) != Some(number) {
            return false;
        }
    }
    true
}

/// Whether the root of a name's rule is the node with this number.
pub(crate) fn is_root(grammar: &Grammar<'_>, name: &'static str, number: usize) -> bool {
    match grammar.rule_of(Folded(name)) {
        Some(rule) => grammar.root_of(rule).get() == number,
        None => false,
    }
}

/// Whether this name stands at an offset.
fn is_at(grammar: &Grammar<'_>, offset: usize, want: At) -> bool {
    match grammar.name_at(offset) {
        Some((place, name)) => (place.line, place.start, place.end, name.0) == want,
        None => want.3.is_empty(),
    }
}

pub(crate) fn are_at(grammar: &Grammar<'_>, rows: &[(usize, At)]) -> bool {
    for (offset, want) in rows {
        if !is_at(grammar, *offset, *want) {
            return false;
        }
    }
    true
}

const CORE: &str = "LF = \"n\"\na = CRLF HEXDIG";

const NONE: At = (0, 0, 0, "");

/// Texts, and what holds of the grammar of each.
const ROWS: &[(&str, &[Check])] = &[
    // core rules have their numbers behind the rules of the text, and their nodes behind those
    (
        CORE,
        &[
            Check::Names(&["lf", "A", "cr", "crlf", "Digit", "HEXDIG"]),
            Check::Nodes(
                24,
                &[
                    (4, Want::Ref("CRLF", Some(3))),
                    (11, Want::Ref("LF", Some(6))),
                    (14, Want::Alt(&[15, 16, 17, 18, 19, 20, 21])),
                    (15, Want::Ref("DIGIT", Some(4))),
                    (21, Want::Quoted("F", false)),
                ],
            ),
            Check::Root("HEXDIG", 14),
        ],
    ),
    (
        "a = b / \"x\"\nb = a",
        &[Check::Nodes(
            5,
            &[
                (0, Want::Alt(&[1, 2])),
                (1, Want::Ref("b", Some(1))),
                (2, Want::Quoted("x", false)),
                (3, Want::Alt(&[4])),
                (4, Want::Ref("a", Some(0))),
            ],
        )],
    ),
    // blocks of one name are joined, a second `=` doesn't count, and a faulty one is opaque
    (
        "A = \"yy\"\na = \"z\"\na =/ %s\"x\"\nb = ?",
        &[Check::Nodes(
            5,
            &[
                (0, Want::Alt(&[1, 2])),
                (1, Want::Quoted("yy", false)),
                (2, Want::Quoted("x", true)),
                (3, Want::Alt(&[4])),
                (4, Want::Opaque),
            ],
        )],
    ),
    (
        "a = 2*3%x41-5a [%d13.10] *<p> 4((\"q\")) %b1",
        &[Check::Nodes(
            11,
            &[
                (2, Want::Rep(2, Some(3), 3)),
                (3, Want::Span(0x41, 0x5A)),
                (4, Want::Rep(0, Some(1), 5)),
                (5, Want::Series(&[13, 10])),
                (6, Want::Rep(0, None, 7)),
                (8, Want::Rep(4, Some(4), 9)),
                (9, Want::Quoted("q", false)),
                (10, Want::Series(&[1])),
            ],
        )],
    ),
    // past the text's end is its end
    (
        "a = b c",
        &[Check::Offsets(&[
            (7, (0, 6, 7, "c")),
            (8, (0, 6, 7, "c")),
            (1000, (0, 6, 7, "c")),
        ])],
    ),
    (
        "a = %item\nitem = \"i\"",
        &[Check::Offsets(&[(20, NONE), (100, NONE)])],
    ),
    // between CR and LF
    (
        "x = y ; \u{20AC}\u{1F600} z\r\na = \"\u{E9}\" b\r\n",
        &[Check::Offsets(&[(13, NONE), (24, (1, 9, 10, "b"))])],
    ),
];

#[test]
fn grammars_of_texts(rt: HostRuntime) -> Result<(), TextFault> {
    let rows = ROWS;
    assert!(rt; rows.len() >= 7);
    for (text, checks) in rows {
        assert!(rt; holds(rt.alloc(), text, checks)?, "{text}");
    }
    Ok(())
}
