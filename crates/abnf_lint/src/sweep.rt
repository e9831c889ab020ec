//! Marks of the parts that yield something, by sweeps over all of them.
//!
//! A sweep marks each part that yields something as the others are marked. Where it marks none, all that yield anything are marked. It
//! comes to a part's own parts before the part, so one is enough but for references: those lead mostly to rules that are defined
//! further down, and where each leads to one further up, a sweep that takes the rules in their order is enough.
//!
//! The grammars of standards in `examples/` and `bench/` take three to seven sweeps. References may lead to and fro so that each sweep
//! finds one rule more, so after 8 rounds of two sweeps that is given up, and the search for least lengths answers.

ghost use Rattle.std.specs.Prelude.{◌≡◌, ◌<◌, false, length, IsTrue, slice_index_or};
ghost use Rattle.std.specs.List.{list_all, list_any};
ghost use Rattle.abnf_parts.specs.Part.{parts_of, root_number};
ghost use Rattle.abnf_cert.specs.FitsNode.{NodeRefersWithin};
ghost use Rattle.abnf_lint.specs.Marks as spec;

use crate::empty::is_above;
use abnf_names::Grammar;
use abnf_parts::{Node, NodeNo, RuleNo};

/// How often all parts are swept in either order before they are given up.
const ROUNDS: usize = 8;

/// Whether the part or the rule with this number is marked.
pub(crate) fn is_marked(marks: &[bool], number: usize) -> bool
    ensures { result ≡ spec.mark_at marks.now number }
{
    match marks.get(number) {
        Some(mark) => *mark,
        None => false,
    }
}

/// Whether each of these parts is marked.
fn all_are_marked(marks: &[bool], parts: &[NodeNo]) -> bool
    ensures { result ≡ list_all (spec.mark_at marks.now) parts.now }
{
    parts.iter().all(|part| is_marked(marks, part.get()))
}

/// Whether one of these parts is marked.
fn one_is_marked(marks: &[bool], parts: &[NodeNo]) -> bool
    ensures { result ≡ list_any (spec.mark_at marks.now) parts.now }
{
    parts.iter().any(|part| is_marked(marks, part.get()))
}

/// Whether a repetition yields something, by whether its body does.
fn repetition_yields(least: u32, most: Option<u32>, body: bool) -> bool
    ensures { result ≡ spec.repetition_yields least most body }
{
    !is_above(least, most) && (least == 0 || body)
}

/// Whether a node yields something, as others are marked.
fn yields(grammar: &Grammar, marks: &[bool], node: &Node) -> bool
    requires { NodeRefersWithin (length grammar.now.rules) node.now }
    ensures { result ≡ spec.node_yields (spec.mark_at marks.now) (root_number grammar.now.rules) node.now }
{
    match node {
        Node::Quoted { .. } => true,
        Node::Series(_) => true,
        Node::Span { low, high } => !(*high < *low),
        Node::Seq(parts) => all_are_marked(marks, parts.as_slice()),
        Node::Alt(parts) => one_is_marked(marks, parts.as_slice()),
        Node::Rep { least, most, body } => repetition_yields(
            *least,
            *most,
            is_marked(marks, body.get()),
        ),
        Node::Ref { rule, .. } => match rule {
            Some(rule) => is_marked(marks, grammar.root_of(*rule).get()),
            None => false,
        },
        Node::Opaque => false,
    }
}

/// Marks the parts with these numbers that yield something as others are marked, the last one first. Says whether there were any.
fn sweep(grammar: &Grammar, marks: &mut [bool], start: usize, end: usize) -> bool
    requires { spec.AreSound grammar.now.rules marks.old }
    ensures sound { spec.AreSound grammar.now.rules marks.new }
    ensures closed { result ≡ false → spec.AreClosed grammar.now.rules marks.new start end }
{
    let nodes = grammar.nodes();
    let mut any = false;
    let mut number = end.min(nodes.len());
    while number > start {
        number -= 1;
        if !marks[number] && yields(grammar, marks, &nodes[number]) {
            marks[number] = true;
            any = true;
        }
    }
    any
}

/// Sweeps the rules one by one, the first rule first.
fn sweep_rules(grammar: &Grammar, marks: &mut [bool])
    requires { spec.AreSound grammar.now.rules marks.old }
    ensures { spec.AreSound grammar.now.rules marks.new }
{
    for rule in 0..grammar.rule_count() {
        let (start, end) = grammar.range_of(RuleNo::new(rule));
        sweep(grammar, marks, start, end);
    }
}

/// Sweeps all parts until nothing more is marked, which it says, or until some rounds are over.
pub(crate) fn settle(grammar: &Grammar, marks: &mut [bool]) -> bool
    requires { spec.AreSound grammar.now.rules marks.old }
    ensures sound { spec.AreSound grammar.now.rules marks.new }
    ensures closed { IsTrue result → spec.AreClosed grammar.now.rules marks.new 0 (length (parts_of grammar.now.rules)) }
{
    let count = grammar.nodes().len();
    for _round in 0..ROUNDS {
        if !sweep(grammar, marks, 0, count) {
            return true;
        }
        sweep_rules(grammar, marks);
    }
    false
}
