//! `abnf_names`: rules, nodes and places of names.
ghost use Rattle.std.specs.Prelude.{◌<◌, length};

use abnf_names::{Grammar, NamePlace, Node, NodeNo, PlacesOfName, RuleNo};
use abnf_syntax::SyntaxFault;
use abnf_token::Folded;
use ls_lists::List;
use ls_text::{Place, Snapshot};
use std::alloc::{AllocError as Memory, Global};

pub fn grammar_of<'t>(alloc: Global, snapshot: &'t Snapshot) -> Result<Grammar<'t>, Memory> {
    Grammar::of(alloc, snapshot)
}

pub fn rule_of<'t>(grammar: &Grammar<'t>, name: Folded<'t>) -> Option<RuleNo> {
    grammar.rule_of(name)
}

pub fn root_of(grammar: &Grammar<'_>, rule: RuleNo) -> NodeNo
    requires { rule < length grammar.now.rules }
{
    grammar.root_of(rule)
}

pub fn name_at<'t>(grammar: &Grammar<'t>, offset: usize) -> Option<(Place, Folded<'t>)> {
    grammar.name_at(offset)
}

pub fn places<'s, 't>(grammar: &'s Grammar<'t>, name: Folded<'s>) -> PlacesOfName<'s, 't> {
    grammar.places(name)
}

pub fn next_place(places: &mut PlacesOfName<'_, '_>) -> Option<NamePlace> {
    places.next()
}

pub fn nodes<'s, 't>(grammar: &'s Grammar<'t>) -> &'s [Node<'t>] {
    grammar.nodes()
}

pub fn faults<'s>(grammar: &'s Grammar<'_>) -> &'s [(Place, SyntaxFault)] {
    grammar.faults()
}

pub fn reaches_opaque(grammar: &Grammar<'_>, rule: RuleNo) -> bool
    requires { rule < length grammar.now.rules }
{
    grammar.reaches_opaque(rule)
}

pub fn source<'t>(grammar: &Grammar<'t>) -> &'t Snapshot {
    grammar.source()
}

pub fn name_place(place: Place, defines: bool) -> NamePlace {
    NamePlace { place, defines }
}

pub fn node_quoted<'t>(text: &'t str, exact: bool) -> Node<'t> {
    Node::Quoted { text, exact }
}

pub fn node_series<'t>(characters: List<u32>) -> Node<'t> {
    Node::Series(characters)
}

pub fn node_span<'t>(low: u32, high: u32) -> Node<'t> {
    Node::Span { low, high }
}

pub fn node_seq<'t>(parts: List<NodeNo>) -> Node<'t> {
    Node::Seq(parts)
}

pub fn node_alt<'t>(parts: List<NodeNo>) -> Node<'t> {
    Node::Alt(parts)
}

pub fn node_rep<'t>(least: u32, most: Option<u32>, body: NodeNo) -> Node<'t> {
    Node::Rep { least, most, body }
}

pub fn node_ref<'t>(name: Folded<'t>, rule: Option<RuleNo>) -> Node<'t> {
    Node::Ref { name, rule }
}

pub fn node_opaque<'t>() -> Node<'t> {
    Node::Opaque
}

pub fn node_kind(node: &Node<'_>) -> u8 {
    match node {
        Node::Quoted { text: _, exact: _ } => 0,
        Node::Series(_) => 1,
        Node::Span { low: _, high: _ } => 2,
        Node::Seq(_) => 3,
        Node::Alt(_) => 4,
        Node::Rep {
            least: _,
            most: _,
            body: _,
        } => 5,
        Node::Ref { name: _, rule: _ } => 6,
        Node::Opaque => 7,
    }
}

pub fn rule_no(number: usize) -> RuleNo {
    RuleNo::new(number)
}

pub fn rule_number(rule: RuleNo) -> usize {
    rule.get()
}

pub fn node_no(number: usize) -> NodeNo {
    NodeNo::new(number)
}

pub fn node_number(node: NodeNo) -> usize {
    node.get()
}
