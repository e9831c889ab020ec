//! The nodes of a rule, pushed in the order of their numbers: each before its parts, parts from left to right.
ghost use Rattle.std.specs.Prelude.{◌≡◌, ◌<◌, ℕ, suc, map, length, List, ◌∷◌, ◌++◌, [], IfOk, OnOk, slice_set};
ghost use Rattle.abnf_parts.specs.declared.node.Node.TheVariants.{Rep, Opaque};
ghost use Rattle.abnf_syntax.specs.declared.tree.Element.{out-Element};
ghost use Rattle.abnf_parts.specs.Names.{all_names, rule_number};
ghost use Rattle.abnf_parts.specs.Part.{subparts};
ghost use Rattle.abnf_parts.specs.Tree.{element_part, repetition_part, concatenation_part, tree_inside};
ghost use Rattle.abnf_parts.specs.Pushed.{AddsNodes, AddsTrees};
ghost use Rattle.abnf_parts.specs.own.Begun.{Begins};

use crate::leaf::{number_node, quoted_node, repeat_bounds};
use crate::names::RuleNames;
use crate::node::{Node, NodeNo};
use abnf_syntax::{Element, Repetition};
use abnf_token::Folded;
use ls_lists::List;
use std::alloc::{AllocError, Global};

/// Pushes a node.
pub(crate) fn push_node<'t>(nodes: &mut Vec<Node<'t>>, node: Node<'t>) -> Result<(), AllocError>
    ensures { OnOk result (nodes.new.items ≡ nodes.old.items ++ node.entry ∷ []) }
{
    nodes.push(node)?;
    Ok(())
}

/// Pushes a repetition of the part whose nodes come next.
pub(crate) fn push_rep<'t>(
    nodes: &mut Vec<Node<'t>>,
    least: u32,
    most: Option<u32>,
) -> Result<(), AllocError>
    ensures { OnOk result (nodes.new.items ≡ nodes.old.items ++ Rep least most (suc (length nodes.old.items)) ∷ []) }
{
    let body = NodeNo::new(nodes.len() + 1);
    push_node(nodes, Node::Rep { least, most, body })
}

/// Adds the number of the node that is pushed next.
pub(crate) fn add_next<'t>(
    nodes: &Vec<Node<'t>>,
    numbers: &mut List<NodeNo>,
) -> Result<(), AllocError>
    ensures { OnOk result (numbers.new ≡ numbers.old ++ length nodes.now.items ∷ []) }
{
    numbers.push(NodeNo::new(nodes.len()))
}

/// Pushes a node in place of the one that [`fill`] is to write, and gives its number.
pub(crate) fn hold_place<'t>(nodes: &mut Vec<Node<'t>>) -> Result<usize, AllocError>
    ensures number { IfOk result (λ at. at ≡ length nodes.old.items) }
    ensures pushed { OnOk result (nodes.new.items ≡ nodes.old.items ++ Opaque ∷ []) }
{
    let at = nodes.len();
    push_node(nodes, Node::Opaque)?;
    Ok(at)
}

/// Writes the node with number `at`, for which one was pushed before those of its parts. Nothing else changes.
pub fn fill<'t>(nodes: &mut Vec<Node<'t>>, at: usize, node: Node<'t>)
    requires { at < length nodes.old.items }
    ensures { nodes.new.items ≡ slice_set nodes.old.items at node.entry }
{
    nodes[at] = node;
}

/// Pushes the nodes of an element that come before those of what stands in its brackets, and gives what stands there; all its
/// nodes where it has no brackets.
fn begin_element<'e, 't>(
    alloc: Global,
    names: &RuleNames<'t>,
    element: &'e Element<'t>,
    nodes: &mut Vec<Node<'t>>,
) -> Result<Option<&'e [List<Repetition<'t>>]>, AllocError>
    ensures { IfOk result (λ inside. Begins (λ tree. element_part (rule_number (all_names names.now)) tree (out-Element element.now)) inside nodes.old.items nodes.new.items) }
{
    match element {
        Element::Name(token) => {
            let name = Folded(token.text);
            let rule = names.rule_of(name);
            push_node(nodes, Node::Ref { name, rule })?;
            Ok(None)
        }
        Element::Quoted(token) => {
            push_node(nodes, quoted_node(*token))?;
            Ok(None)
        }
        Element::Number(token) => {
            let node = number_node(alloc, *token)?;
            push_node(nodes, node)?;
            Ok(None)
        }
        Element::Prose(_) => {
            push_node(nodes, Node::Opaque)?;
            Ok(None)
        }
        Element::Group(inside) => Ok(Some(inside.as_slice())),
        Element::Choice(inside) => {
            push_rep(nodes, 0, Some(1))?;
            Ok(Some(inside.as_slice()))
        }
    }
}

/// The same of an element with a repeat before it or none.
fn begin_repetition<'r, 't>(
    alloc: Global,
    names: &RuleNames<'t>,
    repetition: &'r Repetition<'t>,
    nodes: &mut Vec<Node<'t>>,
) -> Result<Option<&'r [List<Repetition<'t>>]>, AllocError>
    ensures { IfOk result (λ inside. Begins (λ tree. repetition_part (rule_number (all_names names.now)) tree repetition.now) inside nodes.old.items nodes.new.items) }
{
    let Some(token) = repetition.repeat else {
        return begin_element(alloc, names, &repetition.element, nodes);
    };
    let (least, most) = repeat_bounds(token);
    push_rep(nodes, least, most)?;
    begin_element(alloc, names, &repetition.element, nodes)
}

/// An alternation in brackets, which may hold brackets `room` - 1 deep.
#[cycle(tree)]
fn push_inside<'t>(
    alloc: Global,
    names: &RuleNames<'t>,
    room: usize,
    alternation: &[List<Repetition<'t>>],
    nodes: &mut Vec<Node<'t>>,
) -> Result<(), AllocError>
    ensures { OnOk result (AddsNodes (subparts (tree_inside (rule_number (all_names names.now)) room alternation.now)) nodes.old.items nodes.new.items) }
{
    if room == 0 {
        return push_node(nodes, Node::Opaque);
    }
    if alternation.len() == 1 {
        return push_concatenation(alloc, names, room - 1, alternation[0].as_slice(), nodes);
    }
    let at = hold_place(nodes)?;
    let mut numbers = List::new(alloc);
    push_concatenations(alloc, names, room - 1, alternation, nodes, &mut numbers)?;
    fill(nodes, at, Node::Alt(numbers));
    Ok(())
}

/// Pushes the nodes of concatenations that stand side by side, each before those of its parts, and adds their own numbers
/// to `numbers`. Brackets nest at most `room` deep; what lies deeper is `Opaque`. Time goes by the bytes of the tokens.
///
/// # Errors
///
/// Where an allocation is refused. What was pushed before stays.
#[cycle(tree)]
pub fn push_concatenations<'t>(
    alloc: Global,
    names: &RuleNames<'t>,
    room: usize,
    alternation: &[List<Repetition<'t>>],
    nodes: &mut Vec<Node<'t>>,
    numbers: &mut List<NodeNo>,
) -> Result<(), AllocError>
    ensures { OnOk result (AddsTrees (map (concatenation_part (rule_number (all_names names.now)) (tree_inside (rule_number (all_names names.now)) room)) alternation.now) nodes.old.items nodes.new.items numbers.old numbers.new) }
{
    numbers.reserve(alternation.len())?;
    for concatenation in alternation {
        add_next(nodes, numbers)?;
        push_concatenation(alloc, names, room, concatenation.as_slice(), nodes)?;
    }
    Ok(())
}

/// A concatenation: its one part, or all of them in order.
#[cycle(tree)]
fn push_concatenation<'t>(
    alloc: Global,
    names: &RuleNames<'t>,
    room: usize,
    concatenation: &[Repetition<'t>],
    nodes: &mut Vec<Node<'t>>,
) -> Result<(), AllocError>
    ensures { OnOk result (AddsNodes (subparts (concatenation_part (rule_number (all_names names.now)) (tree_inside (rule_number (all_names names.now)) room) concatenation.now)) nodes.old.items nodes.new.items) }
{
    if concatenation.len() == 1 {
        return push_repetition(alloc, names, room, &concatenation[0], nodes);
    }
    let at = hold_place(nodes)?;
    let mut numbers = List::new(alloc);
    push_repetitions(alloc, names, room, concatenation, nodes, &mut numbers)?;
    fill(nodes, at, Node::Seq(numbers));
    Ok(())
}

/// Repetitions side by side, whose numbers are added to `numbers`.
#[cycle(tree)]
fn push_repetitions<'t>(
    alloc: Global,
    names: &RuleNames<'t>,
    room: usize,
    concatenation: &[Repetition<'t>],
    nodes: &mut Vec<Node<'t>>,
    numbers: &mut List<NodeNo>,
) -> Result<(), AllocError>
    ensures { OnOk result (AddsTrees (map (repetition_part (rule_number (all_names names.now)) (tree_inside (rule_number (all_names names.now)) room)) concatenation.now) nodes.old.items nodes.new.items numbers.old numbers.new) }
{
    numbers.reserve(concatenation.len())?;
    for repetition in concatenation {
        add_next(nodes, numbers)?;
        push_repetition(alloc, names, room, repetition, nodes)?;
    }
    Ok(())
}

/// An element, and before it its repetition where a repeat stands there.
#[cycle(tree)]
fn push_repetition<'t>(
    alloc: Global,
    names: &RuleNames<'t>,
    room: usize,
    repetition: &Repetition<'t>,
    nodes: &mut Vec<Node<'t>>,
) -> Result<(), AllocError>
    ensures { OnOk result (AddsNodes (subparts (repetition_part (rule_number (all_names names.now)) (tree_inside (rule_number (all_names names.now)) room) repetition.now)) nodes.old.items nodes.new.items) }
{
    match begin_repetition(alloc, names, repetition, nodes)? {
        Some(inside) => push_inside(alloc, names, room, inside, nodes),
        None => Ok(()),
    }
}
