//! The nodes of the core rules.

ghost use Rattle.std.specs.Prelude.{◌≡◌, ◌<◌, ◌^◌, ℕ, map, IfOk, OnOk};
ghost use Rattle.abnf_parts.specs.Names.{folded_text};
ghost use Rattle.abnf_parts.specs.Part.{subparts};
ghost use Rattle.abnf_parts.specs.Nodes.{IsNode};
ghost use Rattle.abnf_parts.specs.Pushed.{AddsNodes, AddsTrees};
ghost use Rattle.abnf_parts.specs.CoreTable as table;

use crate::core_rule::{Core, Leaf};
use crate::names::Names;
use crate::node::{Node, NodeNo, RuleNo};
use crate::tree::{add_next, fill, hold_place, push_node, push_rep};
use abnf_token::Folded;
use ls_lists::List;
use std::alloc::{AllocError, Global};

/// What the nodes of core rules are made with: memory, and the names of these rules, which are numbered from `first` on.
#[derive(Clone, Copy)]
struct Numbering<'n, 't> {
    alloc: Global,
    first: usize,
    names: &'n Names<'t>,
}

/// The rule that a name stands for inside the core rules.
fn core_number<'t>(numbering: &Numbering<'_, 't>, name: Folded<'t>) -> Option<RuleNo>
    requires { numbering.now.first < 2 ^ 63 }
    ensures { result ≡ table.number_in numbering.now.first numbering.now.names.now (folded_text name.entry) }
{
    match numbering.names.index_of(name) {
        Some(rule) => Some(RuleNo::new(numbering.first + rule)),
        None => None,
    }
}

/// The node of a leaf.
fn leaf_node<'t>(numbering: &Numbering<'_, 't>, leaf: Leaf) -> Result<Node<'t>, AllocError>
    requires { numbering.now.first < 2 ^ 63 }
    ensures { IfOk result (λ node. (n : ℕ) → IsNode n (table.leaf_part (table.number_in numbering.now.first numbering.now.names.now) leaf) node) }
{
    match leaf {
        Leaf::Range(low, high) => Ok(Node::Span { low, high }),
        Leaf::One(character) => {
            let mut characters = List::new(numbering.alloc);
            characters.push(character)?;
            Ok(Node::Series(characters))
        }
        Leaf::Text(text) => Ok(Node::Quoted { text, exact: false }),
        Leaf::Rule(name) => {
            let name = Folded(name);
            let rule = core_number(numbering, name);
            Ok(Node::Ref { name, rule })
        }
    }
}

/// A leaf.
fn push_leaf<'t>(
    numbering: &Numbering<'_, 't>,
    leaf: &Leaf,
    nodes: &mut Vec<Node<'t>>,
) -> Result<(), AllocError>
    requires { numbering.now.first < 2 ^ 63 }
    ensures { OnOk result (AddsNodes (subparts (table.leaf_part (table.number_in numbering.now.first numbering.now.names.now) leaf.now)) nodes.old.items nodes.new.items) }
{
    let node = leaf_node(numbering, *leaf)?;
    push_node(nodes, node)
}

/// Leaves side by side, whose numbers are added to `numbers`.
fn push_leaves<'t>(
    numbering: &Numbering<'_, 't>,
    leaves: &[Leaf],
    nodes: &mut Vec<Node<'t>>,
    numbers: &mut List<NodeNo>,
) -> Result<(), AllocError>
    requires { numbering.now.first < 2 ^ 63 }
    ensures { OnOk result (AddsTrees (map (table.leaf_part (table.number_in numbering.now.first numbering.now.names.now)) leaves.now) nodes.old.items nodes.new.items numbers.old numbers.new) }
{
    for leaf in leaves {
        add_next(nodes, numbers)?;
        push_leaf(numbering, leaf, nodes)?;
    }
    Ok(())
}

/// A row of leaves: its one leaf, or all of them in order.
fn push_row<'t>(
    numbering: &Numbering<'_, 't>,
    row: &[Leaf],
    nodes: &mut Vec<Node<'t>>,
) -> Result<(), AllocError>
    requires { numbering.now.first < 2 ^ 63 }
    ensures { OnOk result (AddsNodes (subparts (table.row_part (table.number_in numbering.now.first numbering.now.names.now) row.entry)) nodes.old.items nodes.new.items) }
{
    if row.len() == 1 {
        return push_leaf(numbering, &row[0], nodes);
    }
    let at = hold_place(nodes)?;
    let mut numbers = List::new(numbering.alloc);
    push_leaves(numbering, row, nodes, &mut numbers)?;
    fill(nodes, at, Node::Seq(numbers));
    Ok(())
}

/// Rows side by side, whose numbers are added to `numbers`.
fn push_rows<'t>(
    numbering: &Numbering<'_, 't>,
    rows: &[&[Leaf]],
    nodes: &mut Vec<Node<'t>>,
    numbers: &mut List<NodeNo>,
) -> Result<(), AllocError>
    requires { numbering.now.first < 2 ^ 63 }
    ensures { OnOk result (AddsTrees (map (table.row_part (table.number_in numbering.now.first numbering.now.names.now)) rows.now) nodes.old.items nodes.new.items numbers.old numbers.new) }
{
    for row in rows {
        add_next(nodes, numbers)?;
        push_row(numbering, *row, nodes)?;
    }
    Ok(())
}

/// A choice among rows.
fn push_choice<'t>(
    numbering: &Numbering<'_, 't>,
    rows: &[&[Leaf]],
    nodes: &mut Vec<Node<'t>>,
) -> Result<(), AllocError>
    requires { numbering.now.first < 2 ^ 63 }
    ensures { OnOk result (AddsNodes (subparts (table.choice (table.number_in numbering.now.first numbering.now.names.now) rows.now)) nodes.old.items nodes.new.items) }
{
    let at = hold_place(nodes)?;
    let mut numbers = List::new(numbering.alloc);
    push_rows(numbering, rows, nodes, &mut numbers)?;
    fill(nodes, at, Node::Alt(numbers));
    Ok(())
}

/// A choice of one, which repeats what follows as often as one likes.
fn push_repeated<'t>(alloc: Global, nodes: &mut Vec<Node<'t>>) -> Result<(), AllocError>
    ensures { OnOk result (table.AddsRepeated nodes.old.items nodes.new.items) }
{
    let mut numbers = List::new(alloc);
    numbers.push(NodeNo::new(nodes.len() + 1))?;
    push_node(nodes, Node::Alt(numbers))?;
    push_rep(nodes, 0, None)
}

/// A core rule.
fn push_core<'t>(
    numbering: &Numbering<'_, 't>,
    core: Core,
    nodes: &mut Vec<Node<'t>>,
) -> Result<(), AllocError>
    requires { numbering.now.first < 2 ^ 63 }
    ensures { OnOk result (AddsNodes (subparts ((table.core_of core).tree (table.number_in numbering.now.first numbering.now.names.now))) nodes.old.items nodes.new.items) }
{
    match core {
        Core::Lwsp => {
            push_repeated(numbering.alloc, nodes)?;
            push_choice(numbering, core.rows(), nodes)
        }
        _ => push_choice(numbering, core.rows(), nodes),
    }
}

/// Pushes the nodes of core rules, each before those of its parts, and adds the numbers of the roots to `roots`. A name inside
/// them stands for the core rule of that name; the core rules have the names `names` and are numbered from `first` on.
///
/// # Errors
///
/// Where an allocation is refused. What was pushed before stays.
pub fn push_needed<'t>(
    alloc: Global,
    first: usize,
    names: &Names<'t>,
    needed: &[Core],
    nodes: &mut Vec<Node<'t>>,
    roots: &mut List<NodeNo>,
) -> Result<(), AllocError>
    requires { first < 2 ^ 63 }
    ensures { OnOk result (AddsTrees (map (λ core. (table.core_of core).tree (table.number_in first names.now)) needed.now) nodes.old.items nodes.new.items roots.old roots.new) }
{
    let numbering = Numbering {
        alloc,
        first,
        names,
    };
    for core in needed {
        add_next(nodes, roots)?;
        push_core(&numbering, *core, nodes)?;
    }
    Ok(())
}
