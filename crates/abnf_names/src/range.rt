//! Where the nodes of a rule stand among all nodes.

ghost use Rattle.std.specs.Prelude.{◌≡◌, ◌<◌, suc, length};
ghost use Rattle.abnf_parts.specs.Part.{root_number};
ghost use Rattle.abnf_parts.specs.Nodes.{AreNumbered, trees_at};
ghost use Rattle.abnf_names.specs.own.Users as spec;

use abnf_parts::{Node, NodeNo};

/// Where the nodes of a rule end: at the next root, or with the last node.
fn end_of(nodes: &[Node<'_>], roots: &[NodeNo], rule: usize) -> usize
    requires numbered { AreNumbered nodes.now roots.now }
    requires rule { rule < length roots.now }
    ensures { result ≡ root_number (trees_at nodes.now roots.now) (suc rule) }
{
    match roots.get(rule + 1) {
        Some(root) => root.get(),
        None => nodes.len(),
    }
}

/// The numbers from which and up to which the nodes are those of a rule.
pub(crate) fn range_of(nodes: &[Node<'_>], roots: &[NodeNo], rule: usize) -> (usize, usize)
    requires numbered { AreNumbered nodes.now roots.now }
    requires rule { rule < length roots.now }
    ensures { spec.IsRangeOf (trees_at nodes.now roots.now) nodes.now rule result.0 result.1 }
{
    (roots[rule].get(), end_of(nodes, roots, rule))
}
