//! The entry that settled entries give a part.

ghost use Rattle.std.specs.Prelude.{IsTrue, ◌≡◌, ◌↔◌, ℕ, length, map};
ghost use Rattle.abnf_parts.specs.Part.{root_number};
ghost use Rattle.abnf_cert.specs.Accepted.{entry_at, referred};
ghost use Rattle.abnf_cert.specs.FitsNode.{NodeRefersWithin};
ghost use Rattle.abnf_least.specs.own.Form.{AwaitsParts, better, entry_given as given, first_least, node_form};
ghost use Rattle.abnf_least.specs.Table.{HasRoomAbove, InRange, IsUpTo};

use abnf_cert::Entry;
use abnf_cert::entries::{characters, entry_of, repeated, row};
use abnf_names::Grammar;
use abnf_parts::{Node, NodeNo};

/// An alternative, unless the best of those after it comes before it.
fn better_of(number: usize, entry: Entry, best: Entry) -> Entry
    ensures { result ≡ better number entry best }
{
    match (entry, best) {
        (Entry::Nothing, _) => best,
        (Entry::Least { length, height, .. }, Entry::Nothing) => Entry::Least {
            length,
            height,
            choice: number as u64,
        },
        (
            Entry::Least { length, height, .. },
            Entry::Least {
                length: best_length,
                height: best_height,
                ..
            },
        ) => {
            if best_length < length || (best_length == length && best_height < height) {
                best
            } else {
                Entry::Least {
                    length,
                    height,
                    choice: number as u64,
                }
            }
        }
    }
}

/// The least pair of a length and a height among alternatives, and the first that has it.
pub(crate) fn chosen(table: &[Entry], numbers: &[NodeNo]) -> Entry
    ensures { result ≡ first_least 0 (map (entry_at table.now) numbers.now) }
{
    let mut best = Entry::Nothing;
    let mut at = numbers.len();
    while at > 0 {
        at -= 1;
        best = better_of(at, entry_of(table, numbers[at].get()), best);
    }
    best
}

fn one_higher(root: Entry) -> Entry
    requires { IsUpTo 18446744073709551614 root }
    ensures { result ≡ referred root }
{
    match root {
        Entry::Nothing => Entry::Nothing,
        Entry::Least { length, height, .. } => Entry::Least {
            length,
            height: height + 1,
            choice: 0,
        },
    }
}

/// Whether a node is given nothing where no part is settled: it awaits parts, or is never given anything. No table is looked at.
pub(crate) fn awaits_parts(node: &Node) -> bool
    ensures { (root : ℕ → ℕ) → IsTrue result ↔ AwaitsParts (node_form root node.now) }
{
    match node {
        Node::Quoted { .. } | Node::Series(_) => false,
        Node::Span { low, high } => *high < *low,
        Node::Seq(parts) => !parts.as_slice().is_empty(),
        Node::Rep { least, .. } => *least > 0,
        Node::Alt(_) | Node::Ref { .. } | Node::Opaque => true,
    }
}

/// The entry that the entries of a table give a node, by the rules of an accepted certificate. In the table `Nothing` stands for what
/// isn't settled.
pub(crate) fn entry_given(grammar: &Grammar, table: &[Entry], node: &Node) -> Entry
    requires refers { NodeRefersWithin (length grammar.now.rules) node.now }
    requires room { HasRoomAbove table.now }
    ensures value { result ≡ given (entry_at table.now) (node_form (root_number grammar.now.rules) node.now) }
    ensures range { InRange result }
{
    match node {
        Node::Quoted { text, .. } => characters(text.len()),
        Node::Series(codes) => characters(codes.len()),
        Node::Span { low, high } => {
            if *high < *low {
                Entry::Nothing
            } else {
                characters(1)
            }
        }
        Node::Seq(parts) => row(table, parts.as_slice()),
        Node::Alt(parts) => chosen(table, parts.as_slice()),
        Node::Rep { least, most, body } => match most {
            Some(most) if *most < *least => Entry::Nothing,
            _ => repeated(*least, entry_of(table, body.get())),
        },
        Node::Ref { rule, .. } => match rule {
            None => Entry::Nothing,
            Some(rule) => one_higher(entry_of(table, grammar.root_of(*rule).get())),
        },
        Node::Opaque => Entry::Nothing,
    }
}
