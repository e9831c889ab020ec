//! What is wanted of the grammars of texts.

use super::names::{are_at, are_numbered, has_nodes, is_root};
use abnf_names::Grammar;
use ls_text::{Snapshot, TextFault};
use std::alloc::{AllocError, Global};

/// What a node is wanted to be; nodes and rules are named by their numbers.
#[derive(Clone, Copy)]
pub(crate) enum Want {
    /// A name, and its rule if it stands for one.
    Ref(&'static str, Option<usize>),
    /// A text in quotes, and whether it is exact.
    Quoted(&'static str, bool),
    Series(&'static [u32]),
    Span(u32, u32),
    Alt(&'static [usize]),
    /// The least and the greatest count, and the node that is repeated.
    Rep(u32, Option<u32>, usize),
    Opaque,
}

/// What is wanted of the grammar of a text.
#[derive(Clone, Copy)]
pub(crate) enum Check {
    /// The names stand for the rules 0, 1 and so on.
    Names(&'static [&'static str]),
    /// The name's rule has this root.
    Root(&'static str, usize),
    /// There are so many nodes, and at these numbers such ones.
    Nodes(usize, &'static [(usize, Want)]),
    /// At these offsets stand these names.
    Offsets(&'static [(usize, At)]),
}

/// The line, the first byte and the end of a name, and the name; it is empty where there is none.
pub(crate) type At = (usize, usize, usize, &'static str);

/// Whether a grammar is so.
fn has(grammar: &Grammar<'_>, check: Check) -> bool {
    match check {
        Check::Names(names) => are_numbered(grammar, names),
        Check::Root(name, number) => is_root(grammar, name, number),
        Check::Nodes(count, rows) => {
            grammar.nodes().len() == count && has_nodes(grammar.nodes(), rows)
        }
        Check::Offsets(rows) => are_at(grammar, rows),
    }
}

fn has_all(grammar: &Grammar<'_>, checks: &[Check]) -> bool {
    for check in checks {
        if !has(grammar, *check) {
            return false;
        }
    }
    !checks.is_empty()
}

fn is_so(alloc: Global, text: &Snapshot, checks: &[Check]) -> Result<bool, AllocError> {
    let grammar = Grammar::of(alloc, text)?;
    let has_all = has_all(&grammar, checks);
    drop(grammar);
    Ok(has_all)
}

/// The snapshot of a text.
pub(crate) fn snapshot(alloc: Global, text: &str) -> Result<Snapshot, TextFault> {
    Snapshot::of_text(alloc, String::from_str(alloc, text)?)
}

/// Whether all this, which is something, holds of the grammar of a text.
pub(crate) fn holds(alloc: Global, text: &str, checks: &[Check]) -> Result<bool, TextFault> {
    Ok(is_so(alloc, &snapshot(alloc, text)?, checks)?)
}
