//! Least lengths by the plain algorithm: each round looks at all nodes that have no entry yet, and gives one with the least pair of a
//! length and a height its entry. Lengths of 18446744073709551615 are left out.

use abnf_cert::Entry;
use abnf_names::{Grammar, Node, NodeNo};
use std::alloc::{AllocError, Global};

/// What comes after each pair of a length below the greatest and a height.
const NONE: u128 = u128::MAX;

/// A number for each pair, in the order of the pairs.
fn pair(length: u64, height: u64) -> u128 {
    if length == u64::MAX {
        return NONE;
    }
    u128::from(length) * 18446744073709551616 + u128::from(height)
}

fn length_of(pair: u128) -> u64 {
    (pair / 18446744073709551616) as u64
}

fn height_of(pair: u128) -> u64 {
    (pair % 18446744073709551616) as u64
}

fn pair_at(pairs: &[u128], number: usize) -> u128 {
    match pairs.get(number) {
        Some(pair) => *pair,
        None => NONE,
    }
}

/// The pair of a text of so many characters.
fn text(characters: usize) -> u128 {
    pair(characters as u64, 0)
}

/// The pair of two parts in a row.
fn joined(left: u128, right: u128) -> u128 {
    if left == NONE || right == NONE {
        return NONE;
    }
    let length = length_of(left).saturating_add(length_of(right));
    pair(length, height_of(left).max(height_of(right)))
}

/// The pair of parts in a row.
fn row(pairs: &[u128], parts: &[NodeNo]) -> u128 {
    let mut whole = text(0);
    for part in parts {
        whole = joined(whole, pair_at(pairs, part.get()));
    }
    whole
}

/// The index of the first part with the least pair.
fn first(pairs: &[u128], parts: &[NodeNo]) -> usize {
    let mut best = 0;
    let mut least = NONE;
    for (index, part) in parts.iter().enumerate() {
        let pair = pair_at(pairs, part.get());
        if pair < least {
            least = pair;
            best = index;
        }
    }
    best
}

/// The least pair of parts to choose from.
fn choice(pairs: &[u128], parts: &[NodeNo]) -> u128 {
    match parts.get(first(pairs, parts)) {
        Some(part) => pair_at(pairs, part.get()),
        None => NONE,
    }
}

/// The pair of a part that stands so many times, where it may stand as often.
fn repeated(least: u32, most: Option<u32>, body: u128) -> u128 {
    if let Some(most) = most {
        if most < least {
            return NONE;
        }
    }
    if least == 0 {
        return text(0);
    }
    if body == NONE {
        return NONE;
    }
    pair(
        length_of(body).saturating_mul(u64::from(least)),
        height_of(body),
    )
}

/// The pair of a reference to a rule whose root has this pair.
fn referred(root: u128) -> u128 {
    if root == NONE {
        return NONE;
    }
    pair(length_of(root), height_of(root).saturating_add(1))
}

fn span(low: u32, high: u32) -> u128 {
    if low <= high { text(1) } else { NONE }
}

/// The pair of what a name stands for.
fn named(grammar: &Grammar<'_>, pairs: &[u128], node: &Node<'_>) -> u128 {
    match node {
        Node::Ref { name, .. } => match grammar.rule_of(*name) {
            Some(rule) => referred(pair_at(pairs, grammar.root_of(rule).get())),
            None => NONE,
        },
        _ => NONE,
    }
}

/// The pair that those of other nodes give a node.
fn given(grammar: &Grammar<'_>, pairs: &[u128], node: &Node<'_>) -> u128 {
    match node {
        Node::Quoted { text: quoted, .. } => text(quoted.len()),
        Node::Series(series) => text(series.len()),
        Node::Span { low, high } => span(*low, *high),
        Node::Seq(parts) => row(pairs, parts.as_slice()),
        Node::Alt(parts) => choice(pairs, parts.as_slice()),
        Node::Rep { least, most, body } => repeated(*least, *most, pair_at(pairs, body.get())),
        Node::Ref { .. } => named(grammar, pairs, node),
        Node::Opaque => NONE,
    }
}

/// What a node is given in this round: nothing where it has its pair.
fn waiting(grammar: &Grammar<'_>, pairs: &[u128], number: usize) -> u128 {
    if pair_at(pairs, number) < NONE {
        return NONE;
    }
    match grammar.nodes().get(number) {
        Some(node) => given(grammar, pairs, node),
        None => NONE,
    }
}

/// One round: the number of the node that is next.
fn next(grammar: &Grammar<'_>, pairs: &[u128]) -> usize {
    let mut best = 0;
    let mut least = NONE;
    for number in 0..pairs.len() {
        let pair = waiting(grammar, pairs, number);
        if pair < least {
            least = pair;
            best = number;
        }
    }
    best
}

/// One round, in which the node that is next gets its pair.
fn round(grammar: &Grammar<'_>, pairs: &mut [u128]) {
    let number = next(grammar, pairs);
    let pair = waiting(grammar, pairs, number);
    if number < pairs.len() && pair < NONE {
        pairs[number] = pair;
    }
}

/// As many rounds as there are nodes.
fn rounds(grammar: &Grammar<'_>, pairs: &mut [u128]) {
    for _ in 0..pairs.len() {
        round(grammar, pairs);
    }
}

/// The choice at a node.
fn chosen(pairs: &[u128], node: Option<&Node<'_>>) -> u64 {
    match node {
        Some(Node::Alt(parts)) => first(pairs, parts.as_slice()) as u64,
        _ => 0,
    }
}

/// The entry of a node; `Nothing` where its length is the greatest.
fn entry(grammar: &Grammar<'_>, pairs: &[u128], number: usize) -> Entry {
    let pair = pair_at(pairs, number);
    if pair == NONE {
        return Entry::Nothing;
    }
    Entry::Least {
        length: length_of(pair),
        height: height_of(pair),
        choice: chosen(pairs, grammar.nodes().get(number)),
    }
}

/// Whether an entry has the greatest length.
pub(crate) fn is_at_top(entry: Entry) -> bool {
    match entry {
        Entry::Nothing => false,
        Entry::Least { length, .. } => length == u64::MAX,
    }
}

fn is_entry(grammar: &Grammar<'_>, pairs: &[u128], number: usize, other: Entry) -> bool {
    let entry = entry(grammar, pairs, number);
    if is_at_top(other) {
        return entry == Entry::Nothing;
    }
    entry == other
}

fn are_entries(grammar: &Grammar<'_>, pairs: &[u128], entries: &[Entry]) -> bool {
    for (number, other) in entries.iter().enumerate() {
        if !is_entry(grammar, pairs, number, *other) {
            return false;
        }
    }
    entries.len() == pairs.len()
}

/// Whether these are the entries by rounds; there, all of the greatest length are `Nothing`.
pub(crate) fn are_by_rounds(
    alloc: Global,
    grammar: &Grammar<'_>,
    entries: &[Entry],
) -> Result<bool, AllocError> {
    let mut pairs = vec![in alloc; NONE; grammar.nodes().len()]?;
    rounds(grammar, pairs.as_mut_slice());
    Ok(are_entries(grammar, pairs.as_slice(), entries))
}
