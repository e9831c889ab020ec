//! The check of a certificate.

ghost use Rattle.std.specs.Prelude.{◌≡◌, ◌↔◌, ◌<◌, length, take, IsTrue};
ghost use Rattle.std.specs.List.{AllByRecursion};
ghost use Rattle.abnf_parts.specs.Part.{root_number};
ghost use Rattle.abnf_cert.specs.Accepted.{After, IsAccepted, IsChoice, IsFirstLeast, entry_at, referred};
ghost use Rattle.abnf_cert.specs.FitsNode.{FitsNode, IsRepeated, NodeRefersWithin};
ghost use Rattle.abnf_cert.specs.Says.{EachSays};
ghost use Rattle.abnf_cert.specs.own.Test.{Passes, entries_at};

use crate::entries::{characters, entry_of, has_pair, repeated, row};
use crate::entry::{Cert, Entry};
use abnf_names::Grammar;
use abnf_parts::{Node, NodeNo};

/// Whether an entry is that of a reference to a rule whose root has this entry. None is where the root's height is the greatest.
fn is_referred(root: Entry, entry: Entry) -> bool
    ensures { IsTrue result ↔ entry ≡ referred root }
{
    match root {
        Entry::Nothing => entry == Entry::Nothing,
        Entry::Least { length, height, .. } => match height.checked_add(1) {
            Some(height) => entry
                == Entry::Least {
                    length,
                    height,
                    choice: 0,
                },
            None => false,
        },
    }
}

/// What the entries of the parts of a choice are tested for.
#[derive(Clone, Copy)]
enum Test {
    /// `Nothing`.
    Empty,
    /// Not before this pair, the length compared first.
    NotBefore { length: u64, height: u64 },
    /// After this pair.
    After { length: u64, height: u64 },
    /// No length below the greatest.
    Saturated,
}

fn passes(test: Test, entry: Entry) -> bool
    ensures { IsTrue result ↔ Passes test entry }
{
    match entry {
        Entry::Nothing => true,
        Entry::Least { length, height, .. } => match test {
            Test::Empty => false,
            Test::NotBefore {
                length: least,
                height: lowest,
            } => least < length || (least == length && lowest <= height),
            Test::After {
                length: least,
                height: lowest,
            } => least < length || (least == length && lowest < height),
            Test::Saturated => length == u64::MAX,
        },
    }
}

fn all_pass(entries: &[Entry], numbers: &[NodeNo], test: Test) -> bool
    ensures { IsTrue result ↔ AllByRecursion (Passes test) (entries_at entries.now numbers.now) }
{
    let mut all = true;
    let mut at = numbers.len();
    while at > 0 {
        at -= 1;
        all = passes(test, entry_of(entries, numbers[at].get())) && all;
    }
    all
}

/// Whether the parts before the chosen one come after this pair.
fn come_after(entries: &[Entry], numbers: &[NodeNo], least: u64, height: u64, choice: usize) -> bool
    requires { choice < length numbers.now }
    ensures { IsTrue result ↔ AllByRecursion (After least height) (take choice (entries_at entries.now numbers.now)) }
{
    let after = Test::After {
        length: least,
        height,
    };
    all_pass(entries, &numbers[..choice], after)
}

/// Whether no part comes before this pair, and those before the chosen one come after it.
fn is_first_least(
    entries: &[Entry],
    numbers: &[NodeNo],
    least: u64,
    height: u64,
    choice: usize,
) -> bool
    requires { choice < length numbers.now }
    ensures { IsTrue result ↔ IsFirstLeast (entries_at entries.now numbers.now) least height choice }
{
    let not_before = Test::NotBefore {
        length: least,
        height,
    };
    least < u64::MAX
        && all_pass(entries, numbers, not_before)
        && come_after(entries, numbers, least, height, choice)
}

fn is_choice(entries: &[Entry], numbers: &[NodeNo], entry: Entry) -> bool
    ensures { IsTrue result ↔ IsChoice (entries_at entries.now numbers.now) entry }
{
    match entry {
        Entry::Nothing => all_pass(entries, numbers, Test::Empty),
        Entry::Least {
            length,
            height,
            choice,
        } => {
            let choice = choice as usize;
            if choice >= numbers.len() {
                return false;
            }
            if !has_pair(entry_of(entries, numbers[choice].get()), length, height) {
                return false;
            }
            if length == u64::MAX {
                return all_pass(entries, numbers, Test::Saturated);
            }
            is_first_least(entries, numbers, length, height, choice)
        }
    }
}

fn is_repeated(least: u32, most: Option<u32>, body: Entry, entry: Entry) -> bool
    ensures { IsTrue result ↔ IsRepeated least most body entry }
{
    match most {
        Some(most) if most < least => entry == Entry::Nothing,
        _ => entry == repeated(least, body),
    }
}

/// Whether the entry of a node follows from those of the nodes right below it.
fn fits(grammar: &Grammar, entries: &[Entry], node: &Node, entry: Entry) -> bool
    requires { NodeRefersWithin (length grammar.now.rules) node.now }
    ensures { IsTrue result ↔ FitsNode (entry_at entries.now) (root_number grammar.now.rules) node.now entry }
{
    match node {
        Node::Quoted { text, .. } => entry == characters(text.len()),
        Node::Series(codes) => entry == characters(codes.len()),
        Node::Span { low, high } => {
            if *low <= *high {
                entry == characters(1)
            } else {
                entry == Entry::Nothing
            }
        }
        Node::Seq(parts) => entry == row(entries, parts.as_slice()),
        Node::Alt(parts) => is_choice(entries, parts.as_slice(), entry),
        Node::Rep { least, most, body } => is_repeated(
            *least,
            *most,
            entry_of(entries, body.get()),
            entry,
        ),
        Node::Ref { rule, .. } => match rule {
            None => entry == Entry::Nothing,
            Some(rule) => is_referred(entry_of(entries, grammar.root_of(*rule).get()), entry),
        },
        Node::Opaque => entry == Entry::Nothing,
    }
}

fn all_fit(grammar: &Grammar, entries: &[Entry]) -> bool
    ensures exact { IsTrue result ↔ IsAccepted grammar.now.rules entries.now }
    ensures right { IsTrue result → EachSays grammar.now.rules entries.now }
{
    let nodes = grammar.nodes();
    if nodes.len() != entries.len() {
        return false;
    }
    let mut all = true;
    for (number, node) in nodes.iter().enumerate() {
        all = fits(grammar, entries, node, entry_of(entries, number)) && all;
    }
    all
}

/// Whether a certificate is accepted: it has one entry per node, and each follows from those of the nodes right below it, by these
/// rules. Sums and products of lengths are cut off at 18446744073709551615, heights never are.
///
/// - `Quoted`, `Series`: the length, and height 0. `Span`: length 1 and height 0; `Nothing` where it is empty. `Opaque`: `Nothing`.
/// - `Seq`: the sum of the lengths and the greatest height; `Nothing` where a part is.
/// - `Rep`: `least` times the body's length, with its height; length and height 0 where `least` is 0; `Nothing` where `least` is above
///   `most`, or else where the body is.
/// - `Ref`: the length of the rule's root, and its height plus 1; `Nothing` where the root is, and of a name that stands for nothing.
/// - `Alt`: the least pair of a length and a height among the parts, and the first part with it. Where no part is below
///   18446744073709551615, any part of that length. `Nothing` where all parts are.
///
/// Then each entry is right of the strings of its node. Time goes by the number of nodes.
pub fn check(grammar: &Grammar, cert: &Cert) -> bool
    ensures exact { IsTrue result ↔ IsAccepted grammar.now.rules cert.now }
    ensures right { IsTrue result → EachSays grammar.now.rules cert.now }
{
    all_fit(grammar, cert.entries())
}
