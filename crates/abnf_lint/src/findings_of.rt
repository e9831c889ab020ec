//! What is found in a text.

ghost use Rattle.std.specs.Prelude.{◌≡◌, ◌<◌, ◌≤◌, [], length, map, slice_range, IfOk, IsTrue};
ghost use Rattle.std.specs.List.{list_all};
ghost use Rattle.abnf_cert.specs.Accepted.{IsAccepted};
ghost use Rattle.abnf_names.specs.Excerpts.{HasSections, excerpt};
ghost use Rattle.abnf_lint.specs.own.Findings.{AreOrdered};
ghost use Rattle.abnf_lint.specs.own.Passes as passes;
ghost use Rattle.abnf_lint.specs.Rows.{AreRows};
ghost use Rattle.abnf_lint.specs.Unproductive.{AreUnproductive};

use crate::block::{Known, Seen, push_block};
use crate::empty::{is_above, is_turned};
use crate::finding::Finding;
use crate::unproductive::unproductive_rules;
use abnf_cert::Cert;
use abnf_names::{Grammar, Node, RuleNo, Section};
use ls_lists::List;
use std::alloc::{AllocError, Global};

/// Whether nothing is found at a node: its name stands for a rule, if it has one, and it is no range and no repetition that is empty.
fn is_sound(node: &Node<'_>) -> bool
    ensures { result ≡ passes.is_sound node.now }
{
    match node {
        Node::Ref { name: _, rule } => rule.is_some(),
        Node::Span { low, high } => !is_turned(Some((*low, *high))),
        Node::Rep { least, most, .. } => !is_above(*least, *most),
        _ => true,
    }
}

/// Whether nothing is found at these nodes.
fn are_sound(nodes: &[Node<'_>]) -> bool
    ensures { result ≡ list_all passes.is_sound nodes.now }
{
    nodes.iter().all(|node| is_sound(node))
}

/// The nodes with these numbers.
fn nodes_between<'g, 't>(nodes: &'g [Node<'t>], start: usize, end: usize) -> &'g [Node<'t>]
    requires order { start ≤ end }
    requires within { end ≤ length nodes.now }
    ensures { result.now ≡ slice_range nodes.now start end }
{
    &nodes[start..end]
}

/// Whether nothing is found at the nodes of a rule.
fn is_sound_rule(grammar: &Grammar<'_>, rule: usize) -> bool
    requires { rule < length grammar.now.rules }
    ensures { IsTrue result → passes.IsSoundRule grammar.now.rules rule }
{
    let (start, end) = grammar.range_of(RuleNo::new(rule));
    are_sound(nodes_between(grammar.nodes(), start, end))
}

/// Beside each rule whether nothing is found at its nodes.
fn sound_rules(alloc: Global, grammar: &Grammar<'_>) -> Result<Vec<bool>, AllocError>
    ensures { IfOk result (λ marks. passes.AreSoundMarks grammar.now.rules marks.items) }
{
    let count = grammar.rule_count();
    let mut marks = Vec::with_capacity(alloc, count)?;
    for rule in 0..count {
        marks.push(is_sound_rule(grammar, rule))?;
    }
    Ok(marks)
}

/// Whether a head of the rule's name has come.
fn has_come(seen: &[Seen], rule: usize) -> bool {
    match seen.get(rule) {
        Some(told) => told.is_head,
        None => false,
    }
}

/// What is found, block after block. Beside each rule stands what is known of the heads of its name. Each use, number and repeat of a
/// block that counts has a node in the block's rule, so the items of such a block are looked at only where not all these nodes are sound.
fn candidates<'t>(
    alloc: Global,
    grammar: &Grammar<'t>,
    marks: &[bool],
    sections: &[Section<'t>],
) -> Result<List<Finding>, AllocError>
    requires { HasSections grammar.now sections.now }
    ensures { IfOk result (λ found. found ≡ passes.findings_behind marks.now grammar.now.names [] [] (map excerpt sections.now)) }
{
    let sound = sound_rules(alloc, grammar)?;
    let known = Known {
        grammar,
        marks,
        sound: sound.as_slice(),
    };
    let not_seen = Seen {
        is_head: false,
        is_base: false,
    };
    let mut table = vec![in alloc; not_seen; grammar.rule_count()]?;
    let seen = table.as_mut_slice();
    let mut found = List::new(alloc);
    // Rules have the order of their first heads, so the next one is mostly the first of which none has come.
    let mut guess: usize = 0;
    for section in sections {
        push_block(alloc, &known, seen, guess, section, &mut found)?;
        guess = guess.saturating_add(usize::from(has_come(seen, guess)));
    }
    Ok(found)
}

/// Findings by line, start and row.
fn in_order(found: List<Finding>) -> Result<List<Finding>, AllocError>
    ensures { IfOk result (λ ordered. AreOrdered found ordered) }
{
    let mut found = found.into_vec();
    found.sort_by_key(|f| (f.place.line, f.place.start, f.code.row()))?;
    Ok(List::from_vec(found))
}

/// What is found in a grammar's text: the rows of the table that hold of it, by line, start and row, where it is marked
/// of each rule whether it is unproductive: whether it generates no string and leads to no prose and no faulty block.
/// Time goes by the length of the text, and by n times the logarithm of n for n findings.
///
/// # Errors
///
/// Where an allocation is refused.
pub fn findings_marked(
    alloc: Global,
    grammar: &Grammar,
    marks: &[bool],
) -> Result<List<Finding>, AllocError>
    requires { AreUnproductive grammar.now.rules marks.now }
    ensures { IfOk result (λ found. AreRows grammar.now.text found) }
{
    let found = candidates(alloc, grammar, marks, grammar.sections())?;
    let found = in_order(found)?;
    Ok(found)
}

/// What is found in a grammar's text: the rows of the table that hold of it, by line, start and row. The certificate must
/// be accepted for the grammar: a rule is unproductive exactly where it generates no string and leads to no prose and no
/// faulty block. Time goes by the length of the text, and by n times the logarithm of n for n findings.
///
/// # Errors
///
/// Where an allocation is refused.
pub fn findings(alloc: Global, grammar: &Grammar, cert: &Cert) -> Result<List<Finding>, AllocError>
    requires { IsAccepted grammar.now.rules cert.now }
    ensures { IfOk result (λ found. AreRows grammar.now.text found) }
{
    let marks = unproductive_rules(alloc, grammar, cert)?;
    findings_marked(alloc, grammar, marks.as_slice())
}
