//! The walk that writes a sentence.
//!
//! Tasks wait on a stack, so that nothing recurses over rules. A part that was written before is copied from the text, so that the
//! walk takes a step for each node at most, and one for each copy, which has a character at least.

ghost use Rattle.std.specs.Prelude.{◌≡◌, ◌++◌, ◌≤◌, ◌<◌, IfOk, OnOk, length, slice_range};
ghost use Rattle.abnf_parts.specs.Part.{parts_of, root_number};
ghost use Rattle.abnf_cert.specs.Accepted.{IsAccepted, entry_at};
ghost use Rattle.abnf_cert.specs.FitsNode.{NodeRefersWithin};
ghost use Rattle.abnf_least.specs.Sentence.{IsSentence};
ghost use Rattle.abnf_least.specs.own.Walk.{AllLieWithin, Does, Expands, IsBelowTop, IsTaskOf, choice_of, leaf_text, work_after};

use crate::work::{Task, Work};
use abnf_cert::Entry;
use abnf_cert::entries::entry_of;
use abnf_names::Grammar;
use abnf_parts::{Node, RuleNo};
use ls_lists::List;
use std::alloc::{AllocError, Global};

fn choice_in(entry: Entry) -> u64
    ensures { result ≡ choice_of entry }
{
    match entry {
        Entry::Nothing => 0,
        Entry::Least { choice, .. } => choice,
    }
}

/// Lets the parts be written next of which the sentence of a part is made.
fn replace(
    grammar: &Grammar,
    entries: &[Entry],
    node: &Node,
    choice: u64,
    work: &mut Work,
) -> Result<(), AllocError>
    requires { NodeRefersWithin (length grammar.now.rules) node.now }
    ensures { OnOk result (work.new ≡ work_after (entry_at entries.now) (root_number grammar.now.rules) node.now choice work.old) }
{
    match node {
        Node::Seq(parts) => work.push_all(entries, parts.as_slice()),
        Node::Alt(parts) => match parts.as_slice().get(choice as usize) {
            Some(part) => work.push(entries, part.get()),
            None => Ok(()),
        },
        Node::Rep { least, body, .. } => work.push_times(entries, *least, body.get()),
        Node::Ref { rule, .. } => match rule {
            Some(rule) => work.push(entries, grammar.root_of(*rule).get()),
            None => Ok(()),
        },
        Node::Quoted { .. } | Node::Series(_) | Node::Span { .. } | Node::Opaque => Ok(()),
    }
}

/// Writes the characters of a part that has no parts.
fn write(node: &Node, text: &mut Vec<u32>) -> Result<(), AllocError>
    ensures { OnOk result (text.new.items ≡ text.old.items ++ leaf_text node.now) }
{
    match node {
        Node::Quoted { text: quoted, .. } => {
            for byte in quoted.as_bytes() {
                text.push(u32::from(*byte))?;
            }
        }
        Node::Series(characters) => {
            for character in characters.as_slice() {
                text.push(*character)?;
            }
        }
        Node::Span { low, .. } => text.push(*low)?,
        Node::Seq(_) | Node::Alt(_) | Node::Rep { .. } | Node::Ref { .. } | Node::Opaque => {}
    }
    Ok(())
}

/// Writes again what stands between two places of the text.
fn copy(text: &mut Vec<u32>, start: usize, end: usize) -> Result<(), AllocError>
    requires start { start ≤ end }
    requires end { end ≤ length text.old.items }
    ensures { OnOk result (text.new.items ≡ text.old.items ++ slice_range text.old.items start end) }
{
    text.extend_from_within(start..end)
}

/// Writes a part for the first time: its parts and then its end are to come.
fn expand(
    grammar: &Grammar,
    entries: &[Entry],
    part: usize,
    work: &mut Work,
    text: &mut Vec<u32>,
) -> Result<(), AllocError>
    requires { part < length (parts_of grammar.now.rules) }
    ensures { OnOk result (Expands grammar.now.rules (entry_at entries.now) part work.old text.old.items work.new text.new.items) }
{
    work.push_end(part, text.len())?;
    let node = &grammar.nodes()[part];
    write(node, text)?;
    replace(
        grammar,
        entries,
        node,
        choice_in(entry_of(entries, part)),
        work,
    )
}

/// Does a task. The places say of each part where it stands in the text, if it was written before.
fn perform(
    grammar: &Grammar,
    entries: &[Entry],
    task: Task,
    work: &mut Work,
    text: &mut Vec<u32>,
    places: &mut [Option<(usize, usize)>],
) -> Result<(), AllocError>
    requires task { IsTaskOf (length (parts_of grammar.now.rules)) task }
    requires one_each { length places.old ≡ length (parts_of grammar.now.rules) }
    requires places { AllLieWithin (length text.old.items) places.old }
    ensures { OnOk result (Does grammar.now.rules (entry_at entries.now) task work.old text.old.items places.old work.new text.new.items places.new) }
{
    match task {
        Task::Write(part) => match places[part] {
            Some((start, end)) => copy(text, start, end),
            None => expand(grammar, entries, part, work, text),
        },
        Task::End { part, start } => {
            places[part] = Some((start, text.len()));
            Ok(())
        }
    }
}

/// The sentence of a rule whose least length is known exactly.
pub(crate) fn sentence(
    alloc: Global,
    grammar: &Grammar,
    entries: &[Entry],
    rule: RuleNo,
) -> Result<List<u32>, AllocError>
    requires accepted { IsAccepted grammar.now.rules entries.now }
    requires rule { rule < length grammar.now.rules }
    requires below_top { IsBelowTop (entry_at entries.now (root_number grammar.now.rules rule)) }
    ensures { IfOk result (λ s. IsSentence grammar.now.rules rule s) }
{
    let mut text = Vec::new(alloc);
    let mut noted = vec![in alloc; None; grammar.nodes().len()]?;
    let places = noted.as_mut_slice();
    let mut work = Work::new(alloc);
    work.push(entries, grammar.root_of(rule).get())?;
    while let Some(task) = work.pop() {
        perform(grammar, entries, task, &mut work, &mut text, places)?;
    }
    Ok(List::from_vec(text))
}
