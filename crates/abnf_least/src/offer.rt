//! What the users of a part are offered once it is settled.

ghost use Rattle.std.specs.Prelude.{OnOk, ◌≡◌, ◌<◌, ℕ, false, true, length, map, slice_index_or as get_or};
ghost use Rattle.abnf_parts.specs.Part.{parts_of, root_number};
ghost use Rattle.abnf_cert.specs.Accepted.{all_in_a_row, entry_at};
ghost use Rattle.abnf_cert.specs.FitsNode.{NodeRefersWithin};
ghost use Rattle.abnf_cert.specs.declared.entry.Entry.TheVariants.{Nothing};
ghost use Rattle.abnf_least.specs.own.Form.{node_form};
ghost use Rattle.abnf_least.specs.own.Search.{IsOffered, IsPushedPart, Keeps, form_at, offered};
ghost use Rattle.abnf_least.specs.Table.{HasRoomAbove};
ghost use Rattle.abnf_least.specs.own.Users.{Uses};

use crate::candidate::Candidate;
use crate::given::entry_given;
use crate::queue::Queue;
use crate::users::Users;
use abnf_cert::Entry;
use abnf_cert::entries::entry_of;
use abnf_names::Grammar;
use abnf_parts::{Node, NodeNo};
use std::alloc::AllocError;

/// Lets a part wait, if it is given an entry.
pub(crate) fn push_given(queue: &mut Queue, number: usize, entry: Entry) -> Result<(), AllocError>
    ensures kept { OnOk result (Keeps queue.old queue.new) }
    ensures pushed { OnOk result (IsPushedPart entry number queue.new) }
{
    match entry {
        Entry::Nothing => Ok(()),
        Entry::Least { length, height, .. } => queue.push(Candidate {
            length,
            height,
            number,
        }),
    }
}

/// What a user of a settled part is offered: a choice that part's own pair, so that its other parts aren't looked at, and any other
/// part the entry that it is given.
fn offered_entry(grammar: &Grammar, table: &[Entry], node: &Node, part: usize) -> Entry
    requires refers { NodeRefersWithin (length grammar.now.rules) node.now }
    requires room { HasRoomAbove table.now }
    ensures { result ≡ offered (entry_at table.now) (node_form (root_number grammar.now.rules) node.now) part }
{
    match node {
        Node::Alt(_) => entry_of(table, part),
        _ => entry_given(grammar, table, node),
    }
}

/// The first place from this one on where a part isn't settled.
fn first_unsettled(table: &[Entry], parts: &[NodeNo], from: usize) -> usize
    ensures { result < length parts.now → entry_at table.now (get_or parts.now result 0) ≡ Nothing }
{
    let mut at = from;
    while at < parts.len() {
        match entry_of(table, parts[at].get()) {
            Entry::Nothing => return at,
            Entry::Least { .. } => at += 1,
        }
    }
    at
}

/// Whether a part is settled.
fn is_settled(table: &[Entry], part: usize) -> bool
    ensures settled { result ≡ true → entry_at table.now part ≡ Nothing → ⊥ }
    ensures waits { result ≡ false → entry_at table.now part ≡ Nothing }
{
    match entry_of(table, part) {
        Entry::Nothing => false,
        Entry::Least { .. } => true,
    }
}

/// Whether all parts of a row are settled. At the row's number `ready` says up to which place they were so before, so that all calls
/// together pass each place once. A place that needs more than 32 bits, as no text has one, is passed again.
fn is_ready(table: &[Entry], parts: &[NodeNo], number: usize, ready: &mut [u32]) -> bool
    ensures { result ≡ false → all_in_a_row (map (entry_at table.now) parts.now) ≡ Nothing }
{
    if number >= ready.len() {
        return true;
    }
    let at = first_unsettled(table, parts, ready[number] as usize);
    ready[number] = at.min(u32::MAX as usize) as u32;
    at >= parts.len()
}

/// Lets a user of a part that was settled just now wait, if it is given an entry and isn't settled: a choice is settled by the first of
/// its alternatives that is, and the others offer it nothing.
fn offer(
    grammar: &Grammar,
    table: &[Entry],
    part: usize,
    user: usize,
    ready: &mut [u32],
    queue: &mut Queue,
) -> Result<(), AllocError>
    requires one_each { length table.now ≡ length (parts_of grammar.now.rules) }
    requires room { HasRoomAbove table.now }
    ensures kept { OnOk result (Keeps queue.old queue.new) }
    ensures offered { OnOk result (IsOffered (form_at grammar.now.rules) (entry_at table.now) part user queue.new) }
{
    let nodes = grammar.nodes();
    if user >= nodes.len() || is_settled(table, user) {
        return Ok(());
    }
    let node = &nodes[user];
    if let Node::Seq(parts) = node {
        if !is_ready(table, parts.as_slice(), user, ready) {
            return Ok(());
        }
    }
    push_given(queue, user, offered_entry(grammar, table, node, part))
}

/// Lets the users of a part that was settled just now wait, each if it is given an entry.
pub(crate) fn offer_all(
    grammar: &Grammar,
    table: &[Entry],
    part: usize,
    users: &Users,
    ready: &mut [u32],
    queue: &mut Queue,
) -> Result<(), AllocError>
    requires one_each { length table.now ≡ length (parts_of grammar.now.rules) }
    requires room { HasRoomAbove table.now }
    requires within { part < length users.now.starts.items }
    ensures kept { OnOk result (Keeps queue.old queue.new) }
    ensures offered { OnOk result ((k : ℕ) → Uses users.now part k → IsOffered (form_at grammar.now.rules) (entry_at table.now) part k queue.new) }
{
    let mut place = users.start_of(part);
    while let Some(link) = users.link_at(place) {
        offer(grammar, table, part, link.user as usize, ready, queue)?;
        place = link.next;
    }
    Ok(())
}
