//! The search for least lengths.
//!
//! Sweeps find most of them, and the check of certificates says whether they did. Where they didn't, a queue finds them.
//!
//! Parts are settled in the order of their pairs, each once: a queue gives the least, since no part has a pair before those of the
//! parts from which it follows. A settled part is offered to its users, which then wait in the queue. What waits is checked again
//! when it leaves, so nothing need be taken from the queue's middle. In the end each choice names the first part with the least
//! pair, in the table itself: what other parts are given follows from pairs alone, whatever a choice names.

ghost use Rattle.std.specs.Prelude.{IfNone, IfOk, IfSome, IsTrue, OnOk, ◌≡◌, ◌↔◌, [], length};
ghost use Rattle.abnf_parts.specs.Part.{parts_of};
ghost use Rattle.abnf_cert.specs.Accepted.{IsAccepted, entry_at};
ghost use Rattle.abnf_least.specs.own.Search.{AllWait, AreGiven, IsExhausted, IsFound, HasGivenPair, IsSearchState, form_at};
ghost use Rattle.abnf_least.specs.Table.{HasRoomAbove, NoneSettled};
ghost use Rattle.abnf_least.specs.own.Users.{AreUsers};

use crate::candidate::Candidate;
use crate::given::{awaits_parts, chosen, entry_given};
use crate::offer::{offer_all, push_given};
use crate::queue::Queue;
use crate::sweep::swept_entries;
use crate::users::Users;
use abnf_cert::entries::{entry_of, has_pair};
use abnf_cert::{Cert, Entry, check};
use abnf_names::Grammar;
use abnf_parts::Node;
use std::alloc::{AllocError, Global};

/// Whether a candidate isn't settled yet, and has the pair that the table gives it.
fn is_given(grammar: &Grammar, table: &[Entry], candidate: Candidate) -> bool
    requires one_each { length table.now ≡ length (parts_of grammar.now.rules) }
    requires room { HasRoomAbove table.now }
    ensures { IsTrue result ↔ HasGivenPair (form_at grammar.now.rules) table.now candidate }
{
    let nodes = grammar.nodes();
    if candidate.number >= nodes.len() {
        return false;
    }
    match entry_of(table, candidate.number) {
        Entry::Least { .. } => false,
        Entry::Nothing => {
            let node = &nodes[candidate.number];
            has_pair(
                entry_given(grammar, table, node),
                candidate.length,
                candidate.height,
            )
        }
    }
}

/// Takes the next part to be settled from the queue.
fn take_next(grammar: &Grammar, table: &[Entry], queue: &mut Queue) -> Option<Candidate>
    requires one_each { length table.now ≡ length (parts_of grammar.now.rules) }
    requires room { HasRoomAbove table.now }
    requires waiting { AllWait (form_at grammar.now.rules) (entry_at table.now) queue.old }
    ensures some { IfSome result (λ x. IsFound (form_at grammar.now.rules) table.now x queue.new) }
    ensures none { IfNone result (IsExhausted (form_at grammar.now.rules) (entry_at table.now)) }
{
    while let Some(candidate) = queue.pop() {
        if is_given(grammar, table, candidate) {
            return Some(candidate);
        }
    }
    None
}

/// Settles all parts that are given an entry, one with the least pair first, until nothing waits.
fn settle(
    grammar: &Grammar,
    users: &Users,
    table: &mut [Entry],
    ready: &mut [u32],
    queue: &mut Queue,
) -> Result<(), AllocError>
    requires stands { IsSearchState grammar.now.rules table.old queue.old }
    requires users { AreUsers grammar.now.rules users.now }
    ensures { OnOk result (IsSearchState grammar.now.rules table.new []) }
{
    while let Some(next) = take_next(grammar, table, queue) {
        table[next.number] = Entry::Least {
            length: next.length,
            height: next.height,
            choice: 0,
        };
        offer_all(grammar, table, next.number, users, ready, queue)?;
    }
    Ok(())
}

/// Lets all parts wait that are given an entry at the start, where no part is settled. Most parts await others, and are passed over.
fn start(grammar: &Grammar, table: &[Entry], queue: &mut Queue) -> Result<(), AllocError>
    requires one_each { length table.now ≡ length (parts_of grammar.now.rules) }
    requires none { NoneSettled table.now }
    ensures { OnOk result (AllWait (form_at grammar.now.rules) (entry_at table.now) queue.new) }
{
    let nodes = grammar.nodes();
    for (number, node) in nodes.iter().enumerate() {
        if !awaits_parts(node) {
            push_given(queue, number, entry_given(grammar, table, node))?;
        }
    }
    Ok(())
}

/// The table in which each part that is given an entry is settled. All else that the search needs is let go.
fn settled(alloc: Global, grammar: &Grammar) -> Result<Vec<Entry>, AllocError>
    ensures { IfOk result (λ table. IsSearchState grammar.now.rules table.items []) }
{
    let count = grammar.nodes().len();
    let users = Users::of_grammar(alloc, grammar)?;
    let mut ready = vec![in alloc; 0u32; count]?;
    let mut table = vec![in alloc; Entry::Nothing; count]?;
    let mut queue = Queue::new(alloc);
    start(grammar, &table, &mut queue)?;
    settle(grammar, &users, &mut table, &mut ready, &mut queue)?;
    Ok(table)
}

/// Names at each choice the first part with the least pair, in the choice's own entry.
fn choose(grammar: &Grammar, table: &mut [Entry])
    requires { IsSearchState grammar.now.rules table.old [] }
    ensures { AreGiven grammar.now.rules table.old table.new }
{
    for (number, node) in grammar.nodes().iter().enumerate() {
        if let Node::Alt(parts) = node {
            table[number] = chosen(table, parts.as_slice());
        }
    }
}

/// The least lengths of what the parts of a grammar generate: a certificate that [`check`](abnf_cert::check) accepts, for
/// every grammar, also with cycles, with names that stand for nothing, with ranges turned round, and with lengths past 64
/// bits. For n nodes it takes time in proportion to n times the logarithm of n, and memory in proportion to n.
///
/// # Errors
///
/// Where an allocation is refused. So it is where the numbers of parts don't fit in 31 bits, as those of each text do
/// that is read.
pub fn least(alloc: Global, grammar: &Grammar) -> Result<Cert, AllocError>
    ensures { IfOk result (λ cert. IsAccepted grammar.now.rules cert) }
{
    if let Some(entries) = swept_entries(alloc, grammar)? {
        let cert = Cert::new(entries);
        if check(grammar, &cert) {
            return Ok(cert);
        }
    }
    let mut table = settled(alloc, grammar)?;
    choose(grammar, &mut table);
    Ok(Cert::new(table))
}
