//! Which rules lead to prose or to a faulty block.
//!
//! The search goes against the direction of uses, from one place that stands for all opaque parts, and takes each rule once. Places
//! are the numbers of the rules, and behind them the number of rules for the opaque parts.

ghost use Rattle.std.specs.Prelude.{◌≡◌, ℕ, ◌<◌, ◌+◌, map, fold, length, replicate, slice_get, slice_index_or, IfOk, IfSome, OnOk, OnErr, OnSome, IsTrue, ◌↔◌, Contains, Some, [], false};
ghost use Rattle.std.specs.List.{list_all};
ghost use Rattle.std.specs.Option.{ForSome};
ghost use Rattle.abnf_parts.specs.Nodes.{AreNumbered, trees_at};
ghost use Rattle.abnf_parts.specs.Reach.{AreReaching};
ghost use Rattle.abnf_names.specs.own.Search as search;
ghost use Rattle.abnf_names.specs.own.Users as spec;

use crate::range::range_of;
use crate::short_list::ShortList;
use abnf_parts::{Node, NodeNo};
use ls_lists::List;
use std::alloc::{AllocError, Global};
use std::marker::Model;

/// The rules that use one place. Most places have few.
type Users = ShortList<usize, 3>;

/// The places that a search has found. Contracts see how many places there are, and those that were found, each once, in order.
#[derive(Drop)]
struct Found {
    marks: Vec<bool>,
    places: List<usize>,
}

impl Model for Found {
    ghost use Rattle.std.specs.Prelude.{ℕ, List as Listed, length};

    ghost Value = { ℕ × Listed ℕ };

    ghost view = { λ f. (length f.marks.items, f.places) };

    ghost use Rattle.abnf_names.specs.own.Search.{AreMarked};

    ghost invariant = { λ f. AreMarked f.marks.items f.places };
}

impl Found {
    /// None of so many places.
    fn new(alloc: Global, count: usize) -> Result<Found, AllocError>
        ensures { IfOk result (λ found. found ≡ (count, [])) }
    {
        Ok(Found {
            marks: vec![in alloc; false; count]?,
            places: List::new(alloc),
        })
    }

    /// The place that was found after so many others.
    fn get(&self, at: usize) -> Option<usize>
        ensures value { result ≡ slice_get self.now.1 at }
        ensures place { IfSome result (λ place. place < self.now.0) }
        ensures few { OnSome result (at < self.now.0) }
    {
        self.places.get(at).copied()
    }

    /// Adds a place unless it is there.
    fn add(&mut self, place: usize) -> Result<(), AllocError>
        requires { place < self.old.0 }
        ensures ok { OnOk result (self.new ≡ (self.old.0, search.with_place self.old.1 place)) }
        ensures err { OnErr result (self.new ≡ self.old) }
    {
        if !self.marks[place] {
            self.places.push(place)?;
            self.marks[place] = true;
        }
        Ok(())
    }

    /// For each place whether it was found.
    fn into_marks(self) -> Vec<bool>
        ensures len { length result.items ≡ self.0 }
        ensures each { (place : ℕ) → IsTrue (slice_index_or result.items place false) ↔ Contains self.1 place }
    {
        let Found { marks, places: _ } = self;
        marks
    }
}

/// Adds places.
fn add_all(places: &[usize], found: &mut Found) -> Result<(), AllocError>
    requires { (place : ℕ) → Contains places.now place → place < found.old.0 }
    ensures { OnOk result (found.new ≡ (found.old.0, fold search.with_place found.old.1 places.now)) }
{
    for place in places {
        found.add(*place)?;
    }
    Ok(())
}

/// For each place whether steps lead from it to the last one, where each place has its users.
fn marks_of(alloc: Global, users: &[Users]) -> Result<Vec<bool>, AllocError>
    requires some { 0 < length users.now }
    requires within { search.AreUsersWithin users.now }
    ensures { IfOk result (λ marks. search.AreReachMarks users.now marks.items) }
{
    let count = users.len();
    let mut found = Found::new(alloc, count)?;
    found.add(count - 1)?;
    let mut first = 0;
    while let Some(place) = found.get(first) {
        add_all(users[place].as_slice(), &mut found)?;
        first += 1;
    }
    Ok(found.into_marks())
}

/// The place to which a node leads.
fn place_of(node: &Node<'_>, last: usize) -> Option<usize>
    ensures { result ≡ spec.place_of_node last node.now }
{
    match node {
        Node::Ref { name: _, rule } => match rule {
            Some(rule) => Some(rule.get()),
            None => None,
        },
        Node::Opaque => Some(last),
        _ => None,
    }
}

/// Adds a rule to the users of a place, if there is one.
fn add_user(rule: usize, place: Option<usize>, users: &mut Vec<Users>) -> Result<(), AllocError>
    requires { ForSome place (λ p. p < length users.old.items) }
    ensures { OnOk result (users.new.items ≡ spec.with_user rule users.old.items place) }
{
    if let Some(place) = place {
        users[place].push(rule)?;
    }
    Ok(())
}

/// Adds a rule to the users of the places to which these nodes lead.
fn add_users(
    rule: usize,
    last: usize,
    nodes: &[Node<'_>],
    users: &mut Vec<Users>,
) -> Result<(), AllocError>
    requires { (place : ℕ) → Contains (map (spec.place_of_node last) nodes.now) (Some place) → place < length users.old.items }
    ensures { OnOk result (users.new.items ≡ fold (spec.with_user rule) users.old.items (map (spec.place_of_node last) nodes.now)) }
{
    for node in nodes {
        add_user(rule, place_of(node, last), users)?;
    }
    Ok(())
}

/// So many places without users.
fn no_users(alloc: Global, count: usize) -> Result<Vec<Users>, AllocError>
    ensures len { IfOk result (λ users. length users.items ≡ count) }
    ensures none { IfOk result (λ users. (place : ℕ) → search.users_at users.items place ≡ []) }
{
    let mut users = Vec::new(alloc);
    for _ in 0..count {
        users.push(ShortList::new(alloc))?;
    }
    Ok(users)
}

/// The nodes of a rule.
fn nodes_of<'g, 't>(nodes: &'g [Node<'t>], roots: &[NodeNo], rule: usize) -> &'g [Node<'t>]
    requires numbered { AreNumbered nodes.now roots.now }
    requires rule { rule < length roots.now }
    ensures { result.now ≡ spec.nodes_of nodes.now (trees_at nodes.now roots.now) rule }
{
    let (start, end) = range_of(nodes, roots, rule);
    &nodes[start..end]
}

/// For each place the rules that lead there.
fn users_of(alloc: Global, nodes: &[Node<'_>], roots: &[NodeNo]) -> Result<Vec<Users>, AllocError>
    requires { AreNumbered nodes.now roots.now }
    ensures { IfOk result (λ users. spec.AreUsingRules (trees_at nodes.now roots.now) (length roots.now) users.items) }
{
    let last = roots.len();
    let mut users = no_users(alloc, last + 1)?;
    for rule in 0..last {
        add_users(rule, last, nodes_of(nodes, roots, rule), &mut users)?;
    }
    Ok(users)
}

/// Whether a node is neither prose nor a faulty block.
fn is_clear(node: &Node<'_>) -> bool
    ensures { result ≡ spec.is_clear node.now }
{
    match node {
        Node::Opaque => false,
        _ => true,
    }
}

/// Whether no node is prose or a faulty block.
fn are_clear(nodes: &[Node<'_>]) -> bool
    ensures { result ≡ list_all spec.is_clear nodes.now }
{
    nodes.iter().all(|node| is_clear(node))
}

/// No mark for each of so many rules.
fn no_marks(alloc: Global, count: usize) -> Result<Vec<bool>, AllocError>
    ensures { IfOk result (λ marks. marks.items ≡ replicate count false) }
{
    vec![in alloc; false; count]
}

/// For each rule whether it leads to prose or to a faulty block. Uses are looked at only where there is such a part.
pub(crate) fn reaching(
    alloc: Global,
    nodes: &[Node<'_>],
    roots: &[NodeNo],
) -> Result<Vec<bool>, AllocError>
    requires { AreNumbered nodes.now roots.now }
    ensures { IfOk result (λ marks. AreReaching (trees_at nodes.now roots.now) marks.items) }
{
    if are_clear(nodes) {
        return no_marks(alloc, roots.len());
    }
    let users = users_of(alloc, nodes, roots)?;
    let mut marks = marks_of(alloc, users.as_slice())?;
    marks.pop();
    Ok(marks)
}
