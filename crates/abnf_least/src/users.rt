//! For each part the parts whose entries follow from its own.

ghost use Rattle.std.specs.Prelude.{IfNone, IfOk, IfSome, OnOk, ◌≡◌, ◌<◌, ◌+◌, ◌^◌, ℕ, length, slice_index_or};
ghost use Rattle.abnf_parts.specs.Part.{root_number};
ghost use Rattle.abnf_cert.specs.FitsNode.{NodeRefersWithin};
ghost use Rattle.abnf_least.specs.own.Form.{needs, node_form};
ghost use Rattle.abnf_least.specs.own.Users.{AddsUser, AddsEach, AreUsers, InChain, Leads};

use abnf_names::Grammar;
use abnf_parts::{Node, NodeNo};
use std::alloc::{AllocError, Global};

/// A place below this one is 0, which is none, or one more than the number of a user. Places from here on are those of links.
const LINKS: u32 = 0x8000_0000;

/// A user of a part, and the place of the part's next one.
#[derive(Clone, Copy)]
pub(crate) struct Link {
    pub user: u32,
    pub next: u32,
}

/// The users of parts. Most parts have one, the part that they stand in, and then its number is all that is kept. Each further user
/// takes a link, and links lead from one to the next, the last to the user that came first. Numbers have 31 bits, far more than the
/// parts of a text need: where they don't suffice, memory is refused.
#[derive(Drop)]
pub(crate) struct Users {
    /// For each part the place where its users begin, with the one that came last, or 0 where it has none.
    starts: Vec<u32>,
    /// The links of all parts, each after those to which it leads.
    links: Vec<Link>,
}

/// A number in 31 bits, to which 1 may be added.
fn narrow(number: usize) -> Result<u32, AllocError>
    ensures { IfOk result (λ n. (n ≡ number) × (n + 1 < 2 ^ 31)) }
{
    if number >= 0x7fff_ffff {
        return Err(AllocError);
    }
    Ok(number as u32)
}

impl Users {
    /// No users of so many parts.
    fn none_of(alloc: Global, count: usize) -> Result<Users, AllocError>
        ensures { IfOk result (λ u. length u.starts.items ≡ count) }
    {
        Ok(Users {
            starts: vec![in alloc; 0u32; count]?,
            links: Vec::new(alloc),
        })
    }

    /// The users of each part of a grammar.
    pub fn of_grammar(alloc: Global, grammar: &Grammar) -> Result<Users, AllocError>
        ensures { IfOk result (λ u. AreUsers grammar.now.rules u) }
    {
        let nodes = grammar.nodes();
        let mut users = Users::none_of(alloc, nodes.len())?;
        for (number, node) in nodes.iter().enumerate() {
            users.add_node(grammar, node, number)?;
        }
        Ok(users)
    }

    /// The place where the users of a part begin.
    pub fn start_of(&self, part: usize) -> u32
        requires { part < length self.now.starts.items }
        ensures { result ≡ slice_index_or self.now.starts.items part 0 }
    {
        self.starts[part]
    }

    /// The user that stands at a place, and the place of the next one. Each place is less than the one before, so they end.
    pub fn link_at(&self, place: u32) -> Option<Link>
        ensures before { IfSome result (λ link. link.next < place) }
        ensures leads { IfSome result (λ link. Leads self.now.links.items place link.user link.next) }
        ensures ends { IfNone result ((steps k : ℕ) → InChain self.now.links.items steps place k → ⊥) }
    {
        if place == 0 {
            return None;
        }
        if place < LINKS {
            return Some(Link {
                user: place - 1,
                next: 0,
            });
        }
        let number = (place - LINKS) as usize;
        if number >= self.links.len() {
            return None;
        }
        let link = self.links[number];
        // Links lead to places below their own, so this keeps what stands there.
        let next = if link.next < place { link.next } else { 0 };
        Some(Link {
            user: link.user,
            next,
        })
    }

    /// Adds a user of a part, if there is that part.
    fn add(&mut self, part: usize, user: usize) -> Result<(), AllocError>
        ensures { OnOk result (AddsUser self.old part user self.new) }
    {
        if part >= self.starts.len() {
            return Ok(());
        }
        let user = narrow(user)?;
        let next = self.starts[part];
        if next == 0 {
            self.starts[part] = user + 1;
            return Ok(());
        }
        let number = narrow(self.links.len())?;
        self.links.push(Link { user, next })?;
        self.starts[part] = LINKS + number;
        Ok(())
    }

    fn add_each(&mut self, parts: &[NodeNo], user: usize) -> Result<(), AllocError>
        ensures { OnOk result (AddsEach self.old parts.now user self.new) }
    {
        for part in parts {
            self.add(part.get(), user)?;
        }
        Ok(())
    }

    /// Adds a node as the user of the parts from which its entry follows.
    fn add_node(&mut self, grammar: &Grammar, node: &Node, user: usize) -> Result<(), AllocError>
        requires { NodeRefersWithin (length grammar.now.rules) node.now }
        ensures { OnOk result (AddsEach self.old (needs (node_form (root_number grammar.now.rules) node.now)) user self.new) }
    {
        match node {
            Node::Seq(parts) | Node::Alt(parts) => self.add_each(parts.as_slice(), user),
            Node::Rep { body, .. } => self.add(body.get(), user),
            Node::Ref {
                rule: Some(rule),
                ..
            } => self.add(grammar.root_of(*rule).get(), user),
            _ => Ok(()),
        }
    }
}
