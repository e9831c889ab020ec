//! The names of the rules.

ghost use Rattle.std.specs.Prelude.{◌≡◌, [], ◌<◌, ◌^◌, ◌++◌, length, map, IfOk, IfSome, IsTrue, OnErr, OnOk, Some};
ghost use Rattle.std.specs.List.{list_any};
ghost use Rattle.std.specs.Str.{bytes_eq};
ghost use Rattle.abnf_parts.specs.Names.{rule_number, with_name, folded_text, all_names};

use crate::node::RuleNo;
use crate::seeded::Seeded;
use abnf_token::Folded;
use indexmap::IndexSet;
use std::alloc::{AllocFailed, Global};
use std::marker::Model;

/// Names, each once, in the order in which they came. Contracts see the list of names with their letters made small.
#[derive(Drop)]
pub struct Names<'t> {
    names: IndexSet<Folded<'t>, Seeded>,
}

impl<'t> Model for Names<'t> {
    ghost use Rattle.std.specs.Prelude.{List, ℕ, map};
    ghost use Rattle.abnf_parts.specs.Names.{folded_text};

    ghost Value = { List (List ℕ) };

    ghost view = { λ n. map folded_text n.names.keys };
}

impl<'t> Names<'t> {
    /// No names. Where anybody may choose those that come, the seed should depend on all of them. It takes no memory.
    pub fn new(alloc: Global, seed: u64) -> Names<'t>
        ensures { result ≡ [] }
    {
        Names {
            names: IndexSet::with_hasher(alloc, Seeded::by(seed)),
        }
    }

    /// The place of a name among them, from 0, in any case of letters; `None` if it isn't there. It is found by its hash.
    pub fn index_of(&self, name: Folded<'t>) -> Option<usize>
        ensures index { result ≡ rule_number self.now (folded_text name.entry) }
        ensures small { IfSome result (λ i. i < 2 ^ 63) }
    {
        // What `len` ensures bounds the place too.
        let _bounded = self.names.len();
        self.names.get_index_of(&name)
    }

    /// Whether this is the name at a place, and so the place is the name's.
    fn is_at(&self, name: Folded<'t>, place: usize) -> bool
        ensures { IsTrue result → rule_number self.now (folded_text name.entry) ≡ Some place }
    {
        // What `as_slice` ensures says that no two names are the same.
        let _distinct = self.names.as_slice();
        match self.names.get_index(place) {
            Some(found) => *found == name,
            None => false,
        }
    }

    /// Whether the name is there.
    pub(crate) fn contains(&self, name: Folded<'t>) -> bool
        ensures { result ≡ list_any (bytes_eq (folded_text name.entry)) self.now }
    {
        match self.index_of(name) {
            Some(_) => true,
            None => false,
        }
    }

    /// The names in their order, each as it was written when it came.
    pub fn as_slice(&self) -> &[Folded<'t>]
        ensures { map folded_text result.now ≡ self.now }
    {
        self.names.as_slice()
    }

    /// How many names there are.
    pub fn len(&self) -> usize
        ensures len { result ≡ length self.now }
        ensures small { result < 2 ^ 63 }
    {
        self.names.len()
    }

    /// Adds a name at the end unless it is there, in any case of letters, and gives the place that it had before, from 0;
    /// `None` if it is new, and so the last one. It is looked for by its hash.
    ///
    /// # Errors
    ///
    /// Where an allocation is refused. The names are then as before.
    pub fn add(&mut self, name: Folded<'t>) -> Result<Option<usize>, AllocFailed<Folded<'t>>>
        ensures names { OnOk result (self.new ≡ with_name self.old (folded_text name.entry)) }
        ensures place { IfOk result (λ place. place ≡ rule_number self.old (folded_text name.entry)) }
        ensures same { OnErr result (self.new ≡ self.old) }
    {
        let (place, is_new) = self.names.insert_full(name)?;
        Ok(if is_new { None } else { Some(place) })
    }
}

/// The names of the rules of a text, and then those of the core rules that it needs. Contracts see the two lists. A name may stand
/// in both; it then stands for the rule of the text.
#[derive(Drop)]
pub struct RuleNames<'t> {
    own: Names<'t>,
    core: Names<'t>,
}

impl<'t> Model for RuleNames<'t> {
    ghost use Rattle.std.specs.Prelude.{List, ℕ};

    ghost Value = { List (List ℕ) × List (List ℕ) };

    ghost view = { λ n. (n.own, n.core) };
}

impl<'t> RuleNames<'t> {
    /// These names of the text's rules, and these of core rules.
    pub fn new(own: Names<'t>, core: Names<'t>) -> RuleNames<'t>
        ensures { result ≡ (own.entry, core.entry) }
    {
        RuleNames { own, core }
    }

    /// The names of the rules of the text.
    pub fn own(&self) -> &Names<'t>
        ensures { result.now ≡ self.now.0 }
    {
        &self.own
    }

    /// The names of the core rules that are needed.
    pub fn core(&self) -> &Names<'t>
        ensures { result.now ≡ self.now.1 }
    {
        &self.core
    }

    /// The rule that a name stands for: that of the text which has it, else the core rule; `None` where neither has. Core
    /// rules are numbered behind those of the text. Names are found by their hashes.
    pub fn rule_of(&self, name: Folded<'t>) -> Option<RuleNo>
        ensures { result ≡ rule_number (all_names self.now) (folded_text name.entry) }
    {
        if let Some(rule) = self.own.index_of(name) {
            return Some(RuleNo::new(rule));
        }
        match self.core.index_of(name) {
            Some(rule) => Some(RuleNo::new(self.own.len() + rule)),
            None => None,
        }
    }

    /// The rule of [`rule_of`](RuleNames::rule_of), or `None`, without a look for it where the guess is right that the
    /// text's rule with this number has the name.
    pub fn rule_guessed(&self, name: Folded<'t>, guess: usize) -> Option<RuleNo>
        ensures { result ≡ rule_number (all_names self.now) (folded_text name.entry) }
    {
        if self.own.is_at(name, guess) {
            Some(RuleNo::new(guess))
        } else {
            self.rule_of(name)
        }
    }
}
