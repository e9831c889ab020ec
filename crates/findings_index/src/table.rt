//! Names by numbers.

ghost use Rattle.std.specs.Prelude.{◌≡◌, ◌↔◌, [], ℕ, false, Contains, List, Option, Some, IfOk, OnOk, fold, length, nat_eq, slice_get};
ghost use Rattle.std.specs.Char.{to_ascii_lowercase};
ghost use Rattle.std.specs.List.{list_all};
ghost use Rattle.std.specs.Option.{option_map_or};
ghost use Rattle.abnf_parts.specs.Core.{is_core_name};
ghost use Rattle.abnf_parts.specs.Names.{Name, folded_text, rule_number, with_name};
ghost use Rattle.abnf_parts.specs.Part.{Part, ref, subparts};
ghost use Rattle.findings_index.specs.Words.{IsLater, names_in};

use abnf_parts::{Seeded, is_core_name};
use abnf_token::Folded;
use indexmap::IndexSet;
use std::alloc::{AllocError, Global};
use std::marker::Model;

/// Whether a text has no capitals.
fn is_small(text: &str) -> bool
    ensures { result ≡ list_all (λ byte. nat_eq (to_ascii_lowercase byte) byte) text.now }
{
    text.as_bytes()
        .iter()
        .all(|byte| byte.to_ascii_lowercase() == *byte)
}

/// Names in small letters, each once, in the order in which they came. A name's number is its place. Contracts see the list of names.
#[derive(Drop)]
pub(crate) struct NameTable {
    alloc: Global,
    names: IndexSet<String, Seeded>,
}

impl Model for NameTable {
    ghost use Rattle.std.specs.Prelude.{List, ℕ, map, string_bytes};

    ghost Value = { List (List ℕ) };

    ghost view = { λ table. map string_bytes table.names.keys };
}

impl NameTable {
    /// No names. Where anybody may choose those that come, the seed should be one that they don't know.
    pub(crate) fn new(alloc: Global, seed: u64) -> NameTable
        ensures { result ≡ [] }
    {
        NameTable {
            alloc,
            names: IndexSet::with_hasher(alloc, Seeded::by(seed)),
        }
    }

    /// How many names there are.
    pub(crate) fn len(&self) -> usize
        ensures { result ≡ length self.now }
    {
        self.names.len()
    }

    /// The number of a name, which is added unless it is there.
    ///
    /// # Errors
    ///
    /// Where an allocation is refused.
    pub(crate) fn number_of<'t>(&mut self, name: Folded<'t>) -> Result<usize, AllocError>
        ensures names { OnOk result (self.new ≡ with_name self.old (folded_text name.entry)) }
        ensures number { IfOk result (λ number. rule_number self.new (folded_text name.entry) ≡ Some number) }
    {
        let small = name.0.to_ascii_lowercase(self.alloc)?;
        let (number, _) = self.names.insert_full(small)?;
        Ok(number)
    }

    /// The number of a name, if it is there. Nothing is added.
    ///
    /// # Errors
    ///
    /// Where an allocation is refused. Only a name with capitals needs one.
    pub(crate) fn find(&self, name: Folded<'_>) -> Result<Option<usize>, AllocError>
        ensures { IfOk result (λ number. number ≡ rule_number self.now (folded_text name.entry)) }
    {
        let Folded(text) = name;
        if is_small(text) {
            return Ok(self.names.get_index_of(text));
        }
        let small = text.to_ascii_lowercase(self.alloc)?;
        Ok(self.names.get_index_of(small.as_str()))
    }

    /// Whether the name with this number is that of a core rule.
    pub(crate) fn is_core(&self, number: usize) -> bool
        ensures { result ≡ option_map_or is_core_name (slice_get self.now number) false }
    {
        match self.names.get_index(number) {
            Some(name) => is_small(name) && is_core_name(Folded(name)),
            None => false,
        }
    }
}

/// Where names are added to a table, those that were there keep their numbers, each has one, and no two have the same. The names that the
/// words of a part add are those that it uses.
pub fn tables_keep_numbers()
    ensures stay { (table names : List Name) → IsLater table (fold with_name table names) }
    ensures come { (names table : List Name) (name : Name) → Contains names name → (number : ℕ) × (rule_number (fold with_name table names) name ≡ Some number) }
    ensures differ { (table : List Name) (one other : Name) (number : ℕ) → rule_number table one ≡ Some number → rule_number table other ≡ Some number → one ≡ other }
    ensures used { (part : Part) (name : Name) → Contains (names_in part) name ↔ ((rule : Option ℕ) × Contains (subparts part) (ref name rule)) }
{}
