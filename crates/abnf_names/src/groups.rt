//! Things that are put under names.

ghost use Rattle.std.specs.Prelude.{◌≡◌, ◌++◌, ◌∷◌, [], length, OnOk};
ghost use Rattle.abnf_parts.specs.Names.{Name, with_name, folded_text};
ghost use Rattle.abnf_names.specs.own.Passes.{members_of, if_same};

use abnf_parts::Names;
use abnf_token::Folded;
use ls_lists::List;
use std::alloc::{AllocError, Global};
use std::marker::Model;

/// What was put under a name: most names have one thing, which takes no list. Contracts see the list of all.
#[derive(Drop)]
pub(crate) struct Group<T> {
    pub first: T,
    pub rest: List<T>,
}

impl<T> Model for Group<T> {
    ghost use Rattle.std.specs.Prelude.{List as Listed, ◌∷◌};
    ghost use Rattle.std.specs.Coded.{coded_list};

    ghost Value = { Listed T };

    ghost coded = { coded_list T.code };

    ghost view = { λ g. g.first ∷ g.rest };
}

/// Names in the order in which they came, and under each the things that were put there. Contracts see the names, and beside each
/// the list of its things.
#[derive(Drop)]
pub(crate) struct Groups<'t, T> {
    names: Names<'t>,
    members: Vec<Group<T>>,
}

impl<'t, T> Model for Groups<'t, T> {
    ghost use Rattle.std.specs.Prelude.{List, ℕ, ◌≡◌, length};
    ghost use Rattle.std.specs.Coded.{coded_list, coded×, coded_ℕ};

    ghost Value = { List (List ℕ) × List (List T) };

    ghost coded = { coded× (coded_list (coded_list coded_ℕ)) (coded_list (coded_list T.code)) };

    ghost view = { λ g. (g.names, g.members.items) };

    ghost invariant = { λ g. length g.names ≡ length g.members.items };
}

impl<'t, T> Groups<'t, T> {
    /// No names. The seed is that of their table.
    pub fn new(alloc: Global, seed: u64) -> Groups<'t, T>
        ensures { result ≡ ([], []) }
    {
        Groups {
            names: Names::new(alloc, seed),
            members: Vec::new(alloc),
        }
    }

    /// The names, and beside each the list of its things.
    pub fn into_parts(self) -> (Names<'t>, Vec<Group<T>>)
        ensures names { result.0 ≡ self.entry.0 }
        ensures members { result.1.items ≡ self.entry.1 }
        ensures beside { length self.entry.0 ≡ length self.entry.1 }
    {
        (self.names, self.members)
    }
}

impl<T: Drop> Group<T> {
    /// One thing.
    fn of(alloc: Global, first: T) -> Group<T>
        ensures { result ≡ first ∷ [] }
    {
        Group {
            first,
            rest: List::new(alloc),
        }
    }

    /// Puts one more thing behind the others.
    fn push(&mut self, item: T) -> Result<(), AllocError>
        ensures { OnOk result (self.new ≡ self.old ++ item ∷ []) }
    {
        self.rest.push(item)
    }
}

impl<'t, T: Drop> Groups<'t, T> {
    /// Puts one more thing under a name.
    pub fn put(&mut self, alloc: Global, name: Folded<'t>, item: T) -> Result<(), AllocError>
        ensures names { OnOk result (self.new.0 ≡ with_name self.old.0 (folded_text name.entry)) }
        ensures members { OnOk result ((m : Name) → members_of self.new m ≡ members_of self.old m ++ if_same (folded_text name.entry) m item) }
    {
        self.members.reserve(1)?;
        match self.names.add(name)? {
            Some(at) => self.members[at].push(item),
            None => {
                self.members.push_reserved(Group::of(alloc, item));
                Ok(())
            }
        }
    }
}
