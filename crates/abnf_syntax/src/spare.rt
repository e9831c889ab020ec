//! Lists whose room serves again.

ghost use Rattle.std.specs.Prelude.{◌≡◌, []};

use crate::tree::{Alternation, Concatenation, Element, Rule};
use ls_lists::List;
use std::alloc::Global;

/// Room that the rules of blocks which were read before don't need any more, for those that are read next: most blocks are
/// short, and then take no memory of their own.
#[derive(Drop)]
pub struct Spare<'t> {
    alloc: Global,
    alternations: Vec<Alternation<'t>>,
    concatenations: Vec<Concatenation<'t>>,
}

impl<'t> Spare<'t> {
    /// No room yet.
    pub fn new(alloc: Global) -> Spare<'t> {
        Spare {
            alloc,
            alternations: Vec::new(alloc),
            concatenations: Vec::new(alloc),
        }
    }

    /// Keeps the room of a rule's body, and of what stands in brackets there, if there is memory for that. What is nested
    /// deeper is let go.
    pub fn keep(&mut self, rule: Rule<'t>) {
        let Rule {
            name: _,
            adds: _,
            mut body,
        } = rule;
        while let Some(mut row) = body.pop() {
            while let Some(repetition) = row.pop() {
                self.keep_inside(repetition.element);
            }
            // Where there is no memory to keep it, it is let go.
            drop(self.concatenations.push(row));
        }
        drop(self.alternations.push(body));
    }

    /// Keeps the room of an element in brackets.
    fn keep_inside(&mut self, element: Element<'t>) {
        match element {
            Element::Group(mut inside) | Element::Choice(mut inside) => {
                while let Some(row) = inside.pop() {
                    drop(self.concatenations.push(row));
                }
                drop(self.alternations.push(inside));
            }
            _ => {}
        }
    }

    /// An empty alternation.
    pub(crate) fn take_alternation(&mut self) -> Alternation<'t>
        ensures { result ≡ [] }
    {
        match self.alternations.pop() {
            Some(list) => emptied(list),
            None => List::new(self.alloc),
        }
    }

    /// An empty concatenation.
    pub(crate) fn take_concatenation(&mut self) -> Concatenation<'t>
        ensures { result ≡ [] }
    {
        match self.concatenations.pop() {
            Some(list) => emptied(list),
            None => List::new(self.alloc),
        }
    }
}

/// A list without its items, but with its room.
fn emptied<T: Drop>(list: List<T>) -> List<T>
    ensures { result ≡ [] }
{
    let mut items = list.into_vec();
    items.clear();
    List::from_vec(items)
}
