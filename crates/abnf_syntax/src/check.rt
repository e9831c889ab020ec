//! The check of a block: its fault, with no tree of its rule.
//!
//! It needs the open brackets and the last item alone. Where a block shows no fault its rule is read later, where its nodes are made
//! ([`read_block`](crate::read_block)), with no second look for faults.

ghost use Rattle.std.specs.Prelude.{◌≡◌, ◌⊎◌, ◌<◌, ◌∷◌, [], false, reverse, length, All, IfOk, IfErr, OnOk, Some, Ok, Err};
ghost use Rattle.std.specs.Result.{result_err};
ghost use Rattle.abnf_syntax.specs.Grammar.{Derives, kind_of};
ghost use Rattle.abnf_syntax.specs.Kinds.{opens};
ghost use Rattle.abnf_syntax.specs.Faults.{Faults, first_of, open_after};
ghost use Rattle.abnf_syntax.specs.own.Check.{Shows, first_fault, fault_behind};
ghost use Rattle.abnf_syntax.specs.Machine.{parse, early};
ghost use Rattle.abnf_syntax.specs.declared.tree.Rule.{Rule};

use crate::block::Block;
use crate::fault::SyntaxFault;
use crate::heading::Heading;
use crate::item::Item;
use crate::kinds::{closes, opens};
use crate::table::{ParseContext, shows_none};
use abnf_token::Token;
use ls_lists::List;
use std::alloc::{AllocError, Global};

/// What is known of the items so far: the open brackets, the innermost last, and the last item.
#[derive(Drop)]
struct Checker<'t> {
    brackets: List<Token<'t>>,
    last: Item<'t>,
}

impl<'t> Checker<'t> {
    /// The checker behind `=` or `=/`.
    fn new(alloc: Global, defined: Item<'t>) -> Checker<'t>
        ensures { (result.brackets ≡ []) × (result.last ≡ defined.entry) }
    {
        Checker {
            brackets: List::new(alloc),
            last: defined,
        }
    }

    /// What the table of faults looks at.
    fn front(&self) -> ParseContext<'t>
        ensures { result ≡ record {
          inner = first_of (reverse self.now.brackets);
          depth = length (reverse self.now.brackets);
          last = self.now.last;
        } }
    {
        ParseContext {
            inner: self.brackets.as_slice().last().copied(),
            depth: self.brackets.len(),
            last: self.last,
        }
    }

    /// The fault that the next item shows, with what follows it.
    #[tactic(auto, using(crate::proofs::Plain::plain_shows_none))]
    fn item_fault(&self, item: &Item<'t>, rest: &[Item<'t>]) -> Option<SyntaxFault>
        ensures { result ≡ fault_behind self.now.last (reverse self.now.brackets) (item.now ∷ rest.now) }
    {
        if shows_none(self.last.token.kind, item.token.kind) {
            return None;
        }
        self.front().item_fault(item, rest)
    }

    /// Takes the next item, which shows no fault.
    fn shift(&mut self, item: &Item<'t>) -> Result<(), AllocError>
        ensures ok { OnOk result ((self.new.last ≡ item.now) × (reverse self.new.brackets ≡ open_after (reverse self.old.brackets) item.now)) }
        ensures bare { opens (kind_of item.now) ≡ false → result ≡ Ok tt }
    {
        self.last = *item;
        if opens(item.token.kind) {
            return self.brackets.push(item.token);
        }
        if closes(item.token.kind) {
            self.brackets.pop();
        }
        Ok(())
    }

    /// Takes the next item.
    fn step(&mut self, item: &Item<'t>, rest: &[Item<'t>]) -> Result<(), SyntaxFault>
        ensures ok { OnOk result (first_fault self.old.last (reverse self.old.brackets) (item.now ∷ rest.now)
            ≡ first_fault self.new.last (reverse self.new.brackets) rest.now) }
        ensures err { IfErr result (λ fault. (fault ≡ SyntaxFault.Memory)
            ⊎ (first_fault self.old.last (reverse self.old.brackets) (item.now ∷ rest.now) ≡ Some fault)) }
        ensures shown { (fault : SyntaxFault) → fault_behind self.old.last (reverse self.old.brackets) (item.now ∷ rest.now) ≡ Some fault
            → result ≡ Err fault }
        ensures bare { opens (kind_of item.now) ≡ false
            → IfErr result (λ fault. first_fault self.old.last (reverse self.old.brackets) (item.now ∷ rest.now) ≡ Some fault) }
    {
        match self.item_fault(item, rest) {
            Some(fault) => Err(fault),
            None => Ok(self.shift(item)?),
        }
    }

    /// The check of the end.
    fn finish(&self) -> Result<(), SyntaxFault>
        ensures shows { Shows result (fault_behind self.now.last (reverse self.now.brackets) []) }
        ensures shown { (fault : SyntaxFault) → fault_behind self.now.last (reverse self.now.brackets) [] ≡ Some fault
            → result ≡ Err fault }
        ensures bare { IfErr result (λ fault. fault_behind self.now.last (reverse self.now.brackets) [] ≡ Some fault) }
    {
        match self.front().end_fault() {
            Some(fault) => Err(fault),
            None => Ok(()),
        }
    }
}

/// The check of the items behind `=` or `=/`, up to the end of the block.
fn check_body<'t>(alloc: Global, defined: Item<'t>, items: &[Item<'t>]) -> Result<(), SyntaxFault>
    ensures shows { Shows result (first_fault defined.entry [] items.now) }
    ensures shown { (fault : SyntaxFault) → fault_behind defined.entry [] items.now ≡ Some fault → result ≡ Err fault }
    ensures bare { All (λ item. opens (kind_of item) ≡ false) items.now
        → IfErr result (λ fault. first_fault defined.entry [] items.now ≡ Some fault) }
{
    let mut checker = Checker::new(alloc, defined);
    for i in 0..items.len() {
        checker.step(&items[i], &items[i + 1..])?;
    }
    checker.finish()
}

/// The check of these items.
fn checked<'t>(alloc: Global, items: &[Item<'t>]) -> Result<(), SyntaxFault>
    requires { 0 < length items.now }
    ensures shows { Shows result (result_err (parse items.now)) }
    ensures early { (fault : SyntaxFault) → early items.now ≡ Some fault → result ≡ Err fault }
    ensures bare { All (λ item. opens (kind_of item) ≡ false) items.now → IfErr result (λ fault. parse items.now ≡ Err fault) }
{
    let heading = Heading::of(items)?;
    check_body(alloc, heading.defined, heading.body)
}

/// Whether a block says a rule: what [`parse_block`](crate::parse_block) answers, without the rule's tree, in time by the
/// bytes of its items.
///
/// # Errors
///
/// The fault that the first faulty item shows, or the end of the block; of several that it shows, the one that stands
/// first in [`SyntaxFault`]. `Memory` where an allocation is refused, which none needs for a fault of the first three
/// items, nor in a block in which no bracket opens.
pub fn check_block<'t>(alloc: Global, block: &Block<'t>) -> Result<(), SyntaxFault>
    requires { 0 < length block.now.items }

    // Where it says so a rule is derived; and where one is derived it says so, unless memory runs out.
    ensures sound { IfOk result (λ _. (rule : Rule) × Derives block.now.items rule) }
    ensures derived { (rule : Rule) → Derives block.now.items rule
        → (result ≡ Ok tt) ⊎ (result ≡ Err SyntaxFault.Memory) }

    // A fault but for memory is the one that the block shows first; and where it shows one that is answered, unless memory
    // runs out.
    ensures shows { IfErr result (λ fault. (fault ≡ SyntaxFault.Memory) ⊎ Faults block.now.items fault) }
    ensures shown { (fault : SyntaxFault) → Faults block.now.items fault
        → (result ≡ Err fault) ⊎ (result ≡ Err SyntaxFault.Memory) }

    // A fault before which fewer than three items stand needs no memory.
    ensures early { (fault : SyntaxFault) (shows : Faults block.now.items fault) → length shows.front < 3 → result ≡ Err fault }

    // Nor does a block in which no bracket opens.
    ensures bare { All (λ item. opens (kind_of item) ≡ false) block.now.items → IfErr result (λ fault. Faults block.now.items fault) }
{
    checked(alloc, block.items.as_slice())
}
