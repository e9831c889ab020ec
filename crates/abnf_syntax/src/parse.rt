//! The parse of a block.

ghost use Rattle.std.specs.Prelude.{◌≡◌, ◌⊎◌, ◌<◌, length, IfOk, IfErr, IsOk, Ok, Err};
ghost use Rattle.abnf_syntax.specs.Grammar.{Derives, HasOneRule};
ghost use Rattle.abnf_syntax.specs.Faults.{Faults};
ghost use Rattle.abnf_syntax.specs.Machine as spec;
ghost use Rattle.abnf_syntax.specs.declared.tree.Rule.{Rule};

use crate::block::Block;
use crate::check::check_block;
use crate::fault::SyntaxFault;
use crate::heading::Heading;
use crate::item::Item;
use crate::kinds::is_adds;
use crate::parser::sound_body_of;
use crate::spare::Spare;
use crate::tree::Rule;
use std::alloc::{AllocError, Global};

/// The rule that a block says (`rule`; RFC 5234 section 4, with the strings of RFC 7405 section 2.2), in time by the
/// bytes of its items. There is at most one.
///
/// Groups and options may nest 64 deep, and numbers may be up to 4,294,967,295. The rule holds tokens of the block.
///
/// # Errors
///
/// The fault that the first faulty item shows, or the end of the block; of several that it shows, the one that stands
/// first in [`SyntaxFault`]. `Memory` where an allocation is refused, which none needs for a fault of the first three
/// items.
pub fn parse_block<'t>(alloc: Global, block: &Block<'t>) -> Result<Rule<'t>, SyntaxFault>
    requires { 0 < length block.now.items }

    // A rule that is given is derived; and a rule that is derived is given, unless memory runs out. There is at most one.
    ensures derives { IfOk result (λ rule. Derives block.now.items rule) }
    ensures derived { (rule : Rule) → Derives block.now.items rule
        → (result ≡ Ok rule) ⊎ (result ≡ Err SyntaxFault.Memory) }
    ensures one { HasOneRule block.now.items }

    // A fault but for memory is the one that the block shows first; and where it shows one that is answered, unless memory
    // runs out.
    ensures shows { IfErr result (λ fault. (fault ≡ SyntaxFault.Memory) ⊎ Faults block.now.items fault) }
    ensures shown { (fault : SyntaxFault) → Faults block.now.items fault
        → (result ≡ Err fault) ⊎ (result ≡ Err SyntaxFault.Memory) }

    // A fault before which fewer than three items stand needs no memory.
    ensures early { (fault : SyntaxFault) (shows : Faults block.now.items fault) → length shows.front < 3 → result ≡ Err fault }
{
    match check_block(alloc, block) {
        Err(fault) => Err(fault),
        Ok(()) => Ok(read_block(alloc, &mut Spare::new(alloc), block)?),
    }
}

/// The rule that these items say.
fn sound_parsed<'t>(
    alloc: Global,
    spare: &mut Spare<'t>,
    items: &[Item<'t>],
) -> Result<Rule<'t>, AllocError>
    requires some { 0 < length items.now }
    requires sound { IsOk (spec.parse items.now) }
    ensures { IfOk result (λ rule. spec.parse items.now ≡ Ok rule) }
{
    let Ok(heading) = Heading::of(items) else {
        unreachable!()
    };
    let body = sound_body_of(alloc, spare, heading.defined, heading.body)?;
    Ok(Rule {
        name: heading.head.token,
        adds: is_adds(heading.defined.token.kind),
        body,
    })
}

/// The rule that a block says which shows no fault: what [`parse_block`] answers. Nothing is looked for twice, and the
/// rule takes spare room where there is some, which changes no answer.
///
/// # Errors
///
/// Where an allocation is refused.
pub fn read_block<'t>(
    alloc: Global,
    spare: &mut Spare<'t>,
    block: &Block<'t>,
) -> Result<Rule<'t>, AllocError>
    requires some { 0 < length block.now.items }
    requires sound { (fault : SyntaxFault) → Faults block.now.items fault → ⊥ }
    ensures derives { IfOk result (λ rule. Derives block.now.items rule) }
    ensures one { HasOneRule block.now.items }
{
    sound_parsed(alloc, spare, block.items.as_slice())
}
