//! The sections of a text, and the rules that they say.

ghost use Rattle.std.specs.Prelude.{◌≡◌, ◌<◌, length, Option, Result, IfOk};
ghost use Rattle.abnf_syntax.specs.declared.fault.SyntaxFault.{SyntaxFault};
ghost use Rattle.abnf_syntax.specs.declared.tree.Rule.{Rule};
ghost use Rattle.abnf_names.specs.Sections.{HaveSameAlternatives, AreSections, IsSaidBy};
ghost use Rattle.abnf_names.specs.Shown.{HasFault};

use crate::section::Section;
use abnf_syntax::{Block, Rule, Spare, SyntaxFault, blocks, check_block, read_block};
use ls_lists::List;
use ls_text::Snapshot;
use std::alloc::{AllocError, Global};

/// The fault that a block shows, if it says no rule.
fn fault_shown(alloc: Global, block: &Block<'_>) -> Result<Option<SyntaxFault>, AllocError>
    requires { 0 < length block.now.items }
    ensures { IfOk result (λ fault. HasFault block.now.items fault) }
{
    match check_block(alloc, block) {
        Ok(()) => Ok(None),
        Err(fault) => match fault {
            SyntaxFault::Memory => Err(AllocError),
            _ => Ok(Some(fault)),
        },
    }
}

/// A block with its fault, if it says no rule. It is checked, and no tree is made.
///
/// # Errors
///
/// Where an allocation is refused.
pub fn section_of<'t>(alloc: Global, block: Block<'t>) -> Result<Section<'t>, AllocError>
    requires { 0 < length block.items }
    ensures { IfOk result (λ section. section.block ≡ block.entry) }
{
    let fault = fault_shown(alloc, &block)?;
    Ok(Section { block, fault })
}

/// The blocks of a text, all and in order, each with its fault if it says no rule. Time goes by the length of the text.
///
/// # Errors
///
/// Where an allocation is refused.
pub fn sections_of<'t>(
    alloc: Global,
    snapshot: &'t Snapshot,
) -> Result<List<Section<'t>>, AllocError>
    ensures { IfOk result (λ sections. AreSections snapshot.entry.now sections) }
{
    let blocks = blocks(alloc, snapshot)?;
    let mut sections = Vec::with_capacity(alloc, blocks.len())?;
    for block in blocks {
        sections.push(section_of(alloc, block)?)?;
    }
    Ok(List::from_vec(sections))
}

/// The rule that the block of a section says; `None` if it says none, as one without items.
///
/// # Errors
///
/// Where an allocation is refused.
pub fn rule_of<'t>(
    alloc: Global,
    spare: &mut Spare<'t>,
    section: &Section<'t>,
) -> Result<Option<Rule<'t>>, AllocError>
    ensures { IfOk result (λ rule. (said : Result Rule SyntaxFault) → IsSaidBy section.now said
        → HaveSameAlternatives said rule) }
{
    if section.fault.is_some() {
        return Ok(None);
    }
    if section.block.items.is_empty() {
        return Ok(None);
    }
    let rule = read_block(alloc, spare, &section.block)?;
    Ok(Some(rule))
}
