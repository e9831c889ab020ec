//! The blocks of a text without their rules.

ghost use Rattle.abnf_names.specs.Shown.{HasFault};

use abnf_syntax::{Block, SyntaxFault};

/// A block of a text, and the fault that it shows if it says no rule.
#[derive(Drop)]
pub struct Section<'t> {
    /// The block, with its items.
    pub block: Block<'t>,
    /// The fault that it shows; `None` if it says a rule.
    pub fault: Option<SyntaxFault>,
    ghost says: { ∥ HasFault block.items fault ∥₁ },
}

/// A section that is listed under a name.
#[derive(Clone, Copy)]
pub(crate) struct Listed<'s, 't> {
    pub section: &'s Section<'t>,
}
